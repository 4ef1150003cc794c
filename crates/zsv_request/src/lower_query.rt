//! Questions with their names in lower case (RFC 1035 section 4.1.2, RFC 4343).

ghost use Rattle.std.specs.Prelude.{◌≡◌, IfOk};
ghost use Rattle.zsv_message.specs.zst_record.dnw_name.DomainName.{lowercase_name};
ghost use Rattle.zsv_message.specs.zsv_parts.Questions.{QuestionAt, RefusesQuestion};

use std::alloc::{AllocError, Global};
use std::marker::Model;
use zsv_message::{BinDecodable, BinDecoder, DNSClass, DecodeError, LowerName, Query, RecordType};

/// A question, and beside it its name in lower case. A contract sees it as the question, as it was asked.
#[derive(Debug, Drop)]
pub struct LowerQuery {
    name: LowerName,
    original: Query,
}

impl Model for LowerQuery {
    ghost use Rattle.std.specs.Prelude.{◌≡◌};
    ghost use Rattle.zsv_message.specs.zst_record.dnw_name.DomainName.{lowercase_name};
    ghost use Rattle.zsv_message.specs.zsv_parts.declared.question.Query.{Query as Question};

    ghost Value = { Question };

    ghost view = { λ query. query.original };

    ghost invariant = { λ query. query.name ≡ lowercase_name query.original.name };
}

impl LowerQuery {
    /// The question with its name in lower case beside it.
    pub fn from_query(original: Query) -> Result<LowerQuery, AllocError>
        ensures { IfOk result (λ query. query ≡ original) }
    {
        let name = LowerName::new(&original.name)?;
        Ok(LowerQuery { name, original })
    }

    /// The name asked for, in lower case.
    pub fn name(&self) -> &LowerName
        ensures { result.now ≡ lowercase_name self.now.name }
    {
        &self.name
    }

    /// The type asked for.
    pub fn query_type(&self) -> RecordType
        ensures { result ≡ self.now.query_type }
    {
        self.original.query_type
    }

    /// The class asked for.
    pub fn query_class(&self) -> DNSClass
        ensures { result ≡ self.now.query_class }
    {
        self.original.query_class
    }

    /// The question as it was asked.
    pub fn original(&self) -> &Query
        ensures { result.now ≡ self.now }
    {
        &self.original
    }
}

impl BinDecodable for LowerQuery {
    ghost reads = { QuestionAt };

    ghost refuses = { RefusesQuestion };

    /// The question at the decoder's index, which moves behind it. On an error the decoder stays.
    fn read(alloc: Global, decoder: &mut BinDecoder<'_>) -> Result<LowerQuery, DecodeError> {
        let start = decoder.index();
        let original = Query::read(alloc, decoder)?;
        match LowerQuery::from_query(original) {
            Ok(query) => Ok(query),
            Err(_) => {
                decoder.set_index(start);
                Err(DecodeError::Memory)
            }
        }
    }
}
