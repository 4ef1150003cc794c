//! Parameters in words (RFC 9460 2.1).
ghost use Rattle.std.specs.Prelude.{◌⊎◌, IfOk, IfErr};
ghost use Rattle.drd_params.specs.Params.{IsParam};
ghost use Rattle.drd_params.specs.drd_words.Word.{IsOutOfMemory};
ghost use Rattle.drd_params.specs.drd_words.RefusalsLaws.{by_part};
ghost use Rattle.drd_svcb.specs.ParamRefusals.{NoParamText, RefusesParamTexts};
ghost use Rattle.drd_svcb.specs.ParamRefusalsLaws.{texts_causes};
ghost use Rattle.drd_svcb.specs.Texts.{IsParamText, AreParamTexts};

use crate::value::value_of;
use drd_param_keys::{SvcParamKey, parts_of, unquoted};
use drd_params::{Name, ParseError, SvcParamValue, Words};
use std::alloc::{AllocError, Global};

/// The parameters that words write, each one of them.
#[derive(Drop)]
pub struct ParamWords(pub(crate) Vec<(SvcParamKey, SvcParamValue)>);

impl Words for ParamWords {
    ghost written = { λ words origin params. AreParamTexts params.0.items words };

    ghost refuses = { λ words origin. RefusesParamTexts 0 words };

    ghost laws = { λ words origin. by_part (λ params. params.0.items) (texts_causes words) };

    fn from_words(
        alloc: Global,
        words: &[&str],
        _origin: Option<&Name>,
    ) -> Result<ParamWords, ParseError> {
        let mut params = Vec::new(alloc);
        let mut least = 0;
        'words: for word in words {
            let param = match param_of(alloc, *word) {
                Ok(param) => param,
                Err(refused) => return Err(refused),
            };
            let number = u32::from(u16::from(param.0));
            if number < least {
                return Err(ParseError::Message("the keys of parameters rise"));
            }
            match params.push(param) {
                Ok(()) => {}
                Err(_) => return Err(ParseError::Memory(AllocError)),
            }
            least = number + 1;
        }
        Ok(ParamWords(params))
    }
}

// The parameter of a word.
fn param_of(alloc: Global, word: &str) -> Result<(SvcParamKey, SvcParamValue), ParseError>
    ensures ok { IfOk result (λ param. IsParamText param word.now × IsParam param) }
    ensures refused { IfErr result (λ e. IsOutOfMemory e ⊎ NoParamText word.now e) }
{
    let (key, value) = parts_of(word);
    let key: SvcParamKey = match key.parse() {
        Ok(key) => key,
        Err(refused) => return Err(refused),
    };
    let value = match value_of(alloc, key, unquoted(value)) {
        Ok(value) => value,
        Err(refused) => return Err(refused),
    };
    match value.octet_len() {
        Some(_len) => Ok((key, value)),
        None => Err(ParseError::Message("a value has at most 65,535 octets")),
    }
}
