//! Questions (RFC 1035 section 4.1.2).

ghost use Rattle.std.specs.Prelude.{◌≡◌, ◌==◌, ◌<◌, ◌≤◌, ◌^◌, ◌⊎◌, ℕ, List, length, IfOk, IfErr, MatchOption};
ghost use Rattle.dnw_encoder.specs.dnw_name.DomainName.{DomainName};
ghost use Rattle.std.specs.Cmp.{partial_equiv_from_equiv};
ghost use Rattle.dnw_encoder.specs.dnw_decoder.Reading.{IsWantOfMemory};
ghost use Rattle.zsv_parts.specs.declared.question.Query.{Query as Question};
ghost use Rattle.zsv_parts.specs.QuestionLaws.{asked_equiv, question_equiv};
ghost use Rattle.zsv_parts.specs.Questions.{Asked, AskedAt, HasWholeName, IsSection, QuestionAt, QuestionsAt, RefusesQuestion, RefusesQuestions, asked_eq, question_eq};

use dnw_codes::{DNSClass, DecodeError, RecordType};
use dnw_encoder::{BinDecodable, BinDecoder, Name};
use smallvec::SmallVec;
use std::alloc::Global;
use std::default::MadeWith;
use std::marker::Model;

/// A question: a name, a type and a class.
#[derive(Debug, Drop)]
pub struct Query {
    /// The name asked for.
    pub name: Name,
    /// The type asked for.
    pub query_type: RecordType,
    /// The class asked for.
    pub query_class: DNSClass,
}

/// Whether two questions have the same name, type and class, the name without regard to case (RFC 4343).
impl PartialEq for Query {
    ghost eq = { question_eq };

    ghost laws = { partial_equiv_from_equiv question_equiv };

    fn eq(&self, other: &Query) -> bool {
        self.name == other.name
            && self.query_type == other.query_type
            && self.query_class == other.query_class
    }
}

impl Eq for Query {
    ghost laws = { question_equiv };
}

// What stands in the inline place of a list of questions where none is: it takes no memory.
impl MadeWith<Global> for Query {
    fn made_with(alloc: Global) -> Query {
        Query {
            name: Name::root(alloc),
            query_type: RecordType::ZERO,
            query_class: DNSClass::IN,
        }
    }
}

// The question at the decoder's index. On an error the decoder is where reading stopped.
fn read_query(alloc: Global, decoder: &mut BinDecoder<'_>) -> Result<Query, DecodeError>
    ensures ok { IfOk result (λ question. QuestionAt decoder.old.octets decoder.old.index question decoder.new.index) }
    ensures same { decoder.new.octets ≡ decoder.old.octets }
    ensures forward { decoder.old.index ≤ decoder.new.index }
    ensures within { decoder.new.index ≤ length decoder.new.octets }
    ensures refused { IfErr result (RefusesQuestion decoder.old.octets decoder.old.index) }
    ensures none { IfErr result (λ e. IsWantOfMemory e ⊎ ((question : Question) (end : ℕ)
        → QuestionAt decoder.old.octets decoder.old.index question end → ⊥)) }
{
    let name = Name::read(alloc, decoder)?;
    let query_type = RecordType::read(alloc, decoder)?;
    let query_class = DNSClass::read(alloc, decoder)?;
    Ok(Query {
        name,
        query_type,
        query_class,
    })
}

impl BinDecodable for Query {
    ghost reads = { QuestionAt };

    ghost refuses = { RefusesQuestion };

    /// The question at the decoder's index, which moves behind it. On an error the decoder stays.
    fn read(alloc: Global, decoder: &mut BinDecoder<'_>) -> Result<Query, DecodeError> {
        let start = decoder.index();
        match read_query(alloc, decoder) {
            Ok(question) => Ok(question),
            Err(refused) => {
                decoder.set_index(start);
                Err(refused)
            }
        }
    }
}

// So many questions from the decoder's index on, which moves behind them. One, as nearly every request asks, takes no
// memory for the list.
fn read_questions(
    alloc: Global,
    decoder: &mut BinDecoder<'_>,
    count: u16,
) -> Result<SmallVec<Query, 1>, DecodeError>
    ensures ok { IfOk result (λ questions. QuestionsAt decoder.old.octets decoder.old.index count questions.items decoder.new.index) }
    ensures same { decoder.new.octets ≡ decoder.old.octets }
    ensures forward { decoder.old.index ≤ decoder.new.index }
    ensures within { decoder.old.index ≤ length decoder.old.octets → decoder.new.index ≤ length decoder.new.octets }
    ensures refused { IfErr result (λ e. IsWantOfMemory e ⊎ RefusesQuestions decoder.old.octets decoder.old.index count e) }
    ensures none { IfErr result (λ e. IsWantOfMemory e ⊎ ((questions : List Question) (end : ℕ)
        → QuestionsAt decoder.old.octets decoder.old.index count questions end → ⊥)) }
{
    let mut questions = SmallVec::new(alloc);
    'questions: for _ in 0..count {
        let question = Query::read(alloc, decoder)?;
        let Ok(()) = questions.push(question) else {
            return Err(DecodeError::Memory);
        };
    }
    Ok(questions)
}

/// The questions of a message, and the octets in which they stand.
#[derive(Debug, Drop)]
pub struct Queries<'m> {
    queries: SmallVec<Query, 1>,
    original: &'m [u8],
}

impl<'m> Model for Queries<'m> {
    ghost use Rattle.zsv_parts.specs.Questions.{Asked, IsSection};

    ghost Value = { Asked };

    ghost view = { λ asked. record { questions = asked.queries.items; octets = asked.original.now } };

    ghost invariant = { λ asked. IsSection (record { questions = asked.queries.items; octets = asked.original.now }) };
}

impl<'m> Queries<'m> {
    /// So many questions from the decoder's index on, which moves behind them.
    pub fn read(
        alloc: Global,
        decoder: &mut BinDecoder<'m>,
        count: u16,
    ) -> Result<Queries<'m>, DecodeError>
        ensures ok { IfOk result (λ asked. AskedAt decoder.old.octets decoder.old.index count asked decoder.new.index) }
        ensures same { decoder.new.octets ≡ decoder.old.octets }
        ensures forward { decoder.old.index ≤ decoder.new.index }
        ensures within { decoder.new.index ≤ length decoder.new.octets }
        ensures refused { IfErr result (λ e. IsWantOfMemory e ⊎ RefusesQuestions decoder.old.octets decoder.old.index count e) }
        ensures none { IfErr result (λ e. IsWantOfMemory e ⊎ ((asked : Asked) (end : ℕ)
            → AskedAt decoder.old.octets decoder.old.index count asked end → ⊥)) }
    {
        let start = decoder.index();
        let queries = read_questions(alloc, decoder, count)?;
        let original = decoder.slice_from(start)?;
        Ok(Queries { queries, original })
    }

    /// How many questions there are, as 16 bits count them.
    pub fn len(&self) -> usize
        ensures value { result ≡ length self.now.questions }
        ensures few { result < 2 ^ 16 }
    {
        self.queries.len()
    }

    /// Whether there is no question.
    pub fn is_empty(&self) -> bool
        ensures { result ≡ (length self.now.questions == 0) }
    {
        self.queries.is_empty()
    }

    /// The questions, in order, as they were read from some message.
    pub fn queries(&self) -> &[Query]
        ensures value { result.now ≡ self.now.questions }
        ensures section { IsSection self.now }
    {
        self.queries.as_slice()
    }

    /// The name of the question, if there is one question, and its name stands in full.
    pub fn whole_name(&self) -> Option<&Name>
        ensures { MatchOption result ((name : DomainName) → HasWholeName self.now name → ⊥) (λ name. HasWholeName self.now name.now) }
    {
        let query = self.queries.first()?;
        // (behind the name and its end stand type and class)
        let is_whole = self.original.len() == query.name.as_octets().len() + 5;
        if self.queries.len() == 1 && is_whole {
            Some(&query.name)
        } else {
            None
        }
    }

    /// The octets of the question section, as they were sent.
    pub fn as_bytes(&self) -> &'m [u8]
        ensures { result.now ≡ self.now.octets }
    {
        self.original
    }
}

/// Whether the questions are the same, and the octets in which they stand.
impl PartialEq for Queries<'_> {
    ghost eq = { asked_eq };

    ghost laws = { partial_equiv_from_equiv asked_equiv };

    fn eq(&self, other: &Queries<'_>) -> bool {
        self.queries == other.queries && self.original == other.original
    }
}

impl Eq for Queries<'_> {
    ghost laws = { asked_equiv };
}
