//! What a handler answers to a name and a type.

ghost use Rattle.std.specs.Prelude.{◌≡◌, IsSome, Some};
ghost use Rattle.zst_handler.specs.Answers.{additionals_in, additionals_of, answers_in, authorities_of, first_type, lends_all, none_in, without_additionals, zone_additionals, zone_records};

use crate::lookup_records::{LookupRecords, LookupRecordsIter};
use zst_record::{Record, RecordType};

/// What a handler answers to a name and a type.
#[derive(Drop)]
pub enum AuthLookup<'z> {
    /// Nothing.
    Empty,
    /// Records of a zone, and those that go with them.
    Records {
        /// The records that answer.
        answers: LookupRecords<'z>,
        /// The records that go with them.
        additionals: Option<LookupRecords<'z>>,
    },
    /// The sections of a message.
    Response {
        /// The records that answer.
        answers: Vec<Record>,
        /// The records of authority.
        authorities: Vec<Record>,
        /// The records that go with them.
        additionals: Vec<Record>,
    },
}

impl<'z> AuthLookup<'z> {
    /// Records of a zone, and those that go with them.
    pub fn answers(
        answers: LookupRecords<'z>,
        additionals: Option<LookupRecords<'z>>,
    ) -> AuthLookup<'z>
        ensures { result ≡ AuthLookup.Records answers.entry additionals.entry }
    {
        AuthLookup::Records {
            answers,
            additionals,
        }
    }

    /// Whether a zone lends all records as it has them, so that their lists take no memory.
    pub fn is_lent(&self) -> bool
        ensures { result ≡ lends_all self.now }
    {
        match self {
            AuthLookup::Empty => true,
            AuthLookup::Records {
                answers,
                additionals: None,
            } => answers.is_lent(),
            AuthLookup::Records {
                answers,
                additionals: Some(additionals),
            } => answers.is_lent() && additionals.is_lent(),
            AuthLookup::Response { .. } => false,
        }
    }

    /// Whether no record answers.
    pub fn is_empty(&self) -> bool
        ensures { result ≡ none_in (answers_in self.now) }
    {
        self.was_empty()
    }

    /// Whether no record answers, as `is_empty` tells it.
    pub fn was_empty(&self) -> bool
        ensures { result ≡ none_in (answers_in self.now) }
    {
        self.iter().next().is_none()
    }

    /// The records that answer, in order.
    pub fn iter(&self) -> LookupRecordsIter<'_>
        ensures { result ≡ answers_in self.now }
    {
        match self {
            AuthLookup::Empty => LookupRecordsIter::of_records(&[]),
            AuthLookup::Records { answers, .. } => answers.iter(),
            AuthLookup::Response { answers, .. } => LookupRecordsIter::of_records(answers),
        }
    }

    /// The type of the first record that answers.
    pub fn first_type(&self) -> Option<RecordType>
        ensures { result ≡ first_type (answers_in self.now) }
    {
        match self {
            AuthLookup::Empty => None,
            AuthLookup::Records { answers, .. } => answers.first_type(),
            AuthLookup::Response { answers, .. } => {
                let first = answers.first()?;
                Some(first.record_type())
            }
        }
    }

    /// The records that go with them, in order.
    pub fn additional_records(&self) -> LookupRecordsIter<'_>
        ensures { result ≡ additionals_in self.now }
    {
        match self {
            AuthLookup::Empty => LookupRecordsIter::of_records(&[]),
            AuthLookup::Records { additionals, .. } => match additionals {
                Some(additionals) => additionals.iter(),
                None => LookupRecordsIter::of_records(&[]),
            },
            AuthLookup::Response { additionals, .. } => LookupRecordsIter::of_records(additionals),
        }
    }

    /// The records of a zone that answer. It asks that they are a zone's.
    pub fn unwrap_records(self) -> LookupRecords<'z>
        requires { IsSome (zone_records self) }
        ensures { zone_records self.entry ≡ Some result }
    {
        match self {
            AuthLookup::Records { answers, .. } => answers,
            _ => unreachable!(),
        }
    }

    /// The records of authority, in order, if there is a section of them: in a message alone.
    pub fn authorities(&self) -> Option<LookupRecordsIter<'_>>
        ensures { result ≡ authorities_of self.now }
    {
        match self {
            AuthLookup::Response { authorities, .. } => {
                Some(LookupRecordsIter::of_records(authorities))
            }
            _ => None,
        }
    }

    /// The records that go with the answer, in order, if there is a list of them.
    pub fn additionals(&self) -> Option<LookupRecordsIter<'_>>
        ensures { result ≡ additionals_of self.now }
    {
        match self {
            AuthLookup::Empty => None,
            AuthLookup::Records { additionals, .. } => Some(additionals.as_ref()?.iter()),
            AuthLookup::Response { additionals, .. } => {
                Some(LookupRecordsIter::of_records(additionals))
            }
        }
    }

    /// Takes out the records that go with those of a zone; a message keeps its sections.
    pub fn take_additionals(&mut self) -> Option<LookupRecords<'z>>
        ensures taken { result ≡ zone_additionals self.old }
        ensures left { self.new ≡ without_additionals self.old }
    {
        match self {
            AuthLookup::Records { additionals, .. } => additionals.take(),
            _ => None,
        }
    }
}

impl<'z> From<LookupRecords<'z>> for AuthLookup<'z> {
    ghost use Rattle.std.specs.Prelude.{◌≡◌, None};
    ghost use Rattle.zst_handler.specs.declared.auth_lookup.AuthLookup.TheVariants.{Records};

    ghost from_gives = { λ answers found. found ≡ Records answers None };

    fn from(answers: LookupRecords<'z>) -> AuthLookup<'z> {
        AuthLookup::answers(answers, None)
    }
}
