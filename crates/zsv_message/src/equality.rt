//! Messages that are equal.

ghost use Rattle.std.specs.Cmp.{partial_equiv_from_equiv};
ghost use Rattle.std.specs.Prelude.{◌≡◌};
ghost use Rattle.zsv_message.specs.Equality.{ends_eq, fronts_eq, message_eq, records_eq};
ghost use Rattle.zsv_message.specs.EqualityLaws.{message_equiv};

use crate::request::MessageRequest;

impl MessageRequest<'_> {
    // Whether header and questions are the same.
    fn has_same_front(&self, other: &MessageRequest<'_>) -> bool
        ensures { result ≡ fronts_eq self.now other.now }
    {
        self.metadata() == other.metadata() && self.queries() == other.queries()
    }

    // Whether the records are, section by section.
    fn has_same_records(&self, other: &MessageRequest<'_>) -> bool
        ensures { result ≡ records_eq self.now other.now }
    {
        self.answers() == other.answers()
            && self.authorities() == other.authorities()
            && self.additionals() == other.additionals()
    }

    // Whether options and signature are.
    fn has_same_end(&self, other: &MessageRequest<'_>) -> bool
        ensures { result ≡ ends_eq self.now other.now }
    {
        self.edns() == other.edns() && self.signature() == other.signature()
    }
}

/// Whether two messages hold the same: what header and options say, the questions and the octets in which they stand, the
/// records of each section, in order and whatever their times to live, the options in whatever order, and the signature.
impl PartialEq for MessageRequest<'_> {
    ghost eq = { message_eq };

    ghost laws = { partial_equiv_from_equiv message_equiv };

    fn eq(&self, other: &MessageRequest<'_>) -> bool {
        self.has_same_front(other) && self.has_same_records(other) && self.has_same_end(other)
    }
}
