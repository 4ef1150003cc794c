//! What is changed in a set that stays where it is.

ghost use Rattle.std.specs.Prelude.{◌≡◌};
ghost use Rattle.zst_map.specs.Edits.{CanEdit, edited};

use zst_handler::{Draft, Record, RecordSet, RecordType};

/// A change of a set that stays where it is. It takes no memory, so that nothing can refuse it.
#[derive(Drop)]
pub enum Edit {
    /// The records of a draft over the set's take the place of these; the type is theirs. The signatures go.
    Settle(RecordType, Draft<Record>),
    /// The serial number of an SOA is raised (RFC 2136 section 3.6). The signatures go.
    RaiseSerial,
    /// Signatures take the place of the set's.
    Sign(Vec<Record>),
}

impl Edit {
    /// Changes the set.
    pub(crate) fn apply(self, set: &mut RecordSet)
        requires { CanEdit self set.old }
        ensures { set.new ≡ edited self set.old }
    {
        match self {
            Edit::Settle(record_type, draft) => set.settle(record_type, draft),
            Edit::RaiseSerial => set.raise_serial(),
            Edit::Sign(signatures) => set.sign_with(signatures),
        }
    }
}
