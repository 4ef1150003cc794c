//! Entries of values that are compared, ordered and hashed.
ghost use Rattle.drd_params.specs.Hashing.{one_write, string_write};

use crate::a::A;
use crate::aaaa::AAAA;
use crate::entry::octets_of;
use drd_fields::FieldRef;
use drd_param_keys::{Entry, SvcParamKey};
use std::cmp::Ordering;
use std::hash::Hasher;

/// What a value is a list of, as it is compared and hashed.
pub trait EntryData: Entry {
    ghost use Rattle.std.specs.Prelude.{◌≡◌, ℕ, List};
    ghost use Rattle.std.specs.Hash.{HashWrites};
    ghost use Rattle.std.specs.List.{fold};
    ghost use Rattle.drd_params.specs.drd_fields.Equality.{TellsApart};
    ghost use Rattle.drd_params.specs.drd_fields.Order.{OrdersFronts};

    // What of an entry's octets is fed to a hasher.
    ghost input: { List ℕ → HashWrites };

    /// Whether the octets of two entries are the same.
    fn same(&self, other: &Self) -> bool
        ensures { TellsApart result (Self.spelled self.now) (Self.spelled other.now) };

    /// The order of the octets of two entries, which decides whatever stands behind them.
    fn order(&self, other: &Self) -> Ordering
        ensures { OrdersFronts result (Self.spelled self.now) (Self.spelled other.now) };

    /// Feeds the entry to a hasher.
    fn feed<H: Hasher>(&self, state: &mut H)
        ensures { state.new ≡ fold H.write state.old (input (Self.spelled self.now)) };
}

impl EntryData for SvcParamKey {
    ghost input = { one_write };

    #[tactic(auto, using(crate::proofs::ListLemmas::short_apart))]
    fn same(&self, other: &SvcParamKey) -> bool {
        u16::from(*self) == u16::from(*other)
    }

    fn order(&self, other: &SvcParamKey) -> Ordering {
        FieldRef::U16(u16::from(*self)).cmp_field(FieldRef::U16(u16::from(*other)))
    }

    fn feed<H: Hasher>(&self, state: &mut H) {
        state.write(&u16::from(*self).to_be_bytes());
    }
}

impl EntryData for String {
    ghost input = { string_write };

    #[tactic(auto, using(crate::proofs::ListLemmas::string_apart))]
    fn same(&self, other: &String) -> bool {
        self.as_bytes() == other.as_bytes()
    }

    fn order(&self, other: &String) -> Ordering {
        FieldRef::String(self.as_bytes()).cmp_field(FieldRef::String(other.as_bytes()))
    }

    fn feed<H: Hasher>(&self, state: &mut H) {
        FieldRef::String(self.as_bytes()).hash_field(state);
    }
}

impl EntryData for A {
    ghost input = { one_write };

    #[tactic(auto, using(crate::specs::EntryLaws::a_apart))]
    fn same(&self, other: &A) -> bool {
        *self == *other
    }

    #[tactic(auto, using(crate::specs::EntryLaws::a_fronts))]
    fn order(&self, other: &A) -> Ordering {
        FieldRef::U32(self.0.to_bits()).cmp_field(FieldRef::U32(other.0.to_bits()))
    }

    #[tactic(auto, using(crate::proofs::NumberOctets::octets_of_32))]
    fn feed<H: Hasher>(&self, state: &mut H) {
        state.write(&self.0.to_bits().to_be_bytes());
    }
}

impl EntryData for AAAA {
    ghost input = { one_write };

    #[tactic(auto, using(crate::specs::EntryLaws::aaaa_apart))]
    fn same(&self, other: &AAAA) -> bool {
        *self == *other
    }

    #[tactic(auto, using(crate::specs::EntryLaws::aaaa_fronts))]
    fn order(&self, other: &AAAA) -> Ordering {
        octets_of(self).cmp(&octets_of(other))
    }

    fn feed<H: Hasher>(&self, state: &mut H) {
        state.write(&octets_of(self));
    }
}
