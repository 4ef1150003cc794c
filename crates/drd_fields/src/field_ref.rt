//! A field that is lent.
ghost use Rattle.std.specs.Prelude.{◌≡◌};
ghost use Rattle.std.specs.List.{fold};
ghost use Rattle.drd_fields.specs.Fields.{kind_of};
ghost use Rattle.drd_fields.specs.Equality.{IsFull, TellsField, field_eq};
ghost use Rattle.drd_fields.specs.Order.{OrdersField, field_cmp, field_input, kind_rank};
ghost use Rattle.drd_fields.specs.Seen.{seen};

use crate::hashing::{hash_string, hash_strings};
use crate::octets::{cmp_name, cmp_string, cmp_strings};
use dnw_encoder::Name;
use std::cmp::Ordering;
use std::hash::{Hash, Hasher};

/// A field of record data, lent: what data of all types are compared and hashed by.
#[derive(Clone, Copy)]
pub enum FieldRef<'a> {
    /// A number of one octet.
    U8(u8),
    /// A number of two octets.
    U16(u16),
    /// A number of four octets.
    U32(u32),
    /// A name.
    Name(&'a Name),
    /// A string of at most 255 octets, behind its length.
    String(&'a [u8]),
    /// Strings up to the end of the data.
    Strings(&'a [Vec<u8>]),
    /// The octets up to the end of the data.
    Octets(&'a [u8]),
}

impl FieldRef<'_> {
    /// Whether two fields are equal, names up to the case of ASCII letters. Of one kind, and of names that are fully
    /// qualified, it tells exactly whether the canonical octets are the same.
    #[tactic(auto, using(crate::proofs::EqualityLaws::items_same, crate::proofs::EqualityLaws::octet_apart, crate::proofs::EqualityLaws::short_apart, crate::proofs::EqualityLaws::long_apart, crate::proofs::EqualityLaws::name_apart, crate::proofs::EqualityLaws::string_apart, crate::proofs::EqualityLaws::strings_tell, crate::proofs::EqualityLaws::rest_tells, crate::proofs::EqualityLaws::apart_tells, crate::proofs::EqualityLaws::open_tells))]
    pub fn is_same(self, other: FieldRef<'_>) -> bool
        ensures value { result ≡ field_eq (seen self.entry) (seen other.entry) }
        ensures canonical { kind_of (seen self.entry) ≡ kind_of (seen other.entry) → IsFull (seen self.entry) → IsFull (seen other.entry)
            → TellsField result (seen self.entry) (seen other.entry) }
    {
        match (self, other) {
            (FieldRef::U8(n), FieldRef::U8(m)) => n == m,
            (FieldRef::U16(n), FieldRef::U16(m)) => n == m,
            (FieldRef::U32(n), FieldRef::U32(m)) => n == m,
            (FieldRef::Name(n), FieldRef::Name(m)) => {
                // Asked for their labels, both show that they are names.
                let _labels = n.iter();
                let _others = m.iter();
                *n == *m
            }
            (FieldRef::String(s), FieldRef::String(t)) => s == t,
            (FieldRef::Strings(s), FieldRef::Strings(t)) => s == t,
            (FieldRef::Octets(s), FieldRef::Octets(t)) => s == t,
            _ => false,
        }
    }

    /// The order of two fields; those of different kinds stand by their kinds. Of one kind, and of names that are fully
    /// qualified, it is that of the canonical octets.
    #[tactic(auto, using(crate::proofs::OrderLaws::cmp_one, crate::proofs::OrderLaws::octet_orders, crate::proofs::OrderLaws::short_orders, crate::proofs::OrderLaws::long_orders, crate::proofs::OrderLaws::string_orders, crate::proofs::OrderLaws::front_orders, crate::proofs::OrderLaws::open_orders))]
    pub fn cmp_field(self, other: FieldRef<'_>) -> Ordering
        ensures value { result ≡ field_cmp (seen self.entry) (seen other.entry) }
        ensures canonical { kind_of (seen self.entry) ≡ kind_of (seen other.entry) → IsFull (seen self.entry) → IsFull (seen other.entry)
            → OrdersField result (seen self.entry) (seen other.entry) }
    {
        match (self, other) {
            (FieldRef::U8(n), FieldRef::U8(m)) => n.cmp(&m),
            (FieldRef::U16(n), FieldRef::U16(m)) => n.cmp(&m),
            (FieldRef::U32(n), FieldRef::U32(m)) => n.cmp(&m),
            (FieldRef::Name(n), FieldRef::Name(m)) => cmp_name(n, m),
            (FieldRef::String(s), FieldRef::String(t)) => cmp_string(s, t),
            (FieldRef::Strings(s), FieldRef::Strings(t)) => cmp_strings(s, t),
            (FieldRef::Octets(s), FieldRef::Octets(t)) => s.cmp(t),
            (x, y) => x.rank().cmp(&y.rank()),
        }
    }

    // Where the kind of the field stands among all kinds.
    fn rank(self) -> u8
        ensures { result ≡ kind_rank (seen self.entry) }
    {
        match self {
            FieldRef::U8(_) => 0,
            FieldRef::U16(_) => 1,
            FieldRef::U32(_) => 2,
            FieldRef::Name(_) => 3,
            FieldRef::String(_) => 4,
            FieldRef::Strings(_) => 5,
            FieldRef::Octets(_) => 6,
        }
    }

    /// Feeds the field to a hasher.
    pub fn hash_field<H: Hasher>(self, state: &mut H)
        ensures { state.new ≡ fold H.write state.old (field_input (seen self.entry)) }
    {
        match self {
            FieldRef::U8(n) => n.hash(state),
            FieldRef::U16(n) => n.hash(state),
            FieldRef::U32(n) => n.hash(state),
            FieldRef::Name(name) => name.hash(state),
            FieldRef::String(octets) | FieldRef::Octets(octets) => hash_string(octets, state),
            FieldRef::Strings(texts) => {
                state.write_usize(texts.len());
                hash_strings(texts, state);
            }
        }
    }
}
