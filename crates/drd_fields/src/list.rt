//! Lent fields, one behind the other.
ghost use Rattle.std.specs.Prelude.{◌≡◌, map};
ghost use Rattle.std.specs.List.{fold};
ghost use Rattle.drd_fields.specs.Fields.{AreOrdered, kinds_of};
ghost use Rattle.drd_fields.specs.Writing.{canonical_octets};
ghost use Rattle.drd_fields.specs.Equality.{AreFull, Tells, fields_eq};
ghost use Rattle.drd_fields.specs.Order.{Orders, fields_cmp, fields_input};
ghost use Rattle.drd_fields.specs.Seen.{seen};

use crate::field_ref::FieldRef;
use std::cmp::Ordering;
use std::hash::Hasher;

/// Whether all fields are equal. Of the same kinds, and of names that are fully qualified, it tells exactly whether the
/// canonical octets of the data are the same.
pub fn are_same(xs: &[FieldRef<'_>], ys: &[FieldRef<'_>]) -> bool
    ensures value { result ≡ fields_eq (map seen xs.entry.now) (map seen ys.entry.now) }
    ensures canonical { kinds_of (map seen xs.entry.now) ≡ kinds_of (map seen ys.entry.now) → AreOrdered (kinds_of (map seen xs.entry.now))
        → AreFull (map seen xs.entry.now) → AreFull (map seen ys.entry.now)
        → Tells result (canonical_octets (map seen xs.entry.now)) (canonical_octets (map seen ys.entry.now)) }
{
    match (xs.split_first(), ys.split_first()) {
        (None, None) => true,
        (Some((x, later)), Some((y, further))) => x.is_same(*y) && are_same(later, further),
        _ => false,
    }
}

/// The order of two lists of fields, the first that differ deciding. Of the same kinds, and of names that are fully
/// qualified, it is that of the canonical octets of the data.
pub fn cmp_list(xs: &[FieldRef<'_>], ys: &[FieldRef<'_>]) -> Ordering
    ensures value { result ≡ fields_cmp (map seen xs.entry.now) (map seen ys.entry.now) }
    ensures canonical { kinds_of (map seen xs.entry.now) ≡ kinds_of (map seen ys.entry.now) → AreOrdered (kinds_of (map seen xs.entry.now))
        → AreFull (map seen xs.entry.now) → AreFull (map seen ys.entry.now)
        → Orders result (canonical_octets (map seen xs.entry.now)) (canonical_octets (map seen ys.entry.now)) }
{
    match (xs.split_first(), ys.split_first()) {
        (None, None) => Ordering::Equal,
        (None, Some(_)) => Ordering::Less,
        (Some(_), None) => Ordering::Greater,
        (Some((x, later)), Some((y, further))) => match x.cmp_field(*y) {
            Ordering::Equal => cmp_list(later, further),
            unequal => unequal,
        },
    }
}

/// Feeds all fields to a hasher.
pub fn hash_list<H: Hasher>(fields: &[FieldRef<'_>], state: &mut H)
    ensures { state.new ≡ fold H.write state.old (fields_input (map seen fields.now)) }
{
    'fields: for field in fields {
        field.hash_field(state);
    }
}
