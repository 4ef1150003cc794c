//! Lists that are compared, ordered and hashed.
ghost use Rattle.std.specs.Prelude.{◌≡◌, ◌++◌};
ghost use Rattle.std.specs.Hash as fed;
ghost use Rattle.std.specs.List.{flat_map, fold};
ghost use Rattle.drd_params.specs.drd_fields.Equality.{Tells};
ghost use Rattle.drd_params.specs.drd_fields.Order.{octets_cmp};
ghost use Rattle.drd_params.specs.Hashing.{list_input};

use crate::data::EntryData;
use std::cmp::Ordering;
use std::hash::Hasher;

/// Whether the octets of two lists are the same.
pub(crate) fn are_same<T: EntryData>(entries: &[T], others: &[T]) -> bool
    ensures { Tells result (flat_map T.spelled entries.now) (flat_map T.spelled others.now) }
{
    let mut left = entries;
    let mut right = others;
    'entries: while let Some((entry, later)) = left.split_first() {
        let Some((other, behind)) = right.split_first() else {
            return false;
        };
        if !entry.same(other) {
            return false;
        }
        left = later;
        right = behind;
    }
    right.is_empty()
}

/// The order of the octets of entries, one behind the other.
pub fn cmp_all<T: EntryData>(entries: &[T], others: &[T]) -> Ordering
    ensures { result ≡ octets_cmp (flat_map T.spelled entries.now) (flat_map T.spelled others.now) }
{
    let mut left = entries;
    let mut right = others;
    'entries: while let Some((entry, later)) = left.split_first() {
        let Some((other, behind)) = right.split_first() else {
            return Ordering::Greater;
        };
        match entry.order(other) {
            Ordering::Equal => {
                left = later;
                right = behind;
            }
            unequal => return unequal,
        }
    }
    if right.is_empty() {
        Ordering::Equal
    } else {
        Ordering::Less
    }
}

/// Feeds entries to a hasher, behind their number.
pub fn feed_all<T: EntryData, H: Hasher>(state: &mut H, entries: &[T])
    ensures { state.new ≡ fold H.write state.old (list_input (λ entry. T.input (T.spelled entry)) entries.now) }
{
    state.write_usize(entries.len());
    'entries: for entry in entries {
        entry.feed(state);
    }
}
