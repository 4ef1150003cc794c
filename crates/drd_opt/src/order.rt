//! The order of options, as if they had been put in order, without memory for that: it is told by the least option that one
//! list has more often than the other.
ghost use Rattle.std.specs.Prelude.{◌≡◌, ◌≤◌, Some, false, length, map, slice_get, take, option_map};
ghost use Rattle.std.specs.List.{list_any};
ghost use Rattle.std.specs.Ordering.{is_lt};
ghost use Rattle.drd_opt.specs.Entries.{Entry, raw_of};
ghost use Rattle.drd_opt.specs.Equality.{same_raw};
ghost use Rattle.drd_opt.specs.Order.{raw_cmp, entries_cmp, is_below, IsLeastMore};

use crate::code::EdnsCode;
use crate::equality::{count_of, is_same};
use crate::option::EdnsOption;
use std::cmp::Ordering;

// The order of two options: by code, by the number of octets, then by these.
fn cmp_entry(a: &(EdnsCode, EdnsOption), b: &(EdnsCode, EdnsOption)) -> Ordering
    ensures { result ≡ raw_cmp (raw_of a.now) (raw_of b.now) }
{
    match a.0.cmp(&b.0) {
        Ordering::Equal => a.1.cmp_octets_of(&b.1),
        unequal => unequal,
    }
}

// Whether an option stands before another.
fn is_below(a: &(EdnsCode, EdnsOption), b: &(EdnsCode, EdnsOption)) -> bool
    ensures { result ≡ is_lt (raw_cmp (raw_of a.now) (raw_of b.now)) }
{
    match cmp_entry(a, b) {
        Ordering::Less => true,
        _ => false,
    }
}

// Whether an option stands before some of these.
fn is_below_any(entry: &(EdnsCode, EdnsOption), others: &[(EdnsCode, EdnsOption)]) -> bool
    ensures { result ≡ list_any (λ other. is_lt (raw_cmp (raw_of entry.now) (raw_of other))) others.now }
{
    others.iter().any(|other| is_below(entry, other))
}

// How many options stand the same at the front of both.
fn common_front(entries: &[(EdnsCode, EdnsOption)], others: &[(EdnsCode, EdnsOption)]) -> usize
    ensures within { result ≤ length entries.now }
    ensures within_others { result ≤ length others.now }
    ensures same { map raw_of (take result entries.now) ≡ map raw_of (take result others.now) }
    ensures longest { (x y : Entry) → slice_get entries.now result ≡ Some x → slice_get others.now result ≡ Some y
        → same_raw (raw_of x) (raw_of y) ≡ false }
{
    let mut front = 0;
    'front: while front < entries.len()
        && front < others.len()
        && is_same(&entries[front], &others[front])
    {
        front += 1;
    }
    front
}

// Whether an option stands before another, if there is one.
fn is_lower(entry: &(EdnsCode, EdnsOption), least: Option<&(EdnsCode, EdnsOption)>) -> bool
    ensures { result ≡ is_below (raw_of entry.now) (option_map (λ other. raw_of other.now) least.entry) }
{
    match least {
        Some(least) => is_below(entry, least),
        None => true,
    }
}

// The least among these that stands more often in the entries than in the others.
fn least_more<'a>(
    among: &'a [(EdnsCode, EdnsOption)],
    entries: &[(EdnsCode, EdnsOption)],
    others: &[(EdnsCode, EdnsOption)],
) -> Option<&'a (EdnsCode, EdnsOption)>
    ensures { IsLeastMore (map raw_of among.now) (map raw_of entries.now) (map raw_of others.now)
        (option_map (λ least. raw_of least.now) result) }
{
    let mut least = None;
    'among: for entry in among {
        if is_lower(entry, least) && count_of(entry, others) < count_of(entry, entries) {
            least = Some(entry);
        }
    }
    least
}

// The order of entries, given the least option that each has more often than the other.
fn decide(
    entries: &[(EdnsCode, EdnsOption)],
    others: &[(EdnsCode, EdnsOption)],
    more: Option<&(EdnsCode, EdnsOption)>,
    less: Option<&(EdnsCode, EdnsOption)>,
) -> Ordering
    requires more { IsLeastMore (map raw_of entries.now) (map raw_of entries.now) (map raw_of others.now) (option_map (λ least. raw_of least.now) more) }
    requires less { IsLeastMore (map raw_of others.now) (map raw_of others.now) (map raw_of entries.now) (option_map (λ least. raw_of least.now) less) }
    ensures { result ≡ entries_cmp entries.now others.now }
{
    match more {
        Some(more) => match less {
            // In order, both agree up to the lower of the two, where the other goes on with something greater.
            Some(less) => cmp_entry(more, less),
            // They agree up to this one, where the others go on with something greater, or have ended.
            None if is_below_any(more, others) => Ordering::Less,
            None => Ordering::Greater,
        },
        None => match less {
            Some(less) if is_below_any(less, entries) => Ordering::Greater,
            Some(_) => Ordering::Less,
            None => Ordering::Equal,
        },
    }
}

// The order of entries.
pub(crate) fn cmp_entries(
    entries: &[(EdnsCode, EdnsOption)],
    others: &[(EdnsCode, EdnsOption)],
) -> Ordering
    ensures { result ≡ entries_cmp entries.now others.now }
{
    let front = common_front(entries, others);
    let more = least_more(&entries[front..], entries, others);
    let less = least_more(&others[front..], others, entries);
    decide(entries, others, more, less)
}
