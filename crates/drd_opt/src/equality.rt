//! Options that are compared and hashed in no order.
ghost use Rattle.std.specs.Prelude.{◌≡◌, ◌==◌, ◌%◌, ◌^◌, map};
ghost use Rattle.std.specs.List.{count_by, list_all, sum_by};
ghost use Rattle.drd_opt.specs.Entries.{raw_of};
ghost use Rattle.drd_opt.specs.Equality.{same_entries, same_raw, hash_number};

use crate::code::EdnsCode;
use crate::option::EdnsOption;
use std::hash::{FoldHasher, Hash, Hasher};

// Whether code and octets are the same.
pub(crate) fn is_same(a: &(EdnsCode, EdnsOption), b: &(EdnsCode, EdnsOption)) -> bool
    ensures { result ≡ same_raw (raw_of a.now) (raw_of b.now) }
{
    a.0 == b.0 && a.1.has_octets_of(&b.1)
}

// How many of these are the same as one.
pub(crate) fn count_of(entry: &(EdnsCode, EdnsOption), entries: &[(EdnsCode, EdnsOption)]) -> usize
    ensures { result ≡ count_by (same_raw (raw_of entry.now)) (map raw_of entries.now) }
{
    let mut count = 0;
    'entries: for other in entries {
        if is_same(entry, other) {
            count += 1;
        }
    }
    count
}

// Whether these are the others in some order.
pub(crate) fn are_same(
    entries: &[(EdnsCode, EdnsOption)],
    others: &[(EdnsCode, EdnsOption)],
) -> bool
    ensures { result ≡ same_entries entries.now others.now }
{
    entries.len() == others.len() && all_as_often(entries, others)
}

// Whether each of these is as often in the others.
fn all_as_often(entries: &[(EdnsCode, EdnsOption)], others: &[(EdnsCode, EdnsOption)]) -> bool
    ensures { result
        ≡ list_all
        (λ x. count_by (same_raw x) (map raw_of entries.now) == count_by (same_raw x) (map raw_of others.now))
        (map raw_of entries.now) }
{
    'entries: for entry in entries {
        if count_of(entry, entries) != count_of(entry, others) {
            return false;
        }
    }
    true
}

// A number made of an option's code and octets.
fn weight_of(entry: &(EdnsCode, EdnsOption)) -> u64
    ensures { result ≡ hash_number (raw_of entry.now) }
{
    let mut hasher = FoldHasher::default();
    entry.0.hash(&mut hasher);
    entry.1.hash_octets(&mut hasher);
    hasher.finish()
}

// The sum of these numbers, which wraps.
pub(crate) fn sum_of_weights(entries: &[(EdnsCode, EdnsOption)]) -> u64
    ensures { result ≡ sum_by hash_number (map raw_of entries.now) % 2 ^ 64 }
{
    let mut sum: u64 = 0;
    'entries: for entry in entries {
        sum = sum.wrapping_add(weight_of(entry));
    }
    sum
}
