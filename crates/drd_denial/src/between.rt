//! Owners in order, the first one next to the last (RFC 4034 section 4.1.1).
ghost use Rattle.std.specs.Prelude.{◌≡◌, not};
ghost use Rattle.std.specs.Ordering.{is_eq, is_lt};
ghost use Rattle.drd_denial.specs.Between.{is_between};

use std::cmp::Ordering;

/// Whether a value lies strictly between an owner and the next one, where the first owner is next to the last (RFC 4034
/// section 4.1.1). A single owner is its own next one, and all other values lie between.
pub fn is_between<K: Ord>(owner: &K, value: &K, next: &K) -> bool
    ensures { result ≡ is_between K.cmp owner.now value.now next.now }
{
    match owner.cmp(next) {
        Ordering::Less => is_before(owner, value) && is_before(value, next),
        Ordering::Greater => is_before(owner, value) || is_before(value, next),
        Ordering::Equal => is_apart(owner, value),
    }
}

// Whether the first value is less than the second.
fn is_before<K: Ord>(first: &K, second: &K) -> bool
    ensures { result ≡ is_lt (K.cmp first.now second.now) }
{
    first.cmp(second) == Ordering::Less
}

// Whether two values aren't equal.
fn is_apart<K: Ord>(first: &K, second: &K) -> bool
    ensures { result ≡ not (is_eq (K.cmp first.now second.now)) }
{
    first.cmp(second) != Ordering::Equal
}
