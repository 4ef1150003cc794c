//! Octets that are compared eight at a time.
ghost use Rattle.std.specs.Prelude.{◌≡◌, ◌↔◌, ◌+◌, ◌<◌, ◌≤◌, ◌∷◌, [], ◌++◌, true, length, get_or, IfSome};

use dnw_decoder::word;

// Whether octets are others. The last eight may overlap those before.
#[inline(always)]
fn are_same(octets: &[u8], others: &[u8]) -> bool
    ensures { (result ≡ true) ↔ (octets.now ≡ others.now) }
{
    if octets.len() != others.len() {
        return false;
    }
    if octets.len() < 8 {
        return octets == others;
    }
    let last = octets.len() - 8;
    let mut at = 0;
    'words: while at < last {
        if word(octets, at) != word(others, at) {
            return false;
        }
        at += 8;
    }
    word(octets, last) == word(others, last)
}

// Whether octets are these labels and the end.
#[inline]
pub(crate) fn is_name_of(octets: &[u8], labels: &[u8]) -> bool
    ensures { (result ≡ true) ↔ (octets.now ≡ labels.now ++ 0 ∷ []) }
{
    match octets.split_last() {
        Some((end, front)) => *end == 0 && are_same(front, labels),
        None => false,
    }
}

// Whether the first eight octets tell that octets aren't these labels and the end, as they do where first labels differ.
#[inline(always)]
pub(crate) fn starts_apart(octets: &[u8], labels: &[u8]) -> bool
    requires { length octets.now ≡ length labels.now + 1 }
    ensures { result ≡ true → octets.now ≡ labels.now ++ 0 ∷ [] → ⊥ }
{
    labels.len() >= 8 && word(octets, 0) != word(labels, 0)
}

// How many of the octets that both have are the same at either end, counted by eights.
fn same_at_ends(octets: &[u8], others: &[u8], both: usize) -> usize
    requires own { both ≤ length octets.now }
    requires other { both ≤ length others.now }
{
    let half = both / 2;
    let mut same = 0;
    'words: while half - same >= 8 {
        let behind = both - same - 8;
        if word(octets, same) != word(others, same)
            || word(octets, behind) != word(others, behind)
        {
            return same;
        }
        same += 8;
    }
    same
}

// A place at which octets are others, of those that both have. They are read from both ends at once, so that one near
// either is found soon.
#[inline(never)]
pub(crate) fn clash_of(octets: &[u8], others: &[u8]) -> Option<usize>
    ensures { IfSome result (λ place. (place < length octets.now) × (place < length others.now)
        × (get_or octets.now place 0 ≡ get_or others.now place 0 → ⊥)) }
{
    let both = octets.len().min(others.len());
    'octets: for place in same_at_ends(octets, others, both)..both {
        if octets[place] != others[place] {
            return Some(place);
        }
        let behind = both - 1 - place;
        if octets[behind] != others[behind] {
            return Some(behind);
        }
    }
    None
}
