//! Chains of pointers (RFC 1035 4.1.4). A message can hold thousands of pointers, each to the one before. Where the
//! chain from a place ends is kept for the message, so that none is walked twice.
ghost use Rattle.std.specs.Prelude.{◌≡◌, ◌+◌, ◌<◌, ◌≤◌, ℕ, length, get_or, IfOk, IfSome};
ghost use Rattle.dnw_decoder.specs.Chains.{PointsBack, Chain, AreEnds, AreChains, Leads};

use std::alloc::{AllocError, Global};

// A pointer names a place below this one.
pub(crate) const POINTED: usize = 16384;

// Where a pointer to an earlier place stands, that place.
#[inline]
fn pointer_back(octets: &[u8], place: usize) -> Option<usize>
    requires { place ≤ length octets.now }
    ensures { IfSome result (PointsBack octets.now place) }
{
    if octets.len() < place + 2 {
        return None;
    }
    let first = octets[place];
    if first < 192 {
        return None;
    }
    let target = usize::from(u16::from_be_bytes([first - 192, octets[place + 1]]));
    if place <= target {
        return None;
    }
    Some(target)
}

// What is kept of a place, or 0.
#[inline]
fn kept_of(kept: &[u16], place: usize) -> usize
    ensures { result ≡ get_or kept.now place 0 }
{
    match kept.get(place) {
        Some(last) => usize::from(*last),
        None => 0,
    }
}

// The place of the last pointer of the chain that begins with a pointer to a target.
fn last_pointer(octets: &[u8], kept: &[u16], first: usize, target: usize) -> usize
    requires pointer { PointsBack octets.now first target }
    requires kept { AreEnds octets.now kept.now }
    ensures { Chain octets.now first result }
{
    let mut last = first;
    let mut place = target;
    'pointers: loop {
        let end = kept_of(kept, place);
        if end > 0 {
            return end;
        }
        match pointer_back(octets, place) {
            Some(next) => {
                last = place;
                place = next;
            }
            None => return last,
        }
    }
}

// Keeps where the chain from a place ends, for each of its places that isn't kept yet.
fn keep(octets: &[u8], kept: &mut [u16], first: usize, last: usize)
    requires small { first < 16384 }
    requires chain { Chain octets.now first last }
    requires kept { AreEnds octets.now kept.old }
    ensures { AreEnds octets.now kept.new }
{
    let mut place = first;
    'pointers: loop {
        if kept.len() <= place {
            return;
        }
        if usize::from(kept[place]) == last {
            return;
        }
        kept[place] = last as u16;
        if place == last {
            return;
        }
        match pointer_back(octets, place) {
            Some(target) => place = target,
            None => return,
        }
    }
}

// A list with room for each place that a pointer can name.
fn no_ends(alloc: Global, octets: &[u8]) -> Result<Vec<u16>, AllocError>
    ensures { IfOk result (λ kept. AreEnds octets.now kept.items) }
{
    let mut kept = Vec::new(alloc);
    kept.resize(octets.len().min(POINTED), 0)?;
    Ok(kept)
}

// Begins to keep chains, where memory is there for it.
fn begin(alloc: Global, octets: &[u8], chains: &mut Option<Vec<u16>>)
    requires { AreChains octets.now chains.old }
    ensures { AreChains octets.now chains.new }
{
    if chains.is_none() {
        *chains = no_ends(alloc, octets).ok();
    }
}

// The place of the last pointer of the chain that begins with a pointer to a target, which is kept.
fn end_of(octets: &[u8], chains: &mut Option<Vec<u16>>, first: usize, target: usize) -> usize
    requires small { first < 16384 }
    requires pointer { PointsBack octets.now first target }
    requires chains { AreChains octets.now chains.old }
    ensures chain { Chain octets.now first result }
    ensures chains { AreChains octets.now chains.new }
{
    let Some(kept) = chains else {
        return last_pointer(octets, &[], first, target);
    };
    let end = kept_of(kept.as_slice(), first);
    if end > 0 {
        return end;
    }
    let last = last_pointer(octets, kept.as_slice(), first, target);
    keep(octets, kept.as_mut_slice(), first, last);
    last
}

/// Where the pointers that stand at a pointer's target lead: the last one's place, which bounds the segment that it
/// points to, and that segment; or the bound and the target, where no pointer stands there.
pub(crate) fn follow(
    alloc: Global,
    octets: &[u8],
    chains: &mut Option<Vec<u16>>,
    bound: usize,
    target: usize,
) -> (usize, usize)
    requires small { target < 16384 }
    requires within { target ≤ length octets.now }
    requires chains { AreChains octets.now chains.old }
    ensures leads { Leads octets.now bound target result.0 result.1 }
    ensures chains { AreChains octets.now chains.new }
{
    let Some(next) = pointer_back(octets, target) else {
        return (bound, target);
    };
    begin(alloc, octets, chains);
    let last = end_of(octets, chains, target, next);
    match pointer_back(octets, last) {
        Some(segment) => (last, segment),
        None => (bound, target),
    }
}
