//! Bit maps that are written.
ghost use Rattle.std.specs.Prelude.{◌≡◌, ◌+◌, ◌^◌, ◌<◌, ◌≤◌, ◌++◌, length, get_or, MatchBool, IfOk, OnOk, ◌∷◌, []};
ghost use Rattle.dnw_wire.specs.BitMaps.{AreOctets, AreTightMaps, IsTightMap, Rises, map_types};

use crate::bits::octet_of;
use smallvec::SmallVec;
use std::alloc::{AllocError, Global};

// Whether a number below the limit comes first.
fn starts_below(codes: &[u16], limit: u32) -> bool
    ensures { MatchBool result ((0 < length codes.now) × (get_or codes.now 0 0 < limit))
        (0 < length codes.now → limit ≤ get_or codes.now 0 0) }
{
    match codes.first() {
        Some(first) => u32::from(*first) < limit,
        None => false,
    }
}

// The octets of the window at a base, and the numbers behind it.
fn window_of(
    alloc: Global,
    base: u32,
    codes: &[u16],
) -> Result<(SmallVec<u8, 32>, &[u16]), AllocError>
    requires base { base + 256 ≤ 2 ^ 16 }
    requires rises { Rises base codes.now 65536 }
    requires some { 0 < length codes.now }
    requires first { get_or codes.now 0 0 < base + 256 }
    ensures types { IfOk result (λ found. codes.now ≡ map_types base found.0.items ++ found.1.now) }
    ensures tight { IfOk result (λ found. IsTightMap found.0.items) }
    ensures rises { IfOk result (λ found. Rises (base + 256) found.1.now 65536) }
    ensures shorter { IfOk result (λ found. length found.1.now < length codes.now) }
{
    let mut map = SmallVec::new(alloc);
    let mut rest = codes;
    let mut at = base;
    'octets: while starts_below(rest, base + 256) {
        let (octet, behind) = octet_of(at, rest);
        map.push(octet)?;
        rest = behind;
        at += 8;
    }
    Ok((map, rest))
}

// Adds a window: its number, its length and its octets.
fn push_window(octets: &mut SmallVec<u8, 64>, number: u8, map: &[u8]) -> Result<(), AllocError>
    requires { length map.now ≤ 32 }
    ensures { OnOk result (octets.new.items ≡ ((octets.old.items ++ number ∷ []) ++ length map.now ∷ []) ++ map.now) }
{
    octets.push(number)?;
    octets.push(map.len() as u8)?;
    octets.extend_from_slice(map)
}

/// The bit maps of types, by their numbers.
pub(crate) fn map_octets(alloc: Global, codes: &[u16]) -> Result<SmallVec<u8, 64>, AllocError>
    requires { Rises 0 codes.now 65536 }
    ensures { IfOk result (λ octets. AreTightMaps octets.items codes.now) }
{
    let mut octets = SmallVec::new(alloc);
    let mut rest = codes;
    'windows: while let Some(first) = rest.first() {
        let number = (*first / 256) as u8;
        let (map, behind) = window_of(alloc, 256 * u32::from(number), rest)?;
        push_window(&mut octets, number, map.as_slice())?;
        rest = behind;
    }
    are_octets(octets.as_slice());
    Ok(octets)
}

// A law: octets are below 256.
fn are_octets(octets: &[u8])
    ensures { AreOctets octets.now }
{
    let _ = octets;
}
