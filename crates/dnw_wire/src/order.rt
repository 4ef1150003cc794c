//! Sets of types in order.
ghost use Rattle.std.specs.Prelude.{◌≡◌, ◌∷◌};
ghost use Rattle.std.specs.Ordering.{nat_cmp, ordering_then};
ghost use Rattle.dnw_wire.specs.BitMaps.{Rises};
ghost use Rattle.dnw_wire.specs.MapOrder.{types_cmp, map_len, codes_after, shares_window};

use std::cmp::Ordering;

/// The order of numbers that rise, which is that of the octets of their bit maps. The first that differ decide.
pub(crate) fn cmp_codes(codes: &[u16], others: &[u16]) -> Ordering
    requires rises { Rises 0 codes.now 65536 }
    requires other_rises { Rises 0 others.now 65536 }
    ensures { result ≡ types_cmp codes.now others.now }
{
    let mut common = None;
    let mut left = codes;
    let mut right = others;
    'types: while let (Some((code, later)), Some((other, further))) = (
        left.split_first(),
        right.split_first(),
    ) {
        if code != other {
            return cmp_apart(common, *code, later, *other, further);
        }
        common = Some(*code);
        left = later;
        right = further;
    }
    left.len().cmp(&right.len())
}

// The order of numbers that differ from here on, behind the last one in common. Where they lie in two windows, the side
// with the lower window stands first, unless that window began before: then it holds more types on that side, which
// stands behind.
fn cmp_apart(common: Option<u16>, code: u16, later: &[u16], other: u16, further: &[u16]) -> Ordering
    requires rises { Rises 0 (codes_after common (code ∷ later.now)) 65536 }
    requires other_rises { Rises 0 (codes_after common (other ∷ further.now)) 65536 }
    requires apart { code ≡ other → ⊥ }
    ensures { result ≡ types_cmp (codes_after common (code ∷ later.now)) (codes_after common (other ∷ further.now)) }
{
    match (code / 256).cmp(&(other / 256)) {
        Ordering::Equal => cmp_in_window(code, later, other, further),
        unequal => {
            if shares_window(common, code.min(other)) {
                unequal.reverse()
            } else {
                unequal
            }
        }
    }
}

// The order of numbers that differ in one window. A longer map stands behind; of two of one length that with the lower
// number does, whose bit is the higher one.
fn cmp_in_window(code: u16, later: &[u16], other: u16, further: &[u16]) -> Ordering
    ensures { result ≡ ordering_then (nat_cmp (map_len code later.now) (map_len other further.now)) (nat_cmp other code) }
{
    match map_len(code, later).cmp(&map_len(other, further)) {
        Ordering::Equal => other.cmp(&code),
        unequal => unequal,
    }
}

// Whether a number, if there is one, lies in the window of another.
fn shares_window(common: Option<u16>, code: u16) -> bool
    ensures { result ≡ shares_window common code }
{
    match common {
        Some(last) => last / 256 == code / 256,
        None => false,
    }
}

// The length of the map of the first number's window, which its greatest one tells.
fn map_len(code: u16, codes: &[u16]) -> u16
    ensures { result ≡ map_len code codes.now }
{
    let mut end = code;
    let mut rest = codes;
    'window: while let Some((next, later)) = rest.split_first() {
        if *next / 256 != end / 256 {
            break;
        }
        end = *next;
        rest = later;
    }
    end % 256 / 8 + 1
}
