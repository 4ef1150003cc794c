//! The bits of one window.
ghost use Rattle.std.specs.Prelude.{◌≡◌, ◌+◌, ◌*◌, ◌/◌, ◌%◌, ◌-◌, ◌^◌, ◌<◌, ◌≤◌, ◌==◌, ◌++◌, ◌∷◌, [], cond, length, OnOk};
ghost use Rattle.dnw_wire.specs.BitMaps.{octet_types, map_types, Rises};

use std::alloc::AllocError;

// Whether a bit of an octet is set, counted from the top.
fn is_set(octet: u8, bit: u16) -> bool
    requires { bit < 8 }
    ensures { result ≡ (octet / 2 ^ (7 - bit) % 2 == 1) }
{
    octet >> (7 - bit) & 1 == 1
}

// Adds the types whose bits are set in an octet.
fn push_octet(codes: &mut Vec<u16>, base: u16, octet: u8) -> Result<(), AllocError>
    requires { base + 8 ≤ 2 ^ 16 }
    ensures { OnOk result (codes.new.items ≡ codes.old.items ++ octet_types base octet) }
{
    'bits: for bit in 0..8u16 {
        if is_set(octet, bit) {
            codes.push(base + bit)?;
        }
    }
    Ok(())
}

/// Adds the types of a window's octets.
pub(crate) fn push_map(codes: &mut Vec<u16>, number: u8, map: &[u8]) -> Result<(), AllocError>
    requires { length map.now ≤ 32 }
    ensures { OnOk result (codes.new.items ≡ codes.old.items ++ map_types (256 * number) map.now) }
{
    'octets: for i in 0..map.len() {
        push_octet(codes, 256 * u16::from(number) + 8 * i as u16, map[i])?;
    }
    Ok(())
}

/// The octet at a base whose set bits are the types at the front, and the types behind.
pub(crate) fn octet_of(base: u32, codes: &[u16]) -> (u8, &[u16])
    requires base { base + 8 ≤ 2 ^ 16 }
    requires rises { Rises base codes.now 65536 }
    ensures types { codes.now ≡ octet_types base result.0 ++ result.1.now }
    ensures rises { Rises (base + 8) result.1.now 65536 }
{
    let mut octet: u8 = 0;
    let mut rest = codes;
    'bits: for bit in 0..8u32 {
        (octet, rest) = bit_of(octet, base + bit, rest);
    }
    (octet, rest)
}

// An octet with a bit more at its end, which is set if this type comes first.
fn bit_of(octet: u8, code: u32, codes: &[u16]) -> (u8, &[u16])
    requires octet { octet < 128 }
    requires code { code < 2 ^ 16 }
    ensures types { codes.now ≡ cond (result.0 % 2 == 1) (code ∷ []) [] ++ result.1.now }
    ensures upper { result.0 / 2 ≡ octet }
    ensures rises { Rises code codes.now 65536 → Rises (code + 1) result.1.now 65536 }
{
    let Some((first, behind)) = codes.split_first() else {
        return (2 * octet, codes);
    };
    if u32::from(*first) == code {
        (2 * octet + 1, behind)
    } else {
        (2 * octet, codes)
    }
}
