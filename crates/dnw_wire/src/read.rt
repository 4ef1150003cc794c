//! Bit maps that are read.
ghost use Rattle.std.specs.Prelude.{◌≡◌, ◌≤◌, ◌⊎◌, ◌++◌, ℕ, List, length, MatchBool, IfOk, IfErr};
ghost use Rattle.dnw_codes.specs.declared.error.DecodeError.TheVariants.{NsecBitmapOutOfBounds};
ghost use Rattle.dnw_encoder.specs.dnw_decoder.Reading.{IsWantOfMemory};
ghost use Rattle.dnw_wire.specs.BitMaps.{BitMaps, IsMap, WindowAt};
ghost use Rattle.dnw_wire.specs.BitMaps.{Begins};

use crate::bits::push_map;
use dnw_codes::DecodeError;
use std::alloc::Global;

// A window at the front of octets, and what is behind it.
#[derive(Clone, Copy)]
struct Window<'a> {
    number: u8,
    map: &'a [u8],
    rest: &'a [u8],
}

// Whether the octets begin with a whole window whose number is one or above.
fn begins(octets: &[u8], above: u16) -> bool
    ensures { MatchBool result (Begins above octets.now) (Begins above octets.now → ⊥) }
{
    if octets.len() < 2 {
        return false;
    }
    let len = usize::from(octets[1]);
    u16::from(octets[0]) >= above && len > 0 && len <= 32 && len <= octets.len() - 2
}

fn window_at<'a>(octets: &'a [u8], above: u16) -> Result<Option<Window<'a>>, DecodeError>
    ensures ok { IfOk result (WindowAt octets.now above) }
    ensures cause { IfErr result (λ e. e ≡ NsecBitmapOutOfBounds) }
    ensures none { IfErr result (λ e. (types : List ℕ) → BitMaps IsMap above octets.now types → ⊥) }
{
    if octets.is_empty() {
        return Ok(None);
    }
    if !begins(octets, above) {
        return Err(DecodeError::NsecBitmapOutOfBounds);
    }
    let end = 2 + usize::from(octets[1]);
    Ok(Some(Window {
        number: octets[0],
        map: &octets[2..end],
        rest: &octets[end..],
    }))
}

/// The numbers of the types that bit maps hold.
pub(crate) fn read_types(alloc: Global, octets: &[u8]) -> Result<Vec<u16>, DecodeError>
    ensures ok { IfOk result (λ codes. BitMaps IsMap 0 octets.now codes.items) }
    ensures cause { IfErr result (λ e. IsWantOfMemory e ⊎ (e ≡ NsecBitmapOutOfBounds)) }
    ensures none { IfErr result (λ e. IsWantOfMemory e ⊎ ((types : List ℕ) → BitMaps IsMap 0 octets.now types → ⊥)) }
{
    let mut codes = Vec::new(alloc);
    let mut rest = octets;
    let mut above = 0;
    'windows: while let Some(window) = window_at(rest, above)? {
        match push_map(&mut codes, window.number, window.map) {
            Ok(()) => {
                rest = window.rest;
                above = u16::from(window.number) + 1;
            }
            Err(_) => return Err(DecodeError::Memory),
        }
    }
    Ok(codes)
}
