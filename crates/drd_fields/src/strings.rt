//! Strings up to the end of the data.
ghost use Rattle.std.specs.Prelude.{◌≡◌, ◌+◌, ◌<◌, ◌≤◌, ◌⊎◌, List, ℕ, length, get_or, map, IfOk, IfErr, OnOk, OnErr};
ghost use Rattle.dnw_encoder.specs.dnw_codes.declared.error.DecodeError.TheVariants.{InsufficientBytes};
ghost use Rattle.dnw_encoder.specs.dnw_decoder.Reading.{IsWantOfMemory};
ghost use Rattle.drd_fields.specs.Fields.{StringAt, StringsAt};
ghost use Rattle.drd_fields.specs.Reading.{LacksStrings};

use dnw_encoder::{BinDecoder, DecodeError};
use std::alloc::Global;

// The string at the index, which begins before the end of the data and may not go past it.
fn read_string_within(
    alloc: Global,
    decoder: &mut BinDecoder<'_>,
    end: usize,
) -> Result<Vec<u8>, DecodeError>
    ensures ok { IfOk result (λ s. StringAt decoder.old.octets decoder.old.index s.items decoder.new.index) }
    ensures within { OnOk result (decoder.new.index ≤ end) }
    ensures same { decoder.new.octets ≡ decoder.old.octets }
    ensures inside { decoder.new.index ≤ length decoder.new.octets }
    ensures err { OnErr result (decoder.new ≡ decoder.old) }
    ensures cause { IfErr result (λ e. IsWantOfMemory e ⊎ ((e ≡ InsufficientBytes)
        × ((end < decoder.old.index + (1 + get_or decoder.old.octets decoder.old.index 0))
        ⊎ (length decoder.old.octets < decoder.old.index + (1 + get_or decoder.old.octets decoder.old.index 0))))) }
{
    let start = decoder.index();
    let string = decoder.read_character_data()?.unverified();
    if end < decoder.index() {
        decoder.set_index(start);
        return Err(DecodeError::InsufficientBytes);
    }
    match Vec::from_slice(alloc, string) {
        Ok(string) => Ok(string),
        Err(_) => {
            decoder.set_index(start);
            Err(DecodeError::Memory)
        }
    }
}

/// The strings from the index to the end of the data.
pub(crate) fn read_strings(
    alloc: Global,
    decoder: &mut BinDecoder<'_>,
    end: usize,
) -> Result<Vec<Vec<u8>>, DecodeError>
    ensures ok { IfOk result (λ strings.
        StringsAt decoder.old.octets decoder.old.index (map (λ s. s.items) strings.items) decoder.new.index) }
    ensures end { OnOk result (decoder.new.index ≡ end) }
    ensures same { decoder.new.octets ≡ decoder.old.octets }
    ensures within { decoder.new.index ≤ length decoder.new.octets }
    ensures err { OnErr result (decoder.new ≡ decoder.old) }
    ensures cause { IfErr result (λ e. IsWantOfMemory e ⊎ LacksStrings decoder.old.octets end decoder.old.index e) }
{
    let start = decoder.index();
    if end < start {
        return Err(DecodeError::InsufficientBytes);
    }
    match strings_before(alloc, decoder, end) {
        Ok(strings) => Ok(strings),
        Err(refused) => {
            decoder.set_index(start);
            Err(refused)
        }
    }
}

// The strings to the end, which is not before the index. Where one is refused, those before it were read.
fn strings_before(
    alloc: Global,
    decoder: &mut BinDecoder<'_>,
    end: usize,
) -> Result<Vec<Vec<u8>>, DecodeError>
    requires { decoder.old.index ≤ end }
    ensures ok { IfOk result (λ strings.
        StringsAt decoder.old.octets decoder.old.index (map (λ s. s.items) strings.items) decoder.new.index) }
    ensures end { OnOk result (decoder.new.index ≡ end) }
    ensures same { decoder.new.octets ≡ decoder.old.octets }
    ensures within { decoder.new.index ≤ length decoder.new.octets }
    ensures cause { IfErr result (λ e. IsWantOfMemory e ⊎ LacksStrings decoder.old.octets end decoder.old.index e) }
{
    let mut strings = Vec::new(alloc);
    'strings: while decoder.index() < end {
        let string = read_string_within(alloc, decoder, end)?;
        match strings.push(string) {
            Ok(()) => {}
            Err(_) => return Err(DecodeError::Memory),
        }
    }
    Ok(strings)
}
