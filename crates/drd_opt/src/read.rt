//! Options that are read.
ghost use Rattle.std.specs.Prelude.{◌≡◌, ◌+◌, ◌<◌, ◌≤◌, ◌⊎◌, ◌++◌, ℕ, [], List, length, drop, IfOk, IfErr, OnOk, OnErr, All, MatchOption};
ghost use Rattle.drd_fields.specs.dnw_codes.declared.error.DecodeError.TheVariants.{InsufficientBytes};
ghost use Rattle.drd_fields.specs.dnw_decoder.Octets.{Stands};
ghost use Rattle.drd_fields.specs.dnw_decoder.Reading.{IsWantOfMemory};
ghost use Rattle.drd_opt.specs.Entries.{Entry, RawOption, FitsLengths, raw_option, raw_octets};
ghost use Rattle.drd_opt.specs.Reading.{HoldsEntries, IsEntryOf, IsRefused, EntriesAt, RefusesEntries, BreaksOff, EndsInside};

use crate::code::EdnsCode;
use crate::option::EdnsOption;
use drd_fields::{BinDecoder, DecodeError, ProtoError};
use std::alloc::Global;

// The code and the octets of the first option, which moves the decoder behind it; or nothing, where the octets break off.
fn read_raw<'a>(decoder: &mut BinDecoder<'a>) -> Result<Option<(u16, &'a [u8])>, DecodeError>
    requires { decoder.old.index < length decoder.old.octets }
    ensures some { IfOk result (λ found. MatchOption found (BreaksOff (drop decoder.old.index decoder.old.octets))
        (λ option. Stands decoder.old.octets decoder.old.index (raw_octets (raw_option option.0 option.1.now)) decoder.new.index
        × FitsLengths (raw_option option.0 option.1.now))) }
    ensures same { decoder.new.octets ≡ decoder.old.octets }
    ensures forward { IfOk result (λ found. MatchOption found (decoder.old.index ≤ decoder.new.index) (λ option. decoder.old.index < decoder.new.index)) }
    ensures cause { IfErr result (λ e. (e ≡ InsufficientBytes) × EndsInside (drop decoder.old.index decoder.old.octets)) }
{
    let code = match decoder.read_u16() {
        Ok(code) => code.unverified(),
        Err(refused) => return Err(refused),
    };
    if decoder.is_empty() {
        return Ok(None);
    }
    let len = match decoder.read_u16() {
        Ok(len) => len.unverified(),
        Err(refused) => return Err(refused),
    };
    match decoder.read_slice(usize::from(len)) {
        Ok(found) => Ok(Some((code, found.unverified()))),
        Err(_) => Ok(None),
    }
}

// The option of a code and octets, under the code.
fn entry_of(alloc: Global, code: u16, octets: &[u8]) -> Result<(EdnsCode, EdnsOption), DecodeError>
    requires { length octets.now ≤ 65531 }
    ensures ok { IfOk result (IsEntryOf (raw_option code octets.now)) }
    ensures refused { IfErr result IsWantOfMemory }
{
    let code = EdnsCode::from(code);
    match EdnsOption::new(alloc, code, octets) {
        Ok(option) => Ok((code, option)),
        Err(_) => Err(DecodeError::Memory),
    }
}

// The entries that the RDATA of an OPT record hold.
fn entries_of(alloc: Global, octets: &[u8]) -> Result<Vec<(EdnsCode, EdnsOption)>, DecodeError>
    requires { length octets.now ≤ 65535 }
    ensures ok { IfOk result (λ entries. HoldsEntries octets.now entries.items) }
    ensures refused { IfErr result (λ e. IsWantOfMemory e ⊎ ((e ≡ InsufficientBytes) × IsRefused octets.now)) }
{
    let mut entries = Vec::new(alloc);
    let mut decoder = BinDecoder::new(octets);
    'options: while !decoder.is_empty() {
        let (code, found) = match read_raw(&mut decoder) {
            Ok(Some(option)) => option,
            Ok(None) => return Ok(Vec::new(alloc)),
            Err(refused) => return Err(refused),
        };
        let entry = match entry_of(alloc, code, found) {
            Ok(entry) => entry,
            Err(refused) => return Err(refused),
        };
        match entries.push(entry) {
            Ok(()) => {}
            Err(_) => return Err(DecodeError::Memory),
        }
    }
    Ok(entries)
}

/// The entries in so many octets at the decoder's index, which moves behind them; on an error it stays.
pub(crate) fn read_entries(
    alloc: Global,
    decoder: &mut BinDecoder<'_>,
    len: u16,
) -> Result<Vec<(EdnsCode, EdnsOption)>, DecodeError>
    ensures ok { IfOk result (λ entries. EntriesAt decoder.old.octets decoder.old.index entries.items (decoder.old.index + len)) }
    ensures end { OnOk result (decoder.new.index ≡ decoder.old.index + len) }
    ensures same { decoder.new.octets ≡ decoder.old.octets }
    ensures forward { decoder.old.index ≤ decoder.new.index }
    ensures within { decoder.new.index ≤ length decoder.new.octets }
    ensures refused { IfErr result (λ e. RefusesEntries decoder.old.octets decoder.old.index (decoder.old.index + len) e decoder.new.index) }
    ensures none { IfErr result (λ e. IsWantOfMemory e
        ⊎ ((entries : List Entry) → EntriesAt decoder.old.octets decoder.old.index entries (decoder.old.index + len) → ⊥)) }
{
    let start = decoder.index();
    let octets = match decoder.read_slice(usize::from(len)) {
        Ok(octets) => octets.unverified(),
        Err(refused) => return Err(refused),
    };
    match entries_of(alloc, octets) {
        Ok(entries) => Ok(entries),
        Err(refused) => {
            decoder.set_index(start);
            Err(refused)
        }
    }
}
