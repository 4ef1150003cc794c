//! The records of a section (RFC 1035 section 4.1.3).

ghost use Rattle.std.specs.Prelude.{◌≡◌, ◌≤◌, ◌⊎◌, ℕ, List, None, false, length, IfOk, IfErr};
ghost use Rattle.zst_record.specs.dnw_decoder.Reading.{IsWantOfMemory};
ghost use Rattle.zst_record.specs.declared.records.Record.{Record as Entry};
ghost use Rattle.zst_record.specs.Records.{RecordAt};
ghost use Rattle.zsv_sections.specs.Sections.{RefusesPlaced, RefusesSection, SectionAt, misplaced};

use crate::placing::Placing;
use std::alloc::Global;
use std::mem;
use zst_record::{BinDecodable, BinDecoder, DecodeError, Record, push};

/// The record at the decoder's index, which may stand there.
pub fn read_placed(
    alloc: Global,
    decoder: &mut BinDecoder<'_>,
    at: Placing,
) -> Result<Record, DecodeError>
    ensures ok { IfOk result (λ r. RecordAt decoder.old.octets decoder.old.index r decoder.new.index) }
    ensures placed { IfOk result (λ r. misplaced at r ≡ None) }
    ensures same { decoder.new.octets ≡ decoder.old.octets }
    ensures forward { decoder.old.index ≤ decoder.new.index }
    ensures within { decoder.new.index ≤ length decoder.new.octets }
    ensures refused { IfErr result (RefusesPlaced at decoder.old.octets decoder.old.index) }
    ensures none { IfErr result (λ e. IsWantOfMemory e ⊎ ((r : Entry) (end : ℕ)
        → RecordAt decoder.old.octets decoder.old.index r end → misplaced at r ≡ None → ⊥)) }
{
    let standing = Record::read(alloc, decoder)?;
    match at.misplaced(&standing) {
        None => Ok(standing),
        Some(cause) => {
            mem::drop(standing);
            Err(cause)
        }
    }
}

// So many records from the decoder's index on, which moves behind them, in a section before the additional one.
fn read_records(
    alloc: Global,
    decoder: &mut BinDecoder<'_>,
    at: Placing,
    count: u16,
) -> Result<Vec<Record>, DecodeError>
    requires { at.is_additional ≡ false }
    ensures ok { IfOk result (λ records. SectionAt at decoder.old.octets decoder.old.index count records.items decoder.new.index) }
    ensures same { decoder.new.octets ≡ decoder.old.octets }
    ensures refused { IfErr result (λ e. IsWantOfMemory e ⊎ RefusesSection at decoder.old.octets decoder.old.index count e) }
    ensures none { IfErr result (λ e. IsWantOfMemory e ⊎ ((records : List Entry) (end : ℕ)
        → SectionAt at decoder.old.octets decoder.old.index count records end → ⊥)) }
{
    let mut records = Vec::new(alloc);
    'records: for _ in 0..count {
        let standing = read_placed(alloc, decoder, at)?;
        let Ok(()) = push(&mut records, standing) else {
            return Err(DecodeError::Memory);
        };
    }
    Ok(records)
}

/// So many records from the decoder's index on, which moves behind them, in a section before the additional one. Where
/// none are counted, nothing is read.
#[inline(always)]
pub fn read_section(
    alloc: Global,
    decoder: &mut BinDecoder<'_>,
    at: Placing,
    count: u16,
) -> Result<Vec<Record>, DecodeError>
    requires { at.is_additional ≡ false }
    ensures ok { IfOk result (λ records. SectionAt at decoder.old.octets decoder.old.index count records.items decoder.new.index) }
    ensures same { decoder.new.octets ≡ decoder.old.octets }
    ensures refused { IfErr result (λ e. IsWantOfMemory e ⊎ RefusesSection at decoder.old.octets decoder.old.index count e) }
    ensures none { IfErr result (λ e. IsWantOfMemory e ⊎ ((records : List Entry) (end : ℕ)
        → SectionAt at decoder.old.octets decoder.old.index count records end → ⊥)) }
{
    if count == 0 {
        return Ok(Vec::new(alloc));
    }
    read_records(alloc, decoder, at, count)
}
