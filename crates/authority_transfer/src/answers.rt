//! The answers of a message, read a second time: what a message was read into lends its answers, and a zone keeps them.

ghost use Rattle.std.specs.Prelude.{◌≡◌, ◌⊎◌, ◌∷◌, ◌++◌, [], ℕ, List, length, IfOk, IfErr, OnOk};
ghost use Rattle.drd_record_data.specs.Numbers.{NumbersFit};
ghost use Rattle.zsv_message.specs.Messages.{IsMessage, Message};
ghost use Rattle.zsv_message.specs.zst_record.dnw_decoder.Reading.{IsWantOfMemory};
ghost use Rattle.zsv_message.specs.zst_record.Records.{RecordAt};
ghost use Rattle.zsv_message.specs.zst_record.declared.records.Record.{Record as Entry};
ghost use Rattle.zsv_message.specs.zsv_parts.Wire.{Entries};
ghost use Rattle.authority_transfer.specs.Transfers.{AllNumbersFit, answered_with};

use drd_record_data::numbers_fit;
use std::alloc::Global;
use std::mem;
use zsv_message::{BinDecodable, BinDecoder, DecodeError, Header, Queries, Record};

// Adds a record to the others.
fn push(records: &mut Vec<Record>, next: Record) -> Result<(), DecodeError>
    ensures ok { OnOk result (records.new.items ≡ records.old.items ++ next ∷ []) }
    ensures memory { IfErr result IsWantOfMemory }
{
    match records.push(next) {
        Ok(()) => Ok(()),
        Err(refused) => {
            mem::drop(refused);
            Err(DecodeError::Memory)
        }
    }
}

// The record at the decoder's index. Its numbers fit their fields.
fn read_record(alloc: Global, decoder: &mut BinDecoder<'_>) -> Result<Record, DecodeError>
    ensures ok { IfOk result (λ r. RecordAt decoder.old.octets decoder.old.index r decoder.new.index) }
    ensures fits { IfOk result (λ r. NumbersFit r.rdata) }
    ensures same { decoder.new.octets ≡ decoder.old.octets }
    ensures none { IfErr result (λ e. IsWantOfMemory e ⊎ ((r : Entry) (end : ℕ) → RecordAt decoder.old.octets decoder.old.index r end → ⊥)) }
{
    let next = Record::read(alloc, decoder)?;
    numbers_fit(&next.rdata);
    Ok(next)
}

// The records at the decoder's index, as many as are counted.
fn read_records(
    alloc: Global,
    decoder: &mut BinDecoder<'_>,
    count: u16,
) -> Result<Vec<Record>, DecodeError>
    ensures ok { IfOk result (λ rs. Entries (RecordAt decoder.old.octets) decoder.old.index rs.items decoder.new.index) }
    ensures counted { IfOk result (λ rs. length rs.items ≡ count) }
    ensures fits { IfOk result (λ rs. AllNumbersFit rs.items) }
    ensures none { IfErr result (λ e. IsWantOfMemory e ⊎ ((rs : List Entry) (end : ℕ)
        → Entries (RecordAt decoder.old.octets) decoder.old.index rs end → length rs ≡ count → ⊥)) }
{
    let mut records = Vec::new(alloc);
    'records: for _ in 0..count {
        let next = read_record(alloc, decoder)?;
        push(&mut records, next)?;
    }
    Ok(records)
}

/// The answers of the message that octets hold.
pub fn read_answers(alloc: Global, reply: &[u8]) -> Result<Vec<Record>, DecodeError>
    ensures ok { IfOk result (λ rs. (m : Message) → IsMessage reply.now m → IsMessage reply.now (answered_with m rs.items)) }
    ensures fits { IfOk result (λ rs. AllNumbersFit rs.items) }
    ensures none { IfErr result (λ e. IsWantOfMemory e ⊎ ((m : Message) → IsMessage reply.now m → ⊥)) }
{
    let mut decoder = BinDecoder::new(reply);
    let header = Header::read(&mut decoder)?;
    let queries = Queries::read(alloc, &mut decoder, header.counts.queries)?;
    mem::drop(queries);
    read_records(alloc, &mut decoder, header.counts.answers)
}
