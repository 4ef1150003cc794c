//! The lists of a reply, each written as far as it fits.

ghost use Rattle.std.specs.Prelude.{◌≡◌, ◌+◌, ◌^◌, ◌<◌, ◌≤◌, ◌||◌, ◌++◌, ℕ, Bool, List, Ok, option_copied, option_to_list, IfOk, IfErr, MatchResult};
ghost use Rattle.std.specs.List.{AllByRecursion};
ghost use Rattle.zsv_request.specs.zsv_message.Messages.{OptAt};
ghost use Rattle.zsv_request.specs.zsv_message.zst_edns.Writing.{EdnsReadsBack};
ghost use Rattle.zsv_request.specs.zsv_message.zst_record.Records.{IsServable, plain};
ghost use Rattle.zsv_request.specs.zsv_message.zst_record.declared.records.Record.{Record};
ghost use Rattle.zsv_request.specs.zsv_message.zst_record.dnw_codes.ProtoError.{IsMemory};
ghost use Rattle.zsv_request.specs.zsv_message.zst_record.dnw_encoder.Effects.{Writes};
ghost use Rattle.zsv_request.specs.zsv_message.zst_record.dnw_encoder.Encoders.{state};
ghost use Rattle.zsv_request.specs.zsv_message.zst_record.drd_rdata.Writing.{WritesInFull};
ghost use Rattle.zsv_request.specs.zsv_message.zsv_parts.SignatureRecords.{TsigReadsBack, TsigRecordAt};
ghost use Rattle.zsv_reply.specs.Iterators.{Supplies};
ghost use Rattle.zsv_reply.specs.Replies.{ReplyRecordAt, opt_plain, tsig_plain};
ghost use Rattle.zsv_reply.specs.Writing.{written_count, EmitsAdditionals, EmitsFront, IsNotKept, LeadsRecords};

use crate::lends::LendsRecord;
use std::iter;
use zsv_request::{BinEncoder, Edns, ProtoError, TsigRecord};

/// How many items of a list were written, and whether one was left out.
#[derive(Clone, Copy)]
pub(crate) struct Kept {
    pub(crate) count: u16,
    pub(crate) is_cut: bool,
}

// How many items were written: all, or those before one that didn't fit; and whether there was such a one.
fn count_written(written: Result<usize, ProtoError>) -> Result<(usize, bool), ProtoError>
    ensures { result ≡ written_count written }
{
    match written {
        Ok(count) => Ok((count, false)),
        Err(ProtoError::NotAllRecordsWritten { count }) => Ok((count, true)),
        Err(other) => Err(other),
    }
}

// What is kept of a list of which so many items were written, if 16 bits count them.
fn kept_of(written: Result<usize, ProtoError>) -> Result<Kept, ProtoError>
    ensures ok { IfOk result (λ kept. written_count written ≡ Ok (kept.count, kept.is_cut)) }
    ensures cause { IfErr result (IsNotKept (written_count written)) }
{
    let (written, is_cut) = count_written(written)?;
    match u16::try_from(written) {
        Ok(count) => Ok(Kept { count, is_cut }),
        Err(_) => Err(ProtoError::Message("more records than 16 bits count")),
    }
}

// Two fronts as one, if 16 bits count both.
fn kept_together(first: Kept, second: Kept) -> Result<Kept, ProtoError>
    ensures { MatchResult result
        (λ kept. (kept.count ≡ first.count + second.count) × (kept.is_cut ≡ (first.is_cut || second.is_cut)))
        (λ e. 2 ^ 16 ≤ first.count + second.count) }
{
    match first.count.checked_add(second.count) {
        Some(count) => Ok(Kept {
            count,
            is_cut: first.is_cut || second.is_cut,
        }),
        None => Err(ProtoError::Message("more records than 16 bits count")),
    }
}

/// Writes as many records of a list as fit.
#[inline(always)]
pub(crate) fn emit_front<I: Iterator>(
    encoder: &mut BinEncoder<'_>,
    records: I,
) -> Result<Kept, ProtoError>
where
    I::Item: LendsRecord,
    requires can_next { I.can_next records }
    requires in_full { WritesInFull (state encoder.old) }
    requires small { (state encoder.old).maximum < 2 ^ 16 }
    ensures same_reference { encoder.new.buffer.ghost_name ≡ encoder.old.buffer.ghost_name }
    ensures writes { Writes (state encoder.old) (state encoder.new) }
    ensures ok { IfOk result
        (λ kept. (points : Bool) (first : ℕ) → LeadsRecords points first (state encoder.old)
        → (lent : List Record) → Supplies I.next_gives I.Item.lent records lent → AllByRecursion IsServable lent
        → EmitsFront (ReplyRecordAt points first) plain lent kept (state encoder.old) (state encoder.new)
        × LeadsRecords points first (state encoder.new)) }
    ensures cause { IfErr result
        (λ e. (lent : List Record) → Supplies I.next_gives I.Item.lent records lent → AllByRecursion IsServable lent
        → IsMemory e) }
{
    kept_of(encoder.emit_all(records))
}

/// Writes as many records of two lists as fit, one list behind the other, as those of one section.
pub(crate) fn emit_section<I: Iterator, J: Iterator>(
    encoder: &mut BinEncoder<'_>,
    records: I,
    later: J,
) -> Result<Kept, ProtoError>
where
    I::Item: LendsRecord,
    J::Item: LendsRecord,
    requires can_next { I.can_next records }
    requires can_go_on { J.can_next later }
    requires in_full { WritesInFull (state encoder.old) }
    requires small { (state encoder.old).maximum < 2 ^ 16 }
    ensures same_reference { encoder.new.buffer.ghost_name ≡ encoder.old.buffer.ghost_name }
    ensures writes { Writes (state encoder.old) (state encoder.new) }
    ensures ok { IfOk result
        (λ kept. (points : Bool) (first : ℕ) → LeadsRecords points first (state encoder.old)
        → (lent : List Record) (more : List Record) → Supplies I.next_gives I.Item.lent records lent
        → Supplies J.next_gives J.Item.lent later more → AllByRecursion IsServable lent → AllByRecursion IsServable more
        → EmitsFront (ReplyRecordAt points first) plain (lent ++ more) kept (state encoder.old) (state encoder.new)
        × LeadsRecords points first (state encoder.new)) }
    ensures cause { IfErr result
        (λ e. (lent : List Record) (more : List Record) → Supplies I.next_gives I.Item.lent records lent
        → Supplies J.next_gives J.Item.lent later more → AllByRecursion IsServable lent → AllByRecursion IsServable more
        → IsMemory e) }
{
    let kept = emit_front(encoder, records)?;
    if kept.is_cut {
        return Ok(kept);
    }
    let more = emit_front(encoder, later)?;
    kept_together(kept, more)
}

// Writes options of EDNS, if there are any and they fit.
fn emit_edns(encoder: &mut BinEncoder<'_>, edns: Option<&Edns>) -> Result<Kept, ProtoError>
    requires in_full { WritesInFull (state encoder.old) }
    requires small { (state encoder.old).maximum < 2 ^ 16 }
    ensures same_reference { encoder.new.buffer.ghost_name ≡ encoder.old.buffer.ghost_name }
    ensures writes { Writes (state encoder.old) (state encoder.new) }
    ensures ok { IfOk result (λ kept. AllByRecursion EdnsReadsBack (option_to_list (option_copied edns.entry))
        → EmitsFront OptAt opt_plain (option_to_list (option_copied edns.entry)) kept (state encoder.old) (state encoder.new)) }
    ensures cause { IfErr result (λ e. AllByRecursion EdnsReadsBack (option_to_list (option_copied edns.entry)) → IsMemory e) }
{
    match edns {
        None => Ok(Kept {
            count: 0,
            is_cut: false,
        }),
        Some(edns) => kept_of(encoder.emit_all(iter::once(edns))),
    }
}

// Writes a signature, if there is one and it fits.
fn emit_signature(
    encoder: &mut BinEncoder<'_>,
    signature: Option<&TsigRecord>,
) -> Result<Kept, ProtoError>
    requires in_full { WritesInFull (state encoder.old) }
    requires small { (state encoder.old).maximum < 2 ^ 16 }
    ensures same_reference { encoder.new.buffer.ghost_name ≡ encoder.old.buffer.ghost_name }
    ensures writes { Writes (state encoder.old) (state encoder.new) }
    ensures ok { IfOk result (λ kept. AllByRecursion TsigReadsBack (option_to_list (option_copied signature.entry))
        → EmitsFront TsigRecordAt tsig_plain (option_to_list (option_copied signature.entry)) kept (state encoder.old) (state encoder.new)) }
    ensures cause { IfErr result (λ e. AllByRecursion TsigReadsBack (option_to_list (option_copied signature.entry)) → IsMemory e) }
{
    match signature {
        None => Ok(Kept {
            count: 0,
            is_cut: false,
        }),
        Some(signature) => kept_of(encoder.emit_all(iter::once(signature))),
    }
}

/// Writes as many additional records as fit, the options of EDNS behind them, and the signature last (RFC 6891 section
/// 6.1.1, RFC 8945 section 5.1). All are counted among the additional records.
#[inline(always)]
pub(crate) fn emit_additionals<I: Iterator>(
    encoder: &mut BinEncoder<'_>,
    records: I,
    edns: Option<&Edns>,
    signature: Option<&TsigRecord>,
) -> Result<Kept, ProtoError>
where
    I::Item: LendsRecord,
    requires can_next { I.can_next records }
    requires in_full { WritesInFull (state encoder.old) }
    requires small { (state encoder.old).maximum < 2 ^ 16 }
    ensures same_reference { encoder.new.buffer.ghost_name ≡ encoder.old.buffer.ghost_name }
    ensures writes { Writes (state encoder.old) (state encoder.new) }
    ensures ok { IfOk result
        (λ kept. (points : Bool) (first : ℕ) → LeadsRecords points first (state encoder.old)
        → (lent : List Record) → Supplies I.next_gives I.Item.lent records lent → AllByRecursion IsServable lent
        → AllByRecursion EdnsReadsBack (option_to_list (option_copied edns.entry))
        → AllByRecursion TsigReadsBack (option_to_list (option_copied signature.entry))
        → EmitsAdditionals points first lent (option_copied edns.entry) (option_copied signature.entry) kept (state encoder.old) (state encoder.new)) }
    ensures cause { IfErr result
        (λ e. (lent : List Record) → Supplies I.next_gives I.Item.lent records lent → AllByRecursion IsServable lent
        → AllByRecursion EdnsReadsBack (option_to_list (option_copied edns.entry))
        → AllByRecursion TsigReadsBack (option_to_list (option_copied signature.entry)) → IsMemory e) }
{
    let kept = emit_front(encoder, records)?;
    let options = emit_edns(encoder, edns)?;
    let signed = emit_signature(encoder, signature)?;
    let both = kept_together(kept, options)?;
    kept_together(both, signed)
}
