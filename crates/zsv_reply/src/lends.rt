//! Records that are lent, to be written.

ghost use Rattle.zsv_request.specs.zsv_message.zst_record.declared.records.Record.{Record};
ghost use Rattle.zsv_request.specs.zsv_message.zst_record.dnw_codes.declared.error.ProtoError.{ProtoError};
ghost use Rattle.zsv_request.specs.zsv_message.zst_record.dnw_encoder.State.{State};
ghost use Rattle.zsv_request.specs.zsv_message.zst_record.Lending.{seen};
ghost use Rattle.zsv_request.specs.zsv_message.zst_record.Writing.{EmitsRecord, RefusesRecord};

use zsv_request::{BinEncodable, Record, RecordRef};

/// What lends a record, as `&Record` does: it is written as the record is. An iterator of `&Record` is bounded by this, as
/// `I::Item: LendsRecord`.
// In place of `Item = &'r Record`: a bound that names a lifetime gets no proof beside `ProtoError`, which holds a
// `&'static str`.
pub trait LendsRecord: BinEncodable + Drop {
    /// The record.
    ghost lent: { Self → Record };

    /// It is written, and refused, as the record is.
    ghost emits_lent: { (lender : Self) (old new : State) → Self.emits lender old new → EmitsRecord (lent lender) old new };

    ghost refuses_lent: { (lender : Self) (old : State) (e : ProtoError) (new : State) → Self.refuses lender old e new
        → RefusesRecord (lent lender) old e };
}

impl LendsRecord for &Record {
    ghost lent = { λ lender. lender.now };

    ghost emits_lent = { λ lender old new emits. emits };

    ghost refuses_lent = { λ lender old e new refuses. refuses };
}

impl LendsRecord for RecordRef<'_> {
    ghost lent = { λ lender. seen lender };

    ghost emits_lent = { λ lender old new emits. emits };

    ghost refuses_lent = { λ lender old e new refuses. refuses };
}
