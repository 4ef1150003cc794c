//! The questions of a reply, as they were sent.

ghost use Rattle.std.specs.Prelude.{◌≡◌, ◌+◌, ◌≤◌, length, OnOk, IfErr};
ghost use Rattle.zsv_request.specs.zsv_message.zst_record.dnw_encoder.Effects.{IsRefusal, Sound, Writes};
ghost use Rattle.zsv_request.specs.zsv_message.zst_record.dnw_encoder.Encoders.{state};
ghost use Rattle.zsv_reply.specs.Writing.{EmitsQuestions};

use zsv_request::{BinEncoder, ProtoError, Queries};

/// Writes the questions as they were sent. Names that are written behind them may point to the first one's, if it stands
/// there in full.
pub(crate) fn emit_questions(
    encoder: &mut BinEncoder<'_>,
    queries: &Queries<'_>,
) -> Result<(), ProtoError>
    requires { Sound (state encoder.old) }
    ensures same_reference { encoder.new.buffer.ghost_name ≡ encoder.old.buffer.ghost_name }
    ensures writes { Writes (state encoder.old) (state encoder.new) }
    ensures ok { OnOk result (EmitsQuestions queries.now (state encoder.old) (state encoder.new)) }
    ensures fits { OnOk result ((state encoder.old).offset + length queries.now.octets ≤ (state encoder.old).maximum) }
    ensures cause { IfErr result (IsRefusal (state encoder.old) (length queries.now.octets)) }
{
    let start = encoder.offset();
    encoder.emit_vec(queries.as_bytes())?;
    match queries.queries().first() {
        Some(query) => encoder.store_name(&query.name, start),
        None => Ok(()),
    }
}
