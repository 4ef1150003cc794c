//! Data that fill their octets.
ghost use Rattle.std.specs.Prelude.{◌≡◌, ◌+◌, ◌≤◌, ◌⊎◌, List, length, IfOk, IfErr, OnOk};
ghost use Rattle.dnw_encoder.specs.dnw_decoder.Reading.{IsWantOfMemory};
ghost use Rattle.drd_fields.specs.Fields.{Field, kinds_of, FieldsAt};
ghost use Rattle.drd_fields.specs.Reading.{RefusesWindow};

use crate::read::ReadFields;
use dnw_encoder::{BinDecoder, DecodeError};
use std::alloc::Global;

/// The data that fill so many octets at the decoder's index. Refused are data that end elsewhere, with the number of their
/// octets (RFC 1035 3.2.1). On an error the decoder is where reading stopped.
#[tactic(auto, using(crate::specs::FieldLaws::fields_forward, crate::specs::FieldLaws::stops_forward))]
pub fn read_window<D: ReadFields + Drop>(
    alloc: Global,
    decoder: &mut BinDecoder<'_>,
    len: u16,
) -> Result<D, DecodeError>
    ensures ok { IfOk result (λ found. FieldsAt decoder.old.octets decoder.old.index (D.fields found) (decoder.old.index + len)) }
    ensures end { OnOk result (decoder.new.index ≡ decoder.old.index + len) }
    ensures same { decoder.new.octets ≡ decoder.old.octets }
    ensures forward { decoder.old.index ≤ decoder.new.index }
    ensures within { decoder.new.index ≤ length decoder.new.octets }
    ensures refused { IfErr result (λ e. RefusesWindow decoder.old.octets (decoder.old.index + len) D.kinds decoder.old.index e decoder.new.index) }
    ensures none { IfErr result (λ e. IsWantOfMemory e
        ⊎ ((fs : List Field) → kinds_of fs ≡ D.kinds → FieldsAt decoder.old.octets decoder.old.index fs (decoder.old.index + len) → ⊥)) }
{
    let start = decoder.index();
    let len = usize::from(len);
    match D::read_fields(alloc, decoder, start + len) {
        Ok(found) => {
            let read = decoder.index() - start;
            if read == len {
                Ok(found)
            } else {
                Err(DecodeError::IncorrectRDataLengthRead { read, len })
            }
        }
        Err(refused) => Err(refused),
    }
}
