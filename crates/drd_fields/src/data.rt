//! Data that are fields.
ghost use Rattle.std.specs.Prelude.{◌≡◌, ◌≤◌, ◌⊎◌, ℕ, false, length, IfOk, IfErr, OnErr};
ghost use Rattle.dnw_encoder.specs.dnw_decoder.Reading.{IsWantOfMemory};
ghost use Rattle.drd_fields.specs.Fields.{FieldsAt, are_open};
ghost use Rattle.drd_fields.specs.Reading.{AreMisfits, RefusesValue, StopsReading};
ghost use Rattle.drd_fields.specs.Writing.{canonical_octets};
ghost use Rattle.drd_fields.specs.Equality.{AreFull, Tells, fields_eq};

use crate::decodable::RecordDataDecodable;
use crate::few::Fields;
use crate::list::are_same;
use crate::read::{ReadFields, read_data};
use crate::window::read_window;
use dnw_encoder::{BinDecoder, DecodeError, Restrict};
use std::alloc::Global;

/// A value whose octets are those of its fields. An implementor says what the fields are one by one, and makes the value of
/// them; where not all fields make up a value, it says why others don't.
pub trait FieldData: Sized + Drop {
    ghost use Rattle.std.specs.Prelude.{◌≡◌, List, IfOk, IfErr};
    ghost use Rattle.dnw_encoder.specs.dnw_codes.declared.error.DecodeError.{DecodeError as Error};
    ghost use Rattle.dnw_encoder.specs.dnw_decoder.Reading.{IsWantOfMemory};
    ghost use Rattle.drd_fields.specs.Fields.{AreSameFields, Field, kinds_of};
    ghost use Rattle.drd_fields.specs.Reading.{no_misfits};

    /// The fields as they are read.
    type Parts: ReadFields + Drop;

    ghost fields: { Self → List Field };

    /// What holds of a value in a message, beyond its fields. Of most types nothing does.
    ghost is_valid: { Self → Type 0 } = { λ value. Unit {0} };

    /// Fields that make up no valid value, and the error that says why.
    ghost misfits: { List Field → Error → Type 0 } = { no_misfits };

    /// The value of these fields. Refused are fields that make up none.
    fn of_parts(parts: Self::Parts) -> Result<Self, DecodeError>
        ensures ok { IfOk result (λ value. (fields value ≡ Self.Parts.fields parts) × is_valid value) }
        ensures none { IfErr result (λ e. (value : Self) → is_valid value → AreSameFields (Self.Parts.fields parts) (fields value) → ⊥) }
        ensures cause { IfErr result (λ e. misfits (Self.Parts.fields parts) e × (IsWantOfMemory e → ⊥)) };

    /// The fields, lent.
    fn fields(&self) -> Fields<'_>
        ensures { result ≡ fields self.now };

    // All values have fields of the kinds that are read.
    ghost laws: { (value : Self) → kinds_of (fields value) ≡ Self.Parts.kinds };
}

impl<T: FieldData> RecordDataDecodable for T {
    ghost reads = { λ message place value end. FieldsAt message place (T.fields value) end × T.is_valid value };

    ghost refuses = { λ message place end e at. RefusesValue T.misfits message end T.Parts.kinds place e at };

    fn read_data(
        alloc: Global,
        decoder: &mut BinDecoder<'_>,
        length: Restrict<u16>,
    ) -> Result<T, DecodeError> {
        match read_window::<T::Parts>(alloc, decoder, length.unverified()) {
            Ok(parts) => match T::of_parts(parts) {
                Ok(value) => Ok(value),
                Err(refused) => Err(refused),
            },
            Err(refused) => Err(refused),
        }
    }
}

/// The value at the decoder's index, which moves behind it. None of its fields goes to the end of the data. Where it can't
/// be read, the decoder stays.
pub fn read_value<T: FieldData>(
    alloc: Global,
    decoder: &mut BinDecoder<'_>,
) -> Result<T, DecodeError>
    requires { are_open T.Parts.kinds ≡ false }
    ensures ok { IfOk result (λ value. FieldsAt decoder.old.octets decoder.old.index (T.fields value) decoder.new.index) }
    ensures valid { IfOk result (λ value. T.is_valid value) }
    ensures same { decoder.new.octets ≡ decoder.old.octets }
    ensures forward { decoder.old.index ≤ decoder.new.index }
    ensures within { decoder.new.index ≤ length decoder.new.octets }
    ensures err { OnErr result (decoder.new ≡ decoder.old) }
    ensures refused { IfErr result (λ e. (end : ℕ)
        × (((at : ℕ) × StopsReading decoder.old.octets end T.Parts.kinds decoder.old.index e at)
        ⊎ AreMisfits T.misfits decoder.old.octets end T.Parts.kinds decoder.old.index e)) }
    ensures none { IfErr result (λ e. IsWantOfMemory e
        ⊎ ((value : T) (end : ℕ) → FieldsAt decoder.old.octets decoder.old.index (T.fields value) end → T.is_valid value → ⊥)) }
{
    let start = decoder.index();
    match read_data::<T::Parts>(alloc, decoder) {
        Ok(parts) => match T::of_parts(parts) {
            Ok(value) => Ok(value),
            Err(refused) => {
                decoder.set_index(start);
                Err(refused)
            }
        },
        Err(refused) => Err(refused),
    }
}

/// Whether all fields of two values are equal. Of names that are fully qualified it tells exactly whether the canonical
/// octets of the data are the same.
pub fn is_same_data<T: FieldData>(data: &T, other: &T) -> bool
    ensures value { result ≡ fields_eq (T.fields data.now) (T.fields other.now) }
    ensures canonical { AreFull (T.fields data.now) → AreFull (T.fields other.now)
        → Tells result (canonical_octets (T.fields data.now)) (canonical_octets (T.fields other.now)) }
{
    are_same(data.fields().as_slice(), other.fields().as_slice())
}
