//! Fields that are read.
ghost use Rattle.std.specs.Prelude.{◌≡◌, ◌+◌, ◌<◌, ◌≤◌, ◌⊎◌, ℕ, List, [], ◌∷◌, true, false, length, map, IfOk, IfErr, OnOk, OnErr};
ghost use Rattle.std.specs.Int.{w32, cast_unsigned};
ghost use Rattle.dnw_encoder.specs.dnw_decoder.Reading.{IsWantOfMemory};
ghost use Rattle.drd_fields.specs.Fields.{Field, octet, short, long, name, string, strings, rest, an_octet, a_short, a_long, a_name, a_string, all_strings, the_rest, kinds_of, are_open, FieldsAt};
ghost use Rattle.drd_fields.specs.Reading.{StopsReading};

use crate::fields::{CharacterString, CharacterStrings, Rest};
use crate::strings::read_strings;
use dnw_encoder::{BinDecodable, BinDecoder, DecodeError, Name};
use std::alloc::Global;

/// A value that is one field, whose end its octets tell.
pub trait ReadField: Sized {
    ghost use Rattle.std.specs.Prelude.{◌≡◌, ◌≤◌, ◌⊎◌, ℕ, false, length, IfOk, IfErr, OnErr};
    ghost use Rattle.drd_fields.specs.Fields.{Field, Kind, kind_of, is_open, FieldAt};
    ghost use Rattle.drd_fields.specs.Reading.{RefusesKind, WantsMemory};

    ghost field: { Self → Field };

    ghost kind: { Kind };

    // All values of the type are fields of one kind, which don't go to the end of the data.
    ghost laws: { ((value : Self) → kind_of (field value) ≡ kind) × (is_open kind ≡ false) };

    /// The field at the decoder's index, which moves behind it; where none can be read, the decoder stays.
    fn read_field(alloc: Global, decoder: &mut BinDecoder<'_>) -> Result<Self, DecodeError>
        ensures ok { IfOk result (λ value. FieldAt decoder.old.octets decoder.old.index (field value) decoder.new.index) }
        ensures same { decoder.new.octets ≡ decoder.old.octets }
        ensures within { decoder.new.index ≤ length decoder.new.octets }
        ensures err { OnErr result (decoder.new ≡ decoder.old) }
        ensures cause { IfErr result (λ e. (end : ℕ) → WantsMemory kind e ⊎ RefusesKind decoder.old.octets end kind decoder.old.index e) };
}

/// The fields of a value, from the first one on.
pub trait ReadFields: Sized {
    ghost use Rattle.std.specs.Prelude.{◌≡◌, ◌≤◌, List, true, length, IfOk, IfErr, OnOk};
    ghost use Rattle.drd_fields.specs.Fields.{Field, Kind, kinds_of, are_open, AreOrdered, FieldsAt};
    ghost use Rattle.drd_fields.specs.Reading.{StopsReading};

    ghost fields: { Self → List Field };

    ghost kinds: { List Kind };

    // Values of a type have fields of the same kinds; one that goes to the end of the data is the last.
    ghost laws: { ((value : Self) → kinds_of (fields value) ≡ kinds) × AreOrdered kinds };

    /// The fields at the decoder's index, in data that go to an end. On an error the decoder is at the field that
    /// can't be read.
    fn read_fields(
        alloc: Global,
        decoder: &mut BinDecoder<'_>,
        end: usize,
    ) -> Result<Self, DecodeError>
        ensures ok { IfOk result (λ value. FieldsAt decoder.old.octets decoder.old.index (fields value) decoder.new.index) }
        ensures open { OnOk result (are_open kinds ≡ true → decoder.new.index ≡ end) }
        ensures same { decoder.new.octets ≡ decoder.old.octets }
        ensures within { decoder.new.index ≤ length decoder.new.octets }
        ensures err { IfErr result (λ e. StopsReading decoder.old.octets end kinds decoder.old.index e decoder.new.index) };
}

impl ReadField for u8 {
    ghost use Rattle.std.proofs.Common.{refl};

    ghost field = { octet };

    ghost kind = { an_octet };

    ghost laws = { (λ value. refl, refl) };

    fn read_field(_alloc: Global, decoder: &mut BinDecoder<'_>) -> Result<u8, DecodeError> {
        Ok(decoder.read_u8()?.unverified())
    }
}

impl ReadField for u16 {
    ghost use Rattle.std.proofs.Common.{refl};

    ghost field = { short };

    ghost kind = { a_short };

    ghost laws = { (λ value. refl, refl) };

    fn read_field(_alloc: Global, decoder: &mut BinDecoder<'_>) -> Result<u16, DecodeError> {
        Ok(decoder.read_u16()?.unverified())
    }
}

impl ReadField for u32 {
    ghost use Rattle.std.proofs.Common.{refl};

    ghost field = { long };

    ghost kind = { a_long };

    ghost laws = { (λ value. refl, refl) };

    fn read_field(_alloc: Global, decoder: &mut BinDecoder<'_>) -> Result<u32, DecodeError> {
        Ok(decoder.read_u32()?.unverified())
    }
}

impl ReadField for i32 {
    ghost use Rattle.std.proofs.Common.{refl};

    ghost field = { λ number. long (cast_unsigned w32 number) };

    ghost kind = { a_long };

    ghost laws = { (λ value. refl, refl) };

    fn read_field(_alloc: Global, decoder: &mut BinDecoder<'_>) -> Result<i32, DecodeError> {
        Ok(decoder.read_i32()?.unverified())
    }
}

impl ReadField for Name {
    ghost use Rattle.std.proofs.Common.{refl};

    ghost field = { name };

    ghost kind = { a_name };

    ghost laws = { (λ value. refl, refl) };

    fn read_field(alloc: Global, decoder: &mut BinDecoder<'_>) -> Result<Name, DecodeError> {
        Name::read(alloc, decoder)
    }
}

impl ReadField for CharacterString {
    ghost use Rattle.std.proofs.Common.{refl};

    ghost field = { λ value. string value.0.items };

    ghost kind = { a_string };

    ghost laws = { (λ value. refl, refl) };

    fn read_field(
        alloc: Global,
        decoder: &mut BinDecoder<'_>,
    ) -> Result<CharacterString, DecodeError> {
        let start = decoder.index();
        let string = decoder.read_character_data()?.unverified();
        match Vec::from_slice(alloc, string) {
            Ok(string) => Ok(CharacterString(string)),
            Err(_) => {
                decoder.set_index(start);
                Err(DecodeError::Memory)
            }
        }
    }
}

impl ReadFields for () {
    ghost use Rattle.std.proofs.Common.{refl};

    ghost fields = { λ value. [] };

    ghost kinds = { [] };

    ghost laws = { (λ value. refl, tt) };

    fn read_fields(
        _alloc: Global,
        decoder: &mut BinDecoder<'_>,
        _end: usize,
    ) -> Result<(), DecodeError> {
        let _index = decoder.index();
        Ok(())
    }
}

impl<A: ReadField + Drop, B: ReadFields> ReadFields for (A, B) {
    ghost use Rattle.drd_fields.specs.FieldLaws.{kinds_more, ordered_more};

    ghost fields = { λ value. A.field value.0 ∷ B.fields value.1 };

    ghost kinds = { A.kind ∷ B.kinds };

    ghost laws = { (λ value. kinds_more (A.field value.0) (B.fields value.1) A.kind B.kinds (A.laws.0 value.0) (B.laws.0 value.1), ordered_more A.kind B.kinds A.laws.1 B.laws.1) };

    fn read_fields(
        alloc: Global,
        decoder: &mut BinDecoder<'_>,
        end: usize,
    ) -> Result<(A, B), DecodeError> {
        let first = A::read_field(alloc, decoder)?;
        let later = B::read_fields(alloc, decoder, end)?;
        Ok((first, later))
    }
}

// One name alone: the data of the types that are a name.
impl ReadFields for Name {
    ghost use Rattle.std.proofs.Common.{refl};
    ghost use Rattle.drd_fields.specs.FieldLaws.{ordered_more};

    ghost fields = { λ value. name value ∷ [] };

    ghost kinds = { a_name ∷ [] };

    ghost laws = { (λ value. refl, ordered_more a_name [] refl tt) };

    fn read_fields(
        alloc: Global,
        decoder: &mut BinDecoder<'_>,
        _end: usize,
    ) -> Result<Name, DecodeError> {
        let _index = decoder.index();
        Self::read(alloc, decoder)
    }
}

impl ReadFields for CharacterStrings {
    ghost use Rattle.std.proofs.Common.{refl};

    ghost fields = { λ value. strings (map (λ s. s.items) value.0.items) ∷ [] };

    ghost kinds = { all_strings ∷ [] };

    ghost laws = { (λ value. refl, (λ filled. refl, tt)) };

    fn read_fields(
        alloc: Global,
        decoder: &mut BinDecoder<'_>,
        end: usize,
    ) -> Result<CharacterStrings, DecodeError> {
        Ok(CharacterStrings(read_strings(alloc, decoder, end)?))
    }
}

impl ReadFields for Rest {
    ghost use Rattle.std.proofs.Common.{refl};

    ghost fields = { λ value. rest value.0.items ∷ [] };

    ghost kinds = { the_rest ∷ [] };

    ghost laws = { (λ value. refl, (λ filled. refl, tt)) };

    fn read_fields(
        alloc: Global,
        decoder: &mut BinDecoder<'_>,
        end: usize,
    ) -> Result<Rest, DecodeError> {
        let index = decoder.index();
        if end < index {
            return Err(DecodeError::InsufficientBytes);
        }
        Ok(Rest(decoder.read_vec(alloc, end - index)?.unverified()))
    }
}

/// The data at the decoder's index, which moves behind them. None of their fields goes to their end. Where they can't be
/// read, the decoder stays.
#[tactic(auto, using(crate::specs::FieldLaws::fields_forward, crate::specs::FieldLaws::stops_forward))]
pub fn read_data<D: ReadFields + Drop>(
    alloc: Global,
    decoder: &mut BinDecoder<'_>,
) -> Result<D, DecodeError>
    requires { are_open D.kinds ≡ false }
    ensures ok { IfOk result (λ found. FieldsAt decoder.old.octets decoder.old.index (D.fields found) decoder.new.index) }
    ensures same { decoder.new.octets ≡ decoder.old.octets }
    ensures forward { decoder.old.index ≤ decoder.new.index }
    ensures within { decoder.new.index ≤ length decoder.new.octets }
    ensures err { OnErr result (decoder.new ≡ decoder.old) }
    ensures refused { IfErr result (λ e. (end at : ℕ) × StopsReading decoder.old.octets end D.kinds decoder.old.index e at) }
    ensures none { IfErr result (λ e. IsWantOfMemory e
        ⊎ ((fs : List Field) (end : ℕ) → kinds_of fs ≡ D.kinds → FieldsAt decoder.old.octets decoder.old.index fs end → ⊥)) }
{
    let start = decoder.index();
    match D::read_fields(alloc, decoder, start) {
        Ok(data) => Ok(data),
        Err(refused) => {
            decoder.set_index(start);
            Err(refused)
        }
    }
}
