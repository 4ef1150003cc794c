//! Fields that are written.
ghost use Rattle.std.specs.Prelude.{◌≡◌, ◌+◌, ◌≤◌, ◌⊎◌, ◌∷◌, [], List, ℕ, length, map, flat_map, IfErr, OnOk};
ghost use Rattle.std.specs.Int.{w32, cast_unsigned};
ghost use Rattle.dnw_encoder.specs.Encoders.{state};
ghost use Rattle.dnw_encoder.specs.Effects.{Writes, IsRefusal};
ghost use Rattle.drd_fields.specs.Fields.{octet, short, long, name, string, strings, rest};
ghost use Rattle.drd_fields.specs.Writing.{EmitsData, EmitsField, EndsWithin, RefusesFields, SomeTooLong, fields_octets, string_octets};

use dnw_encoder::{BinEncodable, BinEncoder, Name, ProtoError, RDataEncoding};

/// A value that is written as one field.
pub trait DataField {
    ghost use Rattle.std.specs.Prelude.{◌≡◌, ◌⊎◌, length, IfErr, OnOk};
    ghost use Rattle.dnw_encoder.specs.Encoders.{state};
    ghost use Rattle.dnw_encoder.specs.Effects.{Writes, IsRefusal};
    ghost use Rattle.drd_fields.specs.Fields.{Field};
    ghost use Rattle.drd_fields.specs.Writing.{EmitsField, EndsWithin, HasLongString, field_octets};

    ghost field: { Self → Field };

    /// Writes the field at the encoder's offset.
    fn emit_field(&self, encoder: &mut BinEncoder<'_>) -> Result<(), ProtoError>
        ensures same_reference { encoder.new.buffer.ghost_name ≡ encoder.old.buffer.ghost_name }
        ensures writes { Writes (state encoder.old) (state encoder.new) }
        ensures within { EndsWithin (state encoder.old) (state encoder.new) }
        ensures ok { OnOk result (EmitsField (field self.now) (state encoder.old) (state encoder.new)) }
        ensures cause { IfErr result (λ e. IsRefusal (state encoder.old) (length (field_octets (field self.now))) e
            ⊎ HasLongString (field self.now) e) };
}

/// Values that are written as fields, one behind the other.
pub trait DataFields {
    ghost use Rattle.std.specs.Prelude.{◌≡◌, List, IfErr, OnOk};
    ghost use Rattle.dnw_encoder.specs.Encoders.{state};
    ghost use Rattle.dnw_encoder.specs.Effects.{Writes};
    ghost use Rattle.drd_fields.specs.Fields.{Field};
    ghost use Rattle.drd_fields.specs.Writing.{EmitsFields, EndsWithin, RefusesFields};

    ghost fields: { Self → List Field };

    /// Writes the fields from the encoder's offset on.
    fn emit_fields(&self, encoder: &mut BinEncoder<'_>) -> Result<(), ProtoError>
        ensures same_reference { encoder.new.buffer.ghost_name ≡ encoder.old.buffer.ghost_name }
        ensures writes { Writes (state encoder.old) (state encoder.new) }
        ensures within { EndsWithin (state encoder.old) (state encoder.new) }
        ensures ok { OnOk result (EmitsFields (fields self.now) (state encoder.old) (state encoder.new)) }
        ensures cause { IfErr result (RefusesFields (fields self.now) (state encoder.old)) };
}

/// A string of at most 255 octets, to be written behind its length.
#[derive(Clone, Copy)]
pub struct StringField<'a>(pub &'a [u8]);

/// Strings, to be written one behind the other.
#[derive(Clone, Copy)]
pub struct StringFields<'a>(pub &'a [Vec<u8>]);

/// Octets, to be written as they are.
#[derive(Clone, Copy)]
pub struct RestField<'a>(pub &'a [u8]);

impl DataField for u8 {
    ghost field = { octet };

    #[tactic(auto, using(crate::proofs::WritingLaws::puts_octet))]
    fn emit_field(&self, encoder: &mut BinEncoder<'_>) -> Result<(), ProtoError> {
        encoder.emit_u8(*self)
    }
}

impl DataField for u16 {
    ghost field = { short };

    #[tactic(auto, using(crate::proofs::WritingLaws::puts_short))]
    fn emit_field(&self, encoder: &mut BinEncoder<'_>) -> Result<(), ProtoError> {
        encoder.emit_u16(*self)
    }
}

impl DataField for u32 {
    ghost field = { long };

    #[tactic(auto, using(crate::proofs::WritingLaws::puts_long, crate::proofs::WritingLaws::refused_long))]
    fn emit_field(&self, encoder: &mut BinEncoder<'_>) -> Result<(), ProtoError> {
        encoder.emit_u32(*self)
    }
}

impl DataField for i32 {
    ghost field = { λ number. long (cast_unsigned w32 number) };

    #[tactic(auto, using(crate::proofs::WritingLaws::puts_long, crate::proofs::WritingLaws::refused_long))]
    fn emit_field(&self, encoder: &mut BinEncoder<'_>) -> Result<(), ProtoError> {
        encoder.emit_i32(*self)
    }
}

impl DataField for &Name {
    ghost field = { λ value. name value.now };

    fn emit_field(&self, encoder: &mut BinEncoder<'_>) -> Result<(), ProtoError> {
        (**self).emit(encoder)
    }
}

impl DataField for StringField<'_> {
    ghost field = { λ value. string value.0.now };

    #[tactic(auto, using(crate::proofs::WritingLaws::puts_string))]
    fn emit_field(&self, encoder: &mut BinEncoder<'_>) -> Result<(), ProtoError> {
        encoder.emit_character_data(self.0)
    }
}

impl DataFields for () {
    ghost fields = { λ value. [] };

    fn emit_fields(&self, encoder: &mut BinEncoder<'_>) -> Result<(), ProtoError> {
        let _start = encoder.offset();
        Ok(())
    }
}

impl<A: DataField, B: DataFields> DataFields for (A, B) {
    ghost fields = { λ value. A.field value.0 ∷ B.fields value.1 };

    fn emit_fields(&self, encoder: &mut BinEncoder<'_>) -> Result<(), ProtoError> {
        let _start = encoder.offset();
        self.0.emit_field(encoder)?;
        self.1.emit_fields(encoder)
    }
}

/// The octets of five numbers, one behind the other.
pub fn octets_of_five(a: u32, b: u32, c: u32, d: u32, e: u32) -> [u8; 20]
    ensures { result ≡ fields_octets (long a ∷ long b ∷ long c ∷ long d ∷ long e ∷ []) }
{
    let [a0, a1, a2, a3] = a.to_be_bytes();
    let [b0, b1, b2, b3] = b.to_be_bytes();
    let [c0, c1, c2, c3] = c.to_be_bytes();
    let [d0, d1, d2, d3] = d.to_be_bytes();
    let [e0, e1, e2, e3] = e.to_be_bytes();
    [
        a0, a1, a2, a3, b0, b1, b2, b3, c0, c1, c2, c3, d0, d1, d2, d3, e0, e1, e2, e3,
    ]
}

impl DataFields for (u32, u32, u32, u32, u32) {
    ghost fields = { λ numbers. long numbers.0 ∷ long numbers.1 ∷ long numbers.2 ∷ long numbers.3 ∷ long numbers.4 ∷ [] };

    /// Writes the five numbers at once.
    fn emit_fields(&self, encoder: &mut BinEncoder<'_>) -> Result<(), ProtoError> {
        encoder.emit_vec(&octets_of_five(self.0, self.1, self.2, self.3, self.4))
    }
}

impl DataFields for RestField<'_> {
    ghost fields = { λ value. rest value.0.now ∷ [] };

    #[tactic(auto, using(crate::proofs::WritingLaws::puts_rest, crate::proofs::WritingLaws::emits_one))]
    fn emit_fields(&self, encoder: &mut BinEncoder<'_>) -> Result<(), ProtoError> {
        encoder.emit_vec(self.0)
    }
}

// Writes strings, each behind its length.
fn emit_strings(encoder: &mut BinEncoder<'_>, texts: &[Vec<u8>]) -> Result<(), ProtoError>
    ensures same_reference { encoder.new.buffer.ghost_name ≡ encoder.old.buffer.ghost_name }
    ensures writes { Writes (state encoder.old) (state encoder.new) }
    ensures within { EndsWithin (state encoder.old) (state encoder.new) }
    ensures ok { OnOk result (EmitsField (strings (map (λ s. s.items) texts.now)) (state encoder.old) (state encoder.new)) }
    ensures cause { IfErr result (λ e. IsRefusal (state encoder.old) (length (flat_map string_octets (map (λ s. s.items) texts.now))) e
        ⊎ SomeTooLong (map (λ s. s.items) texts.now) e) }
{
    let _start = encoder.offset();
    let mut left = texts;
    'strings: while let Some((first, later)) = left.split_first() {
        match encoder.emit_character_data(first) {
            Ok(()) => left = later,
            Err(refused) => return Err(refused),
        }
    }
    Ok(())
}

impl DataFields for StringFields<'_> {
    ghost fields = { λ value. strings (map (λ s. s.items) value.0.now) ∷ [] };

    fn emit_fields(&self, encoder: &mut BinEncoder<'_>) -> Result<(), ProtoError> {
        emit_strings(encoder, self.0)
    }
}

/// Writes the data of a record at the encoder's offset, their names as data of this kind have them (RFC 3597 4, RFC 4034
/// 6.2). Refused are data that would pass the maximum, and strings of more than 255 octets.
pub fn emit_data<D: DataFields>(
    encoder: &mut BinEncoder<'_>,
    kind: RDataEncoding,
    fields: &D,
) -> Result<(), ProtoError>
    ensures same_reference { encoder.new.buffer.ghost_name ≡ encoder.old.buffer.ghost_name }
    ensures writes { Writes (state encoder.old) (state encoder.new) }
    ensures within { EndsWithin (state encoder.old) (state encoder.new) }
    ensures ok { OnOk result (EmitsData kind (D.fields fields.now) (state encoder.old) (state encoder.new)) }
    ensures cause { IfErr result (RefusesFields (D.fields fields.now) (state encoder.old)) }
{
    let former = encoder.name_encoding();
    let names = kind.name_encoding(encoder.is_canonical_form(), former);
    encoder.set_name_encoding(names);
    let written = fields.emit_fields(encoder);
    encoder.set_name_encoding(former);
    written
}

/// Writes data of two fields and those behind them, as `emit_data` does: for fields that borrow from several places.
pub fn emit_three<A: DataField, B: DataField, C: DataFields>(
    encoder: &mut BinEncoder<'_>,
    kind: RDataEncoding,
    fields: &(A, (B, C)),
) -> Result<(), ProtoError>
    ensures same_reference { encoder.new.buffer.ghost_name ≡ encoder.old.buffer.ghost_name }
    ensures writes { Writes (state encoder.old) (state encoder.new) }
    ensures within { EndsWithin (state encoder.old) (state encoder.new) }
    ensures ok { OnOk result
        (EmitsData kind (A.field fields.now.0 ∷ B.field fields.now.1.0 ∷ C.fields fields.now.1.1) (state encoder.old)
        (state encoder.new)) }
    ensures cause { IfErr result (RefusesFields (A.field fields.now.0 ∷ B.field fields.now.1.0 ∷ C.fields fields.now.1.1) (state encoder.old)) }
{
    emit_data(encoder, kind, fields)
}
