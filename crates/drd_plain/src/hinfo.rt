//! HINFO (RFC 1035 3.3.2).
ghost use Rattle.std.specs.Prelude.{◌≡◌, ◌∷◌, [], ℕ, Some};
ghost use Rattle.std.specs.Cmp.{partial_equiv_from_equiv};
ghost use Rattle.drd_fields.specs.dnw_encoder.declared.modes.RDataEncoding.TheVariants.{Other};
ghost use Rattle.drd_fields.specs.Fields.{string, FieldsAt};
ghost use Rattle.drd_fields.specs.Reading.{StopsReading};
ghost use Rattle.drd_fields.specs.Equality.{AreFull, Tells, fields_eq};
ghost use Rattle.drd_fields.specs.Order.{fields_input};
ghost use Rattle.drd_fields.proofs.EqualityLaws.{data_equiv};
ghost use Rattle.drd_fields.proofs.OrderLaws.{fields-alike};
ghost use Rattle.drd_fields.specs.Writing.{EmitsData, RefusesFields, canonical_octets};
ghost use Rattle.drd_plain.specs.Fields.{hinfo_fields, hinfo_kinds};
ghost use Rattle.drd_plain.specs.Words.{IsHinfoText, RefusesHinfoText};
ghost use Rattle.drd_plain.specs.Print.{hinfo_print};

use drd_fields::{
    BinDecodable, BinDecoder, BinEncodable, BinEncoder, CharacterString, FieldData, FieldRef,
    Fields, RDataEncoding, ReadFields, StringField, emit_three, hash_list, is_same_data,
    read_value,
};
use drd_words::{CharacterString as Word, DecodeError, ProtoError, TextData, fmt_escaped};
use std::alloc::Global;
use std::fmt;
use std::hash::{Hash, Hasher};

/// A host's processor and operating system, in at most 255 octets each.
#[derive(Clone, Debug, Drop)]
pub struct HINFO {
    pub cpu: Vec<u8>,
    pub os: Vec<u8>,
}

impl HINFO {
    /// The data of two strings.
    pub fn new(cpu: Vec<u8>, os: Vec<u8>) -> HINFO
        ensures cpu { result.cpu ≡ cpu }
        ensures os { result.os ≡ os }
    {
        HINFO { cpu, os }
    }

    /// The data of two strings, whatever their octets.
    pub fn from_bytes(cpu: Vec<u8>, os: Vec<u8>) -> HINFO
        ensures cpu { result.cpu ≡ cpu }
        ensures os { result.os ≡ os }
    {
        HINFO::new(cpu, os)
    }

    // The fields of the data, as they are written.
    pub(crate) fn parts(&self) -> (StringField<'_>, (StringField<'_>, ()))
        ensures { string result.0.0.now ∷ string result.1.0.0.now ∷ [] ≡ hinfo_fields self.now }
    {
        (StringField(&self.cpu), (StringField(&self.os), ()))
    }
}

impl BinDecodable for HINFO {
    ghost reads = { λ message place hinfo end. FieldsAt message place (hinfo_fields hinfo) end };

    ghost refuses = { λ message place e. (end at : ℕ) × StopsReading message end hinfo_kinds place e at };

    fn read(alloc: Global, decoder: &mut BinDecoder<'_>) -> Result<HINFO, DecodeError> {
        read_value(alloc, decoder)
    }
}

impl ReadFields for HINFO {
    ghost use Rattle.std.proofs.Common.{refl};
    ghost use Rattle.drd_fields.specs.FieldLaws.{ordered_more};
    ghost use Rattle.drd_fields.specs.Fields.{a_string};

    ghost fields = { hinfo_fields };

    ghost kinds = { hinfo_kinds };

    ghost laws = { (λ hinfo. refl, ordered_more a_string (a_string ∷ []) refl (ordered_more a_string [] refl tt)) };

    fn read_fields(
        alloc: Global,
        decoder: &mut BinDecoder<'_>,
        end: usize,
    ) -> Result<HINFO, DecodeError> {
        let (CharacterString(cpu), (CharacterString(os), ())) = <(
            CharacterString,
            (CharacterString, ()),
        )>::read_fields(alloc, decoder, end)?;
        Ok(HINFO::new(cpu, os))
    }
}

impl FieldData for HINFO {
    ghost use Rattle.std.proofs.Common.{refl};

    type Parts = HINFO;

    ghost fields = { hinfo_fields };

    fn of_parts(parts: HINFO) -> Result<HINFO, DecodeError> {
        Ok(parts)
    }

    fn fields(&self) -> Fields<'_> {
        Fields::new(&[FieldRef::String(&self.cpu), FieldRef::String(&self.os)])
    }

    ghost laws = { λ hinfo. refl };
}

/// Two words write the strings, of at most 255 octets each (RFC 1035 5.1).
impl TextData for HINFO {
    type Parts = (Word, (Word, ()));

    ghost is_text = { λ words origin hinfo. IsHinfoText words hinfo };

    ghost refuses = { λ words origin. RefusesHinfoText words };

    fn of_words(parts: (Word, (Word, ()))) -> HINFO {
        let (cpu, (os, ())) = parts;
        HINFO::new(cpu.into_bytes(), os.into_bytes())
    }

    ghost laws = { (λ words origin hinfo written. ((hinfo.cpu.items, (hinfo.os.items, tt)), written), λ words origin e refused. refused) };
}

impl BinEncodable for HINFO {
    ghost emits = { λ hinfo. EmitsData Other (hinfo_fields hinfo) };

    ghost refuses = { λ hinfo old e new. RefusesFields (hinfo_fields hinfo) old e };

    fn emit(&self, encoder: &mut BinEncoder<'_>) -> Result<(), ProtoError> {
        emit_three(encoder, RDataEncoding::Other, &self.parts())
    }
}

impl PartialEq for HINFO {
    ghost eq = { λ a b. fields_eq (hinfo_fields a) (hinfo_fields b) };

    ghost laws = { partial_equiv_from_equiv (data_equiv hinfo_fields) };

    /// Whether both strings are the same, octet by octet.
    fn eq(&self, other: &HINFO) -> bool
        ensures value { result ≡ fields_eq (hinfo_fields self.now) (hinfo_fields other.now) }
        ensures canonical { AreFull (hinfo_fields self.now) → AreFull (hinfo_fields other.now)
            → Tells result (canonical_octets (hinfo_fields self.now)) (canonical_octets (hinfo_fields other.now)) }
    {
        is_same_data(self, other)
    }
}

impl Eq for HINFO {
    ghost laws = { data_equiv hinfo_fields };
}

impl Hash for HINFO {
    ghost hash_input = { λ hinfo. fields_input (hinfo_fields hinfo) };

    ghost respects_eq = { λ a b. fields-alike (hinfo_fields a) (hinfo_fields b) };

    fn hash<H: Hasher>(&self, state: &mut H) {
        hash_list(FieldData::fields(self).as_slice(), state);
    }
}

impl fmt::Display for HINFO {
    ghost output = { λ hinfo. Some (hinfo_print hinfo) };

    /// Writes both strings, a space between them.
    fn fmt<W: fmt::Write>(&self, f: &mut fmt::Formatter<W>) -> fmt::Result {
        fmt_escaped(f, &self.cpu)?;
        f.write_char(' ')?;
        fmt_escaped(f, &self.os)
    }
}
