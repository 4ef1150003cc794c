//! CAA (RFC 8659 4).
ghost use Rattle.std.specs.Prelude.{◌≡◌, ◌∷◌, [], Some, ◌<◌};
ghost use Rattle.std.specs.Cmp.{partial_equiv_from_equiv};
ghost use Rattle.drd_fields.specs.dnw_encoder.declared.modes.RDataEncoding.TheVariants.{Other};
ghost use Rattle.drd_fields.specs.Fields.{octet, string, rest};
ghost use Rattle.drd_fields.specs.Equality.{AreFull, Tells, fields_eq};
ghost use Rattle.drd_fields.specs.Order.{fields_input};
ghost use Rattle.drd_fields.proofs.EqualityLaws.{data_equiv};
ghost use Rattle.drd_fields.proofs.OrderLaws.{fields-alike};
ghost use Rattle.drd_fields.specs.Writing.{EmitsData, RefusesFields, canonical_octets};
ghost use Rattle.drd_caa.specs.Fields.{IsCaa, caa_fields, caa_flags};
ghost use Rattle.drd_caa.specs.Print.{caa_print};
ghost use Rattle.drd_caa.specs.Reading.{CaaMisfits};
ghost use Rattle.drd_caa.specs.Words.{IsCaaText, RefusesCaaText};

use crate::words::{Tag, Value, is_tag};
use drd_fields::{
    BinEncodable, BinEncoder, CharacterString, DecodeError, FieldData, FieldRef, Fields,
    ProtoError, RDataEncoding, Rest, RestField, StringField, emit_three, hash_list, is_same_data,
};
use drd_words::{TextData, fmt_escaped, fmt_quoted};
use std::fmt;
use std::hash::{Hash, Hasher};

/// A property of the certificates that may be issued for a domain.
#[derive(Clone, Debug, Drop)]
pub struct CAA {
    /// Whether an issuer that doesn't know the property's tag must not issue.
    pub issuer_critical: bool,
    /// The lower seven bits of the flags, which mean nothing yet. A greater number can be written, but never read: the octet
    /// is that of its lower seven bits.
    pub reserved_flags: u8,
    /// The property's tag: 1 to 15 ASCII letters and digits.
    pub tag: Vec<u8>,
    /// The property's value.
    pub value: Vec<u8>,
}

impl CAA {
    /// The data of a property.
    pub fn new(issuer_critical: bool, reserved_flags: u8, tag: Vec<u8>, value: Vec<u8>) -> CAA
        ensures critical { result.issuer_critical ≡ issuer_critical }
        ensures reserved { result.reserved_flags ≡ reserved_flags }
        ensures tag { result.tag ≡ tag }
        ensures value { result.value ≡ value }
    {
        CAA {
            issuer_critical,
            reserved_flags,
            tag,
            value,
        }
    }

    /// The flags octet: the critical flag is its top bit (RFC 8659 4.1).
    pub fn flags(&self) -> u8
        ensures { result ≡ caa_flags self.now }
    {
        let reserved = self.reserved_flags % 128;
        if self.issuer_critical {
            128 + reserved
        } else {
            reserved
        }
    }

    // The fields of the data, as they are written.
    pub(crate) fn parts(&self) -> (u8, (StringField<'_>, RestField<'_>))
        ensures { octet result.0 ∷ string result.1.0.0.now ∷ rest result.1.1.0.now ∷ [] ≡ caa_fields self.now }
    {
        (
            self.flags(),
            (StringField(&self.tag), RestField(&self.value)),
        )
    }
}

// The property of these octets.
fn property_of(flags: u8, tag: Vec<u8>, value: Vec<u8>) -> CAA
    ensures fields { octet flags ∷ string tag.items ∷ rest value.items ∷ [] ≡ caa_fields result }
    ensures seven { result.reserved_flags < 128 }
{
    CAA::new(flags >= 128, flags % 128, tag, value)
}

impl FieldData for CAA {
    ghost use Rattle.std.proofs.Common.{refl};

    type Parts = (u8, (CharacterString, Rest));

    ghost fields = { caa_fields };

    ghost is_valid = { IsCaa };

    ghost misfits = { CaaMisfits };

    /// The property of these fields. A tag that isn't 1 to 15 letters and digits is refused.
    fn of_parts(parts: (u8, (CharacterString, Rest))) -> Result<CAA, DecodeError> {
        let (flags, (CharacterString(tag), Rest(value))) = parts;
        if is_tag(&tag) {
            Ok(property_of(flags, tag, value))
        } else {
            Err(DecodeError::CaaTagInvalid)
        }
    }

    fn fields(&self) -> Fields<'_> {
        Fields::new(&[
            FieldRef::U8(self.flags()),
            FieldRef::String(&self.tag),
            FieldRef::Octets(&self.value),
        ])
    }

    ghost laws = { λ caa. refl };
}

/// Three words write the data: the flags as a decimal number, the tag, and the value, which may have more than 255 octets
/// (RFC 8659 4.1.1).
impl TextData for CAA {
    type Parts = (u8, (Tag, (Value, ())));

    ghost is_text = { λ words origin caa. IsCaaText words caa };

    ghost refuses = { λ words origin. RefusesCaaText words };

    fn of_words(parts: (u8, (Tag, (Value, ())))) -> CAA {
        let (flags, (tag, (value, ()))) = parts;
        property_of(flags, tag.into_bytes(), value.into_bytes())
    }

    ghost laws = { (λ words origin caa written. ((caa_flags caa, (caa.tag.items, (caa.value.items, tt))), written.1), λ words origin e refused. refused) };
}

impl BinEncodable for CAA {
    ghost emits = { λ caa. EmitsData Other (caa_fields caa) };

    ghost refuses = { λ caa old e new. RefusesFields (caa_fields caa) old e };

    fn emit(&self, encoder: &mut BinEncoder<'_>) -> Result<(), ProtoError> {
        emit_three(encoder, RDataEncoding::Other, &self.parts())
    }
}

impl PartialEq for CAA {
    ghost eq = { λ a b. fields_eq (caa_fields a) (caa_fields b) };

    ghost laws = { partial_equiv_from_equiv (data_equiv caa_fields) };

    /// Whether flags, tag and value are the same, octet by octet.
    fn eq(&self, other: &CAA) -> bool
        ensures value { result ≡ fields_eq (caa_fields self.now) (caa_fields other.now) }
        ensures canonical { AreFull (caa_fields self.now) → AreFull (caa_fields other.now)
            → Tells result (canonical_octets (caa_fields self.now)) (canonical_octets (caa_fields other.now)) }
    {
        is_same_data(self, other)
    }
}

impl Eq for CAA {
    ghost laws = { data_equiv caa_fields };
}

impl Hash for CAA {
    ghost hash_input = { λ caa. fields_input (caa_fields caa) };

    ghost respects_eq = { λ a b. fields-alike (caa_fields a) (caa_fields b) };

    fn hash<H: Hasher>(&self, state: &mut H) {
        hash_list(self.fields().as_slice(), state);
    }
}

impl fmt::Display for CAA {
    ghost output = { λ caa. Some (caa_print caa) };

    /// Writes the flags, the tag, and the value between quotes.
    fn fmt<W: fmt::Write>(&self, f: &mut fmt::Formatter<W>) -> fmt::Result {
        let flags = self.flags();
        write!(f, "{flags} ")?;
        fmt_escaped(f, &self.tag)?;
        f.write_char(' ')?;
        fmt_quoted(f, &self.value)
    }
}
