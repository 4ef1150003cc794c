//! NAPTR (RFC 3403 4).
ghost use Rattle.std.specs.Prelude.{◌≡◌, ◌∷◌, [], ℕ, ◌⊎◌, true, Some, IfErr, OnOk};
ghost use Rattle.std.specs.Fmt.{WritesOnOk};
ghost use Rattle.std.specs.Cmp.{partial_equiv_from_equiv};
ghost use Rattle.drd_words.specs.dnw_codes.Ascii.{space};
ghost use Rattle.drd_fields.specs.dnw_encoder.Effects.{Writes};
ghost use Rattle.drd_fields.specs.dnw_encoder.Encoders.{state};
ghost use Rattle.drd_fields.specs.dnw_encoder.declared.modes.RDataEncoding.TheVariants.{Canonical};
ghost use Rattle.drd_fields.specs.Fields.{short, string, name, FieldsAt};
ghost use Rattle.drd_fields.specs.Reading.{AreMisfits, StopsReading};
ghost use Rattle.drd_fields.specs.Equality.{AreFull, Tells, fields_eq};
ghost use Rattle.drd_fields.specs.Order.{fields_input};
ghost use Rattle.drd_fields.proofs.EqualityLaws.{data_equiv};
ghost use Rattle.drd_fields.proofs.OrderLaws.{fields-alike};
ghost use Rattle.drd_fields.specs.Writing.{EmitsData, RefusesFields, canonical_octets};
ghost use Rattle.drd_plain.specs.Fields.{naptr_fields, naptr_kinds};
ghost use Rattle.drd_plain.specs.Print.{naptr_print, naptr_strings};
ghost use Rattle.drd_words.specs.Print.{quotation};
ghost use Rattle.drd_words.specs.Word.{are_alphanumeric};
ghost use Rattle.drd_plain.specs.Reading.{NaptrMisfits};
ghost use Rattle.drd_plain.specs.Words.{IsNaptrText, RefusesNaptrText};

use crate::flags::{Flags, verify_flags};
use drd_fields::{
    BinDecodable, BinDecoder, BinEncodable, BinEncoder, CharacterString, DataField, FieldData,
    FieldRef, Fields, RDataEncoding, StringField, emit_data, hash_list, is_same_data, read_value,
};
use drd_words::{CharacterString as Word, DecodeError, Name, ProtoError, TextData, fmt_quoted};
use std::alloc::Global;
use std::fmt;
use std::hash::{Hash, Hasher};

/// A rule by which a name is rewritten, or found at another one.
#[derive(Clone, Debug, Drop)]
pub struct NAPTR {
    /// Rules of a lower order come first.
    pub order: u16,
    /// Of rules of one order, those of a lower preference come first.
    pub preference: u16,
    /// ASCII letters and digits, which say what the rule's outcome is.
    pub flags: Vec<u8>,
    /// The services that the rule leads to.
    pub services: Vec<u8>,
    /// An expression that rewrites the name, or nothing.
    pub regexp: Vec<u8>,
    /// The name to go on with, or the root.
    pub replacement: Name,
}

// Two numbers, three strings and a name.
type NaptrFields<'a> = (
    u16,
    (
        u16,
        (
            StringField<'a>,
            (StringField<'a>, (StringField<'a>, (&'a Name, ()))),
        ),
    ),
);

// What the data are read as.
type NaptrParts = (
    u16,
    (
        u16,
        (
            CharacterString,
            (CharacterString, (CharacterString, (Name, ()))),
        ),
    ),
);

// What their words are read as.
type Written = (u16, (u16, (Flags, (Word, (Word, (Name, ()))))));

impl NAPTR {
    /// The data of a rule.
    pub fn new(
        order: u16,
        preference: u16,
        flags: Vec<u8>,
        services: Vec<u8>,
        regexp: Vec<u8>,
        replacement: Name,
    ) -> NAPTR
        ensures order { result.order ≡ order }
        ensures preference { result.preference ≡ preference }
        ensures flags { result.flags ≡ flags }
        ensures services { result.services ≡ services }
        ensures regexp { result.regexp ≡ regexp }
        ensures replacement { result.replacement ≡ replacement }
    {
        NAPTR {
            order,
            preference,
            flags,
            services,
            regexp,
            replacement,
        }
    }

    // The fields of the data, as they are written.
    pub(crate) fn parts(&self) -> NaptrFields<'_>
        ensures { short result.0 ∷ short result.1.0 ∷ string result.1.1.0.0.now ∷ string result.1.1.1.0.0.now
            ∷ string result.1.1.1.1.0.0.now ∷ name result.1.1.1.1.1.0.now ∷ [] ≡ naptr_fields self.now }
    {
        let regexp = (StringField(&self.regexp), (&self.replacement, ()));
        let services = (StringField(&self.services), regexp);
        (
            self.order,
            (self.preference, (StringField(&self.flags), services)),
        )
    }
}

// Writes the fields, which borrow from several places.
fn emit_parts<A: DataField, B: DataField, C: DataField, D: DataField>(
    encoder: &mut BinEncoder<'_>,
    fields: &(u16, (u16, (A, (B, (C, (D, ())))))),
) -> Result<(), ProtoError>
    ensures same_reference { encoder.new.buffer.ghost_name ≡ encoder.old.buffer.ghost_name }
    ensures writes { Writes (state encoder.old) (state encoder.new) }
    ensures ok { OnOk result (EmitsData Canonical (short fields.now.0 ∷ short fields.now.1.0 ∷ A.field fields.now.1.1.0 ∷ B.field fields.now.1.1.1.0
        ∷ C.field fields.now.1.1.1.1.0 ∷ D.field fields.now.1.1.1.1.1.0 ∷ []) (state encoder.old) (state encoder.new)) }
    ensures cause { IfErr result (RefusesFields (short fields.now.0 ∷ short fields.now.1.0 ∷ A.field fields.now.1.1.0 ∷ B.field fields.now.1.1.1.0
        ∷ C.field fields.now.1.1.1.1.0 ∷ D.field fields.now.1.1.1.1.1.0 ∷ []) (state encoder.old)) }
{
    emit_data(encoder, RDataEncoding::Canonical, fields)
}

impl BinDecodable for NAPTR {
    ghost reads = { λ message place naptr end. FieldsAt message place (naptr_fields naptr) end
        × (are_alphanumeric naptr.flags.items ≡ true) };

    ghost refuses = { λ message place e. (end : ℕ) × (((at : ℕ) × StopsReading message end naptr_kinds place e at)
        ⊎ AreMisfits NaptrMisfits message end naptr_kinds place e) };

    /// The rule that stands at the decoder's index. One whose flags are other octets than letters and digits is refused.
    fn read(alloc: Global, decoder: &mut BinDecoder<'_>) -> Result<NAPTR, DecodeError> {
        read_value(alloc, decoder)
    }
}

impl FieldData for NAPTR {
    ghost use Rattle.std.proofs.Common.{refl};

    type Parts = NaptrParts;

    ghost fields = { naptr_fields };

    ghost is_valid = { λ naptr. are_alphanumeric naptr.flags.items ≡ true };

    ghost misfits = { NaptrMisfits };

    /// The rule of these fields. Refused are other octets in the flags than letters and digits.
    fn of_parts(parts: NaptrParts) -> Result<NAPTR, DecodeError> {
        let (order, (preference, (flags, (services, (regexp, (replacement, ())))))) = parts;
        let (CharacterString(flags), CharacterString(services)) = (flags, services);
        let CharacterString(regexp) = regexp;
        if verify_flags(&flags) {
            Ok(NAPTR::new(order, preference, flags, services, regexp, replacement))
        } else {
            Err(DecodeError::Utf8)
        }
    }

    fn fields(&self) -> Fields<'_> {
        Fields::new(&[
            FieldRef::U16(self.order),
            FieldRef::U16(self.preference),
            FieldRef::String(&self.flags),
            FieldRef::String(&self.services),
            FieldRef::String(&self.regexp),
            FieldRef::Name(&self.replacement),
        ])
    }

    ghost laws = { λ naptr. refl };
}

/// Six words write the data: order, preference, flags, services, regexp and replacement, a name that the origin completes
/// if it is relative. Flags are ASCII letters and digits (RFC 3403 4.1, RFC 1035 5.1).
impl TextData for NAPTR {
    type Parts = Written;

    ghost is_text = { IsNaptrText };

    ghost refuses = { RefusesNaptrText };

    fn of_words(parts: Written) -> NAPTR {
        let (order, (preference, (flags, (services, (regexp, (replacement, ())))))) = parts;
        NAPTR::new(
            order,
            preference,
            flags.into_bytes(),
            services.into_bytes(),
            regexp.into_bytes(),
            replacement,
        )
    }

    ghost laws = { (λ words origin naptr written. ((naptr.order, (naptr.preference, (naptr.flags.items, (naptr.services.items, (naptr.regexp.items, (naptr.replacement, tt)))))), written), λ words origin e refused. refused) };
}

impl BinEncodable for NAPTR {
    ghost emits = { λ naptr. EmitsData Canonical (naptr_fields naptr) };

    ghost refuses = { λ naptr old e new. RefusesFields (naptr_fields naptr) old e };

    fn emit(&self, encoder: &mut BinEncoder<'_>) -> Result<(), ProtoError> {
        emit_parts(encoder, &self.parts())
    }
}

impl PartialEq for NAPTR {
    ghost eq = { λ a b. fields_eq (naptr_fields a) (naptr_fields b) };

    ghost laws = { partial_equiv_from_equiv (data_equiv naptr_fields) };

    /// Whether numbers and strings are the same, and the names up to the case of ASCII letters. Of data that were read this
    /// is so exactly where the canonical octets are the same (RFC 4034 6.3).
    fn eq(&self, other: &NAPTR) -> bool
        ensures value { result ≡ fields_eq (naptr_fields self.now) (naptr_fields other.now) }
        ensures canonical { AreFull (naptr_fields self.now) → AreFull (naptr_fields other.now)
            → Tells result (canonical_octets (naptr_fields self.now)) (canonical_octets (naptr_fields other.now)) }
    {
        is_same_data(self, other)
    }
}

impl Eq for NAPTR {
    ghost laws = { data_equiv naptr_fields };
}

impl Hash for NAPTR {
    ghost hash_input = { λ naptr. fields_input (naptr_fields naptr) };

    ghost respects_eq = { λ a b. fields-alike (naptr_fields a) (naptr_fields b) };

    fn hash<H: Hasher>(&self, state: &mut H) {
        hash_list(FieldData::fields(self).as_slice(), state);
    }
}

impl fmt::Display for NAPTR {
    ghost output = { λ naptr. Some (naptr_print naptr) };

    /// Writes the six words, the strings between quotes.
    fn fmt<W: fmt::Write>(&self, f: &mut fmt::Formatter<W>) -> fmt::Result {
        let (order, preference) = (self.order, self.preference);
        write!(f, "{order} {preference}")?;
        fmt_strings(f, &self.flags, &self.services, &self.regexp)?;
        f.write_char(' ')?;
        fmt::Display::fmt(&self.replacement, f)
    }
}

// Writes three strings between quotes, each behind a space.
fn fmt_strings<W: fmt::Write>(
    f: &mut fmt::Formatter<W>,
    flags: &[u8],
    services: &[u8],
    regexp: &[u8],
) -> fmt::Result
    ensures { WritesOnOk W.write_str_gives f.old result (naptr_strings flags.now services.now regexp.now) f.new }
{
    fmt_behind_space(f, flags)?;
    fmt_behind_space(f, services)?;
    fmt_behind_space(f, regexp)
}

// Writes a space and a string between quotes.
fn fmt_behind_space<W: fmt::Write>(f: &mut fmt::Formatter<W>, octets: &[u8]) -> fmt::Result
    ensures { WritesOnOk W.write_str_gives f.old result (space ∷ quotation octets.now) f.new }
{
    f.write_char(' ')?;
    fmt_quoted(f, octets)
}
