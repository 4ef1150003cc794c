//! TXT (RFC 1035 3.3.14).
ghost use Rattle.std.specs.Prelude.{◌≡◌, ◌∷◌, [], Some, IfOk, map};
ghost use Rattle.std.specs.Cmp.{partial_equiv_from_equiv};
ghost use Rattle.drd_fields.specs.dnw_encoder.declared.modes.RDataEncoding.TheVariants.{Other};
ghost use Rattle.drd_fields.specs.Fields.{strings};
ghost use Rattle.drd_fields.specs.Equality.{AreFull, Tells, fields_eq};
ghost use Rattle.drd_fields.specs.Order.{fields_input};
ghost use Rattle.drd_fields.proofs.EqualityLaws.{data_equiv};
ghost use Rattle.drd_fields.proofs.OrderLaws.{fields-alike};
ghost use Rattle.drd_fields.specs.Writing.{EmitsData, RefusesFields, canonical_octets};
ghost use Rattle.drd_plain.specs.Fields.{txt_fields, txt_strings};
ghost use Rattle.drd_words.specs.Word.{IsStringWord};
ghost use Rattle.drd_words.specs.Words.{EachWord};
ghost use Rattle.drd_words.specs.Refusals.{RefusesEach, RefusesString};
ghost use Rattle.drd_words.specs.RefusalsLaws.{by_part, each_causes, string_causes};
ghost use Rattle.drd_plain.specs.Words.{IsTxtText, RefusesTxtText};
ghost use Rattle.drd_plain.specs.Print.{txt_print};

use drd_fields::{
    BinEncodable, BinEncoder, CharacterStrings, FieldData, FieldRef, Fields, RDataEncoding,
    StringFields, emit_data, hash_list, is_same_data,
};
use drd_words::{
    CharacterString, DecodeError, Name, ParseError, ProtoError, TextData, Word, Words, fmt_escaped,
};
use std::alloc::{AllocError, Global};
use std::fmt;
use std::hash::{Hash, Hasher};

/// Strings of at most 255 octets each.
#[derive(Clone, Debug, Drop)]
pub struct TXT {
    pub txt_data: Vec<Vec<u8>>,
}

impl TXT {
    /// The data of strings.
    pub fn new(txt_data: Vec<Vec<u8>>) -> TXT
        ensures { result.txt_data ≡ txt_data }
    {
        TXT { txt_data }
    }

    /// The data of copies of these strings, whatever their octets.
    pub fn from_bytes(alloc: Global, txt_data: &[&[u8]]) -> Result<TXT, AllocError>
        ensures { IfOk result (λ txt. txt_strings txt ≡ map (λ s. s.now) txt_data.now) }
    {
        let mut strings = Vec::new(alloc);
        'strings: for string in txt_data {
            let copy = Vec::from_slice(alloc, *string)?;
            strings.push(copy)?;
        }
        Ok(TXT::new(strings))
    }

    // The fields of the data, as they are written.
    pub(crate) fn parts(&self) -> StringFields<'_>
        ensures { strings (map (λ s. s.items) result.0.now) ∷ [] ≡ txt_fields self.now }
    {
        StringFields(&self.txt_data)
    }
}

/// Strings that words write, each one of them.
#[derive(Drop)]
pub struct StringWords(Vec<Vec<u8>>);

impl Words for StringWords {
    ghost written = { λ words origin strings. EachWord IsStringWord (map (λ s. s.items) strings.0.items) words };

    ghost refuses = { λ words origin. RefusesEach IsStringWord RefusesString words };

    ghost laws = { λ words origin. by_part (λ strings. map (λ s. s.items) strings.0.items) (each_causes string_causes words) };

    fn from_words(
        alloc: Global,
        words: &[&str],
        origin: Option<&Name>,
    ) -> Result<StringWords, ParseError> {
        let mut strings = Vec::new(alloc);
        'words: for word in words {
            let string = match CharacterString::from_word(alloc, *word, origin) {
                Ok(string) => string,
                Err(refused) => return Err(refused),
            };
            match strings.push(string.into_bytes()) {
                Ok(()) => {}
                Err(_) => return Err(ParseError::Memory(AllocError)),
            }
        }
        Ok(StringWords(strings))
    }
}

impl FieldData for TXT {
    ghost use Rattle.std.proofs.Common.{refl};

    type Parts = CharacterStrings;

    ghost fields = { txt_fields };

    fn of_parts(parts: CharacterStrings) -> Result<TXT, DecodeError> {
        let CharacterStrings(txt_data) = parts;
        Ok(TXT::new(txt_data))
    }

    fn fields(&self) -> Fields<'_> {
        Fields::new(&[FieldRef::Strings(&self.txt_data)])
    }

    ghost laws = { λ txt. refl };
}

/// Each word writes one string of at most 255 octets (RFC 1035 5.1). Where there is no word there is no string.
impl TextData for TXT {
    type Parts = StringWords;

    ghost is_text = { λ words origin txt. IsTxtText words txt };

    ghost refuses = { λ words origin. RefusesTxtText words };

    fn of_words(parts: StringWords) -> TXT {
        let StringWords(txt_data) = parts;
        TXT::new(txt_data)
    }

    ghost laws = { (λ words origin txt written. (record { 0 = txt.txt_data }, written), λ words origin e refused. refused) };
}

impl BinEncodable for TXT {
    ghost emits = { λ txt. EmitsData Other (txt_fields txt) };

    ghost refuses = { λ txt old e new. RefusesFields (txt_fields txt) old e };

    fn emit(&self, encoder: &mut BinEncoder<'_>) -> Result<(), ProtoError> {
        emit_data(encoder, RDataEncoding::Other, &self.parts())
    }
}

impl PartialEq for TXT {
    ghost eq = { λ a b. fields_eq (txt_fields a) (txt_fields b) };

    ghost laws = { partial_equiv_from_equiv (data_equiv txt_fields) };

    /// Whether the strings are the same, octet by octet.
    fn eq(&self, other: &TXT) -> bool
        ensures value { result ≡ fields_eq (txt_fields self.now) (txt_fields other.now) }
        ensures canonical { AreFull (txt_fields self.now) → AreFull (txt_fields other.now)
            → Tells result (canonical_octets (txt_fields self.now)) (canonical_octets (txt_fields other.now)) }
    {
        is_same_data(self, other)
    }
}

impl Eq for TXT {
    ghost laws = { data_equiv txt_fields };
}

impl Hash for TXT {
    ghost hash_input = { λ txt. fields_input (txt_fields txt) };

    ghost respects_eq = { λ a b. fields-alike (txt_fields a) (txt_fields b) };

    fn hash<H: Hasher>(&self, state: &mut H) {
        hash_list(FieldData::fields(self).as_slice(), state);
    }
}

impl fmt::Display for TXT {
    ghost output = { λ txt. Some (txt_print txt) };

    /// Writes the strings without anything between them.
    fn fmt<W: fmt::Write>(&self, f: &mut fmt::Formatter<W>) -> fmt::Result {
        'strings: for string in &self.txt_data {
            fmt_escaped(f, string)?;
        }
        Ok(())
    }
}
