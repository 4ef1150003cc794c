//! The words of CAA data (RFC 8659 4.1.1).
ghost use Rattle.std.specs.Prelude.{◌≡◌};
ghost use Rattle.drd_caa.specs.Fields.{is_caa_tag};
ghost use Rattle.drd_caa.specs.Words.{IsTagWord, IsValueWord, RefusesTag};
ghost use Rattle.drd_caa.specs.WordsLaws.{tag_causes};
ghost use Rattle.drd_words.specs.RefusalsLaws.{no_causes};
ghost use Rattle.drd_words.specs.Word.{are_alphanumeric};

use drd_words::{Name, ParseError, Word};
use std::alloc::Global;
use std::marker::Model;

/// A word that is a property's tag. A contract sees it as its octets.
#[derive(Drop)]
pub struct Tag(Vec<u8>);

impl Model for Tag {
    ghost use Rattle.std.specs.Prelude.{ℕ, List};

    ghost Value = { List ℕ };

    ghost view = { λ tag. tag.0.items };
}

impl Tag {
    /// The tag's octets, taken out of it.
    pub(crate) fn into_bytes(self) -> Vec<u8>
        ensures { result.items ≡ self }
    {
        let Tag(octets) = self;
        octets
    }
}

/// A word that is a property's value, whatever its octets. A contract sees it as these.
#[derive(Drop)]
pub struct Value(Vec<u8>);

impl Model for Value {
    ghost use Rattle.std.specs.Prelude.{ℕ, List};

    ghost Value = { List ℕ };

    ghost view = { λ value. value.0.items };
}

impl Value {
    /// The value's octets, taken out of it.
    pub(crate) fn into_bytes(self) -> Vec<u8>
        ensures { result.items ≡ self }
    {
        let Value(octets) = self;
        octets
    }
}

// Whether octets are ASCII letters and digits.
fn are_alphanumeric(octets: &[u8]) -> bool
    ensures { result ≡ are_alphanumeric octets.now }
{
    octets.iter().all(|octet| octet.is_ascii_alphanumeric())
}

/// Whether a tag is 1 to 15 letters and digits (RFC 8659 4.1).
pub fn is_tag(tag: &[u8]) -> bool
    ensures { result ≡ is_caa_tag tag.now }
{
    !tag.is_empty() && tag.len() <= 15 && are_alphanumeric(tag)
}

impl Word for Tag {
    ghost written = { λ word origin tag. IsTagWord tag word };

    ghost refuses = { λ word origin. RefusesTag word };

    ghost laws = { λ word origin. tag_causes word };

    fn from_word(alloc: Global, word: &str, _origin: Option<&Name>) -> Result<Tag, ParseError> {
        let octets = word.as_bytes();
        if !is_tag(octets) {
            return Err(ParseError::Message("a CAA tag is 1 to 15 letters and digits"));
        }
        match octets.to_vec(alloc) {
            Ok(copy) => Ok(Tag(copy)),
            Err(refused) => Err(ParseError::Memory(refused)),
        }
    }
}

impl Word for Value {
    ghost written = { λ word origin value. IsValueWord value word };

    ghost refuses = { λ word origin e. ⊥ };

    ghost laws = { λ word origin. no_causes (λ value. IsValueWord value word) };

    fn from_word(alloc: Global, word: &str, _origin: Option<&Name>) -> Result<Value, ParseError> {
        match word.as_bytes().to_vec(alloc) {
            Ok(copy) => Ok(Value(copy)),
            Err(refused) => Err(ParseError::Memory(refused)),
        }
    }
}
