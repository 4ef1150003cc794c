//! Flags of letters and digits.
ghost use Rattle.std.specs.Prelude.{◌≡◌};
ghost use Rattle.drd_words.specs.Word.{are_alphanumeric};
ghost use Rattle.drd_plain.specs.Words.{IsFlagsWord, RefusesFlags};
ghost use Rattle.drd_plain.specs.WordsLaws.{flags_causes};

use drd_words::{CharacterString, Name, ParseError, Word};
use std::alloc::Global;
use std::marker::Model;

/// Whether flags are ASCII letters and digits (RFC 3403 4.1).
pub fn verify_flags(flags: &[u8]) -> bool
    ensures { result ≡ are_alphanumeric flags.now }
{
    flags.iter().all(|octet| octet.is_ascii_alphanumeric())
}

/// Flags that a word writes: at most 255 ASCII letters and digits, or none. A contract sees them as their octets.
#[derive(Drop)]
pub struct Flags(Vec<u8>);

impl Model for Flags {
    ghost use Rattle.std.specs.Prelude.{ℕ, List};

    ghost Value = { List ℕ };

    ghost view = { λ flags. flags.0.items };
}

impl Flags {
    /// The flags' octets, taken out of them.
    pub(crate) fn into_bytes(self) -> Vec<u8>
        ensures { result.items ≡ self }
    {
        let Flags(octets) = self;
        octets
    }
}

impl Word for Flags {
    ghost written = { λ word origin flags. IsFlagsWord flags word };

    ghost refuses = { λ word origin. RefusesFlags word };

    ghost laws = { λ word origin. flags_causes word };

    fn from_word(alloc: Global, word: &str, origin: Option<&Name>) -> Result<Flags, ParseError> {
        if !verify_flags(word.as_bytes()) {
            return Err(ParseError::Message("flags are ASCII letters and digits"));
        }
        match CharacterString::from_word(alloc, word, origin) {
            Ok(flags) => Ok(Flags(flags.into_bytes())),
            Err(refused) => Err(refused),
        }
    }
}
