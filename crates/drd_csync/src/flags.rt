//! Flags in a word.
ghost use Rattle.std.specs.Prelude.{◌≡◌, ◌<◌, ◌≤◌, MatchBool};
ghost use Rattle.drd_csync.specs.Texts.{IsFlagsWord, RefusesFlags};
ghost use Rattle.drd_csync.specs.TextsLaws.{flags_causes};

use dnw_wire::ParseError;
use drd_words::{Name, Word};
use std::alloc::Global;
use std::marker::Model;

/// The flags, of which the lower two alone may be set (RFC 7477 2.1.1.2). A contract sees them as a number.
#[derive(Drop)]
pub struct Flags(u16);

impl Model for Flags {
    ghost use Rattle.std.specs.Prelude.{ℕ, ◌≤◌};

    ghost Value = { ℕ };

    ghost view = { λ flags. flags.0 };

    ghost invariant = { λ flags. flags.0 ≤ 3 };
}

impl Flags {
    /// The flags as a number.
    pub(crate) fn number(&self) -> u16
        ensures value { result ≡ self.now }
        ensures few { result ≤ 3 }
    {
        self.0
    }
}

impl Word for Flags {
    ghost written = { λ word origin flags. IsFlagsWord flags word };

    ghost refuses = { λ word origin. RefusesFlags word };

    ghost laws = { λ word origin. flags_causes word };

    fn from_word(alloc: Global, word: &str, origin: Option<&Name>) -> Result<Flags, ParseError> {
        let flags = match u16::from_word(alloc, word, origin) {
            Ok(flags) => flags,
            Err(refused) => return Err(refused),
        };
        if are_known(flags) {
            Ok(Flags(flags))
        } else {
            Err(ParseError::Message("CSYNC flags are at most 3"))
        }
    }
}

/// Whether no flags but the lower two are set.
pub(crate) fn are_known(flags: u16) -> bool
    ensures { MatchBool result (flags ≤ 3) (3 < flags) }
{
    flags <= 3
}
