//! Data that words write.
ghost use Rattle.std.specs.Prelude.{◌⊎◌, ℕ, List, Option, IfOk, IfErr, map};

use crate::tokens::read_tokens;
use crate::words::Words;
use dnw_lexer::ParseError;
use dnw_name::Name;
use std::alloc::Global;
use std::convert::AsStr;

/// Data that are written as words. An implementor says what the words are one by one, and makes the data of these parts.
pub trait TextData: Sized + Drop {
    ghost use Rattle.std.specs.Prelude.{◌⊎◌, ℕ, List, Option, IfOk, IfErr, map};
    ghost use Rattle.std.specs.Iterator.{Drains, IsFinite};
    ghost use Rattle.std.specs.Option.{option_copied};
    ghost use Rattle.dnw_lexer.specs.dnw_codes.declared.error.ParseError.{ParseError};
    ghost use Rattle.dnw_name.specs.DomainName.{DomainName};
    ghost use Rattle.drd_words.specs.Word.{IsOutOfMemory};

    /// What the words stand for, one by one.
    type Parts: Words;

    /// The words, each as its octets, the origin if there is one, and the value.
    ghost is_text: { List (List ℕ) → Option DomainName → Self → Type 0 };

    /// The words, the origin if there is one, and the error where they write no value.
    ghost refuses: { List (List ℕ) → Option DomainName → ParseError → Type 0 };

    /// The value of these parts.
    fn of_words(parts: Self::Parts) -> Self
        ensures { (words : List (List ℕ)) (origin : Option DomainName) → Self.Parts.written words origin parts → is_text words origin result };

    /// The data that words write. Refused are words that are missing, too many or unfit (RFC 1035 5.1), by the first of
    /// them.
    fn from_tokens<I: Iterator + Drop>(
        alloc: Global,
        tokens: I,
        origin: Option<&Name>,
    ) -> Result<Self, ParseError>
    where
        I::Item: AsStr + Drop,
        requires can { I.can_next tokens }
        requires ends { IsFinite (I.remaining tokens) }
        ensures ok { IfOk result (λ value. (words : List I.Item) × Drains I.next_gives tokens words
            × is_text (map I.Item.text words) (option_copied origin.entry) value) }
        ensures refused { IfErr result (λ e. IsOutOfMemory e ⊎ ((words : List I.Item) × Drains I.next_gives tokens words
            × ((value : Self) → is_text (map I.Item.text words) (option_copied origin.entry) value → ⊥))) }
        ensures cause { IfErr result (λ e. IsOutOfMemory e ⊎ ((words : List I.Item) × Drains I.next_gives tokens words
            × refuses (map I.Item.text words) (option_copied origin.entry) e)) }
    {
        match read_tokens::<Self::Parts, I>(alloc, tokens, origin) {
            Ok(parts) => Ok(Self::of_words(parts)),
            Err(refused) => Err(refused),
        }
    }

    // A value that words write has parts that they write; words are refused as these are.
    ghost laws: { ((words : List (List ℕ)) (origin : Option DomainName) (value : Self) → is_text words origin value
        → (parts : Self.Parts) × Self.Parts.written words origin parts)
        × ((words : List (List ℕ)) (origin : Option DomainName) (e : ParseError) → Self.Parts.refuses words origin e → refuses words origin e) };
}
