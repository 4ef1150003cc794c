//! Words from an iterator.
ghost use Rattle.std.specs.Prelude.{◌≡◌, ◌⊎◌, ℕ, List, IfOk, IfErr, map};
ghost use Rattle.std.specs.Iterator.{Drains, IsFinite};
ghost use Rattle.std.specs.Option.{option_copied};
ghost use Rattle.drd_words.specs.Word.{IsOutOfMemory};

use crate::words::{Words, texts};
use dnw_lexer::ParseError;
use dnw_name::Name;
use std::alloc::Global;
use std::convert::AsStr;

/// Reads the words that an iterator gives. Refused are words that stand for no value.
pub fn read_tokens<T: Words, I: Iterator + Drop>(
    alloc: Global,
    tokens: I,
    origin: Option<&Name>,
) -> Result<T, ParseError>
where
    I::Item: AsStr + Drop,
    requires can { I.can_next tokens }
    requires ends { IsFinite (I.remaining tokens) }
    ensures ok { IfOk result (λ value. (words : List I.Item) × Drains I.next_gives tokens words
        × T.written (map I.Item.text words) (option_copied origin.entry) value) }
    ensures refused { IfErr result (λ e. IsOutOfMemory e ⊎ ((words : List I.Item) × Drains I.next_gives tokens words
        × ((value : T) → T.written (map I.Item.text words) (option_copied origin.entry) value → ⊥))) }
    ensures cause { IfErr result (λ e. IsOutOfMemory e ⊎ ((words : List I.Item) × Drains I.next_gives tokens words
        × T.refuses (map I.Item.text words) (option_copied origin.entry) e)) }
{
    let words: Vec<I::Item> = match tokens.collect(alloc) {
        Ok(words) => words,
        Err(refused) => return Err(ParseError::Memory(refused)),
    };
    let parts = match texts(alloc, &words) {
        Ok(parts) => parts,
        Err(refused) => return Err(ParseError::Memory(refused)),
    };
    T::from_words(alloc, parts.as_slice(), origin)
}
