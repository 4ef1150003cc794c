//! Characters of a text.
ghost use Rattle.std.specs.Prelude.{◌≡◌, ◌∷◌, ◌++◌, [], MatchOption, OnOk, IfOk, IfErr, IfSome, IsUtf8, chars};
ghost use Rattle.std.specs.Str.{encode_utf8_all};
ghost use Rattle.dnw_codes.specs.declared.error.LexerError.TheVariants.{Memory};
ghost use Rattle.std.specs.String.{string_bytes};

use dnw_codes::LexerError;
use std::alloc::Global;

/// The first character of a text, and what stands behind it.
pub fn split_char(text: &str) -> Option<(char, &str)>
    ensures split { MatchOption result (chars text.now ≡ []) (λ found. chars text.now ≡ found.0 ∷ chars found.1.now) }
    ensures text { IfSome result (λ found. IsUtf8 found.1.now) }
{
    let mut characters = text.chars();
    let first = characters.next()?;
    Some((first, characters.as_str()))
}

/// A word without characters yet, with room for the most that zone files have.
pub fn new_word(alloc: Global) -> Result<String, LexerError>
    ensures empty { IfOk result (λ word. string_bytes word ≡ []) }
    ensures refused { IfErr result (λ e. e ≡ Memory) }
{
    match String::with_capacity(alloc, 16) {
        Ok(word) => Ok(word),
        Err(_) => Err(LexerError::Memory),
    }
}

/// Puts a character at a word's end.
pub fn push(word: &mut String, c: char) -> Result<(), LexerError>
    ensures pushed { OnOk result (string_bytes word.new ≡ string_bytes word.old ++ encode_utf8_all (c ∷ [])) }
    ensures refused { IfErr result (λ e. e ≡ Memory) }
{
    match word.push(c) {
        Ok(()) => Ok(()),
        Err(_) => Err(LexerError::Memory),
    }
}
