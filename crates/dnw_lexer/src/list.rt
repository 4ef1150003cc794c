//! Lists of words.
ghost use Rattle.std.specs.Prelude.{◌≡◌, ◌∷◌, ◌⊎◌, ℕ, List, Ok, Err, map, IfOk, IfErr, chars, IsUtf8};
ghost use Rattle.std.specs.Str.{encode_utf8_all};
ghost use Rattle.std.specs.String.{string_bytes};
ghost use Rattle.dnw_codes.specs.declared.error.LexerError.TheVariants.{Memory};
ghost use Rattle.dnw_lexer.specs.Lexer.{ListText, ListWord};

use crate::character::split_char;
use crate::gap::behind_gap;
use crate::word::{plain_word, quoted_string};
use dnw_codes::LexerError;
use std::alloc::Global;

/// The words of a list, from behind `(` on, and what stands behind `)`.
pub fn list_words<'a>(alloc: Global, text: &'a str) -> Result<(Vec<String>, &'a str), LexerError>
    ensures ok { IfOk result (λ found. (ws : List (List ℕ)) × (map string_bytes found.0.items ≡ map encode_utf8_all ws)
        × ListText (chars text.now) (Ok (ws, chars found.1.now))) }
    ensures text { IfOk result (λ found. IsUtf8 found.1.now) }
    ensures err { IfErr result (λ e. (e ≡ Memory) ⊎ ListText (chars text.now) (Err e)) }
{
    let mut words = Vec::new(alloc);
    let mut rest = text;
    'words: loop {
        let start = behind_gap(rest);
        let Some((c, behind)) = split_char(start) else {
            return Err(LexerError::UnclosedList);
        };
        if c == ')' {
            return Ok((words, behind));
        }
        let (word, later) = match list_word(alloc, start, c, behind) {
            Ok(found) => found,
            Err(refused) => return Err(refused),
        };
        match words.push(word) {
            Ok(()) => rest = later,
            Err(_) => return Err(LexerError::Memory),
        }
    }
}

// The word of a list that a text begins with, and what stands behind it.
fn list_word<'a>(
    alloc: Global,
    start: &'a str,
    c: char,
    behind: &'a str,
) -> Result<(String, &'a str), LexerError>
    requires { chars start.now ≡ c ∷ chars behind.now }
    ensures ok { IfOk result (λ found. (w : List ℕ) × (string_bytes found.0 ≡ encode_utf8_all w)
        × ListWord c (chars behind.now) (Ok (w, chars found.1.now))) }
    ensures text { IfOk result (λ found. IsUtf8 found.1.now) }
    ensures err { IfErr result (λ e. (e ≡ Memory) ⊎ ListWord c (chars behind.now) (Err e)) }
{
    match c {
        '"' => quoted_string(alloc, behind),
        '(' => Err(LexerError::UnrecognizedChar(c)),
        _ => plain_word(alloc, true, start),
    }
}
