//! Words.
ghost use Rattle.std.specs.Prelude.{◌≡◌, ◌≢◌, ◌==◌, ◌&&◌, ◌||◌, ◌∷◌, ◌++◌, [], ◌⊎◌, ℕ, List, Ok, Err, Some, None, IfOk, IfErr, IfSome, OnOk, MatchOption, MatchBool, chars, IsUtf8};
ghost use Rattle.std.specs.Str.{encode_utf8_all};
ghost use Rattle.std.specs.String.{string_bytes};
ghost use Rattle.dnw_codes.specs.declared.error.LexerError.TheVariants.{Memory, EOF, UnrecognizedChar};
ghost use Rattle.dnw_codes.specs.Ascii.{backslash, close_parenthesis, is_octal};
ghost use Rattle.dnw_lexer.specs.Lexer.{PlainText, StringText, ends_word, escape, octal_at};

use crate::character::{new_word, push, split_char};
use crate::gap::{at_line_end, is_blank};
use dnw_codes::LexerError;
use std::alloc::Global;

/// The plain word that a text begins with, in a list or outside, and what stands behind it. It is a front of the text, as it
/// stands there.
pub fn plain_word<'a>(
    alloc: Global,
    inside: bool,
    text: &'a str,
) -> Result<(String, &'a str), LexerError>
    ensures ok { IfOk result (λ found. (w : List ℕ) × (string_bytes found.0 ≡ encode_utf8_all w)
        × PlainText inside (chars text.now) (Ok (w, chars found.1.now))) }
    ensures text { IfOk result (λ found. IsUtf8 found.1.now) }
    ensures err { IfErr result (λ e. (e ≡ Memory) ⊎ PlainText inside (chars text.now) (Err e)) }
{
    let rest = behind_plain_word(inside, text)?;
    let (front, _) = text.split_at(text.len() - rest.len());
    match String::from_str(alloc, front) {
        Ok(word) => Ok((word, rest)),
        Err(_) => Err(LexerError::Memory),
    }
}

// What stands behind the plain word that a text begins with.
fn behind_plain_word<'a>(inside: bool, text: &'a str) -> Result<&'a str, LexerError>
    ensures ok { IfOk result (λ rest. (w : List ℕ) × PlainText inside (chars text.now) (Ok (w, chars rest.now))) }
    ensures text { IfOk result (λ rest. IsUtf8 rest.now) }
    ensures err { IfErr result (λ e. PlainText inside (chars text.now) (Err e)) }
{
    let mut rest = text;
    'characters: while let Some((c, behind)) = split_char(rest) {
        if ends_word(inside, c, behind) {
            return Ok(rest);
        }
        rest = behind_unit(c, behind)?;
    }
    Ok(rest)
}

// Whether a word ends before a character.
fn ends_word(inside: bool, c: char, behind: &str) -> bool
    ensures { result ≡ ends_word inside (c ∷ chars behind.now) }
{
    is_blank(c) || c == ';' || at_line_end(c, behind) || (inside && c == ')')
}

// What stands behind a character of a plain word, and behind the one that stays with a backslash.
fn behind_unit<'a>(c: char, behind: &'a str) -> Result<&'a str, LexerError>
    ensures ok { IfOk result (λ later. (c ≢ close_parenthesis) × (((c ≢ backslash) × (chars later.now ≡ chars behind.now))
        ⊎ ((c ≡ backslash) × ((d : ℕ) × (chars behind.now ≡ d ∷ chars later.now))))) }
    ensures text { IfOk result (λ later. IsUtf8 later.now) }
    ensures err { IfErr result (λ e. ((c ≡ close_parenthesis) × (e ≡ UnrecognizedChar c))
        ⊎ ((c ≡ backslash) × (chars behind.now ≡ []) × (e ≡ EOF))) }
{
    match c {
        ')' => Err(LexerError::UnrecognizedChar(c)),
        '\\' => match split_char(behind) {
            Some((_, later)) => Ok(later),
            None => Err(LexerError::EOF),
        },
        _ => Ok(behind),
    }
}

/// The string in quotes that a text begins with, from behind the opening quote on, and what stands behind the
/// closing one.
pub fn quoted_string<'a>(alloc: Global, text: &'a str) -> Result<(String, &'a str), LexerError>
    ensures ok { IfOk result (λ found. (w : List ℕ) × (string_bytes found.0 ≡ encode_utf8_all w)
        × StringText (chars text.now) (Ok (w, chars found.1.now))) }
    ensures text { IfOk result (λ found. IsUtf8 found.1.now) }
    ensures err { IfErr result (λ e. (e ≡ Memory) ⊎ StringText (chars text.now) (Err e)) }
{
    let mut word = new_word(alloc)?;
    let mut rest = text;
    'characters: while let Some((c, behind)) = split_char(rest) {
        if c == '"' {
            return Ok((word, behind));
        }
        let (d, later) = match string_unit(c, behind) {
            Ok(found) => found,
            Err(refused) => return Err(refused),
        };
        push(&mut word, d)?;
        rest = later;
    }
    Err(LexerError::UnclosedQuotedString)
}

// The character of a string that a character stands for, or a backslash with what is behind it.
fn string_unit<'a>(c: char, behind: &'a str) -> Result<(char, &'a str), LexerError>
    ensures ok { IfOk result (λ found. MatchBool (c == backslash) (escape (chars behind.now) ≡ Ok (found.0, chars found.1.now))
        ((found.0 ≡ c) × (chars found.1.now ≡ chars behind.now))) }
    ensures text { IfOk result (λ found. IsUtf8 found.1.now) }
    ensures err { IfErr result (λ e. (c ≡ backslash) × (escape (chars behind.now) ≡ Err e)) }
{
    if c == '\\' {
        escape(behind)
    } else {
        Ok((c, behind))
    }
}

// What a backslash with this text behind it stands for.
fn escape<'a>(text: &'a str) -> Result<(char, &'a str), LexerError>
    ensures ok { IfOk result (λ found. escape (chars text.now) ≡ Ok (found.0, chars found.1.now)) }
    ensures text { IfOk result (λ found. IsUtf8 found.1.now) }
    ensures err { IfErr result (λ e. escape (chars text.now) ≡ Err e) }
{
    let Some((a, behind)) = split_char(text) else {
        return Err(LexerError::EOF);
    };
    match octal_at(a, behind) {
        Some((value, later)) if value < 128 => Ok((char::from(value as u8), later)),
        Some((value, _)) => Err(LexerError::UnrecognizedOctet(value)),
        None => Ok((a, behind)),
    }
}

// The number of three octal digits, of which the first is handed in, and what stands behind them.
fn octal_at<'a>(a: char, behind: &'a str) -> Option<(u32, &'a str)>
    ensures found { MatchOption result (octal_at (a ∷ chars behind.now) ≡ None)
        (λ found. octal_at (a ∷ chars behind.now) ≡ Some (found.0, chars found.1.now)) }
    ensures text { IfSome result (λ found. IsUtf8 found.1.now) }
{
    let (b, behind) = split_char(behind)?;
    let (c, behind) = split_char(behind)?;
    if !(is_octal(a) && is_octal(b) && is_octal(c)) {
        return None;
    }
    let value = 64 * (a as u32 - 48) + 8 * (b as u32 - 48) + (c as u32 - 48);
    Some((value, behind))
}

fn is_octal(c: char) -> bool
    ensures { result ≡ is_octal c }
{
    '0' <= c && c <= '7'
}
