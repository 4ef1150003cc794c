//! The lexer.
ghost use Rattle.std.specs.Prelude.{◌≡◌, ◌∷◌, ◌⊎◌, false, true, ℕ, List, Option, Ok, Err, Some, IfOk, IfErr, MatchResult, chars};
ghost use Rattle.std.specs.Str.{encode_utf8_all};
ghost use Rattle.std.specs.String.{string_bytes};
ghost use Rattle.dnw_codes.specs.declared.error.LexerError.TheVariants.{Memory};
ghost use Rattle.dnw_lexer.specs.Lexer.{Lexeme, Given, unread, bare_lexeme, ListToken, BareToken, WordToken, LineToken, IsToken};
ghost use Rattle.dnw_lexer.specs.Tokens.{IsLexeme, AreLexemes};

use crate::character::split_char;
use crate::gap::{at_line_end, begins_blank, behind_line_end, without_blanks, without_comment};
use crate::list::list_words;
use crate::token::Token;
use crate::word::{plain_word, quoted_string};
use dnw_codes::LexerError;
use std::alloc::Global;
use std::marker::Model;

/// The tokens of a text, one after another. A contract sees it as what it has not read yet.
#[derive(Drop)]
pub struct Lexer<'a> {
    alloc: Global,
    front: bool,
    text: &'a str,
}

impl<'a> Model for Lexer<'a> {
    ghost use Rattle.std.specs.Prelude.{chars};
    ghost use Rattle.dnw_lexer.specs.Lexer.{Unread, unread};

    ghost Value = { Unread };

    ghost view = { λ lexer. unread lexer.front (chars lexer.text.now) };
}

impl<'a> Lexer<'a> {
    /// The tokens of a text, from a line's front on.
    pub fn new(alloc: Global, text: &'a str) -> Lexer<'a>
        ensures { result ≡ unread true (chars text.now) }
    {
        Lexer {
            alloc,
            front: true,
            text,
        }
    }

    /// The next token, or `None` at the text's end. Where the text can't be read the error says why, and it
    /// stands at the same place still.
    pub fn next_token(&mut self) -> Result<Option<Token>, LexerError>
        ensures ok { IfOk result (λ token. (lexeme : Option Lexeme) × AreLexemes token lexeme × IsToken self.old (Ok (lexeme, self.new))) }
        ensures err { IfErr result (λ e. (self.new ≡ self.old) × ((e ≡ Memory) ⊎ IsToken self.old (Err e))) }

        // No other token, and no other error, stands there.
        ensures only { (given : Given) → IsToken self.old given → MatchResult result
            (λ token. (lexeme : Option Lexeme) × AreLexemes token lexeme × (given ≡ Ok (lexeme, self.new)))
            (λ e. (e ≡ Memory) ⊎ (given ≡ Err e)) }
    {
        match token_at(self.alloc, self.front, self.text) {
            Ok((token, front, text)) => {
                self.front = front;
                self.text = text;
                Ok(token)
            }
            Err(refused) => Err(refused),
        }
    }
}

// The token that stands at a place, whether a line begins behind it, and the text there.
fn token_at<'a>(
    alloc: Global,
    front: bool,
    text: &'a str,
) -> Result<(Option<Token>, bool, &'a str), LexerError>
    ensures ok { IfOk result (λ found. (lexeme : Option Lexeme) × AreLexemes found.0 lexeme
        × IsToken (unread front (chars text.now)) (Ok (lexeme, unread found.1 (chars found.2.now)))) }
    ensures err { IfErr result (λ e. (e ≡ Memory) ⊎ IsToken (unread front (chars text.now)) (Err e)) }
{
    if front && begins_blank(text) {
        return Ok((Some(Token::Blank), false, without_blanks(text)));
    }
    line_token(alloc, front, without_comment(without_blanks(text)))
}

// The token that a line has behind its blanks and its comment.
fn line_token<'a>(
    alloc: Global,
    front: bool,
    text: &'a str,
) -> Result<(Option<Token>, bool, &'a str), LexerError>
    ensures ok { IfOk result (λ found. (lexeme : Option Lexeme) × AreLexemes found.0 lexeme
        × LineToken front (chars text.now) (Ok (lexeme, unread found.1 (chars found.2.now)))) }
    ensures err { IfErr result (λ e. (e ≡ Memory) ⊎ LineToken front (chars text.now) (Err e)) }
{
    let Some((c, behind)) = split_char(text) else {
        return Ok((None, front, text));
    };
    if at_line_end(c, behind) {
        return Ok((Some(Token::EOL), true, behind_line_end(c, behind)));
    }
    match word_token(alloc, text, c, behind) {
        Ok((token, later)) => Ok((Some(token), false, later)),
        Err(refused) => Err(refused),
    }
}

// The list, string or plain word that a text begins with.
fn word_token<'a>(
    alloc: Global,
    text: &'a str,
    c: char,
    behind: &'a str,
) -> Result<(Token, &'a str), LexerError>
    requires { chars text.now ≡ c ∷ chars behind.now }
    ensures ok { IfOk result (λ found. (lexeme : Lexeme) × IsLexeme found.0 lexeme
        × WordToken c (chars behind.now) (Ok (Some lexeme, unread false (chars found.1.now)))) }
    ensures err { IfErr result (λ e. (e ≡ Memory) ⊎ WordToken c (chars behind.now) (Err e)) }
{
    match c {
        '(' => list_token(alloc, behind),
        '"' => match quoted_string(alloc, behind) {
            Ok((word, later)) => Ok((Token::CharData(word), later)),
            Err(refused) => Err(refused),
        },
        _ => bare_token_at(alloc, text),
    }
}

// The list that stands behind `(`, as a token.
fn list_token<'a>(alloc: Global, behind: &'a str) -> Result<(Token, &'a str), LexerError>
    ensures ok { IfOk result (λ found. (lexeme : Lexeme) × IsLexeme found.0 lexeme
        × ListToken (chars behind.now) (Ok (Some lexeme, unread false (chars found.1.now)))) }
    ensures err { IfErr result (λ e. (e ≡ Memory) ⊎ ListToken (chars behind.now) (Err e)) }
{
    let (words, later) = match list_words(alloc, behind) {
        Ok(found) => found,
        Err(refused) => return Err(refused),
    };
    Ok((Token::List(words), later))
}

// The plain word that a text begins with, as a token.
fn bare_token_at<'a>(alloc: Global, text: &'a str) -> Result<(Token, &'a str), LexerError>
    ensures ok { IfOk result (λ found. (lexeme : Lexeme) × IsLexeme found.0 lexeme
        × BareToken (chars text.now) (Ok (Some lexeme, unread false (chars found.1.now)))) }
    ensures err { IfErr result (λ e. (e ≡ Memory) ⊎ BareToken (chars text.now) (Err e)) }
{
    let (word, later) = match plain_word(alloc, false, text) {
        Ok(found) => found,
        Err(refused) => return Err(refused),
    };
    match bare_token(word) {
        Ok(token) => Ok((token, later)),
        Err(refused) => Err(refused),
    }
}

// The token of a plain word.
fn bare_token(word: String) -> Result<Token, LexerError>
    ensures { (w : List ℕ) → string_bytes word ≡ encode_utf8_all w
        → MatchResult result (λ token. (lexeme : Lexeme) × IsLexeme token lexeme × (bare_lexeme w ≡ Ok lexeme)) (λ e. bare_lexeme w ≡ Err e) }
{
    let text = word.as_str();
    if text == "@" {
        return Ok(Token::At);
    }
    if text == "$INCLUDE" {
        return Ok(Token::Include);
    }
    if text == "$ORIGIN" {
        return Ok(Token::Origin);
    }
    if text == "$TTL" {
        return Ok(Token::Ttl);
    }
    if text.as_bytes().starts_with(b"$") {
        return Err(LexerError::UnrecognizedDollar);
    }
    Ok(Token::CharData(word))
}
