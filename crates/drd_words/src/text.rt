//! The words of a text.
ghost use Rattle.std.specs.Prelude.{◌≡◌, ◌≢◌, ◌++◌, ◌⊎◌, ℕ, List, None, Some, Ok, Err, OnOk, IfOk, IfErr, MatchResult, map, chars, true};
ghost use Rattle.std.specs.String.{string_bytes};
ghost use Rattle.dnw_lexer.specs.dnw_codes.declared.error.ParseError.TheVariants.{Lexer as Unlexed, UnexpectedToken};
ghost use Rattle.dnw_lexer.specs.dnw_codes.declared.error.LexerError.TheVariants.{Memory};
ghost use Rattle.dnw_lexer.specs.Lexer.{Lexeme, unread};
ghost use Rattle.dnw_lexer.specs.Tokens.{IsLexeme};
ghost use Rattle.drd_words.specs.Text.{lexeme_words, IsSplitInto, TextRefused};
ghost use Rattle.drd_words.specs.Word.{IsOutOfMemory};
ghost use Rattle.drd_words.specs.Refusals.{RefusesText};

use crate::words::{Words, push, texts};
use dnw_lexer::{Lexer, LexerError, ParseError, Token};
use std::alloc::{AllocError, Global};

/// Reads the words of a text, those of a list in its place. Blanks at a line's front and line ends are passed over.
/// Refused are another token, a text that can't be told into words, and words that stand for no value.
pub fn read_text<T: Words>(alloc: Global, text: &str) -> Result<T, ParseError>
    ensures ok { IfOk result (λ value. (words : List (List ℕ)) × IsSplitInto text.now words × T.written words None value) }
    ensures refused { IfErr result (λ e. IsOutOfMemory e
        ⊎ ((words : List (List ℕ)) (value : T) → IsSplitInto text.now words → T.written words None value → ⊥)) }

    // The words are those of the text and no others; where it has none, the error is that of the text.
    ensures only { (words : List (List ℕ)) → IsSplitInto text.now words
        → MatchResult result (λ value. T.written words None value) (λ e. IsOutOfMemory e ⊎ ((value : T) → T.written words None value → ⊥)) }
    ensures cause { (e : ParseError) → TextRefused text.now e → MatchResult result (λ value. ⊥) (λ given. IsOutOfMemory given ⊎ (given ≡ e)) }
    ensures told { IfErr result (λ e. IsOutOfMemory e ⊎ RefusesText (λ words. T.refuses words None) text.now e) }
{
    let words = match words_of_text(alloc, text) {
        Ok(words) => words,
        Err(refused) => return Err(refused),
    };
    let parts = match texts(alloc, &words) {
        Ok(parts) => parts,
        Err(refused) => return Err(ParseError::Memory(refused)),
    };
    T::from_words(alloc, parts.as_slice(), None)
}

/// The words of a text, those of a list in its place. Blanks at a line's front and line ends are passed over. Refused are
/// another token, and a text that can't be told into words (RFC 1035 5.1).
pub fn words_of_text(alloc: Global, text: &str) -> Result<Vec<String>, ParseError>
    ensures ok { IfOk result (λ words. IsSplitInto text.now (map string_bytes words.items)) }
    ensures refused { IfErr result (λ e. IsOutOfMemory e ⊎ TextRefused text.now e) }

    // The words are those of the text and no others; where it has none, the error is that of the text.
    ensures only { (parts : List (List ℕ)) → IsSplitInto text.now parts
        → MatchResult result (λ words. map string_bytes words.items ≡ parts) (λ e. IsOutOfMemory e) }
    ensures cause { (e : ParseError) → TextRefused text.now e → MatchResult result (λ words. ⊥) (λ given. IsOutOfMemory given ⊎ (given ≡ e)) }
{
    let mut lexer = Lexer::new(alloc, text);
    let mut words = Vec::new(alloc);
    'tokens: loop {
        let token = match lexer.next_token() {
            Ok(Some(token)) => token,
            Ok(None) => return Ok(words),
            Err(refused) => return Err(unreadable(refused)),
        };
        match push_words(&mut words, token) {
            Ok(()) => {}
            Err(refused) => return Err(refused),
        }
    }
}

// The error for a token that can't be read. One for memory is the same for all that reads words.
fn unreadable(refused: LexerError) -> ParseError
    ensures { ((refused ≡ Memory) × IsOutOfMemory result) ⊎ ((refused ≢ Memory) × (result ≡ Unlexed refused)) }
{
    match refused {
        LexerError::Memory => ParseError::Memory(AllocError),
        _ => ParseError::Lexer(refused),
    }
}

// Puts the words of a token behind others.
fn push_words(words: &mut Vec<String>, token: Token) -> Result<(), ParseError>
    ensures { (lexeme : Lexeme) → IsLexeme token lexeme → MatchResult result
        (λ done. (more : List (List ℕ)) × (lexeme_words lexeme ≡ Some more)
        × (map string_bytes words.new.items ≡ map string_bytes words.old.items ++ more))
        (λ e. IsOutOfMemory e ⊎ ((e ≡ UnexpectedToken) × (lexeme_words lexeme ≡ None))) }
{
    match token {
        Token::Blank | Token::EOL => Ok(()),
        Token::CharData(word) => push(words, word),
        Token::List(list) => {
            let mut list = list;
            match words.append(&mut list) {
                Ok(()) => Ok(()),
                Err(refused) => Err(ParseError::Memory(refused)),
            }
        }
        _ => Err(ParseError::UnexpectedToken),
    }
}
