//! All words that are left.
ghost use Rattle.std.specs.Prelude.{◌≡◌, ◌++◌, ◌∷◌, [], ◌⊎◌, ℕ, List, Option, OnOk, IfOk, IfErr, map};
ghost use Rattle.std.specs.Option.{option_copied};
ghost use Rattle.dnw_name.specs.DomainName.{DomainName};
ghost use Rattle.drd_words.specs.Word.{IsOutOfMemory};
ghost use Rattle.dnw_lexer.specs.dnw_codes.declared.error.ParseError.{ParseError};
ghost use Rattle.drd_words.specs.Words.{NoWords, OneThen, EachWord};
ghost use Rattle.drd_words.specs.Refusals.{AreCauses, RefusesMore, RefusesOneThen, RefusesEach};
ghost use Rattle.drd_words.specs.RefusalsLaws.{by_part, more_causes, one_then_causes, each_causes};

use crate::word::Word;
use dnw_lexer::ParseError;
use dnw_name::Name;
use std::alloc::{AllocError, Global};
use std::convert::AsStr;

/// What all words that are left can stand for.
pub trait Words: Sized + Drop {
    /// The words, each as its octets, the origin if there is one, and the value.
    ghost written: { List (List ℕ) → Option DomainName → Self → Type 0 };

    /// The words, the origin if there is one, and the error where they stand for no value: that of the first word that is
    /// missing, one too many, or unfit.
    ghost refuses: { List (List ℕ) → Option DomainName → ParseError → Type 0 };

    /// The value of these words. Refused are words that stand for none.
    fn from_words(alloc: Global, words: &[&str], origin: Option<&Name>) -> Result<Self, ParseError>
        ensures ok { IfOk result (λ value. written (map (λ w. w.now) words.now) (option_copied origin.entry) value) }
        ensures refused { IfErr result (λ e. IsOutOfMemory e
            ⊎ ((value : Self) → written (map (λ w. w.now) words.now) (option_copied origin.entry) value → ⊥)) }
        ensures cause { IfErr result (λ e. IsOutOfMemory e ⊎ refuses (map (λ w. w.now) words.now) (option_copied origin.entry) e) };

    // Words are refused only where they stand for no value, and never for want of memory.
    ghost laws: { (words : List (List ℕ)) (origin : Option DomainName) → AreCauses (written words origin) (refuses words origin) };
}

/// No word.
impl Words for () {
    ghost written = { λ words origin value. NoWords words };

    ghost refuses = { λ words origin. RefusesMore words };

    ghost laws = { λ words origin. more_causes words };

    fn from_words(
        _alloc: Global,
        words: &[&str],
        _origin: Option<&Name>,
    ) -> Result<(), ParseError> {
        if words.is_empty() {
            Ok(())
        } else {
            Err(ParseError::UnexpectedToken)
        }
    }
}

/// One word, and then the rest.
impl<A: Word, B: Words> Words for (A, B) {
    ghost written = { λ words origin value.
        OneThen (λ word. A.written word origin value.0) (λ rest. B.written rest origin value.1) words };

    ghost refuses = { λ words origin.
        RefusesOneThen (λ x word. A.written word origin x) (λ word. A.refuses word origin) (λ rest. B.refuses rest origin) words };

    ghost laws = { λ words origin. one_then_causes (λ word. A.laws word origin) (λ rest. B.laws rest origin) words };

    fn from_words(
        alloc: Global,
        words: &[&str],
        origin: Option<&Name>,
    ) -> Result<(A, B), ParseError> {
        let Some((first, rest)) = words.split_first() else {
            return Err(ParseError::MissingToken("a word"));
        };
        let one = A::from_word(alloc, *first, origin)?;
        let others = B::from_words(alloc, rest, origin)?;
        Ok((one, others))
    }
}

/// One word for each value.
impl<A: Word> Words for Vec<A> {
    ghost written = { λ words origin values. EachWord (λ x word. A.written word origin x) values.items words };

    ghost refuses = { λ words origin. RefusesEach (λ x word. A.written word origin x) (λ word. A.refuses word origin) words };

    ghost laws = { λ words origin. by_part (λ values. values.items) (each_causes (λ word. A.laws word origin) words) };

    fn from_words(
        alloc: Global,
        words: &[&str],
        origin: Option<&Name>,
    ) -> Result<Vec<A>, ParseError> {
        let mut values = Vec::new(alloc);
        'words: for word in words {
            let value = match A::from_word(alloc, *word, origin) {
                Ok(value) => value,
                Err(refused) => return Err(refused),
            };
            match push(&mut values, value) {
                Ok(()) => {}
                Err(refused) => return Err(refused),
            }
        }
        Ok(values)
    }
}

/// Puts a value behind others.
pub(crate) fn push<T: Drop>(values: &mut Vec<T>, value: T) -> Result<(), ParseError>
    ensures pushed { OnOk result (values.new.items ≡ values.old.items ++ value ∷ []) }
    ensures refused { IfErr result (λ e. IsOutOfMemory e) }
{
    match values.push(value) {
        Ok(()) => Ok(()),
        Err(_) => Err(ParseError::Memory(AllocError)),
    }
}

/// The texts of words.
pub(crate) fn texts<S: AsStr>(alloc: Global, words: &Vec<S>) -> Result<Vec<&str>, AllocError>
    ensures { IfOk result (λ texts. map (λ w. w.now) texts.items ≡ map S.text words.now.items) }
{
    let mut texts = Vec::new(alloc);
    'words: for word in words {
        let text = word.as_str();
        if texts.push(text).is_err() {
            return Err(AllocError);
        }
    }
    Ok(texts)
}
