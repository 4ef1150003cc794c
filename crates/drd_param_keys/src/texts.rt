//! Lists in texts: entries with commas between them.
ghost use Rattle.std.specs.Prelude.{◌≡◌, ◌⊎◌, ◌∷◌, [], MatchOption, IfOk, IfErr};
ghost use Rattle.std.specs.Fmt.{WritesOnOk};
ghost use Rattle.std.specs.List.{slice_split};
ghost use Rattle.drd_words.specs.Word.{IsOutOfMemory};
ghost use Rattle.drd_param_keys.specs.ListTexts.{is_comma, IsListText, RefusesList, later_listed, listed};

use crate::entry::Entry;
use drd_words::ParseError;
use std::alloc::{AllocError, Global};
use std::fmt;

// Writes entries, each behind a comma.
fn fmt_later<T: Entry, W: fmt::Write>(f: &mut fmt::Formatter<W>, entries: &[T]) -> fmt::Result
    ensures { WritesOnOk W.write_str_gives f.old result (later_listed T.shown entries.now) f.new }
{
    'entries: for entry in entries {
        f.write_char(',')?;
        entry.show(f)?;
    }
    Ok(())
}

/// Writes entries with commas between them.
pub fn fmt_list<T: Entry, W: fmt::Write>(f: &mut fmt::Formatter<W>, entries: &[T]) -> fmt::Result
    ensures { WritesOnOk W.write_str_gives f.old result (listed T.shown entries.now) f.new }
{
    let Some((first, later)) = entries.split_first() else {
        return Ok(());
    };
    first.show(f)?;
    fmt_later(f, later)
}

/// The entries between commas.
pub fn entries_of<T: Entry>(alloc: Global, text: &str) -> Result<Vec<T>, ParseError>
    ensures ok { IfOk result (λ entries. IsListText T.written entries.items text.now) }
    ensures refused { IfErr result (λ e. IsOutOfMemory e ⊎ RefusesList T.written T.unwritten text.now e) }
{
    let mut entries = Vec::new(alloc);
    let mut rest = Some(text);
    'entries: while let Some(left) = rest {
        let (front, behind) = cut_at_comma(left);
        let entry = match T::from_text(alloc, front) {
            Ok(entry) => entry,
            Err(refused) => return Err(refused),
        };
        match entries.push(entry) {
            Ok(()) => rest = behind,
            Err(_) => return Err(ParseError::Memory(AllocError)),
        }
    }
    Ok(entries)
}

// The text before the first comma, and the one behind it, if there is one.
fn cut_at_comma(text: &str) -> (&str, Option<&str>)
    ensures { MatchOption result.1 (slice_split is_comma text.now ≡ result.0.now ∷ [])
        (λ behind. slice_split is_comma text.now ≡ result.0.now ∷ slice_split is_comma behind.now) }
{
    match text.split_once(',') {
        Some((front, behind)) => (front, Some(behind)),
        None => (text, None),
    }
}
