//! Values that are lists: their entries in octets, one behind the other, and the text of each.
ghost use Rattle.std.specs.Prelude.{◌≡◌, ◌++◌, ◌⊎◌, ◌<◌, List, length, All, IfOk, IfErr, MatchOption};
ghost use Rattle.std.specs.List.{flat_map};
ghost use Rattle.std.specs.String.{string_bytes};
ghost use Rattle.dnw_encoder.specs.dnw_decoder.Reading.{IsWantOfMemory};
ghost use Rattle.dnw_encoder.specs.dnw_decoder.Octets.{octets_16};
ghost use Rattle.drd_param_keys.specs.Keys.{key_number, key_text, IsKey};
ghost use Rattle.drd_param_keys.specs.Entries.{IsShortOf, IsShortText, RefusesNext, RefusesText, text_octets};
ghost use Rattle.drd_param_keys.specs.Writing.{IsLongText};
ghost use Rattle.drd_param_keys.specs.Texts.{IsKeyText, IsProtocolText, RefusesKeyText, RefusesProtocolText};

use crate::key::SvcParamKey;
use dnw_encoder::BinEncoder;
use drd_words::{DecodeError, ParseError, ProtoError};
use std::alloc::Global;
use std::fmt;

/// What a value is a list of. Its octets tell where it ends, and it takes at least one.
pub trait Entry: Sized + Drop {
    ghost use Rattle.std.specs.Prelude.{◌≡◌, ◌++◌, ◌<◌, ◌⊎◌, ℕ, List, length, IfOk, IfErr, OnOk};
    ghost use Rattle.std.specs.Fmt.{WritesOnOk};
    ghost use Rattle.drd_words.specs.dnw_codes.declared.error.DecodeError.{DecodeError as Error};
    ghost use Rattle.drd_words.specs.dnw_codes.declared.error.ParseError.{ParseError as TextError};
    ghost use Rattle.drd_words.specs.dnw_codes.declared.error.ProtoError.{ProtoError as WriteError};
    ghost use Rattle.dnw_encoder.specs.dnw_decoder.Reading.{IsWantOfMemory};
    ghost use Rattle.dnw_encoder.specs.Effects.{IsRefusal, WritesOctets, Writes};
    ghost use Rattle.dnw_encoder.specs.Encoders.{state};
    ghost use Rattle.drd_param_keys.specs.Writing.{EndsWithin};
    ghost use Rattle.drd_words.specs.Refusals.{AreCauses};
    ghost use Rattle.drd_words.specs.Word.{IsOutOfMemory};

    // The octets of an entry.
    ghost spelled: { Self → List ℕ };

    // What holds of an entry that is read.
    ghost valid: { Self → Type 0 };

    // Why octets begin with none.
    ghost refuses: { List ℕ → Error → Type 0 };

    // Why an entry can't be written.
    ghost too_long: { Self → WriteError → Type 0 };

    // The text of an entry.
    ghost shown: { Self → List ℕ };

    // The texts that stand for an entry.
    ghost written: { Self → List ℕ → Type 0 };

    // Why a text stands for none.
    ghost unwritten: { List ℕ → TextError → Type 0 };

    // An entry takes at least one octet, and ends where every other one would that begins there.
    ghost laws: { ((entry : Self) → 0 < length (spelled entry))
        × ((a b : Self) (xs ys : List ℕ) → spelled a ++ xs ≡ spelled b ++ ys → xs ≡ ys) };

    // A text tells how many octets an entry takes.
    ghost told: { (a b : Self) (text : List ℕ) → written a text → written b text → length (spelled a) ≡ length (spelled b) };

    // A text is refused only where it stands for no entry, and never for want of memory.
    ghost causes: { (text : List ℕ) → AreCauses (λ (entry : Self). written entry text) (unwritten text) };

    /// The entry that octets begin with, and those behind it.
    fn split(alloc: Global, octets: &[u8]) -> Result<(Self, &[u8]), DecodeError>
        ensures ok { IfOk result (λ found. octets.now ≡ spelled found.0 ++ found.1.now) }
        ensures valid { IfOk result (λ found. valid found.0) }
        ensures refused { IfErr result (λ e. IsWantOfMemory e
            ⊎ (refuses octets.now e × ((entry : Self) (behind : List ℕ) → octets.now ≡ spelled entry ++ behind → ⊥))) };

    /// Writes the entry.
    fn emit_entry(&self, encoder: &mut BinEncoder<'_>) -> Result<(), ProtoError>
        ensures same_reference { encoder.new.buffer.ghost_name ≡ encoder.old.buffer.ghost_name }
        ensures writes { Writes (state encoder.old) (state encoder.new) }
        ensures within { EndsWithin (state encoder.old) (state encoder.new) }
        ensures ok { OnOk result (WritesOctets (spelled self.now) (state encoder.old) (state encoder.new)) }
        ensures refused { IfErr result (λ e. IsRefusal (state encoder.old) (length (spelled self.now)) e ⊎ too_long self.now e) };

    /// How many octets the entry takes.
    fn octet_len(&self) -> usize
        ensures { result ≡ length (spelled self.now) };

    /// The entry that a text stands for.
    fn from_text(alloc: Global, text: &str) -> Result<Self, ParseError>
        ensures ok { IfOk result (λ entry. written entry text.now) }
        ensures refused { IfErr result (λ e. IsOutOfMemory e ⊎ ((entry : Self) → written entry text.now → ⊥)) }
        ensures cause { IfErr result (λ e. IsOutOfMemory e ⊎ unwritten text.now e) };

    /// Writes the entry's text.
    fn show<W: fmt::Write>(&self, f: &mut fmt::Formatter<W>) -> fmt::Result
        ensures { WritesOnOk W.write_str_gives f.old result (shown self.now) f.new };
}

impl Entry for SvcParamKey {
    ghost use Rattle.drd_param_keys.specs.EntryLaws.{key_laws, key_told};
    ghost use Rattle.drd_param_keys.specs.TextsLaws.{key_causes};

    ghost spelled = { λ key. octets_16 (key_number key) };

    ghost valid = { IsKey };

    ghost refuses = { IsShortOf 2 };

    ghost too_long = { λ key e. ⊥ };

    ghost shown = { key_text };

    ghost written = { IsKeyText };

    ghost unwritten = { RefusesKeyText };

    ghost laws = { key_laws };

    ghost told = { key_told };

    ghost causes = { key_causes };

    fn split(_alloc: Global, octets: &[u8]) -> Result<(SvcParamKey, &[u8]), DecodeError> {
        let Some((high, behind)) = octets.split_first() else {
            return Err(DecodeError::InsufficientBytes);
        };
        let Some((low, behind)) = behind.split_first() else {
            return Err(DecodeError::InsufficientBytes);
        };
        Ok((SvcParamKey::from(u16::from_be_bytes([*high, *low])), behind))
    }

    fn emit_entry(&self, encoder: &mut BinEncoder<'_>) -> Result<(), ProtoError> {
        match encoder.emit_u16(u16::from(*self)) {
            Ok(()) => Ok(()),
            Err(refused) => Err(refused),
        }
    }

    fn octet_len(&self) -> usize {
        2
    }

    fn from_text(_alloc: Global, text: &str) -> Result<SvcParamKey, ParseError> {
        match text.parse::<SvcParamKey>() {
            Ok(key) => Ok(key),
            Err(refused) => Err(refused),
        }
    }

    fn show<W: fmt::Write>(&self, f: &mut fmt::Formatter<W>) -> fmt::Result {
        fmt::Display::fmt(self, f)
    }
}

impl Entry for String {
    ghost use Rattle.drd_param_keys.specs.EntryLaws.{string_laws, string_told};
    ghost use Rattle.drd_param_keys.specs.TextsLaws.{protocol_causes};

    ghost spelled = { text_octets };

    ghost valid = { IsShortText };

    ghost refuses = { RefusesText };

    ghost too_long = { IsLongText };

    ghost shown = { λ text. string_bytes text };

    ghost written = { IsProtocolText };

    ghost unwritten = { RefusesProtocolText };

    ghost laws = { string_laws };

    ghost told = { string_told };

    ghost causes = { protocol_causes };

    fn split(alloc: Global, octets: &[u8]) -> Result<(String, &[u8]), DecodeError> {
        let Some((len, behind)) = octets.split_first() else {
            return Err(DecodeError::InsufficientBytes);
        };
        let Some((text, behind)) = behind.split_at_checked(usize::from(*len)) else {
            return Err(DecodeError::InsufficientBytes);
        };
        let Ok(text) = str::from_utf8(text) else {
            return Err(DecodeError::Utf8);
        };
        match String::from_str(alloc, text) {
            Ok(text) => Ok((text, behind)),
            Err(_) => Err(DecodeError::Memory),
        }
    }

    fn emit_entry(&self, encoder: &mut BinEncoder<'_>) -> Result<(), ProtoError> {
        match encoder.emit_character_data(self.as_bytes()) {
            Ok(()) => Ok(()),
            Err(refused) => Err(refused),
        }
    }

    fn octet_len(&self) -> usize {
        String::len(self) + 1
    }

    fn from_text(alloc: Global, text: &str) -> Result<String, ParseError> {
        if text.is_empty() {
            return Err(ParseError::Message("a protocol has at least one octet"));
        }
        if text.len() > 255 {
            return Err(ParseError::Message("a protocol has at most 255 octets"));
        }
        match String::from_str(alloc, text) {
            Ok(text) => Ok(text),
            Err(refused) => Err(ParseError::Memory(refused)),
        }
    }

    fn show<W: fmt::Write>(&self, f: &mut fmt::Formatter<W>) -> fmt::Result {
        f.write_str(self)
    }
}

/// The entries that octets hold, one behind the other.
pub fn read_all<T: Entry>(alloc: Global, octets: &[u8]) -> Result<Vec<T>, DecodeError>
    ensures ok { IfOk result (λ found. flat_map T.spelled found.items ≡ octets.now) }
    ensures valid { IfOk result (λ found. All T.valid found.items) }
    ensures refused { IfErr result (λ e. IsWantOfMemory e
        ⊎ (RefusesNext T.spelled T.refuses octets.now e
        × ((entries : List T) → flat_map T.spelled entries ≡ octets.now → ⊥))) }
{
    let mut found = Vec::new(alloc);
    let mut left = octets;
    'entries: while !left.is_empty() {
        let (entry, behind) = match T::split(alloc, left) {
            Ok(split) => split,
            Err(refused) => return Err(refused),
        };
        match found.push(entry) {
            Ok(()) => left = behind,
            Err(_) => return Err(DecodeError::Memory),
        }
    }
    Ok(found)
}

/// How many octets entries take, one behind the other, if two octets can tell.
pub fn octets_of_all<T: Entry>(entries: &[T]) -> Option<u16>
    ensures { MatchOption result (65535 < length (flat_map T.spelled entries.now)) (λ n. n ≡ length (flat_map T.spelled entries.now)) }
{
    let mut total: u16 = 0;
    'entries: for entry in entries {
        let Ok(len) = u16::try_from(entry.octet_len()) else {
            return None;
        };
        match total.checked_add(len) {
            Some(sum) => total = sum,
            None => return None,
        }
    }
    Some(total)
}
