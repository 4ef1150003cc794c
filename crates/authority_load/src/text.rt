//! Names and record data from their texts.

ghost use Rattle.std.specs.Prelude.{◌≡◌, ◌∷◌, [], ℕ, List, Some, IfOk, IfSome, MatchOption};
ghost use Rattle.std.specs.Net.Grammar.{IsIpv4Text};
ghost use Rattle.zst_zone.specs.dnw_codes.declared.record_type.RecordType.TheVariants as types;
ghost use Rattle.zst_zone.specs.dnw_name.NameText.{NameText};
ghost use Rattle.zst_zone.specs.drd_rdata.Types.{type_of};
ghost use Rattle.authority_load.specs.ZoneText.{IsDataText, IsOwnerText, IsTtlField, ReadsText, type_of_text, words_of};

use crate::words::first_word;
use dnw_lexer::{ParseError, parse_ttl};
use std::alloc::Global;
use std::mem;
use std::net::Ipv4Addr;
use zst_zone::{Name, ProtoError, RData, RecordType};

/// Why a text was not read.
#[derive(Clone, Copy, Debug)]
pub enum TextError {
    /// The text has no such value.
    Malformed,
    /// An allocation failed.
    OutOfMemory,
}

impl From<ProtoError> for TextError {
    ghost use Rattle.authority_load.specs.ZoneText.{TellsTextCause};

    ghost from_gives = { TellsTextCause };

    fn from(cause: ProtoError) -> TextError {
        match cause {
            ProtoError::Memory(_) => TextError::OutOfMemory,
            _ => TextError::Malformed,
        }
    }
}

/// The name of a word.
fn parse_name(alloc: Global, word: &[u8]) -> Result<Name, TextError>
    ensures { ReadsText (NameText word.now) result }
{
    let name = Name::from_ascii_bytes(alloc, word)?;
    Ok(name)
}

/// The fully qualified name of a word.
pub fn parse_owner(alloc: Global, word: &[u8]) -> Result<Name, TextError>
    ensures { ReadsText (IsOwnerText word.now) result }
{
    let name = parse_name(alloc, word)?;
    if name.is_fqdn() {
        Ok(name)
    } else {
        Err(TextError::Malformed)
    }
}

/// The seconds of a TTL. It allocates nothing.
pub fn ttl_seconds(word: &str) -> Option<u32>
    ensures { MatchOption result ((n : ℕ) → IsTtlField word.now n → ⊥) (IsTtlField word.now) }
{
    match parse_ttl(word) {
        Ok(seconds) => Some(seconds),
        Err(_) => None,
    }
}

/// The type of a word: a name in any case, or `TYPE` and its number.
pub fn parse_type(alloc: Global, word: &str) -> Result<RecordType, TextError>
    ensures { ReadsText (λ record_type. type_of_text word.now ≡ Some record_type) result }
{
    if let Some(record_type) = usual_type(word) {
        return Ok(record_type);
    }
    let Ok(mut name) = String::from_str(alloc, word) else {
        return Err(TextError::OutOfMemory);
    };
    name.make_ascii_uppercase();
    let read = name.as_str().parse();
    mem::drop(name);
    match read {
        Ok(record_type) => Ok(record_type),
        Err(_) => Err(TextError::Malformed),
    }
}

// The type of the words that most lines have. It allocates nothing.
fn usual_type(word: &str) -> Option<RecordType>
    ensures { IfSome result (λ record_type. type_of_text word.now ≡ Some record_type) }
{
    if word == "A" {
        Some(RecordType::A)
    } else if word == "AAAA" {
        Some(RecordType::AAAA)
    } else if word == "NS" {
        Some(RecordType::NS)
    } else if word == "CNAME" {
        Some(RecordType::CNAME)
    } else if word == "MX" {
        Some(RecordType::MX)
    } else if word == "TXT" {
        Some(RecordType::TXT)
    } else if word == "SOA" {
        Some(RecordType::SOA)
    } else {
        None
    }
}

/// The data of a type. Names stay as they are written.
pub fn parse_rdata(alloc: Global, record_type: RecordType, text: &str) -> Result<RData, TextError>
    ensures value { ReadsText (IsDataText record_type text.now) result }
    ensures kind { IfOk result (λ value. type_of value ≡ record_type) }
{
    match record_type {
        RecordType::A => parse_address(alloc, text),
        _ => parse_words(alloc, record_type, text),
    }
}

/// The data of an address. A single word, as nearly all are, needs no lexer.
fn parse_address(alloc: Global, text: &str) -> Result<RData, TextError>
    ensures value { ReadsText (IsDataText types.A text.now) result }
    ensures kind { IfOk result (λ value. type_of value ≡ types.A) }
{
    match lone_address(text) {
        Some(address) => Ok(RData::from(address)),
        None => parse_words(alloc, RecordType::A, text),
    }
}

/// The address of a text of a single word.
fn lone_address(text: &str) -> Option<Ipv4Addr>
    ensures { MatchOption result ((word : List ℕ) (address : Ipv4Addr) → words_of text.now ≡ word ∷ [] → IsIpv4Text word address → ⊥)
        (λ address. (word : List ℕ) × (words_of text.now ≡ word ∷ []) × IsIpv4Text word address) }
{
    let (word, behind) = first_word(text)?;
    if first_word(behind).is_some() {
        return None;
    }
    match word.parse() {
        Ok(address) => Some(address),
        Err(_) => None,
    }
}

/// The data of the words of a text. Names stay as they are written.
fn parse_words(alloc: Global, record_type: RecordType, text: &str) -> Result<RData, TextError>
    ensures value { ReadsText (IsDataText record_type text.now) result }
    ensures kind { IfOk result (λ value. type_of value ≡ record_type) }
{
    match RData::try_from_str(alloc, record_type, text) {
        Ok(rdata) => Ok(rdata),
        Err(ParseError::Memory(_)) => Err(TextError::OutOfMemory),
        Err(_) => Err(TextError::Malformed),
    }
}
