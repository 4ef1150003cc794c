//! Octets in base64 and hex.
ghost use Rattle.std.specs.Prelude.{◌≡◌, ◌⊎◌, ℕ, List, Ok, IfOk, IfErr, map, codes};
ghost use Rattle.std.specs.List.{flat_map};
ghost use Rattle.std.specs.String.{string_bytes};
ghost use Rattle.hex.specs.Hex.{decode_of, encode_lower};
ghost use Rattle.drd_words.specs.Word.{IsOutOfMemory};
ghost use Rattle.drd_words.specs.Data.{IsBase64Text, IsHexText, IsBase64Words, IsHexWords};
ghost use Rattle.drd_words.specs.Refusals.{RefusesBase64, RefusesHex, RefusesJoined};
ghost use Rattle.drd_words.specs.RefusalsLaws.{by_part, joined_causes};

use crate::words::Words;
use base64::DecodeAllocError;
use base64::engine::general_purpose::STANDARD;
use dnw_lexer::ParseError;
use dnw_name::Name;
use hex::FromHexError;
use std::alloc::{AllocError, Global};

/// Octets that all words that are left write in base64 (RFC 4648 4), joined.
#[derive(Debug, Drop)]
pub struct Base64Data(pub Vec<u8>);

impl Words for Base64Data {
    ghost written = { λ words origin octets. IsBase64Words octets.0.items words };

    ghost refuses = { λ words origin. RefusesJoined (codes "base64") IsBase64Text words };

    ghost laws = { λ words origin. by_part (λ octets. octets.0.items) (joined_causes (codes "base64") IsBase64Text words) };

    fn from_words(
        alloc: Global,
        words: &[&str],
        _origin: Option<&Name>,
    ) -> Result<Base64Data, ParseError> {
        if words.is_empty() {
            return Err(ParseError::MissingToken("base64"));
        }
        let text = joined(alloc, words)?;
        match base64_octets(alloc, text.as_bytes()) {
            Ok(octets) => Ok(Base64Data(octets)),
            Err(refused) => Err(refused),
        }
    }
}

/// Octets that all words that are left write in hex (RFC 4648 8), in either case, joined.
#[derive(Debug, Drop)]
pub struct HexData(pub Vec<u8>);

impl Words for HexData {
    ghost written = { λ words origin octets. IsHexWords octets.0.items words };

    ghost refuses = { λ words origin. RefusesJoined (codes "hex") IsHexText words };

    ghost laws = { λ words origin. by_part (λ octets. octets.0.items) (joined_causes (codes "hex") IsHexText words) };

    fn from_words(
        alloc: Global,
        words: &[&str],
        _origin: Option<&Name>,
    ) -> Result<HexData, ParseError> {
        if words.is_empty() {
            return Err(ParseError::MissingToken("hex"));
        }
        let text = joined(alloc, words)?;
        match HEX.decode(alloc, text.as_str()) {
            Ok(octets) => Ok(HexData(octets)),
            Err(refused) => Err(refused),
        }
    }
}

// The words without anything between them.
fn joined(alloc: Global, words: &[&str]) -> Result<String, ParseError>
    ensures ok { IfOk result (λ text. string_bytes text ≡ flat_map (λ w. w.now) words.now) }
    ensures refused { IfErr result (λ e. IsOutOfMemory e) }
{
    match words.concat(alloc) {
        Ok(text) => Ok(text),
        Err(refused) => Err(ParseError::Memory(refused)),
    }
}

// The octets of a text in base64.
fn base64_octets(alloc: Global, text: &[u8]) -> Result<Vec<u8>, ParseError>
    ensures ok { IfOk result (λ octets. IsBase64Text octets.items text.now) }
    ensures refused { IfErr result (λ e. IsOutOfMemory e
        ⊎ ((octets : List ℕ) → IsBase64Text octets text.now → ⊥)) }
    ensures cause { IfErr result (λ e. IsOutOfMemory e ⊎ RefusesBase64 text.now e) }
{
    match STANDARD.decode(alloc, text) {
        Ok(octets) => Ok(octets),
        Err(DecodeAllocError::OutOfMemory) => Err(ParseError::Memory(AllocError)),
        Err(DecodeAllocError::DecodeError(_)) => Err(ParseError::DataEncoding),
    }
}

/// Octets in hex: written in lower case, read in either.
#[derive(Clone, Copy, Debug)]
pub struct HEX;

impl HEX {
    /// The octets in hex, in lower case.
    pub fn encode(&self, alloc: Global, octets: &[u8]) -> Result<String, AllocError>
        ensures { IfOk result (λ text. string_bytes text ≡ encode_lower octets.now) }
    {
        hex::encode(alloc, octets)
    }

    /// The octets that a text writes in hex, in either case. Refused is an odd number of digits, and what is no
    /// digit.
    pub fn decode(&self, alloc: Global, text: &str) -> Result<Vec<u8>, ParseError>
        ensures ok { IfOk result (λ octets. IsHexText octets.items text.now) }
        ensures refused { IfErr result (λ e. IsOutOfMemory e
            ⊎ ((octets : List ℕ) → IsHexText octets text.now → ⊥)) }
        ensures cause { IfErr result (λ e. IsOutOfMemory e ⊎ RefusesHex text.now e) }
    {
        match hex::decode(alloc, text.as_bytes()) {
            Ok(octets) => Ok(octets),
            Err(FromHexError::OutOfMemory) => Err(ParseError::Memory(AllocError)),
            Err(_) => Err(ParseError::DataEncoding),
        }
    }
}
