//! The word of a parameter: where its key ends, and what of it is the text of the value.
ghost use Rattle.std.specs.Prelude.{◌≡◌, ◌<◌, ◌⊎◌, length, IfOk, IfErr};
ghost use Rattle.std.specs.List.{before_first, after_first};
ghost use Rattle.drd_words.specs.Data.{IsBase64Text};
ghost use Rattle.drd_words.specs.Word.{IsOutOfMemory};
ghost use Rattle.drd_param_keys.specs.Words.{is_equals, IsUnquoted, RefusesEch};

use base64::DecodeAllocError;
use base64::engine::general_purpose::STANDARD;
use drd_words::ParseError;
use std::alloc::{AllocError, Global};

/// What stands before the first `=`, and behind it.
pub fn parts_of(word: &str) -> (&str, &str)
    ensures key { result.0.now ≡ before_first is_equals word.now }
    ensures value { result.1.now ≡ after_first is_equals word.now }
{
    match word.split_once('=') {
        Some(parts) => parts,
        None => (word, ""),
    }
}

/// Without the quotes that the text stands between.
pub fn unquoted(text: &str) -> &str
    ensures { IsUnquoted text.now result.now }
{
    match text.strip_prefix('"') {
        None => text,
        Some(behind) => match behind.strip_suffix('"') {
            Some(inner) => inner,
            None => text,
        },
    }
}

/// The octets of a text in base64, which isn't empty.
pub fn base64_octets(alloc: Global, text: &str) -> Result<Vec<u8>, ParseError>
    ensures ok { IfOk result (λ octets. (0 < length text.now) × IsBase64Text octets.items text.now) }
    ensures refused { IfErr result (λ e. IsOutOfMemory e ⊎ RefusesEch text.now e) }
{
    if text.is_empty() {
        return Err(ParseError::MissingToken("base64"));
    }
    match STANDARD.decode(alloc, text.as_bytes()) {
        Ok(octets) => Ok(octets),
        Err(DecodeAllocError::OutOfMemory) => Err(ParseError::Memory(AllocError)),
        Err(DecodeAllocError::DecodeError(_)) => Err(ParseError::DataEncoding),
    }
}
