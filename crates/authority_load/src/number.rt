//! Numbers in decimal digits.

ghost use Rattle.std.specs.Prelude.{◌≡◌, IfErr};
ghost use Rattle.authority_load.specs.ZoneText.{IsNumberText, ReadsText};

use crate::text::TextError;
use std::str;

/// The number of a text, of 64 bits.
pub fn parse_u64(text: &[u8]) -> Result<u64, TextError>
    ensures number { ReadsText (IsNumberText 64 text.now) result }
    ensures only { IfErr result (λ e. e ≡ TextError.Malformed) }
{
    match str::from_utf8(text) {
        Ok(digits) => parse_digits(digits),
        Err(_) => Err(TextError::Malformed),
    }
}

// The number of digits, of 64 bits.
fn parse_digits(digits: &str) -> Result<u64, TextError>
    ensures number { ReadsText (IsNumberText 64 digits.now) result }
    ensures only { IfErr result (λ e. e ≡ TextError.Malformed) }
{
    if digits.as_bytes().first() == Some(&b'+') {
        return Err(TextError::Malformed);
    }
    match digits.parse() {
        Ok(number) => Ok(number),
        Err(_) => Err(TextError::Malformed),
    }
}
