//! Times to live in texts.
ghost use Rattle.std.specs.Prelude.{◌≡◌, ◌<◌, ◌^◌, ◌+◌, ◌*◌, ℕ, List, IfOk, IfErr, MatchOption, true};
ghost use Rattle.dnw_codes.specs.declared.error.ParseError.TheVariants.{ParseTime};
ghost use Rattle.std.specs.Char.{is_ascii_digit, digit_value};
ghost use Rattle.std.specs.Option.{SomeIff};
ghost use Rattle.dnw_lexer.specs.Ttl.{TtlText, DigitsAt, NumberAt, unit_seconds};

use dnw_codes::{ParseError, ParseResult};

/// The seconds of a text: decimal digits, or groups of digits and one of S, M, H, D and W in either case, for
/// seconds, minutes, hours, days and weeks, which are added. The last group may lack its letter. Refused by
/// `ParseTime` is every other text, and a sum above 2^32 - 1.
pub fn parse_ttl(ttl_str: &str) -> ParseResult<u32>
    ensures ok { IfOk result (λ n. TtlText ttl_str.now n) }
    ensures refused { IfErr result (λ e. (e ≡ ParseTime) × ((n : ℕ) → TtlText ttl_str.now n → n < 2 ^ 32 → ⊥)) }
{
    match ttl_seconds(ttl_str.as_bytes()) {
        Some(seconds) => Ok(seconds),
        None => Err(ParseError::ParseTime),
    }
}

// The seconds of a text, if it is a time to live that 32 bits hold.
fn ttl_seconds(text: &[u8]) -> Option<u32>
    ensures { MatchOption result ((n : ℕ) → TtlText text.now n → n < 2 ^ 32 → ⊥) (λ n. TtlText text.now n) }
{
    let mut seconds = 0;
    let mut rest = text;
    'groups: loop {
        let (number, behind) = number_at(rest)?;
        let Some((letter, later)) = behind.split_first() else {
            return with_group(seconds, number, 1);
        };
        let unit = unit_seconds(*letter)?;
        seconds = with_group(seconds, number, unit)?;
        if later.is_empty() {
            return Some(seconds);
        }
        rest = later;
    }
}

// The seconds and those of one group more, if 32 bits hold them.
fn with_group(seconds: u32, number: u32, unit: u32) -> Option<u32>
    ensures { SomeIff result (seconds + number * unit < 2 ^ 32) (seconds + number * unit) }
{
    let group = number.checked_mul(unit)?;
    seconds.checked_add(group)
}

// The seconds of a unit.
fn unit_seconds(letter: u8) -> Option<u32>
    ensures { result ≡ unit_seconds letter }
{
    match letter {
        b'S' | b's' => Some(1),
        b'M' | b'm' => Some(60),
        b'H' | b'h' => Some(3_600),
        b'D' | b'd' => Some(86_400),
        b'W' | b'w' => Some(604_800),
        _ => None,
    }
}

// The number that a text begins with, and what stands behind its digits.
fn number_at(text: &[u8]) -> Option<(u32, &[u8])>
    ensures { MatchOption result ((n : ℕ) → (behind : List ℕ) → NumberAt text.now n behind → n < 2 ^ 32 → ⊥)
        (λ found. NumberAt text.now found.0 found.1.now) }
{
    let (value, behind) = digits_at(text)?;
    if behind.len() < text.len() {
        Some((value, behind))
    } else {
        None
    }
}

// The number of the digits at a text's front, if 32 bits hold it, and what stands behind them.
fn digits_at(text: &[u8]) -> Option<(u32, &[u8])>
    ensures { MatchOption result ((n : ℕ) → (behind : List ℕ) → NumberAt text.now n behind → n < 2 ^ 32 → ⊥)
        (λ found. DigitsAt text.now found.0 found.1.now) }
{
    let mut value = 0;
    let mut rest = text;
    'digits: while let Some((digit, behind)) = rest.split_first() {
        if !digit.is_ascii_digit() {
            return Some((value, rest));
        }
        value = with_digit(value, *digit)?;
        rest = behind;
    }
    Some((value, rest))
}

// A number with one digit more, if 32 bits hold it.
fn with_digit(value: u32, digit: u8) -> Option<u32>
    requires { is_ascii_digit digit ≡ true }
    ensures { SomeIff result (value * 10 + digit_value digit < 2 ^ 32) (value * 10 + digit_value digit) }
{
    let ten = value.checked_mul(10)?;
    ten.checked_add(u32::from(digit - b'0'))
}
