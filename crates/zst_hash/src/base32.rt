//! Digits in base 32 (RFC 4648 section 7).
ghost use Rattle.std.specs.Prelude.{◌≡◌, ◌<◌, ◌^◌, get_or, IfOk};
ghost use Rattle.zst_hash.specs.Base32.{base32hex, digit, eight_digits, group_number};

use std::alloc::{AllocError, Global};

/// The octets in base 32 with the extended hex alphabet, in small letters and without padding (RFC 4648 section 7).
pub fn base32hex(alloc: Global, octets: &[u8]) -> Result<Vec<u8>, AllocError>
    ensures { IfOk result (λ text. text.items ≡ base32hex octets.now) }
{
    let mut text = Vec::new(alloc);
    let mut rest = octets;
    'groups: while let Some((group, later)) = rest.split_at_checked(5) {
        text.extend_from_slice(&eight_digits(group))?;
        rest = later;
    }
    let digits = eight_digits(rest);
    text.extend_from_slice(&digits[..(8 * rest.len() + 4) / 5])?;
    Ok(text)
}

// The digits of a group of five octets; where there are fewer, zeros follow.
fn eight_digits(group: &[u8]) -> [u8; 8]
    ensures { result ≡ eight_digits (group_number group.now) }
{
    let number = group_number(group);
    [
        digit(number >> 35),
        digit(number >> 30),
        digit(number >> 25),
        digit(number >> 20),
        digit(number >> 15),
        digit(number >> 10),
        digit(number >> 5),
        digit(number),
    ]
}

// Five octets as a number, the greatest first; where there are fewer, zeros follow.
fn group_number(group: &[u8]) -> u64
    ensures { result ≡ group_number group.now }
{
    let [first, second, third, fourth, fifth] = [
        octet_or_zero(group, 0),
        octet_or_zero(group, 1),
        octet_or_zero(group, 2),
        octet_or_zero(group, 3),
        octet_or_zero(group, 4),
    ];
    (((first * 256 + second) * 256 + third) * 256 + fourth) * 256 + fifth
}

// An octet of a group, or zero.
fn octet_or_zero(group: &[u8], place: usize) -> u64
    ensures value { result ≡ get_or group.now place 0 }
    ensures small { result < 2 ^ 8 }
{
    match group.get(place) {
        Some(octet) => u64::from(*octet),
        None => 0,
    }
}

// The digit of the lowest five bits: 0 to 9, then a to v.
fn digit(number: u64) -> u8
    ensures { result ≡ digit number }
{
    let value = (number % 32) as u8;
    if value < 10 {
        b'0' + value
    } else {
        b'a' + value - 10
    }
}
