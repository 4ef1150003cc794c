//! Networks of the labels below `in-addr.arpa.` and `ip6.arpa.` (RFC 1035 3.5, RFC 3596 2.5).
ghost use Rattle.std.specs.Prelude.{ℕ, ◌≢◌, ◌↔◌, IsTrue, slice_index, ◌≡◌, ◌+◌, ◌-◌, ◌*◌, ◌<◌, ◌≤◌, ◌∷◌, [], List, true, length, replicate, decimal, codes, All, IfOk, IfErr, OnErr, IfSome, IfNone};
ghost use Rattle.std.specs.declared.net.ip_addr.IpAddr.{IpAddr as Address};
ghost use Rattle.dnw_label.specs.dnw_codes.Ascii.{digit_zero, plus_sign};
ghost use Rattle.dnw_label.specs.dnw_codes.declared.error.ProtoError.TheVariants.{ParseInt};
ghost use Rattle.dnw_label.specs.Label.{label_eq};
ghost use Rattle.dnw_net.specs.ArpaLabels.{IsBelowSuffix, suffix_label, WriteNumbers, digit_label, hex_digits};
ghost use Rattle.std.specs.Char.{digit_char};

use crate::net::IpNet;
use dnw_label::{LabelIter, ProtoError};
use std::net::{Ipv4Addr, Ipv6Addr};

/// The network of the labels below `in-addr.arpa.`: one for each octet of the prefix, the last one first. Labels that
/// are no such numbers, or too many, are refused by `ParseInt`.
pub fn net_of_v4(labels: LabelIter<'_>) -> Result<IpNet, ProtoError>
    ensures ok { IfOk result (λ net. IsBelowSuffix labels.entry net.addr net.prefix_len × (suffix_label net.addr ≡ codes "in-addr")) }
    ensures refused { OnErr result ((addr : Address) (prefix : ℕ) → suffix_label addr ≡ codes "in-addr"
        → IsBelowSuffix labels.entry addr prefix → ⊥) }
    ensures cause { IfErr result (λ e. e ≡ ParseInt) }
{
    let mut octets = [0u8; 4];
    let Some(count) = read_numbers::<Octets>(labels, &mut octets) else {
        return Err(ProtoError::ParseInt);
    };
    match IpNet::v4(Ipv4Addr::from_octets(octets), 8 * count) {
        Ok(net) => Ok(net),
        Err(_) => Err(ProtoError::ParseInt),
    }
}

/// The network of the labels below `ip6.arpa.`: one for each hexadecimal digit of the prefix, the last one first.
/// Labels that are no such digits, or too many, are refused by `ParseInt`.
pub fn net_of_v6(labels: LabelIter<'_>) -> Result<IpNet, ProtoError>
    ensures ok { IfOk result (λ net. IsBelowSuffix labels.entry net.addr net.prefix_len × (suffix_label net.addr ≡ codes "ip6")) }
    ensures refused { OnErr result ((addr : Address) (prefix : ℕ) → suffix_label addr ≡ codes "ip6"
        → IsBelowSuffix labels.entry addr prefix → ⊥) }
    ensures cause { IfErr result (λ e. e ≡ ParseInt) }
{
    let mut digits = [0u8; 32];
    let Some(count) = read_numbers::<HexDigits>(labels, &mut digits) else {
        return Err(ProtoError::ParseInt);
    };
    let mut octets = [0u8; 16];
    join_digits(&digits, &mut octets);
    match IpNet::v6(Ipv6Addr::from_octets(octets), 4 * count) {
        Ok(net) => Ok(net),
        Err(_) => Err(ProtoError::ParseInt),
    }
}

// The octets of these hexadecimal digits.
fn join_digits(digits: &[u8], octets: &mut [u8])
    requires long { length digits.now ≡ 2 * length octets.old }
    requires few { length octets.old ≤ 16 }
    requires below { All (λ digit. digit ≤ 15) digits.now }
    ensures long { length octets.new ≡ length octets.old }
    ensures value { hex_digits octets.new ≡ digits.now }
{
    'octets: for i in 0..octets.len() {
        octets[i] = 16 * digits[2 * i] + digits[2 * i + 1];
    }
}

// The numbers that labels write, the first on the right, and how many they are; the others stay 0.
fn read_numbers<N: Numerals>(labels: LabelIter<'_>, numbers: &mut [u8]) -> Option<u8>
    requires few { length numbers.old ≤ 32 }
    requires zero { N.written 0 ≡ codes "0" }
    requires zeros { numbers.old ≡ replicate (length numbers.old) 0 }
    ensures long { length numbers.new ≡ length numbers.old }
    ensures ok { IfSome result (λ count. (count ≤ length numbers.old) × WriteNumbers N.written labels.entry (length numbers.old - count) numbers.new) }
    ensures below { IfSome result (λ _. All (λ n. n ≤ N.last) numbers.new) }
    ensures refused { IfNone result ((missing : ℕ) (others : List ℕ) → length others ≡ length numbers.old → All (λ n. n ≤ N.last) others
        → WriteNumbers N.written labels.entry missing others → ⊥) }
{
    let mut left = labels;
    let mut count = 0;
    'labels: while let Some(label) = left.next_back() {
        if count == numbers.len() {
            return None;
        }
        numbers[count] = N::read(label)?;
        count += 1;
    }
    Some(count as u8)
}

// Numbers that labels stand for.
trait Numerals {
    ghost use Rattle.std.specs.Prelude.{ℕ, List, ◌≡◌, ◌≤◌};

    // The greatest number.
    ghost last: { ℕ };

    // How a number is written.
    ghost written: { ℕ → List ℕ };

    // The number of a label, without regard to case.
    fn read(label: &[u8]) -> Option<u8>
        ensures some { IfSome result (λ n. (n ≤ last) × (label_eq label.now (written n) ≡ true)) }
        ensures none { IfNone result ((n : ℕ) → n ≤ last → label_eq label.now (written n) ≡ true → ⊥) };
}

// Octets in decimal, without leading zeros.
struct Octets;

impl Numerals for Octets {
    ghost use Rattle.std.specs.Prelude.{decimal};

    ghost last = { 255 };

    ghost written = { decimal };

    fn read(label: &[u8]) -> Option<u8> {
        if !starts_plainly(label) {
            return None;
        }
        let Ok(text) = str::from_utf8(label) else {
            return None;
        };
        match text.parse() {
            Ok(octet) => Some(octet),
            Err(_) => None,
        }
    }
}

// Whether there is neither a plus sign nor a zero in front of other digits.
fn starts_plainly(label: &[u8]) -> bool
    ensures { IsTrue result ↔ ((slice_index label.now 0 ≢ plus_sign) × (slice_index label.now 0 ≡ digit_zero → length label.now ≡ 1)) }
{
    match label.first() {
        Some(b'+') => false,
        Some(b'0') => label.len() == 1,
        _ => true,
    }
}

// Hexadecimal digits, one in a label.
struct HexDigits;

impl Numerals for HexDigits {
    ghost last = { 15 };

    ghost written = { digit_label };

    fn read(label: &[u8]) -> Option<u8> {
        let (first, rest) = label.split_first()?;
        if !rest.is_empty() {
            return None;
        }
        hex_value(*first)
    }
}

fn hex_value(digit: u8) -> Option<u8>
    ensures some { IfSome result (λ n. (n < 16) × (label_eq (digit ∷ []) (digit_label n) ≡ true)) }
    ensures none { IfNone result ((n : ℕ) → n < 16 → label_eq (digit ∷ []) (digit_label n) ≡ true → ⊥) }
{
    match digit {
        b'0'..=b'9' => Some(digit - b'0'),
        b'a'..=b'f' => Some(digit - b'a' + 10),
        b'A'..=b'F' => Some(digit - b'A' + 10),
        _ => None,
    }
}

/// The digit that stands for a number below 16.
pub fn hex_digit(digit: u8) -> u8
    requires { digit < 16 }
    ensures { result ≡ digit_char digit }
{
    if digit < 10 {
        b'0' + digit
    } else {
        b'a' + (digit - 10)
    }
}
