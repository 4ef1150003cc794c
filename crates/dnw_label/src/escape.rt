//! Octets in texts (RFC 1035 section 5.1, with octal digits behind a backslash).
ghost use Rattle.std.specs.Prelude.{◌≡◌, ◌<◌, ◌&&◌, ℕ, List, MatchOption, true};
ghost use Rattle.std.specs.Option.{SomeIff};
ghost use Rattle.dnw_codes.specs.Ascii.{is_octal, octal_value};
ghost use Rattle.dnw_label.specs.LabelText.{EscapeText, OctetText};

/// The octet that a text begins with, and the text behind it. An octet other than `\` stands for itself. Behind `\` a
/// character that is no digit does, and three octal digits stand for the octet of their number; other digits stand for none.
pub fn octet_at(text: &[u8]) -> Option<(u8, &[u8])>
    ensures { MatchOption result ((octet : ℕ) → (behind : List ℕ) → OctetText text.now octet behind → ⊥)
        (λ found. OctetText text.now found.0 found.1.now) }
{
    let (first, rest) = text.split_first()?;
    match *first {
        b'\\' => escaped_octet(rest),
        plain => Some((plain, rest)),
    }
}

// The octet that stands behind a backslash, and the text behind it.
fn escaped_octet(text: &[u8]) -> Option<(u8, &[u8])>
    ensures { MatchOption result ((octet : ℕ) → (behind : List ℕ) → EscapeText text.now octet behind → ⊥)
        (λ found. EscapeText text.now found.0 found.1.now) }
{
    let (first, rest) = text.split_first()?;
    if !first.is_ascii_digit() {
        return Some((*first, rest));
    }
    let (second, rest) = rest.split_first()?;
    let (third, rest) = rest.split_first()?;
    let octet = octal_octet(*first, *second, *third)?;
    Some((octet, rest))
}

// The octet of three octal digits.
fn octal_octet(a: u8, b: u8, c: u8) -> Option<u8>
    ensures { SomeIff result (((is_octal a && is_octal b && is_octal c) ≡ true) × (octal_value a b c < 256)) (octal_value a b c) }
{
    if !(is_octal_digit(a) && is_octal_digit(b) && is_octal_digit(c)) {
        return None;
    }
    let octet = 64 * u16::from(a - b'0') + 8 * u16::from(b - b'0') + u16::from(c - b'0');
    u8::try_from(octet).ok()
}

fn is_octal_digit(c: u8) -> bool
    ensures { result ≡ is_octal c }
{
    b'0' <= c && c <= b'7'
}
