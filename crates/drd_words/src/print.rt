//! Printed record data.
ghost use Rattle.std.specs.Prelude.{◌≡◌, ◌<◌, ◌∷◌, [], Some, slice_index};
ghost use Rattle.std.specs.Fmt.{WritesOnOk};
ghost use Rattle.base64.specs.Engines.{standard};
ghost use Rattle.base64.specs.GeneralPurpose.{encode_of};
ghost use Rattle.hex.specs.Hex.{encode_lower, lower_digits};
ghost use Rattle.dnw_name.specs.dnw_label.LabelPrint.{octal_print};
ghost use Rattle.drd_words.specs.Print.{escaped_octet, escaped_print, hex_pair, quotation};

use crate::word::CharacterString;
use base64::display::Base64Display;
use base64::engine::general_purpose::STANDARD;
use std::fmt;

impl fmt::Display for CharacterString {
    ghost output = { λ string. Some (escaped_print string) };

    fn fmt<W: fmt::Write>(&self, f: &mut fmt::Formatter<W>) -> fmt::Result {
        fmt_escaped(f, self.as_bytes())
    }
}

/// Writes octets as they stand in a text between quotes: 0x20 to 0x7e as they are, but `"` and `\` behind `\`, other
/// octets as `\` and three octal digits.
pub fn fmt_escaped<W: fmt::Write>(f: &mut fmt::Formatter<W>, octets: &[u8]) -> fmt::Result
    ensures { WritesOnOk W.write_str_gives f.old result (escaped_print octets.now) f.new }
{
    'octets: for octet in octets {
        fmt_octet(f, *octet)?;
    }
    Ok(())
}

/// Writes a string between quotes.
pub fn fmt_quoted<W: fmt::Write>(f: &mut fmt::Formatter<W>, octets: &[u8]) -> fmt::Result
    ensures { WritesOnOk W.write_str_gives f.old result (quotation octets.now) f.new }
{
    f.write_char('"')?;
    fmt_escaped(f, octets)?;
    f.write_char('"')
}

fn fmt_octet<W: fmt::Write>(f: &mut fmt::Formatter<W>, octet: u8) -> fmt::Result
    ensures { WritesOnOk W.write_str_gives f.old result (escaped_octet octet) f.new }
{
    if octet == b'"' || octet == b'\\' {
        f.write_char('\\')?;
        return f.write_char(char::from(octet));
    }
    if b' ' <= octet && octet <= b'~' {
        return f.write_char(char::from(octet));
    }
    f.write_char('\\')?;
    fmt_octal(f, octet)
}

// Writes three octal digits.
fn fmt_octal<W: fmt::Write>(f: &mut fmt::Formatter<W>, octet: u8) -> fmt::Result
    ensures { WritesOnOk W.write_str_gives f.old result (octal_print octet) f.new }
{
    f.write_char(char::from(b'0' + octet / 64))?;
    f.write_char(char::from(b'0' + octet / 8 % 8))?;
    f.write_char(char::from(b'0' + octet % 8))
}

/// Writes octets in base64 (RFC 4648 4), with its padding.
pub fn fmt_base64<W: fmt::Write>(f: &mut fmt::Formatter<W>, octets: &[u8]) -> fmt::Result
    ensures { WritesOnOk W.write_str_gives f.old result (encode_of standard octets.now) f.new }
{
    let shown = Base64Display::new(octets, &STANDARD);
    fmt::Display::fmt(&shown, f)
}

/// Writes octets in hex (RFC 4648 8), in lower case.
pub fn fmt_hex<W: fmt::Write>(f: &mut fmt::Formatter<W>, octets: &[u8]) -> fmt::Result
    ensures { WritesOnOk W.write_str_gives f.old result (encode_lower octets.now) f.new }
{
    'octets: for octet in octets {
        fmt_pair(f, *octet)?;
    }
    Ok(())
}

// Writes the two digits of an octet, the high four bits first.
fn fmt_pair<W: fmt::Write>(f: &mut fmt::Formatter<W>, octet: u8) -> fmt::Result
    ensures { WritesOnOk W.write_str_gives f.old result (hex_pair octet) f.new }
{
    fmt_digit(f, octet / 16)?;
    fmt_digit(f, octet % 16)
}

// Writes a hex digit.
#[tactic(auto, using(crate::proofs::Hex::low_digit, crate::proofs::Hex::high_digit))]
fn fmt_digit<W: fmt::Write>(f: &mut fmt::Formatter<W>, digit: u8) -> fmt::Result
    requires { digit < 16 }
    ensures { WritesOnOk W.write_str_gives f.old result (slice_index lower_digits digit ∷ []) f.new }
{
    if digit < 10 {
        return f.write_char(char::from(b'0' + digit));
    }
    f.write_char(char::from(b'a' - 10 + digit))
}
