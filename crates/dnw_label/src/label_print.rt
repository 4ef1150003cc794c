//! Printed labels.
ghost use Rattle.std.specs.Prelude.{◌≡◌, true, false, IfOk, OnOk, Some};
ghost use Rattle.std.specs.Fmt.{WritesInCalls, WritesOnOk};
ghost use Rattle.std.specs.String.{string_bytes};
ghost use Rattle.dnw_label.specs.LabelPrint.{is_plain, octal_print, octet_print, label_print};

use crate::label::Label;
use std::alloc::{AllocError, Global};
use std::fmt;
use std::fmt::Write;

impl Label {
    /// The label's text, as it stands in that of a name.
    pub fn to_ascii(&self, alloc: Global) -> Result<String, AllocError>
        ensures { IfOk result (λ text. string_bytes text ≡ label_print self.now) }
    {
        self.to_string(alloc)
    }

    /// The label's text, which is that of its ASCII form.
    pub fn to_utf8(&self, alloc: Global) -> Result<String, AllocError>
        ensures { IfOk result (λ text. string_bytes text ≡ label_print self.now) }
    {
        self.to_ascii(alloc)
    }

    /// Writes the label's text.
    pub fn write_ascii<W: fmt::Write>(&self, f: &mut W) -> fmt::Result
        ensures { OnOk result (WritesInCalls W.write_str_gives f.old (label_print self.now) f.new) }
    {
        f.write(self)
    }
}

impl fmt::Display for Label {
    ghost output = { λ label. Some (label_print label) };

    fn fmt<W: fmt::Write>(&self, f: &mut fmt::Formatter<W>) -> fmt::Result {
        fmt_label(f, self.as_bytes())
    }
}

impl fmt::Debug for Label {
    ghost debug_output = { λ label. Some (label_print label) };

    fn fmt<W: fmt::Write>(&self, f: &mut fmt::Formatter<W>) -> fmt::Result {
        fmt::Display::fmt(self, f)
    }
}

/// Writes the text of a label of these octets.
pub fn fmt_label<W: fmt::Write>(f: &mut fmt::Formatter<W>, label: &[u8]) -> fmt::Result
    ensures { WritesOnOk W.write_str_gives f.old result (label_print label.now) f.new }
{
    let Some((first, rest)) = label.split_first() else {
        return Ok(());
    };
    fmt_octet(f, true, *first)?;
    'octets: for octet in rest {
        fmt_octet(f, false, *octet)?;
    }
    Ok(())
}

fn fmt_octet<W: fmt::Write>(f: &mut fmt::Formatter<W>, first: bool, octet: u8) -> fmt::Result
    ensures { WritesOnOk W.write_str_gives f.old result (octet_print first octet) f.new }
{
    if is_plain(first, octet) {
        return f.write_char(char::from(octet));
    }
    f.write_char('\\')?;
    if b'!' <= octet && octet <= b'~' {
        return f.write_char(char::from(octet));
    }
    fmt_octal(f, octet)
}

// Writes three octal digits.
fn fmt_octal<W: fmt::Write>(f: &mut fmt::Formatter<W>, octet: u8) -> fmt::Result
    ensures { WritesOnOk W.write_str_gives f.old result (octal_print octet) f.new }
{
    f.write_char(char::from(b'0' + octet / 64))?;
    f.write_char(char::from(b'0' + octet / 8 % 8))?;
    f.write_char(char::from(b'0' + octet % 8))
}

fn is_plain(first: bool, octet: u8) -> bool
    ensures { result ≡ is_plain first octet }
{
    let special = if first { b'*' } else { b'-' };
    octet.is_ascii_alphanumeric() || octet == b'_' || octet == special
}
