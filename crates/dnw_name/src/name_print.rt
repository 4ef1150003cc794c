//! Printed names.
ghost use Rattle.std.specs.Prelude.{◌≡◌, ◌∷◌, IfOk, All, Some};
ghost use Rattle.std.specs.Fmt.{WritesOnOk};
ghost use Rattle.std.specs.String.{string_bytes};
ghost use Rattle.dnw_net.specs.dnw_codes.Ascii.{full_stop};
ghost use Rattle.dnw_net.specs.dnw_label.LabelPrint.{label_print};
ghost use Rattle.dnw_net.specs.dnw_label.LabelText.{IsTextLabel};
ghost use Rattle.dnw_name.specs.NameText.{NameText};
ghost use Rattle.dnw_name.specs.NamePrint.{labels_print, name_print};

use crate::lower_name::LowerName;
use crate::name::Name;
use dnw_net::fmt_label;
use std::alloc::{AllocError, Global};
use std::fmt;

impl Name {
    /// The name's text (RFC 1035 5.1). Where each label is one that `Label::from_ascii` accepts, `from_ascii`
    /// reads this very name from it.
    pub fn to_ascii(&self, alloc: Global) -> Result<String, AllocError>
        ensures text { IfOk result (λ text. string_bytes text ≡ name_print self.now) }
        ensures read_back { IfOk result (λ text. All IsTextLabel self.now.labels → NameText (string_bytes text) self.now) }
    {
        // Asked for its length, the name shows that it is one.
        let _octets = self.len();
        self.to_string(alloc)
    }

    /// The name's text, which is that of its ASCII form.
    pub fn to_utf8(&self, alloc: Global) -> Result<String, AllocError>
        ensures text { IfOk result (λ text. string_bytes text ≡ name_print self.now) }
        ensures read_back { IfOk result (λ text. All IsTextLabel self.now.labels → NameText (string_bytes text) self.now) }
    {
        self.to_ascii(alloc)
    }
}

impl fmt::Display for Name {
    ghost output = { λ name. Some (name_print name) };

    fn fmt<W: fmt::Write>(&self, f: &mut fmt::Formatter<W>) -> fmt::Result {
        fmt_labels(f, self)?;
        if self.is_fqdn() {
            f.write_char('.')?;
        }
        Ok(())
    }
}

impl fmt::Debug for Name {
    ghost debug_output = { λ name. Some (name_print name) };

    fn fmt<W: fmt::Write>(&self, f: &mut fmt::Formatter<W>) -> fmt::Result {
        fmt::Display::fmt(self, f)
    }
}

impl fmt::Display for LowerName {
    ghost output = { λ name. Some (name_print name) };

    fn fmt<W: fmt::Write>(&self, f: &mut fmt::Formatter<W>) -> fmt::Result {
        let name: &Name = self;
        fmt::Display::fmt(name, f)
    }
}

impl fmt::Debug for LowerName {
    ghost debug_output = { λ name. Some (name_print name) };

    fn fmt<W: fmt::Write>(&self, f: &mut fmt::Formatter<W>) -> fmt::Result {
        let name: &Name = self;
        fmt::Debug::fmt(name, f)
    }
}

// Writes the labels, with a dot before each but the first.
fn fmt_labels<W: fmt::Write>(f: &mut fmt::Formatter<W>, name: &Name) -> fmt::Result
    ensures { WritesOnOk W.write_str_gives f.old result (labels_print name.now.labels) f.new }
{
    let mut labels = name.iter();
    let Some(first) = labels.next() else {
        return Ok(());
    };
    fmt_label(f, first)?;
    'labels: while let Some(label) = labels.next() {
        fmt_later_label(f, label)?;
    }
    Ok(())
}

// Writes a dot and a label.
fn fmt_later_label<W: fmt::Write>(f: &mut fmt::Formatter<W>, label: &[u8]) -> fmt::Result
    ensures { WritesOnOk W.write_str_gives f.old result (full_stop ∷ label_print label.now) f.new }
{
    f.write_char('.')?;
    fmt_label(f, label)
}
