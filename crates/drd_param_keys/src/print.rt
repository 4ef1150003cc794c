//! Printed lists.
ghost use Rattle.std.specs.Prelude.{Some};
ghost use Rattle.std.specs.String.{string_bytes};
ghost use Rattle.base64.specs.Engines.{standard};
ghost use Rattle.base64.specs.GeneralPurpose.{encode_of};
ghost use Rattle.drd_param_keys.specs.drd_words.Print.{escaped_print};
ghost use Rattle.drd_param_keys.specs.Keys.{key_text};
ghost use Rattle.drd_param_keys.specs.ListTexts.{listed};

use crate::entry::Entry;
use crate::lists::{Alpn, EchConfigList, IpHint, Mandatory, Unknown};
use crate::texts::fmt_list;
use drd_words::{fmt_base64, fmt_escaped};
use std::fmt;

impl fmt::Display for Mandatory {
    ghost output = { λ mandatory. Some (listed key_text mandatory.0.items) };

    /// Writes the keys with commas between them.
    fn fmt<W: fmt::Write>(&self, f: &mut fmt::Formatter<W>) -> fmt::Result {
        let keys = &self.0;
        fmt_list(f, keys)
    }
}

impl fmt::Display for Alpn {
    ghost output = { λ alpn. Some (listed string_bytes alpn.0.items) };

    /// Writes the protocols as they are, with commas between them.
    fn fmt<W: fmt::Write>(&self, f: &mut fmt::Formatter<W>) -> fmt::Result {
        let protocols = &self.0;
        fmt_list(f, protocols)
    }
}

impl<T: Entry> fmt::Display for IpHint<T> {
    ghost output = { λ hint. Some (listed T.shown hint.0.items) };

    /// Writes the addresses with commas between them.
    fn fmt<W: fmt::Write>(&self, f: &mut fmt::Formatter<W>) -> fmt::Result {
        let addresses = &self.0;
        fmt_list(f, addresses)
    }
}

impl fmt::Display for EchConfigList {
    ghost output = { λ ech. Some (encode_of standard ech.0.items) };

    /// Writes the octets in base64.
    fn fmt<W: fmt::Write>(&self, f: &mut fmt::Formatter<W>) -> fmt::Result {
        fmt_base64(f, &self.0)
    }
}

impl fmt::Display for Unknown {
    ghost output = { λ unknown. Some (escaped_print unknown.0.items) };

    /// Writes the octets as in a text between quotes.
    fn fmt<W: fmt::Write>(&self, f: &mut fmt::Formatter<W>) -> fmt::Result {
        fmt_escaped(f, &self.0)
    }
}
