//! Printed parameters.
ghost use Rattle.std.specs.Prelude.{Some};
ghost use Rattle.std.specs.Fmt.{WritesOnOk};
ghost use Rattle.drd_params.specs.Print.{param_print, value_behind, value_print};

use crate::value::SvcParamValue;
use drd_param_keys::{SvcParamKey, fmt_base64, fmt_escaped, fmt_list};
use std::fmt;

impl fmt::Display for SvcParamValue {
    ghost output = { λ value. Some (value_print value) };

    /// Writes lists with commas between their entries, configurations in base64, and the octets of other keys as in a text
    /// between quotes.
    fn fmt<W: fmt::Write>(&self, f: &mut fmt::Formatter<W>) -> fmt::Result {
        match self {
            SvcParamValue::Mandatory(mandatory) => fmt_list(f, &mandatory.0),
            SvcParamValue::Alpn(alpn) => fmt_list(f, &alpn.0),
            SvcParamValue::NoDefaultAlpn => Ok(()),
            SvcParamValue::Port(port) => fmt::Display::fmt(port, f),
            SvcParamValue::Ipv4Hint(hint) => fmt_list(f, &hint.0),
            SvcParamValue::EchConfigList(ech) => fmt_base64(f, &ech.0),
            SvcParamValue::Ipv6Hint(hint) => fmt_list(f, &hint.0),
            SvcParamValue::Unknown(unknown) => fmt_escaped(f, &unknown.0),
        }
    }
}

// Writes `=` and a value.
fn fmt_value<W: fmt::Write>(f: &mut fmt::Formatter<W>, value: &SvcParamValue) -> fmt::Result
    ensures { WritesOnOk W.write_str_gives f.old result (value_behind value.now) f.new }
{
    match value {
        SvcParamValue::NoDefaultAlpn => Ok(()),
        _ => {
            f.write_char('=')?;
            fmt::Display::fmt(value, f)
        }
    }
}

/// Writes a key, and behind `=` its value, if it has octets to be told.
pub fn fmt_param<W: fmt::Write>(
    f: &mut fmt::Formatter<W>,
    key: SvcParamKey,
    value: &SvcParamValue,
) -> fmt::Result
    ensures { WritesOnOk W.write_str_gives f.old result (param_print (key, value.now)) f.new }
{
    fmt::Display::fmt(&key, f)?;
    fmt_value(f, value)
}
