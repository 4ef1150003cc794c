//! How many octets values have.
ghost use Rattle.std.specs.Prelude.{◌≡◌, ◌<◌, length, MatchOption};
ghost use Rattle.drd_params.specs.Values.{value_octets};

use crate::value::SvcParamValue;
use drd_param_keys::octets_of_all;

impl SvcParamValue {
    /// How many octets the value has, if two octets can tell (RFC 9460 2.2).
    pub fn octet_len(&self) -> Option<u16>
        ensures { MatchOption result (65535 < length (value_octets self.now)) (λ n. n ≡ length (value_octets self.now)) }
    {
        match self {
            SvcParamValue::Mandatory(mandatory) => octets_of_all(&mandatory.0),
            SvcParamValue::Alpn(alpn) => octets_of_all(&alpn.0),
            SvcParamValue::NoDefaultAlpn => Some(0),
            SvcParamValue::Port(_) => Some(2),
            SvcParamValue::Ipv4Hint(hint) => octets_of_all(&hint.0),
            SvcParamValue::EchConfigList(ech) => u16::try_from(ech.0.len()).ok(),
            SvcParamValue::Ipv6Hint(hint) => octets_of_all(&hint.0),
            SvcParamValue::Unknown(unknown) => u16::try_from(unknown.0.len()).ok(),
        }
    }
}
