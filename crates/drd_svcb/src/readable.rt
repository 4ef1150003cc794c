//! Bindings of services, and their parameters (RFC 9460 2.2).
ghost use Rattle.std.specs.Prelude.{◌≡◌, ◌↔◌, ◌<◌, IsTrue, length};
ghost use Rattle.drd_param_keys.specs.Keys.{IsKey, key_number, key_of};
ghost use Rattle.drd_params.specs.Params.{AreParams, IsParam};
ghost use Rattle.drd_param_keys.specs.Entries.{IsShortText};
ghost use Rattle.drd_params.specs.Values.{IsUnknown, IsValueOf, value_octets};
ghost use Rattle.drd_param_keys.specs.declared.key.SvcParamKey.TheVariants as of;
ghost use Rattle.drd_params.specs.drd_fields.Readable.{EndsAtRoot};
ghost use Rattle.drd_svcb.specs.Readable.{IsService};
ghost use Rattle.std.specs.List.{All};

use crate::svcb::SVCB;
use drd_params::{Name, SvcParamKey, SvcParamValue};

// Whether a name ends at the root, as each name in a message does (RFC 1035 3.1).
fn ends_at_root(name: &Name) -> bool
    ensures { IsTrue result ↔ EndsAtRoot name.now }
{
    // That its labels are those of a name is so of every name.
    let _labels = name.num_labels();
    name.is_fqdn()
}

/// Whether the target ends at the root, and the parameters are some of a record.
pub fn can_read_service(svcb: &SVCB) -> bool
    ensures { IsTrue result ↔ IsService svcb.now }
{
    ends_at_root(&svcb.target_name) && are_params(&svcb.svc_params)
}

/// Whether keys rise strictly, each with a value of its own.
pub fn are_params(params: &[(SvcParamKey, SvcParamValue)]) -> bool
    ensures { IsTrue result ↔ AreParams params.now }
{
    let mut least = 0;
    let mut rest = params;
    'params: while let Some((param, later)) = rest.split_first() {
        if !is_param(param) {
            return false;
        }
        let number = u32::from(u16::from(param.0));
        if number < least {
            return false;
        }
        least = number + 1;
        rest = later;
    }
    true
}

// Whether the key is that of its number, and has a value of its own that two octets can count.
fn is_param(param: &(SvcParamKey, SvcParamValue)) -> bool
    ensures { IsTrue result ↔ IsParam param.now }
{
    is_named(param.0) && is_value_of(param.0, &param.1) && is_countable(&param.1)
}

// Whether the key is the one that its number stands for.
fn is_named(key: SvcParamKey) -> bool
    ensures named { IsTrue result ↔ (key ≡ key_of (key_number key)) }
    ensures small { key_number key < 65536 }
{
    let _number = u16::from(key);
    match key {
        SvcParamKey::Key(number) => 65280 <= number && number <= 65534,
        SvcParamKey::Unknown(number) => 6 < number && number < 65280,
        _ => true,
    }
}

// Whether two octets can count the value's.
fn is_countable(value: &SvcParamValue) -> bool
    ensures { IsTrue result ↔ (length (value_octets value.now) < 65536) }
{
    value.octet_len().is_some()
}

// Whether a value is one of its key.
fn is_value_of(key: SvcParamKey, value: &SvcParamValue) -> bool
    ensures { IsTrue result ↔ IsValueOf key value.now }
{
    match key {
        SvcParamKey::Mandatory => is_mandatory(value),
        SvcParamKey::Alpn => is_alpn(value),
        SvcParamKey::NoDefaultAlpn => matches!(value, SvcParamValue::NoDefaultAlpn),
        SvcParamKey::Port => matches!(value, SvcParamValue::Port(_)),
        SvcParamKey::Ipv4Hint => matches!(value, SvcParamValue::Ipv4Hint(_)),
        SvcParamKey::EchConfigList => matches!(value, SvcParamValue::EchConfigList(_)),
        SvcParamKey::Ipv6Hint => matches!(value, SvcParamValue::Ipv6Hint(_)),
        SvcParamKey::Key(_) | SvcParamKey::Key65535 | SvcParamKey::Unknown(_) => {
            matches!(value, SvcParamValue::Unknown(_))
        }
    }
}

// Keys, at least one, each the one of its number.
fn is_mandatory(value: &SvcParamValue) -> bool
    ensures { IsTrue result ↔ IsValueOf of.Mandatory value.now }
{
    match value {
        SvcParamValue::Mandatory(mandatory) => !mandatory.0.is_empty() && are_keys(&mandatory.0),
        _ => false,
    }
}

// Whether each key is the one that its number stands for.
fn are_keys(keys: &[SvcParamKey]) -> bool
    ensures { IsTrue result ↔ All IsKey keys.now }
{
    keys.iter().all(|key| is_key(*key))
}

// Whether the key is the one that its number stands for.
fn is_key(key: SvcParamKey) -> bool
    ensures { IsTrue result ↔ IsKey key }
{
    is_named(key)
}

// Protocols, at least one, each of at most 255 octets.
fn is_alpn(value: &SvcParamValue) -> bool
    ensures { IsTrue result ↔ IsValueOf of.Alpn value.now }
{
    match value {
        SvcParamValue::Alpn(alpn) => !alpn.0.is_empty() && are_short(&alpn.0),
        _ => false,
    }
}

// Whether an octet can count those of each text.
fn are_short(texts: &[String]) -> bool
    ensures { IsTrue result ↔ All IsShortText texts.now }
{
    texts.iter().all(|text| text.len() <= 255)
}
