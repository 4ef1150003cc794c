//! Parameters in order.
ghost use Rattle.std.specs.Prelude.{◌≡◌};
ghost use Rattle.drd_params.specs.drd_fields.Order.{Orders, fields_cmp, octets_cmp};
ghost use Rattle.drd_params.specs.Equality.{param_code, params_code, told_length, value_code, value_kind};
ghost use Rattle.drd_params.specs.Params.{AreParams, params_octets};
ghost use Rattle.drd_params.specs.dnw_decoder.Octets.{octets_16};
ghost use Rattle.drd_params.specs.Values.{value_octets};

use drd_param_keys::SvcParamKey;
use drd_params::{SvcParamValue, cmp_all};
use std::cmp::Ordering;

// The number of a value's kind.
fn kind(value: &SvcParamValue) -> u16
    ensures { result ≡ value_kind value.now }
{
    match value {
        SvcParamValue::Mandatory(_) => 0,
        SvcParamValue::Alpn(_) => 1,
        SvcParamValue::NoDefaultAlpn => 2,
        SvcParamValue::Port(_) => 3,
        SvcParamValue::Ipv4Hint(_) => 4,
        SvcParamValue::EchConfigList(_) => 5,
        SvcParamValue::Ipv6Hint(_) => 6,
        SvcParamValue::Unknown(_) => 7,
    }
}

// How many octets a value has, as far as two octets tell.
fn told_len(value: &SvcParamValue) -> u32
    ensures { result ≡ told_length (value_octets value.now) }
{
    match value.octet_len() {
        Some(len) => u32::from(len),
        None => 65_536,
    }
}

// The order of the octets of two values of one kind.
fn cmp_octets(value: &SvcParamValue, other: &SvcParamValue) -> Ordering
    requires { value_kind value.now ≡ value_kind other.now }
    ensures { result ≡ octets_cmp (value_octets value.now) (value_octets other.now) }
{
    match value {
        SvcParamValue::Mandatory(a) => match other {
            SvcParamValue::Mandatory(b) => cmp_all(&a.0, &b.0),
            _ => Ordering::Equal,
        },
        SvcParamValue::Alpn(a) => match other {
            SvcParamValue::Alpn(b) => cmp_all(&a.0, &b.0),
            _ => Ordering::Equal,
        },
        SvcParamValue::NoDefaultAlpn => Ordering::Equal,
        SvcParamValue::Port(a) => match other {
            SvcParamValue::Port(b) => cmp_ports(*a, *b),
            _ => Ordering::Equal,
        },
        SvcParamValue::Ipv4Hint(a) => match other {
            SvcParamValue::Ipv4Hint(b) => cmp_all(&a.0, &b.0),
            _ => Ordering::Equal,
        },
        SvcParamValue::EchConfigList(a) => match other {
            SvcParamValue::EchConfigList(b) => a.0.cmp(&b.0),
            _ => Ordering::Equal,
        },
        SvcParamValue::Ipv6Hint(a) => match other {
            SvcParamValue::Ipv6Hint(b) => cmp_all(&a.0, &b.0),
            _ => Ordering::Equal,
        },
        SvcParamValue::Unknown(a) => match other {
            SvcParamValue::Unknown(b) => a.0.cmp(&b.0),
            _ => Ordering::Equal,
        },
    }
}

// The order of the two octets of ports.
#[tactic(auto, using(crate::proofs::Orders::ports))]
fn cmp_ports(a: u16, b: u16) -> Ordering
    ensures { result ≡ octets_cmp (octets_16 a) (octets_16 b) }
{
    a.cmp(&b)
}

// The order of two values: by kind, then by length, then by octets.
fn cmp_values(value: &SvcParamValue, other: &SvcParamValue) -> Ordering
    ensures { result ≡ fields_cmp (value_code value.now) (value_code other.now) }
{
    match kind(value).cmp(&kind(other)) {
        Ordering::Equal => {}
        unequal => return unequal,
    }
    match told_len(value).cmp(&told_len(other)) {
        Ordering::Equal => cmp_octets(value, other),
        unequal => unequal,
    }
}

// The order of two parameters: by key, then by value.
fn cmp_param(param: &(SvcParamKey, SvcParamValue), other: &(SvcParamKey, SvcParamValue)) -> Ordering
    ensures { result ≡ fields_cmp (param_code param.now) (param_code other.now) }
{
    match param.0.cmp(&other.0) {
        Ordering::Equal => cmp_values(&param.1, &other.1),
        unequal => unequal,
    }
}

// The order of the first parameters that differ.
fn cmp_lists(
    params: &[(SvcParamKey, SvcParamValue)],
    others: &[(SvcParamKey, SvcParamValue)],
) -> Ordering
    ensures { result ≡ fields_cmp (params_code params.now) (params_code others.now) }
{
    let mut left = params;
    let mut right = others;
    'params: while let Some((param, later)) = left.split_first() {
        let Some((other, behind)) = right.split_first() else {
            return Ordering::Greater;
        };
        match cmp_param(param, other) {
            Ordering::Equal => {
                left = later;
                right = behind;
            }
            unequal => return unequal,
        }
    }
    if right.is_empty() {
        Ordering::Equal
    } else {
        Ordering::Less
    }
}

/// The order of the first parameters that differ: by key, kind of value, length and octets of the value. Of the parameters
/// of records it is the order of their octets.
pub(crate) fn cmp_params(
    params: &[(SvcParamKey, SvcParamValue)],
    others: &[(SvcParamKey, SvcParamValue)],
) -> Ordering
    ensures value { result ≡ fields_cmp (params_code params.now) (params_code others.now) }
    ensures canonical { AreParams params.now → AreParams others.now
        → Orders result (params_octets params.now) (params_octets others.now) }
{
    cmp_lists(params, others)
}
