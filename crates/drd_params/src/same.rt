//! Parameters that are compared.
ghost use Rattle.std.specs.Prelude.{◌≡◌};
ghost use Rattle.std.specs.Cmp.{partial_equiv_from_equiv};
ghost use Rattle.drd_params.specs.drd_fields.Equality.{Tells, fields_eq};
ghost use Rattle.drd_fields.proofs.EqualityLaws.{data_equiv};
ghost use Rattle.drd_params.specs.Equality.{params_code, value_code};
ghost use Rattle.drd_params.specs.Params.{AreParams, params_octets};

use crate::list_data::are_same;
use crate::value::SvcParamValue;
use drd_param_keys::SvcParamKey;

impl PartialEq for SvcParamValue {
    ghost eq = { λ a b. fields_eq (value_code a) (value_code b) };

    ghost laws = { partial_equiv_from_equiv (data_equiv value_code) };

    /// Whether two values are of one kind and have the same octets.
    fn eq(&self, other: &SvcParamValue) -> bool {
        match self {
            SvcParamValue::Mandatory(a) => match other {
                SvcParamValue::Mandatory(b) => are_same(&a.0, &b.0),
                _ => false,
            },
            SvcParamValue::Alpn(a) => match other {
                SvcParamValue::Alpn(b) => are_same(&a.0, &b.0),
                _ => false,
            },
            SvcParamValue::NoDefaultAlpn => match other {
                SvcParamValue::NoDefaultAlpn => true,
                _ => false,
            },
            SvcParamValue::Port(a) => match other {
                SvcParamValue::Port(b) => *a == *b,
                _ => false,
            },
            SvcParamValue::Ipv4Hint(a) => match other {
                SvcParamValue::Ipv4Hint(b) => are_same(&a.0, &b.0),
                _ => false,
            },
            SvcParamValue::EchConfigList(a) => match other {
                SvcParamValue::EchConfigList(b) => a.0 == b.0,
                _ => false,
            },
            SvcParamValue::Ipv6Hint(a) => match other {
                SvcParamValue::Ipv6Hint(b) => are_same(&a.0, &b.0),
                _ => false,
            },
            SvcParamValue::Unknown(a) => match other {
                SvcParamValue::Unknown(b) => a.0 == b.0,
                _ => false,
            },
        }
    }
}

impl Eq for SvcParamValue {
    ghost laws = { data_equiv value_code };
}

// Whether the keys of two lists are the same, and their values equal, one by one.
fn are_equal(
    params: &[(SvcParamKey, SvcParamValue)],
    others: &[(SvcParamKey, SvcParamValue)],
) -> bool
    ensures { result ≡ fields_eq (params_code params.now) (params_code others.now) }
{
    let mut left = params;
    let mut right = others;
    'params: while let Some((param, later)) = left.split_first() {
        let Some((other, behind)) = right.split_first() else {
            return false;
        };
        if param.0 != other.0 {
            return false;
        }
        if param.1 != other.1 {
            return false;
        }
        left = later;
        right = behind;
    }
    right.is_empty()
}

/// Whether the keys of two lists are the same, and their values equal, one by one. Of the parameters of records it tells
/// exactly whether their octets are the same.
pub fn are_same_params(
    params: &[(SvcParamKey, SvcParamValue)],
    others: &[(SvcParamKey, SvcParamValue)],
) -> bool
    ensures value { result ≡ fields_eq (params_code params.now) (params_code others.now) }
    ensures canonical { AreParams params.now → AreParams others.now
        → Tells result (params_octets params.now) (params_octets others.now) }
{
    are_equal(params, others)
}
