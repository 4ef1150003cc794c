//! Values that are hashed.
ghost use Rattle.drd_params.specs.Hashing.{value_input};
ghost use Rattle.drd_params.specs.HashingLaws.{value-alike};

use crate::list_data::feed_all;
use crate::value::SvcParamValue;
use drd_fields::FieldRef;
use std::hash::{Hash, Hasher};

impl Hash for SvcParamValue {
    ghost hash_input = { value_input };

    ghost respects_eq = { value-alike };

    /// Feeds the entries of a list behind their number, a port's octets, or octets as they are behind theirs.
    fn hash<H: Hasher>(&self, state: &mut H) {
        match self {
            SvcParamValue::Mandatory(mandatory) => feed_all(state, &mandatory.0),
            SvcParamValue::Alpn(alpn) => feed_all(state, &alpn.0),
            SvcParamValue::NoDefaultAlpn => {}
            SvcParamValue::Port(port) => state.write(&port.to_be_bytes()),
            SvcParamValue::Ipv4Hint(hint) => feed_all(state, &hint.0),
            SvcParamValue::EchConfigList(ech) => FieldRef::String(&ech.0).hash_field(state),
            SvcParamValue::Ipv6Hint(hint) => feed_all(state, &hint.0),
            SvcParamValue::Unknown(unknown) => FieldRef::String(&unknown.0).hash_field(state),
        }
    }
}
