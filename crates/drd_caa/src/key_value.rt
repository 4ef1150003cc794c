//! Parameters of issuers.
ghost use Rattle.std.specs.Prelude.{◌≡◌};
ghost use Rattle.std.specs.String.{string_bytes};
ghost use Rattle.std.specs.Cmp.{partial_equiv_from_equiv};
ghost use Rattle.std.specs.Cmp.Rules.{hashing};
ghost use Rattle.std.proofs.Common.{rules};
ghost use Rattle.drd_caa.specs.Issue.{parameter, parameter_eq};
ghost use Rattle.drd_caa.specs.IssueLaws.{parameter_equiv};

use std::hash::{Hash, Hasher};
use std::marker::Model;

/// A parameter of an issuer: a key and a value (RFC 8659 4.2). A contract sees it as a `Parameter`, the octets of both.
#[derive(Clone, Debug, Drop)]
pub struct KeyValue {
    key: String,
    value: String,
}

impl Model for KeyValue {
    ghost use Rattle.std.specs.String.{string_bytes};
    ghost use Rattle.drd_caa.specs.Issue.{Parameter, parameter};

    ghost Value = { Parameter };

    ghost view = { λ pair. parameter (string_bytes pair.key) (string_bytes pair.value) };
}

impl KeyValue {
    /// The parameter of a key and a value.
    pub fn new(key: String, value: String) -> KeyValue
        ensures { result ≡ parameter (string_bytes key) (string_bytes value) }
    {
        KeyValue { key, value }
    }

    /// The key.
    pub fn key(&self) -> &str
        ensures { result.now ≡ self.now.key }
    {
        self.key.as_str()
    }

    /// The value.
    pub fn value(&self) -> &str
        ensures { result.now ≡ self.now.value }
    {
        self.value.as_str()
    }
}

impl PartialEq for KeyValue {
    ghost eq = { parameter_eq };

    ghost laws = { partial_equiv_from_equiv parameter_equiv };

    /// Whether keys and values are the same, octet by octet.
    fn eq(&self, other: &KeyValue) -> bool {
        self.key == other.key && self.value == other.value
    }
}

impl Eq for KeyValue {
    ghost laws = { parameter_equiv };
}

impl Hash for KeyValue {
    ghost use Rattle.std.specs.Prelude.{◌++◌};
    ghost use Rattle.std.specs.Hash as fed;

    ghost hash_input = { λ pair. fed.str pair.key ++ fed.str pair.value };

    ghost respects_eq = { Prim.search (hashing, rules) };

    fn hash<H: Hasher>(&self, state: &mut H) {
        self.key.hash(state);
        self.value.hash(state);
    }
}
