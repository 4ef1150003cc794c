//! The identifier of a name server (RFC 5001).
ghost use Rattle.std.specs.Prelude.{◌≡◌, ◌≤◌, ◌<◌, length, IfOk, IfErr};
ghost use Rattle.std.specs.Cmp.Rules.{comparing, hashing};
ghost use Rattle.std.proofs.Common.{rules};
ghost use Rattle.drd_opt.specs.Options.{IsLongIdentifier};

use drd_fields::ProtoError;
use std::hash::{Hash, Hasher};
use std::marker::Model;

/// The identifier of a name server: octets of its own choice, none of them in a query (RFC 5001 2.3). A contract sees it as
/// its octets, which are at most 65,531: the RDATA of an OPT record has no room for more after code and length.
#[derive(Clone, Debug, Drop)]
pub struct NSIDPayload {
    payload: Vec<u8>,
}

impl Model for NSIDPayload {
    ghost use Rattle.std.specs.Prelude.{ℕ, List, length, ◌≤◌};

    ghost Value = { List ℕ };

    ghost view = { λ identifier. identifier.payload.items };

    ghost invariant = { λ identifier. length identifier.payload.items ≤ 65531 };
}

impl NSIDPayload {
    /// The identifier of these octets. Refused are more than 65,531, which no message can hold as an option.
    pub fn new(octets: Vec<u8>) -> Result<NSIDPayload, ProtoError>
        ensures ok { IfOk result (λ identifier. identifier ≡ octets.items) }
        ensures refused { IfErr result (IsLongIdentifier octets.items) }
    {
        if octets.len() > 65531 {
            return Err(ProtoError::Message("an identifier of more than 65,531 octets"));
        }
        Ok(NSIDPayload { payload: octets })
    }

    /// The octets.
    pub fn as_ref(&self) -> &[u8]
        ensures octets { result.now ≡ self.now }
        ensures within { length self.now ≤ 65531 }
    {
        &self.payload
    }
}

impl PartialEq for NSIDPayload {
    ghost use Rattle.std.specs.Prelude.{nat_eq};
    ghost use Rattle.std.specs.Cmp.Lexicographic.{pointwise};

    ghost eq = { pointwise nat_eq };

    ghost laws = { Prim.search (comparing, rules) };

    /// Whether the octets are the same.
    fn eq(&self, other: &NSIDPayload) -> bool {
        self.payload == other.payload
    }
}

impl Eq for NSIDPayload {
    ghost laws = { Prim.search (comparing, rules) };
}

impl Hash for NSIDPayload {
    ghost use Rattle.std.specs.Prelude.{◌∷◌, []};

    ghost hash_input = { λ identifier. identifier ∷ [] };

    ghost respects_eq = { Prim.search (hashing, rules) };

    fn hash<H: Hasher>(&self, state: &mut H) {
        state.write(&self.payload);
    }
}
