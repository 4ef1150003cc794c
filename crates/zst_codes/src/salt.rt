//! The salt of hashed owners (RFC 5155 3.1.5).
ghost use Rattle.std.specs.Prelude.{◌≡◌, ◌≤◌, ◌<◌, length, IfOk, IfErr, OnOk, OnErr};

use std::alloc::AllocError;
use std::marker::Model;
use thiserror::Error;

/// A salt whose length one octet can't count.
#[derive(Clone, Copy, Debug, PartialEq, Eq, Error)]
#[error("a salt of {len} octets, above 255")]
pub struct SaltLenError {
    /// How many octets there were.
    pub len: usize,
}

/// What is hashed with each name: at most 255 octets, which one octet counts (RFC 5155 3.1.5). A contract sees it as
/// the octets.
#[derive(Drop)]
pub struct Salt {
    octets: Vec<u8>,
}

impl Model for Salt {
    ghost use Rattle.std.specs.Prelude.{ℕ, List, length, ◌≤◌};

    ghost Value = { List ℕ };

    ghost view = { λ salt. salt.octets.items };

    ghost invariant = { λ salt. length salt.octets.items ≤ 255 };
}

impl Salt {
    /// The salt of these octets. More than 255 are refused, and dropped.
    pub fn new(octets: Vec<u8>) -> Result<Salt, SaltLenError>
        ensures ok { IfOk result (λ salt. salt ≡ octets.items) }
        ensures fits { OnOk result (length octets.items ≤ 255) }
        ensures refused { OnErr result (255 < length octets.items) }
        ensures cause { IfErr result (λ e. e.len ≡ length octets.items) }
    {
        let len = octets.len();
        if len > 255 {
            return Err(SaltLenError { len });
        }
        Ok(Salt { octets })
    }

    /// The octets, at most 255.
    pub fn as_bytes(&self) -> &[u8]
        ensures value { result.now ≡ self.now }
        ensures fits { length self.now ≤ 255 }
    {
        &self.octets
    }
}

impl Clone for Salt {
    ghost is_clone = { λ salt copy. copy ≡ salt };

    fn clone(&self) -> Result<Salt, AllocError> {
        Ok(Salt {
            octets: self.octets.clone()?,
        })
    }
}
