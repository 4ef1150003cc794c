//! How a zone proves that a name is absent, and what is asked of it then.
use crate::salt::Salt;
use dnw_name::{LowerName, RecordType};

/// How names are hashed (RFC 5155 11).
#[derive(Clone, Copy, Debug, PartialEq, Eq)]
pub enum Nsec3HashAlgorithm {
    /// SHA-1.
    SHA1,
}

/// How a zone proves that a name is absent.
#[derive(Clone, Drop)]
pub enum NxProofKind {
    /// By the names beside it (RFC 4034 4).
    Nsec,
    /// By hashes beside its own (RFC 5155).
    Nsec3 {
        /// How names are hashed.
        algorithm: Nsec3HashAlgorithm,
        /// What is hashed with each name.
        salt: Salt,
        /// How often a hash is hashed again.
        iterations: u16,
        /// Whether unsigned delegations are left out (RFC 5155 6).
        opt_out: bool,
    },
}

/// What a handler is asked for a proof by hashes (RFC 5155 7.2).
#[derive(Clone, Copy)]
pub struct Nsec3QueryInfo<'q> {
    /// The name that was asked.
    pub qname: &'q LowerName,
    /// The type that was asked.
    pub qtype: RecordType,
    /// Whether a wildcard stands for the name.
    pub has_wildcard_match: bool,
    /// How names are hashed.
    pub algorithm: Nsec3HashAlgorithm,
    /// What is hashed with each name.
    pub salt: &'q Salt,
    /// How often a hash is hashed again.
    pub iterations: u16,
}
