//! EDNS: what an OPT record says beside its options, and these (RFC 6891 6.1).
//!
//! `IsEdnsOf` says what the class and the TTL of the record stand for, and `edns_ttl` which TTL is written: a TTL that is
//! read and written stays. `EdnsFlags` are the last sixteen bits of it.
#![tactic(auto)]

pub use zst_codes::{
    AxfrPolicy, LookupControlFlow, LookupError, Nsec3HashAlgorithm, NxProofKind, ResponseCode,
    Salt, SaltLenError, ZoneType,
};

mod edns;
mod edns_flags;
mod emit;

pub use edns::Edns;
pub use edns_flags::EdnsFlags;
