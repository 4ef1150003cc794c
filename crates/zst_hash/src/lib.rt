//! Digests of names, and the owners that they give (RFC 5155): `nsec3_digest`, `base32hex`, `hashed_owner`.
//!
//! A digest is that of `iterated_hash` over the octets of the name in lower case; its owner is one label below an origin,
//! the digest's digits in base 32 (RFC 4648 section 7). That name has 33 octets more than the origin, and is refused where
//! they would be more than 255.
#![tactic(auto)]

pub use zst_key::{KeyRef, NameKey, NameList, WholeKey, nearest, nearest_above};

mod base32;
mod digest;
mod owner;

pub use base32::base32hex;
pub use digest::nsec3_digest;
pub use owner::hashed_owner;
