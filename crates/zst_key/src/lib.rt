//! The keys under which a zone's map keeps its owners.
//!
//! A contract sees a `NameKey` as a name in lower case, and no octets. Keys stand in the canonical order of names
//! (RFC 4034 6.1), and the key of a name above another is a front of the other's.
#![tactic(auto)]

mod above;
mod key;
mod octets;
mod sorted;

pub use above::{nearest, nearest_above};
pub use key::NameKey;
pub use sorted::{KeyRef, NameList, WholeKey};
