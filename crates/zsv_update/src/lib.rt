//! Updates of the zones of a server (RFC 2136 section 3), and signed replies (RFC 8945 section 5.3).
//!
//! `GivesUpdate` says what reply an update gets and which zone it changes, and `SignsParts` which parts of a reply are sent
//! where it is to be signed. `update_by` serves one update: its contract has both, and the state after each error.
#![tactic(auto)]

pub use zsv_chains::{Chains, NameKey};

mod decide;
mod options;
mod received;
mod reply;
mod suite;
mod update;

pub use decide::{tsig_of, verdict_on};
pub use options::{has_other_version, reply_edns};
pub use received::Received;
pub use reply::encode_empty;
pub use suite::{NoSuite, SignFault, TsigSuite, sign_octets};
pub use update::{ServiceFault, update_by, update_with};
