//! RDATA of the records that deny names and types, and of signatures, as octets: NSEC and RRSIG (RFC 4034 sections 3 and
//! 4), NSEC3 and NSEC3PARAM (RFC 5155 sections 3 and 4).
//!
//! `NsecData::read` reads octets exactly where they are NSEC data (`IsNsecData`); `nsec_data`, `nsec3_data`,
//! `nsec3param_data` and `rrsig_data` make such octets, each by the definition of its type. `is_between` is the order of
//! owners closed to a circle.
#![tactic(auto)]

pub use dnw_wire::RecordTypeSet;
pub use drd_plain::NULL;

mod between;
mod nsec;
mod nsec3;
mod rrsig;

pub use between::is_between;
pub use nsec::{NsecData, nsec_data};
pub use nsec3::{nsec3_data, nsec3param_data};
pub use rrsig::{ZoneSignature, rrsig_data};
