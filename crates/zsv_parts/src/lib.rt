//! The parts of a message beside its resource records: the header, the questions, and the data of its signature by a shared
//! key (RFC 1035 sections 4.1.1 and 4.1.2, RFC 8945 section 4.2).
//!
//! `Header::read`, `Queries::read` and `Tsig::read_data` read exactly what stands there (`HeaderAt`, `AskedAt`, `TsigAt`).
#![tactic(auto)]

pub use zst_codes::ResponseCode;

mod header;
mod in_full;
mod question;
mod signature;
mod tsig;

pub use header::{Header, HeaderCounts, MessageType, Metadata, OpCode};
pub use in_full::whole_question;
pub use question::{Queries, Query};
pub use tsig::{Tsig, TsigRecord};
