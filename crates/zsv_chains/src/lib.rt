//! Chains of handlers, each registered under a name (RFC 1034 section 4.3.2).
//!
//! The chain for a name is that under the nearest name from it up. Its first handler takes the updates of its zone.
#![tactic(auto)]

pub use zst_key::{KeyRef, NameKey};
pub use zst_request::{
    LowerName, Name, Record, RecordType, RequestTsig, ResponseCode, TSigResponseContext,
    TsigVerdict, ZoneHandler, ZoneRequest, ZoneType,
};

mod chains;

pub use chains::Chains;
