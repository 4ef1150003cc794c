//! The server, from the octets of a request to the octets of its reply: message by message, or frame by frame of a stream.
//!
//! `Authority::serve` and `serve_all` meet the serving theorem (`Serves`, `ServesAll`), and `serve_stream` the same over
//! frames (`ServesFrames`).
#![tactic(auto)]

pub use zsv_access::{AccessControl, IpNet};
pub use zsv_catalog::{
    A, DNSClass, Label, LowerName, NS, NSIDPayload, Name, NoSuite, Nsec3QueryInfo, Protocol, RData,
    Record, RecordSet, RecordType, SOA, SignFault, TSigResponseContext, Tsig, TsigRecord,
    TsigSuite, TsigVerdict, ZoneHandler,
};

mod faults;
mod server;
mod stream;

pub use faults::Faults;
pub use server::{Arrival, Authority, ServeError};
pub use stream::StreamError;
