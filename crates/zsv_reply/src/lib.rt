//! Replies: what a reply holds, and its octets, cut at a limit (RFC 1035 section 4, RFC 2181 section 9, RFC 6891 section
//! 6.1, RFC 8945 section 5.1).
//!
//! `MessageResponse::encode` writes a reply that stands in `IsReply` to what it is to hold.
#![tactic(auto)]

pub use zst_pointing::push_pointing;
pub use zsv_request::{
    A, BareRequest, DNSClass, DecodeError, Edns, Header, HeaderCounts, Label, LowerQuery,
    MessageRequest, MessageType, Metadata, NS, Name, OpCode, Protocol, Queries, Query, RData,
    Record, RecordSet, RecordType, Request, RequestInfo, ResponseCode, ResponseInfo, SOA, Tsig,
    TsigRecord, UpdateRequest,
};

mod bare_reply;
mod builder;
mod fronts;
mod header;
mod lends;
mod message_response;
mod questions;
mod written_reply;

pub use bare_reply::encode_bare;
pub use builder::{MessageResponseBuilder, NoRecords};
pub use lends::LendsRecord;
pub use message_response::MessageResponse;
pub use written_reply::{WrittenRecords, encode_written};
