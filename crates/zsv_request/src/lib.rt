//! Requests: a message with its octets, who sent it and how, and what is asked of it (RFC 1035 section 4, RFC 2136 section
//! 2).
//!
//! `Request::from_bytes` reads exactly what is a message, and refuses all else by its cause (`ReadsRequest`).
#![tactic(auto)]

pub use zsv_message::{
    A, BareRequest, BinDecodable, BinDecoder, BinEncodable, BinEncoder, DNSClass, DecodeError,
    Edns, Header, HeaderCounts, Label, LookupError, LowerName, MessageRequest, MessageType,
    Metadata, NS, Name, NameEncoding, OpCode, ProtoError, Queries, Query, RData, Record, RecordRef,
    RecordSet, RecordType, ResponseCode, SOA, Tsig, TsigRecord,
};

mod lower_query;
mod one_query;
mod protocol;
mod request;
mod request_info;
mod response_info;
mod update;

pub use lower_query::LowerQuery;
pub use protocol::Protocol;
pub use request::Request;
pub use request_info::RequestInfo;
pub use response_info::ResponseInfo;
pub use update::UpdateRequest;
