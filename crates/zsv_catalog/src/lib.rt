//! Many zones in one server: chains of handlers, each registered under a name, and what they answer to a request.
//!
//! `RepliesBy` says which reply a request gets and what it leaves of the zones, by what the handlers mean. `Catalog` holds
//! them, in boxes if they are of several kinds.
#![tactic(auto)]

pub use drd_types::NSIDPayload;
pub use zsv_answer::{
    A, AuthLookup, BareRequest, BlocklistConsultAction, DNSClass, DecodeError, Edns, Header,
    HeaderCounts, Label, LookupControlFlow, LookupError, LookupOptions, LookupRecords, LowerName,
    LowerQuery, MessageRequest, MessageResponse, MessageResponseBuilder, MessageType, Metadata, NS,
    Name, Nsec3HashAlgorithm, Nsec3QueryInfo, NxProofKind, OpCode, Protocol, Queries, Query, RData,
    Record, RecordRef, RecordSet, RecordType, Request, RequestInfo, RequestTsig, ResponseCode,
    ResponseInfo, SOA, TSigResponseContext, Tsig, TsigRecord, TsigVerdict, UpdateRequest,
    ZoneHandler, ZoneRequest, ZoneTransfer, ZoneType, encode_error, encode_refusal, error_response,
};
pub use zsv_update::{Chains, NoSuite, Received, ServiceFault, SignFault, TsigSuite};

mod catalog;
mod copies;
mod handler;
mod reply;
mod sink;
mod transfer;

pub use catalog::Catalog;
pub use handler::RequestHandler;
pub use sink::{ResponseHandler, SendFault};
