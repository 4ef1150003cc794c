//! What a chain of handlers answers to a question (RFC 1034 section 4.3.2).
//!
//! The first handler that answers says what the server is to the name; lists of blocked names may take the answer's place
//! (`Resolves`). `ChainParts` says what a full reply holds then. Handlers are known by what they mean (`View`) alone.
#![tactic(auto)]

pub use zst_request::{
    AuthLookup, BlocklistConsultAction, LookupControlFlow, LookupError, LookupOptions,
    LookupRecords, LowerName, Nsec3HashAlgorithm, Nsec3QueryInfo, NxProofKind, RecordRef,
    RequestTsig, TSigResponseContext, TsigVerdict, ZoneHandler, ZoneRequest, ZoneTransfer,
    ZoneType,
};
pub use zsv_reply::{
    A, BareRequest, DNSClass, DecodeError, Edns, Header, HeaderCounts, Label, LowerQuery,
    MessageRequest, MessageResponse, MessageResponseBuilder, MessageType, Metadata, NS, Name,
    OpCode, Protocol, Queries, Query, RData, Record, RecordSet, RecordType, Request, RequestInfo,
    ResponseCode, ResponseInfo, SOA, Tsig, TsigRecord, UpdateRequest,
};

mod authoritative;
mod chain;
mod consult;
mod denial;
mod forwarded;
mod records;
mod response;
mod transfer;
mod written;

pub use chain::chain_response;
pub use response::{Response, encode_error, encode_refusal, error_response};
pub use transfer::{TransferResponse, encode_transfer, transfer_error, transfer_response};
