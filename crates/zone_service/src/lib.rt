//! Many zones as they are served: messages, catalogs of handlers, zones that take updates, lists of blocked names and access
//! lists.
//!
//! This is the face of the crates below, and holds nothing of its own: requests, handlers and what a catalog answers from
//! `zsv_catalog` and what it passes on, lists of blocked names and guarded zones from `zsv_handlers`, access lists from
//! `zsv_access`.
#![tactic(auto)]

pub use zsv_access::{AccessControl, IpNet};
pub use zsv_catalog::{
    A, AuthLookup, BlocklistConsultAction, Catalog, Chains, DNSClass, DecodeError, Edns, Header,
    HeaderCounts, Label, LookupControlFlow, LookupError, LookupOptions, LookupRecords, LowerName,
    LowerQuery, MessageRequest, MessageResponse, MessageResponseBuilder, MessageType, Metadata, NS,
    NSIDPayload, Name, NoSuite, Nsec3HashAlgorithm, Nsec3QueryInfo, NxProofKind, OpCode, Protocol,
    Queries, Query, RData, Received, Record, RecordRef, RecordSet, RecordType, Request,
    RequestHandler, RequestInfo, RequestTsig, ResponseCode, ResponseHandler, ResponseInfo, SOA,
    SendFault, ServiceFault, SignFault, TSigResponseContext, Tsig, TsigRecord, TsigSuite,
    TsigVerdict, UpdateRequest, ZoneHandler, ZoneRequest, ZoneTransfer, ZoneType, error_response,
};
pub use zsv_handlers::{
    BlocklistConfig, BlocklistError, BlocklistZoneHandler, InMemoryZoneHandler, ReadFaults,
    SqliteZoneHandler,
};
