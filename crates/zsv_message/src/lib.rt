//! Messages, whole: header, questions, and the records of three sections, options and signatures among them
//! (RFC 1035 section 4.1, RFC 6891 section 6.1, RFC 8945 section 4.2).
//!
//! `MessageRequest::read` reads exactly what `IsMessage` says, and refuses all else by its cause (`RefusesMessage`). Its
//! `emit` writes a message whole (`EmitsMessage`), or refuses it by its cause (`RefusesEmission`).
#![tactic(auto)]

pub use zst_edns::{Edns, LookupError};
pub use zsv_sections::{
    A, BinDecodable, BinDecoder, BinEncodable, BinEncoder, DNSClass, DecodeError, Header,
    HeaderCounts, Label, LowerName, MessageType, Metadata, NS, Name, NameEncoding, OpCode,
    ProtoError, Queries, Query, RData, Record, RecordRef, RecordSet, RecordType, ResponseCode, SOA,
    Tsig, TsigRecord,
};

mod additionals;
mod bare_request;
mod emit;
mod equality;
mod records;
mod request;

pub use bare_request::BareRequest;
pub use request::MessageRequest;
