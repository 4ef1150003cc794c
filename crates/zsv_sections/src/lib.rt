//! Sections of a message: records one behind the other, each where it may stand (RFC 1035 section 4.1.3, RFC 6891 section
//! 6.1.1, RFC 8945 section 5.1).
//!
//! `read_section` reads exactly what `SectionAt` says, and refuses all else by its cause (`RefusesSection`).
#![tactic(auto)]

pub use zst_record::{
    A, BinDecodable, BinDecoder, BinEncodable, BinEncoder, DNSClass, DecodeError, Label, LowerName,
    NS, Name, NameEncoding, ProtoError, RData, Record, RecordRef, RecordSet, RecordType, SOA, push,
};
pub use zsv_parts::{
    Header, HeaderCounts, MessageType, Metadata, OpCode, Queries, Query, ResponseCode, Tsig,
    TsigRecord, whole_question,
};

mod placing;
mod section;

pub use placing::{Placing, is_opt, is_tsig};
pub use section::{read_placed, read_section};
