//! What is asked of handlers of zones, and what they have in common.
//!
//! A contract sees a handler as a `View`: a stored zone, or a list of blocked names. Each call of `ZoneHandler` says what it
//! answers by that view alone.
#![tactic(auto)]

pub use zst_codes::{Nsec3QueryInfo, TsigVerdict};
pub use zst_denial::{
    ANAME, AnswerSet, AuthLookup, AxfrPolicy, CNAME, DNSClass, LookupControlFlow, LookupError,
    LookupOptions, LookupRecords, LookupRecordsIter, LowerName, MX, NS, Name, NameKey,
    Nsec3HashAlgorithm, NxProofKind, ProtoError, RData, Record, RecordRef, RecordSet, RecordType,
    ResponseCode, RrKey, RrsetRecords, SOA, SRV, Salt, SaltLenError, ZoneSettings, ZoneType,
};

mod blocklist;
mod request;
mod transfer;
mod zone_handler;

pub use blocklist::BlocklistConsultAction;
pub use request::{RequestTsig, TSigResponseContext, ZoneRequest};
pub use transfer::{AxfrRecords, AxfrRecordsIter, ZoneTransfer, ZoneTransferIter};
pub use zone_handler::{ZoneHandler, no_proof};
