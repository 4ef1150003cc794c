//! A zone in memory: the sets of its records, and what a lookup answers (RFC 1034 section 4.3.2, RFC 2308).
//!
//! A contract sees a `StoredZone` as a `Zone`: where it begins, how it may be used, and its sets; an `InMemoryZoneHandler` is
//! that and the keys that sign it. `IsLookup` says what is answered to a name and a type, or why nothing is.
#![tactic(auto)]

pub use zst_circle::{
    AnswerSet, AuthLookup, AxfrPolicy, DNSClass, Draft, Edit, LentSets, LookupControlFlow,
    LookupError, LookupOptions, LookupRecords, LookupRecordsIter, LowerName, Name, NameKey,
    Nsec3HashAlgorithm, NxProofKind, ProtoError, RData, Record, RecordRef, RecordSet, RecordType,
    ResponseCode, RrKey, RrsetRecords, Salt, SaltLenError, SignerFault, ZoneSets, ZoneSetsIter,
    ZoneSettings, ZoneSignature, ZoneSigner, ZoneType,
};
pub use zst_request::{
    AxfrRecords, AxfrRecordsIter, BlocklistConsultAction, Nsec3QueryInfo, RequestTsig,
    TSigResponseContext, ZoneHandler, ZoneRequest, ZoneTransfer, ZoneTransferIter,
};

mod additional;
mod back;
mod chain;
mod denial;
mod handler;
mod in_memory;
mod lookup;
mod seen;
mod signed;
mod zone_handler;

pub use handler::{StoredZone, ZoneError};
pub use in_memory::InMemoryZoneHandler;
pub use signed::DnssecZoneHandler;
