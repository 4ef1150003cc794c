//! Zones as they are stored: records and their sets, keys of owners, a zone in memory, the trait of handlers and what they
//! answer.
//!
//! This is the face of the crates below, and holds nothing of its own: response codes, answers of handlers and how a
//! zone may be used from `zst_codes`, EDNS from `zst_edns`, records and zones from `zst_zone` and what it passes on.
#![tactic(auto)]

pub use zst_codes::{LookupControlFlow, LookupError, Nsec3QueryInfo, ResponseCode, TsigVerdict};
pub use zst_edns::{Edns, EdnsFlags};
pub use zst_zone::{
    AnswerSet, AuthLookup, AxfrPolicy, AxfrRecords, AxfrRecordsIter, BlocklistConsultAction,
    DNSClass, DnssecZoneHandler, InMemoryZoneHandler, LookupOptions, LookupRecords,
    LookupRecordsIter, LowerName, Name, NameKey, Nsec3HashAlgorithm, NxProofKind, ProtoError,
    RData, Record, RecordRef, RecordSet, RecordType, RequestTsig, RrKey, RrsetRecords, Salt,
    SaltLenError, SignerFault, StoredZone, TSigResponseContext, ZoneError, ZoneHandler,
    ZoneRequest, ZoneSets, ZoneSetsIter, ZoneSettings, ZoneSignature, ZoneSigner, ZoneTransfer,
    ZoneTransferIter, ZoneType,
};
