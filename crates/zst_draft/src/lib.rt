//! The records that an update leaves in a zone, prepared while the zone stays unchanged, so that the update is applied
//! completely or not at all (RFC 2136 section 3.7).
//!
//! In contracts a draft over a zone is the sets that each owner is to have (`DraftsZone`): a new draft has the stored ones,
//! `apply` changes them as `applied` says, and `commit` puts them into the zone (`LeavesZone`).
#![tactic(auto)]

pub use zst_zone::{
    AnswerSet, AuthLookup, AxfrPolicy, AxfrRecords, AxfrRecordsIter, BlocklistConsultAction,
    DNSClass, DnssecZoneHandler, Draft, Edit, InMemoryZoneHandler, LookupControlFlow, LookupError,
    LookupOptions, LookupRecords, LookupRecordsIter, LowerName, Name, NameKey, Nsec3HashAlgorithm,
    NxProofKind, ProtoError, RData, Record, RecordRef, RecordSet, RecordType, RequestTsig,
    ResponseCode, RrKey, RrsetRecords, Salt, SaltLenError, SignerFault, StoredZone,
    TSigResponseContext, ZoneError, ZoneHandler, ZoneRequest, ZoneSets, ZoneSetsIter, ZoneSettings,
    ZoneSignature, ZoneSigner, ZoneTransfer, ZoneTransferIter, ZoneType,
};

mod commit;
mod owner;
mod puts;
mod records;
mod set;
mod zone;

pub use zone::ZoneDraft;
