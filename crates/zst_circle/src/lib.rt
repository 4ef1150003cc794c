//! Zones that are secured: the circles of their NSEC and NSEC3 sets, and their signatures (RFC 4035 section 2, RFC 5155
//! section 7.1).
#![tactic(auto)]

pub use zst_absence::{
    AnswerSet, AuthLookup, AxfrPolicy, DNSClass, Draft, Edit, HashedQuery, LentSets,
    LookupControlFlow, LookupError, LookupOptions, LookupRecords, LookupRecordsIter, LowerName,
    Match, Name, NameKey, Nsec3HashAlgorithm, NxProofKind, ProtoError, RData, Record, RecordRef,
    RecordSet, RecordType, ResponseCode, RrKey, RrsetRecords, Salt, SaltLenError, Search,
    SignerFault, ZoneSets, ZoneSetsIter, ZoneSettings, ZoneSignature, ZoneSigner, ZoneType,
    nsec_denial, nsec3_denial, push,
};

mod by_hash;
mod by_name;
mod hash_types;
mod hashed;
mod moves;
mod names;
mod resigned;
mod secured;
mod signed;
mod types;

pub use hashed::Nsec3Parameters;
pub use secured::secure;
