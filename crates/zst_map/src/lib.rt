//! The sets of a zone, and which of them answers a name and a type (RFC 1034 section 4.3.2 step 3, RFC 4592 section 3.3.1).
//!
//! A contract sees the sets as a list, by owner in canonical order, then by type. `search` meets `found`: the name servers
//! of the cut that a name lies at or below, else what its own sets answer, else what the nearest wildcard answers.
#![tactic(auto)]

pub use zst_handler::{
    AnswerSet, AuthLookup, AxfrPolicy, DNSClass, Draft, LentSets, LookupControlFlow, LookupError,
    LookupOptions, LookupRecords, LookupRecordsIter, LowerName, Name, Nsec3HashAlgorithm,
    NxProofKind, ProtoError, RData, Record, RecordRef, RecordSet, RecordType, ResponseCode, RrKey,
    RrsetRecords, Salt, SaltLenError, ZoneSetsIter, ZoneSettings, ZoneType, push,
};
pub use zst_key::NameKey;

mod apart;
mod change;
mod denials;
mod edit;
mod index;
mod map;
mod node;
mod zone_sets;

pub use edit::Edit;
pub use zone_sets::{Match, Search, ZoneSets};
