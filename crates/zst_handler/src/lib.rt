//! What handlers of zones answer, and what a stored zone means.
//!
//! A contract sees a stored zone as a `Zone`: where it begins, how it may be used, and its sets. `found` says which set
//! answers a name and a type, `IsAliasChain` where aliases lead, and `IsLookup` what is answered, or why nothing is.
#![tactic(auto)]

pub use zst_edns::{
    AxfrPolicy, Edns, LookupControlFlow, LookupError, Nsec3HashAlgorithm, NxProofKind,
    ResponseCode, Salt, SaltLenError, ZoneType,
};
pub use zst_record::{
    ANAME, CNAME, DNSClass, Draft, LowerName, MX, NS, Name, OneOrMany, ProtoError, RData, Record,
    RecordRef, RecordSet, RecordType, RrKey, RrsetRecords, SOA, SRV, push,
};

mod answer_set;
mod auth_lookup;
mod lent_sets;
mod lookup_options;
mod lookup_records;
mod settings;

pub use answer_set::AnswerSet;
pub use auth_lookup::AuthLookup;
pub use lent_sets::{LentSets, ZoneSetsIter, sets_under};
pub use lookup_options::LookupOptions;
pub use lookup_records::{LookupRecords, LookupRecordsIter};
pub use settings::ZoneSettings;
