//! Which sets of a zone deny a name or a type (RFC 4035 section 3.1.3, RFC 5155 section 7.2).
//!
//! `nsec_denial` shows the sets of `IsNsecDenial`, `nsec3_denial` those of `IsNsec3Denial`, each owner's once. The set of a
//! name is the last at or before it. The closest encloser is found by at most nine searches, whatever the name's length:
//! where a name exists, all names above it do.
#![tactic(auto)]

pub use zst_denial::{
    NULL, NsecData, RecordTypeSet, SignerFault, ZoneSignature, ZoneSigner, hashed_owner, nsec_data,
    nsec3_data, nsec3_digest, nsec3param_data, rrsig_data, sign_set,
};
pub use zst_map::{
    AnswerSet, AuthLookup, AxfrPolicy, DNSClass, Draft, Edit, LentSets, LookupControlFlow,
    LookupError, LookupOptions, LookupRecords, LookupRecordsIter, LowerName, Match, Name, NameKey,
    Nsec3HashAlgorithm, NxProofKind, ProtoError, RData, Record, RecordRef, RecordSet, RecordType,
    ResponseCode, RrKey, RrsetRecords, Salt, SaltLenError, Search, ZoneSets, ZoneSetsIter,
    ZoneSettings, ZoneType, push,
};

mod by_hash;
mod by_name;
mod enclosing;
mod listing;

pub use by_hash::{HashedQuery, nsec3_denial};
pub use by_name::nsec_denial;
