//! What denies names and types in a zone, and what signs its sets (RFC 4034, 4035 and 5155).
//!
//! `IsSecured` says that a zone is secured by NSEC: exactly its authoritative names own an NSEC set, each the one of the next
//! name. `IsSecuredByHash` says the same of NSEC3. `IsNsecDenial` and `IsNsec3Denial` say which sets a zone shows for a name
//! that it hasn't. Laws of a secured zone: what doesn't exist is covered, what is authoritative isn't; a type that a name
//! hasn't is lacked by its NSEC record, one that it has isn't.
#![tactic(auto)]

pub use drd_denial::{
    NULL, NsecData, RecordTypeSet, ZoneSignature, is_between, nsec_data, nsec3_data,
    nsec3param_data, rrsig_data,
};
pub use zst_handler::{
    ANAME, AnswerSet, AuthLookup, AxfrPolicy, CNAME, DNSClass, Draft, Edns, LentSets,
    LookupControlFlow, LookupError, LookupOptions, LookupRecords, LookupRecordsIter, LowerName, MX,
    NS, Name, Nsec3HashAlgorithm, NxProofKind, OneOrMany, ProtoError, RData, Record, RecordRef,
    RecordSet, RecordType, ResponseCode, RrKey, RrsetRecords, SOA, SRV, Salt, SaltLenError,
    ZoneSetsIter, ZoneSettings, ZoneType, push, sets_under,
};
pub use zst_hash::{
    KeyRef, NameKey, NameList, WholeKey, hashed_owner, nearest, nearest_above, nsec3_digest,
};

mod laws;
mod shown;
mod signatures;
mod signer;

pub use laws::{
    absent_names_are_covered, owned_types_are_not_lacked, present_names_are_not_covered,
    unchanged_circles_secure, unchanged_digests_secure, unowned_types_are_lacked,
};
pub use shown::{absent_names_are_denied, denials_are_stored, unowned_types_are_denied};
pub use signatures::sign_set;
pub use signer::{SignerFault, ZoneSigner};
