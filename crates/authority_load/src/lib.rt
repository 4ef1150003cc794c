//! A zone from its text (RFC 1035 section 5.1): one record a line, no directives and no relative names.
//!
//! `load_zone` returns exactly the zone that the lines give, in order (`IsZoneText`); else the first line that is refused, with
//! the first cause that applies to it. The zone is one that transfers and updates can build on (`IsLoaded`).
#![tactic(auto)]

pub use zst_zone::{
    AuthLookup, AxfrPolicy, DnssecZoneHandler, InMemoryZoneHandler, LookupControlFlow, LookupError,
    LookupOptions, LowerName, NameKey, Nsec3HashAlgorithm, NxProofKind, ProtoError, ResponseCode,
    RrKey, Salt, SignerFault, StoredZone, ZoneError, ZoneSettings, ZoneSignature, ZoneSigner,
    ZoneTransfer, ZoneType,
};

mod joining;
mod line;
mod loader;
mod number;
mod text;
mod words;

pub use joining::{is_beside_alias, is_second_start, join};
pub use loader::{LoadCause, LoadError, load_zone};
pub use number::parse_u64;
pub use text::{TextError, parse_owner};
