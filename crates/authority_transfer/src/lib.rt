//! A zone from a reply to an AXFR question (RFC 5936): the whole zone, in one message.
//!
//! `load_transfer` returns exactly the zone of the records that the reply transfers (`IsTransferOf`), or the first cause that
//! refuses the reply or one of its records. Where the reply is the transfer of a loaded zone, its zone answers every question
//! as that zone does (`TwoRoads`).
#![tactic(auto)]

pub use authority_load::{
    AuthLookup, AxfrPolicy, DnssecZoneHandler, InMemoryZoneHandler, LoadCause, LoadError,
    LookupControlFlow, LookupError, LookupOptions, LowerName, Nsec3HashAlgorithm, NxProofKind,
    ProtoError, ResponseCode, RrKey, Salt, SignerFault, StoredZone, TextError, ZoneError,
    ZoneSettings, ZoneSignature, ZoneSigner, ZoneTransfer, ZoneType, load_zone, parse_owner,
    parse_u64,
};
pub use zsv_message::Name;

mod answers;
mod error;
mod fault;
mod frame;
mod loader;
mod reply;

pub use error::TransferError;
pub use loader::load_transfer;
