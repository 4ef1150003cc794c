//! An authoritative DNS server, from the octets of a request to the octets of its reply.
#![tactic(auto)]

pub use authority_server::{
    A, AccessControl, Arrival, Authority, DNSClass, Faults, IpNet, Label, NS, NSIDPayload, Name,
    NoSuite, Nsec3QueryInfo, Protocol, RData, Record, RecordSet, RecordType, SOA, ServeError,
    SignFault, StreamError, TSigResponseContext, Tsig, TsigRecord, TsigSuite, TsigVerdict,
    ZoneHandler,
};
pub use authority_transfer::{
    AuthLookup, AxfrPolicy, DnssecZoneHandler, InMemoryZoneHandler, LoadCause, LoadError,
    LookupControlFlow, LookupError, LookupOptions, LowerName, Nsec3HashAlgorithm, NxProofKind,
    ProtoError, ResponseCode, RrKey, Salt, SignerFault, StoredZone, TransferError, ZoneError,
    ZoneSettings, ZoneSignature, ZoneSigner, ZoneTransfer, ZoneType, load_zone,
};

mod back;
pub mod denial;
pub mod program;
mod transfer;

pub use back::{record_reads_back, zone_reads_back};
pub use transfer::load_transfer;
