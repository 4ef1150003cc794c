//! Guarded zones, which take dynamic updates (RFC 2136) from those that sign them (RFC 8945).
//!
//! A contract sees the handler as the stored zone with its guard (`guarded_zone`). An update is refused by the code that
//! `update_refused` gives, or leaves what `updated` says.
#![tactic(auto)]

pub use zst_draft::{
    AxfrPolicy, DnssecZoneHandler, InMemoryZoneHandler, Name, NameKey, Record, RecordSet,
    RecordType, ResponseCode, SignerFault, ZoneError, ZoneHandler, ZoneSignature, ZoneSigner,
};
pub use zst_request::{RequestTsig, TSigResponseContext, TsigVerdict, ZoneRequest};

mod changes;
mod context;
mod groups;
mod handler;
mod prerequisites;
mod prescan;
mod zone_handler;

pub use handler::SqliteZoneHandler;
