//! The handler of lists of blocked names: what is answered in place of those that it blocks.
//!
//! A contract sees a list as a `Blocklist`: its names and settings. `blocked_answer` says what it answers to a name and a
//! type, and each call of `ZoneHandler` says what it makes of that.
#![tactic(auto)]

pub use zst_request::{
    BlocklistConsultAction, NameKey, Nsec3QueryInfo, TSigResponseContext, ZoneRequest,
};
pub use zsv_blocked::{BlocklistError, ReadFaults};

mod config;
mod handler;
mod records;
mod sinkholes;
mod zone_handler;

pub use config::BlocklistConfig;
pub use handler::BlocklistZoneHandler;
