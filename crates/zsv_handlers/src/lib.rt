//! Handlers beside the zone in memory: lists of blocked names, and guarded zones, which take dynamic updates.
//!
//! This is the face of the crates below, and holds nothing of its own: lists from `zsv_blocklist`, guarded zones from
//! `zsv_sqlite`.
#![tactic(auto)]

pub use zsv_blocklist::{BlocklistConfig, BlocklistError, BlocklistZoneHandler, ReadFaults};
pub use zsv_sqlite::{InMemoryZoneHandler, SqliteZoneHandler};
