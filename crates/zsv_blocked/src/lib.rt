//! Names that are blocked, and the lists that name them.
//!
//! `AddsListed` says which names the text of a list adds; `is_listed` and `has_wildcard` say which names are blocked.
#![tactic(auto)]

mod faults;
mod names;
mod read;
mod text;

pub use faults::ReadFaults;
pub use names::BlockedNames;
pub use read::{BlocklistError, add_list, read_list};
