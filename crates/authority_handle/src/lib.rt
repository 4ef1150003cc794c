//! A server for programs in other languages: octets and numbers in, octets and numbers out.
//!
//! A call returns 0 or a count, or the code of a `Refusal`: negative, or the number of a refused line of zone text. Its contract
//! says which, and what the server is afterwards.
#![tactic(auto)]

mod blocklists;
mod calls;
mod handler;
mod refusal;
mod server;
mod sources;

pub use blocklists::BlocklistSettings;
pub use calls::{add_blocklist, add_zone, close, empty, remove, serve, set_access, set_nsid};
pub use handler::Handler;
pub use refusal::Refusal;
pub use server::Server;
pub use sources::Network;
