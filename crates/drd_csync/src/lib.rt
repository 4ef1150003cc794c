//! CSYNC record data (RFC 7477): which data of a child zone its parent is to copy.
#![tactic(auto)]

pub use dnw_wire::{BinDecoder, BinEncodable, BinEncoder};

mod csync;
mod flags;
mod read;
mod types;

pub use csync::CSYNC;
