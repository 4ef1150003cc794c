//! Options of EDNS (RFC 6891 6.1.2).
pub use drd_rdata::{ClientSubnet, EdnsCode, EdnsOption, NSIDPayload, OPT};
