//! Flags of NAPTR (RFC 3403 4.1).
pub use drd_rdata::{NAPTR, verify_flags};
