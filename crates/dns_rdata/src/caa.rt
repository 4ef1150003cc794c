//! Values of CAA properties (RFC 8659 4).
pub use drd_rdata::{CAA, KeyValue, read_iodef, read_issuer};
