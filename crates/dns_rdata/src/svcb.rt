//! Keys and values of services (RFC 9460 2.1 and 2.2).
pub use drd_rdata::{
    Alpn, EchConfigList, IpHint, Mandatory, SVCB, SvcParamKey, SvcParamValue, Unknown, emit_params,
    read_params,
};
