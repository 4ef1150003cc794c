//! Record data of services: SVCB and HTTPS (RFC 9460).
#![tactic(auto)]

pub use drd_params::{
    A, AAAA, Alpn, EchConfigList, IpHint, Mandatory, Name, SvcParamKey, SvcParamValue, TextData,
    Unknown, emit_params, octets_of, read_params, words_of_text,
};

mod https;
mod order;
mod params_hash;
mod params_order;
mod readable;
mod svcb;
mod value;
mod words;

pub use https::HTTPS;
pub use readable::{are_params, can_read_service};
pub use svcb::SVCB;
