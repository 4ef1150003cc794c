//! Record data that say which certificates may be issued for a domain (RFC 8659).
#![tactic(auto)]

mod caa;
mod issuer;
mod key_value;
mod value;
mod words;

pub use caa::CAA;
pub use issuer::read_issuer;
pub use key_value::KeyValue;
pub use value::read_iodef;
pub use words::is_tag;
