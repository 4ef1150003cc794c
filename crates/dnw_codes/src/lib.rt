//! Numbers of DNS messages under their names: types of records, classes, serial numbers, and the
//! errors of reading and writing.
#![tactic(auto)]

mod digits;
mod dns_class;
pub mod error;
mod record_type;
mod record_type_text;
mod restrict;
mod serial_number;

pub use digits::number_behind;
pub use dns_class::DNSClass;
pub use error::{DecodeError, LexerError, ParseError, ParseResult, ProtoError};
pub use record_type::RecordType;
pub use restrict::{Restrict, RestrictedMath, Verified};
pub use serial_number::SerialNumber;
