//! Records whose names point to the name of a message's first question (RFC 1035 section 4.1.4).
//!
//! The octets of such a record are known before the message is: they are the record wherever they stand behind the question
//! (`IsPointing`). So most replies take no encoder.
#![tactic(auto)]

mod names;
mod records;

pub use records::push_pointing;
