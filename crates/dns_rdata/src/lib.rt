//! Record data by type, and as one: read from messages and texts, written, compared and printed.
//!
//! This is the face of the crates below, and holds nothing of its own. Types whose codes and values have names of their
//! own have a module each, as `svcb`.
#![tactic(auto)]

pub use drd_rdata::{
    A, AAAA, ANAME, CAA, CERT, CNAME, CSYNC, FieldData, FieldRef, Fields, HEX, HINFO, HTTPS, IpNet,
    MX, NAPTR, NS, NULL, OPENPGPKEY, OPT, PTR, RData, RecordDataDecodable, SMIMEA, SOA, SRV, SSHFP,
    SVCB, TLSA, TXT, TextData, cert, exceeds_rdlength, is_readable, sshfp, tlsa,
};
pub use drd_record_data::RecordData;

pub mod caa;
pub mod naptr;
pub mod opt;
pub mod svcb;
