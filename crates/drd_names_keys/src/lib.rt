//! Record data of names, of keys and certificates, and of sets of types, as one crate for those above.
//!
//! It holds nothing of its own.
#![tactic(auto)]

pub use drd_csync::{BinDecoder, BinEncodable, BinEncoder, CSYNC};
pub use drd_keys::{
    CERT, OPENPGPKEY, SMIMEA, SSHFP, TLSA, cert, is_named_cert, is_named_sshfp, is_named_tlsa,
    sshfp, tlsa,
};
pub use drd_names::{ANAME, CNAME, MX, NS, PTR, SOA, SRV};
