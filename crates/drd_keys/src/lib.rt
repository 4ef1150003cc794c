//! Record data of keys, certificates and fingerprints.
#![tactic(auto)]

pub mod cert;
pub mod openpgpkey;
mod readable;
pub mod smimea;
pub mod sshfp;
pub mod tlsa;

pub use cert::CERT;
pub use openpgpkey::OPENPGPKEY;
pub use readable::{is_named_cert, is_named_sshfp, is_named_tlsa};
pub use smimea::SMIMEA;
pub use sshfp::SSHFP;
pub use tlsa::TLSA;
