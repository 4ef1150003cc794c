//! Domain names and their labels (RFC 1035 2.3 and 3.1), in the canonical order of RFC 4034 6.1.
//!
//! A contract sees a `Name` as a `DomainName`: a flag and the labels from the left. `name_cmp` is its order and
//! `name_eq` its equality, and `is_at_or_below` says that a name lies in a zone. `Name::zone_of` says that a
//! zone's origin stands before its names and that they stand together; `Name::from_ascii` and `Name::to_ascii`
//! read and print texts, each exactly by its definition.
#![tactic(auto)]

pub use dnw_net::{
    CaseInsensitive, CaseSensitive, DNSClass, DecodeError, IntoLabel, IpNet, Label, LabelCmp,
    LabelIter, PrefixLenError, ProtoError, RecordType, Restrict, octet_at,
};

mod arpa;
mod from_labels;
mod lower_name;
mod name;
mod name_print;
mod name_text;
mod network;
mod octets;
mod rr_key;

pub use lower_name::LowerName;
pub use name::Name;
pub use name_text::IntoName;
pub use octets::word;
pub use rr_key::RrKey;
