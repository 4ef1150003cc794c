//! Blocks of addresses (RFC 4632 3.1, RFC 4291 2.3), and the labels of the names of addresses and blocks, below
//! `in-addr.arpa.` and `ip6.arpa.` (RFC 1035 3.5, RFC 3596 2.5).
//!
//! `in_network` says which addresses are in a block; `IpNet::contains` is its test. `IsBelowSuffix` says which labels are
//! those of a block; `net_of_v4` and `net_of_v6` read exactly these.
#![tactic(auto)]

pub use dnw_label::{
    CaseInsensitive, CaseSensitive, DNSClass, DecodeError, IntoLabel, Label, LabelCmp, LabelIter,
    Labels, ProtoError, RecordType, Restrict, cmp_octets, fmt_label, hash_octets, label_at,
    octet_at,
};

mod net;
mod network;

pub use net::{IpNet, PrefixLenError};
pub use network::{hex_digit, net_of_v4, net_of_v6};
