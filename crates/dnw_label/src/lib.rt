//! Labels of domain names (RFC 1035 2.3.4 and 3.1), compared without regard to the case of ASCII letters
//! (RFC 4343).
//!
//! A contract sees a `Label` as its octets, and `IsLabel` says that they are 1 to 63. `label_eq` is its equality
//! and `label_cmp` its order, that of RFC 4034 6.1. `label_at` reads the label that a text begins with, and
//! `fmt_label` writes its text, each exactly by its definition.
#![tactic(auto)]

pub use dnw_codes::{DNSClass, DecodeError, ProtoError, RecordType, Restrict};

mod escape;
mod label;
mod label_iter;
mod label_print;
mod label_text;
mod labels;

pub use escape::octet_at;
pub use label::{
    CaseInsensitive, CaseSensitive, IntoLabel, Label, LabelCmp, cmp_octets, hash_octets,
};
pub use label_iter::LabelIter;
pub use label_print::fmt_label;
pub use label_text::label_at;
pub use labels::Labels;
