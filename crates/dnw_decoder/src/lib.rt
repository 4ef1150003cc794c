//! Octets of a DNS message read in order: numbers, strings and names (RFC 1035 2.3.2, 3.3 and 4.1.4).
//!
//! A contract sees a `BinDecoder` as the octets of its message and the index that is read next. What is read
//! stands there, and the index moves behind it; a refused read leaves it.
#![tactic(auto)]

pub use dnw_name::{
    CaseInsensitive, CaseSensitive, IntoLabel, IntoName, IpNet, Label, LabelCmp, LabelIter,
    LowerName, Name, PrefixLenError, RrKey, word,
};

mod chains;
mod decodable;
mod decoder;
mod name;
mod tails;

pub use decodable::BinDecodable;
pub use decoder::BinDecoder;
