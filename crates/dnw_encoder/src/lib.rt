//! Octets of a DNS message written in order: numbers, strings and names (RFC 1035 2.3.2, 3.3 and 4.1.4).
#![tactic(auto)]

pub use dnw_codes::{DecodeError, ParseError, ProtoError, Restrict};
pub use dnw_decoder::{
    BinDecodable, BinDecoder, CaseInsensitive, CaseSensitive, IntoLabel, IntoName, IpNet, Label,
    LabelCmp, LabelIter, LowerName, Name, PrefixLenError, RrKey,
};

mod buffer;
mod candidates;
mod eights;
mod encodable;
mod encoder;
mod modal;
mod modes;
mod name;
mod open_places;
mod place;
mod pointers;
mod sequence;
mod starts;

pub use encodable::{BinEncodable, EncodedSize};
pub use encoder::BinEncoder;
pub use modal::ModalEncoder;
pub use modes::{NameEncoding, RDataEncoding};
pub use place::Place;
