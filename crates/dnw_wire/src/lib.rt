//! Names, numbers and sets of record types in the octets of DNS messages: what is read, and what is written.
//!
//! `BinDecoder` and `BinDecodable` read, `BinEncoder` and `BinEncodable` write, and `RecordTypeSet`, a set of types as bit
//! maps name them (RFC 4034 4.1.2), does both. A contract sees a `RecordTypeSet` as the numbers of its types, which rise.
//! `read_data` reads exactly the bit maps, and `emit` writes them without a zero octet at a window's end. Sets stand in the
//! order of what `emit` writes (RFC 4034 6.3), which is told without writing it.
#![tactic(auto)]

pub use dnw_codes::{DecodeError, ParseError, ProtoError, RecordType, Restrict};
pub use dnw_encoder::{
    BinDecodable, BinDecoder, BinEncodable, BinEncoder, CaseInsensitive, CaseSensitive,
    EncodedSize, IntoLabel, IntoName, IpNet, Label, LabelCmp, LabelIter, LowerName, ModalEncoder,
    Name, NameEncoding, Place, PrefixLenError, RDataEncoding, RrKey,
};

mod bits;
mod order;
mod read;
mod set;
mod write;

pub use set::{RecordTypeIter, RecordTypeSet};
