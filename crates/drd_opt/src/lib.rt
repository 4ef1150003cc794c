//! Options of EDNS (RFC 6891 6.1.2): their codes, and what they hold; and record data of type OPT, which are such options.
//!
//! Data are equal where they have the same options, in whatever order. `OPT::cmp_data` is a total order that says `Equal`
//! there alone; of data that were read it is the order of their canonical octets, those of the options in order (RFC 4034
//! 6.3).
#![tactic(auto)]

pub use drd_fields::{
    BinDecodable, EncodedSize, FieldData, FieldRef, Fields, NameEncoding, RecordDataDecodable,
    are_readable, cmp_list, hash_list,
};
pub use drd_words::{HEX, IpNet, Label, LowerName, Name, RrKey, TextData};

mod back;
mod code;
mod entry;
mod equality;
mod nsid;
mod opt;
mod option;
mod order;
mod read;
mod readable;
mod subnet;
mod text;

pub use back::is_read_back;
pub use code::EdnsCode;
pub use nsid::NSIDPayload;
pub use opt::OPT;
pub use option::EdnsOption;
pub use readable::can_read_opt;
pub use subnet::ClientSubnet;
