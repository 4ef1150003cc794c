//! Record data of strings and flags, and data that are octets alone.
#![tactic(auto)]

pub use drd_fields::{
    BinEncodable, BinEncoder, CharacterString, FieldData, FieldRef, Fields, RDataEncoding, Rest,
    RestField, StringField, emit_three, hash_list, is_same_data,
};
pub use drd_words::{
    DNSClass, DecodeError, ParseError, ProtoError, RecordType, Restrict, TextData,
};

mod flags;
mod hinfo;
mod naptr;
mod null;
mod txt;

pub use flags::verify_flags;
pub use hinfo::HINFO;
pub use naptr::NAPTR;
pub use null::NULL;
pub use txt::TXT;
