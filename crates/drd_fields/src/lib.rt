//! Record data field by field (RFC 1035 3.3): each type's data are numbers, names, strings and octets, one behind the
//! other. What is common to all types is read and written here, once.
//!
//! A type says which fields its data have, as a list that begins with the first one: `(u16, (Name, ()))` for MX. Two
//! calls carry it: `read_data`, exactly where the fields stand, and `emit_data`, which writes what reads back. A type
//! that is nothing but its fields says so as `FieldData`, and is then read at any length.
//!
//! Lent, the fields of all types are of one type, `FieldRef`. By lists of them data are compared (`are_same`), ordered
//! (`cmp_list`) and hashed (`hash_list`), and tested for what no message holds (`are_readable`). None of these takes
//! memory. The order is total, and `Equal` exactly where the fields are equal; of data whose names are fully qualified
//! both are those of the canonical octets (RFC 4034 6.3).
#![tactic(auto)]

pub use dnw_encoder::{
    BinDecodable, BinDecoder, BinEncodable, BinEncoder, DecodeError, EncodedSize, LabelIter, Name,
    NameEncoding, ParseError, ProtoError, RDataEncoding, Restrict,
};

mod data;
mod decodable;
mod emit;
mod few;
mod field_ref;
mod fields;
mod hashing;
mod list;
mod octets;
mod read;
mod readable;
mod strings;
mod window;

pub use data::{FieldData, is_same_data, read_value};
pub use decodable::RecordDataDecodable;
pub use emit::{
    DataField, DataFields, RestField, StringField, StringFields, emit_data, emit_three,
    octets_of_five,
};
pub use few::Fields;
pub use field_ref::FieldRef;
pub use fields::{CharacterString, CharacterStrings, Rest};
pub use list::{are_same, cmp_list, hash_list};
pub use read::{ReadField, ReadFields, read_data};
pub use readable::are_readable;
pub use window::read_window;
