//! Record data that are addresses, A and AAAA, and the parameters of SVCB data (RFC 9460 2.1): the values of their keys,
//! addresses among them, and lists whose keys rise.
#![tactic(auto)]

pub use drd_fields::{
    BinDecoder, BinEncodable, BinEncoder, DecodeError, FieldRef, Name, ParseError, ProtoError,
    RDataEncoding, RecordDataDecodable, Rest, Restrict, emit_three, read_window,
};
pub use drd_param_keys::{
    Alpn, EchConfigList, IpHint, Mandatory, SvcParamKey, TextData, Unknown, Word, Words, unescaped,
    words_of_text,
};

mod a;
mod aaaa;
mod data;
mod emit;
mod entry;
mod hash;
mod len;
mod list_data;
mod params;
mod print;
mod same;
mod value;

pub use a::A;
pub use aaaa::AAAA;
pub use data::EntryData;
pub use emit::emit_params;
pub use entry::octets_of;
pub use list_data::cmp_all;
pub use params::{Stopped, read_params, read_params_until};
pub use print::fmt_param;
pub use same::are_same_params;
pub use value::SvcParamValue;
