//! The keys of services' parameters, what their values are lists of, in octets and in texts, and those lists: keys,
//! protocols and addresses, and octets as they are (RFC 9460 2.1).
#![tactic(auto)]

pub use dnw_encoder::{BinDecodable, BinDecoder, BinEncodable, BinEncoder};
pub use drd_words::{
    DecodeError, Name, ParseError, ProtoError, TextData, Word, Words, fmt_base64, fmt_escaped,
    unescaped, words_of_text,
};

mod emit;
mod entry;
mod key;
mod lists;
mod octets;
mod print;
mod read;
mod texts;
mod words;

pub use emit::emit_entries;
pub use entry::{Entry, octets_of_all, read_all};
pub use key::SvcParamKey;
pub use lists::{Alpn, EchConfigList, IpHint, Mandatory, Unknown};
pub use read::{read_alpn, read_mandatory};
pub use texts::{entries_of, fmt_list};
pub use words::{base64_octets, parts_of, unquoted};
