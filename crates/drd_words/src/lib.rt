//! Record data in words (RFC 1035 5.1): what one word stands for, several words one behind the other, the words of
//! a text, and what is printed in their place.
//!
//! `Word` reads one word and `Words` all that are left. `(A, B)` reads a word as `A` and the rest as `B`, and `()`
//! that no word is left, so `(u16, (Name, ()))` reads the words of an MX record. `TextData` are data that are made of
//! such parts.
#![tactic(auto)]

pub use dnw_lexer::{
    DNSClass, DecodeError, ParseError, ProtoError, RecordType, Restrict, number_behind,
};
pub use dnw_name::{IpNet, Label, LowerName, Name, PrefixLenError, RrKey};

mod data;
mod escape;
mod print;
mod text;
mod text_data;
mod tokens;
mod word;
mod words;

pub use data::{Base64Data, HEX, HexData};
pub use escape::unescaped;
pub use print::{fmt_base64, fmt_escaped, fmt_hex, fmt_quoted};
pub use text::{read_text, words_of_text};
pub use text_data::TextData;
pub use tokens::read_tokens;
pub use word::{CharacterString, TimeInterval, TimeToLive, Word};
pub use words::Words;
