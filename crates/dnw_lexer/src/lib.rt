//! The words of zone files and of record data in text (RFC 1035 5.1), and times to live.
//!
//! A contract sees a `Lexer` as what it has not read yet, `Unread`. `IsToken` says which token stands there, or
//! which error and why, for every text: `Lexer::next_token` gives that and nothing else.
#![tactic(auto)]

pub use dnw_codes::{
    DNSClass, DecodeError, LexerError, ParseError, ParseResult, ProtoError, RecordType, Restrict,
    RestrictedMath, SerialNumber, Verified, error, number_behind,
};

mod character;
mod gap;
mod lexer;
mod list;
mod token;
mod ttl;
mod word;

pub use lexer::Lexer;
pub use token::Token;
pub use ttl::parse_ttl;
