//! Domain names, the codes of DNS messages, and their octets.
//!
//! This is the face of the crates below, and holds nothing of its own: codes and errors from `dnw_codes`, labels and
//! names from `dnw_name`, blocks of addresses from `dnw_net`, the words of zone files from `dnw_lexer`, reading and
//! writing from `dnw_wire`.
#![tactic(auto)]

pub use dnw_lexer::{
    DNSClass, DecodeError, Lexer, LexerError, ParseError, ParseResult, ProtoError, RecordType,
    Restrict, RestrictedMath, SerialNumber, Token, Verified, error, parse_ttl,
};
pub use dnw_wire::{
    BinDecodable, BinDecoder, BinEncodable, BinEncoder, CaseInsensitive, CaseSensitive,
    EncodedSize, IntoLabel, IntoName, IpNet, Label, LabelCmp, LabelIter, LowerName, ModalEncoder,
    Name, NameEncoding, Place, PrefixLenError, RDataEncoding, RecordTypeIter, RecordTypeSet, RrKey,
};
