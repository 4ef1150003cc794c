//! Record data of strings and octets, of certificates' issuers and of options, as one crate for those above.
//!
//! It holds nothing of its own.
#![tactic(auto)]

pub use drd_caa::{CAA, KeyValue, is_tag, read_iodef, read_issuer};
pub use drd_opt::{
    BinDecodable, ClientSubnet, EdnsCode, EdnsOption, EncodedSize, FieldData, FieldRef, Fields,
    HEX, IpNet, Label, LowerName, NSIDPayload, Name, NameEncoding, OPT, RecordDataDecodable, RrKey,
    TextData, are_readable, can_read_opt, cmp_list, hash_list,
};
pub use drd_plain::{
    BinEncodable, BinEncoder, DNSClass, DecodeError, HINFO, NAPTR, NULL, ParseError, ProtoError,
    RecordType, Restrict, TXT, verify_flags,
};
