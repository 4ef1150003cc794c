//! Record data of every type as one (RFC 1035 3.2.1): read from messages and texts, written, compared and printed by the
//! type of their record.
#![tactic(auto)]

pub use drd_names_keys::{
    ANAME, BinDecoder, CERT, CNAME, CSYNC, MX, NS, OPENPGPKEY, PTR, SMIMEA, SOA, SRV, SSHFP, TLSA,
    cert, sshfp, tlsa,
};
pub use drd_svcb::{
    A, AAAA, Alpn, EchConfigList, HTTPS, IpHint, Mandatory, SVCB, SvcParamKey, SvcParamValue,
    Unknown, emit_params, octets_of, read_params,
};
pub use drd_types::{
    BinDecodable, BinEncodable, BinEncoder, CAA, ClientSubnet, DNSClass, DecodeError, EdnsCode,
    EdnsOption, EncodedSize, FieldData, FieldRef, Fields, HEX, HINFO, IpNet, KeyValue, Label,
    LowerName, NAPTR, NSIDPayload, NULL, Name, NameEncoding, OPT, ProtoError, RecordDataDecodable,
    RecordType, RrKey, TXT, TextData, is_tag, read_iodef, read_issuer, verify_flags,
};

mod case;
mod emit;
mod exceeding;
mod kinds;
mod order;
mod print;
mod rdata;
mod read;
mod readable;
mod text;
mod text_type;

pub use exceeding::exceeds_rdlength;
pub use rdata::RData;
pub use readable::is_readable;
