//! Records and their sets (RFC 1035 section 4.1.3, RFC 2181 section 5).
//!
//! A contract sees a `RecordSet` as an `RRset`. A record that reads back alone (`ReadsBackAlone`) is written as what reads
//! back (`EmitsRecord`), or never, where its RDATA exceed RDLENGTH.
#![tactic(auto)]

pub use drd_rdata::{
    A, AAAA, ANAME, BinDecodable, BinDecoder, BinEncodable, BinEncoder, CNAME, DNSClass,
    DecodeError, EncodedSize, Label, LowerName, MX, NS, Name, NameEncoding, ProtoError, RData,
    RecordType, RrKey, SOA, SRV,
};

mod draft;
mod emit;
mod lists;
mod one_or_many;
mod read;
mod record_set;
mod records;
mod rrset_records;

pub use draft::Draft;
pub use lists::push;
pub use one_or_many::OneOrMany;
pub use record_set::RecordSet;
pub use records::{Record, RecordRef};
pub use rrset_records::RrsetRecords;
