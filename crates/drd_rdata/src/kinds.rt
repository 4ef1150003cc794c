//! Types of records, and sets of them.
ghost use Rattle.std.specs.Prelude.{◌↔◌, IsTrue};
ghost use Rattle.drd_rdata.specs.declared.rdata.RData.TheVariants as variant;
ghost use Rattle.drd_rdata.specs.Reading.{IsOther};
ghost use Rattle.drd_rdata.specs.Readable.{CanBeRead};

use drd_names_keys::CSYNC;
use drd_types::RecordType;

/// Whether data of this type have no form of their own here, and records may be of it: they are kept as octets (RFC 3597
/// 3).
pub(crate) fn is_other(code: RecordType) -> bool
    ensures { IsTrue result ↔ IsOther code }
{
    match code {
        RecordType::A
        | RecordType::AAAA
        | RecordType::ANAME
        | RecordType::CAA
        | RecordType::CERT
        | RecordType::CNAME
        | RecordType::CSYNC
        | RecordType::HINFO
        | RecordType::HTTPS
        | RecordType::MX
        | RecordType::NAPTR
        | RecordType::NULL
        | RecordType::NS
        | RecordType::OPENPGPKEY
        | RecordType::OPT
        | RecordType::PTR
        | RecordType::SMIMEA
        | RecordType::SOA
        | RecordType::SRV
        | RecordType::SSHFP
        | RecordType::SVCB
        | RecordType::TLSA
        | RecordType::TXT
        | RecordType::ZERO
        | RecordType::ANY
        | RecordType::AXFR
        | RecordType::IXFR => false,
        _ => true,
    }
}

/// Any flags and any set of types can be read (RFC 7477 2.1).
pub(crate) fn can_read_csync(csync: &CSYNC) -> bool
    ensures { IsTrue result ↔ CanBeRead (variant.CSYNC csync.now) }
{
    // The types of a set rise.
    let _none = csync.type_bit_maps.is_empty();
    true
}
