//! The names of types in texts (RFC 1035 3.2.2, RFC 3597 5).
ghost use Rattle.std.specs.Prelude.{◌≡◌, Some, find};
ghost use Rattle.std.specs.Option.{ok_or};
ghost use Rattle.std.specs.Str.{bytes_eq};
ghost use Rattle.dnw_codes.specs.RecordType.{record_type_name, named_record_types};
ghost use Rattle.dnw_codes.specs.declared.error.DecodeError.TheVariants.{UnknownRecordTypeStr};

use crate::digits::number_behind;
use crate::error::DecodeError;
use crate::record_type::RecordType;
use std::fmt;
use std::str::FromStr;

impl From<RecordType> for &'static str {
    ghost use Rattle.dnw_codes.specs.RecordType.{record_type_name};

    ghost from_gives = { λ record_type name. name.now ≡ record_type_name record_type };

    fn from(record_type: RecordType) -> &'static str {
        match record_type {
            RecordType::ZERO => "ZERO",
            RecordType::A => "A",
            RecordType::NS => "NS",
            RecordType::CNAME => "CNAME",
            RecordType::SOA => "SOA",
            RecordType::NULL => "NULL",
            RecordType::PTR => "PTR",
            RecordType::HINFO => "HINFO",
            RecordType::MX => "MX",
            RecordType::TXT => "TXT",
            RecordType::SIG => "SIG",
            RecordType::KEY => "KEY",
            RecordType::AAAA => "AAAA",
            RecordType::SRV => "SRV",
            RecordType::NAPTR => "NAPTR",
            RecordType::CERT => "CERT",
            RecordType::DNAME => "DNAME",
            RecordType::OPT => "OPT",
            RecordType::DS => "DS",
            RecordType::SSHFP => "SSHFP",
            RecordType::RRSIG => "RRSIG",
            RecordType::NSEC => "NSEC",
            RecordType::DNSKEY => "DNSKEY",
            RecordType::NSEC3 => "NSEC3",
            RecordType::NSEC3PARAM => "NSEC3PARAM",
            RecordType::TLSA => "TLSA",
            RecordType::SMIMEA => "SMIMEA",
            RecordType::CDS => "CDS",
            RecordType::CDNSKEY => "CDNSKEY",
            RecordType::OPENPGPKEY => "OPENPGPKEY",
            RecordType::CSYNC => "CSYNC",
            RecordType::SVCB => "SVCB",
            RecordType::HTTPS => "HTTPS",
            RecordType::TSIG => "TSIG",
            RecordType::IXFR => "IXFR",
            RecordType::AXFR => "AXFR",
            RecordType::ANY => "ANY",
            RecordType::CAA => "CAA",
            RecordType::ANAME => "ANAME",
            RecordType::Unknown(_) => "UNKNOWN",
        }
    }
}

impl fmt::Display for RecordType {
    ghost use Rattle.dnw_codes.specs.RecordType.{record_type_text};

    ghost output = { λ record_type. Some (record_type_text record_type) };

    fn fmt<W: fmt::Write>(&self, f: &mut fmt::Formatter<W>) -> fmt::Result {
        match self {
            RecordType::Unknown(number) => write!(f, "TYPE{number}"),
            named => f.write_str((*named).into()),
        }
    }
}

// The types that have a name, by rising number.
const NAMED: [RecordType; 39] = [
    RecordType::ZERO,
    RecordType::A,
    RecordType::NS,
    RecordType::CNAME,
    RecordType::SOA,
    RecordType::NULL,
    RecordType::PTR,
    RecordType::HINFO,
    RecordType::MX,
    RecordType::TXT,
    RecordType::SIG,
    RecordType::KEY,
    RecordType::AAAA,
    RecordType::SRV,
    RecordType::NAPTR,
    RecordType::CERT,
    RecordType::DNAME,
    RecordType::OPT,
    RecordType::DS,
    RecordType::SSHFP,
    RecordType::RRSIG,
    RecordType::NSEC,
    RecordType::DNSKEY,
    RecordType::NSEC3,
    RecordType::NSEC3PARAM,
    RecordType::TLSA,
    RecordType::SMIMEA,
    RecordType::CDS,
    RecordType::CDNSKEY,
    RecordType::OPENPGPKEY,
    RecordType::CSYNC,
    RecordType::SVCB,
    RecordType::HTTPS,
    RecordType::TSIG,
    RecordType::IXFR,
    RecordType::AXFR,
    RecordType::ANY,
    RecordType::CAA,
    RecordType::ANAME,
];

fn named(text: &str) -> Option<RecordType>
    ensures { result ≡ find (λ named. bytes_eq (record_type_name named) text.now) named_record_types }
{
    NAMED.iter().copied().find(|named| {
        let name: &'static str = (*named).into();
        name == text
    })
}

impl FromStr for RecordType {
    ghost use Rattle.dnw_codes.specs.RecordType.{record_type_of_text};

    type Err = DecodeError;

    ghost from_str_gives = { λ text result. result ≡ ok_or (record_type_of_text text) UnknownRecordTypeStr };

    fn from_str(text: &str) -> Result<RecordType, DecodeError> {
        if let Some(record_type) = named(text) {
            return Ok(record_type);
        }
        match number_behind("TYPE", text) {
            Some(number) => Ok(RecordType::from(number)),
            None => Err(DecodeError::UnknownRecordTypeStr),
        }
    }
}
