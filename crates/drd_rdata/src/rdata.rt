//! Record data of every type.
ghost use Rattle.std.specs.Prelude.{◌≡◌};
ghost use Rattle.drd_rdata.specs.Types.{type_of, address_of};

use drd_names_keys::{
    ANAME, CERT, CNAME, CSYNC, MX, NS, OPENPGPKEY, PTR, SMIMEA, SOA, SRV, SSHFP, TLSA,
};
use drd_svcb::{A, AAAA, HTTPS, SVCB};
use drd_types::{CAA, HINFO, NAPTR, NULL, OPT, RecordType, TXT};
use std::net::{IpAddr, Ipv4Addr, Ipv6Addr};

/// The data of a record, by its type.
#[derive(Clone, Debug, Drop)]
pub enum RData {
    /// A host's IPv4 address (RFC 1035 3.4.1).
    A(A),
    /// A host's IPv6 address (RFC 3596 2.2).
    AAAA(AAAA),
    /// The name whose addresses stand for the owner's own.
    ANAME(ANAME),
    /// Who may issue certificates (RFC 8659 4).
    CAA(CAA),
    /// A certificate (RFC 4398 2).
    CERT(CERT),
    /// The canonical name of an alias (RFC 1035 3.3.1).
    CNAME(CNAME),
    /// What a parent is to copy from a child (RFC 7477 2.1).
    CSYNC(CSYNC),
    /// A host's processor and system (RFC 1035 3.3.2).
    HINFO(HINFO),
    /// The binding of an HTTPS service (RFC 9460 9).
    HTTPS(HTTPS),
    /// A mail exchange (RFC 1035 3.3.9).
    MX(MX),
    /// A rule that rewrites a name (RFC 3403 4.1).
    NAPTR(NAPTR),
    /// Any octets (RFC 1035 3.3.10).
    NULL(NULL),
    /// A name server (RFC 1035 3.3.11).
    NS(NS),
    /// An OpenPGP key (RFC 7929 2.3).
    OPENPGPKEY(OPENPGPKEY),
    /// The options of a message (RFC 6891 6.1.2).
    OPT(OPT),
    /// A pointer to a name (RFC 1035 3.3.12).
    PTR(PTR),
    /// A certificate of a mailbox (RFC 8162 2).
    SMIMEA(SMIMEA),
    /// The start of a zone of authority (RFC 1035 3.3.13).
    SOA(SOA),
    /// The place of a service (RFC 2782).
    SRV(SRV),
    /// A fingerprint of an SSH key (RFC 4255 3.1).
    SSHFP(SSHFP),
    /// The binding of a service (RFC 9460 2).
    SVCB(SVCB),
    /// A certificate of a TLS service (RFC 6698 2.1).
    TLSA(TLSA),
    /// Strings (RFC 1035 3.3.14).
    TXT(TXT),
    /// The octets of a record of any other type (RFC 3597 3).
    Unknown { code: RecordType, rdata: NULL },
    /// No data: a record of an update that names a type alone (RFC 2136 2.4, 2.5).
    Update0(RecordType),
    /// No data of type 0, which a record never has (RFC 2931 3.1).
    ZERO,
}

impl RData {
    /// The type of a record with these data.
    pub fn record_type(&self) -> RecordType
        ensures { result ≡ type_of self.now }
    {
        match self {
            RData::A(_) => RecordType::A,
            RData::AAAA(_) => RecordType::AAAA,
            RData::ANAME(_) => RecordType::ANAME,
            RData::CAA(_) => RecordType::CAA,
            RData::CERT(_) => RecordType::CERT,
            RData::CNAME(_) => RecordType::CNAME,
            RData::CSYNC(_) => RecordType::CSYNC,
            RData::HINFO(_) => RecordType::HINFO,
            RData::HTTPS(_) => RecordType::HTTPS,
            RData::MX(_) => RecordType::MX,
            RData::NAPTR(_) => RecordType::NAPTR,
            RData::NULL(_) => RecordType::NULL,
            RData::NS(_) => RecordType::NS,
            RData::OPENPGPKEY(_) => RecordType::OPENPGPKEY,
            RData::OPT(_) => RecordType::OPT,
            RData::PTR(_) => RecordType::PTR,
            RData::SMIMEA(_) => RecordType::SMIMEA,
            RData::SOA(_) => RecordType::SOA,
            RData::SRV(_) => RecordType::SRV,
            RData::SSHFP(_) => RecordType::SSHFP,
            RData::SVCB(_) => RecordType::SVCB,
            RData::TLSA(_) => RecordType::TLSA,
            RData::TXT(_) => RecordType::TXT,
            RData::Unknown { code, .. } => *code,
            RData::Update0(code) => *code,
            RData::ZERO => RecordType::ZERO,
        }
    }

    /// The address of A and AAAA data.
    pub fn ip_addr(&self) -> Option<IpAddr>
        ensures { result ≡ address_of self.now }
    {
        match self {
            RData::A(a) => Some(IpAddr::V4(a.0)),
            RData::AAAA(aaaa) => Some(IpAddr::V6(aaaa.0)),
            _ => None,
        }
    }
}

impl From<Ipv4Addr> for RData {
    ghost use Rattle.drd_rdata.specs.Types.{of_ipv4};

    ghost from_gives = { λ address value. value ≡ of_ipv4 address };

    fn from(address: Ipv4Addr) -> RData {
        RData::A(A(address))
    }
}

impl From<Ipv6Addr> for RData {
    ghost use Rattle.drd_rdata.specs.Types.{of_ipv6};

    ghost from_gives = { λ address value. value ≡ of_ipv6 address };

    fn from(address: Ipv6Addr) -> RData {
        RData::AAAA(AAAA(address))
    }
}

impl From<IpAddr> for RData {
    ghost use Rattle.drd_rdata.specs.Types.{of_address};

    ghost from_gives = { λ address value. value ≡ of_address address };

    fn from(address: IpAddr) -> RData {
        match address {
            IpAddr::V4(address) => RData::from(address),
            IpAddr::V6(address) => RData::from(address),
        }
    }
}
