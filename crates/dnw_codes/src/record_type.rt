//! Types of resource records (RFC 1035 3.2.2, and the registry "Resource Record (RR) TYPEs").
ghost use Rattle.std.specs.Prelude.{◌≡◌, ◌==◌, ◌||◌};
ghost use Rattle.std.specs.Cmp.{partial_order_from_own_ties};
ghost use Rattle.std.specs.Cmp.Rules.{comparing, hashing};
ghost use Rattle.std.specs.Hash as fed;
ghost use Rattle.std.specs.Ordering.{as_partial_cmp};
ghost use Rattle.std.proofs.Common.{rules};

use std::cmp::Ordering;
use std::hash::{Hash, Hasher};

/// The type of a record or of a question. Two types are equal where their numbers are.
#[derive(Clone, Copy, Debug)]
pub enum RecordType {
    /// Type 0, which is no type of a record (RFC 2931 3.1).
    ZERO,
    /// An IPv4 address (RFC 1035 3.4.1).
    A,
    /// A name server (RFC 1035 3.3.11).
    NS,
    /// The canonical name of an alias (RFC 1035 3.3.1).
    CNAME,
    /// The start of a zone of authority (RFC 1035 3.3.13).
    SOA,
    /// Any octets (RFC 1035 3.3.10).
    NULL,
    /// A pointer to a name (RFC 1035 3.3.12).
    PTR,
    /// A host's processor and system (RFC 1035 3.3.2, RFC 8482).
    HINFO,
    /// A mail exchange (RFC 1035 3.3.9).
    MX,
    /// Strings (RFC 1035 3.3.14).
    TXT,
    /// A signature of a message (RFC 2931).
    SIG,
    /// A key (RFC 2930).
    KEY,
    /// An IPv6 address (RFC 3596 2.1).
    AAAA,
    /// The place of a service (RFC 2782).
    SRV,
    /// A rule that rewrites a name (RFC 3403 4).
    NAPTR,
    /// A certificate (RFC 4398).
    CERT,
    /// The new place of a subtree of names (RFC 6672).
    DNAME,
    /// The options of a message (RFC 6891 6.1).
    OPT,
    /// The digest of a child zone's key (RFC 4034 5).
    DS,
    /// A fingerprint of an SSH key (RFC 4255).
    SSHFP,
    /// A signature of a record set (RFC 4034 3).
    RRSIG,
    /// The next name of a signed zone (RFC 4034 4).
    NSEC,
    /// A key of a signed zone (RFC 4034 2).
    DNSKEY,
    /// The next hashed name of a signed zone (RFC 5155 3).
    NSEC3,
    /// How a signed zone hashes its names (RFC 5155 4).
    NSEC3PARAM,
    /// A certificate of a TLS service (RFC 6698).
    TLSA,
    /// A certificate of a mailbox (RFC 8162).
    SMIMEA,
    /// A child's wish for its DS (RFC 7344).
    CDS,
    /// A child's wish for its DS, as a key (RFC 7344).
    CDNSKEY,
    /// An OpenPGP key (RFC 7929).
    OPENPGPKEY,
    /// What a parent is to copy from a child (RFC 7477).
    CSYNC,
    /// The binding of a service (RFC 9460).
    SVCB,
    /// The binding of an HTTPS service (RFC 9460).
    HTTPS,
    /// The signature of a transaction (RFC 8945).
    TSIG,
    /// A transfer of a zone's changes (RFC 1995).
    IXFR,
    /// A transfer of a whole zone (RFC 5936).
    AXFR,
    /// Every type of a name (RFC 1035 3.2.3, RFC 8482).
    ANY,
    /// Which authorities may issue certificates (RFC 8659).
    CAA,
    /// An alias at a zone's origin, of private use (RFC 6895 3.1).
    ANAME,
    /// Any other number.
    Unknown(u16),
}

impl From<u16> for RecordType {
    ghost use Rattle.dnw_codes.specs.RecordType.{record_type_of, record_type_number};

    ghost from_gives = { λ number record_type. (record_type ≡ record_type_of number)
        × (record_type_number record_type ≡ number) };

    fn from(number: u16) -> RecordType {
        match number {
            0 => RecordType::ZERO,
            1 => RecordType::A,
            2 => RecordType::NS,
            5 => RecordType::CNAME,
            6 => RecordType::SOA,
            10 => RecordType::NULL,
            12 => RecordType::PTR,
            13 => RecordType::HINFO,
            15 => RecordType::MX,
            16 => RecordType::TXT,
            24 => RecordType::SIG,
            25 => RecordType::KEY,
            28 => RecordType::AAAA,
            33 => RecordType::SRV,
            35 => RecordType::NAPTR,
            37 => RecordType::CERT,
            39 => RecordType::DNAME,
            41 => RecordType::OPT,
            43 => RecordType::DS,
            44 => RecordType::SSHFP,
            46 => RecordType::RRSIG,
            47 => RecordType::NSEC,
            48 => RecordType::DNSKEY,
            50 => RecordType::NSEC3,
            51 => RecordType::NSEC3PARAM,
            52 => RecordType::TLSA,
            53 => RecordType::SMIMEA,
            59 => RecordType::CDS,
            60 => RecordType::CDNSKEY,
            61 => RecordType::OPENPGPKEY,
            62 => RecordType::CSYNC,
            64 => RecordType::SVCB,
            65 => RecordType::HTTPS,
            250 => RecordType::TSIG,
            251 => RecordType::IXFR,
            252 => RecordType::AXFR,
            255 => RecordType::ANY,
            257 => RecordType::CAA,
            65305 => RecordType::ANAME,
            _ => RecordType::Unknown(number),
        }
    }
}

impl From<RecordType> for u16 {
    ghost use Rattle.dnw_codes.specs.RecordType.{record_type_number};

    ghost from_gives = { λ record_type number. number ≡ record_type_number record_type };

    #[inline(always)]
    fn from(record_type: RecordType) -> u16 {
        match record_type {
            RecordType::ZERO => 0,
            RecordType::A => 1,
            RecordType::NS => 2,
            RecordType::CNAME => 5,
            RecordType::SOA => 6,
            RecordType::NULL => 10,
            RecordType::PTR => 12,
            RecordType::HINFO => 13,
            RecordType::MX => 15,
            RecordType::TXT => 16,
            RecordType::SIG => 24,
            RecordType::KEY => 25,
            RecordType::AAAA => 28,
            RecordType::SRV => 33,
            RecordType::NAPTR => 35,
            RecordType::CERT => 37,
            RecordType::DNAME => 39,
            RecordType::OPT => 41,
            RecordType::DS => 43,
            RecordType::SSHFP => 44,
            RecordType::RRSIG => 46,
            RecordType::NSEC => 47,
            RecordType::DNSKEY => 48,
            RecordType::NSEC3 => 50,
            RecordType::NSEC3PARAM => 51,
            RecordType::TLSA => 52,
            RecordType::SMIMEA => 53,
            RecordType::CDS => 59,
            RecordType::CDNSKEY => 60,
            RecordType::OPENPGPKEY => 61,
            RecordType::CSYNC => 62,
            RecordType::SVCB => 64,
            RecordType::HTTPS => 65,
            RecordType::TSIG => 250,
            RecordType::IXFR => 251,
            RecordType::AXFR => 252,
            RecordType::ANY => 255,
            RecordType::CAA => 257,
            RecordType::ANAME => 65305,
            RecordType::Unknown(number) => number,
        }
    }
}

impl PartialEq for RecordType {
    ghost use Rattle.dnw_codes.specs.RecordType.{same_record_type};

    ghost eq = { same_record_type };

    ghost laws = { Prim.search (comparing, rules) };

    #[inline(always)]
    fn eq(&self, other: &RecordType) -> bool {
        u16::from(*self) == u16::from(*other)
    }
}

impl Eq for RecordType {
    ghost laws = { Prim.search (comparing, rules) };
}

impl Ord for RecordType {
    ghost use Rattle.dnw_codes.specs.RecordType.{record_type_cmp};

    ghost cmp = { record_type_cmp };

    ghost total = { Prim.search (comparing, rules) };

    ghost matches_partial_cmp = { Prim.search (comparing, rules) };

    ghost matches_eq = { Prim.search (comparing, rules) };

    fn cmp(&self, other: &RecordType) -> Ordering {
        u16::from(*self).cmp(&u16::from(*other))
    }
}

impl PartialOrd for RecordType {
    ghost use Rattle.dnw_codes.specs.RecordType.{record_type_cmp};

    ghost partial_cmp = { as_partial_cmp record_type_cmp };

    ghost laws = { partial_order_from_own_ties (Prim.search (comparing, rules)) (Prim.search (comparing, rules)) };

    fn partial_cmp(&self, other: &RecordType) -> Option<Ordering> {
        Some(self.cmp(other))
    }
}

impl Hash for RecordType {
    ghost use Rattle.dnw_codes.specs.RecordType.{record_type_number};

    ghost hash_input = { λ record_type. fed.u16 (record_type_number record_type) };

    ghost respects_eq = { Prim.search (hashing, rules) };

    fn hash<H: Hasher>(&self, state: &mut H) {
        u16::from(*self).hash(state);
    }
}

impl RecordType {
    ghost use Rattle.dnw_codes.specs.RecordType.{same_record_type, is_dnssec_type};

    /// Whether this is `ANY`.
    pub fn is_any(self) -> bool
        ensures { result ≡ same_record_type self RecordType.ANY }
    {
        self == RecordType::ANY
    }

    /// Whether this is `CERT`.
    pub fn is_cert(self) -> bool
        ensures { result ≡ same_record_type self RecordType.CERT }
    {
        self == RecordType::CERT
    }

    /// Whether this is `CNAME`.
    pub fn is_cname(self) -> bool
        ensures { result ≡ same_record_type self RecordType.CNAME }
    {
        self == RecordType::CNAME
    }

    /// Whether this is `NS`.
    pub fn is_ns(self) -> bool
        ensures { result ≡ same_record_type self RecordType.NS }
    {
        self == RecordType::NS
    }

    /// Whether this is `RRSIG`.
    pub fn is_rrsig(self) -> bool
        ensures { result ≡ same_record_type self RecordType.RRSIG }
    {
        self == RecordType::RRSIG
    }

    /// Whether this is `SOA`.
    pub fn is_soa(self) -> bool
        ensures { result ≡ same_record_type self RecordType.SOA }
    {
        self == RecordType::SOA
    }

    /// Whether this is `SRV`.
    pub fn is_srv(self) -> bool
        ensures { result ≡ same_record_type self RecordType.SRV }
    {
        self == RecordType::SRV
    }

    /// Whether this is `ZERO`.
    pub fn is_zero(self) -> bool
        ensures { result ≡ same_record_type self RecordType.ZERO }
    {
        self == RecordType::ZERO
    }

    /// Whether this is the type of an address, `A` or `AAAA`.
    pub fn is_ip_addr(self) -> bool
        ensures { result ≡ (same_record_type self RecordType.A || same_record_type self RecordType.AAAA) }
    {
        self == RecordType::A || self == RecordType::AAAA
    }

    /// Whether this is a type of DNSSEC.
    pub fn is_dnssec(self) -> bool
        ensures { result ≡ is_dnssec_type self }
    {
        [
            RecordType::CDNSKEY,
            RecordType::CDS,
            RecordType::DNSKEY,
            RecordType::DS,
            RecordType::KEY,
            RecordType::NSEC,
            RecordType::NSEC3,
            RecordType::NSEC3PARAM,
            RecordType::RRSIG,
            RecordType::SIG,
            RecordType::TSIG,
        ]
        .contains(&self)
    }
}
