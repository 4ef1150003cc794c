//! Resource records (RFC 1035 section 4.1.3).

ghost use Rattle.std.specs.Prelude.{◌≡◌, ◌↔◌, IsTrue};
ghost use Rattle.std.specs.Cmp.{partial_equiv_from_equiv};
ghost use Rattle.drd_rdata.specs.Types.{type_of};
ghost use Rattle.drd_rdata.specs.dnw_codes.declared.dns_class.DNSClass.TheVariants.{IN};
ghost use Rattle.drd_rdata.specs.declared.rdata.RData.TheVariants.{Update0};
ghost use Rattle.zst_record.specs.Records.{HasOwnHead, IsOwnClass, IsOwnType, IsServable, ReadsBackAlone, belongs_to_message, record_eq, record_with};
ghost use Rattle.zst_record.specs.RecordLaws.{record_equiv};
ghost use Rattle.zst_record.specs.Lending.{seen};

use drd_rdata::{DNSClass, Name, RData, RecordType, exceeds_rdlength, is_readable};

/// A resource record.
#[derive(Debug, Drop)]
pub struct Record {
    /// The owner.
    pub name: Name,
    /// The class.
    pub dns_class: DNSClass,
    /// The time to live, in seconds.
    pub ttl: u32,
    /// The data, which give the type.
    pub rdata: RData,
}

impl Record {
    /// A record of class IN.
    pub fn from_rdata(name: Name, ttl: u32, rdata: RData) -> Record
        ensures { result ≡ record_with name IN ttl rdata }
    {
        Record {
            name,
            dns_class: DNSClass::IN,
            ttl,
            rdata,
        }
    }

    /// A record of class IN without data, as an update has them (RFC 2136 2.4).
    pub fn update0(name: Name, ttl: u32, record_type: RecordType) -> Record
        ensures { result ≡ record_with name IN ttl (Update0 record_type) }
    {
        Record::from_rdata(name, ttl, RData::Update0(record_type))
    }

    /// The record, lent.
    pub fn lend(&self) -> RecordRef<'_>
        ensures { seen result ≡ self.now }
    {
        RecordRef {
            name: &self.name,
            dns_class: self.dns_class,
            ttl: self.ttl,
            rdata: &self.rdata,
        }
    }

    /// The type of the record.
    pub fn record_type(&self) -> RecordType
        ensures { result ≡ type_of self.now.rdata }
    {
        self.rdata.record_type()
    }

    /// Whether the record reads back alone: its owner ends at the root (RFC 1035 3.1), type and class are those of their
    /// numbers, and some message holds its RDATA (`is_readable`); or its RDATA have more octets than RDLENGTH can count, so
    /// that the record is never written (`exceeds_rdlength`). It takes no memory.
    pub fn reads_back_alone(&self) -> bool
        ensures { IsTrue result ↔ ReadsBackAlone self.now }
    {
        (self.has_own_head() && is_readable(&self.rdata)) || exceeds_rdlength(&self.rdata)
    }

    // Whether owner, type and class are read as themselves.
    fn has_own_head(&self) -> bool
        ensures { IsTrue result ↔ HasOwnHead self.now }
    {
        self.name.is_fqdn() && is_own_type(self.record_type()) && is_own_class(self.dns_class)
    }

    /// Whether a zone may hold the record, and a server may send it: it reads back alone, and its type is none of those whose
    /// records belong to one message: OPT (RFC 6891 6.1.1), SIG (RFC 2931 3) and TSIG (RFC 8945 4.2). It takes no memory.
    pub fn is_servable(&self) -> bool
        ensures { IsTrue result ↔ IsServable self.now }
    {
        !is_of_messages(self.record_type()) && self.reads_back_alone()
    }
}

/// A record that is lent field by field, as an answer has it whose owner or time to live isn't the zone's own.
#[derive(Clone, Copy, Debug)]
pub struct RecordRef<'r> {
    /// The owner.
    pub name: &'r Name,
    /// The class.
    pub dns_class: DNSClass,
    /// The time to live, in seconds.
    pub ttl: u32,
    /// The data, which give the type.
    pub rdata: &'r RData,
}

/// Whether two records are the same but for their time to live (RFC 2136 1.1.1).
impl PartialEq for Record {
    ghost eq = { record_eq };

    ghost laws = { partial_equiv_from_equiv record_equiv };

    fn eq(&self, other: &Record) -> bool {
        self.name == other.name && self.dns_class == other.dns_class && self.rdata == other.rdata
    }
}

// Whether records of a type belong to one message, and to no zone.
fn is_of_messages(record_type: RecordType) -> bool
    ensures { result ≡ belongs_to_message record_type }
{
    matches!(
        record_type,
        RecordType::OPT | RecordType::SIG | RecordType::TSIG
    )
}

// Whether a type is the one that its number is read as.
fn is_own_type(record_type: RecordType) -> bool
    ensures { IsTrue result ↔ IsOwnType record_type }
{
    match record_type {
        RecordType::Unknown(number) => match RecordType::from(number) {
            RecordType::Unknown(own) => own == number,
            _ => false,
        },
        _ => true,
    }
}

// Whether a class is the one that its number is read as.
fn is_own_class(dns_class: DNSClass) -> bool
    ensures { IsTrue result ↔ IsOwnClass dns_class }
{
    match dns_class {
        DNSClass::OPT(_) => false,
        DNSClass::Unknown(number) => match DNSClass::from(number) {
            DNSClass::Unknown(own) => own == number,
            _ => false,
        },
        _ => true,
    }
}
