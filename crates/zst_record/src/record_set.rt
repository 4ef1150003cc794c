//! Sets of records (RFC 2181 section 5).

ghost use Rattle.std.specs.Prelude.{◌≡◌, ◌⊎◌, ◌<◌, ◌∷◌, ◌++◌, ◌&&◌, ◌||◌, ◌==◌, true, false, [], Some, IfOk, OnOk, OnErr, length, position, if◌then◌else◌};
ghost use Rattle.std.specs.List.{AllByRecursion, list_any};
ghost use Rattle.drd_rdata.specs.Order.{rdata_eq};
ghost use Rattle.drd_rdata.specs.Types.{type_of};
ghost use Rattle.drd_rdata.specs.dnw_codes.DNSClass.{same_class};
ghost use Rattle.drd_rdata.specs.dnw_codes.RecordType.{same_record_type};
ghost use Rattle.drd_rdata.specs.dnw_name.DomainName.{name_eq};
ghost use Rattle.zst_record.specs.Drafts.{IsDraft, drafted};
ghost use Rattle.zst_record.specs.OneOrMany.{items_of};
ghost use Rattle.zst_record.specs.RecordSets.{IsHeld, IsRRset, empty_set, held_set, holds, inserted, is_signature_of, is_single, keeps_last, least_from, least_ttl, loses, none_left, outlasts, raised_data, raised_first, raised_set, removed, set_of, set_with, signed_with, takes, with_one};
ghost use Rattle.zst_record.specs.RecordSets.{put_record as with_record};

use crate::draft::Draft;
use crate::one_or_many::OneOrMany;
use crate::records::Record;
use crate::rrset_records::RrsetRecords;
use drd_rdata::{DNSClass, Name, RData, RecordType};
use std::alloc::{AllocError, Global};
use std::marker::Model;
use std::mem;

/// The records of one owner, class and type in order, and the signatures of the set. Without records it has an owner, a
/// class and a type still.
#[derive(Drop)]
pub struct RecordSet {
    record_type: RecordType,
    /// Whether there are no records. Then one stands in for owner and class.
    is_empty: bool,
    /// The records; most sets have one.
    records: OneOrMany<Record>,
    rrsigs: Vec<Record>,
}

impl Model for RecordSet {
    ghost use Rattle.zst_record.specs.OneOrMany.{items_of};
    ghost use Rattle.zst_record.specs.RecordSets.{RRset, IsHeld, held_set};

    ghost Value = { RRset };

    ghost view = { λ set. held_set set.record_type set.is_empty (items_of set.records) set.rrsigs.items };

    ghost invariant = { λ set. IsHeld set.record_type set.is_empty (items_of set.records) set.rrsigs.items };
}

impl RecordSet {
    /// A set of class IN without records.
    pub fn new(alloc: Global, name: Name, record_type: RecordType) -> RecordSet
        ensures { result ≡ empty_set name record_type }
    {
        let mut set = RecordSet::from_record(alloc, Record::update0(name, 0, record_type));
        set.is_empty = true;
        set
    }

    /// The set of one record.
    pub fn from_record(alloc: Global, first: Record) -> RecordSet
        ensures { result ≡ set_of first }
    {
        let record_type = first.record_type();
        RecordSet {
            record_type,
            is_empty: false,
            records: OneOrMany::One(first),
            rrsigs: Vec::new(alloc),
        }
    }

    /// The owner, as the first record spells it.
    pub fn name(&self) -> &Name
        ensures { result.now ≡ self.now.name }
    {
        &self.records.as_slice()[0].name
    }

    /// The class.
    pub fn dns_class(&self) -> DNSClass
        ensures { result ≡ self.now.dns_class }
    {
        self.records.as_slice()[0].dns_class
    }

    /// The type.
    pub fn record_type(&self) -> RecordType
        ensures { result ≡ self.now.record_type }
    {
        self.record_type
    }

    /// Whether the set is of a type. Its first record tells: the caller goes on to read it, and so waits once, not twice, for a
    /// set that lies in no near cache.
    pub fn is_of_type(&self, record_type: RecordType) -> bool
        ensures { result ≡ same_record_type self.now.record_type record_type }
    {
        match self.as_slice().split_first() {
            Some((first, _)) => first.record_type() == record_type,
            None => self.record_type == record_type,
        }
    }

    /// The least time to live of the records, in seconds; 0 without records.
    pub fn ttl(&self) -> u32
        ensures { result ≡ least_ttl self.now.records }
    {
        match self.as_slice().split_first() {
            Some((first, later)) => least_of(first.ttl, later),
            None => 0,
        }
    }

    /// Whether there are no records.
    pub fn is_empty(&self) -> bool
        ensures { result ≡ none_left self.now.records }
    {
        self.is_empty
    }

    /// The records, in order.
    pub fn as_slice(&self) -> &[Record]
        ensures value { result.now ≡ self.now.records }
        ensures set { IsRRset self.now }
    {
        if self.is_empty {
            &[]
        } else {
            self.records.as_slice()
        }
    }

    /// The records, in order, and behind them the signatures where these are asked for.
    pub fn records(&self, and_rrsigs: bool) -> RrsetRecords<'_>
        ensures { result ≡ (if and_rrsigs then self.now.records ++ self.now.signatures else self.now.records) }
    {
        if and_rrsigs {
            RrsetRecords::new(self.as_slice(), &self.rrsigs)
        } else {
            RrsetRecords::new(self.as_slice(), &[])
        }
    }

    /// The records, in order, without the signatures.
    pub fn records_without_rrsigs(&self) -> RrsetRecords<'_>
        ensures { result ≡ self.now.records }
    {
        RrsetRecords::new(self.as_slice(), &[])
    }

    /// The signatures, in order.
    pub fn rrsigs(&self) -> &[Record]
        ensures { result.now ≡ self.now.signatures }
    {
        &self.rrsigs
    }

    /// Adds a signature behind the others, and tells whether that was done: a record of another owner, class or type is
    /// none of the set's.
    pub fn insert_rrsig(&mut self, rrsig: Record) -> Result<bool, AllocError>
        ensures done { IfOk result (λ done. done ≡ is_signature_of self.old rrsig) }
        ensures ok { OnOk result (self.new ≡ signed_with self.old rrsig) }
        ensures err { OnErr result (self.new ≡ self.old) }
    {
        if !self.is_signed_by(&rrsig) {
            mem::drop(rrsig);
            return Ok(false);
        }
        self.rrsigs.push(rrsig)?;
        Ok(true)
    }

    // Whether a record may be a signature of the set.
    fn is_signed_by(&self, rrsig: &Record) -> bool
        ensures { result ≡ is_signature_of self.now rrsig.now }
    {
        rrsig.name == *self.name()
            && rrsig.dns_class == self.dns_class()
            && rrsig.record_type() == RecordType::RRSIG
    }

    /// Adds a record of the set's owner and type as an update does (RFC 2136 section 3.4.2.2), and tells whether that
    /// changed the set, which then loses its signatures. One of another class isn't taken, nor one that is there with its
    /// time to live, nor an SOA whose serial number isn't above the stored one's. Equal data are replaced in place, and
    /// what there is one of at most, SOA, CNAME and ANAME, takes the place of the others.
    pub fn insert(&mut self, next: Record) -> Result<bool, AllocError>
        requires owner { name_eq next.name self.old.name ≡ true }
        requires kind { same_record_type (type_of next.rdata) self.old.record_type ≡ true }
        ensures changed { IfOk result (λ changed. changed ≡ takes self.old next) }
        ensures ok { OnOk result (self.new ≡ (if takes self.old next then inserted self.old next else self.old)) }
        ensures err { OnErr result (self.new ≡ self.old) }
    {
        if !self.takes(&next) {
            mem::drop(next);
            return Ok(false);
        }
        let alone = is_single(self.record_type);
        self.put_one(alone, next)?;
        Ok(true)
    }

    // Whether adding a record would change the set.
    fn takes(&self, next: &Record) -> bool
        ensures { result ≡ takes self.now next.now }
    {
        next.dns_class == self.dns_class()
            && !any_outlasts(self.as_slice(), &next.rdata)
            && !holds(self.as_slice(), next)
    }

    /// Puts a record of the set's owner and type in place of the one with equal data, else behind the others. A record of
    /// another class begins the set anew. The signatures go.
    pub fn put(&mut self, next: Record) -> Result<(), AllocError>
        requires owner { name_eq next.name self.old.name ≡ true }
        requires kind { same_record_type (type_of next.rdata) self.old.record_type ≡ true }
        ensures ok { OnOk result (self.new ≡ set_with (Some self.old) next) }
        ensures err { OnErr result (self.new ≡ self.old) }
    {
        let alone = next.dns_class != self.dns_class();
        self.put_one(alone, next)
    }

    // Puts a record in place of all others, or among them. The signatures go.
    fn put_one(&mut self, alone: bool, next: Record) -> Result<(), AllocError>
        requires owner { name_eq next.name self.old.name ≡ true }
        requires kind { same_record_type (type_of next.rdata) self.old.record_type ≡ true }
        requires class { alone ≡ true ⊎ same_class next.dns_class self.old.dns_class ≡ true }
        ensures ok { OnOk result (self.new ≡ with_one alone self.old next) }
        ensures err { OnErr result (self.new ≡ self.old) }
    {
        if either(alone, self.is_empty) {
            self.records.set_only(next);
            self.is_empty = false;
            self.rrsigs.clear();
            return Ok(());
        }
        put_record(*self.rrsigs.allocator(), &mut self.records, next)?;
        self.rrsigs.clear();
        Ok(())
    }

    /// Takes out the record with equal data, of the set's owner and type, and tells whether that was done; then the
    /// signatures go. Neither an SOA is taken out, nor the last NS (RFC 2136 section 3.4.2.7).
    pub fn remove(&mut self, record: &Record) -> bool
        ensures done { result ≡ loses self.old record.now }
        ensures set { self.new ≡ (if loses self.old record.now then removed self.old record.now else self.old) }
    {
        if self.keeps_last() {
            return false;
        }
        let held = self.as_slice();
        let Some(place) = place_of(held, &record.rdata) else {
            return false;
        };
        let count = held.len();
        self.rrsigs.clear();
        if count == 1 {
            self.is_empty = true;
            return true;
        }
        mem::drop(self.records.remove(place));
        true
    }

    /// Replaces the records by those of a draft over them, at least one. Type and class become theirs, and the signatures
    /// are dropped. It takes no memory.
    pub fn settle(&mut self, record_type: RecordType, draft: Draft<Record>)
        requires draft { IsDraft (length self.old.records) draft.places.items draft.items.items }
        requires held { IsHeld record_type false (drafted self.old.records draft.places.items draft.items.items) [] }
        ensures { self.new ≡ held_set record_type false (drafted self.old.records draft.places.items draft.items.items) [] }
    {
        let items = if self.is_empty {
            draft.settle(&mut [])
        } else {
            self.records.settle(draft)
        };
        self.records = OneOrMany::from_vec(items);
        self.record_type = record_type;
        self.is_empty = false;
        self.rrsigs.clear();
    }

    /// Raises the serial number of an SOA by one; 0 follows 2^32 - 1 (RFC 2136 3.6). The signatures are dropped. It takes no
    /// memory.
    pub fn raise_serial(&mut self)
        ensures { self.new ≡ raised_set self.old }
    {
        raise_first(&mut self.records);
        self.rrsigs.clear();
    }

    /// Replaces the signatures by others of the set. It takes no memory.
    pub fn sign_with(&mut self, signatures: Vec<Record>)
        requires { AllByRecursion (λ r. is_signature_of self.old r ≡ true) signatures.items }
        ensures { self.new ≡ record self.old { signatures = signatures.items } }
    {
        self.rrsigs = signatures;
    }

    // Whether no record of the set may be taken out.
    fn keeps_last(&self) -> bool
        ensures { result ≡ keeps_last self.now }
    {
        self.record_type == RecordType::SOA
            || (self.record_type == RecordType::NS && self.as_slice().len() <= 1)
    }
}

// Raises the serial number of the first record, if that is an SOA.
fn raise_first(records: &mut OneOrMany<Record>)
    ensures { items_of records.new ≡ raised_first (items_of records.old) }
{
    match records {
        OneOrMany::One(only) => raise_data(&mut only.rdata),
        OneOrMany::Many(all) => {
            if let Some(first) = all.first_mut() {
                raise_data(&mut first.rdata);
            }
        }
    }
}

// Raises the serial number of data of an SOA.
fn raise_data(rdata: &mut RData)
    ensures { rdata.new ≡ raised_data rdata.old }
{
    if let RData::SOA(soa) = rdata {
        soa.serial = soa.serial.wrapping_add(1);
    }
}

// Whether a set of this type has one record at most (RFC 1034 section 3.6.2, RFC 1035 section 3.3.13).
fn is_single(record_type: RecordType) -> bool
    ensures { result ≡ is_single record_type }
{
    record_type == RecordType::CNAME
        || record_type == RecordType::ANAME
        || record_type == RecordType::SOA
}

// The least of a time to live and those of records.
fn least_of(ttl: u32, records: &[Record]) -> u32
    ensures { result ≡ least_from ttl records.now }
{
    let mut least = ttl;
    for other in records {
        least = least.min(other.ttl);
    }
    least
}

// Whether an SOA is among these records whose serial number isn't below that of the data.
fn any_outlasts(records: &[Record], rdata: &RData) -> bool
    ensures { result ≡ list_any (λ s. outlasts s.rdata rdata.now) records.now }
{
    records.iter().any(|stored| outlasts(&stored.rdata, rdata))
}

// Whether data are an SOA whose serial number isn't below that of the other, an SOA too.
fn outlasts(stored: &RData, rdata: &RData) -> bool
    ensures { result ≡ outlasts stored.now rdata.now }
{
    match (stored, rdata) {
        (RData::SOA(soa), RData::SOA(next)) => next.serial <= soa.serial,
        _ => false,
    }
}

// Whether a record is there, with its time to live.
fn holds(records: &[Record], next: &Record) -> bool
    ensures { result ≡ holds records.now next.now }
{
    records.iter().any(|stored| stored.rdata == next.rdata && stored.ttl == next.ttl)
}

// Whether one of two tests holds.
fn either(first: bool, second: bool) -> bool
    ensures { result ≡ (first || second) }
{
    first || second
}

// Puts a record in place of the one with equal data, else behind the others.
fn put_record(
    alloc: Global,
    records: &mut OneOrMany<Record>,
    next: Record,
) -> Result<(), AllocError>
    ensures ok { OnOk result (items_of records.new ≡ with_record (items_of records.old) next) }
    ensures err { OnErr result (items_of records.new ≡ items_of records.old) }
{
    let held = records.as_slice();
    let count = held.len();
    match place_of(held, &next.rdata) {
        Some(place) => records.set(place, next),
        None => records.insert(alloc, count, next)?,
    }
    Ok(())
}

// Where the record with equal data stands.
fn place_of(records: &[Record], rdata: &RData) -> Option<usize>
    ensures { result ≡ position (λ stored. rdata_eq stored.rdata rdata.now) records.now }
{
    records.iter().position(|stored| stored.rdata == *rdata)
}
