//! The records of a zone as it is transferred (RFC 5936 section 2.2).

ghost use Rattle.std.specs.Prelude.{◌≡◌};
ghost use Rattle.std.specs.Iterator.{YieldsFirstBy, YieldsFirstRef, item_count};
ghost use Rattle.zst_denial.specs.zst_record.Lending.{seen};
ghost use Rattle.zst_request.specs.Handed.{transfer_records};
ghost use Rattle.zst_request.specs.Transfers.{axfr_records, is_start, lent_if, lent_sets, without_start};

use std::alloc::Global;
use std::marker::Model;
use zst_denial::{
    LentSets, LookupRecords, LookupRecordsIter, Name, Record, RecordRef, RecordSet, RecordType,
    RrsetRecords, ZoneSetsIter,
};

/// The records between the two SOA records of a transfer. A contract sees it as these records.
#[derive(Drop)]
pub struct AxfrRecords<'z> {
    origin: &'z Name,
    dnssec_ok: bool,
    /// The listed sets, and after them those of a zone.
    rrsets: Vec<&'z RecordSet>,
    lent: Option<LentSets<'z>>,
}

impl<'z> Model for AxfrRecords<'z> {
    ghost use Rattle.std.specs.Prelude.{List, ◌++◌};
    ghost use Rattle.zst_denial.specs.zst_record.declared.records.Record.{Record as Entry};
    ghost use Rattle.zst_request.specs.Transfers.{axfr_records, lent_if, lent_sets};

    ghost Value = { List Entry };

    ghost view = { λ records. axfr_records records.origin.now records.dnssec_ok (lent_sets records.rrsets.items ++ lent_if records.lent) };
}

impl<'z> AxfrRecords<'z> {
    /// Every record of these sets in order but the SOA of the origin, and after each set its signatures if they are asked for.
    pub fn new(origin: &'z Name, dnssec_ok: bool, rrsets: Vec<&'z RecordSet>) -> AxfrRecords<'z>
        ensures { result ≡ axfr_records origin.now dnssec_ok (lent_sets rrsets.entry.items) }
    {
        AxfrRecords {
            origin,
            dnssec_ok,
            rrsets,
            lent: None,
        }
    }

    /// The same of all sets of a zone, without a list of them. It takes no memory.
    pub fn of_zone(
        alloc: Global,
        origin: &'z Name,
        dnssec_ok: bool,
        sets: LentSets<'z>,
    ) -> AxfrRecords<'z>
        ensures { result ≡ axfr_records origin.now dnssec_ok sets.entry }
    {
        AxfrRecords {
            origin,
            dnssec_ok,
            rrsets: Vec::new(alloc),
            lent: Some(sets),
        }
    }

    /// The records, in order.
    pub fn iter(&self) -> AxfrRecordsIter<'_>
        ensures { result ≡ self.now }
    {
        let lent = match &self.lent {
            Some(sets) => Some(sets.iter()),
            None => None,
        };
        AxfrRecordsIter {
            current: RrsetRecords::new(&[], &[]),
            origin: self.origin,
            dnssec_ok: self.dnssec_ok,
            rrsets: &self.rrsets,
            shown: 0,
            lent,
        }
    }
}

/// The records between the two SOA records of a transfer, in order. A contract sees it as those still to come.
#[derive(Drop)]
pub struct AxfrRecordsIter<'r> {
    current: RrsetRecords<'r>,
    origin: &'r Name,
    dnssec_ok: bool,
    rrsets: &'r [&'r RecordSet],
    /// How many of these were shown, and the sets of a zone after them.
    shown: usize,
    lent: Option<ZoneSetsIter<'r>>,
}

impl<'r> Model for AxfrRecordsIter<'r> {
    ghost use Rattle.std.specs.Prelude.{List};
    ghost use Rattle.zst_denial.specs.zst_record.declared.records.Record.{Record as Entry};
    ghost use Rattle.zst_request.specs.Transfers.{axfr_left};

    ghost Value = { List Entry };

    ghost view = { λ iter. axfr_left iter.origin.now iter.current iter.dnssec_ok iter.rrsets.now iter.shown iter.lent };
}

impl<'r> Iterator for AxfrRecordsIter<'r> {
    type Item = &'r Record;

    ghost next_gives = { YieldsFirstRef (λ records. records) };

    ghost remaining = { item_count (λ records. records) };

    fn next(&mut self) -> Option<&'r Record> {
        'sets: loop {
            if let Some(next) = next_but_start(self.origin, &mut self.current) {
                return Some(next);
            }
            if self.shown < self.rrsets.len() {
                self.current = self.rrsets[self.shown].records(self.dnssec_ok);
                self.shown += 1;
            } else {
                match next_lent(&mut self.lent) {
                    Some(set) => self.current = set.records(self.dnssec_ok),
                    None => return None,
                }
            }
        }
    }
}

// The next set of a zone, if there is one.
fn next_lent<'r>(lent: &mut Option<ZoneSetsIter<'r>>) -> Option<&'r RecordSet>
    ensures { YieldsFirstRef lent_if lent.old result lent.new }
{
    match lent {
        Some(sets) => sets.next(),
        None => None,
    }
}

// The next record but an SOA of the origin.
fn next_but_start<'r>(origin: &Name, records: &mut RrsetRecords<'r>) -> Option<&'r Record>
    ensures { YieldsFirstRef (without_start origin.now) records.old result records.new }
{
    'records: loop {
        let next = records.next()?;
        if !is_start(origin, next) {
            return Some(next);
        }
    }
}

// Tests for an SOA of the origin.
fn is_start(origin: &Name, record: &Record) -> bool
    ensures { result ≡ is_start origin.now record.now }
{
    record.record_type() == RecordType::SOA && *origin == record.name
}

/// A zone as it is transferred: its SOA is first and last (RFC 5936 section 2.2).
#[derive(Drop)]
pub struct ZoneTransfer<'z> {
    /// The SOA record with which it begins.
    pub start_soa: LookupRecords<'z>,
    /// The zone's other records.
    pub records: AxfrRecords<'z>,
    /// The SOA record with which it ends.
    pub end_soa: LookupRecords<'z>,
}

impl ZoneTransfer<'_> {
    /// The records, in order.
    pub fn iter(&self) -> ZoneTransferIter<'_>
        ensures { result ≡ transfer_records self.now }
    {
        ZoneTransferIter {
            start_soa: self.start_soa.iter(),
            records: self.records.iter(),
            end_soa: self.end_soa.iter(),
        }
    }
}

/// The records of a transfer, borrowed field by field. A contract sees it as those still to come.
#[derive(Drop)]
pub struct ZoneTransferIter<'r> {
    start_soa: LookupRecordsIter<'r>,
    records: AxfrRecordsIter<'r>,
    end_soa: LookupRecordsIter<'r>,
}

impl<'r> Model for ZoneTransferIter<'r> {
    ghost use Rattle.std.specs.Prelude.{List, ◌++◌};
    ghost use Rattle.zst_denial.specs.zst_record.declared.records.Record.{Record as Entry};

    ghost Value = { List Entry };

    ghost view = { λ iter. iter.start_soa ++ (iter.records ++ iter.end_soa) };
}

impl<'r> Iterator for ZoneTransferIter<'r> {
    type Item = RecordRef<'r>;

    ghost next_gives = { YieldsFirstBy (λ lent. seen lent) (λ records. records) };

    ghost remaining = { item_count (λ records. records) };

    fn next(&mut self) -> Option<RecordRef<'r>> {
        if let Some(start) = self.start_soa.next() {
            return Some(start);
        }
        if let Some(own) = self.records.next() {
            return Some(own.lend());
        }
        self.end_soa.next()
    }
}
