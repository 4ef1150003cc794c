//! The draft of one set of records.

ghost use Rattle.std.specs.Prelude.{◌≡◌, ◌<◌, ◌==◌, ◌&&◌, ◌||◌, [], List, Option, None, Some, true, false, IfOk, OnOk, is_some, length, position, slice_get, if◌then◌else◌};
ghost use Rattle.std.specs.List.{list_any};
ghost use Rattle.zst_map.specs.dnw_codes.RecordType.{same_record_type};
ghost use Rattle.zst_map.specs.dnw_codes.declared.record_type.RecordType.TheVariants as kind;
ghost use Rattle.zst_map.specs.zst_record.declared.records.Record.{Record};
ghost use Rattle.zst_map.specs.drd_rdata.Order.{rdata_eq};
ghost use Rattle.zst_map.specs.drd_rdata.Types.{type_of};
ghost use Rattle.zst_map.specs.zst_handler.Updates.{joins, upserted};
ghost use Rattle.zst_map.specs.zst_handler.Zones.{rrset_at};
ghost use Rattle.zst_map.specs.zst_record.RecordSets.{RRset, held_set, holds, is_single, keeps_last, outlasts, put_record, takes};
ghost use Rattle.zst_draft.specs.SetDrafts.{IsDraftOf, IsRecordsDraft, IsSetDraft, deletes, has_records, is_filled, joined, loses_in, lost_in, records_in, records_of, set_in};
ghost use Rattle.zst_draft.specs.Settling.{IsOverStored, IsSetOf};
ghost use Rattle.zst_map.specs.dnw_name.DomainName.{DomainName};

use crate::records::{RecordsDraft, opened};
use std::alloc::{AllocError, Global};
use std::mem;
use zst_map::{Name, NameKey, RData, Record, RecordSet, RecordType, ZoneSets};

/// The set that an owner is to have of one type.
#[derive(Drop)]
pub(crate) struct SetDraft {
    pub(crate) record_type: RecordType,
    /// Its records; `None` while the stored set stays as it is.
    pub(crate) records: Option<RecordsDraft>,
}

impl SetDraft {
    /// A draft that leaves the stored set as it is.
    pub(crate) fn stored(record_type: RecordType) -> SetDraft
        ensures kind { result.record_type ≡ record_type }
        ensures records { result.records ≡ None }
    {
        SetDraft {
            record_type,
            records: None,
        }
    }

    /// A draft of a new set with one record.
    pub(crate) fn begun(alloc: Global, next: Record) -> Result<SetDraft, AllocError>
        ensures kind { IfOk result (λ draft. draft.record_type ≡ type_of next.rdata) }
        ensures draft { IfOk result (λ draft. (stored : Option RRset) → IsSetDraft stored draft) }
        ensures set { IfOk result (λ draft. (stored : Option RRset) → set_in stored draft ≡ Some (upserted None next)) }
    {
        let record_type = next.record_type();
        let records = RecordsDraft::one(alloc, next)?;
        Ok(SetDraft {
            record_type,
            records: Some(records),
        })
    }

    /// Tests whether the set has records.
    pub(crate) fn is_filled(&self) -> bool
        ensures { result ≡ is_filled self.now }
    {
        match &self.records {
            Some(draft) => draft.len() != 0,
            None => true,
        }
    }

    /// Adds a record of the set's type as an update does (RFC 2136 section 3.4.2.2), and returns whether the set changed.
    pub(crate) fn add(
        &mut self,
        alloc: Global,
        sets: &ZoneSets,
        key: &NameKey,
        next: Record,
    ) -> Result<bool, AllocError>
        requires draft { IsSetDraft (rrset_at sets.now key.now self.old.record_type) self.old }
        requires kind { same_record_type (type_of next.rdata) self.old.record_type ≡ true }
        ensures draft { OnOk result (IsSetDraft (rrset_at sets.now key.now self.old.record_type) self.new) }
        ensures kind { OnOk result (same_record_type self.new.record_type self.old.record_type ≡ true) }
        ensures changed { IfOk result (λ changed. changed ≡ joins (set_in (rrset_at sets.now key.now self.old.record_type) self.old) next) }
        ensures set { OnOk result (set_in (rrset_at sets.now key.now self.old.record_type) self.new
            ≡ (if joins (set_in (rrset_at sets.now key.now self.old.record_type) self.old) next
            then Some (upserted (set_in (rrset_at sets.now key.now self.old.record_type) self.old) next)
            else set_in (rrset_at sets.now key.now self.old.record_type) self.old)) }
    {
        if !self.is_filled() {
            self.begin(alloc, next)?;
            return Ok(true);
        }
        let stored = stored_records(sets, key, self.record_type);
        if !self.takes(stored, &next) {
            mem::drop(next);
            return Ok(false);
        }
        let draft = self.joined(alloc, stored, next)?;
        mem::drop(mem::replace(&mut self.records, Some(draft)));
        Ok(true)
    }

    // Replaces the set by a new one with one record.
    fn begin(&mut self, alloc: Global, next: Record) -> Result<(), AllocError>
        ensures kind { OnOk result (self.new.record_type ≡ type_of next.rdata) }
        ensures draft { OnOk result ((stored : Option RRset) → IsSetDraft stored self.new) }
        ensures set { OnOk result ((stored : Option RRset) → set_in stored self.new ≡ Some (upserted None next)) }
    {
        let draft = SetDraft::begun(alloc, next)?;
        mem::drop(mem::replace(self, draft));
        Ok(())
    }

    // The records with a new one, which replaces all others if the type has one record at most.
    fn joined(
        &mut self,
        alloc: Global,
        stored: &[Record],
        next: Record,
    ) -> Result<RecordsDraft, AllocError>
        requires { IsDraftOf stored.now self.old.records }
        ensures kind { self.new.record_type ≡ self.old.record_type }
        ensures draft { IfOk result (IsRecordsDraft (length stored.now)) }
        ensures records { IfOk result (λ draft. records_in stored.now (Some draft)
            ≡ joined self.old.record_type (records_in stored.now self.old.records) next) }
    {
        if is_single(self.record_type) {
            RecordsDraft::one(alloc, next)
        } else {
            self.with(alloc, stored, next)
        }
    }

    // The records with a new one, which replaces the one with equal data.
    fn with(
        &mut self,
        alloc: Global,
        stored: &[Record],
        next: Record,
    ) -> Result<RecordsDraft, AllocError>
        requires { IsDraftOf stored.now self.old.records }
        ensures kind { self.new.record_type ≡ self.old.record_type }
        ensures draft { IfOk result (IsRecordsDraft (length stored.now)) }
        ensures records { IfOk result (λ draft. records_in stored.now (Some draft) ≡ put_record (records_in stored.now self.old.records) next) }
    {
        let place = self.place_of(stored, &next.rdata);
        let Ok(mut draft) = opened(self.records.take(), alloc, stored) else {
            mem::drop(next);
            return Err(AllocError);
        };
        draft.put(place, next)?;
        Ok(draft)
    }

    /// Deletes the record with equal data (RFC 2136 section 3.4.2.4), and returns whether there was one that may be deleted:
    /// an SOA and the last NS stay.
    pub(crate) fn take(
        &mut self,
        alloc: Global,
        sets: &ZoneSets,
        key: &NameKey,
        change: &Record,
    ) -> Result<bool, AllocError>
        requires { IsSetDraft (rrset_at sets.now key.now self.old.record_type) self.old }
        ensures draft { OnOk result (IsSetDraft (rrset_at sets.now key.now self.old.record_type) self.new) }
        ensures kind { OnOk result (self.new.record_type ≡ self.old.record_type) }
        ensures changed { IfOk result (λ changed. changed ≡ loses_in (set_in (rrset_at sets.now key.now self.old.record_type) self.old) change.now) }
        ensures set { OnOk result (set_in (rrset_at sets.now key.now self.old.record_type) self.new
            ≡ lost_in (set_in (rrset_at sets.now key.now self.old.record_type) self.old) change.now) }
    {
        let stored = stored_records(sets, key, self.record_type);
        if self.keeps_last(stored) {
            return Ok(false);
        }
        let Some(place) = self.place_of(stored, &change.rdata) else {
            return Ok(false);
        };
        let mut draft = opened(self.records.take(), alloc, stored)?;
        draft.remove(place);
        self.records = Some(draft);
        Ok(true)
    }

    /// Deletes the set if a record of class ANY does so (RFC 2136 section 3.4.2.3), and returns whether it had records.
    pub(crate) fn delete(&mut self, alloc: Global, at_apex: bool, change: &Record) -> bool
        ensures kind { self.new.record_type ≡ self.old.record_type }
        ensures changed { result ≡ (is_filled self.old && deletes at_apex change.now self.old.record_type) }
        ensures draft { (stored : Option RRset) → IsSetDraft stored self.old → IsSetDraft stored self.new }
        ensures set { (stored : Option RRset) → IsSetDraft stored self.old
            → set_in stored self.new ≡ (if deletes at_apex change.now self.old.record_type then None else set_in stored self.old) }
    {
        if !self.is_filled() || !deletes(at_apex, change, self.record_type) {
            return false;
        }
        let none = Some(RecordsDraft::new(alloc));
        mem::drop(mem::replace(&mut self.records, none));
        true
    }

    /// The drafted set, if it has records and none is stored. The draft then has none.
    pub(crate) fn take_set(&mut self, alloc: Global) -> Option<RecordSet>
        requires draft { IsOverStored None self.old.records }
        requires set { (key : DomainName) × IsSetOf key (set_in None self.old) }
        ensures kind { self.new.record_type ≡ self.old.record_type }
        ensures set { result ≡ set_in None self.old }
        ensures records { self.new.records ≡ (if is_some result then None else self.old.records) }
    {
        if !self.has_records() {
            return None;
        }
        let Some(draft) = self.records.take() else {
            return None;
        };
        let mut set = RecordSet::new(alloc, Name::root(alloc), self.record_type);
        set.settle(self.record_type, draft.into_list());
        Some(set)
    }

    // Tests whether the draft has records of its own.
    fn has_records(&self) -> bool
        ensures { result ≡ has_records self.now.records }
    {
        match &self.records {
            Some(draft) => draft.len() != 0,
            None => false,
        }
    }

    // The number of records.
    fn len(&self, stored: &[Record]) -> usize
        requires { IsDraftOf stored.now self.now.records }
        ensures { result ≡ length (records_in stored.now self.now.records) }
    {
        match &self.records {
            Some(draft) => draft.len(),
            None => stored.len(),
        }
    }

    // The record with this index, stored or new.
    fn get<'d>(&'d self, stored: &'d [Record], at: usize) -> &'d Record
        requires draft { IsDraftOf stored.now self.now.records }
        requires at { at < length (records_in stored.now self.now.records) }
        ensures { slice_get (records_in stored.now self.now.records) at ≡ Some result.now }
    {
        match &self.records {
            Some(draft) => draft.get(stored, at),
            None => &stored[at],
        }
    }

    // The index of the record with equal data.
    fn place_of(&self, stored: &[Record], rdata: &RData) -> Option<usize>
        requires { IsDraftOf stored.now self.now.records }
        ensures { result ≡ position (λ s. rdata_eq s.rdata rdata.now) (records_in stored.now self.now.records) }
    {
        for at in 0..self.len(stored) {
            if self.get(stored, at).rdata == *rdata {
                return Some(at);
            }
        }
        None
    }

    // Tests whether adding a record would change the set.
    fn takes(&self, stored: &[Record], next: &Record) -> bool
        requires draft { IsDraftOf stored.now self.now.records }
        requires filled { 0 < length (records_in stored.now self.now.records) }
        ensures { result ≡ takes (held_set self.now.record_type false (records_in stored.now self.now.records) []) next.now }
    {
        next.dns_class == self.get(stored, 0).dns_class
            && !self.any_outlasts(stored, &next.rdata)
            && !self.holds(stored, next)
    }

    // Tests for an SOA whose serial number isn't below that of the given data.
    fn any_outlasts(&self, stored: &[Record], rdata: &RData) -> bool
        requires { IsDraftOf stored.now self.now.records }
        ensures { result ≡ list_any (λ s. outlasts s.rdata rdata.now) (records_in stored.now self.now.records) }
    {
        for at in 0..self.len(stored) {
            if outlasts(&self.get(stored, at).rdata, rdata) {
                return true;
            }
        }
        false
    }

    // Tests for a record with equal data and TTL.
    fn holds(&self, stored: &[Record], next: &Record) -> bool
        requires { IsDraftOf stored.now self.now.records }
        ensures { result ≡ holds (records_in stored.now self.now.records) next.now }
    {
        for at in 0..self.len(stored) {
            if is_same(self.get(stored, at), next) {
                return true;
            }
        }
        false
    }

    // Tests whether no record may be deleted: of an SOA, or the last NS.
    fn keeps_last(&self, stored: &[Record]) -> bool
        requires { IsDraftOf stored.now self.now.records }
        ensures { result ≡ keeps_last (held_set self.now.record_type false (records_in stored.now self.now.records) []) }
    {
        self.record_type == RecordType::SOA
            || (self.record_type == RecordType::NS && self.len(stored) <= 1)
    }
}

// The stored records of the name with this key and of a type.
fn stored_records<'z>(sets: &'z ZoneSets, key: &NameKey, record_type: RecordType) -> &'z [Record]
    ensures { result.now ≡ records_of (rrset_at sets.now key.now record_type) }
{
    match sets.get(key, record_type) {
        Some(set) => set.as_slice(),
        None => &[],
    }
}

// Tests whether both are SOA data, and the serial number of the stored one isn't below that of the other.
fn outlasts(stored: &RData, rdata: &RData) -> bool
    ensures { result ≡ outlasts stored.now rdata.now }
{
    match (stored, rdata) {
        (RData::SOA(soa), RData::SOA(next)) => next.serial <= soa.serial,
        _ => false,
    }
}

// Tests whether two records have equal data and TTL.
fn is_same(stored: &Record, next: &Record) -> bool
    ensures { result ≡ (rdata_eq stored.now.rdata next.now.rdata && (stored.now.ttl == next.now.ttl)) }
{
    stored.rdata == next.rdata && stored.ttl == next.ttl
}

// Tests whether a set of this type has one record at most (RFC 1034 section 3.6.2, RFC 1035 section 3.3.13).
fn is_single(record_type: RecordType) -> bool
    ensures { result ≡ is_single record_type }
{
    record_type == RecordType::CNAME
        || record_type == RecordType::ANAME
        || record_type == RecordType::SOA
}

// Tests whether a record of class ANY deletes sets of a type: those of its own type, or all; SOA and NS of the apex stay (RFC
// 2136 sections 3.4.2.3 and 7.13).
fn deletes(at_apex: bool, change: &Record, record_type: RecordType) -> bool
    ensures { result ≡ deletes at_apex change.now record_type }
{
    let asked = change.record_type();
    (asked == RecordType::ANY || record_type == asked) && !(at_apex && stays_at_apex(record_type))
}

// Tests whether sets of this type stay at the apex.
fn stays_at_apex(record_type: RecordType) -> bool
    ensures { result ≡ (same_record_type record_type kind.SOA || same_record_type record_type kind.NS) }
{
    record_type == RecordType::SOA || record_type == RecordType::NS
}
