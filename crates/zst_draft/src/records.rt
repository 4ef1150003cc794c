//! The draft of a set's records.

ghost use Rattle.std.specs.Prelude.{◌≡◌, ◌<◌, ◌++◌, ◌∷◌, ℕ, [], List, None, Some, IfOk, IfSome, OnErr, OnOk, length, position, remove, slice_get};
ghost use Rattle.zst_map.specs.drd_rdata.Order.{rdata_eq};
ghost use Rattle.zst_map.specs.zst_record.RecordSets.{put_record};
ghost use Rattle.zst_map.specs.zst_record.declared.records.Record.{Record};
ghost use Rattle.zst_draft.specs.SetDrafts.{IsDraftOf, IsRecordsDraft, records_in, stand_in};

use std::alloc::{AllocError, Global};
use zst_map::{Draft, Name, Record, RecordType};

/// The records that a set is to have: new ones, and ones that stay in the stored set until the draft is committed.
#[derive(Drop)]
pub(crate) struct RecordsDraft {
    list: Draft<Record>,
    /// The number of records.
    len: usize,
}

impl RecordsDraft {
    /// No records.
    pub(crate) fn new(alloc: Global) -> RecordsDraft
        ensures draft { (count : ℕ) → IsRecordsDraft count result }
        ensures records { (stored : List Record) → records_in stored (Some result) ≡ [] }
    {
        RecordsDraft {
            list: Draft::new(alloc),
            len: 0,
        }
    }

    /// One new record.
    pub(crate) fn one(alloc: Global, next: Record) -> Result<RecordsDraft, AllocError>
        ensures draft { IfOk result (λ draft. (count : ℕ) → IsRecordsDraft count draft) }
        ensures records { IfOk result (λ draft. (stored : List Record) → records_in stored (Some draft) ≡ next ∷ []) }
    {
        let mut draft = RecordsDraft::new(alloc);
        draft.push(next)?;
        Ok(draft)
    }

    /// All stored records.
    pub(crate) fn over(alloc: Global, stored: &[Record]) -> Result<RecordsDraft, AllocError>
        ensures draft { IfOk result (IsRecordsDraft (length stored.now)) }
        ensures records { IfOk result (λ draft. records_in stored.now (Some draft) ≡ stored.now) }
    {
        let mut draft = RecordsDraft::new(alloc);
        for place in 0..stored.len() {
            draft.push_stored(alloc, place)?;
        }
        Ok(draft)
    }

    /// The number of records.
    pub(crate) fn len(&self) -> usize
        ensures { result ≡ self.now.len }
    {
        self.len
    }

    // Appends the stored record with this index.
    fn push_stored(&mut self, alloc: Global, place: usize) -> Result<(), AllocError>
        requires { self.old.len ≡ length self.old.list.items.items }
        ensures places { OnOk result (self.new.list.places.items ≡ self.old.list.places.items ++ Some place ∷ []) }
        ensures items { OnOk result (self.new.list.items.items ≡ self.old.list.items.items ++ stand_in ∷ []) }
        ensures len { OnOk result (self.new.len ≡ length self.new.list.items.items) }
    {
        let stand_in = Record::update0(Name::root(alloc), 0, RecordType::ANY);
        self.list.push_stored(place, stand_in)?;
        self.len += 1;
        Ok(())
    }

    // Appends a new record.
    fn push(&mut self, next: Record) -> Result<(), AllocError>
        requires { self.old.len ≡ length self.old.list.items.items }
        ensures draft { OnOk result ((count : ℕ) → IsRecordsDraft count self.old → IsRecordsDraft count self.new) }
        ensures records { OnOk result ((stored : List Record) → IsRecordsDraft (length stored) self.old
            → records_in stored (Some self.new) ≡ records_in stored (Some self.old) ++ next ∷ []) }
    {
        self.list.push(next)?;
        self.len += 1;
        Ok(())
    }

    /// The record with this index, stored or new.
    pub(crate) fn get<'d>(&'d self, stored: &'d [Record], at: usize) -> &'d Record
        requires at { at < self.now.len }
        requires draft { IsRecordsDraft (length stored.now) self.now }
        ensures { slice_get (records_in stored.now (Some self.now)) at ≡ Some result.now }
    {
        self.list.get(stored, at)
    }

    /// Replaces the record with equal data, whose index is given, or appends the new one if there is none.
    pub(crate) fn put(&mut self, place: Option<usize>, next: Record) -> Result<(), AllocError>
        requires draft { (count : ℕ) × IsRecordsDraft count self.old }
        requires place { IfSome place (λ at. at < self.old.len) }
        ensures draft { OnOk result ((count : ℕ) → IsRecordsDraft count self.old → IsRecordsDraft count self.new) }
        ensures records { OnOk result ((stored : List Record) → IsRecordsDraft (length stored) self.old
            → place ≡ position (λ s. rdata_eq s.rdata next.rdata) (records_in stored (Some self.old))
            → records_in stored (Some self.new) ≡ put_record (records_in stored (Some self.old)) next) }
    {
        match place {
            Some(at) => {
                self.list.set(at, next);
                Ok(())
            }
            None => self.push(next),
        }
    }

    /// Removes a record.
    pub(crate) fn remove(&mut self, at: usize)
        requires draft { (count : ℕ) × IsRecordsDraft count self.old }
        requires at { at < self.old.len }
        ensures draft { (count : ℕ) → IsRecordsDraft count self.old → IsRecordsDraft count self.new }
        ensures records { (stored : List Record) → IsRecordsDraft (length stored) self.old
            → records_in stored (Some self.new) ≡ remove (records_in stored (Some self.old)) at }
    {
        self.list.remove(at);
        self.len -= 1;
    }

    /// The list of records, to be settled in a set.
    pub(crate) fn into_list(self) -> Draft<Record>
        ensures { result ≡ self.list }
    {
        self.list
    }
}

/// The given draft of a set's records, or a new one of the stored records.
pub(crate) fn opened(
    records: Option<RecordsDraft>,
    alloc: Global,
    stored: &[Record],
) -> Result<RecordsDraft, AllocError>
    requires { IsDraftOf stored.now records }
    ensures draft { IfOk result (IsRecordsDraft (length stored.now)) }
    ensures records { IfOk result (λ draft. records_in stored.now (Some draft) ≡ records_in stored.now records) }
{
    match records {
        Some(draft) => Ok(draft),
        None => RecordsDraft::over(alloc, stored),
    }
}
