//! The draft of one owner's sets.

ghost use Rattle.std.specs.Prelude.{◌≡◌, ◌&&◌, ◌||◌, false, IfOk, position};
ghost use Rattle.std.specs.List.{list_any};
ghost use Rattle.zst_map.specs.dnw_codes.declared.dns_class.DNSClass.TheVariants as classes;
ghost use Rattle.zst_map.specs.zst_handler.Lookups.{sets_of_name};
ghost use Rattle.zst_map.specs.zst_handler.Updates.{are_apart, may_be_beside_alias};
ghost use Rattle.zst_map.specs.zst_handler.Zones.{AreInOrder, AreStored, rrset_at};
ghost use Rattle.zst_draft.specs.OwnerDrafts.{Applies, DeletesAll, DraftsSets, IsOwnerDraft, is_draft_of, keeps_out};
ghost use Rattle.zst_draft.specs.SetDrafts.{deletes, is_filled};

use crate::set::SetDraft;
use std::alloc::{AllocError, Global};
use std::mem;
use zst_map::{DNSClass, NameKey, Record, RecordType, ZoneSets, push};

/// The sets that an owner is to have: a draft for each stored set, and for each new one.
#[derive(Drop)]
pub(crate) struct OwnerDraft {
    pub(crate) sets: Vec<SetDraft>,
}

impl OwnerDraft {
    /// Drafts of the stored sets of the name with this key.
    pub(crate) fn over(
        alloc: Global,
        sets: &ZoneSets,
        key: &NameKey,
    ) -> Result<OwnerDraft, AllocError>
        requires ordered { AreInOrder sets.now }
        requires stored { AreStored sets.now }
        ensures draft { IfOk result (λ owner. IsOwnerDraft (rrset_at sets.now key.now) owner.sets.items) }
        ensures alike { IfOk result (λ owner. DraftsSets (rrset_at sets.now key.now) owner.sets.items (sets_of_name sets.now key.now)) }
    {
        let mut drafts = Vec::new(alloc);
        for set in sets.sets_at(key) {
            push(&mut drafts, SetDraft::stored(set.record_type()))?;
        }
        Ok(OwnerDraft { sets: drafts })
    }

    /// Applies a record of an update to the sets of its owner, whose key this is, and returns whether it changes them (RFC
    /// 2136 section 3.4.2).
    pub(crate) fn apply(
        &mut self,
        alloc: Global,
        sets: &ZoneSets,
        key: &NameKey,
        at_apex: bool,
        change: Record,
    ) -> Result<bool, AllocError>
        requires { IsOwnerDraft (rrset_at sets.now key.now) self.old.sets.items }
        ensures { IfOk result (λ changed. Applies (rrset_at sets.now key.now) self.old.sets.items at_apex change change.dns_class changed self.new.sets.items) }
    {
        match change.dns_class {
            DNSClass::IN => self.add(alloc, sets, key, change),
            DNSClass::ANY => {
                let changed = self.delete(alloc, at_apex, &change);
                mem::drop(change);
                Ok(changed)
            }
            DNSClass::NONE => {
                let changed = self.take(alloc, sets, key, &change);
                mem::drop(change);
                changed
            }
            _ => {
                mem::drop(change);
                Ok(false)
            }
        }
    }

    // Adds a record, unless it may not be beside the sets that are there.
    fn add(
        &mut self,
        alloc: Global,
        sets: &ZoneSets,
        key: &NameKey,
        next: Record,
    ) -> Result<bool, AllocError>
        requires { IsOwnerDraft (rrset_at sets.now key.now) self.old.sets.items }
        ensures { IfOk result (λ changed. Applies (rrset_at sets.now key.now) self.old.sets.items false next classes.IN changed self.new.sets.items) }
    {
        let record_type = next.record_type();
        if self.keeps_out(record_type) {
            mem::drop(next);
            return Ok(false);
        }
        match self.place_of(record_type) {
            Some(place) => self.sets[place].add(alloc, sets, key, next),
            None => {
                let draft = SetDraft::begun(alloc, next)?;
                push(&mut self.sets, draft)?;
                Ok(true)
            }
        }
    }

    // Deletes a record from the set of its type.
    fn take(
        &mut self,
        alloc: Global,
        sets: &ZoneSets,
        key: &NameKey,
        change: &Record,
    ) -> Result<bool, AllocError>
        requires { IsOwnerDraft (rrset_at sets.now key.now) self.old.sets.items }
        ensures { IfOk result (λ changed. Applies (rrset_at sets.now key.now) self.old.sets.items false change.now classes.NONE changed self.new.sets.items) }
    {
        match self.place_of(change.record_type()) {
            Some(place) => self.sets[place].take(alloc, sets, key, change),
            None => Ok(false),
        }
    }

    // Deletes the sets named by a record of class ANY.
    fn delete(&mut self, alloc: Global, at_apex: bool, change: &Record) -> bool
        ensures changed { result ≡ list_any (λ draft. is_filled draft && deletes at_apex change.now draft.record_type) self.old.sets.items }
        ensures drafts { DeletesAll at_apex change.now self.old.sets.items self.new.sets.items }
    {
        let mut changed = false;
        for at in 0..self.sets.len() {
            let deleted = self.sets[at].delete(alloc, at_apex, change);
            changed = either(changed, deleted);
        }
        changed
    }

    // Tests whether a record of this type may not be added, because of an alias (RFC 2181 section 10.1).
    fn keeps_out(&self, record_type: RecordType) -> bool
        ensures { result ≡ keeps_out self.now.sets.items record_type }
    {
        self.sets.iter().any(|draft| draft.is_filled() && are_apart(draft.record_type, record_type))
    }

    // The index of the draft of this type.
    fn place_of(&self, record_type: RecordType) -> Option<usize>
        ensures { result ≡ position (is_draft_of record_type) self.now.sets.items }
    {
        self.sets
            .iter()
            .position(|draft| draft.record_type == record_type)
    }
}

// A function of its own, since a proof loses facts where `||` joins before a later call.
pub(crate) fn either(first: bool, second: bool) -> bool
    ensures { result ≡ (first || second) }
{
    first || second
}

// Tests whether one owner may not have sets of both types: an alias, and a type that may not be beside it.
fn are_apart(first: RecordType, second: RecordType) -> bool
    ensures { result ≡ are_apart first second }
{
    (first == RecordType::CNAME && !may_be_beside_alias(second))
        || (second == RecordType::CNAME && !may_be_beside_alias(first))
}

// Tests whether a set of this type may be beside an alias (RFC 2181 section 10.1, RFC 4035 section 2.5).
fn may_be_beside_alias(record_type: RecordType) -> bool
    ensures { result ≡ may_be_beside_alias record_type }
{
    record_type == RecordType::CNAME
        || record_type == RecordType::NSEC
        || record_type == RecordType::NSEC3
}
