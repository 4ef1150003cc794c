//! The draft of a zone: records are applied to it one by one, then it is committed.

ghost use Rattle.std.specs.Prelude.{◌≡◌, Some, IfOk, OnErr, OnOk};
ghost use Rattle.std.specs.HashMap.{PutsEntry, Updates, get};
ghost use Rattle.zst_map.specs.zst_handler.Lookups.{sets_of_name};
ghost use Rattle.zst_map.specs.zst_handler.Zones.{AreInOrder, AreStored, Zone};
ghost use Rattle.zst_request.specs.Applied.{LeavesZone, Owned, all_applied, any_changes, applied, changes};
ghost use Rattle.zst_draft.specs.ZoneDrafts.{Begins, DraftsZone, IsDraftOfZone};

use crate::commit::commit_owners;
use crate::owner::{OwnerDraft, either};
use std::alloc::{AllocError, Global};
use std::collections::HashMap;
use std::hash::Hash;
use std::mem;
use zst_zone::{NameKey, Record, StoredZone, ZoneSets};

/// The sets that a zone is to have after an update. Until `commit` the zone is only read.
#[derive(Drop)]
pub struct ZoneDraft {
    /// The owners named by records of the update.
    owners: HashMap<NameKey, OwnerDraft>,
}

impl ZoneDraft {
    /// A draft with the stored sets.
    pub fn new(alloc: Global) -> ZoneDraft
        ensures { (zone : Zone) → AreInOrder zone.sets → AreStored zone.sets → DraftsZone zone result (sets_of_name zone.sets) }
    {
        ZoneDraft {
            owners: HashMap::new(alloc),
        }
    }

    /// Applies a record of an update (RFC 2136 section 3.4.2), and returns whether it changes what the records before it left.
    /// A draft that ran out of memory can only be dropped.
    pub fn apply(
        &mut self,
        zone: &StoredZone,
        alloc: Global,
        change: Record,
    ) -> Result<bool, AllocError>
        requires { IsDraftOfZone zone.now self.old }
        ensures changed { IfOk result (λ changed. (at : Owned) → DraftsZone zone.now self.old at → changed ≡ changes zone.now.origin at change) }
        ensures applied { OnOk result ((at : Owned) → DraftsZone zone.now self.old at → DraftsZone zone.now self.new (applied zone.now.origin at change)) }
    {
        let Ok(key) = NameKey::of(alloc, &change.name) else {
            mem::drop(change);
            return Err(AllocError);
        };
        let at_apex = change.name == *zone.origin();
        let sets = zone.records();
        if let Some(owner) = self.owners.get_mut(&key) {
            return owner.apply(alloc, sets, &key, at_apex, change);
        }
        self.begin(alloc, sets, key, at_apex, change)
    }

    // Applies a record to the stored sets of its owner, whose key this is.
    fn begin(
        &mut self,
        alloc: Global,
        sets: &ZoneSets,
        key: NameKey,
        at_apex: bool,
        change: Record,
    ) -> Result<bool, AllocError>
        requires ordered { AreInOrder sets.now }
        requires stored { AreStored sets.now }
        ensures { IfOk result (λ changed. Begins sets.now self.old.owners key at_apex change changed self.new.owners) }
    {
        let Ok(mut owner) = OwnerDraft::over(alloc, sets, &key) else {
            mem::drop(change);
            mem::drop(key);
            return Err(AllocError);
        };
        let changed = owner.apply(alloc, sets, &key, at_apex, change)?;
        put(&mut self.owners, key, owner)?;
        Ok(changed)
    }

    /// Applies the records of an update in order, and returns whether one of them changes what the records before it left.
    pub fn apply_all(
        &mut self,
        zone: &StoredZone,
        alloc: Global,
        records: Vec<Record>,
    ) -> Result<bool, AllocError>
        requires { IsDraftOfZone zone.now self.old }
        ensures changed { IfOk result (λ changed. (at : Owned) → DraftsZone zone.now self.old at → changed ≡ any_changes zone.now.origin at records.items) }
        ensures applied { OnOk result ((at : Owned) → DraftsZone zone.now self.old at
            → DraftsZone zone.now self.new (all_applied zone.now.origin at records.items)) }
    {
        self.owners.reserve(records.len())?;
        let mut changed = false;
        for change in records {
            let more = self.apply(zone, alloc, change)?;
            changed = either(changed, more);
        }
        Ok(changed)
    }

    /// Puts the drafted sets into the zone: all of them, or none if memory runs out.
    pub fn commit(self, zone: &mut StoredZone, alloc: Global) -> Result<(), AllocError>
        requires { IsDraftOfZone zone.old self }
        ensures ok { OnOk result ((at : Owned) → DraftsZone zone.old self at → LeavesZone zone.old at zone.new) }
        ensures err { OnErr result (zone.new ≡ zone.old) }
    {
        // These calls give the proof the invariants: owners differ, sets are in order, and no set is empty.
        let _count = self.owners.len();
        let _before = zone.origin();
        commit_owners(alloc, self.owners, zone)?;
        let _after = zone.origin();
        Ok(())
    }
}

// Puts a value under a key.
fn put<K: Eq + Hash + Drop, V: Drop>(
    map: &mut HashMap<K, V>,
    key: K,
    value: V,
) -> Result<(), AllocError>
    ensures updates { OnOk result (Updates K.eq map.old map.new key (Some value)) }
    ensures entries { OnOk result (PutsEntry K.eq map.old map.new key value (get K.eq map.old key)) }
{
    match map.insert(key, value) {
        Ok(_) => Ok(()),
        Err(_) => Err(AllocError),
    }
}
