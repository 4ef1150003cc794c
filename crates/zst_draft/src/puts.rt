//! New sets put into a zone, and removed again if memory runs out.

ghost use Rattle.std.specs.Prelude.{◌≡◌, false, true, List, None, Some, OnErr, OnOk, reverse};
ghost use Rattle.zst_map.specs.dnw_name.DomainName.{DomainName, lowercase_name, name_eq};
ghost use Rattle.zst_map.specs.zst_handler.Updates.{ZoneReplaces};
ghost use Rattle.zst_map.specs.zst_handler.Zones.{AreInOrder, Zone, rrset_at};
ghost use Rattle.zst_map.specs.zst_record.RecordSets.{none_left};
ghost use Rattle.zst_draft.specs.Settling.{CanSettle, IsReady, Returns, Settles};

use crate::set::SetDraft;
use std::alloc::{AllocError, Global};
use std::mem;
use zst_zone::{NameKey, RecordSet, RecordType, StoredZone};

/// The owners and types of the sets that were put, in order.
#[derive(Drop)]
pub(crate) struct Puts {
    done: Vec<(NameKey, RecordType)>,
}

impl Puts {
    /// No sets yet.
    pub(crate) fn new(alloc: Global) -> Puts
        ensures { (zone : Zone) → AreInOrder zone.sets → Returns zone (reverse result.done.items) zone }
    {
        Puts {
            done: Vec::new(alloc),
        }
    }

    /// Puts a drafted set into the zone, if the owner has no set of its type.
    pub(crate) fn put(
        &mut self,
        alloc: Global,
        key: &NameKey,
        draft: &mut SetDraft,
        zone: &mut StoredZone,
    ) -> Result<(), AllocError>
        requires can { CanSettle zone.old.sets key.now draft.old }
        requires lower { lowercase_name key.now ≡ key.now }
        ensures settles { OnOk result (Settles zone.old key.now draft.old zone.new draft.new) }
        ensures ready { OnOk result (IsReady zone.new.sets key.now draft.new) }
        ensures back { (start : Zone) → Returns start (reverse self.old.done.items) zone.old
            → Returns start (reverse self.new.done.items) zone.new }
    {
        if zone.get_at(key, draft.record_type).is_some() {
            return Ok(());
        }
        match draft.take_set(alloc) {
            Some(set) => self.put_set(alloc, key, set, zone),
            None => Ok(()),
        }
    }

    // Puts a set into a zone that has none of its owner and type. The key is its owner's.
    fn put_set(
        &mut self,
        alloc: Global,
        at: &NameKey,
        set: RecordSet,
        zone: &mut StoredZone,
    ) -> Result<(), AllocError>
        requires key { at.now ≡ lowercase_name set.name }
        requires none { rrset_at zone.old.sets set.name set.record_type ≡ None }
        requires filled { none_left set.records ≡ false }
        ensures ok { OnOk result (ZoneReplaces zone.old set.name set.record_type (Some set) zone.new) }
        ensures back { (start : Zone) → Returns start (reverse self.old.done.items) zone.old
            → Returns start (reverse self.new.done.items) zone.new }
    {
        let record_type = set.record_type();
        let Ok(key) = at.clone() else {
            mem::drop(set);
            return Err(AllocError);
        };
        let Ok(own) = key.clone() else {
            mem::drop(set);
            mem::drop(key);
            return Err(AllocError);
        };
        if self.done.try_reserve(1).is_err() {
            mem::drop(set);
            mem::drop((key, own));
            return Err(AllocError);
        }
        if zone.put_at(alloc, own, set).is_err() {
            mem::drop(key);
            return Err(AllocError);
        }
        self.done.push_reserved((key, record_type));
        Ok(())
    }

    /// Removes the sets again, the last one first. It takes no memory.
    pub(crate) fn take_back(self, zone: &mut StoredZone)
        ensures { (start : Zone) → Returns start (reverse self.done.items) zone.old → zone.new ≡ start }
    {
        let mut left = self.done;
        'sets: while let Some((key, record_type)) = left.pop() {
            mem::drop(zone.remove_at(&key, record_type));
        }
    }
}
