//! Drafted sets are put into the zone: new sets first, which may run out of memory; then all others, which can't.

ghost use Rattle.std.specs.Prelude.{◌≡◌, None, OnErr, OnOk, IfOk, reverse};
ghost use Rattle.std.specs.List.{AllByRecursion};
ghost use Rattle.zst_map.specs.dnw_codes.declared.record_type.RecordType.{RecordType};
ghost use Rattle.zst_map.specs.dnw_name.DomainName.{DomainName};
ghost use Rattle.zst_map.specs.zst_handler.Zones.{Zone, rrset_at};
ghost use Rattle.zst_draft.specs.Settling.{AreReady, CanSettle, CanSettleAll, CanSettleOwner, IsReady, Returns, Settles, SettlesAll, SettlesOwner, value_at};

use crate::owner::OwnerDraft;
use crate::puts::Puts;
use crate::set::SetDraft;
use std::alloc::{AllocError, Global};
use std::collections::HashMap;
use std::mem;
use zst_map::push;
use zst_zone::{Edit, NameKey, StoredZone};

/// Puts the drafts of all owners into the zone, or none of them.
pub(crate) fn commit_owners(
    alloc: Global,
    owners: HashMap<NameKey, OwnerDraft>,
    zone: &mut StoredZone,
) -> Result<(), AllocError>
    requires { CanSettleAll zone.old.sets owners.entries }
    ensures ok { OnOk result ((name : DomainName) (record_type : RecordType)
        → rrset_at zone.new.sets name record_type ≡ value_at zone.old.sets owners.entries name record_type) }
    ensures rest { OnOk result (zone.new ≡ record zone.old { sets = zone.new.sets }) }
    ensures err { OnErr result (zone.new ≡ zone.old) }
{
    let _origin = zone.origin();
    let mut puts = Puts::new(alloc);
    match put_owners(alloc, owners, zone, &mut puts) {
        Ok(owners) => {
            settle_owners(owners, zone);
            Ok(())
        }
        Err(_) => {
            puts.take_back(zone);
            Err(AllocError)
        }
    }
}

// Puts all drafted sets whose owner has no set of their type.
fn put_owners(
    alloc: Global,
    owners: HashMap<NameKey, OwnerDraft>,
    zone: &mut StoredZone,
    puts: &mut Puts,
) -> Result<Vec<(NameKey, OwnerDraft)>, AllocError>
    requires { CanSettleAll zone.old.sets owners.entries }
    ensures settles { IfOk result (λ put. SettlesAll zone.old owners.entries zone.new put.items) }
    ensures ready { IfOk result (λ put. AreReady zone.new.sets put.items) }
    ensures back { (start : Zone) → Returns start (reverse puts.old.done.items) zone.old
        → Returns start (reverse puts.new.done.items) zone.new }
{
    let mut put = Vec::with_capacity(alloc, owners.len())?;
    'owners: for (key, owner) in owners {
        let mut owner = owner;
        put_owner(alloc, &key, &mut owner, zone, puts)?;
        push(&mut put, (key, owner))?;
    }
    Ok(put)
}

// Puts the drafted sets of one owner that has no set of their type.
fn put_owner(
    alloc: Global,
    key: &NameKey,
    owner: &mut OwnerDraft,
    zone: &mut StoredZone,
    puts: &mut Puts,
) -> Result<(), AllocError>
    requires { CanSettleOwner zone.old.sets key.now owner.old.sets.items }
    ensures settles { OnOk result (SettlesOwner zone.old key.now owner.old.sets.items zone.new owner.new.sets.items) }
    ensures ready { OnOk result (AllByRecursion (IsReady zone.new.sets key.now) owner.new.sets.items) }
    ensures back { (start : Zone) → Returns start (reverse puts.old.done.items) zone.old
        → Returns start (reverse puts.new.done.items) zone.new }
{
    for at in 0..owner.sets.len() {
        puts.put(alloc, key, &mut owner.sets[at], zone)?;
    }
    Ok(())
}

// Replaces stored sets by drafted ones, for all owners. It takes no memory.
fn settle_owners(owners: Vec<(NameKey, OwnerDraft)>, zone: &mut StoredZone)
    requires can { CanSettleAll zone.old.sets owners.items }
    requires ready { AreReady zone.old.sets owners.items }
    ensures values { (name : DomainName) (record_type : RecordType)
        → rrset_at zone.new.sets name record_type ≡ value_at zone.old.sets owners.items name record_type }
    ensures rest { zone.new ≡ record zone.old { sets = zone.new.sets } }
{
    let mut left = owners;
    'owners: while let Some((key, owner)) = left.pop() {
        let mut owner = owner;
        settle_owner(&key, &mut owner, zone);
        mem::drop((key, owner));
    }
}

// Replaces the stored sets of one owner by drafted ones.
fn settle_owner(key: &NameKey, owner: &mut OwnerDraft, zone: &mut StoredZone)
    requires can { CanSettleOwner zone.old.sets key.now owner.old.sets.items }
    requires ready { AllByRecursion (IsReady zone.old.sets key.now) owner.old.sets.items }
    ensures settles { SettlesOwner zone.old key.now owner.old.sets.items zone.new owner.new.sets.items }
    ensures done { AllByRecursion (λ draft. draft.records ≡ None) owner.new.sets.items }
{
    for at in 0..owner.sets.len() {
        settle(key, &mut owner.sets[at], zone);
    }
}

// Replaces a stored set by the drafted one, or deletes it if that has no records.
fn settle(key: &NameKey, draft: &mut SetDraft, zone: &mut StoredZone)
    requires can { CanSettle zone.old.sets key.now draft.old }
    requires ready { IsReady zone.old.sets key.now draft.old }
    ensures settles { Settles zone.old key.now draft.old zone.new draft.new }
    ensures done { draft.new.records ≡ None }
{
    let record_type = draft.record_type;
    let Some(records) = draft.records.take() else {
        return;
    };
    if records.len() == 0 {
        mem::drop(records);
        mem::drop(zone.remove_at(key, record_type));
        return;
    }
    zone.edit_at(
        key,
        record_type,
        Edit::Settle(record_type, records.into_list()),
    );
}
