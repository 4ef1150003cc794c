//! Prerequisites of class IN, gathered by their sets, so that each set is compared once (RFC 2136 section 3.2.3).

ghost use Rattle.std.specs.Prelude.{◌≡◌, ◌∷◌, ◌++◌, [], List, IfOk, OnOk, map};
ghost use Rattle.std.specs.List.{list_all, list_any};
ghost use Rattle.zst_map.specs.zst_record.Records.{record_eq};
ghost use Rattle.zst_map.specs.zst_record.declared.records.Record.{Record};
ghost use Rattle.zst_request.specs.Prerequisites.{are_members, is_met, same_members};
ghost use Rattle.zsv_sqlite.specs.Groups.{Gathers, is_group_met, is_met_by};

use std::alloc::{AllocError, Global};
use std::collections::BTreeMap;
use zst_draft::{DNSClass, NameKey, Record, RecordType, StoredZone};

/// The owner and the type of a set, in the order of owners, then of types.
#[derive(PartialEq, Eq, PartialOrd, Ord, Drop)]
pub(crate) struct SetKey {
    owner: NameKey,
    record_type: RecordType,
}

/// The prerequisites of class IN by their sets, those of each set in order.
pub(crate) fn gathered<'r>(
    alloc: Global,
    prerequisites: &'r [Record],
) -> Result<BTreeMap<SetKey, Vec<&'r Record>>, AllocError>
    ensures { IfOk result (λ groups. Gathers prerequisites.now groups) }
{
    let mut groups = BTreeMap::new(alloc);
    for asked in prerequisites.iter() {
        gather(alloc, &mut groups, asked)?;
    }
    Ok(groups)
}

// Adds a prerequisite of class IN to those of its set, and passes over any other.
fn gather<'r>(
    alloc: Global,
    groups: &mut BTreeMap<SetKey, Vec<&'r Record>>,
    asked: &'r Record,
) -> Result<(), AllocError>
    ensures { OnOk result ((rs : List Record) → Gathers rs groups.old → Gathers (rs ++ asked.now ∷ []) groups.new) }
{
    if asked.dns_class != DNSClass::IN {
        return Ok(());
    }
    let key = SetKey {
        owner: NameKey::of(alloc, &asked.name)?,
        record_type: asked.record_type(),
    };
    if let Some(group) = groups.get_mut(&key) {
        group.push(asked)?;
        return Ok(());
    }
    let mut group = Vec::new(alloc);
    group.push(asked)?;
    groups.insert(key, group)?;
    Ok(())
}

/// Whether each set has exactly the records that are asked for. It takes no memory.
pub(crate) fn are_met<'r>(zone: &StoredZone, groups: &BTreeMap<SetKey, Vec<&'r Record>>) -> bool
    ensures { (rs : List Record) → Gathers rs groups.now → result ≡ list_all (is_met zone.now.sets rs) rs }
{
    // (wakes the order of the keys)
    let _count = groups.len();
    are_all_met(zone, groups)
}

fn are_all_met<'r>(zone: &StoredZone, groups: &BTreeMap<SetKey, Vec<&'r Record>>) -> bool
    ensures { result ≡ list_all (is_group_met zone.now.sets) groups.now.entries }
{
    for (key, wanted) in groups.iter() {
        if !is_met(zone, key, wanted.as_slice()) {
            return false;
        }
    }
    true
}

// Whether the set of a key has exactly these records.
fn is_met(zone: &StoredZone, key: &SetKey, wanted: &[&Record]) -> bool
    ensures { result ≡ is_met_by zone.now.sets key.now (map (λ r. r.now) wanted.now) }
{
    match zone.get_at(&key.owner, key.record_type) {
        Some(set) => same_members(wanted, set.as_slice()),
        None => false,
    }
}

// Whether each record is a member of the others, both ways.
fn same_members(wanted: &[&Record], stored: &[Record]) -> bool
    ensures { result ≡ same_members (map (λ r. r.now) wanted.now) stored.now }
{
    are_stored(wanted, stored) && are_wanted(stored, wanted)
}

fn are_stored(wanted: &[&Record], stored: &[Record]) -> bool
    ensures { result ≡ are_members (map (λ r. r.now) wanted.now) stored.now }
{
    for asked in wanted.iter() {
        if !is_stored(asked, stored) {
            return false;
        }
    }
    true
}

fn is_stored(asked: &Record, stored: &[Record]) -> bool
    ensures { result ≡ list_any (record_eq asked.now) stored.now }
{
    for other in stored.iter() {
        if *asked == *other {
            return true;
        }
    }
    false
}

fn are_wanted(stored: &[Record], wanted: &[&Record]) -> bool
    ensures { result ≡ are_members stored.now (map (λ r. r.now) wanted.now) }
{
    for member in stored.iter() {
        if !is_wanted(member, wanted) {
            return false;
        }
    }
    true
}

fn is_wanted(member: &Record, wanted: &[&Record]) -> bool
    ensures { result ≡ list_any (record_eq member.now) (map (λ r. r.now) wanted.now) }
{
    for asked in wanted.iter() {
        if *member == **asked {
            return true;
        }
    }
    false
}
