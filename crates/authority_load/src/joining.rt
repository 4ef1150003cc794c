//! A record that joins a zone, and what keeps it out.

ghost use Rattle.std.specs.Prelude.{◌≡◌, ◌&&◌, ◌||◌, IfErr, OnErr, OnOk, MatchOption, is_some, not, option_copied};
ghost use Rattle.zst_zone.specs.dnw_codes.declared.record_type.RecordType.TheVariants as types;
ghost use Rattle.zst_zone.specs.dnw_name.DomainName.{lowercase_name};
ghost use Rattle.zst_zone.specs.zst_handler.Updates.{are_apart, is_kept_out, may_be_beside_alias};
ghost use Rattle.zst_zone.specs.zst_handler.Zones.{rrset_at};
ghost use Rattle.authority_load.specs.Joining.{Joins, has_others, is_other_alias, is_beside_alias, is_second_start};
ghost use Rattle.authority_load.specs.ZoneText.{MayJoin, RefusesValue};

use crate::loader::LoadCause;
use std::alloc::Global;
use std::mem;
use zst_zone::{NameKey, Record, RecordSet, RecordType, StoredZone};

// Whether an owner of an alias may own a set of this type too.
fn may_be_beside_alias(record_type: RecordType) -> bool
    ensures { result ≡ may_be_beside_alias record_type }
{
    record_type == RecordType::CNAME
        || record_type == RecordType::NSEC
        || record_type == RecordType::NSEC3
}

// Whether no name may own sets of both types.
fn are_apart(first: RecordType, second: RecordType) -> bool
    ensures { result ≡ are_apart first second }
{
    (first == RecordType::CNAME && !may_be_beside_alias(second))
        || (second == RecordType::CNAME && !may_be_beside_alias(first))
}

// Whether one of these sets excludes a set of this type.
fn is_kept_out(sets: &[RecordSet], record_type: RecordType) -> bool
    ensures { result ≡ is_kept_out sets.now record_type }
{
    sets.iter()
        .any(|set| are_apart(set.record_type(), record_type))
}

// Whether one of these records has other data.
fn has_others(records: &[Record], next: &Record) -> bool
    ensures { result ≡ has_others records.now next.now }
{
    records.iter().any(|stored| stored.rdata != next.rdata)
}

// Whether the alias has another target.
fn is_other_alias(alias: Option<&RecordSet>, next: &Record) -> bool
    ensures { result ≡ is_other_alias (option_copied alias.entry) next.now }
{
    match alias {
        Some(set) => has_others(set.as_slice(), next),
        None => false,
    }
}

/// Whether the record's owner owns an alias, or the record is an alias and its owner owns something else.
pub fn is_beside_alias(zone: &StoredZone, key: &NameKey, next: &Record) -> bool
    requires { key.now ≡ lowercase_name next.now.name }
    ensures { result ≡ is_beside_alias zone.now.sets next.now }
{
    if is_kept_out(zone.records().sets_at(key), next.record_type()) {
        return true;
    }
    next.record_type() == RecordType::CNAME
        && is_other_alias(zone.get_at(key, RecordType::CNAME), next)
}

// Whether the name of a key owns an SOA.
fn has_start(zone: &StoredZone, key: &NameKey) -> bool
    ensures { result ≡ is_some (rrset_at zone.now.sets key.now types.SOA) }
{
    zone.get_at(key, RecordType::SOA).is_some()
}

/// Whether the record is an SOA and its owner owns one.
pub fn is_second_start(zone: &StoredZone, key: &NameKey, next: &Record) -> bool
    requires { key.now ≡ lowercase_name next.now.name }
    ensures { result ≡ is_second_start zone.now.sets next.now }
{
    next.record_type() == RecordType::SOA && has_start(zone, key)
}

/// Adds a record whose owner has this key. An ANAME replaces the owner's ANAME. Where memory runs out the zone stays as it was.
pub fn join(
    alloc: Global,
    zone: &mut StoredZone,
    key: NameKey,
    next: Record,
) -> Result<(), LoadCause>
    requires { key ≡ lowercase_name next.name }
    ensures ok { OnOk result (Joins zone.old next zone.new) }
    ensures err { IfErr result (λ e. e ≡ LoadCause.OutOfMemory) }
    ensures stands { OnErr result (zone.new ≡ zone.old) }
{
    if next.record_type() == RecordType::ANAME {
        let set = RecordSet::from_record(alloc, next);
        mem::drop(key);
        return zone.put_set(alloc, set).map_err(|_| LoadCause::OutOfMemory);
    }
    zone.insert_at(alloc, key, next)
        .map_err(|_| LoadCause::OutOfMemory)
}

/// The first cause why a record may not join the zone, if there is one.
pub fn fault_of(zone: &StoredZone, key: &NameKey, next: &Record) -> Option<LoadCause>
    requires { key.now ≡ lowercase_name next.now.name }
    ensures { MatchOption result (MayJoin zone.now next.now) (λ cause. RefusesValue zone.now next.now cause) }
{
    if !next.reads_back_alone() {
        return Some(LoadCause::NotReadBack);
    }
    if is_beside_alias(zone, key, next) {
        return Some(LoadCause::BesideCname);
    }
    if is_second_start(zone, key, next) {
        return Some(LoadCause::SecondSoa);
    }
    None
}
