//! The additional data of an answer (RFC 1034 section 4.3.2 step 6).

ghost use Rattle.std.specs.Prelude.{◌≡◌, ◌∷◌, ◌++◌, IfOk, OnOk, List, Some, map, option_copied};
ghost use Rattle.zst_circle.specs.zst_handler.Answers.{records_if, set_in, sets_shown};
ghost use Rattle.zst_circle.specs.zst_handler.Chains.{target_of};
ghost use Rattle.zst_circle.specs.zst_handler.Lookups.{additionals, addresses, has_additionals, listed};
ghost use Rattle.zst_circle.specs.zst_record.declared.records.Record.{Record as Stored};
ghost use Rattle.zst_zone.specs.Answering.{left_to_list, target_addresses};
ghost use Rattle.zst_zone.specs.Seen.{AreRising, seen_keys};

use crate::chain::target_of;
use crate::seen::Seen;
use std::alloc::{AllocError, Global};
use zst_circle::{
    AnswerSet, LookupOptions, LookupRecords, NameKey, Record, RecordSet, RecordType, ZoneSets, push,
};

/// The addresses of the targets of a set's records, each target once, where the set's type has them as additional data.
pub(crate) fn additionals<'z>(
    sets: &'z ZoneSets,
    alloc: Global,
    options: LookupOptions,
    first: &'z RecordSet,
) -> Result<Option<LookupRecords<'z>>, AllocError>
    ensures { IfOk result (λ found. records_if found ≡ sets_shown options.dnssec_ok (additionals sets.now first.now)) }
{
    if !has_additionals(first.record_type()) {
        return Ok(None);
    }
    match first.as_slice() {
        [only] => addresses_of(sets, alloc, options, only),
        records => all_addresses(sets, alloc, options, records),
    }
}

// Whether a type has addresses as additional data.
fn has_additionals(record_type: RecordType) -> bool
    ensures { result ≡ has_additionals record_type }
{
    record_type == RecordType::NS || record_type == RecordType::MX || record_type == RecordType::SRV
}

// The addresses of one record's target. They take no list.
fn addresses_of<'z>(
    sets: &'z ZoneSets,
    alloc: Global,
    options: LookupOptions,
    only: &Record,
) -> Result<Option<LookupRecords<'z>>, AllocError>
    ensures { IfOk result (λ found. records_if found ≡ sets_shown options.dnssec_ok (addresses sets.now (target_of only.now.rdata))) }
{
    let Some(target) = target_of(&only.rdata) else {
        return Ok(None);
    };
    let key = NameKey::of(alloc, target)?;
    let (v4, v6) = sets.addresses(&key);
    both(alloc, options, v4, v6)
}

// The records of two sets, as far as they are there.
fn both<'z>(
    alloc: Global,
    options: LookupOptions,
    first: Option<&'z RecordSet>,
    second: Option<&'z RecordSet>,
) -> Result<Option<LookupRecords<'z>>, AllocError>
    ensures { IfOk result (λ found. records_if found
        ≡ sets_shown options.dnssec_ok (listed (option_copied first.entry) ++ listed (option_copied second.entry))) }
{
    match (first, second) {
        (None, None) => Ok(None),
        (Some(set), None) | (None, Some(set)) => {
            Ok(Some(LookupRecords::new(options, AnswerSet::own(set))))
        }
        (Some(first), Some(second)) => {
            let mut sets = Vec::with_capacity(alloc, 2)?;
            sets.push_reserved(AnswerSet::own(first));
            sets.push_reserved(AnswerSet::own(second));
            Ok(Some(LookupRecords::many(options, sets)))
        }
    }
}

// The addresses of the targets of records, each target once. Until a target has addresses it allocates only the key of a
// long name.
fn all_addresses<'z>(
    sets: &'z ZoneSets,
    alloc: Global,
    options: LookupOptions,
    records: &[Record],
) -> Result<Option<LookupRecords<'z>>, AllocError>
    ensures { IfOk result (λ found. records_if found ≡ sets_shown options.dnssec_ok (target_addresses sets.now records.now)) }
{
    let mut found = Vec::new(alloc);
    let mut seen = Seen::new(alloc);
    'targets: for next in records {
        list_target(sets, alloc, next, &mut found, &mut seen, records.len())?;
    }
    if found.is_empty() {
        return Ok(None);
    }
    Ok(Some(LookupRecords::many(options, found)))
}

// Appends the addresses of a record's target, if it has some and was not seen before. A target without addresses need not
// be remembered, since it adds nothing.
fn list_target<'z>(
    sets: &'z ZoneSets,
    alloc: Global,
    next: &Record,
    found: &mut Vec<AnswerSet<'z>>,
    seen: &mut Seen,
    room: usize,
) -> Result<(), AllocError>
    requires { AreRising seen.old.rising.items }
    ensures rising { OnOk result (AreRising seen.new.rising.items) }
    ensures lists { OnOk result ((later : List Stored) → map set_in found.new.items ++ left_to_list sets.now (seen_keys seen.new) later
        ≡ map set_in found.old.items ++ left_to_list sets.now (seen_keys seen.old) (next.now ∷ later)) }
{
    let Some(target) = target_of(&next.rdata) else {
        return Ok(());
    };
    let key = NameKey::of(alloc, target)?;
    let (v4, v6) = sets.addresses(&key);
    if v4.is_none() && v6.is_none() {
        return Ok(());
    }
    if !seen.insert(key, room)? {
        return Ok(());
    }
    push_set(found, v4)?;
    push_set(found, v6)
}

// Appends a set, if there is one.
fn push_set<'z>(
    found: &mut Vec<AnswerSet<'z>>,
    set: Option<&'z RecordSet>,
) -> Result<(), AllocError>
    ensures { OnOk result (map set_in found.new.items ≡ map set_in found.old.items ++ listed (option_copied set.entry)) }
{
    match set {
        Some(set) => push(found, AnswerSet::own(set)),
        None => Ok(()),
    }
}
