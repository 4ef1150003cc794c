//! The records of a transfer, taken one after the other.

ghost use Rattle.std.specs.Prelude.{◌≡◌, ◌<◌, ◌⊎◌, [], Err, IfErr, IfOk, IfSome, None, OnOk, Some};
ghost use Rattle.zsv_message.specs.zst_record.dnw_name.DomainName.{name_len};
ghost use Rattle.authority_load.specs.zst_zone.zst_handler.Zones.{ZoneReadsBack, empty_zone};
ghost use Rattle.authority_load.specs.Joining.{Joins};
ghost use Rattle.authority_load.specs.Loaded.{IsLoaded};
ghost use Rattle.authority_transfer.specs.Transfers.{RefusesRecords, TakesAll, TransferGives, record_fault};
ghost use Rattle.authority_transfer.specs.TwoRoads.{TwoRoads};

use crate::error::TransferError;
use crate::fault::record_fault;
use crate::reply::transferred;
use authority_load::{InMemoryZoneHandler, NameKey, StoredZone, ZoneSettings, join};
use std::alloc::Global;
use std::mem;
use zsv_message::{Name, Record};

// Adds a record, whose index among the answers this is. Of a short owner no cause is hidden by want of memory.
fn take_record(
    alloc: Global,
    zone: &mut StoredZone,
    index: usize,
    next: Record,
) -> Result<(), TransferError>
    ensures ok { OnOk result ((record_fault zone.old index next ≡ None) × Joins zone.old next zone.new) }
    ensures refused { IfErr result (λ e. (e ≡ TransferError.OutOfMemory) ⊎ (record_fault zone.old index next ≡ Some e)) }
    ensures short { name_len next.name < 40 → IfSome (record_fault zone.old index next) (λ e. result ≡ Err e) }
{
    let Ok(key) = NameKey::of(alloc, &next.name) else {
        mem::drop(next);
        return Err(TransferError::OutOfMemory);
    };
    if let Some(fault) = record_fault(zone, &key, index, &next) {
        mem::drop(next);
        mem::drop(key);
        return Err(fault);
    }
    join(alloc, zone, key, next).map_err(|_| TransferError::OutOfMemory)
}

// Adds records in order, up to the first that is refused.
fn take_records(
    alloc: Global,
    zone: &mut StoredZone,
    records: Vec<Record>,
) -> Result<(), TransferError>
    ensures ok { OnOk result (TakesAll zone.old records.items zone.new) }
    ensures refused { IfErr result (RefusesRecords zone.old records.items) }
{
    let mut index = 0usize;
    'answers: for next in records {
        take_record(alloc, zone, index, next)?;
        index += 1;
    }
    Ok(())
}

/// The zone that a reply to an AXFR question transfers.
///
/// The reply is a message without an error, whole and unsigned, whose answers begin and end with the same SOA of the origin.
/// All answers but the last join the zone in order, as the lines of a zone's text do: a repeated record is taken once, with the
/// later TTL; of the ANAME records of an owner the last is. What the question was isn't looked at, nor AA. No key signs the zone.
pub fn load_transfer<K>(
    alloc: Global,
    origin: Name,
    settings: ZoneSettings,
    reply: &[u8],
) -> Result<InMemoryZoneHandler<K>, TransferError>
    ensures answers { TransferGives (empty_zone origin settings) reply.now (λ handler. handler.zone) result }
    ensures settings { IfOk result (λ handler. handler.zone ≡ record (empty_zone origin settings) { sets = handler.zone.sets }) }
    ensures reads_back { IfOk result (λ handler. ZoneReadsBack handler.zone) }
    ensures loaded { IfOk result (λ handler. IsLoaded handler.zone) }
    ensures two_roads { TwoRoads (empty_zone origin settings) reply.now (λ handler. handler.zone) result }
    ensures keys { IfOk result (λ handler. handler.keys.items ≡ []) }
{
    match load_stored(alloc, origin, settings, reply) {
        Ok(zone) => Ok(InMemoryZoneHandler::of(alloc, zone)),
        Err(refused) => Err(refused),
    }
}

// The zone of a transfer, without the keys that a handler of it has.
fn load_stored(
    alloc: Global,
    origin: Name,
    settings: ZoneSettings,
    reply: &[u8],
) -> Result<StoredZone, TransferError>
    ensures answers { TransferGives (empty_zone origin settings) reply.now (λ zone. zone) result }
    ensures settings { IfOk result (λ zone. zone ≡ record (empty_zone origin settings) { sets = zone.sets }) }
    ensures reads_back { IfOk result ZoneReadsBack }
    ensures loaded { IfOk result IsLoaded }
    ensures two_roads { TwoRoads (empty_zone origin settings) reply.now (λ zone. zone) result }
{
    let records = transferred(alloc, &origin, reply)?;
    let Ok(mut zone) = StoredZone::empty(alloc, origin, settings) else {
        mem::drop(records);
        return Err(TransferError::OutOfMemory);
    };
    match take_records(alloc, &mut zone, records) {
        Ok(()) => {
            // (wakes the zone's invariant: its sets are in order, and none is empty)
            let _origin = zone.origin();
            Ok(zone)
        }
        Err(refused) => {
            mem::drop(zone);
            Err(refused)
        }
    }
}
