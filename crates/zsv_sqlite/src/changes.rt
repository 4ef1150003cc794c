//! The records of an update, applied to a zone (RFC 2136 section 3.4.2).

ghost use Rattle.std.specs.Prelude.{◌≡◌, IfOk, OnErr};
ghost use Rattle.zst_map.specs.dnw_name.DomainName.{lowercase_name};
ghost use Rattle.zst_map.specs.zst_handler.Lookups.{sets_of_name};
ghost use Rattle.zst_request.specs.Applied.{LeavesZone, raised};
ghost use Rattle.zsv_sqlite.specs.Guarded.{AppliesAll};

use std::alloc::{AllocError, Global};
use std::mem;
use zst_draft::{Edit, NameKey, Record, RecordType, ResponseCode, StoredZone, ZoneDraft};

/// Applies records in order, all or none. Where the serial number is to be raised, an update that changes something needs an
/// SOA at the apex, and it says whether it did.
pub(crate) fn apply_changes(
    alloc: Global,
    zone: &mut StoredZone,
    changes: Vec<Record>,
    increment: bool,
) -> Result<Result<bool, ResponseCode>, AllocError>
    ensures ok { IfOk result (λ answer. AppliesAll increment zone.old changes.items answer zone.new) }
    ensures err { OnErr result (zone.new ≡ zone.old) }
{
    // (wakes the order of the sets)
    let _before = zone.origin();
    let mut draft = ZoneDraft::new(alloc);
    let Ok(changed) = draft.apply_all(zone, alloc, changes) else {
        mem::drop(draft);
        return Err(AllocError);
    };
    if !changed {
        mem::drop(draft);
        return Ok(Ok(false));
    }
    if increment && zone.apex(RecordType::SOA).is_none() {
        mem::drop(draft);
        return Ok(Err(ResponseCode::ServFail));
    }
    let Ok(apex) = NameKey::of(alloc, zone.origin()) else {
        mem::drop(draft);
        return Err(AllocError);
    };
    draft.commit(zone, alloc)?;
    if !increment {
        return Ok(Ok(false));
    }
    raise_serial(zone, &apex);
    Ok(Ok(true))
}

// Raises the serial number of the SOA at the apex, if there is one (RFC 2136 section 3.6). It takes no memory.
fn raise_serial(zone: &mut StoredZone, apex: &NameKey)
    requires { apex.now ≡ lowercase_name zone.old.origin }
    ensures { LeavesZone zone.old (raised zone.old.origin (sets_of_name zone.old.sets)) zone.new }
{
    let _before = zone.origin();
    if zone.get_at(apex, RecordType::SOA).is_none() {
        return;
    }
    zone.edit_at(apex, RecordType::SOA, Edit::RaiseSerial);
    let _after = zone.origin();
}
