//! Sets that are signed as they are put into a zone.

ghost use Rattle.std.specs.Prelude.{◌≡◌, true, false, IfErr, IsSomeAnd, OnOk, Some, List};
ghost use Rattle.zst_absence.specs.zst_denial.Signing.{AreSignatures, any_fails, unsigned};
ghost use Rattle.zst_absence.specs.zst_handler.Updates.{Replaces};
ghost use Rattle.zst_absence.specs.zst_handler.Zones.{AreInOrder, IsStored, rrset_at};
ghost use Rattle.zst_absence.specs.zst_record.RecordSets.{none_left};
ghost use Rattle.zst_absence.specs.zst_record.declared.records.Record.{Record};

use std::alloc::Global;
use std::mem;
use zst_absence::{NameKey, RecordSet, SignerFault, ZoneSets, ZoneSigner, sign_set};

/// Signs a set by each key, and puts it in place of the one of its owner and type.
pub(crate) fn put_signed<K: ZoneSigner>(
    alloc: Global,
    keys: &[K],
    now: u64,
    set: RecordSet,
    sets: &mut ZoneSets,
) -> Result<(), SignerFault>
    ensures ok { OnOk result ((signatures : List Record) × AreSignatures K.gives keys.now (unsigned set) now signatures
        × Replaces sets.old set.name set.record_type (Some (record set { signatures = signatures })) sets.new) }
    ensures stored { OnOk result (none_left set.records ≡ false → IsSomeAnd (rrset_at sets.new set.name set.record_type) IsStored) }
    ensures given { OnOk result (any_fails K.fails keys.now set now ≡ false) }
    ensures ordered { OnOk result (AreInOrder sets.new) }
    ensures failed { IfErr result (λ e. e ≡ SignerFault.Failed → any_fails K.fails keys.now set now ≡ true) }
{
    let mut set = set;
    let signatures = match sign_set(alloc, keys, &set, now) {
        Ok(signatures) => signatures,
        Err(fault) => {
            mem::drop(set);
            return Err(fault);
        }
    };
    set.sign_with(signatures);
    let _held = set.as_slice();
    let Ok(key) = NameKey::of(alloc, set.name()) else {
        mem::drop(set);
        return Err(SignerFault::OutOfMemory);
    };
    sets.put(alloc, key, set)?;
    Ok(())
}
