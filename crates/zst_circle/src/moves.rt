//! Sets that move from one zone's sets to another's, each to where its placeholder is. What takes memory comes first, and
//! moving takes none.

ghost use Rattle.std.specs.Prelude.{◌≡◌, ◌&&◌, ◌||◌, [], true, not, None, Some, IfErr, IsSome, OnOk, is_some, if◌then◌else◌};
ghost use Rattle.std.specs.List.{AllByRecursion};
ghost use Rattle.zst_absence.specs.dnw_codes.RecordType.{same_record_type};
ghost use Rattle.zst_absence.specs.dnw_codes.declared.record_type.RecordType.{RecordType};
ghost use Rattle.zst_absence.specs.dnw_name.DomainName.{DomainName, name_eq};
ghost use Rattle.zst_absence.specs.zst_record.RecordSets.{RRset, is_signature_of, raised_set};
ghost use Rattle.zst_absence.specs.zst_handler.Updates.{Replaces};
ghost use Rattle.zst_absence.specs.zst_handler.Zones.{AreInOrder, rrset_at};
ghost use Rattle.zst_absence.specs.zst_denial.Kept.{is_circle_type};
ghost use Rattle.zst_circle.specs.Moves.{CanMove, moved, placeholder_of, resigned};
ghost use Rattle.zst_circle.specs.Resigning.{IsStoredToSign, Resigns};
ghost use Rattle.zst_circle.specs.Securing.{SomeFails};

use crate::resigned::placeholder_for;
use std::alloc::Global;
use std::mem;
use zst_absence::{
    NameKey, Record, RecordSet, RecordType, SignerFault, ZoneSets, ZoneSigner, push,
};

/// A set that is to move to where an empty one of its owner and type is.
#[derive(Drop)]
pub struct Placeholder {
    /// The owner's key.
    pub key: NameKey,
    /// The type.
    pub record_type: RecordType,
    /// Whether its serial number rises.
    pub rises: bool,
    /// The signatures that the set has then.
    pub signatures: Vec<Record>,
}

/// Puts an empty set into `new` for each set that moves, and lists these with the signatures that they have then. All sets
/// move but those of NSEC, NSEC3 and NSEC3PARAM.
pub fn placeholders<K: ZoneSigner>(
    alloc: Global,
    origin: &NameKey,
    keys: &[K],
    now: u64,
    old: &ZoneSets,
    new: &mut ZoneSets,
    list: &mut Vec<Placeholder>,
) -> Result<(), SignerFault>
    requires new { new.old ≡ [] }
    requires list { list.old.items ≡ [] }
    ensures there { OnOk result ((name : DomainName) → (record_type : RecordType)
        → is_some (rrset_at new.new name record_type) ≡ (is_some (rrset_at old.now name record_type) && not (is_circle_type record_type))) }
    ensures listed { OnOk result ((name : DomainName) → (record_type : RecordType)
        → is_some (placeholder_of list.new.items name record_type) ≡ (is_some (rrset_at old.now name record_type) && not (is_circle_type record_type))) }
    ensures can { OnOk result (AllByRecursion (CanMove old.now new.new) list.new.items) }
    ensures resigned { OnOk result (AllByRecursion (Resigns K.gives K.fails keys.now now old.now origin.now) list.new.items) }
    ensures ordered { OnOk result (AreInOrder new.new) }
    ensures failed { IfErr result (λ e. e ≡ SignerFault.Failed → SomeFails K.fails keys.now now (IsStoredToSign old.now origin.now)) }
{
    'sets: for set in old.iter() {
        put_placeholder(alloc, origin, keys, now, old, set, new, list)?;
    }
    Ok(())
}

// Puts an empty set into `new` for a set, and lists that, if it moves.
fn put_placeholder<K: ZoneSigner>(
    alloc: Global,
    origin: &NameKey,
    keys: &[K],
    now: u64,
    old: &ZoneSets,
    set: &RecordSet,
    new: &mut ZoneSets,
    list: &mut Vec<Placeholder>,
) -> Result<(), SignerFault>
    ensures there { OnOk result ((name : DomainName) → (record_type : RecordType) → is_some (rrset_at new.new name record_type)
        ≡ (((name_eq name set.now.name && same_record_type set.now.record_type record_type) && not (is_circle_type record_type))
        || is_some (rrset_at new.old name record_type))) }
    ensures listed { OnOk result ((name : DomainName) → (record_type : RecordType) → is_some (placeholder_of list.new.items name record_type)
        ≡ (((name_eq name set.now.name && same_record_type set.now.record_type record_type) && not (is_circle_type record_type))
        || is_some (placeholder_of list.old.items name record_type))) }
    ensures resigned { OnOk result (AllByRecursion (Resigns K.gives K.fails keys.now now old.now origin.now) list.old.items
        → AllByRecursion (Resigns K.gives K.fails keys.now now old.now origin.now) list.new.items) }
    ensures ordered { OnOk result (AreInOrder new.old → AreInOrder new.new) }
    ensures failed { IfErr result (λ e. e ≡ SignerFault.Failed → SomeFails K.fails keys.now now (IsStoredToSign old.now origin.now)) }
{
    let record_type = set.record_type();
    if is_circle_type(record_type) {
        return Ok(());
    }
    let key = NameKey::of(alloc, set.name())?;
    let name = set.name().clone()?;
    let placeholder = placeholder_for(alloc, origin, keys, now, old, key.clone()?, record_type)?;
    push(list, placeholder)?;
    new.put(alloc, key, RecordSet::new(alloc, name, record_type))?;
    Ok(())
}

// Whether sets of a type are made anew where a zone is secured.
fn is_circle_type(record_type: RecordType) -> bool
    ensures { result ≡ is_circle_type record_type }
{
    record_type == RecordType::NSEC
        || record_type == RecordType::NSEC3
        || record_type == RecordType::NSEC3PARAM
}

/// Moves the sets of these placeholders from `old` to `new`, each with its placeholder's signatures in place of its own, and
/// with the next serial number where that rises. It takes no memory.
pub fn commit(list: Vec<Placeholder>, old: &mut ZoneSets, new: &mut ZoneSets)
    requires can { AllByRecursion (CanMove old.old new.old) list.items }
    requires ordered { AreInOrder new.old }
    ensures moved { (name : DomainName) → (record_type : RecordType) → rrset_at new.new name record_type
        ≡ moved (placeholder_of list.items name record_type) (rrset_at old.old name record_type) (rrset_at new.old name record_type) }
    ensures taken { (name : DomainName) → (record_type : RecordType) → rrset_at old.new name record_type
        ≡ (if is_some (placeholder_of list.items name record_type) then None else rrset_at old.old name record_type) }
    ensures ordered { AreInOrder new.new }
{
    'placeholders: for placeholder in list {
        move_one(placeholder, old, new);
    }
}

// Moves the set of a placeholder, if it is there still.
fn move_one(placeholder: Placeholder, old: &mut ZoneSets, new: &mut ZoneSets)
    requires signed { (set : RRset) → rrset_at old.old placeholder.key placeholder.record_type ≡ Some set
        → AllByRecursion (λ r. is_signature_of set r ≡ true) placeholder.signatures.items }
    requires placed { (set : RRset) → rrset_at old.old placeholder.key placeholder.record_type ≡ Some set
        → IsSome (rrset_at new.old placeholder.key placeholder.record_type) }
    ensures taken { Replaces old.old placeholder.key placeholder.record_type None old.new }
    ensures moved { (set : RRset) → rrset_at old.old placeholder.key placeholder.record_type ≡ Some set
        → Replaces new.old placeholder.key placeholder.record_type (Some (resigned placeholder set)) new.new }
    ensures unmoved { rrset_at old.old placeholder.key placeholder.record_type ≡ None → new.new ≡ new.old }
    ensures ordered { AreInOrder new.old → AreInOrder new.new }
{
    let Placeholder {
        key,
        record_type,
        rises,
        signatures,
    } = placeholder;
    let Some(mut set) = old.remove(&key, record_type) else {
        mem::drop(signatures);
        return;
    };
    renew(&mut set, rises, signatures);
    new.replace(&key, set);
}

// Gives a set new signatures, and the next serial number if that rises.
fn renew(set: &mut RecordSet, rises: bool, signatures: Vec<Record>)
    requires { AllByRecursion (λ r. is_signature_of set.old r ≡ true) signatures.items }
    ensures { set.new ≡ record (if rises then raised_set set.old else set.old) { signatures = signatures.items } }
{
    if rises {
        set.raise_serial();
    }
    set.sign_with(signatures);
}
