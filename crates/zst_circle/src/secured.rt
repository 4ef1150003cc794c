//! Zones that are secured: all sets are signed anew around a circle that is made anew (RFC 4035 section 2, RFC 5155 section
//! 7.1).

ghost use Rattle.std.specs.Prelude.{◌≡◌, ◌+◌, ◌≤◌, [], false, true, not, ◌&&◌, length, nat_le, IfErr, IfSome, IsSome, OnErr, OnOk, is_some, option_copied};
ghost use Rattle.std.specs.List.{AllByRecursion};
ghost use Rattle.zst_absence.specs.dnw_codes.declared.record_type.RecordType.{RecordType};
ghost use Rattle.zst_absence.specs.dnw_codes.declared.record_type.RecordType.TheVariants as kind;
ghost use Rattle.zst_absence.specs.dnw_codes.RecordType.{same_record_type};
ghost use Rattle.zst_absence.specs.dnw_name.DomainName.{DomainName, labels_len, lowercase_name, name_eq};
ghost use Rattle.zst_absence.specs.zst_denial.Circles.{IsSecured};
ghost use Rattle.zst_absence.specs.zst_denial.Hashed.{AreApart, IsSecuredByHash};
ghost use Rattle.zst_absence.specs.zst_denial.Kept.{is_circle_type};
ghost use Rattle.zst_absence.specs.zst_denial.Signing.{any_fails};
ghost use Rattle.zst_absence.specs.zst_handler.Zones.{AreInOrder, AreStored, IsStored, Zone, rrset_at};
ghost use Rattle.zst_circle.specs.Moves.{CanMove, placeholder_of};
ghost use Rattle.zst_circle.specs.Resigning.{IsStoredToSign, Resigns};
ghost use Rattle.zst_circle.specs.Secures.{FailsToSecure, IsCircledBy, IsMadeByHash, IsMadeFor, IsZoneOf, Secures, has_room};
ghost use Rattle.zst_circle.specs.Nsec3Circle.{hashing_of};
ghost use Rattle.zst_circle.specs.NsecCircle.{IsNsecMade};
ghost use Rattle.zst_circle.specs.Securing.{ChangesOnly, HasNone, IsMade, IsZoneAt, SomeFails};

use crate::by_hash::{self, put_nsec3, put_parameters};
use crate::by_name::put_nsec;
use crate::hashed::Nsec3Parameters;
use crate::moves::{Placeholder, commit, placeholders};
use crate::names::authoritative_names;
use std::alloc::Global;
use std::mem;
use zst_absence::{Name, NameKey, NxProofKind, SignerFault, ZoneSets, ZoneSigner};

/// Secures the sets of a zone with this origin: makes the circle of its kind of proof, raises the serial number of the SOA,
/// and signs the sets of authoritative names by each key. Sets move, and no record is copied. Where that is refused, the sets
/// are as they were.
pub fn secure<K: ZoneSigner>(
    alloc: Global,
    origin: &Name,
    key: &NameKey,
    proof: Option<&NxProofKind>,
    ttl: u32,
    keys: &[K],
    now: u64,
    sets: &mut ZoneSets,
) -> Result<(), SignerFault>
    requires { key.now ≡ lowercase_name origin.now }
    ensures ok { OnOk result ((zone : Zone) → IsZoneOf sets.old origin.now (option_copied proof.entry) zone
        → Secures K.gives K.fails keys.now now zone ttl (record zone { sets = sets.new })) }
    ensures ordered { OnOk result (AreInOrder sets.new) }
    ensures stored { OnOk result (AreStored sets.old → (name : DomainName) → (t : RecordType) → IfSome (rrset_at sets.new name t) IsStored) }
    ensures failed { IfErr result (λ e. e ≡ SignerFault.Failed → (zone : Zone) → IsZoneOf sets.old origin.now (option_copied proof.entry) zone
        → FailsToSecure K.fails keys.now now (option_copied proof.entry) ttl zone) }
    ensures room { OnOk result (has_room (option_copied proof.entry) origin.now ≡ true) }
    ensures memory { IfErr result (λ e. e ≡ SignerFault.OutOfMemory → has_room (option_copied proof.entry) origin.now ≡ true) }
    ensures err { OnErr result (sets.new ≡ sets.old) }
{
    if !has_room(proof, origin) {
        return Err(SignerFault::Failed);
    }
    let mut made = ZoneSets::new(alloc);
    let mut list = Vec::new(alloc);
    let (old, new, moving) = (&*sets, &mut made, &mut list);
    if let Err(fault) = make(alloc, origin, key, proof, ttl, keys, now, old, new, moving) {
        mem::drop(list);
        mem::drop(made);
        return Err(fault);
    }
    commit(list, sets, &mut made);
    mem::drop(mem::replace(sets, made));
    Ok(())
}

// Whether the owners of a circle by hash have at most 255 octets.
fn has_room(proof: Option<&NxProofKind>, origin: &Name) -> bool
    ensures { result ≡ has_room (option_copied proof.entry) origin.now }
{
    match proof {
        Some(NxProofKind::Nsec3 { .. }) => by_hash::has_room(origin),
        Some(NxProofKind::Nsec) | None => true,
    }
}

// Makes the circle among placeholders for the sets that move, and lists these with their signatures.
fn make<K: ZoneSigner>(
    alloc: Global,
    origin: &Name,
    key: &NameKey,
    proof: Option<&NxProofKind>,
    ttl: u32,
    keys: &[K],
    now: u64,
    old: &ZoneSets,
    new: &mut ZoneSets,
    list: &mut Vec<Placeholder>,
) -> Result<(), SignerFault>
    requires key { key.now ≡ lowercase_name origin.now }
    requires room { has_room (option_copied proof) origin.now ≡ true }
    requires new { new.old ≡ [] }
    requires list { list.old.items ≡ [] }
    ensures there { OnOk result ((name : DomainName) → (t : RecordType) → is_circle_type t ≡ false
        → is_some (rrset_at new.new name t) ≡ is_some (rrset_at old.now name t)) }
    ensures listed { OnOk result ((name : DomainName) → (t : RecordType)
        → is_some (placeholder_of list.new.items name t) ≡ (is_some (rrset_at old.now name t) && not (is_circle_type t))) }
    ensures can { OnOk result (AllByRecursion (CanMove old.now new.new) list.new.items) }
    ensures resigned { OnOk result (AllByRecursion (Resigns K.gives K.fails keys.now now old.now key.now) list.new.items) }
    ensures circle { OnOk result ((zone : Zone) → IsZoneAt new.new key.now zone → IsCircledBy (option_copied proof.entry) zone) }
    ensures made { OnOk result ((name : DomainName) → (t : RecordType) → is_circle_type t ≡ true → IfSome (rrset_at new.new name t)
        (λ set. IsMade K.gives keys.now now ttl set × (any_fails K.fails keys.now set now ≡ false))) }
    ensures stored { OnOk result ((name : DomainName) → (t : RecordType) → is_circle_type t ≡ true → IfSome (rrset_at new.new name t) IsStored) }
    ensures ordered { OnOk result (AreInOrder new.new) }
    ensures failed { IfErr result (λ e. e ≡ SignerFault.Failed → (zone : Zone) → IsZoneAt old.now key.now zone
        → FailsToSecure K.fails keys.now now (option_copied proof.entry) ttl zone) }
{
    placeholders(alloc, key, keys, now, old, new, list)?;
    put_circle(alloc, origin, key, proof, ttl, keys, now, new)
}

// Puts the sets of the circle that a kind of proof asks for.
fn put_circle<K: ZoneSigner>(
    alloc: Global,
    origin: &Name,
    key: &NameKey,
    proof: Option<&NxProofKind>,
    ttl: u32,
    keys: &[K],
    now: u64,
    sets: &mut ZoneSets,
) -> Result<(), SignerFault>
    requires key { key.now ≡ lowercase_name origin.now }
    requires room { has_room (option_copied proof) origin.now ≡ true }
    requires none { (name : DomainName) → (t : RecordType) → is_circle_type t ≡ true → rrset_at sets.old name t ≡ None }
    requires ordered { AreInOrder sets.old }
    ensures others { OnOk result ((name : DomainName) → (t : RecordType) → is_circle_type t ≡ false → rrset_at sets.new name t ≡ rrset_at sets.old name t) }
    ensures circle { OnOk result ((zone : Zone) → IsZoneAt sets.new key.now zone → IsCircledBy (option_copied proof.entry) zone) }
    ensures made { OnOk result ((name : DomainName) → (t : RecordType) → is_circle_type t ≡ true → IfSome (rrset_at sets.new name t)
        (λ set. IsMade K.gives keys.now now ttl set × (any_fails K.fails keys.now set now ≡ false))) }
    ensures stored { OnOk result ((name : DomainName) → (t : RecordType) → is_circle_type t ≡ true → IfSome (rrset_at sets.new name t) IsStored) }
    ensures ordered { OnOk result (AreInOrder sets.new) }
    ensures failed { IfErr result (λ e. e ≡ SignerFault.Failed → (zone : Zone) → IsZoneAt sets.old key.now zone
        → SomeFails K.fails keys.now now (IsMadeFor (option_copied proof.entry) ttl zone)) }
{
    match proof {
        None => Ok(()),
        Some(NxProofKind::Nsec) => put_nsec_circle(alloc, key, ttl, keys, now, sets),
        Some(
            NxProofKind::Nsec3 {
                salt,
                iterations,
                opt_out,
                ..
            },
        ) => {
            let by = Nsec3Parameters {
                salt: salt.as_bytes(),
                iterations: *iterations,
                opt_out: *opt_out,
            };
            put_nsec3_circle(alloc, origin, key, ttl, by, keys, now, sets)
        }
    }
}

// Puts the NSEC sets of all authoritative names.
fn put_nsec_circle<K: ZoneSigner>(
    alloc: Global,
    origin: &NameKey,
    ttl: u32,
    keys: &[K],
    now: u64,
    sets: &mut ZoneSets,
) -> Result<(), SignerFault>
    requires none { HasNone sets.old kind.NSEC }
    requires ordered { AreInOrder sets.old }
    ensures secured { OnOk result ((zone : Zone) → IsZoneAt sets.new origin.now zone → IsSecured zone) }
    ensures others { OnOk result (ChangesOnly kind.NSEC sets.old sets.new) }
    ensures made { OnOk result ((name : DomainName) → IfSome (rrset_at sets.new name kind.NSEC) (λ set. IsMade K.gives keys.now now ttl set
        × (any_fails K.fails keys.now set now ≡ false))) }
    ensures stored { OnOk result ((name : DomainName) → IfSome (rrset_at sets.new name kind.NSEC) IsStored) }
    ensures ordered { OnOk result (AreInOrder sets.new) }
    ensures failed { IfErr result (λ e. e ≡ SignerFault.Failed → (zone : Zone) → IsZoneAt sets.old origin.now zone
        → SomeFails K.fails keys.now now (IsNsecMade ttl zone)) }
{
    let names = authoritative_names(alloc, origin, sets)?;
    put_nsec(alloc, origin, ttl, &names, keys, now, sets)
}

// Puts the NSEC3PARAM set, and the NSEC3 sets of all names on the circle by hash.
fn put_nsec3_circle<K: ZoneSigner>(
    alloc: Global,
    origin: &Name,
    key: &NameKey,
    ttl: u32,
    by: Nsec3Parameters<'_>,
    keys: &[K],
    now: u64,
    sets: &mut ZoneSets,
) -> Result<(), SignerFault>
    requires key { key.now ≡ lowercase_name origin.now }
    requires salt { length by.salt.now ≤ 255 }
    requires room { nat_le (labels_len origin.now.labels + 34) 255 ≡ true }
    requires none { HasNone sets.old kind.NSEC3 }
    requires parameters { HasNone sets.old kind.NSEC3PARAM }
    requires ordered { AreInOrder sets.old }
    ensures secured { OnOk result ((zone : Zone) → IsZoneAt sets.new key.now zone → AreApart (hashing_of by.entry) by.entry.opt_out zone
        → IsSecuredByHash (hashing_of by.entry) by.entry.opt_out zone) }
    ensures others { OnOk result ((name : DomainName) → (t : RecordType) → same_record_type kind.NSEC3 t ≡ false → same_record_type kind.NSEC3PARAM t ≡ false
        → rrset_at sets.new name t ≡ rrset_at sets.old name t) }
    ensures made { OnOk result ((name : DomainName) → IfSome (rrset_at sets.new name kind.NSEC3) (λ set. IsMade K.gives keys.now now ttl set
        × (any_fails K.fails keys.now set now ≡ false))) }
    ensures stored { OnOk result ((name : DomainName) → IfSome (rrset_at sets.new name kind.NSEC3) IsStored) }
    ensures parameters_alone { OnOk result ((name : DomainName) → IsSome (rrset_at sets.new name kind.NSEC3PARAM) → name_eq name origin.now ≡ true) }
    ensures parameters_made { OnOk result ((name : DomainName) → IfSome (rrset_at sets.new name kind.NSEC3PARAM) (λ set. IsMade K.gives keys.now now ttl set
        × (any_fails K.fails keys.now set now ≡ false))) }
    ensures parameters_stored { OnOk result ((name : DomainName) → IfSome (rrset_at sets.new name kind.NSEC3PARAM) IsStored) }
    ensures ordered { OnOk result (AreInOrder sets.new) }
    ensures failed { IfErr result (λ e. e ≡ SignerFault.Failed → (zone : Zone) → IsZoneAt sets.old key.now zone
        → SomeFails K.fails keys.now now (IsMadeByHash (hashing_of by.entry) by.entry.opt_out ttl zone)) }
{
    put_parameters(alloc, origin, ttl, by, keys, now, sets)?;
    let names = authoritative_names(alloc, key, sets)?;
    put_nsec3(alloc, origin, key, ttl, by, &names, keys, now, sets)
}
