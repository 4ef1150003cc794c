//! The circle of digests: the NSEC3 sets of a zone, and its NSEC3PARAM set (RFC 5155 section 7.1).

ghost use Rattle.std.specs.Prelude.{◌≡◌, ◌⊎◌, ◌+◌, ◌<◌, ◌≤◌, Some, IfErr, IfOk, IfSome, IsSome, IsSomeAnd, OnOk, false, length, nat_le, slice_get, true};
ghost use Rattle.std.specs.List.Sorted.{IsStrictlySortedBy};
ghost use Rattle.zst_absence.specs.dnw_codes.declared.record_type.RecordType.TheVariants as kind;
ghost use Rattle.zst_absence.specs.dnw_name.DomainName.{DomainName, labels_len, lowercase_name, name_eq};
ghost use Rattle.zst_absence.specs.zst_denial.Hashed.{AreApart, IsParameterSet, IsSecuredByHash};
ghost use Rattle.zst_absence.specs.zst_denial.Signing.{any_fails};
ghost use Rattle.zst_absence.specs.zst_handler.Zones.{AreInOrder, IsStored, Zone, rrset_at};
ghost use Rattle.zst_circle.specs.declared.hashed.HashedName.{HashedName};
ghost use Rattle.zst_circle.specs.Nsec3Circle.{IsNsec3In, IsNsec3Made, IsParametersOf, IsSetWith, hash_cmp, hashing_of, next_place};
ghost use Rattle.zst_circle.specs.Securing.{AreAuthoritative, ChangesOnly, HasNone, IsMade, IsZoneAt, SomeFails};

use crate::hash_types::nsec3_types;
use crate::hashed::{HashedName, Nsec3Parameters, hashed_names, owner_of};
use crate::names::is_delegation;
use crate::signed::put_signed;
use std::alloc::{AllocError, Global};
use zst_absence::{
    DNSClass, NULL, Name, NameKey, RData, Record, RecordSet, RecordType, SignerFault, ZoneSets,
    ZoneSigner, nsec3_data, nsec3param_data,
};

/// Puts the NSEC3PARAM set of a zone, signed by each key (RFC 5155 section 4).
pub fn put_parameters<K: ZoneSigner>(
    alloc: Global,
    origin: &Name,
    ttl: u32,
    by: Nsec3Parameters<'_>,
    keys: &[K],
    now: u64,
    sets: &mut ZoneSets,
) -> Result<(), SignerFault>
    requires salt { length by.salt.now ≤ 255 }
    requires none { HasNone sets.old kind.NSEC3PARAM }
    ensures others { OnOk result (ChangesOnly kind.NSEC3PARAM sets.old sets.new) }
    ensures made { OnOk result (IsSomeAnd (rrset_at sets.new origin.now kind.NSEC3PARAM) (λ set. IsParameterSet (hashing_of by.entry) set
        × IsMade K.gives keys.now now ttl set × (any_fails K.fails keys.now set now ≡ false) × IsStored set)) }
    ensures only { OnOk result ((name : DomainName) → IsSome (rrset_at sets.new name kind.NSEC3PARAM) → name_eq name origin.now ≡ true) }
    ensures ordered { OnOk result (AreInOrder sets.new) }
    ensures failed { IfErr result (λ e. e ≡ SignerFault.Failed → SomeFails K.fails keys.now now (IsParametersOf (hashing_of by.entry) origin.now ttl)) }
{
    let set = parameter_set(alloc, origin, ttl, by)?;
    put_signed(alloc, keys, now, set, sets)
}

// The NSEC3PARAM set of an origin.
fn parameter_set(
    alloc: Global,
    origin: &Name,
    ttl: u32,
    by: Nsec3Parameters<'_>,
) -> Result<RecordSet, AllocError>
    requires { length by.salt.now ≤ 255 }
    ensures { IfOk result (IsParametersOf (hashing_of by.entry) origin.now ttl) }
{
    let octets = nsec3param_data(alloc, by.iterations, by.salt)?;
    let owner = origin.clone()?;
    Ok(set_with(alloc, owner, RecordType::NSEC3PARAM, ttl, octets))
}

/// Whether an origin leaves room for the owners of NSEC3 sets, which have one label of 32 octets more.
pub(crate) fn has_room(origin: &Name) -> bool
    ensures { result ≡ nat_le (labels_len origin.now.labels + 34) 255 }
{
    origin.len() + 34 <= Name::MAX_LENGTH
}

/// Puts the NSEC3 set of each name on a zone's circle by hash, signed by each key: its record has the next digest, the last
/// one's the first, and the types of the name's sets. The zone has its NSEC3PARAM set already. An origin that leaves no room
/// for hashed owners is a failure, found before memory is asked for.
pub fn put_nsec3<K: ZoneSigner>(
    alloc: Global,
    origin: &Name,
    key: &NameKey,
    ttl: u32,
    by: Nsec3Parameters<'_>,
    names: &[Name],
    keys: &[K],
    now: u64,
    sets: &mut ZoneSets,
) -> Result<(), SignerFault>
    requires origin { key.now ≡ lowercase_name origin.now }
    requires salt { length by.salt.now ≤ 255 }
    requires names { (zone : Zone) → IsZoneAt sets.old key.now zone → AreAuthoritative kind.NSEC3 zone names.now }
    requires parameters { IsSomeAnd (rrset_at sets.old origin.now kind.NSEC3PARAM) (IsParameterSet (hashing_of by)) }
    requires none { HasNone sets.old kind.NSEC3 }
    requires ordered { AreInOrder sets.old }
    ensures secured { OnOk result ((zone : Zone) → IsZoneAt sets.new key.now zone → AreApart (hashing_of by.entry) by.entry.opt_out zone
        → IsSecuredByHash (hashing_of by.entry) by.entry.opt_out zone) }
    ensures others { OnOk result (ChangesOnly kind.NSEC3 sets.old sets.new) }
    ensures made { OnOk result ((name : DomainName) → IfSome (rrset_at sets.new name kind.NSEC3) (λ set. IsMade K.gives keys.now now ttl set
        × (any_fails K.fails keys.now set now ≡ false))) }
    ensures stored { OnOk result ((name : DomainName) → IfSome (rrset_at sets.new name kind.NSEC3) IsStored) }
    ensures ordered { OnOk result (AreInOrder sets.new) }
    ensures fits { OnOk result (labels_len origin.now.labels + 34 ≤ 255) }
    ensures failed { IfErr result (λ e. e ≡ SignerFault.Failed → (255 < labels_len origin.now.labels + 34)
        ⊎ ((zone : Zone) → IsZoneAt sets.old key.now zone
        → SomeFails K.fails keys.now now (IsNsec3Made (hashing_of by.entry) by.entry.opt_out ttl zone))) }
    ensures memory { IfErr result (λ e. e ≡ SignerFault.OutOfMemory → labels_len origin.now.labels + 34 ≤ 255) }
{
    if !has_room(origin) {
        return Err(SignerFault::Failed);
    }
    let hashed = hashed_names(alloc, origin, key, by, names, sets)?;
    'places: for place in 0..hashed.len() {
        let set = nsec3_set(alloc, origin, key, ttl, by, &hashed, place, sets)?;
        put_signed(alloc, keys, now, set, sets)?;
    }
    Ok(())
}

// The NSEC3 set of the name at a place.
fn nsec3_set(
    alloc: Global,
    origin: &Name,
    key: &NameKey,
    ttl: u32,
    by: Nsec3Parameters<'_>,
    hashed: &[HashedName],
    place: usize,
    sets: &ZoneSets,
) -> Result<RecordSet, AllocError>
    requires place { place < length hashed.now }
    requires salt { length by.salt.now ≤ 255 }
    requires fits { labels_len origin.now.labels + 34 ≤ 255 }
    requires sorted { IsStrictlySortedBy (hash_cmp origin.now) hashed.now }
    ensures { IfOk result (λ set. (name : HashedName) → slice_get hashed.now place ≡ Some name
        → IsNsec3In (hashing_of by.entry) by.entry.opt_out sets.now key.now origin.now hashed.now ttl name set) }
{
    let name = &hashed[place];
    let delegated = is_delegation(key, sets, &name.key);
    let types = nsec3_types(alloc, sets.sets_at(&name.key), delegated)?;
    let next = &next_on(hashed, place).digest;
    let octets = nsec3_data(alloc, by.opt_out, by.iterations, by.salt, next, &types)?;
    let owner = owner_of(alloc, &name.digest, origin)?;
    Ok(set_with(alloc, owner, RecordType::NSEC3, ttl, octets))
}

// The name that follows the one at a place on the circle: after the last one comes the first.
fn next_on(hashed: &[HashedName], place: usize) -> &HashedName
    requires { place < length hashed.now }
    ensures { slice_get hashed.now (next_place (length hashed.now) place) ≡ Some result.now }
{
    let after = place + 1;
    if after < hashed.len() {
        &hashed[after]
    } else {
        &hashed[0]
    }
}

// The set of one record of class IN with these octets of a type.
fn set_with(
    alloc: Global,
    owner: Name,
    record_type: RecordType,
    ttl: u32,
    octets: Vec<u8>,
) -> RecordSet
    ensures { IsSetWith owner record_type ttl octets.items result }
{
    let record = Record {
        name: owner,
        dns_class: DNSClass::IN,
        ttl,
        rdata: RData::Unknown {
            code: record_type,
            rdata: NULL::with(octets),
        },
    };
    RecordSet::from_record(alloc, record)
}
