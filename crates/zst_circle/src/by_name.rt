//! The circle of names: the NSEC sets of a zone (RFC 4035 section 2.3).

ghost use Rattle.std.specs.Prelude.{◌≡◌, ◌<◌, Some, IfErr, IfOk, IfSome, OnOk, false, length, slice_get};
ghost use Rattle.std.specs.List.{AllByRecursion};
ghost use Rattle.std.specs.List.Sorted.{IsStrictlySortedBy};
ghost use Rattle.zst_absence.specs.dnw_codes.declared.record_type.RecordType.TheVariants as kind;
ghost use Rattle.zst_absence.specs.dnw_name.DomainName.{DomainName, lowercase_name, name_cmp};
ghost use Rattle.zst_absence.specs.zst_denial.Circles.{IsSecured};
ghost use Rattle.zst_absence.specs.zst_denial.Signing.{any_fails};
ghost use Rattle.zst_absence.specs.zst_handler.Zones.{AreInOrder, IsStored, Zone, rrset_at};
ghost use Rattle.zst_circle.specs.NsecCircle.{IsNext, IsNsecIn, IsNsecMade, IsNsecOf, is_among};
ghost use Rattle.zst_circle.specs.Securing.{AreAuthoritative, ChangesOnly, HasNone, IsMade, IsZoneAt, SomeFails};

use crate::names::is_delegation;
use crate::signed::put_signed;
use crate::types::nsec_types;
use std::alloc::{AllocError, Global};
use zst_absence::{
    DNSClass, NULL, Name, NameKey, RData, Record, RecordSet, RecordType, RecordTypeSet,
    SignerFault, ZoneSets, ZoneSigner, nsec_data,
};

/// Puts the NSEC set of each authoritative name of a zone, signed by each key: its record has the next name, the last one's
/// the first, and the types of the name's sets.
pub fn put_nsec<K: ZoneSigner>(
    alloc: Global,
    origin: &NameKey,
    ttl: u32,
    names: &[Name],
    keys: &[K],
    now: u64,
    sets: &mut ZoneSets,
) -> Result<(), SignerFault>
    requires sorted { IsStrictlySortedBy name_cmp names.now }
    requires lower { AllByRecursion (λ name. lowercase_name name ≡ name) names.now }
    requires names { (zone : Zone) → IsZoneAt sets.old origin.now zone → AreAuthoritative kind.NSEC zone names.now }
    requires none { HasNone sets.old kind.NSEC }
    requires ordered { AreInOrder sets.old }
    ensures secured { OnOk result ((zone : Zone) → IsZoneAt sets.new origin.now zone → IsSecured zone) }
    ensures others { OnOk result (ChangesOnly kind.NSEC sets.old sets.new) }
    ensures made { OnOk result ((name : DomainName) → IfSome (rrset_at sets.new name kind.NSEC) (λ set. IsMade K.gives keys.now now ttl set
        × (any_fails K.fails keys.now set now ≡ false))) }
    ensures stored { OnOk result ((name : DomainName) → IfSome (rrset_at sets.new name kind.NSEC) IsStored) }
    ensures ordered { OnOk result (AreInOrder sets.new) }
    ensures failed { IfErr result (λ e. e ≡ SignerFault.Failed → (zone : Zone) → IsZoneAt sets.old origin.now zone
        → SomeFails K.fails keys.now now (IsNsecMade ttl zone)) }
{
    'places: for place in 0..names.len() {
        let set = nsec_set(alloc, origin, ttl, names, place, sets)?;
        put_signed(alloc, keys, now, set, sets)?;
    }
    Ok(())
}

// The NSEC set of the name at a place.
fn nsec_set(
    alloc: Global,
    origin: &NameKey,
    ttl: u32,
    names: &[Name],
    place: usize,
    sets: &ZoneSets,
) -> Result<RecordSet, AllocError>
    requires place { place < length names.now }
    requires sorted { IsStrictlySortedBy name_cmp names.now }
    requires lower { AllByRecursion (λ name. lowercase_name name ≡ name) names.now }
    ensures { IfOk result (λ set. (owner : DomainName) → slice_get names.now place ≡ Some owner → IsNsecIn sets.now origin.now names.now ttl owner set) }
{
    let owner = &names[place];
    let key = NameKey::of(alloc, owner)?;
    let delegated = is_delegation(origin, sets, &key);
    let types = nsec_types(alloc, sets.sets_at(&key), delegated)?;
    set_of_types(alloc, owner, next_on(names, place), ttl, &types)
}

// The name that follows the one at a place on the circle: after the last one comes the first.
fn next_on(names: &[Name], place: usize) -> &Name
    requires place { place < length names.now }
    requires sorted { IsStrictlySortedBy name_cmp names.now }
    requires lower { AllByRecursion (λ name. lowercase_name name ≡ name) names.now }
    ensures follows { (owner : DomainName) → slice_get names.now place ≡ Some owner → IsNext name_cmp (is_among name_cmp names.now) owner result.now }
    ensures lower { lowercase_name result.now ≡ result.now }
{
    let after = place + 1;
    if after < names.len() {
        &names[after]
    } else {
        &names[0]
    }
}

// The NSEC set of a name with the next one and these types.
fn set_of_types(
    alloc: Global,
    owner: &Name,
    next: &Name,
    ttl: u32,
    types: &RecordTypeSet,
) -> Result<RecordSet, AllocError>
    ensures { IfOk result (IsNsecOf owner.now next.now types.now ttl) }
{
    let octets = nsec_data(alloc, next, types)?;
    let name = owner.clone()?;
    let record = Record {
        name,
        dns_class: DNSClass::IN,
        ttl,
        rdata: RData::Unknown {
            code: RecordType::NSEC,
            rdata: NULL::with(octets),
        },
    };
    Ok(RecordSet::from_record(alloc, record))
}
