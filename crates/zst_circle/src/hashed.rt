//! The names on a circle by hash, with their digests (RFC 5155 section 7.1).

ghost use Rattle.std.specs.Prelude.{◌≡◌, ◌&&◌, ◌+◌, ◌-◌, ◌<◌, ◌≤◌, not, length, get_or, nat_lt, take, IfOk, OnOk};
ghost use Rattle.std.specs.BTreeMap.{insert_entry, values};
ghost use Rattle.std.specs.List.Sorted.{IsStrictlySortedBy};
ghost use Rattle.std.specs.Map.{keys_of};
ghost use Rattle.zst_absence.specs.dnw_codes.declared.record_type.RecordType.TheVariants as kind;
ghost use Rattle.zst_absence.specs.dnw_name.DomainName.{labels_len, lowercase_name};
ghost use Rattle.zst_absence.specs.zst_denial.Circles.{is_delegation, is_owned};
ghost use Rattle.zst_absence.specs.zst_handler.Zones.{Zone};
ghost use Rattle.zst_absence.specs.zst_hash.Owners.{hashed_owner};
ghost use Rattle.zst_absence.specs.zst_key.Ancestors.{up};
ghost use Rattle.zst_circle.specs.Nsec3Circle.{AreGathered, AreHashed, entries_with, hash_cmp, hashing_of, is_level_of, level_count};
ghost use Rattle.zst_circle.specs.Securing.{AreAuthoritative, IsZoneAt};

use crate::names::is_delegation;
use std::alloc::{AllocError, Global};
use std::collections::BTreeMap;
use zst_absence::{Name, NameKey, RecordType, ZoneSets, hashed_owner, nsec3_digest, push};

/// How the names of a zone are hashed, by SHA-1, and whether their circle leaves out unsigned delegations (RFC 5155 sections
/// 4 and 6).
#[derive(Clone, Copy)]
pub struct Nsec3Parameters<'s> {
    /// The salt, which is hashed with each name.
    pub salt: &'s [u8],
    /// How many times more the digest is hashed.
    pub iterations: u16,
    /// Whether delegations without DS are left out.
    pub opt_out: bool,
}

/// A name on a circle by hash.
#[derive(Drop)]
pub(crate) struct HashedName {
    /// The name's key.
    pub(crate) key: NameKey,
    /// The name's digest.
    pub(crate) digest: [u8; 20],
}

/// The names on a zone's circle by hash, in the order of their hashed owners: the authoritative names, and those above them
/// up to the origin, but with opt-out no delegation without DS (RFC 5155 section 7.1).
pub(crate) fn hashed_names(
    alloc: Global,
    origin: &Name,
    key: &NameKey,
    by: Nsec3Parameters<'_>,
    names: &[Name],
    sets: &ZoneSets,
) -> Result<Vec<HashedName>, AllocError>
    requires origin { key.now ≡ lowercase_name origin.now }
    requires fits { labels_len origin.now.labels + 34 ≤ 255 }
    requires names { (zone : Zone) → IsZoneAt sets.now key.now zone → AreAuthoritative kind.NSEC3 zone names.now }
    ensures ordered { IfOk result (λ hashed. IsStrictlySortedBy (hash_cmp origin.now) hashed.items) }
    ensures hashed { IfOk result (λ hashed. (zone : Zone) → IsZoneAt sets.now key.now zone
        → AreHashed (hashing_of by.entry) by.entry.opt_out zone origin.now hashed.items) }
{
    let mut circle = BTreeMap::new(alloc);
    'places: for place in 0..names.len() {
        put_levels(alloc, origin, key, by, names, place, sets, &mut circle)?;
    }
    in_order(alloc, circle)
}

// Puts the name at a place and those above it up to the origin, until one that the name before it is at or below, too.
fn put_levels(
    alloc: Global,
    origin: &Name,
    key: &NameKey,
    by: Nsec3Parameters<'_>,
    names: &[Name],
    place: usize,
    sets: &ZoneSets,
    circle: &mut BTreeMap<NameKey, HashedName>,
) -> Result<(), AllocError>
    requires place { place < length names.now }
    requires origin { key.now ≡ lowercase_name origin.now }
    requires fits { labels_len origin.now.labels + 34 ≤ 255 }
    ensures { OnOk result ((zone : Zone) → IsZoneAt sets.now key.now zone → AreAuthoritative kind.NSEC3 zone names.now
        → AreGathered (hashing_of by.entry) by.entry.opt_out zone origin.now (take place names.now) circle.old.entries
        → AreGathered (hashing_of by.entry) by.entry.opt_out zone origin.now (take (place + 1) names.now) circle.new.entries) }
{
    let name = &names[place];
    'levels: for level in 0..level_count(origin, name) {
        let above = ancestor(name, level)?;
        if is_above_one_before(names, place, &above) {
            return Ok(());
        }
        put_name(alloc, origin, key, by, &above, sets, circle)?;
    }
    Ok(())
}

// How many names there are from a name up to the origin.
fn level_count(origin: &Name, name: &Name) -> usize
    ensures { result ≡ level_count origin.now name.now }
{
    name.iter().len().saturating_sub(origin.iter().len()) + 1
}

// The name this many levels above a name.
fn ancestor(name: &Name, levels: usize) -> Result<Name, AllocError>
    ensures { IfOk result (λ above. levels ≤ length name.now.labels → above ≡ up name.now levels) }
{
    name.trim_to(name.iter().len().saturating_sub(levels))
}

// Whether the name before a place is at or below a name.
fn is_above_one_before(names: &[Name], place: usize, above: &Name) -> bool
    requires { place ≤ length names.now }
    ensures { result ≡ (nat_lt 0 place && is_level_of (get_or names.now (place - 1) above.now) above.now) }
{
    place > 0 && is_level_of(&names[place - 1], above)
}

// Whether a name is at or below another one, and both end at the root or neither does.
fn is_level_of(name: &Name, above: &Name) -> bool
    ensures { result ≡ is_level_of name.now above.now }
{
    name.is_fqdn() == above.is_fqdn() && above.zone_of(name)
}

// Puts a name under the key of its hashed owner, unless opt-out leaves it out (RFC 5155 section 6).
fn put_name(
    alloc: Global,
    origin: &Name,
    key: &NameKey,
    by: Nsec3Parameters<'_>,
    name: &Name,
    sets: &ZoneSets,
    circle: &mut BTreeMap<NameKey, HashedName>,
) -> Result<(), AllocError>
    requires fits { labels_len origin.now.labels + 34 ≤ 255 }
    ensures { OnOk result ((zone : Zone) → IsZoneAt sets.now key.now zone
        → circle.new.entries ≡ entries_with (hashing_of by.entry) by.entry.opt_out zone origin.now circle.old.entries name.now) }
{
    let name_key = NameKey::of(alloc, name)?;
    if by.opt_out && is_unsigned_delegation(key, sets, &name_key) {
        return Ok(());
    }
    let digest = nsec3_digest(name, by.salt, by.iterations);
    let owner = owner_of(alloc, &digest, origin)?;
    let hashed = HashedName {
        key: name_key,
        digest,
    };
    put(circle, NameKey::of(alloc, &owner)?, hashed)
}

// Whether a name is a delegation without DS.
fn is_unsigned_delegation(origin: &NameKey, sets: &ZoneSets, key: &NameKey) -> bool
    ensures { (zone : Zone) → IsZoneAt sets.now origin.now zone
        → result ≡ (is_delegation zone key.now && not (is_owned zone key.now kind.DS)) }
{
    is_delegation(origin, sets, key) && sets.get(key, RecordType::DS).is_none()
}

/// The owner of a digest's NSEC3 set, where an origin leaves room for it.
pub(crate) fn owner_of(alloc: Global, digest: &[u8; 20], origin: &Name) -> Result<Name, AllocError>
    requires { labels_len origin.now.labels + 34 ≤ 255 }
    ensures { IfOk result (λ owner. owner ≡ hashed_owner digest.now origin.now) }
{
    match hashed_owner(alloc, digest, origin)? {
        Some(owner) => Ok(owner),
        None => unreachable!(),
    }
}

// Puts a value under a key. (This and the next one are generic, so that dropping a value takes no proof of its own.)
fn put<K: Ord + Drop, V: Drop>(map: &mut BTreeMap<K, V>, key: K, value: V) -> Result<(), AllocError>
    ensures { OnOk result (map.new.entries ≡ insert_entry K.cmp map.old.entries key value) }
{
    match map.insert(key, value) {
        Ok(_) => Ok(()),
        Err(_) => Err(AllocError),
    }
}

// The values of a map, in the order of their keys.
fn in_order<K: Ord + Drop, V: Drop>(
    alloc: Global,
    map: BTreeMap<K, V>,
) -> Result<Vec<V>, AllocError>
    ensures all { IfOk result (λ list. list.items ≡ values map) }
    ensures ordered { IsStrictlySortedBy K.cmp (keys_of map.entries) }
{
    let mut list = Vec::new(alloc);
    'entries: for (_, value) in map {
        push(&mut list, value)?;
    }
    Ok(list)
}
