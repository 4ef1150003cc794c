//! Denials by NSEC3 (RFC 5155 section 7.2).
ghost use Rattle.std.specs.Prelude.{◌≡◌, ◌+◌, ◌≤◌, nat_le, IfOk, OnErr, option_copied};
ghost use Rattle.zst_map.specs.Preceding.{FindsPreceding};
ghost use Rattle.zst_map.specs.dnw_codes.declared.record_type.RecordType.TheVariants as kind;
ghost use Rattle.zst_map.specs.dnw_name.DomainName.{labels_len};
ghost use Rattle.zst_map.specs.zst_handler.Zones.{Zone, rrset_at};
ghost use Rattle.zst_denial.specs.HashDenials.{IsNsec3Denial};
ghost use Rattle.zst_denial.specs.Shown.{ShowsDenial};
ghost use Rattle.zst_denial.specs.zst_hash.Digests.{nsec3_digest};
ghost use Rattle.zst_denial.specs.zst_hash.Owners.{hashed_owner};
ghost use Rattle.zst_absence.specs.Absences.{IsProofAbove, IsZoneOf, hashing_of, is_wanted};

use crate::enclosing::closer_name;
use crate::listing::{set_before, show, show_one};
use std::alloc::{AllocError, Global};
use zst_denial::{hashed_owner, nsec3_digest};
use zst_map::{AuthLookup, LookupOptions, Name, NameKey, RecordSet, RecordType, ZoneSets};

/// What is to be denied by hash, and how names are hashed, by SHA-1 (RFC 5155 section 7.2).
#[derive(Clone, Copy)]
pub struct HashedQuery<'q> {
    /// The query name.
    pub name: &'q Name,
    /// The query type.
    pub record_type: RecordType,
    /// Whether a wildcard answers.
    pub has_wildcard_match: bool,
    /// The salt, which is hashed with each name.
    pub salt: &'q [u8],
    /// How many times more the digest is hashed.
    pub iterations: u16,
}

/// The NSEC3 sets that deny a name or its types in the zone of these sets at this origin: the name's own, else the proof of
/// its closest encloser. None where the name owns the type and no wildcard answers, nor where the origin is too long for the
/// owners of NSEC3 sets; then it takes no memory.
pub fn nsec3_denial<'z>(
    alloc: Global,
    sets: &'z ZoneSets,
    origin: &Name,
    query: HashedQuery<'_>,
    options: LookupOptions,
) -> Result<AuthLookup<'z>, AllocError>
    ensures shows { IfOk result (λ found. (zone : Zone) → IsZoneOf sets.now origin.now zone
        → ShowsDenial (IsNsec3Denial (hashing_of query.entry) zone query.entry.name.now query.entry.record_type query.entry.has_wildcard_match)
        options.dnssec_ok found) }
    ensures fits { OnErr result (labels_len origin.now.labels + 34 ≤ 255) }
{
    if !has_hashed_owners(origin) {
        return Ok(AuthLookup::Empty);
    }
    if !is_wanted(alloc, sets, query)? {
        return Ok(AuthLookup::Empty);
    }
    match own_set(alloc, sets, origin, query)? {
        Some(set) => Ok(show_one(options, set)),
        None => proof_above(alloc, sets, origin, query, options),
    }
}

// Whether the owners of NSEC3 sets, one label of 32 octets below the origin, have at most 255 octets.
fn has_hashed_owners(origin: &Name) -> bool
    ensures { result ≡ nat_le (labels_len origin.now.labels + 34) 255 }
{
    origin.len() + 34 <= Name::MAX_LENGTH
}

// Whether the name doesn't own the type, or a wildcard answers for it.
fn is_wanted(alloc: Global, sets: &ZoneSets, query: HashedQuery<'_>) -> Result<bool, AllocError>
    ensures { IfOk result (λ wanted. wanted ≡ is_wanted sets.now query.entry.name.now query.entry.record_type query.entry.has_wildcard_match) }
{
    let key = NameKey::of(alloc, query.name)?;
    match sets.get(&key, query.record_type) {
        Some(_) => Ok(query.has_wildcard_match),
        None => Ok(true),
    }
}

// The set of the query name's digest.
fn own_set<'z>(
    alloc: Global,
    sets: &'z ZoneSets,
    origin: &Name,
    query: HashedQuery<'_>,
) -> Result<Option<&'z RecordSet>, AllocError>
    requires { labels_len origin.now.labels + 34 ≤ 255 }
    ensures { IfOk result (λ set. option_copied set ≡ rrset_at sets.now
        (hashed_owner (nsec3_digest query.entry.salt.now query.entry.iterations query.entry.name.now) origin.now) kind.NSEC3) }
{
    let owner = owner_of(alloc, origin, query, query.name)?;
    let key = NameKey::of(alloc, &owner)?;
    Ok(sets.get(&key, RecordType::NSEC3))
}

// The sets for the closest encloser, the next closer name and the wildcard (RFC 5155 sections 7.2.1 to 7.2.3).
fn proof_above<'z>(
    alloc: Global,
    sets: &'z ZoneSets,
    origin: &Name,
    query: HashedQuery<'_>,
    options: LookupOptions,
) -> Result<AuthLookup<'z>, AllocError>
    requires { labels_len origin.now.labels + 34 ≤ 255 }
    ensures { IfOk result (λ found. (zone : Zone) → IsZoneOf sets.now origin.now zone
        → ShowsDenial (IsProofAbove (hashing_of query.entry) zone query.entry.name.now) options.dnssec_ok found) }
{
    let Some(closer) = closer_name(alloc, sets, origin, query.name)? else {
        return Ok(AuthLookup::Empty);
    };
    let encloser = closer.base_name()?;
    let for_encloser = set_by_hash(alloc, sets, origin, query, &encloser)?;
    let for_closer = set_by_hash(alloc, sets, origin, query, &closer)?;
    let star = closer.into_wildcard()?;
    let for_star = set_by_hash(alloc, sets, origin, query, &star)?;
    show(alloc, options, for_encloser, for_closer, for_star)
}

// The set of a name's digest, or else the one before it in hash order.
fn set_by_hash<'z>(
    alloc: Global,
    sets: &'z ZoneSets,
    origin: &Name,
    query: HashedQuery<'_>,
    name: &Name,
) -> Result<Option<&'z RecordSet>, AllocError>
    requires { labels_len origin.now.labels + 34 ≤ 255 }
    ensures { IfOk result (λ set. FindsPreceding sets.now kind.NSEC3
        (hashed_owner (nsec3_digest query.entry.salt.now query.entry.iterations name.now) origin.now) (option_copied set)) }
{
    let owner = owner_of(alloc, origin, query, name)?;
    set_before(alloc, sets, &owner, RecordType::NSEC3)
}

// The owner of a name's NSEC3 set.
fn owner_of(
    alloc: Global,
    origin: &Name,
    query: HashedQuery<'_>,
    name: &Name,
) -> Result<Name, AllocError>
    requires { labels_len origin.now.labels + 34 ≤ 255 }
    ensures { IfOk result (λ owner. owner ≡ hashed_owner (nsec3_digest query.entry.salt.now query.entry.iterations name.now) origin.now) }
{
    let digest = nsec3_digest(name, query.salt, query.iterations);
    match hashed_owner(alloc, &digest, origin)? {
        Some(owner) => Ok(owner),
        None => unreachable!(),
    }
}
