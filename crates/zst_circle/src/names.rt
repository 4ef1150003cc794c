//! The names of a circle: the authoritative names of a zone (RFC 4035 section 2.3).

ghost use Rattle.std.specs.Prelude.{◌≡◌, ◌↔◌, IfOk, IfSome, IsTrue, MatchOption};
ghost use Rattle.std.specs.List.{AllByRecursion};
ghost use Rattle.std.specs.List.Sorted.{IsStrictlySortedBy};
ghost use Rattle.zst_absence.specs.dnw_codes.declared.record_type.RecordType.{RecordType};
ghost use Rattle.zst_absence.specs.dnw_name.DomainName.{lowercase_name, name_cmp};
ghost use Rattle.zst_absence.specs.zst_denial.Circles.{IsCutOff, is_delegation};
ghost use Rattle.zst_absence.specs.zst_handler.Zones.{Zone};
ghost use Rattle.zst_circle.specs.Securing.{AreAuthoritative, HasNone, IsAuthoritativeOwner, IsZoneAt, is_strictly_below};

use std::alloc::{AllocError, Global};
use zst_absence::{Name, NameKey, RecordType, ZoneSets, push};

/// The authoritative names of a zone, each once, in canonical order and in lower case. For each type of which the zone has no
/// set these are the names of that type's circle.
pub fn authoritative_names(
    alloc: Global,
    origin: &NameKey,
    sets: &ZoneSets,
) -> Result<Vec<Name>, AllocError>
    ensures are { IfOk result (λ names. (circle : RecordType) (zone : Zone) → IsZoneAt sets.now origin.now zone → HasNone sets.now circle
        → AreAuthoritative circle zone names.items) }
    ensures sorted { IfOk result (λ names. IsStrictlySortedBy name_cmp names.items) }
    ensures lower { IfOk result (λ names. AllByRecursion (λ name. lowercase_name name ≡ name) names.items) }
{
    let mut names = Vec::new(alloc);
    'owners: for key in sets.owners() {
        if let Some(name) = authoritative_name(origin, sets, key)? {
            push(&mut names, name)?;
        }
    }
    Ok(names)
}

// The owner of this key in lower case, if it is an authoritative name.
fn authoritative_name(
    origin: &NameKey,
    sets: &ZoneSets,
    key: &NameKey,
) -> Result<Option<Name>, AllocError>
    ensures is { IfOk result (λ found. (zone : Zone) → IsZoneAt sets.now origin.now zone
        → MatchOption found (IsAuthoritativeOwner zone key.now → ⊥) (λ name. IsAuthoritativeOwner zone key.now)) }
    ensures named { IfOk result (λ found. IfSome found (λ name. name ≡ lowercase_name key.now)) }
{
    let Some(set) = sets.sets_at(key).first() else {
        return Ok(None);
    };
    if !key.is_at_or_below(origin) || is_cut_off(origin, sets, key)? {
        return Ok(None);
    }
    Ok(Some(set.name().to_lowercase()?))
}

/// Whether a delegation above a name cuts it off. A name right below the origin takes one step.
pub(crate) fn is_cut_off(
    origin: &NameKey,
    sets: &ZoneSets,
    key: &NameKey,
) -> Result<bool, AllocError>
    ensures { IfOk result (λ cut. (zone : Zone) → IsZoneAt sets.now origin.now zone → (IsTrue cut ↔ IsCutOff zone key.now)) }
{
    let mut above = key.clone()?;
    'levels: while is_below(&above, origin) {
        above.to_parent();
        if is_delegation(origin, sets, &above) {
            return Ok(true);
        }
    }
    Ok(false)
}

/// Whether a name below the origin is delegated to the name servers that it owns.
pub(crate) fn is_delegation(origin: &NameKey, sets: &ZoneSets, key: &NameKey) -> bool
    ensures { (zone : Zone) → IsZoneAt sets.now origin.now zone → result ≡ is_delegation zone key.now }
{
    is_below(key, origin) && sets.get(key, RecordType::NS).is_some()
}

// Whether a name is at or below another one and has more labels.
fn is_below(key: &NameKey, origin: &NameKey) -> bool
    ensures { result ≡ is_strictly_below key.now origin.now }
{
    key.is_at_or_below(origin) && !origin.is_at_or_below(key)
}
