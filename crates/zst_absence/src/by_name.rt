//! Denials by NSEC (RFC 4035 section 3.1.3).
ghost use Rattle.std.specs.Prelude.{IfOk, option_copied};
ghost use Rattle.zst_map.specs.zst_handler.Zones.{Zone};
ghost use Rattle.zst_denial.specs.Denials.{IsNsecDenial};
ghost use Rattle.zst_denial.specs.Shown.{ShowsDenial};
ghost use Rattle.zst_absence.specs.Absences.{IsForWildcard, IsZoneOf};

use crate::enclosing::closer_name;
use crate::listing::{set_before, show};
use std::alloc::{AllocError, Global};
use zst_map::{AuthLookup, LookupOptions, Name, RecordSet, RecordType, ZoneSets};

/// The NSEC sets that deny a name or its types in the zone of these sets at this origin: the set for the name, and the set
/// for the wildcard at its closest encloser (RFC 4035 sections 3.1.3.1 to 3.1.3.4).
pub fn nsec_denial<'z>(
    alloc: Global,
    sets: &'z ZoneSets,
    origin: &Name,
    name: &Name,
    options: LookupOptions,
) -> Result<AuthLookup<'z>, AllocError>
    ensures { IfOk result (λ found. (zone : Zone) → IsZoneOf sets.now origin.now zone
        → ShowsDenial (IsNsecDenial zone name.now) options.dnssec_ok found) }
{
    let own = set_before(alloc, sets, name, RecordType::NSEC)?;
    let star = set_for_wildcard(alloc, sets, origin, name)?;
    show(alloc, options, own, star, None)
}

// The set for the wildcard at the closest encloser.
fn set_for_wildcard<'z>(
    alloc: Global,
    sets: &'z ZoneSets,
    origin: &Name,
    name: &Name,
) -> Result<Option<&'z RecordSet>, AllocError>
    ensures { IfOk result (λ set. (zone : Zone) → IsZoneOf sets.now origin.now zone → IsForWildcard zone name.now (option_copied set)) }
{
    let Some(closer) = closer_name(alloc, sets, origin, name)? else {
        return Ok(None);
    };
    let star = closer.into_wildcard()?;
    set_before(alloc, sets, &star, RecordType::NSEC)
}
