//! The closest encloser of a name (RFC 5155 section 1.3).
ghost use Rattle.std.specs.Prelude.{◌≡◌, ◌<◌, ◌≤◌, false, length, true, IfOk};
ghost use Rattle.zst_map.specs.zst_handler.Zones.{exists_in};
ghost use Rattle.zst_map.specs.zst_key.Ancestors.{up};
ghost use Rattle.zst_absence.specs.Absences.{FindsCloser, FindsClosest, IsLowest, depth};

use std::alloc::{AllocError, Global};
use zst_map::{Name, NameKey, ZoneSets};

/// The name one label longer than the closest encloser of a name; none where no name above it exists at or below the origin.
pub(crate) fn closer_name(
    alloc: Global,
    sets: &ZoneSets,
    origin: &Name,
    name: &Name,
) -> Result<Option<Name>, AllocError>
    ensures { IfOk result (FindsCloser sets.now origin.now name.now) }
{
    match closest(alloc, sets, origin, name)? {
        Some(levels) => Ok(Some(ancestor(name, levels - 1)?)),
        None => Ok(None),
    }
}

// How many levels above a name its closest encloser is: mostly one, and else, at last, the origin's. Between those two the
// levels are halved, since all names above one that exists do.
fn closest(
    alloc: Global,
    sets: &ZoneSets,
    origin: &Name,
    name: &Name,
) -> Result<Option<usize>, AllocError>
    ensures { IfOk result (FindsClosest sets.now origin.now name.now) }
{
    let highest = depth(origin, name);
    if highest == 0 {
        return Ok(None);
    }
    if exists_above(alloc, sets, name, 1)? {
        return Ok(Some(1));
    }
    if !exists_above(alloc, sets, name, highest)? {
        return Ok(None);
    }
    Ok(Some(lowest(alloc, sets, name, 1, highest)?))
}

// How many labels a name has more than an origin that it is at or below; 0 of another name.
fn depth(origin: &Name, name: &Name) -> usize
    ensures { result ≡ depth origin.now name.now }
{
    if origin.zone_of(name) {
        name.iter().len().saturating_sub(origin.iter().len())
    } else {
        0
    }
}

// The lowest level above a name that exists, between one that doesn't and one that does.
fn lowest(
    alloc: Global,
    sets: &ZoneSets,
    name: &Name,
    low: usize,
    high: usize,
) -> Result<usize, AllocError>
    requires order { low < high }
    requires within { high ≤ length name.now.labels }
    requires absent { exists_in sets.now (up name.now low) ≡ false }
    requires present { exists_in sets.now (up name.now high) ≡ true }
    ensures { IfOk result (λ levels. IsLowest sets.now name.now low levels high) }
{
    let mut absent = low;
    let mut present = high;
    'halves: while present - absent > 1 {
        let middle = absent + (present - absent) / 2;
        if exists_above(alloc, sets, name, middle)? {
            present = middle;
        } else {
            absent = middle;
        }
    }
    Ok(present)
}

// Whether the name this many levels above a name exists.
fn exists_above(
    alloc: Global,
    sets: &ZoneSets,
    name: &Name,
    levels: usize,
) -> Result<bool, AllocError>
    requires { levels ≤ length name.now.labels }
    ensures { IfOk result (λ there. there ≡ exists_in sets.now (up name.now levels)) }
{
    let above = ancestor(name, levels)?;
    let key = NameKey::of(alloc, &above)?;
    sets.exists(&key)
}

// The name this many levels above a name.
fn ancestor(name: &Name, levels: usize) -> Result<Name, AllocError>
    requires { levels ≤ length name.now.labels }
    ensures { IfOk result (λ above. above ≡ up name.now levels) }
{
    name.trim_to(name.iter().len() - levels)
}
