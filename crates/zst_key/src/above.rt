//! The nearest of a name and the names above it that a map has.
ghost use Rattle.std.specs.Prelude.{◌≡◌, IfOk, option_map};
ghost use Rattle.std.specs.BTreeMap.{get};
ghost use Rattle.dnw_name.specs.DomainName.{name_cmp};
ghost use Rattle.zst_key.specs.Ancestors.{nearest_in, parent, IsLastUpTo};

use crate::key::NameKey;
use std::alloc::AllocError;
use std::collections::BTreeMap;

// The last entry of a map that does not stand behind a name in canonical order (RFC 4034 6.1). Where this is the first of
// all, as a zone's origin is among its names, the map is not searched.
#[inline(always)]
fn last_up_to<'m, V>(names: &'m BTreeMap<NameKey, V>, key: &NameKey) -> Option<(&'m NameKey, &'m V)>
    ensures { IsLastUpTo (get name_cmp names.now) key.now (option_map (λ p. (p.0.now, p.1.now)) result) }
{
    match names.first_key_value() {
        Some((owner, value)) if owner == key => Some((owner, value)),
        _ => names.range(..=key).next_back(),
    }
}

/// The entry of a map for a name, or else for the nearest name above it. It takes memory only where the two entries before
/// the name in canonical order are of none of these, and the nearest name above them has more than 39 octets.
///
/// The last of these entries is that of the nearest name above, or it shares with the name whatever names above are in the
/// map. Two are looked at, since a search costs more than a step: what stands between a cut and a name below it is often
/// the address of one name server.
pub fn nearest<'m, V>(
    names: &'m BTreeMap<NameKey, V>,
    key: &NameKey,
) -> Result<Option<(&'m NameKey, &'m V)>, AllocError>
    ensures { IfOk result (λ found. option_map (λ p. (p.0.now, p.1.now)) found ≡ nearest_in (get name_cmp names.now) key.now) }
{
    let mut before = names.range(..=key);
    let Some((last, value)) = before.next_back() else {
        return Ok(None);
    };
    if key.is_below(last) {
        return Ok(Some((last, value)));
    }
    let Some((owner, value)) = before.next_back() else {
        return Ok(None);
    };
    if key.is_below(owner) {
        return Ok(Some((owner, value)));
    }
    match key.shared_with(owner)? {
        Some(above) => Ok(nearest_from(names, above)),
        None => Ok(None),
    }
}

// The same, from a name up, by a search for each: each turn of the loop goes up at least one label.
fn nearest_from<'m, V>(
    names: &'m BTreeMap<NameKey, V>,
    from: NameKey,
) -> Option<(&'m NameKey, &'m V)>
    ensures { option_map (λ p. (p.0.now, p.1.now)) result ≡ nearest_in (get name_cmp names.now) from }
{
    let mut above = from;
    'levels: while let Some((owner, value)) = last_up_to(names, &above) {
        if above.is_below(owner) {
            return Some((owner, value));
        }
        if !above.to_shared(owner) {
            return None;
        }
    }
    None
}

/// The entry of a map for the nearest name above that of a key. Where this is the name right above, and the first of all, as
/// it often is among few, the map is not searched, and it takes no memory.
pub fn nearest_above<'m, V>(
    names: &'m BTreeMap<NameKey, V>,
    key: &NameKey,
) -> Result<Option<(&'m NameKey, &'m V)>, AllocError>
    ensures { IfOk result (λ found. option_map (λ p. (p.0.now, p.1.now)) found ≡ nearest_in (get name_cmp names.now) (parent key.now)) }
{
    match names.first_key_value() {
        Some((owner, value)) if key.is_child_of(owner) => Ok(Some((owner, value))),
        _ => {
            let mut above = key.clone()?;
            above.to_parent();
            nearest(names, &above)
        }
    }
}
