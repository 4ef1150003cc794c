//! Which set of NSEC or NSEC3 precedes a name: it proves what is absent there (RFC 4035 section 3.1.3, RFC 5155 section 7.2).

ghost use Rattle.std.specs.Prelude.{IsSome, option_copied};
ghost use Rattle.std.specs.BTreeMap.{get};
ghost use Rattle.zst_handler.specs.dnw_name.DomainName.{DomainName, name_cmp};
ghost use Rattle.zst_handler.specs.Zones.{rrset_at};
ghost use Rattle.zst_map.specs.Preceding.{FindsLast, FindsPreceding};

use crate::map::ZoneMap;
use std::collections::BTreeMap;
use std::collections::btree_map::Range;
use zst_handler::{RecordSet, RecordType};
use zst_key::NameKey;

/// The set of a type at the name of a key, or else of the owner before it; where no owner is before it, of the last one. The
/// owners of such sets are among these names.
pub(crate) fn preceding<'z>(
    names: &'z BTreeMap<NameKey, ()>,
    sets: &'z ZoneMap,
    key: &NameKey,
    record_type: RecordType,
) -> Option<&'z RecordSet>
    requires { (name : DomainName) → IsSome (rrset_at sets.now name record_type) → IsSome (get name_cmp names.now name) }
    ensures { FindsPreceding sets.now record_type key.now (option_copied result) }
{
    match last_owned(names.range(..=key), sets, record_type) {
        Some(set) => Some(set),
        None => last_owned(names.range(key..), sets, record_type),
    }
}

// The set of a type that the last of these names owns that own one. Names may be left that own none any more.
fn last_owned<'z>(
    names: Range<'z, NameKey, ()>,
    sets: &'z ZoneMap,
    record_type: RecordType,
) -> Option<&'z RecordSet>
    ensures { FindsLast sets.now record_type names.entry (option_copied result) }
{
    let mut left = names;
    'names: while let Some((name, _)) = left.next_back() {
        if let Some(set) = sets.get(name, record_type) {
            return Some(set);
        }
    }
    None
}
