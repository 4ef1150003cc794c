//! The types that the NSEC3 records of a circle list.

ghost use Rattle.std.specs.Prelude.{◌≡◌, ◌==◌, IfOk};
ghost use Rattle.std.specs.List.{list_any};
ghost use Rattle.zst_absence.specs.dnw_codes.RecordType.{record_type_number};
ghost use Rattle.zst_absence.specs.dnw_codes.declared.record_type.RecordType.{RecordType};
ghost use Rattle.zst_circle.specs.Nsec3Circle.{is_kept_type, is_nsec3_type, is_signed_type};

use std::alloc::{AllocError, Global};
use zst_absence::{RecordSet, RecordType, RecordTypeSet};

/// The types that the NSEC3 record of a name with these sets lists: those of the sets but NSEC3, and RRSIG where there are
/// any; of a delegation NS, DS, and RRSIG where there is DS (RFC 5155 section 7.1).
pub(crate) fn nsec3_types(
    alloc: Global,
    sets: &[RecordSet],
    delegated: bool,
) -> Result<RecordTypeSet, AllocError>
    ensures { IfOk result (λ types. (t : RecordType) → list_any (λ code. code == record_type_number t) types ≡ is_nsec3_type sets.now delegated t) }
{
    let mut types = Vec::new(alloc);
    if has_signed_type(sets, delegated) {
        types.push(RecordType::RRSIG)?;
    }
    'sets: for set in sets {
        let record_type = set.record_type();
        if is_kept_type(delegated, record_type) {
            types.push(record_type)?;
        }
    }
    RecordTypeSet::new(alloc, types.iter().copied())
}

// Whether one of a name's sets is signed.
fn has_signed_type(sets: &[RecordSet], delegated: bool) -> bool
    ensures { result ≡ list_any (λ set. is_signed_type delegated set.record_type) sets.now }
{
    'sets: for set in sets {
        if is_signed_type(delegated, set.record_type()) {
            return true;
        }
    }
    false
}

// Whether an owned type is listed.
fn is_kept_type(delegated: bool, record_type: RecordType) -> bool
    ensures { result ≡ is_kept_type delegated record_type }
{
    if delegated {
        record_type == RecordType::NS || record_type == RecordType::DS
    } else {
        record_type != RecordType::NSEC3
    }
}

// Whether the set of an owned type is signed.
fn is_signed_type(delegated: bool, record_type: RecordType) -> bool
    ensures { result ≡ is_signed_type delegated record_type }
{
    if delegated {
        record_type == RecordType::DS
    } else {
        is_kept_type(delegated, record_type)
    }
}
