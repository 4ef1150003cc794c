//! The types that the records of a circle list.

ghost use Rattle.std.specs.Prelude.{◌≡◌, ◌==◌, ◌||◌, not, IfOk};
ghost use Rattle.std.specs.List.{list_any};
ghost use Rattle.zst_absence.specs.dnw_codes.RecordType.{record_type_number, same_record_type};
ghost use Rattle.zst_absence.specs.dnw_codes.declared.record_type.RecordType.{RecordType};
ghost use Rattle.zst_absence.specs.dnw_codes.declared.record_type.RecordType.TheVariants as kind;
ghost use Rattle.zst_circle.specs.NsecCircle.{is_nsec_type};

use std::alloc::{AllocError, Global};
use zst_absence::{RecordSet, RecordType, RecordTypeSet};

/// The types that the NSEC record of a name with these sets lists: NSEC, RRSIG and those of the sets; of a delegation NS and
/// DS alone (RFC 4034 section 4.1.2, RFC 4035 section 2.3).
pub(crate) fn nsec_types(
    alloc: Global,
    sets: &[RecordSet],
    delegated: bool,
) -> Result<RecordTypeSet, AllocError>
    ensures { IfOk result (λ types. (t : RecordType) → list_any (λ code. code == record_type_number t) types ≡ is_nsec_type sets.now delegated t) }
{
    let mut types = Vec::new(alloc);
    types.push(RecordType::RRSIG)?;
    types.push(RecordType::NSEC)?;
    'sets: for set in sets {
        let record_type = set.record_type();
        if is_listed(delegated, record_type) {
            types.push(record_type)?;
        }
    }
    RecordTypeSet::new(alloc, types.iter().copied())
}

// Whether an owned type is listed.
fn is_listed(delegated: bool, record_type: RecordType) -> bool
    ensures { result ≡ (not delegated || (same_record_type record_type kind.NS || same_record_type record_type kind.DS)) }
{
    !delegated || record_type == RecordType::NS || record_type == RecordType::DS
}
