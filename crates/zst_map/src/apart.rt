//! Which types an owner may have beside each other.

ghost use Rattle.std.specs.Prelude.{◌≡◌, ◌||◌, not, List};
ghost use Rattle.zst_handler.specs.dnw_codes.DNSClass.{same_class};
ghost use Rattle.zst_handler.specs.dnw_codes.declared.dns_class.DNSClass.TheVariants.{IN};
ghost use Rattle.zst_handler.specs.drd_rdata.Types.{type_of};
ghost use Rattle.zst_handler.specs.Updates.{are_apart, is_kept_out, may_be_beside_alias};

use zst_handler::{DNSClass, Record, RecordSet, RecordType};

/// Whether a record may not be added to the sets of its owner, by its class and type.
pub(crate) fn is_kept_out(sets: &[RecordSet], next: &Record) -> bool
    ensures { result ≡ (not (same_class next.now.dns_class IN) || is_kept_out sets.now (type_of next.now.rdata)) }
{
    next.dns_class != DNSClass::IN || any_apart(sets, next.record_type())
}

// Whether a set among these may not stand beside one of this type.
fn any_apart(sets: &[RecordSet], record_type: RecordType) -> bool
    ensures { result ≡ is_kept_out sets.now record_type }
{
    sets.iter()
        .any(|set| are_apart(set.record_type(), record_type))
}

// Whether sets of two types may not stand beside each other.
fn are_apart(first: RecordType, second: RecordType) -> bool
    ensures { result ≡ are_apart first second }
{
    (first == RecordType::CNAME && !may_be_beside_alias(second))
        || (second == RecordType::CNAME && !may_be_beside_alias(first))
}

// Whether a set of this type may stand beside an alias.
fn may_be_beside_alias(record_type: RecordType) -> bool
    ensures { result ≡ may_be_beside_alias record_type }
{
    record_type == RecordType::CNAME
        || record_type == RecordType::NSEC
        || record_type == RecordType::NSEC3
}
