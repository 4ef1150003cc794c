//! What keeps a record out of the zone of a transfer.

ghost use Rattle.std.specs.Prelude.{◌≡◌};
ghost use Rattle.zsv_message.specs.zst_record.dnw_name.DomainName.{lowercase_name};
ghost use Rattle.authority_load.specs.Loaded.{added_by_signing};
ghost use Rattle.authority_transfer.specs.Transfers.{may_join, record_fault};

use crate::error::TransferError;
use authority_load::{NameKey, StoredZone, is_beside_alias, is_second_start};
use zsv_message::{DNSClass, Record, RecordType};

// Whether signing adds records of a type.
fn is_added_by_signing(record_type: RecordType) -> bool
    ensures { result ≡ added_by_signing record_type }
{
    record_type == RecordType::RRSIG
        || record_type == RecordType::NSEC
        || record_type == RecordType::NSEC3
        || record_type == RecordType::NSEC3PARAM
}

// Whether a record may join the zone, by its class and by what its owner has.
fn may_join(zone: &StoredZone, key: &NameKey, next: &Record) -> bool
    requires { key.now ≡ lowercase_name next.now.name }
    ensures { result ≡ may_join zone.now.sets next.now }
{
    next.dns_class == DNSClass::IN
        && !is_beside_alias(zone, key, next)
        && !is_second_start(zone, key, next)
}

/// The first cause that refuses a record, whose index among the answers this is.
pub fn record_fault(
    zone: &StoredZone,
    key: &NameKey,
    index: usize,
    next: &Record,
) -> Option<TransferError>
    requires { key.now ≡ lowercase_name next.now.name }
    ensures { result ≡ record_fault zone.now index next.now }
{
    if !zone.is_in_zone(key) {
        return Some(TransferError::OutsideZone);
    }
    if is_added_by_signing(next.record_type()) {
        return Some(TransferError::DnssecRecord);
    }
    if may_join(zone, key, next) {
        None
    } else {
        Some(TransferError::Record { index })
    }
}
