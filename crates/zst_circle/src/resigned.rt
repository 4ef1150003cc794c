//! Stored sets as they are once their zone is secured: the next serial number, and signatures (RFC 4035 section 2.2).

ghost use Rattle.std.specs.Prelude.{◌≡◌, ◌↔◌, ◌&&◌, [], true, false, IfErr, IfOk, IsTrue, MatchOption, if◌then◌else◌};
ghost use Rattle.std.specs.List.{AllByRecursion};
ghost use Rattle.zst_absence.specs.dnw_codes.declared.record_type.RecordType.{RecordType};
ghost use Rattle.zst_absence.specs.dnw_name.DomainName.{name_eq};
ghost use Rattle.zst_absence.specs.zst_denial.Signing.{any_fails};
ghost use Rattle.zst_absence.specs.zst_handler.Zones.{Zone, rrset_at};
ghost use Rattle.zst_absence.specs.zst_record.RecordSets.{is_signature_of, raised_set};
ghost use Rattle.zst_circle.specs.Resigning.{IsSignedBy, IsStoredToSign, Resigns, is_soa_set, risen};
ghost use Rattle.zst_circle.specs.Securing.{IsToBeSigned, IsZoneAt, SomeFails};
ghost use Rattle.zst_absence.specs.zst_denial.Kept.{is_circle_type};

use crate::moves::Placeholder;
use crate::names::{is_cut_off, is_delegation};
use std::alloc::{AllocError, Global};
use std::mem;
use zst_absence::{
    NameKey, RData, Record, RecordSet, RecordType, SignerFault, ZoneSets, ZoneSigner, sign_set,
};

/// The placeholder for the set of an owner and a type, with the signatures that it has then.
pub(crate) fn placeholder_for<K: ZoneSigner>(
    alloc: Global,
    origin: &NameKey,
    keys: &[K],
    now: u64,
    sets: &ZoneSets,
    key: NameKey,
    record_type: RecordType,
) -> Result<Placeholder, SignerFault>
    ensures at { IfOk result (λ made. (made.key ≡ key) × (made.record_type ≡ record_type)) }
    ensures resigned { IfOk result (Resigns K.gives K.fails keys.now now sets.now origin.now) }
    ensures failed { IfErr result (λ e. e ≡ SignerFault.Failed → is_circle_type record_type ≡ false
        → SomeFails K.fails keys.now now (IsStoredToSign sets.now origin.now)) }
{
    let signs = is_to_be_signed(origin, sets, &key, record_type)?;
    let at_origin = key == *origin;
    let (rises, signatures) = match sets.get(&key, record_type) {
        Some(set) => resign(alloc, keys, now, set, at_origin, signs)?,
        None => (false, Vec::new(alloc)),
    };
    Ok(Placeholder {
        key,
        record_type,
        rises,
        signatures,
    })
}

// Whether the set of an owner and a type is to be signed: that of an authoritative name; of a delegation DS alone.
fn is_to_be_signed(
    origin: &NameKey,
    sets: &ZoneSets,
    key: &NameKey,
    record_type: RecordType,
) -> Result<bool, AllocError>
    ensures { IfOk result (λ signs. (zone : Zone) → IsZoneAt sets.now origin.now zone → (IsTrue signs ↔ IsToBeSigned zone key.now record_type)) }
{
    if !key.is_at_or_below(origin) {
        return Ok(false);
    }
    if is_delegation(origin, sets, key) && record_type != RecordType::DS {
        return Ok(false);
    }
    Ok(!is_cut_off(origin, sets, key)?)
}

// Whether the serial number of a set rises, and the signatures that it has then.
fn resign<K: ZoneSigner>(
    alloc: Global,
    keys: &[K],
    now: u64,
    set: &RecordSet,
    at_origin: bool,
    signs: bool,
) -> Result<(bool, Vec<Record>), SignerFault>
    ensures rises { IfOk result (λ made. made.0 ≡ (at_origin && is_soa_set set.now)) }
    ensures fit { IfOk result (λ made. AllByRecursion (λ r. is_signature_of set.now r ≡ true) made.1.items) }
    ensures signed { IfOk result (λ made. signs ≡ true → IsSignedBy K.gives K.fails keys.now now (risen at_origin set.now) made.1.items) }
    ensures bare { IfOk result (λ made. signs ≡ false → made.1.items ≡ []) }
    ensures failed { IfErr result (λ e. e ≡ SignerFault.Failed → (signs ≡ true) × (any_fails K.fails keys.now (risen at_origin set.now) now ≡ true)) }
{
    let next = if at_origin {
        next_start(alloc, set)?
    } else {
        None
    };
    match next {
        Some(next) => {
            let signatures = sign_if(alloc, keys, now, &next, signs);
            mem::drop(next);
            Ok((true, signatures?))
        }
        None => Ok((false, sign_if(alloc, keys, now, set, signs)?)),
    }
}

// The signatures of a set, if it is to be signed.
fn sign_if<K: ZoneSigner>(
    alloc: Global,
    keys: &[K],
    now: u64,
    set: &RecordSet,
    signs: bool,
) -> Result<Vec<Record>, SignerFault>
    ensures fit { IfOk result (λ signatures. AllByRecursion (λ r. is_signature_of set.now r ≡ true) signatures.items) }
    ensures signed { IfOk result (λ signatures. signs ≡ true → IsSignedBy K.gives K.fails keys.now now set.now signatures.items) }
    ensures bare { IfOk result (λ signatures. signs ≡ false → signatures.items ≡ []) }
    ensures failed { IfErr result (λ e. e ≡ SignerFault.Failed → (signs ≡ true) × (any_fails K.fails keys.now set.now now ≡ true)) }
{
    if signs {
        sign_set(alloc, keys, set, now)
    } else {
        Ok(Vec::new(alloc))
    }
}

// An SOA set with the next serial number, as a set of its own; nothing of any other set.
fn next_start(alloc: Global, set: &RecordSet) -> Result<Option<RecordSet>, AllocError>
    ensures { IfOk result (λ next. MatchOption next (is_soa_set set.now ≡ false) (λ made. (is_soa_set set.now ≡ true) × (made ≡ raised_set set.now))) }
{
    let RecordType::SOA = set.record_type() else {
        return Ok(None);
    };
    let [only] = set.as_slice() else {
        return Ok(None);
    };
    let RData::SOA(soa) = &only.rdata else {
        return Ok(None);
    };
    let mut next = soa.clone()?;
    next.serial = next.serial.wrapping_add(1);
    let name = only.name.clone()?;
    let record = Record {
        name,
        dns_class: only.dns_class,
        ttl: only.ttl,
        rdata: RData::SOA(next),
    };
    Ok(Some(RecordSet::from_record(alloc, record)))
}
