//! What an update asks of a zone before it changes it (RFC 2136 section 3.2).

ghost use Rattle.std.specs.Prelude.{◌≡◌, [], true, None, Some, Ok, IfOk, IsOk};
ghost use Rattle.zst_map.specs.dnw_codes.declared.dns_class.DNSClass.TheVariants as classes;
ghost use Rattle.zst_request.specs.Prerequisites.{absent_code, first_refused, is_in_use, is_valued, prerequisite_refused, prerequisites_refused, present_code, refused_by_class};
ghost use Rattle.zsv_sqlite.specs.Guarded.{form_by_class, form_refused, refused_unasked};

use crate::groups::{are_met, gathered};
use crate::prescan::{asks_any, has_data};
use std::alloc::{AllocError, Global};
use zst_draft::{DNSClass, NameKey, Record, ResponseCode, StoredZone};

/// Why prerequisites are refused: the first one that is, and after all the sets that are asked for by value. It takes no memory
/// to refuse one by its form before one asks what the zone has.
pub(crate) fn prerequisites_refusal(
    alloc: Global,
    zone: &StoredZone,
    prerequisites: &[Record],
) -> Result<Option<ResponseCode>, AllocError>
    ensures refused { IfOk result (λ refused. refused ≡ prerequisites_refused zone.now prerequisites.now) }
    ensures none { prerequisites.now ≡ [] → result ≡ Ok None }
    ensures form { (code : ResponseCode) → refused_unasked zone.now.origin prerequisites.now ≡ Some code → result ≡ Ok (Some code) }
{
    if prerequisites.is_empty() {
        return Ok(None);
    }
    let refused = first_refusal(alloc, zone, prerequisites)?;
    if refused.is_some() {
        return Ok(refused);
    }
    let groups = gathered(alloc, prerequisites)?;
    if are_met(zone, &groups) {
        return Ok(None);
    }
    Ok(Some(ResponseCode::NXRRSet))
}

// Why the first prerequisite is refused that is.
fn first_refusal(
    alloc: Global,
    zone: &StoredZone,
    prerequisites: &[Record],
) -> Result<Option<ResponseCode>, AllocError>
    ensures refused { IfOk result (λ refused. refused ≡ first_refused (prerequisite_refused zone.now.origin zone.now.sets) prerequisites.now) }
    ensures form { (code : ResponseCode) → refused_unasked zone.now.origin prerequisites.now ≡ Some code → result ≡ Ok (Some code) }
{
    for asked in prerequisites.iter() {
        let refused = refusal(alloc, zone, asked)?;
        if refused.is_some() {
            return Ok(refused);
        }
    }
    Ok(None)
}

// Why one prerequisite is refused (RFC 2136 section 3.2.5).
fn refusal(
    alloc: Global,
    zone: &StoredZone,
    asked: &Record,
) -> Result<Option<ResponseCode>, AllocError>
    ensures refused { IfOk result (λ refused. refused ≡ prerequisite_refused zone.now.origin zone.now.sets asked.now) }
    ensures form { (code : ResponseCode) → form_refused zone.now.origin asked.now ≡ Some code → result ≡ Ok (Some code) }
    ensures valued { is_valued asked.now ≡ true → IsOk result }
{
    if asked.ttl != 0 {
        return Ok(Some(ResponseCode::FormErr));
    }
    if !zone.origin().zone_of(&asked.name) {
        return Ok(Some(ResponseCode::NotZone));
    }
    match asked.dns_class {
        DNSClass::ANY => refusal_if_absent(alloc, zone, asked),
        DNSClass::NONE => refusal_if_present(alloc, zone, asked),
        DNSClass::IN => Ok(None),
        _ => Ok(Some(ResponseCode::FormErr)),
    }
}

// Why a prerequisite of class ANY is refused: it has RDATA, or what it asks for isn't in use.
fn refusal_if_absent(
    alloc: Global,
    zone: &StoredZone,
    asked: &Record,
) -> Result<Option<ResponseCode>, AllocError>
    ensures refused { IfOk result (λ refused. refused ≡ refused_by_class zone.now.sets asked.now classes.ANY) }
    ensures form { (code : ResponseCode) → form_by_class asked.now classes.ANY ≡ Some code → result ≡ Ok (Some code) }
{
    if has_data(asked) {
        return Ok(Some(ResponseCode::FormErr));
    }
    if is_in_use(alloc, zone, asked)? {
        return Ok(None);
    }
    Ok(Some(absent_code(asked)))
}

// Why a prerequisite of class NONE is refused: it has RDATA, or what it asks for is in use.
fn refusal_if_present(
    alloc: Global,
    zone: &StoredZone,
    asked: &Record,
) -> Result<Option<ResponseCode>, AllocError>
    ensures refused { IfOk result (λ refused. refused ≡ refused_by_class zone.now.sets asked.now classes.NONE) }
    ensures form { (code : ResponseCode) → form_by_class asked.now classes.NONE ≡ Some code → result ≡ Ok (Some code) }
{
    if has_data(asked) {
        return Ok(Some(ResponseCode::FormErr));
    }
    if is_in_use(alloc, zone, asked)? {
        return Ok(Some(present_code(asked)));
    }
    Ok(None)
}

// Whether the name has a set of the type, or of any type where that is asked for.
fn is_in_use(alloc: Global, zone: &StoredZone, asked: &Record) -> Result<bool, AllocError>
    ensures { IfOk result (λ there. there ≡ is_in_use zone.now.sets asked.now) }
{
    let key = NameKey::of(alloc, &asked.name)?;
    if asks_any(asked) {
        return Ok(!zone.records().sets_at(&key).is_empty());
    }
    Ok(zone.get_at(&key, asked.record_type()).is_some())
}

fn absent_code(asked: &Record) -> ResponseCode
    ensures { result ≡ absent_code asked.now }
{
    if asks_any(asked) {
        ResponseCode::NXDomain
    } else {
        ResponseCode::NXRRSet
    }
}

fn present_code(asked: &Record) -> ResponseCode
    ensures { result ≡ present_code asked.now }
{
    if asks_any(asked) {
        ResponseCode::YXDomain
    } else {
        ResponseCode::YXRRSet
    }
}
