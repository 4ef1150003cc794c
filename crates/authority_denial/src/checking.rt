//! Denials in the octets of a reply.

ghost use Rattle.std.specs.Prelude.{◌≡◌, ◌≤◌, ◌==◌, ◌&&◌, not, length, IfErr, IfOk, IsNone, MatchBool, MatchOption, OnOk, option_map};
ghost use Rattle.std.specs.List.{list_any};
ghost use Rattle.zst_denial.specs.Denials.{Covers, HasNsec, Lacks, SomeOf};
ghost use Rattle.zst_denial.specs.Octets.{nsec_octets};
ghost use Rattle.zst_denial.specs.dnw_codes.RecordType.{record_type_number};
ghost use Rattle.zst_denial.specs.dnw_name.DomainName.{name_eq};
ghost use Rattle.zsv_sections.specs.zst_record.dnw_decoder.Reading.{IsWantOfMemory};
ghost use Rattle.zsv_reply.specs.zsv_message.Messages.{IsMessage, Message};
ghost use Rattle.authority_denial.specs.Denials.{DeniesName, DeniesType, HasNoNsec, TellsName, TellsType};

use std::alloc::{AllocError, Global};
use zst_denial::{NsecData, RecordTypeSet, is_between};
use zsv_reply::{DecodeError, MessageRequest, Name, RData, Record, RecordType, ResponseCode};

// The octets of an NSEC record's RDATA.
fn nsec_octets(rdata: &RData) -> Option<&[u8]>
    ensures { option_map (λ octets. octets.now) result ≡ nsec_octets rdata.now }
{
    match rdata {
        RData::Unknown { code, rdata } => {
            if *code == RecordType::NSEC {
                Some(&rdata.anything)
            } else {
                None
            }
        }
        _ => None,
    }
}

// The RDATA of a record, if it is an NSEC record whose octets are such RDATA.
fn nsec_of(alloc: Global, stored: &Record) -> Result<Option<NsecData>, AllocError>
    ensures { IfOk result (λ found. MatchOption found (HasNoNsec stored.now) (λ nsec. HasNsec stored.now nsec.next nsec.types)) }
{
    match nsec_octets(&stored.rdata) {
        Some(octets) => NsecData::read(alloc, octets),
        None => Ok(None),
    }
}

// Whether an NSEC record covers a name.
fn covers(alloc: Global, stored: &Record, name: &Name) -> Result<bool, AllocError>
    ensures { IfOk result (λ yes. MatchBool yes (Covers name.now stored.now) (Covers name.now stored.now → ⊥)) }
{
    match nsec_of(alloc, stored)? {
        Some(nsec) => Ok(is_between(&stored.name, name, &nsec.next)),
        None => Ok(false),
    }
}

// Whether an owner is a name, and a type isn't among its own.
fn is_lacking(owner: &Name, name: &Name, types: &RecordTypeSet, record_type: RecordType) -> bool
    ensures { result ≡ (name_eq owner.now name.now && not (list_any (λ code. code == record_type_number record_type) types.now)) }
{
    *owner == *name && !types.contains(record_type)
}

// Whether an NSEC record is owned by a name and lacks a type.
fn lacks(
    alloc: Global,
    stored: &Record,
    name: &Name,
    record_type: RecordType,
) -> Result<bool, AllocError>
    ensures { IfOk result (λ yes. MatchBool yes (Lacks name.now record_type stored.now) (Lacks name.now record_type stored.now → ⊥)) }
{
    match nsec_of(alloc, stored)? {
        Some(nsec) => Ok(is_lacking(&stored.name, name, &nsec.types, record_type)),
        None => Ok(false),
    }
}

// Whether one of some records covers a name.
fn some_covers(alloc: Global, records: &[Record], name: &Name) -> Result<bool, AllocError>
    ensures { IfOk result (λ yes. MatchBool yes (SomeOf (Covers name.now) records.now) (SomeOf (Covers name.now) records.now → ⊥)) }
{
    for stored in records {
        if covers(alloc, stored, name)? {
            return Ok(true);
        }
    }
    Ok(false)
}

// Whether one of some records is owned by a name and lacks a type.
fn some_lacks(
    alloc: Global,
    records: &[Record],
    name: &Name,
    record_type: RecordType,
) -> Result<bool, AllocError>
    ensures { IfOk result (λ yes. MatchBool yes (SomeOf (Lacks name.now record_type) records.now) (SomeOf (Lacks name.now record_type) records.now → ⊥)) }
{
    for stored in records {
        if lacks(alloc, stored, name, record_type)? {
            return Ok(true);
        }
    }
    Ok(false)
}

// No message was read, unless memory was refused.
fn nothing<T>(refused: DecodeError) -> Result<Option<T>, AllocError>
    ensures memory { OnOk result (IsWantOfMemory refused → ⊥) }
    ensures none { IfOk result (λ found. IsNone found) }
    ensures told { IfErr result (λ e. IsWantOfMemory refused) }
{
    match refused {
        DecodeError::Memory => Err(AllocError),
        _ => Ok(None),
    }
}

// The message that octets are, if they are one.
fn message_of(alloc: Global, octets: &[u8]) -> Result<Option<MessageRequest<'_>>, AllocError>
    ensures found { IfOk result (λ found. MatchOption found ((m : Message) → IsMessage octets.now m → ⊥) (IsMessage octets.now)) }
    ensures memory { IfErr result (λ e. 12 ≤ length octets.now) }
{
    match MessageRequest::read(alloc, octets) {
        Ok(message) => Ok(Some(message)),
        Err(refused) => nothing(refused),
    }
}

// Whether a code says that a name doesn't exist.
fn is_name_error(code: ResponseCode) -> bool
    ensures { MatchBool result (code ≡ ResponseCode.NXDomain) (code ≡ ResponseCode.NXDomain → ⊥) }
{
    matches!(code, ResponseCode::NXDomain)
}

// Whether a code says that there is no error.
fn is_no_error(code: ResponseCode) -> bool
    ensures { MatchBool result (code ≡ ResponseCode.NoError) (code ≡ ResponseCode.NoError → ⊥) }
{
    matches!(code, ResponseCode::NoError)
}

// Whether a message denies a name.
fn tells_name(alloc: Global, message: &MessageRequest<'_>, name: &Name) -> Result<bool, AllocError>
    ensures { IfOk result (λ yes. MatchBool yes (TellsName message.now name.now) (TellsName message.now name.now → ⊥)) }
{
    if !is_name_error(message.metadata().response_code) {
        return Ok(false);
    }
    some_covers(alloc, message.authorities(), name)
}

// Whether a message denies a type of a name.
fn tells_type(
    alloc: Global,
    message: &MessageRequest<'_>,
    name: &Name,
    record_type: RecordType,
) -> Result<bool, AllocError>
    ensures { IfOk result (λ yes. MatchBool yes (TellsType message.now name.now record_type) (TellsType message.now name.now record_type → ⊥)) }
{
    if !is_no_error(message.metadata().response_code) {
        return Ok(false);
    }
    if !message.answers().is_empty() {
        return Ok(false);
    }
    some_lacks(alloc, message.authorities(), name, record_type)
}

/// Whether a reply denies a name: its code is NXDomain, and an NSEC record among its authorities has the name strictly
/// between its owner and the next one on the circle (RFC 4035 section 5.4).
pub fn check(alloc: Global, reply: &[u8], name: &Name) -> Result<bool, AllocError>
    ensures exact { IfOk result (λ yes. MatchBool yes (DeniesName reply.now name.now) (DeniesName reply.now name.now → ⊥)) }
    ensures memory { IfErr result (λ e. 12 ≤ length reply.now) }
{
    match message_of(alloc, reply)? {
        Some(message) => tells_name(alloc, &message, name),
        None => Ok(false),
    }
}

/// Whether a reply denies a type of a name: it has no error and no answer, and an NSEC record of the name among its
/// authorities lacks the type (RFC 4035 section 5.4).
pub fn check_type(
    alloc: Global,
    reply: &[u8],
    name: &Name,
    record_type: RecordType,
) -> Result<bool, AllocError>
    ensures exact { IfOk result (λ yes. MatchBool yes (DeniesType reply.now name.now record_type) (DeniesType reply.now name.now record_type → ⊥)) }
    ensures memory { IfErr result (λ e. 12 ≤ length reply.now) }
{
    match message_of(alloc, reply)? {
        Some(message) => tells_type(alloc, &message, name, record_type),
        None => Ok(false),
    }
}
