//! The records that deny a name or a type in a reply (RFC 4035 section 3.1.3, RFC 5155 section 7.2).

ghost use Rattle.std.specs.Prelude.{◌≡◌, IfOk, option_copied, option_map};
ghost use Rattle.zst_request.specs.dnw_codes.declared.record_type.RecordType.TheVariants as kind;
ghost use Rattle.zst_request.specs.dnw_name.DomainName.{num_labels};
ghost use Rattle.zst_request.specs.zst_denial.Octets.{octets_of};
ghost use Rattle.zst_request.specs.zst_handler.Answers.{answers_in, records_in};
ghost use Rattle.zsv_answer.specs.DenialRecords.{AnswerDenial, DenialRecords, is_by_hash, is_expanded, is_fewer, signed_labels};
ghost use Rattle.zsv_answer.specs.zsv_reply.zst_record.Lending.{seen};

use crate::authoritative::found_by;
use std::alloc::{AllocError, Global};
use zst_request::{
    AuthLookup, LookupOptions, LookupRecords, LowerName, Name, Nsec3QueryInfo, NxProofKind, RData,
    RecordRef, RecordType, ZoneHandler,
};

// The octets of an RRSIG's RDATA.
fn rrsig_octets(rdata: &RData) -> Option<&[u8]>
    ensures { option_map (λ octets. octets.now) result ≡ octets_of kind.RRSIG rdata.now }
{
    match rdata {
        RData::Unknown { code, rdata } => {
            if *code == RecordType::RRSIG {
                Some(&rdata.anything)
            } else {
                None
            }
        }
        _ => None,
    }
}

// How many labels the name had that an RRSIG was made for (RFC 4034 section 3.1.3).
fn signed_labels(rdata: &RData) -> Option<u8>
    ensures { result ≡ signed_labels rdata.now }
{
    match rrsig_octets(rdata) {
        Some(octets) => octets.get(3).copied(),
        None => None,
    }
}

// Whether a record is a signature of a wildcard's records under another name.
fn is_from_wildcard(record: &RecordRef<'_>) -> bool
    ensures { result ≡ is_fewer (signed_labels (seen record.now).rdata) (num_labels (seen record.now).name) }
{
    match signed_labels(record.rdata) {
        Some(count) => count < record.name.num_labels(),
        None => false,
    }
}

// Whether an answer is a wildcard's, by its signatures (RFC 4035 section 5.3.4).
fn is_expanded(answers: &AuthLookup<'_>) -> bool
    ensures { result ≡ is_expanded (answers_in answers.now) }
{
    let mut left = answers.iter();
    'records: while let Some(record) = left.next() {
        if is_from_wildcard(&record) {
            return true;
        }
    }
    false
}

// The records that deny a name or a type, by the zone's kind of proof.
pub(crate) fn denial_records<'z, H: ZoneHandler>(
    handler: &'z H,
    alloc: Global,
    options: LookupOptions,
    name: &Name,
    record_type: RecordType,
    has_wildcard_match: bool,
) -> Result<LookupRecords<'z>, AllocError>
    ensures { IfOk result (λ found. DenialRecords (H.view handler.now) options.dnssec_ok name.now record_type has_wildcard_match (records_in found)) }
{
    if !options.dnssec_ok {
        return Ok(LookupRecords::Empty);
    }
    match handler.nx_proof_kind() {
        None => Ok(LookupRecords::Empty),
        Some(NxProofKind::Nsec) => {
            let flow = handler.nsec_records(alloc, name, options)?;
            Ok(found_by(flow))
        }
        Some(
            NxProofKind::Nsec3 {
                algorithm,
                salt,
                iterations,
                ..
            },
        ) => {
            let qname = LowerName::new(name)?;
            let info = Nsec3QueryInfo {
                qname: &qname,
                qtype: record_type,
                has_wildcard_match,
                algorithm: *algorithm,
                salt,
                iterations: *iterations,
            };
            let flow = handler.nsec3_records(alloc, info, options)?;
            Ok(found_by(flow))
        }
    }
}

// What denies beside an answer: that the name itself has none, where a wildcard answers; and by hash also else.
pub(crate) fn answer_denial<'z, H: ZoneHandler>(
    handler: &'z H,
    alloc: Global,
    options: LookupOptions,
    name: &Name,
    record_type: RecordType,
    answers: &AuthLookup<'_>,
) -> Result<LookupRecords<'z>, AllocError>
    ensures { IfOk result (λ found. AnswerDenial (H.view handler.now) options.dnssec_ok name.now record_type (answers_in answers.now) (records_in found)) }
{
    if !options.dnssec_ok {
        return Ok(LookupRecords::Empty);
    }
    let is_wildcard = is_expanded(answers);
    if !is_wildcard && !is_by_hash(handler.nx_proof_kind()) {
        return Ok(LookupRecords::Empty);
    }
    denial_records(handler, alloc, options, name, record_type, is_wildcard)
}

// Whether the zone's proofs are by hash.
fn is_by_hash(kind: Option<&NxProofKind>) -> bool
    ensures { result ≡ is_by_hash (option_copied kind.entry) }
{
    matches!(kind, Some(NxProofKind::Nsec3 { .. }))
}
