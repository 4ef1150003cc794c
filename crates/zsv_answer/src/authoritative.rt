//! What is answered for a zone that this server answers for (RFC 1034 section 4.3.2).

ghost use Rattle.std.specs.Prelude.{◌≡◌, IfOk};
ghost use Rattle.zst_request.specs.zst_handler.Answers.{additionals_in, answers_in, records_in};
ghost use Rattle.zsv_answer.specs.Consulting.{found_by};
ghost use Rattle.zsv_answer.specs.Parts.{AtOrigin, AuthoritativeParts, BesideAnswer, DeniedParts, is_referral};
ghost use Rattle.zsv_answer.specs.Resolution.{reason_in, resolution_in, resolved};
ghost use Rattle.zsv_answer.specs.Responses.{parts_of};

use crate::denial::{answer_denial, denial_records};
use crate::response::{Response, bare_response, reply_header};
use std::alloc::{AllocError, Global};
use zst_request::{
    AuthLookup, LookupControlFlow, LookupError, LookupOptions, LookupRecords, Name, ZoneHandler,
};
use zsv_reply::{Metadata, RecordType, ResponseCode};

// The records that answer, of a zone or of a message.
fn records_of(found: AuthLookup<'_>) -> LookupRecords<'_>
    ensures { records_in result ≡ answers_in found.entry }
{
    match found {
        AuthLookup::Empty => LookupRecords::Empty,
        AuthLookup::Records { answers, .. } => answers,
        AuthLookup::Response { answers, .. } => LookupRecords::Section(answers),
    }
}

// What a handler found that continues, whatever it is.
#[inline(never)]
fn found_otherwise<'z>(flow: LookupControlFlow<AuthLookup<'z>>) -> LookupRecords<'z>
    ensures { records_in result ≡ found_by flow.entry }
{
    match flow {
        LookupControlFlow::Continue(Ok(found)) => records_of(found),
        _ => LookupRecords::Empty,
    }
}

// What a handler found that continues: most often records of a zone alone.
pub(crate) fn found_by<'z>(flow: LookupControlFlow<AuthLookup<'z>>) -> LookupRecords<'z>
    ensures { records_in result ≡ found_by flow.entry }
{
    match flow {
        LookupControlFlow::Continue(
            Ok(
                AuthLookup::Records {
                    answers,
                    additionals: None,
                },
            ),
        ) => answers,
        other => found_otherwise(other),
    }
}

// What the handler answers at its origin to a type.
fn at_origin<'z, H: ZoneHandler>(
    handler: &'z H,
    alloc: Global,
    options: LookupOptions,
    record_type: RecordType,
) -> Result<LookupRecords<'z>, AllocError>
    ensures { IfOk result (λ found. AtOrigin (H.view handler.now) options.dnssec_ok record_type (records_in found)) }
{
    let flow = handler.lookup_origin(alloc, record_type, options)?;
    Ok(found_by(flow))
}

// With an answer for the zone's start come its name servers, with another what denies.
fn beside_answer<'z, H: ZoneHandler>(
    handler: &'z H,
    alloc: Global,
    options: LookupOptions,
    name: &Name,
    record_type: RecordType,
    answers: &AuthLookup<'_>,
) -> Result<LookupRecords<'z>, AllocError>
    ensures { IfOk result (λ found. BesideAnswer (H.view handler.now) options.dnssec_ok name.now record_type (answers_in answers.now) (records_in found)) }
{
    if record_type == RecordType::SOA {
        at_origin(handler, alloc, options, RecordType::NS)
    } else {
        answer_denial(handler, alloc, options, name, record_type, answers)
    }
}

// Whether what was found is a referral: name servers that weren't asked for.
fn is_referral(record_type: RecordType, found: &AuthLookup<'_>) -> bool
    ensures { result ≡ is_referral record_type (answers_in found.now) }
{
    found.first_type() == Some(RecordType::NS)
        && !(record_type == RecordType::NS || record_type == RecordType::ANY)
}

// An answer: what was found, and the name servers beside the zone's start, or what denies.
fn answered_response<'z, H: ZoneHandler>(
    handler: &'z H,
    alloc: Global,
    request: Metadata,
    options: LookupOptions,
    name: &Name,
    record_type: RecordType,
    found: AuthLookup<'z>,
) -> Result<Response<'z>, AllocError>
    ensures parts { IfOk result (λ r. AuthoritativeParts (H.view handler.now) request options.dnssec_ok name.now record_type
        (resolved (answers_in found.entry) (additionals_in found.entry)) (parts_of r)) }
    ensures operation { IfOk result (λ r. r.metadata.op_code ≡ request.op_code) }
{
    let beside = beside_answer(handler, alloc, options, name, record_type, &found)?;
    Ok(Response {
        metadata: reply_header(request, true, ResponseCode::NoError),
        is_referral: is_referral(record_type, &found),
        is_forwarded: false,
        asked: None,
        found,
        denial: LookupRecords::Empty,
        beside,
    })
}

// A denial: what denies, and the zone's start.
fn denial_response<'z, H: ZoneHandler>(
    handler: &'z H,
    alloc: Global,
    request: Metadata,
    options: LookupOptions,
    name: &Name,
    record_type: RecordType,
    response_code: ResponseCode,
) -> Result<Response<'z>, AllocError>
    ensures parts { IfOk result (λ r. DeniedParts (H.view handler.now) request options.dnssec_ok name.now record_type response_code (parts_of r)) }
    ensures operation { IfOk result (λ r. r.metadata.op_code ≡ request.op_code) }
{
    let denial = denial_records(handler, alloc, options, name, record_type, false)?;
    let beside = at_origin(handler, alloc, options, RecordType::SOA)?;
    Ok(Response {
        metadata: reply_header(request, true, response_code),
        found: AuthLookup::Empty,
        is_referral: false,
        is_forwarded: false,
        asked: None,
        denial,
        beside,
    })
}

// Why nothing was found: the origin's SOA, with or without a name error; or a refusal alone.
fn denied_response<'z, H: ZoneHandler>(
    handler: &'z H,
    alloc: Global,
    request: Metadata,
    options: LookupOptions,
    name: &Name,
    record_type: RecordType,
    why: &LookupError,
) -> Result<Response<'z>, AllocError>
    ensures parts { IfOk result (λ r. AuthoritativeParts (H.view handler.now) request options.dnssec_ok name.now record_type (reason_in why.now) (parts_of r)) }
    ensures operation { IfOk result (λ r. r.metadata.op_code ≡ request.op_code) }
{
    match why {
        LookupError::ResponseCode(ResponseCode::NXDomain) => {
            let code = ResponseCode::NXDomain;
            denial_response(handler, alloc, request, options, name, record_type, code)
        }
        LookupError::ResponseCode(ResponseCode::Refused) => {
            Ok(bare_response(reply_header(request, true, ResponseCode::Refused)))
        }
        LookupError::ResponseCode(ResponseCode::NotAuth) => {
            Ok(bare_response(reply_header(request, true, ResponseCode::NotAuth)))
        }
        _ => {
            let code = ResponseCode::NoError;
            denial_response(handler, alloc, request, options, name, record_type, code)
        }
    }
}

// The zone's own answer, of what was found for the question, or why there is nothing.
pub(crate) fn authoritative_response<'z, H: ZoneHandler>(
    handler: &'z H,
    alloc: Global,
    request: Metadata,
    options: LookupOptions,
    name: &Name,
    record_type: RecordType,
    told: Result<AuthLookup<'z>, LookupError>,
) -> Result<Response<'z>, AllocError>
    ensures parts { IfOk result (λ r. AuthoritativeParts (H.view handler.now) request options.dnssec_ok name.now record_type (resolution_in told.entry) (parts_of r)) }
    ensures operation { IfOk result (λ r. r.metadata.op_code ≡ request.op_code) }
{
    match told {
        Ok(found) => answered_response(handler, alloc, request, options, name, record_type, found),
        Err(why) => denied_response(handler, alloc, request, options, name, record_type, &why),
    }
}
