//! What is answered for a zone of another server.

ghost use Rattle.std.specs.Prelude.{◌≡◌, Bool, [], false};
ghost use Rattle.zst_request.specs.dnw_codes.declared.record_type.RecordType.{RecordType};
ghost use Rattle.zst_request.specs.zst_handler.Answers.{answers_in};
ghost use Rattle.zsv_answer.specs.Forwarding.{ForwardedParts, forwarded_metadata, resolved_parts};
ghost use Rattle.zsv_answer.specs.Resolution.{reason_in, resolution_in};
ghost use Rattle.zsv_answer.specs.Responses.{parts_of, parts_with};
ghost use Rattle.zsv_answer.specs.Shown.{hidden_but, shown_if};

use crate::response::{Response, bare_response, reply_header};
use zst_request::{AuthLookup, LookupError, LookupOptions, LookupRecords};
use zsv_reply::{Metadata, RecordType, ResponseCode};

// The header of a reply that is forwarded: it says that recursion is available.
fn forwarded_header(request: Metadata, response_code: ResponseCode) -> Metadata
    ensures { result ≡ forwarded_metadata request response_code }
{
    let mut metadata = reply_header(request, false, response_code);
    metadata.recursion_available = true;
    metadata
}

// The type for which alone records of signed zones are shown, if they aren't asked for.
fn hidden_but(options: LookupOptions, record_type: RecordType) -> Option<RecordType>
    ensures { result ≡ hidden_but options.dnssec_ok record_type }
{
    if options.dnssec_ok {
        None
    } else {
        Some(record_type)
    }
}

// What was found, without what goes with it.
fn found_response<'z>(
    request: Metadata,
    asked: Option<RecordType>,
    found: AuthLookup<'z>,
) -> Response<'z>
    ensures parts { parts_of result ≡ parts_with (forwarded_metadata request ResponseCode.NoError) false (shown_if asked (answers_in found.entry)) [] [] }
    ensures operation { result.metadata.op_code ≡ request.op_code }
{
    Response {
        metadata: forwarded_header(request, ResponseCode::NoError),
        found,
        is_referral: false,
        is_forwarded: true,
        asked,
        denial: LookupRecords::Empty,
        beside: LookupRecords::Empty,
    }
}

// Why nothing was found: a name error stays one, and any other error is the server's failure.
fn unresolved_response<'z>(request: Metadata, why: &LookupError) -> Response<'z>
    ensures parts { (dnssec_ok : Bool) (record_type : RecordType) → parts_of result ≡ resolved_parts request dnssec_ok record_type (reason_in why.now) }
    ensures operation { result.metadata.op_code ≡ request.op_code }
{
    match why {
        LookupError::ResponseCode(ResponseCode::NXDomain) => {
            bare_response(forwarded_header(request, ResponseCode::NXDomain))
        }
        _ => bare_response(forwarded_header(request, ResponseCode::ServFail)),
    }
}

// What was found, or why there is nothing, where recursion is desired.
fn resolved_response<'z>(
    request: Metadata,
    options: LookupOptions,
    record_type: RecordType,
    told: Result<AuthLookup<'z>, LookupError>,
) -> Response<'z>
    ensures parts { parts_of result ≡ resolved_parts request options.dnssec_ok record_type (resolution_in told.entry) }
    ensures operation { result.metadata.op_code ≡ request.op_code }
{
    match told {
        Ok(found) => found_response(request, hidden_but(options, record_type), found),
        Err(why) => unresolved_response(request, &why),
    }
}

// What is answered for a name of another server: it is refused where recursion isn't desired.
pub(crate) fn forwarded_response<'z>(
    request: Metadata,
    options: LookupOptions,
    record_type: RecordType,
    told: Result<AuthLookup<'z>, LookupError>,
) -> Response<'z>
    ensures parts { ForwardedParts request options.dnssec_ok record_type (resolution_in told.entry) (parts_of result) }
    ensures operation { result.metadata.op_code ≡ request.op_code }
{
    if !request.recursion_desired {
        return bare_response(forwarded_header(request, ResponseCode::Refused));
    }
    resolved_response(request, options, record_type, told)
}
