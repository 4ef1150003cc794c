//! What a full reply to a question holds, by the chain of handlers for its name.

ghost use Rattle.std.specs.Prelude.{◌≡◌, false, IfOk, map};
ghost use Rattle.zst_request.specs.dnw_codes.RecordType.{same_record_type};
ghost use Rattle.zst_request.specs.dnw_codes.declared.record_type.RecordType.TheVariants.{AXFR};
ghost use Rattle.zst_request.specs.dnw_name.DomainName.{lowercase_name};
ghost use Rattle.zst_request.specs.Views.{zone_type_of};
ghost use Rattle.zsv_answer.specs.Parts.{ChainParts, PartsAs};
ghost use Rattle.zsv_answer.specs.Resolution.{resolution_in};
ghost use Rattle.zsv_answer.specs.Responses.{parts_of};

use crate::authoritative::authoritative_response;
use crate::consult::answer_of;
use crate::forwarded::forwarded_response;
use crate::response::{Response, error_response};
use std::alloc::{AllocError, Global};
use zst_request::{
    AuthLookup, LookupError, LookupOptions, Name, NameKey, RecordType, ResponseCode, ZoneHandler,
    ZoneRequest, ZoneType,
};
use zsv_reply::Metadata;

// What a handler's result is replied as: by what the server is to its zone.
fn handler_response<'z, H: ZoneHandler>(
    handler: &'z H,
    alloc: Global,
    metadata: Metadata,
    options: LookupOptions,
    name: &Name,
    record_type: RecordType,
    told: Result<AuthLookup<'z>, LookupError>,
) -> Result<Response<'z>, AllocError>
    ensures parts { IfOk result (λ r. PartsAs (zone_type_of (H.view handler.now)) (H.view handler.now) metadata options.dnssec_ok name.now record_type
        (resolution_in told.entry) (parts_of r)) }
    ensures operation { IfOk result (λ r. r.metadata.op_code ≡ metadata.op_code) }
{
    match handler.zone_type() {
        ZoneType::External => Ok(forwarded_response(metadata, options, record_type, told)),
        ZoneType::Primary | ZoneType::Secondary => {
            authoritative_response(handler, alloc, metadata, options, name, record_type, told)
        }
    }
}

/// What a full reply to a request holds, by the chain of handlers for the name that it asks for; transfers aside. It repeats
/// what the request's header says. The key is that of the name.
pub fn chain_response<'z, H: ZoneHandler>(
    handlers: &'z [H],
    alloc: Global,
    key: &NameKey,
    metadata: Metadata,
    options: LookupOptions,
    request: &ZoneRequest<'_>,
) -> Result<Response<'z>, AllocError>
    requires key { key.now ≡ lowercase_name request.now.name.now }
    requires kind { same_record_type request.now.query_type AXFR ≡ false }
    ensures parts { IfOk result (λ r. ChainParts (map H.view handlers.now) metadata options.dnssec_ok
        request.now.name.now request.now.query_type (parts_of r)) }
    ensures operation { IfOk result (λ r. r.metadata.op_code ≡ metadata.op_code) }
{
    match answer_of(handlers, alloc, key, request, options)? {
        Some((handler, told)) => handler_response(
            handler,
            alloc,
            metadata,
            options,
            request.name,
            request.query_type,
            told,
        ),
        None => Ok(error_response(metadata, ResponseCode::ServFail)),
    }
}
