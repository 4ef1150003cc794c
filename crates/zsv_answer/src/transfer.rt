//! Transfers of zones (RFC 5936 section 2.2).

ghost use Rattle.std.specs.Prelude.{◌≡◌, [], None, false, IfOk, IsOk, map, option_copied, option_map};
ghost use Rattle.zst_request.specs.Handed.{transfer_records};
ghost use Rattle.zst_request.specs.Requested.{asked_of, context_of};
ghost use Rattle.zsv_answer.specs.Responses.{parts_with};
ghost use Rattle.zsv_answer.specs.Transferring.{TransfersFound, answer_parts, failure_code, response_parts, transferring, zone_context, zone_parts};
ghost use Rattle.zsv_answer.specs.zsv_reply.Writing.{SendsParts, error_parts, with_edns};

use crate::response::reply_header;
use std::alloc::{AllocError, Global};
use std::iter;
use zst_request::{
    LookupError, LookupOptions, TSigResponseContext, ZoneHandler, ZoneRequest, ZoneTransfer,
};
use zsv_reply::{
    Edns, MessageResponseBuilder, Metadata, Protocol, Queries, Record, ResponseCode, ResponseInfo,
    TsigRecord,
};

/// The reply to a question for a transfer.
#[derive(Drop)]
pub struct TransferResponse<'z> {
    /// The header, without its counts.
    pub metadata: Metadata,
    /// The zone, if it is transferred.
    pub transfer: Option<ZoneTransfer<'z>>,
    /// What the reply is signed with, if it is to be signed.
    pub context: Option<TSigResponseContext>,
}

/// The octets of a reply with the records of a zone, these options and this signature, within the limit of its transport, and
/// its header as it was written: as many of the records as fit, in order.
pub fn encode_transfer(
    alloc: Global,
    metadata: Metadata,
    transfer: &ZoneTransfer<'_>,
    edns: Option<&Edns>,
    signature: Option<&TsigRecord>,
    queries: &Queries<'_>,
    protocol: Protocol,
) -> Result<(ResponseInfo, Vec<u8>), AllocError>
    ensures { IfOk result (λ sent. SendsParts (record (with_edns (option_copied edns.entry) (parts_with metadata false (transfer_records transfer.now) [] [])) {
      signature = option_copied signature.entry;
    }) queries.now protocol sent.0 sent.1.items) }
{
    let mut response = MessageResponseBuilder::new(queries, edns).build(
        metadata,
        transfer.iter(),
        iter::empty::<&Record>(),
        iter::empty::<&Record>(),
        iter::empty::<&Record>(),
    );
    let Some(signature) = signature else {
        return response.encode(alloc, protocol);
    };
    response.set_signature(signature);
    response.encode(alloc, protocol)
}

// What the first handler of a chain answers that has a zone. It takes no memory where the reply isn't signed.
fn first_transfer<'z, H: ZoneHandler>(
    handlers: &'z [H],
    alloc: Global,
    request: &ZoneRequest<'_>,
    options: LookupOptions,
    now: u64,
) -> Result<
    Option<
        (
            Result<ZoneTransfer<'z>, LookupError>,
            Option<TSigResponseContext>,
        ),
    >,
    AllocError,
>
    ensures found { IfOk result (TransfersFound (transferring (map H.view handlers.now)) (asked_of request.now) options.dnssec_ok now) }
    ensures unsigned { zone_context (asked_of request.now) now (transferring (map H.view handlers.now)) ≡ None → IsOk result }
{
    let mut rest = handlers;
    'handlers: while let Some((first, later)) = rest.split_first() {
        if let Some(answer) = first.zone_transfer(alloc, request, options, now)? {
            return Ok(Some(answer));
        }
        rest = later;
    }
    Ok(None)
}

// The response code where no zone is transferred.
fn failure_code(why: &LookupError) -> ResponseCode
    ensures { result ≡ failure_code why.now }
{
    match why {
        LookupError::ResponseCode(ResponseCode::Refused) => ResponseCode::Refused,
        LookupError::ResponseCode(ResponseCode::NotAuth) => ResponseCode::NotAuth,
        LookupError::ResponseCode(ResponseCode::NXDomain) => ResponseCode::NXDomain,
        _ => ResponseCode::NoError,
    }
}

// The response by the answer of a handler.
fn answered<'z>(
    metadata: Metadata,
    answer: Result<ZoneTransfer<'z>, LookupError>,
    context: Option<TSigResponseContext>,
) -> TransferResponse<'z>
    ensures parts { response_parts result ≡ answer_parts metadata answer.entry }
    ensures context { result.context ≡ context }
{
    match answer {
        Ok(transfer) => TransferResponse {
            metadata: reply_header(metadata, true, ResponseCode::NoError),
            transfer: Some(transfer),
            context,
        },
        Err(why) => TransferResponse {
            metadata: reply_header(metadata, false, failure_code(&why)),
            transfer: None,
            context,
        },
    }
}

/// A response code alone, in an unsigned reply.
pub fn transfer_error(metadata: Metadata, response_code: ResponseCode) -> TransferResponse<'static>
    ensures parts { response_parts result ≡ error_parts metadata response_code }
    ensures context { result.context ≡ None }
{
    TransferResponse {
        metadata: reply_header(metadata, false, response_code),
        transfer: None,
        context: None,
    }
}

/// The reply of a chain of handlers to a request for a transfer. It repeats what the request's header says. It takes no memory
/// where the reply isn't signed. The moment is given in seconds since 1970.
pub fn transfer_response<'z, H: ZoneHandler>(
    handlers: &'z [H],
    alloc: Global,
    metadata: Metadata,
    options: LookupOptions,
    request: &ZoneRequest<'_>,
    now: u64,
) -> Result<TransferResponse<'z>, AllocError>
    ensures parts { IfOk result (λ r. response_parts r ≡ zone_parts metadata options.dnssec_ok (asked_of request.now) (transferring (map H.view handlers.now))) }
    ensures context { IfOk result (λ r. option_map context_of r.context ≡ zone_context (asked_of request.now) now (transferring (map H.view handlers.now))) }
    ensures unsigned { zone_context (asked_of request.now) now (transferring (map H.view handlers.now)) ≡ None → IsOk result }
{
    match first_transfer(handlers, alloc, request, options, now)? {
        Some((answer, context)) => Ok(answered(metadata, answer, context)),
        None => Ok(transfer_error(metadata, ResponseCode::ServFail)),
    }
}
