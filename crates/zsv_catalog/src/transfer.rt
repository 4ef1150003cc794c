//! Transfers of zones, served (RFC 5936).

ghost use Rattle.std.specs.Prelude.{◌≡◌, ◌≤◌, IfOk, IfSome, None, Some, if◌then◌else◌, length, option_copied, option_map};
ghost use Rattle.zsv_answer.specs.Transferring.{response_parts};
ghost use Rattle.zsv_answer.specs.zst_request.Requested.{asked_of, context_of};
ghost use Rattle.zsv_answer.specs.zst_request.dnw_codes.RecordType.{same_record_type};
ghost use Rattle.zsv_answer.specs.zst_request.dnw_codes.declared.record_type.RecordType.TheVariants.{AXFR};
ghost use Rattle.zsv_answer.specs.zsv_reply.Writing.{SendsParts, with_edns};
ghost use Rattle.zsv_catalog.specs.Catalogs.{RepliesPlain, SendsSigned, asked_of_query, asked_of_transfer, asks_for_dnssec, entry_context, entry_parts, is_served_query, served_transfer, transfer_question};
ghost use Rattle.zsv_update.specs.zsv_chains.Chains.{entry_for, views_of};

use drd_types::NSIDPayload;
use std::alloc::{AllocError, Global};
use std::net::SocketAddr;
use zsv_answer::{
    Edns, LookupOptions, LowerName, MessageRequest, MessageType, OpCode, Protocol, Queries, Query,
    RecordType, ResponseCode, ResponseInfo, TransferResponse, TsigRecord, TsigVerdict, ZoneHandler,
    ZoneRequest, encode_transfer, transfer_error, transfer_response,
};
use zsv_update::{
    Chains, Received, TsigSuite, encode_empty, has_other_version, reply_edns, sign_octets, tsig_of,
    verdict_on,
};

/// The question of a query for a transfer.
pub(crate) fn transfer_question<'q>(message: &'q MessageRequest<'_>) -> Option<&'q Query>
    ensures { option_copied result ≡ transfer_question message.now.asked.questions }
{
    match message.queries().queries() {
        [question] => if_transfer(question),
        _ => None,
    }
}

// A question, if it is one for a transfer.
fn if_transfer(question: &Query) -> Option<&Query>
    ensures { option_copied result ≡ (if same_record_type question.now.query_type AXFR then Some question.now else None) }
{
    if question.query_type == RecordType::AXFR {
        Some(question)
    } else {
        None
    }
}

// Whether a message is served as a query.
fn is_served_query(message: &MessageRequest<'_>) -> bool
    ensures { result ≡ is_served_query message.now }
{
    let metadata = message.metadata();
    !has_other_version(message.edns())
        && metadata.message_type == MessageType::Query
        && metadata.op_code == OpCode::Query
}

/// The question of a message that is served as a query for a transfer.
pub(crate) fn served_transfer<'q>(message: &'q MessageRequest<'_>) -> Option<&'q Query>
    ensures { option_copied result ≡ served_transfer message.now }
{
    if !is_served_query(message) {
        return None;
    }
    transfer_question(message)
}

/// A question as the handlers of its name are asked it. A signature isn't tested.
pub(crate) fn asked<'q>(
    alloc: Global,
    message: &'q MessageRequest<'_>,
    question: &'q Query,
    src: SocketAddr,
) -> ZoneRequest<'q>
    ensures { asked_of result ≡ asked_of_query message.now src question.now }
{
    let tsig = match message.signature() {
        Some(signature) => Some(tsig_of(signature)),
        None => None,
    };
    ZoneRequest {
        name: &question.name,
        query_type: question.query_type,
        id: message.metadata().id,
        source: src,
        tsig,
        verdict: TsigVerdict::UnknownKey,
        prerequisites: &[],
        updates: Vec::new(alloc),
    }
}

// A question for a transfer, as the handlers of the zone of this name are asked it.
fn asked_for_transfer<'q, S: TsigSuite>(
    suite: &S,
    alloc: Global,
    message: &'q MessageRequest<'_>,
    question: &'q Query,
    zone: &LowerName,
    received: Received<'_>,
) -> ZoneRequest<'q>
    ensures { asked_of result ≡ asked_of_transfer (S.keys suite.now) message.now received.entry.source received.entry.octets.now
        received.entry.now question.now zone.now }
{
    let mut request = asked(alloc, message, question, received.source);
    request.verdict = verdict_on(suite, zone, message.signature(), received);
    request
}

/// The reply to a question for a transfer, by the chain registered under the nearest name from the question's up. The suite is
/// asked about a signature once.
pub(crate) fn response_to_transfer<'z, S: TsigSuite, H: ZoneHandler>(
    suite: &S,
    chains: &'z Chains<H>,
    alloc: Global,
    message: &MessageRequest<'_>,
    question: &Query,
    received: Received<'_>,
) -> Result<TransferResponse<'z>, AllocError>
    ensures parts { IfOk result (λ r. response_parts r ≡ entry_parts message.now.metadata (asks_for_dnssec message.now.edns)
        (asked_of_transfer (S.keys suite.now) message.now received.entry.source received.entry.octets.now received.entry.now question.now)
        (entry_for (views_of H.view chains.now.chains) question.now.name)) }
    ensures context { IfOk result (λ r. option_map context_of r.context ≡ entry_context
        (asked_of_transfer (S.keys suite.now) message.now received.entry.source received.entry.octets.now received.entry.now question.now)
        received.entry.now (entry_for (views_of H.view chains.now.chains) question.now.name)) }
{
    let metadata = message.metadata();
    let Some((key, zone)) = chains.registered(alloc, &question.name)? else {
        return Ok(transfer_error(metadata, ResponseCode::Refused));
    };
    let Some(handlers) = chains.find_at(key.borrow()) else {
        return Ok(transfer_error(metadata, ResponseCode::ServFail));
    };
    let options = LookupOptions::from_edns(message.edns());
    let request = asked_for_transfer(suite, alloc, message, question, &zone, received);
    transfer_response(handlers, alloc, metadata, options, &request, received.now)
}

// The octets of a reply with these options and this signature, within the limit of its transport, and its header as it was
// written.
fn encode_response(
    alloc: Global,
    response: &TransferResponse<'_>,
    edns: Option<&Edns>,
    signature: Option<&TsigRecord>,
    queries: &Queries<'_>,
    protocol: Protocol,
) -> Result<(ResponseInfo, Vec<u8>), AllocError>
    ensures { IfOk result (λ sent. SendsParts (record (with_edns (option_copied edns.entry) (response_parts response.now)) {
      signature = option_copied signature.entry;
    }) queries.now protocol sent.0 sent.1.items) }
{
    let metadata = response.metadata;
    match &response.transfer {
        Some(transfer) => encode_transfer(
            alloc, metadata, transfer, edns, signature, queries, protocol,
        ),
        None => encode_empty(alloc, metadata, edns, signature, queries, protocol),
    }
}

/// The octets of the reply with these options, and its header as it was written. With a context it is signed, over the octets
/// that the limit of its transport doesn't cut (RFC 8945 section 5.3); if no key signs it, it says that the server failed.
pub(crate) fn encode_signed<S: TsigSuite>(
    suite: &S,
    alloc: Global,
    response: &TransferResponse<'_>,
    edns: Option<&Edns>,
    message: &MessageRequest<'_>,
    protocol: Protocol,
) -> Result<(ResponseInfo, Vec<u8>), AllocError>
    ensures { IfOk result (λ sent. SendsSigned (S.keys suite.now) message.now (response_parts response.now)
        (option_map context_of response.now.context) (option_copied edns.entry) protocol sent.0 sent.1.items) }
{
    let queries = message.queries();
    let Some(context) = &response.context else {
        return encode_response(alloc, response, edns, None, queries, protocol);
    };
    let (_info, unsigned) = encode_response(alloc, response, edns, None, queries, Protocol::Tcp)?;
    match sign_octets(suite, alloc, context, &unsigned)? {
        Some(tsig) => encode_response(alloc, response, edns, Some(&tsig), queries, protocol),
        None => {
            let failure = transfer_error(message.metadata(), ResponseCode::ServFail);
            encode_response(alloc, &failure, edns, None, queries, protocol)
        }
    }
}

/// The reply of these chains to a message that is served as a query for a transfer, and its header as it was written, within the
/// limit of its transport.
pub(crate) fn transfer_reply<S: TsigSuite, H: ZoneHandler>(
    suite: &S,
    chains: &Chains<H>,
    nsid: Option<&NSIDPayload>,
    alloc: Global,
    message: &MessageRequest<'_>,
    question: &Query,
    received: Received<'_>,
) -> Result<(ResponseInfo, Vec<u8>), AllocError>
    requires { served_transfer message.now ≡ Some question.now }
    ensures { IfOk result (λ sent. RepliesPlain (views_of H.view chains.now.chains) (option_copied nsid.entry) (S.keys suite.now) message.now
        received.entry.source received.entry.octets.now received.entry.now received.entry.protocol sent.0 sent.1.items) }
{
    let (_octets, _questions) = (nsid_octets(nsid), message.queries().queries());
    let response = response_to_transfer(suite, chains, alloc, message, question, received)?;
    let code = response.metadata.response_code;
    let edns = reply_edns(alloc, message.edns(), nsid, code)?;
    encode_signed(
        suite,
        alloc,
        &response,
        edns.as_ref(),
        message,
        received.protocol,
    )
}

/// The octets of an NSID, for which an option has room.
pub(crate) fn nsid_octets<'n>(nsid: Option<&'n NSIDPayload>) -> &'n [u8]
    ensures { IfSome (option_copied nsid.entry) (λ octets. length octets ≤ 65531) }
{
    match nsid {
        Some(payload) => payload.as_ref(),
        None => &[],
    }
}
