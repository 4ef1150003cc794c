//! What chains of handlers answer to a request (RFC 1034 section 4.3.2).

ghost use Rattle.std.specs.Prelude.{◌≡◌, IfErr, IfOk, None, false, option_copied};
ghost use Rattle.zsv_answer.specs.Responses.{parts_of};
ghost use Rattle.zsv_answer.specs.zst_request.Updating.{Asked};
ghost use Rattle.zsv_answer.specs.zst_request.dnw_codes.RecordType.{same_record_type};
ghost use Rattle.zsv_answer.specs.zst_request.dnw_codes.declared.record_type.RecordType.TheVariants.{AXFR};
ghost use Rattle.zsv_answer.specs.zst_request.dnw_name.DomainName.{DomainName};
ghost use Rattle.zsv_answer.specs.zsv_reply.zsv_message.zsv_parts.declared.question.Query.{Query as Question};
ghost use Rattle.zsv_catalog.specs.Catalogs.{AnswersQuery, KindParts, PartsOf, PlainParts, QueryParts, QuestionParts, RefusesBy, RepliesBy, RepliesPlain, SendsWith, is_served_update, left_of, served_transfer, transfer_question};
ghost use Rattle.zsv_catalog.specs.Requests.{RefusesRequest, RepliesToRequest};
ghost use Rattle.zsv_update.specs.zsv_chains.Chains.{views_of};

use crate::copies::copies;
use crate::transfer::{
    asked, encode_signed, nsid_octets, response_to_transfer, served_transfer, transfer_question,
    transfer_reply,
};
use drd_types::NSIDPayload;
use std::alloc::{AllocError, Global};
use std::mem;
use std::net::SocketAddr;
use zsv_answer::{
    Edns, LookupOptions, MessageRequest, MessageType, OpCode, Protocol, Query, Request, Response,
    ResponseCode, ResponseInfo, ZoneHandler, chain_response, error_response,
};
use zsv_update::{
    Chains, NameKey, Received, ServiceFault, TsigSuite, has_other_version, reply_edns, update_by,
};

// One question for no transfer: refused where there is no chain for the name.
fn question_response<'z, H: ZoneHandler>(
    chains: &'z Chains<H>,
    alloc: Global,
    message: &MessageRequest<'_>,
    src: SocketAddr,
    options: LookupOptions,
    question: &Query,
) -> Result<Response<'z>, AllocError>
    requires { same_record_type question.now.query_type AXFR ≡ false }
    ensures parts { IfOk result (λ r. (asks : DomainName → Asked) → QuestionParts (views_of H.view chains.now.chains)
        message.now.metadata options.dnssec_ok asks question.now (parts_of r)) }
    ensures operation { IfOk result (λ r. r.metadata.op_code ≡ message.now.metadata.op_code) }
{
    let metadata = message.metadata();
    let key = NameKey::of(alloc, &question.name)?;
    let Some(handlers) = chains.find_at(key.borrow()) else {
        return Ok(error_response(metadata, ResponseCode::Refused));
    };
    let request = asked(alloc, message, question, src);
    chain_response(handlers, alloc, &key, metadata, options, &request)
}

// A query, for no transfer: it asks one question.
fn query_response<'z, H: ZoneHandler>(
    chains: &'z Chains<H>,
    alloc: Global,
    message: &MessageRequest<'_>,
    src: SocketAddr,
    options: LookupOptions,
) -> Result<Response<'z>, AllocError>
    requires { transfer_question message.now.asked.questions ≡ None }
    ensures parts { IfOk result (λ r. (asks : Question → DomainName → Asked) → QueryParts (views_of H.view chains.now.chains)
        message.now.metadata options.dnssec_ok asks message.now.asked.questions (parts_of r)) }
    ensures operation { IfOk result (λ r. r.metadata.op_code ≡ message.now.metadata.op_code) }
{
    match message.queries().queries() {
        [question] => question_response(chains, alloc, message, src, options, question),
        _ => Ok(error_response(message.metadata(), ResponseCode::FormErr)),
    }
}

// What a full reply to a message holds beside its options, whose version is served: only queries are answered.
fn kind_response<'z, H: ZoneHandler>(
    chains: &'z Chains<H>,
    alloc: Global,
    message: &MessageRequest<'_>,
    src: SocketAddr,
    options: LookupOptions,
) -> Result<Response<'z>, AllocError>
    requires { message.now.metadata.message_type ≡ MessageType.Query → message.now.metadata.op_code ≡ OpCode.Query
        → transfer_question message.now.asked.questions ≡ None }
    ensures parts { IfOk result (λ r. (asks : Question → DomainName → Asked) → KindParts (views_of H.view chains.now.chains) message.now.metadata
        options.dnssec_ok asks message.now.metadata.message_type message.now.asked.questions (parts_of r)) }
    ensures operation { IfOk result (λ r. r.metadata.op_code ≡ message.now.metadata.op_code) }
{
    let metadata = message.metadata();
    match (metadata.message_type, metadata.op_code) {
        (MessageType::Response, _) => Ok(error_response(metadata, ResponseCode::FormErr)),
        (MessageType::Query, OpCode::Query) => {
            query_response(chains, alloc, message, src, options)
        }
        (MessageType::Query, _) => Ok(error_response(metadata, ResponseCode::NotImp)),
    }
}

// What a full reply to a request for no transfer holds beside its options.
fn response_to<'z, H: ZoneHandler>(
    chains: &'z Chains<H>,
    alloc: Global,
    message: &MessageRequest<'_>,
    src: SocketAddr,
) -> Result<Response<'z>, AllocError>
    requires { served_transfer message.now ≡ None }
    ensures parts { IfOk result (λ r. (asks : Question → DomainName → Asked) → PlainParts (views_of H.view chains.now.chains) asks message.now (parts_of r)) }
    ensures operation { IfOk result (λ r. r.metadata.op_code ≡ message.now.metadata.op_code) }
{
    if has_other_version(message.edns()) {
        return Ok(error_response(message.metadata(), ResponseCode::BADVERS));
    }
    let options = LookupOptions::from_edns(message.edns());
    kind_response(chains, alloc, message, src, options)
}

// The octets of a response with the options that answer a request's, and its header as it was written.
fn sent_by(
    response: &Response<'_>,
    nsid: Option<&NSIDPayload>,
    alloc: Global,
    message: &MessageRequest<'_>,
    protocol: Protocol,
) -> Result<(ResponseInfo, Vec<u8>), AllocError>
    ensures { IfOk result (λ sent. SendsWith (parts_of response.now) (option_copied nsid.entry) message.now protocol sent.0 sent.1.items) }
{
    let code = response.metadata.response_code;
    let edns = reply_edns(alloc, message.edns(), nsid, code)?;
    response.encode(alloc, edns.as_ref(), message.queries(), protocol)
}

// Whether a message is served as an update.
fn is_served_update(message: &MessageRequest<'_>) -> bool
    ensures { result ≡ is_served_update message.now }
{
    let metadata = message.metadata();
    !has_other_version(message.edns())
        && metadata.message_type == MessageType::Query
        && metadata.op_code == OpCode::Update
}

// The reply of these chains to a message that is no update, and its header as it was written, within the limit of its
// transport.
fn plain_reply<S: TsigSuite, H: ZoneHandler>(
    suite: &S,
    chains: &Chains<H>,
    nsid: Option<&NSIDPayload>,
    alloc: Global,
    message: &MessageRequest<'_>,
    received: Received<'_>,
) -> Result<(ResponseInfo, Vec<u8>), AllocError>
    ensures { IfOk result (λ sent. RepliesPlain (views_of H.view chains.now.chains) (option_copied nsid.entry) (S.keys suite.now) message.now
        received.entry.source received.entry.octets.now received.entry.now received.entry.protocol sent.0 sent.1.items) }
{
    if let Some(question) = served_transfer(message) {
        return transfer_reply(suite, chains, nsid, alloc, message, question, received);
    }
    let (_octets, _questions) = (nsid_octets(nsid), message.queries().queries());
    let mut response = response_to(chains, alloc, message, received.source)?;
    let sent = sent_by(&response, nsid, alloc, message, received.protocol);
    // (the drop of a response costs much even where it holds nothing of its own)
    if !response.is_lent() {
        response.clear();
    }
    mem::forget(response);
    sent
}

/// The reply of these chains to a message, and its header as it was written, within the limit of its transport. An update may
/// change them; its records are taken out of the message.
pub(crate) fn reply_by<S: TsigSuite, H: ZoneHandler>(
    suite: &S,
    chains: &mut Chains<H>,
    nsid: Option<&NSIDPayload>,
    alloc: Global,
    message: &mut MessageRequest<'_>,
    received: Received<'_>,
) -> Result<(ResponseInfo, Vec<u8>), ServiceFault>
    ensures replied { IfOk result (λ sent. RepliesBy (views_of H.view chains.old.chains) (option_copied nsid.entry) (S.keys suite.now) message.old
        received.entry.source received.entry.octets.now received.entry.now received.entry.protocol sent.0 sent.1.items (views_of H.view chains.new.chains)) }
    ensures refused { IfErr result (λ fault. RefusesBy (views_of H.view chains.old.chains) (S.keys suite.now) message.old
        received.entry.source received.entry.octets.now received.entry.now fault (views_of H.view chains.new.chains)) }
    ensures message { message.new ≡ left_of message.old }
{
    if is_served_update(message) {
        let updates = message.take_authorities(alloc);
        return update_by(suite, chains, nsid, alloc, message, updates, received);
    }
    match plain_reply(suite, chains, nsid, alloc, message, received) {
        Ok(sent) => Ok(sent),
        Err(_) => Err(ServiceFault::OutOfMemory { applied: false }),
    }
}

/// How a request arrived.
pub(crate) fn received_of<'r>(request: &'r Request<'_>, now: u64) -> Received<'r>
    ensures source { result.source ≡ request.now.source }
    ensures octets { result.octets.now ≡ request.now.octets }
    ensures protocol { result.protocol ≡ request.now.transport }
    ensures now { result.now ≡ now }
{
    Received {
        source: request.src(),
        octets: request.as_slice(),
        protocol: request.protocol(),
        now,
    }
}

/// The reply of these chains to a request, and its header as it was written, within the limit of its transport. An update
/// applies copies of the request's records.
pub(crate) fn reply_to_request<S: TsigSuite, H: ZoneHandler>(
    suite: &S,
    chains: &mut Chains<H>,
    nsid: Option<&NSIDPayload>,
    alloc: Global,
    request: &Request<'_>,
    now: u64,
) -> Result<(ResponseInfo, Vec<u8>), ServiceFault>
    ensures replied { IfOk result (λ sent. RepliesToRequest (views_of H.view chains.old.chains) (option_copied nsid.entry) (S.keys suite.now)
        request.now now sent.0 sent.1.items (views_of H.view chains.new.chains)) }
    ensures refused { IfErr result (λ fault. RefusesRequest (views_of H.view chains.old.chains) (S.keys suite.now) request.now now fault
        (views_of H.view chains.new.chains)) }
{
    let message = request.message();
    let arrival = received_of(request, now);
    if is_served_update(message) {
        let Ok(updates) = copies(alloc, message.authorities()) else {
            return Err(ServiceFault::OutOfMemory { applied: false });
        };
        return update_by(suite, chains, nsid, alloc, message, updates, arrival);
    }
    match plain_reply(suite, chains, nsid, alloc, message, arrival) {
        Ok(sent) => Ok(sent),
        Err(_) => Err(ServiceFault::OutOfMemory { applied: false }),
    }
}

/// The reply of these chains to a query with these options, and its header as it was written, within the limit of its
/// transport.
pub(crate) fn lookup_by<S: TsigSuite, H: ZoneHandler>(
    suite: &S,
    chains: &Chains<H>,
    edns: Option<&Edns>,
    alloc: Global,
    message: &MessageRequest<'_>,
    received: Received<'_>,
) -> Result<(ResponseInfo, Vec<u8>), AllocError>
    ensures { IfOk result (λ sent. AnswersQuery (views_of H.view chains.now.chains) (S.keys suite.now) message.now
        received.entry.source received.entry.octets.now received.entry.now (option_copied edns.entry) received.entry.protocol sent.0 sent.1.items) }
{
    let _questions = message.queries().queries();
    if let Some(question) = transfer_question(message) {
        let response = response_to_transfer(suite, chains, alloc, message, question, received)?;
        return encode_signed(suite, alloc, &response, edns, message, received.protocol);
    }
    let options = LookupOptions::from_edns(message.edns());
    let response = query_response(chains, alloc, message, received.source, options)?;
    response.encode(alloc, edns, message.queries(), received.protocol)
}
