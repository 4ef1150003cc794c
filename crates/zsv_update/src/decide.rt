//! The outcome of an update (RFC 2136 section 3.1).

ghost use Rattle.std.specs.Prelude.{◌≡◌, List, None, false, IfOk, IsOk, OnErr, Some, option_copied};
ghost use Rattle.zsv_chains.specs.Chains.{chain_at, views_of};
ghost use Rattle.zsv_chains.specs.zst_request.Requested.{asked_of, signed_by};
ghost use Rattle.zsv_chains.specs.zst_request.Views.{View as Meaning};
ghost use Rattle.zsv_reply.specs.Writing.{reply_metadata};
ghost use Rattle.zsv_update.specs.Deciding.{DecidesFirst, IsApplied, first_zone_type, given_of};
ghost use Rattle.zsv_update.specs.Updates.{GivesUpdate, asked_of_update, names_zone, outcome_code, outcome_metadata, signer_of, verdict_on, with_updates};

use crate::received::Received;
use crate::suite::TsigSuite;
use std::alloc::{AllocError, Global};
use zsv_chains::{
    Chains, LowerName, NameKey, RequestTsig, TSigResponseContext, TsigVerdict, ZoneHandler,
    ZoneRequest, ZoneType,
};
use zsv_reply::{
    MessageRequest, MessageType, Metadata, OpCode, Query, Record, RecordType, ResponseCode,
    TsigRecord,
};

/// The outcome of an update: the header of its reply, the context to sign it with, if it is to be signed, and whether the
/// update was accepted.
#[derive(Drop)]
pub(crate) struct Decided {
    pub(crate) metadata: Metadata,
    pub(crate) context: Option<TSigResponseContext>,
    pub(crate) applied: bool,
}

/// Who signed a message, by its TSIG.
pub fn tsig_of(signature: &TsigRecord) -> RequestTsig<'_>
    ensures { signed_by result ≡ signer_of signature.now }
{
    RequestTsig {
        key_name: &signature.name,
        algorithm: &signature.rdata.algorithm,
        mac: &signature.rdata.mac,
    }
}

/// The verdict on the signature of a message, for a zone. Of an unsigned message the suite is asked nothing.
pub fn verdict_on<S: TsigSuite>(
    suite: &S,
    zone: &LowerName,
    signature: Option<&TsigRecord>,
    received: Received<'_>,
) -> TsigVerdict
    ensures { result ≡ verdict_on (S.keys suite.now) zone.now received.entry.octets.now received.entry.now (option_copied signature.entry) }
{
    match signature {
        Some(tsig) => suite.verify(zone, tsig, received.octets, received.now),
        None => TsigVerdict::UnknownKey,
    }
}

// The question to the first handler of the chain registered under a zone's name, with these records to be applied.
fn asked<'q, S: TsigSuite>(
    suite: &S,
    message: &'q MessageRequest<'_>,
    updates: Vec<Record>,
    received: Received<'_>,
    question: &'q Query,
    zone: &LowerName,
) -> ZoneRequest<'q>
    ensures { asked_of result ≡ asked_of_update (S.keys suite.now) (with_updates message.now updates.items) received.entry.source
        received.entry.octets.now received.entry.now question.now zone.now }
{
    let verdict = verdict_on(suite, zone, message.signature(), received);
    let tsig = match message.signature() {
        Some(signature) => Some(tsig_of(signature)),
        None => None,
    };
    ZoneRequest {
        name: &question.name,
        query_type: question.query_type,
        id: message.metadata().id,
        source: received.source,
        tsig,
        verdict,
        prerequisites: message.answers(),
        updates,
    }
}

// The kind of the zone of the first handler of the chain under a key.
fn first_type<H: ZoneHandler>(chains: &Chains<H>, key: &NameKey) -> Option<ZoneType>
    ensures { (chain : List Meaning) → chain_at (views_of H.view chains.now.chains) key.now ≡ Some chain → result ≡ first_zone_type chain }
{
    let first = chains.find_at(key.borrow())?.first()?;
    Some(first.zone_type())
}

/// The header of an error reply to a request: it repeats the identifier, the opcode, RD and CD.
pub(crate) fn error_header(request: Metadata, response_code: ResponseCode) -> Metadata
    ensures { result ≡ reply_metadata request false response_code }
{
    let mut metadata = Metadata::response_from_request(&request);
    metadata.response_code = response_code;
    metadata
}

// The header of the reply to an update that its zone decides, which repeats the identifier alone (RFC 2136 section 3.8).
fn outcome_header(request: Metadata, response_code: ResponseCode) -> Metadata
    ensures { result ≡ outcome_metadata request response_code }
{
    let mut metadata = Metadata::new(request.id, MessageType::Response, OpCode::Update);
    metadata.response_code = response_code;
    metadata
}

// The code for the answer of a handler.
fn outcome_code(outcome: Result<bool, ResponseCode>) -> ResponseCode
    ensures { result ≡ outcome_code outcome }
{
    match outcome {
        Ok(_) => ResponseCode::NoError,
        Err(code) => code,
    }
}

// An update that isn't accepted, in an unsigned reply.
fn refused(metadata: Metadata) -> Decided
    ensures metadata { result.metadata ≡ metadata }
    ensures context { result.context ≡ None }
    ensures applied { result.applied ≡ false }
{
    Decided {
        metadata,
        context: None,
        applied: false,
    }
}

// Asks the first handler of the chain under a key, and no other one.
fn decide_by_first<H: ZoneHandler>(
    chains: &mut Chains<H>,
    alloc: Global,
    key: &NameKey,
    request: Metadata,
    asked: ZoneRequest<'_>,
    now: u64,
) -> Result<Decided, AllocError>
    ensures ok { IfOk result (λ decided. DecidesFirst request (views_of H.view chains.old.chains) key.now (asked_of asked.entry) now
        decided (views_of H.view chains.new.chains)) }
    ensures err { OnErr result (views_of H.view chains.new.chains ≡ views_of H.view chains.old.chains) }
{
    let Some((outcome, context)) = chains.update_first(alloc, key.borrow(), asked, now)? else {
        return Ok(refused(error_header(request, ResponseCode::ServFail)));
    };
    Ok(Decided {
        metadata: outcome_header(request, outcome_code(outcome)),
        context,
        applied: outcome.is_ok(),
    })
}

/// Decides an update that applies these records. Of all handlers the first one of the chain for the zone's name alone may
/// change its zone. It takes no memory to refuse a message that doesn't name one zone.
pub(crate) fn decide<S: TsigSuite, H: ZoneHandler>(
    suite: &S,
    chains: &mut Chains<H>,
    alloc: Global,
    message: &MessageRequest<'_>,
    updates: Vec<Record>,
    received: Received<'_>,
) -> Result<Decided, AllocError>
    ensures gives { IfOk result (λ decided. GivesUpdate (S.keys suite.now) (with_updates message.now updates.items) received.entry.source
        received.entry.octets.now received.entry.now (views_of H.view chains.old.chains) message.now.asked.questions
        (given_of decided (views_of H.view chains.new.chains))) }
    ensures applied { IfOk result (λ decided. IsApplied (views_of H.view chains.old.chains) decided (views_of H.view chains.new.chains)) }
    ensures err { OnErr result (views_of H.view chains.new.chains ≡ views_of H.view chains.old.chains) }
    ensures form { names_zone message.now.asked.questions ≡ false → IsOk result }
{
    let request = message.metadata();
    let [question] = message.queries().queries() else {
        return Ok(refused(error_header(request, ResponseCode::FormErr)));
    };
    if question.query_type != RecordType::SOA {
        return Ok(refused(error_header(request, ResponseCode::FormErr)));
    }
    let Some((key, zone)) = chains.registered(alloc, &question.name)? else {
        return Ok(refused(error_header(request, ResponseCode::ServFail)));
    };
    match first_type(chains, &key) {
        Some(ZoneType::Primary) => {
            let asked = asked(suite, message, updates, received, question, &zone);
            decide_by_first(chains, alloc, &key, request, asked, received.now)
        }
        Some(ZoneType::Secondary) => Ok(refused(outcome_header(request, ResponseCode::NotImp))),
        Some(ZoneType::External) => Ok(refused(outcome_header(request, ResponseCode::NotAuth))),
        None => Ok(refused(error_header(request, ResponseCode::ServFail))),
    }
}
