//! Updates, served (RFC 2136 section 3).

ghost use Rattle.std.specs.Prelude.{IfErr, IfOk, option_copied, option_map};
ghost use Rattle.zsv_chains.specs.Chains.{views_of};
ghost use Rattle.zsv_chains.specs.zst_request.Requested.{context_of};
ghost use Rattle.zsv_reply.specs.Replies.{ReplyParts};
ghost use Rattle.zsv_reply.specs.Writing.{SendsParts, bare_parts};
ghost use Rattle.zsv_update.specs.Replying.{AnswersOutcome, RefusesUpdate, RepliesUpdate, RepliesWith};
ghost use Rattle.zsv_update.specs.Updates.{with_updates};

use crate::decide::{Decided, decide};
use crate::options::reply_edns;
use crate::received::Received;
use crate::reply::encode_outcome;
use crate::suite::TsigSuite;
use drd_types::NSIDPayload;
use std::alloc::{AllocError, Global};
use thiserror::Error;
use zsv_chains::{Chains, ZoneHandler};
use zsv_reply::{Edns, MessageRequest, Protocol, Record, ResponseInfo};

/// Why a request was not answered.
#[derive(Clone, Copy, Debug, PartialEq, Eq, Error)]
pub enum ServiceFault {
    /// Out of memory.
    #[error("out of memory")]
    OutOfMemory {
        /// Whether an update of the request was accepted.
        applied: bool,
    },
}

// The reply to a message by the outcome of its update, with the options that answer those of the message.
fn answer_outcome<S: TsigSuite>(
    suite: &S,
    alloc: Global,
    decided: &Decided,
    nsid: Option<&NSIDPayload>,
    message: &MessageRequest<'_>,
    protocol: Protocol,
) -> Result<(ResponseInfo, Vec<u8>), AllocError>
    ensures { IfOk result (λ sent. (parts : ReplyParts)
        × AnswersOutcome (S.keys suite.now) message.now (bare_parts decided.now.metadata) (option_map context_of decided.now.context)
        (option_copied nsid.entry) parts
        × SendsParts parts message.now.asked protocol sent.0 sent.1.items) }
{
    let code = decided.metadata.response_code;
    let edns = reply_edns(alloc, message.edns(), nsid, code)?;
    encode_outcome(suite, alloc, decided, edns.as_ref(), message, protocol)
}

/// Serves an update that applies these records. The caller takes them out of the message (`take_authorities`), or copies them.
/// The reply has the options that answer those of the message.
pub fn update_by<S: TsigSuite, H: ZoneHandler>(
    suite: &S,
    chains: &mut Chains<H>,
    nsid: Option<&NSIDPayload>,
    alloc: Global,
    message: &MessageRequest<'_>,
    updates: Vec<Record>,
    received: Received<'_>,
) -> Result<(ResponseInfo, Vec<u8>), ServiceFault>
    ensures replied { IfOk result (λ sent. (parts : ReplyParts)
        × RepliesUpdate (S.keys suite.now) (with_updates message.now updates.items) received.entry.source received.entry.octets.now
        received.entry.now (views_of H.view chains.old.chains) (option_copied nsid.entry) parts (views_of H.view chains.new.chains)
        × SendsParts parts message.now.asked received.entry.protocol sent.0 sent.1.items) }
    ensures refused { IfErr result (λ fault. RefusesUpdate (S.keys suite.now) (with_updates message.now updates.items) received.entry.source
        received.entry.octets.now received.entry.now (views_of H.view chains.old.chains) fault (views_of H.view chains.new.chains)) }
{
    let Ok(decided) = decide(suite, chains, alloc, message, updates, received) else {
        return Err(ServiceFault::OutOfMemory { applied: false });
    };
    match answer_outcome(suite, alloc, &decided, nsid, message, received.protocol) {
        Ok(sent) => Ok(sent),
        Err(_) => Err(ServiceFault::OutOfMemory {
            applied: decided.applied,
        }),
    }
}

/// Serves an update that applies these records, with these options of the reply.
pub fn update_with<S: TsigSuite, H: ZoneHandler>(
    suite: &S,
    chains: &mut Chains<H>,
    edns: Option<&Edns>,
    alloc: Global,
    message: &MessageRequest<'_>,
    updates: Vec<Record>,
    received: Received<'_>,
) -> Result<(ResponseInfo, Vec<u8>), ServiceFault>
    ensures replied { IfOk result (λ sent. (parts : ReplyParts)
        × RepliesWith (S.keys suite.now) (with_updates message.now updates.items) received.entry.source received.entry.octets.now
        received.entry.now (views_of H.view chains.old.chains) (option_copied edns.entry) parts (views_of H.view chains.new.chains)
        × SendsParts parts message.now.asked received.entry.protocol sent.0 sent.1.items) }
    ensures refused { IfErr result (λ fault. RefusesUpdate (S.keys suite.now) (with_updates message.now updates.items) received.entry.source
        received.entry.octets.now received.entry.now (views_of H.view chains.old.chains) fault (views_of H.view chains.new.chains)) }
{
    let Ok(decided) = decide(suite, chains, alloc, message, updates, received) else {
        return Err(ServiceFault::OutOfMemory { applied: false });
    };
    match encode_outcome(suite, alloc, &decided, edns, message, received.protocol) {
        Ok(sent) => Ok(sent),
        Err(_) => Err(ServiceFault::OutOfMemory {
            applied: decided.applied,
        }),
    }
}
