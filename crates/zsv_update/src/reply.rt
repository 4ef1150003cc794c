//! Replies to updates, which may be signed (RFC 8945 section 5.3).

ghost use Rattle.std.specs.Prelude.{◌≡◌, IfOk, option_copied, option_map};
ghost use Rattle.zsv_chains.specs.zst_request.Requested.{context_of};
ghost use Rattle.zsv_reply.specs.Replies.{ReplyParts};
ghost use Rattle.zsv_reply.specs.Writing.{SendsParts, bare_parts, with_edns};
ghost use Rattle.zsv_update.specs.Replying.{SendsOutcome};

use crate::decide::{Decided, error_header};
use crate::suite::{TsigSuite, sign_octets};
use std::alloc::{AllocError, Global};
use zsv_reply::{
    Edns, MessageRequest, MessageResponseBuilder, Metadata, Protocol, Queries, ResponseCode,
    ResponseInfo, TsigRecord,
};

/// The octets of a reply without records, with these options and this signature, and its header as it was written.
pub fn encode_empty(
    alloc: Global,
    metadata: Metadata,
    edns: Option<&Edns>,
    signature: Option<&TsigRecord>,
    queries: &Queries<'_>,
    protocol: Protocol,
) -> Result<(ResponseInfo, Vec<u8>), AllocError>
    ensures { IfOk result (λ sent. SendsParts (record (with_edns (option_copied edns.entry) (bare_parts metadata)) {
      signature = option_copied signature.entry;
    }) queries.now protocol sent.0 sent.1.items) }
{
    let mut response = MessageResponseBuilder::new(queries, edns).build_no_records(metadata);
    let Some(signature) = signature else {
        return response.encode(alloc, protocol);
    };
    response.set_signature(signature);
    response.encode(alloc, protocol)
}

/// The octets of the reply to a message by the outcome of its update, with these options, and its header as it was written.
/// With a context it is signed; if no key signs it, it says that the server failed.
pub(crate) fn encode_outcome<S: TsigSuite>(
    suite: &S,
    alloc: Global,
    decided: &Decided,
    edns: Option<&Edns>,
    message: &MessageRequest<'_>,
    protocol: Protocol,
) -> Result<(ResponseInfo, Vec<u8>), AllocError>
    ensures { IfOk result (λ sent. (parts : ReplyParts)
        × SendsOutcome (S.keys suite.now) message.now (bare_parts decided.now.metadata) (option_map context_of decided.now.context)
        (option_copied edns.entry) parts
        × SendsParts parts message.now.asked protocol sent.0 sent.1.items) }
{
    let queries = message.queries();
    let Some(context) = &decided.context else {
        return encode_empty(alloc, decided.metadata, edns, None, queries, protocol);
    };
    let (_info, unsigned) = encode_empty(
        alloc,
        decided.metadata,
        edns,
        None,
        queries,
        Protocol::Tcp,
    )?;
    match sign_octets(suite, alloc, context, &unsigned)? {
        Some(tsig) => encode_empty(
            alloc,
            decided.metadata,
            edns,
            Some(&tsig),
            queries,
            protocol,
        ),
        None => {
            let failure = error_header(message.metadata(), ResponseCode::ServFail);
            encode_empty(alloc, failure, edns, None, queries, protocol)
        }
    }
}
