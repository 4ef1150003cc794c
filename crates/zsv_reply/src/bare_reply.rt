//! Replies with nothing behind their questions, as most errors are.

ghost use Rattle.std.specs.Prelude.{◌≡◌, ◌≤◌, length, IfOk, None};
ghost use Rattle.zsv_request.specs.Requests.{limit_of};
ghost use Rattle.zsv_request.specs.zsv_message.zsv_parts.Questions.{Asked};
ghost use Rattle.zsv_reply.specs.Writing.{IsEncoded, bare_parts};

use crate::fronts::Kept;
use crate::header::{encode_failure, header_over};
use std::alloc::{AllocError, Global};
use zsv_request::{Metadata, Protocol, ResponseInfo};

/// The octets of a reply that holds the questions alone, so many and in these octets, as they were sent, and its header as it
/// was written. Where the questions don't fit the transport's limit, it is a header alone, which says that the server failed.
/// It is what `MessageResponse::encode` gives for no records and no options, without an encoder.
#[inline(never)]
pub fn encode_bare(
    alloc: Global,
    metadata: Metadata,
    count: u16,
    octets: &[u8],
    protocol: Protocol,
) -> Result<(ResponseInfo, Vec<u8>), AllocError>
    ensures limit { IfOk result (λ sent. length sent.1.items ≤ limit_of protocol None) }
    ensures ok { (asked : Asked) → length asked.questions ≡ count → asked.octets ≡ octets.now
        → IfOk result (λ sent. IsEncoded sent.0 sent.1.items (bare_parts metadata) asked (limit_of protocol None)) }
{
    let size = 12 + octets.len();
    if usize::from(protocol.limit(None)) < size {
        return encode_failure(alloc, metadata.id);
    }
    let none = Kept {
        count: 0,
        is_cut: false,
    };
    let header = header_over(metadata, count, none, none, none);
    let mut reply = Vec::with_capacity(alloc, size)?;
    reply.extend_from_slice(&header.octets())?;
    reply.extend_from_slice(octets)?;
    Ok((ResponseInfo::from(header), reply))
}
