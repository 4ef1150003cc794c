//! The header of a reply.

ghost use Rattle.std.specs.Prelude.{◌≡◌, ◌||◌, ◌++◌, false, ℕ, List, IfOk};
ghost use Rattle.zsv_request.specs.zsv_message.zsv_parts.Headers.{header_of, header_octets};
ghost use Rattle.zsv_reply.specs.Replies.{bare_failure, header_of_reply};
ghost use Rattle.zsv_request.specs.zsv_message.zsv_parts.Headers.{FitsOpCode};
ghost use Rattle.zsv_reply.specs.Writing.{IsBare};

use crate::fronts::Kept;
use std::alloc::{AllocError, Global};
use zsv_request::{
    Header, HeaderCounts, MessageType, Metadata, OpCode, ResponseCode, ResponseInfo,
};

// Whether something was left out of some list.
fn is_truncated(answers: Kept, authorities: Kept, additionals: Kept) -> bool
    ensures { result ≡ (answers.is_cut || authorities.is_cut || additionals.is_cut) }
{
    answers.is_cut || authorities.is_cut || additionals.is_cut
}

/// The header over so many questions and what is kept of each list, as it is written: it says whether something was left
/// out, and has the last four bits of the response code.
#[inline(always)]
pub(crate) fn header_over(
    metadata: Metadata,
    queries: u16,
    answers: Kept,
    authorities: Kept,
    additionals: Kept,
) -> Header
    ensures value { result ≡ header_of_reply metadata (answers.is_cut || authorities.is_cut || additionals.is_cut) queries
        answers.count authorities.count additionals.count }
    ensures back { FitsOpCode metadata → (rest : List ℕ) → header_of (header_octets result ++ rest) ≡ result }
{
    let mut metadata = metadata;
    metadata.truncation = is_truncated(answers, authorities, additionals);
    metadata.response_code = ResponseCode::from(0, metadata.response_code.low());
    let counts = HeaderCounts {
        queries,
        answers: answers.count,
        authorities: authorities.count,
        additionals: additionals.count,
    };
    Header { metadata, counts }
}

// The header that is left to say where a reply can't be written.
fn failure_header(id: u16) -> Header
    ensures value { result ≡ header_of_reply (bare_failure id) false 0 0 0 0 }
    ensures back { (rest : List ℕ) → header_of (header_octets result ++ rest) ≡ result }
{
    let mut metadata = Metadata::new(id, MessageType::Response, OpCode::Query);
    metadata.response_code = ResponseCode::ServFail;
    let counts = HeaderCounts {
        queries: 0,
        answers: 0,
        authorities: 0,
        additionals: 0,
    };
    Header { metadata, counts }
}

/// A header alone, which says that the server failed.
pub(crate) fn encode_failure(alloc: Global, id: u16) -> Result<(ResponseInfo, Vec<u8>), AllocError>
    ensures { IfOk result (λ sent. IsBare sent.0 sent.1.items id) }
{
    let header = failure_header(id);
    let reply = Vec::from_slice(alloc, &header.octets())?;
    Ok((ResponseInfo::from(header), reply))
}
