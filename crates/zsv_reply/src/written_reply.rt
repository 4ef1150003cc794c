//! Replies whose records were written before, as those of most are.

ghost use Rattle.std.specs.Prelude.{◌≡◌, ◌+◌, ◌<◌, ◌≤◌, ◌++◌, ℕ, List, false, length, option_copied, IfOk, IfSome, MatchOption};
ghost use Rattle.zsv_request.specs.Requests.{limit_of};
ghost use Rattle.zsv_request.specs.zsv_message.zst_record.declared.records.Record.{Record};
ghost use Rattle.zsv_request.specs.zsv_message.zst_record.dnw_name.DomainName.{DomainName};
ghost use Rattle.zsv_request.specs.zsv_message.zsv_parts.Headers.{header_of, header_octets};
ghost use Rattle.zsv_request.specs.zsv_message.zsv_parts.Questions.{HasWholeName};
ghost use Rattle.zsv_reply.specs.Replies.{header_of_reply};
ghost use Rattle.zsv_request.specs.zsv_message.zsv_parts.Headers.{FitsOpCode};
ghost use Rattle.zsv_reply.specs.Writing.{AllReadBack, AreWritten, IsEncoded, NeedsEncoder, written_parts};

use crate::fronts::Kept;
use crate::header::header_over;
use std::alloc::{AllocError, Global};
use zsv_request::{Edns, Header, Metadata, Protocol, Queries, ResponseInfo};

/// Records that were written before, one behind the other.
#[derive(Clone, Copy)]
pub struct WrittenRecords<'w> {
    /// How many of them answer.
    pub answers: u16,
    /// How many stand as authority, behind those.
    pub authorities: u16,
    /// Their octets.
    pub octets: &'w [u8],
}

// The header over the questions, these records and so many options.
#[inline(always)]
fn written_header(
    metadata: Metadata,
    queries: &Queries<'_>,
    records: WrittenRecords<'_>,
    options: u16,
) -> Header
    ensures value { result ≡ header_of_reply metadata false (length queries.now.questions) records.entry.answers records.entry.authorities options }
    ensures back { FitsOpCode metadata → (rest : List ℕ) → header_of (header_octets result ++ rest) ≡ result }
{
    let kept = |count| Kept {
        count,
        is_cut: false,
    };
    header_over(
        metadata,
        queries.len() as u16,
        kept(records.answers),
        kept(records.authorities),
        kept(options),
    )
}

// The header and three lists of octets one behind the other, exactly where they fit.
#[inline(always)]
fn joined(
    alloc: Global,
    header: Header,
    questions: &[u8],
    records: &[u8],
    options: &[u8],
    limit: u16,
) -> Result<Option<(ResponseInfo, Vec<u8>)>, AllocError>
    ensures { IfOk result (λ found. MatchOption found (limit < 12 + length questions.now + length records.now + length options.now)
        (λ sent. (sent.0 ≡ header) × (sent.1.items ≡ header_octets header ++ (questions.now ++ (records.now ++ options.now)))
        × (length sent.1.items ≤ limit))) }
{
    let written = records.len().saturating_add(options.len());
    let size = written.saturating_add(12 + questions.len());
    if usize::from(limit) < size {
        return Ok(None);
    }
    let mut reply = Vec::with_capacity(alloc, size)?;
    reply.extend_from_slice(&header.octets())?;
    reply.extend_from_slice(questions)?;
    reply.extend_from_slice(records)?;
    reply.extend_from_slice(options)?;
    Ok(Some((ResponseInfo::from(header), reply)))
}

/// The octets of a reply that holds the questions, as they were sent, records that were written before, and options, with
/// its header as it was written; exactly where they fit the transport's limit, and the options are none but EDNS itself.
/// It is what `MessageResponse::encode` gives for them, without an encoder.
pub fn encode_written(
    alloc: Global,
    metadata: Metadata,
    queries: &Queries<'_>,
    records: WrittenRecords<'_>,
    edns: Option<&Edns>,
    protocol: Protocol,
) -> Result<Option<(ResponseInfo, Vec<u8>)>, AllocError>
    ensures limit { IfOk result (λ found. IfSome found (λ sent. length sent.1.items ≤ limit_of protocol (option_copied edns.entry))) }
    ensures ok { IfOk result (λ found. MatchOption found
        (NeedsEncoder (option_copied edns.entry) queries.now records.entry.octets.now (limit_of protocol (option_copied edns.entry)))
        (λ sent. (asked : DomainName) (answers authorities : List Record) → HasWholeName queries.now asked
        → AreWritten asked records.entry answers authorities → AllReadBack (written_parts metadata answers authorities (option_copied edns.entry))
        → IsEncoded sent.0 sent.1.items (written_parts metadata answers authorities (option_copied edns.entry)) queries.now
        (limit_of protocol (option_copied edns.entry)))) }
{
    let limit = protocol.limit(edns);
    let questions = queries.as_bytes();
    match edns {
        None => {
            let header = written_header(metadata, queries, records, 0);
            joined(alloc, header, questions, records.octets, &[], limit)
        }
        Some(edns) => match edns.octets_alone() {
            Some(options) => {
                let header = written_header(metadata, queries, records, 1);
                joined(alloc, header, questions, records.octets, &options, limit)
            }
            None => Ok(None),
        },
    }
}
