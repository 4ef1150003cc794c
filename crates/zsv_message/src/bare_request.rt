//! Messages of one question and no records, by what a reply without records repeats of them.

ghost use Rattle.std.specs.Prelude.{◌≡◌, ◌<◌, ◌≤◌, length, IfNone, IfSome, MatchOption};
ghost use Rattle.zsv_sections.specs.zsv_parts.Headers.{header_of};
ghost use Rattle.zsv_sections.specs.zsv_parts.Questions.{Asked};
ghost use Rattle.zsv_message.specs.Messages.{AsksWhole, IsMessage, asks_alone, bare_message};

use crate::request::counts_no_records;
use zsv_sections::{BinDecoder, Header, HeaderCounts, Metadata, whole_question};

// The header of a message, if it has a whole one.
fn first_header(octets: &[u8]) -> Option<Header>
    ensures { MatchOption result (length octets.now < 12) (λ header. (header ≡ header_of octets.now) × (12 ≤ length octets.now)) }
{
    match Header::read(&mut BinDecoder::new(octets)) {
        Ok(header) => Some(header),
        Err(_) => None,
    }
}

// Whether a header counts one question, and no records.
fn asks_alone(counts: HeaderCounts) -> bool
    ensures { result ≡ asks_alone counts }
{
    counts.queries == 1 && counts_no_records(counts)
}

/// A message of one question, whose name stands in full, and no records: what its header says, and the octets of the question.
#[derive(Clone, Copy, Debug)]
pub struct BareRequest<'m> {
    /// What the header says.
    pub metadata: Metadata,
    /// The octets of the question, as they were sent.
    pub question: &'m [u8],
}

impl<'m> BareRequest<'m> {
    /// The message that octets hold, if it is such a one, as most requests without options are. No name is read, and no memory
    /// is taken.
    pub fn read(octets: &'m [u8]) -> Option<BareRequest<'m>>
        ensures there { IfSome result (λ bare. (asked : Asked) × IsMessage octets.now (bare_message bare.metadata asked)
            × (length asked.questions ≡ 1) × (asked.octets ≡ bare.question.now)) }
        ensures none { IfNone result ((asked : Asked) → AsksWhole octets.now asked → ⊥) }
    {
        let header = first_header(octets)?;
        if !asks_alone(header.counts) {
            return None;
        }
        let question = whole_question(octets, 12)?;
        Some(BareRequest {
            metadata: header.metadata,
            question,
        })
    }
}
