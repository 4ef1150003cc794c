//! Messages that are read (RFC 1035 section 4.1, RFC 6891 section 6.1, RFC 8945 section 4.2).

ghost use Rattle.std.specs.Prelude.{◌≡◌, ◌≤◌, [], option_copied};
ghost use Rattle.zsv_sections.specs.zsv_parts.Headers.{FitsOpCode};
ghost use Rattle.zsv_message.specs.Messages.{ReadsMessage, bare_message, counts_no_records, edns_version, is_update, joined_metadata, payload_taken};

use crate::additionals::Additionals;
use crate::records::HeldRecords;
use std::alloc::Global;
use std::marker::Model;
use std::mem;
use zst_edns::Edns;
use zsv_sections::{
    BinDecoder, DecodeError, Header, HeaderCounts, Metadata, OpCode, Placing, Queries, Record,
    ResponseCode, TsigRecord, read_section,
};

/// A message: what header and options say, its questions, and its records by section.
#[derive(Debug, Drop)]
pub struct MessageRequest<'m> {
    metadata: Metadata,
    queries: Queries<'m>,
    edns: Option<Edns>,
    // Its records, in a list of at most one: few requests have any but options.
    held: Vec<HeldRecords>,
}

impl<'m> Model for MessageRequest<'m> {
    ghost use Rattle.std.specs.Prelude.{slice_get};
    ghost use Rattle.zsv_message.specs.Holding.{message_of};
    ghost use Rattle.zsv_message.specs.Messages.{Message};

    ghost Value = { Message };

    ghost view = { λ m. message_of m.metadata m.queries m.edns (slice_get m.held.items 0) };

    ghost use Rattle.zsv_sections.specs.zsv_parts.Headers.{FitsOpCode};

    ghost invariant = { λ m. FitsOpCode m.metadata };
}

// Whether an operation changes a zone (RFC 2136 section 1.3).
fn is_update(op_code: OpCode) -> bool
    ensures { result ≡ is_update op_code }
{
    matches!(op_code, OpCode::Update)
}

// What a header says, with the eight bits of the response code that options have above its four.
fn joined(metadata: Metadata, edns: &Option<Edns>) -> Metadata
    ensures { result ≡ joined_metadata metadata edns.now }
{
    match edns {
        None => metadata,
        Some(edns) => Metadata {
            response_code: ResponseCode::from(edns.rcode_high(), metadata.response_code.low()),
            ..metadata
        },
    }
}

// Whether a header counts no records, as those of most requests without options do.
pub(crate) fn counts_no_records(counts: HeaderCounts) -> bool
    ensures { result ≡ counts_no_records counts }
{
    counts.answers == 0 && counts.authorities == 0 && counts.additionals == 0
}

impl<'m> MessageRequest<'m> {
    // The message of questions alone.
    fn bare(alloc: Global, metadata: Metadata, queries: Queries<'m>) -> MessageRequest<'m>
        requires { FitsOpCode metadata }
        ensures { result ≡ bare_message metadata queries.entry }
    {
        MessageRequest {
            metadata,
            queries,
            edns: None,
            held: Vec::new(alloc),
        }
    }

    /// The message that octets hold: a header, and as many questions and records as it counts, each where it may stand.
    /// Octets behind the last record are ignored. Where the octets are refused, the error is that of the first question or
    /// record that can't be read, or may not stand where it does. A message without a whole header takes no memory.
    #[inline(never)]
    pub fn read(alloc: Global, octets: &'m [u8]) -> Result<MessageRequest<'m>, DecodeError>
        ensures { ReadsMessage octets.now result }
    {
        let mut decoder = BinDecoder::new(octets);
        let header = Header::read(&mut decoder)?;
        let counts = header.counts;
        let queries = Queries::read(alloc, &mut decoder, counts.queries)?;
        if counts_no_records(counts) {
            return Ok(MessageRequest::bare(alloc, header.metadata, queries));
        }
        let is_update = is_update(header.metadata.op_code);
        let before = Placing {
            is_update,
            is_additional: false,
            is_signed: false,
            has_options: false,
        };
        let answers = read_section(alloc, &mut decoder, before, counts.answers)?;
        let authorities = read_section(alloc, &mut decoder, before, counts.authorities)?;
        let found = Additionals::read(alloc, &mut decoder, counts.additionals, is_update)?;
        let Additionals {
            records,
            edns,
            signature,
            ..
        } = found;
        let held = HeldRecords::listed(alloc, answers, authorities, records, signature)?;
        Ok(MessageRequest {
            metadata: joined(header.metadata, &edns),
            queries,
            edns,
            held,
        })
    }

    /// What header and options say: the response code is joined of both. Four bits hold the opcode.
    pub fn metadata(&self) -> Metadata
        ensures value { result ≡ self.now.metadata }
        ensures fits { FitsOpCode self.now.metadata }
    {
        self.metadata
    }

    /// The questions, and the octets in which they stand.
    pub fn queries(&self) -> &Queries<'m>
        ensures { result.now ≡ self.now.asked }
    {
        &self.queries
    }

    /// The records of the answer section; of an update what it asks of the zone first (RFC 2136 section 2.4).
    pub fn answers(&self) -> &[Record]
        ensures { result.now ≡ self.now.answers }
    {
        match self.held.first() {
            Some(held) => &held.answers,
            None => &[],
        }
    }

    /// The records of the authority section; of an update what it changes (RFC 2136 section 2.5).
    pub fn authorities(&self) -> &[Record]
        ensures { result.now ≡ self.now.authorities }
    {
        match self.held.first() {
            Some(held) => &held.authorities,
            None => &[],
        }
    }

    /// Takes the records of the authority section out, of an update what it changes; all else stays.
    pub fn take_authorities(&mut self, alloc: Global) -> Vec<Record>
        ensures value { result.items ≡ self.old.authorities }
        ensures after { self.new ≡ record self.old { authorities = [] } }
    {
        match self.held.first_mut() {
            Some(held) => mem::replace(&mut held.authorities, Vec::new(alloc)),
            None => Vec::new(alloc),
        }
    }

    /// The additional records, without options and a signature by a shared key.
    pub fn additionals(&self) -> &[Record]
        ensures { result.now ≡ self.now.additionals }
    {
        match self.held.first() {
            Some(held) => &held.additionals,
            None => &[],
        }
    }

    /// The options of the message (RFC 6891 section 6.1).
    pub fn edns(&self) -> Option<&Edns>
        ensures { option_copied result ≡ self.now.edns }
    {
        self.edns.as_ref()
    }

    /// How many octets the sender takes in a datagram, at least 512, and 512 where it has no options (RFC 6891 sections
    /// 6.2.3 and 6.2.5).
    pub fn max_payload(&self) -> u16
        ensures value { result ≡ payload_taken self.now.edns }
        ensures least { 512 ≤ result }
    {
        match &self.edns {
            None => 512,
            Some(edns) => edns.max_payload(),
        }
    }

    /// The version of EDNS that the sender speaks, 0 where it has no options (RFC 6891 section 6.1.3).
    pub fn version(&self) -> u8
        ensures { result ≡ edns_version self.now.edns }
    {
        match &self.edns {
            None => 0,
            Some(edns) => edns.version(),
        }
    }

    /// The signature of the message by a shared key (RFC 8945 section 4.2).
    pub fn signature(&self) -> Option<&TsigRecord>
        ensures { option_copied result ≡ self.now.signature }
    {
        self.held.first()?.signature.first()
    }
}
