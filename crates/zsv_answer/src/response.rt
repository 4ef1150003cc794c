//! What a reply holds in full, and its octets.

ghost use Rattle.std.specs.Prelude.{◌≡◌, List, [], false, length, IfOk, None, Some, if◌then◌else◌, option_copied, IfSome};
ghost use Rattle.zst_request.specs.zst_codes.declared.response_code.ResponseCode.TheVariants as responses;
ghost use Rattle.zst_request.specs.zst_handler.Answers.{additionals_in, answers_in, records_in};
ghost use Rattle.zsv_answer.specs.Responses.{has_no_authority, is_empty, lends_records, list_parts, parts_of, parts_with};
ghost use Rattle.zsv_answer.specs.Shown.{shown_if};
ghost use Rattle.zsv_answer.specs.zsv_reply.Writing.{AreWritten, IsEncoded, Sends, error_parts, reply_metadata};
ghost use Rattle.zsv_answer.specs.zsv_reply.zst_pointing.Pointing.{ArePointing};
ghost use Rattle.zsv_answer.specs.zsv_reply.zsv_message.zsv_parts.Questions.{Asked};
ghost use Rattle.zsv_answer.specs.zsv_reply.zst_record.declared.records.Record.{Record as Entry};
ghost use Rattle.zsv_answer.specs.zsv_reply.zst_record.dnw_name.DomainName.{DomainName};
ghost use Rattle.zsv_reply.specs.zsv_request.Requests.{limit_of};

use crate::records::ShownRecords;
use crate::written::write_records;
use smallvec::SmallVec;
use std::alloc::{AllocError, Global};
use std::iter;
use zst_request::{AuthLookup, LookupRecords, LookupRecordsIter, RecordRef};
use zsv_reply::{
    BareRequest, Edns, MessageResponseBuilder, MessageType, Metadata, Protocol, Queries,
    RecordType, ResponseCode, ResponseInfo, WrittenRecords, encode_bare, encode_written,
};

/// What a reply holds in full; the handlers lend its records.
#[derive(Drop)]
pub struct Response<'z> {
    /// What its header says beside the counts.
    pub metadata: Metadata,
    // What was found, and whether that is a referral, which stands as authority.
    pub(crate) found: AuthLookup<'z>,
    pub(crate) is_referral: bool,
    // Whether another server answers for the name; then nothing goes with the answer.
    pub(crate) is_forwarded: bool,
    // The type that is asked for, where the records of signed zones are left out.
    pub(crate) asked: Option<RecordType>,
    // What denies the name or the type that is asked for, unless this is a referral.
    pub(crate) denial: LookupRecords<'z>,
    // What stands as authority beside it, or where nothing was found.
    pub(crate) beside: LookupRecords<'z>,
}

// The records of a reply that stand in one list alone.
#[derive(Clone, Copy)]
struct OneList<'r> {
    records: &'r LookupRecords<'r>,
    // The type that is asked for, where the records of signed zones are left out.
    asked: Option<RecordType>,
    // Whether they answer, or stand as authority.
    are_answers: bool,
}

impl OneList<'_> {
    // So many records of the list, as they were written.
    #[inline(always)]
    fn written<'w>(&self, count: u16, octets: &'w [u8]) -> WrittenRecords<'w>
        ensures { (asked : DomainName) (written : List Entry) → length written ≡ count → ArePointing asked written octets.now
            → AreWritten asked result (if self.now.are_answers then written else []) (if self.now.are_answers then [] else written) }
    {
        if self.are_answers {
            return WrittenRecords {
                answers: count,
                authorities: 0,
                octets,
            };
        }
        WrittenRecords {
            answers: 0,
            authorities: count,
            octets,
        }
    }
}

impl Response<'_> {
    /// Whether the handlers lend all its records as they have them, so that their lists take no memory.
    pub fn is_lent(&self) -> bool
        ensures { result ≡ lends_records self.now }
    {
        self.found.is_lent() && self.denial.is_lent() && self.beside.is_lent()
    }

    /// Gives the lists of its records back, so that it holds none.
    #[inline(never)]
    pub fn clear(&mut self)
        ensures { parts_of self.new ≡ parts_with self.old.metadata false [] [] [] }
    {
        self.found = AuthLookup::Empty;
        self.denial = LookupRecords::Empty;
        self.beside = LookupRecords::Empty;
    }

    // The records that answer.
    fn answers(&self) -> ShownRecords<'_>
        ensures { result ≡ (if self.now.is_referral then [] else shown_if self.now.asked (answers_in self.now.found)) }
    {
        if self.is_referral {
            return ShownRecords::new(LookupRecordsIter::of_records(&[]), None);
        }
        ShownRecords::new(self.found.iter(), self.asked)
    }

    // The first records of authority: those of a referral, or what denies.
    fn authorities(&self) -> ShownRecords<'_>
        ensures { result ≡ (if self.now.is_referral then shown_if self.now.asked (answers_in self.now.found) else records_in self.now.denial) }
    {
        if self.is_referral {
            return ShownRecords::new(self.found.iter(), self.asked);
        }
        ShownRecords::new(self.denial.iter(), None)
    }

    // The records that go with the answer.
    fn additionals(&self) -> LookupRecordsIter<'_>
        ensures { result ≡ (if self.now.is_forwarded then [] else additionals_in self.now.found) }
    {
        if self.is_forwarded {
            return LookupRecordsIter::of_records(&[]);
        }
        self.found.additional_records()
    }

    // Whether nothing stands as authority but what was found, and that is no referral.
    fn has_no_authority(&self) -> bool
        ensures { result ≡ has_no_authority self.now.is_referral self.now.denial self.now.beside }
    {
        !self.is_referral && self.has_no_denial() && matches!(&self.beside, LookupRecords::Empty)
    }

    // Whether nothing is denied.
    fn has_no_denial(&self) -> bool
        ensures { result ≡ is_empty self.now.denial }
    {
        matches!(&self.denial, LookupRecords::Empty)
    }

    // The list that holds all its records: what was found, where nothing goes with that, or else what stands beside.
    #[inline(always)]
    fn only_list(&self) -> Option<OneList<'_>>
        ensures { IfSome result (λ list. list_parts self.now.metadata list ≡ parts_of self.now) }
    {
        match &self.found {
            AuthLookup::Empty if self.has_no_denial() => Some(OneList {
                records: &self.beside,
                asked: None,
                are_answers: false,
            }),
            AuthLookup::Records {
                answers,
                additionals,
            } if additionals.is_none() && self.has_no_authority() => Some(OneList {
                records: answers,
                asked: self.asked,
                are_answers: true,
            }),
            _ => None,
        }
    }

    // The reply that holds one list alone, without an encoder: if its records can point to the name that is asked for, as
    // those of most answers and denials can, and fit.
    #[inline(always)]
    fn encode_pointing(
        &self,
        list: OneList<'_>,
        alloc: Global,
        edns: Option<&Edns>,
        queries: &Queries<'_>,
        protocol: Protocol,
    ) -> Result<Option<(ResponseInfo, Vec<u8>)>, AllocError>
        ensures { IfOk result (λ found. IfSome found (λ sent. Sends (list_parts self.now.metadata list.entry)
            (option_copied edns.entry) queries.now protocol sent.0 sent.1.items)) }
    {
        let Some(asked) = queries.whole_name() else {
            return Ok(None);
        };
        let mut octets = SmallVec::new(alloc);
        let shown = ShownRecords::new(list.records.iter(), list.asked);
        let Some(count) = write_records(asked, shown, &mut octets)? else {
            return Ok(None);
        };
        let written = list.written(count, octets.as_slice());
        encode_written(alloc, self.metadata, queries, written, edns, protocol)
    }

    // The reply, whatever it holds.
    #[inline(never)]
    fn encode_all(
        &self,
        alloc: Global,
        edns: Option<&Edns>,
        queries: &Queries<'_>,
        protocol: Protocol,
    ) -> Result<(ResponseInfo, Vec<u8>), AllocError>
        ensures { IfOk result (λ sent. Sends (parts_of self.now) (option_copied edns.entry) queries.now protocol sent.0 sent.1.items) }
    {
        MessageResponseBuilder::new(queries, edns)
            .build(
                self.metadata,
                self.answers(),
                self.authorities(),
                self.beside.iter(),
                self.additionals(),
            )
            .encode(alloc, protocol)
    }

    /// The octets of the reply with these options to these questions, within the limit of its transport, and its header as
    /// it was written. If each record reads back, they are the reply of what it holds.
    pub fn encode(
        &self,
        alloc: Global,
        edns: Option<&Edns>,
        queries: &Queries<'_>,
        protocol: Protocol,
    ) -> Result<(ResponseInfo, Vec<u8>), AllocError>
        ensures { IfOk result (λ sent. Sends (parts_of self.now) (option_copied edns.entry) queries.now protocol sent.0 sent.1.items) }
    {
        if let Some(list) = self.only_list() {
            if let Some(sent) = self.encode_pointing(list, alloc, edns, queries, protocol)? {
                return Ok(sent);
            }
        }
        self.encode_all(alloc, edns, queries, protocol)
    }
}

// The header of a reply: it repeats the identifier, the operation, RD and CD.
pub(crate) fn reply_header(
    request: Metadata,
    authoritative: bool,
    response_code: ResponseCode,
) -> Metadata
    ensures { result ≡ reply_metadata request authoritative response_code }
{
    Metadata {
        id: request.id,
        message_type: MessageType::Response,
        op_code: request.op_code,
        authoritative,
        truncation: false,
        recursion_desired: request.recursion_desired,
        recursion_available: false,
        authentic_data: false,
        checking_disabled: request.checking_disabled,
        response_code,
    }
}

// A response with this header alone.
pub(crate) fn bare_response(metadata: Metadata) -> Response<'static>
    ensures { parts_of result ≡ parts_with metadata false [] [] [] }
{
    Response {
        metadata,
        found: AuthLookup::Empty,
        is_referral: false,
        is_forwarded: false,
        asked: None,
        denial: LookupRecords::Empty,
        beside: LookupRecords::Empty,
    }
}

/// The octets of a reply without records and options, and its header as it was written.
pub fn encode_error(
    alloc: Global,
    request: Metadata,
    response_code: ResponseCode,
    queries: &Queries<'_>,
    protocol: Protocol,
) -> Result<(ResponseInfo, Vec<u8>), AllocError>
    ensures { IfOk result (λ sent. IsEncoded sent.0 sent.1.items (error_parts request response_code) queries.now (limit_of protocol None)) }
{
    let header = reply_header(request, false, response_code);
    let count = queries.len() as u16;
    encode_bare(alloc, header, count, queries.as_bytes(), protocol)
}

/// The octets of the refusal of a message of one question and no records, and its header as it was written.
pub fn encode_refusal(
    alloc: Global,
    request: BareRequest<'_>,
    protocol: Protocol,
) -> Result<(ResponseInfo, Vec<u8>), AllocError>
    ensures { (asked : Asked) → length asked.questions ≡ 1 → asked.octets ≡ request.entry.question.now
        → IfOk result (λ sent. IsEncoded sent.0 sent.1.items (error_parts request.entry.metadata responses.Refused) asked (limit_of protocol None)) }
{
    let header = reply_header(request.metadata, false, ResponseCode::Refused);
    encode_bare(alloc, header, 1, request.question, protocol)
}

/// A reply without records.
pub fn error_response(request: Metadata, response_code: ResponseCode) -> Response<'static>
    ensures { parts_of result ≡ error_parts request response_code }
{
    bare_response(reply_header(request, false, response_code))
}
