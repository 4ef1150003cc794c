//! How replies are made.

ghost use Rattle.std.specs.Prelude.{◌≡◌, None, Some};
ghost use Rattle.zsv_request.specs.zsv_message.zsv_parts.Headers.{response_metadata};
ghost use Rattle.zsv_reply.specs.Building.{BuildsEmpty, response_with};

use crate::message_response::MessageResponse;
use std::iter;
use zsv_request::{Edns, MessageRequest, Metadata, Queries, Record, ResponseCode};

/// No records.
pub type NoRecords<'q> = iter::Empty<&'q Record>;

/// Makes replies to the questions of a message.
#[derive(Drop)]
pub struct MessageResponseBuilder<'q, 'm> {
    queries: &'q Queries<'m>,
    edns: Option<&'q Edns>,
}

impl<'q, 'm> MessageResponseBuilder<'q, 'm> {
    /// Replies to these questions, with these options of EDNS.
    pub fn new(queries: &'q Queries<'m>, edns: Option<&'q Edns>) -> MessageResponseBuilder<'q, 'm>
        ensures queries { result.queries ≡ queries.entry }
        ensures edns { result.edns ≡ edns.entry }
    {
        MessageResponseBuilder { queries, edns }
    }

    /// Replies to the questions of a message, without options.
    pub fn from_message_request(message: &'q MessageRequest<'m>) -> MessageResponseBuilder<'q, 'm>
        ensures queries { result.queries.now ≡ message.now.asked }
        ensures edns { result.edns ≡ None }
    {
        MessageResponseBuilder::new(message.queries(), None)
    }

    /// Sets the options of EDNS.
    pub fn edns(&mut self, edns: &'q Edns) -> &mut MessageResponseBuilder<'q, 'm>
        ensures same_reference { result.ghost_name ≡ self.entry.ghost_name }
        ensures value { result.now ≡ record self.old { edns = Some edns.entry } }
    {
        self.edns = Some(edns);
        self
    }

    /// The reply of these lists: the records that answer, those of authority, behind them the start of a zone, and the
    /// additional ones.
    pub fn build<A, N, S, D>(
        self,
        metadata: Metadata,
        answers: A,
        authorities: N,
        soa: S,
        additionals: D,
    ) -> MessageResponse<'q, 'm, A, N, S, D>
        ensures { result ≡ response_with metadata self.entry.queries answers authorities soa additionals self.entry.edns }
    {
        MessageResponse {
            metadata,
            queries: self.queries,
            answers,
            authorities,
            soa,
            additionals,
            signature: None,
            edns: self.edns,
        }
    }

    /// A reply without records.
    pub fn build_no_records(
        self,
        metadata: Metadata,
    ) -> MessageResponse<'q, 'm, NoRecords<'q>, NoRecords<'q>, NoRecords<'q>, NoRecords<'q>>
        ensures { BuildsEmpty metadata self.entry.queries self.entry.edns result }
    {
        self.build(
            metadata,
            iter::empty(),
            iter::empty(),
            iter::empty(),
            iter::empty(),
        )
    }

    /// A reply without records to a request, with this code: it repeats the request's identifier, its operation, RD and CD.
    pub fn error_msg(
        self,
        request_meta: &Metadata,
        response_code: ResponseCode,
    ) -> MessageResponse<'q, 'm, NoRecords<'q>, NoRecords<'q>, NoRecords<'q>, NoRecords<'q>>
        ensures { BuildsEmpty (record (response_metadata request_meta.now) { response_code = response_code })
            self.entry.queries self.entry.edns result }
    {
        let mut metadata = Metadata::response_from_request(request_meta);
        metadata.response_code = response_code;
        self.build_no_records(metadata)
    }
}
