//! Updates of a zone: what the sections of a message are in one (RFC 2136 section 2).

ghost use Rattle.std.specs.Prelude.{◌≡◌, IfOk, IfErr, option_copied};
ghost use Rattle.zsv_message.specs.Messages.{Message};
ghost use Rattle.zsv_request.specs.Requests.{AsksOne, CountsQueries};

use crate::one_query::one_query;
use zsv_message::{LookupError, MessageRequest, Query, Record, TsigRecord};

/// What changes a zone (RFC 2136 section 2).
pub trait UpdateRequest {
    /// The message.
    ghost update: { Self → Message };

    /// The identifier, which a reply repeats.
    fn id(&self) -> u16
        ensures { result ≡ (update self.now).metadata.id };

    /// The zone to be changed, as the question (RFC 2136 section 2.3), of which there has to be one.
    fn zone(&self) -> Result<&Query, LookupError>
        ensures one { IfOk result (λ query. AsksOne (update self.now).asked.questions query.now) }
        ensures count { IfErr result (CountsQueries (update self.now).asked.questions) };

    /// What is asked of the zone first (RFC 2136 section 2.4).
    fn prerequisites(&self) -> &[Record]
        ensures { result.now ≡ (update self.now).answers };

    /// What is to be added and deleted (RFC 2136 section 2.5).
    fn updates(&self) -> &[Record]
        ensures { result.now ≡ (update self.now).authorities };

    /// The additional records, without options and a signature by a shared key (RFC 2136 section 2.6).
    fn additionals(&self) -> &[Record]
        ensures { result.now ≡ (update self.now).additionals };

    /// The signature by a shared key (RFC 8945 section 4.2).
    fn signature(&self) -> Option<&TsigRecord>
        ensures { option_copied result ≡ (update self.now).signature };
}

impl UpdateRequest for MessageRequest<'_> {
    ghost update = { λ message. message };

    fn id(&self) -> u16 {
        self.metadata().id
    }

    fn zone(&self) -> Result<&Query, LookupError> {
        one_query(self.queries().queries())
    }

    fn prerequisites(&self) -> &[Record] {
        self.answers()
    }

    fn updates(&self) -> &[Record] {
        self.authorities()
    }

    fn additionals(&self) -> &[Record] {
        MessageRequest::additionals(self)
    }

    fn signature(&self) -> Option<&TsigRecord> {
        MessageRequest::signature(self)
    }
}
