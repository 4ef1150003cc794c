//! Replies: what a reply holds, and how it is written (RFC 1035 section 4.1, RFC 2181 section 9, RFC 6891 section 6.1, RFC
//! 8945 section 5.1).

ghost use Rattle.std.specs.Prelude.{◌≡◌, ◌+◌, ◌^◌, ◌<◌, ◌≤◌, Some, length, option_copied, IfOk, IfErr, OnOk};
ghost use Rattle.zsv_request.specs.Requests.{limit_of};
ghost use Rattle.zsv_request.specs.zsv_message.zst_record.dnw_encoder.Effects.{IsRefusal};
ghost use Rattle.zsv_request.specs.zsv_message.zst_record.dnw_encoder.Encoders.{state};
ghost use Rattle.zsv_request.specs.zsv_message.zst_record.drd_rdata.Writing.{WritesInFull};
ghost use Rattle.zsv_reply.specs.Lending.{Holds};
ghost use Rattle.zsv_reply.specs.Replies.{ReplyParts};
ghost use Rattle.zsv_reply.specs.Writing.{AllReadBack, IsEmitted, IsEncoded, lets_point};

use crate::fronts::{emit_additionals, emit_front, emit_section};
use crate::header::{encode_failure, header_over};
use crate::lends::LendsRecord;
use crate::questions::emit_questions;
use std::alloc::{AllocError, Global};
use zsv_request::{
    BinEncoder, Edns, Header, Metadata, ProtoError, Protocol, Queries, ResponseInfo, TsigRecord,
};

/// What a reply holds in full: what its header says, the questions as they were sent, and for each list of records an
/// iterator that lends them. `MessageResponseBuilder` makes it.
#[derive(Debug, Drop)]
pub struct MessageResponse<'q, 'm, A, N, S, D> {
    // What the header says beside the counts; truncation is set when the reply is written.
    pub(crate) metadata: Metadata,
    pub(crate) queries: &'q Queries<'m>,
    pub(crate) answers: A,
    pub(crate) authorities: N,
    // What stands as authority behind the authorities, as the start of a zone does.
    pub(crate) soa: S,
    pub(crate) additionals: D,
    // The signature, which stands last. It is lent, since it is large and few replies have one.
    pub(crate) signature: Option<&'q TsigRecord>,
    // The options of EDNS, which stand behind the additional records.
    pub(crate) edns: Option<&'q Edns>,
}

impl<'q, 'm, A, N, S, D> MessageResponse<'q, 'm, A, N, S, D> {
    /// What the header says beside the counts. Truncation is set when the reply is written.
    pub fn metadata(&self) -> &Metadata
        ensures { result.now ≡ self.now.metadata }
    {
        &self.metadata
    }

    /// Sets what the header says beside the counts.
    pub fn set_metadata(&mut self, metadata: Metadata)
        ensures { self.new ≡ record self.old { metadata = metadata } }
    {
        self.metadata = metadata;
    }

    /// Sets the options of EDNS, which stand behind the additional records (RFC 6891 section 6.1.1). Of the response code
    /// they hold the bits above the header's four.
    pub fn set_edns(&mut self, edns: &'q Edns) -> &mut MessageResponse<'q, 'm, A, N, S, D>
        ensures same_reference { result.ghost_name ≡ self.entry.ghost_name }
        ensures value { result.now ≡ record self.old { edns = Some edns.entry } }
    {
        self.edns = Some(edns);
        self
    }

    /// The options of EDNS.
    pub fn edns(&self) -> Option<&'q Edns>
        ensures { result ≡ self.now.edns }
    {
        self.edns
    }

    /// Sets the signature, which stands behind all other records (RFC 8945 section 5.1).
    pub fn set_signature(&mut self, signature: &'q TsigRecord)
        ensures { self.new ≡ record self.old { signature = Some signature.entry } }
    {
        self.signature = Some(signature);
    }
}

impl<'q, 'm, A, N, S, D> MessageResponse<'q, 'm, A, N, S, D>
where
    A: Iterator,
    A::Item: LendsRecord,
    N: Iterator,
    N::Item: LendsRecord,
    S: Iterator,
    S::Item: LendsRecord,
    D: Iterator,
    D::Item: LendsRecord,
{
    /// Writes the reply with a new encoder, within its maximum, and answers the header as it was written: the questions as
    /// they were sent, and of each list what fits; authorities and the start of a zone are one list. The header counts what
    /// is written, options and signature among the additional records, and says whether something was left out (RFC 2181
    /// section 9, RFC 6891 section 6.1.1, RFC 9471 section 3.1). It has the last four bits of the response code. A maximum
    /// that doesn't hold the header and the questions is refused by `MaxBufferSizeExceeded`. The iterators may be endless.
    pub fn destructive_emit(self, encoder: &mut BinEncoder<'_>) -> Result<ResponseInfo, ProtoError>
        requires answers { A.can_next self.answers }
        requires authorities { N.can_next self.authorities }
        requires soa { S.can_next self.soa }
        requires additionals { D.can_next self.additionals }
        requires front { (state encoder.old).offset ≡ 0 }
        requires in_full { WritesInFull (state encoder.old) }
        requires small { (state encoder.old).maximum < 2 ^ 16 }
        ensures same_reference { encoder.new.buffer.ghost_name ≡ encoder.old.buffer.ghost_name }
        ensures room { OnOk result (12 + length self.entry.queries.now.octets ≤ (state encoder.old).maximum) }
        ensures ok { IfOk result
            (λ info. (parts : ReplyParts)
            → Holds A.next_gives A.Item.lent N.next_gives N.Item.lent S.next_gives S.Item.lent D.next_gives D.Item.lent self.entry parts
            → AllReadBack parts → IsEmitted (lets_point (state encoder.old) self.entry.queries.now) info (state encoder.new).octets parts
            self.entry.queries.now (state encoder.old).maximum) }
        ensures cause { IfErr result
            (λ e. (parts : ReplyParts)
            → Holds A.next_gives A.Item.lent N.next_gives N.Item.lent S.next_gives S.Item.lent D.next_gives D.Item.lent self.entry parts
            → AllReadBack parts → IsRefusal (state encoder.old) (12 + length self.entry.queries.now.octets) e) }
    {
        let queries = self.queries;
        let place = encoder.place::<Header>()?;
        emit_questions(encoder, queries)?;
        let answers = emit_front(encoder, self.answers)?;
        let authorities = emit_section(encoder, self.authorities, self.soa)?;
        let additionals = emit_additionals(encoder, self.additionals, self.edns, self.signature)?;
        let count = queries.len() as u16;
        let header = header_over(self.metadata, count, answers, authorities, additionals);
        place.replace(encoder, header)?;
        Ok(ResponseInfo::from(header))
    }

    /// The octets of the reply, and its header as it was written. Over UDP it has at most 512 octets, or as many as its
    /// options say; over TCP at most 65,535. What doesn't fit is left out, as `destructive_emit` says. Where not even the
    /// questions fit, or a record can't be written, it is a header alone, which says that the server failed. The iterators
    /// may be endless.
    pub fn encode(
        self,
        alloc: Global,
        protocol: Protocol,
    ) -> Result<(ResponseInfo, Vec<u8>), AllocError>
        requires answers { A.can_next self.answers }
        requires authorities { N.can_next self.authorities }
        requires soa { S.can_next self.soa }
        requires additionals { D.can_next self.additionals }
        ensures limit { IfOk result (λ sent. length sent.1.items ≤ limit_of protocol (option_copied self.entry.edns)) }
        ensures ok { IfOk result
            (λ sent. (parts : ReplyParts)
            → Holds A.next_gives A.Item.lent N.next_gives N.Item.lent S.next_gives S.Item.lent D.next_gives D.Item.lent self.entry parts
            → AllReadBack parts → IsEncoded sent.0 sent.1.items parts self.entry.queries.now (limit_of protocol parts.edns)) }
    {
        let id = self.metadata.id;
        let limit = protocol.limit(self.edns);
        let mut reply = Vec::with_capacity(alloc, 512)?;
        let mut encoder = BinEncoder::new(&mut reply);
        encoder.set_max_size(limit);
        let written = self.destructive_emit(&mut encoder);
        encoder.into_bytes();
        match written {
            Ok(info) => {
                // Whatever an item's own writer may have left: nothing above the limit is sent.
                if usize::from(limit) < reply.len() {
                    return encode_failure(alloc, id);
                }
                Ok((info, reply))
            }
            Err(ProtoError::Memory(refused)) => Err(refused),
            Err(_) => encode_failure(alloc, id),
        }
    }
}
