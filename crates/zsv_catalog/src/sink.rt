//! Where replies go.

ghost use Rattle.std.specs.Prelude.{◌≡◌, IfOk, OnErr, OnOk};
ghost use Rattle.zsv_answer.specs.zsv_reply.zsv_message.zsv_parts.declared.header.Header.{Header as Written};
ghost use Rattle.zsv_catalog.specs.Sinks.{HandsOver, Sink, failed_header, with_fault, with_reply};

use zsv_answer::{Header, HeaderCounts, MessageType, Metadata, ResponseCode, ResponseInfo};

/// That a sink failed to take a reply.
#[derive(Clone, Copy, Debug, PartialEq, Eq)]
pub struct SendFault;

/// Takes the octets of replies. A contract sees which it took, in order, and how often it failed.
pub trait ResponseHandler {
    ghost sink: { Self → Sink };

    /// Takes a reply.
    fn send_response(&mut self, message: Vec<u8>) -> Result<(), SendFault>
        ensures ok { OnOk result (sink self.new ≡ with_reply (sink self.old) message.items) }
        ensures err { OnErr result (sink self.new ≡ with_fault (sink self.old)) };
}

// The header in place of that of a reply that wasn't taken.
fn failed_info(request: &Metadata) -> ResponseInfo
    ensures { result ≡ failed_header request.now }
{
    let mut metadata = Metadata::new(request.id, MessageType::Response, request.op_code);
    metadata.response_code = ResponseCode::ServFail;
    ResponseInfo::from(Header {
        metadata,
        counts: HeaderCounts::default(),
    })
}

// Sends a reply. The result is its header, or that of a failed server if it wasn't taken.
pub(crate) fn hand_over<R: ResponseHandler>(
    request: &Metadata,
    sent: (ResponseInfo, Vec<u8>),
    handle: &mut R,
) -> ResponseInfo
    ensures { HandsOver (R.sink handle.old) sent.1.items sent.0 request.now (R.sink handle.new) result }
{
    let (info, reply) = sent;
    match handle.send_response(reply) {
        Ok(()) => info,
        Err(SendFault) => failed_info(request),
    }
}
