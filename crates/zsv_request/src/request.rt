//! Requests, as they came.

ghost use Rattle.std.specs.Prelude.{◌≡◌, IfOk, IfErr};
ghost use Rattle.zsv_request.specs.Requests.{CountsQueries, InformsOf, ReadsRequest, requested};

use crate::one_query::one_query;
use crate::protocol::Protocol;
use crate::request_info::RequestInfo;
use std::alloc::{AllocError, Global};
use std::marker::Model;
use std::net::SocketAddr;
use zsv_message::{DecodeError, LookupError, MessageRequest, ProtoError};

/// A message with its octets, who sent it and how.
#[derive(Debug, Drop)]
pub struct Request<'m> {
    message: MessageRequest<'m>,
    raw: &'m [u8],
    src: SocketAddr,
    protocol: Protocol,
}

impl<'m> Model for Request<'m> {
    ghost use Rattle.zsv_request.specs.Requests.{Requested, requested};

    ghost Value = { Requested };

    ghost view = { λ request. requested request.message request.raw.now request.src request.protocol };
}

impl<'m> Request<'m> {
    /// The request that octets hold, who sent it and how. Octets that are no message are refused by `Decode` of the error of
    /// `MessageRequest::read`; want of memory is told as `Memory`.
    pub fn from_bytes(
        alloc: Global,
        raw: &'m [u8],
        src: SocketAddr,
        protocol: Protocol,
    ) -> Result<Request<'m>, ProtoError>
        ensures { ReadsRequest raw.now src protocol result }
    {
        match MessageRequest::read(alloc, raw) {
            Ok(message) => Ok(Request::from_message(message, raw, src, protocol)),
            Err(DecodeError::Memory) => Err(ProtoError::Memory(AllocError)),
            Err(refused) => Err(ProtoError::Decode(refused)),
        }
    }

    /// A request of a message that was read, its octets, who sent it and how.
    pub fn from_message(
        message: MessageRequest<'m>,
        raw: &'m [u8],
        src: SocketAddr,
        protocol: Protocol,
    ) -> Request<'m>
        ensures { result ≡ requested message.entry raw.now src protocol }
    {
        Request {
            message,
            raw,
            src,
            protocol,
        }
    }

    /// What the request says of itself, and its question, of which it has to have one.
    pub fn request_info(&self) -> Result<RequestInfo<'_>, LookupError>
        ensures one { IfOk result (InformsOf self.now) }
        ensures count { IfErr result (CountsQueries self.now.message.asked.questions) }
    {
        let query = one_query(self.message.queries().queries())?;
        Ok(RequestInfo::new(self.src, self.protocol, self.message.metadata(), query))
    }

    /// Who sent it.
    pub fn src(&self) -> SocketAddr
        ensures { result ≡ self.now.source }
    {
        self.src
    }

    /// How it came.
    pub fn protocol(&self) -> Protocol
        ensures { result ≡ self.now.transport }
    {
        self.protocol
    }

    /// Its octets, as they were sent.
    pub fn as_slice(&self) -> &[u8]
        ensures { result.now ≡ self.now.octets }
    {
        self.raw
    }

    /// The message.
    pub fn message(&self) -> &MessageRequest<'m>
        ensures { result.now ≡ self.now.message }
    {
        &self.message
    }
}
