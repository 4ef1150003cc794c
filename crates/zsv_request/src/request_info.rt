//! What a request says of itself, and its question.

ghost use Rattle.std.specs.Prelude.{◌≡◌};

use crate::protocol::Protocol;
use std::net::SocketAddr;
use zsv_message::{Metadata, Query};

/// A request with one question: who sent it and how, what its header says, and the question as it was asked.
#[derive(Clone, Copy, Debug)]
pub struct RequestInfo<'a> {
    /// Who sent it.
    pub src: SocketAddr,
    /// How it came.
    pub protocol: Protocol,
    /// What its header and options say.
    pub metadata: Metadata,
    /// The question.
    pub query: &'a Query,
}

impl<'a> RequestInfo<'a> {
    /// These parts of a request.
    pub fn new(
        src: SocketAddr,
        protocol: Protocol,
        metadata: Metadata,
        query: &'a Query,
    ) -> RequestInfo<'a>
        ensures src { result.src ≡ src }
        ensures protocol { result.protocol ≡ protocol }
        ensures metadata { result.metadata ≡ metadata }
        ensures query { result.query.now ≡ query.now }
    {
        RequestInfo {
            src,
            protocol,
            metadata,
            query,
        }
    }
}
