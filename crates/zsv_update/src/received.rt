//! How a message arrived.

use std::net::SocketAddr;
use zsv_reply::Protocol;

/// How a message arrived: from where, in which octets, by which transport, and when.
#[derive(Clone, Copy)]
pub struct Received<'m> {
    /// The source.
    pub source: SocketAddr,
    /// All octets of the message.
    pub octets: &'m [u8],
    /// The transport.
    pub protocol: Protocol,
    /// The moment, in seconds since 1970.
    pub now: u64,
}
