//! Requests, as handlers of zones see them, and what is needed to sign the replies.

use std::net::SocketAddr;
use zst_codes::TsigVerdict;
use zst_denial::{Name, Record, RecordType};

/// What a handler is asked. It owns the records of an update, so that a zone that takes them copies none.
#[derive(Drop)]
pub struct ZoneRequest<'a> {
    /// The name that is asked for; of an update, the zone's.
    pub name: &'a Name,
    /// The type that is asked for.
    pub query_type: RecordType,
    /// The number by which its sender knows the request (RFC 1035 section 4.1.1).
    pub id: u16,
    /// Where it came from.
    pub source: SocketAddr,
    /// What its signature says, if it is signed (RFC 8945).
    pub tsig: Option<RequestTsig<'a>>,
    /// What the test of its signature says.
    pub verdict: TsigVerdict,
    /// What an update asks of the zone first (RFC 2136 section 2.4).
    pub prerequisites: &'a [Record],
    /// What an update changes (RFC 2136 section 2.5).
    pub updates: Vec<Record>,
}

/// What the signature of a request says (RFC 8945 section 4.2).
#[derive(Clone, Copy)]
pub struct RequestTsig<'a> {
    /// The name of the key.
    pub key_name: &'a Name,
    /// The name of the algorithm.
    pub algorithm: &'a Name,
    /// The signature's octets.
    pub mac: &'a [u8],
}

/// What is needed to sign the reply to a signed request (RFC 8945 section 5.3).
#[derive(Drop)]
pub struct TSigResponseContext {
    /// The number by which its sender knows the request.
    pub request_id: u16,
    /// The moment, in seconds since 1970.
    pub time: u64,
    /// The name of the request's key.
    pub key_name: Name,
    /// The name of the request's algorithm.
    pub algorithm: Name,
    /// The request's signature; none where it was refused as BADSIG or BADKEY (RFC 8945 section 5.3.2).
    pub request_mac: Vec<u8>,
    /// What the test of the signature says: 0, or BADSIG 16, BADKEY 17, BADTIME 18 (RFC 8945 section 3).
    pub error: u16,
}
