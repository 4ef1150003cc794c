//! How a message came.

ghost use Rattle.std.specs.Prelude.{◌≡◌, ◌≤◌, option_copied};
ghost use Rattle.zsv_request.specs.Requests.{limit_of};

use zsv_message::Edns;

/// How a message came.
#[derive(Clone, Copy, Debug, PartialEq, Eq)]
pub enum Protocol {
    /// A datagram (RFC 1035 section 4.2.1).
    Udp,
    /// A framed stream (RFC 1035 section 4.2.2).
    Tcp,
}

impl Protocol {
    /// How many octets a reply may have that has these options, or answers a request that has them: in a datagram as many
    /// as `MessageRequest::max_payload` tells of the request (RFC 6891 section 6.2.5).
    pub fn limit(self, edns: Option<&Edns>) -> u16
        ensures value { result ≡ limit_of self (option_copied edns.entry) }
        ensures lower { 512 ≤ result }
    {
        match (self, edns) {
            (Protocol::Udp, None) => 512,
            (Protocol::Udp, Some(edns)) => edns.max_payload(),
            (Protocol::Tcp, _) => 65535,
        }
    }
}
