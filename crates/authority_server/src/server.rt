//! The server: one message in, one reply out.

ghost use Rattle.std.specs.Prelude.{◌≡◌, ◌+◌, ◌<◌, ◌≤◌, ℕ, vec_len, vec_capacity, length, map, IfOk, IfErr, OnErr, OnOk, Ok, Err, None, Some, false, option_map};
ghost use Rattle.std.specs.Net.Socket.{socket_ip};
ghost use Rattle.zsv_access.specs.Access.{is_allowed};
ghost use Rattle.zsv_catalog.specs.Chains.{chain_at};
ghost use Rattle.zsv_catalog.specs.ReadingBack.{ChainReadsBack};
ghost use Rattle.zsv_catalog.specs.zsv_answer.zst_request.dnw_name.DomainName.{lowercase_name};
ghost use Rattle.zsv_catalog.specs.zsv_answer.zsv_reply.Writing.{IsEncoded, error_parts};
ghost use Rattle.zsv_catalog.specs.zsv_answer.zsv_request.Requests.{limit_of};
ghost use Rattle.zsv_catalog.specs.zsv_answer.zsv_reply.zsv_message.zsv_parts.dnw_decoder.Reading.{IsWantOfMemory};
ghost use Rattle.authority_server.specs.Serving.{Refuses, Serves, WorldReadsBack};
ghost use Rattle.authority_server.specs.Servers.{AreUnguarded, RefusesReply, SendsReply, arrived, chains_of, error_of, no_zones, with_zones, without_zones, world_of};
ghost use Rattle.authority_server.specs.Runs.{octets_of, received_of, ServesNext, ServesFront, StopsServing};

use std::alloc::{AllocError, Global};
use std::net::SocketAddr;
use thiserror::Error;
use zsv_access::AccessControl;
use zsv_catalog::{
    BareRequest, Catalog, DecodeError, MessageRequest, NSIDPayload, Name, Protocol, Received,
    ResponseCode, ResponseInfo, ServiceFault, TsigSuite, ZoneHandler, encode_error, encode_refusal,
};

/// A message as it arrived.
#[derive(Clone, Copy)]
pub struct Arrival<'a> {
    /// Its octets.
    pub message: &'a [u8],
    /// Its source.
    pub src: SocketAddr,
    /// Its transport.
    pub protocol: Protocol,
    /// When it arrived, in seconds since 1970.
    pub now: u64,
}

/// Why a message was not served.
#[derive(Clone, Copy, Debug, Error)]
pub enum ServeError {
    /// Out of memory.
    #[error("OutOfMemory")]
    OutOfMemory {
        /// Whether an update of the message was applied.
        applied: bool,
    },
}

// The answer to octets that can't be read: no reply, or out of memory.
fn answer_refused(refused: DecodeError) -> Result<Option<Vec<u8>>, ServeError>
    ensures none { IfOk result (λ answer. (answer ≡ None) × (IsWantOfMemory refused → ⊥)) }
    ensures memory { IfErr result (λ e. (e ≡ ServeError.OutOfMemory false) × IsWantOfMemory refused) }
{
    match refused {
        DecodeError::Memory => Err(ServeError::OutOfMemory { applied: false }),
        _ => Ok(None),
    }
}

// The answer to a message: its reply without the header that was written, or why there is none.
fn answer_sent(
    sent: Result<(ResponseInfo, Vec<u8>), ServiceFault>,
) -> Result<Option<Vec<u8>>, ServeError>
    ensures ok { IfOk sent (λ sent. result ≡ Ok (Some sent.1)) }
    ensures err { IfErr sent (λ fault. result ≡ Err (error_of fault)) }
{
    match sent {
        Ok((_, reply)) => Ok(Some(reply)),
        Err(ServiceFault::OutOfMemory { applied }) => Err(ServeError::OutOfMemory { applied }),
    }
}

// A reply that needs no zone.
fn unserved(
    sent: Result<(ResponseInfo, Vec<u8>), AllocError>,
) -> Result<(ResponseInfo, Vec<u8>), ServiceFault>
    ensures ok { IfOk sent (λ sent. result ≡ Ok sent) }
    ensures err { OnErr sent (result ≡ Err (ServiceFault.OutOfMemory false)) }
{
    match sent {
        Ok(sent) => Ok(sent),
        Err(_) => Err(ServiceFault::OutOfMemory { applied: false }),
    }
}

/// A server of many zones: chains of handlers, each registered under a name, and an access list. `S` verifies and signs
/// messages. Handlers of several kinds, `H`, are boxed (`Box<dyn ZoneHandler>`); if all are of one kind, they need no boxes.
#[derive(Drop)]
pub struct Authority<S, H = Box<dyn ZoneHandler>> {
    alloc: Global,
    catalog: Catalog<S, H>,
    access: AccessControl,
}

impl<S: TsigSuite, H: ZoneHandler> Authority<S, H> {
    /// A server without zones, which every address may ask.
    pub fn new(alloc: Global, suite: S) -> Authority<S, H>
        ensures { world_of S.keys H.view result ≡ no_zones (S.keys suite) }
    {
        Authority {
            alloc,
            catalog: Catalog::new(alloc, suite),
            access: AccessControl::new(alloc),
        }
    }

    /// Puts a chain of handlers in place of the one under a name, which is dropped. Each record of its zones, and each
    /// signature, can be served, as `zone_reads_back` tests.
    pub fn upsert(&mut self, name: &Name, handlers: Vec<H>) -> Result<(), AllocError>
        requires { ChainReadsBack (map H.view handlers.items) }
        ensures ok { OnOk result (world_of S.keys H.view self.new ≡ with_zones (world_of S.keys H.view self.old) name.now (map H.view handlers.items)) }
        ensures err { OnErr result (world_of S.keys H.view self.new ≡ world_of S.keys H.view self.old) }
        ensures back { WorldReadsBack (world_of S.keys H.view self.old) → WorldReadsBack (world_of S.keys H.view self.new) }
    {
        self.catalog.upsert(name, handlers)
    }

    /// Takes out the chain under a name, and returns it. It takes no memory.
    pub fn remove(&mut self, name: &Name) -> Option<Vec<H>>
        ensures value { result ≡ chain_at (chains_of self.old) (lowercase_name name.now) }
        ensures views { chain_at (world_of S.keys H.view self.old).chains (lowercase_name name.now)
            ≡ option_map (λ handlers. map H.view handlers.items) result }
        ensures after { world_of S.keys H.view self.new ≡ without_zones (world_of S.keys H.view self.old) name.now }
        ensures back { WorldReadsBack (world_of S.keys H.view self.old) → WorldReadsBack (world_of S.keys H.view self.new) }
    {
        self.catalog.remove(name)
    }

    /// Says who may ask.
    pub fn set_access(&mut self, access: AccessControl)
        ensures { world_of S.keys H.view self.new ≡ record (world_of S.keys H.view self.old) { access = access } }
    {
        self.access = access;
    }

    /// Sets the NSID, which those who ask for it are sent (RFC 5001), or none.
    pub fn set_nsid(&mut self, nsid: Option<NSIDPayload>)
        ensures { world_of S.keys H.view self.new ≡ record (world_of S.keys H.view self.old) { nsid = nsid } }
    {
        self.catalog.set_nsid(nsid);
    }

    // The allocator that the server was made with.
    pub(crate) fn alloc(&self) -> Global {
        self.alloc
    }

    // A reply without records and options, and its header.
    fn error_reply(
        &self,
        request: &MessageRequest<'_>,
        protocol: Protocol,
        response_code: ResponseCode,
    ) -> Result<(ResponseInfo, Vec<u8>), AllocError>
        ensures { IfOk result (λ sent. IsEncoded sent.0 sent.1.items (error_parts request.now.metadata response_code)
            request.now.asked (limit_of protocol None)) }
    {
        encode_error(
            self.alloc,
            request.metadata(),
            response_code,
            request.queries(),
            protocol,
        )
    }

    // The reply to a request, and its header: a source that may not ask is refused, without options.
    fn reply_to(
        &mut self,
        request: &mut MessageRequest<'_>,
        received: Received<'_>,
        may_ask: bool,
    ) -> Result<(ResponseInfo, Vec<u8>), ServiceFault>
        ensures replied { may_ask ≡ is_allowed self.old.access (socket_ip received.entry.source)
            → IfOk result (λ sent. SendsReply (world_of S.keys H.view self.old) (arrived received.entry) request.old sent.0 sent.1.items
            (world_of S.keys H.view self.new)) }
        ensures refused { may_ask ≡ is_allowed self.old.access (socket_ip received.entry.source)
            → IfErr result (λ fault. RefusesReply (world_of S.keys H.view self.old) (arrived received.entry) request.old fault
            (world_of S.keys H.view self.new)) }
    {
        if may_ask {
            return self.catalog.reply_to(request, received);
        }
        unserved(self.error_reply(request, received.protocol, ResponseCode::Refused))
    }

    // Serves one message, whatever it holds, of a source that may ask or not.
    fn serve_any(
        &mut self,
        received: Received<'_>,
        may_ask: bool,
    ) -> Result<Option<Vec<u8>>, ServeError>
        ensures served { may_ask ≡ is_allowed self.old.access (socket_ip received.entry.source) → IfOk result
            (λ answer. Serves (world_of S.keys H.view self.old) (arrived received.entry) (octets_of answer) (world_of S.keys H.view self.new)) }
        ensures refused { may_ask ≡ is_allowed self.old.access (socket_ip received.entry.source) → IfErr result
            (λ e. Refuses (world_of S.keys H.view self.old) (arrived received.entry) e (world_of S.keys H.view self.new)) }
    {
        let mut request = match MessageRequest::read(self.alloc, received.octets) {
            Ok(request) => request,
            Err(refused) => return answer_refused(refused),
        };
        answer_sent(self.reply_to(&mut request, received, may_ask))
    }

    /// Serves one message. A message outside the request grammar gets no reply; each other gets one, within the
    /// transport's limit, that holds what the zones answer, or a refusal where its source isn't allowed to ask. An update that
    /// is accepted changes its zone, whole; nothing else changes.
    ///
    /// A message that is itself a reply (QR set) is answered by a format error. Callers drop such datagrams, since two
    /// servers that answer them would answer each other without end.
    pub fn serve(
        &mut self,
        message: &[u8],
        src: SocketAddr,
        protocol: Protocol,
        now: u64,
    ) -> Result<Option<Vec<u8>>, ServeError>
        ensures served { IfOk result
            (λ answer. Serves (world_of S.keys H.view self.old)
            (record { message = message.now; source = src; transport = protocol; now = now }) (octets_of answer)
            (world_of S.keys H.view self.new)) }
        ensures refused { IfErr result
            (λ e. Refuses (world_of S.keys H.view self.old)
            (record { message = message.now; source = src; transport = protocol; now = now }) e (world_of S.keys H.view self.new)) }
        ensures back { WorldReadsBack (world_of S.keys H.view self.old) → WorldReadsBack (world_of S.keys H.view self.new) }
        ensures fixed { AreUnguarded (world_of S.keys H.view self.old).chains → world_of S.keys H.view self.new ≡ world_of S.keys H.view self.old }
    {
        let may_ask = self.access.allow(src.ip());
        if !may_ask {
            // (a refusal of a question alone shows no name)
            if let Some(request) = BareRequest::read(message) {
                return answer_sent(unserved(encode_refusal(self.alloc, request, protocol)));
            }
        }
        let received = Received {
            source: src,
            octets: message,
            protocol,
            now,
        };
        self.serve_any(received, may_ask)
    }

    // Serves one message, and appends its answer.
    fn serve_next(
        &mut self,
        arrival: &Arrival<'_>,
        answers: &mut Vec<Option<Vec<u8>>>,
    ) -> Result<(), ServeError>
        requires { vec_len answers.old < vec_capacity answers.old }
        ensures served { OnOk result
            (ServesNext (world_of S.keys H.view self.old)
            (received_of arrival.entry.now) answers.old.items answers.new.items
            (world_of S.keys H.view self.new)) }
        ensures capacity { vec_capacity answers.new ≡ vec_capacity answers.old }
        ensures len { OnOk result (vec_len answers.new ≡ vec_len answers.old + 1) }
        ensures refused { IfErr result (λ e. Refuses (world_of S.keys H.view self.old) (received_of arrival.entry.now) e (world_of S.keys H.view self.new)
            × (answers.new.items ≡ answers.old.items)) }
        ensures back { WorldReadsBack (world_of S.keys H.view self.old) → WorldReadsBack (world_of S.keys H.view self.new) }
        ensures fixed { AreUnguarded (world_of S.keys H.view self.old).chains → world_of S.keys H.view self.new ≡ world_of S.keys H.view self.old }
    {
        let answer = self.serve(arrival.message, arrival.src, arrival.protocol, arrival.now)?;
        answers.push_reserved(answer);
        Ok(())
    }

    /// Serves messages in order, and appends one answer for each. It takes room for the answers first. At a fault
    /// the answers appended and their effects stand, and the rest of the messages is untouched.
    pub fn serve_all(
        &mut self,
        arrivals: &[Arrival<'_>],
        answers: &mut Vec<Option<Vec<u8>>>,
    ) -> Result<(), ServeError>
        ensures served { OnOk result (ServesFront (world_of S.keys H.view self.old)
            (map received_of arrivals.now) (map octets_of answers.old.items) (map octets_of answers.new.items)
            (world_of S.keys H.view self.new)) }
        ensures all { OnOk result (length answers.new.items ≡ length answers.old.items + length arrivals.now) }
        ensures refused { IfErr result (λ e. StopsServing (world_of S.keys H.view self.old)
            (map received_of arrivals.now) (map octets_of answers.old.items) (map octets_of answers.new.items) e
            (world_of S.keys H.view self.new)) }
        ensures back { WorldReadsBack (world_of S.keys H.view self.old) → WorldReadsBack (world_of S.keys H.view self.new) }
        ensures fixed { AreUnguarded (world_of S.keys H.view self.old).chains → world_of S.keys H.view self.new ≡ world_of S.keys H.view self.old }
    {
        if answers.try_reserve(arrivals.len()).is_err() {
            return Err(ServeError::OutOfMemory { applied: false });
        }
        for arrival in arrivals {
            self.serve_next(arrival, answers)?;
        }
        Ok(())
    }
}
