//! A catalog of handlers.

ghost use Rattle.std.specs.Prelude.{◌≡◌, ◌≤◌, ℕ, false, List, [], IfErr, IfOk, None, OnErr, OnOk, is_some, length, option_copied, option_map};
ghost use Rattle.zsv_update.specs.zsv_chains.zst_key.dnw_name.DomainName.{lowercase_name};
ghost use Rattle.zsv_answer.specs.zsv_reply.zsv_message.zsv_parts.declared.header.Header.{Header};
ghost use Rattle.zsv_catalog.specs.Catalogs.{AnswersQuery, RefusesBy, RepliesBy, left_of};
ghost use Rattle.zsv_catalog.specs.ReadingBack.{AdditionsAreServable, ChainsReadBack};
ghost use Rattle.zsv_catalog.specs.Requests.{AnswersUpdate, RefusesAsUpdate, RefusesRequest, RepliesToRequest};
ghost use Rattle.zsv_update.specs.zsv_chains.Chains.{chain_at, chain_for, views_of, with_chain, without_chain};
ghost use Rattle.zsv_catalog.specs.Sinks.{HandsOver};

use crate::copies::copies;
use crate::handler::RequestHandler;
use crate::reply::{lookup_by, received_of, reply_by, reply_to_request};
use crate::sink::{ResponseHandler, hand_over};
use drd_types::NSIDPayload;
use std::alloc::{AllocError, Global};
use std::net::SocketAddr;
use zsv_answer::{Edns, MessageRequest, Name, Protocol, Request, ResponseInfo, ZoneHandler};
use zsv_update::{Chains, Received, ServiceFault, TsigSuite, update_with};

/// Zones of one server: chains of handlers, each registered under a name. `S` verifies and signs messages. Handlers of
/// several kinds, `H`, are boxed (`Box<dyn ZoneHandler>`); if all are of one kind, they need no boxes.
#[derive(Drop)]
pub struct Catalog<S, H = Box<dyn ZoneHandler>> {
    alloc: Global,
    suite: S,
    chains: Chains<H>,
    // The NSID (RFC 5001).
    nsid: Option<NSIDPayload>,
}

impl<S: TsigSuite, H: ZoneHandler> Catalog<S, H> {
    /// No zones, and no NSID.
    pub fn new(alloc: Global, suite: S) -> Catalog<S, H>
        ensures chains { result.chains.chains ≡ [] }
        ensures nsid { result.nsid ≡ None }
        ensures suite { result.suite ≡ suite }
    {
        Catalog {
            alloc,
            suite,
            chains: Chains::new(alloc),
            nsid: None,
        }
    }

    /// Puts a chain in place of the one under a name, which is dropped.
    pub fn upsert(&mut self, name: &Name, handlers: Vec<H>) -> Result<(), AllocError>
        ensures ok { OnOk result (self.new.chains.chains ≡ with_chain self.old.chains.chains name.now handlers) }
        ensures err { OnErr result (self.new.chains.chains ≡ self.old.chains.chains) }
        ensures nsid { self.new.nsid ≡ self.old.nsid }
        ensures suite { self.new.suite ≡ self.old.suite }
    {
        self.chains.upsert(self.alloc, name, handlers)
    }

    /// Takes out the chain under a name, and returns it. It takes no memory.
    pub fn remove(&mut self, name: &Name) -> Option<Vec<H>>
        ensures value { result ≡ chain_at self.old.chains.chains (lowercase_name name.now) }
        ensures after { self.new.chains.chains ≡ without_chain self.old.chains.chains name.now }
        ensures nsid { self.new.nsid ≡ self.old.nsid }
        ensures suite { self.new.suite ≡ self.old.suite }
    {
        self.chains.remove(self.alloc, name)
    }

    /// The chain for a name: that under the name, or else under the nearest name above it. It takes no memory.
    pub fn find(&self, name: &Name) -> Option<&[H]>
        ensures { option_map (λ chain. chain.now) result
            ≡ option_map (λ chain. chain.items) (chain_for self.now.chains.chains name.now) }
    {
        self.chains.find(self.alloc, name)
    }

    /// Whether a name has a chain: that under the name, or one under a name above it. It takes no memory.
    pub fn contains(&self, name: &Name) -> bool
        ensures { result ≡ is_some (chain_for self.now.chains.chains name.now) }
    {
        self.chains.find(self.alloc, name).is_some()
    }

    /// Sets the NSID (RFC 5001), which those who ask for it are sent, or none.
    pub fn set_nsid(&mut self, nsid: Option<NSIDPayload>)
        ensures nsid { self.new.nsid ≡ nsid }
        ensures chains { self.new.chains ≡ self.old.chains }
        ensures suite { self.new.suite ≡ self.old.suite }
    {
        self.nsid = nsid;
    }

    /// The NSID.
    pub fn nsid(&self) -> Option<&NSIDPayload>
        ensures { option_copied result ≡ self.now.nsid }
    {
        self.nsid.as_ref()
    }

    /// The reply to a message, and its header as it was written, within the limit of its transport. An update may change the
    /// zones; its records are taken out of the message.
    pub fn reply_to(
        &mut self,
        message: &mut MessageRequest<'_>,
        received: Received<'_>,
    ) -> Result<(ResponseInfo, Vec<u8>), ServiceFault>
        ensures replied { IfOk result (λ sent. RepliesBy (views_of H.view self.old.chains.chains) self.old.nsid (S.keys self.old.suite) message.old
            received.entry.source received.entry.octets.now received.entry.now received.entry.protocol sent.0 sent.1.items
            (views_of H.view self.new.chains.chains)) }
        ensures refused { IfErr result (λ fault. RefusesBy (views_of H.view self.old.chains.chains) (S.keys self.old.suite) message.old
            received.entry.source received.entry.octets.now received.entry.now fault (views_of H.view self.new.chains.chains)) }
        ensures message { message.new ≡ left_of message.old }
        ensures back { AdditionsAreServable message.old.authorities → ChainsReadBack (views_of H.view self.old.chains.chains)
            → ChainsReadBack (views_of H.view self.new.chains.chains) }
        ensures others { self.new ≡ record self.old { chains = self.new.chains } }
    {
        reply_by(
            &self.suite,
            &mut self.chains,
            self.nsid.as_ref(),
            self.alloc,
            message,
            received,
        )
    }

    /// Answers a request: its reply is sent to a sink. The result is the header of the reply as it was written, or that of a
    /// failed server if the sink fails. An update applies copies of the request's records. The moment is given in seconds since
    /// 1970.
    pub fn handle_request<R: ResponseHandler>(
        &mut self,
        request: &Request<'_>,
        now: u64,
        handle: &mut R,
    ) -> Result<ResponseInfo, ServiceFault>
        ensures replied { IfOk result (λ told. (reply : List ℕ) × (sent : Header)
            × RepliesToRequest (views_of H.view self.old.chains.chains) self.old.nsid (S.keys self.old.suite) request.now now sent reply
            (views_of H.view self.new.chains.chains)
            × HandsOver (R.sink handle.old) reply sent request.now.message.metadata (R.sink handle.new) told) }
        ensures refused { IfErr result (λ fault. RefusesRequest (views_of H.view self.old.chains.chains) (S.keys self.old.suite) request.now now fault
            (views_of H.view self.new.chains.chains)) }
        ensures untouched { OnErr result (R.sink handle.new ≡ R.sink handle.old) }
        ensures back { AdditionsAreServable request.now.message.authorities → ChainsReadBack (views_of H.view self.old.chains.chains)
            → ChainsReadBack (views_of H.view self.new.chains.chains) }
        ensures others { self.new ≡ record self.old { chains = self.new.chains } }
    {
        let sent = reply_to_request(
            &self.suite,
            &mut self.chains,
            self.nsid.as_ref(),
            self.alloc,
            request,
            now,
        )?;
        Ok(hand_over(&request.message().metadata(), sent, handle))
    }

    /// Serves a request as an update, whatever its opcode, with these options of the reply, which is sent to a sink, as
    /// `handle_request` does. It applies copies of the request's records. The moment is given in seconds since 1970.
    pub fn update<R: ResponseHandler>(
        &mut self,
        request: &Request<'_>,
        edns: Option<&Edns>,
        now: u64,
        handle: &mut R,
    ) -> Result<ResponseInfo, ServiceFault>
        ensures replied { IfOk result (λ told. (reply : List ℕ) × (sent : Header)
            × AnswersUpdate (views_of H.view self.old.chains.chains) (S.keys self.old.suite) request.now (option_copied edns.entry) now sent reply
            (views_of H.view self.new.chains.chains)
            × HandsOver (R.sink handle.old) reply sent request.now.message.metadata (R.sink handle.new) told) }
        ensures refused { IfErr result (λ fault. RefusesAsUpdate (views_of H.view self.old.chains.chains) (S.keys self.old.suite) request.now now fault
            (views_of H.view self.new.chains.chains)) }
        ensures untouched { OnErr result (R.sink handle.new ≡ R.sink handle.old) }
        ensures back { AdditionsAreServable request.now.message.authorities → ChainsReadBack (views_of H.view self.old.chains.chains)
            → ChainsReadBack (views_of H.view self.new.chains.chains) }
        ensures others { self.new ≡ record self.old { chains = self.new.chains } }
    {
        let message = request.message();
        let Ok(updates) = copies(self.alloc, message.authorities()) else {
            return Err(ServiceFault::OutOfMemory { applied: false });
        };
        let sent = update_with(
            &self.suite,
            &mut self.chains,
            edns,
            self.alloc,
            message,
            updates,
            received_of(request, now),
        )?;
        Ok(hand_over(&message.metadata(), sent, handle))
    }

    /// Answers a query with these options, whatever its opcode: its reply is sent to a sink, as `handle_request` does. The
    /// moment is given in seconds since 1970.
    pub fn lookup<R: ResponseHandler>(
        &self,
        request: &Request<'_>,
        edns: Option<&Edns>,
        now: u64,
        handle: &mut R,
    ) -> Result<ResponseInfo, ServiceFault>
        ensures replied { IfOk result (λ told. (reply : List ℕ) × (sent : Header)
            × AnswersQuery (views_of H.view self.now.chains.chains) (S.keys self.now.suite) request.now.message request.now.source request.now.octets
            now (option_copied edns.entry) request.now.transport sent reply
            × HandsOver (R.sink handle.old) reply sent request.now.message.metadata (R.sink handle.new) told) }
        ensures refused { IfErr result (λ fault. fault ≡ ServiceFault.OutOfMemory false) }
        ensures untouched { OnErr result (R.sink handle.new ≡ R.sink handle.old) }
    {
        let message = request.message();
        let received = received_of(request, now);
        match lookup_by(
            &self.suite,
            &self.chains,
            edns,
            self.alloc,
            message,
            received,
        ) {
            Ok(sent) => Ok(hand_over(&message.metadata(), sent, handle)),
            Err(_) => Err(ServiceFault::OutOfMemory { applied: false }),
        }
    }
}

impl<S: TsigSuite, H: ZoneHandler> RequestHandler for Catalog<S, H> {
    ghost replies = { λ catalog request moment sent reply left. (left ≡ record catalog { chains = left.chains })
        × RepliesToRequest (views_of H.view catalog.chains.chains) catalog.nsid (S.keys catalog.suite) request moment sent reply (views_of H.view left.chains.chains) };

    ghost refuses = { λ catalog request moment fault left. (left ≡ record catalog { chains = left.chains })
        × RefusesRequest (views_of H.view catalog.chains.chains) (S.keys catalog.suite) request moment fault (views_of H.view left.chains.chains) };

    fn handle_request<R: ResponseHandler>(
        &mut self,
        request: &Request<'_>,
        now: u64,
        response_handle: &mut R,
    ) -> Result<ResponseInfo, ServiceFault> {
        Catalog::handle_request(self, request, now, response_handle)
    }
}
