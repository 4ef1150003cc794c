//! The two kinds of handlers of a linked server.

ghost use Rattle.std.specs.Prelude.{◌≡◌, None, Ok, Err, IfOk, OnErr, option_map};
ghost use Rattle.authority_server.specs.zsv_catalog.zsv_answer.zst_request.Requested.{asked_of, context_of};
ghost use Rattle.authority_server.specs.zsv_catalog.zsv_answer.zst_request.Updating.{UpdatesView, update_context};
ghost use Rattle.authority_handle.specs.Worlds.{view_of};

use authority_load::{
    AuthLookup, AxfrPolicy, InMemoryZoneHandler, LookupControlFlow, LookupError, LookupOptions,
    NxProofKind, ResponseCode, ZoneTransfer, ZoneType,
};
use authority_server::{Name, RecordType, ZoneHandler};
use std::alloc::{AllocError, Global};
use zsv_blocklist::{
    BlocklistZoneHandler, NameKey, Nsec3QueryInfo, TSigResponseContext, ZoneRequest,
};

/// A zone or a blocklist.
#[derive(Drop)]
pub enum Handler {
    /// A zone.
    Zone(InMemoryZoneHandler<()>),
    /// A blocklist.
    Blocklist(BlocklistZoneHandler),
}

impl ZoneHandler for Handler {
    ghost use Rattle.authority_handle.specs.Worlds.{view_of};

    ghost view = { λ handler. view_of handler };

    fn zone_type(&self) -> ZoneType {
        match self {
            Handler::Zone(zone) => zone.zone_type(),
            Handler::Blocklist(list) => list.zone_type(),
        }
    }

    fn axfr_policy(&self) -> AxfrPolicy {
        match self {
            Handler::Zone(zone) => zone.axfr_policy(),
            Handler::Blocklist(list) => list.axfr_policy(),
        }
    }

    fn origin(&self) -> &Name {
        match self {
            Handler::Zone(zone) => zone.origin(),
            Handler::Blocklist(list) => list.origin(),
        }
    }

    fn nx_proof_kind(&self) -> Option<&NxProofKind> {
        match self {
            Handler::Zone(zone) => zone.nx_proof_kind(),
            Handler::Blocklist(list) => list.nx_proof_kind(),
        }
    }

    fn search<'z>(
        &'z self,
        alloc: Global,
        request: &ZoneRequest<'_>,
        options: LookupOptions,
    ) -> Result<
        (
            LookupControlFlow<AuthLookup<'z>>,
            Option<TSigResponseContext>,
        ),
        AllocError,
    > {
        match self {
            Handler::Zone(zone) => zone.search(alloc, request, options),
            Handler::Blocklist(list) => list.search(alloc, request, options),
        }
    }

    fn search_at<'z>(
        &'z self,
        alloc: Global,
        key: &NameKey,
        request: &ZoneRequest<'_>,
        options: LookupOptions,
    ) -> Result<
        (
            LookupControlFlow<AuthLookup<'z>>,
            Option<TSigResponseContext>,
        ),
        AllocError,
    > {
        match self {
            Handler::Zone(zone) => zone.search_at(alloc, key, request, options),
            Handler::Blocklist(list) => list.search_at(alloc, key, request, options),
        }
    }

    fn lookup<'z>(
        &'z self,
        alloc: Global,
        name: &Name,
        record_type: RecordType,
        options: LookupOptions,
    ) -> Result<LookupControlFlow<AuthLookup<'z>>, AllocError> {
        match self {
            Handler::Zone(zone) => zone.lookup(alloc, name, record_type, options),
            Handler::Blocklist(list) => list.lookup(alloc, name, record_type, options),
        }
    }

    fn consult<'z>(
        &'z self,
        alloc: Global,
        name: &Name,
        record_type: RecordType,
        options: LookupOptions,
        last: LookupControlFlow<AuthLookup<'z>>,
    ) -> Result<
        (
            LookupControlFlow<AuthLookup<'z>>,
            Option<TSigResponseContext>,
        ),
        AllocError,
    > {
        match self {
            Handler::Zone(zone) => zone.consult(alloc, name, record_type, options, last),
            Handler::Blocklist(list) => list.consult(alloc, name, record_type, options, last),
        }
    }

    fn zone_transfer<'z>(
        &'z self,
        alloc: Global,
        request: &ZoneRequest<'_>,
        options: LookupOptions,
        now: u64,
    ) -> Result<
        Option<
            (
                Result<ZoneTransfer<'z>, LookupError>,
                Option<TSigResponseContext>,
            ),
        >,
        AllocError,
    > {
        match self {
            Handler::Zone(zone) => zone.zone_transfer(alloc, request, options, now),
            Handler::Blocklist(list) => list.zone_transfer(alloc, request, options, now),
        }
    }

    fn nsec_records<'z>(
        &'z self,
        alloc: Global,
        name: &Name,
        options: LookupOptions,
    ) -> Result<LookupControlFlow<AuthLookup<'z>>, AllocError> {
        match self {
            Handler::Zone(zone) => zone.nsec_records(alloc, name, options),
            Handler::Blocklist(list) => list.nsec_records(alloc, name, options),
        }
    }

    fn nsec3_records<'z>(
        &'z self,
        alloc: Global,
        info: Nsec3QueryInfo<'_>,
        options: LookupOptions,
    ) -> Result<LookupControlFlow<AuthLookup<'z>>, AllocError> {
        match self {
            Handler::Zone(zone) => zone.nsec3_records(alloc, info, options),
            Handler::Blocklist(list) => list.nsec3_records(alloc, info, options),
        }
    }

    /// Refuses each, as zones in memory and blocklists do.
    fn update(
        &mut self,
        alloc: Global,
        request: ZoneRequest<'_>,
        now: u64,
    ) -> Result<(Result<bool, ResponseCode>, Option<TSigResponseContext>), AllocError>
        ensures refused { result ≡ Ok (Err ResponseCode.NotImp, None) }
        ensures told { IfOk result (λ given. UpdatesView (view_of self.old) (asked_of request.entry) given.0 (view_of self.new)) }
        ensures context { IfOk result (λ given. option_map context_of given.1 ≡ update_context (view_of self.old) (asked_of request.entry) now) }
        ensures err { OnErr result (view_of self.new ≡ view_of self.old) }
    {
        match self {
            Handler::Zone(zone) => zone.update(alloc, request, now),
            Handler::Blocklist(list) => list.update(alloc, request, now),
        }
    }
}
