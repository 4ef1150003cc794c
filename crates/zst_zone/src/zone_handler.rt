//! A zone in memory, as a server asks its handler.

ghost use Rattle.std.specs.Prelude.{◌≡◌, None, Ok, Err, IfOk, IsOk, OnErr, option_map};
ghost use Rattle.zst_request.specs.Handed.{TransfersView, view_context};
ghost use Rattle.zst_request.specs.Requested.{asked_of, context_of};
ghost use Rattle.zst_request.specs.Updating.{UpdatesView, update_context};
ghost use Rattle.zst_request.specs.Views.{Stored};

use crate::in_memory::InMemoryZoneHandler;
use std::alloc::{AllocError, Global};
use std::mem;
use zst_request::{
    AuthLookup, AxfrPolicy, LookupControlFlow, LookupError, LookupOptions, Name, NameKey,
    Nsec3QueryInfo, NxProofKind, RecordType, ResponseCode, TSigResponseContext, ZoneHandler,
    ZoneRequest, ZoneTransfer, ZoneType,
};

impl<K: Drop> ZoneHandler for InMemoryZoneHandler<K> {
    ghost use Rattle.zst_request.specs.Views.{Stored};

    ghost view = { λ handler. Stored handler.zone };

    fn zone_type(&self) -> ZoneType {
        self.zone.zone_type()
    }

    fn axfr_policy(&self) -> AxfrPolicy {
        self.zone.axfr_policy()
    }

    fn origin(&self) -> &Name {
        self.zone.origin()
    }

    fn nx_proof_kind(&self) -> Option<&NxProofKind> {
        self.zone.nx_proof_kind()
    }

    /// What `search_at` answers.
    fn search<'z>(
        &'z self,
        alloc: Global,
        request: &ZoneRequest<'_>,
        options: LookupOptions,
    ) -> Result<
        (
            LookupControlFlow<AuthLookup<'z>>,
            Option<TSigResponseContext>,
        ),
        AllocError,
    > {
        let key = NameKey::of(alloc, request.name)?;
        self.search_at(alloc, &key, request, options)
    }

    /// What `lookup` answers; a zone is handed over by `zone_transfer` alone, so a question for that is broken off. It makes
    /// no key of the name.
    fn search_at<'z>(
        &'z self,
        alloc: Global,
        key: &NameKey,
        request: &ZoneRequest<'_>,
        options: LookupOptions,
    ) -> Result<
        (
            LookupControlFlow<AuthLookup<'z>>,
            Option<TSigResponseContext>,
        ),
        AllocError,
    > {
        if request.query_type == RecordType::AXFR {
            return Ok((LookupControlFlow::Break(Err(LookupError::NetError)), None));
        }
        let flow = self
            .zone
            .lookup_at(alloc, request.name, key, request.query_type, options)?;
        Ok((flow, None))
    }

    fn lookup<'z>(
        &'z self,
        alloc: Global,
        name: &Name,
        record_type: RecordType,
        options: LookupOptions,
    ) -> Result<LookupControlFlow<AuthLookup<'z>>, AllocError> {
        self.zone.lookup(alloc, name, record_type, options)
    }

    /// It makes no key for the origin.
    fn lookup_origin<'z>(
        &'z self,
        alloc: Global,
        record_type: RecordType,
        options: LookupOptions,
    ) -> Result<LookupControlFlow<AuthLookup<'z>>, AllocError> {
        self.zone.lookup_origin(alloc, record_type, options)
    }

    /// The last result: a stored zone replaces none.
    fn consult<'z>(
        &'z self,
        alloc: Global,
        name: &Name,
        record_type: RecordType,
        options: LookupOptions,
        last: LookupControlFlow<AuthLookup<'z>>,
    ) -> Result<
        (
            LookupControlFlow<AuthLookup<'z>>,
            Option<TSigResponseContext>,
        ),
        AllocError,
    > {
        Ok((last, None))
    }

    /// Everybody or nobody gets the zone, by its policy. It makes no list of records, and takes no memory.
    fn zone_transfer<'z>(
        &'z self,
        alloc: Global,
        request: &ZoneRequest<'_>,
        options: LookupOptions,
        now: u64,
    ) -> Result<
        Option<
            (
                Result<ZoneTransfer<'z>, LookupError>,
                Option<TSigResponseContext>,
            ),
        >,
        AllocError,
    >
        ensures given { IfOk result (TransfersView (Stored self.now.zone) (asked_of request.now) options.dnssec_ok now) }
        ensures unsigned { view_context (Stored self.now.zone) (asked_of request.now) now ≡ None → IsOk result }
        ensures memory { IsOk result }
    {
        Ok(Some((self.zone.transfer(alloc, options), None)))
    }

    fn nsec_records<'z>(
        &'z self,
        alloc: Global,
        name: &Name,
        options: LookupOptions,
    ) -> Result<LookupControlFlow<AuthLookup<'z>>, AllocError> {
        let found = self.zone.nsec_denial(alloc, name, options)?;
        Ok(LookupControlFlow::Continue(Ok(found)))
    }

    fn nsec3_records<'z>(
        &'z self,
        alloc: Global,
        info: Nsec3QueryInfo<'_>,
        options: LookupOptions,
    ) -> Result<LookupControlFlow<AuthLookup<'z>>, AllocError> {
        let found = self.zone.nsec3_denial(alloc, info, options)?;
        Ok(LookupControlFlow::Continue(Ok(found)))
    }

    /// Refuses each: messages change a guarded zone alone. It takes no memory.
    fn update(
        &mut self,
        alloc: Global,
        request: ZoneRequest<'_>,
        now: u64,
    ) -> Result<(Result<bool, ResponseCode>, Option<TSigResponseContext>), AllocError>
        ensures refused { result ≡ Ok (Err ResponseCode.NotImp, None) }
        ensures told { IfOk result (λ given. UpdatesView (Stored self.old.zone) (asked_of request.entry) given.0 (Stored self.new.zone)) }
        ensures context { IfOk result (λ given. option_map context_of given.1 ≡ update_context (Stored self.old.zone) (asked_of request.entry) now) }
        ensures keys { self.new.keys ≡ self.old.keys }
        ensures err { OnErr result (Stored self.new.zone ≡ Stored self.old.zone) }
    {
        mem::drop(request);
        Ok((Err(self.zone.update_code()), None))
    }
}
