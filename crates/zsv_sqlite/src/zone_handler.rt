//! A guarded zone, as a server asks its handler.

ghost use Rattle.std.specs.Prelude.{◌≡◌, None, Ok, Err, IfOk, IsOk, OnErr, option_map};
ghost use Rattle.zst_request.specs.Handed.{TransfersView, view_context};
ghost use Rattle.zst_request.specs.Requested.{asked_of, context_of};
ghost use Rattle.zst_request.specs.Updating.{UpdatesView, update_context};
ghost use Rattle.zst_request.specs.Views.{Stored};
ghost use Rattle.zsv_sqlite.specs.Guarded.{guarded_zone};
ghost use Rattle.zsv_sqlite.specs.Laws.{AliasesAlone, HasNs, HasOneSoa};

use crate::handler::SqliteZoneHandler;
use std::alloc::{AllocError, Global};
use std::mem;
use zst_draft::{
    AuthLookup, AxfrPolicy, LookupControlFlow, LookupError, LookupOptions, Name, NameKey,
    NxProofKind, RecordType, ResponseCode, ZoneHandler, ZoneTransfer, ZoneType,
};
use zst_request::{Nsec3QueryInfo, TSigResponseContext, ZoneRequest};

/// Look-ups are those of the zone without its guard.
impl<K: Drop> ZoneHandler for SqliteZoneHandler<K> {
    ghost use Rattle.zst_request.specs.Views.{Stored};
    ghost use Rattle.zsv_sqlite.specs.Guarded.{guarded_zone};

    ghost view = { λ handler. Stored (guarded_zone handler) };

    fn zone_type(&self) -> ZoneType {
        self.in_memory().zone_type()
    }

    /// The guard's policy; the zone's own is asked after it.
    fn axfr_policy(&self) -> AxfrPolicy {
        self.guard_policy()
    }

    fn origin(&self) -> &Name {
        self.in_memory().origin()
    }

    fn nx_proof_kind(&self) -> Option<&NxProofKind> {
        self.in_memory().nx_proof_kind()
    }

    fn search<'z>(
        &'z self,
        alloc: Global,
        request: &ZoneRequest<'_>,
        options: LookupOptions,
    ) -> Result<
        (
            LookupControlFlow<AuthLookup<'z>>,
            Option<TSigResponseContext>,
        ),
        AllocError,
    > {
        self.in_memory().search(alloc, request, options)
    }

    fn search_at<'z>(
        &'z self,
        alloc: Global,
        key: &NameKey,
        request: &ZoneRequest<'_>,
        options: LookupOptions,
    ) -> Result<
        (
            LookupControlFlow<AuthLookup<'z>>,
            Option<TSigResponseContext>,
        ),
        AllocError,
    > {
        self.in_memory().search_at(alloc, key, request, options)
    }

    fn lookup<'z>(
        &'z self,
        alloc: Global,
        name: &Name,
        record_type: RecordType,
        options: LookupOptions,
    ) -> Result<LookupControlFlow<AuthLookup<'z>>, AllocError> {
        self.in_memory().lookup(alloc, name, record_type, options)
    }

    fn lookup_origin<'z>(
        &'z self,
        alloc: Global,
        record_type: RecordType,
        options: LookupOptions,
    ) -> Result<LookupControlFlow<AuthLookup<'z>>, AllocError> {
        self.in_memory().lookup_origin(alloc, record_type, options)
    }

    fn consult<'z>(
        &'z self,
        alloc: Global,
        name: &Name,
        record_type: RecordType,
        options: LookupOptions,
        last: LookupControlFlow<AuthLookup<'z>>,
    ) -> Result<
        (
            LookupControlFlow<AuthLookup<'z>>,
            Option<TSigResponseContext>,
        ),
        AllocError,
    > {
        self.in_memory()
            .consult(alloc, name, record_type, options, last)
    }

    /// The guard's policy is asked first, then the zone's own. It takes no memory where the reply isn't signed.
    fn zone_transfer<'z>(
        &'z self,
        alloc: Global,
        request: &ZoneRequest<'_>,
        options: LookupOptions,
        now: u64,
    ) -> Result<
        Option<
            (
                Result<ZoneTransfer<'z>, LookupError>,
                Option<TSigResponseContext>,
            ),
        >,
        AllocError,
    >
        ensures given { IfOk result (TransfersView (Stored (guarded_zone self.now)) (asked_of request.now) options.dnssec_ok now) }
        ensures unsigned { view_context (Stored (guarded_zone self.now)) (asked_of request.now) now ≡ None → IsOk result }
    {
        let (permitted, context) = self.authorize_transfer(alloc, request, now)?;
        match permitted {
            Ok(()) => Ok(Some((self.in_memory().zone.transfer(alloc, options), context))),
            Err(code) => Ok(Some((Err(LookupError::ResponseCode(code)), context))),
        }
    }

    fn nsec_records<'z>(
        &'z self,
        alloc: Global,
        name: &Name,
        options: LookupOptions,
    ) -> Result<LookupControlFlow<AuthLookup<'z>>, AllocError> {
        self.in_memory().nsec_records(alloc, name, options)
    }

    fn nsec3_records<'z>(
        &'z self,
        alloc: Global,
        info: Nsec3QueryInfo<'_>,
        options: LookupOptions,
    ) -> Result<LookupControlFlow<AuthLookup<'z>>, AllocError> {
        self.in_memory().nsec3_records(alloc, info, options)
    }

    fn update(
        &mut self,
        alloc: Global,
        request: ZoneRequest<'_>,
        now: u64,
    ) -> Result<(Result<bool, ResponseCode>, Option<TSigResponseContext>), AllocError>
        ensures told { IfOk result (λ given. UpdatesView (Stored (guarded_zone self.old)) (asked_of request.entry) given.0
            (Stored (guarded_zone self.new))) }
        ensures context { IfOk result (λ given. option_map context_of given.1
            ≡ update_context (Stored (guarded_zone self.old)) (asked_of request.entry) now) }
        ensures err { OnErr result (Stored (guarded_zone self.new) ≡ Stored (guarded_zone self.old)) }
        ensures unsigned { update_context (Stored (guarded_zone self.old)) (asked_of request.entry) now ≡ None
            → result ≡ Ok (Err ResponseCode.Refused, None) }
        ensures keys { self.new.in_memory.keys ≡ self.old.in_memory.keys }
        ensures alias { AliasesAlone (guarded_zone self.old) → AliasesAlone (guarded_zone self.new) }
        ensures soa { HasOneSoa (guarded_zone self.old) → HasOneSoa (guarded_zone self.new) }
        ensures ns { HasNs (guarded_zone self.old) → HasNs (guarded_zone self.new) }
    {
        let Ok((permitted, context)) = self.authorize_update(alloc, &request, now) else {
            mem::drop(request);
            return Err(AllocError);
        };
        if let Err(code) = permitted {
            mem::drop(request);
            return Ok((Err(code), context));
        }
        let answer = self.change(alloc, request.prerequisites, request.updates)?;
        Ok((answer, context))
    }
}
