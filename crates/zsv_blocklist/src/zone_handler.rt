//! A list of blocked names, as a server asks its handler.

ghost use Rattle.std.specs.Prelude.{◌≡◌, None, Ok, Err, IfOk, IsOk, OnErr, option_map};
ghost use Rattle.zst_request.specs.Blocking.{blocked_answer};
ghost use Rattle.zst_request.specs.Handed.{TransfersView, view_context};
ghost use Rattle.zst_request.specs.Handling.{Blocks, enforced_answer, is_enforced};
ghost use Rattle.zst_request.specs.dnw_name.DomainName.{lowercase_name};
ghost use Rattle.zst_request.specs.Requested.{asked_of, context_of};
ghost use Rattle.zst_request.specs.Updating.{UpdatesView, update_context};
ghost use Rattle.zst_request.specs.Views.{Blocked};
ghost use Rattle.zsv_blocklist.specs.Answers.{ShowsIf};

use crate::handler::BlocklistZoneHandler;
use std::alloc::{AllocError, Global};
use std::mem;
use zst_request::{
    AuthLookup, AxfrPolicy, BlocklistConsultAction, LookupControlFlow, LookupError, LookupOptions,
    LookupRecords, Name, NameKey, Nsec3QueryInfo, NxProofKind, RecordType, ResponseCode,
    TSigResponseContext, ZoneHandler, ZoneRequest, ZoneTransfer, ZoneType, no_proof,
};

impl ZoneHandler for BlocklistZoneHandler {
    ghost use Rattle.zst_request.specs.Views.{Blocked};

    ghost view = { λ list. Blocked list };

    fn zone_type(&self) -> ZoneType {
        ZoneType::External
    }

    fn axfr_policy(&self) -> AxfrPolicy {
        AxfrPolicy::Deny
    }

    fn origin(&self) -> &Name {
        &self.origin
    }

    fn nx_proof_kind(&self) -> Option<&NxProofKind> {
        None
    }

    /// What `search_at` answers.
    fn search<'z>(
        &'z self,
        alloc: Global,
        request: &ZoneRequest<'_>,
        options: LookupOptions,
    ) -> Result<
        (
            LookupControlFlow<AuthLookup<'z>>,
            Option<TSigResponseContext>,
        ),
        AllocError,
    > {
        let key = NameKey::of(alloc, request.name)?;
        self.search_at(alloc, &key, request, options)
    }

    /// What `lookup` answers. It makes no key of the name.
    fn search_at<'z>(
        &'z self,
        alloc: Global,
        key: &NameKey,
        request: &ZoneRequest<'_>,
        options: LookupOptions,
    ) -> Result<
        (
            LookupControlFlow<AuthLookup<'z>>,
            Option<TSigResponseContext>,
        ),
        AllocError,
    > {
        let flow = self.flow(alloc, request.name, key, request.query_type)?;
        Ok((flow, None))
    }

    /// It breaks off with its own records for a name that it blocks, and skips any other.
    fn lookup<'z>(
        &'z self,
        alloc: Global,
        name: &Name,
        record_type: RecordType,
        options: LookupOptions,
    ) -> Result<LookupControlFlow<AuthLookup<'z>>, AllocError> {
        let key = NameKey::of(alloc, name)?;
        self.flow(alloc, name, &key, record_type)
    }

    /// The last result, but where the list is enforced and blocks the name: then what `lookup` answers.
    fn consult<'z>(
        &'z self,
        alloc: Global,
        name: &Name,
        record_type: RecordType,
        options: LookupOptions,
        last: LookupControlFlow<AuthLookup<'z>>,
    ) -> Result<
        (
            LookupControlFlow<AuthLookup<'z>>,
            Option<TSigResponseContext>,
        ),
        AllocError,
    > {
        match self.enforced(alloc, name, record_type) {
            Ok(Some(found)) => {
                mem::drop(last);
                Ok((LookupControlFlow::Break(Ok(found)), None))
            }
            Ok(None) => Ok((last, None)),
            Err(refused) => {
                mem::drop(last);
                Err(refused)
            }
        }
    }

    /// None: a blocklist is no zone. It takes no memory.
    fn zone_transfer<'z>(
        &'z self,
        alloc: Global,
        request: &ZoneRequest<'_>,
        options: LookupOptions,
        now: u64,
    ) -> Result<
        Option<
            (
                Result<ZoneTransfer<'z>, LookupError>,
                Option<TSigResponseContext>,
            ),
        >,
        AllocError,
    >
        ensures given { IfOk result (TransfersView (Blocked self.now) (asked_of request.now) options.dnssec_ok now) }
        ensures unsigned { view_context (Blocked self.now) (asked_of request.now) now ≡ None → IsOk result }
        ensures none { result ≡ Ok None }
    {
        Ok(None)
    }

    /// There are none: a list of blocked names is no zone. It takes no memory.
    fn nsec_records<'z>(
        &'z self,
        alloc: Global,
        name: &Name,
        options: LookupOptions,
    ) -> Result<LookupControlFlow<AuthLookup<'z>>, AllocError> {
        Ok(no_proof("a list of blocked names has no NSEC records"))
    }

    /// There are none: a list of blocked names is no zone. It takes no memory.
    fn nsec3_records<'z>(
        &'z self,
        alloc: Global,
        info: Nsec3QueryInfo<'_>,
        options: LookupOptions,
    ) -> Result<LookupControlFlow<AuthLookup<'z>>, AllocError> {
        Ok(no_proof("a list of blocked names has no NSEC3 records"))
    }

    /// Refuses each: a list is changed by its own calls. It takes no memory.
    fn update(
        &mut self,
        alloc: Global,
        request: ZoneRequest<'_>,
        now: u64,
    ) -> Result<(Result<bool, ResponseCode>, Option<TSigResponseContext>), AllocError>
        ensures refused { result ≡ Ok (Err ResponseCode.NotImp, None) }
        ensures told { IfOk result (λ given. UpdatesView (Blocked self.old) (asked_of request.entry) given.0 (Blocked self.new)) }
        ensures context { IfOk result (λ given. option_map context_of given.1 ≡ update_context (Blocked self.old) (asked_of request.entry) now) }
        ensures err { OnErr result (Blocked self.new ≡ Blocked self.old) }
    {
        mem::drop(request);
        Ok((Err(ResponseCode::NotImp), None))
    }
}

impl BlocklistZoneHandler {
    // The answer to a blocked name, which has this key, or on to the next handler.
    fn flow(
        &self,
        alloc: Global,
        name: &Name,
        key: &NameKey,
        record_type: RecordType,
    ) -> Result<LookupControlFlow<AuthLookup<'_>>, AllocError>
        requires { key.now ≡ lowercase_name name.now }
        ensures { IfOk result (λ flow. Blocks (blocked_answer self.now name.now record_type) flow) }
    {
        match self.answer(alloc, name, key, record_type)? {
            Some(found) => Ok(LookupControlFlow::Break(Ok(found))),
            None => Ok(LookupControlFlow::Skip),
        }
    }

    // The answer in place of other handlers', if the list is enforced and blocks the name.
    fn enforced(
        &self,
        alloc: Global,
        name: &Name,
        record_type: RecordType,
    ) -> Result<Option<AuthLookup<'_>>, AllocError>
        ensures { IfOk result (λ found. ShowsIf (enforced_answer self.now name.now record_type) found) }
    {
        if !is_enforced(self.config.consult_action) {
            return Ok(None);
        }
        let key = NameKey::of(alloc, name)?;
        self.answer(alloc, name, &key, record_type)
    }

    // The answer to a blocked name, which has this key.
    fn answer(
        &self,
        alloc: Global,
        name: &Name,
        key: &NameKey,
        record_type: RecordType,
    ) -> Result<Option<AuthLookup<'_>>, AllocError>
        requires { key.now ≡ lowercase_name name.now }
        ensures { IfOk result (λ found. ShowsIf (blocked_answer self.now name.now record_type) found) }
    {
        match self.listed(key) {
            Some(listed) if self.config.block_message.is_none() => {
                return Ok(Some(self.lend(listed, record_type)));
            }
            Some(_) => {}
            None => {
                if !self.has_wildcard_at(name, key)? {
                    return Ok(None);
                }
            }
        }
        let records = self.records(alloc, name, record_type)?;
        Ok(Some(AuthLookup::Records {
            answers: LookupRecords::Section(records),
            additionals: None,
        }))
    }
}

// Whether other handlers' answers give way.
fn is_enforced(action: BlocklistConsultAction) -> bool
    ensures { result ≡ is_enforced action }
{
    matches!(action, BlocklistConsultAction::Enforce)
}
