//! A zone kept in memory, with a guard that says who may transfer and change it.

ghost use Rattle.std.specs.Prelude.{◌≡◌, ◌∷◌, ◌++◌, IfErr, OnOk, [], true, not, None, Some, Ok, Err, IfOk, IsOk, OnErr, option_map};
ghost use Rattle.std.specs.Borrow.{sem};
ghost use Rattle.zst_request.specs.Prerequisites.{first_refused, prerequisites_refused, prescan_refused, refused_if};
ghost use Rattle.zst_request.specs.Requested.{asked_of, context_of, signed_by};
ghost use Rattle.zst_request.specs.Transfers.{guard_refused, policy_refused, transfer_context};
ghost use Rattle.zst_request.specs.Updating.{ChangesBy, context_for, is_good, soa_refused, update_context};
ghost use Rattle.zst_request.specs.Views.{Stored};
ghost use Rattle.zst_request.specs.zst_codes.declared.response_code.ResponseCode.TheVariants as codes;
ghost use Rattle.zst_draft.specs.zst_zone.Securings.{RefusesToSecure, SecuresBy};
ghost use Rattle.zst_map.specs.zst_key.Ancestors.{or_else};
ghost use Rattle.zsv_sqlite.specs.Guarded.{AppliesAll, LendsZone, forbidden, guarded_zone, refused_before, refused_unasked, unless_refused};
ghost use Rattle.zsv_sqlite.specs.Laws.{AliasesAlone, HasNs, HasOneSoa};

use crate::changes::apply_changes;
use crate::context::context_for;
use crate::prerequisites::prerequisites_refusal;
use crate::prescan::prescan;
use std::alloc::{AllocError, Global};
use std::mem;
use zst_draft::{
    AxfrPolicy, DnssecZoneHandler, InMemoryZoneHandler, Record, ResponseCode, ZoneError, ZoneSigner,
};
use zst_request::{TSigResponseContext, TsigVerdict, ZoneRequest};

/// A zone kept in memory with its keys, which messages may change (RFC 2136), if its guard allows it. Changes are kept nowhere
/// else.
#[derive(Drop)]
pub struct SqliteZoneHandler<K> {
    in_memory: InMemoryZoneHandler<K>,
    axfr_policy: AxfrPolicy,
    allow_update: bool,
}

impl<K> SqliteZoneHandler<K> {
    /// The zone, guarded by a policy of transfers and by whether messages may change it.
    pub fn new(
        in_memory: InMemoryZoneHandler<K>,
        axfr_policy: AxfrPolicy,
        allow_update: bool,
    ) -> SqliteZoneHandler<K>
        ensures { result ≡ record { in_memory = in_memory; axfr_policy = axfr_policy; allow_update = allow_update } }
    {
        SqliteZoneHandler {
            in_memory,
            axfr_policy,
            allow_update,
        }
    }

    /// Sets whether messages may change the zone.
    pub fn set_allow_update(&mut self, allow_update: bool)
        ensures { self.new ≡ record self.old { allow_update = allow_update } }
    {
        self.allow_update = allow_update;
    }

    /// Sets the guard's policy of transfers.
    pub fn set_axfr_policy(&mut self, axfr_policy: AxfrPolicy)
        ensures { self.new ≡ record self.old { axfr_policy = axfr_policy } }
    {
        self.axfr_policy = axfr_policy;
    }

    /// The guard's policy of transfers.
    pub(crate) fn guard_policy(&self) -> AxfrPolicy
        ensures { result ≡ self.now.axfr_policy }
    {
        self.axfr_policy
    }

    /// The zone without its guard.
    pub fn in_memory(&self) -> &InMemoryZoneHandler<K>
        ensures { result.now ≡ self.now.in_memory }
    {
        &self.in_memory
    }

    /// The zone without its guard, to be changed in place.
    pub fn in_memory_mut(&mut self) -> &mut InMemoryZoneHandler<K>
        ensures* writes_back { sem 𝓛 (LendsZone K.row self.entry result) }
        ensures value { result.now ≡ self.old.in_memory }
    {
        &mut self.in_memory
    }

    /// Whether the zone is as the prerequisites of an update ask (RFC 2136 section 3.2), or by which code they are refused.
    /// It takes no memory without prerequisites, nor to refuse one by its form before one asks what the zone has.
    pub fn verify_prerequisites(
        &self,
        alloc: Global,
        prerequisites: &[Record],
    ) -> Result<Result<(), ResponseCode>, AllocError>
        ensures verified { IfOk result (λ verified. verified ≡ unless_refused (prerequisites_refused (guarded_zone self.now) prerequisites.now)) }
        ensures none { prerequisites.now ≡ [] → IsOk result }
        ensures form { (code : ResponseCode) → refused_unasked (guarded_zone self.now).origin prerequisites.now ≡ Some code → result ≡ Ok (Err code) }
    {
        let refused = prerequisites_refusal(alloc, &self.in_memory.zone, prerequisites)?;
        Ok(unless_refused(refused))
    }

    /// Whether a request may change the zone (RFC 2136 section 3.3), or by which code it is refused; and what the reply is
    /// signed with. It takes no memory where the reply isn't signed. The moment is given in seconds since 1970.
    pub fn authorize_update(
        &self,
        alloc: Global,
        request: &ZoneRequest<'_>,
        now: u64,
    ) -> Result<(Result<(), ResponseCode>, Option<TSigResponseContext>), AllocError>
        ensures permitted { IfOk result (λ given. given.0 ≡ unless_refused (forbidden (guarded_zone self.now) (asked_of request.now))) }
        ensures context { IfOk result (λ given. option_map context_of given.1 ≡ update_context (Stored (guarded_zone self.now)) (asked_of request.now) now) }
        ensures unsigned { update_context (Stored (guarded_zone self.now)) (asked_of request.now) now ≡ None
            → result ≡ Ok (Err ResponseCode.Refused, None) }
    {
        if !self.allow_update {
            return Ok((Err(ResponseCode::Refused), None));
        }
        match &request.tsig {
            None => Ok((Err(ResponseCode::Refused), None)),
            Some(tsig) => {
                let context = context_for(alloc, request.id, request.verdict, now, tsig)?;
                Ok((if_good(request.verdict), Some(context)))
            }
        }
    }

    // Whether the guard lets a request transfer the zone (RFC 5936 section 5), or by which code it is refused; and what the reply
    // is signed with. It takes no memory where the reply isn't signed.
    pub(crate) fn authorize_transfer(
        &self,
        alloc: Global,
        request: &ZoneRequest<'_>,
        now: u64,
    ) -> Result<(Result<(), ResponseCode>, Option<TSigResponseContext>), AllocError>
        ensures permitted { IfOk result (λ given. given.0 ≡ unless_refused (guard_refused (guarded_zone self.now).guard (asked_of request.now))) }
        ensures context { IfOk result (λ given. option_map context_of given.1 ≡ transfer_context (guarded_zone self.now) (asked_of request.now) now) }
        ensures unsigned { transfer_context (guarded_zone self.now) (asked_of request.now) now ≡ None → IsOk result }
    {
        match self.axfr_policy {
            AxfrPolicy::AllowAll => Ok((Ok(()), None)),
            AxfrPolicy::Deny => Ok((Err(ResponseCode::Refused), None)),
            AxfrPolicy::AllowSigned => authorize_signed(alloc, request, now),
        }
    }

    /// Whether the records of an update have a form that can be applied (RFC 2136 section 3.4.1), or by which code they are
    /// refused. It takes no memory.
    pub fn pre_scan(&self, changes: &[Record]) -> Result<Result<(), ResponseCode>, AllocError>
        ensures { result ≡ Ok (unless_refused (first_refused (prescan_refused (guarded_zone self.now).origin) changes.now)) }
    {
        Ok(unless_refused(prescan(self.in_memory.origin(), changes)))
    }

    // Why an update that is permitted is refused before its records are applied.
    fn refusal(
        &self,
        alloc: Global,
        prerequisites: &[Record],
        changes: &[Record],
    ) -> Result<Option<ResponseCode>, AllocError>
        ensures refused { IfOk result (λ refused. refused ≡ refused_before (guarded_zone self.now) prerequisites.now changes.now) }
        ensures none { prerequisites.now ≡ [] → result ≡ Ok (first_refused (prescan_refused (guarded_zone self.now).origin) changes.now) }
        ensures form { (code : ResponseCode) → refused_unasked (guarded_zone self.now).origin prerequisites.now ≡ Some code → result ≡ Ok (Some code) }
    {
        let refused = prerequisites_refusal(alloc, &self.in_memory.zone, prerequisites)?;
        if refused.is_some() {
            return Ok(refused);
        }
        Ok(prescan(self.in_memory.origin(), changes))
    }

    // The answer to an update that is permitted, and the zone after it. Without prerequisites it takes no memory to refuse
    // records by their form.
    pub(crate) fn change(
        &mut self,
        alloc: Global,
        prerequisites: &[Record],
        changes: Vec<Record>,
    ) -> Result<Result<bool, ResponseCode>, AllocError>
        ensures ok { IfOk result (λ answer. ChangesBy (or_else (refused_before (guarded_zone self.old) prerequisites.now changes.items)
            (soa_refused (guarded_zone self.old) changes.items)) true (guarded_zone self.old) changes.items answer (guarded_zone self.new)) }
        ensures keys { self.new.in_memory.keys ≡ self.old.in_memory.keys }
        ensures err { OnErr result (self.new ≡ self.old) }
        ensures form { prerequisites.now ≡ [] → (code : ResponseCode) → first_refused (prescan_refused (guarded_zone self.old).origin) changes.items ≡ Some code
            → result ≡ Ok (Err code) }
        ensures asked { (code : ResponseCode) → refused_unasked (guarded_zone self.old).origin prerequisites.now ≡ Some code → result ≡ Ok (Err code) }
    {
        let Ok(refused) = self.refusal(alloc, prerequisites, &changes) else {
            mem::drop(changes);
            return Err(AllocError);
        };
        if let Some(code) = refused {
            mem::drop(changes);
            return Ok(Err(code));
        }
        self.update_records(alloc, changes, true)
    }

    /// Applies records that `pre_scan` accepts, in order, all or none (RFC 2136 section 3.4.2). Where the serial number is to
    /// be incremented, it says whether they changed the zone, and refuses those that would change one without an SOA at its
    /// apex. Where it isn't, it says false.
    pub fn update_records(
        &mut self,
        alloc: Global,
        records: Vec<Record>,
        increment: bool,
    ) -> Result<Result<bool, ResponseCode>, AllocError>
        requires { first_refused (prescan_refused (guarded_zone self.old).origin) records.items ≡ None }
        ensures ok { IfOk result (λ answer. AppliesAll increment (guarded_zone self.old) records.items answer (guarded_zone self.new)) }
        ensures keys { self.new.in_memory.keys ≡ self.old.in_memory.keys }
        ensures err { OnErr result (self.new ≡ self.old) }
        ensures alias { AliasesAlone (guarded_zone self.old) → AliasesAlone (guarded_zone self.new) }
        ensures soa { HasOneSoa (guarded_zone self.old) → HasOneSoa (guarded_zone self.new) }
        ensures ns { HasNs (guarded_zone self.old) → HasNs (guarded_zone self.new) }
    {
        apply_changes(alloc, &mut self.in_memory.zone, records, increment)
    }
}

// Whether a request is signed and its signature good (RFC 8945 section 5.2), or by which code it is refused; and what the reply
// is signed with. It takes no memory where the request isn't signed.
fn authorize_signed(
    alloc: Global,
    request: &ZoneRequest<'_>,
    now: u64,
) -> Result<(Result<(), ResponseCode>, Option<TSigResponseContext>), AllocError>
    ensures permitted { IfOk result (λ given. given.0
        ≡ unless_refused (policy_refused AxfrPolicy.AllowSigned (option_map signed_by request.now.tsig) request.now.verdict)) }
    ensures context { IfOk result (λ given. option_map context_of given.1
        ≡ option_map (context_for request.now.id request.now.verdict now) (option_map signed_by request.now.tsig)) }
    ensures unsigned { request.now.tsig ≡ None → IsOk result }
{
    let Some(tsig) = &request.tsig else {
        return Ok((Err(ResponseCode::Refused), None));
    };
    let made = context_for(alloc, request.id, request.verdict, now, tsig)?;
    Ok((if_good(request.verdict), Some(made)))
}

// What a test returns that refuses by a code, or doesn't.
fn unless_refused(refused: Option<ResponseCode>) -> Result<(), ResponseCode>
    ensures { result ≡ unless_refused refused }
{
    match refused {
        None => Ok(()),
        Some(code) => Err(code),
    }
}

// Whether the signature is good (RFC 8945 section 5.2).
fn if_good(verdict: TsigVerdict) -> Result<(), ResponseCode>
    ensures { result ≡ unless_refused (refused_if (not (is_good verdict)) codes.NotAuth) }
{
    match verdict {
        TsigVerdict::Good => Ok(()),
        _ => Err(ResponseCode::NotAuth),
    }
}

impl<K: ZoneSigner> SqliteZoneHandler<K> {
    /// Adds a key after the others. It signs nothing yet. The guard stays.
    pub fn add_zone_signing_key(&mut self, alloc: Global, key: K) -> Result<(), AllocError>
        ensures keys { OnOk result (self.new.in_memory.keys.items ≡ self.old.in_memory.keys.items ++ key ∷ []) }
        ensures zone { OnOk result (self.new.in_memory.zone ≡ self.old.in_memory.zone) }
        ensures guard { self.new ≡ record self.old { in_memory = self.new.in_memory } }
        ensures err { OnErr result (self.new ≡ self.old) }
    {
        self.in_memory.add_zone_signing_key(alloc, key)
    }

    /// Secures the zone by its keys, as `StoredZone::secure` does. Without keys it changes nothing. The guard stays.
    pub fn secure_zone(&mut self, alloc: Global, now: u64) -> Result<(), ZoneError>
        ensures ok { OnOk result (SecuresBy K.gives K.fails self.old.in_memory.keys.items now self.old.in_memory.zone self.new.in_memory.zone) }
        ensures none { self.old.in_memory.keys.items ≡ [] → IsOk result }
        ensures keys { self.new.in_memory.keys ≡ self.old.in_memory.keys }
        ensures guard { self.new ≡ record self.old { in_memory = self.new.in_memory } }
        ensures refused { IfErr result (RefusesToSecure K.fails self.old.in_memory.keys.items now self.old.in_memory.zone) }
        ensures err { OnErr result (self.new ≡ self.old) }
    {
        self.in_memory.secure_zone(alloc, now)
    }
}

impl<K: ZoneSigner> DnssecZoneHandler<K> for SqliteZoneHandler<K> {
    ghost zone = { λ handler. handler.in_memory.zone };

    ghost keys = { λ handler. handler.in_memory.keys.items };

    /// The guard stays.
    fn add_zone_signing_key(&mut self, alloc: Global, key: K) -> Result<(), AllocError>
        ensures keys { OnOk result (self.new.in_memory.keys.items ≡ self.old.in_memory.keys.items ++ key ∷ []) }
        ensures zone { OnOk result (self.new.in_memory.zone ≡ self.old.in_memory.zone) }
        ensures guard { self.new ≡ record self.old { in_memory = self.new.in_memory } }
        ensures err { OnErr result (self.new ≡ self.old) }
    {
        self.add_zone_signing_key(alloc, key)
    }

    /// The guard stays.
    fn secure_zone(&mut self, alloc: Global, now: u64) -> Result<(), ZoneError>
        ensures ok { OnOk result (SecuresBy K.gives K.fails self.old.in_memory.keys.items now self.old.in_memory.zone self.new.in_memory.zone) }
        ensures none { self.old.in_memory.keys.items ≡ [] → IsOk result }
        ensures keys { OnOk result (self.new.in_memory.keys.items ≡ self.old.in_memory.keys.items) }
        ensures refused { IfErr result (RefusesToSecure K.fails self.old.in_memory.keys.items now self.old.in_memory.zone) }
        ensures guard { self.new ≡ record self.old { in_memory = self.new.in_memory } }
        ensures err { OnErr result (self.new ≡ self.old) }
    {
        self.secure_zone(alloc, now)
    }
}
