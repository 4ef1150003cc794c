//! What a server asks of the handler of a zone.

ghost use Rattle.std.specs.Prelude.{◌≡◌, false, IfOk, IsNone, IsOk, None, OnErr, option_copied, option_map};
ghost use Rattle.zst_denial.specs.dnw_name.DomainName.{lowercase_name};
ghost use Rattle.zst_request.specs.Denying.{Denies, ShowsNsec, ShowsNsec3};
ghost use Rattle.zst_request.specs.Handed.{TransfersView, view_context};
ghost use Rattle.zst_request.specs.Handling.{AnswersQuestion, Consults, HandlerAnswers, LacksProof};
ghost use Rattle.zst_request.specs.Requested.{asked_of, context_of};
ghost use Rattle.zst_request.specs.Updating.{UpdatesView, update_context};
ghost use Rattle.zst_request.specs.Views.{View, axfr_policy_of, nx_proof_kind_of, origin_of, zone_type_of};

use crate::request::{TSigResponseContext, ZoneRequest};
use crate::transfer::ZoneTransfer;
use std::alloc::{AllocError, Global};
use std::io;
use zst_codes::Nsec3QueryInfo;
use zst_denial::{
    AuthLookup, AxfrPolicy, LookupControlFlow, LookupError, LookupOptions, Name, NameKey,
    NxProofKind, RecordType, ResponseCode, ZoneType,
};

/// What a server asks of the handler of a zone. Beside an answer stands what the reply to a signed request is signed with, if
/// it is to be signed. A call that may take memory is handed where from, and answers an `AllocError` where none is left.
pub trait ZoneHandler: Drop {
    ghost view: { Self → View };

    /// What this server is to the zone.
    fn zone_type(&self) -> ZoneType
        ensures { result ≡ zone_type_of (view self.now) };

    /// Who may transfer the zone.
    fn axfr_policy(&self) -> AxfrPolicy
        ensures { result ≡ axfr_policy_of (view self.now) };

    /// Where the zone begins. The name is lent as it was given, in capitals too, where the Rust crates lend a `LowerName`.
    fn origin(&self) -> &Name
        ensures { result.now ≡ origin_of (view self.now) };

    /// How the zone proves that a name is absent, if it does.
    fn nx_proof_kind(&self) -> Option<&NxProofKind>
        ensures { option_copied result ≡ nx_proof_kind_of (view self.now) };

    /// Whether the handler validates signatures of records (RFC 4035 section 5): it doesn't.
    fn can_validate_dnssec(&self) -> bool
        ensures { result ≡ false }
    {
        false
    }

    /// What the handler answers to a request. A stored zone answers as `lookup` does, but for the type AXFR, for which it
    /// breaks off with `LookupError::NetError`.
    fn search<'z>(
        &'z self,
        alloc: Global,
        request: &ZoneRequest<'_>,
        options: LookupOptions,
    ) -> Result<
        (
            LookupControlFlow<AuthLookup<'z>>,
            Option<TSigResponseContext>,
        ),
        AllocError,
    >
        ensures flow { IfOk result (λ given. AnswersQuestion (view self.now) request.now.name.now request.now.query_type options given.0) }
        ensures context { IfOk result (λ given. IsNone given.1) };

    /// What `search` answers, where the key of the request's name is known: so a server makes it once for all that it asks.
    fn search_at<'z>(
        &'z self,
        alloc: Global,
        key: &NameKey,
        request: &ZoneRequest<'_>,
        options: LookupOptions,
    ) -> Result<
        (
            LookupControlFlow<AuthLookup<'z>>,
            Option<TSigResponseContext>,
        ),
        AllocError,
    >
        requires { key.now ≡ lowercase_name request.now.name.now }
        ensures flow { IfOk result (λ given. AnswersQuestion (view self.now) request.now.name.now request.now.query_type options given.0) }
        ensures context { IfOk result (λ given. IsNone given.1) }
    {
        let _ = key;
        self.search(alloc, request, options)
    }

    /// What the handler answers to a name and a type. A stored zone always continues; a list of blocked names breaks off
    /// with its own records for those that it blocks, and skips all others.
    fn lookup<'z>(
        &'z self,
        alloc: Global,
        name: &Name,
        record_type: RecordType,
        options: LookupOptions,
    ) -> Result<LookupControlFlow<AuthLookup<'z>>, AllocError>
        ensures { IfOk result (λ flow. HandlerAnswers (view self.now) name.now record_type options flow) };

    /// What `lookup` answers to the origin and a type.
    fn lookup_origin<'z>(
        &'z self,
        alloc: Global,
        record_type: RecordType,
        options: LookupOptions,
    ) -> Result<LookupControlFlow<AuthLookup<'z>>, AllocError>
        ensures { IfOk result (λ flow. HandlerAnswers (view self.now) (origin_of (view self.now)) record_type options flow) }
    {
        self.lookup(alloc, self.origin(), record_type, options)
    }

    /// What the handler makes of the last result of the other handlers in its chain. A stored zone gives it back, and so does
    /// a list of blocked names, but where it blocks the name and is enforced: then its own records take the result's place.
    // No body fits every handler: it would be proved for stored zones and lists alike, which answer differently.
    fn consult<'z>(
        &'z self,
        alloc: Global,
        name: &Name,
        record_type: RecordType,
        options: LookupOptions,
        last: LookupControlFlow<AuthLookup<'z>>,
    ) -> Result<
        (
            LookupControlFlow<AuthLookup<'z>>,
            Option<TSigResponseContext>,
        ),
        AllocError,
    >
        ensures flow { IfOk result (λ given. Consults (view self.now) name.now record_type last.entry given.0) }
        ensures context { IfOk result (λ given. IsNone given.1) };

    /// The zone as it is transferred (RFC 5936), or the code by which the request is refused; and what the reply is signed
    /// with. A blocklist has no zone, and answers `None`. It takes no memory where the reply isn't signed. The moment is given in
    /// seconds since 1970.
    // No body fits every handler: a blocklist has no zone.
    fn zone_transfer<'z>(
        &'z self,
        alloc: Global,
        request: &ZoneRequest<'_>,
        options: LookupOptions,
        now: u64,
    ) -> Result<
        Option<
            (
                Result<ZoneTransfer<'z>, LookupError>,
                Option<TSigResponseContext>,
            ),
        >,
        AllocError,
    >
        ensures given { IfOk result (TransfersView (view self.now) (asked_of request.now) options.dnssec_ok now) }
        ensures unsigned { view_context (view self.now) (asked_of request.now) now ≡ None → IsOk result };

    /// The NSEC sets that deny a name, or a type of it: the one for the name, and the one for the wildcard at its closest
    /// encloser (RFC 4035 section 3.1.3). A stored zone shows those that it has, whatever its kind of proof; a blocklist has none,
    /// and continues with an error of input or output.
    // No body fits every handler: a blocklist has no zone.
    fn nsec_records<'z>(
        &'z self,
        alloc: Global,
        name: &Name,
        options: LookupOptions,
    ) -> Result<LookupControlFlow<AuthLookup<'z>>, AllocError>
        ensures { IfOk result (Denies (view self.now) (ShowsNsec name.now options.dnssec_ok)) };

    /// The NSEC3 sets that deny a name, or a type of it (RFC 5155 section 7.2), as `nsec_records` does by names.
    // No body fits every handler: a blocklist has no zone.
    fn nsec3_records<'z>(
        &'z self,
        alloc: Global,
        info: Nsec3QueryInfo<'_>,
        options: LookupOptions,
    ) -> Result<LookupControlFlow<AuthLookup<'z>>, AllocError>
        ensures { IfOk result (Denies (view self.now) (ShowsNsec3 info.entry options.dnssec_ok)) };

    /// Updates the zone (RFC 2136), and returns whether that changed it, or by which code it is refused; then the zone is as it
    /// was. A zone that takes no updates, and a list of blocked names, answer NotImp. The moment is given in seconds since
    /// 1970.
    // No body fits every handler: a guarded zone does more than refuse.
    fn update(
        &mut self,
        alloc: Global,
        request: ZoneRequest<'_>,
        now: u64,
    ) -> Result<(Result<bool, ResponseCode>, Option<TSigResponseContext>), AllocError>
        ensures told { IfOk result (λ given. UpdatesView (view self.old) (asked_of request.entry) given.0 (view self.new)) }
        ensures context { IfOk result (λ given. option_map context_of given.1 ≡ update_context (view self.old) (asked_of request.entry) now) }
        ensures err { OnErr result (view self.new ≡ view self.old) };
}

/// What a handler answers that has no records that deny a name, for a reason in words.
pub fn no_proof<'z>(reason: &str) -> LookupControlFlow<AuthLookup<'z>>
    ensures { LacksProof result }
{
    LookupControlFlow::Continue(Err(LookupError::Io(io::Error::other(reason))))
}

/// Whatever handler is in the box.
impl ZoneHandler for Box<dyn ZoneHandler> {
    ghost view = { λ b. (ZoneHandler-box b).view b.value };

    fn zone_type(&self) -> ZoneType {
        (**self).zone_type()
    }

    fn axfr_policy(&self) -> AxfrPolicy {
        (**self).axfr_policy()
    }

    fn origin(&self) -> &Name {
        (**self).origin()
    }

    fn nx_proof_kind(&self) -> Option<&NxProofKind> {
        (**self).nx_proof_kind()
    }

    fn can_validate_dnssec(&self) -> bool {
        (**self).can_validate_dnssec()
    }

    fn search<'z>(
        &'z self,
        alloc: Global,
        request: &ZoneRequest<'_>,
        options: LookupOptions,
    ) -> Result<
        (
            LookupControlFlow<AuthLookup<'z>>,
            Option<TSigResponseContext>,
        ),
        AllocError,
    > {
        (**self).search(alloc, request, options)
    }

    fn search_at<'z>(
        &'z self,
        alloc: Global,
        key: &NameKey,
        request: &ZoneRequest<'_>,
        options: LookupOptions,
    ) -> Result<
        (
            LookupControlFlow<AuthLookup<'z>>,
            Option<TSigResponseContext>,
        ),
        AllocError,
    > {
        (**self).search_at(alloc, key, request, options)
    }

    fn lookup<'z>(
        &'z self,
        alloc: Global,
        name: &Name,
        record_type: RecordType,
        options: LookupOptions,
    ) -> Result<LookupControlFlow<AuthLookup<'z>>, AllocError> {
        (**self).lookup(alloc, name, record_type, options)
    }

    fn lookup_origin<'z>(
        &'z self,
        alloc: Global,
        record_type: RecordType,
        options: LookupOptions,
    ) -> Result<LookupControlFlow<AuthLookup<'z>>, AllocError> {
        (**self).lookup_origin(alloc, record_type, options)
    }

    fn consult<'z>(
        &'z self,
        alloc: Global,
        name: &Name,
        record_type: RecordType,
        options: LookupOptions,
        last: LookupControlFlow<AuthLookup<'z>>,
    ) -> Result<
        (
            LookupControlFlow<AuthLookup<'z>>,
            Option<TSigResponseContext>,
        ),
        AllocError,
    > {
        (**self).consult(alloc, name, record_type, options, last)
    }

    fn zone_transfer<'z>(
        &'z self,
        alloc: Global,
        request: &ZoneRequest<'_>,
        options: LookupOptions,
        now: u64,
    ) -> Result<
        Option<
            (
                Result<ZoneTransfer<'z>, LookupError>,
                Option<TSigResponseContext>,
            ),
        >,
        AllocError,
    > {
        (**self).zone_transfer(alloc, request, options, now)
    }

    fn nsec_records<'z>(
        &'z self,
        alloc: Global,
        name: &Name,
        options: LookupOptions,
    ) -> Result<LookupControlFlow<AuthLookup<'z>>, AllocError> {
        (**self).nsec_records(alloc, name, options)
    }

    fn nsec3_records<'z>(
        &'z self,
        alloc: Global,
        info: Nsec3QueryInfo<'_>,
        options: LookupOptions,
    ) -> Result<LookupControlFlow<AuthLookup<'z>>, AllocError> {
        (**self).nsec3_records(alloc, info, options)
    }

    fn update(
        &mut self,
        alloc: Global,
        request: ZoneRequest<'_>,
        now: u64,
    ) -> Result<(Result<bool, ResponseCode>, Option<TSigResponseContext>), AllocError> {
        (**self).update(alloc, request, now)
    }
}
