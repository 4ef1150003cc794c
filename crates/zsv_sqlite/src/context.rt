//! What the reply to a signed update or question for a transfer is signed with (RFC 8945 section 5.3).

ghost use Rattle.std.specs.Prelude.{◌≡◌, IfOk};
ghost use Rattle.zst_request.specs.Requested.{context_of, signed_by};
ghost use Rattle.zst_request.specs.Updating.{context_for, mac_repeated, tsig_error};

use std::alloc::{AllocError, Global};
use zst_request::{RequestTsig, TSigResponseContext, TsigVerdict};

/// What the reply to the request of this identifier is signed with at a moment.
pub(crate) fn context_for(
    alloc: Global,
    id: u16,
    verdict: TsigVerdict,
    moment: u64,
    tsig: &RequestTsig<'_>,
) -> Result<TSigResponseContext, AllocError>
    ensures { IfOk result (λ context. context_of context ≡ context_for id verdict moment (signed_by tsig.now)) }
{
    Ok(TSigResponseContext {
        request_id: id,
        time: moment,
        key_name: tsig.key_name.clone()?,
        algorithm: tsig.algorithm.clone()?,
        request_mac: Vec::from_slice(alloc, mac_repeated(verdict, tsig.mac))?,
        error: tsig_error(verdict),
    })
}

// The error field of a TSIG (RFC 8945 section 3).
fn tsig_error(verdict: TsigVerdict) -> u16
    ensures { result ≡ tsig_error verdict }
{
    match verdict {
        TsigVerdict::Good => 0,
        TsigVerdict::BadSignature => 16,
        TsigVerdict::UnknownKey => 17,
        TsigVerdict::BadTime => 18,
    }
}

// The MAC that the reply's signature covers: none where the request's was refused as BADSIG or BADKEY.
fn mac_repeated(verdict: TsigVerdict, mac: &[u8]) -> &[u8]
    ensures { result.now ≡ mac_repeated verdict mac.now }
{
    match verdict {
        TsigVerdict::BadSignature | TsigVerdict::UnknownKey => &[],
        TsigVerdict::Good | TsigVerdict::BadTime => mac,
    }
}
