//! Keys that a server shares with others (RFC 8945).

ghost use Rattle.std.specs.Prelude.{◌≡◌, None, Ok, Some, Err, IfErr, IfOk, IfSome, option_map};
ghost use Rattle.zsv_chains.specs.zst_request.Requested.{context_of};
ghost use Rattle.zsv_reply.specs.zsv_message.zsv_parts.SignatureRecords.{TsigReadsBack};
ghost use Rattle.zsv_update.specs.Keys.{Keys, signature_of};

use std::alloc::{AllocError, Global};
use thiserror::Error;
use zsv_chains::{LowerName, TSigResponseContext, TsigVerdict};
use zsv_reply::TsigRecord;

/// Why a reply was not signed.
#[derive(Clone, Copy, Debug, PartialEq, Eq, Error)]
pub enum SignFault {
    /// There is no key to sign it with.
    #[error("not signed")]
    Failed,
    /// Out of memory.
    #[error("out of memory")]
    OutOfMemory,
}

/// Tests the signatures of requests, and signs replies, with keys that a server shares with others (RFC 8945 section 5). Its
/// answers are functions of the arguments, unless it is out of memory. A contract sees it as `Keys`.
pub trait TsigSuite {
    ghost keys: { Self → Keys };

    /// The verdict on the signature of a message for a zone, over all octets of the message, at a moment in seconds since 1970.
    fn verify(&self, zone: &LowerName, tsig: &TsigRecord, octets: &[u8], now: u64) -> TsigVerdict
        ensures { result ≡ (keys self.now).verdict zone.now (signature_of tsig.now) octets.now now };

    /// The signature of a reply with these octets, which reads back when it is written. Memory is asked for only where a key
    /// signs it.
    fn sign(
        &self,
        alloc: Global,
        context: &TSigResponseContext,
        octets: &[u8],
    ) -> Result<TsigRecord, SignFault>
        ensures back { IfOk result TsigReadsBack }
        ensures signed { IfOk result (λ tsig. (keys self.now).signature (context_of context.now) octets.now ≡ Some (signature_of tsig)) }
        ensures failed { IfErr result (λ fault. fault ≡ SignFault.Failed → (keys self.now).signature (context_of context.now) octets.now ≡ None) }
        ensures unsigned { (keys self.now).signature (context_of context.now) octets.now ≡ None → result ≡ Err SignFault.Failed };
}

/// No keys: every key is unknown, and nothing is signed.
#[derive(Clone, Copy, Debug)]
pub struct NoSuite;

impl TsigSuite for NoSuite {
    ghost use Rattle.zsv_update.specs.Keys.{no_keys};

    ghost keys = { λ suite. no_keys };

    fn verify(
        &self,
        _zone: &LowerName,
        _tsig: &TsigRecord,
        _octets: &[u8],
        _now: u64,
    ) -> TsigVerdict {
        TsigVerdict::UnknownKey
    }

    fn sign(
        &self,
        _alloc: Global,
        context: &TSigResponseContext,
        octets: &[u8],
    ) -> Result<TsigRecord, SignFault>
        ensures never { result ≡ Err SignFault.Failed }
        ensures back { IfOk result TsigReadsBack }
        ensures signed { IfOk result (λ tsig. no_keys.signature (context_of context.now) octets.now ≡ Some (signature_of tsig)) }
        ensures failed { IfErr result (λ fault. fault ≡ SignFault.Failed → no_keys.signature (context_of context.now) octets.now ≡ None) }
        ensures unsigned { no_keys.signature (context_of context.now) octets.now ≡ None → result ≡ Err SignFault.Failed }
    {
        Err(SignFault::Failed)
    }
}

/// The signature of a reply with these octets; `None` if no key signs it.
pub fn sign_octets<S: TsigSuite>(
    suite: &S,
    alloc: Global,
    context: &TSigResponseContext,
    octets: &[u8],
) -> Result<Option<TsigRecord>, AllocError>
    ensures back { IfOk result (λ found. IfSome found TsigReadsBack) }
    ensures signed { IfOk result (λ found. (S.keys suite.now).signature (context_of context.now) octets.now ≡ option_map signature_of found) }
    ensures unsigned { (S.keys suite.now).signature (context_of context.now) octets.now ≡ None → result ≡ Ok None }
{
    match suite.sign(alloc, context, octets) {
        Ok(tsig) => Ok(Some(tsig)),
        Err(SignFault::Failed) => Ok(None),
        Err(SignFault::OutOfMemory) => Err(AllocError),
    }
}
