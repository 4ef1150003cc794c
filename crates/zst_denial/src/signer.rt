//! What signs the sets of a zone.

use drd_denial::ZoneSignature;
use std::alloc::{AllocError, Global};
use thiserror::Error;
use zst_handler::RecordSet;

/// Why a signer gives no signature.
#[derive(Clone, Copy, Debug, PartialEq, Eq, Error)]
pub enum SignerFault {
    /// It can't sign the set at this moment.
    #[error("Failed")]
    Failed,
    /// Memory was refused.
    #[error("OutOfMemory")]
    OutOfMemory,
}

impl From<AllocError> for SignerFault {
    ghost use Rattle.std.specs.Prelude.{◌≡◌};
    ghost use Rattle.zst_denial.specs.declared.signer.SignerFault.TheVariants.{OutOfMemory};

    ghost from_gives = { λ _ fault. fault ≡ OutOfMemory };

    fn from(_refused: AllocError) -> SignerFault {
        SignerFault::OutOfMemory
    }
}

/// What signs the sets of a zone. It signs the records of a set, and looks at none of the signatures that the set has.
pub trait ZoneSigner: Drop {
    ghost use Rattle.std.specs.Prelude.{◌≡◌, ℕ, Bool, true, false, IfOk, IfErr, OnOk};
    ghost use Rattle.drd_denial.specs.Rrsig.{Signing};
    ghost use Rattle.zst_handler.specs.zst_record.RecordSets.{RRset};
    ghost use Rattle.zst_denial.specs.Signing.{unsigned};

    // Which signatures it may give for a set at a moment, and whether it fails to give one.
    ghost gives: { Self → RRset → ℕ → Signing → Type 0 };

    ghost fails: { Self → RRset → ℕ → Bool };

    /// A signature of the set, made at a moment in seconds since 1970.
    fn sign(&self, alloc: Global, set: &RecordSet, now: u64) -> Result<ZoneSignature, SignerFault>
        ensures given { IfOk result (λ given. gives self.now (unsigned set.now) now given) }
        ensures ok { OnOk result (fails self.now (unsigned set.now) now ≡ false) }
        ensures failed { IfErr result (λ e. e ≡ SignerFault.Failed → fails self.now (unsigned set.now) now ≡ true) };
}
