//! The signatures of a set, one by each key (RFC 4034 section 3.1).
ghost use Rattle.std.specs.Prelude.{◌≡◌, true, false, IfErr, IfOk, OnOk};
ghost use Rattle.std.specs.List.{AllByRecursion};
ghost use Rattle.zst_handler.specs.zst_record.RecordSets.{is_signature_of};
ghost use Rattle.drd_denial.specs.Rrsig.{Signing};
ghost use Rattle.zst_denial.specs.Signing.{AreSignatures, IsSignatureBy, any_fails, unsigned};

use crate::signer::{SignerFault, ZoneSigner};
use drd_denial::{NULL, ZoneSignature, rrsig_data};
use std::alloc::{AllocError, Global};
use zst_handler::{RData, Record, RecordSet, RecordType, push};

/// The signatures of a set by the keys, in their order (RFC 4035 section 2.2). Where a key fails, there are none.
pub fn sign_set<K: ZoneSigner>(
    alloc: Global,
    keys: &[K],
    set: &RecordSet,
    now: u64,
) -> Result<Vec<Record>, SignerFault>
    ensures given { IfOk result (λ signatures. AreSignatures K.gives keys.now set.now now signatures.items) }
    ensures fit { IfOk result (λ signatures. AllByRecursion (λ r. is_signature_of set.now r ≡ true) signatures.items) }
    ensures ok { OnOk result (any_fails K.fails keys.now set.now now ≡ false) }
    ensures failed { IfErr result (λ e. e ≡ SignerFault.Failed → any_fails K.fails keys.now set.now now ≡ true) }
{
    let mut signatures = Vec::new(alloc);
    'keys: for key in keys {
        match sign_by(alloc, key, set, now) {
            Ok(signature) => {
                if push(&mut signatures, signature).is_err() {
                    return Err(SignerFault::OutOfMemory);
                }
            }
            Err(fault) => return Err(fault),
        }
    }
    Ok(signatures)
}

// The signature of a set by one key.
fn sign_by<K: ZoneSigner>(
    alloc: Global,
    key: &K,
    set: &RecordSet,
    now: u64,
) -> Result<Record, SignerFault>
    ensures given { IfOk result (λ r. (given : Signing) × K.gives key.now (unsigned set.now) now given × IsSignatureBy set.now given r) }
    ensures fit { IfOk result (λ r. is_signature_of set.now r ≡ true) }
    ensures ok { OnOk result (K.fails key.now (unsigned set.now) now ≡ false) }
    ensures failed { IfErr result (λ e. e ≡ SignerFault.Failed → K.fails key.now (unsigned set.now) now ≡ true) }
{
    let signature = match key.sign(alloc, set, now) {
        Ok(signature) => signature,
        Err(fault) => return Err(fault),
    };
    match rrsig_record(alloc, set, &signature) {
        Ok(signature) => Ok(signature),
        Err(_) => Err(SignerFault::OutOfMemory),
    }
}

// The RRSIG record of a set by what a signer gave.
fn rrsig_record(
    alloc: Global,
    set: &RecordSet,
    signature: &ZoneSignature,
) -> Result<Record, AllocError>
    ensures given { IfOk result (IsSignatureBy set.now signature.now) }
    ensures fit { IfOk result (λ r. is_signature_of set.now r ≡ true) }
{
    let ttl = set.ttl();
    let labels = set.name().num_labels();
    let octets = rrsig_data(alloc, set.record_type(), labels, ttl, signature)?;
    let name = set.name().clone()?;
    Ok(Record {
        name,
        dns_class: set.dns_class(),
        ttl,
        rdata: RData::Unknown {
            code: RecordType::RRSIG,
            rdata: NULL::with(octets),
        },
    })
}
