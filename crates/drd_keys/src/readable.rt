//! Data of certificates and fingerprints: each code is the one that its number stands for, as those that are read.
ghost use Rattle.std.specs.Prelude.{◌≡◌, ◌↔◌, IsTrue};
ghost use Rattle.drd_keys.specs.Cert.{cert_algorithm_number, cert_algorithm_of, cert_type_number, cert_type_of, IsNamedCert};
ghost use Rattle.drd_keys.specs.Sshfp.{fingerprint_type_number, fingerprint_type_of, sshfp_algorithm_number, sshfp_algorithm_of, IsNamedSshfp};
ghost use Rattle.drd_keys.specs.Tlsa.{cert_usage_number, cert_usage_of, matching_number, matching_of, selector_number, selector_of, IsNamedTlsa};

use crate::cert::{Algorithm as KeyAlgorithm, CERT, CertType};
use crate::sshfp::{Algorithm, FingerprintType, SSHFP};
use crate::tlsa::{CertUsage, Matching, Selector, TLSA};

/// Whether kind and algorithm are those of their numbers.
pub fn is_named_cert(cert: &CERT) -> bool
    ensures { IsTrue result ↔ IsNamedCert cert.now }
{
    is_own_kind(cert.cert_type) && is_own_key_algorithm(cert.algorithm)
}

/// Whether algorithm and hash are those of their numbers.
pub fn is_named_sshfp(sshfp: &SSHFP) -> bool
    ensures { IsTrue result ↔ IsNamedSshfp sshfp.now }
{
    is_own_algorithm(sshfp.algorithm) && is_own_hash(sshfp.fingerprint_type)
}

/// Whether use, part and form are those of their numbers.
pub fn is_named_tlsa(tlsa: &TLSA) -> bool
    ensures { IsTrue result ↔ IsNamedTlsa tlsa.now }
{
    is_own_usage(tlsa.cert_usage) && is_own_part(tlsa.selector) && is_own_form(tlsa.matching)
}

fn is_own_kind(kind: CertType) -> bool
    ensures { IsTrue result ↔ (kind ≡ cert_type_of (cert_type_number kind)) }
{
    match kind {
        CertType::Experimental(number) => {
            matches!(CertType::from(number), CertType::Experimental(_))
        }
        CertType::Unassigned(number) => matches!(CertType::from(number), CertType::Unassigned(_)),
        _ => true,
    }
}

fn is_own_key_algorithm(algorithm: KeyAlgorithm) -> bool
    ensures { IsTrue result ↔ (algorithm ≡ cert_algorithm_of (cert_algorithm_number algorithm)) }
{
    match algorithm {
        KeyAlgorithm::Reserved(number) => {
            matches!(KeyAlgorithm::from(number), KeyAlgorithm::Reserved(_))
        }
        KeyAlgorithm::Unassigned(number) => {
            matches!(KeyAlgorithm::from(number), KeyAlgorithm::Unassigned(_))
        }
        _ => true,
    }
}

fn is_own_algorithm(algorithm: Algorithm) -> bool
    ensures { IsTrue result ↔ (algorithm ≡ sshfp_algorithm_of (sshfp_algorithm_number algorithm)) }
{
    match algorithm {
        Algorithm::Unassigned(number) => matches!(
            Algorithm::from(number),
            Algorithm::Unassigned(_)
        ),
        _ => true,
    }
}

fn is_own_hash(hash: FingerprintType) -> bool
    ensures { IsTrue result ↔ (hash ≡ fingerprint_type_of (fingerprint_type_number hash)) }
{
    match hash {
        FingerprintType::Unassigned(number) => {
            matches!(
                FingerprintType::from(number),
                FingerprintType::Unassigned(_)
            )
        }
        _ => true,
    }
}

fn is_own_usage(usage: CertUsage) -> bool
    ensures { IsTrue result ↔ (usage ≡ cert_usage_of (cert_usage_number usage)) }
{
    match usage {
        CertUsage::Unassigned(number) => matches!(
            CertUsage::from(number),
            CertUsage::Unassigned(_)
        ),
        _ => true,
    }
}

fn is_own_part(part: Selector) -> bool
    ensures { IsTrue result ↔ (part ≡ selector_of (selector_number part)) }
{
    match part {
        Selector::Unassigned(number) => matches!(Selector::from(number), Selector::Unassigned(_)),
        _ => true,
    }
}

fn is_own_form(form: Matching) -> bool
    ensures { IsTrue result ↔ (form ≡ matching_of (matching_number form)) }
{
    match form {
        Matching::Unassigned(number) => matches!(Matching::from(number), Matching::Unassigned(_)),
        _ => true,
    }
}
