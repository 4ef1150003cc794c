//! SSHFP (RFC 4255).
ghost use Rattle.std.specs.Prelude.{◌≡◌, ◌∷◌, [], Some};
ghost use Rattle.std.specs.Cmp.Rules.{comparing, hashing};
ghost use Rattle.std.specs.Hash as fed;
ghost use Rattle.std.proofs.Common.{rules};
ghost use Rattle.std.specs.Cmp.{partial_equiv_from_equiv};
ghost use Rattle.drd_fields.specs.dnw_encoder.declared.modes.RDataEncoding.TheVariants.{Other};
ghost use Rattle.drd_fields.specs.Fields.{octet, rest};
ghost use Rattle.drd_fields.specs.Equality.{Tells, fields_eq};
ghost use Rattle.drd_fields.proofs.EqualityLaws.{data_equiv};
ghost use Rattle.drd_fields.specs.Order.{fields_input};
ghost use Rattle.drd_fields.proofs.OrderLaws.{fields-alike};
ghost use Rattle.drd_fields.specs.Writing.{EmitsData, RefusesFields, canonical_octets};
ghost use Rattle.drd_keys.specs.Fields.{sshfp_fields};
ghost use Rattle.drd_keys.specs.Print.{sshfp_print};
ghost use Rattle.drd_keys.specs.Texts.{IsSshfpText, RefusesSshfpText};

use drd_fields::{
    BinEncodable, BinEncoder, FieldData, FieldRef, Fields, RDataEncoding, Rest, RestField,
    emit_data, hash_list, is_same_data,
};
use drd_words::{DecodeError, HexData, ProtoError, TextData, fmt_hex};
use std::fmt;
use std::hash::{Hash, Hasher};

/// The algorithm of a host's key. Two algorithms are equal where their numbers are.
#[derive(Clone, Copy, Debug)]
pub enum Algorithm {
    Reserved,
    RSA,
    DSA,
    ECDSA,
    Ed25519,
    Ed448,
    /// Any other number.
    Unassigned(u8),
}

impl From<u8> for Algorithm {
    ghost use Rattle.drd_keys.specs.Sshfp.{sshfp_algorithm_number, sshfp_algorithm_of};

    ghost from_gives = { λ number algorithm. (algorithm ≡ sshfp_algorithm_of number) × (sshfp_algorithm_number algorithm ≡ number) };

    fn from(number: u8) -> Algorithm {
        match number {
            0 => Algorithm::Reserved,
            1 => Algorithm::RSA,
            2 => Algorithm::DSA,
            3 => Algorithm::ECDSA,
            4 => Algorithm::Ed25519,
            6 => Algorithm::Ed448,
            _ => Algorithm::Unassigned(number),
        }
    }
}

impl From<Algorithm> for u8 {
    ghost use Rattle.drd_keys.specs.Sshfp.{sshfp_algorithm_number};

    ghost from_gives = { λ algorithm number. number ≡ sshfp_algorithm_number algorithm };

    fn from(algorithm: Algorithm) -> u8 {
        match algorithm {
            Algorithm::Reserved => 0,
            Algorithm::RSA => 1,
            Algorithm::DSA => 2,
            Algorithm::ECDSA => 3,
            Algorithm::Ed25519 => 4,
            Algorithm::Ed448 => 6,
            Algorithm::Unassigned(number) => number,
        }
    }
}

impl PartialEq for Algorithm {
    ghost use Rattle.drd_keys.specs.Sshfp.{same_sshfp_algorithm};

    ghost eq = { same_sshfp_algorithm };

    ghost laws = { Prim.search (comparing, rules) };

    fn eq(&self, other: &Algorithm) -> bool {
        u8::from(*self) == u8::from(*other)
    }
}

impl Eq for Algorithm {
    ghost laws = { Prim.search (comparing, rules) };
}

impl Hash for Algorithm {
    ghost use Rattle.drd_keys.specs.Sshfp.{sshfp_algorithm_number};

    ghost hash_input = { λ algorithm. fed.u8 (sshfp_algorithm_number algorithm) };

    ghost respects_eq = { Prim.search (hashing, rules) };

    fn hash<H: Hasher>(&self, state: &mut H) {
        u8::from(*self).hash(state);
    }
}

/// The hash of a fingerprint. Two are equal where their numbers are.
#[derive(Clone, Copy, Debug)]
pub enum FingerprintType {
    Reserved,
    SHA1,
    SHA256,
    /// Any other number.
    Unassigned(u8),
}

impl From<u8> for FingerprintType {
    ghost use Rattle.drd_keys.specs.Sshfp.{fingerprint_type_number, fingerprint_type_of};

    ghost from_gives = { λ number fingerprint_type. (fingerprint_type ≡ fingerprint_type_of number) × (fingerprint_type_number fingerprint_type ≡ number) };

    fn from(number: u8) -> FingerprintType {
        match number {
            0 => FingerprintType::Reserved,
            1 => FingerprintType::SHA1,
            2 => FingerprintType::SHA256,
            _ => FingerprintType::Unassigned(number),
        }
    }
}

impl From<FingerprintType> for u8 {
    ghost use Rattle.drd_keys.specs.Sshfp.{fingerprint_type_number};

    ghost from_gives = { λ fingerprint_type number. number ≡ fingerprint_type_number fingerprint_type };

    fn from(fingerprint_type: FingerprintType) -> u8 {
        match fingerprint_type {
            FingerprintType::Reserved => 0,
            FingerprintType::SHA1 => 1,
            FingerprintType::SHA256 => 2,
            FingerprintType::Unassigned(number) => number,
        }
    }
}

impl PartialEq for FingerprintType {
    ghost use Rattle.drd_keys.specs.Sshfp.{same_fingerprint_type};

    ghost eq = { same_fingerprint_type };

    ghost laws = { Prim.search (comparing, rules) };

    fn eq(&self, other: &FingerprintType) -> bool {
        u8::from(*self) == u8::from(*other)
    }
}

impl Eq for FingerprintType {
    ghost laws = { Prim.search (comparing, rules) };
}

impl Hash for FingerprintType {
    ghost use Rattle.drd_keys.specs.Sshfp.{fingerprint_type_number};

    ghost hash_input = { λ fingerprint_type. fed.u8 (fingerprint_type_number fingerprint_type) };

    ghost respects_eq = { Prim.search (hashing, rules) };

    fn hash<H: Hasher>(&self, state: &mut H) {
        u8::from(*self).hash(state);
    }
}

/// A fingerprint of the key of a host that takes SSH connections.
#[derive(Clone, Debug, Drop)]
pub struct SSHFP {
    pub algorithm: Algorithm,
    pub fingerprint_type: FingerprintType,
    pub fingerprint: Vec<u8>,
}

impl SSHFP {
    pub fn new(
        algorithm: Algorithm,
        fingerprint_type: FingerprintType,
        fingerprint: Vec<u8>,
    ) -> SSHFP
        ensures algorithm { result.algorithm ≡ algorithm }
        ensures fingerprint_type { result.fingerprint_type ≡ fingerprint_type }
        ensures fingerprint { result.fingerprint ≡ fingerprint }
    {
        SSHFP {
            algorithm,
            fingerprint_type,
            fingerprint,
        }
    }

    // The fields of the data, as they are written.
    fn parts(&self) -> (u8, (u8, RestField<'_>))
        ensures { octet result.0 ∷ octet result.1.0 ∷ rest result.1.1.0.now ∷ [] ≡ sshfp_fields self.now }
    {
        let fingerprint = RestField(&self.fingerprint);
        (
            self.algorithm.into(),
            (self.fingerprint_type.into(), fingerprint),
        )
    }
}

impl FieldData for SSHFP {
    ghost use Rattle.std.proofs.Common.{refl};
    ghost use Rattle.drd_keys.specs.Sshfp.{IsNamedSshfp};

    type Parts = (u8, (u8, Rest));

    ghost fields = { sshfp_fields };

    ghost is_valid = { IsNamedSshfp };

    fn of_parts(parts: (u8, (u8, Rest))) -> Result<SSHFP, DecodeError> {
        let (algorithm, (fingerprint_type, Rest(fingerprint))) = parts;
        Ok(SSHFP::new(algorithm.into(), fingerprint_type.into(), fingerprint))
    }

    fn fields(&self) -> Fields<'_> {
        Fields::new(&[
            FieldRef::U8(self.algorithm.into()),
            FieldRef::U8(self.fingerprint_type.into()),
            FieldRef::Octets(&self.fingerprint),
        ])
    }

    ghost laws = { λ sshfp. refl };
}

impl BinEncodable for SSHFP {
    ghost emits = { λ sshfp. EmitsData Other (sshfp_fields sshfp) };

    ghost refuses = { λ sshfp old e new. RefusesFields (sshfp_fields sshfp) old e };

    fn emit(&self, encoder: &mut BinEncoder<'_>) -> Result<(), ProtoError> {
        emit_data(encoder, RDataEncoding::Other, &self.parts())
    }
}

impl TextData for SSHFP {
    ghost use Rattle.drd_keys.specs.TextLaws.{sshfp_parts};

    type Parts = (u8, (u8, HexData));

    ghost is_text = { λ words origin sshfp. IsSshfpText words sshfp };

    ghost refuses = { λ words origin e. RefusesSshfpText words e };

    /// Two numbers, and the fingerprint in hex, in one word or several (RFC 4255 3.2).
    fn of_words(parts: (u8, (u8, HexData))) -> SSHFP {
        let (algorithm, (fingerprint_type, HexData(fingerprint))) = parts;
        SSHFP::new(algorithm.into(), fingerprint_type.into(), fingerprint)
    }

    ghost laws = { (λ words origin sshfp written. sshfp_parts words sshfp written, λ words origin e refused. refused) };
}

impl PartialEq for SSHFP {
    ghost eq = { λ a b. fields_eq (sshfp_fields a) (sshfp_fields b) };

    ghost laws = { partial_equiv_from_equiv (data_equiv sshfp_fields) };

    /// Whether the octets are the same.
    fn eq(&self, other: &SSHFP) -> bool
        ensures value { result ≡ fields_eq (sshfp_fields self.now) (sshfp_fields other.now) }
        ensures canonical { Tells result (canonical_octets (sshfp_fields self.now)) (canonical_octets (sshfp_fields other.now)) }
    {
        is_same_data(self, other)
    }
}

impl Eq for SSHFP {
    ghost laws = { data_equiv sshfp_fields };
}

impl Hash for SSHFP {
    ghost hash_input = { λ sshfp. fields_input (sshfp_fields sshfp) };

    ghost respects_eq = { λ a b. fields-alike (sshfp_fields a) (sshfp_fields b) };

    fn hash<H: Hasher>(&self, state: &mut H) {
        hash_list(self.fields().as_slice(), state);
    }
}

impl fmt::Display for SSHFP {
    ghost output = { λ sshfp. Some (sshfp_print sshfp) };

    fn fmt<W: fmt::Write>(&self, f: &mut fmt::Formatter<W>) -> fmt::Result {
        let algorithm = u8::from(self.algorithm);
        let fingerprint_type = u8::from(self.fingerprint_type);
        write!(f, "{algorithm} {fingerprint_type} ")?;
        fmt_hex(f, &self.fingerprint)
    }
}
