//! The kinds of certificates and the algorithms of their keys, by their numbers (RFC 4398 2.1, 2.2).
ghost use Rattle.std.specs.Prelude.{◌≡◌, Some};
ghost use Rattle.std.specs.Fmt.{decimal};
ghost use Rattle.std.specs.Cmp.Rules.{comparing, hashing};
ghost use Rattle.std.specs.Hash as fed;
ghost use Rattle.std.proofs.Common.{rules};
ghost use Rattle.drd_fields.specs.Fields.{octet};

use crate::cert::{Algorithm, CertType};
use drd_fields::{BinDecodable, BinDecoder};
use drd_words::DecodeError;
use std::alloc::Global;
use std::fmt;
use std::hash::{Hash, Hasher};

impl From<u16> for CertType {
    ghost use Rattle.drd_keys.specs.Cert.{cert_type_number, cert_type_of};

    ghost from_gives = { λ number cert_type. (cert_type ≡ cert_type_of number) × (cert_type_number cert_type ≡ number) };

    fn from(number: u16) -> CertType {
        match number {
            0 => CertType::Reserved0,
            1 => CertType::PKIX,
            2 => CertType::SPKI,
            3 => CertType::PGP,
            4 => CertType::IPKIX,
            5 => CertType::ISPKI,
            6 => CertType::IPGP,
            7 => CertType::ACPKIX,
            8 => CertType::IACPKIX,
            253 => CertType::URI,
            254 => CertType::OID,
            255 => CertType::Reserved255,
            65280..=65534 => CertType::Experimental(number),
            65535 => CertType::Reserved65535,
            _ => CertType::Unassigned(number),
        }
    }
}

impl From<CertType> for u16 {
    ghost use Rattle.drd_keys.specs.Cert.{cert_type_number};

    ghost from_gives = { λ cert_type number. number ≡ cert_type_number cert_type };

    fn from(cert_type: CertType) -> u16 {
        match cert_type {
            CertType::Reserved0 => 0,
            CertType::PKIX => 1,
            CertType::SPKI => 2,
            CertType::PGP => 3,
            CertType::IPKIX => 4,
            CertType::ISPKI => 5,
            CertType::IPGP => 6,
            CertType::ACPKIX => 7,
            CertType::IACPKIX => 8,
            CertType::URI => 253,
            CertType::OID => 254,
            CertType::Reserved255 => 255,
            CertType::Reserved65535 => 65535,
            CertType::Experimental(number) => number,
            CertType::Unassigned(number) => number,
        }
    }
}

impl PartialEq for CertType {
    ghost use Rattle.drd_keys.specs.Cert.{same_cert_type};

    ghost eq = { same_cert_type };

    ghost laws = { Prim.search (comparing, rules) };

    fn eq(&self, other: &CertType) -> bool {
        u16::from(*self) == u16::from(*other)
    }
}

impl Eq for CertType {
    ghost laws = { Prim.search (comparing, rules) };
}

impl Hash for CertType {
    ghost use Rattle.drd_keys.specs.Cert.{cert_type_number};

    ghost hash_input = { λ cert_type. fed.u16 (cert_type_number cert_type) };

    ghost respects_eq = { Prim.search (hashing, rules) };

    fn hash<H: Hasher>(&self, state: &mut H) {
        u16::from(*self).hash(state);
    }
}

impl BinDecodable for CertType {
    ghost use Rattle.drd_fields.specs.dnw_decoder.Reading.{IsCut};
    ghost use Rattle.drd_keys.specs.Cert.{CertTypeAt};

    ghost reads = { CertTypeAt };

    ghost refuses = { IsCut 2 };

    /// The kind of the number in two octets.
    fn read(_alloc: Global, decoder: &mut BinDecoder<'_>) -> Result<CertType, DecodeError> {
        match decoder.read_u16() {
            Ok(number) => Ok(CertType::from(number.unverified())),
            Err(refused) => Err(refused),
        }
    }
}

impl fmt::Display for CertType {
    ghost use Rattle.drd_keys.specs.Cert.{cert_type_number};

    ghost output = { λ cert_type. Some (decimal (cert_type_number cert_type)) };

    /// Writes the number.
    fn fmt<W: fmt::Write>(&self, f: &mut fmt::Formatter<W>) -> fmt::Result {
        let number = u16::from(*self);
        write!(f, "{number}")
    }
}

impl From<u8> for Algorithm {
    ghost use Rattle.drd_keys.specs.Cert.{cert_algorithm_number, cert_algorithm_of};

    ghost from_gives = { λ number algorithm. (algorithm ≡ cert_algorithm_of number) × (cert_algorithm_number algorithm ≡ number) };

    fn from(number: u8) -> Algorithm {
        match number {
            0 | 9 | 11 | 255 => Algorithm::Reserved(number),
            1 => Algorithm::RSAMD5,
            2 => Algorithm::DH,
            3 => Algorithm::DSA,
            4 => Algorithm::ECC,
            5 => Algorithm::RSASHA1,
            6 => Algorithm::DSANSEC3SHA1,
            7 => Algorithm::RSASHA1NSEC3SHA1,
            8 => Algorithm::RSASHA256,
            10 => Algorithm::RSASHA512,
            12 => Algorithm::ECCGOST,
            13 => Algorithm::ECDSAP256SHA256,
            14 => Algorithm::ECDSAP384SHA384,
            15 => Algorithm::ED25519,
            16 => Algorithm::ED448,
            17 => Algorithm::SM2SM3,
            23 => Algorithm::ECCGOST12,
            252 => Algorithm::INDIRECT,
            253 => Algorithm::PRIVATEDNS,
            254 => Algorithm::PRIVATEOID,
            _ => Algorithm::Unassigned(number),
        }
    }
}

impl From<Algorithm> for u8 {
    ghost use Rattle.drd_keys.specs.Cert.{cert_algorithm_number};

    ghost from_gives = { λ algorithm number. number ≡ cert_algorithm_number algorithm };

    fn from(algorithm: Algorithm) -> u8 {
        match algorithm {
            Algorithm::RSAMD5 => 1,
            Algorithm::DH => 2,
            Algorithm::DSA => 3,
            Algorithm::ECC => 4,
            Algorithm::RSASHA1 => 5,
            Algorithm::DSANSEC3SHA1 => 6,
            Algorithm::RSASHA1NSEC3SHA1 => 7,
            Algorithm::RSASHA256 => 8,
            Algorithm::RSASHA512 => 10,
            Algorithm::ECCGOST => 12,
            Algorithm::ECDSAP256SHA256 => 13,
            Algorithm::ECDSAP384SHA384 => 14,
            Algorithm::ED25519 => 15,
            Algorithm::ED448 => 16,
            Algorithm::SM2SM3 => 17,
            Algorithm::ECCGOST12 => 23,
            Algorithm::INDIRECT => 252,
            Algorithm::PRIVATEDNS => 253,
            Algorithm::PRIVATEOID => 254,
            Algorithm::Reserved(number) => number,
            Algorithm::Unassigned(number) => number,
        }
    }
}

impl PartialEq for Algorithm {
    ghost use Rattle.drd_keys.specs.Cert.{same_cert_algorithm};

    ghost eq = { same_cert_algorithm };

    ghost laws = { Prim.search (comparing, rules) };

    fn eq(&self, other: &Algorithm) -> bool {
        u8::from(*self) == u8::from(*other)
    }
}

impl Eq for Algorithm {
    ghost laws = { Prim.search (comparing, rules) };
}

impl Hash for Algorithm {
    ghost use Rattle.drd_keys.specs.Cert.{cert_algorithm_number};

    ghost hash_input = { λ algorithm. fed.u8 (cert_algorithm_number algorithm) };

    ghost respects_eq = { Prim.search (hashing, rules) };

    fn hash<H: Hasher>(&self, state: &mut H) {
        u8::from(*self).hash(state);
    }
}

impl BinDecodable for Algorithm {
    ghost use Rattle.drd_fields.specs.dnw_decoder.Reading.{IsCut};
    ghost use Rattle.drd_keys.specs.Cert.{CertAlgorithmAt};

    ghost reads = { CertAlgorithmAt };

    ghost refuses = { IsCut 1 };

    /// The algorithm of the number in an octet.
    fn read(_alloc: Global, decoder: &mut BinDecoder<'_>) -> Result<Algorithm, DecodeError> {
        match decoder.read_u8() {
            Ok(number) => Ok(Algorithm::from(number.unverified())),
            Err(refused) => Err(refused),
        }
    }
}

impl fmt::Display for Algorithm {
    ghost use Rattle.drd_keys.specs.Cert.{cert_algorithm_number};

    ghost output = { λ algorithm. Some (decimal (cert_algorithm_number algorithm)) };

    /// Writes the number.
    fn fmt<W: fmt::Write>(&self, f: &mut fmt::Formatter<W>) -> fmt::Result {
        let number = u8::from(*self);
        write!(f, "{number}")
    }
}
