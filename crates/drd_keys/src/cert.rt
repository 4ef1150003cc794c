//! CERT (RFC 4398).
ghost use Rattle.std.specs.Prelude.{◌≡◌, ◌∷◌, [], Some, IfOk};
ghost use Rattle.std.specs.Cmp.{partial_equiv_from_equiv};
ghost use Rattle.drd_fields.specs.dnw_encoder.declared.modes.RDataEncoding.TheVariants.{Other};
ghost use Rattle.drd_fields.specs.Fields.{octet, short, rest};
ghost use Rattle.drd_fields.specs.Equality.{Tells, fields_eq};
ghost use Rattle.drd_fields.proofs.EqualityLaws.{data_equiv};
ghost use Rattle.drd_fields.specs.Order.{fields_input};
ghost use Rattle.drd_fields.proofs.OrderLaws.{fields-alike};
ghost use Rattle.drd_fields.specs.Writing.{EmitsData, RefusesFields, canonical_octets};
ghost use Rattle.base64.specs.Engines.{standard};
ghost use Rattle.base64.specs.GeneralPurpose.{encode_of};
ghost use Rattle.std.specs.String.{string_bytes};
ghost use Rattle.drd_keys.specs.Fields.{cert_fields};
ghost use Rattle.drd_keys.specs.Print.{cert_print};
ghost use Rattle.drd_keys.specs.Texts.{IsCertText, RefusesCertText};

mod codes;

use base64::engine::general_purpose::STANDARD;
use drd_fields::{
    BinEncodable, BinEncoder, FieldData, FieldRef, Fields, RDataEncoding, Rest, RestField,
    emit_data, hash_list, is_same_data,
};
use drd_words::{Base64Data, DecodeError, ProtoError, TextData, fmt_base64};
use std::alloc::{AllocError, Global};
use std::fmt;
use std::hash::{Hash, Hasher};

/// The kind of a certificate (RFC 4398 2.1). Two are equal where their numbers are.
#[derive(Clone, Copy, Debug)]
pub enum CertType {
    Reserved0,
    /// X.509 as per PKIX.
    PKIX,
    /// An SPKI certificate.
    SPKI,
    /// An OpenPGP packet.
    PGP,
    /// The URL of an X.509 data object.
    IPKIX,
    /// The URL of an SPKI certificate.
    ISPKI,
    /// The fingerprint and URL of an OpenPGP packet.
    IPGP,
    /// An attribute certificate.
    ACPKIX,
    /// The URL of an attribute certificate.
    IACPKIX,
    /// Private: a URI tells the kind.
    URI,
    /// Private: an object identifier tells the kind.
    OID,
    Reserved255,
    Reserved65535,
    /// 65280 to 65534.
    Experimental(u16),
    /// Any other number.
    Unassigned(u16),
}

/// The algorithm of a key (RFC 4034 A.1 and its registry). Two are equal where their numbers are.
#[derive(Clone, Copy, Debug)]
pub enum Algorithm {
    RSAMD5,
    DH,
    DSA,
    ECC,
    RSASHA1,
    DSANSEC3SHA1,
    RSASHA1NSEC3SHA1,
    RSASHA256,
    RSASHA512,
    ECCGOST,
    ECDSAP256SHA256,
    ECDSAP384SHA384,
    ED25519,
    ED448,
    SM2SM3,
    ECCGOST12,
    INDIRECT,
    PRIVATEDNS,
    PRIVATEOID,
    /// 0, 9, 11 and 255.
    Reserved(u8),
    /// Any other number.
    Unassigned(u8),
}

/// A certificate, or a list of revoked ones.
#[derive(Clone, Debug, Drop)]
pub struct CERT {
    pub cert_type: CertType,
    pub key_tag: u16,
    pub algorithm: Algorithm,
    pub cert_data: Vec<u8>,
}

impl CERT {
    pub fn new(cert_type: CertType, key_tag: u16, algorithm: Algorithm, cert_data: Vec<u8>) -> CERT
        ensures cert_type { result.cert_type ≡ cert_type }
        ensures key_tag { result.key_tag ≡ key_tag }
        ensures algorithm { result.algorithm ≡ algorithm }
        ensures cert_data { result.cert_data ≡ cert_data }
    {
        CERT {
            cert_type,
            key_tag,
            algorithm,
            cert_data,
        }
    }

    /// The certificate in base64 (RFC 4648 4).
    pub fn cert_base64(&self, alloc: Global) -> Result<String, AllocError>
        ensures { IfOk result (λ text. string_bytes text ≡ encode_of standard self.now.cert_data.items) }
    {
        STANDARD.encode(alloc, &self.cert_data)
    }

    // The fields of the data, as they are written.
    fn parts(&self) -> (u16, (u16, (u8, RestField<'_>)))
        ensures { short result.0 ∷ short result.1.0 ∷ octet result.1.1.0 ∷ rest result.1.1.1.0.now ∷ [] ≡ cert_fields self.now }
    {
        let cert_data = RestField(&self.cert_data);
        (
            self.cert_type.into(),
            (self.key_tag, (self.algorithm.into(), cert_data)),
        )
    }
}

impl FieldData for CERT {
    ghost use Rattle.std.proofs.Common.{refl};
    ghost use Rattle.drd_keys.specs.Cert.{IsNamedCert};

    type Parts = (u16, (u16, (u8, Rest)));

    ghost fields = { cert_fields };

    ghost is_valid = { IsNamedCert };

    fn of_parts(parts: (u16, (u16, (u8, Rest)))) -> Result<CERT, DecodeError> {
        let (cert_type, (key_tag, (algorithm, Rest(cert_data)))) = parts;
        Ok(CERT::new(cert_type.into(), key_tag, algorithm.into(), cert_data))
    }

    fn fields(&self) -> Fields<'_> {
        Fields::new(&[
            FieldRef::U16(self.cert_type.into()),
            FieldRef::U16(self.key_tag),
            FieldRef::U8(self.algorithm.into()),
            FieldRef::Octets(&self.cert_data),
        ])
    }

    ghost laws = { λ cert. refl };
}

impl BinEncodable for CERT {
    ghost emits = { λ cert. EmitsData Other (cert_fields cert) };

    ghost refuses = { λ cert old e new. RefusesFields (cert_fields cert) old e };

    fn emit(&self, encoder: &mut BinEncoder<'_>) -> Result<(), ProtoError> {
        emit_data(encoder, RDataEncoding::Other, &self.parts())
    }
}

impl TextData for CERT {
    ghost use Rattle.drd_keys.specs.TextLaws.{cert_parts};

    type Parts = (u16, (u16, (u8, Base64Data)));

    ghost is_text = { λ words origin cert. IsCertText words cert };

    ghost refuses = { λ words origin e. RefusesCertText words e };

    /// Three numbers, and the certificate in base64, in one word or several (RFC 4398 2.2).
    fn of_words(parts: (u16, (u16, (u8, Base64Data)))) -> CERT {
        let (cert_type, (key_tag, (algorithm, Base64Data(cert_data)))) = parts;
        CERT::new(cert_type.into(), key_tag, algorithm.into(), cert_data)
    }

    ghost laws = { (λ words origin cert written. cert_parts words cert written, λ words origin e refused. refused) };
}

impl PartialEq for CERT {
    ghost eq = { λ a b. fields_eq (cert_fields a) (cert_fields b) };

    ghost laws = { partial_equiv_from_equiv (data_equiv cert_fields) };

    /// Whether the octets are the same.
    fn eq(&self, other: &CERT) -> bool
        ensures value { result ≡ fields_eq (cert_fields self.now) (cert_fields other.now) }
        ensures canonical { Tells result (canonical_octets (cert_fields self.now)) (canonical_octets (cert_fields other.now)) }
    {
        is_same_data(self, other)
    }
}

impl Eq for CERT {
    ghost laws = { data_equiv cert_fields };
}

impl Hash for CERT {
    ghost hash_input = { λ cert. fields_input (cert_fields cert) };

    ghost respects_eq = { λ a b. fields-alike (cert_fields a) (cert_fields b) };

    fn hash<H: Hasher>(&self, state: &mut H) {
        hash_list(self.fields().as_slice(), state);
    }
}

impl fmt::Display for CERT {
    ghost output = { λ cert. Some (cert_print cert) };

    fn fmt<W: fmt::Write>(&self, f: &mut fmt::Formatter<W>) -> fmt::Result {
        let cert_type = u16::from(self.cert_type);
        let algorithm = u8::from(self.algorithm);
        write!(f, "{cert_type} {} {algorithm} ", self.key_tag)?;
        fmt_base64(f, &self.cert_data)
    }
}
