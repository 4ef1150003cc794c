//! TLSA (RFC 6698).
ghost use Rattle.std.specs.Prelude.{◌≡◌, ◌∷◌, [], Some};
ghost use Rattle.std.specs.Cmp.Rules.{comparing, hashing};
ghost use Rattle.std.specs.Hash as fed;
ghost use Rattle.std.proofs.Common.{rules};
ghost use Rattle.std.specs.Cmp.{partial_equiv_from_equiv};
ghost use Rattle.drd_fields.specs.dnw_encoder.declared.modes.RDataEncoding.TheVariants.{Other};
ghost use Rattle.drd_fields.specs.Fields.{octet, rest};
ghost use Rattle.drd_fields.specs.Equality.{Tells, fields_eq};
ghost use Rattle.drd_fields.proofs.EqualityLaws.{data_equiv};
ghost use Rattle.drd_fields.specs.Order.{fields_input};
ghost use Rattle.drd_fields.proofs.OrderLaws.{fields-alike};
ghost use Rattle.drd_fields.specs.Writing.{EmitsData, RefusesFields, canonical_octets};
ghost use Rattle.drd_keys.specs.Fields.{tlsa_fields};
ghost use Rattle.drd_keys.specs.Print.{tlsa_print};
ghost use Rattle.drd_keys.specs.Texts.{IsTlsaText, RefusesTlsaText};

use drd_fields::{
    BinEncodable, BinEncoder, FieldData, FieldRef, Fields, RDataEncoding, Rest, RestField,
    emit_data, hash_list, is_same_data,
};
use drd_words::{DecodeError, HexData, ProtoError, TextData, fmt_hex};
use std::fmt;
use std::hash::{Hash, Hasher};

/// What the certificate is for (RFC 6698 2.1.1, RFC 7218 2.1). Two are equal where their numbers are.
#[derive(Clone, Copy, Debug)]
pub enum CertUsage {
    /// The certificate of an authority, besides what its clients trust.
    PkixTa,
    /// The server's certificate, besides what its clients trust.
    PkixEe,
    /// The certificate of an authority, alone.
    DaneTa,
    /// The server's certificate, alone.
    DaneEe,
    /// For private use.
    Private,
    /// Any other number.
    Unassigned(u8),
}

impl From<u8> for CertUsage {
    ghost use Rattle.drd_keys.specs.Tlsa.{cert_usage_number, cert_usage_of};

    ghost from_gives = { λ number usage. (usage ≡ cert_usage_of number) × (cert_usage_number usage ≡ number) };

    fn from(number: u8) -> CertUsage {
        match number {
            0 => CertUsage::PkixTa,
            1 => CertUsage::PkixEe,
            2 => CertUsage::DaneTa,
            3 => CertUsage::DaneEe,
            255 => CertUsage::Private,
            _ => CertUsage::Unassigned(number),
        }
    }
}

impl From<CertUsage> for u8 {
    ghost use Rattle.drd_keys.specs.Tlsa.{cert_usage_number};

    ghost from_gives = { λ usage number. number ≡ cert_usage_number usage };

    fn from(usage: CertUsage) -> u8 {
        match usage {
            CertUsage::PkixTa => 0,
            CertUsage::PkixEe => 1,
            CertUsage::DaneTa => 2,
            CertUsage::DaneEe => 3,
            CertUsage::Private => 255,
            CertUsage::Unassigned(number) => number,
        }
    }
}

impl PartialEq for CertUsage {
    ghost use Rattle.drd_keys.specs.Tlsa.{same_cert_usage};

    ghost eq = { same_cert_usage };

    ghost laws = { Prim.search (comparing, rules) };

    fn eq(&self, other: &CertUsage) -> bool {
        u8::from(*self) == u8::from(*other)
    }
}

impl Eq for CertUsage {
    ghost laws = { Prim.search (comparing, rules) };
}

impl Hash for CertUsage {
    ghost use Rattle.drd_keys.specs.Tlsa.{cert_usage_number};

    ghost hash_input = { λ cert_usage. fed.u8 (cert_usage_number cert_usage) };

    ghost respects_eq = { Prim.search (hashing, rules) };

    fn hash<H: Hasher>(&self, state: &mut H) {
        u8::from(*self).hash(state);
    }
}

/// Which part of a certificate is meant (RFC 6698 2.1.2, RFC 7218 2.2). Two are equal where their numbers are.
#[derive(Clone, Copy, Debug)]
pub enum Selector {
    /// The whole certificate.
    Full,
    /// The public key's part of it, SubjectPublicKeyInfo.
    Spki,
    /// For private use.
    Private,
    /// Any other number.
    Unassigned(u8),
}

impl From<u8> for Selector {
    ghost use Rattle.drd_keys.specs.Tlsa.{selector_number, selector_of};

    ghost from_gives = { λ number selector. (selector ≡ selector_of number) × (selector_number selector ≡ number) };

    fn from(number: u8) -> Selector {
        match number {
            0 => Selector::Full,
            1 => Selector::Spki,
            255 => Selector::Private,
            _ => Selector::Unassigned(number),
        }
    }
}

impl From<Selector> for u8 {
    ghost use Rattle.drd_keys.specs.Tlsa.{selector_number};

    ghost from_gives = { λ selector number. number ≡ selector_number selector };

    fn from(selector: Selector) -> u8 {
        match selector {
            Selector::Full => 0,
            Selector::Spki => 1,
            Selector::Private => 255,
            Selector::Unassigned(number) => number,
        }
    }
}

impl PartialEq for Selector {
    ghost use Rattle.drd_keys.specs.Tlsa.{same_selector};

    ghost eq = { same_selector };

    ghost laws = { Prim.search (comparing, rules) };

    fn eq(&self, other: &Selector) -> bool {
        u8::from(*self) == u8::from(*other)
    }
}

impl Eq for Selector {
    ghost laws = { Prim.search (comparing, rules) };
}

impl Hash for Selector {
    ghost use Rattle.drd_keys.specs.Tlsa.{selector_number};

    ghost hash_input = { λ selector. fed.u8 (selector_number selector) };

    ghost respects_eq = { Prim.search (hashing, rules) };

    fn hash<H: Hasher>(&self, state: &mut H) {
        u8::from(*self).hash(state);
    }
}

/// How that part stands in the data (RFC 6698 2.1.3, RFC 7218 2.3). Two are equal where their numbers are.
#[derive(Clone, Copy, Debug)]
pub enum Matching {
    /// The octets themselves.
    Raw,
    /// Their SHA-256.
    Sha256,
    /// Their SHA-512.
    Sha512,
    /// For private use.
    Private,
    /// Any other number.
    Unassigned(u8),
}

impl From<u8> for Matching {
    ghost use Rattle.drd_keys.specs.Tlsa.{matching_number, matching_of};

    ghost from_gives = { λ number matching. (matching ≡ matching_of number) × (matching_number matching ≡ number) };

    fn from(number: u8) -> Matching {
        match number {
            0 => Matching::Raw,
            1 => Matching::Sha256,
            2 => Matching::Sha512,
            255 => Matching::Private,
            _ => Matching::Unassigned(number),
        }
    }
}

impl From<Matching> for u8 {
    ghost use Rattle.drd_keys.specs.Tlsa.{matching_number};

    ghost from_gives = { λ matching number. number ≡ matching_number matching };

    fn from(matching: Matching) -> u8 {
        match matching {
            Matching::Raw => 0,
            Matching::Sha256 => 1,
            Matching::Sha512 => 2,
            Matching::Private => 255,
            Matching::Unassigned(number) => number,
        }
    }
}

impl PartialEq for Matching {
    ghost use Rattle.drd_keys.specs.Tlsa.{same_matching};

    ghost eq = { same_matching };

    ghost laws = { Prim.search (comparing, rules) };

    fn eq(&self, other: &Matching) -> bool {
        u8::from(*self) == u8::from(*other)
    }
}

impl Eq for Matching {
    ghost laws = { Prim.search (comparing, rules) };
}

impl Hash for Matching {
    ghost use Rattle.drd_keys.specs.Tlsa.{matching_number};

    ghost hash_input = { λ matching. fed.u8 (matching_number matching) };

    ghost respects_eq = { Prim.search (hashing, rules) };

    fn hash<H: Hasher>(&self, state: &mut H) {
        u8::from(*self).hash(state);
    }
}

/// The certificate, or the key, that a TLS server shows.
#[derive(Clone, Debug, Drop)]
pub struct TLSA {
    pub cert_usage: CertUsage,
    pub selector: Selector,
    pub matching: Matching,
    pub cert_data: Vec<u8>,
}

impl TLSA {
    pub fn new(
        cert_usage: CertUsage,
        selector: Selector,
        matching: Matching,
        cert_data: Vec<u8>,
    ) -> TLSA
        ensures cert_usage { result.cert_usage ≡ cert_usage }
        ensures selector { result.selector ≡ selector }
        ensures matching { result.matching ≡ matching }
        ensures cert_data { result.cert_data ≡ cert_data }
    {
        TLSA {
            cert_usage,
            selector,
            matching,
            cert_data,
        }
    }

    // The fields of the data, as they are written.
    fn parts(&self) -> (u8, (u8, (u8, RestField<'_>)))
        ensures { octet result.0 ∷ octet result.1.0 ∷ octet result.1.1.0 ∷ rest result.1.1.1.0.now ∷ [] ≡ tlsa_fields self.now }
    {
        let cert_data = RestField(&self.cert_data);
        (
            self.cert_usage.into(),
            (self.selector.into(), (self.matching.into(), cert_data)),
        )
    }
}

impl FieldData for TLSA {
    ghost use Rattle.std.proofs.Common.{refl};
    ghost use Rattle.drd_keys.specs.Tlsa.{IsNamedTlsa};

    type Parts = (u8, (u8, (u8, Rest)));

    ghost fields = { tlsa_fields };

    ghost is_valid = { IsNamedTlsa };

    fn of_parts(parts: (u8, (u8, (u8, Rest)))) -> Result<TLSA, DecodeError> {
        let (cert_usage, (selector, (matching, Rest(cert_data)))) = parts;
        Ok(TLSA::new(
            cert_usage.into(),
            selector.into(),
            matching.into(),
            cert_data,
        ))
    }

    fn fields(&self) -> Fields<'_> {
        Fields::new(&[
            FieldRef::U8(self.cert_usage.into()),
            FieldRef::U8(self.selector.into()),
            FieldRef::U8(self.matching.into()),
            FieldRef::Octets(&self.cert_data),
        ])
    }

    ghost laws = { λ tlsa. refl };
}

impl BinEncodable for TLSA {
    ghost emits = { λ tlsa. EmitsData Other (tlsa_fields tlsa) };

    ghost refuses = { λ tlsa old e new. RefusesFields (tlsa_fields tlsa) old e };

    fn emit(&self, encoder: &mut BinEncoder<'_>) -> Result<(), ProtoError> {
        emit_data(encoder, RDataEncoding::Other, &self.parts())
    }
}

impl TextData for TLSA {
    ghost use Rattle.drd_keys.specs.TextLaws.{tlsa_parts};

    type Parts = (u8, (u8, (u8, HexData)));

    ghost is_text = { λ words origin tlsa. IsTlsaText words tlsa };

    ghost refuses = { λ words origin e. RefusesTlsaText words e };

    /// Three numbers, and the octets in hex, in one word or several (RFC 6698 2.2).
    fn of_words(parts: (u8, (u8, (u8, HexData)))) -> TLSA {
        let (cert_usage, (selector, (matching, HexData(cert_data)))) = parts;
        TLSA::new(
            cert_usage.into(),
            selector.into(),
            matching.into(),
            cert_data,
        )
    }

    ghost laws = { (λ words origin tlsa written. tlsa_parts words tlsa written, λ words origin e refused. refused) };
}

impl PartialEq for TLSA {
    ghost eq = { λ a b. fields_eq (tlsa_fields a) (tlsa_fields b) };

    ghost laws = { partial_equiv_from_equiv (data_equiv tlsa_fields) };

    /// Whether the octets are the same.
    fn eq(&self, other: &TLSA) -> bool
        ensures value { result ≡ fields_eq (tlsa_fields self.now) (tlsa_fields other.now) }
        ensures canonical { Tells result (canonical_octets (tlsa_fields self.now)) (canonical_octets (tlsa_fields other.now)) }
    {
        is_same_data(self, other)
    }
}

impl Eq for TLSA {
    ghost laws = { data_equiv tlsa_fields };
}

impl Hash for TLSA {
    ghost hash_input = { λ tlsa. fields_input (tlsa_fields tlsa) };

    ghost respects_eq = { λ a b. fields-alike (tlsa_fields a) (tlsa_fields b) };

    fn hash<H: Hasher>(&self, state: &mut H) {
        hash_list(self.fields().as_slice(), state);
    }
}

impl fmt::Display for TLSA {
    ghost output = { λ tlsa. Some (tlsa_print tlsa) };

    fn fmt<W: fmt::Write>(&self, f: &mut fmt::Formatter<W>) -> fmt::Result {
        let cert_usage = u8::from(self.cert_usage);
        let selector = u8::from(self.selector);
        let matching = u8::from(self.matching);
        write!(f, "{cert_usage} {selector} {matching} ")?;
        fmt_hex(f, &self.cert_data)
    }
}
