//! SMIMEA (RFC 8162).
ghost use Rattle.std.specs.Prelude.{◌≡◌, Some};
ghost use Rattle.std.specs.Cmp.{partial_equiv_from_equiv};
ghost use Rattle.drd_fields.specs.dnw_encoder.declared.modes.RDataEncoding.TheVariants.{Other};
ghost use Rattle.drd_fields.specs.Equality.{Tells, fields_eq};
ghost use Rattle.drd_fields.proofs.EqualityLaws.{data_equiv};
ghost use Rattle.drd_fields.specs.Order.{fields_input};
ghost use Rattle.drd_fields.proofs.OrderLaws.{fields-alike};
ghost use Rattle.drd_fields.specs.Writing.{EmitsData, RefusesFields, canonical_octets};
ghost use Rattle.drd_keys.specs.Fields.{smimea_fields};
ghost use Rattle.drd_keys.specs.Print.{smimea_print};
ghost use Rattle.drd_keys.specs.Texts.{IsSmimeaText, RefusesSmimeaText};

use crate::tlsa::{CertUsage, Matching, Selector, TLSA};
use drd_fields::{BinEncodable, BinEncoder, FieldData, Fields};
use drd_words::{DecodeError, ProtoError, TextData};
use std::fmt;
use std::hash::{Hash, Hasher};
use std::ops::Deref;

/// The certificate, or the key, of the holder of a mail address, in the form of TLSA.
#[derive(Clone, Debug, Drop)]
pub struct SMIMEA(pub TLSA);

impl SMIMEA {
    pub fn new(
        cert_usage: CertUsage,
        selector: Selector,
        matching: Matching,
        cert_data: Vec<u8>,
    ) -> SMIMEA
        ensures cert_usage { result.0.cert_usage ≡ cert_usage }
        ensures selector { result.0.selector ≡ selector }
        ensures matching { result.0.matching ≡ matching }
        ensures cert_data { result.0.cert_data ≡ cert_data }
    {
        SMIMEA(TLSA::new(cert_usage, selector, matching, cert_data))
    }
}

impl Deref for SMIMEA {
    type Target = TLSA;

    ghost deref_gives = { λ smimea tlsa. tlsa ≡ smimea.0 };

    fn deref(&self) -> &TLSA {
        &self.0
    }
}

impl FieldData for SMIMEA {
    ghost use Rattle.std.proofs.Common.{refl};
    ghost use Rattle.drd_keys.specs.Tlsa.{IsNamedTlsa};

    type Parts = <TLSA as FieldData>::Parts;

    ghost fields = { smimea_fields };

    ghost is_valid = { λ smimea. IsNamedTlsa smimea.0 };

    fn of_parts(parts: <TLSA as FieldData>::Parts) -> Result<SMIMEA, DecodeError> {
        match TLSA::of_parts(parts) {
            Ok(tlsa) => Ok(SMIMEA(tlsa)),
            Err(refused) => Err(refused),
        }
    }

    fn fields(&self) -> Fields<'_> {
        self.0.fields()
    }

    ghost laws = { λ smimea. refl };
}

impl BinEncodable for SMIMEA {
    ghost emits = { λ smimea. EmitsData Other (smimea_fields smimea) };

    ghost refuses = { λ smimea old e new. RefusesFields (smimea_fields smimea) old e };

    fn emit(&self, encoder: &mut BinEncoder<'_>) -> Result<(), ProtoError> {
        self.0.emit(encoder)
    }
}

impl TextData for SMIMEA {
    ghost use Rattle.drd_keys.specs.TextLaws.{tlsa_parts};

    type Parts = <TLSA as TextData>::Parts;

    ghost is_text = { λ words origin smimea. IsSmimeaText words smimea };

    ghost refuses = { λ words origin e. RefusesSmimeaText words e };

    /// The words of TLSA (RFC 8162 2).
    fn of_words(parts: <TLSA as TextData>::Parts) -> SMIMEA {
        SMIMEA(TLSA::of_words(parts))
    }

    ghost laws = { (λ words origin smimea written. tlsa_parts words smimea.0 written, λ words origin e refused. refused) };
}

impl PartialEq for SMIMEA {
    ghost eq = { λ a b. fields_eq (smimea_fields a) (smimea_fields b) };

    ghost laws = { partial_equiv_from_equiv (data_equiv smimea_fields) };

    /// Whether the octets are the same.
    fn eq(&self, other: &SMIMEA) -> bool
        ensures value { result ≡ fields_eq (smimea_fields self.now) (smimea_fields other.now) }
        ensures canonical { Tells result (canonical_octets (smimea_fields self.now)) (canonical_octets (smimea_fields other.now)) }
    {
        self.0 == other.0
    }
}

impl Eq for SMIMEA {
    ghost laws = { data_equiv smimea_fields };
}

impl Hash for SMIMEA {
    ghost hash_input = { λ smimea. fields_input (smimea_fields smimea) };

    ghost respects_eq = { λ a b. fields-alike (smimea_fields a) (smimea_fields b) };

    fn hash<H: Hasher>(&self, state: &mut H) {
        self.0.hash(state);
    }
}

impl fmt::Display for SMIMEA {
    ghost output = { λ smimea. Some (smimea_print smimea) };

    fn fmt<W: fmt::Write>(&self, f: &mut fmt::Formatter<W>) -> fmt::Result {
        fmt::Display::fmt(&self.0, f)
    }
}
