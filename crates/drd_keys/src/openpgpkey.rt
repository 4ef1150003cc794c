//! OPENPGPKEY (RFC 7929).
ghost use Rattle.std.specs.Prelude.{◌≡◌, ◌∷◌, [], Some};
ghost use Rattle.std.specs.Cmp.{partial_equiv_from_equiv};
ghost use Rattle.drd_fields.specs.dnw_encoder.declared.modes.RDataEncoding.TheVariants.{Other};
ghost use Rattle.drd_fields.specs.Fields.{rest};
ghost use Rattle.drd_fields.specs.Equality.{Tells, fields_eq};
ghost use Rattle.drd_fields.proofs.EqualityLaws.{data_equiv};
ghost use Rattle.drd_fields.specs.Order.{fields_input};
ghost use Rattle.drd_fields.proofs.OrderLaws.{fields-alike};
ghost use Rattle.drd_fields.specs.Writing.{EmitsData, RefusesFields, canonical_octets};
ghost use Rattle.drd_keys.specs.Fields.{openpgpkey_fields};
ghost use Rattle.drd_keys.specs.Print.{openpgpkey_print};
ghost use Rattle.drd_keys.specs.Texts.{IsOpenpgpkeyText, RefusesOpenpgpkeyText};

use drd_fields::{
    BinEncodable, BinEncoder, FieldData, FieldRef, Fields, RDataEncoding, Rest, RestField,
    emit_data, hash_list, is_same_data,
};
use drd_words::{Base64Data, DecodeError, ProtoError, TextData, fmt_base64};
use std::fmt;
use std::hash::{Hash, Hasher};

/// The OpenPGP public key of a mail address.
#[derive(Clone, Debug, Drop)]
pub struct OPENPGPKEY {
    pub public_key: Vec<u8>,
}

impl OPENPGPKEY {
    pub fn new(public_key: Vec<u8>) -> OPENPGPKEY
        ensures { result.public_key ≡ public_key }
    {
        OPENPGPKEY { public_key }
    }

    // The fields of the data, as they are written.
    fn parts(&self) -> RestField<'_>
        ensures { rest result.0.now ∷ [] ≡ openpgpkey_fields self.now }
    {
        RestField(&self.public_key)
    }
}

impl FieldData for OPENPGPKEY {
    ghost use Rattle.std.proofs.Common.{refl};

    type Parts = Rest;

    ghost fields = { openpgpkey_fields };

    fn of_parts(parts: Rest) -> Result<OPENPGPKEY, DecodeError> {
        let Rest(public_key) = parts;
        Ok(OPENPGPKEY::new(public_key))
    }

    fn fields(&self) -> Fields<'_> {
        Fields::new(&[FieldRef::Octets(&self.public_key)])
    }

    ghost laws = { λ key. refl };
}

impl BinEncodable for OPENPGPKEY {
    ghost emits = { λ key. EmitsData Other (openpgpkey_fields key) };

    ghost refuses = { λ key old e new. RefusesFields (openpgpkey_fields key) old e };

    fn emit(&self, encoder: &mut BinEncoder<'_>) -> Result<(), ProtoError> {
        emit_data(encoder, RDataEncoding::Other, &self.parts())
    }
}

impl TextData for OPENPGPKEY {
    type Parts = Base64Data;

    ghost is_text = { λ words origin key. IsOpenpgpkeyText words key };

    ghost refuses = { λ words origin e. RefusesOpenpgpkeyText words e };

    /// The key in base64, in one word or several (RFC 7929 2.3).
    fn of_words(parts: Base64Data) -> OPENPGPKEY {
        let Base64Data(public_key) = parts;
        OPENPGPKEY::new(public_key)
    }

    ghost laws = { (λ words origin key written. (record { 0 = key.public_key }, written), λ words origin e refused. refused) };
}

impl PartialEq for OPENPGPKEY {
    ghost eq = { λ a b. fields_eq (openpgpkey_fields a) (openpgpkey_fields b) };

    ghost laws = { partial_equiv_from_equiv (data_equiv openpgpkey_fields) };

    /// Whether the octets are the same.
    fn eq(&self, other: &OPENPGPKEY) -> bool
        ensures value { result ≡ fields_eq (openpgpkey_fields self.now) (openpgpkey_fields other.now) }
        ensures canonical { Tells result (canonical_octets (openpgpkey_fields self.now)) (canonical_octets (openpgpkey_fields other.now)) }
    {
        is_same_data(self, other)
    }
}

impl Eq for OPENPGPKEY {
    ghost laws = { data_equiv openpgpkey_fields };
}

impl Hash for OPENPGPKEY {
    ghost hash_input = { λ key. fields_input (openpgpkey_fields key) };

    ghost respects_eq = { λ a b. fields-alike (openpgpkey_fields a) (openpgpkey_fields b) };

    fn hash<H: Hasher>(&self, state: &mut H) {
        hash_list(self.fields().as_slice(), state);
    }
}

impl fmt::Display for OPENPGPKEY {
    ghost output = { λ key. Some (openpgpkey_print key) };

    fn fmt<W: fmt::Write>(&self, f: &mut fmt::Formatter<W>) -> fmt::Result {
        fmt_base64(f, &self.public_key)
    }
}
