//! NULL (RFC 1035 3.3.10).
ghost use Rattle.std.specs.Prelude.{◌≡◌, ◌∷◌, [], Some};
ghost use Rattle.std.specs.Cmp.{partial_equiv_from_equiv};
ghost use Rattle.drd_fields.specs.dnw_encoder.declared.modes.RDataEncoding.TheVariants.{Other};
ghost use Rattle.drd_fields.specs.Fields.{rest};
ghost use Rattle.drd_fields.specs.Equality.{Tells, fields_eq};
ghost use Rattle.drd_fields.proofs.EqualityLaws.{data_equiv};
ghost use Rattle.drd_fields.specs.Order.{fields_input};
ghost use Rattle.drd_fields.proofs.OrderLaws.{fields-alike};
ghost use Rattle.drd_fields.specs.Writing.{EmitsData, RefusesFields, canonical_octets};
ghost use Rattle.drd_plain.specs.Fields.{null_fields};
ghost use Rattle.drd_plain.specs.Print.{null_print};

use drd_fields::{
    BinEncodable, BinEncoder, FieldData, FieldRef, Fields, RDataEncoding, Rest, RestField,
    emit_data, hash_list, is_same_data,
};
use drd_words::{DecodeError, ProtoError, fmt_base64};
use std::alloc::Global;
use std::fmt;
use std::hash::{Hash, Hasher};

/// Any octets.
#[derive(Clone, Debug, Drop)]
pub struct NULL {
    pub anything: Vec<u8>,
}

impl NULL {
    /// No octets.
    pub fn new(alloc: Global) -> NULL
        ensures { result.anything.items ≡ [] }
    {
        NULL {
            anything: Vec::new(alloc),
        }
    }

    pub fn with(anything: Vec<u8>) -> NULL
        ensures { result.anything ≡ anything }
    {
        NULL { anything }
    }

    // The fields of the data, as they are written.
    fn parts(&self) -> RestField<'_>
        ensures { rest result.0.now ∷ [] ≡ null_fields self.now }
    {
        RestField(&self.anything)
    }
}

impl FieldData for NULL {
    ghost use Rattle.std.proofs.Common.{refl};

    type Parts = Rest;

    ghost fields = { null_fields };

    fn of_parts(parts: Rest) -> Result<NULL, DecodeError> {
        let Rest(anything) = parts;
        Ok(NULL::with(anything))
    }

    fn fields(&self) -> Fields<'_> {
        Fields::new(&[FieldRef::Octets(&self.anything)])
    }

    ghost laws = { λ null. refl };
}

impl BinEncodable for NULL {
    ghost emits = { λ null. EmitsData Other (null_fields null) };

    ghost refuses = { λ null old e new. RefusesFields (null_fields null) old e };

    fn emit(&self, encoder: &mut BinEncoder<'_>) -> Result<(), ProtoError> {
        emit_data(encoder, RDataEncoding::Other, &self.parts())
    }
}

impl PartialEq for NULL {
    ghost eq = { λ a b. fields_eq (null_fields a) (null_fields b) };

    ghost laws = { partial_equiv_from_equiv (data_equiv null_fields) };

    /// Whether the octets are the same.
    fn eq(&self, other: &NULL) -> bool
        ensures value { result ≡ fields_eq (null_fields self.now) (null_fields other.now) }
        ensures canonical { Tells result (canonical_octets (null_fields self.now)) (canonical_octets (null_fields other.now)) }
    {
        is_same_data(self, other)
    }
}

impl Eq for NULL {
    ghost laws = { data_equiv null_fields };
}

impl Hash for NULL {
    ghost hash_input = { λ null. fields_input (null_fields null) };

    ghost respects_eq = { λ a b. fields-alike (null_fields a) (null_fields b) };

    fn hash<H: Hasher>(&self, state: &mut H) {
        hash_list(self.fields().as_slice(), state);
    }
}

impl fmt::Display for NULL {
    ghost output = { λ null. Some (null_print null) };

    fn fmt<W: fmt::Write>(&self, f: &mut fmt::Formatter<W>) -> fmt::Result {
        fmt_base64(f, &self.anything)
    }
}
