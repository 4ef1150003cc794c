//! MX (RFC 1035 3.3.9).
ghost use Rattle.std.specs.Prelude.{◌≡◌, ℕ, Some};
ghost use Rattle.std.specs.Cmp.{partial_equiv_from_equiv};
ghost use Rattle.drd_fields.specs.dnw_encoder.declared.modes.RDataEncoding.TheVariants.{StandardRecord};
ghost use Rattle.drd_fields.specs.Fields.{FieldsAt};
ghost use Rattle.drd_fields.specs.Reading.{StopsReading};
ghost use Rattle.drd_fields.specs.Equality.{AreFull, Tells, fields_eq};
ghost use Rattle.drd_fields.proofs.EqualityLaws.{data_equiv};
ghost use Rattle.drd_fields.specs.Order.{fields_input};
ghost use Rattle.drd_fields.proofs.OrderLaws.{fields-alike};
ghost use Rattle.drd_fields.specs.Writing.{EmitsData, RefusesFields, canonical_octets};
ghost use Rattle.drd_names.specs.Fields.{mx_fields, mx_kinds};
ghost use Rattle.drd_names.specs.Texts.{mx_print, IsMxText, RefusesMxText};

use drd_fields::{
    BinDecodable, BinDecoder, BinEncodable, BinEncoder, FieldData, FieldRef, Fields, RDataEncoding,
    emit_data, hash_list, is_same_data, read_value,
};
use drd_words::{DecodeError, Name, ProtoError, TextData};
use std::alloc::Global;
use std::fmt;
use std::hash::{Hash, Hasher};

/// A mail exchange: a host that takes the owner's mail, the one of the lowest preference first.
#[derive(Clone, Debug, Drop)]
pub struct MX {
    pub preference: u16,
    pub exchange: Name,
}

impl MX {
    pub fn new(preference: u16, exchange: Name) -> MX
        ensures preference { result.preference ≡ preference }
        ensures exchange { result.exchange ≡ exchange }
    {
        MX {
            preference,
            exchange,
        }
    }
}

impl BinDecodable for MX {
    ghost reads = { λ message place mx end. FieldsAt message place (mx_fields mx) end };

    ghost refuses = { λ message place e. (end at : ℕ) × StopsReading message end mx_kinds place e at };

    fn read(alloc: Global, decoder: &mut BinDecoder<'_>) -> Result<MX, DecodeError> {
        read_value(alloc, decoder)
    }
}

impl FieldData for MX {
    ghost use Rattle.std.proofs.Common.{refl};

    type Parts = (u16, (Name, ()));

    ghost fields = { mx_fields };

    fn of_parts(parts: (u16, (Name, ()))) -> Result<MX, DecodeError> {
        let (preference, (exchange, ())) = parts;
        Ok(MX::new(preference, exchange))
    }

    fn fields(&self) -> Fields<'_> {
        Fields::new(&[
            FieldRef::U16(self.preference),
            FieldRef::Name(&self.exchange),
        ])
    }

    ghost laws = { λ mx. refl };
}

impl TextData for MX {
    type Parts = (u16, (Name, ()));

    ghost is_text = { IsMxText };

    ghost refuses = { RefusesMxText };

    fn of_words(parts: (u16, (Name, ()))) -> MX {
        let (preference, (exchange, ())) = parts;
        MX::new(preference, exchange)
    }

    ghost laws = { (λ words origin mx written. (_, written), λ words origin e refused. refused) };
}

impl BinEncodable for MX {
    ghost emits = { λ mx. EmitsData StandardRecord (mx_fields mx) };

    ghost refuses = { λ mx old e new. RefusesFields (mx_fields mx) old e };

    fn emit(&self, encoder: &mut BinEncoder<'_>) -> Result<(), ProtoError> {
        let fields = (self.preference, (&self.exchange, ()));
        emit_data(encoder, RDataEncoding::StandardRecord, &fields)
    }
}

impl PartialEq for MX {
    ghost eq = { λ a b. fields_eq (mx_fields a) (mx_fields b) };

    ghost laws = { partial_equiv_from_equiv (data_equiv mx_fields) };

    /// Whether the numbers are the same, and the names up to the case of ASCII letters. Of data that were read this is so
    /// exactly where the canonical octets are the same (RFC 4034 6.3).
    fn eq(&self, other: &MX) -> bool
        ensures value { result ≡ fields_eq (mx_fields self.now) (mx_fields other.now) }
        ensures canonical { AreFull (mx_fields self.now) → AreFull (mx_fields other.now)
            → Tells result (canonical_octets (mx_fields self.now)) (canonical_octets (mx_fields other.now)) }
    {
        is_same_data(self, other)
    }
}

impl Eq for MX {
    ghost laws = { data_equiv mx_fields };
}

impl Hash for MX {
    ghost hash_input = { λ mx. fields_input (mx_fields mx) };

    ghost respects_eq = { λ a b. fields-alike (mx_fields a) (mx_fields b) };

    fn hash<H: Hasher>(&self, state: &mut H) {
        hash_list(self.fields().as_slice(), state);
    }
}

impl fmt::Display for MX {
    ghost output = { λ mx. Some (mx_print mx) };

    fn fmt<W: fmt::Write>(&self, f: &mut fmt::Formatter<W>) -> fmt::Result {
        let preference = self.preference;
        let exchange = &self.exchange;
        write!(f, "{preference} {exchange}")
    }
}
