//! NS (RFC 1035 3.3.11).
ghost use Rattle.std.specs.Prelude.{◌≡◌, ℕ, Some};
ghost use Rattle.std.specs.Cmp.{partial_equiv_from_equiv};
ghost use Rattle.drd_fields.specs.dnw_encoder.declared.modes.RDataEncoding.TheVariants.{StandardRecord};
ghost use Rattle.drd_words.specs.dnw_name.NamePrint.{name_print};
ghost use Rattle.drd_fields.specs.Fields.{FieldsAt};
ghost use Rattle.drd_fields.specs.Reading.{StopsReading};
ghost use Rattle.drd_fields.specs.Equality.{AreFull, Tells, fields_eq};
ghost use Rattle.drd_fields.proofs.EqualityLaws.{data_equiv};
ghost use Rattle.drd_fields.specs.Order.{fields_input};
ghost use Rattle.drd_fields.proofs.OrderLaws.{fields-alike};
ghost use Rattle.drd_fields.specs.Writing.{EmitsData, RefusesFields, canonical_octets};
ghost use Rattle.drd_names.specs.Fields.{ns_fields, one_name};
ghost use Rattle.drd_names.specs.Texts.{IsNsText, RefusesOneName};

use drd_fields::{
    BinDecodable, BinDecoder, BinEncodable, BinEncoder, FieldData, FieldRef, Fields, RDataEncoding,
    emit_data, hash_list, is_same_data, read_value,
};
use drd_words::{DecodeError, Name, ProtoError, TextData};
use std::alloc::Global;
use std::fmt;
use std::hash::{Hash, Hasher};
use std::ops::Deref;

/// A name server of the zone that begins at the owner (RFC 1035 3.3.11).
#[derive(Clone, Debug, Drop)]
pub struct NS(pub Name);

impl Deref for NS {
    type Target = Name;

    ghost deref_gives = { λ ns name. name ≡ ns.0 };

    fn deref(&self) -> &Name {
        &self.0
    }
}

impl BinDecodable for NS {
    ghost reads = { λ message place ns end. FieldsAt message place (ns_fields ns) end };

    ghost refuses = { λ message place e. (end at : ℕ) × StopsReading message end one_name place e at };

    fn read(alloc: Global, decoder: &mut BinDecoder<'_>) -> Result<NS, DecodeError> {
        read_value(alloc, decoder)
    }
}

impl FieldData for NS {
    ghost use Rattle.std.proofs.Common.{refl};

    type Parts = Name;

    ghost fields = { ns_fields };

    fn of_parts(name: Name) -> Result<NS, DecodeError> {
        Ok(NS(name))
    }

    fn fields(&self) -> Fields<'_> {
        Fields::new(&[FieldRef::Name(&self.0)])
    }

    ghost laws = { λ ns. refl };
}

impl TextData for NS {
    type Parts = (Name, ());

    ghost is_text = { IsNsText };

    ghost refuses = { RefusesOneName };

    fn of_words(parts: (Name, ())) -> NS {
        let (name, ()) = parts;
        NS(name)
    }

    ghost laws = { (λ words origin ns written. (_, written), λ words origin e refused. refused) };
}

impl BinEncodable for NS {
    ghost emits = { λ ns. EmitsData StandardRecord (ns_fields ns) };

    ghost refuses = { λ ns old e new. RefusesFields (ns_fields ns) old e };

    fn emit(&self, encoder: &mut BinEncoder<'_>) -> Result<(), ProtoError> {
        emit_data(encoder, RDataEncoding::StandardRecord, &(&self.0, ()))
    }
}

impl PartialEq for NS {
    ghost eq = { λ a b. fields_eq (ns_fields a) (ns_fields b) };

    ghost laws = { partial_equiv_from_equiv (data_equiv ns_fields) };

    /// Whether the names are the same up to the case of ASCII letters. Of data that were read this is so exactly where
    /// the canonical octets are the same (RFC 4034 6.3).
    fn eq(&self, other: &NS) -> bool
        ensures value { result ≡ fields_eq (ns_fields self.now) (ns_fields other.now) }
        ensures canonical { AreFull (ns_fields self.now) → AreFull (ns_fields other.now)
            → Tells result (canonical_octets (ns_fields self.now)) (canonical_octets (ns_fields other.now)) }
    {
        is_same_data(self, other)
    }
}

impl Eq for NS {
    ghost laws = { data_equiv ns_fields };
}

impl Hash for NS {
    ghost hash_input = { λ ns. fields_input (ns_fields ns) };

    ghost respects_eq = { λ a b. fields-alike (ns_fields a) (ns_fields b) };

    fn hash<H: Hasher>(&self, state: &mut H) {
        hash_list(self.fields().as_slice(), state);
    }
}

impl fmt::Display for NS {
    ghost output = { λ ns. Some (name_print ns.0) };

    fn fmt<W: fmt::Write>(&self, f: &mut fmt::Formatter<W>) -> fmt::Result {
        fmt::Display::fmt(&self.0, f)
    }
}
