//! PTR (RFC 1035 3.3.12).
ghost use Rattle.std.specs.Prelude.{◌≡◌, ℕ, Some};
ghost use Rattle.std.specs.Cmp.{partial_equiv_from_equiv};
ghost use Rattle.drd_fields.specs.dnw_encoder.declared.modes.RDataEncoding.TheVariants.{StandardRecord};
ghost use Rattle.drd_words.specs.dnw_name.NamePrint.{name_print};
ghost use Rattle.drd_fields.specs.Fields.{FieldsAt};
ghost use Rattle.drd_fields.specs.Reading.{StopsReading};
ghost use Rattle.drd_fields.specs.Equality.{AreFull, Tells, fields_eq};
ghost use Rattle.drd_fields.proofs.EqualityLaws.{data_equiv};
ghost use Rattle.drd_fields.specs.Order.{fields_input};
ghost use Rattle.drd_fields.proofs.OrderLaws.{fields-alike};
ghost use Rattle.drd_fields.specs.Writing.{EmitsData, RefusesFields, canonical_octets};
ghost use Rattle.drd_names.specs.Fields.{ptr_fields, one_name};
ghost use Rattle.drd_names.specs.Texts.{IsPtrText, RefusesOneName};

use drd_fields::{
    BinDecodable, BinDecoder, BinEncodable, BinEncoder, FieldData, FieldRef, Fields, RDataEncoding,
    emit_data, hash_list, is_same_data, read_value,
};
use drd_words::{DecodeError, Name, ProtoError, TextData};
use std::alloc::Global;
use std::fmt;
use std::hash::{Hash, Hasher};
use std::ops::Deref;

/// A name that the owner points to, as that of a host from its address (RFC 1035 3.3.12).
#[derive(Clone, Debug, Drop)]
pub struct PTR(pub Name);

impl Deref for PTR {
    type Target = Name;

    ghost deref_gives = { λ ptr name. name ≡ ptr.0 };

    fn deref(&self) -> &Name {
        &self.0
    }
}

impl BinDecodable for PTR {
    ghost reads = { λ message place ptr end. FieldsAt message place (ptr_fields ptr) end };

    ghost refuses = { λ message place e. (end at : ℕ) × StopsReading message end one_name place e at };

    fn read(alloc: Global, decoder: &mut BinDecoder<'_>) -> Result<PTR, DecodeError> {
        read_value(alloc, decoder)
    }
}

impl FieldData for PTR {
    ghost use Rattle.std.proofs.Common.{refl};

    type Parts = Name;

    ghost fields = { ptr_fields };

    fn of_parts(name: Name) -> Result<PTR, DecodeError> {
        Ok(PTR(name))
    }

    fn fields(&self) -> Fields<'_> {
        Fields::new(&[FieldRef::Name(&self.0)])
    }

    ghost laws = { λ ptr. refl };
}

impl TextData for PTR {
    type Parts = (Name, ());

    ghost is_text = { IsPtrText };

    ghost refuses = { RefusesOneName };

    fn of_words(parts: (Name, ())) -> PTR {
        let (name, ()) = parts;
        PTR(name)
    }

    ghost laws = { (λ words origin ptr written. (_, written), λ words origin e refused. refused) };
}

impl BinEncodable for PTR {
    ghost emits = { λ ptr. EmitsData StandardRecord (ptr_fields ptr) };

    ghost refuses = { λ ptr old e new. RefusesFields (ptr_fields ptr) old e };

    fn emit(&self, encoder: &mut BinEncoder<'_>) -> Result<(), ProtoError> {
        emit_data(encoder, RDataEncoding::StandardRecord, &(&self.0, ()))
    }
}

impl PartialEq for PTR {
    ghost eq = { λ a b. fields_eq (ptr_fields a) (ptr_fields b) };

    ghost laws = { partial_equiv_from_equiv (data_equiv ptr_fields) };

    /// Whether the names are the same up to the case of ASCII letters. Of data that were read this is so exactly where
    /// the canonical octets are the same (RFC 4034 6.3).
    fn eq(&self, other: &PTR) -> bool
        ensures value { result ≡ fields_eq (ptr_fields self.now) (ptr_fields other.now) }
        ensures canonical { AreFull (ptr_fields self.now) → AreFull (ptr_fields other.now)
            → Tells result (canonical_octets (ptr_fields self.now)) (canonical_octets (ptr_fields other.now)) }
    {
        is_same_data(self, other)
    }
}

impl Eq for PTR {
    ghost laws = { data_equiv ptr_fields };
}

impl Hash for PTR {
    ghost hash_input = { λ ptr. fields_input (ptr_fields ptr) };

    ghost respects_eq = { λ a b. fields-alike (ptr_fields a) (ptr_fields b) };

    fn hash<H: Hasher>(&self, state: &mut H) {
        hash_list(self.fields().as_slice(), state);
    }
}

impl fmt::Display for PTR {
    ghost output = { λ ptr. Some (name_print ptr.0) };

    fn fmt<W: fmt::Write>(&self, f: &mut fmt::Formatter<W>) -> fmt::Result {
        fmt::Display::fmt(&self.0, f)
    }
}
