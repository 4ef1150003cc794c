//! CNAME (RFC 1035 3.3.1).
ghost use Rattle.std.specs.Prelude.{◌≡◌, ℕ, Some};
ghost use Rattle.std.specs.Cmp.{partial_equiv_from_equiv};
ghost use Rattle.drd_fields.specs.dnw_encoder.declared.modes.RDataEncoding.TheVariants.{StandardRecord};
ghost use Rattle.drd_words.specs.dnw_name.NamePrint.{name_print};
ghost use Rattle.drd_fields.specs.Fields.{FieldsAt};
ghost use Rattle.drd_fields.specs.Reading.{StopsReading};
ghost use Rattle.drd_fields.specs.Equality.{AreFull, Tells, fields_eq};
ghost use Rattle.drd_fields.proofs.EqualityLaws.{data_equiv};
ghost use Rattle.drd_fields.specs.Order.{fields_input};
ghost use Rattle.drd_fields.proofs.OrderLaws.{fields-alike};
ghost use Rattle.drd_fields.specs.Writing.{EmitsData, RefusesFields, canonical_octets};
ghost use Rattle.drd_names.specs.Fields.{cname_fields, one_name};
ghost use Rattle.drd_names.specs.Texts.{IsCnameText, RefusesOneName};

use drd_fields::{
    BinDecodable, BinDecoder, BinEncodable, BinEncoder, FieldData, FieldRef, Fields, RDataEncoding,
    emit_data, hash_list, is_same_data, read_value,
};
use drd_words::{DecodeError, Name, ProtoError, TextData};
use std::alloc::Global;
use std::fmt;
use std::hash::{Hash, Hasher};
use std::ops::Deref;

/// The canonical name of an alias: the name that its owner stands for (RFC 1035 3.3.1).
#[derive(Clone, Debug, Drop)]
pub struct CNAME(pub Name);

impl Deref for CNAME {
    type Target = Name;

    ghost deref_gives = { λ cname name. name ≡ cname.0 };

    fn deref(&self) -> &Name {
        &self.0
    }
}

impl BinDecodable for CNAME {
    ghost reads = { λ message place cname end. FieldsAt message place (cname_fields cname) end };

    ghost refuses = { λ message place e. (end at : ℕ) × StopsReading message end one_name place e at };

    fn read(alloc: Global, decoder: &mut BinDecoder<'_>) -> Result<CNAME, DecodeError> {
        read_value(alloc, decoder)
    }
}

impl FieldData for CNAME {
    ghost use Rattle.std.proofs.Common.{refl};

    type Parts = Name;

    ghost fields = { cname_fields };

    fn of_parts(name: Name) -> Result<CNAME, DecodeError> {
        Ok(CNAME(name))
    }

    fn fields(&self) -> Fields<'_> {
        Fields::new(&[FieldRef::Name(&self.0)])
    }

    ghost laws = { λ cname. refl };
}

impl TextData for CNAME {
    type Parts = (Name, ());

    ghost is_text = { IsCnameText };

    ghost refuses = { RefusesOneName };

    fn of_words(parts: (Name, ())) -> CNAME {
        let (name, ()) = parts;
        CNAME(name)
    }

    ghost laws = { (λ words origin cname written. (_, written), λ words origin e refused. refused) };
}

impl BinEncodable for CNAME {
    ghost emits = { λ cname. EmitsData StandardRecord (cname_fields cname) };

    ghost refuses = { λ cname old e new. RefusesFields (cname_fields cname) old e };

    fn emit(&self, encoder: &mut BinEncoder<'_>) -> Result<(), ProtoError> {
        emit_data(encoder, RDataEncoding::StandardRecord, &(&self.0, ()))
    }
}

impl PartialEq for CNAME {
    ghost eq = { λ a b. fields_eq (cname_fields a) (cname_fields b) };

    ghost laws = { partial_equiv_from_equiv (data_equiv cname_fields) };

    /// Whether the names are the same up to the case of ASCII letters. Of data that were read this is so exactly where
    /// the canonical octets are the same (RFC 4034 6.3).
    fn eq(&self, other: &CNAME) -> bool
        ensures value { result ≡ fields_eq (cname_fields self.now) (cname_fields other.now) }
        ensures canonical { AreFull (cname_fields self.now) → AreFull (cname_fields other.now)
            → Tells result (canonical_octets (cname_fields self.now)) (canonical_octets (cname_fields other.now)) }
    {
        is_same_data(self, other)
    }
}

impl Eq for CNAME {
    ghost laws = { data_equiv cname_fields };
}

impl Hash for CNAME {
    ghost hash_input = { λ cname. fields_input (cname_fields cname) };

    ghost respects_eq = { λ a b. fields-alike (cname_fields a) (cname_fields b) };

    fn hash<H: Hasher>(&self, state: &mut H) {
        hash_list(self.fields().as_slice(), state);
    }
}

impl fmt::Display for CNAME {
    ghost output = { λ cname. Some (name_print cname.0) };

    fn fmt<W: fmt::Write>(&self, f: &mut fmt::Formatter<W>) -> fmt::Result {
        fmt::Display::fmt(&self.0, f)
    }
}
