//! ANAME (draft-ietf-dnsop-aname-04).
ghost use Rattle.std.specs.Prelude.{◌≡◌, ℕ, Some};
ghost use Rattle.std.specs.Cmp.{partial_equiv_from_equiv};
ghost use Rattle.drd_fields.specs.dnw_encoder.declared.modes.RDataEncoding.TheVariants.{Other};
ghost use Rattle.drd_words.specs.dnw_name.NamePrint.{name_print};
ghost use Rattle.drd_fields.specs.Fields.{FieldsAt};
ghost use Rattle.drd_fields.specs.Reading.{StopsReading};
ghost use Rattle.drd_fields.specs.Equality.{AreFull, Tells, fields_eq};
ghost use Rattle.drd_fields.proofs.EqualityLaws.{data_equiv};
ghost use Rattle.drd_fields.specs.Order.{fields_input};
ghost use Rattle.drd_fields.proofs.OrderLaws.{fields-alike};
ghost use Rattle.drd_fields.specs.Writing.{EmitsData, RefusesFields, canonical_octets};
ghost use Rattle.drd_names.specs.Fields.{aname_fields, one_name};
ghost use Rattle.drd_names.specs.Texts.{IsAnameText, RefusesOneName};

use drd_fields::{
    BinDecodable, BinDecoder, BinEncodable, BinEncoder, FieldData, FieldRef, Fields, RDataEncoding,
    emit_data, hash_list, is_same_data, read_value,
};
use drd_words::{DecodeError, Name, ProtoError, TextData};
use std::alloc::Global;
use std::fmt;
use std::hash::{Hash, Hasher};
use std::ops::Deref;

/// A name whose addresses stand at the owner (draft-ietf-dnsop-aname-04).
#[derive(Clone, Debug, Drop)]
pub struct ANAME(pub Name);

impl Deref for ANAME {
    type Target = Name;

    ghost deref_gives = { λ aname name. name ≡ aname.0 };

    fn deref(&self) -> &Name {
        &self.0
    }
}

impl BinDecodable for ANAME {
    ghost reads = { λ message place aname end. FieldsAt message place (aname_fields aname) end };

    ghost refuses = { λ message place e. (end at : ℕ) × StopsReading message end one_name place e at };

    fn read(alloc: Global, decoder: &mut BinDecoder<'_>) -> Result<ANAME, DecodeError> {
        read_value(alloc, decoder)
    }
}

impl FieldData for ANAME {
    ghost use Rattle.std.proofs.Common.{refl};

    type Parts = Name;

    ghost fields = { aname_fields };

    fn of_parts(name: Name) -> Result<ANAME, DecodeError> {
        Ok(ANAME(name))
    }

    fn fields(&self) -> Fields<'_> {
        Fields::new(&[FieldRef::Name(&self.0)])
    }

    ghost laws = { λ aname. refl };
}

impl TextData for ANAME {
    type Parts = (Name, ());

    ghost is_text = { IsAnameText };

    ghost refuses = { RefusesOneName };

    fn of_words(parts: (Name, ())) -> ANAME {
        let (name, ()) = parts;
        ANAME(name)
    }

    ghost laws = { (λ words origin aname written. (_, written), λ words origin e refused. refused) };
}

impl BinEncodable for ANAME {
    ghost emits = { λ aname. EmitsData Other (aname_fields aname) };

    ghost refuses = { λ aname old e new. RefusesFields (aname_fields aname) old e };

    fn emit(&self, encoder: &mut BinEncoder<'_>) -> Result<(), ProtoError> {
        emit_data(encoder, RDataEncoding::Other, &(&self.0, ()))
    }
}

impl PartialEq for ANAME {
    ghost eq = { λ a b. fields_eq (aname_fields a) (aname_fields b) };

    ghost laws = { partial_equiv_from_equiv (data_equiv aname_fields) };

    /// Whether the names are the same up to the case of ASCII letters. Of data that were read this is so exactly where
    /// their octets in lower case are the same.
    fn eq(&self, other: &ANAME) -> bool
        ensures value { result ≡ fields_eq (aname_fields self.now) (aname_fields other.now) }
        ensures canonical { AreFull (aname_fields self.now) → AreFull (aname_fields other.now)
            → Tells result (canonical_octets (aname_fields self.now)) (canonical_octets (aname_fields other.now)) }
    {
        is_same_data(self, other)
    }
}

impl Eq for ANAME {
    ghost laws = { data_equiv aname_fields };
}

impl Hash for ANAME {
    ghost hash_input = { λ aname. fields_input (aname_fields aname) };

    ghost respects_eq = { λ a b. fields-alike (aname_fields a) (aname_fields b) };

    fn hash<H: Hasher>(&self, state: &mut H) {
        hash_list(self.fields().as_slice(), state);
    }
}

impl fmt::Display for ANAME {
    ghost output = { λ aname. Some (name_print aname.0) };

    fn fmt<W: fmt::Write>(&self, f: &mut fmt::Formatter<W>) -> fmt::Result {
        fmt::Display::fmt(&self.0, f)
    }
}
