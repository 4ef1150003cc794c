//! SRV (RFC 2782).
ghost use Rattle.std.specs.Prelude.{◌≡◌, ℕ, Some};
ghost use Rattle.std.specs.Cmp.{partial_equiv_from_equiv};
ghost use Rattle.drd_fields.specs.dnw_encoder.declared.modes.RDataEncoding.TheVariants.{Canonical};
ghost use Rattle.drd_fields.specs.Fields.{FieldsAt};
ghost use Rattle.drd_fields.specs.Reading.{StopsReading};
ghost use Rattle.drd_fields.specs.Equality.{AreFull, Tells, fields_eq};
ghost use Rattle.drd_fields.proofs.EqualityLaws.{data_equiv};
ghost use Rattle.drd_fields.specs.Order.{fields_input};
ghost use Rattle.drd_fields.proofs.OrderLaws.{fields-alike};
ghost use Rattle.drd_fields.specs.Writing.{EmitsData, RefusesFields, canonical_octets};
ghost use Rattle.drd_names.specs.Fields.{srv_fields, srv_kinds};
ghost use Rattle.drd_names.specs.Texts.{srv_print, IsSrvText, RefusesSrvText};

use drd_fields::{
    BinDecodable, BinDecoder, BinEncodable, BinEncoder, FieldData, FieldRef, Fields, RDataEncoding,
    emit_data, hash_list, is_same_data, read_value,
};
use drd_words::{DecodeError, Name, ProtoError, TextData};
use std::alloc::Global;
use std::fmt;
use std::hash::{Hash, Hasher};

/// Where a service is offered: a host and its port. Of several the lowest priority comes first; those of one priority
/// share the load by their weights (RFC 2782).
#[derive(Clone, Debug, Drop)]
pub struct SRV {
    pub priority: u16,
    pub weight: u16,
    pub port: u16,
    pub target: Name,
}

impl SRV {
    pub fn new(priority: u16, weight: u16, port: u16, target: Name) -> SRV
        ensures priority { result.priority ≡ priority }
        ensures weight { result.weight ≡ weight }
        ensures port { result.port ≡ port }
        ensures target { result.target ≡ target }
    {
        SRV {
            priority,
            weight,
            port,
            target,
        }
    }
}

impl BinDecodable for SRV {
    ghost reads = { λ message place srv end. FieldsAt message place (srv_fields srv) end };

    ghost refuses = { λ message place e. (end at : ℕ) × StopsReading message end srv_kinds place e at };

    fn read(alloc: Global, decoder: &mut BinDecoder<'_>) -> Result<SRV, DecodeError> {
        read_value(alloc, decoder)
    }
}

impl FieldData for SRV {
    ghost use Rattle.std.proofs.Common.{refl};

    type Parts = (u16, (u16, (u16, (Name, ()))));

    ghost fields = { srv_fields };

    fn of_parts(parts: (u16, (u16, (u16, (Name, ()))))) -> Result<SRV, DecodeError> {
        let (priority, (weight, (port, (target, ())))) = parts;
        Ok(SRV::new(priority, weight, port, target))
    }

    fn fields(&self) -> Fields<'_> {
        Fields::new(&[
            FieldRef::U16(self.priority),
            FieldRef::U16(self.weight),
            FieldRef::U16(self.port),
            FieldRef::Name(&self.target),
        ])
    }

    ghost laws = { λ srv. refl };
}

impl TextData for SRV {
    type Parts = (u16, (u16, (u16, (Name, ()))));

    ghost is_text = { IsSrvText };

    ghost refuses = { RefusesSrvText };

    fn of_words(parts: (u16, (u16, (u16, (Name, ()))))) -> SRV {
        let (priority, (weight, (port, (target, ())))) = parts;
        SRV::new(priority, weight, port, target)
    }

    ghost laws = { (λ words origin srv written. (_, written), λ words origin e refused. refused) };
}

impl BinEncodable for SRV {
    ghost emits = { λ srv. EmitsData Canonical (srv_fields srv) };

    ghost refuses = { λ srv old e new. RefusesFields (srv_fields srv) old e };

    fn emit(&self, encoder: &mut BinEncoder<'_>) -> Result<(), ProtoError> {
        let target = (&self.target, ());
        let fields = (self.priority, (self.weight, (self.port, target)));
        emit_data(encoder, RDataEncoding::Canonical, &fields)
    }
}

impl PartialEq for SRV {
    ghost eq = { λ a b. fields_eq (srv_fields a) (srv_fields b) };

    ghost laws = { partial_equiv_from_equiv (data_equiv srv_fields) };

    /// Whether the numbers are the same, and the names up to the case of ASCII letters. Of data that were read this is so
    /// exactly where the canonical octets are the same (RFC 4034 6.3).
    fn eq(&self, other: &SRV) -> bool
        ensures value { result ≡ fields_eq (srv_fields self.now) (srv_fields other.now) }
        ensures canonical { AreFull (srv_fields self.now) → AreFull (srv_fields other.now)
            → Tells result (canonical_octets (srv_fields self.now)) (canonical_octets (srv_fields other.now)) }
    {
        is_same_data(self, other)
    }
}

impl Eq for SRV {
    ghost laws = { data_equiv srv_fields };
}

impl Hash for SRV {
    ghost hash_input = { λ srv. fields_input (srv_fields srv) };

    ghost respects_eq = { λ a b. fields-alike (srv_fields a) (srv_fields b) };

    fn hash<H: Hasher>(&self, state: &mut H) {
        hash_list(self.fields().as_slice(), state);
    }
}

impl fmt::Display for SRV {
    ghost output = { λ srv. Some (srv_print srv) };

    fn fmt<W: fmt::Write>(&self, f: &mut fmt::Formatter<W>) -> fmt::Result {
        let (priority, weight, port) = (self.priority, self.weight, self.port);
        let target = &self.target;
        write!(f, "{priority} {weight} {port} {target}")
    }
}
