//! A (RFC 1035 3.4.1).
ghost use Rattle.std.specs.Prelude.{◌≡◌, ◌∷◌, [], ℕ, Some};
ghost use Rattle.std.specs.Net.Addr.{ipv4_octets};
ghost use Rattle.std.specs.Net.Grammar.{Parses, IsIpv4Text};
ghost use Rattle.std.specs.Cmp.{partial_equiv_from_equiv};
ghost use Rattle.drd_fields.specs.dnw_encoder.declared.modes.RDataEncoding.TheVariants.{Other};
ghost use Rattle.drd_fields.specs.Fields.{long, FieldsAt};
ghost use Rattle.drd_fields.specs.Reading.{StopsReading};
ghost use Rattle.drd_fields.specs.Equality.{AreFull, Tells, fields_eq};
ghost use Rattle.drd_fields.specs.Order.{fields_input};
ghost use Rattle.drd_fields.proofs.EqualityLaws.{data_equiv};
ghost use Rattle.drd_fields.proofs.OrderLaws.{fields-alike};
ghost use Rattle.drd_fields.specs.Writing.{EmitsData, RefusesFields, canonical_octets};
ghost use Rattle.drd_params.specs.AddressFields.{a_fields, a_kinds};
ghost use Rattle.drd_params.specs.AddressWords.{IsAText, RefusesAText};
ghost use Rattle.drd_params.specs.AddressPrint.{a_print};

use drd_fields::{
    BinDecodable, BinDecoder, BinEncodable, BinEncoder, DecodeError, FieldData, FieldRef, Fields,
    ProtoError, RDataEncoding, emit_data, hash_list, is_same_data, read_value,
};
use drd_param_keys::TextData;
use std::alloc::Global;
use std::fmt;
use std::hash::{Hash, Hasher};
use std::net::{AddrParseError, Ipv4Addr};
use std::ops::Deref;
use std::str::FromStr;

/// A host's address of 32 bits.
#[derive(Clone, Copy, Debug)]
pub struct A(pub Ipv4Addr);

impl A {
    /// The address of four octets, the greatest first.
    pub fn new(a: u8, b: u8, c: u8, d: u8) -> A
        ensures { ipv4_octets result.0 ≡ a ∷ b ∷ c ∷ d ∷ [] }
    {
        A(Ipv4Addr::new(a, b, c, d))
    }

    // The fields of the data, as they are written.
    pub(crate) fn parts(&self) -> (u32, ())
        ensures { long result.0 ∷ [] ≡ a_fields self.now }
    {
        (self.0.to_bits(), ())
    }
}

impl From<Ipv4Addr> for A {
    ghost from_gives = { λ address a. a.0 ≡ address };

    fn from(address: Ipv4Addr) -> A {
        A(address)
    }
}

impl From<A> for Ipv4Addr {
    ghost from_gives = { λ a address. address ≡ a.0 };

    fn from(a: A) -> Ipv4Addr {
        a.0
    }
}

/// Reads the address as four decimal numbers with dots between them.
impl FromStr for A {
    type Err = AddrParseError;

    ghost from_str_gives = { Parses (λ text a. IsIpv4Text text a.0) };

    fn from_str(s: &str) -> Result<A, AddrParseError> {
        match Ipv4Addr::from_str(s) {
            Ok(address) => Ok(A(address)),
            Err(refused) => Err(refused),
        }
    }
}

impl Deref for A {
    type Target = Ipv4Addr;

    ghost deref_gives = { λ a address. address ≡ a.0 };

    fn deref(&self) -> &Ipv4Addr {
        &self.0
    }
}

impl BinDecodable for A {
    ghost reads = { λ message place a end. FieldsAt message place (a_fields a) end };

    ghost refuses = { λ message place e. (end at : ℕ) × StopsReading message end a_kinds place e at };

    fn read(alloc: Global, decoder: &mut BinDecoder<'_>) -> Result<A, DecodeError> {
        read_value(alloc, decoder)
    }
}

impl FieldData for A {
    ghost use Rattle.std.proofs.Common.{refl};

    type Parts = (u32, ());

    ghost fields = { a_fields };

    #[tactic(auto, using(crate::proofs::Addresses::bits_back))]
    fn of_parts(parts: (u32, ())) -> Result<A, DecodeError> {
        let (bits, ()) = parts;
        Ok(A(Ipv4Addr::from_bits(bits)))
    }

    fn fields(&self) -> Fields<'_> {
        Fields::new(&[FieldRef::U32(self.0.to_bits())])
    }

    ghost laws = { λ a. refl };
}

/// One word writes the address, with dots between its octets (RFC 1035 5.1).
impl TextData for A {
    type Parts = (Ipv4Addr, ());

    ghost is_text = { λ words origin a. IsAText words a };

    ghost refuses = { λ words origin. RefusesAText words };

    fn of_words(parts: (Ipv4Addr, ())) -> A {
        let (address, ()) = parts;
        A(address)
    }

    ghost laws = { (λ words origin a written. ((a.0, tt), written), λ words origin e refused. refused) };
}

impl BinEncodable for A {
    ghost emits = { λ a. EmitsData Other (a_fields a) };

    ghost refuses = { λ a old e new. RefusesFields (a_fields a) old e };

    fn emit(&self, encoder: &mut BinEncoder<'_>) -> Result<(), ProtoError> {
        emit_data(encoder, RDataEncoding::Other, &self.parts())
    }
}

impl PartialEq for A {
    ghost eq = { λ a b. fields_eq (a_fields a) (a_fields b) };

    ghost laws = { partial_equiv_from_equiv (data_equiv a_fields) };

    /// Whether the addresses are the same.
    fn eq(&self, other: &A) -> bool
        ensures value { result ≡ fields_eq (a_fields self.now) (a_fields other.now) }
        ensures canonical { AreFull (a_fields self.now) → AreFull (a_fields other.now)
            → Tells result (canonical_octets (a_fields self.now)) (canonical_octets (a_fields other.now)) }
    {
        is_same_data(self, other)
    }
}

impl Eq for A {
    ghost laws = { data_equiv a_fields };
}

impl Hash for A {
    ghost hash_input = { λ a. fields_input (a_fields a) };

    ghost respects_eq = { λ a b. fields-alike (a_fields a) (a_fields b) };

    fn hash<H: Hasher>(&self, state: &mut H) {
        hash_list(FieldData::fields(self).as_slice(), state);
    }
}

impl fmt::Display for A {
    ghost output = { λ a. Some (a_print a) };

    /// Writes the address with dots between its octets.
    fn fmt<W: fmt::Write>(&self, f: &mut fmt::Formatter<W>) -> fmt::Result {
        fmt::Display::fmt(&self.0, f)
    }
}
