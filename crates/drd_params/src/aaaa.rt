//! AAAA (RFC 3596 2.2).
ghost use Rattle.std.specs.Prelude.{◌≡◌, ◌∷◌, [], ℕ, Some};
ghost use Rattle.std.specs.Net.Addr.{ipv6_segments};
ghost use Rattle.std.specs.Net.Grammar.{Parses, IsIpv6Text};
ghost use Rattle.std.specs.Cmp.{partial_equiv_from_equiv};
ghost use Rattle.drd_fields.specs.dnw_encoder.declared.modes.RDataEncoding.TheVariants.{Other};
ghost use Rattle.drd_fields.specs.Fields.{short, FieldsAt};
ghost use Rattle.drd_fields.specs.Reading.{StopsReading};
ghost use Rattle.drd_fields.specs.Equality.{AreFull, Tells, fields_eq};
ghost use Rattle.drd_fields.specs.Order.{fields_input};
ghost use Rattle.drd_fields.proofs.EqualityLaws.{data_equiv};
ghost use Rattle.drd_fields.proofs.OrderLaws.{fields-alike};
ghost use Rattle.drd_fields.specs.Writing.{EmitsData, RefusesFields, canonical_octets};
ghost use Rattle.drd_params.specs.AddressFields.{aaaa_fields, aaaa_kinds};
ghost use Rattle.drd_params.specs.AddressWords.{IsAaaaText, RefusesAaaaText};
ghost use Rattle.drd_params.specs.AddressPrint.{aaaa_print};

use drd_fields::{
    BinDecodable, BinDecoder, BinEncodable, BinEncoder, DecodeError, FieldData, FieldRef, Fields,
    ProtoError, RDataEncoding, emit_data, hash_list, is_same_data, read_value,
};
use drd_param_keys::TextData;
use std::alloc::Global;
use std::fmt;
use std::hash::{Hash, Hasher};
use std::net::{AddrParseError, Ipv6Addr};
use std::ops::Deref;
use std::str::FromStr;

/// A host's address of 128 bits.
#[derive(Clone, Copy, Debug)]
pub struct AAAA(pub Ipv6Addr);

// Eight groups of 16 bits.
type Groups = (u16, (u16, (u16, (u16, (u16, (u16, (u16, (u16, ()))))))));

impl AAAA {
    /// The address of eight groups of 16 bits, the greatest first.
    pub fn new(a: u16, b: u16, c: u16, d: u16, e: u16, f: u16, g: u16, h: u16) -> AAAA
        ensures { ipv6_segments result.0 ≡ a ∷ b ∷ c ∷ d ∷ e ∷ f ∷ g ∷ h ∷ [] }
    {
        AAAA(Ipv6Addr::new(a, b, c, d, e, f, g, h))
    }

    // The fields of the data, as they are written.
    pub(crate) fn parts(&self) -> Groups
        ensures { short result.0 ∷ short result.1.0 ∷ short result.1.1.0 ∷ short result.1.1.1.0 ∷ short result.1.1.1.1.0
            ∷ short result.1.1.1.1.1.0 ∷ short result.1.1.1.1.1.1.0 ∷ short result.1.1.1.1.1.1.1.0 ∷ [] ≡ aaaa_fields self.now }
    {
        let [a, b, c, d, e, f, g, h] = self.0.segments();
        (a, (b, (c, (d, (e, (f, (g, (h, ()))))))))
    }
}

impl From<Ipv6Addr> for AAAA {
    ghost from_gives = { λ address aaaa. aaaa.0 ≡ address };

    fn from(address: Ipv6Addr) -> AAAA {
        AAAA(address)
    }
}

impl From<AAAA> for Ipv6Addr {
    ghost from_gives = { λ aaaa address. address ≡ aaaa.0 };

    fn from(aaaa: AAAA) -> Ipv6Addr {
        aaaa.0
    }
}

/// Reads the address as RFC 4291 2.2 writes it.
impl FromStr for AAAA {
    type Err = AddrParseError;

    ghost from_str_gives = { Parses (λ text aaaa. IsIpv6Text text aaaa.0) };

    fn from_str(s: &str) -> Result<AAAA, AddrParseError> {
        match Ipv6Addr::from_str(s) {
            Ok(address) => Ok(AAAA(address)),
            Err(refused) => Err(refused),
        }
    }
}

impl Deref for AAAA {
    type Target = Ipv6Addr;

    ghost deref_gives = { λ aaaa address. address ≡ aaaa.0 };

    fn deref(&self) -> &Ipv6Addr {
        &self.0
    }
}

impl BinDecodable for AAAA {
    ghost reads = { λ message place aaaa end. FieldsAt message place (aaaa_fields aaaa) end };

    ghost refuses = { λ message place e. (end at : ℕ) × StopsReading message end aaaa_kinds place e at };

    fn read(alloc: Global, decoder: &mut BinDecoder<'_>) -> Result<AAAA, DecodeError> {
        read_value(alloc, decoder)
    }
}

impl FieldData for AAAA {
    ghost use Rattle.std.proofs.Common.{refl};

    type Parts = Groups;

    ghost fields = { aaaa_fields };

    fn of_parts(parts: Groups) -> Result<AAAA, DecodeError> {
        let (a, (b, (c, (d, (e, (f, (g, (h, ())))))))) = parts;
        Ok(AAAA::new(a, b, c, d, e, f, g, h))
    }

    fn fields(&self) -> Fields<'_> {
        let [a, b, c, d, e, f, g, h] = self.0.segments();
        Fields::new(&[
            FieldRef::U16(a),
            FieldRef::U16(b),
            FieldRef::U16(c),
            FieldRef::U16(d),
            FieldRef::U16(e),
            FieldRef::U16(f),
            FieldRef::U16(g),
            FieldRef::U16(h),
        ])
    }

    ghost laws = { λ aaaa. refl };
}

/// One word writes the address, as RFC 4291 2.2 has it.
impl TextData for AAAA {
    type Parts = (Ipv6Addr, ());

    ghost is_text = { λ words origin aaaa. IsAaaaText words aaaa };

    ghost refuses = { λ words origin. RefusesAaaaText words };

    fn of_words(parts: (Ipv6Addr, ())) -> AAAA {
        let (address, ()) = parts;
        AAAA(address)
    }

    ghost laws = { (λ words origin aaaa written. ((aaaa.0, tt), written), λ words origin e refused. refused) };
}

impl BinEncodable for AAAA {
    ghost emits = { λ aaaa. EmitsData Other (aaaa_fields aaaa) };

    ghost refuses = { λ aaaa old e new. RefusesFields (aaaa_fields aaaa) old e };

    fn emit(&self, encoder: &mut BinEncoder<'_>) -> Result<(), ProtoError> {
        emit_data(encoder, RDataEncoding::Other, &self.parts())
    }
}

impl PartialEq for AAAA {
    ghost eq = { λ a b. fields_eq (aaaa_fields a) (aaaa_fields b) };

    ghost laws = { partial_equiv_from_equiv (data_equiv aaaa_fields) };

    /// Whether the addresses are the same.
    fn eq(&self, other: &AAAA) -> bool
        ensures value { result ≡ fields_eq (aaaa_fields self.now) (aaaa_fields other.now) }
        ensures canonical { AreFull (aaaa_fields self.now) → AreFull (aaaa_fields other.now)
            → Tells result (canonical_octets (aaaa_fields self.now)) (canonical_octets (aaaa_fields other.now)) }
    {
        is_same_data(self, other)
    }
}

impl Eq for AAAA {
    ghost laws = { data_equiv aaaa_fields };
}

impl Hash for AAAA {
    ghost hash_input = { λ aaaa. fields_input (aaaa_fields aaaa) };

    ghost respects_eq = { λ a b. fields-alike (aaaa_fields a) (aaaa_fields b) };

    fn hash<H: Hasher>(&self, state: &mut H) {
        hash_list(FieldData::fields(self).as_slice(), state);
    }
}

impl fmt::Display for AAAA {
    ghost output = { λ aaaa. Some (aaaa_print aaaa) };

    /// Writes the address in its canonical text (RFC 5952).
    fn fmt<W: fmt::Write>(&self, f: &mut fmt::Formatter<W>) -> fmt::Result {
        fmt::Display::fmt(&self.0, f)
    }
}
