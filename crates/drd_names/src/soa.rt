//! SOA (RFC 1035 3.3.13).
ghost use Rattle.std.specs.Prelude.{◌≡◌, ℕ, Some};
ghost use Rattle.std.specs.Fmt.{WritesOnOk};
ghost use Rattle.std.specs.Cmp.{partial_equiv_from_equiv};
ghost use Rattle.drd_fields.specs.dnw_encoder.declared.modes.RDataEncoding.TheVariants.{StandardRecord};
ghost use Rattle.drd_fields.specs.Fields.{FieldsAt};
ghost use Rattle.drd_fields.specs.Reading.{StopsReading};
ghost use Rattle.drd_fields.specs.Equality.{AreFull, Tells, fields_eq};
ghost use Rattle.drd_fields.proofs.EqualityLaws.{data_equiv};
ghost use Rattle.drd_fields.specs.Order.{fields_input};
ghost use Rattle.drd_fields.proofs.OrderLaws.{fields-alike};
ghost use Rattle.drd_fields.specs.Writing.{EmitsData, RefusesFields, canonical_octets, fields_octets};
ghost use Rattle.drd_names.specs.Fields.{soa_fields, soa_kinds, soa_numbers};
ghost use Rattle.drd_names.specs.Serials.{next_serial};
ghost use Rattle.drd_names.specs.Texts.{soa_print, numbers_print, IsSoaText, RefusesSoaText};

use drd_fields::{
    BinDecodable, BinDecoder, BinEncodable, BinEncoder, FieldData, FieldRef, Fields, RDataEncoding,
    emit_three, hash_list, is_same_data, octets_of_five, read_value,
};
use drd_words::{DecodeError, Name, ProtoError, TextData, TimeInterval, TimeToLive};
use std::alloc::Global;
use std::fmt;
use std::hash::{Hash, Hasher};

// The fields as they are read.
type SoaParts = (Name, (Name, (u32, (i32, (i32, (i32, (u32, ())))))));

// The words of the data: two names, the serial number, three intervals and a time to live.
type Written = (
    Name,
    (
        Name,
        (
            u32,
            (
                TimeInterval,
                (TimeInterval, (TimeInterval, (TimeToLive, ()))),
            ),
        ),
    ),
);

/// The start of a zone of authority (RFC 1035 3.3.13).
#[derive(Clone, Debug, Drop)]
pub struct SOA {
    /// The name server that the zone's data come from.
    pub mname: Name,
    /// The mailbox of the person in charge, its local part as the first label.
    pub rname: Name,
    /// The version of the zone, a number on a circle (RFC 1982).
    pub serial: u32,
    /// Seconds until a secondary asks whether the zone has changed.
    pub refresh: i32,
    /// Seconds until it asks again where that failed.
    pub retry: i32,
    /// Seconds after which a zone that couldn't be refreshed is no longer served.
    pub expire: i32,
    /// Seconds that the absence of a name or type may be kept (RFC 2308 4).
    pub minimum: u32,
}

impl SOA {
    pub fn new(
        mname: Name,
        rname: Name,
        serial: u32,
        refresh: i32,
        retry: i32,
        expire: i32,
        minimum: u32,
    ) -> SOA
        ensures mname { result.mname ≡ mname }
        ensures rname { result.rname ≡ rname }
        ensures serial { result.serial ≡ serial }
        ensures refresh { result.refresh ≡ refresh }
        ensures retry { result.retry ≡ retry }
        ensures expire { result.expire ≡ expire }
        ensures minimum { result.minimum ≡ minimum }
    {
        SOA {
            mname,
            rname,
            serial,
            refresh,
            retry,
            expire,
            minimum,
        }
    }

    /// The octets of the serial number, the three intervals and the time to live, as they stand behind the names.
    pub fn number_octets(&self) -> [u8; 20]
        ensures { result ≡ fields_octets (soa_numbers self.now) }
    {
        octets_of_five(
            self.serial,
            self.refresh.cast_unsigned(),
            self.retry.cast_unsigned(),
            self.expire.cast_unsigned(),
            self.minimum,
        )
    }

    /// The zone's version goes up by one, from 2^32 - 1 to 0 (RFC 1982 3.1).
    pub fn increment_serial(&mut self)
        ensures { self.new ≡ next_serial self.old }
    {
        self.serial = self.serial.wrapping_add(1);
    }
}

impl BinDecodable for SOA {
    ghost reads = { λ message place soa end. FieldsAt message place (soa_fields soa) end };

    ghost refuses = { λ message place e. (end at : ℕ) × StopsReading message end soa_kinds place e at };

    fn read(alloc: Global, decoder: &mut BinDecoder<'_>) -> Result<SOA, DecodeError> {
        read_value(alloc, decoder)
    }
}

impl FieldData for SOA {
    ghost use Rattle.std.proofs.Common.{refl};

    type Parts = SoaParts;

    ghost fields = { soa_fields };

    fn of_parts(parts: SoaParts) -> Result<SOA, DecodeError> {
        let (mname, (rname, (serial, (refresh, (retry, (expire, (minimum, ()))))))) = parts;
        Ok(SOA::new(mname, rname, serial, refresh, retry, expire, minimum))
    }

    fn fields(&self) -> Fields<'_> {
        Fields::new(&[
            FieldRef::Name(&self.mname),
            FieldRef::Name(&self.rname),
            FieldRef::U32(self.serial),
            FieldRef::U32(self.refresh.cast_unsigned()),
            FieldRef::U32(self.retry.cast_unsigned()),
            FieldRef::U32(self.expire.cast_unsigned()),
            FieldRef::U32(self.minimum),
        ])
    }

    ghost laws = { λ soa. refl };
}

impl TextData for SOA {
    type Parts = Written;

    ghost is_text = { IsSoaText };

    ghost refuses = { RefusesSoaText };

    fn of_words(parts: Written) -> SOA {
        let (mname, (rname, (serial, (refresh, (retry, (expire, (minimum, ()))))))) = parts;
        SOA::new(
            mname, rname, serial, refresh.0, retry.0, expire.0, minimum.0,
        )
    }

    ghost laws = { (λ words origin soa written. (_, written), λ words origin e refused. refused) };
}

impl BinEncodable for SOA {
    ghost emits = { λ soa. EmitsData StandardRecord (soa_fields soa) };

    ghost refuses = { λ soa old e new. RefusesFields (soa_fields soa) old e };

    fn emit(&self, encoder: &mut BinEncoder<'_>) -> Result<(), ProtoError> {
        let numbers = (
            self.serial,
            self.refresh.cast_unsigned(),
            self.retry.cast_unsigned(),
            self.expire.cast_unsigned(),
            self.minimum,
        );
        let fields = (&self.mname, (&self.rname, numbers));
        emit_three(encoder, RDataEncoding::StandardRecord, &fields)
    }
}

impl PartialEq for SOA {
    ghost eq = { λ a b. fields_eq (soa_fields a) (soa_fields b) };

    ghost laws = { partial_equiv_from_equiv (data_equiv soa_fields) };

    /// Whether the numbers are the same, and the names up to the case of ASCII letters. Of data that were read this is so
    /// exactly where the canonical octets are the same (RFC 4034 6.3).
    fn eq(&self, other: &SOA) -> bool
        ensures value { result ≡ fields_eq (soa_fields self.now) (soa_fields other.now) }
        ensures canonical { AreFull (soa_fields self.now) → AreFull (soa_fields other.now)
            → Tells result (canonical_octets (soa_fields self.now)) (canonical_octets (soa_fields other.now)) }
    {
        is_same_data(self, other)
    }
}

impl Eq for SOA {
    ghost laws = { data_equiv soa_fields };
}

impl Hash for SOA {
    ghost hash_input = { λ soa. fields_input (soa_fields soa) };

    ghost respects_eq = { λ a b. fields-alike (soa_fields a) (soa_fields b) };

    fn hash<H: Hasher>(&self, state: &mut H) {
        hash_list(self.fields().as_slice(), state);
    }
}

impl fmt::Display for SOA {
    ghost output = { λ soa. Some (soa_print soa) };

    fn fmt<W: fmt::Write>(&self, f: &mut fmt::Formatter<W>) -> fmt::Result {
        let (mname, rname) = (&self.mname, &self.rname);
        write!(f, "{mname} {rname} ")?;
        fmt_numbers(f, self)
    }
}

// Writes the serial number and the intervals.
fn fmt_numbers<W: fmt::Write>(f: &mut fmt::Formatter<W>, soa: &SOA) -> fmt::Result
    ensures { WritesOnOk W.write_str_gives f.old result (numbers_print soa.now) f.new }
{
    let (serial, minimum) = (soa.serial, soa.minimum);
    let (refresh, retry, expire) = (soa.refresh, soa.retry, soa.expire);
    write!(f, "{serial} {refresh} {retry} {expire} {minimum}")
}
