//! The signature of a message by a key that both ends have: TSIG (RFC 8945 section 4.2).

ghost use Rattle.std.specs.Prelude.{◌≡◌, ◌+◌, ◌-◌, ◌<◌, ◌≤◌, ◌^◌, ◌++◌, ◌⊎◌, ◌∷◌, ℕ, List, length, IfOk, IfErr, OnOk, OnErr};
ghost use Rattle.dnw_codes.specs.declared.error.DecodeError.TheVariants.{IncorrectRDataLengthRead};
ghost use Rattle.dnw_encoder.specs.dnw_decoder.Octets.{octets_16, number_16};
ghost use Rattle.dnw_encoder.specs.dnw_decoder.Reading.{TakesOctets, IsWantOfMemory};
ghost use Rattle.dnw_encoder.specs.dnw_name.DomainName.{IsDomainName, name_octets};
ghost use Rattle.dnw_encoder.specs.Effects.{Writes, WritesOctets, IsRefusal};
ghost use Rattle.dnw_encoder.specs.Encoders.{state};
ghost use Rattle.zsv_parts.specs.declared.tsig.Tsig.{Tsig as Signature};
ghost use Rattle.zsv_parts.specs.Signatures.{octets_48, counted, signed_of, time_octets, code_octets, FitsTime, FitsCodes, SignedAt, TsigAt, time_sizes, code_sizes, field_sizes, RefusesFields, RefusesSigned, RefusesTsig, signed_octets, tsig_octets, EmitsTsig, IsTooLong, RefusesEmission};
ghost use Rattle.zsv_parts.specs.Signed.{signed};

use dnw_codes::DNSClass;
use dnw_encoder::{
    BinDecodable, BinDecoder, BinEncodable, BinEncoder, DecodeError, Name, ProtoError,
};
use std::alloc::Global;

/// The data of a signature.
#[derive(Debug, Drop, PartialEq, Eq)]
pub struct Tsig {
    /// The name of the algorithm that made the MAC.
    pub algorithm: Name,
    /// When it was signed, in seconds since 1970-01-01 00:00 UTC: 48 bits.
    pub time: u64,
    /// By how many seconds the clocks of both ends may differ.
    pub fudge: u16,
    /// The message authentication code, of at most 65,535 octets.
    pub mac: Vec<u8>,
    /// The id of the message when it was signed.
    pub oid: u16,
    /// What is wrong with a signature that is answered, or 0.
    pub error: u16,
    /// The other data, of at most 65,535 octets: the server's time where the error is BADTIME.
    pub other: Vec<u8>,
}

/// A signature as a record of its message.
#[derive(Debug, Drop, PartialEq, Eq)]
pub struct TsigRecord {
    /// The name of the key.
    pub name: Name,
    /// The class, which is ANY.
    pub dns_class: DNSClass,
    /// The time to live, which is 0.
    pub ttl: u32,
    /// The data.
    pub rdata: Tsig,
}

// The time, the fudge and the MAC, which is lent from the message.
#[derive(Drop)]
struct Times<'m> {
    time: u64,
    fudge: u16,
    mac: &'m [u8],
}

// The original id, the error and the other data, which are lent from the message.
#[derive(Drop)]
struct Codes<'m> {
    oid: u16,
    error: u16,
    other: &'m [u8],
}

// Refuses data that were read past their end.
fn check_end(decoder: &BinDecoder<'_>, start: usize, len: u16) -> Result<(), DecodeError>
    requires { start ≤ decoder.now.index }
    ensures ok { OnOk result (decoder.now.index ≤ start + len) }
    ensures err { IfErr result (λ e. (start + len < decoder.now.index)
        × (e ≡ IncorrectRDataLengthRead (decoder.now.index - start) len)) }
{
    let read = decoder.index() - start;
    let len = usize::from(len);
    if len < read {
        return Err(DecodeError::IncorrectRDataLengthRead { read, len });
    }
    Ok(())
}

// So many octets at the decoder's index, of data that take len octets from their start on.
fn read_octets<'m>(
    decoder: &mut BinDecoder<'m>,
    start: usize,
    len: u16,
    size: usize,
) -> Result<&'m [u8], DecodeError>
    requires { start ≤ decoder.old.index }
    ensures ok { IfOk result (λ octets. TakesOctets decoder.old octets.now decoder.new) }
    ensures long { IfOk result (λ octets. length octets.now ≡ size) }
    ensures end { OnOk result (decoder.new.index ≤ start + len) }
    ensures same { decoder.new.octets ≡ decoder.old.octets }
    ensures err { IfErr result (λ e. (later : List ℕ)
        → RefusesFields decoder.old.octets start len decoder.old.index (size ∷ later) e) }
{
    let octets = decoder.read_slice(size)?.unverified();
    check_end(decoder, start, len)?;
    Ok(octets)
}

// A number of two octets.
fn read_number(decoder: &mut BinDecoder<'_>, start: usize, len: u16) -> Result<u16, DecodeError>
    requires { start ≤ decoder.old.index }
    ensures ok { IfOk result (λ number. TakesOctets decoder.old (octets_16 number) decoder.new) }
    ensures end { OnOk result (decoder.new.index ≤ start + len) }
    ensures same { decoder.new.octets ≡ decoder.old.octets }
    ensures err { IfErr result (λ e. (later : List ℕ)
        → RefusesFields decoder.old.octets start len decoder.old.index (2 ∷ later) e) }
{
    let octets = read_octets(decoder, start, len, 2)?;
    Ok(u16::from_be_bytes([octets[0], octets[1]]))
}

// The time: a number of six octets.
fn read_time(decoder: &mut BinDecoder<'_>, start: usize, len: u16) -> Result<u64, DecodeError>
    requires { start ≤ decoder.old.index }
    ensures ok { IfOk result (λ time. TakesOctets decoder.old (octets_48 time) decoder.new) }
    ensures small { IfOk result (λ time. time < 2 ^ 48) }
    ensures end { OnOk result (decoder.new.index ≤ start + len) }
    ensures same { decoder.new.octets ≡ decoder.old.octets }
    ensures err { IfErr result (λ e. (later : List ℕ)
        → RefusesFields decoder.old.octets start len decoder.old.index (6 ∷ later) e) }
{
    let octets = read_octets(decoder, start, len, 6)?;
    let high = u16::from_be_bytes([octets[0], octets[1]]);
    let low = u32::from_be_bytes([octets[2], octets[3], octets[4], octets[5]]);
    Ok(u64::from(high) * 0x1_0000_0000 + u64::from(low))
}

// Octets behind their number.
fn read_counted<'m>(
    decoder: &mut BinDecoder<'m>,
    start: usize,
    len: u16,
) -> Result<&'m [u8], DecodeError>
    requires { start ≤ decoder.old.index }
    ensures ok { IfOk result (λ octets. TakesOctets decoder.old (counted octets.now) decoder.new) }
    ensures small { IfOk result (λ octets. length octets.now < 2 ^ 16) }
    ensures end { OnOk result (decoder.new.index ≤ start + len) }
    ensures same { decoder.new.octets ≡ decoder.old.octets }
    ensures err { IfErr result (λ e. (later : List ℕ) → RefusesFields decoder.old.octets start len decoder.old.index
        (2 ∷ number_16 decoder.old.octets decoder.old.index ∷ later) e) }
{
    let count = read_number(decoder, start, len)?;
    read_octets(decoder, start, len, usize::from(count))
}

// The time, the fudge and the MAC.
fn read_times<'m>(
    decoder: &mut BinDecoder<'m>,
    start: usize,
    len: u16,
) -> Result<Times<'m>, DecodeError>
    requires { start ≤ decoder.old.index }
    ensures ok { IfOk result (λ t. TakesOctets decoder.old (time_octets t.time t.fudge t.mac.now) decoder.new) }
    ensures fits { IfOk result (λ t. FitsTime t.time t.fudge t.mac.now) }
    ensures end { OnOk result (decoder.new.index ≤ start + len) }
    ensures same { decoder.new.octets ≡ decoder.old.octets }
    ensures err { IfErr result (λ e. (later : List ℕ) → RefusesFields decoder.old.octets start len decoder.old.index
        (time_sizes decoder.old.octets decoder.old.index later) e) }
{
    let time = read_time(decoder, start, len)?;
    let fudge = read_number(decoder, start, len)?;
    let mac = read_counted(decoder, start, len)?;
    Ok(Times { time, fudge, mac })
}

// The original id, the error and the other data, which end the data.
fn read_codes<'m>(
    decoder: &mut BinDecoder<'m>,
    start: usize,
    len: u16,
) -> Result<Codes<'m>, DecodeError>
    requires { start ≤ decoder.old.index }
    ensures ok { IfOk result (λ c. TakesOctets decoder.old (code_octets c.oid c.error c.other.now) decoder.new) }
    ensures fits { IfOk result (λ c. FitsCodes c.oid c.error c.other.now) }
    ensures end { OnOk result (decoder.new.index ≡ start + len) }
    ensures same { decoder.new.octets ≡ decoder.old.octets }
    ensures err { IfErr result (RefusesFields decoder.old.octets start len decoder.old.index
        (code_sizes decoder.old.octets decoder.old.index)) }
{
    let oid = read_number(decoder, start, len)?;
    let error = read_number(decoder, start, len)?;
    let other = read_counted(decoder, start, len)?;
    let read = decoder.index() - start;
    let len = usize::from(len);
    if read < len {
        return Err(DecodeError::IncorrectRDataLengthRead { read, len });
    }
    Ok(Codes { oid, error, other })
}

// The fields behind the algorithm's name, which fill the data.
fn read_fields<'m>(
    decoder: &mut BinDecoder<'m>,
    start: usize,
    len: u16,
) -> Result<(Times<'m>, Codes<'m>), DecodeError>
    requires { start ≤ decoder.old.index }
    ensures ok { IfOk result (λ found. SignedAt decoder.old.octets decoder.old.index (signed found.0 found.1) (start + len)) }
    ensures end { OnOk result (decoder.new.index ≡ start + len) }
    ensures same { decoder.new.octets ≡ decoder.old.octets }
    ensures err { IfErr result (RefusesFields decoder.old.octets start len decoder.old.index
        (field_sizes decoder.old.octets decoder.old.index)) }
{
    let times = read_times(decoder, start, len)?;
    let codes = read_codes(decoder, start, len)?;
    Ok((times, codes))
}

// The signature of these fields, whose octets are copied.
fn signature(
    alloc: Global,
    algorithm: Name,
    times: &Times<'_>,
    codes: &Codes<'_>,
) -> Result<Tsig, DecodeError>
    ensures name { IfOk result (λ tsig. tsig.algorithm ≡ algorithm) }
    ensures fields { IfOk result (λ tsig. signed_of tsig ≡ signed times.now codes.now) }
    ensures memory { IfErr result IsWantOfMemory }
{
    let Ok(mac) = Vec::from_slice(alloc, times.mac) else {
        return Err(DecodeError::Memory);
    };
    let Ok(other) = Vec::from_slice(alloc, codes.other) else {
        return Err(DecodeError::Memory);
    };
    Ok(Tsig {
        algorithm,
        time: times.time,
        fudge: times.fudge,
        mac,
        oid: codes.oid,
        error: codes.error,
        other,
    })
}

// The signature with this algorithm, whose other fields stand at the decoder's index and fill the data.
fn read_signed(
    alloc: Global,
    decoder: &mut BinDecoder<'_>,
    start: usize,
    len: u16,
    algorithm: Name,
) -> Result<Tsig, DecodeError>
    requires { start ≤ decoder.old.index }
    ensures name { IfOk result (λ tsig. tsig.algorithm ≡ algorithm) }
    ensures ok { IfOk result (λ tsig. SignedAt decoder.old.octets decoder.old.index (signed_of tsig) (start + len)) }
    ensures end { OnOk result (decoder.new.index ≡ start + len) }
    ensures same { decoder.new.octets ≡ decoder.old.octets }
    ensures err { IfErr result (RefusesSigned decoder.old.octets start len decoder.old.index) }
{
    match read_fields(decoder, start, len) {
        Ok((times, codes)) => signature(alloc, algorithm, &times, &codes),
        Err(refused) => Err(refused),
    }
}

// The signature that fills the data, whose start is the decoder's index.
fn read_tsig(alloc: Global, decoder: &mut BinDecoder<'_>, len: u16) -> Result<Tsig, DecodeError>
    ensures ok { IfOk result (TsigAt decoder.old.octets decoder.old.index len) }
    ensures end { OnOk result (decoder.new.index ≡ decoder.old.index + len) }
    ensures same { decoder.new.octets ≡ decoder.old.octets }
    ensures refused { IfErr result (RefusesTsig decoder.old.octets decoder.old.index len) }
    ensures none { IfErr result (λ e. IsWantOfMemory e
        ⊎ ((tsig : Signature) → TsigAt decoder.old.octets decoder.old.index len tsig → ⊥)) }
{
    let start = decoder.index();
    match Name::read(alloc, decoder) {
        Ok(algorithm) => read_signed(alloc, decoder, start, len, algorithm),
        Err(refused) => Err(refused),
    }
}

impl Tsig {
    /// The signature that takes exactly so many octets from the decoder's index on, which moves behind them. Refused are an
    /// algorithm's name that can't be read; `InsufficientBytes` where the message ends inside a field, and
    /// `IncorrectRDataLengthRead` where a field goes past these octets or all end before, with the number of octets up to
    /// that field's end (RFC 8945 section 4.2). Where none is read, the decoder stays.
    pub fn read_data(
        alloc: Global,
        decoder: &mut BinDecoder<'_>,
        len: u16,
    ) -> Result<Tsig, DecodeError>
        ensures ok { IfOk result (TsigAt decoder.old.octets decoder.old.index len) }
        ensures end { OnOk result (decoder.new.index ≡ decoder.old.index + len) }
        ensures same { decoder.new.octets ≡ decoder.old.octets }
        ensures within { decoder.new.index ≤ length decoder.new.octets }
        ensures err { OnErr result (decoder.new ≡ decoder.old) }
        ensures refused { IfErr result (RefusesTsig decoder.old.octets decoder.old.index len) }
        ensures none { IfErr result (λ e. IsWantOfMemory e
            ⊎ ((tsig : Signature) → TsigAt decoder.old.octets decoder.old.index len tsig → ⊥)) }
    {
        let start = decoder.index();
        match read_tsig(alloc, decoder, len) {
            Ok(tsig) => Ok(tsig),
            Err(refused) => {
                decoder.set_index(start);
                Err(refused)
            }
        }
    }
}

// Writes octets behind others.
pub(crate) fn emit_two(
    encoder: &mut BinEncoder<'_>,
    front: &[u8],
    rest: &[u8],
) -> Result<(), ProtoError>
    ensures same_reference { encoder.new.buffer.ghost_name ≡ encoder.old.buffer.ghost_name }
    ensures writes { Writes (state encoder.old) (state encoder.new) }
    ensures ok { OnOk result (WritesOctets (front.now ++ rest.now) (state encoder.old) (state encoder.new)) }
    ensures fits { OnOk result ((state encoder.new).offset ≤ (state encoder.old).maximum) }
    ensures cause { IfErr result (IsRefusal (state encoder.old) (length front.now + length rest.now)) }
{
    let _start = encoder.offset();
    encoder.emit_vec(front)?;
    encoder.emit_vec(rest)
}

// The number of octets, which two octets can hold.
pub(crate) fn count_of(octets: &[u8]) -> Result<u16, ProtoError>
    ensures ok { IfOk result (λ count. (count ≡ length octets.now) × (length octets.now < 2 ^ 16)) }
    ensures err { IfErr result (IsTooLong octets.now) }
{
    match u16::try_from(octets.len()) {
        Ok(count) => Ok(count),
        Err(_) => Err(ProtoError::CharacterDataTooLong {
            max: 65_535,
            len: octets.len(),
        }),
    }
}

impl Tsig {
    // The time, the fudge and the size of the MAC.
    fn time_numbers(&self, mac_size: u16) -> [u8; 10]
        ensures octets { result ≡ octets_48 self.now.time ++ (octets_16 self.now.fudge ++ octets_16 mac_size) }
        ensures small { self.now.fudge < 2 ^ 16 }
    {
        let (time, fudge) = (self.time, self.fudge);
        let high = (time / 0x1_0000_0000 % 0x1_0000) as u16;
        let low = (time % 0x1_0000_0000) as u32;
        let [first, second] = high.to_be_bytes();
        let [third, fourth, fifth, last] = low.to_be_bytes();
        let [fudge, fudge_low] = fudge.to_be_bytes();
        let [size, size_low] = mac_size.to_be_bytes();
        [
            first, second, third, fourth, fifth, last, fudge, fudge_low, size, size_low,
        ]
    }

    // The original id, the error and the length of the other data.
    fn code_numbers(&self, other_len: u16) -> [u8; 6]
        ensures octets { result ≡ octets_16 self.now.oid ++ (octets_16 self.now.error ++ octets_16 other_len) }
        ensures small_oid { self.now.oid < 2 ^ 16 }
        ensures small_error { self.now.error < 2 ^ 16 }
    {
        let (oid, error) = (self.oid, self.error);
        let [oid, oid_low] = oid.to_be_bytes();
        let [error, error_low] = error.to_be_bytes();
        let [len, len_low] = other_len.to_be_bytes();
        [oid, oid_low, error, error_low, len, len_low]
    }

    // Writes the algorithm's name in full.
    fn emit_algorithm(&self, encoder: &mut BinEncoder<'_>) -> Result<(), ProtoError>
        ensures same_reference { encoder.new.buffer.ghost_name ≡ encoder.old.buffer.ghost_name }
        ensures writes { Writes (state encoder.old) (state encoder.new) }
        ensures name { IsDomainName self.now.algorithm }
        ensures ok { OnOk result (WritesOctets (name_octets self.now.algorithm) (state encoder.old) (state encoder.new)) }
        ensures cause { IfErr result (IsRefusal (state encoder.old) (length (name_octets self.now.algorithm))) }
    {
        emit_two(encoder, self.algorithm.as_octets(), &[0])
    }

    // Writes the fields behind it.
    fn emit_signed(
        &self,
        encoder: &mut BinEncoder<'_>,
        mac_size: u16,
        other_len: u16,
    ) -> Result<(), ProtoError>
        requires mac { mac_size ≡ length self.now.mac.items }
        requires other { other_len ≡ length self.now.other.items }
        ensures same_reference { encoder.new.buffer.ghost_name ≡ encoder.old.buffer.ghost_name }
        ensures writes { Writes (state encoder.old) (state encoder.new) }
        ensures ok { OnOk result (WritesOctets (signed_octets (signed_of self.now)) (state encoder.old) (state encoder.new)) }
        ensures fits { OnOk result ((state encoder.new).offset ≤ (state encoder.old).maximum) }
        ensures small { OnOk result ((self.now.fudge < 2 ^ 16) × (self.now.oid < 2 ^ 16) × (self.now.error < 2 ^ 16)) }
        ensures cause { IfErr result (IsRefusal (state encoder.old) (length (signed_octets (signed_of self.now)))) }
    {
        let _start = encoder.offset();
        emit_two(encoder, &self.time_numbers(mac_size), &self.mac)?;
        emit_two(encoder, &self.code_numbers(other_len), &self.other)
    }

    // Writes the data, whose lengths these are.
    pub(crate) fn emit_data(
        &self,
        encoder: &mut BinEncoder<'_>,
        mac_size: u16,
        other_len: u16,
    ) -> Result<(), ProtoError>
        requires mac { mac_size ≡ length self.now.mac.items }
        requires other { other_len ≡ length self.now.other.items }
        ensures same_reference { encoder.new.buffer.ghost_name ≡ encoder.old.buffer.ghost_name }
        ensures writes { Writes (state encoder.old) (state encoder.new) }
        ensures ok { OnOk result (EmitsTsig self.now (state encoder.old) (state encoder.new)) }
        ensures cause { IfErr result (IsRefusal (state encoder.old) (length (tsig_octets self.now))) }
    {
        let _start = encoder.offset();
        self.emit_algorithm(encoder)?;
        self.emit_signed(encoder, mac_size, other_len)
    }
}

impl BinEncodable for Tsig {
    ghost emits = { EmitsTsig };

    ghost refuses = { RefusesEmission };

    /// Writes the algorithm's name in full and the fields behind it (RFC 8945 section 4.2); of the time 48 bits. A MAC, or
    /// other data, of more than 65,535 octets is refused, and nothing is written.
    fn emit(&self, encoder: &mut BinEncoder<'_>) -> Result<(), ProtoError> {
        let mac_size = count_of(&self.mac)?;
        let other_len = count_of(&self.other)?;
        self.emit_data(encoder, mac_size, other_len)
    }
}
