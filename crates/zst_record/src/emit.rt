//! Records that are written (RFC 1035 section 4.1.3).

ghost use Rattle.std.specs.Prelude.{◌≡◌, ◌↔◌, ◌⊎◌, ◌+◌, ◌++◌, ◌<◌, ◌^◌, IfErr, IsTrue, OnOk, length};
ghost use Rattle.std.specs.Net.Addr.{ipv4_bits};
ghost use Rattle.drd_rdata.specs.dnw_codes.ProtoError.{IsMemory};
ghost use Rattle.drd_rdata.specs.dnw_codes.declared.error.ProtoError.TheVariants.{MaxBufferSizeExceeded};
ghost use Rattle.drd_rdata.specs.dnw_decoder.Octets.{octets_16, octets_32};
ghost use Rattle.drd_rdata.specs.dnw_encoder.Effects.{Writes, IsRefusal};
ghost use Rattle.drd_rdata.specs.dnw_encoder.Encoders.{state};
ghost use Rattle.drd_rdata.specs.dnw_name.DomainName.{name_octets};
ghost use Rattle.drd_rdata.specs.Writing.{written_octets};
ghost use Rattle.zst_record.specs.Lending.{seen};
ghost use Rattle.zst_record.specs.Writing.{EmitsHead, EmitsBehindLength, EmitsRecord, RefusesBehindLength, RefusesRecord, ShownError, head_numbers};

use crate::records::{Record, RecordRef};
use drd_rdata::{
    A, AAAA, BinEncodable, BinEncoder, ProtoError, RData, exceeds_rdlength, octets_of,
};
use std::mem;

impl RecordRef<'_> {
    /// The numbers of type, class and time to live, as they stand behind the owner.
    pub fn head_numbers(&self) -> [u8; 8]
        ensures octets { result ≡ head_numbers (seen self.now) }
        ensures small { self.now.ttl < 2 ^ 32 }
    {
        let (record_type, ttl) = (self.rdata.record_type(), self.ttl);
        let [kind, kind_low] = u16::from(record_type).to_be_bytes();
        let [class, class_low] = u16::from(self.dns_class).to_be_bytes();
        let [highest, high, low, lowest] = ttl.to_be_bytes();
        [kind, kind_low, class, class_low, highest, high, low, lowest]
    }

    // Writes owner, type, class and time to live.
    fn emit_head(&self, encoder: &mut BinEncoder<'_>) -> Result<(), ProtoError>
        ensures same_reference { encoder.new.buffer.ghost_name ≡ encoder.old.buffer.ghost_name }
        ensures writes { Writes (state encoder.old) (state encoder.new) }
        ensures ok { OnOk result (EmitsHead (seen self.now) (state encoder.old) (state encoder.new)) }
        ensures cause { IfErr result (IsRefusal (state encoder.old) (length (name_octets (seen self.now).name) + 8)) }
    {
        self.name.emit(encoder)?;
        encoder.emit_vec(&self.head_numbers())
    }

    /// What stands behind the owner of an address: type, class and time to live, and the address behind its length.
    pub fn address_octets(&self, a: &A) -> [u8; 14]
        ensures octets { result ≡ head_numbers (seen self.now) ++ (octets_16 4 ++ octets_32 (ipv4_bits a.now.0)) }
        ensures small { self.now.ttl < 2 ^ 32 }
    {
        let [kind, kind_low, class, class_low, highest, high, low, lowest] = self.head_numbers();
        let [first, second, third, fourth] = a.0.to_bits().to_be_bytes();
        [
            kind, kind_low, class, class_low, highest, high, low, lowest, 0, 4, first, second,
            third, fourth,
        ]
    }

    // Writes an address, whose length is known: what is behind the owner in one piece.
    fn emit_address(&self, encoder: &mut BinEncoder<'_>, a: &A) -> Result<(), ProtoError>
        requires { self.now.rdata.now ≡ RData.A a.now }
        ensures same_reference { encoder.new.buffer.ghost_name ≡ encoder.old.buffer.ghost_name }
        ensures writes { Writes (state encoder.old) (state encoder.new) }
        ensures ok { OnOk result (EmitsRecord (seen self.now) (state encoder.old) (state encoder.new)) }
        ensures cause { IfErr result (RefusesRecord (seen self.now) (state encoder.old)) }
    {
        self.name.emit(encoder)?;
        encoder.emit_vec(&self.address_octets(a))
    }

    /// What stands behind the owner of an address of 128 bits: type, class and time to live, and the address behind its
    /// length.
    pub fn wide_octets(&self, aaaa: &AAAA) -> [u8; 26]
        ensures octets { result ≡ head_numbers (seen self.now) ++ (octets_16 16 ++ written_octets (RData.AAAA aaaa.now)) }
        ensures small { self.now.ttl < 2 ^ 32 }
    {
        let [kind, kind_low, class, class_low, highest, high, low, lowest] = self.head_numbers();
        let [a, b, c, d, e, f, g, h, i, j, k, l, m, n, o, p] = octets_of(aaaa);
        [
            kind, kind_low, class, class_low, highest, high, low, lowest, 0, 16, a, b, c, d, e, f,
            g, h, i, j, k, l, m, n, o, p,
        ]
    }

    // Writes an address of 128 bits, as `emit_address` does one of 32.
    fn emit_wide(&self, encoder: &mut BinEncoder<'_>, aaaa: &AAAA) -> Result<(), ProtoError>
        requires { self.now.rdata.now ≡ RData.AAAA aaaa.now }
        ensures same_reference { encoder.new.buffer.ghost_name ≡ encoder.old.buffer.ghost_name }
        ensures writes { Writes (state encoder.old) (state encoder.new) }
        ensures ok { OnOk result (EmitsRecord (seen self.now) (state encoder.old) (state encoder.new)) }
        ensures cause { IfErr result (RefusesRecord (seen self.now) (state encoder.old)) }
    {
        self.name.emit(encoder)?;
        encoder.emit_vec(&self.wide_octets(aaaa))
    }
}

// Writes data behind their length.
fn emit_behind_length(encoder: &mut BinEncoder<'_>, rdata: &RData) -> Result<(), ProtoError>
    ensures same_reference { encoder.new.buffer.ghost_name ≡ encoder.old.buffer.ghost_name }
    ensures writes { Writes (state encoder.old) (state encoder.new) }
    ensures ok { OnOk result (EmitsBehindLength rdata.now (state encoder.old) (state encoder.new)) }
    ensures cause { IfErr result (RefusesBehindLength rdata.now (state encoder.old)) }
{
    let length = encoder.place::<u16>()?;
    if let Err(cause) = rdata.emit(encoder) {
        return Err(shown_error(encoder, rdata, cause));
    }
    match u16::try_from(encoder.len_since_place(&length)) {
        Ok(octets) => {
            encoder.fill_u16(length, octets);
            Ok(())
        }
        Err(_) => Err(ProtoError::Message("more octets of data than 16 bits count")),
    }
}

// The error returned where RDATA were refused: RDATA that exceed RDLENGTH don't fit, whatever else is wrong with them, so
// that a section ends before their record.
fn shown_error(encoder: &BinEncoder<'_>, rdata: &RData, cause: ProtoError) -> ProtoError
    ensures { ShownError rdata.now (state encoder.now) cause result }
{
    let maximum = encoder.max_size();
    if wants_room(&cause, maximum) || !exceeds_rdlength(rdata) {
        return cause;
    }
    mem::drop(cause);
    ProtoError::MaxBufferSizeExceeded(maximum)
}

// Whether the cause is memory, or the maximum that would be passed.
fn wants_room(cause: &ProtoError, maximum: usize) -> bool
    ensures { IsTrue result ↔ (IsMemory cause.now ⊎ (cause.now ≡ MaxBufferSizeExceeded maximum)) }
{
    match cause {
        ProtoError::Memory(_) => true,
        ProtoError::MaxBufferSizeExceeded(size) => *size == maximum,
        _ => false,
    }
}

impl BinEncodable for RecordRef<'_> {
    ghost emits = { λ lent old new. EmitsRecord (seen lent) old new };

    ghost refuses = { λ lent old e new. RefusesRecord (seen lent) old e };

    /// Writes owner, type, class and time to live, then the data behind their length.
    fn emit(&self, encoder: &mut BinEncoder<'_>) -> Result<(), ProtoError> {
        match self.rdata {
            RData::A(a) => return self.emit_address(encoder, a),
            RData::AAAA(aaaa) => return self.emit_wide(encoder, aaaa),
            _ => {}
        }
        self.emit_head(encoder)?;
        emit_behind_length(encoder, self.rdata)
    }
}

impl BinEncodable for Record {
    ghost emits = { EmitsRecord };

    ghost refuses = { λ value old e new. RefusesRecord value old e };

    /// Writes owner, type, class and time to live, then the data behind their length.
    fn emit(&self, encoder: &mut BinEncoder<'_>) -> Result<(), ProtoError> {
        self.lend().emit(encoder)
    }
}
