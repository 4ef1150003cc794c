//! Names as an encoder writes them (RFC 1035 4.1.4; RFC 4034 6.2 for lower case).
ghost use Rattle.std.specs.Prelude.{◌≡◌, ◌+◌, ◌^◌, ◌<◌, ◌≤◌, ◌++◌, length, vec_len, vec_capacity, cond, false, IfErr, OnOk, OnErr};
ghost use Rattle.std.specs.Str.{str_to_ascii_lowercase};
ghost use Rattle.dnw_decoder.specs.dnw_label.Labels.{label_octets};
ghost use Rattle.dnw_decoder.specs.dnw_name.DomainName.{DomainName, IsDomainName, name_octets};
ghost use Rattle.dnw_encoder.specs.Encoders.{state};
ghost use Rattle.dnw_encoder.specs.Effects.{Writes, IsRefusal, written_at};
ghost use Rattle.dnw_encoder.specs.Names.{EmitsName, WritesFront, encoded_name};

use crate::buffer::{put_at, write_at};
use crate::encodable::BinEncodable;
use crate::encoder::BinEncoder;
use crate::modes::NameEncoding;
use dnw_codes::ProtoError;
use dnw_decoder::{LowerName, Name};
use std::alloc::AllocError;

// The two bits that tell a pointer, before the fourteen of its place (RFC 1035 4.1.4).
const POINTER: u16 = 0xC000;

// Appends octets in lower case, for which there is room.
fn append_lower(buffer: &mut Vec<u8>, octets: &[u8])
    requires { vec_len buffer.old + length octets.now ≤ vec_capacity buffer.old }
    ensures items { buffer.new.items ≡ buffer.old.items ++ str_to_ascii_lowercase octets.now }
    ensures len { vec_len buffer.new ≡ vec_len buffer.old + length octets.now }
    ensures capacity { vec_capacity buffer.old ≤ vec_capacity buffer.new }
{
    'octets: for i in 0..octets.len() {
        buffer.push_reserved(octets[i].to_ascii_lowercase());
    }
}

// Appends octets, in lower case or as they are, for which there is room.
fn append(buffer: &mut Vec<u8>, octets: &[u8], lower: bool)
    requires { vec_len buffer.old + length octets.now ≤ vec_capacity buffer.old }
    ensures items { buffer.new.items ≡ buffer.old.items ++ cond lower (str_to_ascii_lowercase octets.now) octets.now }
    ensures len { vec_len buffer.new ≡ vec_len buffer.old + length octets.now }
    ensures capacity { vec_capacity buffer.old ≤ vec_capacity buffer.new }
{
    if lower {
        append_lower(buffer, octets);
    } else {
        // There is room, and so no growth is refused.
        let _ = buffer.extend_from_slice(octets);
    }
}

// Appends a name in full, for which there is room: each label behind its length, then the end.
fn append_name(buffer: &mut Vec<u8>, name: &Name, encoding: NameEncoding)
    requires { vec_len buffer.old + length (name_octets (encoded_name encoding name.now)) ≤ vec_capacity buffer.old }
    ensures octets { buffer.new.items ≡ buffer.old.items ++ name_octets (encoded_name encoding name.now) }
    ensures name { IsDomainName (encoded_name encoding name.now) }
{
    // (an octet of a length is no letter)
    append(buffer, name.as_octets(), encoding.is_lower());
    buffer.push_reserved(0);
}

// Appends few octets, for which there is room.
fn append_few(buffer: &mut Vec<u8>, octets: &[u8])
    requires { vec_len buffer.old + length octets.now ≤ vec_capacity buffer.old }
    ensures { buffer.new.items ≡ buffer.old.items ++ octets.now }
{
    'octets: for i in 0..octets.len() {
        buffer.push_reserved(octets[i]);
    }
}

// Puts a name's front and the few octets behind it at a place, over what is there and behind it. There is room for them.
fn put_front(buffer: &mut Vec<u8>, place: usize, front: &[u8], rest: &[u8])
    requires within { place ≤ length buffer.old.items }
    requires room { vec_len buffer.old + (length front.now + length rest.now) ≤ vec_capacity buffer.old }
    ensures { buffer.new.items ≡ written_at buffer.old.items place (front.now ++ rest.now) }
{
    if place == buffer.len() {
        append(buffer, front, false);
        append_few(buffer, rest);
        return;
    }
    // There is room, and so no growth is refused.
    let _ = write_at(buffer, place, front, rest);
}

// Puts a name in full at a place, over what is there and behind it.
fn write_name(
    buffer: &mut Vec<u8>,
    place: usize,
    name: &Name,
    size: usize,
    encoding: NameEncoding,
) -> Result<(), AllocError>
    requires within { place ≤ length buffer.old.items }
    requires size { size ≡ length (name_octets (encoded_name encoding name.now)) }
    ensures ok { OnOk result (buffer.new.items ≡ written_at buffer.old.items place (name_octets (encoded_name encoding name.now))) }
    ensures name { OnOk result (IsDomainName (encoded_name encoding name.now)) }
    ensures err { OnErr result (buffer.new.items ≡ buffer.old.items) }
{
    if place == buffer.len() {
        buffer.reserve(size)?;
        append_name(buffer, name, encoding);
        return Ok(());
    }
    let mut octets = Vec::with_capacity(*buffer.allocator(), size)?;
    append_name(&mut octets, name, encoding);
    put_at(buffer, place, &octets)
}

impl BinEncoder<'_> {
    // Writes a name's first so many octets, which are labels, and the end or a pointer behind them. The names that end it
    // and begin there are kept.
    #[inline(always)]
    fn write_front(&mut self, name: &Name, front: usize, rest: &[u8]) -> Result<(), AllocError>
        requires front { front ≤ length (label_octets name.now.labels) }
        requires fits { (state self.old).offset + (front + length rest.now) < 2 ^ 64 }
        requires ends { (state self.old).offset + length (label_octets name.now.labels) < 2 ^ 64 }
        ensures same_reference { self.new.buffer.ghost_name ≡ self.old.buffer.ghost_name }
        ensures ok { OnOk result (WritesFront name.now.labels front rest.now (state self.old) (state self.new)) }
        ensures name { OnOk result (IsDomainName name.now) }
        ensures err { OnErr result (state self.new ≡ state self.old) }
    {
        let labels = name.as_octets();
        if front == 0 {
            put_at(self.buffer, self.offset, rest)?;
            self.offset += rest.len();
            return Ok(());
        }
        let size = front + rest.len();
        self.buffer.reserve(size)?;
        let end = self.offset + size;
        self.candidates
            .keep_name(name, false, front, self.offset, end)?;
        put_front(self.buffer, self.offset, &labels[..front], rest);
        self.offset = end;
        Ok(())
    }

    // Writes a name with a pointer to the longest name that ends it and is kept (RFC 1035 4.1.4).
    fn emit_compressed(&mut self, name: &Name) -> Result<(), AllocError>
        requires compressed { (state self.old).encoding ≡ NameEncoding.Compressed }
        requires fits { (state self.old).offset + length (name_octets name.now) < 2 ^ 64 }
        ensures same_reference { self.new.buffer.ghost_name ≡ self.old.buffer.ghost_name }
        ensures writes { Writes (state self.old) (state self.new) }
        ensures ok { OnOk result (EmitsName name.now (state self.old) (state self.new)) }
        ensures err { OnErr result (state self.new ≡ state self.old) }
    {
        match self.candidates.longest(name) {
            Some(suffix) => {
                let pointer = POINTER + suffix.place;
                self.write_front(name, suffix.front, &pointer.to_be_bytes())
            }
            None => self.write_front(name, name.as_octets().len(), &[0]),
        }
    }

    // Writes a name in full.
    fn emit_in_full(&mut self, name: &Name) -> Result<(), AllocError>
        requires in_full { (state self.old).points ≡ false }
        requires fits { (state self.old).offset + length (name_octets name.now) < 2 ^ 64 }
        ensures same_reference { self.new.buffer.ghost_name ≡ self.old.buffer.ghost_name }
        ensures writes { Writes (state self.old) (state self.new) }
        ensures ok { OnOk result (EmitsName name.now (state self.old) (state self.new)) }
        ensures err { OnErr result (state self.new ≡ state self.old) }
    {
        let size = name.as_octets().len() + 1;
        write_name(self.buffer, self.offset, name, size, self.name_encoding)?;
        self.offset += size;
        Ok(())
    }

    // Writes a name, by the mode.
    fn emit_name(&mut self, name: &Name) -> Result<(), AllocError>
        requires { (state self.old).offset + length (name_octets name.now) < 2 ^ 64 }
        ensures same_reference { self.new.buffer.ghost_name ≡ self.old.buffer.ghost_name }
        ensures writes { Writes (state self.old) (state self.new) }
        ensures ok { OnOk result (EmitsName name.now (state self.old) (state self.new)) }
        ensures err { OnErr result (state self.new ≡ state self.old) }
    {
        match self.name_encoding {
            NameEncoding::Compressed => self.emit_compressed(name),
            NameEncoding::Uncompressed | NameEncoding::UncompressedLowercase => {
                self.emit_in_full(name)
            }
        }
    }
}

impl BinEncodable for Name {
    ghost emits = { EmitsName };

    ghost refuses = { λ name old e new. (new ≡ old) × IsRefusal old (length (name_octets name)) e };

    /// Writes the name, by the encoder's mode. It is refused for its size only where its plain form doesn't fit.
    #[inline(always)]
    fn emit(&self, encoder: &mut BinEncoder<'_>) -> Result<(), ProtoError>
        ensures same_reference { encoder.new.buffer.ghost_name ≡ encoder.old.buffer.ghost_name }
        ensures writes { Writes (state encoder.old) (state encoder.new) }
        ensures ok { OnOk result (EmitsName self.now (state encoder.old) (state encoder.new)) }
        ensures fits { OnOk result ((state encoder.old).offset + length (name_octets self.now) ≤ (state encoder.old).maximum) }
        ensures err { OnErr result (state encoder.new ≡ state encoder.old) }
        ensures cause { IfErr result (IsRefusal (state encoder.old) (length (name_octets self.now))) }
    {
        encoder.check_size(self.as_octets().len() + 1)?;
        match encoder.emit_name(self) {
            Ok(()) => Ok(()),
            Err(refused) => Err(ProtoError::Memory(refused)),
        }
    }
}

impl BinEncodable for LowerName {
    ghost emits = { EmitsName };

    ghost refuses = { λ name old e new. (new ≡ old) × IsRefusal old (length (name_octets name)) e };

    /// Writes the name as `Name` does.
    fn emit(&self, encoder: &mut BinEncoder<'_>) -> Result<(), ProtoError>
        ensures same_reference { encoder.new.buffer.ghost_name ≡ encoder.old.buffer.ghost_name }
        ensures writes { Writes (state encoder.old) (state encoder.new) }
        ensures ok { OnOk result (EmitsName self.now (state encoder.old) (state encoder.new)) }
        ensures fits { OnOk result ((state encoder.old).offset + length (name_octets self.now) ≤ (state encoder.old).maximum) }
        ensures err { OnErr result (state encoder.new ≡ state encoder.old) }
        ensures cause { IfErr result (IsRefusal (state encoder.old) (length (name_octets self.now))) }
    {
        let name: &Name = self;
        name.emit(encoder)
    }
}
