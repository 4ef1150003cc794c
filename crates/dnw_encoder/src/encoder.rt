//! The encoder.
ghost use Rattle.std.specs.Prelude.{◌≡◌, ◌+◌, ◌-◌, ◌<◌, ◌≤◌, ◌==◌, ◌∷◌, ◌⊎◌, ◌++◌, [], length, slice_range, IfOk, IfErr, OnOk, OnErr};
ghost use Rattle.std.specs.Int.{w32, cast_unsigned};
ghost use Rattle.dnw_codes.specs.declared.error.ProtoError.TheVariants.{MaxBufferSizeExceeded};
ghost use Rattle.dnw_decoder.specs.Octets.{octets_16, octets_32};

use crate::buffer::{put_at, write_at};
use crate::candidates::Candidates;
use crate::modes::NameEncoding;
use crate::open_places::OpenPlace;
use dnw_codes::ProtoError;
use smallvec::SmallVec;

/// A writer of the octets of a message. It appends to a `Vec` that it borrows.
///
/// A contract sees it by `state`: the octets, the offset at which the next are written, the maximum, the modes, the
/// names to which later ones may point, and the open places. Each call that takes an encoder ensures that it still
/// holds the same borrow.
#[derive(Drop)]
pub struct BinEncoder<'a> {
    pub(crate) buffer: &'a mut Vec<u8>,
    pub(crate) offset: usize,
    pub(crate) maximum: usize,
    pub(crate) name_encoding: NameEncoding,
    pub(crate) canonical_form: bool,
    pub(crate) candidates: Candidates,
    pub(crate) places: SmallVec<OpenPlace, 2>,
    ghost within: { offset ≤ length buffer.now.items },
}

impl<'a> BinEncoder<'a> {
    ghost use Rattle.dnw_encoder.specs.Encoders.{state};
    ghost use Rattle.dnw_encoder.specs.Effects.{Sound, Writes, WritesOctets, IsRefusal};
    ghost use Rattle.dnw_encoder.specs.State.{new_state, with_encoding, string_too_long};

    /// An encoder at the front of the buffer, in mode `Compressed`.
    pub fn new(buffer: &'a mut Vec<u8>) -> BinEncoder<'a>
        ensures same_reference { result.buffer.ghost_name ≡ buffer.entry.ghost_name }
        ensures state { state result ≡ new_state buffer.old.items 0 NameEncoding.Compressed }
        ensures sound { length buffer.old.items ≡ 0 → Sound (state result) }
    {
        BinEncoder::with_offset(buffer, 0, NameEncoding::Compressed)
    }

    /// An encoder at an offset, which is at most the buffer's length. What stands from there on is written over.
    pub fn with_offset(
        buffer: &'a mut Vec<u8>,
        offset: u32,
        name_encoding: NameEncoding,
    ) -> BinEncoder<'a>
        requires { offset ≤ length buffer.old.items }
        ensures same_reference { result.buffer.ghost_name ≡ buffer.entry.ghost_name }
        ensures state { state result ≡ new_state buffer.old.items offset name_encoding }
        ensures sound { length buffer.old.items ≡ offset → Sound (state result) }
    {
        let alloc = *buffer.allocator();
        BinEncoder {
            buffer,
            offset: offset as usize,
            maximum: 65535,
            name_encoding,
            canonical_form: false,
            candidates: Candidates::new(alloc),
            places: SmallVec::new(alloc),
        }
    }

    /// The buffer that was borrowed, with what was written.
    pub fn into_bytes(self) -> &'a mut Vec<u8>
        ensures same_reference { result.ghost_name ≡ self.entry.buffer.ghost_name }
        ensures octets { result.now.items ≡ (state self.entry).octets }
    {
        let BinEncoder {
            buffer,
            offset: _,
            maximum: _,
            name_encoding: _,
            canonical_form: _,
            candidates: _,
            places: _,
        } = self;
        buffer
    }

    /// The number of octets in the buffer.
    pub fn len(&self) -> usize
        ensures value { result ≡ length (state self.now).octets }
        ensures within { (state self.now).offset ≤ result }
    {
        self.buffer.len()
    }

    /// Whether the buffer has no octet.
    pub fn is_empty(&self) -> bool
        ensures { result ≡ (length (state self.now).octets == 0) }
    {
        self.buffer.is_empty()
    }

    /// The offset at which the next octets are written.
    pub fn offset(&self) -> usize
        ensures value { result ≡ (state self.now).offset }
        ensures within { result ≤ length (state self.now).octets }
    {
        self.offset
    }

    /// Goes to an offset, which is at most the buffer's length.
    pub fn set_offset(&mut self, offset: usize)
        requires { offset ≤ length (state self.old).octets }
        ensures same_reference { self.new.buffer.ghost_name ≡ self.old.buffer.ghost_name }
        ensures state { state self.new ≡ record (state self.old) { offset = offset } }
    {
        self.offset = offset;
    }

    /// Sets the number of octets that no write may pass. At first it is 65,535.
    pub fn set_max_size(&mut self, maximum: u16)
        ensures same_reference { self.new.buffer.ghost_name ≡ self.old.buffer.ghost_name }
        ensures state { state self.new ≡ record (state self.old) { maximum = maximum } }
    {
        self.maximum = usize::from(maximum);
    }

    /// The number of octets that no write may pass.
    pub fn max_size(&self) -> usize
        ensures { result ≡ (state self.now).maximum }
    {
        self.maximum
    }

    /// Says whether record data are written in canonical form (RFC 4034 6.2).
    pub fn set_canonical_form(&mut self, canonical_form: bool)
        ensures same_reference { self.new.buffer.ghost_name ≡ self.old.buffer.ghost_name }
        ensures state { state self.new ≡ record (state self.old) { canonical = canonical_form } }
    {
        self.canonical_form = canonical_form;
    }

    /// Whether record data are written in canonical form.
    pub fn is_canonical_form(&self) -> bool
        ensures { result ≡ (state self.now).canonical }
    {
        self.canonical_form
    }

    /// How names are written.
    pub fn name_encoding(&self) -> NameEncoding
        ensures { result ≡ (state self.now).encoding }
    {
        self.name_encoding
    }

    /// Sets how names are written.
    pub fn set_name_encoding(&mut self, name_encoding: NameEncoding)
        ensures same_reference { self.new.buffer.ghost_name ≡ self.old.buffer.ghost_name }
        ensures state { state self.new ≡ with_encoding (state self.old) name_encoding }
    {
        self.name_encoding = name_encoding;
    }

    /// The octets from a start to an end, which are at most the buffer's length.
    pub fn slice_of(&self, start: usize, end: usize) -> &[u8]
        requires order { start ≤ end }
        requires within { end ≤ length (state self.now).octets }
        ensures { result.now ≡ slice_range (state self.now).octets start end }
    {
        &self.buffer[start..end]
    }

    // Refuses a write of so many octets, which would pass the maximum.
    #[inline]
    pub(crate) fn check_size(&self, size: usize) -> Result<(), ProtoError>
        ensures fits { OnOk result ((state self.now).offset + size ≤ (state self.now).maximum) }
        ensures cause { IfErr result (λ e. (e ≡ MaxBufferSizeExceeded (state self.now).maximum)
            × ((state self.now).maximum < (state self.now).offset + size)) }
    {
        if self.maximum < self.offset {
            return Err(ProtoError::MaxBufferSizeExceeded(self.maximum));
        }
        if self.maximum - self.offset < size {
            return Err(ProtoError::MaxBufferSizeExceeded(self.maximum));
        }
        Ok(())
    }

    // Puts a front and a rest at the offset, and moves behind them.
    fn write(&mut self, front: &[u8], rest: &[u8]) -> Result<(), ProtoError>
        ensures same_reference { self.new.buffer.ghost_name ≡ self.old.buffer.ghost_name }
        ensures writes { Writes (state self.old) (state self.new) }
        ensures ok { OnOk result (WritesOctets (front.now ++ rest.now) (state self.old) (state self.new)) }
        ensures fits { OnOk result ((state self.old).offset + (length front.now + length rest.now) ≤ (state self.old).maximum) }
        ensures err { OnErr result (state self.new ≡ state self.old) }
        ensures cause { IfErr result (IsRefusal (state self.old) (length front.now + length rest.now)) }
    {
        let size = front.len() + rest.len();
        self.check_size(size)?;
        match write_at(self.buffer, self.offset, front, rest) {
            Ok(()) => {
                self.offset += size;
                Ok(())
            }
            Err(refused) => Err(ProtoError::Memory(refused)),
        }
    }

    /// Writes octets.
    #[inline]
    pub fn emit_vec(&mut self, octets: &[u8]) -> Result<(), ProtoError>
        ensures same_reference { self.new.buffer.ghost_name ≡ self.old.buffer.ghost_name }
        ensures writes { Writes (state self.old) (state self.new) }
        ensures ok { OnOk result (WritesOctets (octets.now) (state self.old) (state self.new)) }
        ensures fits { OnOk result ((state self.old).offset + length octets.now ≤ (state self.old).maximum) }
        ensures err { OnErr result (state self.new ≡ state self.old) }
        ensures cause { IfErr result (IsRefusal (state self.old) (length octets.now)) }
    {
        self.check_size(octets.len())?;
        match put_at(self.buffer, self.offset, octets) {
            Ok(()) => {
                self.offset += octets.len();
                Ok(())
            }
            Err(refused) => Err(ProtoError::Memory(refused)),
        }
    }

    /// Writes one octet.
    pub fn emit_u8(&mut self, octet: u8) -> Result<(), ProtoError>
        ensures same_reference { self.new.buffer.ghost_name ≡ self.old.buffer.ghost_name }
        ensures writes { Writes (state self.old) (state self.new) }
        ensures ok { OnOk result (WritesOctets (octet ∷ []) (state self.old) (state self.new)) }
        ensures fits { OnOk result ((state self.old).offset + 1 ≤ (state self.old).maximum) }
        ensures err { OnErr result (state self.new ≡ state self.old) }
        ensures cause { IfErr result (IsRefusal (state self.old) 1) }
    {
        self.emit_vec(&[octet])
    }

    /// Writes one octet.
    pub fn emit(&mut self, octet: u8) -> Result<(), ProtoError>
        ensures same_reference { self.new.buffer.ghost_name ≡ self.old.buffer.ghost_name }
        ensures writes { Writes (state self.old) (state self.new) }
        ensures ok { OnOk result (WritesOctets (octet ∷ []) (state self.old) (state self.new)) }
        ensures fits { OnOk result ((state self.old).offset + 1 ≤ (state self.old).maximum) }
        ensures err { OnErr result (state self.new ≡ state self.old) }
        ensures cause { IfErr result (IsRefusal (state self.old) 1) }
    {
        self.emit_u8(octet)
    }

    /// Writes a number in two octets, the greatest first.
    pub fn emit_u16(&mut self, number: u16) -> Result<(), ProtoError>
        ensures same_reference { self.new.buffer.ghost_name ≡ self.old.buffer.ghost_name }
        ensures writes { Writes (state self.old) (state self.new) }
        ensures ok { OnOk result (WritesOctets (octets_16 number) (state self.old) (state self.new)) }
        ensures fits { OnOk result ((state self.old).offset + 2 ≤ (state self.old).maximum) }
        ensures err { OnErr result (state self.new ≡ state self.old) }
        ensures cause { IfErr result (IsRefusal (state self.old) 2) }
    {
        self.emit_vec(&number.to_be_bytes())
    }

    /// Writes a number in four octets, the greatest first.
    pub fn emit_u32(&mut self, number: u32) -> Result<(), ProtoError>
        ensures same_reference { self.new.buffer.ghost_name ≡ self.old.buffer.ghost_name }
        ensures writes { Writes (state self.old) (state self.new) }
        ensures ok { OnOk result (WritesOctets (octets_32 number) (state self.old) (state self.new)) }
        ensures fits { OnOk result ((state self.old).offset + 4 ≤ (state self.old).maximum) }
        ensures err { OnErr result (state self.new ≡ state self.old) }
        ensures cause { IfErr result (IsRefusal (state self.old) 4) }
    {
        let octets = number.to_be_bytes();
        self.emit_vec(&octets)
    }

    /// Writes a number in four octets, the greatest first, in two's complement.
    pub fn emit_i32(&mut self, number: i32) -> Result<(), ProtoError>
        ensures same_reference { self.new.buffer.ghost_name ≡ self.old.buffer.ghost_name }
        ensures writes { Writes (state self.old) (state self.new) }
        ensures ok { OnOk result (WritesOctets (octets_32 (cast_unsigned w32 number)) (state self.old) (state self.new)) }
        ensures fits { OnOk result ((state self.old).offset + 4 ≤ (state self.old).maximum) }
        ensures err { OnErr result (state self.new ≡ state self.old) }
        ensures cause { IfErr result (IsRefusal (state self.old) 4) }
    {
        self.emit_u32(number.cast_unsigned())
    }

    /// Writes a string of at most 255 octets behind one that holds their number (RFC 1035 3.3).
    pub fn emit_character_data(&mut self, string: &[u8]) -> Result<(), ProtoError>
        ensures same_reference { self.new.buffer.ghost_name ≡ self.old.buffer.ghost_name }
        ensures writes { Writes (state self.old) (state self.new) }
        ensures ok { OnOk result (WritesOctets (length string.now ∷ string.now) (state self.old) (state self.new)) }
        ensures short { OnOk result (length string.now ≤ 255) }
        ensures fits { OnOk result ((state self.old).offset + (length string.now + 1) ≤ (state self.old).maximum) }
        ensures err { OnErr result (state self.new ≡ state self.old) }
        ensures cause { IfErr result (λ e. (e ≡ string_too_long (length string.now)) × (255 < length string.now)
            ⊎ IsRefusal (state self.old) (length string.now + 1) e) }
    {
        if string.len() > 255 {
            return Err(ProtoError::CharacterDataTooLong {
                max: 255,
                len: string.len(),
            });
        }
        self.write(&[string.len() as u8], string)
    }

    /// Writes octets of any number, without it.
    pub fn emit_character_data_unrestricted(&mut self, octets: &[u8]) -> Result<(), ProtoError>
        ensures same_reference { self.new.buffer.ghost_name ≡ self.old.buffer.ghost_name }
        ensures writes { Writes (state self.old) (state self.new) }
        ensures ok { OnOk result (WritesOctets (octets.now) (state self.old) (state self.new)) }
        ensures fits { OnOk result ((state self.old).offset + length octets.now ≤ (state self.old).maximum) }
        ensures err { OnErr result (state self.new ≡ state self.old) }
        ensures cause { IfErr result (IsRefusal (state self.old) (length octets.now)) }
    {
        self.emit_vec(octets)
    }
}
