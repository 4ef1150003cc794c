//! The decoder.
ghost use Rattle.std.specs.Prelude.{◌≡◌, ◌+◌, ◌-◌, ◌<◌, ◌≤◌, ◌^◌, ◌==◌, ◌∷◌, [], ℕ, length, get_or, min, IfOk, IfErr, OnErr, ◌⊎◌, slice_get, slice_range};
ghost use Rattle.std.specs.Option.{option_copied};
ghost use Rattle.std.specs.Int.{w32, cast_unsigned};
ghost use Rattle.dnw_name.specs.DomainName.{DomainName};
ghost use Rattle.dnw_name.specs.dnw_codes.declared.error.DecodeError.TheVariants.{InvalidPreviousIndex};
ghost use Rattle.dnw_decoder.specs.Octets.{octets_16, octets_32};
ghost use Rattle.dnw_decoder.specs.Refusals.{Refuses};
ghost use Rattle.dnw_decoder.specs.Spelling.{NameAt, Spells, pointers};
ghost use Rattle.dnw_decoder.specs.Reading.{reading, TakesOctets, LacksOctets, IsWantOfMemory};

use crate::name::read_name;
use crate::tails::Pointers;
use dnw_name::{DecodeError, Name, Restrict};
use std::alloc::Global;
use std::marker::Model;

/// A reader over the octets of a message. It lends slices of them.
///
/// A contract sees it as a `Reading`: the octets, and the index that is read next.
#[derive(Drop)]
pub struct BinDecoder<'a> {
    octets: &'a [u8],
    index: usize,
    pointers: Pointers,
}

impl<'a> Model for BinDecoder<'a> {
    ghost use Rattle.std.specs.Prelude.{◌≤◌, length};
    ghost use Rattle.dnw_decoder.specs.Chains.{AreChains};
    ghost use Rattle.dnw_decoder.specs.Reading.{Reading, reading};
    ghost use Rattle.dnw_decoder.specs.Tails.{AreKept};

    ghost Value = { Reading };

    ghost view = { λ decoder. reading decoder.octets.now decoder.index };

    ghost invariant = { λ decoder. (decoder.index ≤ length decoder.octets.now)
        × AreChains decoder.octets.now decoder.pointers.chains
        × AreKept decoder.octets.now decoder.pointers.tails };
}

impl<'a> BinDecoder<'a> {
    /// A decoder at the front of these octets.
    pub fn new(buffer: &'a [u8]) -> BinDecoder<'a>
        ensures { result ≡ reading buffer.now 0 }
    {
        BinDecoder {
            octets: buffer,
            index: 0,
            pointers: Pointers::new(),
        }
    }

    /// A decoder over the same octets at another index, which is at most their number.
    pub fn clone(&self, index_at: u16) -> BinDecoder<'a>
        requires { index_at ≤ length self.now.octets }
        ensures { result ≡ reading self.now.octets index_at }
    {
        BinDecoder {
            octets: self.octets,
            index: usize::from(index_at),
            pointers: Pointers::new(),
        }
    }

    /// The index that is read next.
    pub fn index(&self) -> usize
        ensures value { result ≡ self.now.index }
        ensures within { result ≤ length self.now.octets }
        ensures small { result < 2 ^ 63 }
    {
        self.index
    }

    /// The number of octets from the index on.
    pub fn len(&self) -> usize
        ensures value { result ≡ length self.now.octets - self.now.index }
        ensures within { self.now.index ≤ length self.now.octets }
    {
        self.octets.len() - self.index
    }

    /// Whether no octet is left.
    pub fn is_empty(&self) -> bool
        ensures value { result ≡ (length self.now.octets - self.now.index == 0) }
        ensures within { self.now.index ≤ length self.now.octets }
    {
        self.len() == 0
    }

    // The name that is spelled at the index, which moves behind it.
    pub(crate) fn read_name(&mut self, alloc: Global) -> Result<Name, DecodeError>
        ensures ok { IfOk result (λ name. NameAt self.old.octets self.old.index name self.new.index) }
        ensures pointers { IfOk result (λ name.
            (spelled : Spells self.old.octets self.old.index name.labels self.new.index)
            → pointers spelled ≤ min self.old.index 16384) }
        ensures same { self.new.octets ≡ self.old.octets }
        ensures forward { self.old.index ≤ self.new.index }
        ensures within { self.new.index ≤ length self.new.octets }
        ensures err { OnErr result (self.new ≡ self.old) }
        ensures refused { IfErr result (Refuses self.old.octets self.old.index) }
        ensures none { IfErr result (λ e. IsWantOfMemory e
            ⊎ ((name : DomainName) (end : ℕ) → NameAt self.old.octets self.old.index name end → ⊥)) }
    {
        let (name, end) = read_name(alloc, self.octets, &mut self.pointers, self.index)?;
        self.index = end;
        Ok(name)
    }

    /// Goes to another index, which is at most the number of octets.
    pub fn set_index(&mut self, index: usize)
        requires { index ≤ length self.old.octets }
        ensures { self.new ≡ reading self.old.octets index }
    {
        self.index = index;
    }

    /// The octet at the index, which stays.
    pub fn peek(&self) -> Option<Restrict<u8>>
        ensures { result ≡ slice_get self.now.octets self.now.index }
    {
        match self.octets.get(self.index) {
            Some(octet) => Some(Restrict::new(*octet)),
            None => None,
        }
    }

    /// So many octets, lent from the message.
    pub fn read_slice(&mut self, len: usize) -> Result<Restrict<&'a [u8]>, DecodeError>
        ensures ok { IfOk result (λ slice. TakesOctets self.old slice.now self.new) }
        ensures long { IfOk result (λ slice. length slice.now ≡ len) }
        ensures err { IfErr result (LacksOctets self.old len self.new) }
    {
        if self.octets.len() - self.index < len {
            return Err(DecodeError::InsufficientBytes);
        }
        let end = self.index + len;
        let slice = &self.octets[self.index..end];
        self.index = end;
        Ok(Restrict::new(slice))
    }

    /// One octet.
    pub fn read_u8(&mut self) -> Result<Restrict<u8>, DecodeError>
        ensures ok { IfOk result (λ octet. TakesOctets self.old (octet ∷ []) self.new) }
        ensures err { IfErr result (LacksOctets self.old 1 self.new) }
    {
        let octets = self.read_slice(1)?.unverified();
        Ok(Restrict::new(octets[0]))
    }

    /// One octet.
    pub fn pop(&mut self) -> Result<Restrict<u8>, DecodeError>
        ensures ok { IfOk result (λ octet. TakesOctets self.old (octet ∷ []) self.new) }
        ensures err { IfErr result (LacksOctets self.old 1 self.new) }
    {
        self.read_u8()
    }

    /// The number of two octets, the greatest first.
    pub fn read_u16(&mut self) -> Result<Restrict<u16>, DecodeError>
        ensures ok { IfOk result (λ number. TakesOctets self.old (octets_16 number) self.new) }
        ensures err { IfErr result (LacksOctets self.old 2 self.new) }
    {
        let octets = self.read_slice(2)?.unverified();
        Ok(Restrict::new(u16::from_be_bytes([octets[0], octets[1]])))
    }

    /// The number of four octets, the greatest first.
    pub fn read_u32(&mut self) -> Result<Restrict<u32>, DecodeError>
        ensures ok { IfOk result (λ number. TakesOctets self.old (octets_32 number) self.new) }
        ensures err { IfErr result (LacksOctets self.old 4 self.new) }
    {
        let octets = self.read_slice(4)?.unverified();
        Ok(Restrict::new(u32::from_be_bytes([octets[0], octets[1], octets[2], octets[3]])))
    }

    /// The number of four octets, the greatest first, in two's complement.
    pub fn read_i32(&mut self) -> Result<Restrict<i32>, DecodeError>
        ensures ok { IfOk result (λ number. TakesOctets self.old (octets_32 (cast_unsigned w32 number)) self.new) }
        ensures err { IfErr result (LacksOctets self.old 4 self.new) }
    {
        let number = self.read_u32()?.unverified();
        Ok(Restrict::new(number.cast_signed()))
    }

    /// A string: its octets stand behind one that holds their number (RFC 1035 3.3).
    pub fn read_character_data(&mut self) -> Result<Restrict<&'a [u8]>, DecodeError>
        ensures ok { IfOk result (λ string. TakesOctets self.old (length string.now ∷ string.now) self.new) }
        ensures short { IfOk result (λ string. length string.now ≤ 255) }
        ensures err { IfErr result (LacksOctets self.old (get_or self.old.octets self.old.index 0 + 1) self.new) }
    {
        let Some(length) = self.octets.get(self.index) else {
            return Err(DecodeError::InsufficientBytes);
        };
        let length = usize::from(*length);
        let octets = self.read_slice(length + 1)?.unverified();
        Ok(Restrict::new(&octets[1..]))
    }

    /// So many octets, copied.
    pub fn read_vec(&mut self, alloc: Global, len: usize) -> Result<Restrict<Vec<u8>>, DecodeError>
        ensures ok { IfOk result (λ octets. TakesOctets self.old octets.items self.new) }
        ensures long { IfOk result (λ octets. length octets.items ≡ len) }
        ensures err { IfErr result (λ e. IsWantOfMemory e × (self.new ≡ self.old) ⊎ LacksOctets self.old len self.new e) }
    {
        if self.len() < len {
            return Err(DecodeError::InsufficientBytes);
        }
        let end = self.index + len;
        match Vec::from_slice(alloc, &self.octets[self.index..end]) {
            Ok(octets) => {
                self.index = end;
                Ok(Restrict::new(octets))
            }
            Err(_) => Err(DecodeError::Memory),
        }
    }

    /// The octets from an earlier index to this one. An index that is ahead is refused.
    pub fn slice_from(&self, index: usize) -> Result<&'a [u8], DecodeError>
        ensures ok { IfOk result (λ slice. (index ≤ self.now.index)
            × (slice.now ≡ slice_range self.now.octets index self.now.index)) }
        ensures err { IfErr result (λ e. (e ≡ InvalidPreviousIndex) × (self.now.index < index)) }
    {
        if self.index < index {
            return Err(DecodeError::InvalidPreviousIndex);
        }
        Ok(&self.octets[index..self.index])
    }
}
