//! What can be read from the octets of a message.
ghost use Rattle.std.specs.Prelude.{◌≡◌, ◌+◌, ◌-◌, ◌<◌, ◌≤◌, ◌∷◌, [], ◌⊎◌, ℕ, List, length, min, IfOk, IfErr, OnErr};
ghost use Rattle.std.specs.Int.{w32, cast_unsigned};
ghost use Rattle.dnw_name.specs.DomainName.{DomainName};
ghost use Rattle.dnw_decoder.specs.Codes.{RecordTypeAt, ClassAt, LowerNameAt};
ghost use Rattle.dnw_decoder.specs.Octets.{octets_16, octets_32, Stands};
ghost use Rattle.dnw_decoder.specs.Reading.{IsCut, IsWantOfMemory};
ghost use Rattle.dnw_decoder.specs.Refusals.{Refuses};
ghost use Rattle.dnw_decoder.specs.Spelling.{NameAt, Spells, pointers};

use crate::decoder::BinDecoder;
use dnw_name::{DNSClass, DecodeError, LowerName, Name, RecordType};
use std::alloc::Global;

/// What can be read from the octets of a message.
pub trait BinDecodable: Sized {
    ghost use Rattle.std.specs.Prelude.{◌≡◌, ◌≤◌, ◌⊎◌, ℕ, List, length, IfOk, IfErr, OnErr};
    ghost use Rattle.dnw_name.specs.dnw_codes.declared.error.DecodeError.{DecodeError as Error};
    ghost use Rattle.dnw_decoder.specs.Reading.{reading, IsWantOfMemory};

    // The value stands in a message at a place, and ends at another.
    ghost reads: { List ℕ → ℕ → Self → ℕ → Type 0 };

    // Why none stands in a message at a place.
    ghost refuses: { List ℕ → ℕ → Error → Type 0 };

    /// The value that stands at the decoder's index, which moves behind it. Where none stands there, or a
    /// growth was refused, the decoder stays.
    fn read(alloc: Global, decoder: &mut BinDecoder<'_>) -> Result<Self, DecodeError>
        ensures ok { IfOk result (λ value. reads decoder.old.octets decoder.old.index value decoder.new.index) }
        ensures same { decoder.new.octets ≡ decoder.old.octets }
        ensures forward { decoder.old.index ≤ decoder.new.index }
        ensures within { decoder.new.index ≤ length decoder.new.octets }
        ensures err { OnErr result (decoder.new ≡ decoder.old) }
        ensures refused { IfErr result (refuses decoder.old.octets decoder.old.index) }
        ensures none { IfErr result (λ e. IsWantOfMemory e
            ⊎ ((value : Self) (end : ℕ) → reads decoder.old.octets decoder.old.index value end → ⊥)) };

    /// The value that stands at the front of these octets.
    fn from_bytes(alloc: Global, bytes: &[u8]) -> Result<Self, DecodeError>
        ensures ok { IfOk result (λ value. (end : ℕ) × reads bytes.now 0 value end) }
        ensures refused { IfErr result (refuses bytes.now 0) }
        ensures none { IfErr result (λ e. IsWantOfMemory e
            ⊎ ((value : Self) (end : ℕ) → reads bytes.now 0 value end → ⊥)) }
    {
        let mut decoder = BinDecoder::new(bytes);
        Self::read(alloc, &mut decoder)
    }
}

impl BinDecodable for Name {
    ghost reads = { NameAt };

    ghost refuses = { Refuses };

    /// The name that is spelled at the decoder's index (RFC 1035 4.1.4): each pointer's target is strictly
    /// before the segment that it stands in. At most 16,384 pointers are followed, and no more than the index.
    fn read(alloc: Global, decoder: &mut BinDecoder<'_>) -> Result<Name, DecodeError>
        ensures ok { IfOk result (λ name. NameAt decoder.old.octets decoder.old.index name decoder.new.index) }
        ensures pointers { IfOk result (λ name.
            (spelled : Spells decoder.old.octets decoder.old.index name.labels decoder.new.index)
            → pointers spelled ≤ min decoder.old.index 16384) }
        ensures same { decoder.new.octets ≡ decoder.old.octets }
        ensures forward { decoder.old.index ≤ decoder.new.index }
        ensures within { decoder.new.index ≤ length decoder.new.octets }
        ensures err { OnErr result (decoder.new ≡ decoder.old) }
        ensures refused { IfErr result (Refuses decoder.old.octets decoder.old.index) }
        ensures none { IfErr result (λ e. IsWantOfMemory e
            ⊎ ((name : DomainName) (end : ℕ) → NameAt decoder.old.octets decoder.old.index name end → ⊥)) }
    {
        decoder.read_name(alloc)
    }
}

impl BinDecodable for LowerName {
    ghost reads = { LowerNameAt };

    ghost refuses = { Refuses };

    /// The name that is spelled at the decoder's index, in lower case.
    fn read(alloc: Global, decoder: &mut BinDecoder<'_>) -> Result<LowerName, DecodeError> {
        match Name::read(alloc, decoder) {
            Ok(name) => Ok(LowerName::from(name)),
            Err(refused) => Err(refused),
        }
    }
}

impl BinDecodable for u16 {
    ghost reads = { λ message place number end. Stands message place (octets_16 number) end };

    ghost refuses = { IsCut 2 };

    /// The number of two octets, the greatest first.
    fn read(_alloc: Global, decoder: &mut BinDecoder<'_>) -> Result<u16, DecodeError> {
        match decoder.read_u16() {
            Ok(number) => Ok(number.unverified()),
            Err(refused) => Err(refused),
        }
    }
}

impl BinDecodable for u32 {
    ghost reads = { λ message place number end. Stands message place (octets_32 number) end };

    ghost refuses = { IsCut 4 };

    /// The number of four octets, the greatest first.
    fn read(_alloc: Global, decoder: &mut BinDecoder<'_>) -> Result<u32, DecodeError> {
        match decoder.read_u32() {
            Ok(number) => Ok(number.unverified()),
            Err(refused) => Err(refused),
        }
    }
}

impl BinDecodable for i32 {
    ghost reads = { λ message place number end. Stands message place (octets_32 (cast_unsigned w32 number)) end };

    ghost refuses = { IsCut 4 };

    /// The number of four octets, the greatest first, in two's complement.
    fn read(_alloc: Global, decoder: &mut BinDecoder<'_>) -> Result<i32, DecodeError> {
        match decoder.read_i32() {
            Ok(number) => Ok(number.unverified()),
            Err(refused) => Err(refused),
        }
    }
}

impl BinDecodable for RecordType {
    ghost reads = { RecordTypeAt };

    ghost refuses = { IsCut 2 };

    /// The type of the number in two octets.
    fn read(_alloc: Global, decoder: &mut BinDecoder<'_>) -> Result<RecordType, DecodeError> {
        match decoder.read_u16() {
            Ok(number) => Ok(RecordType::from(number.unverified())),
            Err(refused) => Err(refused),
        }
    }
}

impl BinDecodable for DNSClass {
    ghost reads = { ClassAt };

    ghost refuses = { IsCut 2 };

    /// The class of the number in two octets.
    fn read(_alloc: Global, decoder: &mut BinDecoder<'_>) -> Result<DNSClass, DecodeError> {
        match decoder.read_u16() {
            Ok(number) => Ok(DNSClass::from(number.unverified())),
            Err(refused) => Err(refused),
        }
    }
}
