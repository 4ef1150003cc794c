//! What can be written into a message.

ghost use Rattle.std.specs.Prelude.{◌≡◌, ◌+◌, ◌≤◌, ◌∷◌, [], length, IfOk, IfErr, OnOk, OnErr};
ghost use Rattle.std.specs.Int.{w32, cast_unsigned};
ghost use Rattle.dnw_codes.specs.DNSClass.{class_number};
ghost use Rattle.dnw_codes.specs.RecordType.{record_type_number};
ghost use Rattle.dnw_decoder.specs.Octets.{octets_16, octets_32};
ghost use Rattle.dnw_encoder.specs.Encoders.{state};
ghost use Rattle.dnw_encoder.specs.Effects.{Writes, WritesOctets, IsRefusal};
ghost use Rattle.dnw_encoder.specs.State.{new_state};

use crate::encoder::BinEncoder;
use dnw_codes::{DNSClass, ProtoError, RecordType};
use std::alloc::Global;
use std::mem::size_of;

/// What can be written into a message.
pub trait BinEncodable {
    ghost use Rattle.std.specs.Prelude.{◌≡◌, IfOk, IfErr, OnOk, []};
    ghost use Rattle.dnw_encoder.specs.declared.modes.NameEncoding.TheVariants.{Compressed};
    ghost use Rattle.dnw_codes.specs.declared.error.ProtoError.{ProtoError as Error};
    ghost use Rattle.dnw_encoder.specs.Encoders.{state};
    ghost use Rattle.dnw_encoder.specs.Effects.{Writes};
    ghost use Rattle.dnw_encoder.specs.State.{State, new_state};

    // What an accepted emission does to an encoder, and what a refused one leaves.
    ghost emits: { Self → State → State → Type 0 };

    ghost refuses: { Self → State → Error → State → Type 0 };

    /// Writes the value at the encoder's offset, and moves behind it. What stands before the offset stays.
    fn emit(&self, encoder: &mut BinEncoder<'_>) -> Result<(), ProtoError>
        ensures same_reference { encoder.new.buffer.ghost_name ≡ encoder.old.buffer.ghost_name }
        ensures writes { Writes (state encoder.old) (state encoder.new) }
        ensures ok { OnOk result (emits self.now (state encoder.old) (state encoder.new)) }
        ensures err { IfErr result (λ e. refuses self.now (state encoder.old) e (state encoder.new)) };

    /// The octets of the value alone.
    fn to_bytes(&self, alloc: Global) -> Result<Vec<u8>, ProtoError>
        ensures ok { IfOk result (λ bytes. (new : State) × emits self.now (new_state [] 0 Compressed) new × (bytes.items ≡ new.octets)) }
        ensures err { IfErr result (λ e. (new : State) × refuses self.now (new_state [] 0 Compressed) e new) }
    {
        let mut bytes = Vec::new(alloc);
        let mut encoder = BinEncoder::new(&mut bytes);
        self.emit(&mut encoder)?;
        encoder.into_bytes();
        Ok(bytes)
    }
}

impl<E: BinEncodable> BinEncodable for &E {
    ghost emits = { λ value old new. E.emits value.now old new };

    ghost refuses = { λ value old e new. E.refuses value.now old e new };

    /// Writes what the reference points to.
    fn emit(&self, encoder: &mut BinEncoder<'_>) -> Result<(), ProtoError> {
        (**self).emit(encoder)
    }
}

impl BinEncodable for RecordType {
    ghost emits = { λ record_type old new. WritesOctets (octets_16 (record_type_number record_type)) old new };

    ghost refuses = { λ record_type old e new. (new ≡ old) × IsRefusal old 2 e };

    /// Writes the number of the type in two octets.
    fn emit(&self, encoder: &mut BinEncoder<'_>) -> Result<(), ProtoError>
        ensures same_reference { encoder.new.buffer.ghost_name ≡ encoder.old.buffer.ghost_name }
        ensures writes { Writes (state encoder.old) (state encoder.new) }
        ensures ok { OnOk result (WritesOctets (octets_16 (record_type_number self.now)) (state encoder.old) (state encoder.new)) }
        ensures fits { OnOk result ((state encoder.old).offset + 2 ≤ (state encoder.old).maximum) }
        ensures err { OnErr result (state encoder.new ≡ state encoder.old) }
        ensures cause { IfErr result (IsRefusal (state encoder.old) 2) }
    {
        let number = u16::from(*self);
        encoder.emit_u16(number)
    }
}

impl BinEncodable for DNSClass {
    ghost emits = { λ class old new. WritesOctets (octets_16 (class_number class)) old new };

    ghost refuses = { λ class old e new. (new ≡ old) × IsRefusal old 2 e };

    /// Writes the number of the class in two octets.
    fn emit(&self, encoder: &mut BinEncoder<'_>) -> Result<(), ProtoError>
        ensures same_reference { encoder.new.buffer.ghost_name ≡ encoder.old.buffer.ghost_name }
        ensures writes { Writes (state encoder.old) (state encoder.new) }
        ensures ok { OnOk result (WritesOctets (octets_16 (class_number self.now)) (state encoder.old) (state encoder.new)) }
        ensures fits { OnOk result ((state encoder.old).offset + 2 ≤ (state encoder.old).maximum) }
        ensures err { OnErr result (state encoder.new ≡ state encoder.old) }
        ensures cause { IfErr result (IsRefusal (state encoder.old) 2) }
    {
        encoder.emit_u16(u16::from(*self))
    }
}

impl BinEncodable for Vec<u8> {
    ghost emits = { λ octets old new. WritesOctets (octets.items) old new };

    ghost refuses = { λ octets old e new. (new ≡ old) × IsRefusal old (length octets.items) e };

    /// Writes the octets.
    fn emit(&self, encoder: &mut BinEncoder<'_>) -> Result<(), ProtoError>
        ensures same_reference { encoder.new.buffer.ghost_name ≡ encoder.old.buffer.ghost_name }
        ensures writes { Writes (state encoder.old) (state encoder.new) }
        ensures ok { OnOk result (WritesOctets (self.now.items) (state encoder.old) (state encoder.new)) }
        ensures fits { OnOk result ((state encoder.old).offset + (length self.now.items) ≤ (state encoder.old).maximum) }
        ensures err { OnErr result (state encoder.new ≡ state encoder.old) }
        ensures cause { IfErr result (IsRefusal (state encoder.old) (length self.now.items)) }
    {
        encoder.emit_vec(self)
    }
}

/// What is written in the same number of octets, whatever its value.
pub trait EncodedSize: BinEncodable {
    ghost use Rattle.std.specs.Prelude.{◌≡◌, ◌<◌, ℕ, List, length};
    ghost use Rattle.dnw_codes.specs.declared.error.ProtoError.{ProtoError as Error};
    ghost use Rattle.dnw_encoder.specs.Effects.{WritesOctets};
    ghost use Rattle.dnw_encoder.specs.State.{State};

    ghost LEN: { ℕ };

    /// The number of octets.
    const LEN: usize;

    ghost octets: { Self → List ℕ };

    // It is at least one octet; an accepted emission puts exactly these octets, a refused one changes nothing.
    ghost laws: { (value : Self) → (0 < LEN) × (length (octets value) ≡ LEN)
        × ((old new : State) → Self.emits value old new → WritesOctets (octets value) old new)
        × ((old new : State) (e : Error) → Self.refuses value old e new → new ≡ old) };
}

impl BinEncodable for u16 {
    ghost emits = { λ number old new. WritesOctets (octets_16 number) old new };

    ghost refuses = { λ number old e new. (new ≡ old) × IsRefusal old 2 e };

    /// Writes the number in two octets, the greatest first.
    fn emit(&self, encoder: &mut BinEncoder<'_>) -> Result<(), ProtoError>
        ensures same_reference { encoder.new.buffer.ghost_name ≡ encoder.old.buffer.ghost_name }
        ensures writes { Writes (state encoder.old) (state encoder.new) }
        ensures ok { OnOk result (WritesOctets (octets_16 self.now) (state encoder.old) (state encoder.new)) }
        ensures fits { OnOk result ((state encoder.old).offset + 2 ≤ (state encoder.old).maximum) }
        ensures err { OnErr result (state encoder.new ≡ state encoder.old) }
        ensures cause { IfErr result (IsRefusal (state encoder.old) 2) }
    {
        encoder.emit_u16(*self)
    }
}

impl EncodedSize for u16 {
    ghost use Rattle.std.proofs.Common.{refl, arith};
    ghost use Rattle.dnw_decoder.proofs.Standing.{length-octets_32};

    ghost LEN = { 2 };

    const LEN: usize = size_of::<u16>();

    ghost octets = { λ number. octets_16 number };

    ghost laws = { λ number. (Prim.omega arith, refl, λ old new puts. puts, λ old new e refused. refused.0) };
}

impl BinEncodable for u32 {
    ghost emits = { λ number old new. WritesOctets (octets_32 number) old new };

    ghost refuses = { λ number old e new. (new ≡ old) × IsRefusal old 4 e };

    /// Writes the number in four octets, the greatest first.
    fn emit(&self, encoder: &mut BinEncoder<'_>) -> Result<(), ProtoError>
        ensures same_reference { encoder.new.buffer.ghost_name ≡ encoder.old.buffer.ghost_name }
        ensures writes { Writes (state encoder.old) (state encoder.new) }
        ensures ok { OnOk result (WritesOctets (octets_32 self.now) (state encoder.old) (state encoder.new)) }
        ensures fits { OnOk result ((state encoder.old).offset + 4 ≤ (state encoder.old).maximum) }
        ensures err { OnErr result (state encoder.new ≡ state encoder.old) }
        ensures cause { IfErr result (IsRefusal (state encoder.old) 4) }
    {
        encoder.emit_u32(*self)
    }
}

impl EncodedSize for u32 {
    ghost use Rattle.std.proofs.Common.{refl, arith};
    ghost use Rattle.dnw_decoder.proofs.Standing.{length-octets_32};

    ghost LEN = { 4 };

    const LEN: usize = size_of::<u32>();

    ghost octets = { λ number. octets_32 number };

    ghost laws = { λ number. (Prim.omega arith, (length-octets_32 number), λ old new puts. puts, λ old new e refused. refused.0) };
}

impl BinEncodable for i32 {
    ghost emits = { λ number old new. WritesOctets (octets_32 (cast_unsigned w32 number)) old new };

    ghost refuses = { λ number old e new. (new ≡ old) × IsRefusal old 4 e };

    /// Writes the number in four octets, the greatest first, in two's complement.
    fn emit(&self, encoder: &mut BinEncoder<'_>) -> Result<(), ProtoError>
        ensures same_reference { encoder.new.buffer.ghost_name ≡ encoder.old.buffer.ghost_name }
        ensures writes { Writes (state encoder.old) (state encoder.new) }
        ensures ok { OnOk result (WritesOctets (octets_32 (cast_unsigned w32 self.now)) (state encoder.old) (state encoder.new)) }
        ensures fits { OnOk result ((state encoder.old).offset + 4 ≤ (state encoder.old).maximum) }
        ensures err { OnErr result (state encoder.new ≡ state encoder.old) }
        ensures cause { IfErr result (IsRefusal (state encoder.old) 4) }
    {
        encoder.emit_i32(*self)
    }
}

impl EncodedSize for i32 {
    ghost use Rattle.std.proofs.Common.{refl, arith};
    ghost use Rattle.dnw_decoder.proofs.Standing.{length-octets_32};

    ghost LEN = { 4 };

    const LEN: usize = size_of::<i32>();

    ghost octets = { λ number. octets_32 (cast_unsigned w32 number) };

    ghost laws = { λ number. (Prim.omega arith, (length-octets_32 (cast_unsigned w32 number)), λ old new puts. puts, λ old new e refused. refused.0) };
}
