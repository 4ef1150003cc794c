//! The parts of the data that are read.
ghost use Rattle.std.specs.Prelude.{◌≡◌, ◌+◌, ◌<◌, ◌≤◌, ◌⊎◌, ℕ, List, length, IfOk, IfErr, OnOk, OnErr};
ghost use Rattle.dnw_wire.specs.dnw_decoder.Reading.{IsWantOfMemory};
ghost use Rattle.drd_fields.specs.Fields.{FieldsAt};
ghost use Rattle.drd_fields.specs.Reading.{StopsReading};
ghost use Rattle.drd_csync.specs.Data.{front_fields, front_kinds, MapsAt};
ghost use Rattle.drd_csync.specs.Reading.{RefusesMaps};

use dnw_wire::{BinDecoder, DecodeError, RecordTypeSet};
use drd_fields::ReadFields;
use std::alloc::Global;

/// The serial number and the flags, in data that go to an end.
pub(crate) fn read_front(
    alloc: Global,
    decoder: &mut BinDecoder<'_>,
    end: usize,
) -> Result<(u32, u16), DecodeError>
    ensures ok { IfOk result (λ found. FieldsAt decoder.old.octets decoder.old.index (front_fields found.0 found.1) decoder.new.index) }
    ensures same { decoder.new.octets ≡ decoder.old.octets }
    ensures forward { decoder.old.index ≤ decoder.new.index }
    ensures within { decoder.new.index ≤ length decoder.new.octets }
    ensures refused { IfErr result (λ e. StopsReading decoder.old.octets end front_kinds decoder.old.index e decoder.new.index) }
    ensures none { IfErr result (λ e. IsWantOfMemory e
        ⊎ ((serial flags behind : ℕ) → FieldsAt decoder.old.octets decoder.old.index (front_fields serial flags) behind → ⊥)) }
{
    let _index = decoder.index();
    match <(u32, (u16, ()))>::read_fields(alloc, decoder, end) {
        Ok((serial, (flags, ()))) => Ok((serial, flags)),
        Err(refused) => Err(refused),
    }
}

/// The types whose bit maps fill the data up to their end, at most 65,535 octets away. Where they can't be read, the
/// decoder stays.
pub(crate) fn read_maps(
    alloc: Global,
    decoder: &mut BinDecoder<'_>,
    end: usize,
) -> Result<RecordTypeSet, DecodeError>
    requires { end < decoder.old.index + 65536 }
    ensures ok { IfOk result (λ types. MapsAt decoder.old.octets decoder.old.index types end) }
    ensures end { OnOk result (decoder.new.index ≡ end) }
    ensures same { decoder.new.octets ≡ decoder.old.octets }
    ensures forward { decoder.old.index ≤ decoder.new.index }
    ensures within { decoder.new.index ≤ length decoder.new.octets }
    ensures err { OnErr result (decoder.new ≡ decoder.old) }
    ensures refused { IfErr result (λ e. RefusesMaps decoder.old.octets end decoder.old.index e) }
    ensures none { IfErr result (λ e. IsWantOfMemory e
        ⊎ ((types : List ℕ) → MapsAt decoder.old.octets decoder.old.index types end → ⊥)) }
{
    let index = decoder.index();
    if end < index {
        return Err(DecodeError::InsufficientBytes);
    }
    match RecordTypeSet::read_data(alloc, decoder, (end - index) as u16) {
        Ok(types) => Ok(types),
        Err(refused) => Err(refused),
    }
}
