//! Places that are reserved in a message and filled later.
ghost use Rattle.std.specs.Prelude.{◌≡◌, ◌+◌, ◌<◌, ◌≤◌, filter, replicate, take, nat_le, length, IfOk, IfErr, OnOk, OnErr};
ghost use Rattle.dnw_decoder.specs.Octets.{octets_16};
ghost use Rattle.dnw_encoder.specs.Effects.{Writes, Opens, Fills, Trims, IsRefusal, place_of};
ghost use Rattle.dnw_encoder.specs.Encoders.{state};
ghost use Rattle.dnw_encoder.specs.Members.{In};
ghost use Rattle.dnw_encoder.specs.State.{State, at_offset};

use crate::buffer::{clear_at, overwrite_few};
use crate::encodable::EncodedSize;
use crate::encoder::BinEncoder;
use crate::open_places::{OpenPlace, drop_behind, shut};
use dnw_codes::ProtoError;
use std::alloc::AllocError;
use std::marker::PhantomData;

/// A place that was reserved for a value of this type. It is filled once.
#[derive(Drop)]
pub struct Place<T> {
    start: usize,
    of: PhantomData<T>,
}

impl<T: EncodedSize + Drop> Place<T> {
    /// Fills the place with a value.
    pub fn replace(self, encoder: &mut BinEncoder<'_>, value: T) -> Result<(), ProtoError>
        requires is_open { In (place_of self.start T.LEN) (state encoder.old).places }
        requires behind { self.start + T.LEN ≤ (state encoder.old).offset }
        ensures same_reference { encoder.new.buffer.ghost_name ≡ encoder.old.buffer.ghost_name }
        ensures ok { OnOk result (Fills self.start (T.EncodedSize.octets value) (state encoder.old) (state encoder.new)) }
        ensures err { OnErr result (state encoder.new ≡ state encoder.old) }
        ensures cause { IfErr result (λ e. (after : State) × T.BinEncodable.refuses value (at_offset (state encoder.old) self.start) e after) }
    {
        encoder.emit_at(self, value)
    }
}

impl BinEncoder<'_> {
    // Reserves octets.
    #[inline(always)]
    fn open(&mut self, size: usize) -> Result<usize, ProtoError>
        ensures same_reference { self.new.buffer.ghost_name ≡ self.old.buffer.ghost_name }
        ensures writes { Writes (state self.old) (state self.new) }
        ensures ok { IfOk result (λ start. Opens start size (state self.old) (state self.new)) }
        ensures fits { OnOk result ((state self.old).offset + size ≤ (state self.old).maximum) }
        ensures err { OnErr result (state self.new ≡ state self.old) }
        ensures cause { IfErr result (IsRefusal (state self.old) size) }
    {
        self.check_size(size)?;
        let from = self.offset;
        let to = from + size;
        let Ok(()) = self.places.push(OpenPlace { from, to }) else {
            return Err(ProtoError::Memory(AllocError));
        };
        match clear_at(self.buffer, from, size) {
            Ok(()) => {
                self.offset = to;
                Ok(from)
            }
            Err(refused) => {
                self.places.pop();
                Err(ProtoError::Memory(refused))
            }
        }
    }

    /// Reserves octets for a value, which are zeros until it is filled, and moves behind them.
    pub fn place<T: EncodedSize>(&mut self) -> Result<Place<T>, ProtoError>
        ensures same_reference { self.new.buffer.ghost_name ≡ self.old.buffer.ghost_name }
        ensures writes { Writes (state self.old) (state self.new) }
        ensures ok { IfOk result (λ place. Opens place.start T.LEN (state self.old) (state self.new)) }
        ensures fits { OnOk result ((state self.old).offset + T.LEN ≤ (state self.old).maximum) }
        ensures err { OnErr result (state self.new ≡ state self.old) }
        ensures cause { IfErr result (IsRefusal (state self.old) T.LEN) }
    {
        match self.open(T::LEN) {
            Ok(start) => Ok(Place {
                start,
                of: PhantomData,
            }),
            Err(refused) => Err(refused),
        }
    }

    /// The number of octets between a place's end and the offset, which isn't before it.
    pub fn len_since_place<T: EncodedSize>(&self, place: &Place<T>) -> usize
        requires { place.now.start + T.LEN ≤ (state self.now).offset }
        ensures { place.now.start + T.LEN + result ≡ (state self.now).offset }
    {
        self.offset - place.start - T::LEN
    }

    /// Fills an open place, which ends at or before the offset, with a value. The offset stays.
    pub fn emit_at<T: EncodedSize + Drop>(
        &mut self,
        place: Place<T>,
        value: T,
    ) -> Result<(), ProtoError>
        requires is_open { In (place_of place.start T.LEN) (state self.old).places }
        requires behind { place.start + T.LEN ≤ (state self.old).offset }
        ensures same_reference { self.new.buffer.ghost_name ≡ self.old.buffer.ghost_name }
        ensures ok { OnOk result (Fills place.start (T.EncodedSize.octets value) (state self.old) (state self.new)) }
        ensures err { OnErr result (state self.new ≡ state self.old) }
        ensures cause { IfErr result (λ e. (after : State) × T.BinEncodable.refuses value (at_offset (state self.old) place.start) e after) }
    {
        let offset = self.offset;
        self.set_offset(place.start);
        let written = value.emit(self);
        self.set_offset(offset);
        match written {
            Ok(()) => {
                shut(&mut self.places, place.start, place.start + T::LEN);
                Ok(())
            }
            Err(refused) => Err(refused),
        }
    }

    /// Fills an open place of two octets, which ends at or before the offset, with a number. The offset stays. It takes no
    /// memory, and nothing refuses it.
    #[inline]
    pub fn fill_u16(&mut self, place: Place<u16>, number: u16)
        requires is_open { In (place_of place.start 2) (state self.old).places }
        requires behind { place.start + 2 ≤ (state self.old).offset }
        ensures same_reference { self.new.buffer.ghost_name ≡ self.old.buffer.ghost_name }
        ensures fills { Fills place.start (octets_16 number) (state self.old) (state self.new) }
    {
        overwrite_few(self.buffer, place.start, &number.to_be_bytes());
        shut(&mut self.places, place.start, place.start + 2);
    }

    /// Drops the octets behind the offset, with the candidates and the open places that reach into them.
    pub fn trim(&mut self)
        ensures same_reference { self.new.buffer.ghost_name ≡ self.old.buffer.ghost_name }
        ensures trims { Trims (state self.old) (state self.new) }
    {
        self.buffer.truncate(self.offset);
        self.candidates.drop_behind(self.offset);
        drop_behind(&mut self.places, self.offset);
    }
}
