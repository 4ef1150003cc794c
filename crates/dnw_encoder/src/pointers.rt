//! Names that later names may point to.
ghost use Rattle.std.specs.Prelude.{◌≡◌, ◌↔◌, ◌+◌, ◌<◌, ◌≤◌, true, length, slice_range, OnOk, OnErr, IfErr, IfSome, IsSome};
ghost use Rattle.dnw_codes.specs.ProtoError.{IsMemory};
ghost use Rattle.dnw_decoder.specs.Octets.{Stands};
ghost use Rattle.dnw_decoder.specs.dnw_name.DomainName.{name_octets};
ghost use Rattle.dnw_encoder.specs.Effects.{Stores, StoresName, Has, FindsCandidate};
ghost use Rattle.dnw_encoder.specs.Encoders.{state};
ghost use Rattle.dnw_encoder.specs.Members.{In};
ghost use Rattle.dnw_encoder.specs.State.{Candidate};

use crate::eights::is_name_of;
use crate::encoder::BinEncoder;
use dnw_codes::ProtoError;
use dnw_decoder::Name;

// Whether a name stands in full at a place.
fn stands_in_full(octets: &[u8], name: &Name, place: usize) -> bool
    ensures { (result ≡ true) ↔ Stands octets.now place (name_octets name.now) (place + length (name_octets name.now)) }
{
    let labels = name.as_octets();
    if place > octets.len() || octets.len() - place <= labels.len() {
        return false;
    }
    is_name_of(&octets[place..place + labels.len() + 1], labels)
}

impl BinEncoder<'_> {
    ghost use Rattle.dnw_encoder.specs.declared.open_places.OpenPlace.{OpenPlace};

    /// Keeps a range of octets, none of which is in an open place, as one that later names may point to, where names are
    /// written with pointers and there is room.
    pub fn store_label_pointer(&mut self, start: usize, end: usize) -> Result<(), ProtoError>
        requires order { start ≤ end }
        requires within { end ≤ length (state self.old).octets }
        requires shut { (r : OpenPlace) → In r (state self.old).places → start < r.to → r.from < end → ⊥ }
        ensures same_reference { self.new.buffer.ghost_name ≡ self.old.buffer.ghost_name }
        ensures ok { OnOk result (Stores start end (state self.old) (state self.new)) }
        ensures err { OnErr result (state self.new ≡ state self.old) }
        ensures cause { IfErr result IsMemory }
    {
        if !self.name_encoding.writes_pointers() {
            return Ok(());
        }
        match self.candidates.keep_octets(&self.buffer[start..end], start) {
            Ok(()) => Ok(()),
            Err(refused) => Err(ProtoError::Memory(refused)),
        }
    }

    /// Keeps a name that stands in full at a place, outside the open places, and those that end it, as ones that later
    /// names may point to, where names are written with pointers and there is room. Of those that end a long name the shorter
    /// are kept, to which others are more likely to point. A name that doesn't stand there in full isn't kept.
    pub fn store_name(&mut self, name: &Name, start: usize) -> Result<(), ProtoError>
        requires { (r : OpenPlace) → In r (state self.old).places → start < r.to
            → r.from < start + length (name_octets name.now) → ⊥ }
        ensures same_reference { self.new.buffer.ghost_name ≡ self.old.buffer.ghost_name }
        ensures ok { OnOk result (StoresName name.now start (state self.old) (state self.new)) }
        ensures err { OnErr result (state self.new ≡ state self.old) }
        ensures cause { IfErr result IsMemory }
    {
        if !self.name_encoding.writes_pointers() || !stands_in_full(self.buffer, name, start) {
            return Ok(());
        }
        let front = name.as_octets().len();
        match self
            .candidates
            .keep_name(name, true, front, start, start + front + 1)
        {
            Ok(()) => Ok(()),
            Err(refused) => Err(ProtoError::Memory(refused)),
        }
    }

    /// The place of a kept range with the octets of this one, if there is one.
    pub fn get_label_pointer(&mut self, start: usize, end: usize) -> Option<u16>
        requires order { start ≤ end }
        requires within { end ≤ length (state self.old).octets }
        ensures same_reference { self.new.buffer.ghost_name ≡ self.old.buffer.ghost_name }
        ensures state { state self.new ≡ state self.old }
        ensures place { FindsCandidate (state self.old) (slice_range (state self.old).octets start end) result }
    {
        self.candidates.find(&self.buffer[start..end])
    }
}
