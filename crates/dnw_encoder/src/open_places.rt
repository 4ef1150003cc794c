//! The places that were handed out and are not yet filled.
ghost use Rattle.std.specs.Prelude.{◌≡◌, ◌-◌, true, filter, length, nat_le, not, take};
ghost use Rattle.dnw_encoder.specs.State.{is_other};

use smallvec::SmallVec;

// A range of octets that was handed out and is not yet filled.
#[derive(Clone, Copy, Debug, Default, PartialEq, Eq)]
pub(crate) struct OpenPlace {
    pub(crate) from: usize,
    pub(crate) to: usize,
}

impl OpenPlace {
    // Whether it is another range.
    #[inline]
    fn is_other(&self, from: usize, to: usize) -> bool
        ensures { result ≡ is_other from to self.now }
    {
        !(self.from == from && self.to == to)
    }
}

// Leaves out the places that end behind an offset.
pub(crate) fn drop_behind(places: &mut SmallVec<OpenPlace, 2>, offset: usize)
    ensures { places.new.items ≡ filter (λ r. nat_le r.to offset) places.old.items }
{
    places.retain(|place| place.to <= offset);
}

// Whether leaving a place out leaves all but the last one: said of one or two places alone.
#[inline]
fn is_the_last(places: &[OpenPlace], from: usize, to: usize) -> bool
    ensures { result ≡ true → filter (is_other from to) places.now ≡ take (length places.now - 1) places.now }
{
    match places.len() {
        1 => !places[0].is_other(from, to),
        2 => places[0].is_other(from, to) && !places[1].is_other(from, to),
        _ => false,
    }
}

// Leaves out the place that was filled.
#[inline]
pub(crate) fn shut(places: &mut SmallVec<OpenPlace, 2>, from: usize, to: usize)
    ensures { places.new.items ≡ filter (is_other from to) places.old.items }
{
    // One that was handed out last is filled first.
    if is_the_last(places, from, to) {
        places.pop();
        return;
    }
    places.retain(|place| place.is_other(from, to));
}
