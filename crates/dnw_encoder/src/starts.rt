//! With which octets the names begin that are kept.
ghost use Rattle.std.specs.Prelude.{◌≡◌, ◌+◌, ◌<◌, ◌≤◌, ◌-◌, true, false, length, get_or, slice_range};
ghost use Rattle.dnw_encoder.specs.Candidates.{AreWithin, IsWithin};
ghost use Rattle.dnw_encoder.specs.Members.{In};
ghost use Rattle.dnw_encoder.specs.Starts.{AreMarked, IsMarked, StaysMarked, start_place};
ghost use Rattle.dnw_encoder.specs.declared.candidates.Entry.{Entry};

use crate::candidates::Entry;
use dnw_decoder::word;

// How many places there are.
const PLACES: usize = 1024;

// An odd number, by which multiples are spread (that of 2^64 and the golden ratio).
const SPREAD: u64 = 11_400_714_819_323_198_485;

// Where names are marked by their first octets. Most names that aren't kept begin with octets whose place isn't marked.
#[derive(Drop)]
pub(crate) struct Starts {
    marks: [bool; PLACES],
}

// The place of labels, by their first eight octets and, where there are so many, the next eight.
#[inline(always)]
fn mark_place(labels: &[u8]) -> usize
    requires { 8 ≤ length labels.now }
    ensures value { result ≡ start_place labels.now }
    ensures within { result < 1024 }
{
    let first = word(labels, 0);
    let mixed = if labels.len() < 16 {
        first
    } else {
        first ^ word(labels, 8)
    };
    (mixed.wrapping_mul(SPREAD) >> 54) as usize
}

impl Starts {
    // No name.
    #[inline]
    pub(crate) fn new() -> Starts {
        Starts {
            marks: [false; PLACES],
        }
    }

    // Whether a name of these labels may be marked. Of short ones it isn't told.
    #[inline(always)]
    pub(crate) fn may_hold(&self, labels: &[u8]) -> bool
        ensures { result ≡ false → (8 ≤ length labels.now) × (IsMarked self.now.marks labels.now → ⊥) }
    {
        labels.len() < 8 || self.marks[mark_place(labels)]
    }

    // Marks a name of these labels.
    #[inline(always)]
    fn mark(&mut self, labels: &[u8])
        requires { 8 ≤ length labels.now }
        ensures marked { IsMarked self.new.marks labels.now }
        ensures others { StaysMarked self.old.marks self.new.marks }
    {
        self.marks[mark_place(labels)] = true;
    }

    // Marks the name of an entry among octets, but for its last one, unless it is short.
    #[inline(always)]
    fn mark_entry(&mut self, entry: &Entry, octets: &[u8])
        requires { IsWithin octets.now entry.now }
        ensures marked { entry.now.from + 8 < entry.now.to
            → IsMarked self.new.marks (slice_range octets.now entry.now.from (entry.now.to - 1)) }
        ensures others { StaysMarked self.old.marks self.new.marks }
    {
        if entry.to - entry.from > 8 {
            self.mark(&octets[entry.from..entry.to - 1]);
        }
    }

    // Marks those of entries.
    pub(crate) fn mark_each(&mut self, entries: &[Entry], octets: &[u8])
        requires { AreWithin octets.now entries.now }
        ensures marked { AreMarked self.new.marks octets.now entries.now }
        ensures others { StaysMarked self.old.marks self.new.marks }
    {
        'entries: for entry in entries {
            self.mark_entry(entry, octets);
        }
    }
}
