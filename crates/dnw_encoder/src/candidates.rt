//! The names to which later ones may point (RFC 1035 4.1.4).
ghost use Rattle.std.specs.Prelude.{◌≡◌, ◌↔◌, ◌+◌, ◌<◌, ◌≤◌, ◌^◌, ◌-◌, ◌∷◌, [], ◌++◌, ◌⊎◌, true, false, length, filter, nat_le, slice_range, IfSome, OnOk, OnErr};
ghost use Rattle.dnw_decoder.specs.dnw_label.Labels.{label_octets};
ghost use Rattle.dnw_encoder.specs.Candidates.{AreWithin, CannotEnd, FindsAmong, FindsLongest, IsLongest, IsWithin, KeepsOctets, KeepsSuffixes, Meets, PushesOthers, PushesSuffixes, SplitsAt, candidates_of};
ghost use Rattle.dnw_encoder.specs.Members.{In};
ghost use Rattle.dnw_encoder.specs.Starts.{AreMarked, NoneEarlier, NoneMarkedBefore};
ghost use Rattle.dnw_encoder.specs.State.{Candidate};
ghost use Rattle.dnw_encoder.specs.declared.candidates.Entry.{Entry};

use crate::eights::{clash_of, is_name_of, starts_apart};
use crate::starts::Starts;
use dnw_decoder::Name;
use smallvec::SmallVec;
use std::alloc::{AllocError, Global};
use std::marker::Model;

// How many names are kept at most, and where those begin at the latest.
const MOST: usize = 64;

const LAST_PLACE: usize = 16382;

// A name that is kept: the range of its octets among those of all, its place in the message, and where what was written
// for it ends there.
#[derive(Clone, Copy, Debug, Default, PartialEq, Eq)]
pub(crate) struct Entry {
    pub(crate) from: usize,
    pub(crate) to: usize,
    pub(crate) place: u16,
    pub(crate) end: usize,
}

impl Entry {
    // Whether its name may end one of so many octets behind fewer than so many, where no longer one does than the rest
    // of these labels. It is no such one that is as long as the rest and begins otherwise, nor that holds an octet among
    // those that go to an end.
    #[inline(always)]
    fn may_end(
        &self,
        octets: &[u8],
        rest: &[u8],
        whole: usize,
        before: usize,
        to: usize,
        octet: usize,
    ) -> bool
        requires within { IsWithin octets.now self.now }
        requires most { length rest.now + 1 ≤ whole }
        ensures { result ≡ false → CannotEnd octets.now rest.now whole before to octet self.now }
    {
        let (size, most) = (self.to - self.from, rest.len() + 1);
        if size == most && starts_apart(self.octets(octets), rest) {
            return false;
        }
        if self.to == to && self.from <= octet {
            return false;
        }
        size <= most && whole - size < before
    }

    // The name's octets among those of all.
    #[inline]
    fn octets<'o>(&self, all: &'o [u8]) -> &'o [u8]
        requires { IsWithin all.now self.now }
        ensures { result.now ≡ slice_range all.now self.now.from self.now.to }
    {
        &all[self.from..self.to]
    }
}

// A name that is kept and ends another one, behind so many of its octets.
#[derive(Clone, Copy)]
pub(crate) struct Suffix {
    pub(crate) front: usize,
    pub(crate) place: u16,
}

// The names that are kept. A contract sees the list of them.
#[derive(Drop)]
pub(crate) struct Candidates {
    entries: SmallVec<Entry, 16>,
    // The octets of one name behind those of another, each in full.
    octets: SmallVec<u8, 192>,
    // Where those names are marked by their first octets.
    starts: Starts,
}

impl Model for Candidates {
    ghost use Rattle.std.specs.Prelude.{List};
    ghost use Rattle.dnw_encoder.specs.Candidates.{AreWithin, candidates_of};
    ghost use Rattle.dnw_encoder.specs.Starts.{AreMarked};
    ghost use Rattle.dnw_encoder.specs.State.{Candidate};

    ghost Value = { List Candidate };

    ghost view = { λ kept. candidates_of kept.octets.items kept.entries.items };

    ghost invariant = { λ kept. AreWithin kept.octets.items kept.entries.items
        × AreMarked kept.starts.marks kept.octets.items kept.entries.items };
}

// The place of the first entry of these octets.
fn place_of(entries: &[Entry], octets: &[u8], wanted: &[u8]) -> Option<u16>
    requires { AreWithin octets.now entries.now }
    ensures { FindsAmong (candidates_of octets.now entries.now) wanted.now result }
{
    'entries: for entry in entries {
        if entry.octets(octets) == wanted {
            return Some(entry.place);
        }
    }
    None
}

// Whether a name's first so many octets are labels.
fn splits_at(name: &Name, front: usize) -> bool
    ensures { (result ≡ true) ↔ SplitsAt name.now.labels front }
{
    let labels = name.as_octets();
    let mut rest = labels;
    'labels: while let Some((length, behind)) = rest.split_first() {
        let at = labels.len() - rest.len();
        if at >= front {
            return at == front;
        }
        let (_, later) = behind.split_at(usize::from(*length));
        rest = later;
    }
    labels.len() - rest.len() == front
}

// What octets are to the end of a name.
enum Meeting {
    // The name that ends it behind so many octets.
    Ends(usize),
    // They are none that ends it: this octet of theirs isn't the one that stands as far from the name's end.
    Clashes(usize),
    // None that ends it behind fewer octets than were asked.
    Apart,
}

// What octets are to the end of a name: whether they are the name that ends it behind fewer octets than so many.
#[inline(always)]
fn meeting_of(octets: &[u8], name: &Name, before: usize) -> Meeting
    requires { before ≤ length (label_octets name.now.labels) }
    ensures { Meets name.now.labels before octets.now result }
{
    let labels = name.as_octets();
    if octets.len() > labels.len() + 1 {
        return Meeting::Apart;
    }
    let front = labels.len() + 1 - octets.len();
    if front >= before {
        return Meeting::Apart;
    }
    let rest = &labels[front..];
    if starts_apart(octets, rest) {
        return Meeting::Apart;
    }
    if is_name_of(octets, rest) {
        if splits_at(name, front) {
            return Meeting::Ends(front);
        }
        return Meeting::Apart;
    }
    match clash_of(octets, rest) {
        Some(place) => Meeting::Clashes(place),
        None => Meeting::Apart,
    }
}

// Behind which octet of a name those names begin at the earliest that end it and may be kept.
fn least_of(starts: &Starts, name: &Name) -> usize
    ensures within { result ≤ length (label_octets name.now.labels) }
    ensures none { NoneMarkedBefore starts.now.marks name.now.labels result }
{
    let labels = name.as_octets();
    let mut rest = labels;
    'labels: while let Some((length, behind)) = rest.split_first() {
        if starts.may_hold(rest) {
            return labels.len() - rest.len();
        }
        let (_, later) = behind.split_at(usize::from(*length));
        rest = later;
    }
    labels.len() - rest.len()
}

// The longest name among entries that ends a name, where none is longer that begins behind so many octets. Octets that clash
// with its end are read once: a name that is kept with others, and holds them too, is left out.
fn longest_of(entries: &[Entry], octets: &[u8], name: &Name, least: usize) -> Option<Suffix>
    requires within { AreWithin octets.now entries.now }
    requires least { least ≤ length (label_octets name.now.labels) }
    requires none { NoneEarlier octets.now entries.now name.now.labels least }
    ensures { FindsLongest (candidates_of octets.now entries.now) name.now.labels result }
{
    let labels = name.as_octets();
    let rest = &labels[least..];
    let mut front = labels.len();
    let whole = front + 1;
    let mut longest = None;
    let (mut to, mut clash) = (0, 0);
    'entries: for entry in entries {
        if entry.may_end(octets, rest, whole, front, to, clash) {
            match meeting_of(entry.octets(octets), name, front) {
                Meeting::Ends(found) => {
                    front = found;
                    longest = Some(Suffix {
                        front,
                        place: entry.place,
                    });
                    if front == least {
                        return longest;
                    }
                }
                Meeting::Clashes(place) => {
                    to = entry.to;
                    clash = entry.from + place;
                }
                Meeting::Apart => {}
            }
        }
    }
    longest
}

// The last name that is kept, where it is the whole of another: a record is often written right behind one that points to
// its owner, as an alias does.
#[inline]
fn last_whole(entries: &[Entry], octets: &[u8], name: &Name) -> Option<Suffix>
    requires { AreWithin octets.now entries.now }
    ensures { IfSome result (λ suffix. IsLongest (candidates_of octets.now entries.now) name.now.labels suffix) }
{
    let labels = name.as_octets();
    let entry = entries.last()?;
    if labels.is_empty() || !is_name_of(entry.octets(octets), labels) {
        return None;
    }
    Some(Suffix {
        front: 0,
        place: entry.place,
    })
}

// Whether a name that begins so many octets behind a place is kept beside so many others.
fn is_kept(count: usize, place: usize) -> bool
    ensures { (result ≡ true) ↔ ((count < 64) × (place < 16383)) }
{
    count < MOST && place <= LAST_PLACE
}

// Behind which octet the last labels of a name begin, so many of them.
#[inline(never)]
fn start_of_last(name: &Name, count: usize) -> usize
    ensures { SplitsAt name.now.labels result }
{
    let labels = name.as_octets();
    // (`num_labels` counts no asterisk in front)
    let all = usize::from(name.num_labels()) + usize::from(name.is_wildcard());
    let mut more = all.saturating_sub(count);
    let mut rest = labels;
    'labels: while let Some((length, behind)) = rest.split_first() {
        if more == 0 {
            return labels.len() - rest.len();
        }
        more -= 1;
        let (_, later) = behind.split_at(usize::from(*length));
        rest = later;
    }
    labels.len() - rest.len()
}

// Behind which octet the names begin that are kept beside a name, which they end, and so many others: the longest, or of a
// long name the shorter, where those are wanted.
#[inline]
fn start_of_others(name: &Name, shorter: bool, others: usize) -> usize
    requires { 0 < length (label_octets name.now.labels) }
    ensures splits { SplitsAt name.now.labels result }
    ensures some { 0 < result }
{
    let labels = name.as_octets();
    // (a label has two octets at least)
    if shorter && labels.len() > 2 * MOST {
        let start = start_of_last(name, (MOST - 1).saturating_sub(others));
        if start > 0 {
            return start;
        }
    }
    1 + usize::from(labels[0])
}

// Puts an entry for each name that ends a name behind a place and begins in its first so many octets, as long as there is
// room. Their octets among those of all end at a place.
fn push_entries(
    entries: &mut SmallVec<Entry, 16>,
    name: &Name,
    behind: usize,
    front: usize,
    to: usize,
    start: usize,
    end: usize,
) -> Result<(), AllocError>
    requires some { 0 < behind }
    requires splits { SplitsAt name.now.labels behind }
    requires octets { length (label_octets name.now.labels) + 1 ≤ to }
    requires fits { start + length (label_octets name.now.labels) < 2 ^ 64 }
    ensures ok { OnOk result (PushesOthers name.now.labels front to start end entries.old.items entries.new.items) }
    ensures err { OnErr result (entries.new.items ≡ entries.old.items) }
{
    let before = entries.len();
    let labels = name.as_octets();
    let mut rest = &labels[behind..];
    'labels: while let Some((length, behind)) = rest.split_first() {
        let at = labels.len() - rest.len();
        if at >= front || !is_kept(entries.len(), start + at) {
            return Ok(());
        }
        let entry = Entry {
            from: to - 1 - rest.len(),
            to,
            place: (start + at) as u16,
            end,
        };
        if entries.push(entry).is_err() {
            entries.truncate(before);
            return Err(AllocError);
        }
        let (_, later) = behind.split_at(usize::from(*length));
        rest = later;
    }
    Ok(())
}

// Puts an entry for a name, whose octets are the last, and for those that end it and begin in its first so many octets, as
// long as there is room; the shorter of a long name, where those are wanted.
fn push_name(
    entries: &mut SmallVec<Entry, 16>,
    name: &Name,
    shorter: bool,
    front: usize,
    to: usize,
    start: usize,
    end: usize,
) -> Result<(), AllocError>
    requires some { 0 < length (label_octets name.now.labels) }
    requires early { 0 < front }
    requires small { start < 16383 }
    requires octets { length (label_octets name.now.labels) + 1 ≤ to }
    requires fits { start + length (label_octets name.now.labels) < 2 ^ 64 }
    ensures ok { OnOk result (PushesSuffixes name.now.labels front to start end entries.old.items entries.new.items) }
    ensures err { OnErr result (entries.new.items ≡ entries.old.items) }
{
    let before = entries.len();
    let entry = Entry {
        from: to - 1 - name.as_octets().len(),
        to,
        place: start as u16,
        end,
    };
    if entries.push(entry).is_err() {
        return Err(AllocError);
    }
    let behind = start_of_others(name, shorter, before);
    if push_entries(entries, name, behind, front, to, start, end).is_err() {
        entries.truncate(before);
        return Err(AllocError);
    }
    Ok(())
}

// Behind which octet no entry has any.
fn last_octet(entries: &[Entry]) -> usize
    ensures { (e : Entry) → In e entries.now → e.to ≤ result }
{
    let mut last = 0;
    'entries: for entry in entries {
        if entry.to > last {
            last = entry.to;
        }
    }
    last
}

impl Candidates {
    // No name.
    #[inline]
    pub(crate) fn new(alloc: Global) -> Candidates
        ensures { result ≡ [] }
    {
        Candidates {
            entries: SmallVec::new(alloc),
            octets: SmallVec::new(alloc),
            starts: Starts::new(),
        }
    }

    // The place of a name of these octets.
    pub(crate) fn find(&self, octets: &[u8]) -> Option<u16>
        ensures { FindsAmong self.now octets.now result }
    {
        place_of(self.entries.as_slice(), self.octets.as_slice(), octets)
    }

    // The longest name that ends another one.
    pub(crate) fn longest(&self, name: &Name) -> Option<Suffix>
        ensures { FindsLongest self.now name.now.labels result }
    {
        let (entries, octets) = (self.entries.as_slice(), self.octets.as_slice());
        match last_whole(entries, octets, name) {
            Some(suffix) => Some(suffix),
            None => longest_of(entries, octets, name, least_of(&self.starts, name)),
        }
    }

    // Keeps octets that stand at a place, if there is room. Where memory is refused all stays as it was.
    pub(crate) fn keep_octets(&mut self, octets: &[u8], start: usize) -> Result<(), AllocError>
        requires { start + length octets.now < 2 ^ 64 }
        ensures ok { OnOk result (KeepsOctets octets.now start self.old self.new) }
        ensures err { OnErr result (self.new ≡ self.old) }
    {
        if !is_kept(self.entries.len(), start) {
            return Ok(());
        }
        let from = self.octets.len();
        self.octets.extend_from_slice(octets)?;
        let to = self.octets.len();
        let entry = Entry {
            from,
            to,
            place: start as u16,
            end: start + octets.len(),
        };
        let before = self.entries.len();
        if self.entries.push(entry).is_err() {
            return Err(AllocError);
        }
        self.starts
            .mark_each(&self.entries.as_slice()[before..], self.octets.as_slice());
        Ok(())
    }

    // Keeps a name that stands at a place, and each that ends it and begins in its first so many octets, as long as there
    // is room: the longest first, or of a long name the shorter, where those are wanted. Where memory is refused all stays
    // as it was.
    #[inline(always)]
    pub(crate) fn keep_name(
        &mut self,
        name: &Name,
        shorter: bool,
        front: usize,
        start: usize,
        end: usize,
    ) -> Result<(), AllocError>
        requires fits { start + length (label_octets name.now.labels) < 2 ^ 64 }
        requires front { front ≤ length (label_octets name.now.labels) }
        ensures ok { OnOk result (KeepsSuffixes name.now.labels front start end self.old self.new) }
        ensures err { OnErr result (self.new ≡ self.old) }
    {
        if front == 0 || !is_kept(self.entries.len(), start) {
            return Ok(());
        }
        self.keep_ends(name, shorter, front, start, end)
    }

    // Does so where there is room for one.
    #[inline(never)]
    fn keep_ends(
        &mut self,
        name: &Name,
        shorter: bool,
        front: usize,
        start: usize,
        end: usize,
    ) -> Result<(), AllocError>
        requires some { 0 < front }
        requires small { start < 16383 }
        requires fits { start + length (label_octets name.now.labels) < 2 ^ 64 }
        requires front { front ≤ length (label_octets name.now.labels) }
        ensures ok { OnOk result (KeepsSuffixes name.now.labels front start end self.old self.new) }
        ensures err { OnErr result (self.new ≡ self.old) }
    {
        self.octets.extend_from_slice(name.as_octets())?;
        if self.octets.push(0).is_err() {
            return Err(AllocError);
        }
        let to = self.octets.len();
        let before = self.entries.len();
        push_name(&mut self.entries, name, shorter, front, to, start, end)?;
        self.starts
            .mark_each(&self.entries.as_slice()[before..], self.octets.as_slice());
        Ok(())
    }

    // Leaves out the names whose octets end behind an offset.
    pub(crate) fn drop_behind(&mut self, offset: usize)
        ensures { self.new ≡ filter (λ c. nat_le c.end offset) self.old }
    {
        self.entries.retain(|entry| entry.end <= offset);
        let last = last_octet(self.entries.as_slice());
        self.octets.truncate(last);
    }
}
