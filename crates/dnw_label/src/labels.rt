//! Labels that are kept in one list of octets.
ghost use Rattle.std.specs.Prelude.{◌≡◌, ◌+◌, ◌<◌, ◌≤◌, ◌^◌, ◌++◌, ◌∷◌, [], ◌==◌, length, map, take, IfOk, OnOk, OnErr, All, ℕ, List};
ghost use Rattle.std.specs.List.{sum_by};
ghost use Rattle.std.specs.Str.{str_to_ascii_lowercase};
ghost use Rattle.smallvec.specs.SmallVec.{HasRoomFor};
ghost use Rattle.dnw_label.specs.Label.{IsLabel};
ghost use Rattle.dnw_label.specs.Labels.{SpeltSoFar, label_octets};

use crate::label_iter::LabelIter;
use smallvec::SmallVec;
use std::alloc::{AllocError, Global};
use std::marker::Model;

/// The labels of a name in one list of octets, as a message holds them: each behind the octet of its length
/// (RFC 1035 3.1). A contract sees them as the list of labels. Few octets need no memory of their own.
#[derive(Drop)]
pub struct Labels {
    octets: SmallVec<u8, 24>,
    // The length of each label, by which they are gone through from the right.
    lengths: SmallVec<u8, 16>,
}

impl Model for Labels {
    ghost use Rattle.std.specs.Prelude.{ℕ, List};
    ghost use Rattle.dnw_label.specs.Labels.{HoldLabels, labels_of};

    ghost Value = { List (List ℕ) };

    ghost view = { λ labels. labels_of labels.lengths.items labels.octets.items };

    ghost invariant = { λ labels. HoldLabels labels.octets.items labels.lengths.items (labels_of labels.lengths.items labels.octets.items) };
}

// How many octets more are asked for where there is no room, so that a long name asks twice at most.
const MORE_OCTETS: usize = 40;

// Where labels take more octets than these, their lengths are gathered first.
const LONG: usize = 64;

// How many lengths are gathered at once: those of any name.
const GATHERED: usize = 128;

impl Labels {
    /// No labels.
    pub fn new(alloc: Global) -> Labels
        ensures { result ≡ [] }
    {
        Labels {
            octets: SmallVec::new(alloc),
            lengths: SmallVec::new(alloc),
        }
    }

    /// These labels.
    pub fn of_iter(alloc: Global, labels: &LabelIter<'_>) -> Result<Labels, AllocError>
        ensures { IfOk result (λ own. own ≡ labels.now) }
    {
        Ok(Labels {
            octets: SmallVec::from_slice(alloc, labels.octets())?,
            lengths: SmallVec::from_slice(alloc, labels.lengths())?,
        })
    }

    /// The allocator.
    pub fn allocator(&self) -> &Global {
        self.octets.allocator()
    }

    /// The number of labels.
    pub fn len(&self) -> usize
        ensures { result ≡ length self.now }
    {
        self.lengths.len()
    }

    /// Whether there is no label.
    pub fn is_empty(&self) -> bool
        ensures { result ≡ (length self.now == 0) }
    {
        self.lengths.is_empty()
    }

    /// The octets of the labels, each behind the one of its length (RFC 1035 3.1).
    pub fn as_octets(&self) -> &[u8]
        ensures octets { result.now ≡ label_octets self.now }
        ensures len { length result.now ≡ sum_by (λ label. length label + 1) self.now }
    {
        self.octets.as_slice()
    }

    /// The labels from the left.
    pub fn iter(&self) -> LabelIter<'_>
        ensures labels { result ≡ self.now }
        ensures each { All IsLabel self.now }
    {
        LabelIter::of_octets(self.octets.as_slice(), self.lengths.as_slice())
    }

    /// Puts a label of these octets, which are 1 to 63, at the end. Where memory is refused all stays as it was.
    pub fn push(&mut self, label: &[u8]) -> Result<(), AllocError>
        requires { IsLabel label.now }
        ensures ok { OnOk result (self.new ≡ self.old ++ label.now ∷ []) }
        ensures err { OnErr result (self.new ≡ self.old) }
    {
        make_room(&mut self.octets, label.len() + 1)?;
        let length = label.len() as u8;
        self.lengths.push(length)?;
        self.octets.push_reserved(length);
        self.octets.extend_from_slice(label)
    }

    /// Puts labels at the end that octets spell, each behind the octet of its length (RFC 1035 3.1). Where memory is
    /// refused all stays as it was.
    pub fn push_spelled(&mut self, spelled: &[u8]) -> Result<(), AllocError>
        requires { (labels : List (List ℕ)) × All IsLabel labels × (spelled.now ≡ label_octets labels) }
        ensures ok { OnOk result ((labels : List (List ℕ)) → All IsLabel labels → spelled.now ≡ label_octets labels
            → self.new ≡ self.old ++ labels) }
        ensures err { OnErr result (self.new ≡ self.old) }
    {
        make_room(&mut self.octets, spelled.len())?;
        push_lengths(&mut self.lengths, spelled)?;
        self.octets.extend_from_slice(spelled)
    }

    /// Puts other labels at the end. Where memory is refused all stays as it was.
    pub fn append(&mut self, others: &LabelIter<'_>) -> Result<(), AllocError>
        ensures ok { OnOk result (self.new ≡ self.old ++ others.now) }
        ensures err { OnErr result (self.new ≡ self.old) }
    {
        make_room(&mut self.octets, others.octets().len())?;
        self.lengths.extend_from_slice(others.lengths())?;
        self.octets.extend_from_slice(others.octets())
    }

    /// Puts the labels into lower case.
    pub fn make_lowercase(&mut self)
        ensures { self.new ≡ map str_to_ascii_lowercase self.old }
    {
        // (an octet of a length is no letter)
        self.octets.as_mut_slice().make_ascii_lowercase();
    }
}

// Makes room for so many octets more.
fn make_room(octets: &mut SmallVec<u8, 24>, more: usize) -> Result<(), AllocError>
    requires { more < 2 ^ 63 }
    ensures items { octets.new.items ≡ octets.old.items }
    ensures ok { OnOk result (HasRoomFor octets.new more) }
{
    if octets.capacity() - octets.len() < more {
        octets.reserve(more + MORE_OCTETS)?;
    }
    Ok(())
}

// Puts the lengths of labels at the end of others, which octets spell. Where memory is refused they stay as they were.
fn push_lengths(lengths: &mut SmallVec<u8, 16>, spelled: &[u8]) -> Result<(), AllocError>
    requires { (labels : List (List ℕ)) × All IsLabel labels × (spelled.now ≡ label_octets labels) }
    ensures ok { OnOk result ((labels : List (List ℕ)) × All IsLabel labels × (spelled.now ≡ label_octets labels)
        × (lengths.new.items ≡ lengths.old.items ++ map length labels)) }
    ensures err { OnErr result (lengths.new.items ≡ lengths.old.items) }
{
    if spelled.len() > LONG {
        return push_many_lengths(lengths, spelled);
    }
    let before = lengths.len();
    let mut rest = spelled;
    'labels: while let Some((length, behind)) = rest.split_first() {
        if lengths.push(*length).is_err() {
            lengths.truncate(before);
            return Err(AllocError);
        }
        let (_, later) = behind.split_at(usize::from(*length));
        rest = later;
    }
    Ok(())
}

// Does what `push_lengths` does; each of many labels costs less.
fn push_many_lengths(lengths: &mut SmallVec<u8, 16>, spelled: &[u8]) -> Result<(), AllocError>
    requires { (labels : List (List ℕ)) × All IsLabel labels × (spelled.now ≡ label_octets labels) }
    ensures ok { OnOk result ((labels : List (List ℕ)) × All IsLabel labels × (spelled.now ≡ label_octets labels)
        × (lengths.new.items ≡ lengths.old.items ++ map length labels)) }
    ensures err { OnErr result (lengths.new.items ≡ lengths.old.items) }
{
    let before = lengths.len();
    let mut rest = spelled;
    'labels: while !rest.is_empty() {
        let mut gathered = [0; GATHERED];
        let (count, behind) = gather_lengths(rest, &mut gathered);
        if lengths.extend_from_slice(&gathered[..count]).is_err() {
            lengths.truncate(before);
            return Err(AllocError);
        }
        rest = behind;
    }
    Ok(())
}

// Writes the lengths of labels, which octets spell, to the front of an array, as many as find room there: their count,
// and what is spelled behind them.
fn gather_lengths<'s>(spelled: &'s [u8], gathered: &mut [u8; GATHERED]) -> (usize, &'s [u8])
    requires { (labels : List (List ℕ)) × All IsLabel labels × (spelled.now ≡ label_octets labels) }
    ensures within { result.0 ≤ length gathered.new }
    ensures lengths { SpeltSoFar [] spelled.now result.1.now (take result.0 gathered.new) }
    ensures some { 0 < length spelled.now → length result.1.now < length spelled.now }
{
    let mut count = 0;
    let mut rest = spelled;
    'labels: while let Some((length, behind)) = rest.split_first() {
        if count == GATHERED {
            return (count, rest);
        }
        gathered[count] = *length;
        count += 1;
        let (_, later) = behind.split_at(usize::from(*length));
        rest = later;
    }
    (count, rest)
}
