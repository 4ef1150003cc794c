//! Names that pointers lead to (RFC 1035 4.1.4). A message can hold thousands of pointers to long names. Once pointers
//! have led to many labels, the names that are read are kept for the message, and which of their last labels are spelled
//! where: so none of these labels is gone through again.
ghost use Rattle.std.specs.Prelude.{◌≡◌, ◌≤◌, ℕ, length, IfOk, IfErr, IfSome};
ghost use Rattle.dnw_name.specs.dnw_codes.declared.error.DecodeError.TheVariants.{Memory};
ghost use Rattle.dnw_decoder.specs.Chains.{AreChains};
ghost use Rattle.dnw_decoder.specs.Spelling.{NameAt};
ghost use Rattle.dnw_decoder.specs.Tails.{IsSegment, IsTail, AreTails, AreKept, AreKeptIn, PushesKept};

use crate::chains::{POINTED, follow};
use crate::name::{Element, element_at, run_end};
use dnw_name::{DecodeError, LabelIter, Name};
use std::alloc::{AllocError, Global};

// As many labels as pointers lead to before names are kept.
const MANY: usize = 256;

// What is spelled at a place: so many of the last labels of a kept name; and where their octets end.
#[derive(Clone, Copy)]
struct Tail {
    number: usize,
    labels: usize,
    end: usize,
}

// Where the labels of a segment end, where the octets of its last element do, and the target where this is a pointer.
#[derive(Clone, Copy)]
struct Segment {
    run: usize,
    end: usize,
    target: Option<usize>,
}

/// The names that are kept of a message, and what is spelled at its places.
#[derive(Drop)]
pub(crate) struct Tails {
    names: Vec<Name>,
    places: Vec<Option<Tail>>,
}

impl Tails {
    // None yet, with room for each place that a pointer can name.
    fn new(alloc: Global, octets: &[u8]) -> Result<Box<Tails>, AllocError>
        ensures { IfOk result (λ tails. AreTails octets.now tails.value) }
    {
        let mut places = Vec::new(alloc);
        places.resize(octets.len().min(POINTED), None)?;
        let names = Vec::new(alloc);
        Ok(Box::new(alloc, Tails { names, places })?)
    }

    // The labels that are kept of a place, where their octets end at a bound or before it.
    fn find(&self, place: usize, bound: usize) -> Option<LabelIter<'_>>
        ensures { IfSome result (AreKeptIn self.now place bound) }
    {
        let tail = (*self.places.get(place)?)?;
        if bound < tail.end {
            return None;
        }
        let labels = self.names.get(tail.number)?.iter();
        let before = labels.len().saturating_sub(tail.labels);
        Some(labels.behind(before))
    }

    // Keeps what is spelled at each label between two places, as far as that isn't kept yet: the place that was come to,
    // and how many labels are spelled there.
    fn keep_run(&mut self, octets: &[u8], start: usize, end: usize, tail: Tail) -> (usize, usize)
        requires within { end ≤ length octets.now }
        requires tail { IsTail octets.now self.old.names.items start tail }
        requires tails { AreTails octets.now self.old }
        ensures tail { IsTail octets.now self.new.names.items result.0 (record tail { labels = result.1 }) }
        ensures tails { AreTails octets.now self.new }
        ensures names { self.new.names ≡ self.old.names }
    {
        let mut place = start;
        let mut tail = tail;
        'labels: while place < end {
            let length = usize::from(octets[place]);
            if length == 0 {
                break 'labels;
            }
            if length > 63 {
                break 'labels;
            }
            if let Some(kept) = self.places.get_mut(place) {
                if kept.is_some() {
                    break 'labels;
                }
                *kept = Some(tail);
            }
            tail.labels -= 1;
            place += 1 + length;
        }
        (place, tail.labels)
    }

    // Keeps a name that is spelled at a place, and what of it is spelled where.
    fn keep(
        &mut self,
        alloc: Global,
        octets: &[u8],
        chains: &mut Option<Vec<u16>>,
        start: usize,
        name: &Name,
    ) -> Result<(), AllocError>
        requires start { start ≤ length octets.now }
        requires named { (end : ℕ) × NameAt octets.now start name.now end }
        requires chains { AreChains octets.now chains.old }
        requires tails { AreTails octets.now self.old }
        ensures chains { AreChains octets.now chains.new }
        ensures tails { AreTails octets.now self.new }
    {
        let mut labels = name.iter().len();
        let number = self.names.len();
        self.names.push(name.clone()?)?;
        let mut place = start;
        'segments: loop {
            let Some(segment) = segment_at(octets, place) else {
                return Ok(());
            };
            let tail = Tail {
                number,
                labels,
                end: segment.end,
            };
            let (reached, left) = self.keep_run(octets, place, segment.run, tail);
            let Some(target) = segment.target else {
                return Ok(());
            };
            if reached != segment.run {
                return Ok(());
            }
            let (_, led) = follow(alloc, octets, chains, place, target);
            place = led;
            labels = left;
        }
    }
}

// The segment that begins at a place, where its elements are whole.
fn segment_at(octets: &[u8], place: usize) -> Option<Segment>
    requires { place ≤ length octets.now }
    ensures { IfSome result (IsSegment octets.now place) }
{
    let run = run_end(octets, octets.len(), place, Name::MAX_LENGTH);
    match element_at(octets, place, octets.len(), run) {
        Ok(Element::End) => Some(Segment {
            run,
            end: run + 1,
            target: None,
        }),
        Ok(Element::Pointer(target)) => Some(Segment {
            run,
            end: run + 2,
            target: Some(target),
        }),
        _ => None,
    }
}

/// What is kept of a message's pointers.
#[derive(Drop)]
pub(crate) struct Pointers {
    // Where chains of pointers end, once one was followed.
    pub(crate) chains: Option<Vec<u16>>,
    // How many labels were spelled by pointers.
    labels: usize,
    // The names that were, once these labels are many.
    pub(crate) tails: Option<Box<Tails>>,
}

impl Pointers {
    /// Nothing yet.
    pub(crate) fn new() -> Pointers
        ensures { (result.chains ≡ None) × (result.tails ≡ None) }
    {
        Pointers {
            chains: None,
            labels: 0,
            tails: None,
        }
    }

    /// Keeps a name that is spelled at a place by pointers, where many labels were, and memory is there for it.
    pub(crate) fn keep(&mut self, alloc: Global, octets: &[u8], start: usize, name: &Name)
        requires start { start ≤ length octets.now }
        requires named { (end : ℕ) × NameAt octets.now start name.now end }
        requires chains { AreChains octets.now self.old.chains }
        requires tails { AreKept octets.now self.old.tails }
        ensures chains { AreChains octets.now self.new.chains }
        ensures tails { AreKept octets.now self.new.tails }
    {
        self.labels = self.labels.saturating_add(name.iter().len());
        if self.labels <= MANY {
            return;
        }
        begin(alloc, octets, &mut self.tails);
        if let Some(tails) = &mut self.tails {
            // (want of memory leaves fewer names kept)
            let _ = tails.keep(alloc, octets, &mut self.chains, start, name);
        }
    }
}

// Begins to keep names, where memory is there for it.
fn begin(alloc: Global, octets: &[u8], tails: &mut Option<Box<Tails>>)
    requires { AreKept octets.now tails.old }
    ensures { AreKept octets.now tails.new }
{
    if tails.is_none() {
        *tails = Tails::new(alloc, octets).ok();
    }
}

/// Puts the labels that are kept of a place at the end of a name. Whether there are any and the name has room for them.
pub(crate) fn push_kept(
    name: &mut Name,
    tails: &Option<Box<Tails>>,
    place: usize,
    bound: usize,
) -> Result<bool, DecodeError>
    ensures ok { IfOk result (PushesKept name.old tails.now place bound name.new) }
    ensures refused { IfErr result (λ e. e ≡ Memory) }
{
    let Some(tails) = tails else {
        return Ok(false);
    };
    let Some(labels) = tails.find(place, bound) else {
        return Ok(false);
    };
    match name.push_labels(&labels) {
        Ok(()) => Ok(true),
        Err(DecodeError::Memory) => Err(DecodeError::Memory),
        Err(_) => Ok(false),
    }
}
