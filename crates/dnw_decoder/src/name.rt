//! Names as they are spelled in a message (RFC 1035 4.1.4).
ghost use Rattle.std.specs.Prelude.{◌≡◌, ◌+◌, ◌-◌, ◌<◌, ◌≤◌, ◌∷◌, [], ◌++◌, ◌⊎◌, ℕ, List, length, get_or, All, IfOk, IfErr, OnOk};
ghost use Rattle.dnw_name.specs.dnw_codes.declared.error.DecodeError.TheVariants.{DomainNameTooLong, Memory};
ghost use Rattle.dnw_name.specs.DomainName.{domain_name, labels_len, IsDomainName};
ghost use Rattle.dnw_name.specs.dnw_label.Label.{IsLabel};
ghost use Rattle.dnw_name.specs.dnw_label.Labels.{label_octets};
ghost use Rattle.dnw_decoder.specs.Chains.{AreChains};
ghost use Rattle.dnw_decoder.specs.Elements.{ElementAt, Run};
ghost use Rattle.dnw_decoder.specs.Octets.{Stands};
ghost use Rattle.dnw_decoder.specs.Reading.{IsWantOfMemory};
ghost use Rattle.dnw_decoder.specs.Refusals.{IsCause, Refuses};
ghost use Rattle.dnw_decoder.specs.Spelling.{NameAt};
ghost use Rattle.dnw_decoder.specs.Tails.{AreKept};

use crate::chains::follow;
use crate::tails::{Pointers, push_kept};
use dnw_name::{DecodeError, Name};
use std::alloc::Global;

// One element of a name: its end, a label, or a pointer to where the rest is.
#[derive(Drop)]
pub(crate) enum Element<'a> {
    End,
    Label(&'a [u8]),
    Pointer(usize),
}

// The element at a place of a segment whose elements begin before the bound.
pub(crate) fn element_at<'a>(
    octets: &'a [u8],
    segment: usize,
    bound: usize,
    place: usize,
) -> Result<Element<'a>, DecodeError>
    requires { bound ≤ length octets.now }
    ensures ok { IfOk result (ElementAt octets.now segment bound place) }
    ensures cause { IfErr result (λ e. (found : List (List ℕ)) → IsCause octets.now found segment bound place e) }
    ensures memory { IfErr result (λ e. IsWantOfMemory e → ⊥) }
{
    if bound <= place {
        if bound < octets.len() {
            return Err(DecodeError::LabelOverlapsWithOther {
                label: segment,
                other: bound,
            });
        }
        return Err(DecodeError::InsufficientBytes);
    }
    let first = octets[place];
    if first < 64 {
        label_at(octets, segment, bound, place)
    } else if first < 192 {
        Err(DecodeError::UnrecognizedLabelCode(first))
    } else {
        pointer_at(octets, segment, bound, place)
    }
}

// The label at a place, or the end.
fn label_at<'a>(
    octets: &'a [u8],
    segment: usize,
    bound: usize,
    place: usize,
) -> Result<Element<'a>, DecodeError>
    requires within { place < length octets.now }
    requires before { place < bound }
    requires first { get_or octets.now place 0 < 64 }
    ensures ok { IfOk result (ElementAt octets.now segment bound place) }
    ensures cause { IfErr result (λ e. (found : List (List ℕ)) → IsCause octets.now found segment bound place e) }
    ensures memory { IfErr result (λ e. IsWantOfMemory e → ⊥) }
{
    let length = usize::from(octets[place]);
    let behind = place + 1 + length;
    if octets.len() < behind {
        Err(DecodeError::InsufficientBytes)
    } else if length == 0 {
        Ok(Element::End)
    } else {
        Ok(Element::Label(&octets[place + 1..behind]))
    }
}

// The pointer at a place.
fn pointer_at<'a>(
    octets: &'a [u8],
    segment: usize,
    bound: usize,
    place: usize,
) -> Result<Element<'a>, DecodeError>
    requires within { place < length octets.now }
    requires before { place < bound }
    requires first { 192 ≤ get_or octets.now place 0 }
    ensures ok { IfOk result (ElementAt octets.now segment bound place) }
    ensures cause { IfErr result (λ e. (found : List (List ℕ)) → IsCause octets.now found segment bound place e) }
    ensures memory { IfErr result (λ e. IsWantOfMemory e → ⊥) }
{
    if octets.len() < place + 2 {
        return Err(DecodeError::InsufficientBytes);
    }
    let target = u16::from_be_bytes([octets[place] - 192, octets[place + 1]]);
    if segment <= usize::from(target) {
        return Err(DecodeError::PointerNotPriorToLabel {
            index: place,
            target,
        });
    }
    Ok(Element::Pointer(usize::from(target)))
}

// Puts the labels of a run at the end of a name. A run without labels, as between two pointers, costs nothing.
fn push_run(name: &mut Name, spelled: &[u8]) -> Result<(), DecodeError>
    requires labels { (labels : List (List ℕ)) × All IsLabel labels × (spelled.now ≡ label_octets labels) }
    requires short { labels_len name.old.labels + length spelled.now + 1 ≤ 255 }
    ensures ok { OnOk result ((labels : List (List ℕ)) → All IsLabel labels → spelled.now ≡ label_octets labels
        → name.new ≡ domain_name name.old.fqdn (name.old.labels ++ labels)) }
    ensures refused { IfErr result (λ e. e ≡ Memory) }
{
    if spelled.is_empty() {
        return Ok(());
    }
    name.push_spelled(spelled)
}

// Where the labels end that stand from a place on, one behind the other: as far as they begin before the bound, are
// whole, and take no more octets than there is room.
pub(crate) fn run_end(octets: &[u8], bound: usize, place: usize, room: usize) -> usize
    requires within { bound ≤ length octets.now }
    requires inside { place ≤ length octets.now }
    requires room { room ≤ 255 }
    ensures run { (labels : List (List ℕ)) × Run octets.now bound place labels result }
    ensures ahead { place ≤ result }
    ensures inside { result ≤ length octets.now }
    ensures room { result ≤ place + room }
{
    let most = octets.len().min(place + room);
    let mut end = place;
    'labels: loop {
        if bound <= end {
            return end;
        }
        let length = usize::from(octets[end]);
        if length == 0 {
            return end;
        }
        if length > 63 {
            return end;
        }
        let next = end + 1 + length;
        if most < next {
            return end;
        }
        end = next;
    }
}

// The name that is spelled from a start on, the index behind it, and whether it was led to by pointers that nothing was
// kept of.
fn spelled_name(
    alloc: Global,
    octets: &[u8],
    pointers: &mut Pointers,
    start: usize,
) -> Result<(Name, usize, bool), DecodeError>
    requires start { start ≤ length octets.now }
    requires chains { AreChains octets.now pointers.old.chains }
    requires tails { AreKept octets.now pointers.old.tails }
    ensures ok { IfOk result (λ found. NameAt octets.now start found.0 found.1) }
    ensures within { IfOk result (λ found. (start ≤ found.1) × (found.1 ≤ length octets.now)) }
    ensures refused { IfErr result (Refuses octets.now start) }
    ensures chains { AreChains octets.now pointers.new.chains }
    ensures tails { pointers.new.tails ≡ pointers.old.tails }
{
    let mut name = Name::root(alloc);
    let mut segment = start;
    let mut bound = octets.len();
    let mut place = start;
    let mut resume = None;
    // Labels that stand one behind the other are copied at once, where their run ends.
    let mut run = start;
    let mut len = 1;
    let mut is_new = false;
    'elements: loop {
        let end = run_end(octets, bound, place, Name::MAX_LENGTH - len);
        let size = len + (end - place);
        match element_at(octets, segment, bound, end)? {
            Element::End => {
                push_run(&mut name, &octets[run..end])?;
                return Ok((name, resume.unwrap_or(end + 1), is_new));
            }
            Element::Label(label) => {
                len = size + 1 + label.len();
                if len > Name::MAX_LENGTH {
                    return Err(DecodeError::DomainNameTooLong(len));
                }
                place = end + 1 + label.len();
            }
            Element::Pointer(target) => {
                push_run(&mut name, &octets[run..end])?;
                let behind = resume.unwrap_or(end + 2);
                resume = Some(behind);
                let led = follow(alloc, octets, &mut pointers.chains, segment, target);
                bound = led.0;
                segment = led.1;
                if push_kept(&mut name, &pointers.tails, segment, bound)? {
                    return Ok((name, behind, is_new));
                }
                is_new = true;
                place = segment;
                run = segment;
                len = size;
            }
        }
    }
}

/// The name that is spelled from a start on, and the index behind it.
pub(crate) fn read_name(
    alloc: Global,
    octets: &[u8],
    pointers: &mut Pointers,
    start: usize,
) -> Result<(Name, usize), DecodeError>
    requires start { start ≤ length octets.now }
    requires chains { AreChains octets.now pointers.old.chains }
    requires tails { AreKept octets.now pointers.old.tails }
    ensures ok { IfOk result (λ found. NameAt octets.now start found.0 found.1) }
    ensures within { IfOk result (λ found. (start ≤ found.1) × (found.1 ≤ length octets.now)) }
    ensures refused { IfErr result (Refuses octets.now start) }
    ensures chains { AreChains octets.now pointers.new.chains }
    ensures tails { AreKept octets.now pointers.new.tails }
{
    // Most names are spelled without a pointer.
    let run = run_end(octets, octets.len(), start, Name::MAX_LENGTH - 1);
    if let Ok(Element::End) = element_at(octets, start, octets.len(), run) {
        let mut name = Name::root(alloc);
        push_run(&mut name, &octets[start..run])?;
        return Ok((name, run + 1));
    }
    let (name, end, is_new) = spelled_name(alloc, octets, pointers, start)?;
    if is_new {
        pointers.keep(alloc, octets, start, &name);
    }
    Ok((name, end))
}
