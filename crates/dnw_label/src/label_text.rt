//! Labels in texts.
ghost use Rattle.std.specs.Prelude.{◌≤◌, All, length, take, ◌≡◌, ◌≢◌, ◌||◌, ◌&&◌, ◌==◌, ◌<◌, ◌∷◌, [], ◌⊎◌, ℕ, List, IfOk, IfErr, OnErr, MatchBool, true, false};
ghost use Rattle.std.specs.List.{list_all};
ghost use Rattle.dnw_codes.specs.Ascii.{full_stop, backslash};
ghost use Rattle.dnw_codes.specs.ProtoError.{IsMemory, IsMessage};
ghost use Rattle.dnw_label.specs.LabelRefusals.{RefusesTextLabel, RefusesLabelText};
ghost use Rattle.dnw_label.specs.LabelRefusalsLaws.{text_label_causes};
ghost use Rattle.dnw_label.specs.LabelText.{LabelText, IsTextLabel, is_label_text, starts_label, continues_label};

use crate::escape::octet_at;
use crate::label::{IntoLabel, Label};
use dnw_codes::ProtoError;
use smallvec::SmallVec;
use std::alloc::{AllocError, Global};

impl Label {
    /// A label of ASCII letters, digits, `_` and `.`, with `*` allowed at its first place and `-` at any other.
    /// Refused are other texts, and those that `from_raw_bytes` refuses.
    pub fn from_ascii(alloc: Global, text: &str) -> Result<Label, ProtoError>
        ensures ok { IfOk result (λ label. (label ≡ text.now) × IsTextLabel text.now) }
        ensures refused { IfErr result (λ e. IsMemory e ⊎ (IsTextLabel text.now → ⊥)) }
        ensures cause { IfErr result (λ e. IsMemory e ⊎ RefusesTextLabel text.now e) }
    {
        let label = Label::from_raw_bytes(alloc, text.as_bytes())?;
        check_text(label)
    }

    /// The label of a text, which is that of its ASCII form.
    pub fn from_utf8(alloc: Global, text: &str) -> Result<Label, ProtoError>
        ensures ok { IfOk result (λ label. (label ≡ text.now) × IsTextLabel text.now) }
        ensures refused { IfErr result (λ e. IsMemory e ⊎ (IsTextLabel text.now → ⊥)) }
        ensures cause { IfErr result (λ e. IsMemory e ⊎ RefusesTextLabel text.now e) }
    {
        Label::from_ascii(alloc, text)
    }
}

impl IntoLabel for &str {
    ghost octets = { λ text. text.now };

    ghost accepts = { λ text. IsTextLabel text.now };

    ghost refuses = { λ text. RefusesTextLabel text.now };

    ghost laws = { λ text. text_label_causes text.now };

    fn into_label(self, alloc: Global) -> Result<Label, ProtoError> {
        Label::from_ascii(alloc, self)
    }
}

impl IntoLabel for String {
    ghost use Rattle.std.specs.String.{string_bytes};

    ghost octets = { λ text. string_bytes text };

    ghost accepts = { λ text. IsTextLabel (string_bytes text) };

    ghost refuses = { λ text. RefusesTextLabel (string_bytes text) };

    ghost laws = { λ text. text_label_causes (string_bytes text) };

    fn into_label(self, alloc: Global) -> Result<Label, ProtoError> {
        Label::from_ascii(alloc, self.as_str())
    }
}

/// The label that a name's text begins with, and what stands behind it: nothing, or a dot and more. A backslash
/// stands before a character that is taken as it is, or before three octal digits. Refused are texts that begin
/// with no label, or with one that `Label::from_ascii` refuses.
pub fn label_at(alloc: Global, text: &[u8]) -> Result<(Label, &[u8]), ProtoError>
    ensures ok { IfOk result (λ found. LabelText text.now found.0 found.1.now × IsTextLabel found.0) }
    ensures refused { IfErr result (λ e. IsMemory e
        ⊎ ((label behind : List ℕ) → LabelText text.now label behind → IsTextLabel label → ⊥)) }
    ensures cause { IfErr result (λ e. IsMemory e ⊎ RefusesLabelText text.now e) }
{
    let (octets, behind) = label_octets(alloc, text)?;
    match text_label(octets) {
        Ok(label) => Ok((label, behind)),
        Err(refused) => Err(refused),
    }
}

// The label of these octets, if a text may have it.
fn text_label(octets: SmallVec<u8, 24>) -> Result<Label, ProtoError>
    ensures ok { IfOk result (λ label. (label ≡ octets.items) × IsTextLabel octets.items) }
    ensures refused { OnErr result (IsTextLabel octets.items → ⊥) }
    ensures cause { IfErr result (RefusesTextLabel octets.items) }
{
    let label = Label::of_octets(octets)?;
    check_text(label)
}

// The label, if a text may have it.
fn check_text(label: Label) -> Result<Label, ProtoError>
    ensures ok { IfOk result (λ own. (own ≡ label) × (is_label_text label ≡ true)) }
    ensures refused { IfErr result (λ e. IsMessage e × (is_label_text label ≡ false)) }
{
    if !is_label_text(label.as_bytes()) {
        return Err(ProtoError::Message("a label with a character that has no place in it"));
    }
    Ok(label)
}

// The octets of the label that a text begins with, and what stands behind it: nothing, or a dot and more.
fn label_octets(alloc: Global, text: &[u8]) -> Result<(SmallVec<u8, 24>, &[u8]), ProtoError>
    ensures ok { IfOk result (λ found. LabelText text.now found.0.items found.1.now) }
    ensures refused { IfErr result (λ e. IsMemory e
        ⊎ ((label behind : List ℕ) → LabelText text.now label behind → ⊥)) }
    ensures cause { IfErr result (λ e. IsMemory e ⊎ IsMessage e) }
{
    // Most labels are plain, and copied at once.
    let (plain, behind_plain) = text.split_at(plain_len(text));
    let mut octets = match SmallVec::from_slice(alloc, plain) {
        Ok(octets) => octets,
        Err(refused) => return Err(ProtoError::Memory(refused)),
    };
    let mut rest = behind_plain;
    'octets: while !ends_label(rest) {
        let Some((octet, behind)) = octet_at(rest) else {
            return Err(ProtoError::Message("a backslash that begins no octet"));
        };
        match octets.push(octet) {
            Ok(()) => rest = behind,
            Err(_) => return Err(ProtoError::Memory(AllocError)),
        }
    }
    Ok((octets, rest))
}

// How many characters a text begins with that stand for themselves: neither a dot nor a backslash.
fn plain_len(text: &[u8]) -> usize
    ensures within { result ≤ length text.now }
    ensures plain { All (λ c. (c ≢ full_stop) × (c ≢ backslash)) (take result text.now) }
{
    let mut len = 0;
    'characters: while len < text.len() && text[len] != b'.' && text[len] != b'\\' {
        len += 1;
    }
    len
}

// Whether a text is at its end or at a dot.
fn ends_label(text: &[u8]) -> bool
    ensures { MatchBool result ((text.now ≡ []) ⊎ ((rest : List ℕ) × (text.now ≡ full_stop ∷ rest)))
        ((c : ℕ) × (rest : List ℕ) × (text.now ≡ c ∷ rest) × (c ≢ full_stop)) }
{
    match text.split_first() {
        Some((first, _)) => *first == b'.',
        None => true,
    }
}

// Whether octets are those of a label that a text may have.
fn is_label_text(octets: &[u8]) -> bool
    ensures { result ≡ is_label_text octets.now }
{
    match octets.split_first() {
        Some((first, rest)) => starts_label(*first) && continue_label(rest),
        None => false,
    }
}

fn continue_label(octets: &[u8]) -> bool
    ensures { result ≡ list_all continues_label octets.now }
{
    octets.iter().all(|c| continues_label(*c))
}

fn starts_label(c: u8) -> bool
    ensures { result ≡ starts_label c }
{
    c.is_ascii_alphanumeric() || c == b'_' || c == b'.' || c == b'*'
}

fn continues_label(c: u8) -> bool
    ensures { result ≡ continues_label c }
{
    c.is_ascii_alphanumeric() || c == b'_' || c == b'.' || c == b'-'
}
