//! Values of issue and issuewild properties (RFC 8659 4.2).
ghost use Rattle.std.specs.Prelude.{◌≡◌, ◌++◌, ◌∷◌, [], ◌==◌, ◌⊎◌, List, Option, Some, None, Ok, Err, IfOk, IfErr, OnOk, MatchOption, not, true, length, reverse, slice_index, ◌-◌, ◌&&◌, ◌||◌, MatchResult};
ghost use Rattle.std.specs.Char.{is_ascii_alphanumeric};
ghost use Rattle.std.specs.List.{list_all, slice_split};
ghost use Rattle.std.specs.String.{string_bytes};
ghost use Rattle.std.specs.Str.{IsUtf8};
ghost use Rattle.drd_words.specs.dnw_codes.ProtoError.{IsMemory};
ghost use Rattle.drd_words.specs.dnw_name.DomainName.{DomainName};
ghost use Rattle.drd_words.specs.Words.{EachWord};
ghost use Rattle.drd_words.specs.dnw_codes.Ascii.{hyphen, is_blank, semicolon};
ghost use Rattle.drd_caa.specs.Issue.{Parameter, parameter, behind_blanks, trim, is_key, is_value, IsParameter, AreParameters, IsIssuer, IsIssueValue, issue_value, CanIssue, AreFit};

use crate::key_value::KeyValue;
use drd_words::{Name, ProtoError};
use std::alloc::{AllocError, Global};
use std::str;

/// The issuer that the value of an issue or issuewild property names, and its parameters: the text of a name, or nothing
/// where nobody may issue, and behind semicolons keys and values, with blanks around each (RFC 8659 4.2). Refused is
/// every other value. Of a value that `CAA::new_issue` made this is its name and its parameters, where the keys and
/// values fit the grammar, and the name has a text that isn't empty, has no semicolon and reads back.
pub fn read_issuer(
    alloc: Global,
    octets: &[u8],
) -> Result<(Option<Name>, Vec<KeyValue>), ProtoError>
    ensures ok { IfOk result (λ found. IsIssueValue octets.now found.0 found.1.items) }
    ensures refused { IfErr result (λ e. IsMemory e
        ⊎ ((issuer : Option DomainName) (ps : List Parameter) → IsIssueValue octets.now issuer ps → ⊥)) }
    ensures back { (issuer : Option DomainName) (ps : List Parameter) → octets.now ≡ issue_value issuer ps → CanIssue issuer → AreFit ps
        → MatchResult result (λ found. (found.0 ≡ issuer) × (found.1.items ≡ ps)) (λ e. IsMemory e) }
{
    issue_of(alloc, octets)
}

// What such a value says.
fn issue_of(alloc: Global, octets: &[u8]) -> Result<(Option<Name>, Vec<KeyValue>), ProtoError>
    ensures ok { IfOk result (λ found. IsIssueValue octets.now found.0 found.1.items) }
    ensures refused { IfErr result (λ e. IsMemory e
        ⊎ ((issuer : Option DomainName) (ps : List Parameter) → IsIssueValue octets.now issuer ps → ⊥)) }
{
    let (front, later) = cut(octets, b';');
    let issuer = match issuer_of(alloc, front) {
        Ok(issuer) => issuer,
        Err(refused) => return Err(refused),
    };
    match later {
        Some(parameters) => match parameters_of(alloc, parameters) {
            Ok(parameters) => Ok((issuer, parameters)),
            Err(refused) => Err(refused),
        },
        None => Ok((issuer, Vec::new(alloc))),
    }
}

// The octets before the first of these octets, and those behind it, if there is one.
fn cut(octets: &[u8], mark: u8) -> (&[u8], Option<&[u8]>)
    ensures front { list_all (λ c. not (c == mark)) result.0.now ≡ true }
    ensures parts { MatchOption result.1 (octets.now ≡ result.0.now) (λ later. octets.now ≡ result.0.now ++ mark ∷ later.now) }
{
    match octets.iter().position(|octet| *octet == mark) {
        Some(place) => (&octets[..place], Some(&octets[place + 1..])),
        None => (octets, None),
    }
}

// Without the blanks at both ends.
fn trimmed(octets: &[u8]) -> &[u8]
    ensures { result.now ≡ trim octets.now }
{
    trim_end(trim_start(octets))
}

fn trim_start(octets: &[u8]) -> &[u8]
    ensures { result.now ≡ behind_blanks octets.now }
{
    let mut rest = octets;
    'blanks: while let Some((first, behind)) = rest.split_first() {
        if !is_blank(*first) {
            break;
        }
        rest = behind;
    }
    rest
}

fn trim_end(octets: &[u8]) -> &[u8]
    ensures { result.now ≡ reverse (behind_blanks (reverse octets.now)) }
{
    let mut rest = octets;
    'blanks: while let Some((last, front)) = rest.split_last() {
        if !is_blank(*last) {
            break;
        }
        rest = front;
    }
    rest
}

fn is_blank(octet: u8) -> bool
    ensures { result ≡ is_blank octet }
{
    octet == b' ' || octet == b'\t'
}

// The name of an issuer.
fn issuer_of(alloc: Global, octets: &[u8]) -> Result<Option<Name>, ProtoError>
    ensures ok { IfOk result (λ issuer. IsIssuer issuer octets.now) }
    ensures refused { IfErr result (λ e. IsMemory e ⊎ ((issuer : Option DomainName) → IsIssuer issuer octets.now → ⊥)) }
{
    let text = trimmed(octets);
    if text.is_empty() {
        return Ok(None);
    }
    match Name::from_ascii_bytes(alloc, text) {
        Ok(name) => Ok(Some(name)),
        Err(refused) => Err(refused),
    }
}

// The parameters that stand behind the issuer's semicolon.
fn parameters_of(alloc: Global, octets: &[u8]) -> Result<Vec<KeyValue>, ProtoError>
    ensures ok { IfOk result (λ ps. AreParameters (slice_split (λ c. c == semicolon) octets.now) ps.items) }
    ensures refused { IfErr result (λ e. IsMemory e
        ⊎ ((ps : List Parameter) → AreParameters (slice_split (λ c. c == semicolon) octets.now) ps → ⊥)) }
{
    if trimmed(octets).is_empty() {
        return Ok(Vec::new(alloc));
    }
    each_parameter(alloc, octets)
}

// A parameter between each two semicolons.
fn each_parameter(alloc: Global, octets: &[u8]) -> Result<Vec<KeyValue>, ProtoError>
    ensures ok { IfOk result (λ ps. EachWord IsParameter ps.items (slice_split (λ c. c == semicolon) octets.now)) }
    ensures refused { IfErr result (λ e. IsMemory e
        ⊎ ((ps : List Parameter) → EachWord IsParameter ps (slice_split (λ c. c == semicolon) octets.now) → ⊥)) }
{
    let mut parameters = Vec::new(alloc);
    let mut rest = octets;
    'parameters: loop {
        let (part, later) = cut(rest, b';');
        let one = match parameter_of(alloc, part) {
            Ok(one) => one,
            Err(refused) => return Err(refused),
        };
        match push(&mut parameters, one) {
            Ok(()) => {}
            Err(refused) => return Err(refused),
        }
        let Some(behind) = later else {
            return Ok(parameters);
        };
        rest = behind;
    }
}

// Puts a parameter behind others.
fn push(parameters: &mut Vec<KeyValue>, one: KeyValue) -> Result<(), ProtoError>
    ensures pushed { OnOk result (parameters.new.items ≡ parameters.old.items ++ one ∷ []) }
    ensures refused { IfErr result (λ e. IsMemory e) }
{
    match parameters.push(one) {
        Ok(()) => Ok(()),
        Err(_) => Err(ProtoError::Memory(AllocError)),
    }
}

// One parameter.
fn parameter_of(alloc: Global, octets: &[u8]) -> Result<KeyValue, ProtoError>
    ensures ok { IfOk result (λ p. IsParameter p octets.now) }
    ensures refused { IfErr result (λ e. IsMemory e ⊎ ((p : Parameter) → IsParameter p octets.now → ⊥)) }
{
    let (front, behind) = cut(octets, b'=');
    let Some(behind) = behind else {
        return Err(ProtoError::Message("a parameter without `=`"));
    };
    let (key, value) = (trimmed(front), trimmed(behind));
    if !is_key(key) {
        return Err(ProtoError::Message("a key is letters, digits and hyphens inside it"));
    }
    if !is_value(value) {
        return Err(ProtoError::Message("a value is printed characters without `;`"));
    }
    key_value(alloc, key, value)
}

fn is_key(key: &[u8]) -> bool
    ensures { result ≡ is_key key.now }
{
    has_key_ends(key) && has_key_octets(key)
}

fn has_key_octets(key: &[u8]) -> bool
    ensures { result ≡ list_all (λ c. is_ascii_alphanumeric c || c == hyphen) key.now }
{
    key.iter()
        .all(|octet| octet.is_ascii_alphanumeric() || *octet == b'-')
}

// Whether letters or digits stand at both ends.
fn has_key_ends(key: &[u8]) -> bool
    ensures { result ≡ (is_ascii_alphanumeric (slice_index key.now 0) && is_ascii_alphanumeric (slice_index key.now (length key.now - 1))) }
{
    if key.is_empty() {
        return false;
    }
    key[0].is_ascii_alphanumeric() && key[key.len() - 1].is_ascii_alphanumeric()
}

fn is_value(value: &[u8]) -> bool
    ensures { result ≡ is_value value.now }
{
    value
        .iter()
        .all(|octet| 33 <= *octet && *octet <= 126 && *octet != b';')
}

// The texts of a key and a value.
fn key_value(alloc: Global, key: &[u8], value: &[u8]) -> Result<KeyValue, ProtoError>
    requires key { is_key key.now ≡ true }
    requires value { is_value value.now ≡ true }
    ensures ok { IfOk result (λ p. p ≡ parameter key.now value.now) }
    ensures refused { IfErr result (λ e. IsMemory e) }
{
    let key = match text_of(alloc, key) {
        Ok(text) => text,
        Err(refused) => return Err(refused),
    };
    let value = match text_of(alloc, value) {
        Ok(text) => text,
        Err(refused) => return Err(refused),
    };
    Ok(KeyValue::new(key, value))
}

/// The text that octets are.
pub(crate) fn text_of(alloc: Global, octets: &[u8]) -> Result<String, ProtoError>
    ensures ok { IfOk result (λ text. string_bytes text ≡ octets.now) }
    ensures refused { IfErr result (λ e. IsMemory e ⊎ ((e ≡ ProtoError.Utf8) × (IsUtf8 octets.now → ⊥))) }
{
    match str::from_utf8(octets) {
        Ok(text) => match String::from_str(alloc, text) {
            Ok(text) => Ok(text),
            Err(refused) => Err(ProtoError::Memory(refused)),
        },
        Err(_) => Err(ProtoError::Utf8),
    }
}
