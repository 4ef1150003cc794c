//! Values of properties, made and read (RFC 8659 4.2 to 4.4).
ghost use Rattle.std.specs.Prelude.{◌≡◌, ◌++◌, ◌⊎◌, ◌↔◌, List, Option, Ok, Err, IfOk, IfErr, OnOk, OnErr, IsTrue, MatchResult};
ghost use Rattle.std.specs.List.{flat_map};
ghost use lib.Chars.{codes};
ghost use Rattle.std.specs.Option.{option_copied};
ghost use Rattle.std.specs.Str.{IsUtf8};
ghost use Rattle.std.specs.String.{string_bytes};
ghost use Rattle.drd_words.specs.dnw_codes.ProtoError.{IsMemory};
ghost use Rattle.drd_words.specs.dnw_name.DomainName.{DomainName};
ghost use Rattle.drd_caa.specs.Issue.{Parameter, IsIssueValue, issue_value, parameter_print, CanIssue, AreFit};
ghost use Rattle.drd_caa.specs.Tags.{IsIssueTag, IsIodefTag};
ghost use Rattle.drd_caa.specs.Values.{IsProperty, HasValue};

use crate::caa::CAA;
use crate::issuer::{read_issuer, text_of};
use crate::key_value::KeyValue;
use drd_words::{Name, ProtoError};
use std::alloc::{AllocError, Global};

impl CAA {
    /// The property that lets an issuer issue certificates for the domain, or nobody where there is no name
    /// (RFC 8659 4.2). It fails where memory is refused.
    pub fn new_issue(
        alloc: Global,
        issuer_critical: bool,
        name: Option<Name>,
        options: Vec<KeyValue>,
    ) -> Result<CAA, AllocError>
        ensures { IfOk result (λ caa. IsProperty caa issuer_critical (codes "issue") (issue_value name options.items)) }
    {
        let value = issue_value(alloc, name.as_ref(), &options)?;
        property(alloc, issuer_critical, "issue", value)
    }

    /// The property that lets an issuer issue certificates for wildcards of the domain, or nobody where there is no
    /// name (RFC 8659 4.3). It fails where memory is refused.
    pub fn new_issuewild(
        alloc: Global,
        issuer_critical: bool,
        name: Option<Name>,
        options: Vec<KeyValue>,
    ) -> Result<CAA, AllocError>
        ensures { IfOk result (λ caa. IsProperty caa issuer_critical (codes "issuewild") (issue_value name options.items)) }
    {
        let value = issue_value(alloc, name.as_ref(), &options)?;
        property(alloc, issuer_critical, "issuewild", value)
    }

    /// The property that says where requests that break the domain's policy are reported to: the text of a URL
    /// (RFC 8659 4.4). It fails where memory is refused.
    pub fn new_iodef(alloc: Global, issuer_critical: bool, url: String) -> Result<CAA, AllocError>
        ensures { IfOk result (λ caa. IsProperty caa issuer_critical (codes "iodef") (string_bytes url)) }
    {
        property(alloc, issuer_critical, "iodef", url.into_bytes())
    }

    /// Names another issuer, with its parameters. Refused is a property of another tag than issue and issuewild, in
    /// any case, which stays as it was, also where memory is refused.
    pub fn set_issuer_value(
        &mut self,
        name: Option<&Name>,
        key_values: &[KeyValue],
    ) -> Result<(), ProtoError>
        ensures tag { OnOk result (IsIssueTag self.old.tag.items) }
        ensures ok { OnOk result (HasValue self.old self.new (issue_value (option_copied name.entry) key_values.now)) }
        ensures cause { IfErr result (λ e. IsMemory e ⊎ (IsIssueTag self.old.tag.items → ⊥)) }
        ensures err { OnErr result (self.new ≡ self.old) }
    {
        if !is_issue_tag(&self.tag) {
            return Err(NO_ISSUE);
        }
        match issue_value(*self.value.allocator(), name, key_values) {
            Ok(value) => {
                self.value = value;
                Ok(())
            }
            Err(refused) => Err(ProtoError::Memory(refused)),
        }
    }

    /// Reports to another URL. Refused is a property of another tag than iodef, in any case, which stays as it was,
    /// also where memory is refused.
    pub fn set_iodef_value(&mut self, url: &str) -> Result<(), ProtoError>
        ensures tag { OnOk result (IsIodefTag self.old.tag.items) }
        ensures ok { OnOk result (HasValue self.old self.new url.now) }
        ensures cause { IfErr result (λ e. IsMemory e ⊎ (IsIodefTag self.old.tag.items → ⊥)) }
        ensures err { OnErr result (self.new ≡ self.old) }
    {
        if !is_iodef_tag(&self.tag) {
            return Err(NO_IODEF);
        }
        match url.as_bytes().to_vec(*self.value.allocator()) {
            Ok(value) => {
                self.value = value;
                Ok(())
            }
            Err(refused) => Err(ProtoError::Memory(refused)),
        }
    }

    /// The issuer and its parameters, by `read_issuer`. Refused is a property of another tag than issue and
    /// issuewild, in any case, and another value. Where `new_issue`, `new_issuewild` or `set_issuer_value` wrote the
    /// value, these are its name and its parameters, as `read_issuer` says.
    pub fn value_as_issue(&self) -> Result<(Option<Name>, Vec<KeyValue>), ProtoError>
        ensures tag { OnOk result (IsIssueTag self.now.tag.items) }
        ensures ok { IfOk result (λ found. IsIssueValue self.now.value.items found.0 found.1.items) }
        ensures refused { IfErr result (λ e. IsMemory e ⊎ (IsIssueTag self.now.tag.items
            → (issuer : Option DomainName) (ps : List Parameter) → IsIssueValue self.now.value.items issuer ps → ⊥)) }
        ensures back { (issuer : Option DomainName) (ps : List Parameter) → IsIssueTag self.now.tag.items
            → self.now.value.items ≡ issue_value issuer ps → CanIssue issuer → AreFit ps
            → MatchResult result (λ found. (found.0 ≡ issuer) × (found.1.items ≡ ps)) (λ e. IsMemory e) }
    {
        if !is_issue_tag(&self.tag) {
            return Err(NO_ISSUE);
        }
        read_issuer(*self.value.allocator(), &self.value)
    }

    /// The text of the URL, by `read_iodef`. Refused is a property of another tag than iodef, in any case, and a value
    /// that is no UTF-8.
    pub fn value_as_iodef(&self) -> Result<String, ProtoError>
        ensures tag { OnOk result (IsIodefTag self.now.tag.items) }
        ensures ok { IfOk result (λ url. string_bytes url ≡ self.now.value.items) }
        ensures refused { IfErr result (λ e. IsMemory e ⊎ (IsIodefTag self.now.tag.items → IsUtf8 self.now.value.items → ⊥)) }
    {
        if !is_iodef_tag(&self.tag) {
            return Err(NO_IODEF);
        }
        read_iodef(*self.value.allocator(), &self.value)
    }
}

const NO_ISSUE: ProtoError = ProtoError::Message("the property's tag is not issue or issuewild");

const NO_IODEF: ProtoError = ProtoError::Message("the property's tag is not iodef");

/// The text of the URL that the value of an iodef property is (RFC 8659 4.4). Refused are octets that are no UTF-8.
pub fn read_iodef(alloc: Global, octets: &[u8]) -> Result<String, ProtoError>
    ensures ok { IfOk result (λ url. string_bytes url ≡ octets.now) }
    ensures refused { IfErr result (λ e. IsMemory e ⊎ ((e ≡ ProtoError.Utf8) × (IsUtf8 octets.now → ⊥))) }
{
    text_of(alloc, octets)
}

fn is_issue_tag(tag: &[u8]) -> bool
    ensures { IsTrue result ↔ IsIssueTag tag.now }
{
    tag.eq_ignore_ascii_case(b"issue".as_slice())
        || tag.eq_ignore_ascii_case(b"issuewild".as_slice())
}

fn is_iodef_tag(tag: &[u8]) -> bool
    ensures { IsTrue result ↔ IsIodefTag tag.now }
{
    tag.eq_ignore_ascii_case(b"iodef".as_slice())
}

// A property without reserved flags.
fn property(
    alloc: Global,
    issuer_critical: bool,
    tag: &str,
    value: Vec<u8>,
) -> Result<CAA, AllocError>
    ensures { IfOk result (λ caa. IsProperty caa issuer_critical tag.now value.items) }
{
    let tag = Vec::from_slice(alloc, tag.as_bytes())?;
    Ok(CAA::new(issuer_critical, 0, tag, value))
}

// The value that names an issuer.
fn issue_value(
    alloc: Global,
    name: Option<&Name>,
    options: &[KeyValue],
) -> Result<Vec<u8>, AllocError>
    ensures { IfOk result (λ octets. octets.items ≡ issue_value (option_copied name.entry) options.now) }
{
    let start = match name {
        Some(name) => name.to_ascii(alloc)?.into_bytes(),
        None if options.is_empty() => return Vec::from_slice(alloc, b";".as_slice()),
        None => Vec::new(alloc),
    };
    with_parameters(start, options)
}

fn with_parameters(start: Vec<u8>, parameters: &[KeyValue]) -> Result<Vec<u8>, AllocError>
    ensures { IfOk result (λ octets. octets.items ≡ start.items ++ flat_map parameter_print parameters.now) }
{
    let mut octets = start;
    'parameters: for parameter in parameters {
        push_parameter(&mut octets, parameter)?;
    }
    Ok(octets)
}

fn push_parameter(octets: &mut Vec<u8>, parameter: &KeyValue) -> Result<(), AllocError>
    ensures { OnOk result (octets.new.items ≡ octets.old.items ++ parameter_print parameter.now) }
{
    octets.extend_from_slice(b"; ".as_slice())?;
    octets.extend_from_slice(parameter.key().as_bytes())?;
    octets.push(b'=')?;
    octets.extend_from_slice(parameter.value().as_bytes())
}
