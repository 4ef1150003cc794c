//! Names in texts.
ghost use Rattle.std.specs.Prelude.{◌≡◌, ◌⊎◌, ℕ, Bool, List, IfOk, IfErr, MatchResult};
ghost use Rattle.std.specs.Option.{option_copied};
ghost use Rattle.dnw_net.specs.dnw_codes.ProtoError.{IsMemory};
ghost use Rattle.dnw_net.specs.dnw_codes.declared.error.ProtoError.{ProtoError as WireError};
ghost use Rattle.dnw_net.specs.dnw_label.LabelRefusals.{AreAlike};
ghost use Rattle.dnw_name.specs.DomainName.{DomainName, domain_name, IsDomainName};
ghost use Rattle.dnw_name.specs.NameRefusals.{RefusesNameText, RefusesCompleted, RefusesLabels};
ghost use Rattle.dnw_name.specs.NameText.{complete_name, LabelsText, NameText};

use crate::lower_name::LowerName;
use crate::name::Name;
use dnw_net::{ProtoError, label_at};
use std::alloc::Global;

impl Name {
    /// The name of a text (RFC 1035 5.1): labels between dots, and a dot at the end of a fully qualified name.
    /// A backslash stands before a character that is taken as it is, or before three octal digits. Labels are
    /// those of `Label::from_ascii`. Refused is every other text, by the error of its first label that is refused, and
    /// a name above 255 octets, by `DomainNameTooLong` and the octets up to the label that passes them.
    pub fn from_ascii(alloc: Global, text: &str) -> Result<Name, ProtoError>
        ensures ok { IfOk result (λ name. NameText text.now name) }
        ensures refused { IfErr result (λ e. IsMemory e ⊎ ((name : DomainName) → NameText text.now name → ⊥)) }
        ensures cause { IfErr result (λ e. IsMemory e ⊎ RefusesNameText text.now e) }
        ensures stands { (e : WireError) → RefusesNameText text.now e
            → MatchResult result (λ name. ⊥) (λ given. IsMemory given ⊎ AreAlike e given) }
    {
        Name::from_ascii_bytes(alloc, text.as_bytes())
    }

    /// The name of a text in octets, by `from_ascii`.
    pub fn from_ascii_bytes(alloc: Global, text: &[u8]) -> Result<Name, ProtoError>
        ensures ok { IfOk result (λ name. NameText text.now name) }
        ensures refused { IfErr result (λ e. IsMemory e ⊎ ((name : DomainName) → NameText text.now name → ⊥)) }
        ensures cause { IfErr result (λ e. IsMemory e ⊎ RefusesNameText text.now e) }
        ensures stands { (e : WireError) → RefusesNameText text.now e
            → MatchResult result (λ name. ⊥) (λ given. IsMemory given ⊎ AreAlike e given) }
    {
        if text.is_empty() {
            return Ok(Name::new(alloc));
        }
        if text == b".".as_slice() {
            return Ok(Name::root(alloc));
        }
        name_of_labels(alloc, text)
    }

    /// The name of a text by `from_ascii`; one that is relative and has labels is completed by an origin
    /// (RFC 1035 5.1). Refused is what `from_ascii` refuses, and a completed name above 255 octets.
    pub fn parse(alloc: Global, local: &str, origin: Option<&Name>) -> Result<Name, ProtoError>
        ensures ok { IfOk result (λ name. (read : DomainName) × NameText local.now read
            × (name ≡ complete_name read (option_copied origin.entry))) }
        ensures refused { IfErr result (λ e. IsMemory e
            ⊎ ((read : DomainName) → NameText local.now read → IsDomainName (complete_name read (option_copied origin.entry)) → ⊥)) }
        ensures cause { IfErr result (λ e. IsMemory e ⊎ RefusesCompleted (option_copied origin.entry) local.now e) }
        ensures stands { (e : WireError) → RefusesCompleted (option_copied origin.entry) local.now e
            → MatchResult result (λ name. ⊥) (λ given. IsMemory given ⊎ AreAlike e given) }
    {
        let name = match Name::from_ascii(alloc, local) {
            Ok(name) => name,
            Err(refused) => return Err(refused),
        };
        match origin {
            Some(origin) if !name.is_fqdn() && name.iter().len() > 0 => name.append_domain(origin),
            _ => Ok(name),
        }
    }

    /// The name of a text, which is that of its ASCII form.
    pub fn from_utf8(alloc: Global, text: &str) -> Result<Name, ProtoError>
        ensures ok { IfOk result (λ name. NameText text.now name) }
        ensures refused { IfErr result (λ e. IsMemory e ⊎ ((name : DomainName) → NameText text.now name → ⊥)) }
        ensures cause { IfErr result (λ e. IsMemory e ⊎ RefusesNameText text.now e) }
        ensures stands { (e : WireError) → RefusesNameText text.now e
            → MatchResult result (λ name. ⊥) (λ given. IsMemory given ⊎ AreAlike e given) }
    {
        Name::from_str(alloc, text)
    }

    /// The name of a text by `from_ascii`.
    pub fn from_str(alloc: Global, text: &str) -> Result<Name, ProtoError>
        ensures ok { IfOk result (λ name. NameText text.now name) }
        ensures refused { IfErr result (λ e. IsMemory e ⊎ ((name : DomainName) → NameText text.now name → ⊥)) }
        ensures cause { IfErr result (λ e. IsMemory e ⊎ RefusesNameText text.now e) }
        ensures stands { (e : WireError) → RefusesNameText text.now e
            → MatchResult result (λ name. ⊥) (λ given. IsMemory given ⊎ AreAlike e given) }
    {
        Name::from_ascii(alloc, text)
    }

    /// The name of a text, which is that of its ASCII form.
    pub fn from_str_relaxed(alloc: Global, text: &str) -> Result<Name, ProtoError>
        ensures ok { IfOk result (λ name. NameText text.now name) }
        ensures refused { IfErr result (λ e. IsMemory e ⊎ ((name : DomainName) → NameText text.now name → ⊥)) }
        ensures cause { IfErr result (λ e. IsMemory e ⊎ RefusesNameText text.now e) }
        ensures stands { (e : WireError) → RefusesNameText text.now e
            → MatchResult result (λ name. ⊥) (λ given. IsMemory given ⊎ AreAlike e given) }
    {
        Name::from_utf8(alloc, text)
    }
}

/// What can be made a name: a text, a name.
pub trait IntoName: Sized {
    ghost reads: { Self → DomainName → Type 0 };

    ghost refuses: { Self → WireError → Type 0 };

    /// The name, where this is one; else the error says why.
    fn into_name(self, alloc: Global) -> Result<Name, ProtoError>
        ensures ok { IfOk result (λ name. reads self name) }
        ensures refused { IfErr result (λ e. IsMemory e ⊎ ((name : DomainName) → reads self name → ⊥)) }
        ensures cause { IfErr result (λ e. IsMemory e ⊎ refuses self e) }

        // Where a cause stands, the error has it, or memory was refused.
        ensures stands { (e : WireError) → refuses self e
            → MatchResult result (λ name. ⊥) (λ given. IsMemory given ⊎ AreAlike e given) };
}

impl IntoName for Name {
    ghost reads = { λ own name. name ≡ own };

    ghost refuses = { λ _ _. ⊥ };

    fn into_name(self, _alloc: Global) -> Result<Name, ProtoError> {
        Ok(self)
    }
}

impl IntoName for &Name {
    ghost reads = { λ other name. name ≡ other.now };

    ghost refuses = { λ _ _. ⊥ };

    fn into_name(self, _alloc: Global) -> Result<Name, ProtoError> {
        match self.clone() {
            Ok(name) => Ok(name),
            Err(refused) => Err(ProtoError::Memory(refused)),
        }
    }
}

impl IntoName for LowerName {
    ghost reads = { λ lower name. name ≡ lower };

    ghost refuses = { λ _ _. ⊥ };

    fn into_name(self, _alloc: Global) -> Result<Name, ProtoError> {
        Ok(Name::from(self))
    }
}

impl IntoName for &str {
    ghost reads = { λ text name. NameText text.now name };

    ghost refuses = { λ text. RefusesNameText text.now };

    fn into_name(self, alloc: Global) -> Result<Name, ProtoError> {
        Name::from_ascii(alloc, self)
    }
}

impl IntoName for String {
    ghost use Rattle.std.specs.String.{string_bytes};

    ghost reads = { λ text name. NameText (string_bytes text) name };

    ghost refuses = { λ text. RefusesNameText (string_bytes text) };

    fn into_name(self, alloc: Global) -> Result<Name, ProtoError> {
        Name::from_ascii(alloc, self.as_str())
    }
}

impl IntoName for &String {
    ghost use Rattle.std.specs.String.{string_bytes};

    ghost reads = { λ text name. NameText (string_bytes text.now) name };

    ghost refuses = { λ text. RefusesNameText (string_bytes text.now) };

    fn into_name(self, alloc: Global) -> Result<Name, ProtoError> {
        self.as_str().into_name(alloc)
    }
}

// The name of a text that has labels.
fn name_of_labels(alloc: Global, text: &[u8]) -> Result<Name, ProtoError>
    ensures ok { IfOk result (λ name. LabelsText text.now name.fqdn name.labels × IsDomainName name) }
    ensures refused { IfErr result (λ e. IsMemory e
        ⊎ ((fqdn : Bool) (labels : List (List ℕ)) → LabelsText text.now fqdn labels → IsDomainName (domain_name fqdn labels) → ⊥)) }
    ensures cause { IfErr result (λ e. IsMemory e ⊎ RefusesLabels text.now e) }
{
    let mut name = Name::new(alloc);
    let mut rest = text;
    'labels: loop {
        let (label, behind) = match label_at(alloc, rest) {
            Ok(found) => found,
            Err(refused) => return Err(refused),
        };
        match name.append(label) {
            Ok(()) => {}
            Err(refused) => return Err(refused),
        }
        let Some((_, later)) = behind.split_first() else {
            return Ok(name);
        };
        if later.is_empty() {
            let mut absolute = name;
            absolute.set_fqdn(true);
            return Ok(absolute);
        }
        rest = later;
    }
}
