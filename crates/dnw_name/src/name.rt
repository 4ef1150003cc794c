//! Names.
ghost use Rattle.std.specs.Prelude.{◌≡◌, ◌+◌, ◌-◌, ◌<◌, ◌&&◌, ◌==◌, ◌∷◌, [], ◌++◌, drop, true, false, length, IfOk, IfErr, IsErrOf, OnOk, OnErr, ◌⊎◌, ◌≤◌, ℕ, List, All};
ghost use Rattle.dnw_net.specs.dnw_codes.ProtoError.{IsMemory};
ghost use Rattle.dnw_net.specs.dnw_codes.declared.error.DecodeError.TheVariants.{DomainNameTooLong, Memory};
ghost use Rattle.dnw_net.specs.dnw_label.Label.{IsLabel};
ghost use Rattle.dnw_net.specs.dnw_label.Labels.{label_octets};
ghost use Rattle.dnw_name.specs.DomainName.{DomainName, domain_name, IsDomainName, labels_len, num_labels, name_len, too_long, lowercase_name, wildcard_of, is_at_or_below, is_wildcard, localhost};
ghost use Rattle.dnw_name.specs.NameRefusals.{RefusesOctets};

mod order;

use dnw_net::{DecodeError, IntoLabel, Label, LabelIter, Labels, ProtoError};
use std::alloc::{AllocError, Global};
use std::marker::Model;

/// A domain name: its labels, and whether it ends at the root (RFC 1035 3.1).
///
/// A contract sees it as a `DomainName`: a flag and the labels from the left. Names are equal, ordered and
/// hashed without regard to the case of ASCII letters (RFC 4034 6.1), a relative name before all that are
/// fully qualified.
#[derive(Drop)]
pub struct Name {
    is_fqdn: bool,
    labels: Labels,
}

impl Model for Name {
    ghost use Rattle.dnw_name.specs.DomainName.{DomainName, domain_name, IsDomainName};

    ghost Value = { DomainName };

    ghost view = { λ name. domain_name name.is_fqdn name.labels };

    ghost invariant = { λ name. IsDomainName (domain_name name.is_fqdn name.labels) };
}

impl Name {
    /// The most octets of a name, with those of the lengths and of the end (RFC 1035 2.3.4).
    pub const MAX_LENGTH: usize = 255;

    /// The relative name without labels.
    pub fn new(alloc: Global) -> Name
        ensures { result ≡ domain_name false [] }
    {
        Name {
            is_fqdn: false,
            labels: Labels::new(alloc),
        }
    }

    /// The root.
    pub fn root(alloc: Global) -> Name
        ensures { result ≡ domain_name true [] }
    {
        Name {
            is_fqdn: true,
            labels: Labels::new(alloc),
        }
    }

    /// Whether this is the root.
    pub fn is_root(&self) -> bool
        ensures { result ≡ (self.now.fqdn && (length self.now.labels == 0)) }
    {
        self.is_fqdn && self.labels.is_empty()
    }

    /// Whether the name ends at the root.
    pub fn is_fqdn(&self) -> bool
        ensures { result ≡ self.now.fqdn }
    {
        self.is_fqdn
    }

    /// Says whether the name ends at the root.
    pub fn set_fqdn(&mut self, is_fqdn: bool)
        ensures { self.new ≡ domain_name is_fqdn self.old.labels }
    {
        self.is_fqdn = is_fqdn;
    }

    /// The number of labels, without that of a wildcard.
    pub fn num_labels(&self) -> u8
        ensures value { result ≡ num_labels self.now }
        ensures name { IsDomainName self.now }
    {
        let labels = self.labels.len() as u8;
        if self.is_wildcard() {
            labels - 1
        } else {
            labels
        }
    }

    /// The octets of the labels with those of their lengths, and 1 where there is no label.
    pub fn len(&self) -> usize
        ensures value { result ≡ name_len self.now }
        ensures name { IsDomainName self.now }
    {
        if self.labels.is_empty() {
            1
        } else {
            self.labels.as_octets().len()
        }
    }

    /// The octets of the labels, each behind the one of its length (RFC 1035 3.1), without those of the end.
    pub fn as_octets(&self) -> &[u8]
        ensures octets { result.now ≡ label_octets self.now.labels }
        ensures name { IsDomainName self.now }
    {
        self.labels.as_octets()
    }

    /// Whether `len` is 0, which it never is.
    pub fn is_empty(&self) -> bool
        ensures { result ≡ false }
    {
        false
    }

    /// Whether the first label is `*` (RFC 4592 2.1.1).
    pub fn is_wildcard(&self) -> bool
        ensures { result ≡ is_wildcard self.now }
    {
        match self.iter().next() {
            Some(label) => label == b"*".as_slice(),
            None => false,
        }
    }

    /// Whether this is `localhost.` or a name below it (RFC 6761 6.3), flags aside.
    pub fn is_localhost(&self) -> bool
        ensures { result ≡ is_at_or_below self.now localhost }
    {
        match self.iter().next_back() {
            Some(label) => label.eq_ignore_ascii_case(b"localhost"),
            None => false,
        }
    }

    /// The name without its first label; a name without labels stays.
    pub fn base_name(&self) -> Result<Name, AllocError>
        ensures { IfOk result (λ name. name ≡ domain_name self.now.fqdn (drop 1 self.now.labels)) }
    {
        self.trim_to(self.labels.len().saturating_sub(1))
    }

    /// The name of the last labels, as many as are asked for or as there are. It keeps the flag.
    pub fn trim_to(&self, num_labels: usize) -> Result<Name, AllocError>
        ensures { IfOk result (λ name. name
            ≡ domain_name self.now.fqdn (drop (length self.now.labels - num_labels) self.now.labels)) }
    {
        let start = self.labels.len().saturating_sub(num_labels);
        let labels = Labels::of_iter(*self.labels.allocator(), &self.iter().behind(start))?;
        Ok(Name {
            is_fqdn: self.is_fqdn,
            labels,
        })
    }

    /// The name in lower case.
    pub fn to_lowercase(&self) -> Result<Name, AllocError>
        ensures { IfOk result (λ name. name ≡ lowercase_name self.now) }
    {
        let mut lower = self.clone()?;
        lower.make_lowercase();
        Ok(lower)
    }

    /// The name with `*` in place of its first label; the root where there is no label.
    pub fn into_wildcard(self) -> Result<Name, AllocError>
        ensures { IfOk result (λ name. name ≡ wildcard_of self) }
    {
        let alloc = *self.labels.allocator();
        let mut rest = self.iter();
        let Some(_) = rest.next() else {
            return Ok(Name::root(alloc));
        };
        let labels = labels_behind(alloc, b"*", &rest)?;
        Ok(Name {
            is_fqdn: self.is_fqdn,
            labels,
        })
    }

    /// The name with a label more at its end. It is refused where the label is, and by `DomainNameTooLong`
    /// where the name would take more than 255 octets.
    pub fn append_label<L: IntoLabel>(self, label: L) -> Result<Name, ProtoError>
        ensures ok { IfOk result (λ name. (name ≡ domain_name self.fqdn (self.labels ++ L.octets label ∷ [])) × IsDomainName name) }
        ensures accepted { OnOk result (L.accepts label) }
        ensures refused { L.accepts label → IsDomainName (domain_name self.fqdn (self.labels ++ L.octets label ∷ []))
            → IfErr result IsMemory }
        ensures too_long { L.accepts label → 255 < labels_len self.labels + length (L.octets label) + 2
            → IfErr result (λ e. IsMemory e ⊎ (e ≡ too_long (labels_len self.labels + length (L.octets label) + 2))) }
        ensures cause { IfErr result (λ e. IsMemory e ⊎ (L.refuses label e
            ⊎ (L.accepts label × RefusesOctets (labels_len self.labels + length (L.octets label) + 2) e))) }
    {
        let label = label.into_label(*self.labels.allocator())?;
        let mut name = self;
        name.append(label)?;
        Ok(name)
    }

    // Puts a label at the end, refused as by `append_label`; then the name stays as it was.
    pub(crate) fn append(&mut self, label: Label) -> Result<(), ProtoError>
        ensures ok { OnOk result (self.new ≡ domain_name self.old.fqdn (self.old.labels ++ label ∷ [])) }
        ensures name { IsDomainName self.new }
        ensures refused { IsDomainName (domain_name self.old.fqdn (self.old.labels ++ label ∷ [])) → IfErr result IsMemory }
        ensures too_long { 255 < labels_len self.old.labels + length label + 2
            → IsErrOf result (too_long (labels_len self.old.labels + length label + 2)) }
        ensures cause { IfErr result (λ e. IsMemory e ⊎ RefusesOctets (labels_len self.old.labels + length label + 2) e) }
    {
        match self.push_label(label.as_bytes()) {
            Ok(()) => Ok(()),
            Err(DecodeError::Memory) => Err(ProtoError::Memory(AllocError)),
            Err(refused) => Err(ProtoError::Decode(refused)),
        }
    }

    /// Puts a label of these octets, which are 1 to 63, at the end. It is refused by `DomainNameTooLong` where the
    /// name would take more than 255 octets; a name that refuses a label stays as it was.
    pub fn push_label(&mut self, octets: &[u8]) -> Result<(), DecodeError>
        requires { IsLabel octets.now }
        ensures ok { OnOk result (self.new ≡ domain_name self.old.fqdn (self.old.labels ++ octets.now ∷ [])) }
        ensures name { IsDomainName self.new }
        ensures err { OnErr result (self.new ≡ self.old) }
        ensures refused { IsDomainName (domain_name self.old.fqdn (self.old.labels ++ octets.now ∷ []))
            → IfErr result (λ e. e ≡ Memory) }
        ensures too_long { 255 < labels_len self.old.labels + length octets.now + 2
            → IsErrOf result (DomainNameTooLong (labels_len self.old.labels + length octets.now + 2)) }
        ensures cause { IfErr result (λ e. (e ≡ Memory) ⊎ ((e ≡ DomainNameTooLong (labels_len self.old.labels + length octets.now + 2))
            × (255 < labels_len self.old.labels + length octets.now + 2))) }
    {
        let longer = self.labels.as_octets().len() + octets.len() + 2;
        if longer > Name::MAX_LENGTH {
            return Err(DecodeError::DomainNameTooLong(longer));
        }
        match self.labels.push(octets) {
            Ok(()) => Ok(()),
            Err(_) => Err(DecodeError::Memory),
        }
    }

    /// Puts labels at the end that octets spell, each behind the octet of its length (RFC 1035 3.1), and the name
    /// takes at most 255 octets with them. It is refused by `Memory` alone, and then the name stays as it was.
    pub fn push_spelled(&mut self, spelled: &[u8]) -> Result<(), DecodeError>
        requires labels { (labels : List (List ℕ)) × All IsLabel labels × (spelled.now ≡ label_octets labels) }
        requires short { labels_len self.old.labels + length spelled.now + 1 ≤ 255 }
        ensures ok { OnOk result ((labels : List (List ℕ)) → All IsLabel labels → spelled.now ≡ label_octets labels
            → self.new ≡ domain_name self.old.fqdn (self.old.labels ++ labels)) }
        ensures err { OnErr result (self.new ≡ self.old) }
        ensures refused { IfErr result (λ e. e ≡ Memory) }
    {
        match self.labels.push_spelled(spelled) {
            Ok(()) => Ok(()),
            Err(_) => Err(DecodeError::Memory),
        }
    }

    /// Puts labels at the end. They are refused by `DomainNameTooLong` where the name would take more than 255 octets;
    /// a name that refuses labels stays as it was.
    pub fn push_labels(&mut self, labels: &LabelIter<'_>) -> Result<(), DecodeError>
        ensures ok { OnOk result (self.new ≡ domain_name self.old.fqdn (self.old.labels ++ labels.now)) }
        ensures name { IsDomainName self.new }
        ensures err { OnErr result (self.new ≡ self.old) }
        ensures refused { IsDomainName (domain_name self.old.fqdn (self.old.labels ++ labels.now))
            → IfErr result (λ e. e ≡ Memory) }
        ensures too_long { 255 < labels_len self.old.labels + labels_len labels.now + 1
            → IsErrOf result (DomainNameTooLong (labels_len self.old.labels + labels_len labels.now + 1)) }
        ensures cause { IfErr result (λ e. (e ≡ Memory) ⊎ ((e ≡ DomainNameTooLong (labels_len self.old.labels + labels_len labels.now + 1))
            × (255 < labels_len self.old.labels + labels_len labels.now + 1))) }
    {
        let longer = self.labels.as_octets().len() + labels.octets().len() + 1;
        if longer > Name::MAX_LENGTH {
            return Err(DecodeError::DomainNameTooLong(longer));
        }
        match self.labels.append(labels) {
            Ok(()) => Ok(()),
            Err(_) => Err(DecodeError::Memory),
        }
    }

    /// The name with a label more at its front, refused as by `append_label`.
    pub fn prepend_label<L: IntoLabel>(&self, label: L) -> Result<Name, ProtoError>
        ensures ok { IfOk result (λ name. (name ≡ domain_name self.now.fqdn (L.octets label ∷ self.now.labels)) × IsDomainName name) }
        ensures accepted { OnOk result (L.accepts label) }
        ensures refused { L.accepts label → IsDomainName (domain_name self.now.fqdn (L.octets label ∷ self.now.labels))
            → IfErr result IsMemory }
        ensures too_long { L.accepts label → 255 < labels_len self.now.labels + length (L.octets label) + 2
            → IfErr result (λ e. IsMemory e ⊎ (e ≡ too_long (labels_len self.now.labels + length (L.octets label) + 2))) }
        ensures cause { IfErr result (λ e. IsMemory e ⊎ (L.refuses label e
            ⊎ (L.accepts label × RefusesOctets (labels_len self.now.labels + length (L.octets label) + 2) e))) }
    {
        let label = label.into_label(*self.labels.allocator())?;
        self.prepend(label.as_bytes())
    }

    // The name with a label more at its front, which is 1 to 63 octets.
    fn prepend(&self, label: &[u8]) -> Result<Name, ProtoError>
        requires { IsLabel label.now }
        ensures ok { IfOk result (λ name. (name ≡ domain_name self.now.fqdn (label.now ∷ self.now.labels)) × IsDomainName name) }
        ensures refused { IsDomainName (domain_name self.now.fqdn (label.now ∷ self.now.labels)) → IfErr result IsMemory }
        ensures too_long { 255 < labels_len self.now.labels + length label.now + 2
            → IsErrOf result (too_long (labels_len self.now.labels + length label.now + 2)) }
        ensures cause { IfErr result (λ e. IsMemory e ⊎ RefusesOctets (labels_len self.now.labels + length label.now + 2) e) }
    {
        let octets = self.labels.as_octets().len() + label.len() + 2;
        if octets > Name::MAX_LENGTH {
            return Err(ProtoError::Decode(DecodeError::DomainNameTooLong(octets)));
        }
        match labels_behind(*self.labels.allocator(), label, &self.iter()) {
            Ok(labels) => Ok(Name {
                is_fqdn: self.is_fqdn,
                labels,
            }),
            Err(refused) => Err(ProtoError::Memory(refused)),
        }
    }

    /// This name's labels, then the other's, with the other's flag. It is refused by `DomainNameTooLong` where
    /// the name would take more than 255 octets.
    pub fn append_name(self, other: &Name) -> Result<Name, ProtoError>
        ensures ok { IfOk result (λ name. (name ≡ domain_name other.now.fqdn (self.labels ++ other.now.labels)) × IsDomainName name) }
        ensures refused { IsDomainName (domain_name other.now.fqdn (self.labels ++ other.now.labels)) → IfErr result IsMemory }
        ensures too_long { 255 < labels_len self.labels + labels_len other.now.labels + 1
            → IsErrOf result (too_long (labels_len self.labels + labels_len other.now.labels + 1)) }
        ensures cause { IfErr result (λ e. IsMemory e ⊎ (255 < labels_len self.labels + labels_len other.now.labels + 1)) }
    {
        let mut name = self;
        match name.push_labels(&other.iter()) {
            Ok(()) => {
                name.is_fqdn = other.is_fqdn;
                Ok(name)
            }
            Err(DecodeError::Memory) => Err(ProtoError::Memory(AllocError)),
            Err(refused) => Err(ProtoError::Decode(refused)),
        }
    }

    /// This name's labels, then the other's, fully qualified. It is refused as by `append_name`.
    pub fn append_domain(self, domain: &Name) -> Result<Name, ProtoError>
        ensures ok { IfOk result (λ name. (name ≡ domain_name true (self.labels ++ domain.now.labels)) × IsDomainName name) }
        ensures refused { IsDomainName (domain_name true (self.labels ++ domain.now.labels)) → IfErr result IsMemory }
        ensures too_long { 255 < labels_len self.labels + labels_len domain.now.labels + 1
            → IsErrOf result (too_long (labels_len self.labels + labels_len domain.now.labels + 1)) }
        ensures cause { IfErr result (λ e. IsMemory e ⊎ (255 < labels_len self.labels + labels_len domain.now.labels + 1)) }
    {
        match self.append_name(domain) {
            Ok(mut name) => {
                name.set_fqdn(true);
                Ok(name)
            }
            Err(refused) => Err(refused),
        }
    }

    // Puts the labels into lower case.
    pub(crate) fn make_lowercase(&mut self)
        ensures { self.new ≡ lowercase_name self.old }
    {
        self.labels.make_lowercase();
    }

    /// The labels from the left.
    pub fn iter(&self) -> LabelIter<'_>
        ensures labels { result ≡ self.now.labels }
        ensures name { IsDomainName self.now }
    {
        self.labels.iter()
    }
}

impl<'a> IntoIterator for &'a Name {
    type Item = &'a [u8];

    type IntoIter = LabelIter<'a>;

    ghost into_iter_gives = { λ name labels. labels ≡ name.now.labels };

    fn into_iter(self) -> LabelIter<'a> {
        self.iter()
    }
}

impl Clone for Name {
    ghost is_clone = { λ name copy. copy ≡ name };

    fn clone(&self) -> Result<Name, AllocError> {
        self.trim_to(self.labels.len())
    }
}

// A label of these octets, and copies of those behind it.
fn labels_behind(alloc: Global, first: &[u8], rest: &LabelIter<'_>) -> Result<Labels, AllocError>
    requires { IsLabel first.now }
    ensures { IfOk result (λ labels. labels ≡ first.now ∷ rest.now) }
{
    let mut labels = Labels::new(alloc);
    labels.push(first)?;
    labels.append(rest)?;
    Ok(labels)
}
