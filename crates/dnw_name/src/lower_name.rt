//! Names in lower case.
ghost use Rattle.std.specs.Prelude.{◌≡◌, ◌&&◌, ◌==◌, ◌⊎◌, length, drop, IfOk, IfErr, MatchResult, false};
ghost use Rattle.std.specs.Cmp.{partial_order_from_own_ties};
ghost use Rattle.std.specs.Cmp.Rules.{comparing};
ghost use Rattle.std.specs.Ordering.{as_partial_cmp};
ghost use Rattle.std.proofs.Common.{rules};
ghost use Rattle.dnw_name.specs.DomainName.{DomainName, domain_name, IsDomainName, lowercase_name, name_eq, name_cmp, name_len, num_labels, is_wildcard, is_at_or_below, wildcard_of};
ghost use Rattle.dnw_net.specs.dnw_codes.ProtoError.{IsMemory};
ghost use Rattle.dnw_net.specs.dnw_codes.declared.error.ProtoError.{ProtoError as WireError};
ghost use Rattle.dnw_net.specs.dnw_label.LabelRefusals.{AreAlike};
ghost use Rattle.dnw_name.specs.NameRefusals.{RefusesNameText};
ghost use Rattle.dnw_name.specs.NameText.{NameText};
ghost use Rattle.dnw_name.specs.NameOrderLaws.{name_eq-by_cmp};

use crate::name::Name;
use dnw_net::ProtoError;
use std::alloc::{AllocError, Global};
use std::cmp::Ordering;
use std::hash::{Hash, Hasher};
use std::marker::Model;
use std::ops::Deref;

/// A name without capitals (ASCII letters alone are taken as such, RFC 4343). A contract sees it as the name.
#[derive(Drop)]
pub struct LowerName(Name);

impl Model for LowerName {
    ghost use Rattle.std.specs.Prelude.{◌≡◌};
    ghost use Rattle.dnw_name.specs.DomainName.{DomainName, lowercase_name};

    ghost Value = { DomainName };

    ghost view = { λ name. name.0 };

    ghost invariant = { λ name. lowercase_name name.0 ≡ name.0 };
}

impl LowerName {
    /// The name in lower case.
    pub fn new(name: &Name) -> Result<LowerName, AllocError>
        ensures { IfOk result (λ lower. lower ≡ lowercase_name name.now) }
    {
        Ok(LowerName(name.to_lowercase()?))
    }

    /// The name of a text by `Name::from_ascii`, in lower case.
    pub fn from_str(alloc: Global, text: &str) -> Result<LowerName, ProtoError>
        ensures ok { IfOk result (λ lower. (name : DomainName) × NameText text.now name × (lower ≡ lowercase_name name)) }
        ensures refused { IfErr result (λ e. IsMemory e ⊎ ((name : DomainName) → NameText text.now name → ⊥)) }
        ensures cause { IfErr result (λ e. IsMemory e ⊎ RefusesNameText text.now e) }
        ensures stands { (e : WireError) → RefusesNameText text.now e
            → MatchResult result (λ lower. ⊥) (λ given. IsMemory given ⊎ AreAlike e given) }
    {
        match Name::from_ascii(alloc, text) {
            Ok(name) => Ok(LowerName::from(name)),
            Err(refused) => Err(refused),
        }
    }

    /// Whether this is the root.
    pub fn is_root(&self) -> bool
        ensures { result ≡ (self.now.fqdn && (length self.now.labels == 0)) }
    {
        self.0.is_root()
    }

    /// Whether the name ends at the root.
    pub fn is_fqdn(&self) -> bool
        ensures { result ≡ self.now.fqdn }
    {
        self.0.is_fqdn()
    }

    /// Says whether the name ends at the root.
    pub fn set_fqdn(&mut self, is_fqdn: bool)
        ensures { self.new ≡ domain_name is_fqdn self.old.labels }
    {
        self.0.set_fqdn(is_fqdn);
    }

    /// The name without its first label; a name without labels stays.
    pub fn base_name(&self) -> Result<LowerName, AllocError>
        ensures { IfOk result (λ name. name ≡ domain_name self.now.fqdn (drop 1 self.now.labels)) }
    {
        Ok(LowerName(self.0.base_name()?))
    }

    /// Whether the name handed in is this one or lies below it, flags aside.
    pub fn zone_of(&self, name: &LowerName) -> bool
        ensures { result ≡ is_at_or_below name.now self.now }
    {
        self.0.zone_of(&name.0)
    }

    /// The number of labels, without that of a wildcard.
    pub fn num_labels(&self) -> u8
        ensures { result ≡ num_labels self.now }
    {
        self.0.num_labels()
    }

    /// The octets of the labels with those of their lengths, and 1 where there is no label.
    pub fn len(&self) -> usize
        ensures value { result ≡ name_len self.now }
        ensures name { IsDomainName self.now }
        ensures lower { lowercase_name self.now ≡ self.now }
    {
        self.0.len()
    }

    /// Whether `len` is 0, which it never is.
    pub fn is_empty(&self) -> bool
        ensures { result ≡ false }
    {
        false
    }

    /// Whether the first label is `*` (RFC 4592 2.1.1).
    pub fn is_wildcard(&self) -> bool
        ensures { result ≡ is_wildcard self.now }
    {
        self.0.is_wildcard()
    }

    /// The name with `*` in place of its first label; the root where there is no label.
    pub fn into_wildcard(self) -> Result<LowerName, AllocError>
        ensures { IfOk result (λ name. name ≡ wildcard_of self) }
    {
        let LowerName(name) = self;
        Ok(LowerName(name.into_wildcard()?))
    }
}

impl Deref for LowerName {
    type Target = Name;

    ghost deref_gives = { λ lower name. name ≡ lower };

    fn deref(&self) -> &Name {
        &self.0
    }
}

impl From<Name> for LowerName {
    ghost from_gives = { λ name lower. lower ≡ lowercase_name name };

    fn from(name: Name) -> LowerName {
        let mut name = name;
        name.make_lowercase();
        LowerName(name)
    }
}

impl From<LowerName> for Name {
    ghost from_gives = { λ lower name. name ≡ lower };

    fn from(lower: LowerName) -> Name {
        let LowerName(name) = lower;
        name
    }
}

impl Clone for LowerName {
    ghost is_clone = { λ name copy. copy ≡ name };

    fn clone(&self) -> Result<LowerName, AllocError> {
        Ok(LowerName(self.0.clone()?))
    }
}

impl PartialEq for LowerName {
    ghost eq = { name_eq };

    ghost laws = { Prim.search (comparing, rules) depth 12 };

    fn eq(&self, other: &LowerName) -> bool {
        self.0 == other.0
    }
}

impl Eq for LowerName {
    ghost laws = { Prim.search (comparing, rules) depth 12 };
}

impl Ord for LowerName {
    ghost cmp = { name_cmp };

    ghost total = { Prim.search (comparing, rules) depth 12 };

    ghost matches_partial_cmp = { Prim.search (comparing, rules) };

    ghost matches_eq = { name_eq-by_cmp };

    fn cmp(&self, other: &LowerName) -> Ordering {
        self.0.cmp(&other.0)
    }
}

impl PartialOrd for LowerName {
    ghost partial_cmp = { as_partial_cmp name_cmp };

    ghost laws = { partial_order_from_own_ties (Prim.search (comparing, rules) depth 12) name_eq-by_cmp };

    fn partial_cmp(&self, other: &LowerName) -> Option<Ordering> {
        Some(self.cmp(other))
    }
}

impl Hash for LowerName {
    ghost use Rattle.dnw_name.specs.NameHash.{name_writes};
    ghost use Rattle.dnw_name.specs.NameHashLaws.{name_writes-alike};

    ghost hash_input = { name_writes };

    ghost respects_eq = { name_writes-alike };

    fn hash<H: Hasher>(&self, state: &mut H) {
        self.0.hash(state);
    }
}
