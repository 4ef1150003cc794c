//! Keys of names.
ghost use Rattle.std.specs.Prelude.{◌≡◌, ◌↔◌, ◌<◌, ◌&&◌, [], true, false, IfOk, IfSome, IsOk, IsTrue, is_some, OnOk, OnErr};
ghost use Rattle.std.specs.Bool.{beq};
ghost use Rattle.std.specs.Cmp.{partial_order_from_own_ties};
ghost use Rattle.std.specs.Cmp.Rules.{comparing};
ghost use Rattle.std.specs.Ordering.{as_partial_cmp};
ghost use Rattle.std.proofs.Common.{rules};
ghost use Rattle.dnw_name.specs.DomainName.{name_eq, name_cmp, name_len, is_at_or_below, lowercase_name};
ghost use Rattle.dnw_name.specs.NameOrderLaws.{name_eq-by_cmp};
ghost use Rattle.zst_key.specs.Ancestors.{other_flag, parent, star, GoesToShared};

use crate::octets::{INLINE, are_same, octets_of, order, parent_end, shared_end};
use dnw_name::Name;
use smallvec::SmallVec;
use std::alloc::{AllocError, Global};
use std::cmp::Ordering;
use std::hash::{Hash, Hasher};
use std::marker::Model;

/// The key of a name, which stands for the name in lower case. Keys are equal and ordered as names are (RFC 4034 6.1).
/// Those of names of up to 39 octets take no memory.
#[derive(Drop)]
pub struct NameKey {
    pub(crate) octets: SmallVec<u8, INLINE>,
}

impl Model for NameKey {
    ghost use Rattle.dnw_name.specs.DomainName.{DomainName};

    ghost Value = { DomainName };

    ghost use Rattle.zst_key.specs.NameKeys.{name_of_key, IsKey};

    ghost view = { λ key. name_of_key key.octets.items };

    ghost invariant = { λ key. IsKey key.octets.items };
}

impl NameKey {
    /// The key of a name. It takes no memory where the name has at most 39 octets.
    pub fn of(alloc: Global, name: &Name) -> Result<NameKey, AllocError>
        ensures key { IfOk result (λ key. key ≡ lowercase_name name.now) }
        ensures short { name_len name.now < 40 → IsOk result }
    {
        let octets = octets_of(alloc, name)?;
        Ok(NameKey { octets })
    }

    /// Whether the name ends at the root.
    pub fn is_fqdn(&self) -> bool
        ensures { result ≡ self.now.fqdn }
    {
        self.octets[0] == 1
    }

    /// Whether the name has no labels, so that none is above it.
    pub fn is_root(&self) -> bool
        ensures { IsTrue result ↔ (self.now.labels ≡ []) }
    {
        self.octets.len() == 1
    }

    /// Goes to the name above. Where there is none, nothing changes. It takes no memory.
    pub fn to_parent(&mut self)
        ensures { self.new ≡ parent self.old }
    {
        let end = parent_end(self.octets.as_slice());
        self.octets.truncate(end);
    }

    /// Goes up to the nearest name that the other one equals or lies below too. Where one of both ends at the root and
    /// one doesn't, there is none; then nothing changes, and false is answered. It takes no memory.
    pub fn to_shared(&mut self, other: &NameKey) -> bool
        ensures flags { result ≡ beq self.old.fqdn other.now.fqdn }
        ensures shared { result ≡ true → GoesToShared self.old other.now self.new }
        ensures same { result ≡ false → self.new ≡ self.old }
    {
        if self.is_fqdn() != other.is_fqdn() {
            return false;
        }
        let end = shared_end(self.octets.as_slice(), other.octets.as_slice());
        self.octets.truncate(end);
        true
    }

    /// The nearest name, from this one up, that the other one equals or lies below too; none where one of both ends at the
    /// root and one doesn't. Where it has at most 39 octets it takes no memory.
    pub(crate) fn shared_with(&self, other: &NameKey) -> Result<Option<NameKey>, AllocError>
        ensures flags { IfOk result (λ found. is_some found ≡ beq self.now.fqdn other.now.fqdn) }
        ensures shared { IfOk result (λ found. IfSome found (λ new. GoesToShared self.now other.now new)) }
    {
        if self.is_fqdn() != other.is_fqdn() {
            return Ok(None);
        }
        let octets = self.octets.as_slice();
        let end = shared_end(octets, other.octets.as_slice());
        let octets = SmallVec::from_slice(*self.octets.allocator(), &octets[..end])?;
        Ok(Some(NameKey { octets }))
    }

    /// Goes to the wildcard below the name (RFC 4592 2.1.1).
    pub fn to_star(&mut self) -> Result<(), AllocError>
        ensures ok { OnOk result (self.new ≡ star self.old) }
        ensures err { OnErr result (self.new ≡ self.old) }
    {
        self.octets.extend_from_slice(&[43, 0])?;
        Ok(())
    }

    /// Goes to the name of the same labels that ends at the root where this one doesn't, and the other way round.
    pub fn to_other_flag(&mut self)
        ensures { self.new ≡ other_flag self.old }
    {
        self.octets[0] = 1 - self.octets[0];
    }

    /// Whether the name's labels end with the other's, whether or not either ends at the root.
    pub fn is_at_or_below(&self, other: &NameKey) -> bool
        ensures { result ≡ is_at_or_below self.now other.now }
    {
        self.octets.as_slice()[1..].starts_with(&other.octets.as_slice()[1..])
    }

    /// Whether the name above this one is the other; the root is above itself.
    pub fn is_child_of(&self, other: &NameKey) -> bool
        ensures { IsTrue result ↔ (parent self.now ≡ other.now) }
    {
        let octets = self.octets.as_slice();
        &octets[..parent_end(octets)] == other.octets.as_slice()
    }

    /// Whether the name is the other one, or lies below it, where both end at the root or neither does.
    pub fn is_below(&self, other: &NameKey) -> bool
        ensures below { result ≡ (beq self.now.fqdn other.now.fqdn && is_at_or_below self.now other.now) }
        ensures lower { lowercase_name self.now ≡ self.now }
        ensures lower_other { lowercase_name other.now ≡ other.now }
    {
        self.octets.starts_with(&other.octets)
    }
}

impl Clone for NameKey {
    ghost is_clone = { λ key copy. copy ≡ key };

    /// It takes no memory where the name has at most 39 octets.
    fn clone(&self) -> Result<NameKey, AllocError> {
        let octets = SmallVec::from_slice(*self.octets.allocator(), self.octets.as_slice())?;
        Ok(NameKey { octets })
    }
}

impl PartialEq for NameKey {
    ghost eq = { name_eq };

    ghost laws = { Prim.search (comparing, rules) depth 12 };

    fn eq(&self, other: &NameKey) -> bool {
        are_same(self.octets.as_slice(), other.octets.as_slice())
    }
}

impl Hash for NameKey {
    ghost use Rattle.std.specs.Prelude.{◌∷◌, []};
    ghost use Rattle.zst_key.specs.NameKeys.{name_key};
    ghost use Rattle.zst_key.specs.NameKeyLaws.{name_key-alike};

    ghost hash_input = { λ key. name_key key ∷ [] };

    ghost respects_eq = { name_key-alike };

    fn hash<H: Hasher>(&self, state: &mut H) {
        state.write(self.octets.as_slice());
    }
}

impl Eq for NameKey {
    ghost laws = { Prim.search (comparing, rules) depth 12 };
}

impl Ord for NameKey {
    ghost cmp = { name_cmp };

    ghost total = { Prim.search (comparing, rules) depth 12 };

    ghost matches_partial_cmp = { Prim.search (comparing, rules) };

    ghost matches_eq = { name_eq-by_cmp };

    #[inline(always)]
    fn cmp(&self, other: &NameKey) -> Ordering {
        order(self.octets.as_slice(), other.octets.as_slice())
    }
}

impl PartialOrd for NameKey {
    ghost partial_cmp = { as_partial_cmp name_cmp };

    ghost laws = { partial_order_from_own_ties (Prim.search (comparing, rules) depth 12) name_eq-by_cmp };

    fn partial_cmp(&self, other: &NameKey) -> Option<Ordering> {
        Some(self.cmp(other))
    }
}
