//! Sets of prefixes: the first bits of addresses (RFC 4632 3.1, RFC 4291 2.3).
ghost use Rattle.std.specs.Prelude.{◌≡◌, ◌<◌, ◌≤◌, [], OnOk, OnErr, IfSome, IsSomeAnd, true};
ghost use Rattle.zsv_access.specs.Prefixes.{has_prefix, is_empty, longest, prefix_of, with_prefix};

use std::alloc::{AllocError, Global};
use std::collections::BTreeSet;
use std::marker::Model;

/// The first bits of an address: how many, and the number that they are.
#[derive(Clone, Copy, PartialEq, Eq, PartialOrd, Ord)]
pub(crate) struct Prefix {
    pub(crate) len: u8,
    pub(crate) bits: u128,
}

impl Prefix {
    /// The first bits, so many, of an address of `width` bits.
    pub(crate) fn of(width: u8, addr: u128, len: u8) -> Prefix
        requires { width ≤ 128 }
        ensures { result ≡ prefix_of width addr len }
    {
        let rest = width.saturating_sub(len);
        let bits = if rest == 128 { 0 } else { addr >> rest };
        Prefix { len, bits }
    }
}

/// Prefixes, each once.
#[derive(Drop)]
pub(crate) struct PrefixSet {
    prefixes: BTreeSet<Prefix>,
}

impl Model for PrefixSet {
    ghost use Rattle.std.specs.Prelude.{List};
    ghost use Rattle.zsv_access.specs.declared.prefix_set.Prefix.{Prefix};

    ghost Value = { List Prefix };

    ghost view = { λ set. set.prefixes.keys };
}

impl PrefixSet {
    /// No prefixes.
    pub(crate) fn new(alloc: Global) -> PrefixSet
        ensures { result ≡ [] }
    {
        PrefixSet {
            prefixes: BTreeSet::new(alloc),
        }
    }

    /// Whether there are no prefixes.
    pub(crate) fn is_empty(&self) -> bool
        ensures { result ≡ is_empty self.now }
    {
        self.prefixes.is_empty()
    }

    /// Puts a prefix in.
    pub(crate) fn insert(&mut self, prefix: Prefix) -> Result<(), AllocError>
        ensures ok { OnOk result (self.new ≡ with_prefix self.old prefix) }
        ensures err { OnErr result (self.new ≡ self.old) }
    {
        self.prefixes.insert(prefix)?;
        Ok(())
    }

    /// How long the longest prefix is with which an address of `width` bits begins, if there is one.
    ///
    /// It asks for one prefix of each length that is in use, the longest one first.
    pub(crate) fn longest(&self, width: u8, addr: u128) -> Option<u8>
        requires { width ≤ 128 }
        ensures { result ≡ longest width addr self.now }
    {
        let mut len = self.prefixes.last()?.len;
        'lengths: loop {
            if self.prefixes.contains(&Prefix::of(width, addr, len)) {
                return Some(len);
            }
            len = self.below(len)?;
        }
    }

    // The greatest length below this one that is in use.
    fn below(&self, len: u8) -> Option<u8>
        ensures below { IfSome result (λ shorter. shorter < len) }
        ensures greatest { (prefix : Prefix) → has_prefix self.now prefix ≡ true
            → prefix.len < len → IsSomeAnd result (λ shorter. prefix.len ≤ shorter) }
    {
        let shorter = self.prefixes.range(..Prefix { len, bits: 0 }).next_back()?;
        Some(shorter.len)
    }
}
