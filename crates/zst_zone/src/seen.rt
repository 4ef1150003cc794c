//! The targets already listed, by their keys (RFC 1034 section 4.3.2 step 6).

ghost use Rattle.std.specs.Prelude.{◌≡◌, ◌∷◌, ◌++◌, [], Bool, IfOk, OnOk, false, not, true, if◌then◌else◌};
ghost use Rattle.std.specs.List.{AllByRecursion, list_any};
ghost use Rattle.zst_circle.specs.dnw_name.DomainName.{DomainName, name_cmp, name_eq};
ghost use Rattle.zst_zone.specs.Seen.{AreRising, are_before, seen_keys, was_seen};

use std::alloc::{AllocError, Global};
use std::collections::HashSet;
use zst_circle::{NameKey, push};

/// The keys seen so far: a list while they come in canonical order (RFC 4034 6.1), where comparing with the last one shows
/// that a key is new; a hash set from the first key out of order.
#[derive(Drop)]
pub(crate) struct Seen {
    rising: Vec<NameKey>,
    hashed: HashSet<NameKey>,
}

impl Seen {
    /// No keys.
    pub(crate) fn new(alloc: Global) -> Seen
        ensures none { seen_keys result ≡ [] }
        ensures rising { AreRising result.rising.items }
    {
        Seen {
            rising: Vec::new(alloc),
            hashed: HashSet::new(alloc),
        }
    }

    // Whether a key is after all those that came in rising order.
    fn is_past(&self, key: &NameKey) -> bool
        requires { AreRising self.now.rising.items }
        ensures { result ≡ true → are_before key.now self.now.rising.items ≡ true }
    {
        match self.rising.last() {
            None => true,
            Some(last) => *last < *key,
        }
    }

    /// Inserts a key; false if it was seen. The first insertion reserves room for this many.
    pub(crate) fn insert(&mut self, key: NameKey, room: usize) -> Result<bool, AllocError>
        requires { AreRising self.old.rising.items }
        ensures new { IfOk result (λ new. new ≡ not (was_seen self.old key)) }
        ensures after { OnOk result ((k : DomainName) → was_seen self.new k ≡ (if name_eq key k then true else was_seen self.old k)) }
        ensures rising { OnOk result (AreRising self.new.rising.items) }
    {
        if self.hashed.is_empty() && self.is_past(&key) {
            append(&mut self.rising, key, room)?;
            return Ok(true);
        }
        self.hash(room)?;
        put(&mut self.hashed, key)
    }

    // Hashes the keys that came in rising order.
    fn hash(&mut self, room: usize) -> Result<(), AllocError>
        ensures same { OnOk result ((k : DomainName) → was_seen self.new k ≡ was_seen self.old k) }
        ensures all { OnOk result (self.new.rising.items ≡ []) }
    {
        if self.rising.is_empty() {
            return Ok(());
        }
        self.hashed.reserve(room)?;
        'keys: while let Some(key) = self.rising.pop() {
            put(&mut self.hashed, key)?;
        }
        Ok(())
    }
}

// Appends a key. The first append reserves room for this many.
fn append(keys: &mut Vec<NameKey>, key: NameKey, room: usize) -> Result<(), AllocError>
    ensures { OnOk result (keys.new.items ≡ keys.old.items ++ key ∷ []) }
{
    if keys.is_empty() {
        keys.reserve(room)?;
    }
    push(keys, key)
}

// Inserts a key; false if it was there.
fn put(keys: &mut HashSet<NameKey>, key: NameKey) -> Result<bool, AllocError>
    ensures new { IfOk result (λ new. new ≡ not (list_any (name_eq key) keys.old.keys)) }
    ensures after { OnOk result ((k : DomainName) → list_any (name_eq k) keys.new.keys ≡ (if name_eq key k then true else list_any (name_eq k) keys.old.keys)) }
{
    match keys.insert(key) {
        Ok(is_new) => Ok(is_new),
        Err(_) => Err(AllocError),
    }
}
