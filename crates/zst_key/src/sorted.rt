//! Names in a sorted list (RFC 4034 6.1), searched without memory.
ghost use Rattle.std.specs.Prelude.{◌≡◌, ◌<◌, ◌≤◌, ◌∷◌, ◌++◌, ◌&&◌, OnErr, OnOk, [], drop, false, option_map, slice_index_or, slice_set, take, true, vec_len};
ghost use Rattle.std.specs.Bool.{beq};
ghost use Rattle.std.specs.BTreeMap.{insert_entry};
ghost use Rattle.std.specs.Map.{keys_of, remove_entry, set_value};
ghost use Rattle.std.specs.Ordering.{is_eq};
ghost use Rattle.std.specs.List.Sorted.{IsStrictlySortedBy};
ghost use Rattle.dnw_name.specs.DomainName.{is_at_or_below, lowercase_name, name_cmp};
ghost use Rattle.zst_key.specs.Ancestors.{GoesToShared, IsLastUpTo, nearest_in};
ghost use Rattle.zst_key.specs.Sorted.{CountsUpTo, IsFound, entry_at};

use crate::key::NameKey;
use crate::octets::{octets_of, order, shared_end};
use dnw_name::Name;
use smallvec::SmallVec;
use std::alloc::{AllocError, Global};
use std::cmp::Ordering;
use std::marker::Model;
use std::mem;

// The octets of every key: those of a name's flag and of at most 255 octets.
const WHOLE: usize = 256;

/// The key of a name, whatever its length, made without memory.
#[derive(Drop)]
pub struct WholeKey {
    octets: SmallVec<u8, WHOLE>,
}

impl Model for WholeKey {
    ghost use Rattle.dnw_name.specs.DomainName.{DomainName};

    ghost Value = { DomainName };

    ghost use Rattle.zst_key.specs.NameKeys.{name_of_key, IsKey};

    ghost view = { λ key. name_of_key key.octets.items };

    ghost invariant = { λ key. IsKey key.octets.items };
}

impl WholeKey {
    /// The key of a name.
    pub fn of(alloc: Global, name: &Name) -> WholeKey
        ensures { result ≡ lowercase_name name.now }
    {
        let _size = name.len();
        match octets_of(alloc, name) {
            Ok(octets) => WholeKey { octets },
            Err(_) => unreachable!(),
        }
    }

    /// The key, borrowed.
    pub fn borrow(&self) -> KeyRef<'_>
        ensures { result ≡ self.now }
    {
        KeyRef {
            octets: self.octets.as_slice(),
        }
    }
}

/// The key of a name, borrowed.
#[derive(Drop)]
pub struct KeyRef<'k> {
    octets: &'k [u8],
}

impl<'k> Model for KeyRef<'k> {
    ghost use Rattle.dnw_name.specs.DomainName.{DomainName};

    ghost Value = { DomainName };

    ghost use Rattle.zst_key.specs.NameKeys.{name_of_key, IsKey};

    ghost view = { λ key. name_of_key key.octets.now };

    ghost invariant = { λ key. IsKey key.octets.now };
}

impl NameKey {
    /// The key, borrowed.
    pub fn borrow(&self) -> KeyRef<'_>
        ensures { result ≡ self.now }
    {
        KeyRef {
            octets: self.octets.as_slice(),
        }
    }
}

impl<'k> KeyRef<'k> {
    // The order of a name and this one.
    fn order_of(&self, other: &NameKey) -> Ordering
        ensures { result ≡ name_cmp other.now self.now }
    {
        order(other.octets.as_slice(), self.octets)
    }

    // Whether the name ends at the root.
    fn is_fqdn(&self) -> bool
        ensures { result ≡ self.now.fqdn }
    {
        self.octets[0] == 1
    }

    // Whether the name is the other one, or lies below it, where both end at the root or neither does.
    fn is_below(&self, other: &NameKey) -> bool
        ensures below { result ≡ (beq self.now.fqdn other.now.fqdn && is_at_or_below self.now other.now) }
        ensures lower { lowercase_name self.now ≡ self.now }
        ensures lower_other { lowercase_name other.now ≡ other.now }
    {
        self.octets.starts_with(other.octets.as_slice())
    }

    // Goes up to the nearest name that the other one equals or lies below too, as `NameKey::to_shared` does.
    fn to_shared(&mut self, other: &NameKey) -> bool
        ensures flags { result ≡ beq self.old.fqdn other.now.fqdn }
        ensures shared { result ≡ true → GoesToShared self.old other.now self.new }
        ensures same { result ≡ false → self.new ≡ self.old }
    {
        if self.is_fqdn() != other.is_fqdn() {
            return false;
        }
        let octets = self.octets;
        let end = shared_end(octets, other.octets.as_slice());
        self.octets = &octets[..end];
        true
    }
}

// How many entries of a sorted list aren't after a name in canonical order.
fn count_up_to<V>(entries: &[(NameKey, V)], key: &KeyRef<'_>) -> usize
    requires { IsStrictlySortedBy name_cmp (keys_of entries.now) }
    ensures { CountsUpTo key.now entries.now result }
{
    entries.partition_point(|entry| key.order_of(&entry.0).is_le())
}

// The last entry of a sorted list that isn't after a name in canonical order.
fn last_up_to<'m, V>(entries: &'m [(NameKey, V)], key: &KeyRef<'_>) -> Option<&'m (NameKey, V)>
    requires { IsStrictlySortedBy name_cmp (keys_of entries.now) }
    ensures { IsLastUpTo (entry_at entries.now) key.now (option_map (λ entry. entry.now) result) }
{
    let count = count_up_to(entries, key);
    entries[..count].last()
}

// The entry of a sorted list for a name, or else for the nearest name above it.
fn nearest_entry<'m, V>(entries: &'m [(NameKey, V)], key: KeyRef<'_>) -> Option<&'m (NameKey, V)>
    requires sorted { IsStrictlySortedBy name_cmp (keys_of entries.now) }
    ensures { option_map (λ entry. entry.now) result ≡ nearest_in (entry_at entries.now) key.entry }
{
    let mut above = key;
    'levels: while let Some(entry) = last_up_to(entries, &above) {
        if above.is_below(&entry.0) {
            return Some(entry);
        }
        if !above.to_shared(&entry.0) {
            return None;
        }
    }
    None
}

// (These are generic in the key, so that dropping one takes no proof of its own.)
fn value_of<K: Drop, V>(entry: (K, V)) -> V
    ensures { result ≡ entry.1 }
{
    entry.1
}

// Puts a value in place of that of the entry at an index, and returns that.
fn replace_at<K, V: Drop>(entries: &mut Vec<(K, V)>, at: usize, value: V) -> V
    requires { at < vec_len entries.old }
    ensures value { (d : K × V) → result ≡ (slice_index_or entries.old.items at d).1 }
    ensures after { (d : K × V) → entries.new.items ≡ slice_set entries.old.items at ((slice_index_or entries.old.items at d).0, value) }
{
    mem::replace(&mut entries[at].1, value)
}

// Inserts an item at an index.
fn insert_at<T: Drop>(items: &mut Vec<T>, at: usize, item: T) -> Result<(), AllocError>
    requires { at ≤ vec_len items.old }
    ensures ok { OnOk result (items.new.items ≡ take at items.old.items ++ item ∷ drop at items.old.items) }
    ensures err { OnErr result (items.new.items ≡ items.old.items) }
{
    match items.insert(at, item) {
        Ok(()) => Ok(()),
        Err(_) => Err(AllocError),
    }
}

/// Values under names, in canonical order. A contract sees the entries.
#[derive(Drop)]
pub struct NameList<V> {
    entries: Vec<(NameKey, V)>,
}

impl<V> Model for NameList<V> {
    ghost use Rattle.std.specs.Prelude.{List};
    ghost use Rattle.std.specs.BTreeMap.{insert_entry};
    ghost use Rattle.std.specs.Map.{keys_of, remove_entry};
    ghost use Rattle.std.specs.Ordering.{is_eq};
    ghost use Rattle.std.specs.List.Sorted.{IsStrictlySortedBy};
    ghost use Rattle.dnw_name.specs.DomainName.{DomainName, name_cmp};

    ghost Value = { List (DomainName × V) };

    ghost view = { λ list. list.entries.items };

    ghost invariant = { λ list. IsStrictlySortedBy name_cmp (keys_of list.entries.items) };
}

impl<V: Drop> NameList<V> {
    /// No entries.
    pub fn new(alloc: Global) -> NameList<V>
        ensures { result ≡ [] }
    {
        NameList {
            entries: Vec::new(alloc),
        }
    }

    /// The entry for a name, or else for the nearest name above it. It takes no memory.
    pub fn nearest(&self, key: KeyRef<'_>) -> Option<&(NameKey, V)>
        ensures { option_map (λ entry. entry.now) result ≡ nearest_in (entry_at self.now) key.entry }
    {
        nearest_entry(&self.entries, key)
    }

    // Where the entry of a name is, if it has one.
    fn find(&self, key: &KeyRef<'_>) -> Result<usize, usize>
        ensures { IsFound key.now self.now result }
    {
        let count = count_up_to(&self.entries, key);
        if count > 0 && key.order_of(&self.entries[count - 1].0).is_eq() {
            return Ok(count - 1);
        }
        Err(count)
    }

    /// Puts a value under a name, in place of the one that it has, which is dropped.
    pub fn insert(&mut self, key: NameKey, value: V) -> Result<(), AllocError>
        ensures ok { OnOk result (self.new ≡ insert_entry name_cmp self.old key value) }
        ensures err { OnErr result (self.new ≡ self.old) }
    {
        match self.find(&key.borrow()) {
            Ok(at) => {
                mem::drop(key);
                mem::drop(replace_at(&mut self.entries, at, value));
                Ok(())
            }
            Err(at) => insert_at(&mut self.entries, at, (key, value)),
        }
    }

    /// Puts a value in place of the one under a name, and returns that; where there is none, the value is dropped. It takes
    /// no memory.
    pub fn replace(&mut self, key: &KeyRef<'_>, value: V) -> Option<V>
        ensures value { result ≡ entry_at self.old key.now }
        ensures after { self.new ≡ set_value (λ other. is_eq (name_cmp key.now other)) self.old value }
    {
        match self.find(key) {
            Ok(at) => Some(replace_at(&mut self.entries, at, value)),
            Err(_) => {
                mem::drop(value);
                None
            }
        }
    }

    /// Takes out the value under a name. It takes no memory.
    pub fn remove(&mut self, key: &KeyRef<'_>) -> Option<V>
        ensures value { result ≡ entry_at self.old key.now }
        ensures after { self.new ≡ remove_entry (λ other. is_eq (name_cmp key.now other)) self.old }
    {
        match self.find(key) {
            Ok(at) => Some(value_of(self.entries.remove(at))),
            Err(_) => None,
        }
    }
}
