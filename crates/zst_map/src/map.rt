//! The sets of a zone, in the canonical order of their owners.

ghost use Rattle.std.specs.Prelude.{◌≡◌, ◌<◌, [], true, None, Some, IfOk, IsSome, OnOk, OnErr, if◌then◌else◌, option_copied, option_map};
ghost use Rattle.std.specs.BTreeMap.{get};
ghost use Rattle.std.specs.HashMap.{spare};
ghost use Rattle.std.specs.HashMap.{get as hashed};
ghost use Rattle.std.specs.List.Sorted.{IsStrictlySortedBy};
ghost use Rattle.std.specs.Map.{keys_of};
ghost use Rattle.zst_handler.specs.dnw_name.DomainName.{DomainName, lowercase_name, name_cmp, name_eq};
ghost use Rattle.zst_handler.specs.Lookups.{sets_of_name};
ghost use Rattle.zst_handler.specs.Updates.{Replaces};
ghost use Rattle.zst_handler.specs.Zones.{AreInOrder, rrset_at};
ghost use Rattle.zst_handler.specs.zst_record.RecordSets.{RRset};
ghost use Rattle.zst_map.specs.Changes.{alters, made, owner_of, type_in};
ghost use Rattle.zst_map.specs.Edits.{CanEdit, edited};
ghost use Rattle.zst_key.specs.Ancestors.{nearest_in};
ghost use Rattle.zst_map.specs.ZoneMaps.{AreOwners, IsPlace, exists_alike, owned};

use crate::change::Change;
use crate::edit::Edit;
use crate::index::insert_key;
use crate::node::{change_node, edit_node, find_set, is_only, only, replace_in, take_out};
use std::alloc::{AllocError, Global};
use std::collections::btree_map::Keys;
use std::collections::{BTreeMap, HashMap};
use std::hash::Hash;
use std::marker::Model;
use std::mem;
use zst_handler::{LentSets, OneOrMany, RecordSet, RecordType, sets_under};
use zst_key::{NameKey, nearest};

/// What stands at the name of a key.
#[derive(Clone, Copy)]
pub(crate) struct Place<'z> {
    /// All sets at the name, by rising type.
    pub(crate) sets: &'z [RecordSet],
    /// Whether an owner equals the name or lies below it, where both end at the root or neither does.
    pub(crate) exists: bool,
}

/// The nearest owner, from a name up.
#[derive(Clone, Copy)]
pub(crate) struct Nearest<'z> {
    /// Its key.
    pub(crate) owner: &'z NameKey,
    /// All its sets, by rising type.
    pub(crate) sets: &'z [RecordSet],
}

/// The sets of a zone, by owner in canonical order (RFC 4034 section 6.1), then by type. What a name owns is found by a
/// hash, so that it takes as long in a large zone as in a small one; the order is there for what has none.
#[derive(Drop)]
pub struct ZoneMap {
    /// The owners' keys, in order.
    pub(crate) owners: BTreeMap<NameKey, ()>,
    /// The sets of each owner, by rising type, under the owner's key.
    pub(crate) nodes: HashMap<NameKey, OneOrMany<RecordSet>>,
}

impl Model for ZoneMap {
    ghost use Rattle.std.specs.Prelude.{List};
    ghost use Rattle.zst_handler.specs.zst_record.RecordSets.{RRset};

    ghost Value = { List RRset };

    ghost use Rattle.zst_handler.specs.Stores.{sets_in};
    ghost use Rattle.zst_map.specs.ZoneMaps.{IsKept};

    ghost view = { λ zone. sets_in zone.nodes zone.owners.entries };

    ghost invariant = { λ zone. IsKept zone.owners zone.nodes };
}

impl ZoneMap {
    /// No sets.
    pub fn new(alloc: Global) -> ZoneMap
        ensures { result ≡ [] }
    {
        ZoneMap {
            owners: BTreeMap::new(alloc),
            nodes: HashMap::new(alloc),
        }
    }

    /// The sets, borrowed as they are kept.
    pub(crate) fn lend(&self) -> LentSets<'_>
        ensures { result ≡ self.now }
    {
        LentSets::new(&self.owners, &self.nodes)
    }

    /// The owners' keys, in order, each once.
    pub(crate) fn owners(&self) -> Keys<'_, NameKey, ()>
        ensures { AreOwners self.now result }
    {
        self.owners.keys()
    }

    /// The set of a type at the name of a key.
    pub(crate) fn get(&self, key: &NameKey, record_type: RecordType) -> Option<&RecordSet>
        ensures { option_copied result ≡ rrset_at self.now key.now record_type }
    {
        find_set(self.sets_at(key), record_type)
    }

    /// All sets at the name of a key, by rising type.
    pub fn sets_at(&self, key: &NameKey) -> &[RecordSet]
        ensures { result.now ≡ sets_of_name self.now key.now }
    {
        sets_under(&self.nodes, key)
    }

    /// What stands at the name of a key. The order is searched only where the name owns nothing.
    pub(crate) fn place_at(&self, key: &NameKey) -> Place<'_>
        ensures { IsPlace self.now key.now result }
    {
        match self.nodes.get(key) {
            Some(node) => Place {
                sets: node.as_slice(),
                exists: true,
            },
            None => Place {
                sets: &[],
                exists: self.has_below(key),
            },
        }
    }

    // Whether an owner equals the name of a key or lies below it, where both end at the root or neither does: the first key
    // that is not before this one tells.
    fn has_below(&self, key: &NameKey) -> bool
        ensures { result ≡ exists_alike self.now key.now }
    {
        match self.owners.range(key..).next() {
            Some((owner, _)) => owner.is_below(key),
            None => false,
        }
    }

    /// The nearest owner, from the name of a key up.
    pub(crate) fn nearest(&self, key: &NameKey) -> Result<Option<Nearest<'_>>, AllocError>
        ensures { IfOk result (λ found. option_map (λ near. (near.owner.now, near.sets.now)) found ≡ nearest_in (owned self.now) key.now) }
    {
        let Some((owner, _)) = nearest(&self.owners, key)? else {
            return Ok(None);
        };
        let sets = self.sets_at(owner);
        Ok(Some(Nearest { owner, sets }))
    }

    /// Changes the set of an owner, which has this key, and a type, and tells whether that changed it; where there is no
    /// such set, one is made.
    pub(crate) fn change(
        &mut self,
        alloc: Global,
        key: NameKey,
        change: Change,
    ) -> Result<bool, AllocError>
        requires { key ≡ lowercase_name (owner_of change) }
        ensures changed { IfOk result (λ changed. changed ≡ alters change (rrset_at self.old (owner_of change) (type_in change))) }
        ensures ok { OnOk result (Replaces self.old (owner_of change) (type_in change)
            (Some (made change (rrset_at self.old (owner_of change) (type_in change)))) self.new) }
        ensures ordered { OnOk result (AreInOrder self.new) }
        ensures before { AreInOrder self.old }
        ensures err { OnErr result (self.new ≡ self.old) }
    {
        if let Some(node) = self.nodes.get_mut(&key) {
            return change_node(alloc, node, change);
        }
        let set = change.into_set(alloc);
        put_owner(&mut self.owners, &mut self.nodes, key, OneOrMany::One(set))?;
        Ok(true)
    }

    /// Changes the set of an owner, which has this key, and a type where it is.
    pub(crate) fn edit(&mut self, key: &NameKey, record_type: RecordType, edit: Edit)
        requires { (set : RRset) × (rrset_at self.old key.now record_type ≡ Some set) × CanEdit edit set }
        ensures others { (set : RRset) → rrset_at self.old key.now record_type ≡ Some set → CanEdit edit set
            → Replaces self.old key.now record_type (Some (edited edit set)) self.new }
        ensures ordered { AreInOrder self.new }
    {
        let Some(node) = self.nodes.get_mut(key) else {
            mem::drop(edit);
            return;
        };
        edit_node(node, record_type, edit);
    }

    /// Puts a set in place of the one of its type at the name of a key, which is there.
    pub(crate) fn replace(&mut self, key: &NameKey, set: RecordSet)
        requires owner { name_eq key.now set.name ≡ true }
        requires there { IsSome (rrset_at self.old key.now set.record_type) }
        ensures others { Replaces self.old key.now set.record_type (Some set) self.new }
        ensures ordered { AreInOrder self.new }
    {
        let Some(node) = self.nodes.get_mut(key) else {
            mem::drop(set);
            return;
        };
        replace_in(node, set);
    }

    /// Takes out the set of an owner, which has this key, and a type.
    pub(crate) fn remove(&mut self, key: &NameKey, record_type: RecordType) -> Option<RecordSet>
        ensures value { result ≡ rrset_at self.old key.now record_type }
        ensures others { Replaces self.old key.now record_type None self.new }
        ensures ordered { AreInOrder self.new }
    {
        if is_only(self.sets_at(key), record_type) {
            self.owners.remove(key);
            let Some(node) = self.nodes.remove(key) else {
                return None;
            };
            return only(node);
        }
        let Some(node) = self.nodes.get_mut(key) else {
            return None;
        };
        take_out(node, record_type)
    }

    /// Takes out all sets.
    pub(crate) fn clear(&mut self)
        ensures { self.new ≡ [] }
    {
        self.owners.clear();
        self.nodes.clear();
    }
}

// Puts in an owner's key and its sets; where memory is wanting, neither.
fn put_owner(
    owners: &mut BTreeMap<NameKey, ()>,
    nodes: &mut HashMap<NameKey, OneOrMany<RecordSet>>,
    key: NameKey,
    node: OneOrMany<RecordSet>,
) -> Result<(), AllocError>
    ensures nodes { OnOk result ((name : DomainName) → hashed name_eq nodes.new name
        ≡ (if name_eq key name then Some node else hashed name_eq nodes.old name)) }
    ensures owners { OnOk result ((name : DomainName) → get name_cmp owners.new name
        ≡ (if name_eq key name then Some tt else get name_cmp owners.old name)) }
    ensures ordered { OnOk result (IsStrictlySortedBy name_cmp (keys_of owners.new.entries)) }
    ensures err_nodes { OnErr result ((name : DomainName) → hashed name_eq nodes.new name ≡ hashed name_eq nodes.old name) }
    ensures err_owners { OnErr result (owners.new.entries ≡ owners.old.entries) }
{
    if add_owner(owners, nodes, &key).is_err() {
        mem::drop(node);
        mem::drop(key);
        return Err(AllocError);
    }
    insert_reserved(nodes, key, node);
    Ok(())
}

// Puts a value under a key; there is room for one.
fn insert_reserved<K: Eq + Hash + Drop, V: Drop>(map: &mut HashMap<K, V>, key: K, value: V)
    requires { 0 < spare map.old }
    ensures { (k : K) → hashed K.eq map.new k ≡ (if K.eq key k then Some value else hashed K.eq map.old k) }
{
    let _replaced = map.insert(key, value);
}

// Puts in an owner's key, and makes room for its sets.
fn add_owner(
    owners: &mut BTreeMap<NameKey, ()>,
    nodes: &mut HashMap<NameKey, OneOrMany<RecordSet>>,
    key: &NameKey,
) -> Result<(), AllocError>
    ensures nodes { (name : DomainName) → hashed name_eq nodes.new name ≡ hashed name_eq nodes.old name }
    ensures room { OnOk result (0 < spare nodes.new) }
    ensures owners { OnOk result ((name : DomainName) → get name_cmp owners.new name
        ≡ (if name_eq key.now name then Some tt else get name_cmp owners.old name)) }
    ensures ordered { OnOk result (IsStrictlySortedBy name_cmp (keys_of owners.new.entries)) }
    ensures err { OnErr result (owners.new.entries ≡ owners.old.entries) }
{
    nodes.reserve(1)?;
    insert_key(owners, key.clone()?)
}
