//! The sets of a zone as it keeps them: owners in order, and the sets of each under its key.

ghost use Rattle.std.specs.Prelude.{◌≡◌};
ghost use Rattle.std.specs.Iterator.{YieldsFirstRef, item_count};
ghost use Rattle.zst_handler.specs.Stores.{held, sets_in};

use std::collections::btree_map::Iter;
use std::collections::{BTreeMap, HashMap};
use std::marker::Model;
use zst_key::NameKey;
use zst_record::{OneOrMany, RecordSet};

/// The sets of a zone, borrowed as it keeps them. A contract sees them as a list, in order.
#[derive(Drop)]
pub struct LentSets<'z> {
    owners: &'z BTreeMap<NameKey, ()>,
    nodes: &'z HashMap<NameKey, OneOrMany<RecordSet>>,
}

impl<'z> Model for LentSets<'z> {
    ghost use Rattle.std.specs.Prelude.{List};
    ghost use Rattle.zst_record.specs.RecordSets.{RRset};
    ghost use Rattle.zst_handler.specs.Stores.{sets_in};

    ghost Value = { List RRset };

    ghost view = { λ sets. sets_in sets.nodes.now sets.owners.now.entries };
}

impl<'z> LentSets<'z> {
    /// The sets of these owners, each under its owner's key.
    pub fn new(
        owners: &'z BTreeMap<NameKey, ()>,
        nodes: &'z HashMap<NameKey, OneOrMany<RecordSet>>,
    ) -> LentSets<'z>
        ensures { result ≡ sets_in nodes.now owners.now.entries }
    {
        LentSets { owners, nodes }
    }

    /// The sets, in order.
    pub fn iter(&self) -> ZoneSetsIter<'z>
        ensures { result ≡ self.now }
    {
        ZoneSetsIter {
            current: &[],
            owners: self.owners.iter(),
            nodes: self.nodes,
        }
    }
}

/// The sets of a zone, in order. A contract sees it as those still to come.
#[derive(Drop)]
pub struct ZoneSetsIter<'z> {
    /// The sets of the current owner.
    current: &'z [RecordSet],
    /// The owners after it.
    owners: Iter<'z, NameKey, ()>,
    /// The sets of each owner.
    nodes: &'z HashMap<NameKey, OneOrMany<RecordSet>>,
}

impl<'z> Model for ZoneSetsIter<'z> {
    ghost use Rattle.std.specs.Prelude.{List, ◌++◌};
    ghost use Rattle.zst_record.specs.RecordSets.{RRset};
    ghost use Rattle.zst_handler.specs.Stores.{sets_in};

    ghost Value = { List RRset };

    ghost view = { λ iter. iter.current.now ++ sets_in iter.nodes.now iter.owners };
}

impl<'z> Iterator for ZoneSetsIter<'z> {
    type Item = &'z RecordSet;

    ghost next_gives = { YieldsFirstRef (λ sets. sets) };

    ghost remaining = { item_count (λ sets. sets) };

    fn next(&mut self) -> Option<&'z RecordSet> {
        'owners: loop {
            if let Some((first, later)) = self.current.split_first() {
                self.current = later;
                return Some(first);
            }
            match self.owners.next() {
                Some((owner, _)) => self.current = sets_under(self.nodes, owner),
                None => return None,
            }
        }
    }
}

/// The sets under a key.
pub fn sets_under<'z>(
    nodes: &'z HashMap<NameKey, OneOrMany<RecordSet>>,
    key: &NameKey,
) -> &'z [RecordSet]
    ensures { result.now ≡ held nodes.now key.now }
{
    match nodes.get(key) {
        Some(node) => node.as_slice(),
        None => &[],
    }
}
