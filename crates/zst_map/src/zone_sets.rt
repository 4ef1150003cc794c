//! The sets of a zone, with the names at which a search for cuts and wildcards looks.

ghost use Rattle.std.specs.Prelude.{◌≡◌, [], true, false, Some, None, IfOk, IfSome, OnOk, OnErr, IsSome, is_some, option_copied, option_map};
ghost use Rattle.std.specs.BTreeMap.{get};
ghost use Rattle.zst_key.specs.Ancestors.{nearest_in, parent};
ghost use Rattle.zst_handler.specs.dnw_codes.RecordType.{same_record_type};
ghost use Rattle.zst_handler.specs.dnw_codes.declared.record_type.RecordType.TheVariants as kind;
ghost use Rattle.zst_handler.specs.drd_rdata.Types.{type_of};
ghost use Rattle.zst_handler.specs.dnw_name.DomainName.{DomainName, lowercase_name, name_cmp, name_eq};
ghost use Rattle.zst_handler.specs.Answers.{set_in};
ghost use Rattle.zst_handler.specs.Found.{above, cut_at, cut_found, delegation, found, here};
ghost use Rattle.zst_handler.specs.Lookups.{sets_of_name};
ghost use Rattle.zst_handler.specs.Updates.{Replaces, upsert_changes, upserted};
ghost use Rattle.zst_handler.specs.Zones.{Adds, AreInOrder, exists_in, rrset_at};
ghost use Rattle.zst_handler.specs.zst_record.RecordSets.{RRset};
ghost use Rattle.zst_map.specs.Changes.{alters, made, owner_of, type_in};
ghost use Rattle.zst_map.specs.Edits.{CanEdit, edited};
ghost use Rattle.zst_map.specs.Indexes.{is_denial_type};
ghost use Rattle.zst_map.specs.Preceding.{FindsPreceding};
ghost use Rattle.zst_map.specs.Searches.{IsSearch, lent, looked_for, match_set, sought_in};
ghost use Rattle.zst_map.specs.ZoneMaps.{AreOwners, IsPlace, exists_alike, owned};

use crate::apart::is_kept_out;
use crate::change::Change;
use crate::denials::preceding;
use crate::edit::Edit;
use crate::index::Index;
use crate::map::{Place, ZoneMap};
use crate::node::{cut_of, find_set, here};
use std::alloc::{AllocError, Global};
use std::collections::BTreeMap;
use std::collections::btree_map::Keys;
use std::marker::Model;
use std::mem;
use zst_handler::{AnswerSet, LentSets, Name, Record, RecordSet, RecordType, ZoneSetsIter};
use zst_key::{NameKey, nearest, nearest_above};

/// The set that answers a name and a type.
#[derive(Clone, Copy)]
pub struct Match<'z> {
    /// The set, under its own name.
    pub set: &'z RecordSet,
    /// Whether it is a wildcard's, to be had under the name asked for (RFC 4592 section 3.3.1).
    pub is_wildcard: bool,
}

impl<'z> Match<'z> {
    // A set under its own name.
    fn own(set: &'z RecordSet) -> Match<'z>
        ensures { (name : DomainName) → match_set name result ≡ set.now }
    {
        Match {
            set,
            is_wildcard: false,
        }
    }

    /// The set as it answers the name asked for: a wildcard's stands under that name in lower case.
    #[inline(always)]
    pub fn answer(self, alloc: Global, name: &Name) -> Result<AnswerSet<'z>, AllocError>
        ensures { IfOk result (λ answer. set_in answer ≡ match_set name.now self.entry) }
    {
        if !self.is_wildcard {
            return Ok(AnswerSet::own(self.set));
        }
        let owner = name.to_lowercase()?;
        AnswerSet::renamed(alloc, self.set, owner)
    }
}

/// What a search finds for a name and a type.
#[derive(Clone, Copy)]
pub enum Search<'z> {
    /// The set that answers.
    Found(Match<'z>),
    /// No set does.
    Absent {
        /// Whether the name exists: whether an owner equals it or lies below it (RFC 4592 section 2.2.2).
        exists: bool,
    },
}

/// What is sought at a name and the names above it.
#[derive(Clone, Copy)]
pub(crate) enum Sought {
    /// The name servers of a cut.
    Cut,
    /// What the wildcard below the name answers to a type.
    Wildcard(RecordType),
}

/// The sets of a zone, by owner in canonical order (RFC 4034 section 6.1), then by type.
#[derive(Drop)]
pub struct ZoneSets {
    sets: ZoneMap,
    index: Index,
}

impl Model for ZoneSets {
    ghost use Rattle.std.specs.Prelude.{List};
    ghost use Rattle.zst_handler.specs.zst_record.RecordSets.{RRset};
    ghost use Rattle.zst_map.specs.Indexes.{IsIndexed};

    ghost Value = { List RRset };

    ghost view = { λ zone. zone.sets };

    ghost invariant = { λ zone. IsIndexed zone.index zone.sets };
}

impl ZoneSets {
    /// No sets.
    pub fn new(alloc: Global) -> ZoneSets
        ensures { result ≡ [] }
    {
        ZoneSets {
            sets: ZoneMap::new(alloc),
            index: Index::new(alloc),
        }
    }

    /// The set of a type at the name of a key.
    pub fn get(&self, key: &NameKey, record_type: RecordType) -> Option<&RecordSet>
        ensures { option_copied result ≡ rrset_at self.now key.now record_type }
    {
        self.sets.get(key, record_type)
    }

    /// The IPv4 addresses and the IPv6 addresses at the name of a key.
    pub fn addresses(&self, key: &NameKey) -> (Option<&RecordSet>, Option<&RecordSet>)
        ensures first { option_copied result.0 ≡ rrset_at self.now key.now kind.A }
        ensures second { option_copied result.1 ≡ rrset_at self.now key.now kind.AAAA }
    {
        let sets = self.sets.sets_at(key);
        (
            find_set(sets, RecordType::A),
            find_set(sets, RecordType::AAAA),
        )
    }

    /// All sets at the name of a key, by rising type.
    pub fn sets_at(&self, key: &NameKey) -> &[RecordSet]
        ensures { result.now ≡ sets_of_name self.now key.now }
    {
        self.sets.sets_at(key)
    }

    /// The keys of the owners, in order, each once.
    pub fn owners(&self) -> Keys<'_, NameKey, ()>
        ensures { AreOwners self.now result }
    {
        self.sets.owners()
    }

    /// The set of NSEC or NSEC3 at the name of a key, or else of the owner before it; where no owner is before it, of the
    /// last one. It takes no memory.
    pub fn preceding(&self, key: &NameKey, record_type: RecordType) -> Option<&RecordSet>
        requires { is_denial_type record_type ≡ true }
        ensures { FindsPreceding self.now record_type key.now (option_copied result) }
    {
        preceding(&self.index.denials, &self.sets, key, record_type)
    }

    /// The sets, in order.
    pub fn iter(&self) -> ZoneSetsIter<'_>
        ensures { result ≡ self.now }
    {
        self.lend().iter()
    }

    /// The sets, borrowed as they are kept. It makes no list of them.
    pub fn lend(&self) -> LentSets<'_>
        ensures { result ≡ self.now }
    {
        self.sets.lend()
    }

    /// Whether the name of a key exists: whether an owner equals it or lies below it (RFC 4592 section 2.2.2), whether or
    /// not they end at the root.
    pub fn exists(&self, key: &NameKey) -> Result<bool, AllocError>
        ensures { IfOk result (λ there. there ≡ exists_in self.now key.now) }
    {
        self.exists_given(key, self.sets.place_at(key).exists)
    }

    // What `exists` answers, where it is known whether an owner that ends at the root as the name does, or as the name
    // doesn't, equals the name or lies below it.
    fn exists_given(&self, key: &NameKey, is_alike: bool) -> Result<bool, AllocError>
        requires { is_alike ≡ exists_alike self.now key.now }
        ensures { IfOk result (λ there. there ≡ exists_in self.now key.now) }
    {
        if is_alike {
            return Ok(true);
        }
        if key.is_fqdn() && !self.index.has_relative {
            return Ok(false);
        }
        let mut other = key.clone()?;
        other.to_other_flag();
        Ok(self.sets.place_at(&other).exists)
    }

    /// Adds a record, whose owner has this key, to the set of its owner and type, in place of the one with equal data;
    /// where there is no such set, one is made.
    pub fn add(&mut self, alloc: Global, key: NameKey, next: Record) -> Result<(), AllocError>
        requires { key ≡ lowercase_name next.name }
        ensures ok { OnOk result (Adds self.old next self.new) }
        ensures ordered { OnOk result (AreInOrder self.new) }
        ensures err { OnErr result (self.new ≡ self.old) }
    {
        self.change(alloc, key, Change::Add(next))?;
        Ok(())
    }

    /// Adds a record, whose owner has this key, as an update does (RFC 2136 section 3.4.2.2), and tells whether that
    /// changed the sets.
    pub fn upsert(&mut self, alloc: Global, key: NameKey, next: Record) -> Result<bool, AllocError>
        requires { key ≡ lowercase_name next.name }
        ensures changed { IfOk result (λ changed. changed ≡ upsert_changes self.old next) }
        ensures ok { OnOk result (upsert_changes self.old next ≡ true → Replaces self.old next.name (type_of next.rdata)
            (Some (upserted (rrset_at self.old next.name (type_of next.rdata)) next)) self.new) }
        ensures ordered { OnOk result (upsert_changes self.old next ≡ true → AreInOrder self.new) }
        ensures unchanged { OnOk result (upsert_changes self.old next ≡ false → self.new ≡ self.old) }
        ensures err { OnErr result (self.new ≡ self.old) }
    {
        if is_kept_out(self.sets.sets_at(&key), &next) {
            mem::drop(next);
            mem::drop(key);
            return Ok(false);
        }
        self.change(alloc, key, Change::Upsert(next))
    }

    /// Puts a set, whose owner has this key, in place of the one of its owner and type.
    pub fn put(&mut self, alloc: Global, key: NameKey, set: RecordSet) -> Result<(), AllocError>
        requires { key ≡ lowercase_name set.name }
        ensures ok { OnOk result (Replaces self.old set.name set.record_type (Some set) self.new) }
        ensures ordered { OnOk result (AreInOrder self.new) }
        ensures err { OnErr result (self.new ≡ self.old) }
    {
        self.change(alloc, key, Change::Put(set))?;
        Ok(())
    }

    /// Puts a set in place of the one of its type at the name of a key, which is there. It takes no memory.
    pub fn replace(&mut self, key: &NameKey, set: RecordSet)
        requires owner { name_eq key.now set.name ≡ true }
        requires there { IsSome (rrset_at self.old key.now set.record_type) }
        ensures others { Replaces self.old key.now set.record_type (Some set) self.new }
        ensures ordered { AreInOrder self.new }
    {
        self.sets.replace(key, set);
    }

    // Changes the set of an owner, which has this key, and a type, and tells whether that changed it.
    fn change(&mut self, alloc: Global, key: NameKey, change: Change) -> Result<bool, AllocError>
        requires { key ≡ lowercase_name (owner_of change) }
        ensures changed { IfOk result (λ changed. changed ≡ alters change (rrset_at self.old (owner_of change) (type_in change))) }
        ensures ok { OnOk result (Replaces self.old (owner_of change) (type_in change)
            (Some (made change (rrset_at self.old (owner_of change) (type_in change)))) self.new) }
        ensures ordered { OnOk result (AreInOrder self.new) }
        ensures before { OnOk result (AreInOrder self.old) }
        ensures err { OnErr result (self.new ≡ self.old) }
    {
        let record_type = change.record_type();
        let owns_soa = self.owns_soa(&key, record_type);
        if self
            .index
            .mark(&key, change.name(), record_type, owns_soa)
            .is_err()
        {
            mem::drop(change);
            mem::drop(key);
            return Err(AllocError);
        }
        self.sets.change(alloc, key, change)
    }

    /// Changes the set of a type at the name of a key, which is there, where it is. It takes no memory.
    pub fn edit(&mut self, key: &NameKey, record_type: RecordType, edit: Edit)
        requires { (set : RRset) × (rrset_at self.old key.now record_type ≡ Some set) × CanEdit edit set }
        ensures others { (set : RRset) → rrset_at self.old key.now record_type ≡ Some set → CanEdit edit set
            → Replaces self.old key.now record_type (Some (edited edit set)) self.new }
        ensures ordered { AreInOrder self.new }
    {
        self.sets.edit(key, record_type, edit);
    }

    /// Takes out the set of a type at the name of a key.
    pub fn remove(&mut self, key: &NameKey, record_type: RecordType) -> Option<RecordSet>
        ensures value { result ≡ rrset_at self.old key.now record_type }
        ensures others { Replaces self.old key.now record_type None self.new }
        ensures ordered { AreInOrder self.new }
    {
        self.index.unmark(record_type);
        self.sets.remove(key, record_type)
    }

    /// Takes out all sets.
    pub fn clear(&mut self)
        ensures { self.new ≡ [] }
    {
        self.index.clear();
        self.sets.clear();
    }

    // Whether the name of a key owns an SOA; that is looked up for name servers alone.
    fn owns_soa(&self, key: &NameKey, record_type: RecordType) -> bool
        ensures { same_record_type record_type kind.NS ≡ true → result ≡ is_some (rrset_at self.now key.now kind.SOA) }
    {
        record_type == RecordType::NS && self.get(key, RecordType::SOA).is_some()
    }

    /// Which set answers the name of a key and a type: that of the cut at or above it; else what its own sets answer;
    /// else what the nearest wildcard answers (RFC 1034 section 4.3.2 step 3).
    pub fn search(
        &self,
        key: &NameKey,
        record_type: RecordType,
    ) -> Result<Option<Match<'_>>, AllocError>
        ensures { IfOk result (λ answer. option_map (match_set key.now) answer ≡ found self.now key.now record_type) }
    {
        if let Some(set) = self.own_uncut(key, record_type) {
            return Ok(Some(Match::own(set)));
        }
        match self.find(key, record_type)? {
            Search::Found(set) => Ok(Some(set)),
            Search::Absent { .. } => Ok(None),
        }
    }

    // What the sets at the name of a key answer, where the zone has no cuts. Whether the name exists isn't asked, so that
    // the search is a plain one.
    fn own_uncut(&self, key: &NameKey, record_type: RecordType) -> Option<&RecordSet>
        ensures { IfSome result (λ set. found self.now key.now record_type ≡ Some set.now) }
    {
        if !self.is_uncut() {
            return None;
        }
        here(self.sets.sets_at(key), record_type)
    }

    // Whether it is known that no owner is a cut.
    #[inline(always)]
    fn is_uncut(&self) -> bool
        ensures { result ≡ true → (name : DomainName) → (asked : RecordType) → delegation self.now name asked ≡ None }
    {
        !self.index.has_cuts
    }

    /// What `search` answers; where it answers nothing, whether the name exists. What the name or one of the two names above
    /// it owns is found by a hash. The order of names is searched for an owner further up, and for whether a name exists
    /// that owns nothing; the index of cuts, for a cut above the nearest owner.
    #[inline(always)]
    pub fn find(&self, key: &NameKey, record_type: RecordType) -> Result<Search<'_>, AllocError>
        ensures { IfOk result (IsSearch self.now key.now record_type) }
    {
        if self.is_uncut() {
            return self.find_uncut(key, self.sets.place_at(key), record_type);
        }
        match self.start_above(key) {
            Some(start) => self.find_near(key, start, record_type),
            None => self.find_deep(key, record_type),
        }
    }

    // What `find` answers, by the name's own sets first.
    fn find_deep(&self, key: &NameKey, record_type: RecordType) -> Result<Search<'_>, AllocError>
        ensures { IfOk result (IsSearch self.now key.now record_type) }
    {
        let sets = self.sets.sets_at(key);
        if sets.is_empty() {
            return self.find_above(key, record_type);
        }
        self.find_at(key, Place { sets, exists: true }, record_type)
    }

    // What `find` answers to a name that owns nothing, by the two names above, whose sets a hash finds at once.
    fn find_above(&self, key: &NameKey, record_type: RecordType) -> Result<Search<'_>, AllocError>
        requires { sets_of_name self.now key.now ≡ [] }
        ensures { IfOk result (IsSearch self.now key.now record_type) }
    {
        let mut above = key.clone()?;
        'levels: for _ in 0..2 {
            above.to_parent();
            let sets = self.sets.sets_at(&above);
            if !sets.is_empty() {
                return self.find_below(key, &above, sets, record_type);
            }
        }
        self.find_far(key, record_type)
    }

    // What `find` answers, by the nearest owner from the name up.
    fn find_far(&self, key: &NameKey, record_type: RecordType) -> Result<Search<'_>, AllocError>
        ensures { IfOk result (IsSearch self.now key.now record_type) }
    {
        let Some(near) = self.sets.nearest(key)? else {
            return self.find_start(key, record_type);
        };
        if near.owner.is_below(key) {
            let place = Place {
                sets: near.sets,
                exists: true,
            };
            return self.find_at(key, place, record_type);
        }
        self.find_below(key, near.owner, near.sets, record_type)
    }

    // What `find` answers to a name that owns nothing, by the nearest owner above it with all its sets.
    fn find_below<'z>(
        &'z self,
        key: &NameKey,
        owner: &NameKey,
        sets: &'z [RecordSet],
        record_type: RecordType,
    ) -> Result<Search<'z>, AllocError>
        requires none { owned self.now key.now ≡ None }
        requires nearest { nearest_in (owned self.now) key.now ≡ Some (owner.now, sets.now) }
        ensures { IfOk result (IsSearch self.now key.now record_type) }
    {
        match self.cut_from(owner, sets)? {
            Some(set) => Ok(Search::Found(Match::own(set))),
            None => self.find_unowned(key, record_type, None),
        }
    }

    // What `find` answers to the name of a key, at which this stands.
    #[inline(always)]
    fn find_at<'z>(
        &'z self,
        key: &NameKey,
        place: Place<'z>,
        record_type: RecordType,
    ) -> Result<Search<'z>, AllocError>
        requires own { IsPlace self.now key.now place }
        ensures { IfOk result (IsSearch self.now key.now record_type) }
    {
        if self.is_uncut() {
            return self.find_uncut(key, place, record_type);
        }
        match self.delegation_at(key, place.sets, record_type)? {
            Some(set) => Ok(Search::Found(Match::own(set))),
            None => self.find_uncut(key, place, record_type),
        }
    }

    // The name above that of a key, where it is the first that owns NS, as a zone's start is.
    fn start_above(&self, key: &NameKey) -> Option<&NameKey>
        ensures { IfSome result (λ start. start.now ≡ parent key.now) }
    {
        match self.index.name_servers.first_key_value() {
            Some((start, _)) if key.is_child_of(start) => Some(start),
            _ => None,
        }
    }

    /// What `find` answers, by the name's own sets first, as suits the start of a zone.
    #[inline(always)]
    pub fn find_start(
        &self,
        key: &NameKey,
        record_type: RecordType,
    ) -> Result<Search<'_>, AllocError>
        ensures { IfOk result (IsSearch self.now key.now record_type) }
    {
        self.find_at(key, self.sets.place_at(key), record_type)
    }

    // What `find` answers, from the name above on, at which no index need be searched.
    fn find_near(
        &self,
        key: &NameKey,
        above: &NameKey,
        record_type: RecordType,
    ) -> Result<Search<'_>, AllocError>
        requires { above.now ≡ parent key.now }
        ensures { IfOk result (IsSearch self.now key.now record_type) }
    {
        let place = self.sets.place_at(key);
        match self.delegation_near(key, above, place.sets, record_type)? {
            Some(set) => Ok(Search::Found(Match::own(set))),
            None => self.find_uncut(key, place, record_type),
        }
    }

    // What `find` answers to the name of a key, at which this stands, where no cut is at or above the name.
    #[inline(always)]
    fn find_uncut<'z>(
        &'z self,
        key: &NameKey,
        place: Place<'z>,
        record_type: RecordType,
    ) -> Result<Search<'z>, AllocError>
        requires uncut { delegation self.now key.now record_type ≡ None }
        requires own { IsPlace self.now key.now place }
        ensures { IfOk result (IsSearch self.now key.now record_type) }
    {
        if let Some(set) = here(place.sets, record_type) {
            return Ok(Search::Found(Match::own(set)));
        }
        self.find_unowned(key, record_type, Some(place.exists))
    }

    // What `find` answers to the name of a key whose own sets answer nothing, where no cut is at or above the name. It may
    // be known whether an owner equals the name or lies below it, where both end at the root or neither does.
    fn find_unowned(
        &self,
        key: &NameKey,
        record_type: RecordType,
        is_alike: Option<bool>,
    ) -> Result<Search<'_>, AllocError>
        requires uncut { delegation self.now key.now record_type ≡ None }
        requires own { here self.now record_type key.now ≡ None }
        requires known { IfSome is_alike (λ alike. alike ≡ exists_alike self.now key.now) }
        ensures { IfOk result (IsSearch self.now key.now record_type) }
    {
        if let Some(set) = self.wildcard(key, record_type)? {
            let wildcard = Match {
                set,
                is_wildcard: true,
            };
            return Ok(Search::Found(wildcard));
        }
        match is_alike {
            Some(is_alike) => Ok(Search::Absent {
                exists: self.exists_given(key, is_alike)?,
            }),
            None => Ok(Search::Absent {
                exists: self.exists(key)?,
            }),
        }
    }

    // What `delegation` answers, by the name's own sets first.
    #[inline(always)]
    fn delegation_at<'z>(
        &'z self,
        key: &NameKey,
        sets: &'z [RecordSet],
        record_type: RecordType,
    ) -> Result<Option<&'z RecordSet>, AllocError>
        requires own { sets.now ≡ sets_of_name self.now key.now }
        ensures { IfOk result (λ servers. option_copied servers ≡ delegation self.now key.now record_type) }
    {
        match cut_of(sets) {
            Some(cut) if record_type != RecordType::DS => Ok(cut),
            _ => self.delegation(key, record_type),
        }
    }

    // What `delegation` answers, by the name's own sets first, and those of the name above.
    fn delegation_near<'z>(
        &'z self,
        key: &NameKey,
        above: &NameKey,
        sets: &'z [RecordSet],
        record_type: RecordType,
    ) -> Result<Option<&'z RecordSet>, AllocError>
        requires above { above.now ≡ parent key.now }
        requires own { sets.now ≡ sets_of_name self.now key.now }
        ensures { IfOk result (λ servers. option_copied servers ≡ delegation self.now key.now record_type) }
    {
        if record_type == RecordType::DS {
            return self.delegation(key, record_type);
        }
        if let Some(servers) = cut_of(sets) {
            return Ok(servers);
        }
        match cut_of(self.sets.sets_at(above)) {
            Some(servers) => Ok(servers),
            None => self.delegation(key, record_type),
        }
    }

    // The name servers of the cut that the name of a key lies at or below; of those above it where the parent's side is
    // asked (RFC 4035 section 3.1.4.1).
    fn delegation(
        &self,
        key: &NameKey,
        record_type: RecordType,
    ) -> Result<Option<&RecordSet>, AllocError>
        ensures { IfOk result (λ servers. option_copied servers ≡ delegation self.now key.now record_type) }
    {
        let cut = if record_type == RecordType::DS {
            self.above(key, Sought::Cut)?
        } else {
            self.nearest(key, Sought::Cut)?
        };
        Ok(cut.flatten())
    }

    // What the nearest wildcard above the name of a key answers to a type, under the wildcard's name.
    fn wildcard(
        &self,
        key: &NameKey,
        record_type: RecordType,
    ) -> Result<Option<&RecordSet>, AllocError>
        ensures { IfOk result (λ set. option_copied set ≡ looked_for (above (sought_in self.now (Sought.Wildcard record_type)) key.now)) }
    {
        if self.index.wildcards.is_empty() {
            return Ok(None);
        }
        Ok(self.above(key, Sought::Wildcard(record_type))?.flatten())
    }

    // The name servers of the cut that an owner, whose sets these are, is or lies below.
    fn cut_from<'z>(
        &'z self,
        owner: &NameKey,
        sets: &'z [RecordSet],
    ) -> Result<Option<&'z RecordSet>, AllocError>
        requires { sets.now ≡ sets_of_name self.now owner.now }
        ensures { IfOk result (λ servers. option_copied servers ≡ cut_found (nearest_in (cut_at self.now) owner.now)) }
    {
        match cut_of(sets) {
            Some(cut) => Ok(cut),
            None => Ok(self.above(owner, Sought::Cut)?.flatten()),
        }
    }

    // What is sought, at the name of a key or else at the nearest name above it.
    fn nearest(
        &self,
        key: &NameKey,
        sought: Sought,
    ) -> Result<Option<Option<&RecordSet>>, AllocError>
        ensures { IfOk result (λ at. lent at ≡ option_map (λ found. found.1) (nearest_in (sought_in self.now sought) key.now)) }
    {
        let Some((owner, _)) = nearest(self.names(sought), key)? else {
            return Ok(None);
        };
        let found = self.sought_at(owner, sought)?;
        if found.is_some() {
            return Ok(found);
        }
        self.above(owner, sought)
    }

    // What is sought, at the nearest name above that of a key.
    fn above(&self, key: &NameKey, sought: Sought) -> Result<Option<Option<&RecordSet>>, AllocError>
        ensures { IfOk result (λ at. lent at ≡ option_map (λ found. found.1) (above (sought_in self.now sought) key.now)) }
    {
        if key.is_root() {
            return Ok(None);
        }
        let Some((owner, _)) = nearest_above(self.names(sought), key)? else {
            return Ok(None);
        };
        let found = self.sought_at(owner, sought)?;
        if found.is_some() {
            return Ok(found);
        }
        self.climb(owner, sought)
    }

    // The same, level by level. Each turn of the loop goes up at least one label.
    fn climb(&self, key: &NameKey, sought: Sought) -> Result<Option<Option<&RecordSet>>, AllocError>
        ensures { IfOk result (λ at. lent at ≡ option_map (λ found. found.1) (above (sought_in self.now sought) key.now)) }
    {
        let mut at = key.clone()?;
        'levels: while !at.is_root() {
            at.to_parent();
            let Some((owner, _)) = nearest(self.names(sought), &at)? else {
                return Ok(None);
            };
            let found = self.sought_at(owner, sought)?;
            if found.is_some() {
                return Ok(found);
            }
            at = owner.clone()?;
        }
        Ok(None)
    }

    // The names at which what is sought may be.
    fn names(&self, sought: Sought) -> &BTreeMap<NameKey, ()>
        ensures { (name : DomainName) → IsSome (sought_in self.now sought name) → IsSome (get name_cmp result.now name) }
    {
        match sought {
            Sought::Cut => &self.index.name_servers,
            Sought::Wildcard(_) => &self.index.wildcards,
        }
    }

    // What is sought, at the name of a key.
    fn sought_at(
        &self,
        key: &NameKey,
        sought: Sought,
    ) -> Result<Option<Option<&RecordSet>>, AllocError>
        ensures { IfOk result (λ at. lent at ≡ sought_in self.now sought key.now) }
    {
        match sought {
            Sought::Cut => Ok(cut_of(self.sets.sets_at(key))),
            Sought::Wildcard(record_type) => {
                let mut star = key.clone()?;
                star.to_star()?;
                Ok(here(self.sets.sets_at(&star), record_type).map(Some))
            }
        }
    }
}
