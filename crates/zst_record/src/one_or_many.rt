//! Lists of at least one item.

ghost use Rattle.std.specs.Prelude.{◌≡◌, ◌<◌, ◌≤◌, ◌∷◌, [], length, OnErr, OnOk, slice_get, slice_set, vec_capacity};
ghost use Rattle.std.specs.List.{insert, remove};
ghost use Rattle.std.specs.Mem.{FitsInMemory};
ghost use Rattle.zst_record.specs.Drafts.{IsDraft, drafted};
ghost use Rattle.zst_record.specs.OneOrMany.{is_one, items_of};

use crate::draft::Draft;
use std::alloc::{AllocError, Global};
use std::{mem, slice};

/// A list of at least one item. One item takes no memory beside the list's own.
#[derive(Drop)]
pub enum OneOrMany<T> {
    /// One item.
    One(T),
    /// Some items.
    Many(Vec<T>),
}

impl<T> OneOrMany<T> {
    /// The items.
    #[inline(always)]
    pub fn as_slice(&self) -> &[T]
        requires { FitsInMemory T.row }
        ensures { result.now ≡ items_of self.now }
    {
        match self {
            OneOrMany::One(item) => slice::from_ref(item),
            OneOrMany::Many(items) => items,
        }
    }
}

impl<T: Drop> OneOrMany<T> {
    /// Puts an item in the place of another.
    pub fn set(&mut self, place: usize, item: T)
        requires { place < length (items_of self.old) }
        ensures { items_of self.new ≡ slice_set (items_of self.old) place item }
    {
        match self {
            OneOrMany::One(only) => *only = item,
            OneOrMany::Many(items) => items[place] = item,
        }
    }

    /// Puts an item in the place of all.
    pub(crate) fn set_only(&mut self, item: T)
        ensures { items_of self.new ≡ item ∷ [] }
    {
        *self = OneOrMany::One(item);
    }

    /// These items, at least one.
    pub(crate) fn from_vec(items: Vec<T>) -> OneOrMany<T>
        requires { 0 < length items.items }
        ensures items { items_of result ≡ items.items }
        ensures one { length items.items ≡ 1 → is_one result }
    {
        let mut items = items;
        if items.len() == 1 {
            if let Some(only) = items.pop() {
                return OneOrMany::One(only);
            }
        }
        OneOrMany::Many(items)
    }

    /// Settles a draft over the items, which it leaves in any state.
    pub(crate) fn settle(&mut self, draft: Draft<T>) -> Vec<T>
        requires fits { FitsInMemory T.row }
        requires draft { IsDraft (length (items_of self.old)) draft.places.items draft.items.items }
        ensures { result.items ≡ drafted (items_of self.old) draft.places.items draft.items.items }
    {
        match self {
            OneOrMany::One(only) => draft.settle(slice::from_mut(only)),
            OneOrMany::Many(items) => draft.settle(items),
        }
    }

    /// Puts an item in at a place.
    pub fn insert(&mut self, alloc: Global, place: usize, item: T) -> Result<(), AllocError>
        requires { place ≤ length (items_of self.old) }
        ensures ok { OnOk result (items_of self.new ≡ insert (items_of self.old) place item) }
        ensures err { OnErr result (items_of self.new ≡ items_of self.old) }
    {
        match self {
            OneOrMany::One(_) => self.insert_second(alloc, place, item),
            OneOrMany::Many(items) => {
                items.insert(place, item)?;
                Ok(())
            }
        }
    }

    // Puts an item in beside the only one.
    fn insert_second(&mut self, alloc: Global, place: usize, item: T) -> Result<(), AllocError>
        requires one { is_one self.old }
        requires place { place ≤ 1 }
        ensures ok { OnOk result (items_of self.new ≡ insert (items_of self.old) place item) }
        ensures err { OnErr result (self.new ≡ self.old) }
    {
        let room = Vec::with_capacity(alloc, 2)?;
        let OneOrMany::One(only) = mem::replace(self, OneOrMany::Many(Vec::new(alloc))) else {
            return Ok(());
        };
        *self = OneOrMany::Many(pair(room, only, place, item));
        Ok(())
    }

    /// Takes out the item at a place, where there are more.
    pub fn remove(&mut self, place: usize) -> Option<T>
        requires place { place < length (items_of self.old) }
        requires more { 1 < length (items_of self.old) }
        ensures value { result ≡ slice_get (items_of self.old) place }
        ensures rest { items_of self.new ≡ remove (items_of self.old) place }
    {
        match self {
            OneOrMany::One(_) => None,
            OneOrMany::Many(items) => Some(items.remove(place)),
        }
    }
}

// One item and another, which is put in at a place.
fn pair<T>(room: Vec<T>, only: T, place: usize, item: T) -> Vec<T>
    requires { (room.items ≡ []) × (2 ≤ vec_capacity room) × (place ≤ 1) }
    ensures { result.items ≡ insert (only ∷ []) place item }
{
    let mut items = room;
    if place == 0 {
        items.push_reserved(item);
        items.push_reserved(only);
    } else {
        items.push_reserved(only);
        items.push_reserved(item);
    }
    items
}
