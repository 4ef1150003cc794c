//! Lists that are prepared beside stored ones, for updates that are applied whole (RFC 2136 3.7).

ghost use Rattle.std.specs.Prelude.{◌≡◌, ◌<◌, ◌++◌, ◌∷◌, [], None, Some, OnErr, OnOk, length, remove, slice_get, slice_set};
ghost use Rattle.zst_record.specs.Drafts.{Exchanges, IsDraft, drafted};

use std::alloc::{AllocError, Global};
use std::mem;

/// A list that is prepared: new items, and items that are still stored elsewhere. Stored items stay unchanged until
/// `settle`, which can't fail.
#[derive(Drop)]
pub struct Draft<T> {
    // For each item its index among the stored ones, if it is stored; `items` then has a placeholder.
    places: Vec<Option<usize>>,
    items: Vec<T>,
}

impl<T: Drop> Draft<T> {
    /// No items.
    pub fn new(alloc: Global) -> Draft<T>
        ensures places { result.places.items ≡ [] }
        ensures items { result.items.items ≡ [] }
    {
        Draft {
            places: Vec::new(alloc),
            items: Vec::new(alloc),
        }
    }

    /// Appends a new item.
    pub fn push(&mut self, item: T) -> Result<(), AllocError>
        ensures places { OnOk result (self.new.places.items ≡ self.old.places.items ++ None ∷ []) }
        ensures items { OnOk result (self.new.items.items ≡ self.old.items.items ++ item ∷ []) }
        ensures err { OnErr result ((self.new.places.items ≡ self.old.places.items) × (self.new.items.items ≡ self.old.items.items)) }
    {
        self.push_at(None, item)
    }

    /// Appends the item that is stored at an index, with a placeholder.
    pub fn push_stored(&mut self, place: usize, stand_in: T) -> Result<(), AllocError>
        ensures places { OnOk result (self.new.places.items ≡ self.old.places.items ++ Some place ∷ []) }
        ensures items { OnOk result (self.new.items.items ≡ self.old.items.items ++ stand_in ∷ []) }
        ensures err { OnErr result ((self.new.places.items ≡ self.old.places.items) × (self.new.items.items ≡ self.old.items.items)) }
    {
        self.push_at(Some(place), stand_in)
    }

    // Appends an item, and its index among the stored ones.
    fn push_at(&mut self, place: Option<usize>, item: T) -> Result<(), AllocError>
        ensures places { OnOk result (self.new.places.items ≡ self.old.places.items ++ place ∷ []) }
        ensures items { OnOk result (self.new.items.items ≡ self.old.items.items ++ item ∷ []) }
        ensures err { OnErr result ((self.new.places.items ≡ self.old.places.items) × (self.new.items.items ≡ self.old.items.items)) }
    {
        if self.places.try_reserve(1).is_err() || self.items.try_reserve(1).is_err() {
            mem::drop(item);
            return Err(AllocError);
        }
        self.places.push_reserved(place);
        self.items.push_reserved(item);
        Ok(())
    }

    /// Replaces an item by a new one.
    pub fn set(&mut self, at: usize, item: T)
        requires at { at < length self.old.items.items }
        requires long { length self.old.places.items ≡ length self.old.items.items }
        ensures places { self.new.places.items ≡ slice_set self.old.places.items at None }
        ensures items { self.new.items.items ≡ slice_set self.old.items.items at item }
    {
        self.places[at] = None;
        mem::drop(mem::replace(&mut self.items[at], item));
    }

    /// Removes an item.
    pub fn remove(&mut self, at: usize)
        requires at { at < length self.old.items.items }
        requires long { length self.old.places.items ≡ length self.old.items.items }
        ensures places { self.new.places.items ≡ remove self.old.places.items at }
        ensures items { self.new.items.items ≡ remove self.old.items.items at }
    {
        self.places.remove(at);
        mem::drop(self.items.remove(at));
    }

    /// An item of the list, stored or new.
    pub fn get<'d>(&'d self, stored: &'d [T], at: usize) -> &'d T
        requires at { at < length self.now.items.items }
        requires draft { IsDraft (length stored.now) self.now.places.items self.now.items.items }
        ensures { slice_get (drafted stored.now self.now.places.items self.now.items.items) at ≡ Some result.now }
    {
        match self.places[at] {
            Some(place) => &stored[place],
            None => &self.items[at],
        }
    }

    /// The list, with the stored items moved in. It takes no memory.
    pub fn settle(self, stored: &mut [T]) -> Vec<T>
        requires { IsDraft (length stored.old) self.places.items self.items.items }
        ensures { result.items ≡ drafted stored.old self.places.items self.items.items }
    {
        let Draft { places, items } = self;
        let mut items = items;
        move_in(&places, &mut items, stored);
        items
    }
}

// Swaps the stored items for their placeholders.
fn move_in<T>(places: &[Option<usize>], items: &mut [T], stored: &mut [T])
    requires { IsDraft (length stored.old) places.now items.old }
    ensures { items.new ≡ drafted stored.old places.now items.old }
{
    'places: for (at, place) in places.iter().enumerate() {
        if let Some(place) = place {
            exchange(items, at, stored, *place);
        }
    }
}

// Exchanges an item with a stored one.
fn exchange<T>(items: &mut [T], at: usize, stored: &mut [T], place: usize)
    requires item { at < length items.old }
    requires stored { place < length stored.old }
    ensures { Exchanges items.old at stored.old place items.new stored.new }
{
    mem::swap(&mut items[at], &mut stored[place]);
}
