//! Items in the order of their keys.

ghost use Rattle.std.specs.Prelude.{◌≡◌, ◌==◌, ◌<◌, ◌≤◌, ℕ, List, [], length, true, false, Ok, None, IsSome, IsTrue, IfOk, IfErr, OnErr, slice_index_or};
ghost use Rattle.std.specs.List.{slice_get};
ghost use Rattle.std.specs.Option.{option_copied};
ghost use Rattle.simplex_evidence.specs.VoteMap.{item_of, IsBySigner, AddsOnly, IsGap};

use std::alloc::{AllocError, Global};
use std::marker::Model;

/// An item with a key, a number.
pub trait Keyed {
    /// The key of an item.
    ghost key_of: { Self → ℕ };

    /// The key.
    fn key(&self) -> u64
        ensures { result ≡ key_of self.now };
}

/// Items in the order of their keys, at most one of each key.
#[derive(Drop)]
pub struct SortedList<T: Keyed> {
    items: Vec<T>,
}

impl<T: Keyed> Model for SortedList<T> {
    ghost use Rattle.std.specs.Prelude.{List};
    ghost use Rattle.simplex_evidence.specs.VoteMap.{IsBySigner};

    ghost Value = { List T };

    ghost view = { λ list. list.items.items };

    ghost invariant = { λ list. IsBySigner T.key_of list.items.items };
}

impl<T: Keyed> SortedList<T> {
    /// No items yet. It allocates nothing.
    pub fn new(alloc: Global) -> Self
        ensures { result ≡ [] }
    {
        SortedList {
            items: Vec::new(alloc),
        }
    }

    /// How many items there are.
    pub fn len(&self) -> usize
        ensures { result ≡ length self.now }
    {
        self.items.len()
    }

    /// Whether there is no item.
    pub fn is_empty(&self) -> bool
        ensures { result ≡ (length self.now == 0) }
    {
        self.items.is_empty()
    }

    /// The items, in the order of their keys.
    pub fn as_slice(&self) -> &[T]
        ensures items { result.now ≡ self.now }
        ensures ordered { IsBySigner T.key_of self.now }
    {
        self.items.as_slice()
    }

    /// The index of a key's item, or else the index at which it would be inserted. The item at the index `near` is looked at
    /// first, and then whether one would be inserted there; if neither is so the items are searched by halving.
    pub fn find(&self, near: usize, key: u64) -> Result<usize, usize>
        ensures found { IfOk result (λ place. (place < length self.now) ×
            (IsSome (item_of T.key_of self.now key) ×
            (slice_get self.now place ≡ item_of T.key_of self.now key))) }
        ensures none { OnErr result (item_of T.key_of self.now key ≡ None) }
        ensures gap { IfErr result (IsGap T.key_of self.now key) }
    {
        place_of(&self.items, near, key)
    }

    /// The item of a key, if there is one.
    pub fn get(&self, key: u64) -> Option<&T>
        ensures { option_copied result ≡ item_of T.key_of self.now key }
    {
        match place_of(&self.items, self.items.len(), key) {
            Ok(place) => Some(&self.items[place]),
            Err(_) => None,
        }
    }

    /// Reserves room for this many more items, and no more, if there is room for none. No item is lost.
    /// `AllocError` only where an allocation failed.
    pub fn make_room(&mut self, additional: usize) -> Result<(), AllocError>
        ensures { self.new ≡ self.old }
    {
        if self.items.len() < self.items.capacity() {
            return Ok(());
        }
        self.items.try_reserve_exact(additional)
    }

    /// Inserts an item, if there is none of its key, and returns whether it did. Its place is looked for as `find` does. An
    /// item that is not inserted is dropped. `AllocError` only where an allocation failed; the list is then as before.
    pub fn insert(&mut self, near: usize, item: T) -> Result<bool, AllocError>
    where
        T: Drop,
        ensures added { result ≡ Ok true → AddsOnly T.key_of self.old self.new item }
        ensures fresh { result ≡ Ok true → item_of T.key_of self.old (T.key_of item) ≡ None }
        ensures recorded { result ≡ Ok false → self.new ≡ self.old }
        ensures taken { result ≡ Ok false → IsSome (item_of T.key_of self.old (T.key_of item)) }
        ensures refused { OnErr result (self.new ≡ self.old) }
    {
        let key = item.key();
        let Err(place) = place_of(&self.items, near, key) else {
            return Ok(false);
        };
        self.items.insert(place, item)?;
        Ok(true)
    }
}

/// The index of a key's item, or else the index at which it would be inserted: at the index `near` or where halving ends.
fn place_of<T: Keyed>(items: &[T], near: usize, key: u64) -> Result<usize, usize>
    requires { IsBySigner T.key_of items.now }
    ensures found { IfOk result (λ place. (place < length items.now) ×
        ((d : T) → T.key_of (slice_index_or items.now place d) ≡ key)) }
    ensures gap { IfErr result (IsGap T.key_of items.now key) }
{
    if let Some(item) = items.get(near) {
        if item.key() == key {
            return Ok(near);
        }
    }
    if is_gap(items, near, key) {
        return Err(near);
    }
    items.binary_search_by_key(&key, |item| item.key())
}

/// Whether an item of a key would be inserted at an index.
fn is_gap<T: Keyed>(items: &[T], place: usize, key: u64) -> bool
    requires { IsBySigner T.key_of items.now }
    ensures { IsTrue result → IsGap T.key_of items.now key place }
{
    place <= items.len() && is_above(items, place, key) && is_below(items, place, key)
}

/// Whether a key is above those of the items before an index.
fn is_above<T: Keyed>(items: &[T], place: usize, key: u64) -> bool
    requires ordered { IsBySigner T.key_of items.now }
    requires place { place ≤ length items.now }
    ensures { IsTrue result → (i : ℕ) (d : T) → i < place →
        T.key_of (slice_index_or items.now i d) < key }
{
    if place == 0 {
        return true;
    }
    items[place - 1].key() < key
}

/// Whether a key is below those of the items from an index on.
fn is_below<T: Keyed>(items: &[T], place: usize, key: u64) -> bool
    requires ordered { IsBySigner T.key_of items.now }
    requires place { place ≤ length items.now }
    ensures { IsTrue result → (i : ℕ) (d : T) → place ≤ i → i < length items.now →
        key < T.key_of (slice_index_or items.now i d) }
{
    if place == items.len() {
        return true;
    }
    key < items[place].key()
}
