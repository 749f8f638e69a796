//! The first item of each participant.

ghost use Rattle.std.specs.Prelude.{◌≡◌, ◌==◌, ◌+◌, ◌^◌, ◌<◌, ◌≤◌, ◌⊎◌, List, [], ◌∷◌, ◌++◌, length, true, false, Ok, None, IsSome, IfOk, IfErr, OnErr, MatchResult, slice_index_or, IsPermutation};
ghost use Rattle.std.specs.Iterator.{YieldsFirstRef, item_count};
ghost use Rattle.std.specs.Option.{option_copied};
ghost use Rattle.simplex_evidence.specs.VoteMap.{item_of, IsBySigner, AreParticipants, AddsOnly, IsFirsts, signers_among, IsGap};

use simplex_base::positions::Participant;
use simplex_votes::types::Attributable;
use std::alloc::{AllocError, Global};
use std::marker::Model;

/// A map from participants to the first item that each of them signed.
///
/// It allocates once: the first item allocates for all participants.
#[derive(Drop)]
pub struct AttributableMap<T: Attributable> {
    participants: usize,
    items: Vec<T>,
}

impl<T: Attributable> Model for AttributableMap<T> {
    ghost use Rattle.std.specs.Prelude.{◌<◌, ◌≤◌, length};
    ghost use Rattle.std.specs.Vec.{vec_capacity};
    ghost use Rattle.simplex_evidence.specs.VoteMap.{VoteMap, IsBySigner, AreParticipants};

    ghost Value = { VoteMap T };

    ghost view = { λ map. record { participants = map.participants; items = map.items.items } };

    ghost invariant = { λ map. IsBySigner T.signer_of map.items.items ×
        AreParticipants T.signer_of map.participants map.items.items ×
        (0 < length map.items.items → map.participants ≤ vec_capacity map.items) };
}

impl<T: Attributable> AttributableMap<T> {
    /// A map without items for this many participants, whose numbers are those below it. It allocates nothing yet;
    /// the first item is allocated from `alloc`.
    pub fn new(alloc: Global, participants: usize) -> Self
        ensures value { result ≡ record { participants = participants; items = [] } }
        ensures firsts { IsFirsts T.signer_of participants [] result.items }
    {
        AttributableMap {
            participants,
            items: Vec::new(alloc),
        }
    }

    /// Inserts an item, if its signer is a participant and has none yet, and returns whether it did. An item that
    /// is not inserted is dropped.
    ///
    /// `AllocError` only where the allocation for the first item failed; the map is then as before. Once there is an
    /// item, no insertion fails until `clear`.
    pub fn insert(&mut self, item: T) -> Result<bool, AllocError>
    where
        T: Drop,
        ensures participants { self.new.participants ≡ self.old.participants }
        ensures added { result ≡ Ok true → AddsOnly T.signer_of self.old.items self.new.items item }
        // The items are the old ones and this one,
        ensures more { result ≡ Ok true → IsPermutation (item ∷ self.old.items) self.new.items }
        // in the order of their signers, who are participants.
        ensures ordered { IsBySigner T.signer_of self.new.items }
        ensures within { AreParticipants T.signer_of self.new.participants self.new.items }
        ensures fresh { result ≡ Ok true → (T.signer_of item < self.old.participants) ×
            (item_of T.signer_of self.old.items (T.signer_of item) ≡ None) }
        ensures kept { result ≡ Ok false → self.new.items ≡ self.old.items }
        ensures taken { result ≡ Ok false → (self.old.participants ≤ T.signer_of item) ⊎
            IsSome (item_of T.signer_of self.old.items (T.signer_of item)) }
        ensures refused { OnErr result ((self.new.items ≡ self.old.items) × (self.old.items ≡ []) ×
            (T.signer_of item < self.old.participants)) }
        // After any list of calls the map has the first items of those that did not fail.
        ensures firsts { (inserted : List T) →
            IsFirsts T.signer_of self.old.participants inserted self.old.items →
            MatchResult result (λ _.
            IsFirsts T.signer_of self.new.participants (inserted ++ item ∷ []) self.new.items)
            (λ _. IsFirsts T.signer_of self.new.participants inserted self.new.items) }
    {
        let signer = item.signer();
        if signer.get() as usize >= self.participants {
            return Ok(false);
        }
        let Err(place) = place_of(&self.items, signer) else {
            return Ok(false);
        };
        // The capacity for all participants, which is there once an item is.
        self.items
            .try_reserve_exact(self.participants - self.items.len())?;
        self.items.insert(place, item)?;
        Ok(true)
    }

    /// The item of a participant, if it has one.
    pub fn get(&self, signer: Participant) -> Option<&T>
        ensures { option_copied result ≡ item_of T.signer_of self.now.items signer }
    {
        match place_of(&self.items, signer) {
            Ok(place) => Some(&self.items[place]),
            Err(_) => None,
        }
    }

    /// The number of items, which is at most that of the participants.
    pub fn len(&self) -> usize
        ensures items { result ≡ length self.now.items }
        ensures most { result ≤ self.now.participants }
        // It is the number of participants that signed something of what was inserted.
        ensures signers { (inserted : List T) →
            IsFirsts T.signer_of self.now.participants inserted self.now.items →
            result ≡ signers_among T.signer_of self.now.participants inserted }
    {
        self.items.len()
    }

    /// Whether there is no item.
    pub fn is_empty(&self) -> bool
        ensures { result ≡ (length self.now.items == 0) }
    {
        self.items.is_empty()
    }

    /// Drops all items and frees their memory. The number of participants stays.
    pub fn clear(&mut self)
    where
        T: Drop,
        ensures value { self.new ≡ record self.old { items = [] } }
        ensures firsts { IsFirsts T.signer_of self.new.participants [] self.new.items }
    {
        let alloc = *self.items.allocator();
        self.items = Vec::new(alloc);
    }

    /// The items, in the order of their signers.
    pub fn as_slice(&self) -> &[T]
        ensures items { result.now ≡ self.now.items }
        ensures ordered { IsBySigner T.signer_of self.now.items }
        ensures within { AreParticipants T.signer_of self.now.participants self.now.items }
    {
        self.items.as_slice()
    }

    /// The items one by one, in the order of their signers.
    pub fn iter(&self) -> AttributableIter<'_, T>
        ensures items { result ≡ self.now.items }
        ensures ordered { IsBySigner T.signer_of self.now.items }
        ensures within { AreParticipants T.signer_of self.now.participants self.now.items }
        ensures small { length self.now.items < 2 ^ 64 }
        // What was inserted determines the items and their order.
        ensures single { (inserted others : List T) →
            IsFirsts T.signer_of self.now.participants inserted self.now.items →
            IsFirsts T.signer_of self.now.participants inserted others → others ≡ self.now.items }
    {
        AttributableIter { rest: &self.items }
    }
}

/// The items of a map, each once, in the order of their signers.
#[derive(Drop)]
pub struct AttributableIter<'a, T> {
    rest: &'a [T],
}

impl<'a, T> Model for AttributableIter<'a, T> {
    ghost Value = { List T };

    ghost view = { λ iter. iter.rest.now };
}

impl<'a, T> Iterator for AttributableIter<'a, T> {
    type Item = &'a T;

    ghost next_gives = { YieldsFirstRef (λ items. items) };

    ghost remaining = { item_count (λ items. items) };

    fn next(&mut self) -> Option<&'a T> {
        let (first, others) = self.rest.split_first()?;
        self.rest = others;
        Some(first)
    }
}

/// The index of a signer's item, or else the index at which it would be inserted.
fn place_of<T: Attributable>(items: &[T], signer: Participant) -> Result<usize, usize>
    requires { IsBySigner T.signer_of items.now }
    ensures found { IfOk result (λ place. (place < length items.now) ×
        ((d : T) → T.signer_of (slice_index_or items.now place d) ≡ signer)) }
    ensures gap { IfErr result (IsGap T.signer_of items.now signer) }
{
    match items.last() {
        Some(last) if last.signer().get() < signer.get() => Err(items.len()),
        _ => items.binary_search_by_key(&signer.get(), |item| item.signer().get()),
    }
}
