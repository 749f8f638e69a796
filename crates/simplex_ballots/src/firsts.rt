//! The earliest votes of a kind, by signers.

ghost use Rattle.std.specs.Prelude.{◌≡◌, ◌≢◌, ◌^◌, ◌<◌, ◌≤◌, ◌++◌, [], ◌∷◌, length, false, true, Ok, None, Some, IfOk, IfSome, IsSome, OnOk, OnErr, option_map, slice_index_or};
ghost use Rattle.std.specs.List.{flat_map};
ghost use Rattle.simplex_evidence.specs.VoteMap.{AddsOnly, item_of};
ghost use Rattle.simplex_ballots.specs.Firsts.{first_key, first_place_of, held_from, vacant};

use crate::room::more_room;
use simplex_base::positions::Participant;
use simplex_evidence::sorted::{Keyed, SortedList};
use std::alloc::{AllocError, Global};
use std::marker::Model;

/// The place in a table of a participant who has no vote.
pub const VACANT: u32 = u32::MAX;

/// Where a signer's earliest vote of a kind stands, in 8 bytes.
#[derive(Clone, Copy)]
pub struct First {
    /// Who signed it.
    pub signer: Participant,
    /// Its place among the ballots of its round.
    pub place: u32,
}

impl Keyed for First {
    ghost key_of = { λ first. first.signer };

    fn key(&self) -> u64 {
        u64::from(self.signer.get())
    }
}

/// In the order of the signers, or a table of the places of all participants.
#[derive(Drop)]
enum Held {
    Few(SortedList<First>),
    Many(Vec<u32>),
}

/// The earliest votes of a kind. Of a sixteenth of the participants and more there is a table, so that none is searched or
/// moved, in whatever order they come.
#[derive(Drop)]
pub struct Firsts {
    held: Held,
}

impl Model for Firsts {
    ghost use Rattle.std.specs.Prelude.{List};
    ghost use Rattle.simplex_ballots.specs.declared.firsts.First.{First};
    ghost use Rattle.simplex_ballots.specs.Firsts.{IsHeld, firsts_of};

    ghost Value = { List First };

    ghost view = { λ firsts. firsts_of firsts.held };

    ghost invariant = { λ firsts. IsHeld firsts.held };
}

impl Firsts {
    /// No votes yet. It allocates nothing.
    pub fn new(alloc: Global) -> Self
        ensures { result ≡ [] }
    {
        Firsts {
            held: Held::Few(SortedList::new(alloc)),
        }
    }

    /// How many there are.
    pub fn len(&self) -> usize
        ensures { result ≡ length self.now }
    {
        match &self.held {
            Held::Few(few) => few.len(),
            Held::Many(places) => count_in(places),
        }
    }

    /// The place of a signer's vote, or else a hint for `insert`.
    pub fn find(&self, signer: Participant) -> Result<usize, usize>
        ensures found { IfOk result (λ place.
            option_map first_place_of (item_of first_key self.now signer) ≡ Some place) }
        ensures none { OnErr result (item_of first_key self.now signer ≡ None) }
    {
        match &self.held {
            Held::Few(few) => find_few(few, signer),
            Held::Many(places) => find_in(places, signer),
        }
    }

    /// Makes room for one more vote, in a round of this many participants. `AllocError` only where an allocation failed. All is
    /// as before.
    pub fn make_room(&mut self, alloc: Global, participants: usize) -> Result<(), AllocError>
        ensures { self.new ≡ self.old }
    {
        let table = match &mut self.held {
            Held::Many(_) => None,
            Held::Few(few) => {
                if few.len() < participants / 16 {
                    let more = more_room(few.len(), participants);
                    few.make_room(more)?;
                    None
                } else {
                    table_of(alloc, few, participants)?
                }
            }
        };
        if let Some(places) = table {
            self.held = Held::Many(places);
        }
        Ok(())
    }

    /// Inserts a vote, if there is none of its signer, and returns whether it did. `near` is what `find` returned. `AllocError`
    /// only where an allocation failed; then all is as before.
    pub fn insert(&mut self, near: usize, first: First) -> Result<bool, AllocError>
        requires { first.place ≢ vacant }
        ensures added { result ≡ Ok true → AddsOnly first_key self.old self.new first }
        ensures recorded { result ≡ Ok false → self.new ≡ self.old }
        ensures taken { result ≡ Ok false → IsSome (item_of first_key self.old first.signer) }
        ensures refused { OnErr result (self.new ≡ self.old) }
    {
        match &mut self.held {
            Held::Few(few) => few.insert(near, first),
            Held::Many(places) => insert_in(places, first),
        }
    }

    /// Appends their signers.
    pub fn add_signers_to(&self, signers: &mut Vec<u32>) -> Result<(), AllocError>
        ensures { OnOk result (signers.new.items ≡ signers.old.items ++
            flat_map (λ first. first_key first ∷ []) self.now) }
    {
        match &self.held {
            Held::Few(few) => add_few_to(few.as_slice(), signers),
            Held::Many(places) => add_held_to(places, signers),
        }
    }
}

/// The place of a signer's vote in a list, or else where in the list it would be inserted. If all smaller participants have a
/// vote there, it is found at once.
fn find_few(few: &SortedList<First>, signer: Participant) -> Result<usize, usize>
    ensures found { IfOk result (λ place.
        option_map first_place_of (item_of first_key few.now signer) ≡ Some place) }
    ensures none { OnErr result (item_of first_key few.now signer ≡ None) }
{
    let near = few.len().min(signer.get() as usize);
    let index = few.find(near, u64::from(signer.get()))?;
    let first = &few.as_slice()[index];
    Ok(first.place as usize)
}

/// Appends the signers in a list.
fn add_few_to(few: &[First], signers: &mut Vec<u32>) -> Result<(), AllocError>
    ensures { OnOk result (signers.new.items ≡ signers.old.items ++
        flat_map (λ first. first_key first ∷ []) few.now) }
{
    'few: for first in few {
        signers.push(first.signer.get())?;
    }
    Ok(())
}

/// The table of the votes in a list, with room for this many participants; `None` if a table cannot hold them.
fn table_of(
    alloc: Global,
    few: &SortedList<First>,
    participants: usize,
) -> Result<Option<Vec<u32>>, AllocError>
    ensures held { IfOk result (λ table. IfSome table (λ places.
        (held_from 0 places.items ≡ few.now) × (length places.items ≤ 2 ^ 32))) }
    ensures filled { participants < 2 ^ 32 → IfOk result (λ table. IfSome table (λ places.
        participants ≤ length places.items)) }
{
    let mut places = Vec::with_capacity(alloc, participants)?;
    'few: for first in few.as_slice() {
        let index = first.signer.get() as usize;
        if index < places.len() || first.place == VACANT {
            return Ok(None);
        }
        places.resize(index, VACANT)?;
        places.push(first.place)?;
    }
    fill_places(&mut places, participants)?;
    Ok(Some(places))
}

/// Makes a table as long as there are participants, so that none is made longer for a vote. The votes in it stay.
fn fill_places(places: &mut Vec<u32>, participants: usize) -> Result<(), AllocError>
    ensures votes { OnOk result (held_from 0 places.new.items ≡ held_from 0 places.old.items) }
    ensures size { length places.old.items ≤ 2 ^ 32 → OnOk result (length places.new.items ≤ 2 ^ 32) }
    ensures filled { participants < 2 ^ 32 → OnOk result (participants ≤ length places.new.items) }
{
    if places.len() < participants && participants <= VACANT as usize {
        places.resize(participants, VACANT)?;
    }
    Ok(())
}

/// The place of a participant in a table.
fn place_in(places: &[u32], signer: Participant) -> u32
    ensures { result ≡ slice_index_or places.now signer vacant }
{
    match places.get(signer.get() as usize) {
        None => VACANT,
        Some(place) => *place,
    }
}

/// The place of a signer's vote in a table.
fn find_in(places: &[u32], signer: Participant) -> Result<usize, usize>
    ensures found { IfOk result (λ place.
        option_map first_place_of (item_of first_key (held_from 0 places.now) signer) ≡ Some place) }
    ensures none { OnErr result (item_of first_key (held_from 0 places.now) signer ≡ None) }
{
    let place = place_in(places, signer);
    if place == VACANT {
        return Err(0);
    }
    Ok(place as usize)
}

/// Inserts a vote in a table, as [`Firsts::insert`] does.
fn insert_in(places: &mut Vec<u32>, first: First) -> Result<bool, AllocError>
    requires { first.place ≢ vacant }
    ensures added { result ≡ Ok true →
        AddsOnly first_key (held_from 0 places.old.items) (held_from 0 places.new.items) first }
    ensures recorded { result ≡ Ok false → places.new.items ≡ places.old.items }
    ensures taken { result ≡ Ok false →
        IsSome (item_of first_key (held_from 0 places.old.items) first.signer) }
    ensures refused { OnErr result (places.new.items ≡ places.old.items) }
    ensures size { length places.old.items ≤ 2 ^ 32 → length places.new.items ≤ 2 ^ 32 }
{
    if place_in(places, first.signer) != VACANT {
        return Ok(false);
    }
    let index = first.signer.get() as usize;
    if places.len() <= index {
        places.resize(index + 1, VACANT)?;
    }
    places[index] = first.place;
    Ok(true)
}

/// How many votes a table has.
fn count_in(places: &[u32]) -> usize
    ensures { result ≡ length (held_from 0 places.now) }
{
    let mut count = 0;
    'places: for place in places {
        if *place != VACANT {
            count += 1;
        }
    }
    count
}

/// Appends the signers in a table.
fn add_held_to(places: &[u32], signers: &mut Vec<u32>) -> Result<(), AllocError>
    requires { length places.now ≤ 2 ^ 32 }
    ensures { OnOk result (signers.new.items ≡ signers.old.items ++
        flat_map (λ first. first_key first ∷ []) (held_from 0 places.now)) }
{
    'places: for index in 0..places.len() {
        if places[index] != VACANT {
            signers.push(index as u32)?;
        }
    }
    Ok(())
}
