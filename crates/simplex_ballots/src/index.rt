//! Where the recorded votes of a round stand: of each kind the earliest ones by signers, and all others in a list.

ghost use Rattle.std.specs.Prelude.{◌≡◌, ◌≢◌, ◌^◌, ◌-◌, ◌==◌, ◌++◌, min, [], length, true, false, Ok, None, Some, IfOk, IfSome, IsSome, OnOk, OnErr, option_map, if◌then◌else◌};
ghost use Rattle.std.specs.List.{flat_map};
ghost use Rattle.std.specs.Option.{is_some};
ghost use Rattle.simplex_evidence.specs.VoteMap.{item_of};
ghost use Rattle.simplex_ballots.specs.Ballots.{vote_key};
ghost use Rattle.simplex_ballots.specs.Firsts.{first_key, vacant};
ghost use Rattle.simplex_ballots.specs.Index.{PlacesOne, as_placed, firsts_in, is_second, place_of, placed_at, placed_key, places_in, second_signer};

use crate::firsts::{First, Firsts, VACANT};
use crate::placed::{Placed, vote_key};
use crate::room::more_room;
use simplex_base::positions::Participant;
use simplex_evidence::sorted::SortedList;
use simplex_scheme::scheme::VoteKind;
use std::alloc::{AllocError, Global};

/// Where each vote of a round stands: of a signer and kind at most the earliest and one other.
#[derive(Drop)]
pub struct Index {
    alloc: Global,
    /// The earliest notarizes.
    notarizes: Firsts,
    /// The earliest nullifies.
    nullifies: Firsts,
    /// The earliest finalizes.
    finalizes: Firsts,
    /// The other votes, and earliest ones whose place is 2^32 - 1 or more.
    others: SortedList<Placed>,
}

impl Index {
    /// No votes yet. It allocates nothing.
    pub fn new(alloc: Global) -> Self
        ensures { places_in result ≡ [] }
    {
        Index {
            alloc,
            notarizes: Firsts::new(alloc),
            nullifies: Firsts::new(alloc),
            finalizes: Firsts::new(alloc),
            others: SortedList::new(alloc),
        }
    }

    /// How many votes there are. The number stops at 2^64 - 1.
    pub fn len(&self) -> usize
        ensures { result ≡ min (length (places_in self.now)) (2 ^ 64 - 1) }
    {
        let firsts = self.notarizes.len().saturating_add(self.nullifies.len());
        let firsts = firsts.saturating_add(self.finalizes.len());
        firsts.saturating_add(self.others.len())
    }

    /// Whether there is no vote.
    pub fn is_empty(&self) -> bool
        ensures { result ≡ (length (places_in self.now) == 0) }
    {
        self.len() == 0
    }

    /// The earliest votes of a kind.
    fn firsts(&self, kind: VoteKind) -> &Firsts
        ensures { result.now ≡ firsts_in self.now kind }
    {
        match kind {
            VoteKind::Notarize => &self.notarizes,
            VoteKind::Nullify => &self.nullifies,
            VoteKind::Finalize => &self.finalizes,
        }
    }

    /// The place of a signer's vote of a kind, the earliest or the other, or else a hint for `insert`.
    pub fn find(&self, signer: Participant, kind: VoteKind, is_other: bool) -> Result<usize, usize>
        ensures found { IfOk result (λ place.
            option_map place_of (placed_at self.now signer kind is_other) ≡ Some place) }
        ensures none { OnErr result (placed_at self.now signer kind is_other ≡ None) }
    {
        if is_other {
            return other_place(&self.others, signer, kind, true);
        }
        match self.firsts(kind).find(signer) {
            Ok(place) => Ok(place),
            Err(near) => match other_place(&self.others, signer, kind, false) {
                Ok(place) => Ok(place),
                Err(_) => Err(near),
            },
        }
    }

    /// Makes room for one more vote of a kind, the earliest or the other, in a round of this many participants. `AllocError`
    /// only where an allocation failed. All is as before.
    pub fn make_room(
        &mut self,
        kind: VoteKind,
        is_other: bool,
        participants: usize,
    ) -> Result<(), AllocError>
        ensures { self.new ≡ self.old }
    {
        if is_other {
            let more = more_room(self.others.len(), participants);
            return self.others.make_room(more);
        }
        match kind {
            VoteKind::Notarize => self.notarizes.make_room(self.alloc, participants),
            VoteKind::Nullify => self.nullifies.make_room(self.alloc, participants),
            VoteKind::Finalize => self.finalizes.make_room(self.alloc, participants),
        }
    }

    /// Inserts a vote, if there is none of its signer and kind as the earliest or the other, and returns whether it did. `near`
    /// is what `find` returned. `AllocError` only where an allocation failed; then all is as before.
    pub fn insert(&mut self, near: usize, placed: Placed) -> Result<bool, AllocError>
        ensures added { result ≡ Ok true → PlacesOne self.old self.new placed }
        ensures recorded { result ≡ Ok false → self.new ≡ self.old }
        ensures taken { result ≡ Ok false →
            IsSome (placed_at self.old placed.signer placed.kind placed.is_other) }
        ensures refused { OnErr result (self.new ≡ self.old) }
    {
        match held_as_first(&placed) {
            Some(first) => self.insert_first(near, placed.kind, first),
            None => self.insert_other(near, placed),
        }
    }

    /// Inserts an earliest vote of a kind, as `insert` does.
    fn insert_first(
        &mut self,
        near: usize,
        kind: VoteKind,
        first: First,
    ) -> Result<bool, AllocError>
        requires { first.place ≢ vacant }
        ensures added { result ≡ Ok true → PlacesOne self.old self.new (as_placed kind first) }
        ensures recorded { result ≡ Ok false → self.new ≡ self.old }
        ensures taken { result ≡ Ok false → IsSome (placed_at self.old first.signer kind false) }
        ensures refused { OnErr result (self.new ≡ self.old) }
    {
        match kind {
            VoteKind::Notarize => self.notarizes.insert(near, first),
            VoteKind::Nullify => self.nullifies.insert(near, first),
            VoteKind::Finalize => self.finalizes.insert(near, first),
        }
    }

    /// Inserts a vote among the others, as `insert` does.
    fn insert_other(&mut self, near: usize, placed: Placed) -> Result<bool, AllocError>
        ensures added { result ≡ Ok true → PlacesOne self.old self.new placed }
        ensures recorded { result ≡ Ok false → self.new ≡ self.old }
        ensures taken { result ≡ Ok false →
            IsSome (placed_at self.old placed.signer placed.kind placed.is_other) }
        ensures refused { OnErr result (self.new ≡ self.old) }
    {
        let is_first = self.has_first(placed.signer, placed.kind);
        if is_first && !placed.is_other {
            return Ok(false);
        }
        self.others.insert(near, placed)
    }

    /// Whether a signer's earliest vote of a kind stands in the list of that kind.
    fn has_first(&self, signer: Participant, kind: VoteKind) -> bool
        ensures { result ≡ is_some (item_of first_key (firsts_in self.now kind) signer) }
    {
        self.firsts(kind).find(signer).is_ok()
    }

    /// Appends the signers of nullifies and of other notarizes and finalizes.
    pub fn add_seconds_to(&self, signers: &mut Vec<u32>) -> Result<(), AllocError>
        ensures { OnOk result (signers.new.items ≡ signers.old.items ++
            flat_map second_signer (places_in self.now)) }
    {
        self.nullifies.add_signers_to(signers)?;
        'others: for placed in self.others.as_slice() {
            add_if_second(signers, placed)?;
        }
        Ok(())
    }
}

/// How an earliest vote stands among those of its kind, if it is one and its place is below 2^32 - 1.
fn held_as_first(placed: &Placed) -> Option<First>
    ensures { IfSome result (λ first.
        (as_placed placed.now.kind first ≡ placed.now) × (first.place ≢ vacant)) }
{
    if placed.is_other {
        return None;
    }
    let place = u32::try_from(placed.place).ok()?;
    if place == VACANT {
        return None;
    }
    Some(First {
        signer: placed.signer,
        place,
    })
}

/// The place of a signer's vote among the others, or else where among them it would be inserted.
fn other_place(
    others: &SortedList<Placed>,
    signer: Participant,
    kind: VoteKind,
    is_other: bool,
) -> Result<usize, usize>
    ensures found { IfOk result (λ place.
        option_map place_of (item_of placed_key others.now (vote_key signer kind is_other)) ≡
        Some place) }
    ensures none { OnErr result (item_of placed_key others.now (vote_key signer kind is_other) ≡ None) }
{
    let index = others.find(others.len(), vote_key(signer, kind, is_other))?;
    let placed = &others.as_slice()[index];
    Ok(placed.place)
}

/// Appends the signer of a vote, if it is a nullify or its signer has an earlier vote of its kind.
fn add_if_second(signers: &mut Vec<u32>, placed: &Placed) -> Result<(), AllocError>
    ensures { OnOk result (signers.new.items ≡ signers.old.items ++ second_signer placed.now) }
{
    if placed.is_second() {
        signers.push(placed.signer.get())?;
    }
    Ok(())
}
