//! The recorded votes of a round without their signers and kinds, in the order in which they came.

ghost use Rattle.std.specs.Prelude.{◌≡◌, ◌++◌, [], ◌∷◌, length, Some, IsTrue, IfOk, OnOk, OnErr, ◌⊎◌, option_copied, option_map};
ghost use Rattle.std.specs.List.{slice_get};
ghost use Rattle.simplex_ballots.specs.Ballots.{ballot_of};

use crate::ballot::Ballot;
use crate::room::make_room;
use simplex_scheme::scheme::{Digest, Proposal, SchemeTypes};
use std::alloc::{AllocError, Global};
use std::marker::Model;

/// A signature, and the place of what it is for.
#[derive(Drop)]
struct StoredVote<S: SchemeTypes> {
    choice: usize,
    signature: S::Signature,
}

/// Ballots of a round. A ballot takes 8 bytes and its signature, and what many of them are for is held once.
#[derive(Drop)]
pub struct Ballots<S: SchemeTypes, D: Digest> {
    /// What is voted for: proposals, and `None` to nullify the round.
    choices: Vec<Option<Proposal<D>>>,
    votes: Vec<StoredVote<S>>,
}

impl<S: SchemeTypes, D: Digest> Model for Ballots<S, D> {
    ghost use Rattle.std.specs.Prelude.{◌<◌, List, All, length, map, None};
    ghost use Rattle.std.specs.List.{slice_index_or};
    ghost use Rattle.simplex_ballots.specs.declared.ballot.Ballot.{Ballot};

    ghost Value = { List (Ballot S D S.PublicKey S.Signature) };

    ghost view = { λ ballots. map (λ vote. record {
      proposal = slice_index_or ballots.choices.items vote.choice None;
      signature = vote.signature;
    }) ballots.votes.items };

    ghost invariant = { λ ballots.
        All (λ vote. vote.choice < length ballots.choices.items) ballots.votes.items };
}

impl<S: SchemeTypes, D: Digest> Ballots<S, D> {
    /// No ballots yet. It allocates nothing.
    pub fn new(alloc: Global) -> Self
        ensures { result ≡ [] }
    {
        Ballots {
            choices: Vec::new(alloc),
            votes: Vec::new(alloc),
        }
    }

    /// What the ballot at a place is for and its signature, if there is one.
    pub fn parts(&self, place: usize) -> Option<(&Option<Proposal<D>>, &S::Signature)>
        ensures { option_map ballot_of result ≡ slice_get self.now place }
    {
        let vote = self.votes.get(place)?;
        Some((&self.choices[vote.choice], &vote.signature))
    }

    /// The ballot at a place, if there is one.
    pub fn get(&self, place: usize) -> Option<Ballot<S, D>>
        ensures { result ≡ slice_get self.now place }
    {
        let (proposal, signature) = self.parts(place)?;
        Some(Ballot {
            proposal: *proposal,
            signature: *signature,
        })
    }

    /// Appends the ballot for a proposal, or for none, in a round of this many participants, and returns its place.
    /// `AllocError` only where an allocation failed; then all is as before.
    pub fn push(
        &mut self,
        participants: usize,
        proposal: Option<&Proposal<D>>,
        signature: &S::Signature,
    ) -> Result<usize, AllocError>
        ensures place { IfOk result (λ place. place ≡ length self.old) }
        ensures pushed { OnOk result (self.new ≡ self.old ++
            (record { proposal = option_copied proposal.entry; signature = signature.now }) ∷ []) }
        ensures refused { OnErr result (self.new ≡ self.old) }
    {
        let place = self.votes.len();
        make_room(&mut self.votes, participants)?;
        let choice = place_among(&mut self.choices, participants, proposal)?;
        let signature = *signature;
        self.votes.push_reserved(StoredVote { choice, signature });
        Ok(place)
    }
}

/// The place of a choice, which is copied and appended if it is neither the first nor the last.
fn place_among<D: Digest>(
    choices: &mut Vec<Option<Proposal<D>>>,
    participants: usize,
    choice: Option<&Proposal<D>>,
) -> Result<usize, AllocError>
    ensures place { IfOk result (λ place.
        slice_get choices.new.items place ≡ Some (option_copied choice.entry)) }
    ensures others { (choices.new.items ≡ choices.old.items) ⊎
        (choices.new.items ≡ choices.old.items ++ option_copied choice.entry ∷ []) }
    ensures refused { OnErr result (choices.new.items ≡ choices.old.items) }
{
    if stands_at(choices, 0, choice) {
        return Ok(0);
    }
    let end = choices.len();
    let last = end.saturating_sub(1);
    if stands_at(choices, last, choice) {
        return Ok(last);
    }
    make_room(choices, participants)?;
    choices.push_reserved(choice.copied());
    Ok(end)
}

/// Whether a choice stands at a place.
fn stands_at<D: Digest>(
    choices: &[Option<Proposal<D>>],
    place: usize,
    choice: Option<&Proposal<D>>,
) -> bool
    ensures { IsTrue result → slice_get choices.now place ≡ Some (option_copied choice.entry) }
{
    match choices.get(place) {
        None => false,
        Some(other) => is_same(other, choice),
    }
}

/// Whether two choices are the same, byte by byte.
fn is_same<D: Digest>(one: &Option<Proposal<D>>, other: Option<&Proposal<D>>) -> bool
    ensures { IsTrue result → one.now ≡ option_copied other.entry }
{
    match one {
        None => other.is_none(),
        Some(one) => match other {
            None => false,
            Some(other) => one.is_same(other),
        },
    }
}
