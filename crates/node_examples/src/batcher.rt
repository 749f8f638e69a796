//! Collects the notarizes of one proposal until they make a notarization.

ghost use Rattle.std.specs.Prelude.{◌≡◌, ◌<◌, ◌↔◌, ◌++◌, ◌∷◌, ◌⊎◌, List, [], Ok, None, IfOk, IfSome, IsSome, IsTrue, MatchResult, length, map, true};
ghost use Rattle.simplex_scheme.specs.Subject.{Notarizes};
ghost use Rattle.node_examples.specs.Batch.{HasTaken, HasQuorum, is_wanted, signers_in};

use simplex_evidence::types::AttributableMap;
use simplex_scheme::scheme::{Digest, Proposal, Scheme, quorum};
use simplex_votes::types::{Notarization, Notarize};
use std::alloc::{AllocError, Global};
use std::marker::Model;

/// The first valid notarize of each participant for one proposal. It records at most one vote of a participant, no
/// matter how many come.
#[derive(Drop)]
pub struct Batcher<'a, S: Scheme<D>, D: Digest> {
    scheme: &'a S,
    proposal: Proposal<D>,
    votes: AttributableMap<Notarize<S, D>>,
}

impl<'a, S: Scheme<D>, D: Digest> Model for Batcher<'a, S, D> {
    ghost use Rattle.std.specs.Prelude.{◌≡◌, length};
    ghost use Rattle.node_examples.specs.Batch.{Batch, AreForProposal};

    ghost Value = { Batch S D S.PublicKey S.Signature };

    ghost view = { λ batcher. record {
      scheme = batcher.scheme.now;
      proposal = batcher.proposal;
      votes = batcher.votes.items;
    } };

    ghost invariant = { λ batcher.
        (batcher.votes.participants ≡ length (S.keys batcher.scheme.now)) ×
        AreForProposal (S.good batcher.scheme.now) batcher.proposal batcher.votes.items };
}

impl<'a, S: Scheme<D>, D: Digest> Batcher<'a, S, D> {
    /// A batcher for this proposal, without votes.
    pub fn new(alloc: Global, scheme: &'a S, proposal: Proposal<D>) -> Self
        ensures value { result ≡ record { scheme = scheme.now; proposal = proposal; votes = [] } }
        ensures taken { HasTaken D.eq S.keys S.good result [] }
    {
        let votes = AttributableMap::new(alloc, scheme.participants().len());
        Batcher {
            scheme,
            proposal,
            votes,
        }
    }

    /// Takes a vote of any signer for any proposal. It is recorded if it is valid, for the proposal, and its signer's
    /// first such vote; so an invalid vote never takes the place of a valid one. Returns `None` until a quorum of
    /// participants has signed such votes; from then on every call assembles a notarization from all recorded votes.
    /// `AllocError` only where an allocation failed; the vote may then have been recorded or not.
    pub fn take(
        &mut self,
        alloc: Global,
        vote: Notarize<S, D>,
    ) -> Result<Option<Notarization<S, D>>, AllocError>
        ensures same { (self.new.scheme ≡ self.old.scheme) ×
            (self.new.proposal ≡ self.old.proposal) }
        ensures certifies { IfOk result (λ answer.
            IfSome answer (λ n. (n.proposal ≡ self.old.proposal) ×
            (S.certified self.old.scheme (Notarizes n.proposal) n.certificate ≡ true))) }
        ensures made { IfOk result (λ answer. IfSome answer (λ n.
            S.made_of (map (λ v. v.attestation) self.new.votes) n.certificate)) }
        ensures taken { (came : List (Notarize S D S.PublicKey S.Signature)) →
            HasTaken D.eq S.keys S.good self.old came →
            MatchResult result
            (λ _. HasTaken D.eq S.keys S.good self.new (came ++ vote ∷ []))
            (λ _. HasTaken D.eq S.keys S.good self.new came ⊎
            HasTaken D.eq S.keys S.good self.new (came ++ vote ∷ [])) }
        ensures answers { (came : List (Notarize S D S.PublicKey S.Signature)) →
            HasTaken D.eq S.keys S.good self.old came →
            IfOk result (λ answer. IsSome answer ↔
            HasQuorum D.eq S.keys S.good self.new (came ++ vote ∷ [])) }
    {
        match self.record_vote(vote) {
            Ok(()) => self.notarization(alloc),
            Err(error) => Err(error),
        }
    }

    /// Records a vote if it is valid, for the proposal, and its signer's first.
    fn record_vote(&mut self, vote: Notarize<S, D>) -> Result<(), AllocError>
        ensures same { (self.new.scheme ≡ self.old.scheme) ×
            (self.new.proposal ≡ self.old.proposal) }
        ensures taken { (came : List (Notarize S D S.PublicKey S.Signature)) →
            HasTaken D.eq S.keys S.good self.old came →
            MatchResult result
            (λ _. HasTaken D.eq S.keys S.good self.new (came ++ vote ∷ []))
            (λ _. HasTaken D.eq S.keys S.good self.new came) }
    {
        if self.is_wanted(&vote) {
            self.votes.insert(vote)?;
        }
        Ok(())
    }

    /// Whether a vote is for the proposal and valid.
    fn is_wanted(&self, vote: &Notarize<S, D>) -> bool
        ensures value { result ≡ is_wanted D.eq S.keys S.good self.now vote.now }
        ensures proposal { IsTrue result → vote.now.proposal ≡ self.now.proposal }
        ensures valid { IsTrue result →
            S.good self.now.scheme (Notarizes vote.now.proposal) vote.now.attestation.signer
            vote.now.attestation.signature ≡ true }
    {
        vote.proposal.is_same(&self.proposal) && vote.verify(self.scheme)
    }

    /// How many participants have signed valid votes for the proposal.
    pub fn count(&self) -> usize
        ensures votes { result ≡ length self.now.votes }
        ensures signers { (came : List (Notarize S D S.PublicKey S.Signature)) →
            HasTaken D.eq S.keys S.good self.now came →
            result ≡ signers_in D.eq S.keys S.good self.now came }
    {
        self.votes.len()
    }

    /// The notarization of all recorded votes, if they are a quorum. `AllocError` only where an allocation failed.
    pub fn notarization(&self, alloc: Global) -> Result<Option<Notarization<S, D>>, AllocError>
        ensures certifies { IfOk result (λ answer.
            IfSome answer (λ n. (n.proposal ≡ self.now.proposal) ×
            (S.certified self.now.scheme (Notarizes n.proposal) n.certificate ≡ true))) }
        ensures made { IfOk result (λ answer. IfSome answer (λ n.
            S.made_of (map (λ v. v.attestation) self.now.votes) n.certificate)) }
        ensures answers { (came : List (Notarize S D S.PublicKey S.Signature)) →
            HasTaken D.eq S.keys S.good self.now came →
            IfOk result (λ answer. IsSome answer ↔ HasQuorum D.eq S.keys S.good self.now came) }
    {
        let quorum = quorum(self.scheme.participants().len() as u32);
        let votes = self.votes.as_slice();
        if self.count() < quorum as usize
            || !Notarization::can_assemble(alloc, self.scheme, votes)
        {
            return Ok(None);
        }
        match Notarization::from_notarizes(alloc, self.scheme, votes) {
            Ok(notarization) => Ok(Some(notarization)),
            Err(_) => Err(AllocError),
        }
    }
}
