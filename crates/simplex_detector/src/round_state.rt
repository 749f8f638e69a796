//! The state of one round: its votes and its certified subjects.

ghost use Rattle.std.specs.Prelude.{◌≡◌, ◌↔◌, [], ◌∷◌, None, Some, ℕ, map, IfOk, OnOk, IsTrue, if◌then◌else◌};
ghost use Rattle.std.specs.Option.{is_some};
ghost use Rattle.simplex_scheme.specs.declared.kind.VoteKind as kinds;
ghost use Rattle.simplex_scheme.specs.Subject.{subject_value, round_of};
ghost use Rattle.simplex_votes.specs.Votes.{vote_on};
ghost use Rattle.simplex_evidence.specs.Contents.{AreInConflict, OneCertificate, contents_value, signed_value};
ghost use Rattle.simplex_ballots.specs.Rounds.{round_count, IsSized, slots, no_slot};
ghost use Rattle.simplex_rules.specs.FirstCertified.{firsts_of, nothing_certified};
ghost use Rattle.simplex_detector.specs.Detector.{TakesIn, TakesContents, GivesSplit};
ghost use Rattle.simplex_detector.specs.Gathered.{GathersContents};

use crate::certified::Certified;
use simplex_ballots::apart::Apart;
use simplex_ballots::round_votes::{RoundVotes, either};
use simplex_base::positions::Round;
use simplex_evidence::types::{Contents, Signed};
use simplex_rules::judge::{Judge, Signatures};
use simplex_rules::rules::Judges;
use simplex_rules::split::Split;
use simplex_scheme::committees::Committees;
use simplex_scheme::scheme::{Digest, Listing, SchemeTypes, Subject, VoteKind, max_faults};
use std::alloc::{AllocError, Global};

/// The state of one round.
#[derive(Drop)]
pub struct RoundState<S: SchemeTypes, D: Digest> {
    /// The recorded valid votes.
    pub votes: RoundVotes<S, D>,
    /// The recorded certified subjects.
    certified: Certified<D>,
}

impl<S: SchemeTypes, D: Digest> RoundState<S, D> {
    /// The empty state of a round whose committee has this many participants.
    pub fn new(alloc: Global, round: Round, participants: usize) -> Self
        ensures round { result.votes.round ≡ round }
        ensures sized { IsSized participants result.votes }
        ensures empty { (signer : ℕ) (kind : kinds.VoteKind) → slots result.votes signer kind ≡ no_slot }
        ensures none { round_count result.votes ≡ 0 }
        ensures certified { result.certified ≡ nothing_certified }
    {
        RoundState {
            votes: RoundVotes::new(alloc, round, participants),
            certified: Certified::new(),
        }
    }

    /// Whether nothing is recorded.
    pub fn is_empty(&self) -> bool
        ensures votes { IsTrue result → (signer : ℕ) (kind : kinds.VoteKind) →
            slots self.now.votes signer kind ≡ no_slot }
        ensures certified { IsTrue result → self.now.certified ≡ nothing_certified }
        ensures exactly { IsTrue result ↔ (round_count self.now.votes ≡ 0) ×
            (self.now.certified ≡ nothing_certified) }
    {
        self.votes.is_empty() && self.certified.is_empty()
    }
}

impl<S: SchemeTypes, D: Digest> RoundState<S, D> {
    /// Whether a certified subject of a kind is recorded; `None` if the round is split, of which no subjects are kept.
    pub fn has_certified(&self, kind: VoteKind) -> Option<bool>
        ensures { result ≡ (if self.now.certified.split then None
            else Some (is_some (firsts_of self.now.certified kind))) }
    {
        if self.certified.is_split() {
            return None;
        }
        Some(self.certified.has_first(kind))
    }
}

impl<S: Listing<D>, D: Digest> RoundState<S, D> {
    /// Takes in what a message of the round holds, judged by the committee of its epoch, and returns whether it is news. The
    /// votes of a certificate whose subject is no news are gathered, if they are wanted and news.
    pub fn observe(
        &mut self,
        alloc: Global,
        judge: &Judge<'_, S>,
        contents: &Contents<'_, S, D>,
        apart: &mut Apart<S, D>,
    ) -> Result<bool, AllocError>
        ensures takes { AreInConflict D.eq (contents_value contents.now) → IfOk result (λ news.
            TakesContents (⟦<S as Judges<D>>⟧.rules_under judge.now.judging.now)
            judge.now.committee.now S.listed (contents_value contents.now) news
            self.old self.new) }
        ensures gathers { OnOk result (GathersContents
            (⟦<S as Judges<D>>⟧.rules_under judge.now.judging.now)
            judge.now.committee.now (contents_value contents.now) self.old apart.old apart.new) }
    {
        match contents {
            Contents::Vote(vote) => self.observe_vote(judge, vote),
            Contents::Certificate(subject, certificate) => {
                self.observe_certificate(alloc, judge, subject, certificate, apart)
            }
            Contents::Evidence(first, second) => {
                let one = self.observe_vote(judge, first)?;
                let other = self.observe_vote(judge, second)?;
                Ok(either(one, other))
            }
        }
    }

    /// Takes in a vote of the round, and returns whether it is valid and news.
    fn observe_vote(
        &mut self,
        judge: &Judge<'_, S>,
        vote: &Signed<'_, S, D>,
    ) -> Result<bool, AllocError>
        ensures { IfOk result (λ news. TakesIn
            (⟦<S as Judges<D>>⟧.rules_under judge.now.judging.now) judge.now.committee.now
            (round_of (signed_value vote.now).subject)
            (signed_value vote.now ∷ []) None news self.old self.new) }
    {
        let signatures = Signatures::Unverified;
        self.votes
            .observe(judge, &vote.subject, vote.attestation, signatures)
    }

    /// Takes in a certificate of the round and the votes that it lists. A listed signature that is recorded is not verified
    /// again. If the certificate is found to certify the subject, all listed signatures are known to be valid; else each is
    /// verified by itself. Returns whether one of the votes is valid and news, or the certified subject is news.
    fn observe_certificate(
        &mut self,
        alloc: Global,
        judge: &Judge<'_, S>,
        subject: &Subject<'_, D>,
        certificate: &S::Certificate,
        apart: &mut Apart<S, D>,
    ) -> Result<bool, AllocError>
        ensures takes { IfOk result (λ news. TakesIn
            (⟦<S as Judges<D>>⟧.rules_under judge.now.judging.now) judge.now.committee.now
            (round_of (subject_value subject.now))
            (map (vote_on (subject_value subject.now)) (S.listed certificate.now))
            (Some (subject_value subject.now, certificate.now)) news self.old self.new) }
        ensures gathers { OnOk result (GathersContents
            (⟦<S as Judges<D>>⟧.rules_under judge.now.judging.now)
            judge.now.committee.now (OneCertificate (subject_value subject.now) certificate.now)
            self.old apart.old apart.new) }
    {
        let signatures = self
            .certified
            .observe(alloc, judge, subject, certificate, &self.votes)?;
        let attestations = S::attestations(certificate);
        let news = self
            .votes
            .observe_all(judge, subject, attestations, signatures, apart)?;
        Ok(either(news, signatures.are_known()))
    }

    /// The split of the round, if it is split.
    pub fn split(&self, committees: &Committees<S>, round: Round) -> Option<Split>
        ensures { GivesSplit ⟦<S as Judges<D>>⟧.rules_under committees.now round self.now result }
    {
        if !self.certified.is_split() {
            return None;
        }
        let Some(committee) = committees.get(round.epoch()) else {
            return None;
        };
        let participants = committee.participants().len() as u32;
        Some(Split {
            round,
            named: self.votes.count_accused(participants),
            least: max_faults(participants) + 1,
        })
    }
}
