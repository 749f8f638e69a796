//! The recorded votes of one round: enough to report every accused signer, and no more.

ghost use Rattle.std.specs.Prelude.{◌≡◌, ◌↔◌, ◌-◌, ◌^◌, min, List, [], ◌∷◌, ◌++◌, ◌||◌, ◌&&◌, ℕ, true, false, count_by, map, filter, length, option_copied, option_map, Some, IfOk, IfSome, OnOk, IsTrue};
ghost use Rattle.std.specs.List.{flat_map, range_with_len, slice_get};
ghost use Rattle.std.specs.Option.{is_some, option_to_list};
ghost use Rattle.simplex_base.specs.Format.{format_of};
ghost use Rattle.simplex_base.specs.Positions as positions;
ghost use Rattle.simplex_scheme.specs.declared.kind.VoteKind as kinds;
ghost use Rattle.simplex_scheme.specs.declared.kind.VoteKind.TheVariants as variants;
ghost use Rattle.simplex_scheme.specs.Kind.{kind_of};
ghost use Rattle.simplex_scheme.specs.Subject.{SubjectValue, subject_value, round_of};
ghost use Rattle.simplex_votes.specs.Votes.{vote_on, notarize_vote, nullify_vote, finalize_vote};
ghost use Rattle.simplex_evidence.specs.Contradiction.{Conflicting_notarize, Conflicting_finalize, Nullify_finalize, excludes};
ghost use Rattle.simplex_ballots.specs.Ballots.{proposal_in, subject_of};
ghost use Rattle.simplex_ballots.specs.Index.{placed_at};
ghost use Rattle.simplex_ballots.specs.declared.ballot.Ballot as stored;
ghost use Rattle.simplex_rules.specs.EncodedEvidence.{StayEncoded};
ghost use Rattle.simplex_rules.specs.Judging.{HoldsOf, are_known, valid_under};
ghost use Rattle.simplex_ballots.specs.Kept.{GathersVotes};
ghost use Rattle.simplex_rules.specs.Recorded.{changes};
ghost use Rattle.simplex_ballots.specs.Rounds.{IsRecorded, ballot_at, round_count, slots, vote_at, no_slot, IsSized, TakesVote, RecordsVotes, found_of_kind, found_at, accuses, ListsSigners};
ghost use Rattle.simplex_rules.specs.Values.{evidence_value};

use crate::apart::Apart;
use crate::ballot::Ballot;
use crate::ballots::Ballots;
use crate::index::Index;
use crate::placed::Placed;
use simplex_base::codec::Read;
use simplex_base::positions::{Participant, Round};
use simplex_evidence::types::conflict_of;
use simplex_rules::evidence::Evidence;
use simplex_rules::judge::{Judge, Signatures};
use simplex_scheme::scheme::{
    Attestation, Digest, Known, Proposal, Scheme, SchemeTypes, Subject, VoteKind,
};
use simplex_votes::types::{Finalize, Notarize, Nullify};
use std::alloc::{AllocError, Global};

/// The recorded votes of one round: of each signer the earliest notarize and the earliest with another
/// proposal, the earliest nullify, and the earliest finalize and the earliest with another proposal.
#[derive(Drop)]
pub struct RoundVotes<S: SchemeTypes, D: Digest> {
    round: Round,
    /// The size of its committee.
    participants: usize,
    /// Where each vote stands among the ballots.
    index: Index,
    ballots: Ballots<S, D>,
}

/// What a vote that is news is to be recorded as.
#[derive(Clone, Copy)]
struct Spot {
    /// Whether its signer has an earlier vote of its kind.
    is_other: bool,
    /// Where the index would insert it.
    near: usize,
}

impl<S: SchemeTypes, D: Digest> RoundVotes<S, D> {
    /// The empty state of a round whose committee has this many participants.
    pub fn new(alloc: Global, round: Round, participants: usize) -> Self
        ensures round { result.round ≡ round }
        ensures sized { IsSized participants result }
        ensures empty { (signer : ℕ) (kind : kinds.VoteKind) → slots result signer kind ≡ no_slot }
        ensures none { round_count result ≡ 0 }
    {
        RoundVotes {
            round,
            participants,
            index: Index::new(alloc),
            ballots: Ballots::new(alloc),
        }
    }

    /// Whether nothing is recorded.
    pub fn is_empty(&self) -> bool
        ensures slots { IsTrue result → (signer : ℕ) (kind : kinds.VoteKind) →
            slots self.now signer kind ≡ no_slot }
        ensures count { IsTrue result ↔ (round_count self.now ≡ 0) }
    {
        self.index.is_empty()
    }

    /// How many votes are recorded. The number stops at 2^64 - 1.
    pub fn votes(&self) -> usize
        ensures { result ≡ min (round_count self.now) (2 ^ 64 - 1) }
    {
        self.index.len()
    }

    /// The ballot of a signer's vote of a kind, the earliest or the other, if it is recorded.
    fn ballot(&self, signer: Participant, kind: VoteKind, is_other: bool) -> Option<Ballot<S, D>>
        ensures { result ≡ ballot_at self.now.ballots
            (placed_at self.now.index signer kind is_other) }
    {
        let place = self.index.find(signer, kind, is_other).ok()?;
        self.ballots.get(place)
    }

    /// As what a vote is to be recorded, if it is news: it is the signer's first of its kind, or the first with another
    /// proposal.
    fn news(&self, subject: &Subject<'_, D>, signer: Participant) -> Option<Spot>
        ensures { (n : ℕ) → IsSized n self.now →
            (is_some result ≡ changes D.eq
            (slots self.now signer (kind_of (subject_value subject.now))).earliest
            (slots self.now signer (kind_of (subject_value subject.now))).other
            (subject_value subject.now)) × IfSome result (λ spot. spot.is_other ≡
            is_some (slots self.now signer (kind_of (subject_value subject.now))).earliest) }
    {
        let kind = subject.kind();
        let place = match self.index.find(signer, kind, false) {
            Err(near) => {
                return Some(Spot {
                    is_other: false,
                    near,
                });
            }
            Ok(place) => place,
        };
        if !self.is_apart(place, subject) {
            return None;
        }
        match self.index.find(signer, kind, true) {
            Ok(_) => None,
            Err(near) => Some(Spot {
                is_other: true,
                near,
            }),
        }
    }

    /// Whether the ballot at a place, a vote of a subject's kind, is for another proposal.
    fn is_apart(&self, place: usize, subject: &Subject<'_, D>) -> bool
        ensures { (ballot : stored.Ballot S D S.PublicKey S.Signature) (x : SubjectValue D) →
            slice_get self.now.ballots place ≡ Some ballot →
            subject_of (kind_of (subject_value subject.now)) self.now.round ballot.proposal ≡ Some x →
            result ≡ excludes D.eq x (subject_value subject.now) }
    {
        match self.ballots.parts(place) {
            None => false,
            Some((proposal, _)) => is_apart(proposal, subject),
        }
    }

    /// Records a vote that is news as what it is. Room for it is made first.
    fn add(
        &mut self,
        spot: &Spot,
        subject: &Subject<'_, D>,
        attestation: &Attestation<S>,
    ) -> Result<(), AllocError>
        ensures { spot.now.is_other ≡ is_some (slots self.old attestation.now.signer
            (kind_of (subject_value subject.now))).earliest → OnOk result (TakesVote D.eq
            (vote_on (subject_value subject.now) attestation.now) self.old self.new) }
    {
        let (kind, is_other) = (subject.kind(), spot.is_other);
        self.index.make_room(kind, is_other, self.participants)?;
        let (proposal, signature) = (proposal_in(subject), &attestation.signature);
        let place = self.ballots.push(self.participants, proposal, signature)?;
        let placed = Placed {
            signer: attestation.signer,
            kind,
            is_other,
            place,
        };
        self.index.insert(spot.near, placed)?;
        Ok(())
    }

    /// Records a vote if it is valid and news, and returns whether it is. It is verified only if it is news and its signature
    /// is not known to be valid, and copied only if it is recorded.
    pub fn observe(
        &mut self,
        judge: &Judge<'_, S>,
        subject: &Subject<'_, D>,
        attestation: &Attestation<S>,
        signatures: Signatures,
    ) -> Result<bool, AllocError>
    where
        S: Scheme<D>,
        ensures { IfOk result (λ news.
            (signatures ≡ Signatures.Verified → S.good judge.now.committee.now
            (subject_value subject.now) attestation.now.signer attestation.now.signature ≡ true) →
            RecordsVotes D.eq (length (S.keys judge.now.committee.now))
            (round_of (subject_value subject.now))
            (filter (λ v. valid_under S.keys S.good judge.now.judging.now
            judge.now.committee.now v.subject v.signer v.signature)
            (vote_on (subject_value subject.now) attestation.now ∷ [])) news self.old self.new) }
    {
        let Some(spot) = self.news(subject, attestation.signer) else {
            return Ok(false);
        };
        if !judge.accepts(subject, attestation, signatures) {
            return Ok(false);
        }
        self.add(&spot, subject, attestation)?;
        Ok(true)
    }

    /// Records, of some votes on one subject, each that is valid and news, as `observe` does, and returns whether one is. Those
    /// that are recorded are gathered, if they are wanted. `signatures` is of all of them.
    pub fn observe_all(
        &mut self,
        judge: &Judge<'_, S>,
        subject: &Subject<'_, D>,
        attestations: &[Attestation<S>],
        signatures: Signatures,
        apart: &mut Apart<S, D>,
    ) -> Result<bool, AllocError>
    where
        S: Scheme<D>,
        ensures records { IfOk result (λ news.
            HoldsOf signatures (S.good judge.now.committee.now (subject_value subject.now))
            attestations.now → RecordsVotes D.eq (length (S.keys judge.now.committee.now))
            (round_of (subject_value subject.now))
            (filter (λ v. valid_under S.keys S.good judge.now.judging.now
            judge.now.committee.now v.subject v.signer v.signature)
            (map (vote_on (subject_value subject.now)) attestations.now)) news self.old self.new) }
        ensures wanted { OnOk result (apart.new.wanted ≡ apart.old.wanted) }
        ensures gathers { OnOk result (
            HoldsOf signatures (S.good judge.now.committee.now (subject_value subject.now))
            attestations.now → GathersVotes D.eq (length (S.keys judge.now.committee.now))
            (round_of (subject_value subject.now))
            (filter (λ v. valid_under S.keys S.good judge.now.judging.now
            judge.now.committee.now v.subject v.signer v.signature)
            (map (vote_on (subject_value subject.now)) attestations.now)) (are_known signatures)
            self.old apart.old apart.new) }
    {
        let mut news = false;
        'listed: for attestation in attestations {
            let recorded = self.observe(judge, subject, attestation, signatures)?;
            apart.add_if(recorded, signatures, subject, attestation)?;
            news = either(news, recorded);
        }
        Ok(news)
    }

    /// How many of the committee's participants, as many as are given, the recorded votes accuse.
    pub fn count_accused(&self, participants: u32) -> u32
        ensures { result ≡ count_by (λ signer. accuses (slots self.now signer))
            (range_with_len 0 participants) }
    {
        let mut count = 0;
        'participants: for number in 0..participants {
            count += u32::from(self.accuses(Participant::new(number)));
        }
        count
    }

    /// Whether recorded votes of a signer contradict: it has notarizes or finalizes of different proposals, or a nullify beside
    /// a finalize.
    fn accuses(&self, signer: Participant) -> bool
        ensures { result ≡ accuses (slots self.now signer) }
    {
        if self.has_both(signer, VoteKind::Notarize) || self.has_both(signer, VoteKind::Finalize) {
            return true;
        }
        self.has(signer, VoteKind::Nullify, false) && self.has(signer, VoteKind::Finalize, false)
    }

    /// Whether a signer has two votes of a kind.
    fn has_both(&self, signer: Participant, kind: VoteKind) -> bool
        ensures { result ≡ (is_some (vote_at self.now signer kind false) &&
            is_some (vote_at self.now signer kind true)) }
    {
        self.has(signer, kind, false) && self.has(signer, kind, true)
    }

    /// Whether a signer has a vote of a kind, the earliest or the other.
    fn has(&self, signer: Participant, kind: VoteKind, is_other: bool) -> bool
        ensures { result ≡ is_some (vote_at self.now signer kind is_other) }
    {
        match self.ballot(signer, kind, is_other) {
            None => false,
            Some(ballot) => is_of(kind, &ballot.proposal),
        }
    }

    /// Appends the evidence in the recorded votes, in the order of signers and kinds.
    pub fn report_to(
        &self,
        alloc: Global,
        found: &mut Vec<Evidence<S, D>>,
    ) -> Result<(), AllocError>
        ensures appended { OnOk result ((signers : List ℕ) × ListsSigners self.now signers ×
            (map evidence_value found.new.items ≡ map evidence_value found.old.items ++
            flat_map (λ signer. found_at D.eq (slots self.now signer)) signers)) }
        ensures encoded { OnOk result (StayEncoded D.eq (format_of ⟦<D as Read>⟧)
            (format_of ⟦<S::Signature as Read>⟧) found.old.items found.new.items) }
    {
        let signers = self.signers(alloc)?;
        'signers: for signer in &signers {
            self.report_signer(Participant::new(*signer), found)?;
        }
        Ok(())
    }

    /// The signers with another notarize, a nullify or another finalize, ascending. Every accused signer is among them.
    fn signers(&self, alloc: Global) -> Result<Vec<u32>, AllocError>
        ensures { IfOk result (λ signers. ListsSigners self.now signers.items) }
    {
        let mut signers = Vec::new(alloc);
        self.index.add_seconds_to(&mut signers)?;
        signers.sort()?;
        signers.dedup();
        Ok(signers)
    }

    /// Appends the evidence against a signer, in the order of kinds.
    pub fn report_signer(
        &self,
        signer: Participant,
        found: &mut Vec<Evidence<S, D>>,
    ) -> Result<(), AllocError>
        ensures appended { OnOk result (map evidence_value found.new.items ≡
            map evidence_value found.old.items ++ found_at D.eq (slots self.now signer)) }
        ensures encoded { OnOk result (StayEncoded D.eq (format_of ⟦<D as Read>⟧)
            (format_of ⟦<S::Signature as Read>⟧) found.old.items found.new.items) }
    {
        push_found(found, self.conflicting_notarize(signer))?;
        push_found(found, self.conflicting_finalize(signer))?;
        push_found(found, self.nullify_finalize(signer))
    }

    /// The two notarizes of a signer that contradict, if two are recorded.
    fn conflicting_notarize(&self, signer: Participant) -> Option<Evidence<S, D>>
        ensures { option_map evidence_value result ≡
            found_of_kind D.eq (slots self.now signer) Conflicting_notarize }
    {
        let other = self.notarize(signer, true)?;
        let first = self.notarize(signer, false)?;
        Some(Evidence::ConflictingNotarize(conflict_of(first, other)?))
    }

    /// The two finalizes of a signer that contradict, if two are recorded.
    fn conflicting_finalize(&self, signer: Participant) -> Option<Evidence<S, D>>
        ensures { option_map evidence_value result ≡
            found_of_kind D.eq (slots self.now signer) Conflicting_finalize }
    {
        let other = self.finalize(signer, true)?;
        let first = self.finalize(signer, false)?;
        Some(Evidence::ConflictingFinalize(conflict_of(first, other)?))
    }

    /// The nullify and the finalize of a signer, if both are recorded.
    fn nullify_finalize(&self, signer: Participant) -> Option<Evidence<S, D>>
        ensures { option_map evidence_value result ≡
            found_of_kind D.eq (slots self.now signer) Nullify_finalize }
    {
        let nullify = self.nullify(signer)?;
        let finalize = self.finalize(signer, false)?;
        Some(Evidence::NullifyFinalize(conflict_of(nullify, finalize)?))
    }

    /// The notarize of a signer, the earliest or the other, if it is recorded.
    fn notarize(&self, signer: Participant, is_other: bool) -> Option<Notarize<S, D>>
        ensures { option_map notarize_vote result ≡ vote_at self.now signer variants.Notarize is_other }
    {
        let ballot = self.ballot(signer, VoteKind::Notarize, is_other)?;
        let (proposal, signature) = (ballot.proposal?, ballot.signature);
        Some(Notarize {
            proposal,
            attestation: Attestation { signer, signature },
        })
    }

    /// The nullify of a signer, if it is recorded.
    fn nullify(&self, signer: Participant) -> Option<Nullify<S>>
        ensures { option_map nullify_vote result ≡ vote_at self.now signer variants.Nullify false }
    {
        let ballot = self.ballot(signer, VoteKind::Nullify, false)?;
        let (round, signature) = (self.round, ballot.signature);
        Some(Nullify {
            round,
            attestation: Attestation { signer, signature },
        })
    }

    /// The finalize of a signer, the earliest or the other, if it is recorded.
    fn finalize(&self, signer: Participant, is_other: bool) -> Option<Finalize<S, D>>
        ensures { option_map finalize_vote result ≡ vote_at self.now signer variants.Finalize is_other }
    {
        let ballot = self.ballot(signer, VoteKind::Finalize, is_other)?;
        let (proposal, signature) = (ballot.proposal?, ballot.signature);
        Some(Finalize {
            proposal,
            attestation: Attestation { signer, signature },
        })
    }

    /// Whether the vote of an attestation is recorded, as the earliest or as the other.
    fn holds(&self, subject: &Subject<'_, D>, attestation: &Attestation<S>, is_other: bool) -> bool
        ensures { IsTrue result → vote_at self.now attestation.now.signer
            (kind_of (subject_value subject.now)) is_other ≡
            Some (vote_on (subject_value subject.now) attestation.now) }
    {
        let signer = attestation.signer;
        let Ok(place) = self.index.find(signer, subject.kind(), is_other) else {
            return false;
        };
        let Some((proposal, signature)) = self.ballots.parts(place) else {
            return false;
        };
        let recorded = Attestation {
            signer,
            signature: *signature,
        };
        recorded.is_same(attestation) && is_on(proposal, self.round, subject)
    }
}

/// The recorded votes are known to be valid: they were verified, unless all votes in the committee are taken as valid.
impl<S: SchemeTypes, D: Digest> Known<S, D> for RoundVotes<S, D> {
    ghost known = { λ votes subject signer signature.
        IsRecorded votes (record { subject = subject; signer = signer; signature = signature }) };

    fn knows(&self, subject: &Subject<'_, D>, attestation: &Attestation<S>) -> bool {
        self.holds(subject, attestation, false) || self.holds(subject, attestation, true)
    }
}

/// The proposal of a subject, if it has one.
fn proposal_in<'a, D: Digest>(subject: &Subject<'a, D>) -> Option<&'a Proposal<D>>
    ensures { option_copied result ≡ proposal_in (subject_value subject.now) }
{
    match subject {
        Subject::Notarize { proposal } | Subject::Finalize { proposal } => Some(*proposal),
        Subject::Nullify { .. } => None,
    }
}

/// Whether a vote for a proposal, or of a round, excludes one on a subject of its kind: the proposals differ.
fn is_apart<D: Digest>(voted: &Option<Proposal<D>>, subject: &Subject<'_, D>) -> bool
    ensures { (round : positions.Round) (x : SubjectValue D) →
        subject_of (kind_of (subject_value subject.now)) round voted.now ≡ Some x →
        result ≡ excludes D.eq x (subject_value subject.now) }
{
    match subject {
        Subject::Notarize { proposal } | Subject::Finalize { proposal } => match voted {
            None => false,
            Some(voted) => *voted != **proposal,
        },
        Subject::Nullify { .. } => false,
    }
}

/// Whether a vote for a proposal, or of a round, is on a subject of its kind, byte by byte.
fn is_on<D: Digest>(voted: &Option<Proposal<D>>, round: Round, subject: &Subject<'_, D>) -> bool
    ensures { IsTrue result → subject_of (kind_of (subject_value subject.now)) round voted.now ≡
        Some (subject_value subject.now) }
{
    match subject {
        Subject::Notarize { proposal } | Subject::Finalize { proposal } => match voted {
            None => false,
            Some(voted) => voted.is_same(proposal),
        },
        Subject::Nullify { round: nullified } => round == *nullified,
    }
}

/// Whether a ballot can be a vote of a kind: it has a proposal, or the kind is without one.
fn is_of<D: Digest>(kind: VoteKind, voted: &Option<Proposal<D>>) -> bool
    ensures { (round : positions.Round) → result ≡ is_some (subject_of kind round voted.now) }
{
    match kind {
        VoteKind::Notarize | VoteKind::Finalize => voted.is_some(),
        VoteKind::Nullify => true,
    }
}

/// Whether one or the other is.
pub fn either(one: bool, other: bool) -> bool
    ensures { result ≡ (one || other) }
{
    one || other
}

/// Appends an evidence, if there is one.
fn push_found<S: SchemeTypes, D: Digest>(
    found: &mut Vec<Evidence<S, D>>,
    evidence: Option<Evidence<S, D>>,
) -> Result<(), AllocError>
    ensures appended { OnOk result (map evidence_value found.new.items ≡
        map evidence_value found.old.items ++ option_to_list (option_map evidence_value evidence)) }
    ensures encoded { OnOk result (StayEncoded D.eq (format_of ⟦<D as Read>⟧)
        (format_of ⟦<S::Signature as Read>⟧) found.old.items found.new.items) }
{
    if let Some(evidence) = evidence {
        // Its clause says that the evidence can be encoded.
        evidence.encode_size();
        found.push(evidence)?;
    }
    Ok(())
}
