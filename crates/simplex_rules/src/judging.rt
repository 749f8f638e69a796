//! How strictly votes and certificates are judged.

ghost use Rattle.std.specs.Prelude.{◌≡◌, ℕ, All, Contains, IfOk, IsTrue, map};
ghost use Rattle.std.specs.BTreeSet.{contains, IsFromIterResult};
ghost use Rattle.simplex_base.specs.Positions as positions;
ghost use Rattle.simplex_scheme.specs.Subject.{subject_value, round_of};
ghost use Rattle.simplex_rules.specs.Accusation.{round_cmp, signer_cmp, signer_in};
ghost use Rattle.simplex_rules.specs.Independence.{is_from};
ghost use Rattle.simplex_rules.specs.Judging.{are_verified};
ghost use Rattle.simplex_rules.specs.Suspects.{suspect_of};
ghost use Rattle.simplex_rules.specs.Values.{evidence_value};
ghost use Rattle.simplex_rules.specs.declared.evidence.SignerInRound as suspect;

use crate::evidence::{Evidence, SignerInRound};
use simplex_base::positions::{Participant, Round, Roundable};
use simplex_scheme::scheme::{Digest, SchemeTypes, Subject};
use std::alloc::{AllocError, Global};
use std::collections::BTreeSet;

/// The signers whose claimed votes contradict, and the rounds in which they do.
#[derive(Drop)]
pub struct SuspectSigners {
    /// The rounds whose certificates are verified.
    pub rounds: BTreeSet<Round>,
    /// Each signer, with the round in which its votes are verified.
    pub signers: BTreeSet<SignerInRound>,
}

/// How strictly votes and certificates are judged. The scheme verifies only what this says is verified.
#[derive(Drop)]
pub enum Judging {
    /// Every vote and every certificate is verified.
    Verified,
    /// Nothing is verified: a vote is valid where its signer is in the committee, and no certificate certifies.
    Claimed,
    /// The votes of these signers in their rounds are verified, and the certificates of these rounds. No other vote is valid,
    /// and no other certificate certifies.
    Suspects(SuspectSigners),
    /// The votes and the certificates of the rounds from this one on are verified. No vote of a round below it is valid, and no
    /// certificate of such a round certifies.
    From(Round),
}

impl Judging {
    /// Whether the certificates of a subject's round are verified.
    pub fn verifies_certificates<D: Digest>(&self, subject: &Subject<'_, D>) -> bool
        ensures { result ≡ are_verified self.now (round_of (subject_value subject.now)) }
    {
        match self {
            Judging::Verified => true,
            Judging::Claimed => false,
            Judging::Suspects(suspects) => suspects.rounds.contains(&subject.round()),
            Judging::From(floor) => is_at_least(subject.round(), *floor),
        }
    }
}

impl SuspectSigners {
    /// Whether a signer is suspect in the round of a subject.
    pub fn has<D: Digest>(&self, subject: &Subject<'_, D>, signer: Participant) -> bool
        ensures { result ≡ contains signer_cmp self.now.signers
            (signer_in (round_of (subject_value subject.now)) signer) }
    {
        let round = subject.round();
        self.signers.contains(&SignerInRound { round, signer })
    }
}

/// Whether a round is at a floor or above it.
pub fn is_at_least(round: Round, floor: Round) -> bool
    ensures { result ≡ is_from floor round }
{
    floor <= round
}

/// The signers of some evidence, each with its round, and the rounds. `AllocError` only where an
/// allocation failed.
pub fn suspects_of<S: SchemeTypes, D: Digest>(
    alloc: Global,
    evidence: &[Evidence<S, D>],
) -> Result<SuspectSigners, AllocError>
    ensures rounds { IfOk result (λ suspects.
        All (λ round. IsTrue (contains round_cmp suspects.rounds round))
        (map (λ e. round_of (evidence_value e).first.subject) evidence.now)) }
    ensures signers { IfOk result (λ suspects.
        All (λ suspect. IsTrue (contains signer_cmp suspects.signers suspect))
        (map (λ e. suspect_of (evidence_value e)) evidence.now)) }
    ensures only_rounds { IfOk result (λ suspects. (round : positions.Round) →
        IsTrue (contains round_cmp suspects.rounds round) →
        Contains (map (λ e. round_of (evidence_value e).first.subject) evidence.now) round) }
    ensures only_signers { IfOk result (λ suspects. (signer : suspect.SignerInRound) →
        IsTrue (contains signer_cmp suspects.signers signer) →
        Contains (map (λ e. suspect_of (evidence_value e)) evidence.now) signer) }
{
    let rounds = rounds_of(alloc, evidence)?;
    let signers = signers_of(alloc, evidence)?;
    Ok(SuspectSigners { rounds, signers })
}

/// The set of the rounds of some evidence.
fn rounds_of<S: SchemeTypes, D: Digest>(
    alloc: Global,
    evidence: &[Evidence<S, D>],
) -> Result<BTreeSet<Round>, AllocError>
    ensures { IfOk result (λ rounds. IsFromIterResult round_cmp
        (map (λ e. round_of (evidence_value e).first.subject) evidence.now) rounds) }
{
    evidence.iter().map(|item| item.round()).collect(alloc)
}

/// The set of the signers of some evidence, each with its round.
fn signers_of<S: SchemeTypes, D: Digest>(
    alloc: Global,
    evidence: &[Evidence<S, D>],
) -> Result<BTreeSet<SignerInRound>, AllocError>
    ensures { IfOk result (λ signers. IsFromIterResult signer_cmp
        (map (λ e. suspect_of (evidence_value e)) evidence.now) signers) }
{
    evidence
        .iter()
        .map(|item| SignerInRound {
            round: item.round(),
            signer: item.signer(),
        })
        .collect(alloc)
}
