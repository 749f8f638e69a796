//! Evidence as it arises: each is told once.

ghost use Rattle.std.specs.Prelude.{◌≡◌, [], ◌∷◌, map, OnOk};
ghost use Rattle.simplex_rules.specs.Accusation.{accused_by};
ghost use Rattle.simplex_alarm.specs.Alerts.{NotesAll, NotesMessage, TellsFrom, TellsNone, TellsUntold};
ghost use Rattle.simplex_rules.specs.Independence.{is_from};
ghost use Rattle.simplex_ballots.specs.Rounds.{found_against, found_at, slots};
ghost use Rattle.simplex_rules.specs.Rules.{Rules};
ghost use Rattle.simplex_rules.specs.Values.{evidence_value};

use simplex_ballots::round_votes::RoundVotes;
use simplex_base::positions::{Participant, Round};
use simplex_detector::detector::Detector;
use simplex_evidence::types::{Activity, Contents};
use simplex_rules::evidence::{Accusation, Evidence};
use simplex_rules::judging::is_at_least;
use simplex_rules::pruning::prune_accusations;
use simplex_rules::rules::Judges;
use simplex_scheme::scheme::{Attestation, Digest, Listing, SchemeTypes};
use std::alloc::{AllocError, Global};
use std::collections::BTreeSet;
use std::mem;

/// The evidence that arose in messages and was not told yet. Each evidence is told once, in the order in which the messages
/// that complete it came.
#[derive(Drop)]
pub struct Alerts<S: SchemeTypes, D: Digest> {
    /// Whom the evidence so far accuses, told or not.
    accused: BTreeSet<Accusation>,
    /// The evidence that was not told yet.
    untold: Vec<Evidence<S, D>>,
}

impl<S: Listing<D>, D: Digest> Alerts<S, D> {
    /// Nothing arose yet.
    pub fn new(alloc: Global) -> Self
        ensures { TellsNone ⟦<S as Judges<D>>⟧.rules_under result }
    {
        Alerts {
            accused: BTreeSet::new(alloc),
            untold: Vec::new(alloc),
        }
    }

    /// Notes the evidence against the signers of a message that a detector observed. The message's round is looked up once.
    /// `AllocError` only where an allocation failed: nothing is stated of the alerts then.
    pub fn note(
        &mut self,
        alloc: Global,
        detector: &Detector<S, D>,
        message: &Activity<S, D>,
    ) -> Result<(), AllocError>
        ensures { OnOk result (NotesMessage ⟦<S as Judges<D>>⟧.rules_under detector.now message.now
            self.old self.new) }
    {
        let contents = message.contents();
        let Some(round_state) = detector.rounds.get(contents.round()) else {
            return Ok(());
        };
        let votes = &round_state.votes;
        match &contents {
            Contents::Vote(vote) => self.note_signer(alloc, votes, vote.attestation.signer),
            Contents::Certificate(_, certificate) => {
                self.note_signers(alloc, votes, S::attestations(certificate))
            }
            Contents::Evidence(vote, _) => self.note_signer(alloc, votes, vote.attestation.signer),
        }
    }

    /// Notes the evidence against the signers of some attestations in a round's votes.
    fn note_signers(
        &mut self,
        alloc: Global,
        votes: &RoundVotes<S, D>,
        attestations: &[Attestation<S>],
    ) -> Result<(), AllocError>
        ensures { OnOk result (NotesAll (found_against D.eq votes.now
            (map (λ a. a.signer) attestations.now)) self.old self.new) }
    {
        'listed: for attestation in attestations {
            self.note_signer(alloc, votes, attestation.signer)?;
        }
        Ok(())
    }

    /// Notes the evidence against a signer in a round's votes.
    fn note_signer(
        &mut self,
        alloc: Global,
        votes: &RoundVotes<S, D>,
        signer: Participant,
    ) -> Result<(), AllocError>
        ensures { OnOk result (NotesAll (found_at D.eq (slots votes.now signer)) self.old self.new) }
    {
        let mut found = Vec::new(alloc);
        votes.report_signer(signer, &mut found)?;
        self.note_all(found)
    }

    /// Notes some evidence.
    fn note_all(&mut self, found: Vec<Evidence<S, D>>) -> Result<(), AllocError>
        ensures { OnOk result (NotesAll (map evidence_value found.items) self.old self.new) }
    {
        'found: for evidence in found {
            self.note_evidence(evidence)?;
        }
        Ok(())
    }

    /// Notes an evidence, unless it arose before.
    fn note_evidence(&mut self, evidence: Evidence<S, D>) -> Result<(), AllocError>
        ensures { OnOk result (NotesAll (evidence_value evidence ∷ []) self.old self.new) }
    {
        if self.accused.insert(evidence.accusation())? {
            self.untold.push(evidence)?;
        }
        Ok(())
    }

    /// Takes the evidence that was not told yet, in the order in which it arose. None of it is taken again.
    pub fn take(&mut self) -> Vec<Evidence<S, D>>
        ensures { TellsUntold (map evidence_value result.items) self.old self.new }
    {
        let alloc = *self.untold.allocator();
        mem::replace(&mut self.untold, Vec::new(alloc))
    }

    /// Forgets the evidence of rounds below a floor, told or not.
    pub fn prune(&mut self, floor: Round)
        ensures { (rules : Rules S D S.Certificate S.PublicKey S.Signature) →
            TellsFrom rules floor self.old self.new }
    {
        prune_accusations(&mut self.accused, floor);
        let untold = |evidence: &Evidence<S, D>| -> bool
            ensures { result ≡ is_from floor (accused_by (evidence_value evidence.now)).round }
        { is_at_least(evidence.round(), floor) };
        self.untold.retain(untold);
    }
}
