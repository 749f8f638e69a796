//! What arises in messages: the evidence and the splits, each told once.

ghost use Rattle.std.specs.Prelude.{[], ◌∷◌, IfOk, OnOk};
ghost use Rattle.simplex_alarm.specs.Alarm.{SoundsFrom, SoundsMore, SoundsNone, SoundsNoted, SoundsUntold};
ghost use Rattle.simplex_ballots.specs.Kept.{is_kept};
ghost use Rattle.simplex_detector.specs.Detector.{RecallsMore, TellsNews};
ghost use Rattle.simplex_detector.specs.Gathered.{TellsKept};
ghost use Rattle.simplex_rules.specs.Rules.{Rules};

use crate::alerts::Alerts;
use crate::split_alerts::SplitAlerts;
use simplex_ballots::kept::Kept;
use simplex_base::positions::Round;
use simplex_detector::detector::Detector;
use simplex_evidence::types::Activity;
use simplex_rules::evidence::Evidence;
use simplex_rules::judging::Judging;
use simplex_rules::rules::Judges;
use simplex_rules::split::Split;
use simplex_scheme::committees::Committees;
use simplex_scheme::scheme::{Digest, Listing, SchemeTypes};
use std::alloc::{AllocError, Global};

/// What arose in some messages.
#[derive(Drop)]
pub struct News<S: SchemeTypes, D: Digest> {
    /// The evidence, in the order in which the messages that complete it came.
    pub evidence: Vec<Evidence<S, D>>,
    /// The splits, in the order in which they arose: a round again when more participants are accused there.
    pub splits: Vec<Split>,
}

/// What arose in messages and was not told yet.
#[derive(Drop)]
pub struct Alarm<S: SchemeTypes, D: Digest> {
    evidence: Alerts<S, D>,
    splits: SplitAlerts,
}

impl<S: Listing<D>, D: Digest> Alarm<S, D> {
    /// Nothing arose yet.
    pub fn new(alloc: Global) -> Self
        ensures { SoundsNone ⟦<S as Judges<D>>⟧.rules_under result }
    {
        Alarm {
            evidence: Alerts::new(alloc),
            splits: SplitAlerts::new::<S, D>(alloc),
        }
    }

    /// Has a detector observe one message, and notes the evidence that the message completes and the split that it changes. It
    /// returns whether the message is news, as [`Detector::observe`] does; of one that is not, nothing is looked at.
    /// `AllocError` only where an allocation failed: nothing is stated of the detector and of the alarm then, so drop both.
    pub fn observe(
        &mut self,
        alloc: Global,
        detector: &mut Detector<S, D>,
        committees: &Committees<S>,
        judging: &Judging,
        message: &Activity<S, D>,
    ) -> Result<bool, AllocError>
        ensures records { OnOk result (RecallsMore
            (⟦<S as Judges<D>>⟧.rules_under judging.now committees.now)
            (message.now ∷ []) detector.old detector.new) }
        ensures news { IfOk result (λ news. TellsNews
            (⟦<S as Judges<D>>⟧.rules_under judging.now committees.now) message.now detector.old news) }
        ensures sounds { OnOk result (SoundsMore
            (⟦<S as Judges<D>>⟧.rules_under judging.now committees.now) (message.now ∷ [])
            detector.old self.old self.new) }
    {
        if !detector.observe(alloc, committees, judging, message)? {
            return Ok(false);
        }
        self.note(alloc, detector, committees, message)?;
        Ok(true)
    }

    /// Has a detector observe one message, as `observe` does, and returns what can be kept in its place, as
    /// [`Detector::observe_apart`] does. `AllocError` only where an allocation failed, with no more stated than by `observe`.
    pub fn observe_apart(
        &mut self,
        alloc: Global,
        detector: &mut Detector<S, D>,
        committees: &Committees<S>,
        judging: &Judging,
        message: &Activity<S, D>,
    ) -> Result<Kept<S, D>, AllocError>
        ensures records { OnOk result (RecallsMore
            (⟦<S as Judges<D>>⟧.rules_under judging.now committees.now)
            (message.now ∷ []) detector.old detector.new) }
        ensures news { IfOk result (λ kept. TellsNews
            (⟦<S as Judges<D>>⟧.rules_under judging.now committees.now) message.now detector.old
            (is_kept kept)) }
        ensures kept { IfOk result (λ kept. TellsKept
            (⟦<S as Judges<D>>⟧.rules_under judging.now committees.now) message.now detector.old kept) }
        ensures sounds { OnOk result (SoundsMore
            (⟦<S as Judges<D>>⟧.rules_under judging.now committees.now) (message.now ∷ [])
            detector.old self.old self.new) }
    {
        let kept = detector.observe_apart(alloc, committees, judging, message)?;
        if !kept.is_kept() {
            return Ok(kept);
        }
        self.note(alloc, detector, committees, message)?;
        Ok(kept)
    }

    /// Notes the evidence that a message completed and the split that it changed, if a detector observed it and it was news.
    fn note(
        &mut self,
        alloc: Global,
        detector: &Detector<S, D>,
        committees: &Committees<S>,
        message: &Activity<S, D>,
    ) -> Result<(), AllocError>
        ensures { OnOk result (SoundsNoted ⟦<S as Judges<D>>⟧.rules_under committees.now detector.now
            message.now self.old self.new) }
    {
        self.evidence.note(alloc, detector, message)?;
        self.splits.note(detector, committees, message)
    }

    /// Takes what was not told yet. None of it is taken again.
    pub fn take(&mut self) -> News<S, D>
        ensures { SoundsUntold S.Certificate result self.old self.new }
    {
        News {
            evidence: self.evidence.take(),
            splits: self.splits.take(),
        }
    }

    /// Forgets what is of rounds below a floor, told or not.
    pub fn prune(&mut self, floor: Round)
        ensures { (rules : Rules S D S.Certificate S.PublicKey S.Signature) →
            SoundsFrom rules floor self.old self.new }
    {
        self.evidence.prune(floor);
        self.splits.prune::<S, D>(floor);
    }
}
