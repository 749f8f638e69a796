//! Splits as they arise: each is told when its round first splits, and again whenever more participants are accused there.

ghost use Rattle.std.specs.Prelude.{◌≡◌, OnOk};
ghost use Rattle.simplex_rules.specs.Independence.{is_from};
ghost use Rattle.simplex_rules.specs.Rules.{Rules};
ghost use Rattle.simplex_alarm.specs.SplitAlerts.{AddsSplit, NotesSplit, TellsNoSplit, TellsSplitsFrom, TellsUntoldSplits};
ghost use Rattle.simplex_rules.specs.Arising.{is_known};

use simplex_base::positions::Round;
use simplex_detector::detector::Detector;
use simplex_evidence::types::Activity;
use simplex_rules::judging::is_at_least;
use simplex_rules::pruning::prune_rounds;
use simplex_rules::rules::Judges;
use simplex_rules::split::Split;
use simplex_scheme::committees::Committees;
use simplex_scheme::scheme::{Digest, Listing};
use std::alloc::{AllocError, Global};
use std::collections::BTreeMap;
use std::mem;

/// The splits that arose in messages and were not told yet.
#[derive(Drop)]
pub struct SplitAlerts {
    /// How many participants are accused in each split round.
    accused: BTreeMap<Round, u32>,
    /// The splits that were not told yet.
    untold: Vec<Split>,
}

impl SplitAlerts {
    /// No round is split yet.
    pub fn new<S: Listing<D>, D: Digest>(alloc: Global) -> Self
        ensures { TellsNoSplit ⟦<S as Judges<D>>⟧.rules_under result }
    {
        SplitAlerts {
            accused: BTreeMap::new(alloc),
            untold: Vec::new(alloc),
        }
    }

    /// Notes the split of the round of a message that a detector has observed, if the message split the round, or if more are
    /// accused there since. One round is looked at, and its signers are counted only if it is split. `AllocError` only where an
    /// allocation failed: nothing is stated then.
    pub fn note<S: Listing<D>, D: Digest>(
        &mut self,
        detector: &Detector<S, D>,
        committees: &Committees<S>,
        message: &Activity<S, D>,
    ) -> Result<(), AllocError>
        ensures { OnOk result (NotesSplit ⟦<S as Judges<D>>⟧.rules_under committees.now detector.now
            message.now self.old self.new) }
    {
        let contents = message.contents();
        match detector.split_of(committees, contents.round()) {
            None => Ok(()),
            Some(split) => self.add(split),
        }
    }

    /// Adds a split, unless it is known with as many accused.
    fn add(&mut self, split: Split) -> Result<(), AllocError>
        ensures { OnOk result (AddsSplit split self.old self.new) }
    {
        let before = self.accused.insert(split.round, split.named)?;
        if !is_known(before, split.named) {
            self.untold.push(split)?;
        }
        Ok(())
    }

    /// Takes the splits that were not told yet, in the order in which they arose. None of them is taken again.
    pub fn take(&mut self) -> Vec<Split>
        ensures { TellsUntoldSplits result.items self.old self.new }
    {
        let alloc = *self.untold.allocator();
        mem::replace(&mut self.untold, Vec::new(alloc))
    }

    /// Forgets the splits of rounds below a floor, told or not.
    pub fn prune<S: Listing<D>, D: Digest>(&mut self, floor: Round)
        ensures { (rules : Rules S D S.Certificate S.PublicKey S.Signature) →
            TellsSplitsFrom rules floor self.old self.new }
    {
        prune_rounds(&mut self.accused, floor);
        let untold = |split: &Split| -> bool
            ensures { result ≡ is_from floor split.now.round }
        { is_at_least(split.round, floor) };
        self.untold.retain(untold);
    }
}

/// Whether this number is known.
fn is_known(before: Option<u32>, named: u32) -> bool
    ensures { result ≡ is_known before named }
{
    match before {
        Some(before) => before == named,
        None => false,
    }
}
