//! The state of every round so far.

ghost use Rattle.std.specs.Prelude.{◌≡◌, [], ◌∷◌, ◌++◌, List, All, map, None, IfOk, OnOk};
ghost use Rattle.std.specs.Option.{option_to_list};
ghost use Rattle.simplex_base.specs.Format.{format_of};
ghost use Rattle.simplex_detector.specs.Detector.{RecallsNone, RecallsMore, TellsNews, GivesEvidence, GivesSplitOf, GivesSplits, CountsVotes, Recalls, TellsCertified};
ghost use Rattle.simplex_detector.specs.RoundMap.{get};
ghost use Rattle.simplex_evidence.specs.Activity.{activity_round, contents_of};
ghost use Rattle.simplex_evidence.specs.Contents.{AreInConflict, contents_value};
ghost use Rattle.simplex_evidence.specs.declared.types.activity.Activity.{Activity};
ghost use Rattle.simplex_rules.specs.Accusation.{round_cmp};
ghost use Rattle.simplex_rules.specs.EncodedEvidence.{IsEncoded};
ghost use Rattle.simplex_rules.specs.Independence.{in_rounds, is_from};
ghost use Rattle.simplex_detector.specs.Gathered.{GathersMessage, RecordsFirst, TellsKept};
ghost use Rattle.simplex_ballots.specs.Kept.{is_kept};
ghost use Rattle.simplex_rules.specs.Rules.{Rules};
ghost use Rattle.simplex_rules.specs.Values.{evidence_value};

use crate::round_map::RoundMap;
use crate::round_state::RoundState;
use simplex_ballots::apart::Apart;
use simplex_ballots::kept::Kept;
use simplex_base::codec::Read;
use simplex_base::positions::Round;
use simplex_evidence::types::{Activity, Contents};
use simplex_rules::evidence::Evidence;
use simplex_rules::judge::Judge;
use simplex_rules::judging::Judging;
use simplex_rules::rules::Judges;
use simplex_rules::split::Split;
use simplex_scheme::committees::Committees;
use simplex_scheme::scheme::{Digest, Listing, SchemeTypes, VoteKind};
use std::alloc::{AllocError, Global};

/// The state of every round so far. A round has a state as soon as something of it is recorded.
#[derive(Drop)]
pub struct Detector<S: SchemeTypes, D: Digest> {
    /// The rounds of which something is recorded.
    pub rounds: RoundMap<RoundState<S, D>>,
}

impl<S: Listing<D>, D: Digest> Detector<S, D> {
    /// A detector that has seen no message.
    pub fn new(alloc: Global) -> Self
        ensures { RecallsNone ⟦<S as Judges<D>>⟧.rules_under result }
    {
        Detector {
            rounds: RoundMap::new(alloc),
        }
    }

    /// Records one message, and returns whether it is news: whether it changed the state. Its round is searched once, and again
    /// if it is new, but not if it is the round of the message before. `AllocError` only if an allocation failed: the message
    /// may then be recorded in part, and nothing is stated of what the detector returns from then on, so drop it.
    pub fn observe(
        &mut self,
        alloc: Global,
        committees: &Committees<S>,
        judging: &Judging,
        message: &Activity<S, D>,
    ) -> Result<bool, AllocError>
        ensures records { OnOk result (RecallsMore
            (⟦<S as Judges<D>>⟧.rules_under judging.now committees.now)
            (message.now ∷ []) self.old self.new) }
        ensures news { IfOk result (λ news. TellsNews
            (⟦<S as Judges<D>>⟧.rules_under judging.now committees.now) message.now self.old news) }
    {
        let mut apart = Apart::new(alloc, false);
        self.record(alloc, committees, judging, message, &mut apart)
    }

    /// Records one message, as `observe` does, and returns what can be kept in its place: of a certificate whose subject is no
    /// news its votes that are, in the certificate's order, and any other message as a whole, if it is news. No signature is
    /// verified for that. `AllocError` only if an allocation failed, with no more stated than by `observe`.
    pub fn observe_apart(
        &mut self,
        alloc: Global,
        committees: &Committees<S>,
        judging: &Judging,
        message: &Activity<S, D>,
    ) -> Result<Kept<S, D>, AllocError>
        ensures records { OnOk result (RecallsMore
            (⟦<S as Judges<D>>⟧.rules_under judging.now committees.now)
            (message.now ∷ []) self.old self.new) }
        ensures news { IfOk result (λ kept. TellsNews
            (⟦<S as Judges<D>>⟧.rules_under judging.now committees.now) message.now self.old
            (is_kept kept)) }
        ensures kept { IfOk result (λ kept. TellsKept
            (⟦<S as Judges<D>>⟧.rules_under judging.now committees.now) message.now self.old kept) }
    {
        let mut apart = Apart::new(alloc, true);
        let is_news = self.record(alloc, committees, judging, message, &mut apart)?;
        Ok(apart.news(is_news))
    }

    /// Records one message, returns whether it is news, and gathers its votes that are, if they are wanted and the message is a
    /// certificate whose subject is no news.
    fn record(
        &mut self,
        alloc: Global,
        committees: &Committees<S>,
        judging: &Judging,
        message: &Activity<S, D>,
        apart: &mut Apart<S, D>,
    ) -> Result<bool, AllocError>
        ensures records { OnOk result (RecallsMore
            (⟦<S as Judges<D>>⟧.rules_under judging.now committees.now)
            (message.now ∷ []) self.old self.new) }
        ensures news { IfOk result (λ news. TellsNews
            (⟦<S as Judges<D>>⟧.rules_under judging.now committees.now) message.now self.old news) }
        ensures gathers { OnOk result (GathersMessage
            (⟦<S as Judges<D>>⟧.rules_under judging.now committees.now) message.now self.old
            apart.old apart.new) }
    {
        let contents = message.contents();
        let round = contents.round();
        let Some(committee) = committees.get(round.epoch()) else {
            return Ok(false);
        };
        let judge = Judge { committee, judging };
        if let Some(round_state) = self.rounds.get_mut(round) {
            return round_state.observe(alloc, &judge, &contents, apart);
        }
        self.record_first(alloc, &judge, round, &contents, apart)
    }

    /// Records what the first message of a round holds, as `record` does. It stands apart, for a function clears the room of
    /// its locals whenever it is called, and a round's state takes some hundred bytes.
    #[inline(never)]
    fn record_first(
        &mut self,
        alloc: Global,
        judge: &Judge<'_, S>,
        round: Round,
        contents: &Contents<'_, S, D>,
        apart: &mut Apart<S, D>,
    ) -> Result<bool, AllocError>
        requires { get round_cmp self.old.rounds round ≡ None }
        ensures { IfOk result (λ news.
            (message : Activity S D S.Certificate S.PublicKey S.Signature) →
            contents_value contents.now ≡ contents_of message →
            AreInConflict D.eq (contents_of message) → round ≡ activity_round message →
            RecordsFirst (⟦<S as Judges<D>>⟧.rules_under judge.now.judging.now)
            judge.now.committee.now message news self.old self.new apart.old apart.new) }
    {
        let participants = judge.committee.participants().len();
        let mut round_state = RoundState::new(alloc, round, participants);
        let news = round_state.observe(alloc, judge, contents, apart)?;
        if !round_state.is_empty() {
            self.rounds.insert(round, round_state)?;
        }
        Ok(news)
    }

    /// Gives up the states of all rounds below a floor. The detector is then as if nothing of these rounds had been valid.
    /// Nothing is allocated, and no state that stays is looked at but the first.
    pub fn prune(&mut self, floor: Round)
        ensures { (rules : Rules S D S.Certificate S.PublicKey S.Signature)
            (messages : List (Activity S D S.Certificate S.PublicKey S.Signature)) →
            Recalls rules messages self.old →
            Recalls (in_rounds (is_from floor) rules) messages self.new }
    {
        self.rounds.prune(floor);
    }

    /// The evidence in the valid votes so far: at most one for each round, signer and kind, in that order.
    /// `AllocError` only where an allocation failed.
    pub fn evidence(&self, alloc: Global) -> Result<Vec<Evidence<S, D>>, AllocError>
        ensures evidence { IfOk result (λ found. GivesEvidence ⟦<S as Judges<D>>⟧.rules_under
            self.now (map evidence_value found.items)) }
        // Each can be encoded as a message.
        ensures encoded { IfOk result (λ found.
            All (IsEncoded D.eq (format_of ⟦<D as Read>⟧) (format_of ⟦<S::Signature as Read>⟧))
            found.items) }
    {
        let mut found = Vec::new(alloc);
        'rounds: for (_, round_state) in &self.rounds {
            round_state.votes.report_to(alloc, &mut found)?;
        }
        Ok(found)
    }

    /// The splits of the messages so far, in the order of rounds. `AllocError` only where an
    /// allocation failed.
    pub fn splits(
        &self,
        alloc: Global,
        committees: &Committees<S>,
    ) -> Result<Vec<Split>, AllocError>
        ensures { IfOk result (λ splits. GivesSplits ⟦<S as Judges<D>>⟧.rules_under
            committees.now self.now splits.items) }
    {
        let mut splits = Vec::new(alloc);
        'rounds: for (round, round_state) in &self.rounds {
            push_split(&mut splits, round_state.split(committees, *round))?;
        }
        Ok(splits)
    }

    /// The split of a round, if the messages so far split it.
    pub fn split_of(&self, committees: &Committees<S>, round: Round) -> Option<Split>
        ensures { GivesSplitOf ⟦<S as Judges<D>>⟧.rules_under committees.now round self.now result }
    {
        match self.rounds.get(round) {
            None => None,
            Some(round_state) => round_state.split(committees, round),
        }
    }

    /// Whether a message so far certifies a subject of this kind in a round; `None` if the round is split, since no more is
    /// recorded of it then.
    pub fn has_certified(&self, round: Round, kind: VoteKind) -> Option<bool>
        ensures { TellsCertified ⟦<S as Judges<D>>⟧.rules_under round kind self.now result }
    {
        match self.rounds.get(round) {
            None => Some(false),
            Some(round_state) => round_state.has_certified(kind),
        }
    }

    /// How many valid votes of the messages so far are recorded: for each signer and round the earliest of each kind, and of
    /// notarizes and finalizes also the earliest with another proposal. The number stops at 2^64 - 1.
    pub fn votes(&self) -> usize
        ensures { CountsVotes ⟦<S as Judges<D>>⟧.rules_under self.now result }
    {
        let mut count: usize = 0;
        'rounds: for (_, round_state) in &self.rounds {
            count = count.saturating_add(round_state.votes.votes());
        }
        count
    }
}

/// Appends a split, if there is one.
fn push_split(splits: &mut Vec<Split>, split: Option<Split>) -> Result<(), AllocError>
    ensures { OnOk result (splits.new.items ≡ splits.old.items ++ option_to_list split) }
{
    if let Some(split) = split {
        splits.push(split)?;
    }
    Ok(())
}
