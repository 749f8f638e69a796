//! What an auditor that listens knows of the messages that its window took.

ghost use Rattle.std.specs.Prelude.{◌≡◌, ◌↔◌, ◌++◌, ⊤, [], ◌∷◌, List, Contains, IsTrue, OnOk, if◌then◌else◌, is_some, true};
ghost use Rattle.simplex_base.specs.Positions as positions;
ghost use Rattle.simplex_evidence.specs.Activity.{activity_round};
ghost use Rattle.simplex_scheme.specs.Committees.{Schedule};
ghost use Rattle.simplex_scheme.specs.Kind.{same_kind};
ghost use Rattle.simplex_scheme.specs.declared.kind.VoteKind.TheVariants as kinds;
ghost use Rattle.simplex_alarm.specs.Alarm.{nothing_told};
ghost use Rattle.simplex_rules.specs.Splits.{is_certified_message};
ghost use Rattle.simplex_monitor.specs.Taken.{Takes};
ghost use Rattle.simplex_monitor.specs.Watching.{Advances, KeepsCounts, KeepsFrom, PrunesTo, RecordsOne, TellsIfCertified, Watches, WatchesMore};
ghost use Rattle.simplex_monitor.specs.Window.{AdmitsCertificate, IsInOrder, window_after};
ghost use Rattle.simplex_monitor.specs.declared.window.Window as windows;

use crate::window::{Window, is_at_least};
use simplex_alarm::alarm::Alarm;
use simplex_audit::basis::Audited;
use simplex_audit::compaction::append_news;
use simplex_base::positions::{Round, Roundable};
use simplex_detector::detector::Detector;
use simplex_evidence::types::{Activity, Contents};
use simplex_laws::laws::{floors_rise, news_suffices, rounds_are_independent, same_state_suffices};
use simplex_rules::judging::Judging;
use simplex_rules::rules::Judges;
use simplex_scheme::committees::Committees;
use simplex_scheme::scheme::{Digest, Listing, SchemeTypes, VoteKind};
use simplex_stream::messages::Visitor;
use std::alloc::{AllocError, Global};

/// What is known of the messages that a window took when they came. Each is judged by the committee of its epoch.
#[derive(Drop)]
pub struct Watcher<S: SchemeTypes, D: Digest> {
    /// Which messages are taken. The valid certificates among them move it.
    pub window: Window,
    /// The state of the messages that were taken, from the window's floor on.
    pub detector: Detector<S, D>,
    /// What arose in them from the floor on, as far as it was not told yet.
    pub alarm: Alarm<S, D>,
    /// Messages that can stand for them from the floor on, one after the other, if they are wanted.
    pub held: Option<Vec<u8>>,
    /// How many messages were of rounds below the floor when they came, or of view 0. The number stops at 2^64 - 1.
    pub below: u64,
    /// How many messages were of rounds above the window when they came. The number stops at 2^64 - 1.
    pub above: u64,
}

impl<S: Listing<D>, D: Digest> Watcher<S, D> {
    /// Nothing came yet. Messages that can stand for those that come are held if they are wanted.
    pub fn new(alloc: Global, window: Window, holds: bool) -> Self
        ensures holds { is_some result.held ≡ holds }
        ensures watches { (committees : Schedule S) →
            Watches (⟦<S as Audited<D>>⟧.basis committees) window [] nothing_told 0 0 result }
    {
        floors_rise::<S, D>();
        Watcher {
            window,
            detector: Detector::new(alloc),
            alarm: Alarm::new(alloc),
            held: holds.then_some(Vec::new(alloc)),
            below: 0,
            above: 0,
        }
    }

    /// Takes one more message if the window admits votes of its round, or if it has a certificate that certifies its subject
    /// and the window admits certificates of its round. `AllocError` only where an allocation failed: nothing is stated then,
    /// so drop this.
    pub fn observe(
        &mut self,
        alloc: Global,
        committees: &Committees<S>,
        message: &Activity<S, D>,
    ) -> Result<(), AllocError>
        ensures { OnOk result (WatchesMore (⟦<S as Audited<D>>⟧.basis committees.now) (message.now ∷ [])
            self.old self.new) }
    {
        let round = message.round();
        if !self.window.admits_certificate(round) {
            self.below = self.below.saturating_add(1);
            return Ok(());
        }
        if !self.takes(committees, round, message) {
            self.above = self.above.saturating_add(1);
            return Ok(());
        }
        self.record(alloc, committees, message)?;
        self.advance(committees, message);
        Ok(())
    }

    /// Whether a message is taken, if the window admits certificates of its round.
    fn takes(&self, committees: &Committees<S>, round: Round, message: &Activity<S, D>) -> bool
        ensures { round ≡ activity_round message.now → AdmitsCertificate self.now.window round →
            IsTrue result ↔ Takes (⟦<S as Judges<D>>⟧.rules committees.now) self.now.window
            message.now }
    {
        self.window.admits_vote(round) || is_certified(committees, message)
    }

    /// Records a message, judged from the floor on, and holds what is kept of it, if that is wanted.
    fn record(
        &mut self,
        alloc: Global,
        committees: &Committees<S>,
        message: &Activity<S, D>,
    ) -> Result<(), AllocError>
        ensures { OnOk result (RecordsOne (⟦<S as Audited<D>>⟧.basis committees.now) message.now
            self.old self.new) }
    {
        floors_rise::<S, D>();
        rounds_are_independent::<S, D>();
        same_state_suffices::<S, D>();
        news_suffices::<S, D>();
        let judging = Judging::From(self.window.floor());
        match &mut self.held {
            None => {
                self.alarm
                    .observe(alloc, &mut self.detector, committees, &judging, message)?;
                Ok(())
            }
            Some(held) => {
                let kept = self
                    .alarm
                    .observe_apart(alloc, &mut self.detector, committees, &judging, message)?;
                append_news(&kept, message, held)
            }
        }
    }

    /// Moves the window by a message that was recorded, if that has a certificate, and a message so far certifies a subject of
    /// the same kind in the same round.
    fn advance(&mut self, committees: &Committees<S>, message: &Activity<S, D>)
        ensures { Advances (⟦<S as Audited<D>>⟧.basis committees.now) message.now self.old self.new }
    {
        let contents = message.contents();
        let round = contents.round();
        let kind = match &contents {
            Contents::Vote(_) => return,
            Contents::Certificate(subject, _) => subject.kind(),
            Contents::Evidence(_, _) => return,
        };
        if self.has_certified(committees, round, kind, message) {
            self.move_by(round, kind);
        }
    }

    /// Whether a message that was recorded, or one before it, certifies a subject of this kind in this round. In a split round
    /// only the message is looked at.
    fn has_certified(
        &self,
        committees: &Committees<S>,
        round: Round,
        kind: VoteKind,
        message: &Activity<S, D>,
    ) -> bool
        ensures { TellsIfCertified (⟦<S as Audited<D>>⟧.basis committees.now) message.now round kind
            self.now result }
    {
        floors_rise::<S, D>();
        match self.detector.has_certified(round, kind) {
            Some(certified) => certified,
            None => is_certified(committees, message),
        }
    }

    /// Moves the window by a certified subject of a round. If its floor rises, what is below the floor is given up.
    fn move_by(&mut self, round: Round, kind: VoteKind)
        ensures moves { (start : windows.Window) (certified finalized : List positions.Round) →
            IsInOrder start → self.old.window ≡ window_after start certified finalized →
            self.new.window ≡ window_after start (certified ++ round ∷ [])
            (finalized ++ (if same_kind kind kinds.Finalize then round ∷ [] else [])) }
        ensures again { (start : windows.Window) (certified finalized : List positions.Round) →
            self.old.window ≡ window_after start certified finalized → Contains certified round →
            (same_kind kind kinds.Finalize ≡ true → Contains finalized round) →
            self.new.window ≡ self.old.window }
        ensures counts { KeepsCounts self.old self.new }
        ensures holds { (committees : Schedule S) →
            KeepsFrom (⟦<S as Audited<D>>⟧.basis committees) self.old self.new }
    {
        let before = self.window.floor();
        self.window.advance(round, finalizes(kind));
        let floor = self.window.floor();
        if is_at_least(before, floor) {
            return;
        }
        self.prune(floor);
    }

    /// Gives up what is below a floor.
    fn prune(&mut self, floor: Round)
        ensures window { self.new.window ≡ self.old.window }
        ensures counts { KeepsCounts self.old self.new }
        ensures holds { (committees : Schedule S) →
            PrunesTo (⟦<S as Audited<D>>⟧.basis committees) floor self.old self.new }
    {
        floors_rise::<S, D>();
        rounds_are_independent::<S, D>();
        self.detector.prune(floor);
        self.alarm.prune(floor);
    }
}

impl<S: Listing<D>, D: Digest> Visitor<Activity<S, D>> for Watcher<S, D> {
    ghost use Rattle.simplex_monitor.specs.WatchingLaws.{watches_more, watches_none};

    type Context = Committees<S>;

    ghost follows = { λ committees. WatchesMore (⟦<S as Audited<D>>⟧.basis committees) };

    ghost has_room = { λ _ _. ⊤ };

    fn take(
        &mut self,
        alloc: Global,
        committees: &Committees<S>,
        _size: usize,
        message: &Activity<S, D>,
    ) -> Result<(), AllocError> {
        self.observe(alloc, committees, message)
    }

    ghost none = { λ committees state. watches_none (⟦<S as Audited<D>>⟧.basis committees) state };

    ghost more = { λ committees ms m a b c. watches_more (⟦<S as Audited<D>>⟧.basis committees) ms m a b
        c };

    ghost less = { λ _ _ _ room. room };

    ghost left = { λ _ _ _ _ _ _ room. room };
}

/// Whether a message has a certificate that certifies its subject.
fn is_certified<S: Listing<D>, D: Digest>(
    committees: &Committees<S>,
    message: &Activity<S, D>,
) -> bool
    ensures { result ≡ is_certified_message (⟦<S as Judges<D>>⟧.rules committees.now) message.now }
{
    let contents = message.contents();
    let Contents::Certificate(subject, certificate) = &contents else {
        return false;
    };
    match committees.get(subject.round().epoch()) {
        None => false,
        Some(committee) => committee.verify_certificate(subject.reborrow(), certificate),
    }
}

/// Whether votes of a kind finalize.
fn finalizes(kind: VoteKind) -> bool
    ensures { result ≡ same_kind kind kinds.Finalize }
{
    match kind {
        VoteKind::Notarize => false,
        VoteKind::Nullify => false,
        VoteKind::Finalize => true,
    }
}
