//! The audit of a stream that comes in pieces, which tells each evidence and each split when it arises.

ghost use Rattle.std.specs.Prelude.{◌≡◌, ◌+◌, ◌<◌, ◌^◌, ⊤, ℕ, List, [], ◌∷◌, ◌++◌, length, IfOk};
ghost use Rattle.std.specs.Ordering.{ord_max};
ghost use Rattle.simplex_base.specs.Positions as positions;
ghost use Rattle.simplex_scheme.specs.Committees.{Schedule};
ghost use Rattle.simplex_rules.specs.Accusation.{round_cmp};
ghost use Rattle.simplex_alarm.specs.Alarm as alarms;

use crate::auditor::Auditor;
use crate::basis::Audited;
use crate::reading::Recorder;
use simplex_alarm::alarm::Alarm;
pub use simplex_alarm::alarm::News;
use simplex_base::positions::Round;
use simplex_evidence::types::Activity;
use simplex_laws::laws::{floors_rise, rounds_are_independent};
use simplex_rules::judging::Judging;
use simplex_rules::rules::Judges;
use simplex_scheme::committees::Committees;
use simplex_scheme::scheme::{Digest, Listing, SchemeTypes};
use simplex_stream::messages::Visitor;
use std::alloc::{AllocError, Global};

/// Records messages in a detector, and notes what arises in them.
#[derive(Drop)]
struct Watcher<S: SchemeTypes, D: Digest> {
    recorder: Recorder<S, D>,
    alarm: Alarm<S, D>,
}

impl<S: Listing<D>, D: Digest> Visitor<Activity<S, D>> for Watcher<S, D> {
    ghost use Rattle.simplex_audit.specs.Listening.{WatchesMore};
    ghost use Rattle.simplex_audit.specs.ListeningLaws.{watches_none, watches_more};

    type Context = Committees<S>;

    ghost follows = { λ committees. WatchesMore
        (λ judging. ⟦<S as Judges<D>>⟧.rules_under judging committees) };

    ghost has_room = { λ _ _. ⊤ };

    fn take(
        &mut self,
        alloc: Global,
        committees: &Committees<S>,
        _size: usize,
        message: &Activity<S, D>,
    ) -> Result<(), AllocError> {
        let Recorder { judging, detector } = &mut self.recorder;
        self.alarm
            .observe(alloc, detector, committees, judging, message)?;
        Ok(())
    }

    ghost none = { λ committees state. watches_none
        (λ judging. ⟦<S as Judges<D>>⟧.rules_under judging committees) state };

    ghost more = { λ committees ms m a b c. watches_more
        (λ judging. ⟦<S as Judges<D>>⟧.rules_under judging committees) ms m a b c };

    ghost less = { λ _ _ _ room. room };

    ghost left = { λ _ _ _ _ _ _ room. room };
}

/// An auditor that tells what arises. It holds what an [`Auditor`] holds, whom the evidence so far accuses, how many are
/// accused in each split round, and what was not told yet.
#[derive(Drop)]
pub struct Listener<'a, S: SchemeTypes, D: Digest> {
    auditor: Auditor<'a, S, D>,
    alarm: Alarm<S, D>,
}

impl<'a, S: Listing<D>, D: Digest> Listener<'a, S, D> {
    ghost use Rattle.simplex_audit.specs.Auditor.{fed_of, floor_of};
    ghost use Rattle.simplex_audit.specs.Listening.{HearsFrom, TellsRest, auditor_of};
    ghost use Rattle.simplex_rules.specs.Independence.{first_round};

    /// A listener of these committees that was fed nothing.
    pub fn new(alloc: Global, committees: &'a Committees<S>) -> Self
        ensures fed { fed_of (auditor_of result) ≡ 0 }
        ensures hears { HearsFrom first_round ⟦<S as Audited<D>>⟧.basis committees.now result []
            alarms.nothing_told }
    {
        floors_rise::<S, D>();
        Listener {
            auditor: Auditor::new(alloc, committees),
            alarm: Alarm::new(alloc),
        }
    }

    /// The listener of the stream with this piece appended, as [`Auditor::feed`]. What a look for news costs depends on the
    /// votes of the piece, and not on the rounds that are held. `AllocError` is returned only after an allocation failed, and
    /// then there is no listener.
    pub fn feed(self, piece: &[u8]) -> Result<Self, AllocError>
        requires { fed_of (auditor_of self) + length piece.now < 2 ^ 64 }
        ensures fed { IfOk result (λ next.
            fed_of (auditor_of next) ≡ fed_of (auditor_of self.entry) + length piece.now) }
        ensures hears { IfOk result (λ next.
            (floor : positions.Round) (committees : Schedule S) (stream : List ℕ)
            (told : alarms.Told D S.Signature) →
            HearsFrom floor ⟦<S as Audited<D>>⟧.basis committees self.entry stream told →
            HearsFrom floor ⟦<S as Audited<D>>⟧.basis committees next (stream ++ piece.now) told) }
    {
        floors_rise::<S, D>();
        rounds_are_independent::<S, D>();
        let Listener { auditor, alarm } = self;
        let Auditor {
            committees,
            bound,
            floor,
            detector,
            mut decoder,
        } = auditor;
        let judging = Judging::From(floor);
        let recorder = Recorder { judging, detector };
        let mut watcher = Watcher { recorder, alarm };
        decoder.feed::<Activity<S, D>, Watcher<S, D>>(committees, bound, piece, &mut watcher)?;
        let Watcher { recorder, alarm } = watcher;
        let Recorder { detector, .. } = recorder;
        let auditor = Auditor {
            committees,
            bound,
            floor,
            detector,
            decoder,
        };
        Ok(Listener { auditor, alarm })
    }

    /// Takes what arose and was not told yet: the evidence, and the splits, a round again when more participants are accused
    /// there. What was taken so far is together exactly the evidence of the stream from the floor on, each once, and the
    /// splits as often as they changed, however the stream was cut into pieces.
    pub fn news(&mut self) -> News<S, D>
        ensures fed { fed_of (auditor_of self.new) ≡ fed_of (auditor_of self.old) }
        ensures tells { (floor : positions.Round) (committees : Schedule S) (stream : List ℕ)
            (told : alarms.Told D S.Signature) →
            HearsFrom floor ⟦<S as Audited<D>>⟧.basis committees self.old stream told →
            TellsRest floor ⟦<S as Audited<D>>⟧.basis committees stream told result self.new }
    {
        self.alarm.take()
    }

    /// Gives up all rounds below a floor, as [`Auditor::prune`], told or not: take the news before.
    pub fn prune(&mut self, floor: Round)
        ensures fed { fed_of (auditor_of self.new) ≡ fed_of (auditor_of self.old) }
        ensures floor { floor_of (auditor_of self.new) ≡
            ord_max round_cmp (floor_of (auditor_of self.old)) floor }
        ensures hears { (low : positions.Round) (committees : Schedule S) (stream : List ℕ)
            (told : alarms.Told D S.Signature) →
            HearsFrom low ⟦<S as Audited<D>>⟧.basis committees self.old stream told →
            HearsFrom (ord_max round_cmp low floor) ⟦<S as Audited<D>>⟧.basis committees self.new
            stream (alarms.told_from floor told) }
    {
        floors_rise::<S, D>();
        self.auditor.prune(floor);
        self.alarm.prune(floor);
    }

    /// The auditor of the stream so far, for its report, its floor and its undecoded tail.
    pub fn auditor(&self) -> &Auditor<'a, S, D>
        ensures { result.now ≡ auditor_of self.now }
    {
        &self.auditor
    }
}
