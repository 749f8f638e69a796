//! What is known of a stream that comes in pieces, and what arose in it.

ghost use Rattle.std.specs.Prelude.{◌≡◌, ◌+◌, ◌<◌, ◌^◌, ◌-◌, ⊤, ℕ, List, [], ◌∷◌, ◌++◌, length, IfOk, IsTrue};
ghost use Rattle.std.specs.Ordering.{ord_max};
ghost use Rattle.simplex_base.specs.Positions as positions;
ghost use Rattle.simplex_scheme.specs.Committees.{Schedule};
ghost use Rattle.simplex_rules.specs.Accusation.{round_cmp};
ghost use Rattle.simplex_alarm.specs.Alarm.{Told, nothing_told, told_from, told_then};
ghost use Rattle.simplex_audit.specs.Basis.{basis_from};
ghost use Rattle.simplex_audit.specs.Report.{IsReport};
ghost use Rattle.simplex_tracker.specs.Tracking.{EndsWhole, HasVotes, IsQuiet, Tracks, fed_of, tracking_over};

use simplex_alarm::alarm::{Alarm, News};
use simplex_audit::audit::Report;
use simplex_audit::basis::Audited;
use simplex_base::positions::Round;
use simplex_detector::detector::Detector;
use simplex_evidence::types::Activity;
use simplex_laws::laws::{committees_are_lawful, floors_rise, rounds_are_independent};
use simplex_rules::judging::Judging;
use simplex_rules::rules::Judges;
use simplex_scheme::committees::Committees;
use simplex_scheme::scheme::{Digest, Listing, SchemeTypes};
use simplex_stream::decoder::Decoder;
use simplex_stream::fault::fault_at;
use simplex_stream::messages::{Visitor, stop_of};
use std::alloc::{AllocError, Global};

/// The state of messages, judged from a floor on, and what arose in them.
#[derive(Drop)]
pub struct Sight<S: SchemeTypes, D: Digest> {
    /// The first round that is judged.
    pub floor: Round,
    /// The state of the messages from the floor on.
    pub detector: Detector<S, D>,
    /// What arose in them and was not taken yet.
    pub alarm: Alarm<S, D>,
}

impl<S: Listing<D>, D: Digest> Visitor<Activity<S, D>> for Sight<S, D> {
    ghost use Rattle.simplex_tracker.specs.Tracking.{SeesMore};
    ghost use Rattle.simplex_tracker.specs.TrackingLaws.{sees_none, sees_more};

    type Context = Committees<S>;

    ghost follows = { λ committees. SeesMore
        (λ judging. ⟦<S as Judges<D>>⟧.rules_under judging committees) };

    ghost has_room = { λ _ _. ⊤ };

    fn take(
        &mut self,
        alloc: Global,
        committees: &Committees<S>,
        _size: usize,
        message: &Activity<S, D>,
    ) -> Result<(), AllocError> {
        let judging = Judging::From(self.floor);
        self.alarm
            .observe(alloc, &mut self.detector, committees, &judging, message)?;
        Ok(())
    }

    ghost none = { λ committees state. sees_none
        (λ judging. ⟦<S as Judges<D>>⟧.rules_under judging committees) state };

    ghost more = { λ committees ms m a b c. sees_more
        (λ judging. ⟦<S as Judges<D>>⟧.rules_under judging committees) ms m a b c };

    ghost less = { λ _ _ _ room. room };

    ghost left = { λ _ _ _ _ _ _ room. room };
}

/// What is known of a stream that comes in pieces: the bytes after its last whole message, the state of its messages from a
/// floor on, and what arose in them and was not taken yet. Each call that judges is given the committees, which have to be
/// those that it was made with.
#[derive(Drop)]
pub struct Tracker<S: SchemeTypes, D: Digest> {
    bound: u32,
    decoder: Decoder,
    sight: Sight<S, D>,
}

impl<S: Listing<D>, D: Digest> Tracker<S, D> {
    /// Nothing of a stream came yet, and nothing will be judged below a floor.
    pub fn new(alloc: Global, committees: &Committees<S>, floor: Round) -> Self
        ensures fed { fed_of result ≡ 0 }
        ensures tracks { Tracks floor (⟦<S as Audited<D>>⟧.basis committees.now) nothing_told [] result }
    {
        committees_are_lawful::<S, D>();
        floors_rise::<S, D>();
        let (detector, alarm) = (Detector::new(alloc), Alarm::new(alloc));
        Tracker {
            bound: committees.bound(),
            decoder: Decoder::new::<Activity<S, D>>(alloc),
            sight: Sight {
                floor,
                detector,
                alarm,
            },
        }
    }

    /// What is known of the stream with this piece appended. `AllocError` only where an allocation failed, and then nothing
    /// is known of either.
    pub fn feed(self, committees: &Committees<S>, piece: &[u8]) -> Result<Self, AllocError>
        requires { fed_of self + length piece.now < 2 ^ 64 }
        ensures fed { IfOk result (λ next. fed_of next ≡ fed_of self + length piece.now) }
        ensures tracks { IfOk result (λ next. (floor : positions.Round) (told : Told D S.Signature)
            (stream : List ℕ) →
            Tracks floor (⟦<S as Audited<D>>⟧.basis committees.now) told stream self →
            Tracks floor (⟦<S as Audited<D>>⟧.basis committees.now) told (stream ++ piece.now) next) }
    {
        floors_rise::<S, D>();
        rounds_are_independent::<S, D>();
        let Tracker {
            bound,
            mut decoder,
            mut sight,
        } = self;
        decoder.feed::<Activity<S, D>, Sight<S, D>>(committees, bound, piece, &mut sight)?;
        Ok(Tracker {
            bound,
            decoder,
            sight,
        })
    }

    /// Takes what arose and was not taken yet: the evidence, and the splits, a round again when more participants are accused
    /// there. None of it is taken again.
    pub fn news(&mut self) -> News<S, D>
        ensures fed { fed_of self.new ≡ fed_of self.old }
        ensures tracks { (floor : positions.Round) (committees : Schedule S)
            (told : Told D S.Signature) (stream : List ℕ) →
            Tracks floor (⟦<S as Audited<D>>⟧.basis committees) told stream self.old →
            Tracks floor (⟦<S as Audited<D>>⟧.basis committees) (told_then told result) stream self.new }
        ensures quiet { IsQuiet self.new }
    {
        self.sight.alarm.take()
    }

    /// Gives up all rounds below a floor, and what arose there. The floor never falls.
    pub fn prune(&mut self, floor: Round)
        ensures fed { fed_of self.new ≡ fed_of self.old }
        ensures tracks { (low : positions.Round) (committees : Schedule S)
            (told : Told D S.Signature) (stream : List ℕ) →
            Tracks low (⟦<S as Audited<D>>⟧.basis committees) told stream self.old →
            Tracks (ord_max round_cmp low floor) (⟦<S as Audited<D>>⟧.basis committees)
            (told_from floor told) stream self.new }
    {
        floors_rise::<S, D>();
        self.sight.floor = self.sight.floor.max(floor);
        self.sight.detector.prune(floor);
        self.sight.alarm.prune(floor);
    }

    /// The report of the stream so far, from the floor on. `AllocError` only where an allocation failed.
    pub fn report(
        &self,
        alloc: Global,
        committees: &Committees<S>,
    ) -> Result<Report<S, D>, AllocError>
        ensures { IfOk result (λ report. (floor : positions.Round) (told : Told D S.Signature)
            (stream : List ℕ) →
            Tracks floor (⟦<S as Audited<D>>⟧.basis committees.now) told stream self.now →
            IsReport (basis_from floor (⟦<S as Audited<D>>⟧.basis committees.now)) stream report) }
    {
        floors_rise::<S, D>();
        rounds_are_independent::<S, D>();
        let place = self.decoder.place();
        let stop = stop_of::<Activity<S, D>>(alloc, self.bound, self.decoder.rest())?;
        let evidence = self.sight.detector.evidence(alloc)?;
        let splits = self.sight.detector.splits(alloc, committees)?;
        Ok(Report {
            evidence,
            splits,
            read: self.decoder.read(),
            fault: fault_at(place, stop),
        })
    }

    /// How many valid votes of the stream's messages are recorded, from the floor on: for each signer and round the earliest
    /// of each kind, and of notarizes and finalizes also the earliest with another proposal. The number stops at 2^64 - 1.
    pub fn votes(&self) -> usize
        ensures { (floor : positions.Round) (committees : Schedule S)
            (told : Told D S.Signature) (stream : List ℕ) →
            Tracks floor (⟦<S as Audited<D>>⟧.basis committees) told stream self.now →
            HasVotes (basis_from floor (⟦<S as Audited<D>>⟧.basis committees)) stream result }
    {
        floors_rise::<S, D>();
        self.sight.detector.votes()
    }

    /// Whether the stream so far ends with a whole message, or is empty.
    pub fn is_whole(&self) -> bool
        ensures { (floor : positions.Round) (committees : Schedule S) (told : Told D S.Signature)
            (stream : List ℕ) →
            Tracks floor (⟦<S as Audited<D>>⟧.basis committees) told stream self.now →
            EndsWhole (⟦<S as Audited<D>>⟧.basis committees) stream result }
    {
        self.decoder.rest().is_empty()
    }

    /// How many bytes it was fed.
    pub fn fed(&self) -> usize
        ensures { result ≡ fed_of self.now }
    {
        self.decoder.fed()
    }

    /// Whether nothing that follows can be read: the bytes after the last whole message are refused, and stay so.
    pub fn is_over(&self) -> bool
        ensures { result ≡ tracking_over self.now }
    {
        self.decoder.is_over()
    }
}
