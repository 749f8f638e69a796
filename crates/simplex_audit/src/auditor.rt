//! The audit of a stream that comes in pieces.

ghost use Rattle.std.specs.Prelude.{◌≡◌, ◌+◌, ◌<◌, ◌≤◌, ◌^◌, ◌-◌, min, ℕ, List, [], ◌++◌, length, IfOk, IsTrue};
ghost use Rattle.simplex_base.specs.Positions as positions;
ghost use Rattle.simplex_audit.specs.Basis.{basis_from};
ghost use Rattle.simplex_audit.specs.Guarantees.{EvidenceIsDetermined, HasOneReading, IsAudit};
ghost use Rattle.simplex_audit.specs.Report.{IsReport, IsPartFrom};
ghost use Rattle.simplex_audit.specs.declared.audit.Report as reports;
ghost use Rattle.simplex_stream.specs.Messages.{AreMessages};
ghost use Rattle.simplex_evidence.specs.declared.types.activity.Activity.{Activity};
ghost use Rattle.std.specs.Ordering.{ord_max};
ghost use Rattle.simplex_rules.specs.Accusation.{round_cmp};
ghost use Rattle.simplex_scheme.specs.Committees.{Schedule};
ghost use Rattle.simplex_rules.specs.Independence.{first_round};
ghost use Rattle.simplex_rules.specs.Recorded.{RecordedAreSlots, FewAreRecorded, votes_recorded};
ghost use Rattle.simplex_rules.specs.Rules.{valid_votes};

use crate::audit::Report;
use crate::basis::Audited;
use crate::laws::message_laws;
use crate::reading::{Recorder, reading_bound};
use crate::reporting::make_report;
use simplex_base::positions::{Epoch, Round, View};
use simplex_detector::detector::Detector;
use simplex_evidence::types::Activity;
use simplex_laws::laws::{
    few_votes_are_recorded, floors_rise, recorded_votes_have_room, rounds_are_independent,
};
use simplex_rules::judging::Judging;
use simplex_scheme::committees::Committees;
use simplex_scheme::scheme::{Digest, Listing, SchemeTypes};
use simplex_stream::decoder::Decoder;
use simplex_stream::messages::stop_of;
use std::alloc::{AllocError, Global};

/// Audits a stream that comes in pieces. It holds the bytes after the last whole message, at most five votes of each signer in
/// a round, those that evidence can consist of, and for each round the first certified subject of each kind until two
/// contradict, each of the rounds from its floor on. It does not hold the stream.
#[derive(Drop)]
pub struct Auditor<'a, S: SchemeTypes, D: Digest> {
    pub(crate) committees: &'a Committees<S>,
    pub(crate) bound: u32,
    /// The first round that is judged.
    pub(crate) floor: Round,
    pub(crate) detector: Detector<S, D>,
    pub(crate) decoder: Decoder,
}

impl<'a, S: Listing<D>, D: Digest> Auditor<'a, S, D> {
    ghost use Rattle.simplex_audit.specs.Auditor.{Answers, AnswersFrom, Stands, StandsFrom, auditing_over, fed_of, floor_of};

    /// An auditor of these committees that was fed nothing.
    pub fn new(alloc: Global, committees: &'a Committees<S>) -> Self
        ensures fed { fed_of result ≡ 0 }
        ensures stands { Stands ⟦<S as Audited<D>>⟧.basis committees.now result [] }
    {
        floors_rise::<S, D>();
        Auditor {
            committees,
            bound: reading_bound::<S, D>(committees),
            floor: lowest_round(),
            detector: Detector::new(alloc),
            decoder: Decoder::new::<Activity<S, D>>(alloc),
        }
    }

    /// The auditor of the stream with this piece appended. `AllocError` is returned only after an allocation failed, and then
    /// there is no auditor.
    ///
    /// A piece that completes no message is appended to the undecoded tail, and no byte of the tail is read again before there
    /// are as many as `least_size` finds of the message that begins there. So in pieces of any length the bytes of a
    /// certificate that lists its attestations are read a bounded number of times. Those of another certificate are read again
    /// with each piece, unless its `Read` has a `least_size` of its own.
    pub fn feed(self, piece: &[u8]) -> Result<Self, AllocError>
        requires { fed_of self + length piece.now < 2 ^ 64 }
        ensures fed { IfOk result (λ next. fed_of next ≡ fed_of self.entry + length piece.now) }
        ensures stands { IfOk result (λ next.
            (floor : positions.Round) (committees : Schedule S) (stream : List ℕ) →
            StandsFrom floor ⟦<S as Audited<D>>⟧.basis committees self.entry stream →
            StandsFrom floor ⟦<S as Audited<D>>⟧.basis committees next (stream ++ piece.now)) }
    {
        floors_rise::<S, D>();
        let Auditor {
            committees,
            bound,
            floor,
            detector,
            mut decoder,
        } = self;
        let judging = Judging::From(floor);
        let mut recorder = Recorder { judging, detector };
        decoder.feed::<Activity<S, D>, Recorder<S, D>>(committees, bound, piece, &mut recorder)?;
        let Recorder { detector, .. } = recorder;
        Ok(Auditor {
            committees,
            bound,
            floor,
            detector,
            decoder,
        })
    }

    /// Gives up all rounds below a floor: what was recorded of them is dropped, and from now on their messages are read, and
    /// neither verified nor recorded. So a report depends on the stream and the floor, and not on when this is called. Take a
    /// report before, since no later one has what is below the floor. The floor never falls: a lower one than the present one
    /// changes nothing. Nothing is allocated.
    pub fn prune(&mut self, floor: Round)
        ensures fed { fed_of self.new ≡ fed_of self.old }
        ensures floor { floor_of self.new ≡ ord_max round_cmp (floor_of self.old) floor }
        ensures stands { (low : positions.Round) (committees : Schedule S) (stream : List ℕ) →
            StandsFrom low ⟦<S as Audited<D>>⟧.basis committees self.old stream →
            StandsFrom (ord_max round_cmp low floor) ⟦<S as Audited<D>>⟧.basis committees self.new
            stream }
    {
        floors_rise::<S, D>();
        self.floor = self.floor.max(floor);
        self.detector.prune(floor);
    }

    /// The first round that is judged: that of epoch 0 and view 0, or the highest floor that `prune` was given.
    pub fn floor(&self) -> Round
        ensures floor { result ≡ floor_of self.now }
        ensures stands { (floor : positions.Round) (committees : Schedule S) (stream : List ℕ) →
            StandsFrom floor ⟦<S as Audited<D>>⟧.basis committees self.now stream → result ≡ floor }
    {
        self.floor
    }

    /// The report of the stream so far, from the floor on. `AllocError` is returned only after an allocation failed.
    pub fn report(&self) -> Result<Report<S, D>, AllocError>
        // All that `audit` states holds of each stream that the auditor stands for, under rules by which nothing of a round
        // below its floor is valid.
        ensures from_floor { IfOk result (λ report.
            (floor : positions.Round) (committees : Schedule S) (stream : List ℕ) →
            StandsFrom floor ⟦<S as Audited<D>>⟧.basis committees self.now stream →
            IsAudit (basis_from floor (⟦<S as Audited<D>>⟧.basis committees)) stream report) }
        // It is the report of the whole stream, less what is below the floor.
        ensures part { IfOk result (λ report.
            (floor : positions.Round) (committees : Schedule S) (stream : List ℕ) →
            StandsFrom floor ⟦<S as Audited<D>>⟧.basis committees self.now stream →
            (whole : reports.Report S D S.PublicKey S.Signature) →
            IsReport (⟦<S as Audited<D>>⟧.basis committees) stream whole →
            IsPartFrom floor whole report) }
        // If no round was given up, it is the audit of the whole stream.
        ensures audit { IfOk result (λ report. (committees : Schedule S) (stream : List ℕ) →
            Stands ⟦<S as Audited<D>>⟧.basis committees self.now stream →
            IsAudit (⟦<S as Audited<D>>⟧.basis committees) stream report) }
        // If nothing that follows can be read, both hold of each longer stream too.
        ensures answers_from { IfOk result (λ report.
            (floor : positions.Round) (committees : Schedule S) (stream : List ℕ) →
            AnswersFrom floor ⟦<S as Audited<D>>⟧.basis committees self.now stream →
            IsAudit (basis_from floor (⟦<S as Audited<D>>⟧.basis committees)) stream report) }
        ensures answers { IfOk result (λ report. (committees : Schedule S) (stream : List ℕ) →
            Answers ⟦<S as Audited<D>>⟧.basis committees self.now stream →
            IsAudit (⟦<S as Audited<D>>⟧.basis committees) stream report) }
        // Each stream has exactly one list of messages.
        ensures single { (floor : positions.Round) (committees : Schedule S)
            (stream other : List ℕ) →
            StandsFrom floor ⟦<S as Audited<D>>⟧.basis committees self.now stream →
            HasOneReading (⟦<S as Audited<D>>⟧.basis committees) other }
        // Evidence of any messages, not of the stream's alone, accuses exactly those whom they
        // accuse, and is the only one.
        ensures determined { (committees : Schedule S) →
            EvidenceIsDetermined (⟦<S as Audited<D>>⟧.basis committees) }
    {
        message_laws::<S, D>();
        rounds_are_independent::<S, D>();
        floors_rise::<S, D>();
        self.report_from()
    }

    /// The report of what is from the floor on.
    fn report_from(&self) -> Result<Report<S, D>, AllocError>
        ensures { IfOk result (λ report.
            (floor : positions.Round) (committees : Schedule S) (stream : List ℕ) →
            AnswersFrom floor ⟦<S as Audited<D>>⟧.basis committees self.now stream →
            IsAudit (basis_from floor (⟦<S as Audited<D>>⟧.basis committees)) stream report) }
    {
        message_laws::<S, D>();
        rounds_are_independent::<S, D>();
        floors_rise::<S, D>();
        let alloc = self.decoder.allocator();
        let place = self.decoder.place();
        let stop = stop_of::<Activity<S, D>>(alloc, self.bound, self.decoder.rest())?;
        make_report(
            alloc,
            self.committees,
            &self.detector,
            self.decoder.read(),
            place,
            stop,
        )
    }

    /// Whether the audit is over: the bytes after the last whole message are refused, and stay so whatever follows. No longer
    /// stream has more messages then, and the report is that of each of them, so nothing more needs to be fed.
    pub fn is_over(&self) -> bool
        ensures value { result ≡ auditing_over self.now }
        ensures same { IsTrue result →
            (floor : positions.Round) (committees : Schedule S) (stream more : List ℕ)
            (messages : List (Activity S D S.Certificate S.PublicKey S.Signature)) (rest : List ℕ) →
            StandsFrom floor ⟦<S as Audited<D>>⟧.basis committees self.now stream →
            AreMessages (⟦<S as Audited<D>>⟧.basis committees).format stream messages rest →
            AreMessages (⟦<S as Audited<D>>⟧.basis committees).format (stream ++ more) messages
            (rest ++ more) }
    {
        self.decoder.is_over()
    }

    /// How many bytes it was fed.
    pub fn fed(&self) -> usize
        ensures fed { result ≡ fed_of self.now }
        ensures stream { (floor : positions.Round) (committees : Schedule S) (stream : List ℕ) →
            StandsFrom floor ⟦<S as Audited<D>>⟧.basis committees self.now stream →
            result ≡ length stream }
    {
        self.decoder.fed()
    }

    /// The bytes after the last whole message.
    pub fn rest(&self) -> &[u8]
        ensures { (floor : positions.Round) (committees : Schedule S) (stream : List ℕ)
            (messages : List (Activity S D S.Certificate S.PublicKey S.Signature)) (rest : List ℕ) →
            StandsFrom floor ⟦<S as Audited<D>>⟧.basis committees self.now stream →
            AreMessages (⟦<S as Audited<D>>⟧.basis committees).format stream messages rest →
            result.now ≡ rest }
    {
        self.decoder.rest()
    }

    /// How many valid votes of the stream's messages are recorded: for each signer and round the earliest of each kind, and of
    /// notarizes and finalizes also the earliest with another proposal, so at most five. The number stops at 2^64 - 1, which it
    /// can reach only where certificates list more attestations than they have bytes.
    pub fn votes(&self) -> usize
        // They are the votes from the floor on.
        ensures number_from { (floor : positions.Round) (committees : Schedule S) (stream : List ℕ)
            (messages : List (Activity S D S.Certificate S.PublicKey S.Signature)) (rest : List ℕ) →
            StandsFrom floor ⟦<S as Audited<D>>⟧.basis committees self.now stream →
            AreMessages (⟦<S as Audited<D>>⟧.basis committees).format stream messages rest →
            result ≡ min (votes_recorded D.eq (valid_votes (basis_from floor
            (⟦<S as Audited<D>>⟧.basis committees)).rules messages)) (2 ^ 64 - 1) }
        // The number is exact where no certificate lists more attestations than its encoding has bytes.
        ensures exact_from { ((certificate : S.Certificate) →
            length (S.listed certificate) ≤ length (S.Certificate.encoding certificate)) →
            (floor : positions.Round) (committees : Schedule S) (stream : List ℕ)
            (messages : List (Activity S D S.Certificate S.PublicKey S.Signature)) (rest : List ℕ) →
            StandsFrom floor ⟦<S as Audited<D>>⟧.basis committees self.now stream →
            AreMessages (⟦<S as Audited<D>>⟧.basis committees).format stream messages rest →
            result ≡ votes_recorded D.eq (valid_votes (basis_from floor
            (⟦<S as Audited<D>>⟧.basis committees)).rules messages) }
        // If no round was given up, they are the votes of the whole stream.
        ensures number { (committees : Schedule S) (stream : List ℕ)
            (messages : List (Activity S D S.Certificate S.PublicKey S.Signature)) (rest : List ℕ) →
            Stands ⟦<S as Audited<D>>⟧.basis committees self.now stream →
            AreMessages (⟦<S as Audited<D>>⟧.basis committees).format stream messages rest →
            result ≡ min (votes_recorded D.eq
            (valid_votes (⟦<S as Audited<D>>⟧.basis committees).rules messages)) (2 ^ 64 - 1) }
        ensures exact { ((certificate : S.Certificate) →
            length (S.listed certificate) ≤ length (S.Certificate.encoding certificate)) →
            (committees : Schedule S) (stream : List ℕ)
            (messages : List (Activity S D S.Certificate S.PublicKey S.Signature)) (rest : List ℕ) →
            Stands ⟦<S as Audited<D>>⟧.basis committees self.now stream →
            AreMessages (⟦<S as Audited<D>>⟧.basis committees).format stream messages rest →
            result ≡ votes_recorded D.eq
            (valid_votes (⟦<S as Audited<D>>⟧.basis committees).rules messages) }
        // The recorded votes are the earliest of each kind and the earliest with another proposal,
        ensures slots { (committees : Schedule S)
            (messages : List (Activity S D S.Certificate S.PublicKey S.Signature)) →
            RecordedAreSlots D.eq (valid_votes (⟦<S as Audited<D>>⟧.basis committees).rules
            messages) }
        // at most five of a signer in a round.
        ensures few { (committees : Schedule S)
            (messages : List (Activity S D S.Certificate S.PublicKey S.Signature)) →
            FewAreRecorded D.eq (valid_votes (⟦<S as Audited<D>>⟧.basis committees).rules
            messages) }
    {
        few_votes_are_recorded::<S, D>();
        recorded_votes_have_room::<S, D>();
        floors_rise::<S, D>();
        counts_are_few(self.decoder.fed());
        self.detector.votes()
    }
}

/// The round that no other is below.
fn lowest_round() -> Round
    ensures { result ≡ first_round }
{
    Round::new(Epoch::new(0), View::zero())
}

/// A `usize` is below 2^64.
pub(crate) fn counts_are_few(count: usize)
    ensures { count < 2 ^ 64 }
{}
