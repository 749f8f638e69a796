//! An auditor that owns its committees, and forgets nothing that it was fed.

ghost use Rattle.std.specs.Prelude.{◌≡◌, ◌≢◌, ◌+◌, ◌<◌, ◌≤◌, ◌^◌, ◌++◌, ℕ, List, [], IfOk, IfSome, IsTrue, OnOk, OnErr, Some, None, drop, is_some, length, map};
ghost use Rattle.std.specs.Ordering.{ord_max};
ghost use Rattle.simplex_base.specs.Positions as positions;
ghost use Rattle.simplex_scheme.specs.Committees.{Schedule};
ghost use Rattle.simplex_rules.specs.Accusation.{round_cmp};
ghost use Rattle.simplex_rules.specs.Values.{evidence_value};
ghost use Rattle.simplex_audit.specs.Basis.{basis_from};
ghost use Rattle.simplex_audit.specs.Report.{IsReport};
ghost use Rattle.simplex_tracker.specs.Tracking.{EndsWhole, HasVotes, fed_of, tracking_over};
ghost use Rattle.simplex_tracker.specs.Live.{Advances, AreNews, CanStandFor, Follows, HasEnded, IsShort, LosesNothing, TakesPiece, TracksAll, WaitSame, evidence_waiting, held_by, splits_waiting};

use crate::tracker::Tracker;
use simplex_alarm::alarm::News;
use simplex_audit::audit::Report;
use simplex_audit::basis::Audited;
use simplex_audit::compaction::{Compaction, compact};
use simplex_base::positions::{Epoch, Round, View};
use simplex_laws::laws::{floors_rise, rounds_are_independent, same_state_suffices};
use simplex_scheme::committees::Committees;
use simplex_scheme::scheme::{Digest, Listing, SchemeTypes};
use simplex_stream::fault::Fault;
use std::alloc::{AllocError, Global};

/// What is held is shortened once it has grown to twice of what was left, and by twice this many bytes.
const LEAST_GROWTH: usize = 1 << 16;

/// How a piece was fed.
#[derive(Clone, Copy, Debug, PartialEq, Eq)]
pub enum Fed {
    /// It was fed.
    Taken,
    /// It was dropped, since nothing that follows the stream's fault can be read.
    Over,
    /// It was dropped, since the stream would have 2^64 bytes.
    Long,
    /// An allocation failed. The piece was not fed, and nothing else is lost.
    OutOfMemory,
}

/// An auditor that owns its committees. It is fed a stream in pieces, hands over what each completes, and holds messages that
/// can stand for all of the stream, from which it is made again after a restart or a failed allocation.
#[derive(Drop)]
pub struct LiveAuditor<S: SchemeTypes, D: Digest> {
    committees: Committees<S>,
    /// The first round that is judged.
    floor: Round,
    /// Messages that can stand for the stream's, and the bytes after its last whole message.
    log: Vec<u8>,
    /// How many bytes the log had when it was last shortened.
    short: usize,
    /// What arose and was not handed over yet.
    pub news: News<S, D>,
    /// What is known of the stream. After a failed allocation there is none, and it is made of the log again.
    tracker: Option<Tracker<S, D>>,
}

impl<S: Listing<D> + Drop, D: Digest> LiveAuditor<S, D> {
    ghost use Rattle.simplex_rules.specs.Independence.{first_round};

    /// An auditor of these committees that was fed what another one held, or nothing. What arises in that waits to be handed
    /// over again. `AllocError` only where an allocation failed.
    pub fn new(alloc: Global, committees: Committees<S>, held: &[u8]) -> Result<Self, AllocError>
        ensures follows { IfOk result (λ live.
            Follows first_round ⟦<S as Audited<D>>⟧.basis committees held.now live) }
        ensures waits { IfOk result (λ live.
            AreNews (basis_from first_round (⟦<S as Audited<D>>⟧.basis committees)) [] held.now
            (evidence_waiting live) (splits_waiting live)) }
    {
        let mut live = LiveAuditor::begin(alloc, committees)?;
        match live.feed(alloc, held) {
            Fed::Taken => Ok(live),
            _ => Err(AllocError),
        }
    }

    /// An auditor that was fed nothing.
    fn begin(alloc: Global, committees: Committees<S>) -> Result<Self, AllocError>
        ensures follows { IfOk result (Follows first_round ⟦<S as Audited<D>>⟧.basis committees []) }
        ensures evidence { IfOk result (λ live. evidence_waiting live ≡ []) }
        ensures splits { IfOk result (λ live. splits_waiting live ≡ []) }
    {
        let floor = Round::new(Epoch::new(0), View::zero());
        let tracker = track::<S, D>(alloc, &committees, floor, &[])?;
        Ok(LiveAuditor {
            committees,
            floor,
            log: Vec::new(alloc),
            short: 0,
            news: nothing(alloc),
            tracker: Some(tracker),
        })
    }

    /// Feeds a piece of the stream, cut anywhere. What it completes is appended to what waits to be handed over: exactly the
    /// evidence that the stream now has and had not before, each once, and the splits that changed. It costs the piece, and at
    /// times a reading of what is held, so that this has at most twice the bytes that it needs and a hundred thousand more.
    pub fn feed(&mut self, alloc: Global, piece: &[u8]) -> Fed
        ensures taken { result ≡ Fed.Taken → (floor : positions.Round) (committees : Schedule S)
            (stream : List ℕ) → Follows floor ⟦<S as Audited<D>>⟧.basis committees stream self.old →
            TakesPiece floor ⟦<S as Audited<D>>⟧.basis committees stream piece.now self.old self.new }
        ensures kept { result ≢ Fed.Taken → (floor : positions.Round) (committees : Schedule S)
            (stream : List ℕ) → Follows floor ⟦<S as Audited<D>>⟧.basis committees stream self.old →
            LosesNothing floor ⟦<S as Audited<D>>⟧.basis committees stream self.old self.new }
        ensures over { result ≡ Fed.Over → (floor : positions.Round) (committees : Schedule S)
            (stream : List ℕ) → Follows floor ⟦<S as Audited<D>>⟧.basis committees stream self.old →
            HasEnded (⟦<S as Audited<D>>⟧.basis committees) stream }
        ensures long { result ≡ Fed.Long → (floor : positions.Round) (committees : Schedule S)
            (stream : List ℕ) → Follows floor ⟦<S as Audited<D>>⟧.basis committees stream self.old →
            2 ^ 64 ≤ length stream + length piece.now }
    {
        if self.recall(alloc).is_err() {
            return Fed::OutOfMemory;
        }
        match self.feed_tracked(piece) {
            Fed::Taken => {
                self.shorten_if_long(alloc);
                Fed::Taken
            }
            dropped => dropped,
        }
    }

    /// Feeds a piece, if what is known of the stream is at hand.
    fn feed_tracked(&mut self, piece: &[u8]) -> Fed
        ensures taken { result ≡ Fed.Taken → (floor : positions.Round) (committees : Schedule S)
            (stream : List ℕ) → Follows floor ⟦<S as Audited<D>>⟧.basis committees stream self.old →
            TakesPiece floor ⟦<S as Audited<D>>⟧.basis committees stream piece.now self.old self.new }
        ensures tracked { result ≡ Fed.Taken → IsTrue (is_some self.new.tracker) }
        ensures kept { result ≢ Fed.Taken → (floor : positions.Round) (committees : Schedule S)
            (stream : List ℕ) → Follows floor ⟦<S as Audited<D>>⟧.basis committees stream self.old →
            LosesNothing floor ⟦<S as Audited<D>>⟧.basis committees stream self.old self.new }
        ensures over { result ≡ Fed.Over → (floor : positions.Round) (committees : Schedule S)
            (stream : List ℕ) → Follows floor ⟦<S as Audited<D>>⟧.basis committees stream self.old →
            HasEnded (⟦<S as Audited<D>>⟧.basis committees) stream }
        ensures long { result ≡ Fed.Long → (floor : positions.Round) (committees : Schedule S)
            (stream : List ℕ) → Follows floor ⟦<S as Audited<D>>⟧.basis committees stream self.old →
            2 ^ 64 ≤ length stream + length piece.now }
    {
        same_state_suffices::<S, D>();
        let Some(tracker) = self.tracker.take() else {
            return Fed::OutOfMemory;
        };
        if let Some(dropped) = drops(&tracker, piece.len()) {
            self.tracker = Some(tracker);
            return dropped;
        }
        let held = self.log.len();
        let Ok(_) = self.log.extend_from_slice(piece) else {
            self.tracker = Some(tracker);
            return Fed::OutOfMemory;
        };
        match advance(tracker, &self.committees, piece, &mut self.news) {
            Ok(next) => {
                self.tracker = Some(next);
                Fed::Taken
            }
            Err(_) => {
                self.log.truncate(held);
                Fed::OutOfMemory
            }
        }
    }

    /// Makes what is known of the stream again of what is held, if a failed allocation took it. `AllocError` only where an
    /// allocation failed, and then all is as it was.
    fn recall(&mut self, alloc: Global) -> Result<(), AllocError>
        ensures follows { (floor : positions.Round) (committees : Schedule S) (stream : List ℕ) →
            Follows floor ⟦<S as Audited<D>>⟧.basis committees stream self.old →
            Follows floor ⟦<S as Audited<D>>⟧.basis committees stream self.new }
        ensures tracked { OnOk result (IsTrue (is_some self.new.tracker)) }
        ensures news { self.new.news ≡ self.old.news }
        ensures failed { OnErr result (self.new ≡ self.old) }
    {
        if self.tracker.is_some() {
            return Ok(());
        }
        let tracker = track::<S, D>(alloc, &self.committees, self.floor, &self.log)?;
        self.tracker = Some(tracker);
        Ok(())
    }

    /// Leaves out of what is held what can go, if it has grown to twice of what was left the last time. It stays as it is if an
    /// allocation fails.
    fn shorten_if_long(&mut self, alloc: Global)
        ensures follows { IsTrue (is_some self.old.tracker) → (floor : positions.Round)
            (committees : Schedule S) (stream : List ℕ) →
            Follows floor ⟦<S as Audited<D>>⟧.basis committees stream self.old →
            Follows floor ⟦<S as Audited<D>>⟧.basis committees stream self.new }
        ensures news { self.new.news ≡ self.old.news }
    {
        if self.log.len() / 2 <= self.short.saturating_add(LEAST_GROWTH) {
            return;
        }
        let _shortened = self.shorten(alloc);
    }

    /// Leaves out of what is held what can go. `AllocError` only where an allocation failed, and then all is as it was.
    fn shorten(&mut self, alloc: Global) -> Result<(), AllocError>
        ensures follows { IsTrue (is_some self.old.tracker) → (floor : positions.Round)
            (committees : Schedule S) (stream : List ℕ) →
            Follows floor ⟦<S as Audited<D>>⟧.basis committees stream self.old →
            Follows floor ⟦<S as Audited<D>>⟧.basis committees stream self.new }
        ensures short { OnOk result ((floor : positions.Round) (committees : Schedule S)
            (stream : List ℕ) → Follows floor ⟦<S as Audited<D>>⟧.basis committees stream self.old →
            IsShort (basis_from floor (⟦<S as Audited<D>>⟧.basis committees)) (held_by self.new)) }
        ensures news { self.new.news ≡ self.old.news }
        ensures failed { OnErr result (self.new ≡ self.old) }
    {
        let log = shortened::<S, D>(alloc, &self.committees, self.floor, &self.log)?;
        self.short = log.len();
        self.log = log;
        Ok(())
    }

    /// Gives up all rounds below a floor: what is known of them is dropped, and from now on their messages are read and not
    /// judged. What arose there and waits to be handed over still does. The floor never falls: a lower one than the present
    /// one changes nothing. Nothing is allocated.
    pub fn prune(&mut self, floor: Round)
        ensures follows { (low : positions.Round) (committees : Schedule S) (stream : List ℕ) →
            Follows low ⟦<S as Audited<D>>⟧.basis committees stream self.old →
            Follows (ord_max round_cmp low floor) ⟦<S as Audited<D>>⟧.basis committees stream self.new }
        ensures news { self.new.news ≡ self.old.news }
    {
        floors_rise::<S, D>();
        rounds_are_independent::<S, D>();
        self.floor = self.floor.max(floor);
        if let Some(tracker) = &mut self.tracker {
            tracker.prune(floor);
            let _none = tracker.news();
        }
    }

    /// The report of the stream so far, from the floor on. `AllocError` only where an allocation failed; nothing is lost then.
    pub fn report(&mut self, alloc: Global) -> Result<Report<S, D>, AllocError>
        ensures follows { (floor : positions.Round) (committees : Schedule S) (stream : List ℕ) →
            Follows floor ⟦<S as Audited<D>>⟧.basis committees stream self.old →
            Follows floor ⟦<S as Audited<D>>⟧.basis committees stream self.new }
        ensures report { IfOk result (λ report. (floor : positions.Round) (committees : Schedule S)
            (stream : List ℕ) → Follows floor ⟦<S as Audited<D>>⟧.basis committees stream self.old →
            IsReport (basis_from floor (⟦<S as Audited<D>>⟧.basis committees)) stream report) }
        ensures news { self.new.news ≡ self.old.news }
    {
        self.recall(alloc)?;
        match &self.tracker {
            None => Err(AllocError),
            Some(tracker) => tracker.report(alloc, &self.committees),
        }
    }

    /// How many valid votes of the stream's messages are recorded, from the floor on, up to 2^64 - 1: for each signer and round
    /// the earliest of each kind, and of notarizes and finalizes also the earliest with another proposal. `AllocError` only
    /// where an allocation failed; nothing is lost then.
    pub fn votes(&mut self, alloc: Global) -> Result<usize, AllocError>
        ensures follows { (floor : positions.Round) (committees : Schedule S) (stream : List ℕ) →
            Follows floor ⟦<S as Audited<D>>⟧.basis committees stream self.old →
            Follows floor ⟦<S as Audited<D>>⟧.basis committees stream self.new }
        ensures votes { IfOk result (λ count. (floor : positions.Round) (committees : Schedule S)
            (stream : List ℕ) → Follows floor ⟦<S as Audited<D>>⟧.basis committees stream self.old →
            HasVotes (basis_from floor (⟦<S as Audited<D>>⟧.basis committees)) stream count) }
        ensures news { self.new.news ≡ self.old.news }
    {
        self.recall(alloc)?;
        match &self.tracker {
            None => Err(AllocError),
            Some(tracker) => Ok(tracker.votes()),
        }
    }

    /// Whether the stream so far ends with a whole message, or is empty. `AllocError` only where an allocation failed; nothing
    /// is lost then.
    pub fn is_whole(&mut self, alloc: Global) -> Result<bool, AllocError>
        ensures follows { (floor : positions.Round) (committees : Schedule S) (stream : List ℕ) →
            Follows floor ⟦<S as Audited<D>>⟧.basis committees stream self.old →
            Follows floor ⟦<S as Audited<D>>⟧.basis committees stream self.new }
        ensures whole { IfOk result (λ whole. (floor : positions.Round) (committees : Schedule S)
            (stream : List ℕ) → Follows floor ⟦<S as Audited<D>>⟧.basis committees stream self.old →
            EndsWhole (⟦<S as Audited<D>>⟧.basis committees) stream whole) }
        ensures news { self.new.news ≡ self.old.news }
    {
        self.recall(alloc)?;
        match &self.tracker {
            None => Err(AllocError),
            Some(tracker) => Ok(tracker.is_whole()),
        }
    }

    /// The committees by which it judges.
    pub fn committees(&self) -> &Committees<S>
        ensures { (floor : positions.Round) (committees : Schedule S) (stream : List ℕ) →
            Follows floor ⟦<S as Audited<D>>⟧.basis committees stream self.now →
            result.now ≡ committees }
    {
        &self.committees
    }

    /// The first round that it judges.
    pub fn floor(&self) -> Round
        ensures { (floor : positions.Round) (committees : Schedule S) (stream : List ℕ) →
            Follows floor ⟦<S as Audited<D>>⟧.basis committees stream self.now → result ≡ floor }
    {
        self.floor
    }

    /// Leaves out of what is held what can go, so that it is as few messages as a compaction leaves. It costs a reading of what
    /// is held. `AllocError` only where an allocation failed; nothing is lost then.
    pub fn condense(&mut self, alloc: Global) -> Result<(), AllocError>
        ensures follows { (floor : positions.Round) (committees : Schedule S) (stream : List ℕ) →
            Follows floor ⟦<S as Audited<D>>⟧.basis committees stream self.old →
            Follows floor ⟦<S as Audited<D>>⟧.basis committees stream self.new }
        ensures short { OnOk result ((floor : positions.Round) (committees : Schedule S)
            (stream : List ℕ) → Follows floor ⟦<S as Audited<D>>⟧.basis committees stream self.old →
            IsShort (basis_from floor (⟦<S as Audited<D>>⟧.basis committees)) (held_by self.new)) }
        ensures news { self.new.news ≡ self.old.news }
    {
        self.recall(alloc)?;
        self.shorten(alloc)
    }

    /// Messages that can stand for the stream from the floor on, and the bytes after its last whole message. An auditor that is
    /// made with them goes on as this one.
    pub fn held(&self) -> &[u8]
        ensures bytes { result.now ≡ held_by self.now }
        ensures stands { (floor : positions.Round) (committees : Schedule S) (stream : List ℕ) →
            Follows floor ⟦<S as Audited<D>>⟧.basis committees stream self.now →
            CanStandFor (basis_from floor (⟦<S as Audited<D>>⟧.basis committees)) result.now stream }
    {
        self.log.as_slice()
    }

    /// Forgets what waits to be handed over, once it was.
    pub fn hand_over(&mut self, alloc: Global)
        ensures follows { (floor : positions.Round) (committees : Schedule S) (stream : List ℕ) →
            Follows floor ⟦<S as Audited<D>>⟧.basis committees stream self.old →
            Follows floor ⟦<S as Audited<D>>⟧.basis committees stream self.new }
        ensures evidence { evidence_waiting self.new ≡ [] }
        ensures splits { splits_waiting self.new ≡ [] }
    {
        self.news = nothing(alloc);
    }
}

/// No news.
fn nothing<S: SchemeTypes, D: Digest>(alloc: Global) -> News<S, D>
    ensures evidence { result.evidence.items ≡ [] }
    ensures splits { result.splits.items ≡ [] }
{
    News {
        evidence: Vec::new(alloc),
        splits: Vec::new(alloc),
    }
}

/// Why a piece of this many bytes is dropped, if it is.
fn drops<S: Listing<D>, D: Digest>(tracker: &Tracker<S, D>, size: usize) -> Option<Fed>
    ensures over { result ≡ Some Fed.Over → IsTrue (tracking_over tracker.now) }
    ensures long { result ≡ Some Fed.Long → 2 ^ 64 ≤ fed_of tracker.now + size }
    ensures dropped { result ≢ Some Fed.Taken }
    ensures fits { result ≡ None → fed_of tracker.now + size < 2 ^ 64 }
{
    if tracker.is_over() {
        return Some(Fed::Over);
    }
    if size > usize::MAX - tracker.fed() {
        return Some(Fed::Long);
    }
    None
}

/// What is known of a stream, all of which waits no more.
fn track<S: Listing<D>, D: Digest>(
    alloc: Global,
    committees: &Committees<S>,
    floor: Round,
    stream: &[u8],
) -> Result<Tracker<S, D>, AllocError>
    ensures { IfOk result (TracksAll floor (⟦<S as Audited<D>>⟧.basis committees.now) stream.now) }
{
    let mut tracker = Tracker::new(alloc, committees, floor).feed(committees, stream)?;
    let _told = tracker.news();
    Ok(tracker)
}

/// What is known of the stream with a piece appended. What arises waits behind what waited. After `AllocError` what waits is
/// as it was.
fn advance<S: Listing<D>, D: Digest>(
    tracker: Tracker<S, D>,
    committees: &Committees<S>,
    piece: &[u8],
    waiting: &mut News<S, D>,
) -> Result<Tracker<S, D>, AllocError>
    requires { fed_of tracker + length piece.now < 2 ^ 64 }
    ensures advances { IfOk result (λ next. (floor : positions.Round) (stream : List ℕ) →
        TracksAll floor (⟦<S as Audited<D>>⟧.basis committees.now) stream tracker →
        Advances floor (⟦<S as Audited<D>>⟧.basis committees.now) stream piece.now next waiting.old waiting.new) }
    ensures failed { OnErr result (WaitSame waiting.old waiting.new) }
{
    let mut next = tracker.feed(committees, piece)?;
    append_news(next.news(), waiting)?;
    Ok(next)
}

/// Appends news to what waits. After `AllocError` what waits is as it was.
fn append_news<S: SchemeTypes, D: Digest>(
    news: News<S, D>,
    waiting: &mut News<S, D>,
) -> Result<(), AllocError>
    ensures evidence { OnOk result (waiting.new.evidence.items ≡
        waiting.old.evidence.items ++ news.evidence.items) }
    ensures splits { OnOk result (waiting.new.splits.items ≡
        waiting.old.splits.items ++ news.splits.items) }
    ensures failed { OnErr result (WaitSame waiting.old waiting.new) }
{
    let News {
        mut evidence,
        mut splits,
    } = news;
    let count = waiting.evidence.len();
    waiting.evidence.append(&mut evidence)?;
    match waiting.splits.append(&mut splits) {
        Ok(()) => Ok(()),
        Err(error) => {
            waiting.evidence.truncate(count);
            Err(error)
        }
    }
}

/// The compaction of a stream from a floor on, and the bytes after its last whole message.
fn shortened<S: Listing<D>, D: Digest>(
    alloc: Global,
    committees: &Committees<S>,
    floor: Round,
    stream: &[u8],
) -> Result<Vec<u8>, AllocError>
    ensures stands { IfOk result (λ bytes.
        CanStandFor (basis_from floor (⟦<S as Audited<D>>⟧.basis committees.now)) bytes.items stream.now) }
    ensures short { IfOk result (λ bytes.
        IsShort (basis_from floor (⟦<S as Audited<D>>⟧.basis committees.now)) bytes.items) }
{
    let Compaction {
        messages: mut bytes,
        fault,
        ..
    } = compact::<S, D>(alloc, committees, stream, floor)?;
    bytes.extend_from_slice(rest_at(stream, fault))?;
    Ok(bytes)
}

/// The bytes of a stream from its fault on, if it has one.
fn rest_at(stream: &[u8], fault: Option<Fault>) -> &[u8]
    ensures none { fault ≡ None → result.now ≡ [] }
    ensures some { IfSome fault (λ f. f.place ≤ length stream.now → result.now ≡ drop f.place stream.now) }
{
    match fault {
        None => &[],
        Some(fault) => {
            if fault.place > stream.len() {
                return &[];
            }
            &stream[fault.place..]
        }
    }
}
