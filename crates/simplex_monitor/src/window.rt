//! Which rounds an auditor that listens takes messages of, and what moves it.

ghost use Rattle.std.specs.Prelude.{◌≡◌, ◌↔◌, ◌+◌, ◌<◌, ◌≤◌, ◌++◌, ◌∷◌, [], IsTrue, List, Contains, Option, Some, None, if◌then◌else◌, true};
ghost use Rattle.std.specs.Ordering.{ord_max};
ghost use Rattle.simplex_base.specs.Positions as positions;
ghost use Rattle.simplex_rules.specs.Accusation.{round_cmp};
ghost use Rattle.simplex_rules.specs.Independence.{is_from};
ghost use Rattle.simplex_lead.specs.Windows.{FitsWindow, IsAdmitted, IsRetained};
ghost use Rattle.simplex_monitor.specs.Window.{AdmitsCertificate, AdmitsVote, IsInOrder, IsNear, first_window, floor_of, window_after};
ghost use Rattle.simplex_monitor.specs.declared.window.Window as windows;

use simplex_base::positions::{Epoch, Round, View, ViewDelta};
use simplex_lead::{Lookahead, Viewport};

/// The rounds that an auditor looks at. It is moved by the rounds of certificates; that these are valid is its caller's task.
#[derive(Clone, Copy, Debug)]
pub struct Window {
    /// The last round that was finalized.
    pub finalized: Round,
    /// The last round that has a certificate.
    pub current: Round,
    /// The last round of an earlier epoch than `current` that has a certificate, or the round that the window began at.
    pub ended: Round,
    /// The number of views before the finalized one that are retained.
    pub view_retention: ViewDelta,
    /// How far ahead of the current view votes are taken.
    pub lookahead: Lookahead,
}

impl Window {
    /// The window that begins at a round.
    pub fn new(start: Round, view_retention: ViewDelta, lookahead: Lookahead) -> Self
        ensures value { result ≡ first_window start view_retention lookahead }
        ensures ordered { IsInOrder result }
    {
        Window {
            finalized: start,
            current: start,
            ended: start,
            view_retention,
            lookahead,
        }
    }

    /// Whether the last round of an earlier epoch is not above the current round, as in every window that certificates moved.
    pub fn is_in_order(&self) -> bool
        ensures { IsTrue result ↔ IsInOrder self.now }
    {
        self.ended <= self.current
    }

    /// What a node of the current epoch looks at.
    pub fn viewport(&self) -> Viewport
        ensures { result ≡ record {
          finalized = self.now.finalized.view;
          current = self.now.current.view;
          view_retention = self.now.view_retention;
          lookahead = self.now.lookahead;
        } }
    {
        Viewport {
            finalized: self.finalized.view(),
            current: self.current.view(),
            view_retention: self.view_retention,
            lookahead: self.lookahead,
        }
    }

    /// The first round that is retained: that of the finalized view less the retention. Once certificates of two later epochs
    /// came and none of them finalized, it is the first of the epoch before the last.
    pub fn floor(&self) -> Round
        ensures { result ≡ floor_of self.now }
    {
        let retained = Round::new(self.finalized.epoch(), self.viewport().floor());
        retained.max(Round::new(self.ended.epoch(), View::zero()))
    }

    /// Whether certificates of a round are taken: it is at the floor or above it, however late it is, and not of view 0.
    pub fn admits_certificate(&self, round: Round) -> bool
        ensures admitted { IsTrue result ↔ AdmitsCertificate self.now round }
        // In the finalized epoch they are those that its viewport admits.
        ensures viewport { round.epoch ≡ self.now.finalized.epoch →
            self.now.ended.epoch ≤ round.epoch →
            (IsTrue result ↔ IsRetained self.now.finalized.view self.now.view_retention round.view) }
    {
        self.retains(round)
    }

    /// Whether a round is at the floor or above it, and its view is not view 0.
    fn retains(&self, round: Round) -> bool
        ensures { IsTrue result ↔ AdmitsCertificate self.now round }
    {
        !round.view().is_zero() && is_at_least(round, self.floor())
    }

    /// Whether votes of a round are taken: it is retained, and near the last certificate of its epoch, if that is the current
    /// epoch, the next or the last that ended. If the views after `current` do not fit in 64 bits, no later vote is taken.
    pub fn admits_vote(&self, round: Round) -> bool
        ensures admitted { IsTrue result ↔ AdmitsVote self.now round }
        // In the epoch that is finalized and current they are the votes that its viewport admits.
        ensures viewport { round.epoch ≡ self.now.finalized.epoch →
            round.epoch ≡ self.now.current.epoch → self.now.ended.epoch ≤ round.epoch →
            FitsWindow self.now.lookahead.term_length self.now.current.view →
            (IsTrue result ↔
            (IsRetained self.now.finalized.view self.now.view_retention round.view ×
            IsAdmitted self.now.lookahead.term_length self.now.lookahead.optimistic_views
            self.now.current.view round.view)) }
    {
        self.takes_vote(round)
    }

    /// Whether a round is retained, and near the last certificate of its epoch.
    fn takes_vote(&self, round: Round) -> bool
        ensures { IsTrue result ↔ AdmitsVote self.now round }
    {
        self.retains(round) && self.is_near(round)
    }

    /// Whether a round is near the last certificate of its epoch.
    fn is_near(&self, round: Round) -> bool
        ensures { AdmitsCertificate self.now round → IsTrue result ↔ AdmitsVote self.now round }
    {
        let (epoch, view) = (round.epoch(), round.view());
        if epoch == self.current.epoch() {
            return is_near(self.lookahead, self.current.view(), view);
        }
        if epoch < self.current.epoch() {
            return epoch == self.ended.epoch() && is_near(self.lookahead, self.ended.view(), view);
        }
        epoch.get() - self.current.epoch().get() == 1 && is_near(self.lookahead, View::zero(), view)
    }

    /// Moves the window by a certificate of a round that certifies its subject.
    pub fn certify(&mut self, round: Round)
        ensures moves { (start : windows.Window) (certified finalized : List positions.Round) →
            IsInOrder start → self.old ≡ window_after start certified finalized →
            self.new ≡ window_after start (certified ++ round ∷ []) finalized }
        ensures again { (start : windows.Window) (certified finalized : List positions.Round) →
            self.old ≡ window_after start certified finalized → Contains certified round →
            self.new ≡ self.old }
        // The floor does not fall.
        ensures rises { (start : windows.Window) (certified finalized : List positions.Round) →
            IsInOrder start → self.old ≡ window_after start certified finalized →
            IsTrue (is_from (floor_of self.old) (floor_of self.new)) }
    {
        if round.epoch() < self.current.epoch() {
            self.ended = self.ended.max(round);
            return;
        }
        if round.epoch() > self.current.epoch() {
            self.ended = self.current;
            self.current = round;
            return;
        }
        self.current = self.current.max(round);
    }

    /// Moves the window by a certificate that finalizes a round.
    pub fn finalize(&mut self, round: Round)
        ensures moves { (start : windows.Window) (certified finalized : List positions.Round) →
            self.old ≡ window_after start certified finalized →
            self.new ≡ window_after start certified (finalized ++ round ∷ []) }
        ensures again { (start : windows.Window) (certified finalized : List positions.Round) →
            self.old ≡ window_after start certified finalized → Contains finalized round →
            self.new ≡ self.old }
        // The floor does not fall.
        ensures rises { IsTrue (is_from (floor_of self.old) (floor_of self.new)) }
    {
        self.finalized = self.finalized.max(round);
    }

    /// Moves the window by a certificate of a round that certifies its subject, and finalizes the round or does not.
    pub fn advance(&mut self, round: Round, finalizes: bool)
        ensures moves { (start : windows.Window) (certified finalized : List positions.Round) →
            IsInOrder start → self.old ≡ window_after start certified finalized →
            self.new ≡ window_after start (certified ++ round ∷ [])
            (finalized ++ (if finalizes then round ∷ [] else [])) }
        ensures again { (start : windows.Window) (certified finalized : List positions.Round) →
            self.old ≡ window_after start certified finalized → Contains certified round →
            (finalizes ≡ true → Contains finalized round) → self.new ≡ self.old }
        // The floor does not fall.
        ensures rises { (start : windows.Window) (certified finalized : List positions.Round) →
            IsInOrder start → self.old ≡ window_after start certified finalized →
            IsTrue (is_from (floor_of self.old) (floor_of self.new)) }
    {
        self.certify(round);
        if finalizes {
            self.finalize(round);
        }
    }
}

/// Whether a round is at a floor or above it.
pub(crate) fn is_at_least(round: Round, floor: Round) -> bool
    ensures { result ≡ is_from floor round }
{
    floor <= round
}

/// Whether a view is at most another or admitted from it.
fn is_near(lookahead: Lookahead, current: View, pending: View) -> bool
    ensures { IsTrue result ↔ IsNear lookahead current pending }
{
    pending <= current || lookahead.fits(current) && lookahead.admits(current, pending)
}
