//! Which views a node takes votes of, sends messages of and retains.

ghost use Rattle.std.specs.Prelude.{◌≡◌, ℕ, ◌+◌, ◌-◌, ◌<◌, ◌≤◌, ◌^◌, ◌↔◌, ◌⊎◌, IsTrue, IfSome, MatchOption};
ghost use Rattle.simplex_base.specs.Terms.{term_start, term_end};
ghost use Rattle.simplex_lead.specs.Windows.{FitsWindow, IsAdmitted, IsInReach, IsOutbound, Leads, NumberExactly, admitted_above, next_limit, next_start, own_limit, views_between};

use crate::elector::Terms;
use simplex_base::positions::{TermLength, View, ViewDelta};

/// How far ahead of its own view a node looks within a term, and how long terms are.
#[derive(Clone, Copy, Debug)]
pub struct Lookahead {
    /// The number of views of a term.
    pub term_length: TermLength,
    /// The number of views that a node may run ahead within a term.
    pub optimistic_views: ViewDelta,
}

#[tactic(auto, using(simplex_base::specs::TermLaws::term_facts))]
impl Lookahead {
    /// The lookahead of terms of this structure.
    pub fn new(terms: &Terms) -> Self
        ensures { result ≡ record {
          term_length = terms.now.term_length;
          optimistic_views = terms.now.optimistic_views;
        } }
    {
        Lookahead {
            term_length: terms.length(),
            optimistic_views: terms.optimistic_views(),
        }
    }

    /// Whether all views that are counted from `current` are 64-bit numbers: the start of the next term plus the term
    /// length plus 1 is at most 2^64 - 1. It is the condition of the calls that take `current`.
    pub fn fits(&self, current: View) -> bool
        ensures { IsTrue result ↔ FitsWindow self.now.term_length current }
    {
        let length = self.term_length;
        current.term_fits(length) && current.next_term_start(length).get() < u64::MAX - length.get()
    }

    /// The last view of the term of `current` that is admitted ahead of `current`: at most twice the lookahead
    /// and one view later, and at most the end of the term.
    pub fn admission_limit(&self, current: View) -> View
        requires { FitsWindow self.now.term_length current }
        ensures { result ≡ own_limit self.now.term_length self.now.optimistic_views current }
    {
        let views = self.optimistic_views;
        let doubled = current.saturating_add(views).saturating_add(views);
        doubled
            .saturating_add(ViewDelta::new(1))
            .min(current.term_end(self.term_length))
    }

    /// Whether the view `pending` is later than `current` and at most the admission limit.
    pub fn in_admission_window(&self, current: View, pending: View) -> bool
        requires { FitsWindow self.now.term_length current }
        ensures { IsTrue result ↔
            ((current < pending) × (pending ≤
            own_limit self.now.term_length self.now.optimistic_views current)) }
    {
        current < pending && pending <= self.admission_limit(current)
    }

    /// Whether a node in view `current` takes votes of the view `pending`: of views up to the next one, of
    /// those in the admission window, and of the first views of the next terms, at most the lookahead (at least
    /// one, at most a term) and one view past the next term's start.
    pub fn admits(&self, current: View, pending: View) -> bool
        requires { FitsWindow self.now.term_length current }
        ensures admitted { IsTrue result ↔
            IsAdmitted self.now.term_length self.now.optimistic_views current pending }
        // Exactly this many later views are admitted.
        ensures number { NumberExactly
            (λ q. (current < q) × IsAdmitted self.now.term_length self.now.optimistic_views current
            q)
            (admitted_above self.now.term_length self.now.optimistic_views current) }
        // All of them are 64-bit numbers.
        ensures views { (q : ℕ) →
            IsAdmitted self.now.term_length self.now.optimistic_views current q → q < 2 ^ 64 }
        // A view to which some view in reach of `current` leads is admitted,
        ensures lead { (p : ℕ) →
            Leads self.now.term_length self.now.optimistic_views current p pending → IsTrue result }
        // and no other later view of the term of `current` is.
        ensures led { IsTrue result → current < pending →
            pending ≤ term_end self.now.term_length current →
            (p : ℕ) × Leads self.now.term_length self.now.optimistic_views current p pending }
    {
        let past = self
            .optimistic_views
            .get()
            .max(1)
            .min(self.term_length.get())
            + 1;
        self.is_admitted(current, pending, past)
    }

    /// Whether the view is in the set of those that are admitted, where this many views past the next term's
    /// start are.
    fn is_admitted(&self, current: View, pending: View, past: u64) -> bool
        requires fits { FitsWindow self.now.term_length current }
        requires past { next_start self.now.term_length current + past ≡
            next_limit self.now.term_length self.now.optimistic_views current }
        ensures { IsTrue result ↔
            IsAdmitted self.now.term_length self.now.optimistic_views current pending }
    {
        let next = current.next_term_start(self.term_length);
        current.admits(pending, self.term_length)
            || self.in_admission_window(current, pending)
            || next < pending && pending.get() <= next.get() + past
    }

    /// Whether a node in view `current` sends messages of the view `pending`: of views up to the next one, of
    /// the next term's first view, and of those of its term that are at most the lookahead ahead. All of them
    /// are admitted.
    pub fn admits_outbound(&self, current: View, pending: View) -> bool
        requires { FitsWindow self.now.term_length current }
        ensures outbound { IsTrue result ↔
            IsOutbound self.now.term_length self.now.optimistic_views current pending }
        ensures admitted { IsTrue result →
            IsAdmitted self.now.term_length self.now.optimistic_views current pending }
    {
        current.admits(pending, self.term_length)
            || pending <= current.saturating_add(self.optimistic_views)
                && self.in_admission_window(current, pending)
    }

    /// Whether the view `other` is in reach of `view`, so that a node in `view` may vote in it: it is at most
    /// `view`, or of the term of `view` and at most the lookahead later, or the first view of the next term and
    /// at most the lookahead and one view later. It is total: it has no precondition.
    pub fn reaches(&self, view: View, other: View) -> bool
        ensures { IsTrue result ↔
            IsInReach self.now.term_length self.now.optimistic_views view other }
    {
        let ahead = view.saturating_add(self.optimistic_views);
        if other <= view || !view.term_fits(self.term_length) {
            return other <= ahead;
        }
        let next = view.next_term_start(self.term_length);
        other < next && other <= ahead
            || other == next && other <= ahead.saturating_add(ViewDelta::new(1))
    }

    /// The earliest view from which messages of the view `view` may be issued, or `None` where no lookahead
    /// bounds it: without a lookahead, and for the first view of a term.
    pub fn issuance_floor(&self, view: View) -> Option<View>
        ensures none { MatchOption result
            ((self.now.optimistic_views ≡ 0) ⊎ (view ≡ term_start self.now.term_length view))
            (λ floor. ¬ (self.now.optimistic_views ≡ 0) ×
            ¬ (view ≡ term_start self.now.term_length view)) }
        ensures value { IfSome result (λ floor. floor ≡ view - self.now.optimistic_views - 1) }
        // An earlier view is at least the floor exactly where at most the lookahead many views lie strictly between.
        ensures between { IfSome result (λ floor. (q : ℕ) → q < view →
            (floor ≤ q ↔ views_between q view ≤ self.now.optimistic_views)) }
        // `view` is in reach of the view after an earlier one exactly where the earlier one is at least the floor and
        // `view` is of the term of the one after it.
        ensures reach { IfSome result (λ floor. (q : ℕ) → q < view →
            (IsInReach self.now.term_length self.now.optimistic_views (q + 1) view ↔
            ((floor ≤ q) × (view ≤ term_end self.now.term_length (q + 1))))) }
    {
        prove!(self.term_length.get() > 0);
        if self.optimistic_views.get() == 0 || view.is_term_start(self.term_length) {
            return None;
        }
        Some(
            view.saturating_sub(self.optimistic_views)
                .saturating_sub(ViewDelta::new(1)),
        )
    }
}
