//! How many views a window looks at.

ghost use Rattle.std.specs.Prelude.{◌≡◌, ◌-◌, ◌<◌, ◌≤◌, ◌^◌, min, max};
ghost use Rattle.simplex_base.specs.Terms.{term_end};
ghost use Rattle.simplex_lead.specs.Windows.{admitted_above};
ghost use Rattle.simplex_monitor.specs.Bounded.{lowest_of, views_from, views_of, views_of_epochs};

use crate::window::Window;
use simplex_base::positions::{Epoch, Round, TermLength, View};
use simplex_lead::Lookahead;

impl Window {
    /// How many views it looks at. In each of them a monitor records at most five votes of each participant. The number
    /// stops at 2^64 - 1.
    pub fn views(&self) -> u64
        ensures { result ≡ min (views_of self.now) (2 ^ 64 - 1) }
    {
        let current = self.epoch_views(self.current);
        if self.floor().epoch() < self.current.epoch() {
            return current.saturating_add(self.epoch_views(self.ended));
        }
        current
    }

    /// How many it looks at of the epoch of a last certified round, and of the epoch after it.
    fn epoch_views(&self, last: Round) -> u64
        ensures { result ≡ min (views_of_epochs self.now last.epoch last.view) (2 ^ 64 - 1) }
    {
        let own = count(self.lookahead, self.lowest(last.epoch()), last.view());
        own.saturating_add(count(self.lookahead, View::new(1), View::zero()))
    }

    /// The first view of an epoch that is retained, which is not view 0.
    fn lowest(&self, epoch: Epoch) -> View
        ensures value { result ≡ lowest_of self.now epoch }
        ensures some { 1 ≤ result }
    {
        let floor = self.floor();
        if epoch == floor.epoch() {
            return floor.view().max(View::new(1));
        }
        View::new(1)
    }
}

/// How many views there are from a lowest one to the last certified one, and how many are admitted from that.
fn count(lookahead: Lookahead, lowest: View, last: View) -> u64
    requires { 1 ≤ lowest }
    ensures { result ≡ min (views_from lookahead lowest last) (2 ^ 64 - 1) }
{
    let retained = last.get().saturating_sub(lowest.get() - 1);
    retained.saturating_add(ahead(lookahead, last))
}

/// How many later views are admitted from a view, by a node that looks at least one view ahead.
fn ahead(lookahead: Lookahead, view: View) -> u64
    ensures value { result ≡ admitted_above lookahead.term_length (max lookahead.optimistic_views 1) view }
    ensures few { result < 2 ^ 64 }
{
    let views = lookahead.optimistic_views.get().max(1);
    let doubled = views.saturating_add(views).saturating_add(1);
    let own = doubled.min(left_in_term(view, lookahead.term_length));
    own + 2 + views.min(lookahead.term_length.get())
}

/// How many views of a view's term are later.
#[tactic(auto, using(simplex_base::specs::TermLaws::term_facts))]
fn left_in_term(view: View, length: TermLength) -> u64
    ensures value { result ≡ term_end length view - view }
    ensures few { result < 2 ^ 32 }
{
    if view.is_zero() {
        return 0;
    }
    let passed = view.get() - view.term_start(length).get();
    length.get() - 1 - passed
}
