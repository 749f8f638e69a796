//! Which messages a node retains, by what it has finalized and where it is.

ghost use Rattle.std.specs.Prelude.{◌≡◌, ℕ, ◌-◌, ◌↔◌, IsTrue};
ghost use Rattle.simplex_lead.specs.Windows.{FitsWindow, IsAdmitted, IsRetained, Leads};

use crate::lookahead::Lookahead;
use simplex_base::positions::{View, ViewDelta};

/// The views that a node looks at.
#[derive(Clone, Copy, Debug)]
pub struct Viewport {
    /// The last view that the node finalized.
    pub finalized: View,
    /// The view that the node is in.
    pub current: View,
    /// The number of views before the finalized one that the node retains.
    pub view_retention: ViewDelta,
    /// How far ahead of its view the node looks.
    pub lookahead: Lookahead,
}

impl Viewport {
    /// The finalized view less the retention, or view 0 where there is no such view. View 0 itself is never
    /// retained.
    pub fn floor(&self) -> View
        ensures { result ≡ self.now.finalized - self.now.view_retention }
    {
        self.finalized.saturating_sub(self.view_retention)
    }

    /// Whether messages of the view are retained: it is not view 0 and at least the floor.
    pub fn retains(&self, view: View) -> bool
        ensures { IsTrue result ↔ IsRetained self.now.finalized self.now.view_retention view }
    {
        !view.is_zero() && view >= self.floor()
    }

    /// Whether votes of the view are taken: it is retained, and admitted from the current view.
    pub fn admits_vote(&self, pending: View) -> bool
        requires { FitsWindow self.now.lookahead.term_length self.now.current }
        ensures taken { IsTrue result ↔
            (IsRetained self.now.finalized self.now.view_retention pending ×
            IsAdmitted self.now.lookahead.term_length self.now.lookahead.optimistic_views
            self.now.current pending) }
        // A retained view is admitted where a view that a correct peer may be in leads to it.
        ensures lead { (p : ℕ) → IsRetained self.now.finalized self.now.view_retention pending →
            Leads self.now.lookahead.term_length self.now.lookahead.optimistic_views
            self.now.current p pending →
            IsTrue result }
    {
        self.lookahead.admits(self.current, pending) && self.retains(pending)
    }

    /// Whether certificates of the view are taken: it is retained, however late it is.
    pub fn admits_certificate(&self, pending: View) -> bool
        ensures { IsTrue result ↔ IsRetained self.now.finalized self.now.view_retention pending }
    {
        self.retains(pending)
    }
}
