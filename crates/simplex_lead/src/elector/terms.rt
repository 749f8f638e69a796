//! How views make up terms.

ghost use Rattle.std.specs.Prelude.{◌≡◌, ◌<◌, ◌↔◌, ◌&&◌, IsTrue, IsSome};
ghost use Rattle.simplex_lead.specs.Terms.{CanBeStable, rotating};

use simplex_base::positions::{TermLength, ViewDelta};
use std::marker::Model;
use std::time::Duration;

/// The structure of terms: the number of views of a term, with the time after which a node gives a term up and
/// the number of views that it may run ahead within one. Both are there only where terms have several views.
#[derive(Clone, Copy, Debug, PartialEq, Eq)]
pub struct Terms {
    term_length: TermLength,
    timeout: Option<Duration>,
    optimistic_views: ViewDelta,
}

impl Model for Terms {
    ghost use Rattle.simplex_lead.specs.Terms as structure;

    ghost Value = { structure.Terms };

    ghost view = { λ terms. record {
      term_length = terms.term_length;
      stall_timeout = terms.timeout;
      optimistic_views = terms.optimistic_views;
    } };

    ghost invariant = { λ terms. structure.AreTerms (record {
      term_length = terms.term_length;
      stall_timeout = terms.timeout;
      optimistic_views = terms.optimistic_views;
    }) };

    ghost inverse = { λ terms. record {
      term_length = terms.term_length;
      timeout = terms.stall_timeout;
      optimistic_views = terms.optimistic_views;
    } };
}

/// Whether terms of this many views can have this timeout: they have more than one view, and it is not zero.
pub fn can_be_stable(term_length: TermLength, stall_timeout: Duration) -> bool
    ensures { IsTrue result ↔ CanBeStable term_length stall_timeout }
{
    term_length.get() > 1 && !stall_timeout.is_zero()
}

impl Terms {
    /// Terms of one view each, so that each view has a leader of its own.
    pub fn rotating() -> Self
        ensures { result ≡ rotating }
    {
        Terms {
            term_length: TermLength::ONE,
            timeout: None,
            optimistic_views: ViewDelta::new(0),
        }
    }

    /// Terms of several views with one leader each. A node gives a term up once a view of it has stalled for
    /// this time, and runs at most this many views ahead within it. [`can_be_stable`] returns whether there are
    /// such terms.
    pub fn stable(
        term_length: TermLength,
        stall_timeout: Duration,
        optimistic_views: ViewDelta,
    ) -> Self
        requires { CanBeStable term_length stall_timeout }
        ensures { result ≡ record {
          term_length = term_length;
          stall_timeout = Some stall_timeout;
          optimistic_views = optimistic_views;
        } }
    {
        Terms {
            term_length,
            timeout: Some(stall_timeout),
            optimistic_views,
        }
    }

    /// The number of views of a term.
    pub fn length(&self) -> TermLength
        ensures { result ≡ self.now.term_length }
    {
        self.term_length
    }

    /// The time after which a node gives a term up, never zero. It is there exactly where terms have several
    /// views.
    pub fn stall_timeout(&self) -> Option<Duration>
        ensures value { result ≡ self.now.stall_timeout }
        ensures stable { IsSome result ↔ (1 < self.now.term_length) }
    {
        self.timeout
    }

    /// The number of views that a node may run ahead within a term, 0 where terms have one view.
    pub fn optimistic_views(&self) -> ViewDelta
        ensures value { result ≡ self.now.optimistic_views }
        ensures rotating { self.now.term_length ≡ 1 → result ≡ 0 }
    {
        self.optimistic_views
    }
}

impl Default for Terms {
    ghost is_default = { λ terms. terms ≡ rotating };

    /// Terms of one view each.
    fn default() -> Self {
        Terms::rotating()
    }
}
