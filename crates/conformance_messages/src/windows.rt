//! Windows of views.

ghost use Rattle.std.specs.Prelude.{◌≡◌, ◌↔◌, IsTrue, MatchOption};
ghost use Rattle.simplex_lead.specs.Windows.{FitsWindow, own_limit, IsAdmitted, IsOutbound, IsRetained};

use crate::vectors::{Unanswered, delta, term_length};
use simplex_base::positions::View;
use simplex_lead::{Lookahead, Viewport};
use std::alloc::{AllocError, Global};

/// The answer where a call counts past the last view.
pub(crate) const PAST: &str = "past the end";

/// The lookahead of this many optimistic views, in terms of this many views.
pub(crate) fn lookahead(length: &str, ahead: &str) -> Result<Lookahead, Unanswered> {
    Ok(Lookahead {
        term_length: term_length(length)?,
        optimistic_views: delta(ahead)?,
    })
}

/// Whether votes of the view `pending` are taken in the view `current`, or `None` where a computed view is above 2^64 - 1.
pub(crate) fn admits(lookahead: Lookahead, current: View, pending: View) -> Option<bool>
    ensures { MatchOption result (¬ FitsWindow lookahead.term_length current) (λ taken.
        IsTrue taken ↔
        IsAdmitted lookahead.term_length lookahead.optimistic_views current pending) }
{
    if !lookahead.fits(current) {
        return None;
    }
    Some(lookahead.admits(current, pending))
}

/// Whether messages of the view `pending` are sent in the view `current`, or `None` where a computed view is above 2^64 - 1.
pub(crate) fn outbound(lookahead: Lookahead, current: View, pending: View) -> Option<bool>
    ensures { MatchOption result (¬ FitsWindow lookahead.term_length current) (λ sent. IsTrue sent ↔
        IsOutbound lookahead.term_length lookahead.optimistic_views current pending) }
{
    if !lookahead.fits(current) {
        return None;
    }
    Some(lookahead.admits_outbound(current, pending))
}

/// The last view of the term of `current` that is admitted ahead of it, or `None` where a computed view is above 2^64 - 1.
pub(crate) fn limit(lookahead: Lookahead, current: View) -> Option<View>
    ensures { MatchOption result (¬ FitsWindow lookahead.term_length current) (λ limit.
        limit ≡ own_limit lookahead.term_length lookahead.optimistic_views current) }
{
    if !lookahead.fits(current) {
        return None;
    }
    Some(lookahead.admission_limit(current))
}

/// Whether a node takes votes of the view, or `None` where a view computed from its current one is above 2^64 - 1.
fn takes_vote(viewport: Viewport, view: View) -> Option<bool>
    ensures { MatchOption result (¬ FitsWindow viewport.lookahead.term_length viewport.current)
        (λ taken. IsTrue taken ↔
        (IsRetained viewport.finalized viewport.view_retention view ×
        IsAdmitted viewport.lookahead.term_length viewport.lookahead.optimistic_views
        viewport.current view)) }
{
    if !viewport.lookahead.fits(viewport.current) {
        return None;
    }
    Some(viewport.admits_vote(view))
}

/// A truth value, or [`PAST`] where there is none.
pub(crate) fn truth(alloc: Global, value: Option<bool>) -> Result<String, AllocError> {
    match value {
        Some(value) => format!(in alloc; "{value}"),
        None => PAST.to_string(alloc),
    }
}

/// A view, or the answer where there is none.
fn place(alloc: Global, view: Option<View>, none: &str) -> Result<String, AllocError> {
    match view {
        Some(view) => format!(in alloc; "{}", view.get()),
        None => none.to_string(alloc),
    }
}

/// The answer to a test vector that asks for the admission limit.
pub(crate) fn limit_vector(
    alloc: Global,
    lookahead: Lookahead,
    current: View,
) -> Result<String, AllocError> {
    place(alloc, limit(lookahead, current), PAST)
}

/// The answer to a test vector that asks for the issuance floor of the view.
pub(crate) fn floor_vector(
    alloc: Global,
    lookahead: Lookahead,
    view: View,
) -> Result<String, AllocError> {
    place(alloc, lookahead.issuance_floor(view), "none")
}

/// The answer to a test vector that asks what a node retains, and whether it takes votes and certificates of the view.
pub(crate) fn viewport_vector(
    alloc: Global,
    viewport: Viewport,
    view: View,
) -> Result<String, AllocError> {
    let floor = viewport.floor().get();
    let retains = viewport.retains(view);
    let vote = truth(alloc, takes_vote(viewport, view))?;
    let certificate = viewport.admits_certificate(view);
    format!(in alloc; "floor {floor}, retains {retains}, vote {vote}, certificate {certificate}")
}
