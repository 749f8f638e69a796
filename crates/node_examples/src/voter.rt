//! Which votes a node takes and casts, and who leads.

ghost use Rattle.std.specs.Prelude.{◌≡◌, ◌+◌, ◌<◌, ◌≤◌, ◌^◌, ◌↔◌, ◌⊎◌, ℕ, Option, IsTrue, IfOk, length};
ghost use Rattle.std.specs.Option.{option_copied};
ghost use Rattle.simplex_base.specs.Positions as positions;
ghost use Rattle.simplex_base.specs.Terms.{HoldsView, term_end};
ghost use Rattle.simplex_lead.specs.Windows.{FitsWindow, IsAdmitted, IsInReach, IsRetained, NumberExactly, admitted_above};

use simplex_base::positions::{Participant, Round, View, ViewDelta};
use simplex_lead::elector::{Config, Elector};
use simplex_lead::{Lookahead, Viewport};
use simplex_scheme::scheme::{CertificateScheme, Set};
use std::alloc::{AllocError, Global};

/// Whether a node takes a vote of this view: it retains the view, and admits it from its current one, for which
/// `viewport.lookahead.fits` has to hold.
pub fn takes(viewport: &Viewport, view: View) -> bool
    requires { FitsWindow viewport.now.lookahead.term_length viewport.now.current }
    ensures taken { IsTrue result ↔
        (IsRetained viewport.now.finalized viewport.now.view_retention view ×
        IsAdmitted viewport.now.lookahead.term_length viewport.now.lookahead.optimistic_views
        viewport.now.current view) }
    // It takes votes of at most this many views later than its own, no matter how many are sent.
    ensures held { NumberExactly
        (λ q. (viewport.now.current < q) ×
        IsAdmitted viewport.now.lookahead.term_length viewport.now.lookahead.optimistic_views
        viewport.now.current q)
        (admitted_above viewport.now.lookahead.term_length viewport.now.lookahead.optimistic_views
        viewport.now.current) }
{
    viewport.lookahead.admits(viewport.current, view) && viewport.retains(view)
}

/// Whether a node that has certified view `certified`, which is below 2^64 - 1, casts votes of view `view`: it is then in
/// view `certified + 1`, and `view` is in reach.
pub fn casts(lookahead: &Lookahead, certified: View, view: View) -> bool
    requires { certified + 1 < 2 ^ 64 }
    ensures { IsTrue result ↔
        IsInReach lookahead.now.term_length lookahead.now.optimistic_views (certified + 1) view }
{
    lookahead.reaches(certified.saturating_add(ViewDelta::new(1)), view)
}

/// Whether a node with this viewport hears a vote of view `view` from a node with the same lookahead that has certified
/// view `certified`: the vote is not cast or it is taken. It is heard wherever this node retains `view` and `certified` is in
/// reach of its view and, unless terms have one view, no later than the last view of its term. Of its current view
/// `viewport.lookahead.fits` has to hold, and `certified` is below 2^64 - 1.
pub fn is_heard(viewport: &Viewport, certified: View, view: View) -> bool
    requires current { FitsWindow viewport.now.lookahead.term_length viewport.now.current }
    requires certified { certified + 1 < 2 ^ 64 }
    ensures heard { IsTrue result ↔
        ((¬ IsInReach viewport.now.lookahead.term_length viewport.now.lookahead.optimistic_views
        (certified + 1) view) ⊎
        (IsRetained viewport.now.finalized viewport.now.view_retention view ×
        IsAdmitted viewport.now.lookahead.term_length viewport.now.lookahead.optimistic_views
        viewport.now.current view)) }
    ensures lead { IsInReach viewport.now.lookahead.term_length
        viewport.now.lookahead.optimistic_views viewport.now.current certified →
        (certified ≤ term_end viewport.now.lookahead.term_length viewport.now.current) ⊎
        (viewport.now.lookahead.term_length ≡ 1) →
        IsRetained viewport.now.finalized viewport.now.view_retention view → IsTrue result }
{
    !casts(&viewport.lookahead, certified, view) || viewport.admits_vote(view)
}

/// Who leads a round, for a node with this configuration and these participants, 1 to 2^32 - 1 of them. The certificate is the
/// one that led to the round; a scheduled elector ignores it. `AllocError` only where an allocation failed.
pub fn leader<S: CertificateScheme, C: Config<S>>(
    alloc: Global,
    config: C,
    participants: &Set<S::PublicKey>,
    round: Round,
    certificate: Option<&S::Certificate>,
) -> Result<Participant, AllocError>
    requires some { 1 ≤ length participants.now }
    requires few { length participants.now < 2 ^ 32 }
    ensures member { IfOk result (λ leader. leader < length participants.now) }
    // Every node with this configuration and these participants has the same leader,
    ensures alike { (other : C.Elector) → C.builds config participants.now other →
        IfOk result (λ leader. leader ≡
        C.Elector.leader_of other round (option_copied certificate.entry)) }
    // and it leads every round of the term.
    ensures term { (other : C.Elector) (later : positions.Round) (term : ℕ) →
        C.builds config participants.now other →
        round.epoch ≡ later.epoch →
        HoldsView (C.Elector.terms_of other).term_length term round.view →
        HoldsView (C.Elector.terms_of other).term_length term later.view →
        IfOk result (λ leader. leader ≡
        C.Elector.leader_of other later (option_copied certificate.entry)) }
{
    let elector = config.build(alloc, participants)?;
    Ok(elector.elect(round, certificate))
}
