//! Quorums and windows of views, as functions of numbers.

ghost use Rattle.std.specs.Prelude.{◌≡◌, ◌-◌, ◌⊎◌, ◌≤◌};
ghost use Rattle.simplex_base.specs.Terms.{term_start};
ghost use Rattle.simplex_scheme.specs.Committee.{faults_of, quorum_of};
ghost use Rattle.simplex_lead.specs.Windows.{FitsWindow, IsAdmitted, IsOutbound};

use simplex_base::positions::{TermLength, View, ViewDelta};
use simplex_lead::Lookahead;
use simplex_scheme::scheme;

/// The answer is no.
pub const NO: u32 = 0;

/// The answer is yes.
pub const YES: u32 = 1;

/// There is no answer: terms have no views, or a view counted from the current one is more than
/// 2^64 - 1.
pub const NONE: u32 = 2;

/// How many of `n` participants may lie: the greatest f with 3f + 1 ≤ n, and 0 where n is 0.
pub fn max_faults(n: u32) -> u32
    ensures { result ≡ faults_of n }
{
    if n == 0 { 0 } else { scheme::max_faults(n) }
}

/// How many of `n` participants are a quorum: n - f, where f may lie, and 0 where n is 0.
pub fn quorum(n: u32) -> u32
    ensures { result ≡ quorum_of n }
{
    if n == 0 { 0 } else { scheme::quorum(n) }
}

/// The lookahead of terms of this many views, at least one.
fn lookahead(term_length: u32, optimistic_views: u64) -> Lookahead
    requires { 1 ≤ term_length }
    ensures { result ≡ record { term_length = term_length; optimistic_views = optimistic_views } }
{
    Lookahead {
        term_length: TermLength::new(term_length),
        optimistic_views: ViewDelta::new(optimistic_views),
    }
}

/// Whether a node in view `current` takes votes of the view `pending`: [`YES`] or [`NO`]; [`NONE`]
/// where `term_length` is 0 or the start of the next term plus the term length plus 1 is more than
/// 2^64 - 1.
pub fn admits(term_length: u32, optimistic_views: u64, current: u64, pending: u64) -> u32
    ensures yes { result ≡ 1 → (1 ≤ term_length) × FitsWindow term_length current ×
        IsAdmitted term_length optimistic_views current pending }
    ensures no { result ≡ 0 → (1 ≤ term_length) × FitsWindow term_length current ×
        ¬ IsAdmitted term_length optimistic_views current pending }
    ensures none { result ≡ 2 → ¬ ((1 ≤ term_length) × FitsWindow term_length current) }
    ensures answers { result ≤ 2 }
{
    if term_length == 0 {
        return NONE;
    }
    let lookahead = lookahead(term_length, optimistic_views);
    if !lookahead.fits(View::new(current)) {
        return NONE;
    }
    if lookahead.admits(View::new(current), View::new(pending)) {
        return YES;
    }
    NO
}

/// Whether a node in view `current` sends messages of the view `pending`: [`YES`] or [`NO`];
/// [`NONE`] as [`admits`] says.
pub fn admits_outbound(term_length: u32, optimistic_views: u64, current: u64, pending: u64) -> u32
    ensures yes { result ≡ 1 → (1 ≤ term_length) × FitsWindow term_length current ×
        IsOutbound term_length optimistic_views current pending }
    ensures no { result ≡ 0 → (1 ≤ term_length) × FitsWindow term_length current ×
        ¬ IsOutbound term_length optimistic_views current pending }
    ensures none { result ≡ 2 → ¬ ((1 ≤ term_length) × FitsWindow term_length current) }
    ensures answers { result ≤ 2 }
{
    if term_length == 0 {
        return NONE;
    }
    let lookahead = lookahead(term_length, optimistic_views);
    if !lookahead.fits(View::new(current)) {
        return NONE;
    }
    if lookahead.admits_outbound(View::new(current), View::new(pending)) {
        return YES;
    }
    NO
}

/// The earliest view from which messages of the view `view` may be issued, `view` less
/// `optimistic_views` less 1 and at least 0, written to `floor`: [`YES`] where there is one, and [`NO`]
/// where no lookahead bounds it: without a lookahead, and for the first view of a term. [`NONE`] where
/// `term_length` is 0. Where the answer is not [`YES`] `floor` is as before.
pub fn issuance_floor(term_length: u32, optimistic_views: u64, view: u64, floor: &mut u64) -> u32
    ensures yes { result ≡ 1 → (1 ≤ term_length) × (floor.new ≡ view - optimistic_views - 1) ×
        ¬ (optimistic_views ≡ 0) × ¬ (view ≡ term_start term_length view) }
    ensures no { result ≡ 0 → (1 ≤ term_length) ×
        ((optimistic_views ≡ 0) ⊎ (view ≡ term_start term_length view)) }
    ensures none { result ≡ 2 → term_length ≡ 0 }
    ensures untouched { (result ≡ 0) ⊎ (result ≡ 2) → floor.new ≡ floor.old }
    ensures answers { result ≤ 2 }
{
    if term_length == 0 {
        return NONE;
    }
    match lookahead(term_length, optimistic_views).issuance_floor(View::new(view)) {
        Some(earliest) => {
            *floor = earliest.get();
            YES
        }
        None => NO,
    }
}
