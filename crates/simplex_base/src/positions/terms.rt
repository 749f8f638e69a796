//! Terms, intervals of views of one length that have one leader each.
//!
//! Term t from 1 on of terms of length L holds the views from (t - 1) * L + 1 to t * L; term 0 holds view 0
//! (genesis) alone.

ghost use Rattle.std.specs.Prelude.{◌≡◌, ℕ, ◌+◌, ◌<◌, ◌≤◌, ◌^◌, ◌↔◌, ◌⊎◌, IsTrue};
ghost use Rattle.simplex_base.specs.Terms.{first_view, last_view, HoldsView, term_of, term_start, term_end};

use crate::positions::view::View;
use std::marker::Model;

/// How many views a term has, from 1 to 2^32 - 1.
#[derive(Clone, Copy, Debug, PartialEq, Eq, PartialOrd, Ord, Hash)]
pub struct TermLength(u32);

impl Model for TermLength {
    ghost use Rattle.std.specs.Prelude.{ℕ, ◌≤◌};

    ghost Value = { ℕ };

    ghost view = { λ length. length.0 };

    ghost invariant = { λ length. 1 ≤ length.0 };

    ghost inverse = { λ number. record { 0 = number } };
}

impl TermLength {
    /// Terms of one view each: the length is 1.
    pub const ONE: TermLength = TermLength(1);

    /// Terms of this many views each.
    pub fn new(views: u32) -> Self
        requires { 1 ≤ views }
        ensures { result ≡ views }
    {
        TermLength(views)
    }

    /// The number of views of a term.
    pub fn get(self) -> u64
        ensures value { result ≡ self }
        ensures some { 1 ≤ self }
        ensures few { self < 2 ^ 32 }
    {
        u64::from(self.0)
    }
}

const _: () = prove!(TermLength::ONE.0 == 1);

#[tactic(auto, using(crate::specs::TermLaws::term_facts))]
impl View {
    /// The number of the term that holds the view.
    pub fn term_index(self, length: TermLength) -> u64
        ensures value { result ≡ term_of length self }
        ensures holds { HoldsView length result self }
        ensures only { (term : ℕ) → HoldsView length term self → term ≡ result }
        ensures some { 1 ≤ length }
    {
        let views = length.get();
        if self.is_zero() {
            return 0;
        }
        (self.get() - 1) / views + 1
    }

    /// The first view of the term that holds the view.
    pub fn term_start(self, length: TermLength) -> Self
        ensures value { result ≡ term_start length self }
        ensures first { (term : ℕ) → HoldsView length term self → result ≡ first_view length term }
        ensures some { 1 ≤ length }
    {
        let views = length.get();
        if self.is_zero() {
            return View::zero();
        }
        View::new((self.get() - 1) / views * views + 1)
    }

    /// Whether the view is the first of its term, as view 0 is.
    pub fn is_term_start(self, length: TermLength) -> bool
        ensures value { IsTrue result ↔ (self ≡ term_start length self) }
        ensures first { (term : ℕ) → HoldsView length term self → IsTrue result ↔
            (self ≡ first_view length term) }
        ensures some { 1 ≤ length }
    {
        self == self.term_start(length)
    }

    /// Whether the start of the next term is a view, so at most 2^64 - 1: the condition of `term_end`,
    /// `next_term_start` and `admits`.
    pub fn term_fits(self, length: TermLength) -> bool
        ensures value { IsTrue result ↔ (term_end length self + 1 < 2 ^ 64) }
        ensures some { 1 ≤ length }
    {
        let views = length.get();
        self.is_zero() || views <= u64::MAX - self.term_start(length).get()
    }

    /// The last view of the term that holds the view.
    pub fn term_end(self, length: TermLength) -> Self
        requires { term_end length self + 1 < 2 ^ 64 }
        ensures value { result ≡ term_end length self }
        ensures last { (term : ℕ) → HoldsView length term self → result ≡ last_view length term }
        ensures some { 1 ≤ length }
    {
        let views = length.get();
        if self.is_zero() {
            return View::zero();
        }
        View::new(self.term_start(length).get() + (views - 1))
    }

    /// The first view of the term after the one that holds the view.
    pub fn next_term_start(self, length: TermLength) -> Self
        requires { term_end length self + 1 < 2 ^ 64 }
        ensures value { result ≡ term_end length self + 1 }
        ensures first { (term : ℕ) → HoldsView length term self →
            result ≡ first_view length (term + 1) }
        ensures some { 1 ≤ length }
    {
        View::new(self.term_end(length).get() + 1)
    }

    /// Whether a node in this view takes messages of the view `pending` where it looks no further ahead: those
    /// up to this view, of the next view and of the next term's first view.
    pub fn admits(self, pending: View, length: TermLength) -> bool
        requires { term_end length self + 1 < 2 ^ 64 }
        ensures value { IsTrue result ↔
            ((pending ≤ self) ⊎ (pending ≡ self + 1) ⊎ (pending ≡ term_end length self + 1)) }
        ensures some { 1 ≤ length }
    {
        let next = self.next_term_start(length);
        pending <= self || pending.get() - 1 == self.get() || pending == next
    }
}
