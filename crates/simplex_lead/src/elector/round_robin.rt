//! Electors that go round the participants, term after term.

ghost use Rattle.std.specs.Prelude.{◌≡◌, ℕ, ◌+◌, ◌<◌, ◌≤◌, ◌^◌, ◌++◌, List, None, length, IfOk, IsOk, OnOk, IsPermutation, Some};
ghost use Rattle.std.specs.List.{range_with_len};
ghost use Rattle.std.specs.List.Sorted.{IsSortedByKey};
ghost use Rattle.std.specs.Int.{to_be_bytes, w32};
ghost use Rattle.std.specs.Option.{option_copied};
ghost use Rattle.simplex_base.specs.Positions as positions;
ghost use Rattle.simplex_base.specs.Terms.{HoldsView};
ghost use Rattle.simplex_lead.specs.Terms.{CanBeStable, rotating};
ghost use Rattle.simplex_lead.specs.Rotation.{IsOrder, IsRotation, leader_of_round, EachLeadsOnce};

use crate::elector::electing::{Config, Elector};
use crate::elector::mode::Mode;
use crate::elector::order::Order;
use crate::elector::terms::Terms;
use simplex_base::positions::{Participant, Round, TermLength, ViewDelta};
use simplex_scheme::scheme::{CertificateScheme, Hasher, Set, Sha256};
use std::alloc::{AllocError, Global};
use std::marker::{Model, PhantomData};
use std::time::Duration;

/// Electors that go round the participants: the leader of a term is the entry `((epoch + term) mod 2^64) mod n`
/// of an order of the n participants. Without a seed that is the order of their numbers. With one it rises by
/// the hash of the seed followed by the number in four bytes, the most significant first, and then by the
/// number.
#[derive(Drop)]
pub struct RoundRobin<H: Hasher = Sha256> {
    seed: Option<Vec<u8>>,
    terms: Terms,
    hasher: PhantomData<H>,
}

impl<H: Hasher> Model for RoundRobin<H> {
    ghost use Rattle.std.specs.Prelude.{option_map};
    ghost use Rattle.simplex_lead.specs.Rotation.{Settings};

    ghost Value = { Settings };

    ghost view = { λ settings. record {
      seed = option_map (λ seed. seed.items) settings.seed;
      terms = settings.terms;
    } };
}

impl<H: Hasher> Default for RoundRobin<H> {
    ghost is_default = { λ settings. settings ≡ record { seed = None; terms = rotating } };

    /// In the order of the numbers, in terms of one view.
    fn default() -> Self {
        RoundRobin {
            seed: None,
            terms: Terms::rotating(),
            hasher: PhantomData,
        }
    }
}

impl<H: Hasher> RoundRobin<H> {
    /// In an order by this seed, in terms of one view. `AllocError` where the allocation of the seed failed.
    pub fn shuffled(alloc: Global, seed: &[u8]) -> Result<Self, AllocError>
        ensures { IfOk result (λ settings.
            settings ≡ record { seed = Some seed.now; terms = rotating }) }
    {
        Ok(RoundRobin {
            seed: Some(seed.to_vec(alloc)?),
            terms: Terms::rotating(),
            hasher: PhantomData,
        })
    }

    /// In the same order, in terms of several views with one leader each, as [`Terms::stable`] has it.
    pub fn with_term(
        self,
        term_length: TermLength,
        stall_timeout: Duration,
        optimistic_views: ViewDelta,
    ) -> Self
        requires { CanBeStable term_length stall_timeout }
        ensures { result ≡ record {
          seed = self.seed;
          terms = record {
            term_length = term_length;
            stall_timeout = Some stall_timeout;
            optimistic_views = optimistic_views;
          };
        } }
    {
        RoundRobin {
            seed: self.seed,
            terms: Terms::stable(term_length, stall_timeout, optimistic_views),
            hasher: PhantomData,
        }
    }
}

impl<H: Hasher> RoundRobin<H> {
    /// The elector of this many participants, 1 to 2^32 - 1. Without a seed it takes no memory, and constant time. With
    /// one it hashes once for each participant and sorts. `AllocError` only where there is a seed and an allocation failed.
    pub fn build_for<S>(
        self,
        alloc: Global,
        participants: u32,
    ) -> Result<RoundRobinElector<S>, AllocError>
        requires { 1 ≤ participants }
        ensures participants { IfOk result (λ elector. length elector.order ≡ participants) }
        ensures order { IfOk result (λ elector.
            IsOrder H.Digest.cmp H.digest_of self.seed participants elector.order) }
        // There is no other such order.
        ensures single { (other : List ℕ) →
            IsOrder H.Digest.cmp H.digest_of self.seed participants other →
            IfOk result (λ elector. elector.order ≡ other) }
        ensures terms { IfOk result (λ elector. elector.terms ≡ self.terms) }
        // Each leads once in as many terms as there are participants, where no sum of epoch and term wraps.
        ensures once { IfOk result (λ elector. (epoch first : ℕ) →
            epoch + first + participants ≤ 2 ^ 64 →
            EachLeadsOnce elector.order epoch first) }
        ensures infallible { self.seed ≡ None → IsOk result }
    {
        let order = order_of::<H>(alloc, self.seed.as_deref(), participants)?;
        Ok(RoundRobinElector {
            order,
            terms: self.terms,
            scheme: PhantomData,
        })
    }
}

impl<H: Hasher> Clone for RoundRobin<H> {
    ghost is_clone = { λ settings copy. copy ≡ settings };

    ghost is_infallible = { λ settings. settings.seed ≡ None };

    fn clone(&self) -> Result<Self, AllocError> {
        Ok(RoundRobin {
            seed: self.seed.clone()?,
            terms: self.terms,
            hasher: PhantomData,
        })
    }
}

/// The hash that decides a participant's place in the order.
fn ticket<H: Hasher>(seed: &[u8], participant: Participant) -> H::Digest
    ensures { result ≡ H.digest_of (seed.now ++ to_be_bytes w32 participant) }
{
    H::hash(&[seed, &participant.get().to_be_bytes()])
}

/// The participants below a number.
fn numbered(alloc: Global, n: u32) -> Result<Vec<Participant>, AllocError>
    ensures { IfOk result (λ order. order.items ≡ range_with_len 0 n) }
{
    let mut order = Vec::with_capacity(alloc, n as usize)?;
    for number in 0..n {
        order.push(Participant::new(number))?;
    }
    Ok(order)
}

/// Sorts participants by their hash, and then by their number.
fn shuffle<H: Hasher>(order: &mut Vec<Participant>, seed: &[u8]) -> Result<(), AllocError>
    ensures permutation { IsPermutation order.old.items order.new.items }
    ensures sorted { OnOk result (IsSortedByKey
        (λ i. (H.digest_of (seed.now ++ to_be_bytes w32 i), i))
        ⟦<(H::Digest, u32) as Ord>⟧.cmp order.new.items) }
{
    order.sort_by_cached_key(|participant| {
        (ticket::<H>(seed, *participant), participant.get())
    })?;
    Ok(())
}

/// The order of n participants by a seed.
fn shuffled_order<H: Hasher>(alloc: Global, seed: &[u8], n: u32) -> Result<Order, AllocError>
    ensures { IfOk result (IsOrder H.Digest.cmp H.digest_of (Some seed.now) n) }
{
    let mut order = numbered(alloc, n)?;
    shuffle::<H>(&mut order, seed)?;
    Ok(Order::of(order))
}

/// The order of n participants by a seed, if there is one.
fn order_of<H: Hasher>(alloc: Global, seed: Option<&[u8]>, n: u32) -> Result<Order, AllocError>
    ensures order { IfOk result (IsOrder H.Digest.cmp H.digest_of (option_copied seed.entry) n) }
    ensures infallible { option_copied seed.entry ≡ None → IsOk result }
{
    match seed {
        Some(seed) => shuffled_order::<H>(alloc, seed, n),
        None => Ok(Order::ascending(n)),
    }
}

impl<S: CertificateScheme, H: Hasher> Config<S> for RoundRobin<H> {
    ghost use Rattle.simplex_lead.specs.ElectionLaws.{one_alike};
    ghost use Rattle.simplex_lead.specs.RotationLaws.{one_rotation, same_rotations};

    type Elector = RoundRobinElector<S>;

    ghost builds = { λ settings keys elector.
        IsRotation H.Digest.cmp H.digest_of settings (length keys) elector };

    fn build(
        self,
        alloc: Global,
        participants: &Set<S::PublicKey>,
    ) -> Result<RoundRobinElector<S>, AllocError>
        requires some { 1 ≤ length participants.now }
        requires few { length participants.now < 2 ^ 32 }
        ensures participants { IfOk result (λ elector.
            length elector.order ≡ length participants.now) }
        ensures order { IfOk result (λ elector.
            IsOrder H.Digest.cmp H.digest_of self.seed (length participants.now) elector.order) }
        // There is no other such order.
        ensures single { (other : List ℕ) →
            IsOrder H.Digest.cmp H.digest_of self.seed (length participants.now) other →
            IfOk result (λ elector. elector.order ≡ other) }
        ensures terms { IfOk result (λ elector. elector.terms ≡ self.terms) }
        // Each leads once in as many terms as there are participants, where no sum of epoch and term wraps.
        ensures once { IfOk result (λ elector. (epoch first : ℕ) →
            epoch + first + length participants.now ≤ 2 ^ 64 →
            EachLeadsOnce elector.order epoch first) }
        ensures infallible { self.seed ≡ None → IsOk result }
    {
        self.build_for(alloc, participants.len() as u32)
    }

    ghost agree = { λ settings keys one other is_one is_other. one_alike _ _ _ _ one other
        (one_rotation H.Digest.cmp H.digest_of H.Digest.total settings (length keys) one other
        is_one is_other) };

    ghost clones = { λ settings copy keys elector same.
        same_rotations H.Digest.cmp H.digest_of settings copy (length keys) elector same };
}

/// The elector that goes round the participants in one order, term after term.
#[derive(Drop)]
pub struct RoundRobinElector<S> {
    order: Order,
    terms: Terms,
    scheme: PhantomData<S>,
}

impl<S> Model for RoundRobinElector<S> {
    ghost use Rattle.std.specs.Prelude.{◌<◌, length};
    ghost use Rattle.simplex_lead.specs.Rotation.{Rotation, IsArrangement};

    ghost Value = { Rotation };

    ghost view = { λ elector. record { order = elector.order; terms = elector.terms } };

    ghost invariant = { λ elector.
        IsArrangement (length elector.order) elector.order × (0 < length elector.order) };
}

impl<S> Clone for RoundRobinElector<S> {
    ghost is_clone = { λ elector copy. copy ≡ elector };

    // The order of the numbers is cloned without an allocation.
    ghost is_infallible = { λ elector. elector.order ≡ range_with_len 0 (length elector.order) };

    fn clone(&self) -> Result<Self, AllocError> {
        Ok(RoundRobinElector {
            order: self.order.clone()?,
            terms: self.terms,
            scheme: PhantomData,
        })
    }
}

impl<S> RoundRobinElector<S> {
    /// The entry of the order that leads a round.
    fn leader(&self, round: Round) -> Participant
        ensures leader { result ≡ leader_of_round self.now round }
        ensures member { result < length self.now.order }
    {
        let term = round.view().term_index(self.terms.length());
        let place = round.epoch().get().wrapping_add(term) % self.order.len() as u64;
        self.order.get(place as u32)
    }
}

impl<S: CertificateScheme> Elector<S> for RoundRobinElector<S> {
    ghost use Rattle.std.proofs.Common.{refl, sym};
    ghost use Rattle.simplex_lead.specs.ElectionLaws.{one_alike};
    ghost use Rattle.simplex_lead.specs.RotationLaws.{same_leader};
    ghost use Rattle.simplex_lead.specs.declared.elector.mode.Mode.TheVariants.{Scheduled};

    ghost mode_of = { λ _. Scheduled };

    ghost terms_of = { λ elector. elector.terms };

    ghost participants_of = { λ elector. length elector.order };

    ghost leader_of = { λ elector round certificate. leader_of_round elector round };

    fn mode(&self) -> Mode {
        Mode::Scheduled
    }

    fn terms(&self) -> Terms {
        self.terms
    }

    fn elect(&self, round: Round, _certificate: Option<&S::Certificate>) -> Participant
        ensures leader { result ≡ leader_of_round self.now round }
        ensures member { result < length self.now.order }
        // Each round of the same term of the epoch has the same leader.
        ensures same { (term : ℕ) → HoldsView self.now.terms.term_length term round.view →
            (other : positions.Round) → other.epoch ≡ round.epoch →
            HoldsView self.now.terms.term_length term other.view →
            result ≡ leader_of_round self.now other }
    {
        self.leader(round)
    }

    ghost ignores = { λ elector round one other scheduled. refl };

    ghost one_a_term = { λ elector one other term certificate epoch in_one in_other.
        same_leader elector one other term epoch in_one in_other };

    ghost clones = { λ elector copy same. one_alike _ _ _ _ elector copy (sym same) };
}
