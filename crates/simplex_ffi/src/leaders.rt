//! Who leads a round, as a function of numbers.

ghost use Rattle.std.specs.Prelude.{◌≡◌, ◌≢◌, ◌⊎◌, ◌≤◌, None, IfOk, IsOk};
ghost use Rattle.std.specs.Option.{option_copied};
ghost use Rattle.simplex_ffi.specs.Leaders.{LeadsRound};

use simplex_base::positions::{Epoch, Round, TermLength, View, ViewDelta};
use simplex_border::answer::{ARGUMENTS, MEMORY, WHOLE};
use simplex_lead::elector::{Elector, RoundRobin, can_be_stable};
use simplex_scheme::scheme::{Hasher, Sha256, Sha256Digest};
use simplex_schemes::marked::Marked;
use std::alloc::{AllocError, Global};
use std::time::Duration;

/// The rotation in the order that the seed determines, if there is one.
fn rotation(alloc: Global, seed: Option<&[u8]>) -> Result<RoundRobin<Sha256>, AllocError>
    ensures seed { IfOk result (λ rotation. rotation.seed ≡ option_copied seed.entry) }
    ensures terms { IfOk result (λ rotation. rotation.terms.term_length ≡ 1) }
    ensures infallible { option_copied seed.entry ≡ None → IsOk result }
{
    match seed {
        Some(seed) => RoundRobin::shuffled(alloc, seed),
        None => Ok(RoundRobin::default()),
    }
}

/// The same in terms of this many views.
fn rotation_of(
    alloc: Global,
    seed: Option<&[u8]>,
    length: TermLength,
) -> Result<RoundRobin<Sha256>, AllocError>
    ensures seed { IfOk result (λ rotation. rotation.seed ≡ option_copied seed.entry) }
    ensures terms { IfOk result (λ rotation. rotation.terms.term_length ≡ length) }
    ensures infallible { option_copied seed.entry ≡ None → IsOk result }
{
    let rotation = rotation(alloc, seed)?;
    // The timeout and the lookahead have no part in who leads.
    let timeout = Duration::from_secs(1);
    if can_be_stable(length, timeout) {
        return Ok(rotation.with_term(length, timeout, ViewDelta::new(0)));
    }
    Ok(rotation)
}

/// The leader of a view in an epoch.
fn elected(
    alloc: Global,
    seed: Option<&[u8]>,
    participants: u32,
    term_length: u32,
    round: Round,
) -> Result<u32, AllocError>
    requires some { 1 ≤ participants }
    requires length { 1 ≤ term_length }
    ensures leads { IfOk result (LeadsRound ⟦<Sha256Digest as Ord>⟧.cmp ⟦<Sha256 as Hasher>⟧.digest_of
        (option_copied seed.entry) participants term_length round.epoch round.view) }
    ensures infallible { option_copied seed.entry ≡ None → IsOk result }
{
    let rotation = rotation_of(alloc, seed, TermLength::new(term_length))?;
    // A rotation elects without a certificate, so any scheme serves.
    let elector = rotation.build_for::<Marked>(alloc, participants)?;
    Ok(elector.elect(round, None).get())
}

/// Writes to `number` the participant who leads a view of an epoch: of this many participants, in the
/// order that the seed determines, if there is one, and in terms of this many views. The status is
/// [`WHOLE`]; [`ARGUMENTS`] where `participants` or `term_length` is 0; or [`MEMORY`] where there is
/// a seed and an allocation failed. Without a seed it takes no memory, and constant time. With one
/// it copies the seed; the order takes 4 bytes for each participant, and 96 more while it is sorted.
/// Where the status is not [`WHOLE`] nothing is written.
pub fn leader(
    alloc: Global,
    seed: Option<&[u8]>,
    participants: u32,
    term_length: u32,
    epoch: u64,
    view: u64,
    number: &mut u32,
) -> u32
    ensures leads { result ≡ 0 → (1 ≤ participants) × (1 ≤ term_length) ×
        LeadsRound ⟦<Sha256Digest as Ord>⟧.cmp ⟦<Sha256 as Hasher>⟧.digest_of
        (option_copied seed.entry) participants term_length epoch view number.new }
    ensures arguments { result ≡ 2 → (participants ≡ 0) ⊎ (term_length ≡ 0) }
    ensures memory { result ≡ 3 → (1 ≤ participants) × (1 ≤ term_length) }
    ensures infallible { option_copied seed.entry ≡ None → result ≢ 3 }
    ensures untouched { result ≢ 0 → number.new ≡ number.old }
    ensures status { (result ≡ 0) ⊎ (result ≡ 2) ⊎ (result ≡ 3) }
{
    if participants == 0 || term_length == 0 {
        return ARGUMENTS;
    }
    let round = Round::new(Epoch::new(epoch), View::new(view));
    match elected(alloc, seed, participants, term_length, round) {
        Ok(elected) => {
            *number = elected;
            WHOLE
        }
        Err(_) => MEMORY,
    }
}
