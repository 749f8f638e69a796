//! Committees by their sizes.

ghost use Rattle.std.specs.Prelude.{◌≡◌, ◌↔◌, ◌≤◌, All, None, Ok, IsTrue, IfOk, IfErr, IfSome, length};
ghost use Rattle.simplex_scheme.specs.Committees.{Schedule};
ghost use Rattle.simplex_schemes.specs.Vouched.{VouchedScheme};
ghost use Rattle.simplex_border.specs.Refusals.{AskedOfSizes, IsFirstRefusal, refusal_code};
ghost use Rattle.simplex_border.specs.Sizes.{AreSizes, AreCommitteeSizes, pairs_of};

use crate::refusals::Refusal;
use simplex_base::positions::Epoch;
use simplex_scheme::committees::Committees;
use simplex_scheme::scheme::Set;
use simplex_schemes::vouched::Vouched;
use std::alloc::{AllocError, Global};

/// The committees of these sizes: without epochs one committee for every epoch, of the one size; else
/// for each epoch one of the size at the same place. `None` where there are no such committees: there
/// are not as many sizes as epochs, or without epochs not exactly one; a size is 0; or epochs do not
/// rise strictly. All this is judged before memory is allocated; `AllocError` only where an allocation failed.
pub fn committees<R, const N: usize>(
    alloc: Global,
    epochs: &[u64],
    sizes: &[u32],
) -> Result<Option<Committees<Vouched<R, N>>>, AllocError>
    ensures some { IfOk result (λ answer. IfSome answer (AreSizes epochs.now sizes.now)) }
    ensures none { result ≡ Ok None → (committees : Schedule VouchedScheme) →
        ¬ AreSizes epochs.now sizes.now committees }
    ensures memory { IfErr result (λ _. AreCommitteeSizes epochs.now sizes.now) }
{
    if !are_committee_sizes(epochs, sizes) {
        return Ok(None);
    }
    if epochs.is_empty() {
        return Ok(Some(Committees::every(Vouched::new(alloc, sizes[0])?)));
    }
    let pairs = pairs(alloc, epochs, sizes)?;
    match Committees::try_from_vec(pairs) {
        Ok(committees) => Ok(Some(committees)),
        Err(_) => Ok(None),
    }
}

/// Why there are no committees of these sizes, if there are none: the first refusal. Without epochs one size is asked for.
pub fn refusal(epochs: &[u64], sizes: &[u32]) -> Option<Refusal>
    ensures first { IsFirstRefusal (AskedOfSizes epochs.now sizes.now) (refusal_code result) }
    ensures accepted { result ≡ None ↔ AreCommitteeSizes epochs.now sizes.now }
{
    if sizes.is_empty() {
        return Some(Refusal::NoCommittee);
    }
    if sizes.len() != epochs.len().max(1) {
        return Some(Refusal::Count);
    }
    if !Set::are_ascending(epochs) {
        return Some(Refusal::Epochs);
    }
    if sizes.contains(&0) {
        return Some(Refusal::EmptyCommittee);
    }
    None
}

/// Whether there are committees of these sizes.
fn are_committee_sizes(epochs: &[u64], sizes: &[u32]) -> bool
    ensures { IsTrue result ↔ AreCommitteeSizes epochs.now sizes.now }
{
    refusal(epochs, sizes).is_none()
}

/// Each epoch with the committee of its size.
fn pairs<R, const N: usize>(
    alloc: Global,
    epochs: &[u64],
    sizes: &[u32],
) -> Result<Vec<(Epoch, Vouched<R, N>)>, AllocError>
    requires same { length epochs.now ≡ length sizes.now }
    requires some { All (λ n. 1 ≤ n) sizes.now }
    ensures { IfOk result (λ pairs. pairs.items ≡ pairs_of epochs.now sizes.now) }
{
    let mut pairs = Vec::new(alloc);
    'epochs: for i in 0..epochs.len() {
        let size = sizes[i];
        pairs.push((Epoch::new(epochs[i]), Vouched::new(alloc, size)?))?;
    }
    Ok(pairs)
}
