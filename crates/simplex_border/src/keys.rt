//! Committees of the plain scheme by their keys, one after the other.

ghost use Rattle.std.specs.Prelude.{◌≡◌, ◌≢◌, ◌+◌, ◌*◌, ◌/◌, ◌↔◌, ◌<◌, ◌≤◌, ◌^◌, All, None, Ok, IsTrue, IfOk, IfErr, IfSome, length, map, sum};
ghost use Rattle.std.specs.List.{AllZip};
ghost use Rattle.simplex_schemes.specs.PlainCommittee.{AreCommitteeKeys, IsPlainCommittee};
ghost use Rattle.simplex_border.specs.Keys.{AreKeys, AreOfKeys, HasNoKeyTwice, IsLengthOfKeys, key_at, keys_in, parts_of};
ghost use Rattle.simplex_border.specs.Refusals.{AskedOfKeys, IsFirstRefusal, refusal_code};

use crate::refusals::Refusal;
use crate::sizes;
use simplex_base::codec::Fixed;
use simplex_base::positions::Epoch;
use simplex_scheme::committees::Committees;
use simplex_schemes::plain::{Plain, PlainKey};
use std::alloc::{AllocError, Global};

/// The key at a place.
fn key_at(bytes: &[u8], place: usize) -> PlainKey
    requires { 32 * place + 32 ≤ length bytes.now }
    ensures { result ≡ key_at bytes.now place }
{
    let start = 32 * place;
    PlainKey::from_bytes(&bytes[start..start + 32])
}

/// The keys, one for each 32 bytes.
fn read_keys(alloc: Global, bytes: &[u8]) -> Result<Vec<PlainKey>, AllocError>
    ensures { IfOk result (λ keys. keys.items ≡ keys_in bytes.now) }
{
    let count = bytes.len() / 32;
    let mut keys = Vec::with_capacity(alloc, count)?;
    'keys: for place in 0..count {
        keys.push(key_at(bytes, place))?;
    }
    Ok(keys)
}

/// The committee of these keys, if they are those of one.
fn committee(alloc: Global, namespace: &[u8], bytes: &[u8]) -> Result<Option<Plain>, AllocError>
    ensures committee { IfOk result (λ found.
        IfSome found (IsPlainCommittee namespace.now (keys_in bytes.now))) }
    ensures none { result ≡ Ok None → ¬ AreCommitteeKeys (keys_in bytes.now) }
{
    Plain::of_keys(alloc, namespace, read_keys(alloc, bytes)?)
}

/// Whether so many bytes are 32 for each participant of committees of these sizes.
fn is_length_of_keys(sizes: &[u32], length: usize) -> bool
    ensures { IsTrue result ↔ (length ≡ 32 * sum sizes.now) }
{
    let mut left = length;
    'sizes: for size in sizes {
        let taken = 32 * *size as usize;
        if left < taken {
            return false;
        }
        left -= taken;
    }
    left == 0
}

/// Whether the sizes are those of committees, and their keys have so many bytes.
fn have_length(epochs: &[u64], sizes: &[u32], length: usize) -> bool
    ensures { IsTrue result ↔ IsLengthOfKeys epochs.now sizes.now length }
{
    match sizes::refusal(epochs, sizes) {
        Some(_) => false,
        None => is_length_of_keys(sizes, length),
    }
}

/// Each epoch with the committee of its keys, if no key stands twice in a committee.
fn pairs(
    alloc: Global,
    namespace: &[u8],
    epochs: &[u64],
    sizes: &[u32],
    keys: &[u8],
) -> Result<Option<Vec<(Epoch, Plain)>>, AllocError>
    requires same { length epochs.now ≡ length sizes.now }
    requires members { All (λ n. 1 ≤ n) sizes.now }
    requires length { length keys.now ≡ 32 * sum sizes.now }
    ensures epochs { IfOk result (λ found. IfSome found (λ pairs.
        map (λ p. p.0) pairs.items ≡ epochs.now)) }
    ensures committees { IfOk result (λ found. IfSome found (λ pairs.
        AllZip (λ part p. IsPlainCommittee namespace.now (keys_in part) p.1)
        (parts_of sizes.now keys.now) pairs.items)) }
    ensures none { result ≡ Ok None → ¬ All HasNoKeyTwice (parts_of sizes.now keys.now) }
{
    let mut pairs = Vec::new(alloc);
    let mut rest: &[u8] = keys;
    'epochs: for i in 0..epochs.len() {
        let (own, behind) = rest.split_at(32 * sizes[i] as usize);
        match committee(alloc, namespace, own)? {
            Some(committee) => pairs.push((Epoch::new(epochs[i]), committee))?,
            None => return Ok(None),
        }
        rest = behind;
    }
    Ok(Some(pairs))
}

/// The committees of these keys, of 32 bytes each, under this base: without epochs one for every epoch; else for each epoch
/// one of as many of the keys as the size at its place says, the first committee's first. Those of a committee stand in any
/// order: a participant's number is the place of its key among them in ascending order. `None` if there are no such
/// committees: the sizes are those of none, as [`sizes::committees`] says; the keys have not 32 bytes for each participant;
/// or a key stands twice in a committee. `AllocError` only where an allocation failed, and only if sizes and length are right.
pub fn committees(
    alloc: Global,
    namespace: &[u8],
    epochs: &[u64],
    sizes: &[u32],
    keys: &[u8],
) -> Result<Option<Committees<Plain>>, AllocError>
    ensures some { IfOk result (λ answer.
        IfSome answer (AreOfKeys namespace.now epochs.now sizes.now keys.now)) }
    ensures none { result ≡ Ok None → ¬ AreKeys epochs.now sizes.now keys.now }
    ensures length { IfOk result (λ answer.
        IfSome answer (λ _. IsLengthOfKeys epochs.now sizes.now (length keys.now))) }
    ensures memory { IfErr result (λ _. IsLengthOfKeys epochs.now sizes.now (length keys.now)) }
{
    if !have_length(epochs, sizes, keys.len()) {
        return Ok(None);
    }
    if epochs.is_empty() {
        return match committee(alloc, namespace, keys)? {
            Some(committee) => Ok(Some(Committees::every(committee))),
            None => Ok(None),
        };
    }
    match pairs(alloc, namespace, epochs, sizes, keys)? {
        Some(pairs) => match Committees::try_from_vec(pairs) {
            Ok(committees) => Ok(Some(committees)),
            Err(_) => Ok(None),
        },
        None => Ok(None),
    }
}

/// Whether they are the keys of committees of these sizes.
fn are_keys(alloc: Global, epochs: &[u64], sizes: &[u32], keys: &[u8]) -> Result<bool, AllocError>
    ensures keys { IfOk result (λ yes. IsTrue yes ↔ AreKeys epochs.now sizes.now keys.now) }
    ensures memory { IfErr result (λ _. IsLengthOfKeys epochs.now sizes.now (length keys.now)) }
{
    // Which namespace the committees have does not matter here.
    Ok(committees(alloc, &[], epochs, sizes, keys)?.is_some())
}

/// Why there are no committees of these keys, if there are none: the first refusal. `AllocError` only where an allocation
/// failed before it was known whether a key stands twice; all before that is accepted then.
pub fn refusal(
    alloc: Global,
    epochs: &[u64],
    sizes: &[u32],
    keys: &[u8],
) -> Result<Option<Refusal>, AllocError>
    ensures first { IfOk result (λ refusal.
        IsFirstRefusal (AskedOfKeys epochs.now sizes.now keys.now) (refusal_code refusal)) }
    ensures accepted { IfOk result (λ refusal.
        refusal ≡ None ↔ AreKeys epochs.now sizes.now keys.now) }
    ensures memory { IfErr result (λ _. IsLengthOfKeys epochs.now sizes.now (length keys.now)) }
{
    if let Some(refusal) = sizes::refusal(epochs, sizes) {
        return Ok(Some(refusal));
    }
    if !is_length_of_keys(sizes, keys.len()) {
        return Ok(Some(Refusal::Length));
    }
    if !are_keys(alloc, epochs, sizes, keys)? {
        return Ok(Some(Refusal::Repeated));
    }
    Ok(None)
}
