//! Schemes of test vectors: a committee of either scheme, and the participant that signs, if there is one.

ghost use Rattle.std.specs.Prelude.{◌≤◌, ◌<◌, ◌^◌, length, IfOk};

use crate::vectors::{Unanswered, bytes, committee_size, participant, small};
use simplex_base::codec::Fixed;
use simplex_base::positions::Participant;
use simplex_scheme::scheme::Set;
use simplex_schemes::marked::Marked;
use simplex_schemes::plain::{Plain, PlainKey};
use std::alloc::{AllocError, Global};

/// The marked scheme of a committee of `N` participants, or by `N/SIGNER` that of this participant of it.
pub(crate) fn marked(alloc: Global, word: &str) -> Result<Marked, Unanswered> {
    match word.split_once('/') {
        None => Ok(Marked::new(alloc, committee_size(word)?, None)?),
        Some((size, signer)) => {
            let (size, signer) = (committee_size(size)?, participant(signer)?);
            if signer.get() >= size {
                return Err(Unanswered::NoVector);
            }
            Ok(Marked::new(alloc, size, Some(signer))?)
        }
    }
}

/// The plain scheme under a base, of a committee of `N` participants, whose keys have the numbers from 0 on, or by `FIRST+N`
/// from FIRST on; or that of a participant of it, as for [`marked`].
pub(crate) fn plain(alloc: Global, base: &str, word: &str) -> Result<Plain, Unanswered> {
    let base = bytes(alloc, &[base])?;
    match word.split_once('/') {
        None => {
            let keys = numbered_keys(alloc, word)?;
            Ok(Plain::verifier(alloc, base.as_slice(), keys)?)
        }
        Some((committee, signer)) => {
            let keys = numbered_keys(alloc, committee)?;
            signing(alloc, base.as_slice(), keys, participant(signer)?)
        }
    }
}

/// The plain scheme of a participant of a committee.
fn signing(
    alloc: Global,
    base: &[u8],
    keys: Set<PlainKey>,
    signer: Participant,
) -> Result<Plain, Unanswered>
    requires { (1 ≤ length keys) × (length keys < 2 ^ 32) }
{
    let Some(own) = keys.get(signer.get() as usize) else {
        return Err(Unanswered::NoVector);
    };
    let own = *own;
    Plain::signer(alloc, base, keys, &own)?.ok_or(Unanswered::NoVector)
}

/// The plain keys of a committee, `N` of them or `FIRST+N`.
fn numbered_keys(alloc: Global, word: &str) -> Result<Set<PlainKey>, Unanswered>
    ensures { IfOk result (λ keys. (1 ≤ length keys) × (length keys < 2 ^ 32)) }
{
    let (first, end) = numbers(word)?;
    let mut keys = Vec::new(alloc);
    for number in first..end {
        keys.push(numbered_key(Participant::new(number)))
            .map_err(AllocError::from)?;
    }
    let Ok(keys) = Set::try_from_vec(keys) else {
        return Err(Unanswered::NoVector);
    };
    if keys.is_empty() || keys.len() > 4_294_967_295 {
        return Err(Unanswered::NoVector);
    }
    Ok(keys)
}

/// The number of the first key of a committee, and the one behind its last.
fn numbers(word: &str) -> Result<(u32, u32), Unanswered> {
    let (first, size) = match word.split_once('+') {
        None => (0, committee_size(word)?),
        Some((first, size)) => (small(first)?, committee_size(size)?),
    };
    match first.checked_add(size) {
        Some(end) => Ok((first, end)),
        None => Err(Unanswered::NoVector),
    }
}

/// The key whose 32 bytes are the number of the participant, the most significant first.
fn numbered_key(participant: Participant) -> PlainKey {
    let mut key = [0; 32];
    key[28..].copy_from_slice(&participant.get().to_be_bytes());
    PlainKey::from_bytes(&key)
}
