//! Which attestations of a list are the same, the verdicts apart.

ghost use Rattle.std.specs.Prelude.{◌≡◌, ◌-◌, IfOk, OnOk, Some, drop, take};
ghost use Rattle.std.specs.Option.{option_or};
ghost use Rattle.std.specs.BTreeMap.{get};
ghost use Rattle.simplex_places.specs.FirstPlaces.{found_if};
ghost use Rattle.simplex_places.specs.Repeats.{AreWithFirsts, signature_at, subject_at};

use crate::places::AttestationPlace;
use std::alloc::{AllocError, Global};
use std::collections::BTreeMap;

/// An attestation that has to be verified.
#[repr(C)]
#[derive(Clone, Copy, Debug, PartialEq, Eq)]
pub struct Unverified {
    /// Where it stands.
    pub attestation: AttestationPlace,
    /// The 0-based index in the list of the first attestation that is the same: its own index if no earlier one is. Of those
    /// that are the same, the verdicts are the same, so only the first has to be verified.
    pub first: usize,
}

/// By what two attestations are the same: the kind, the signer, and the bytes of the subject and of the signature.
#[derive(PartialEq, Eq, PartialOrd, Ord, Drop)]
struct SignedBytes<'a> {
    kind: u32,
    signer: u32,
    subject: &'a [u8],
    signature: &'a [u8],
}

/// So many bytes from an offset on, as far as there are.
fn bytes_at(bytes: &[u8], place: usize, length: usize) -> &[u8]
    ensures { result.now ≡ take length (drop place bytes.now) }
{
    if place >= bytes.len() {
        return &[];
    }
    let tail = &bytes[place..];
    if length >= tail.len() {
        return tail;
    }
    &tail[..length]
}

/// What an attestation is compared by.
fn signed_bytes<'a>(stream: &'a [u8], size: usize, place: &AttestationPlace) -> SignedBytes<'a>
    ensures kind { result.kind ≡ place.now.kind }
    ensures signer { result.signer ≡ place.now.signer }
    ensures subject { result.subject.now ≡ subject_at stream.now place.now }
    ensures signature { result.signature.now ≡ signature_at stream.now size place.now }
{
    let start = place.verdict_place.saturating_sub(size);
    SignedBytes {
        kind: place.kind,
        signer: place.signer,
        subject: bytes_at(stream, place.subject_place, place.subject_length),
        signature: bytes_at(stream, start, size),
    }
}

/// The index that a key has; it gets this one if it has none.
fn first_of<K: Ord + Drop>(
    firsts: &mut BTreeMap<K, usize>,
    key: K,
    index: usize,
) -> Result<usize, AllocError>
    ensures first { IfOk result (λ first.
        Some first ≡ option_or (get K.cmp firsts.old key) (Some index)) }
    ensures noted { OnOk result ((other : K) → get K.cmp firsts.new other ≡
        option_or (get K.cmp firsts.old other) (found_if index (K.eq key other))) }
{
    if let Some(first) = firsts.get(&key) {
        return Ok(*first);
    }
    firsts.insert(key, index)?;
    Ok(index)
}

/// These attestations of a stream, each with the index of the first of them that is the same, the verdicts apart. A signature
/// has `size` bytes before its verdict. It takes n log n comparisons for n attestations, and room for them. `AllocError` is
/// returned only after an allocation failed.
pub fn with_firsts(
    alloc: Global,
    stream: &[u8],
    size: usize,
    places: &[AttestationPlace],
) -> Result<Vec<Unverified>, AllocError>
    ensures { IfOk result (λ listed. AreWithFirsts stream.now size places.now listed.items) }
{
    let mut firsts = BTreeMap::new(alloc);
    let mut listed = Vec::with_capacity(alloc, places.len())?;
    'places: for place in places {
        let key = signed_bytes(stream, size, place);
        let first = first_of(&mut firsts, key, listed.len())?;
        listed.push(Unverified {
            attestation: *place,
            first,
        })?;
    }
    Ok(listed)
}
