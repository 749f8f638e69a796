//! Certificates that list their attestations.

ghost use Rattle.std.specs.Prelude.{◌≡◌, ◌+◌, ◌*◌, ◌/◌, ℕ, min, ◌<◌, ◌≤◌, ◌^◌, [], List, IfOk, length, true, false};
ghost use Rattle.std.specs.Hash as fed;
ghost use Rattle.std.specs.Vec.{vec_capacity};
ghost use Rattle.std.specs.Cmp.Lexicographic.{pointwise, lists_per};
ghost use Rattle.std.specs.Cmp.Rules.{comparing, hashing};
ghost use Rattle.std.proofs.Common.{rules};
ghost use Rattle.std.proofs.lemmas.Cmp.{lists_equiv};
ghost use Rattle.simplex_base.specs.Finality.{IsFinal};
ghost use Rattle.simplex_base.specs.Format.{format_of};
ghost use Rattle.simplex_base.specs.Reading.{Gives};
ghost use Rattle.simplex_scheme.specs.declared.scheme.Attestation.{Attestation};
ghost use Rattle.simplex_schemes.specs.Listed.{AreListed, ListedFits, listed_encoding, attestation_at, attestations_at, listed_at};
ghost use Rattle.simplex_schemes.specs.ListedLaws.{listed_lawful};
ghost use Rattle.simplex_schemes.specs.Skimmed.{IsRefused};

use simplex_base::codec::counted::{size_counted, write_counted};
use simplex_base::codec::parts::known_bytes;
use simplex_base::codec::varint::read_u32;
use simplex_base::codec::{EncodeSize, Encoding, Error, Fixed, Read, Write};
use simplex_scheme::scheme::{Attestation, SchemeTypes};
use std::alloc::{AllocError, Global};
use std::hash::{Hash, Hasher};
use std::marker::Model;

/// From 1 to 2^32 - 1 attestations with strictly ascending signers, encoded as their count, 1 to 5
/// bytes, and the attestations one after another: for n participants at most 5 + n (5 + s) bytes,
/// signatures having s.
#[derive(Drop)]
pub struct Listed<S: SchemeTypes> {
    attestations: Vec<Attestation<S>>,
}

impl<S: SchemeTypes> Model for Listed<S> {
    ghost use Rattle.std.specs.Prelude.{List};
    ghost use Rattle.simplex_scheme.specs.declared.scheme.Attestation.{Attestation};

    ghost Value = { List (Attestation S S.PublicKey S.Signature) };

    ghost use Rattle.simplex_schemes.specs.Listed.{AreListed};

    ghost view = { λ listed. listed.attestations.items };

    ghost invariant = { λ listed. AreListed listed.attestations.items };
}

impl<S: SchemeTypes> Listed<S> {
    /// The certificate of these attestations, from 1 to 2^32 - 1 with strictly ascending signers. It allocates
    /// nothing.
    pub(crate) fn from_ascending(attestations: Vec<Attestation<S>>) -> Listed<S>
        requires { AreListed attestations.items }
        ensures { result ≡ attestations.items }
    {
        Listed { attestations }
    }

    /// The attestations, by ascending signer.
    pub fn attestations(&self) -> &[Attestation<S>]
        ensures value { result.now ≡ self.now }
        ensures listed { AreListed self.now }
    {
        self.attestations.as_slice()
    }
}

/// A certificate that is a list of attestations. A scheme gives its certificates a type of their own. A bound at a type without
/// parameters asks for nothing else; each bound at [`Listed`] asks for all that the types of its scheme have.
pub trait Lists<S: SchemeTypes> {
    ghost use Rattle.std.specs.Prelude.{List};
    ghost use Rattle.simplex_scheme.specs.declared.scheme.Attestation.{Attestation};

    /// The attestations.
    ghost list: { Self → List (Attestation S S.PublicKey S.Signature) };

    /// The list of its attestations.
    fn as_listed(&self) -> &Listed<S>
        ensures { result.now ≡ list self.now };
}

impl<S: SchemeTypes> Lists<S> for Listed<S> {
    ghost list = { λ listed. listed };

    fn as_listed(&self) -> &Listed<S> {
        self
    }
}

impl<S: SchemeTypes> Clone for Listed<S> {
    ghost is_clone = { λ listed copy. copy ≡ listed };

    fn clone(&self) -> Result<Self, AllocError> {
        let attestations = self.attestations.clone()?;
        Ok(Listed { attestations })
    }
}

impl<S: SchemeTypes> PartialEq for Listed<S> {
    ghost eq = { pointwise ⟦<Attestation<S> as PartialEq>⟧.eq };

    ghost laws = { lists_per (Prim.search (comparing, rules)) };

    fn eq(&self, other: &Listed<S>) -> bool {
        self.attestations == other.attestations
    }
}

impl<S: SchemeTypes> Eq for Listed<S> {
    ghost laws = { lists_equiv (Prim.search (comparing, rules)) };
}

impl<S: SchemeTypes> Hash for Listed<S>
where
    S::Signature: Hash,
{
    ghost hash_input = { fed.slice ⟦<Attestation<S> as Hash>⟧.hash_input };

    ghost respects_eq = { (fed.items_Alike {E = ⟦<Attestation<S> as PartialEq>⟧.eq}
        {F = ⟦<Attestation<S> as Hash>⟧.hash_input} (Prim.search (hashing, rules))).fed };

    fn hash<H: Hasher>(&self, state: &mut H) {
        self.attestations.hash(state);
    }
}

impl<S: SchemeTypes> Encoding for Listed<S> {
    ghost is_value = { ListedFits (format_of ⟦<S::Signature as Read>⟧) (2 ^ 32) };

    ghost encoding = { listed_encoding (format_of ⟦<S::Signature as Read>⟧) };
}

impl<S: SchemeTypes> Write for Listed<S> {
    fn write(&self, buf: &mut Vec<u8>) -> Result<(), AllocError> {
        write_counted(self.attestations(), buf)
    }
}

impl<S: SchemeTypes> EncodeSize for Listed<S> {
    ghost limit = { 2 ^ 50 };

    fn encode_size(&self) -> usize {
        size_counted(self.attestations())
    }
}

/// A certificate lists no more attestations than its encoding has bytes.
pub fn lists_within<S: SchemeTypes>()
    ensures { (certificate : List (Attestation S S.PublicKey S.Signature)) →
        length certificate ≤ length
        (listed_encoding (format_of ⟦<S::Signature as Read>⟧) certificate) }
{}

/// A refusal but `EndOfBuffer` is the refusal of every longer input too, and bytes that `EndOfBuffer` refuses are fewer than
/// the greatest certificate has.
pub fn listed_refusals_are_final<S: SchemeTypes>()
    ensures { (bound : ℕ) → IsFinal (⟦<Listed<S> as Read>⟧.reading bound)
        (5 + bound * (5 + S.Signature.SIZE)) }
{}

/// A certificate is read under a bound, the number of participants. `Invalid` where the count is 0 or above the
/// bound, before any attestation is read, and right after an attestation whose signer is not below the bound, or not
/// above the one before it. `OutOfMemory` where the allocation for the attestations failed: it is of as many as the
/// bytes after the count can hold, and of the count at most.
impl<S: SchemeTypes> Read for Listed<S> {
    type Cfg = u32;

    ghost fits = { ListedFits (format_of ⟦<S::Signature as Read>⟧) };

    ghost reading = { listed_at (format_of ⟦<S::Signature as Read>⟧) };

    ghost takes_memory = { true };

    fn read_cfg(alloc: Global, input: &mut &[u8], bound: &u32) -> Result<Self, Error> {
        let bound = *bound;
        let mut rest: &[u8] = *input;
        let count = read_u32(&mut rest)?;
        if count == 0 || count > bound {
            return Err(Error::Invalid("simplex_messages::Listed", "count out of range"));
        }
        match read_attestations(alloc, &mut rest, bound, count) {
            Ok(listed) => {
                *input = rest;
                Ok(listed)
            }
            Err(error) => Err(error),
        }
    }

    fn least_size(alloc: Global, bytes: &[u8], bound: &u32) -> usize {
        let mut rest: &[u8] = known_bytes(bytes);
        let Ok(count) = read_u32(&mut rest) else {
            return bytes.len();
        };
        let (rest, left) = skim::<S>(alloc, rest, *bound, count);
        let read = bytes.len() - rest.len();
        if left > 0 && 5 + S::Signature::SIZE <= rest.len() {
            return usize::MAX;
        }
        read.saturating_add((left as usize).saturating_mul(1 + S::Signature::SIZE))
    }

    ghost lawful = { λ bound.
        listed_lawful (format_of ⟦<S::Signature as Read>⟧) bound S.Signature.lawful };
}

/// An empty list with the capacity for as many attestations as the bytes can hold, and for the count at most. Each
/// attestation takes at least one byte and those of its signature.
fn with_room_for<S: SchemeTypes>(
    alloc: Global,
    bytes: &[u8],
    count: u32,
) -> Result<Vec<Attestation<S>>, AllocError>
    ensures empty { IfOk result (λ listed. listed.items ≡ []) }
    ensures room { IfOk result (λ listed.
        vec_capacity listed ≡ min (length bytes.now / (1 + S.Signature.SIZE)) count) }
{
    let held = bytes.len() / (1 + S::Signature::SIZE);
    Vec::with_capacity(alloc, held.min(count as usize))
}

/// Reads attestations as far as they go, up to this many. Returns the bytes after them, and how many are missing.
fn skim<S: SchemeTypes>(alloc: Global, bytes: &[u8], bound: u32, count: u32) -> (&[u8], u32)
    ensures refused { IsRefused S S.PublicKey (format_of ⟦<S::Signature as Read>⟧) bound count
        bytes.now result.0.now result.1 }
    ensures within { length result.0.now ≤ length bytes.now }
{
    let mut rest: &[u8] = known_bytes(bytes);
    let mut least = 0;
    'attestations: for read in 0..count {
        let one: Attestation<S> = match read_attestation(alloc, &mut rest, bound, least) {
            Ok(one) => one,
            Err(_) => return (rest, count - read),
        };
        least = one.signer.get() + 1;
    }
    (rest, 0)
}

/// Reads a number of attestations with ascending signers below the bound.
fn read_attestations<S: SchemeTypes>(
    alloc: Global,
    input: &mut &[u8],
    bound: u32,
    count: u32,
) -> Result<Listed<S>, Error>
    requires { 0 < count }
    ensures { Gives true result input.old.now input.new.now
        (attestations_at (format_of ⟦<S::Signature as Read>⟧) bound 0 count input.old.now) }
{
    let mut rest: &[u8] = known_bytes(*input);
    let Ok(mut attestations) = with_room_for(alloc, rest, count) else {
        return Err(Error::OutOfMemory);
    };
    let mut least = 0;
    'attestations: for _ in 0..count {
        let attestation: Attestation<S> = match read_attestation(alloc, &mut rest, bound, least) {
            Ok(attestation) => attestation,
            Err(error) => return Err(error),
        };
        least = attestation.signer.get() + 1;
        if attestations.push(attestation).is_err() {
            return Err(Error::OutOfMemory);
        }
    }
    *input = rest;
    Ok(Listed::from_ascending(attestations))
}

/// Reads an attestation whose signer is from `least` on and below the bound.
fn read_attestation<S: SchemeTypes>(
    alloc: Global,
    input: &mut &[u8],
    bound: u32,
    least: u32,
) -> Result<Attestation<S>, Error>
    ensures below { IfOk result (λ attestation. attestation.signer < bound) }
    ensures gives { Gives false result input.old.now input.new.now
        (attestation_at (format_of ⟦<S::Signature as Read>⟧) bound least input.old.now) }
{
    let mut rest: &[u8] = *input;
    let attestation: Attestation<S> = match Read::read_cfg(alloc, &mut rest, &()) {
        Ok(attestation) => attestation,
        Err(error) => return Err(error),
    };
    let signer = attestation.signer.get();
    if signer < least || bound <= signer {
        return Err(Error::Invalid("simplex_messages::Listed", "signers out of order or range"));
    }
    *input = rest;
    Ok(attestation)
}
