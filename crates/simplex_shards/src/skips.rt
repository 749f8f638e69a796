//! Parts of messages that are skipped: where they end is found without decoding them.

ghost use Rattle.std.specs.Prelude.{◌≡◌, ◌<◌, Bool, true, None, Ok, IfSome};
ghost use Rattle.simplex_base.specs.Format.{both, both_at, format_of};
ghost use Rattle.simplex_base.specs.Positions.{round_format};
ghost use Rattle.simplex_base.specs.Varint.{number_32, number_64};
ghost use Rattle.simplex_scheme.specs.Attestation.{attestation_format};
ghost use Rattle.simplex_scheme.specs.declared.scheme.Attestation.{Attestation};
ghost use Rattle.simplex_schemes.specs.Listed.{attestations_at, listed_at};
ghost use Rattle.simplex_shards.specs.Skips.{IsRefused, Skips, SkipsBoth, SkipsBy};

use simplex_base::codec::fixed_bytes::Role;
use simplex_base::codec::parts::split_fixed;
use simplex_base::codec::varint::{read_u32, read_u64};
use simplex_base::codec::{Fixed, Read};
use simplex_scheme::scheme::{Digest, Listing, SchemeTypes};
use simplex_schemes::marked::Marked;
use simplex_schemes::plain::Plain;
use simplex_schemes::vouched::Vouched;

/// A scheme whose certificates may be skipped.
pub trait SkipCertificate<D: Digest>: Listing<D> {
    /// Whether every certificate that is read is skipped.
    ghost skips_all: { Bool };

    /// The bytes after the certificate that begins these, if it is read under a bound. After `None` a certificate has to be
    /// decoded, unless all are skipped: then none begins these bytes. Nothing is allocated. A scheme whose certificates are
    /// always decoded returns `None`.
    fn skip_certificate(bytes: &[u8], bound: u32) -> Option<&[u8]>
        ensures rest { IfSome result (λ rest. Skips (Self.Certificate.reading bound) bytes.now rest.now) }
        ensures none { skips_all ≡ true → result ≡ None →
            IsRefused (Self.Certificate.reading bound) bytes.now };
}

impl<D: Digest> SkipCertificate<D> for Marked {
    ghost skips_all = { true };

    fn skip_certificate(bytes: &[u8], bound: u32) -> Option<&[u8]> {
        skip_listed::<Self>(bytes, bound)
    }
}

impl<D: Digest> SkipCertificate<D> for Plain {
    ghost skips_all = { true };

    fn skip_certificate(bytes: &[u8], bound: u32) -> Option<&[u8]> {
        skip_listed::<Self>(bytes, bound)
    }
}

impl<D: Digest, R: Role<N>, const N: usize> SkipCertificate<D> for Vouched<R, N> {
    ghost skips_all = { true };

    fn skip_certificate(bytes: &[u8], bound: u32) -> Option<&[u8]> {
        skip_listed::<Self>(bytes, bound)
    }
}

/// A 64-bit number, and the bytes after it.
fn take_u64(bytes: &[u8]) -> Option<(u64, &[u8])>
    ensures rest { IfSome result (λ (number, rest). number_64.reading bytes.now ≡ Ok (number, rest.now)) }
    ensures none { result ≡ None → IsRefused number_64.reading bytes.now }
{
    let mut rest: &[u8] = bytes;
    match read_u64(&mut rest) {
        Ok(number) => Some((number, rest)),
        Err(_) => None,
    }
}

/// A 32-bit number, and the bytes after it.
fn take_u32(bytes: &[u8]) -> Option<(u32, &[u8])>
    ensures rest { IfSome result (λ (number, rest). number_32.reading bytes.now ≡ Ok (number, rest.now)) }
    ensures none { result ≡ None → IsRefused number_32.reading bytes.now }
{
    let mut rest: &[u8] = bytes;
    match read_u32(&mut rest) {
        Ok(number) => Some((number, rest)),
        Err(_) => None,
    }
}

/// The bytes after a value of a fixed size.
fn skip_fixed<T: Fixed>(bytes: &[u8]) -> Option<&[u8]>
    ensures rest { IfSome result (λ rest. Skips (⟦<T as Read>⟧.reading tt) bytes.now rest.now) }
    ensures none { result ≡ None → IsRefused (⟦<T as Read>⟧.reading tt) bytes.now }
{
    let (_, rest) = split_fixed::<T>(bytes)?;
    Some(rest)
}

/// The epoch and the view of a round, and the bytes after it.
pub(crate) fn take_round(bytes: &[u8]) -> Option<(u64, u64, &[u8])>
    ensures rest { IfSome result (λ (epoch, view, rest).
        round_format.reading bytes.now ≡ Ok (record { epoch = epoch; view = view }, rest.now)) }
    ensures none { result ≡ None → IsRefused round_format.reading bytes.now }
{
    let (epoch, rest) = take_u64(bytes)?;
    let (view, rest) = take_u64(rest)?;
    Some((epoch, view, rest))
}

/// The bytes after what a proposal has behind its round.
pub(crate) fn skip_payload<D: Digest>(bytes: &[u8]) -> Option<&[u8]>
    ensures rest { IfSome result (λ rest.
        Skips (both number_64 (format_of ⟦<D as Read>⟧)).reading bytes.now rest.now) }
    ensures none { result ≡ None → IsRefused (both number_64 (format_of ⟦<D as Read>⟧)).reading bytes.now }
{
    let (_, rest) = take_u64(bytes)?;
    skip_fixed::<D>(rest)
}

/// The signer of an attestation, and the bytes after it.
pub(crate) fn skip_attestation<S: SchemeTypes>(bytes: &[u8]) -> Option<(u32, &[u8])>
    ensures rest { IfSome result (λ (signer, rest).
        SkipsBy {T = Attestation S S.PublicKey S.Signature} (λ attestation. attestation.signer ≡ signer)
        (attestation_format (format_of ⟦<S::Signature as Read>⟧)).reading bytes.now rest.now) }
    ensures none { result ≡ None → IsRefused {T = Attestation S S.PublicKey S.Signature}
        (attestation_format (format_of ⟦<S::Signature as Read>⟧)).reading bytes.now }
{
    let (signer, rest) = take_u32(bytes)?;
    Some((signer, skip_fixed::<S::Signature>(rest)?))
}

/// The bytes after a number of attestations with ascending signers below the bound.
fn skip_attestations<S: SchemeTypes>(bytes: &[u8], bound: u32, count: u32) -> Option<&[u8]>
    ensures rest { IfSome result (λ rest. Skips
        (attestations_at {S = S} {P = S.PublicKey} (format_of ⟦<S::Signature as Read>⟧) bound 0 count)
        bytes.now rest.now) }
    ensures none { result ≡ None → IsRefused
        (attestations_at {S = S} {P = S.PublicKey} (format_of ⟦<S::Signature as Read>⟧) bound 0 count)
        bytes.now }
{
    let mut rest: &[u8] = bytes;
    let mut least = 0;
    'attestations: for _ in 0..count {
        let (signer, behind) = skip_attestation::<S>(rest)?;
        if signer < least || bound <= signer {
            return None;
        }
        rest = behind;
        least = signer + 1;
    }
    Some(rest)
}

/// The bytes after the [`Listed`](simplex_schemes::listed::Listed) certificate that begins these, if it is read under a bound:
/// from 1 to as many attestations, with ascending signers below the bound. A scheme with such certificates implements
/// [`SkipCertificate`] by this call. `None` if no such certificate begins the bytes. Nothing is allocated.
pub fn skip_listed<S: SchemeTypes>(bytes: &[u8], bound: u32) -> Option<&[u8]>
    ensures rest { IfSome result (λ rest. Skips
        (listed_at {S = S} {P = S.PublicKey} (format_of ⟦<S::Signature as Read>⟧) bound)
        bytes.now rest.now) }
    ensures none { result ≡ None → IsRefused
        (listed_at {S = S} {P = S.PublicKey} (format_of ⟦<S::Signature as Read>⟧) bound) bytes.now }
{
    let (count, rest) = take_u32(bytes)?;
    if count == 0 || count > bound {
        return None;
    }
    skip_attestations::<S>(rest, bound, count)
}

/// The bytes after a proposal, from those after its round on, and an attestation.
pub(crate) fn skip_signed<S: SchemeTypes, D: Digest>(bytes: &[u8]) -> Option<&[u8]>
    ensures rest { IfSome result (λ rest. SkipsBoth (both number_64 (format_of ⟦<D as Read>⟧)).reading
        (attestation_format {S = S} {P = S.PublicKey} (format_of ⟦<S::Signature as Read>⟧)).reading
        bytes.now rest.now) }
    ensures none { result ≡ None → IsRefused (both (both number_64 (format_of ⟦<D as Read>⟧))
        (attestation_format {S = S} {P = S.PublicKey} (format_of ⟦<S::Signature as Read>⟧))).reading bytes.now }
{
    let rest = skip_payload::<D>(bytes)?;
    let (_, rest) = skip_attestation::<S>(rest)?;
    Some(rest)
}

/// The bytes after a proposal, from those after its round on, and a certificate that is read under a bound.
pub(crate) fn skip_certified<S: SkipCertificate<D>, D: Digest>(
    bytes: &[u8],
    bound: u32,
) -> Option<&[u8]>
    ensures rest { IfSome result (λ rest. SkipsBoth (both number_64 (format_of ⟦<D as Read>⟧)).reading
        (S.Certificate.reading bound) bytes.now rest.now) }
    ensures none { S.skips_all ≡ true → result ≡ None → IsRefused
        (both_at (both number_64 (format_of ⟦<D as Read>⟧)).reading (S.Certificate.reading bound)) bytes.now }
{
    let rest = skip_payload::<D>(bytes)?;
    S::skip_certificate(rest, bound)
}
