//! Messages in bytes, written from numbers and signatures.

ghost use Rattle.std.specs.Prelude.{◌≡◌, ◌≢◌, ◌==◌, ◌⊎◌, ◌+◌, ◌*◌, ◌<◌, ◌^◌, ◌++◌, ◌∷◌, ◌↔◌, All, List, Some, None, IsTrue, IfOk, OnOk, OnErr, length};
ghost use Rattle.simplex_base.specs.Format.{format_of};
ghost use Rattle.simplex_scheme.specs.Subject.{IsSubject, message_of};
ghost use Rattle.simplex_schemes.specs.Listed.{AreListed, ListedFits, listed_encoding};
ghost use Rattle.simplex_border.specs.Signatures.{ForSizes, IsSignatureSize};
ghost use Rattle.simplex_ffi.specs.Messages.{AreSigners, IsCertificateKind, IsVoteByNumbers, IsWritten, attestations_by, certificate_message, certificate_tag, said_value, signature_bytes, subject_by, vote_message, votes_listed};

use crate::votes::{Said, put_bytes, said_by};
use simplex_base::codec::counted::{size_counted, write_counted};
use simplex_base::codec::fixed_bytes::Role;
use simplex_base::codec::{EncodeSize, Encoding, Fixed, Read, Write};
use simplex_base::positions::Participant;
use simplex_border::answer::{ARGUMENTS, MEMORY};
use simplex_border::signatures::{VouchedSize, vouched_size};
use simplex_evidence::types::Activity;
use simplex_scheme::scheme::{
    Attestation, CertificateScheme, Digest, Listing, SchemeTypes, Set, Sha256Digest,
};
use simplex_schemes::plain::Plain;
use simplex_schemes::vouched::{Role48, Role64, Role96, Vouched};
use simplex_votes::types::{Finalize, Notarize, Nullify};
use std::alloc::{AllocError, Global};

/// The greatest number of signers of a certificate.
const MOST_SIGNERS: usize = 4_294_967_295;

/// The attestation of a signer, with this signature.
fn attestation_of<S: SchemeTypes>(signer: u32, signature: &[u8]) -> Attestation<S>
    requires { length signature.now ≡ S.Signature.SIZE }
    ensures { result ≡
        record { signer = signer; signature = S.Signature.of_bytes signature.now } }
{
    Attestation {
        signer: Participant::new(signer),
        signature: S::Signature::from_bytes(signature),
    }
}

/// A vote as a message.
fn vote_message<S: CertificateScheme, D: Digest>(
    said: Said<D>,
    attestation: Attestation<S>,
) -> Activity<S, D>
    ensures { result ≡ vote_message (said_value said) attestation }
{
    match said {
        Said::Notarize(proposal) => Activity::Notarize(Notarize {
            proposal,
            attestation,
        }),
        Said::Nullify(round) => Activity::Nullify(Nullify { round, attestation }),
        Said::Finalize(proposal) => Activity::Finalize(Finalize {
            proposal,
            attestation,
        }),
    }
}

/// The bytes of a message, in memory of exactly their size.
fn bytes_of<S: CertificateScheme, D: Digest>(
    alloc: Global,
    message: &Activity<S, D>,
) -> Result<Vec<u8>, AllocError>
    ensures bytes { IfOk result (λ bytes.
        bytes.items ≡ ⟦<Activity<S, D> as Encoding>⟧.encoding message.now) }
    ensures value { ⟦<Activity<S, D> as Encoding>⟧.is_value message.now }
{
    let mut bytes = Vec::with_capacity(alloc, message.encode_size())?;
    message.write(&mut bytes)?;
    Ok(bytes)
}

/// Puts a vote, as a message, at the start of a buffer, and writes how many bytes it has. The status is
/// [`WHOLE`](simplex_border::answer::WHOLE), [`MEMORY`] or [`SHORT`](simplex_border::answer::SHORT), or [`ARGUMENTS`] if the
/// signature has not the bytes that signatures have. Nothing is written after [`ARGUMENTS`] and [`MEMORY`].
fn put_vote<S: CertificateScheme, D: Digest>(
    alloc: Global,
    said: Said<D>,
    signer: u32,
    signature: &[u8],
    buffer: &mut [u8],
    size: &mut usize,
) -> u32
    ensures written { result ≢ 2 → result ≢ 3 → IsWritten
        ⟦<Activity<S, D> as Encoding>⟧.is_value ⟦<Activity<S, D> as Encoding>⟧.encoding
        (vote_message (said_value said)
        (record { signer = signer; signature = S.Signature.of_bytes signature.now }))
        buffer.old buffer.new size.new result }
    ensures taken { result ≢ 2 → length signature.now ≡ S.Signature.SIZE }
    ensures refused { result ≡ 2 → length signature.now ≢ S.Signature.SIZE }
    ensures untouched { (result ≡ 2) ⊎ (result ≡ 3) →
        (buffer.new ≡ buffer.old) × (size.new ≡ size.old) }
{
    if signature.len() != S::Signature::SIZE {
        return ARGUMENTS;
    }
    let message: Activity<S, D> = vote_message(said, attestation_of(signer, signature));
    let Ok(bytes) = bytes_of(alloc, &message) else {
        return MEMORY;
    };
    put_bytes(&bytes, buffer, size)
}

/// Puts a vote, as a message, at the start of a buffer, and writes how many bytes it has. Signatures have so many bytes: 32
/// under the plain scheme; or 48, 64 or 96, each with the caller's verdict behind it, which stands behind the signature that is
/// given and is copied as it is. What the vote says is given as to [`signed_bytes_of`](crate::votes::signed_bytes_of). The
/// status is [`WHOLE`](simplex_border::answer::WHOLE), [`MEMORY`] or [`SHORT`](simplex_border::answer::SHORT); or [`ARGUMENTS`]
/// if signatures have no such size, the signature has another size, or the numbers are of no vote. Nothing is written after
/// [`ARGUMENTS`] and [`MEMORY`]. If the buffer is too short it is as before, and the length that is needed is written.
pub fn write_vote(
    alloc: Global,
    signature: u32,
    kind: u32,
    epoch: u64,
    view: u64,
    parent: u64,
    payload: &[u8],
    signer: u32,
    attested: &[u8],
    buffer: &mut [u8],
    size: &mut usize,
) -> u32
    ensures plain { signature ≡ 32 → result ≢ 2 → result ≢ 3 → IsWritten
        ⟦<Activity<Plain, Sha256Digest> as Encoding>⟧.is_value
        ⟦<Activity<Plain, Sha256Digest> as Encoding>⟧.encoding
        (vote_message (subject_by kind epoch view parent payload.now)
        (record { signer = signer; signature = attested.now }))
        buffer.old buffer.new size.new result }
    ensures vouched { signature ≢ 32 → result ≢ 2 → result ≢ 3 → ForSizes signature
        (IsWritten ⟦<Activity<Vouched<Role48, 49>, Sha256Digest> as Encoding>⟧.is_value
        ⟦<Activity<Vouched<Role48, 49>, Sha256Digest> as Encoding>⟧.encoding
        (vote_message (subject_by kind epoch view parent payload.now)
        (record { signer = signer; signature = attested.now }))
        buffer.old buffer.new size.new result)
        (IsWritten ⟦<Activity<Vouched<Role64, 65>, Sha256Digest> as Encoding>⟧.is_value
        ⟦<Activity<Vouched<Role64, 65>, Sha256Digest> as Encoding>⟧.encoding
        (vote_message (subject_by kind epoch view parent payload.now)
        (record { signer = signer; signature = attested.now }))
        buffer.old buffer.new size.new result)
        (IsWritten ⟦<Activity<Vouched<Role96, 97>, Sha256Digest> as Encoding>⟧.is_value
        ⟦<Activity<Vouched<Role96, 97>, Sha256Digest> as Encoding>⟧.encoding
        (vote_message (subject_by kind epoch view parent payload.now)
        (record { signer = signer; signature = attested.now }))
        buffer.old buffer.new size.new result) }
    ensures taken { result ≢ 2 → IsSignatureSize signature ×
        IsVoteByNumbers 32 kind parent (length payload.now) ×
        (length attested.now ≡ signature_bytes signature) }
    ensures refused { result ≡ 2 → ¬ (IsSignatureSize signature ×
        IsVoteByNumbers 32 kind parent (length payload.now) ×
        (length attested.now ≡ signature_bytes signature)) }
    ensures untouched { (result ≡ 2) ⊎ (result ≡ 3) →
        (buffer.new ≡ buffer.old) × (size.new ≡ size.old) }
{
    let Some(said) = said_by::<Sha256Digest>(kind, epoch, view, parent, payload) else {
        return ARGUMENTS;
    };
    if signature == 32 {
        return put_vote::<Plain, Sha256Digest>(alloc, said, signer, attested, buffer, size);
    }
    match vouched_size(signature) {
        Some(VouchedSize::Of48) => put_vote::<Vouched<Role48, 49>, Sha256Digest>(
            alloc, said, signer, attested, buffer, size,
        ),
        Some(VouchedSize::Of64) => put_vote::<Vouched<Role64, 65>, Sha256Digest>(
            alloc, said, signer, attested, buffer, size,
        ),
        Some(VouchedSize::Of96) => put_vote::<Vouched<Role96, 97>, Sha256Digest>(
            alloc, said, signer, attested, buffer, size,
        ),
        None => ARGUMENTS,
    }
}

impl<D: Digest> Encoding for Said<D> {
    ghost is_value = { λ said. IsSubject (format_of ⟦<D as Read>⟧) (said_value said) };

    ghost encoding = { λ said. message_of (format_of ⟦<D as Read>⟧) (said_value said) };
}

impl<D: Digest> Write for Said<D> {
    fn write(&self, buf: &mut Vec<u8>) -> Result<(), AllocError> {
        match self {
            Said::Notarize(proposal) => proposal.write(buf),
            Said::Nullify(round) => round.write(buf),
            Said::Finalize(proposal) => proposal.write(buf),
        }
    }
}

impl<D: Digest> EncodeSize for Said<D> {
    ghost limit = { 30 + 65535 };

    fn encode_size(&self) -> usize {
        match self {
            Said::Notarize(proposal) => proposal.encode_size(),
            Said::Nullify(round) => round.encode_size(),
            Said::Finalize(proposal) => proposal.encode_size(),
        }
    }
}

/// A scheme whose certificates are the attestations that they list, for contracts alone.
pub trait Lists<D: Digest>: Listing<D> {
    ghost use Rattle.simplex_scheme.specs.declared.scheme.Attestation.{Attestation};

    /// The certificate of these attestations.
    ghost certificate_of: { List (Attestation Self Self.PublicKey Self.Signature) →
        Self.Certificate };

    /// It is encoded as their count, and then each.
    ghost counted: { (attestations : List (Attestation Self Self.PublicKey Self.Signature)) →
        Self.Certificate.encoding (certificate_of attestations) ≡
        listed_encoding (format_of ⟦<Self::Signature as Read>⟧) attestations };

    /// It is one if the attestations are those of a certificate.
    ghost valid: { (attestations : List (Attestation Self Self.PublicKey Self.Signature)) →
        ListedFits (format_of ⟦<Self::Signature as Read>⟧) (2 ^ 32) attestations →
        Self.Certificate.is_value (certificate_of attestations) };
}

impl<D: Digest> Lists<D> for Plain {
    ghost use Rattle.std.specs.Prelude.{refl};

    ghost certificate_of = { λ attestations. attestations };

    ghost counted = { λ attestations. refl };

    ghost valid = { λ attestations fits. fits };
}

impl<D: Digest, R: Role<N>, const N: usize> Lists<D> for Vouched<R, N> {
    ghost use Rattle.std.specs.Prelude.{refl};

    ghost certificate_of = { λ attestations. attestations };

    ghost counted = { λ attestations. refl };

    ghost valid = { λ attestations fits. fits };
}

/// Whether there is a signature for each signer: as many bytes as all of them have.
fn have_signatures<S: SchemeTypes>(signers: usize, signatures: usize) -> bool
    ensures { IsTrue result ↔ (signatures ≡ signers * S.Signature.SIZE) }
{
    signatures % S::Signature::SIZE == 0 && signatures / S::Signature::SIZE == signers
}

/// Whether they are the signers of a certificate.
fn are_signers(signers: &[u32]) -> bool
    ensures { IsTrue result ↔ AreSigners signers.now }
{
    !signers.is_empty() && signers.len() <= MOST_SIGNERS && Set::are_ascending(signers)
}

/// The attestations of signers, whose signatures stand one after another.
fn attestations_of<S: SchemeTypes>(
    alloc: Global,
    signers: &[u32],
    signatures: &[u8],
) -> Result<Vec<Attestation<S>>, AllocError>
    requires { length signatures.now ≡ length signers.now * S.Signature.SIZE }
    ensures { IfOk result (λ attestations. attestations.items ≡
        attestations_by S.Signature.of_bytes S.Signature.SIZE signers.now signatures.now) }
{
    let mut attestations = Vec::with_capacity(alloc, signers.len())?;
    let mut rest: &[u8] = signatures;
    'signers: for signer in signers {
        let (signature, behind) = rest.split_at(S::Signature::SIZE);
        attestations.push(attestation_of(*signer, signature))?;
        rest = behind;
    }
    Ok(attestations)
}

/// The bytes of a certificate as a message: the tag, what is certified, and the attestations.
fn bytes_of_listed<S: SchemeTypes, D: Digest>(
    alloc: Global,
    tag: u8,
    said: &Said<D>,
    attestations: &[Attestation<S>],
) -> Result<Vec<u8>, AllocError>
    requires few { length attestations.now < 2 ^ 32 }
    ensures bytes { IfOk result (λ bytes. bytes.items ≡
        tag ∷ (message_of (format_of ⟦<D as Read>⟧) (said_value said.now) ++
        listed_encoding (format_of ⟦<S::Signature as Read>⟧) attestations.now)) }
    ensures subject { IsSubject (format_of ⟦<D as Read>⟧) (said_value said.now) }
    ensures values { All ⟦<Attestation<S> as Encoding>⟧.is_value attestations.now }
{
    let size = said.encode_size() + 1;
    let mut bytes = Vec::with_capacity(alloc, size.saturating_add(size_counted(attestations)))?;
    bytes.push(tag)?;
    said.write(&mut bytes)?;
    write_counted(attestations, &mut bytes)?;
    Ok(bytes)
}

/// The tag of a certificate.
fn tag_of<D>(accepted: bool, said: &Said<D>) -> u8
    ensures { result ≡ certificate_tag accepted (said_value said.now) }
{
    match said {
        Said::Notarize(_) => { if accepted { 2 } else { 1 } }
        Said::Nullify(_) => 4,
        Said::Finalize(_) => 6,
    }
}

/// The bytes of a certificate, as a message, that lists the attestations of signers.
fn bytes_of_certificate<S: Lists<D>, D: Digest>(
    alloc: Global,
    accepted: bool,
    said: &Said<D>,
    signers: &[u32],
    signatures: &[u8],
) -> Result<Vec<u8>, AllocError>
    requires signers { AreSigners signers.now }
    requires signatures { length signatures.now ≡ length signers.now * S.Signature.SIZE }
    ensures bytes { IfOk result (λ bytes. bytes.items ≡ ⟦<Activity<S, D> as Encoding>⟧.encoding
        (certificate_message accepted (said_value said.now) (S.certificate_of
        (attestations_by S.Signature.of_bytes S.Signature.SIZE signers.now signatures.now)))) }
    ensures value { IfOk result (λ _. ⟦<Activity<S, D> as Encoding>⟧.is_value
        (certificate_message accepted (said_value said.now) (S.certificate_of
        (attestations_by S.Signature.of_bytes S.Signature.SIZE signers.now signatures.now)))) }
{
    let attestations = attestations_of::<S>(alloc, signers, signatures)?;
    bytes_of_listed(alloc, tag_of(accepted, said), said, &attestations)
}

/// Puts a certificate, as a message, at the start of a buffer, and writes how many bytes it has. The status is
/// [`WHOLE`](simplex_border::answer::WHOLE), [`MEMORY`] or [`SHORT`](simplex_border::answer::SHORT), or [`ARGUMENTS`] if they
/// are not the signers of a certificate or there is not one signature for each. Nothing is written after [`ARGUMENTS`] and
/// [`MEMORY`].
fn put_certificate<S: Lists<D>, D: Digest>(
    alloc: Global,
    accepted: bool,
    said: &Said<D>,
    signers: &[u32],
    signatures: &[u8],
    buffer: &mut [u8],
    size: &mut usize,
) -> u32
    ensures written { result ≢ 2 → result ≢ 3 → IsWritten
        ⟦<Activity<S, D> as Encoding>⟧.is_value ⟦<Activity<S, D> as Encoding>⟧.encoding
        (certificate_message accepted (said_value said.now) (S.certificate_of
        (attestations_by S.Signature.of_bytes S.Signature.SIZE signers.now signatures.now)))
        buffer.old buffer.new size.new result }
    ensures taken { result ≢ 2 →
        AreSigners signers.now × (length signatures.now ≡ length signers.now * S.Signature.SIZE) }
    ensures refused { result ≡ 2 → ¬ (AreSigners signers.now ×
        (length signatures.now ≡ length signers.now * S.Signature.SIZE)) }
    ensures untouched { (result ≡ 2) ⊎ (result ≡ 3) →
        (buffer.new ≡ buffer.old) × (size.new ≡ size.old) }
{
    if !are_signers(signers) || !have_signatures::<S>(signers.len(), signatures.len()) {
        return ARGUMENTS;
    }
    let Ok(bytes) = bytes_of_certificate::<S, D>(alloc, accepted, said, signers, signatures) else {
        return MEMORY;
    };
    put_bytes(&bytes, buffer, size)
}

/// Whether it is the kind of a certificate, by its tag.
fn is_certificate_kind(kind: u32) -> bool
    ensures { IsTrue result ↔ IsCertificateKind kind }
{
    kind == 1 || kind == 2 || kind == 4 || kind == 6
}

/// The kind of the votes that a certificate of this kind lists.
fn votes_listed(kind: u32) -> u32
    ensures { result ≡ votes_listed kind }
{
    match kind {
        4 => 1,
        6 => 2,
        _ => 0,
    }
}

/// Puts a certificate, as a message, at the start of a buffer, and writes how many bytes it has. `kind` is the message's tag: 1
/// for a notarization, 2 for a certification, 4 for a nullification, 6 for a finalization. What is certified is given as to
/// [`signed_bytes_of`](crate::votes::signed_bytes_of). The signers ascend, from 1 to 2^32 - 1 of them, and their signatures
/// stand one after another, each as [`write_vote`] takes it. The status is [`WHOLE`](simplex_border::answer::WHOLE), [`MEMORY`]
/// or [`SHORT`](simplex_border::answer::SHORT); or [`ARGUMENTS`] if signatures have no such size, they are not the signers of a
/// certificate, there is not one signature for each, or the numbers are of no certificate. Nothing is written after
/// [`ARGUMENTS`] and [`MEMORY`]. If the buffer is too short it is as before, and the length that is needed is written.
pub fn write_certificate(
    alloc: Global,
    signature: u32,
    kind: u32,
    epoch: u64,
    view: u64,
    parent: u64,
    payload: &[u8],
    signers: &[u32],
    signatures: &[u8],
    buffer: &mut [u8],
    size: &mut usize,
) -> u32
    ensures plain { signature ≡ 32 → result ≢ 2 → result ≢ 3 → IsWritten ⟦<Activity<Plain, Sha256Digest> as Encoding>⟧.is_value
        ⟦<Activity<Plain, Sha256Digest> as Encoding>⟧.encoding
        (certificate_message (kind == 2)
        (subject_by (votes_listed kind) epoch view parent payload.now)
        (attestations_by (λ bytes. bytes) (signature_bytes signature) signers.now signatures.now))
        buffer.old buffer.new size.new result }
    ensures vouched { signature ≢ 32 → result ≢ 2 → result ≢ 3 → ForSizes signature
        (IsWritten ⟦<Activity<Vouched<Role48, 49>, Sha256Digest> as Encoding>⟧.is_value
        ⟦<Activity<Vouched<Role48, 49>, Sha256Digest> as Encoding>⟧.encoding
        (certificate_message (kind == 2)
        (subject_by (votes_listed kind) epoch view parent payload.now)
        (attestations_by (λ bytes. bytes) (signature_bytes signature) signers.now signatures.now))
        buffer.old buffer.new size.new result)
        (IsWritten ⟦<Activity<Vouched<Role64, 65>, Sha256Digest> as Encoding>⟧.is_value
        ⟦<Activity<Vouched<Role64, 65>, Sha256Digest> as Encoding>⟧.encoding
        (certificate_message (kind == 2)
        (subject_by (votes_listed kind) epoch view parent payload.now)
        (attestations_by (λ bytes. bytes) (signature_bytes signature) signers.now signatures.now))
        buffer.old buffer.new size.new result)
        (IsWritten ⟦<Activity<Vouched<Role96, 97>, Sha256Digest> as Encoding>⟧.is_value
        ⟦<Activity<Vouched<Role96, 97>, Sha256Digest> as Encoding>⟧.encoding
        (certificate_message (kind == 2)
        (subject_by (votes_listed kind) epoch view parent payload.now)
        (attestations_by (λ bytes. bytes) (signature_bytes signature) signers.now signatures.now))
        buffer.old buffer.new size.new result) }
    ensures taken { result ≢ 2 → IsSignatureSize signature × IsCertificateKind kind ×
        IsVoteByNumbers 32 (votes_listed kind) parent (length payload.now) × AreSigners signers.now ×
        (length signatures.now ≡ length signers.now * signature_bytes signature) }
    ensures refused { result ≡ 2 → ¬ (IsSignatureSize signature × IsCertificateKind kind ×
        IsVoteByNumbers 32 (votes_listed kind) parent (length payload.now) × AreSigners signers.now ×
        (length signatures.now ≡ length signers.now * signature_bytes signature)) }
    ensures untouched { (result ≡ 2) ⊎ (result ≡ 3) →
        (buffer.new ≡ buffer.old) × (size.new ≡ size.old) }
{
    if !is_certificate_kind(kind) {
        return ARGUMENTS;
    }
    let votes = votes_listed(kind);
    let Some(said) = said_by::<Sha256Digest>(votes, epoch, view, parent, payload) else {
        return ARGUMENTS;
    };
    let accepted = kind == 2;
    if signature == 32 {
        return put_certificate::<Plain, Sha256Digest>(
            alloc, accepted, &said, signers, signatures, buffer, size,
        );
    }
    match vouched_size(signature) {
        Some(VouchedSize::Of48) => put_certificate::<Vouched<Role48, 49>, Sha256Digest>(
            alloc, accepted, &said, signers, signatures, buffer, size,
        ),
        Some(VouchedSize::Of64) => put_certificate::<Vouched<Role64, 65>, Sha256Digest>(
            alloc, accepted, &said, signers, signatures, buffer, size,
        ),
        Some(VouchedSize::Of96) => put_certificate::<Vouched<Role96, 97>, Sha256Digest>(
            alloc, accepted, &said, signers, signatures, buffer, size,
        ),
        None => ARGUMENTS,
    }
}
