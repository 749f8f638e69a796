//! The message at the front of some bytes: what it is, and where its attestations stand. And what a vote says, from the bytes
//! that are signed.

ghost use Rattle.std.specs.Prelude.{◌≡◌, ◌≢◌, ◌⊎◌, ◌+◌, ◌<◌, ◌≤◌, ◌^◌, ◌++◌, ℕ, List, Some, None, Ok, IfOk, IfSome, length};
ghost use Rattle.simplex_base.specs.Format.{format_of, format_under};
ghost use Rattle.simplex_evidence.specs.Activity.{contents_of};
ghost use Rattle.simplex_scheme.specs.Subject.{subject_value};
ghost use Rattle.simplex_places.specs.declared.places.AttestationPlace as places;
ghost use Rattle.simplex_border.specs.Signatures.{ForSizes, IsSignatureSize};
ghost use Rattle.simplex_ffi.specs.Decoding.{IsFront, IsGiven, head_of, parent_of, parents_of};
ghost use Rattle.simplex_ffi.specs.declared.decoding.MessageHead as heads;

use crate::front::read_front;
use simplex_base::codec::{Encoding, Fixed, Read};
use simplex_border::answer::{ARGUMENTS, FAULT, MEMORY, SHORT, WHOLE, put};
use simplex_border::signatures::{VouchedSize, vouched_size};
use simplex_evidence::types::{Activity, Contents};
use simplex_places::located::{Counted, Located};
use simplex_places::places::{AttestationPlace, attestations_of};
use simplex_scheme::scheme::{CertificateScheme, Digest, Sha256Digest, Subject};
use simplex_schemes::plain::Plain;
use simplex_schemes::vouched::{Role48, Role64, Role96, Vouched};
use simplex_shards::index::Tabular;
use std::alloc::Global;

/// What a message is.
#[repr(C)]
#[derive(Clone, Copy, Debug)]
pub struct MessageHead {
    /// The epoch of its round.
    pub epoch: u64,
    /// The view of its round.
    pub view: u64,
    /// The parent of the proposal that is voted for or certified, or of the first vote of evidence; 0 of a round.
    pub parent: u64,
    /// The parent of the second vote of evidence, else 0.
    pub second_parent: u64,
    /// The number of its bytes.
    pub length: usize,
    /// How many attestations it has: one of a vote, two of evidence, and those that a certificate lists.
    pub attestations: usize,
    /// The number of its kind, 0 to 9: the tag with which it is encoded.
    pub kind: u32,
}

/// The parent of a proposal; 0 of a round.
fn parent_of<D>(subject: &Subject<'_, D>) -> u64
    ensures { result ≡ parent_of (subject_value subject.now) }
{
    match subject {
        Subject::Notarize { proposal } | Subject::Finalize { proposal } => proposal.parent.get(),
        Subject::Nullify { .. } => 0,
    }
}

/// The parents of what a message holds: of its vote or certificate, and 0; or of both votes.
fn parents_of<S: CertificateScheme, D: Digest>(message: &Activity<S, D>) -> (u64, u64)
    ensures { result ≡ parents_of (contents_of message.now) }
{
    match message.contents() {
        Contents::Vote(vote) => (parent_of(&vote.subject), 0),
        Contents::Certificate(subject, _) => (parent_of(&subject), 0),
        Contents::Evidence(first, second) => {
            (parent_of(&first.subject), parent_of(&second.subject))
        }
    }
}

/// What a message of so many bytes is.
fn head_of<S: Counted<D>, D: Digest>(message: &Activity<S, D>, size: usize) -> MessageHead
    requires { size ≡ length (⟦<Activity<S, D> as Encoding>⟧.encoding message.now) }
    ensures { result ≡ head_of (⟦<Activity<S, D> as Tabular>⟧.row_of 0 message.now)
        (parents_of (contents_of message.now)) }
{
    let row = message.row(0, size);
    let (parent, second_parent) = parents_of(message);
    MessageHead {
        epoch: row.epoch,
        view: row.view,
        parent,
        second_parent,
        length: row.length,
        attestations: row.attestations,
        kind: row.kind,
    }
}

/// Puts the attestations of a message of so many bytes at the start of a buffer, and writes what the message is. The status is
/// [`WHOLE`], [`SHORT`] or [`MEMORY`]. Nothing is written after [`MEMORY`].
fn put_message<S: Counted<D>, D: Digest>(
    alloc: Global,
    message: &Activity<S, D>,
    size: usize,
    buffer: &mut [AttestationPlace],
    head: &mut MessageHead,
) -> u32
    requires length { size ≡ length (⟦<Activity<S, D> as Encoding>⟧.encoding message.now) }
    ensures given { result ≢ 3 → IsGiven ⟦<Activity<S, D> as Encoding>⟧.encoding
        (format_of ⟦<D as Read>⟧) (format_of ⟦<S::Signature as Read>⟧) S.listed
        ⟦<Activity<S, D> as Tabular>⟧.row_of message.now
        buffer.old buffer.new head.new result }
    ensures memory { result ≡ 3 → (buffer.new ≡ buffer.old) × (head.new ≡ head.old) }
    ensures status { (result ≢ 1) × (result ≢ 2) }
{
    let Ok(found) = attestations_of(alloc, message) else {
        return MEMORY;
    };
    *head = head_of(message, size);
    if put(&found, buffer) { WHOLE } else { SHORT }
}

/// Puts the attestations of the message at the front of some bytes at the start of a buffer, and writes what the message is.
/// The status is [`WHOLE`] or [`SHORT`]; [`FAULT`] if no message is at the front; or [`MEMORY`]. Nothing is written after
/// [`FAULT`] and [`MEMORY`].
fn put_front<S: Counted<D>, D: Digest>(
    alloc: Global,
    bound: u32,
    bytes: &[u8],
    buffer: &mut [AttestationPlace],
    head: &mut MessageHead,
) -> u32
    ensures given { result ≢ 3 → IsFront (format_under ⟦<Activity<S, D> as Read>⟧ bound)
        (format_of ⟦<D as Read>⟧) (format_of ⟦<S::Signature as Read>⟧) S.listed
        ⟦<Activity<S, D> as Tabular>⟧.row_of bytes.now
        buffer.old buffer.new head.old head.new result }
    ensures memory { result ≡ 3 → (buffer.new ≡ buffer.old) × (head.new ≡ head.old) }
    ensures status { result ≢ 2 }
{
    match read_front::<Activity<S, D>>(alloc, bytes, &bound) {
        Ok(Some((message, size))) => put_message(alloc, &message, size, buffer, head),
        Ok(None) => FAULT,
        Err(_) => MEMORY,
    }
}

/// A scheme whose messages are read at the front of some bytes, for contracts alone. Every scheme of the places of attestations
/// is one; there is nothing to implement or to call.
pub trait Fronted<D: Digest>: Counted<D> {
    /// What a call gives that reads the message at the front of some bytes under a bound: the bytes, the buffer before and
    /// after, the head before and after, and the status.
    ghost is_front: { ℕ → List ℕ → List places.AttestationPlace → List places.AttestationPlace →
        heads.MessageHead → heads.MessageHead → ℕ → Type 0 };
}

impl<S: Counted<D>, D: Digest> Fronted<D> for S {
    ghost is_front = { λ bound. IsFront (format_under ⟦<Activity<S, D> as Read>⟧ bound)
        (format_of ⟦<D as Read>⟧) (format_of ⟦<S::Signature as Read>⟧) S.listed
        ⟦<Activity<S, D> as Tabular>⟧.row_of };
}

/// Reads the message at the front of some bytes: writes what it is, and puts its attestations at the start of a buffer,
/// each with the places of its subject and its signature in the bytes. Signatures have so many bytes: 32 under the plain
/// scheme; or 48, 64 or 96, each with the caller's verdict behind it. A certificate is read under `bound`, the number of
/// participants of the greatest committee. Nothing is verified. The status is [`WHOLE`], [`FAULT`] if no message is at the
/// front, [`MEMORY`] or [`SHORT`]; or [`ARGUMENTS`] if signatures have no such size or the bound is 0. Nothing is written
/// after [`FAULT`], [`ARGUMENTS`] and [`MEMORY`]. If the buffer is too short it is as before, and what the message is, is
/// written: the number of attestations is that of the records that are needed.
pub fn read_message(
    alloc: Global,
    signature: u32,
    bound: u32,
    bytes: &[u8],
    buffer: &mut [AttestationPlace],
    head: &mut MessageHead,
) -> u32
    ensures plain { signature ≡ 32 → result ≢ 2 → result ≢ 3 →
        ⟦<Plain as Fronted<Sha256Digest>>⟧.is_front bound bytes.now
        buffer.old buffer.new head.old head.new result }
    ensures vouched { signature ≢ 32 → result ≢ 2 → result ≢ 3 → ForSizes signature
        (⟦<Vouched<Role48, 49> as Fronted<Sha256Digest>>⟧.is_front bound bytes.now
        buffer.old buffer.new head.old head.new result)
        (⟦<Vouched<Role64, 65> as Fronted<Sha256Digest>>⟧.is_front bound bytes.now
        buffer.old buffer.new head.old head.new result)
        (⟦<Vouched<Role96, 97> as Fronted<Sha256Digest>>⟧.is_front bound bytes.now
        buffer.old buffer.new head.old head.new result) }
    ensures taken { result ≢ 2 → IsSignatureSize signature × (1 ≤ bound) }
    ensures refused { result ≡ 2 → ¬ (IsSignatureSize signature × (1 ≤ bound)) }
    ensures untouched { (result ≡ 2) ⊎ (result ≡ 3) →
        (buffer.new ≡ buffer.old) × (head.new ≡ head.old) }
{
    if bound == 0 {
        return ARGUMENTS;
    }
    if signature == 32 {
        return put_front::<Plain, Sha256Digest>(alloc, bound, bytes, buffer, head);
    }
    match vouched_size(signature) {
        Some(VouchedSize::Of48) => {
            put_front::<Vouched<Role48, 49>, Sha256Digest>(alloc, bound, bytes, buffer, head)
        }
        Some(VouchedSize::Of64) => {
            put_front::<Vouched<Role64, 65>, Sha256Digest>(alloc, bound, bytes, buffer, head)
        }
        Some(VouchedSize::Of96) => {
            put_front::<Vouched<Role96, 97>, Sha256Digest>(alloc, bound, bytes, buffer, head)
        }
        None => ARGUMENTS,
    }
}
