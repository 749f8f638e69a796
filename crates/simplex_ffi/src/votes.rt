//! Votes by numbers and bytes, and the bytes that are signed.

ghost use Rattle.std.specs.Prelude.{◌≡◌, ◌≢◌, ◌⊎◌, None, IfOk, IfSome, OnOk, OnErr, ◌++◌, length};
ghost use Rattle.simplex_base.specs.Format.{format_of};
ghost use Rattle.simplex_scheme.specs.Subject.{message_of, subject_value};
ghost use Rattle.simplex_ffi.specs.Messages.{ArePut, IsVoteByNumbers, said_value, signed_bytes, subject_by};

use simplex_base::codec::varint::write_u64;
use simplex_base::codec::{Fixed, Read};
use simplex_base::positions::{Epoch, Round, View};
use simplex_border::answer::{ARGUMENTS, MEMORY, SHORT, WHOLE, put};
use simplex_scheme::scheme::{
    CertificateSubject, Digest, Namespace, Proposal, Sha256Digest, Subject,
};
use std::alloc::{AllocError, Global};

/// What a vote says, with its proposal in place.
#[derive(Drop)]
pub(crate) enum Said<D> {
    /// That a proposal is notarized.
    Notarize(Proposal<D>),
    /// That a round is nullified.
    Nullify(Round),
    /// That a proposal is finalized.
    Finalize(Proposal<D>),
}

impl<D> Said<D> {
    /// What is signed.
    pub(crate) fn subject(&self) -> Subject<'_, D>
        ensures { subject_value result ≡ said_value self.now }
    {
        match self {
            Said::Notarize(proposal) => Subject::Notarize { proposal },
            Said::Nullify(round) => Subject::Nullify { round: *round },
            Said::Finalize(proposal) => Subject::Finalize { proposal },
        }
    }
}

/// What a vote of this kind says: 0 to notarize a proposal, 1 to nullify a round, 2 to finalize a proposal. A payload has the
/// bytes of a digest; of a nullify the parent is 0 and the payload has none. `None` for any other numbers.
pub(crate) fn said_by<D: Digest>(
    kind: u32,
    epoch: u64,
    view: u64,
    parent: u64,
    payload: &[u8],
) -> Option<Said<D>>
    ensures some { IfSome result (λ said.
        said_value said ≡ subject_by kind epoch view parent (D.of_bytes payload.now)) }
    ensures taken { IfSome result (λ _.
        IsVoteByNumbers D.SIZE kind parent (length payload.now)) }
    ensures none { result ≡ None → ¬ IsVoteByNumbers D.SIZE kind parent (length payload.now) }
{
    let round = Round::new(Epoch::new(epoch), View::new(view));
    if kind == 1 {
        return if parent == 0 && payload.is_empty() {
            Some(Said::Nullify(round))
        } else {
            None
        };
    }
    if payload.len() != D::SIZE {
        return None;
    }
    let proposal = Proposal::new(round, View::new(parent), D::from_bytes(payload));
    match kind {
        0 => Some(Said::Notarize(proposal)),
        2 => Some(Said::Finalize(proposal)),
        _ => None,
    }
}

/// The bytes that are signed: the length of the kind's namespace under a base, the namespace, and the message.
fn bytes_to_sign<D: Digest>(
    alloc: Global,
    base: &[u8],
    subject: &Subject<'_, D>,
) -> Result<Vec<u8>, AllocError>
    ensures { IfOk result (λ bytes. bytes.items ≡
        signed_bytes (format_of ⟦<D as Read>⟧) base.now (subject_value subject.now)) }
{
    let names = Namespace::new(alloc, base)?;
    let name = subject.namespace(&names);
    let message = subject.message(alloc)?;
    let mut bytes = Vec::new(alloc);
    write_u64(name.len() as u64, &mut bytes)?;
    bytes.extend_from_slice(name)?;
    bytes.extend_from_slice(&message)?;
    Ok(bytes)
}

/// Puts bytes at the start of a buffer, and writes how many they are. The status is [`WHOLE`] or [`SHORT`].
pub(crate) fn put_bytes(bytes: &[u8], buffer: &mut [u8], size: &mut usize) -> u32
    ensures { ArePut bytes.now buffer.old buffer.new size.new result }
{
    *size = bytes.len();
    if put(bytes, buffer) { WHOLE } else { SHORT }
}

/// Puts the bytes that are signed at the start of a buffer, and writes how many they are. The status is [`WHOLE`], [`MEMORY`]
/// or [`SHORT`]. Where an allocation failed nothing is written.
fn put_signed<D: Digest>(
    alloc: Global,
    base: &[u8],
    said: &Said<D>,
    buffer: &mut [u8],
    size: &mut usize,
) -> u32
    ensures signed { result ≢ 3 → ArePut
        (signed_bytes (format_of ⟦<D as Read>⟧) base.now (said_value said.now))
        buffer.old buffer.new size.new result }
    ensures memory { result ≡ 3 → (buffer.new ≡ buffer.old) × (size.new ≡ size.old) }
    ensures status { result ≢ 2 }
{
    let subject = said.subject();
    let Ok(bytes) = bytes_to_sign(alloc, base, &subject) else {
        return MEMORY;
    };
    put_bytes(&bytes, buffer, size)
}

/// Puts the bytes that a signer signs at the start of a buffer: how long the namespace of the kind is, as a number, the
/// namespace, and the proposal or the round. `base` is the base of the namespaces, and `kind` is 0 for a notarize, 1 for a
/// nullify and 2 for a finalize. A payload has 32 bytes; of a nullify the parent is 0 and the payload has none. The status is
/// [`WHOLE`], [`MEMORY`] or [`SHORT`], or [`ARGUMENTS`] for any other numbers. Nothing is written after [`ARGUMENTS`] and
/// [`MEMORY`]. If the buffer is too short it is as before, and the length that is needed is written.
pub fn signed_bytes_of(
    alloc: Global,
    base: &[u8],
    kind: u32,
    epoch: u64,
    view: u64,
    parent: u64,
    payload: &[u8],
    buffer: &mut [u8],
    size: &mut usize,
) -> u32
    ensures signed { result ≢ 2 → result ≢ 3 → ArePut
        (signed_bytes (format_of ⟦<Sha256Digest as Read>⟧) base.now
        (subject_by kind epoch view parent payload.now))
        buffer.old buffer.new size.new result }
    ensures taken { result ≢ 2 → IsVoteByNumbers 32 kind parent (length payload.now) }
    ensures refused { result ≡ 2 → ¬ IsVoteByNumbers 32 kind parent (length payload.now) }
    ensures untouched { (result ≡ 2) ⊎ (result ≡ 3) →
        (buffer.new ≡ buffer.old) × (size.new ≡ size.old) }
{
    match said_by::<Sha256Digest>(kind, epoch, view, parent, payload) {
        Some(said) => put_signed(alloc, base, &said, buffer, size),
        None => ARGUMENTS,
    }
}
