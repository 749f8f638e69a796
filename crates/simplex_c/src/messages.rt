//! The exports that write and read messages, and that verify one piece of evidence. Statuses are those of
//! the crate's page.

ghost use Rattle.std.specs.Prelude.{◌≡◌, ◌≢◌, ◌==◌, ◌⊎◌, ◌*◌, ◌≤◌, length};
ghost use Rattle.simplex_base.specs.Format.{format_of};
ghost use Rattle.simplex_scheme.specs.Committees.{Schedule};
ghost use Rattle.simplex_schemes.specs.Plain.{PlainScheme};
ghost use Rattle.simplex_schemes.specs.Vouched.{VouchedScheme};
ghost use Rattle.simplex_border.specs.Keys.{AreKeys, AreOfKeys, IsLengthOfKeys};
ghost use Rattle.simplex_border.specs.Signatures.{ForSizes, IsSignatureSize, IsVouchedSize};
ghost use Rattle.simplex_border.specs.Sizes.{AreSizes, AreCommitteeSizes};
ghost use Rattle.simplex_ffi.specs.Messages.{ArePut, AreSigners, IsCertificateKind, IsVoteByNumbers, IsWritten, attestations_by, certificate_message, signature_bytes, signed_bytes, subject_by, vote_message, votes_listed};
ghost use Rattle.simplex_ffi.specs.Proof.{IsJudged};

use simplex_audit::basis::Audited;
use simplex_base::codec::{Encoding, Read};
use simplex_evidence::types::Activity;
use simplex_ffi::decoding::{Fronted, MessageHead, read_message};
use simplex_ffi::encoding::{write_certificate, write_vote};
use simplex_ffi::proof::{Accusation, judge_of_size, judge_plain};
use simplex_ffi::votes::signed_bytes_of;
use simplex_places::places::AttestationPlace;
use simplex_scheme::scheme::Sha256Digest;
use simplex_schemes::plain::Plain;
use simplex_schemes::vouched::{Role48, Role64, Role96, Vouched};
use std::alloc::Global;

/// Writes the bytes that a signer signs: how long the namespace of the kind is, as a number, the
/// namespace, and the proposal or the round. `name` is the base of the namespaces, and `kind` is 0
/// for a notarize, 1 for a nullify and 2 for a finalize. A payload has 32 bytes; of a nullify the
/// parent is 0 and the payload has none. Returns a status as above, never 1, and 2 for any other
/// numbers.
#[unsafe(no_mangle)]
pub extern "C" fn simplex_signed_bytes(
    alloc: Global,
    name: &[u8],
    kind: u32,
    epoch: u64,
    view: u64,
    parent: u64,
    payload: &[u8],
    bytes: &mut [u8],
    size: &mut usize,
) -> u32
    ensures signed { result ≢ 2 → result ≢ 3 → ArePut
        (signed_bytes (format_of ⟦<Sha256Digest as Read>⟧) name.now
        (subject_by kind epoch view parent payload.now))
        bytes.old bytes.new size.new result }
    ensures taken { result ≢ 2 → IsVoteByNumbers 32 kind parent (length payload.now) }
    ensures refused { result ≡ 2 → ¬ IsVoteByNumbers 32 kind parent (length payload.now) }
    ensures untouched { (result ≡ 2) ⊎ (result ≡ 3) →
        (bytes.new ≡ bytes.old) × (size.new ≡ size.old) }
{
    signed_bytes_of(alloc, name, kind, epoch, view, parent, payload, bytes, size)
}

/// Writes a vote as a message. Signatures have so many bytes: 32 under the plain scheme; or 48, 64
/// or 96, and then the caller's verdict stands behind the signature that is given and is copied as
/// it is. What the vote says is given as to `simplex_signed_bytes`. Returns a status as above, never
/// 1, and 2 if signatures have no such size, the signature has another size, or the numbers are of no
/// vote.
#[unsafe(no_mangle)]
pub extern "C" fn simplex_write_vote(
    alloc: Global,
    signature: u32,
    kind: u32,
    epoch: u64,
    view: u64,
    parent: u64,
    payload: &[u8],
    signer: u32,
    attested: &[u8],
    message: &mut [u8],
    size: &mut usize,
) -> u32
    ensures plain { signature ≡ 32 → result ≢ 2 → result ≢ 3 → IsWritten
        ⟦<Activity<Plain, Sha256Digest> as Encoding>⟧.is_value
        ⟦<Activity<Plain, Sha256Digest> as Encoding>⟧.encoding
        (vote_message (subject_by kind epoch view parent payload.now)
        (record { signer = signer; signature = attested.now }))
        message.old message.new size.new result }
    ensures vouched { signature ≢ 32 → result ≢ 2 → result ≢ 3 → ForSizes signature
        (IsWritten ⟦<Activity<Vouched<Role48, 49>, Sha256Digest> as Encoding>⟧.is_value
        ⟦<Activity<Vouched<Role48, 49>, Sha256Digest> as Encoding>⟧.encoding
        (vote_message (subject_by kind epoch view parent payload.now)
        (record { signer = signer; signature = attested.now }))
        message.old message.new size.new result)
        (IsWritten ⟦<Activity<Vouched<Role64, 65>, Sha256Digest> as Encoding>⟧.is_value
        ⟦<Activity<Vouched<Role64, 65>, Sha256Digest> as Encoding>⟧.encoding
        (vote_message (subject_by kind epoch view parent payload.now)
        (record { signer = signer; signature = attested.now }))
        message.old message.new size.new result)
        (IsWritten ⟦<Activity<Vouched<Role96, 97>, Sha256Digest> as Encoding>⟧.is_value
        ⟦<Activity<Vouched<Role96, 97>, Sha256Digest> as Encoding>⟧.encoding
        (vote_message (subject_by kind epoch view parent payload.now)
        (record { signer = signer; signature = attested.now }))
        message.old message.new size.new result) }
    ensures taken { result ≢ 2 → IsSignatureSize signature ×
        IsVoteByNumbers 32 kind parent (length payload.now) ×
        (length attested.now ≡ signature_bytes signature) }
    ensures refused { result ≡ 2 → ¬ (IsSignatureSize signature ×
        IsVoteByNumbers 32 kind parent (length payload.now) ×
        (length attested.now ≡ signature_bytes signature)) }
    ensures untouched { (result ≡ 2) ⊎ (result ≡ 3) →
        (message.new ≡ message.old) × (size.new ≡ size.old) }
{
    write_vote(
        alloc, signature, kind, epoch, view, parent, payload, signer, attested, message, size,
    )
}

/// Writes a certificate as a message. `kind` is the message's tag: 1 for a notarization, 2 for a
/// certification, 4 for a nullification, 6 for a finalization. The signers ascend, and their
/// signatures stand one after another, each as `simplex_write_vote` takes it. What is certified is
/// given as to `simplex_signed_bytes`. Returns a status as above, never 1, and 2 if signatures have
/// no such size, there is no signer, they do not ascend, there is not one signature for each, or the
/// numbers are of no certificate.
#[unsafe(no_mangle)]
pub extern "C" fn simplex_write_certificate(
    alloc: Global,
    signature: u32,
    kind: u32,
    epoch: u64,
    view: u64,
    parent: u64,
    payload: &[u8],
    signers: &[u32],
    signatures: &[u8],
    message: &mut [u8],
    size: &mut usize,
) -> u32
    ensures plain { signature ≡ 32 → result ≢ 2 → result ≢ 3 → IsWritten ⟦<Activity<Plain, Sha256Digest> as Encoding>⟧.is_value
        ⟦<Activity<Plain, Sha256Digest> as Encoding>⟧.encoding
        (certificate_message (kind == 2)
        (subject_by (votes_listed kind) epoch view parent payload.now)
        (attestations_by (λ bytes. bytes) (signature_bytes signature) signers.now signatures.now))
        message.old message.new size.new result }
    ensures vouched { signature ≢ 32 → result ≢ 2 → result ≢ 3 → ForSizes signature
        (IsWritten ⟦<Activity<Vouched<Role48, 49>, Sha256Digest> as Encoding>⟧.is_value
        ⟦<Activity<Vouched<Role48, 49>, Sha256Digest> as Encoding>⟧.encoding
        (certificate_message (kind == 2)
        (subject_by (votes_listed kind) epoch view parent payload.now)
        (attestations_by (λ bytes. bytes) (signature_bytes signature) signers.now signatures.now))
        message.old message.new size.new result)
        (IsWritten ⟦<Activity<Vouched<Role64, 65>, Sha256Digest> as Encoding>⟧.is_value
        ⟦<Activity<Vouched<Role64, 65>, Sha256Digest> as Encoding>⟧.encoding
        (certificate_message (kind == 2)
        (subject_by (votes_listed kind) epoch view parent payload.now)
        (attestations_by (λ bytes. bytes) (signature_bytes signature) signers.now signatures.now))
        message.old message.new size.new result)
        (IsWritten ⟦<Activity<Vouched<Role96, 97>, Sha256Digest> as Encoding>⟧.is_value
        ⟦<Activity<Vouched<Role96, 97>, Sha256Digest> as Encoding>⟧.encoding
        (certificate_message (kind == 2)
        (subject_by (votes_listed kind) epoch view parent payload.now)
        (attestations_by (λ bytes. bytes) (signature_bytes signature) signers.now signatures.now))
        message.old message.new size.new result) }
    ensures taken { result ≢ 2 → IsSignatureSize signature × IsCertificateKind kind ×
        IsVoteByNumbers 32 (votes_listed kind) parent (length payload.now) × AreSigners signers.now ×
        (length signatures.now ≡ length signers.now * signature_bytes signature) }
    ensures refused { result ≡ 2 → ¬ (IsSignatureSize signature × IsCertificateKind kind ×
        IsVoteByNumbers 32 (votes_listed kind) parent (length payload.now) × AreSigners signers.now ×
        (length signatures.now ≡ length signers.now * signature_bytes signature)) }
    ensures untouched { (result ≡ 2) ⊎ (result ≡ 3) →
        (message.new ≡ message.old) × (size.new ≡ size.old) }
{
    write_certificate(
        alloc, signature, kind, epoch, view, parent, payload, signers, signatures, message, size,
    )
}

/// Reads the message at the front of some bytes: writes what it is, and each of its attestations with
/// the places of its subject and its signature in the bytes. Signatures have so many bytes: 32 under
/// the plain scheme; or 48, 64 or 96, each with the caller's verdict behind it. A certificate is read
/// under `bound`, the number of participants of the greatest committee. Nothing is verified. Returns a
/// status as above: 1 if no message is at the front, and then nothing was written; 2 if signatures have
/// no such size or the bound is 0.
#[unsafe(no_mangle)]
pub extern "C" fn simplex_read_message(
    alloc: Global,
    signature: u32,
    bound: u32,
    bytes: &[u8],
    attestations: &mut [AttestationPlace],
    message: &mut MessageHead,
) -> u32
    ensures plain { signature ≡ 32 → result ≢ 2 → result ≢ 3 →
        ⟦<Plain as Fronted<Sha256Digest>>⟧.is_front bound bytes.now
        attestations.old attestations.new message.old message.new result }
    ensures vouched { signature ≢ 32 → result ≢ 2 → result ≢ 3 → ForSizes signature
        (⟦<Vouched<Role48, 49> as Fronted<Sha256Digest>>⟧.is_front bound bytes.now
        attestations.old attestations.new message.old message.new result)
        (⟦<Vouched<Role64, 65> as Fronted<Sha256Digest>>⟧.is_front bound bytes.now
        attestations.old attestations.new message.old message.new result)
        (⟦<Vouched<Role96, 97> as Fronted<Sha256Digest>>⟧.is_front bound bytes.now
        attestations.old attestations.new message.old message.new result) }
    ensures taken { result ≢ 2 → IsSignatureSize signature × (1 ≤ bound) }
    ensures refused { result ≡ 2 → ¬ (IsSignatureSize signature × (1 ≤ bound)) }
    ensures untouched { (result ≡ 2) ⊎ (result ≡ 3) →
        (attestations.new ≡ attestations.old) × (message.new ≡ message.old) }
{
    read_message(alloc, signature, bound, bytes, attestations, message)
}

/// Judges one piece of evidence, whose signatures have so many bytes, 48, 64 or 96, and the caller's
/// verdict behind each, under the committees of these sizes: writes whom it accuses, in which round and
/// of what, and whether both votes are valid. Returns a status as above, never 4: 1 if the bytes are
/// not one message that is evidence, and then nothing was written; 2 also if signatures have no such
/// size.
#[unsafe(no_mangle)]
pub extern "C" fn simplex_verify_evidence(
    alloc: Global,
    signature: u32,
    epochs: &[u64],
    sizes: &[u32],
    evidence: &[u8],
    accusation: &mut Accusation,
) -> u32
    ensures judged { result ≢ 2 → result ≢ 3 → (committees : Schedule VouchedScheme) ×
        AreSizes epochs.now sizes.now committees × ForSizes signature
        (IsJudged (⟦<Vouched<Role48, 49> as Audited<Sha256Digest>>⟧.basis committees) evidence.now
        accusation.old accusation.new result)
        (IsJudged (⟦<Vouched<Role64, 65> as Audited<Sha256Digest>>⟧.basis committees) evidence.now
        accusation.old accusation.new result)
        (IsJudged (⟦<Vouched<Role96, 97> as Audited<Sha256Digest>>⟧.basis committees) evidence.now
        accusation.old accusation.new result) }
    ensures taken { result ≢ 2 → IsVouchedSize signature × AreCommitteeSizes epochs.now sizes.now }
    ensures refused { result ≡ 2 →
        ¬ (IsVouchedSize signature × AreCommitteeSizes epochs.now sizes.now) }
    ensures untouched { (result ≡ 2) ⊎ (result ≡ 3) → accusation.new ≡ accusation.old }
{
    judge_of_size(alloc, signature, epochs, sizes, evidence, accusation)
}

/// As `simplex_verify_evidence`, of an evidence of the plain scheme, under the committees of these keys,
/// given as to `simplex_audit_plain`.
#[unsafe(no_mangle)]
pub extern "C" fn simplex_verify_evidence_plain(
    alloc: Global,
    name: &[u8],
    epochs: &[u64],
    sizes: &[u32],
    keys: &[u8],
    evidence: &[u8],
    accusation: &mut Accusation,
) -> u32
    ensures judged { result ≢ 2 → result ≢ 3 → (committees : Schedule PlainScheme) ×
        AreOfKeys name.now epochs.now sizes.now keys.now committees ×
        IsJudged (⟦<Plain as Audited<Sha256Digest>>⟧.basis committees) evidence.now
        accusation.old accusation.new result }
    ensures taken { result ≢ 2 → IsLengthOfKeys epochs.now sizes.now (length keys.now) }
    ensures refused { result ≡ 2 → ¬ AreKeys epochs.now sizes.now keys.now }
    ensures untouched { (result ≡ 2) ⊎ (result ≡ 3) → accusation.new ≡ accusation.old }
{
    judge_plain(alloc, name, epochs, sizes, keys, evidence, accusation)
}
