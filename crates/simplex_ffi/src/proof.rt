//! One piece of evidence, verified by itself: whom it accuses, and whether it proves that.

ghost use Rattle.std.specs.Prelude.{◌≡◌, ◌≢◌, ◌⊎◌, ◌&&◌, Some, None, IfSome, length, option_map, if◌then◌else◌};
ghost use Rattle.simplex_audit.specs.Guarantees.{IsAudit};
ghost use Rattle.simplex_evidence.specs.Contradiction.{Equivocation};
ghost use Rattle.simplex_scheme.specs.Committees.{Schedule};
ghost use Rattle.simplex_schemes.specs.Plain.{PlainScheme};
ghost use Rattle.simplex_schemes.specs.Vouched.{VouchedScheme};
ghost use Rattle.simplex_border.specs.Keys.{AreKeys, AreOfKeys, IsLengthOfKeys};
ghost use Rattle.simplex_border.specs.Signatures.{ForSizes, IsVouchedSize};
ghost use Rattle.simplex_border.specs.Sizes.{AreSizes, AreCommitteeSizes};
ghost use Rattle.simplex_ffi.specs.Proof.{IsJudged, IsMessageJudged, accusation_by, are_valid, equivocation_of};

use crate::front::read_whole;
use simplex_audit::audit::Committees;
use simplex_audit::basis::Audited;
use simplex_base::codec::fixed_bytes::Role;
use simplex_base::positions::{Participant, Round, Roundable};
use simplex_border::answer::{ARGUMENTS, FAULT, MEMORY, WHOLE};
use simplex_border::signatures::{VouchedSize, vouched_size};
use simplex_border::{keys, sizes};
use simplex_evidence::types::Activity;
use simplex_scheme::scheme::{Attributable, CertificateScheme, Digest, Listing, Sha256Digest};
use simplex_schemes::plain::Plain;
use simplex_schemes::vouched::{Role48, Role64, Role96, Vouched};
use std::alloc::Global;

/// Whom an evidence accuses.
#[repr(C)]
#[derive(Clone, Copy, Debug)]
pub struct Accusation {
    /// The epoch of the round of both votes.
    pub epoch: u64,
    /// The view of that round.
    pub view: u64,
    /// The number of the signer of both votes.
    pub signer: u32,
    /// The number of the kind: 0 for two notarizes, 1 for two finalizes, 2 for a nullify and a finalize.
    pub kind: u32,
    /// 1 where both signatures are valid, else 0.
    pub proved: u32,
}

/// An accusation of these parts.
fn accusing(round: Round, signer: Participant, kind: u32, proved: bool) -> Accusation
    ensures { result ≡ record {
      epoch = round.epoch;
      view = round.view;
      signer = signer;
      kind = kind;
      proved = if proved then 1 else 0;
    } }
{
    Accusation {
        epoch: round.epoch().get(),
        view: round.view().get(),
        signer: signer.get(),
        kind,
        proved: proved as u32,
    }
}

/// Whom a message accuses, if it is evidence.
fn accusation_of<S: CertificateScheme, D: Digest>(
    message: &Activity<S, D>,
    proved: bool,
) -> Option<Accusation>
    ensures { result ≡ option_map (accusation_by proved) (equivocation_of message.now) }
{
    match message {
        Activity::ConflictingNotarize(evidence) => {
            Some(accusing(evidence.round(), evidence.signer(), 0, proved))
        }
        Activity::ConflictingFinalize(evidence) => {
            Some(accusing(evidence.round(), evidence.signer(), 1, proved))
        }
        Activity::NullifyFinalize(evidence) => {
            Some(accusing(evidence.round(), evidence.signer(), 2, proved))
        }
        _ => None,
    }
}

/// Whether a message is valid under the committee of its epoch. Without a committee it is not.
fn is_proved<S: Listing<D>, D: Digest>(committees: &Committees<S>, message: &Activity<S, D>) -> bool
    ensures { (e : Equivocation D S.Signature) → equivocation_of message.now ≡ Some e →
        result ≡ are_valid (⟦<S as Audited<D>>⟧.basis committees.now).rules e }
{
    let contents = message.contents();
    match committees.get(contents.round().epoch()) {
        Some(committee) => contents.verify(committee),
        None => false,
    }
}

/// Writes whom a message accuses, and whether it proves that. The status is [`WHOLE`]; or [`FAULT`] if the message is no
/// evidence, and then nothing is written.
fn judge_message<S: Listing<D>, D: Digest>(
    committees: &Committees<S>,
    message: &Activity<S, D>,
    accusation: &mut Accusation,
) -> u32
    ensures judged { IsMessageJudged (⟦<S as Audited<D>>⟧.basis committees.now).rules message.now
        accusation.old accusation.new result }
    ensures status { (result ≢ 2) × (result ≢ 3) }
{
    match accusation_of(message, is_proved(committees, message)) {
        Some(found) => {
            *accusation = found;
            WHOLE
        }
        None => FAULT,
    }
}

/// Judges the evidence that some bytes are, and writes whom it accuses and whether it proves that. The status is [`WHOLE`],
/// [`FAULT`] if the bytes are not one message that is evidence, or [`MEMORY`]. Nothing is written after [`FAULT`] and
/// [`MEMORY`].
fn judge<S: Listing<D>, D: Digest>(
    alloc: Global,
    committees: &Committees<S>,
    bytes: &[u8],
    accusation: &mut Accusation,
) -> u32
    ensures judged { result ≢ 3 → IsJudged (⟦<S as Audited<D>>⟧.basis committees.now) bytes.now
        accusation.old accusation.new result }
    ensures memory { result ≡ 3 → accusation.new ≡ accusation.old }
    ensures status { result ≢ 2 }
{
    match read_whole::<Activity<S, D>>(alloc, bytes, &committees.bound()) {
        Ok(Some(message)) => judge_message(committees, &message, accusation),
        Ok(None) => FAULT,
        Err(_) => MEMORY,
    }
}

/// Judges an evidence whose signatures have `N` bytes, the last of which is the caller's verdict, under the committees of these
/// sizes. The status is [`WHOLE`], [`FAULT`] if the bytes are not one message that is evidence, or [`MEMORY`]; or
/// [`ARGUMENTS`] if there are no such committees. Nothing is written unless it is [`WHOLE`].
pub fn judge_vouched<R: Role<N>, const N: usize>(
    alloc: Global,
    epochs: &[u64],
    sizes: &[u32],
    bytes: &[u8],
    accusation: &mut Accusation,
) -> u32
    ensures judged { result ≢ 2 → result ≢ 3 → (committees : Schedule VouchedScheme) ×
        AreSizes epochs.now sizes.now committees ×
        IsJudged (⟦<Vouched<R, N> as Audited<Sha256Digest>>⟧.basis committees) bytes.now
        accusation.old accusation.new result }
    ensures taken { result ≢ 2 → AreCommitteeSizes epochs.now sizes.now }
    ensures refused { result ≡ 2 → ¬ AreCommitteeSizes epochs.now sizes.now }
    ensures untouched { (result ≡ 2) ⊎ (result ≡ 3) → accusation.new ≡ accusation.old }
{
    match sizes::committees::<R, N>(alloc, epochs, sizes) {
        Ok(Some(committees)) => {
            judge::<Vouched<R, N>, Sha256Digest>(alloc, &committees, bytes, accusation)
        }
        Ok(None) => ARGUMENTS,
        Err(_) => MEMORY,
    }
}

/// As [`judge_vouched`], of an evidence whose signatures have so many bytes, 48, 64 or 96, and the caller's verdict behind
/// each. The status is [`ARGUMENTS`] also if they have no such size.
pub fn judge_of_size(
    alloc: Global,
    signature: u32,
    epochs: &[u64],
    sizes: &[u32],
    bytes: &[u8],
    accusation: &mut Accusation,
) -> u32
    ensures judged { result ≢ 2 → result ≢ 3 → (committees : Schedule VouchedScheme) ×
        AreSizes epochs.now sizes.now committees × ForSizes signature
        (IsJudged (⟦<Vouched<Role48, 49> as Audited<Sha256Digest>>⟧.basis committees) bytes.now
        accusation.old accusation.new result)
        (IsJudged (⟦<Vouched<Role64, 65> as Audited<Sha256Digest>>⟧.basis committees) bytes.now
        accusation.old accusation.new result)
        (IsJudged (⟦<Vouched<Role96, 97> as Audited<Sha256Digest>>⟧.basis committees) bytes.now
        accusation.old accusation.new result) }
    ensures taken { result ≢ 2 → IsVouchedSize signature × AreCommitteeSizes epochs.now sizes.now }
    ensures refused { result ≡ 2 →
        ¬ (IsVouchedSize signature × AreCommitteeSizes epochs.now sizes.now) }
    ensures untouched { (result ≡ 2) ⊎ (result ≡ 3) → accusation.new ≡ accusation.old }
{
    match vouched_size(signature) {
        Some(VouchedSize::Of48) => {
            judge_vouched::<Role48, 49>(alloc, epochs, sizes, bytes, accusation)
        }
        Some(VouchedSize::Of64) => {
            judge_vouched::<Role64, 65>(alloc, epochs, sizes, bytes, accusation)
        }
        Some(VouchedSize::Of96) => {
            judge_vouched::<Role96, 97>(alloc, epochs, sizes, bytes, accusation)
        }
        None => ARGUMENTS,
    }
}

/// As [`judge_vouched`], of an evidence of the plain scheme, under the committees of these keys.
pub fn judge_plain(
    alloc: Global,
    namespace: &[u8],
    epochs: &[u64],
    sizes: &[u32],
    keys: &[u8],
    bytes: &[u8],
    accusation: &mut Accusation,
) -> u32
    ensures judged { result ≢ 2 → result ≢ 3 → (committees : Schedule PlainScheme) ×
        AreOfKeys namespace.now epochs.now sizes.now keys.now committees ×
        IsJudged (⟦<Plain as Audited<Sha256Digest>>⟧.basis committees) bytes.now
        accusation.old accusation.new result }
    ensures taken { result ≢ 2 → IsLengthOfKeys epochs.now sizes.now (length keys.now) }
    ensures refused { result ≡ 2 → ¬ AreKeys epochs.now sizes.now keys.now }
    ensures untouched { (result ≡ 2) ⊎ (result ≡ 3) → accusation.new ≡ accusation.old }
{
    match keys::committees(alloc, namespace, epochs, sizes, keys) {
        Ok(Some(committees)) => {
            judge::<Plain, Sha256Digest>(alloc, &committees, bytes, accusation)
        }
        Ok(None) => ARGUMENTS,
        Err(_) => MEMORY,
    }
}
