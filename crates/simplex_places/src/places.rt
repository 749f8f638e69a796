//! Where the attestations of a message stand.

ghost use Rattle.std.specs.Prelude.{◌≡◌, ◌+◌, ◌-◌, ◌<◌, ◌^◌, ◌++◌, [], ◌∷◌, ℕ, List, IfOk, OnOk, length, map};
ghost use Rattle.std.specs.List.{flat_map};
ghost use Rattle.simplex_base.specs.Format.{format_of};
ghost use Rattle.simplex_scheme.specs.Subject.{message_of, subject_value};
ghost use Rattle.simplex_evidence.specs.Activity.{votes_in};
ghost use Rattle.simplex_places.specs.Bytes.{AreSomeAt};
ghost use Rattle.simplex_places.specs.Places.{behind, certificate_places, kind_number, message_places, placed_at, places_from, signed_at, vote_places};

use crate::located::Counted;
use simplex_base::codec::varint::size_u32;
use simplex_base::codec::{EncodeSize, Encoding, Fixed, Read};
use simplex_base::positions::{Round, Roundable};
use simplex_evidence::types::{Activity, Contents};
use simplex_scheme::scheme::{Attestation, Digest, SchemeTypes, Subject, VoteKind};
use std::alloc::{AllocError, Global};

/// An attestation of a stream, and where it stands there.
#[repr(C)]
#[derive(Clone, Copy, Debug, PartialEq, Eq)]
pub struct AttestationPlace {
    /// The epoch of its round.
    pub epoch: u64,
    /// The view of its round.
    pub view: u64,
    /// The 0-based offset of the last byte of its signature, the verdict.
    pub verdict_place: usize,
    /// The 0-based offset of the first byte of its subject, the message that is signed.
    pub subject_place: usize,
    /// The number of bytes of its subject.
    pub subject_length: usize,
    /// The number of its signer.
    pub signer: u32,
    /// The number of the vote's kind: 0 for a notarize, 1 for a nullify, 2 for a finalize.
    pub kind: u32,
}

/// An attestation of the stream.
#[derive(Clone, Copy, Debug, PartialEq, Eq)]
pub(crate) struct Placed {
    /// Where it stands, whether it has to be verified or not.
    pub attestation: AttestationPlace,
    /// Whether a certificate lists it. If not, it is a standalone vote or one in evidence.
    pub is_listed: bool,
}

/// What was signed, where its bytes stand, and whether a certificate lists its attestations.
#[derive(Clone, Copy)]
struct Signed {
    round: Round,
    kind: VoteKind,
    place: usize,
    size: usize,
    is_listed: bool,
}

/// The number of a kind of votes.
pub(crate) fn number_of(kind: VoteKind) -> u32
    ensures { result ≡ kind_number kind }
{
    match kind {
        VoteKind::Notarize => 0,
        VoteKind::Nullify => 1,
        VoteKind::Finalize => 2,
    }
}

/// Appends an attestation that begins at `place`, and returns the place behind it.
fn push_attestation<S: SchemeTypes>(
    signed: &Signed,
    place: usize,
    attestation: &Attestation<S>,
    places: &mut Vec<Placed>,
) -> Result<usize, AllocError>
    requires { behind (format_of ⟦<S::Signature as Read>⟧) place attestation.now < 2 ^ 64 }
    ensures { IfOk result (λ end.
        (end ≡ behind (format_of ⟦<S::Signature as Read>⟧) place attestation.now) ×
        (places.new.items ≡ places.old.items ++
        placed_at signed.now attestation.now.signer (end - 1) ∷ [])) }
{
    let end = place + attestation.encode_size();
    let attestation = AttestationPlace {
        epoch: signed.round.epoch().get(),
        view: signed.round.view().get(),
        verdict_place: end - 1,
        subject_place: signed.place,
        subject_length: signed.size,
        signer: attestation.signer.get(),
        kind: number_of(signed.kind),
    };
    places.push(Placed {
        attestation,
        is_listed: signed.is_listed,
    })?;
    Ok(end)
}

/// Appends attestations that stand one after another from `place` on.
fn push_attestations<S: SchemeTypes>(
    signed: &Signed,
    place: usize,
    attestations: &[Attestation<S>],
    places: &mut Vec<Placed>,
) -> Result<(), AllocError>
    requires { place + length (flat_map ⟦<Attestation<S> as Encoding>⟧.encoding attestations.now) <
        2 ^ 64 }
    ensures { OnOk result (places.new.items ≡ places.old.items ++
        places_from (format_of ⟦<S::Signature as Read>⟧) signed.now place attestations.now) }
{
    let mut next = place;
    'attestations: for attestation in attestations {
        next = push_attestation(signed, next, attestation, places)?;
    }
    Ok(())
}

/// How many bytes a subject has.
fn size_of<D: Digest>(subject: &Subject<'_, D>) -> usize
    ensures { result ≡ length (message_of (format_of ⟦<D as Read>⟧) (subject_value subject.now)) }
{
    match subject {
        Subject::Notarize { proposal } => proposal.encode_size(),
        Subject::Nullify { round } => round.encode_size(),
        Subject::Finalize { proposal } => proposal.encode_size(),
    }
}

/// A subject that begins at `place`.
fn signed_at<D: Digest>(place: usize, subject: &Subject<'_, D>, is_listed: bool) -> Signed
    ensures { result ≡ signed_at (format_of ⟦<D as Read>⟧) place (subject_value subject.now)
        is_listed }
{
    Signed {
        round: subject.round(),
        kind: subject.kind(),
        place,
        size: size_of(subject),
        is_listed,
    }
}

/// Appends the attestation of a vote, whose subject begins at `place` and is followed by the attestation, and returns the place
/// behind it.
fn push_vote<S: SchemeTypes, D: Digest>(
    place: usize,
    subject: &Subject<'_, D>,
    attestation: &Attestation<S>,
    places: &mut Vec<Placed>,
) -> Result<usize, AllocError>
    requires { place + length (message_of (format_of ⟦<D as Read>⟧) (subject_value subject.now) ++
        ⟦<Attestation<S> as Encoding>⟧.encoding attestation.now) < 2 ^ 64 }
    ensures { IfOk result (λ end.
        (end ≡ place + length (message_of (format_of ⟦<D as Read>⟧) (subject_value subject.now) ++
        ⟦<Attestation<S> as Encoding>⟧.encoding attestation.now)) ×
        (places.new.items ≡ places.old.items ++
        vote_places (format_of ⟦<D as Read>⟧) (format_of ⟦<S::Signature as Read>⟧) place
        (subject_value subject.now) attestation.now)) }
{
    let signed = signed_at(place, subject, false);
    push_attestation(&signed, place + signed.size, attestation, places)
}

/// Appends the attestations of a certificate, whose subject begins at `place` and is followed by the certificate.
fn push_certificate<S: Counted<D>, D: Digest>(
    place: usize,
    subject: &Subject<'_, D>,
    certificate: &S::Certificate,
    places: &mut Vec<Placed>,
) -> Result<(), AllocError>
    requires { place + length (message_of (format_of ⟦<D as Read>⟧) (subject_value subject.now) ++
        S.Certificate.encoding certificate.now) < 2 ^ 64 }
    ensures { OnOk result (places.new.items ≡ places.old.items ++
        certificate_places (format_of ⟦<D as Read>⟧) (format_of ⟦<S::Signature as Read>⟧) place
        (subject_value subject.now) (S.listed certificate.now)) }
{
    let signed = signed_at(place, subject, true);
    let first = place + signed.size + size_u32(S::count(certificate));
    push_attestations(&signed, first, S::attestations(certificate), places)
}

/// Appends the attestations of a message that begins at `place`, in the order of the stream.
pub(crate) fn push_message<S: Counted<D>, D: Digest>(
    place: usize,
    message: &Activity<S, D>,
    places: &mut Vec<Placed>,
) -> Result<(), AllocError>
    requires { place + length (⟦<Activity<S, D> as Encoding>⟧.encoding message.now) < 2 ^ 64 }
    ensures { OnOk result (places.new.items ≡ places.old.items ++
        message_places (format_of ⟦<D as Read>⟧) (format_of ⟦<S::Signature as Read>⟧) S.listed place
        message.now) }
{
    let place = place + 1;
    match message.contents() {
        Contents::Vote(vote) => {
            let _end = push_vote(place, &vote.subject, vote.attestation, places)?;
            Ok(())
        }
        Contents::Certificate(subject, certificate) => {
            push_certificate::<S, D>(place, &subject, certificate, places)
        }
        Contents::Evidence(first, second) => {
            let next = push_vote(place, &first.subject, first.attestation, places)?;
            let _end = push_vote(next, &second.subject, second.attestation, places)?;
            Ok(())
        }
    }
}

/// The attestations alone.
fn without_lists(alloc: Global, placed: &[Placed]) -> Result<Vec<AttestationPlace>, AllocError>
    ensures { IfOk result (λ found. found.items ≡ map (λ p. p.attestation) placed.now) }
{
    placed.iter().map(|one| one.attestation).collect(alloc)
}

/// The attestations of a message that is at the front of some bytes, in its order: each is a vote of the message, as it stands
/// in the bytes. `AllocError` only where an allocation failed.
pub fn attestations_of<S: Counted<D>, D: Digest>(
    alloc: Global,
    message: &Activity<S, D>,
) -> Result<Vec<AttestationPlace>, AllocError>
    requires { length (⟦<Activity<S, D> as Encoding>⟧.encoding message.now) < 2 ^ 64 }
    ensures places { IfOk result (λ found. found.items ≡
        map (λ p. p.attestation) (message_places (format_of ⟦<D as Read>⟧)
        (format_of ⟦<S::Signature as Read>⟧) S.listed 0 message.now)) }
    ensures votes { IfOk result (λ found. (bytes rest : List ℕ) →
        bytes ≡ ⟦<Activity<S, D> as Encoding>⟧.encoding message.now ++ rest →
        AreSomeAt (format_of ⟦<D as Read>⟧) (format_of ⟦<S::Signature as Read>⟧)
        (votes_in S.listed message.now) bytes found.items) }
{
    let mut placed = Vec::new(alloc);
    push_message(0, message, &mut placed)?;
    let found = without_lists(alloc, &placed)?;
    Ok(found)
}
