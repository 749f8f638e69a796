//! The union of all messages.

ghost use Rattle.std.specs.Prelude.{ℕ, ◌≡◌, ◌≢◌, ◌+◌, ◌*◌, ◌^◌, ◌≤◌, ◌⊎◌, ◌∷◌, length, false, None, Ok, IfOk, IfErr, IfSome, IsTrue};
ghost use Rattle.simplex_base.specs.Format.{format_of, format_under};
ghost use Rattle.simplex_base.specs.LeastSize.{NoneShorter};
ghost use Rattle.simplex_base.specs.Positions.{IsLongRound};
ghost use Rattle.simplex_base.specs.Reading.{Gives};
ghost use Rattle.simplex_scheme.specs.Attestation.{attestation_of};
ghost use Rattle.simplex_scheme.specs.Proposal.{proposal_of, IsLongProposal};
ghost use Rattle.simplex_evidence.specs.Activity.{IsLongActivity};
ghost use Rattle.simplex_stream.specs.Progress.{IsShown};

use crate::types::conflicting_finalize::ConflictingFinalize;
use crate::types::conflicting_notarize::ConflictingNotarize;
use crate::types::contents::{Contents, finalized, notarized, nullified};
use crate::types::nullify_finalize::NullifyFinalize;
use simplex_base::codec::unions::{Tagged, read_tagged, write_tagged};
use simplex_base::codec::{EncodeSize, Encoding, Error, Fixed, Read, Write};
use simplex_base::positions::{Round, Roundable};
use simplex_scheme::scheme::{
    Attestation, AttestationParts, CertificateScheme, Digest, Proposal, ProposalParts, Scheme,
    Subject,
};
use simplex_stream::messages::{Message, Show, Visitor, show_front};
use simplex_votes::map_ok;
use simplex_votes::types::{
    Finalization, Finalize, Notarization, Notarize, Nullification, Nullify,
};
use std::alloc::{AllocError, Global};

/// A message: a vote, a certificate message, or evidence of two votes that contradict. It is encoded as one byte of
/// tag, and then the parts of the member with that tag. It is read under the committee's bound.
#[derive(Drop)]
#[derive_where(PartialEq, Eq; S::Certificate)]
#[derive_where(Hash; S::Certificate, S::Signature, D)]
pub enum Activity<S: CertificateScheme, D: Digest> {
    /// Tag 0.
    Notarize(Notarize<S, D>),
    /// Tag 1.
    Notarization(Notarization<S, D>),
    /// Tag 2: the notarization of a proposal that was certified.
    Certification(Notarization<S, D>),
    /// Tag 3.
    Nullify(Nullify<S>),
    /// Tag 4.
    Nullification(Nullification<S>),
    /// Tag 5.
    Finalize(Finalize<S, D>),
    /// Tag 6.
    Finalization(Finalization<S, D>),
    /// Tag 7.
    ConflictingNotarize(ConflictingNotarize<S, D>),
    /// Tag 8.
    ConflictingFinalize(ConflictingFinalize<S, D>),
    /// Tag 9.
    NullifyFinalize(NullifyFinalize<S, D>),
}

impl<S: CertificateScheme, D: Digest> Activity<S, D> {
    ghost use Rattle.simplex_evidence.specs.Contents.{AreInConflict, contents_value};
    ghost use Rattle.simplex_evidence.specs.Activity.{contents_of, has_certificate, IsActivityClone, ClonesCertificate};

    /// Whether the message is of a kind that consensus verifies before it reports it: those with a certificate, and
    /// no others. It looks at no signature; [`verify`](Activity::verify) does.
    pub fn verified(&self) -> bool
        ensures { result ≡ has_certificate self.now }
    {
        match self {
            Activity::Notarization(_) => true,
            Activity::Certification(_) => true,
            Activity::Nullification(_) => true,
            Activity::Finalization(_) => true,
            _ => false,
        }
    }

    /// What the message holds, whatever its kind. The two votes of evidence contradict.
    pub fn contents(&self) -> Contents<'_, S, D>
        ensures value { contents_value result ≡ contents_of self.now }
        ensures conflict { AreInConflict D.eq (contents_of self.now) }
    {
        match self {
            Activity::Notarize(vote) => Contents::Vote(notarized(vote)),
            Activity::Notarization(message) | Activity::Certification(message) => {
                let proposal = &message.proposal;
                Contents::Certificate(Subject::Notarize { proposal }, &message.certificate)
            }
            Activity::Nullify(vote) => Contents::Vote(nullified(vote)),
            Activity::Nullification(message) => {
                let round = message.round;
                Contents::Certificate(Subject::Nullify { round }, &message.certificate)
            }
            Activity::Finalize(vote) => Contents::Vote(finalized(vote)),
            Activity::Finalization(message) => {
                let proposal = &message.proposal;
                Contents::Certificate(Subject::Finalize { proposal }, &message.certificate)
            }
            Activity::ConflictingNotarize(evidence) => Contents::Evidence(
                notarized(evidence.notarize_1()),
                notarized(evidence.notarize_2()),
            ),
            Activity::ConflictingFinalize(evidence) => Contents::Evidence(
                finalized(evidence.finalize_1()),
                finalized(evidence.finalize_2()),
            ),
            Activity::NullifyFinalize(evidence) => Contents::Evidence(
                nullified(evidence.nullify()),
                finalized(evidence.finalize()),
            ),
        }
    }

    /// The same message, with a clone of the certificate where it has one. Only that clone
    /// allocates; `AllocError` only where an allocation failed.
    pub fn clone(&self) -> Result<Self, AllocError>
        ensures parts { IfOk result (λ copy. IsActivityClone S.Certificate.is_clone self.now copy) }
        // Where a certificate's clone is the certificate, this one's is this message.
        ensures same { ClonesCertificate S.Certificate.is_clone self.now →
            IfOk result (λ copy. copy ≡ self.now) }
        ensures refused { IfErr result (λ _. IsTrue (has_certificate self.now)) }
    {
        match self {
            Activity::Notarize(vote) => Ok(Activity::Notarize(vote.copy())),
            Activity::Notarization(message) => map_ok!(message.clone(), Activity::Notarization),
            Activity::Certification(message) => map_ok!(message.clone(), Activity::Certification),
            Activity::Nullify(vote) => Ok(Activity::Nullify(vote.copy())),
            Activity::Nullification(message) => map_ok!(message.clone(), Activity::Nullification),
            Activity::Finalize(vote) => Ok(Activity::Finalize(vote.copy())),
            Activity::Finalization(message) => map_ok!(message.clone(), Activity::Finalization),
            Activity::ConflictingNotarize(evidence) => map_ok!(
                evidence.clone(),
                Activity::ConflictingNotarize
            ),
            Activity::ConflictingFinalize(evidence) => map_ok!(
                evidence.clone(),
                Activity::ConflictingFinalize
            ),
            Activity::NullifyFinalize(evidence) => map_ok!(
                evidence.clone(),
                Activity::NullifyFinalize
            ),
        }
    }
}

impl<S: Scheme<D>, D: Digest> Activity<S, D> {
    ghost use Rattle.simplex_evidence.specs.Activity.{activity_verifies};

    /// Whether the message is valid: a vote by its signature, a certificate message by its certificate, and evidence
    /// by both of its signatures. It verifies them no matter what [`verified`](Activity::verified) returns.
    pub fn verify(&self, scheme: &S) -> bool
        ensures { result ≡ activity_verifies (S.good scheme.now) (S.certified scheme.now) self.now }
    {
        self.contents().verify(scheme)
    }
}

impl<S: CertificateScheme, D: Digest> Roundable for Activity<S, D> {
    ghost use Rattle.simplex_evidence.specs.Activity.{activity_round};

    ghost round_of = { activity_round };

    fn round(&self) -> Round {
        self.contents().round()
    }
}

impl<S: CertificateScheme, D: Digest> Encoding for Activity<S, D> {
    ghost use Rattle.simplex_evidence.specs.Activity.{IsActivity, activity_encoding};

    ghost is_value = { IsActivity D.eq (format_of ⟦<D as Read>⟧) S.Certificate.is_value
        (format_of ⟦<S::Signature as Read>⟧) };

    ghost encoding = { activity_encoding D.eq (format_of ⟦<D as Read>⟧) S.Certificate.encoding
        (format_of ⟦<S::Signature as Read>⟧) };
}

impl<S: CertificateScheme, D: Digest> Write for Activity<S, D> {
    fn write(&self, buf: &mut Vec<u8>) -> Result<(), AllocError> {
        match self {
            Activity::Notarize(vote) => write_tagged(0, vote, buf),
            Activity::Notarization(message) => write_tagged(1, message, buf),
            Activity::Certification(message) => write_tagged(2, message, buf),
            Activity::Nullify(vote) => write_tagged(3, vote, buf),
            Activity::Nullification(message) => write_tagged(4, message, buf),
            Activity::Finalize(vote) => write_tagged(5, vote, buf),
            Activity::Finalization(message) => write_tagged(6, message, buf),
            Activity::ConflictingNotarize(evidence) => write_tagged(7, evidence, buf),
            Activity::ConflictingFinalize(evidence) => write_tagged(8, evidence, buf),
            Activity::NullifyFinalize(evidence) => write_tagged(9, evidence, buf),
        }
    }
}

impl<S: CertificateScheme, D: Digest> EncodeSize for Activity<S, D> {
    ghost limit = { 71 + 4 * 65535 + 2 ^ 50 };

    fn encode_size(&self) -> usize {
        match self {
            Activity::Notarize(vote) => 1 + vote.encode_size(),
            Activity::Notarization(message) => 1 + message.encode_size(),
            Activity::Certification(message) => 1 + message.encode_size(),
            Activity::Nullify(vote) => 1 + vote.encode_size(),
            Activity::Nullification(message) => 1 + message.encode_size(),
            Activity::Finalize(vote) => 1 + vote.encode_size(),
            Activity::Finalization(message) => 1 + message.encode_size(),
            Activity::ConflictingNotarize(evidence) => 1 + evidence.encode_size(),
            Activity::ConflictingFinalize(evidence) => 1 + evidence.encode_size(),
            Activity::NullifyFinalize(evidence) => 1 + evidence.encode_size(),
        }
    }
}

impl<S: CertificateScheme, D: Digest> Read for Activity<S, D> {
    ghost use Rattle.simplex_evidence.specs.Activity.{activity_format};
    ghost use Rattle.simplex_evidence.specs.ActivityLaws.{activity_lawful};

    type Cfg = u32;

    ghost fits = { λ bound. (activity_format D.eq (format_of ⟦<D as Read>⟧)
        (format_under ⟦<S::Certificate as Read>⟧ bound)
        (format_of ⟦<S::Signature as Read>⟧)).is_value };

    ghost reading = { λ bound.
        (activity_format D.eq (format_of ⟦<D as Read>⟧)
        (format_under ⟦<S::Certificate as Read>⟧ bound)
        (format_of ⟦<S::Signature as Read>⟧)).reading };

    ghost takes_memory = { S.Certificate.takes_memory };

    #[inline(always)]
    fn read_cfg(alloc: Global, input: &mut &[u8], bound: &u32) -> Result<Self, Error> {
        read_tagged(alloc, input, bound)
    }

    fn least_size(alloc: Global, bytes: &[u8], bound: &u32) -> usize {
        match bytes {
            [] => 0,
            [tag, body @ ..] => size_behind::<S, D>(alloc, *tag, body, bound).saturating_add(1),
        }
    }

    ghost lawful = { λ bound.
        activity_lawful D.eq _ _ _ D.lawful (S.Certificate.lawful bound) S.Signature.lawful };
}

/// A lower bound of the sizes of the bodies that begin with these bytes, after this tag.
fn size_behind<S: CertificateScheme, D: Digest>(
    alloc: Global,
    tag: u8,
    body: &[u8],
    bound: &u32,
) -> usize
    ensures { NoneShorter (⟦<Activity<S, D> as Read>⟧.fits bound.now)
        ⟦<Activity<S, D> as Read>⟧.encoding (tag ∷ body.now) (result + 1) }
{
    match tag {
        1 | 2 => Notarization::<S, D>::least_size(alloc, body, bound),
        4 => Nullification::<S>::least_size(alloc, body, bound),
        6 => Finalization::<S, D>::least_size(alloc, body, bound),
        _ => body.len(),
    }
}

impl<S: CertificateScheme, D: Digest> Tagged for Activity<S, D> {
    ghost use Rattle.simplex_evidence.specs.Activity.{activity_branches};

    type Cfg = u32;

    ghost branches = { λ bound.
        activity_branches D.eq (format_of ⟦<D as Read>⟧)
        (format_under ⟦<S::Certificate as Read>⟧ bound) (format_of ⟦<S::Signature as Read>⟧) };

    ghost takes_memory = { S.Certificate.takes_memory };

    #[inline(always)]
    fn read_body(alloc: Global, tag: u8, input: &mut &[u8], bound: &u32) -> Result<Self, Error> {
        match tag {
            0 => read_notarize(alloc, input),
            3 => read_nullify(alloc, input),
            5 => read_finalize(alloc, input),
            _ => read_other(alloc, tag, input, bound),
        }
    }
}

// A function clears the room of all its arms when it is called, which would take longer than reading a vote. So each kind of
// vote has a function of its own, and what is inlined stops at its border.

/// Reads a notarize, the body behind the tag 0.
#[inline(never)]
fn read_notarize<S: CertificateScheme, D: Digest>(
    alloc: Global,
    input: &mut &[u8],
) -> Result<Activity<S, D>, Error>
    ensures { (bound : ℕ) → Gives S.Certificate.takes_memory result input.old.now input.new.now
        (⟦<Activity<S, D> as Tagged>⟧.branches bound 0 input.old.now) }
{
    map_ok!(Notarize::read_cfg(alloc, input, &()), Activity::Notarize)
}

/// Reads a nullify, the body behind the tag 3.
#[inline(never)]
fn read_nullify<S: CertificateScheme, D: Digest>(
    alloc: Global,
    input: &mut &[u8],
) -> Result<Activity<S, D>, Error>
    ensures { (bound : ℕ) → Gives S.Certificate.takes_memory result input.old.now input.new.now
        (⟦<Activity<S, D> as Tagged>⟧.branches bound 3 input.old.now) }
{
    map_ok!(Nullify::read_cfg(alloc, input, &()), Activity::Nullify)
}

/// Reads a finalize, the body behind the tag 5.
#[inline(never)]
fn read_finalize<S: CertificateScheme, D: Digest>(
    alloc: Global,
    input: &mut &[u8],
) -> Result<Activity<S, D>, Error>
    ensures { (bound : ℕ) → Gives S.Certificate.takes_memory result input.old.now input.new.now
        (⟦<Activity<S, D> as Tagged>⟧.branches bound 5 input.old.now) }
{
    map_ok!(Finalize::read_cfg(alloc, input, &()), Activity::Finalize)
}

/// Reads the body behind a tag that no vote has.
#[inline(never)]
fn read_other<S: CertificateScheme, D: Digest>(
    alloc: Global,
    tag: u8,
    input: &mut &[u8],
    bound: &u32,
) -> Result<Activity<S, D>, Error>
    requires notarize { tag ≢ 0 }
    requires nullify { tag ≢ 3 }
    requires finalize { tag ≢ 5 }
    ensures { Gives S.Certificate.takes_memory result input.old.now input.new.now
        (⟦<Activity<S, D> as Tagged>⟧.branches bound.now tag input.old.now) }
{
    match tag {
        1 => map_ok!(
            Notarization::read_cfg(alloc, input, bound),
            Activity::Notarization
        ),
        2 => map_ok!(
            Notarization::read_cfg(alloc, input, bound),
            Activity::Certification
        ),
        4 => map_ok!(
            Nullification::read_cfg(alloc, input, bound),
            Activity::Nullification
        ),
        6 => map_ok!(
            Finalization::read_cfg(alloc, input, bound),
            Activity::Finalization
        ),
        7 => map_ok!(
            ConflictingNotarize::read_cfg(alloc, input, &()),
            Activity::ConflictingNotarize
        ),
        8 => map_ok!(
            ConflictingFinalize::read_cfg(alloc, input, &()),
            Activity::ConflictingFinalize
        ),
        9 => map_ok!(
            NullifyFinalize::read_cfg(alloc, input, &()),
            Activity::NullifyFinalize
        ),
        _ => Err(Error::Invalid("consensus::simplex::Activity", "Invalid type")),
    }
}

impl<S: CertificateScheme, D: Digest> Message for Activity<S, D> {
    ghost use Rattle.std.proofs.Common.{arith};
    ghost use Rattle.simplex_evidence.specs.Activity.{activity_longest};

    ghost never_empty = { λ message. Prim.omega arith };

    ghost longest = { λ bound. activity_longest D.SIZE (S.max_size bound) S.Signature.SIZE };

    /// They are if those of certificates are.
    fn refusals_are_final() -> bool {
        S::refusals_are_final()
    }
}

impl<S: CertificateScheme, D: Digest> Show for Activity<S, D> {
    ghost is_long = { IsLongActivity };

    fn show_short<V: Visitor<Self>>(
        alloc: Global,
        context: &V::Context,
        bound: u32,
        input: &mut &[u8],
        visitor: &mut V,
    ) -> Result<bool, AllocError> {
        let [tag, body @ ..] = *input else {
            return Ok(false);
        };
        match *tag {
            0 => show_notarize(alloc, context, bound, body, input, visitor),
            3 => show_nullify(alloc, context, bound, body, input, visitor),
            5 => show_finalize(alloc, context, bound, body, input, visitor),
            _ => Ok(false),
        }
    }
}

/// Shows a notarize, the body behind the tag 0. One whose numbers are short is read at once.
#[inline(never)]
fn show_notarize<'a, S: CertificateScheme, D: Digest, V: Visitor<Activity<S, D>>>(
    alloc: Global,
    context: &V::Context,
    bound: u32,
    body: &'a [u8],
    input: &mut &'a [u8],
    visitor: &mut V,
) -> Result<bool, AllocError>
    requires tag { input.old.now ≡ 0 ∷ body.now }
    requires room { V.has_room visitor.old (length input.old.now) }
    ensures shown { IfOk result (λ shown. IsShown (⟦<Activity<S, D> as Read>⟧.reading bound) (V.follows context.now) shown
        input.old.now input.new.now visitor.old visitor.new) }
    ensures long { IfOk result (λ shown. shown ≡ false →
        IfOk (⟦<Activity<S, D> as Read>⟧.reading bound input.old.now) (λ x. IsLongActivity x.0)) }
{
    let Some((proposal, attestation, rest)) = short_parts::<S, D>(body) else {
        return Ok(false);
    };
    let message = Activity::Notarize(Notarize {
        proposal: Proposal::of_parts(proposal),
        attestation: Attestation::of_parts(attestation),
    });
    show_front(alloc, context, bound, &message, rest, input, visitor)
}

/// Shows a finalize, the body behind the tag 5. One whose numbers are short is read at once.
#[inline(never)]
fn show_finalize<'a, S: CertificateScheme, D: Digest, V: Visitor<Activity<S, D>>>(
    alloc: Global,
    context: &V::Context,
    bound: u32,
    body: &'a [u8],
    input: &mut &'a [u8],
    visitor: &mut V,
) -> Result<bool, AllocError>
    requires tag { input.old.now ≡ 5 ∷ body.now }
    requires room { V.has_room visitor.old (length input.old.now) }
    ensures shown { IfOk result (λ shown. IsShown (⟦<Activity<S, D> as Read>⟧.reading bound) (V.follows context.now) shown
        input.old.now input.new.now visitor.old visitor.new) }
    ensures long { IfOk result (λ shown. shown ≡ false →
        IfOk (⟦<Activity<S, D> as Read>⟧.reading bound input.old.now) (λ x. IsLongActivity x.0)) }
{
    let Some((proposal, attestation, rest)) = short_parts::<S, D>(body) else {
        return Ok(false);
    };
    let message = Activity::Finalize(Finalize {
        proposal: Proposal::of_parts(proposal),
        attestation: Attestation::of_parts(attestation),
    });
    show_front(alloc, context, bound, &message, rest, input, visitor)
}

/// Shows a nullify, the body behind the tag 3. One whose numbers are short is read at once.
#[inline(never)]
fn show_nullify<'a, S: CertificateScheme, D: Digest, V: Visitor<Activity<S, D>>>(
    alloc: Global,
    context: &V::Context,
    bound: u32,
    body: &'a [u8],
    input: &mut &'a [u8],
    visitor: &mut V,
) -> Result<bool, AllocError>
    requires tag { input.old.now ≡ 3 ∷ body.now }
    requires room { V.has_room visitor.old (length input.old.now) }
    ensures shown { IfOk result (λ shown. IsShown (⟦<Activity<S, D> as Read>⟧.reading bound) (V.follows context.now) shown
        input.old.now input.new.now visitor.old visitor.new) }
    ensures long { IfOk result (λ shown. shown ≡ false →
        IfOk (⟦<Activity<S, D> as Read>⟧.reading bound input.old.now) (λ x. IsLongActivity x.0)) }
{
    let Some((round, attestation, rest)) = short_nullify::<S>(body) else {
        return Ok(false);
    };
    let attestation = Attestation::of_parts(attestation);
    let message = Activity::Nullify(Nullify { round, attestation });
    show_front(alloc, context, bound, &message, rest, input, visitor)
}

/// The parts of a vote on a proposal at the front of some bytes, if its numbers are short, and the bytes after it.
#[inline(always)]
fn short_parts<S: CertificateScheme, D: Digest>(
    bytes: &[u8],
) -> Option<(ProposalParts<'_>, AttestationParts<'_>, &[u8])>
    ensures proposal { IfSome result (λ x. length x.0.2.now ≡ D.SIZE) }
    ensures attestation { IfSome result (λ x. length x.1.1.now ≡ S.Signature.SIZE) }
    ensures notarize { IfSome result (λ x. ⟦<Notarize<S, D> as Read>⟧.reading tt bytes.now ≡ Ok (
      record {
        proposal = proposal_of D.of_bytes x.0;
        attestation = attestation_of S.Signature.of_bytes x.1;
      },
      x.2.now,
    )) }
    ensures finalize { IfSome result (λ x. ⟦<Finalize<S, D> as Read>⟧.reading tt bytes.now ≡ Ok (
      record {
        proposal = proposal_of D.of_bytes x.0;
        attestation = attestation_of S.Signature.of_bytes x.1;
      },
      x.2.now,
    )) }
    ensures long_notarize { result ≡ None → IfOk (⟦<Notarize<S, D> as Read>⟧.reading tt bytes.now) (λ x.
        IsLongProposal x.0.proposal ⊎ (2 ^ 28 ≤ x.0.attestation.signer)) }
    ensures long_finalize { result ≡ None → IfOk (⟦<Finalize<S, D> as Read>⟧.reading tt bytes.now) (λ x.
        IsLongProposal x.0.proposal ⊎ (2 ^ 28 ≤ x.0.attestation.signer)) }
{
    let Some((proposal, rest)) = Proposal::<D>::short_parts(bytes) else {
        return None;
    };
    let Some((attestation, rest)) = Attestation::<S>::short_parts(rest) else {
        return None;
    };
    Some((proposal, attestation, rest))
}

/// The parts of a nullify at the front of some bytes, if its numbers are short, and the bytes after it.
#[inline(always)]
fn short_nullify<S: CertificateScheme>(bytes: &[u8]) -> Option<(Round, AttestationParts<'_>, &[u8])>
    ensures attestation { IfSome result (λ x. length x.1.1.now ≡ S.Signature.SIZE) }
    ensures nullify { IfSome result (λ x. ⟦<Nullify<S> as Read>⟧.reading tt bytes.now ≡ Ok (
      record {
        round = x.0;
        attestation = attestation_of S.Signature.of_bytes x.1;
      },
      x.2.now,
    )) }
    ensures long { result ≡ None → IfOk (⟦<Nullify<S> as Read>⟧.reading tt bytes.now) (λ x.
        IsLongRound x.0.round ⊎ (2 ^ 28 ≤ x.0.attestation.signer)) }
{
    let Some((round, rest)) = Round::read_short(bytes) else {
        return None;
    };
    let Some((attestation, rest)) = Attestation::<S>::short_parts(rest) else {
        return None;
    };
    Some((round, attestation, rest))
}
