//! Votes as keys, by which they are looked up.

ghost use Rattle.std.specs.Prelude.{◌≡◌, refl};
ghost use Rattle.simplex_scheme.specs.Subject.{subject_value};
ghost use Rattle.simplex_votes.specs.Votes.{SignedVote, notarize_vote, nullify_vote, finalize_vote, vote_on};
ghost use Rattle.simplex_rules.specs.Values.{evidence_value};
ghost use Rattle.simplex_places.specs.Votes.{proposal_of, same_signed_vote, vote_key};
ghost use Rattle.simplex_places.specs.KeyLaws.{keys_alike};

use simplex_base::codec::Fixed;
use simplex_base::positions::{Participant, Round, Roundable};
use simplex_rules::evidence::Evidence;
use simplex_scheme::scheme::{Attestation, Digest, Proposal, SchemeTypes, Subject, VoteKind};
use simplex_votes::types::{Finalize, Notarize, Nullify};

/// A vote by its value: its subject, its signer and its signature. Keys are ordered only so that they can be looked up.
#[derive(PartialEq, Eq, PartialOrd, Ord, Drop)]
pub struct VoteKey<D, G> {
    kind: VoteKind,
    round: Round,
    proposal: Option<Proposal<D>>,
    signer: Participant,
    signature: G,
}

/// A type of keys, which identify votes by their values.
pub trait Key<D: Digest, G: Fixed>: Ord + Drop {
    /// The key of a vote.
    ghost key_of: { SignedVote D G → Self };

    /// The key of the vote on a subject by this signer, with this signature.
    fn of(subject: &Subject<'_, D>, signer: Participant, signature: G) -> Self
    where
        Self: Sized,
        ensures { result ≡ key_of (record {
          subject = subject_value subject.now;
          signer = signer;
          signature = signature;
        }) };

    /// Keys are equal where the votes are the same.
    ghost alike: { (v w : SignedVote D G) →
        Self.eq (key_of v) (key_of w) ≡ same_signed_vote D.eq G.eq v w };
}

impl<D: Digest + Ord, G: Fixed + Ord> Key<D, G> for VoteKey<D, G> {
    ghost use Rattle.simplex_scheme.specs.declared.kind.VoteKind.TheVariants.{Notarize, Nullify, Finalize};

    ghost key_of = { vote_key };

    fn of(subject: &Subject<'_, D>, signer: Participant, signature: G) -> Self {
        VoteKey {
            kind: subject.kind(),
            round: subject.round(),
            proposal: proposal_of(subject),
            signer,
            signature,
        }
    }

    ghost alike = { keys_alike ⟦<VoteKind as PartialEq>⟧.eq D.eq G.eq (elim [
      | Notarize ↦ elim [ Notarize ↦ refl | Nullify ↦ refl | Finalize ↦ refl ]
      | Nullify ↦ elim [ Notarize ↦ refl | Nullify ↦ refl | Finalize ↦ refl ]
      | Finalize ↦ elim [ Notarize ↦ refl | Nullify ↦ refl | Finalize ↦ refl ]
    ]) };
}

/// The proposal of a subject; a nullify has none.
fn proposal_of<D: Digest>(subject: &Subject<'_, D>) -> Option<Proposal<D>>
    ensures { result ≡ proposal_of (subject_value subject.now) }
{
    match subject {
        Subject::Notarize { proposal } | Subject::Finalize { proposal } => Some(**proposal),
        Subject::Nullify { .. } => None,
    }
}

/// The key of the vote that an attestation of a subject is.
pub fn attested<K: Key<D, S::Signature>, S: SchemeTypes, D: Digest>(
    subject: &Subject<'_, D>,
    attestation: &Attestation<S>,
) -> K
    ensures { result ≡ K.key_of (vote_on (subject_value subject.now) attestation.now) }
{
    K::of(subject, attestation.signer, attestation.signature)
}

/// The key of a notarize.
fn notarize<K: Key<D, S::Signature>, S: SchemeTypes, D: Digest>(vote: &Notarize<S, D>) -> K
    ensures { result ≡ K.key_of (notarize_vote vote.now) }
{
    let subject = Subject::Notarize {
        proposal: &vote.proposal,
    };
    attested(&subject, &vote.attestation)
}

/// The key of a nullify.
fn nullify<K: Key<D, S::Signature>, S: SchemeTypes, D: Digest>(vote: &Nullify<S>) -> K
    ensures { result ≡ K.key_of (nullify_vote vote.now) }
{
    let subject: Subject<'_, D> = Subject::Nullify { round: vote.round };
    attested(&subject, &vote.attestation)
}

/// The key of a finalize.
fn finalize<K: Key<D, S::Signature>, S: SchemeTypes, D: Digest>(vote: &Finalize<S, D>) -> K
    ensures { result ≡ K.key_of (finalize_vote vote.now) }
{
    let subject = Subject::Finalize {
        proposal: &vote.proposal,
    };
    attested(&subject, &vote.attestation)
}

/// The key of the first vote of an evidence.
pub fn first<K: Key<D, S::Signature>, S: SchemeTypes, D: Digest>(evidence: &Evidence<S, D>) -> K
    ensures { result ≡ K.key_of (evidence_value evidence.now).first }
{
    match evidence {
        Evidence::ConflictingNotarize(conflict) => notarize(conflict.notarize_1()),
        Evidence::ConflictingFinalize(conflict) => finalize(conflict.finalize_1()),
        Evidence::NullifyFinalize(conflict) => nullify::<K, S, D>(conflict.nullify()),
    }
}

/// The key of the second vote of an evidence.
pub fn second<K: Key<D, S::Signature>, S: SchemeTypes, D: Digest>(evidence: &Evidence<S, D>) -> K
    ensures { result ≡ K.key_of (evidence_value evidence.now).second }
{
    match evidence {
        Evidence::ConflictingNotarize(conflict) => notarize(conflict.notarize_2()),
        Evidence::ConflictingFinalize(conflict) => finalize(conflict.finalize_2()),
        Evidence::NullifyFinalize(conflict) => finalize(conflict.finalize()),
    }
}
