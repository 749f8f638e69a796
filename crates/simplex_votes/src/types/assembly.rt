//! How certificates are assembled from votes.

ghost use Rattle.std.specs.Prelude.{◌≡◌, ◌↔◌, ◌<◌, true, IsTrue, IfOk, All, length, map, nat_eq, refl};
ghost use Rattle.std.specs.List.{IsDistinct};
ghost use Rattle.simplex_scheme.specs.Committee.{signers_of, RefusesFew, AssemblesQuorum};
ghost use Rattle.simplex_scheme.specs.Subject.{SubjectValue};
ghost use Rattle.simplex_votes.specs.Assembly.{CanAssemble};

use crate::types::finalize::Finalize;
use crate::types::notarize::Notarize;
use crate::types::nullify::Nullify;
use simplex_base::codec::Encoding;
use simplex_base::positions::Round;
use simplex_scheme::assembly::are_distinct;
use simplex_scheme::scheme::{
    AssemblyError, Attestation, Attributable, Digest, Proposal, Scheme, SchemeTypes, quorum,
};
use std::alloc::{AllocError, Global};

/// A vote for a proposal or a round, with the attestation of its signer.
pub trait Attested<S: SchemeTypes>: Attributable {
    ghost use Rattle.simplex_scheme.specs.declared.scheme.Attestation.{Attestation};

    /// What votes of this kind are for.
    type Subject;

    /// What the vote is for.
    ghost subject_of: { Self → Self.Subject };

    /// The attestation of it.
    ghost attestation_of: { Self → Attestation S S.PublicKey S.Signature };

    /// The attestation.
    fn attestation(&self) -> &Attestation<S>
        ensures { result.now ≡ attestation_of self.now };

    /// Whether another vote is for the same.
    fn agrees_with(&self, other: &Self) -> bool
        ensures { IsTrue result ↔ (subject_of self.now ≡ subject_of other.now) };

    /// The signer of the vote is that of the attestation.
    ghost attests: { (vote : Self) → Self.signer_of vote ≡ (attestation_of vote).signer };
}

impl<S: SchemeTypes, D: Digest> Attested<S> for Notarize<S, D> {
    type Subject = Proposal<D>;

    ghost subject_of = { λ vote. vote.proposal };

    ghost attestation_of = { λ vote. vote.attestation };

    fn attestation(&self) -> &Attestation<S> {
        &self.attestation
    }

    fn agrees_with(&self, other: &Self) -> bool {
        self.proposal.is_same(&other.proposal)
    }

    ghost attests = { λ _. refl };
}

impl<S: SchemeTypes> Attested<S> for Nullify<S> {
    type Subject = Round;

    ghost subject_of = { λ vote. vote.round };

    ghost attestation_of = { λ vote. vote.attestation };

    fn attestation(&self) -> &Attestation<S> {
        &self.attestation
    }

    fn agrees_with(&self, other: &Self) -> bool {
        self.round == other.round
    }

    ghost attests = { λ _. refl };
}

impl<S: SchemeTypes, D: Digest> Attested<S> for Finalize<S, D> {
    type Subject = Proposal<D>;

    ghost subject_of = { λ vote. vote.proposal };

    ghost attestation_of = { λ vote. vote.attestation };

    fn attestation(&self) -> &Attestation<S> {
        &self.attestation
    }

    fn agrees_with(&self, other: &Self) -> bool {
        self.proposal.is_same(&other.proposal)
    }

    ghost attests = { λ _. refl };
}

/// Whether all the votes agree with this one.
fn agree_with<S: SchemeTypes, V: Attested<S>>(votes: &[V], first: &V) -> bool
    ensures { IsTrue result ↔ All (λ v. V.subject_of v ≡ V.subject_of first.now) votes.now }
{
    'votes: for vote in votes {
        if !vote.agrees_with(first) {
            return false;
        }
    }
    true
}

/// Whether a certificate can be assembled from the votes by a committee of this many, a quorum of votes provided:
/// there is at least one, all are for one subject, and the signers are distinct and in the committee.
pub fn stand_together<S: SchemeTypes, V: Attested<S>>(
    alloc: Global,
    votes: &[V],
    participants: usize,
) -> bool
    ensures { IsTrue result ↔ CanAssemble V.subject_of V.attestation_of participants votes.now }
{
    match votes.first() {
        Some(first) => agree_with(votes, first) && are_distinct(alloc, votes, participants),
        None => false,
    }
}

/// The attestations of votes.
fn attestations<S: SchemeTypes, V: Attested<S>>(
    alloc: Global,
    votes: &[V],
) -> Result<Vec<Attestation<S>>, AllocError>
    ensures { IfOk result (λ attestations. attestations.items ≡ map V.attestation_of votes.now) }
{
    let mut attestations = Vec::with_capacity(alloc, votes.len())?;
    'votes: for vote in votes {
        let attestation = vote.attestation();
        attestations.push(Attestation {
            signer: attestation.signer,
            signature: attestation.signature,
        })?;
    }
    Ok(attestations)
}

/// Assembles a certificate from votes whose signers are distinct and in the committee. `InsufficientAttestations`,
/// with the quorum and the number of votes, where that number is below the quorum; nothing is then allocated. From a
/// quorum on the only error is `OutOfMemory`. The certificate certifies every subject that all the votes are valid
/// for.
pub fn assemble<S: Scheme<D>, D: Digest, V: Attested<S>>(
    alloc: Global,
    scheme: &S,
    votes: &[V],
) -> Result<S::Certificate, AssemblyError>
    requires distinct { IsDistinct nat_eq (signers_of (map V.attestation_of votes.now)) }
    requires members { All (λ a.
        a.signer < length (S.keys scheme.now)) (map V.attestation_of votes.now) }
    ensures below { RefusesFew (length (S.keys scheme.now)) (length votes.now) result }
    ensures enough { AssemblesQuorum (length (S.keys scheme.now)) (length votes.now) result }
    ensures made { IfOk result (λ certificate.
        S.made_of (map V.attestation_of votes.now) certificate) }
    ensures certified { IfOk result (λ certificate. (subject : SubjectValue D) →
        All (λ v. S.good scheme.now subject (V.attestation_of v).signer
        (V.attestation_of v).signature ≡ true) votes.now →
        S.certified scheme.now subject certificate ≡ true) }
    ensures readable { IfOk result (λ certificate.
        All ⟦<Attestation<S> as Encoding>⟧.is_value (map V.attestation_of votes.now) →
        S.Certificate.fits (length (S.keys scheme.now)) certificate) }
{
    let quorum = quorum(scheme.participants().len() as u32);
    if votes.len() < quorum as usize {
        let count = votes.len() as u32;
        return Err(AssemblyError::InsufficientAttestations(quorum, count));
    }
    match attestations(alloc, votes) {
        Ok(attestations) => scheme.assemble(alloc, attestations),
        Err(_) => Err(AssemblyError::OutOfMemory),
    }
}
