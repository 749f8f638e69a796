//! Certificates that a proposal is notarized.

ghost use Rattle.std.specs.Prelude.{◌≡◌, ◌↔◌, ◌+◌, ◌<◌, ◌≤◌, ◌^◌, true, IsTrue, IfOk, All, length, map};
ghost use Rattle.simplex_base.specs.Format.{format_of, format_under};
ghost use Rattle.simplex_scheme.specs.Committee.{RefusesFew, AssemblesQuorum};
ghost use Rattle.simplex_scheme.specs.Subject.{Notarizes};

use crate::types::assembly::{assemble, stand_together};
use crate::types::notarize::Notarize;
use simplex_base::codec::parts::{size_both, write_both};
use simplex_base::codec::{EncodeSize, Encoding, Error, Fixed, MaxEncodeSize, Read, Write};
use simplex_base::or_return;
use simplex_base::positions::{Round, Roundable, View};
use simplex_scheme::scheme::{
    AssemblyError, Attestation, CertificateScheme, CertificateVerifier, Digest, Proposal, Scheme,
    Subject,
};
use std::alloc::{AllocError, Global};

/// A proposal with a certificate of votes to notarize it, encoded in that order: at most 30 bytes,
/// the digest's and those of the greatest certificate. It is read under the committee's bound.
#[derive(Drop)]
#[derive_where(PartialEq, Eq; S::Certificate)]
#[derive_where(Hash; S::Certificate, D)]
pub struct Notarization<S: CertificateScheme, D: Digest> {
    /// What is certified; its round is that of the message.
    pub proposal: Proposal<D>,
    /// The certificate; `verify` says whether it certifies.
    pub certificate: S::Certificate,
}

impl<S: CertificateScheme, D: Digest> Notarization<S, D> {
    ghost use Rattle.simplex_votes.specs.Encodings.{IsNotarization, notarization_encoding};

    /// The same proposal with a clone of the certificate. `AllocError` only where an allocation
    /// failed.
    pub fn clone(&self) -> Result<Self, AllocError>
        ensures parts { IfOk result (λ copy. (copy.proposal ≡ self.now.proposal) ×
            S.Certificate.is_clone self.now.certificate copy.certificate) }
        // Where a certificate's clone is the certificate, this one's is this notarization.
        ensures same { ((copy : S.Certificate) → S.Certificate.is_clone self.now.certificate copy →
            copy ≡ self.now.certificate) →
            IfOk result (λ copy. copy ≡ self.now) }
    {
        let certificate = self.certificate.clone()?;
        Ok(Notarization {
            proposal: self.proposal,
            certificate,
        })
    }

    /// The greatest number of bytes of a notarization that is read under this bound: 30 and those of the digest
    /// and of the greatest certificate.
    pub fn max_encode_size(participants: u32) -> usize
        ensures size { result ≡ 30 + D.SIZE + S.max_size participants }
        ensures within { (n : Notarization S D S.Certificate S.PublicKey S.Signature) →
            IsNotarization (format_of ⟦<D as Read>⟧) (S.Certificate.fits participants) n →
            length (notarization_encoding (format_of ⟦<D as Read>⟧) S.Certificate.encoding n) ≤
            result }
    {
        let proposal = Round::max_encode_size() + View::max_encode_size() + D::SIZE;
        proposal + S::max_certificate_size(participants)
    }
}

impl<S: CertificateVerifier<D>, D: Digest> Notarization<S, D> {
    /// Whether the certificate certifies that the proposal is notarized.
    pub fn verify(&self, scheme: &S) -> bool
        ensures { result ≡ S.certified scheme.now (Notarizes self.now.proposal)
            self.now.certificate }
    {
        let subject = Subject::Notarize {
            proposal: &self.proposal,
        };
        scheme.verify_certificate(subject, &self.certificate)
    }
}

impl<S: Scheme<D>, D: Digest> Notarization<S, D> {
    ghost use Rattle.simplex_votes.specs.Assembly.{CanNotarize, StandInOrder};

    /// Whether a notarization can be assembled from the votes, a quorum of them provided: there is at least one, all
    /// are for one proposal, and the signers are distinct and in the committee. It takes the time and the memory of
    /// [`are_distinct`](simplex_scheme::assembly::are_distinct).
    pub fn can_assemble(alloc: Global, scheme: &S, votes: &[Notarize<S, D>]) -> bool
        ensures can { IsTrue result ↔ CanNotarize (length (S.keys scheme.now)) votes.now }
        // It is so for votes for one proposal in ascending order of their signers.
        ensures ordered { StandInOrder (λ v. v.proposal) (λ v. v.attestation)
            (length (S.keys scheme.now)) votes.now → IsTrue result }
    {
        stand_together(alloc, votes, scheme.participants().len())
    }

    /// Assembles a notarization from votes, for which [`can_assemble`](Notarization::can_assemble) has to hold.
    /// `InsufficientAttestations`, with the quorum and the number of votes, where that number is below the quorum;
    /// nothing is then allocated. From a quorum on the only error is `OutOfMemory`. Where all the votes are valid,
    /// the notarization is certified.
    pub fn from_notarizes(
        alloc: Global,
        scheme: &S,
        votes: &[Notarize<S, D>],
    ) -> Result<Self, AssemblyError>
        requires { CanNotarize (length (S.keys scheme.now)) votes.now }
        ensures below { RefusesFew (length (S.keys scheme.now)) (length votes.now) result }
        ensures enough { AssemblesQuorum (length (S.keys scheme.now)) (length votes.now) result }
        ensures proposal { IfOk result (λ notarization.
            All (λ vote. vote.proposal ≡ notarization.proposal) votes.now) }
        ensures made { IfOk result (λ notarization.
            S.made_of (map (λ vote. vote.attestation) votes.now) notarization.certificate) }
        ensures certified { IfOk result (λ notarization.
            All (λ vote. S.good scheme.now (Notarizes vote.proposal) vote.attestation.signer
            vote.attestation.signature ≡ true) votes.now →
            S.certified scheme.now (Notarizes notarization.proposal) notarization.certificate ≡
            true) }
        ensures readable { IfOk result (λ notarization.
            All ⟦<Attestation<S> as Encoding>⟧.is_value (map (λ vote. vote.attestation) votes.now) →
            S.Certificate.fits (length (S.keys scheme.now)) notarization.certificate) }
    {
        match assemble(alloc, scheme, votes) {
            Ok(certificate) => Ok(Notarization {
                proposal: votes[0].proposal,
                certificate,
            }),
            Err(error) => Err(error),
        }
    }

    /// Assembles a notarization from votes as [`from_notarizes`](Notarization::from_notarizes) does.
    pub fn from_owned_notarizes(
        alloc: Global,
        scheme: &S,
        votes: Vec<Notarize<S, D>>,
    ) -> Result<Self, AssemblyError>
        requires { CanNotarize (length (S.keys scheme.now)) votes.items }
        ensures below { RefusesFew (length (S.keys scheme.now)) (length votes.items) result }
        ensures enough { AssemblesQuorum (length (S.keys scheme.now)) (length votes.items) result }
        ensures proposal { IfOk result (λ notarization.
            All (λ vote. vote.proposal ≡ notarization.proposal) votes.items) }
        ensures made { IfOk result (λ notarization.
            S.made_of (map (λ vote. vote.attestation) votes.items) notarization.certificate) }
        ensures certified { IfOk result (λ notarization.
            All (λ vote. S.good scheme.now (Notarizes vote.proposal) vote.attestation.signer
            vote.attestation.signature ≡ true) votes.items →
            S.certified scheme.now (Notarizes notarization.proposal) notarization.certificate ≡
            true) }
        ensures readable { IfOk result (λ notarization.
            All ⟦<Attestation<S> as Encoding>⟧.is_value (map (λ vote. vote.attestation) votes.items) →
            S.Certificate.fits (length (S.keys scheme.now)) notarization.certificate) }
    {
        Notarization::from_notarizes(alloc, scheme, votes.as_slice())
    }
}

impl<S: CertificateScheme, D: Digest> Roundable for Notarization<S, D> {
    ghost round_of = { λ notarization. notarization.proposal.round };

    fn round(&self) -> Round {
        self.proposal.round
    }
}

impl<S: CertificateScheme, D: Digest> Encoding for Notarization<S, D> {
    ghost use Rattle.simplex_votes.specs.Encodings.{IsNotarization, notarization_encoding};

    ghost is_value = { IsNotarization (format_of ⟦<D as Read>⟧) S.Certificate.is_value };

    ghost encoding = { notarization_encoding (format_of ⟦<D as Read>⟧) S.Certificate.encoding };
}

impl<S: CertificateScheme, D: Digest> Write for Notarization<S, D> {
    fn write(&self, buf: &mut Vec<u8>) -> Result<(), AllocError> {
        write_both(&self.proposal, &self.certificate, buf)
    }
}

impl<S: CertificateScheme, D: Digest> EncodeSize for Notarization<S, D> {
    ghost limit = { 30 + 65535 + 2 ^ 50 };

    fn encode_size(&self) -> usize {
        size_both(&self.proposal, &self.certificate)
    }
}

impl<S: CertificateScheme, D: Digest> Read for Notarization<S, D> {
    ghost use Rattle.simplex_votes.specs.Encodings.{notarization_format};
    ghost use Rattle.simplex_votes.specs.EncodingLaws.{notarization_lawful};

    type Cfg = u32;

    ghost fits = { λ bound. (notarization_format (format_of ⟦<D as Read>⟧)
        (format_under ⟦<S::Certificate as Read>⟧ bound)).is_value };

    ghost reading = { λ bound.
        (notarization_format (format_of ⟦<D as Read>⟧)
        (format_under ⟦<S::Certificate as Read>⟧ bound)).reading };

    ghost takes_memory = { S.Certificate.takes_memory };

    fn read_cfg(alloc: Global, input: &mut &[u8], bound: &u32) -> Result<Self, Error> {
        let mut rest: &[u8] = *input;
        let proposal = or_return!(Proposal::<D>::read_cfg(alloc, &mut rest, &()));
        let certificate = or_return!(S::Certificate::read_cfg(alloc, &mut rest, bound));
        *input = rest;
        Ok(Notarization {
            proposal,
            certificate,
        })
    }

    fn least_size(alloc: Global, bytes: &[u8], bound: &u32) -> usize {
        <(Proposal<D>, S::Certificate)>::least_size(alloc, bytes, bound)
    }

    ghost lawful = { λ bound. notarization_lawful _ _ D.lawful (S.Certificate.lawful bound) };
}
