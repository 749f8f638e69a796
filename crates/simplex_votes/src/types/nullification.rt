//! Certificates that a round is nullified.

ghost use Rattle.std.specs.Prelude.{◌≡◌, ◌↔◌, ◌+◌, ◌<◌, ◌≤◌, ◌^◌, true, IsTrue, IfOk, All, length, map};
ghost use Rattle.simplex_base.specs.Format.{format_under};
ghost use Rattle.simplex_scheme.specs.Committee.{RefusesFew, AssemblesQuorum};
ghost use Rattle.simplex_scheme.specs.Subject.{Nullifies};

use crate::types::assembly::{assemble, stand_together};
use crate::types::nullify::Nullify;
use simplex_base::codec::parts::{size_both, write_both};
use simplex_base::codec::{EncodeSize, Encoding, Error, MaxEncodeSize, Read, Write};
use simplex_base::or_return;
use simplex_base::positions::{Round, Roundable};
use simplex_scheme::scheme::{
    AssemblyError, Attestation, CertificateScheme, CertificateVerifier, Digest, Scheme, Subject,
};
use std::alloc::{AllocError, Global};

/// A round with a certificate of votes to nullify it, encoded in that order: at most 20 bytes and
/// those of the greatest certificate. It is read under the committee's bound.
#[derive(Drop)]
#[derive_where(PartialEq, Eq; S::Certificate)]
#[derive_where(Hash; S::Certificate)]
pub struct Nullification<S: CertificateScheme> {
    /// The round that is certified to be nullified.
    pub round: Round,
    /// The certificate; `verify` says whether it certifies.
    pub certificate: S::Certificate,
}

impl<S: CertificateScheme> Nullification<S> {
    ghost use Rattle.simplex_votes.specs.Encodings.{IsNullification, nullification_encoding};
    ghost use Rattle.simplex_votes.specs.Assembly.{CanNullify, StandInOrder};

    /// The same round with a clone of the certificate. `AllocError` only where an allocation
    /// failed.
    pub fn clone(&self) -> Result<Self, AllocError>
        ensures parts { IfOk result (λ copy. (copy.round ≡ self.now.round) ×
            S.Certificate.is_clone self.now.certificate copy.certificate) }
        // Where a certificate's clone is the certificate, this one's is this nullification.
        ensures same { ((copy : S.Certificate) → S.Certificate.is_clone self.now.certificate copy →
            copy ≡ self.now.certificate) →
            IfOk result (λ copy. copy ≡ self.now) }
    {
        let certificate = self.certificate.clone()?;
        Ok(Nullification {
            round: self.round,
            certificate,
        })
    }

    /// The greatest number of bytes of a nullification that is read under this bound: 20 and those of the
    /// greatest certificate.
    pub fn max_encode_size(participants: u32) -> usize
        ensures size { result ≡ 20 + S.max_size participants }
        ensures within { (n : Nullification S S.Certificate S.PublicKey S.Signature) →
            IsNullification (S.Certificate.fits participants) n →
            length (nullification_encoding S.Certificate.encoding n) ≤ result }
    {
        Round::max_encode_size() + S::max_certificate_size(participants)
    }

    /// Whether the certificate certifies that the round is nullified.
    pub fn verify<'a, D: Digest + 'a>(&self, scheme: &'a S) -> bool
    where
        S: CertificateVerifier<D>,
        ensures { result ≡ S.certified scheme.now (Nullifies self.now.round) self.now.certificate }
    {
        let subject: Subject<'a, D> = Subject::Nullify { round: self.round };
        scheme.verify_certificate(subject, &self.certificate)
    }

    /// Whether a nullification can be assembled from the votes, a quorum of them provided: there is at least one, all
    /// are for one round, and the signers are distinct and in the committee. It takes the time and the memory of
    /// [`are_distinct`](simplex_scheme::assembly::are_distinct).
    pub fn can_assemble<'a, D: Digest + 'a>(
        alloc: Global,
        scheme: &'a S,
        votes: &[Nullify<S>],
    ) -> bool
    where
        S: Scheme<D>,
        ensures can { IsTrue result ↔ CanNullify (length (S.keys scheme.now)) votes.now }
        // It is so for votes for one round in ascending order of their signers.
        ensures ordered { StandInOrder (λ v. v.round) (λ v. v.attestation)
            (length (S.keys scheme.now)) votes.now → IsTrue result }
    {
        stand_together(alloc, votes, scheme.participants().len())
    }

    /// Assembles a nullification from votes, for which [`can_assemble`](Nullification::can_assemble) has to hold.
    /// `InsufficientAttestations`, with the quorum and the number of votes, where that number is below the quorum;
    /// nothing is then allocated. From a quorum on the only error is `OutOfMemory`. Where all the votes are valid,
    /// the nullification is certified.
    pub fn from_nullifies<'a, D: Digest + 'a>(
        alloc: Global,
        scheme: &'a S,
        votes: &[Nullify<S>],
    ) -> Result<Self, AssemblyError>
    where
        S: Scheme<D>,
        requires { CanNullify (length (S.keys scheme.now)) votes.now }
        ensures below { RefusesFew (length (S.keys scheme.now)) (length votes.now) result }
        ensures enough { AssemblesQuorum (length (S.keys scheme.now)) (length votes.now) result }
        ensures round { IfOk result (λ nullification.
            All (λ vote. vote.round ≡ nullification.round) votes.now) }
        ensures made { IfOk result (λ nullification.
            S.made_of (map (λ vote. vote.attestation) votes.now) nullification.certificate) }
        ensures certified { IfOk result (λ nullification.
            All (λ vote. S.good scheme.now (Nullifies vote.round) vote.attestation.signer
            vote.attestation.signature ≡ true) votes.now →
            S.certified scheme.now (Nullifies nullification.round) nullification.certificate ≡
            true) }
        ensures readable { IfOk result (λ nullification.
            All ⟦<Attestation<S> as Encoding>⟧.is_value (map (λ vote. vote.attestation) votes.now) →
            S.Certificate.fits (length (S.keys scheme.now)) nullification.certificate) }
    {
        match assemble(alloc, scheme, votes) {
            Ok(certificate) => Ok(Nullification {
                round: votes[0].round,
                certificate,
            }),
            Err(error) => Err(error),
        }
    }

    /// Assembles a nullification from votes as [`from_nullifies`](Nullification::from_nullifies) does.
    pub fn from_owned_nullifies<'a, D: Digest + 'a>(
        alloc: Global,
        scheme: &'a S,
        votes: Vec<Nullify<S>>,
    ) -> Result<Self, AssemblyError>
    where
        S: Scheme<D>,
        requires { CanNullify (length (S.keys scheme.now)) votes.items }
        ensures below { RefusesFew (length (S.keys scheme.now)) (length votes.items) result }
        ensures enough { AssemblesQuorum (length (S.keys scheme.now)) (length votes.items) result }
        ensures round { IfOk result (λ nullification.
            All (λ vote. vote.round ≡ nullification.round) votes.items) }
        ensures made { IfOk result (λ nullification.
            S.made_of (map (λ vote. vote.attestation) votes.items) nullification.certificate) }
        ensures certified { IfOk result (λ nullification.
            All (λ vote. S.good scheme.now (Nullifies vote.round) vote.attestation.signer
            vote.attestation.signature ≡ true) votes.items →
            S.certified scheme.now (Nullifies nullification.round) nullification.certificate ≡
            true) }
        ensures readable { IfOk result (λ nullification.
            All ⟦<Attestation<S> as Encoding>⟧.is_value (map (λ vote. vote.attestation) votes.items) →
            S.Certificate.fits (length (S.keys scheme.now)) nullification.certificate) }
    {
        Nullification::from_nullifies(alloc, scheme, votes.as_slice())
    }
}

impl<S: CertificateScheme> Roundable for Nullification<S> {
    ghost round_of = { λ nullification. nullification.round };

    fn round(&self) -> Round {
        self.round
    }
}

impl<S: CertificateScheme> Encoding for Nullification<S> {
    ghost use Rattle.simplex_votes.specs.Encodings.{IsNullification, nullification_encoding};

    ghost is_value = { IsNullification S.Certificate.is_value };

    ghost encoding = { nullification_encoding S.Certificate.encoding };
}

impl<S: CertificateScheme> Write for Nullification<S> {
    fn write(&self, buf: &mut Vec<u8>) -> Result<(), AllocError> {
        write_both(&self.round, &self.certificate, buf)
    }
}

impl<S: CertificateScheme> EncodeSize for Nullification<S> {
    ghost limit = { 20 + 2 ^ 50 };

    fn encode_size(&self) -> usize {
        size_both(&self.round, &self.certificate)
    }
}

impl<S: CertificateScheme> Read for Nullification<S> {
    ghost use Rattle.simplex_votes.specs.Encodings.{nullification_format};
    ghost use Rattle.simplex_votes.specs.EncodingLaws.{nullification_lawful};

    type Cfg = u32;

    ghost fits = { λ bound. (nullification_format
        (format_under ⟦<S::Certificate as Read>⟧ bound)).is_value };

    ghost reading = { λ bound.
        (nullification_format (format_under ⟦<S::Certificate as Read>⟧ bound)).reading };

    ghost takes_memory = { S.Certificate.takes_memory };

    fn read_cfg(alloc: Global, input: &mut &[u8], bound: &u32) -> Result<Self, Error> {
        let mut rest: &[u8] = *input;
        let round = or_return!(Round::read_cfg(alloc, &mut rest, &()));
        let certificate = or_return!(S::Certificate::read_cfg(alloc, &mut rest, bound));
        *input = rest;
        Ok(Nullification { round, certificate })
    }

    fn least_size(alloc: Global, bytes: &[u8], bound: &u32) -> usize {
        <(Round, S::Certificate)>::least_size(alloc, bytes, bound)
    }

    ghost lawful = { λ bound. nullification_lawful _ (S.Certificate.lawful bound) };
}
