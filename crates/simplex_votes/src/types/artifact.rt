//! The union of what a node stores.

ghost use Rattle.std.specs.Prelude.{◌≡◌, ◌+◌, ◌^◌, IfOk, IfErr, IsTrue};
ghost use Rattle.simplex_base.specs.Format.{format_of, format_under};

use crate::map_ok;
use crate::types::certificate::Certificate;
use crate::types::finalization::Finalization;
use crate::types::finalize::Finalize;
use crate::types::notarization::Notarization;
use crate::types::notarize::Notarize;
use crate::types::nullification::Nullification;
use crate::types::nullify::Nullify;
use crate::types::vote::Vote;
use simplex_base::codec::unions::{Tagged, read_tagged, write_tagged};
use simplex_base::codec::{EncodeSize, Encoding, Error, Fixed, Read, Write};
use simplex_base::positions::{Round, Roundable};
use simplex_scheme::scheme::{CertificateScheme, Digest};
use std::alloc::{AllocError, Global};

/// A vote, a certificate message, or whether a round was certified: one byte of tag, and then the parts of the
/// member with that tag. It is read under the committee's bound.
#[derive(Drop)]
#[derive_where(PartialEq, Eq; S::Certificate)]
pub enum Artifact<S: CertificateScheme, D: Digest> {
    /// Tag 0.
    Notarize(Notarize<S, D>),
    /// Tag 1.
    Notarization(Notarization<S, D>),
    /// Tag 2: the round, and whether its proposal was certified.
    Certification(Round, bool),
    /// Tag 3.
    Nullify(Nullify<S>),
    /// Tag 4.
    Nullification(Nullification<S>),
    /// Tag 5.
    Finalize(Finalize<S, D>),
    /// Tag 6.
    Finalization(Finalization<S, D>),
}

impl<S: CertificateScheme, D: Digest> Artifact<S, D> {
    ghost use Rattle.simplex_votes.specs.Artifact.{artifact_has_certificate, IsArtifactClone, ArtifactClonesCertificate};

    /// The same artifact, with a clone of the certificate where it has one. Only that clone
    /// allocates; `AllocError` only where an allocation failed.
    pub fn clone(&self) -> Result<Self, AllocError>
        ensures parts { IfOk result (λ copy. IsArtifactClone S.Certificate.is_clone self.now copy) }
        // Where a certificate's clone is the certificate, this one's is this artifact.
        ensures same { ArtifactClonesCertificate S.Certificate.is_clone self.now →
            IfOk result (λ copy. copy ≡ self.now) }
        ensures refused { IfErr result (λ _. IsTrue (artifact_has_certificate self.now)) }
    {
        match self {
            Artifact::Notarize(vote) => Ok(Artifact::Notarize(vote.copy())),
            Artifact::Notarization(message) => map_ok!(message.clone(), Artifact::Notarization),
            Artifact::Certification(round, certified) => {
                Ok(Artifact::Certification(*round, *certified))
            }
            Artifact::Nullify(vote) => Ok(Artifact::Nullify(vote.copy())),
            Artifact::Nullification(message) => map_ok!(message.clone(), Artifact::Nullification),
            Artifact::Finalize(vote) => Ok(Artifact::Finalize(vote.copy())),
            Artifact::Finalization(message) => map_ok!(message.clone(), Artifact::Finalization),
        }
    }
}

impl<S: CertificateScheme, D: Digest> From<Vote<S, D>> for Artifact<S, D> {
    ghost use Rattle.simplex_votes.specs.Artifact.{vote_artifact};

    ghost from_gives = { λ vote artifact. artifact ≡ vote_artifact vote };

    fn from(vote: Vote<S, D>) -> Self {
        match vote {
            Vote::Notarize(vote) => Artifact::Notarize(vote),
            Vote::Nullify(vote) => Artifact::Nullify(vote),
            Vote::Finalize(vote) => Artifact::Finalize(vote),
        }
    }
}

impl<S: CertificateScheme, D: Digest> From<Certificate<S, D>> for Artifact<S, D> {
    ghost use Rattle.simplex_votes.specs.Artifact.{certificate_artifact};

    ghost from_gives = { λ message artifact. artifact ≡ certificate_artifact message };

    fn from(message: Certificate<S, D>) -> Self {
        match message {
            Certificate::Notarization(message) => Artifact::Notarization(message),
            Certificate::Nullification(message) => Artifact::Nullification(message),
            Certificate::Finalization(message) => Artifact::Finalization(message),
        }
    }
}

impl<S: CertificateScheme, D: Digest> Roundable for Artifact<S, D> {
    ghost use Rattle.simplex_votes.specs.Artifact.{artifact_round};

    ghost round_of = { artifact_round };

    fn round(&self) -> Round {
        match self {
            Artifact::Notarize(vote) => vote.round(),
            Artifact::Notarization(message) => message.round(),
            Artifact::Certification(round, _) => *round,
            Artifact::Nullify(vote) => vote.round(),
            Artifact::Nullification(message) => message.round(),
            Artifact::Finalize(vote) => vote.round(),
            Artifact::Finalization(message) => message.round(),
        }
    }
}

impl<S: CertificateScheme, D: Digest> Encoding for Artifact<S, D> {
    ghost use Rattle.simplex_votes.specs.Artifact.{IsArtifact, artifact_encoding};

    ghost is_value = { IsArtifact (format_of ⟦<D as Read>⟧) S.Certificate.is_value
        (format_of ⟦<S::Signature as Read>⟧) };

    ghost encoding = { artifact_encoding (format_of ⟦<D as Read>⟧) S.Certificate.encoding
        (format_of ⟦<S::Signature as Read>⟧) };
}

impl<S: CertificateScheme, D: Digest> Write for Artifact<S, D> {
    fn write(&self, buf: &mut Vec<u8>) -> Result<(), AllocError> {
        match self {
            Artifact::Notarize(vote) => write_tagged(0, vote, buf),
            Artifact::Notarization(message) => write_tagged(1, message, buf),
            Artifact::Certification(round, certified) => {
                write_tagged(2, &(*round, *certified), buf)
            }
            Artifact::Nullify(vote) => write_tagged(3, vote, buf),
            Artifact::Nullification(message) => write_tagged(4, message, buf),
            Artifact::Finalize(vote) => write_tagged(5, vote, buf),
            Artifact::Finalization(message) => write_tagged(6, message, buf),
        }
    }
}

impl<S: CertificateScheme, D: Digest> EncodeSize for Artifact<S, D> {
    ghost limit = { 36 + 65535 + 2 ^ 50 };

    fn encode_size(&self) -> usize {
        match self {
            Artifact::Notarize(vote) => 1 + vote.encode_size(),
            Artifact::Notarization(message) => 1 + message.encode_size(),
            Artifact::Certification(round, certified) => {
                1 + round.encode_size() + certified.encode_size()
            }
            Artifact::Nullify(vote) => 1 + vote.encode_size(),
            Artifact::Nullification(message) => 1 + message.encode_size(),
            Artifact::Finalize(vote) => 1 + vote.encode_size(),
            Artifact::Finalization(message) => 1 + message.encode_size(),
        }
    }
}

impl<S: CertificateScheme, D: Digest> Read for Artifact<S, D> {
    ghost use Rattle.simplex_votes.specs.Artifact.{artifact_format};
    ghost use Rattle.simplex_votes.specs.ArtifactLaws.{artifact_lawful};

    type Cfg = u32;

    ghost fits = { λ bound. (artifact_format (format_of ⟦<D as Read>⟧)
        (format_under ⟦<S::Certificate as Read>⟧ bound)
        (format_of ⟦<S::Signature as Read>⟧)).is_value };

    ghost reading = { λ bound.
        (artifact_format (format_of ⟦<D as Read>⟧) (format_under ⟦<S::Certificate as Read>⟧ bound)
        (format_of ⟦<S::Signature as Read>⟧)).reading };

    ghost takes_memory = { S.Certificate.takes_memory };

    fn read_cfg(alloc: Global, input: &mut &[u8], bound: &u32) -> Result<Self, Error> {
        read_tagged(alloc, input, bound)
    }

    ghost lawful = { λ bound.
        artifact_lawful _ _ _ D.lawful (S.Certificate.lawful bound) S.Signature.lawful };
}

impl<S: CertificateScheme, D: Digest> Tagged for Artifact<S, D> {
    ghost use Rattle.simplex_votes.specs.Artifact.{artifact_branches};

    type Cfg = u32;

    ghost branches = { λ bound.
        artifact_branches (format_of ⟦<D as Read>⟧) (format_under ⟦<S::Certificate as Read>⟧ bound)
        (format_of ⟦<S::Signature as Read>⟧) };

    ghost takes_memory = { S.Certificate.takes_memory };

    fn read_body(alloc: Global, tag: u8, input: &mut &[u8], bound: &u32) -> Result<Self, Error> {
        match tag {
            0 => map_ok!(Notarize::read_cfg(alloc, input, &()), Artifact::Notarize),
            1 => map_ok!(
                Notarization::read_cfg(alloc, input, bound),
                Artifact::Notarization
            ),
            2 => match <(Round, bool)>::read_cfg(alloc, input, &()) {
                Ok((round, certified)) => Ok(Artifact::Certification(round, certified)),
                Err(error) => Err(error),
            },
            3 => map_ok!(Nullify::read_cfg(alloc, input, &()), Artifact::Nullify),
            4 => map_ok!(
                Nullification::read_cfg(alloc, input, bound),
                Artifact::Nullification
            ),
            5 => map_ok!(Finalize::read_cfg(alloc, input, &()), Artifact::Finalize),
            6 => map_ok!(
                Finalization::read_cfg(alloc, input, bound),
                Artifact::Finalization
            ),
            _ => Err(Error::Invalid("consensus::simplex::Artifact", "Invalid type")),
        }
    }
}
