//! What a message holds, whatever its kind.

ghost use Rattle.std.specs.Prelude.{◌≡◌};
ghost use Rattle.simplex_evidence.specs.Contents.{contents_round, contents_value, contents_verify, signed_value, vote_verifies};
ghost use Rattle.simplex_votes.specs.Votes.{notarize_vote, nullify_vote, finalize_vote};

use simplex_base::positions::{Round, Roundable};
use simplex_scheme::scheme::{
    Attestation, CertificateScheme, Digest, Scheme, SchemeTypes, Subject,
};
use simplex_votes::types::{Finalize, Notarize, Nullify};

/// A vote of any kind: a subject, and an attestation of it.
#[derive(Drop)]
pub struct Signed<'a, S: SchemeTypes, D> {
    /// What is signed.
    pub subject: Subject<'a, D>,
    /// The signer and its signature.
    pub attestation: &'a Attestation<S>,
}

/// What a message holds, whatever its kind.
#[derive(Drop)]
pub enum Contents<'a, S: CertificateScheme, D> {
    /// A vote.
    Vote(Signed<'a, S, D>),
    /// A certificate, and what it certifies.
    Certificate(Subject<'a, D>, &'a S::Certificate),
    /// Two votes that contradict.
    Evidence(Signed<'a, S, D>, Signed<'a, S, D>),
}

impl<S: CertificateScheme, D: Digest> Contents<'_, S, D> {
    /// The round of the vote, of what the certificate certifies, or of both votes.
    pub fn round(&self) -> Round
        ensures { result ≡ contents_round (contents_value self.now) }
    {
        match self {
            Contents::Vote(vote) => vote.subject.round(),
            Contents::Certificate(subject, _) => subject.round(),
            Contents::Evidence(first, _) => first.subject.round(),
        }
    }
}

impl<S: Scheme<D>, D: Digest> Contents<'_, S, D> {
    /// Whether its signatures are valid: that of the vote, the certificate, or those of both votes.
    pub fn verify(&self, scheme: &S) -> bool
        ensures { result ≡ contents_verify (S.good scheme.now) (S.certified scheme.now)
            (contents_value self.now) }
    {
        match self {
            Contents::Vote(vote) => vote.verify(scheme),
            Contents::Certificate(subject, certificate) => {
                scheme.verify_certificate(subject.reborrow(), certificate)
            }
            Contents::Evidence(first, second) => first.verify(scheme) && second.verify(scheme),
        }
    }
}

impl<S: Scheme<D>, D: Digest> Signed<'_, S, D> {
    /// Whether the signature is valid.
    pub fn verify(&self, scheme: &S) -> bool
        ensures { result ≡ vote_verifies (S.good scheme.now) (signed_value self.now) }
    {
        scheme.verify_attestation(self.subject.reborrow(), self.attestation)
    }
}

/// A notarize.
pub(crate) fn notarized<S: SchemeTypes, D: Digest>(vote: &Notarize<S, D>) -> Signed<'_, S, D>
    ensures { signed_value result ≡ notarize_vote vote.now }
{
    Signed {
        subject: Subject::Notarize {
            proposal: &vote.proposal,
        },
        attestation: &vote.attestation,
    }
}

/// A nullify.
pub(crate) fn nullified<S: SchemeTypes, D: Digest>(vote: &Nullify<S>) -> Signed<'_, S, D>
    ensures { signed_value result ≡ nullify_vote vote.now }
{
    Signed {
        subject: Subject::Nullify { round: vote.round },
        attestation: &vote.attestation,
    }
}

/// A finalize.
pub(crate) fn finalized<S: SchemeTypes, D: Digest>(vote: &Finalize<S, D>) -> Signed<'_, S, D>
    ensures { signed_value result ≡ finalize_vote vote.now }
{
    Signed {
        subject: Subject::Finalize {
            proposal: &vote.proposal,
        },
        attestation: &vote.attestation,
    }
}
