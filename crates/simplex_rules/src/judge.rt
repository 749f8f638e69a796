//! The judge of the votes and the certificates of an epoch.

ghost use Rattle.std.specs.Prelude.{◌≡◌, true, IsTrue};
ghost use Rattle.simplex_scheme.specs.Known.{AreValid};
ghost use Rattle.simplex_scheme.specs.Subject.{subject_value, round_of};
ghost use Rattle.simplex_rules.specs.Judging.{are_known, is_verified, are_verified, valid_under, certified_under};

use crate::judging::{Judging, is_at_least};
use simplex_base::positions::Roundable;
use simplex_scheme::scheme::{Attestation, Digest, Known, Listing, Scheme, Subject};

/// Whether the signatures of some attestations are known to be valid.
#[derive(Clone, Copy)]
pub enum Signatures {
    /// They were verified, and are valid.
    Verified,
    /// Nothing is known of them yet.
    Unverified,
}

impl Signatures {
    /// Whether the signatures are known to be valid.
    pub fn are_known(self) -> bool
        ensures { result ≡ are_known self }
    {
        matches!(self, Signatures::Verified)
    }
}

/// The committee of an epoch, and how strictly it judges.
#[derive(Drop)]
pub struct Judge<'a, S> {
    /// The committee.
    pub committee: &'a S,
    /// How strictly it judges.
    pub judging: &'a Judging,
}

impl<S> Judge<'_, S> {
    /// Whether an attestation of a subject is valid. A signature that is known to be valid is not verified again.
    pub fn accepts<D: Digest>(
        &self,
        subject: &Subject<'_, D>,
        attestation: &Attestation<S>,
        signatures: Signatures,
    ) -> bool
    where
        S: Scheme<D>,
        ensures { (signatures ≡ Signatures.Verified → S.good self.now.committee.now
            (subject_value subject.now) attestation.now.signer attestation.now.signature ≡ true) →
            result ≡ valid_under S.keys S.good self.now.judging.now self.now.committee.now
            (subject_value subject.now) attestation.now.signer attestation.now.signature }
    {
        match self.judging {
            Judging::Verified => self.verify_attestation(subject, attestation, signatures),
            Judging::Claimed => {
                (attestation.signer.get() as usize) < self.committee.participants().len()
            }
            Judging::Suspects(suspects) => {
                suspects.has(subject, attestation.signer)
                    && self.verify_attestation(subject, attestation, signatures)
            }
            Judging::From(floor) => {
                let is_judged = is_at_least(subject.round(), *floor);
                is_judged && self.verify_attestation(subject, attestation, signatures)
            }
        }
    }

    /// Whether a certificate certifies a subject. Attestations that are known to be valid need not be verified again.
    pub fn certifies<D: Digest, K: Known<S, D>>(
        &self,
        subject: &Subject<'_, D>,
        certificate: &S::Certificate,
        known: &K,
    ) -> bool
    where
        S: Listing<D>,
        ensures { AreValid (K.known known.now)
            (valid_under S.keys S.good self.now.judging.now self.now.committee.now) →
            result ≡ certified_under S.certified self.now.judging.now self.now.committee.now
            (subject_value subject.now) certificate.now }
    {
        if !self.judging.verifies_certificates(subject) {
            return false;
        }
        self.verify_certificate(subject, certificate, known)
    }

    /// Has the scheme verify an attestation whose signature is not known to be valid, of a signer whose votes in the round are
    /// verified. No other function here does.
    fn verify_attestation<D: Digest>(
        &self,
        subject: &Subject<'_, D>,
        attestation: &Attestation<S>,
        signatures: Signatures,
    ) -> bool
    where
        S: Scheme<D>,
        requires { IsTrue (is_verified self.now.judging.now
            (round_of (subject_value subject.now)) attestation.now.signer) }
        ensures { (signatures ≡ Signatures.Verified → S.good self.now.committee.now
            (subject_value subject.now) attestation.now.signer attestation.now.signature ≡ true) →
            result ≡ S.good self.now.committee.now (subject_value subject.now)
            attestation.now.signer attestation.now.signature }
    {
        match signatures {
            Signatures::Verified => true,
            Signatures::Unverified => {
                self.committee
                    .verify_attestation(subject.reborrow(), attestation)
            }
        }
    }

    /// Has the scheme verify a certificate, of a round whose certificates are verified. No other function here does.
    fn verify_certificate<D: Digest, K: Known<S, D>>(
        &self,
        subject: &Subject<'_, D>,
        certificate: &S::Certificate,
        known: &K,
    ) -> bool
    where
        S: Listing<D>,
        requires { IsTrue (are_verified self.now.judging.now
            (round_of (subject_value subject.now))) }
        ensures { AreValid (K.known known.now) (S.good self.now.committee.now) →
            result ≡ S.certified self.now.committee.now (subject_value subject.now)
            certificate.now }
    {
        self.committee
            .verify_certificate_knowing(subject, certificate, known)
    }
}
