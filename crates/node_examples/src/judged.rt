//! A scheme by verdicts: a committee whose valid signatures the caller found elsewhere and lists in a table. It is an
//! example of a scheme of your own.
//!
//! A scheme has to prove these laws, each in the ghost member of that name. `certificates_limited` and
//! `certificates_within`: the greatest size of a certificate. `members`: the signer of a valid signature is in the
//! committee. And where its certificates list their attestations, `lists_quorums`: a certificate that certifies lists
//! a quorum of distinct signers, each signature valid, and `lists_given`: an assembled certificate lists the
//! attestations that it was assembled from. With `AttestationVerifier` and the calls of
//! [`certificates`](simplex_schemes::certificates) it only has to say when one signature is valid.

ghost use Rattle.std.specs.Prelude.{◌≡◌, ◌↔◌, ◌&&◌, ◌==◌, ◌<◌, ◌≤◌, ◌^◌, ◌+◌, ◌*◌, None, Some, Ok, IsOk, IsTrue, IfOk, MatchOption, All, length, nat_eq, true};
ghost use Rattle.std.specs.List.{IsDistinct, list_any};
ghost use Rattle.std.proofs.Common.{lit≤};
ghost use Rattle.simplex_base.specs.Format.{format_of};
ghost use Rattle.simplex_scheme.specs.Subject.{SubjectValue, subject_value};
ghost use Rattle.simplex_scheme.specs.Committee.{IsInOrder, IsQuorum, is_quorum, quorum_of, signers_of, RefusesFew};
ghost use Rattle.simplex_schemes.specs.CommitteeLaws.{quorum_meaning, listed_size};
ghost use Rattle.node_examples.specs.Judged.{nobody, is_on, judged_good};
ghost use Rattle.node_examples.specs.JudgedLaws.{judged_members};

use simplex_base::codec::fixed_bytes::FixedBytes;
use simplex_base::codec::{Encoding, Read};
use simplex_base::positions::Participant;
use simplex_scheme::scheme::{
    AssemblyError, Attestation, CertificateScheme, CertificateVerifier, Digest, Listing, Scheme,
    SchemeTypes, Set, Subject, VoteKind,
};
use simplex_schemes::certificates::{AttestationVerifier, are_certified, assembled, is_certified};
use simplex_schemes::listed::Listed;
use simplex_schemes::plain::{PlainKey, PlainKeyRole, PlainSignatureRole};
use std::alloc::{AllocError, Global};
use std::marker::Model;

/// A signature that was found valid.
#[derive(Drop)]
pub struct Verdict {
    /// The kind of the vote.
    pub vote: VoteKind,
    /// The bytes that are signed, as `CertificateSubject::message` gives them.
    pub message: Vec<u8>,
    /// The number of the signer. Outside the committee no signature is valid.
    pub signer: Participant,
    /// The signature.
    pub signature: FixedBytes<PlainSignatureRole, 32>,
}

/// A committee, and the signatures that were found valid.
#[derive(Drop)]
pub struct Judged {
    participants: Set<PlainKey>,
    verdicts: Vec<Verdict>,
}

impl Model for Judged {
    ghost use Rattle.std.specs.Prelude.{◌<◌, ◌≤◌, ◌^◌, length};
    ghost use Rattle.node_examples.specs.Judged.{JudgedScheme};

    ghost Value = { JudgedScheme };

    ghost view = { λ judged.
        record { keys = judged.participants; verdicts = judged.verdicts.items } };

    ghost invariant = { λ judged. (1 ≤ length judged.participants) ×
        (length judged.participants < 2 ^ 32) };
}

impl Verdict {
    /// Whether this is on the attestation to the subject.
    fn is_on<D: Digest>(&self, subject: &Subject<'_, D>, attestation: &Attestation<Judged>) -> bool
        ensures { result ≡ is_on (format_of ⟦<D as Read>⟧) (subject_value subject.now)
            attestation.now.signer attestation.now.signature self.now }
    {
        self.vote == subject.kind()
            && self.signer == attestation.signer
            && self.signature == attestation.signature
            && subject.is_message(&self.message)
    }
}

impl Judged {
    /// The committee of these keys, and the signatures that were found valid.
    ///
    /// The table is searched for each signature, from its start.
    pub fn new(participants: Set<PlainKey>, verdicts: Vec<Verdict>) -> Judged
        requires some { 1 ≤ length participants }
        requires few { length participants < 2 ^ 32 }
        ensures { result ≡ record { keys = participants; verdicts = verdicts.items } }
    {
        Judged {
            participants,
            verdicts,
        }
    }

    /// Whether some verdict is on the attestation to the subject.
    fn has_verdict<D: Digest>(
        &self,
        subject: &Subject<'_, D>,
        attestation: &Attestation<Judged>,
    ) -> bool
        ensures { result ≡ list_any
            (is_on (format_of ⟦<D as Read>⟧) (subject_value subject.now) attestation.now.signer
            attestation.now.signature) self.now.verdicts }
    {
        self.verdicts
            .iter()
            .any(|verdict| verdict.is_on(subject, attestation))
    }
}

impl SchemeTypes for Judged {
    type PublicKey = FixedBytes<PlainKeyRole, 32>;

    type Signature = FixedBytes<PlainSignatureRole, 32>;
}

impl CertificateScheme for Judged {
    type Certificate = Listed<Judged>;

    ghost keys = { λ judged. judged.keys };

    ghost own = { λ judged. nobody };

    ghost max_size = { λ participants. 5 + participants * 37 };

    ghost attributable = { true };

    fn participants(&self) -> &Set<PlainKey> {
        &self.participants
    }

    fn me(&self) -> Option<Participant> {
        None
    }

    fn certificate_codec_config(&self) -> u32 {
        self.participants.len() as u32
    }

    fn max_certificate_size(participants: u32) -> usize {
        5 + participants as usize * 37
    }

    fn is_attributable() -> bool {
        true
    }

    ghost certificates_limited = { lit≤ tt };

    ghost certificates_within = { λ participants certificate few fits.
        listed_size 32 (λ signature. signature) (λ bytes. bytes) participants certificate fits };
}

impl<D: Digest> AttestationVerifier<D> for Judged {
    ghost accepted = { judged_good (format_of ⟦<D as Read>⟧) };

    fn accepts(&self, subject: &Subject<'_, D>, attestation: &Attestation<Self>) -> bool {
        (attestation.signer.get() as usize) < self.participants.len()
            && self.has_verdict(subject, attestation)
    }
}

impl<D: Digest> CertificateVerifier<D> for Judged {
    ghost certified = { λ scheme subject.
        is_quorum (length scheme.keys) (judged_good (format_of ⟦<D as Read>⟧) scheme subject) };

    fn verify_certificate(&self, subject: Subject<'_, D>, certificate: &Listed<Judged>) -> bool
        ensures certified { result ≡ is_quorum (length self.now.keys)
            (judged_good (format_of ⟦<D as Read>⟧) self.now (subject_value subject.entry))
            certificate.now }
        // True exactly where the certificate's attestations are a quorum.
        ensures exactly { IsTrue result ↔ IsQuorum (length self.now.keys)
            (judged_good (format_of ⟦<D as Read>⟧) self.now (subject_value subject.entry))
            certificate.now }
    {
        // The prover knows a subject that came by value only by its kinds.
        let subject = match subject {
            Subject::Notarize { proposal } => Subject::Notarize { proposal },
            Subject::Nullify { round } => Subject::Nullify { round },
            Subject::Finalize { proposal } => Subject::Finalize { proposal },
        };
        is_certified(self, &subject, certificate)
    }

    fn verify_all<'a>(&self, items: &[(Subject<'a, D>, &'a Listed<Judged>)]) -> bool {
        are_certified(self, items)
    }
}

impl<D: Digest> Scheme<D> for Judged {
    ghost good = { judged_good (format_of ⟦<D as Read>⟧) };

    ghost made_of = { IsInOrder };

    fn sign(
        &self,
        _alloc: Global,
        _subject: Subject<'_, D>,
    ) -> Result<Option<Attestation<Self>>, AllocError>
        ensures none { nobody ≡ None → result ≡ Ok None }
        ensures signed { IfOk result (λ signed. MatchOption signed (nobody ≡ None) (λ a.
            (nobody ≡ Some a.signer) ×
            (judged_good (format_of ⟦<D as Read>⟧) self.now (subject_value _subject.entry) a.signer
            a.signature ≡ true))) }
    {
        Ok(None)
    }

    fn verify_attestation(&self, subject: Subject<'_, D>, attestation: &Attestation<Self>) -> bool
        ensures { result ≡ judged_good (format_of ⟦<D as Read>⟧) self.now
            (subject_value subject.entry) attestation.now.signer attestation.now.signature }
    {
        let subject = match subject {
            Subject::Notarize { proposal } => Subject::Notarize { proposal },
            Subject::Nullify { round } => Subject::Nullify { round },
            Subject::Finalize { proposal } => Subject::Finalize { proposal },
        };
        self.accepts(&subject, attestation)
    }

    fn assemble(
        &self,
        _alloc: Global,
        attestations: Vec<Attestation<Self>>,
    ) -> Result<Listed<Judged>, AssemblyError>
        requires distinct { IsDistinct nat_eq (signers_of attestations.items) }
        requires members { All (λ a. a.signer < length self.now.keys) attestations.items }
        ensures below { RefusesFew (length self.now.keys) (length attestations.items) result }
        // Nothing is allocated.
        ensures ample { quorum_of (length self.now.keys) ≤ length attestations.items → IsOk result }
        ensures made { IfOk result (λ certificate. IsInOrder attestations.items certificate) }
        ensures certified { IfOk result (λ certificate. (subject : SubjectValue D) →
            All (λ a. judged_good (format_of ⟦<D as Read>⟧) self.now subject a.signer a.signature ≡
            true) attestations.items →
            is_quorum (length self.now.keys)
            (judged_good (format_of ⟦<D as Read>⟧) self.now subject) certificate ≡ true) }
        ensures readable { IfOk result (λ certificate.
            All ⟦<Attestation<Judged> as Encoding>⟧.is_value attestations.items →
            ⟦<Listed<Judged> as Read>⟧.fits (length self.now.keys) certificate) }
    {
        assembled(self, attestations)
    }

    ghost members = { λ scheme subject signer signature h.
        judged_members (format_of ⟦<D as Read>⟧) scheme subject signer signature h };
}

impl<D: Digest> Listing<D> for Judged {
    ghost listed = { λ certificate. certificate };

    fn attestations(certificate: &Listed<Judged>) -> &[Attestation<Self>] {
        certificate.attestations()
    }

    ghost lists_quorums = { λ scheme subject certificate.
        (quorum_meaning (length scheme.keys) (judged_good (format_of ⟦<D as Read>⟧) scheme subject)
        certificate).0 };

    ghost lists_given = { λ given certificate made. made };
}
