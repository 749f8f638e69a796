//! A scheme for tests: the signature of every participant on every message is the byte `aa`.

ghost use Rattle.std.specs.Prelude.{◌≡◌, ◌↔◌, ◌+◌, ◌*◌, ◌<◌, ◌≤◌, ◌^◌, [], ◌∷◌, Option, Some, None, Ok, IsOk, IsTrue, IfOk, MatchOption, All, length, nat_eq, nat_lt, ◌&&◌, true};
ghost use Rattle.std.specs.Option.{ForSome};
ghost use Rattle.std.specs.Str.{bytes_eq};
ghost use Rattle.std.proofs.Common.{lit<, lit≤};
ghost use Rattle.simplex_scheme.specs.Subject.{SubjectValue, subject_value};
ghost use Rattle.simplex_scheme.specs.Committee.{IsInOrder, IsQuorum, is_quorum, quorum_of, signers_of, RefusesFew};
ghost use Rattle.simplex_schemes.specs.CommitteeLaws.{quorum_meaning, listed_size};
ghost use Rattle.std.specs.List.{IsDistinct};
ghost use Rattle.simplex_schemes.specs.Marked.{numbered, marked_good};
ghost use Rattle.simplex_schemes.specs.MarkedLaws.{marked_members};

use crate::certificates::{
    AttestationVerifier, are_certified, assembled, is_certified, is_certified_knowing,
};
use crate::listed::listed_refusals_are_final;
use crate::own::MarkedCertificate;
use simplex_base::codec::fixed_bytes::{FixedBytes, Role};
use simplex_base::codec::{Encoding, Fixed, Read};
use simplex_base::positions::Participant;
use simplex_scheme::scheme::{
    AssemblyError, Attestation, CertificateScheme, CertificateVerifier, Digest, Known, Listing,
    PublicKey, Scheme, SchemeTypes, Set, Subject,
};
use std::alloc::{AllocError, Global};
use std::marker::Model;

/// The role of a digest for tests.
pub enum MarkedDigestRole {}

impl Role<1> for MarkedDigestRole {
    ghost sized = { (lit< tt, lit≤ tt) };
}

/// A digest for tests: 1 byte.
pub type MarkedDigest = FixedBytes<MarkedDigestRole, 1>;

/// The role of a key of the marked scheme.
pub enum MarkedKeyRole {}

impl Role<4> for MarkedKeyRole {
    ghost sized = { (lit< tt, lit≤ tt) };
}

/// A key of the marked scheme: the number of its participant in 4 bytes, the most significant first.
pub type MarkedKey = FixedBytes<MarkedKeyRole, 4>;

/// The role of a signature of the marked scheme.
pub enum MarkedSignatureRole {}

impl Role<1> for MarkedSignatureRole {
    ghost sized = { (lit< tt, lit≤ tt) };
}

/// A signature of the marked scheme: 1 byte, which is `aa` where it is valid.
pub type MarkedSignature = FixedBytes<MarkedSignatureRole, 1>;

/// A committee that signs by a mark. The signature of each participant over each subject is the byte `aa`,
/// so it is for tests alone.
#[derive(Drop)]
pub struct Marked {
    participants: Set<MarkedKey>,
    me: Option<Participant>,
}

impl Model for Marked {
    ghost use Rattle.std.specs.Prelude.{◌<◌, ◌≤◌, ◌^◌, length};
    ghost use Rattle.std.specs.Option.{ForSome};
    ghost use Rattle.simplex_schemes.specs.Marked.{MarkedScheme};

    ghost Value = { MarkedScheme };

    ghost view = { λ marked. record { keys = marked.participants; me = marked.me } };

    ghost invariant = { λ marked. (1 ≤ length marked.participants) ×
        (length marked.participants < 2 ^ 32) ×
        ForSome marked.me (λ me. me < length marked.participants) };
}

impl Marked {
    /// The scheme of a committee of `n`, for the participant with this number or, with `None`, for
    /// a verifier. The key of a participant is its number. It allocates 4 bytes for each
    /// participant; `AllocError` only where that failed.
    pub fn new(alloc: Global, n: u32, me: Option<Participant>) -> Result<Marked, AllocError>
        requires some { 1 ≤ n }
        requires member { ForSome me (λ me. me < n) }
        ensures { IfOk result (λ marked. marked ≡ record { keys = numbered n; me = me }) }
    {
        Ok(Marked {
            participants: numbered_keys(alloc, n)?,
            me,
        })
    }

    /// Whether the signer is in the committee and the signature is the mark.
    fn is_marked(&self, attestation: &Attestation<Self>) -> bool
        ensures { result ≡ (nat_lt attestation.now.signer (length self.now.keys) &&
            bytes_eq attestation.now.signature (170 ∷ [])) }
    {
        (attestation.signer.get() as usize) < self.participants.len()
            && attestation.signature == mark()
    }
}

/// The keys of this many participants.
fn numbered_keys(alloc: Global, n: u32) -> Result<Set<MarkedKey>, AllocError>
    ensures { IfOk result (λ keys. keys ≡ numbered n) }
{
    let mut keys = Vec::with_capacity(alloc, n as usize)?;
    for number in 0..n {
        keys.push(MarkedKey::from_bytes(&number.to_be_bytes()))?;
    }
    Ok(Set::ascending(keys))
}

/// The signature of everyone over everything.
fn mark() -> MarkedSignature
    ensures { result ≡ 170 ∷ [] }
{
    MarkedSignature::from_bytes(&[0xaa])
}

impl SchemeTypes for Marked {
    type PublicKey = FixedBytes<MarkedKeyRole, 4>;

    type Signature = FixedBytes<MarkedSignatureRole, 1>;
}

impl CertificateScheme for Marked {
    type Certificate = MarkedCertificate;

    ghost keys = { λ marked. marked.keys };

    ghost own = { λ marked. marked.me };

    ghost max_size = { λ participants. 5 + participants * 6 };

    ghost attributable = { true };

    fn participants(&self) -> &Set<MarkedKey> {
        &self.participants
    }

    fn me(&self) -> Option<Participant> {
        self.me
    }

    fn certificate_codec_config(&self) -> u32 {
        self.participants.len() as u32
    }

    /// The number of attestations in at most 5 bytes, and for each a number in at most 5 bytes and a signature
    /// of 1 byte.
    fn max_certificate_size(participants: u32) -> usize {
        5 + participants as usize * 6
    }

    fn is_attributable() -> bool {
        true
    }

    fn refusals_are_final() -> bool {
        listed_refusals_are_final::<Self>();
        true
    }

    ghost certificates_limited = { lit≤ tt };

    ghost certificates_within = { λ participants certificate few fits.
        listed_size 1 (λ signature. signature) (λ bytes. bytes) participants certificate fits };
}

impl<D: Digest> AttestationVerifier<D> for Marked {
    ghost accepted = { λ marked. marked_good (length marked.keys) };

    fn accepts(&self, _subject: &Subject<'_, D>, attestation: &Attestation<Self>) -> bool {
        self.is_marked(attestation)
    }
}

impl<D: Digest> CertificateVerifier<D> for Marked {
    ghost certified = { λ scheme subject.
        is_quorum (length scheme.keys) (marked_good (length scheme.keys) subject) };

    fn verify_certificate(&self, subject: Subject<'_, D>, certificate: &MarkedCertificate) -> bool
        ensures certified { result ≡
            is_quorum (length self.now.keys)
            (marked_good (length self.now.keys) (subject_value subject.entry)) certificate.now }
        // True exactly where the certificate's attestations are a quorum.
        ensures exactly { IsTrue result ↔
            IsQuorum (length self.now.keys)
            (marked_good (length self.now.keys) (subject_value subject.entry)) certificate.now }
    {
        // The prover knows a subject that came by value only by its kinds.
        let subject = match subject {
            Subject::Notarize { proposal } => Subject::Notarize { proposal },
            Subject::Nullify { round } => Subject::Nullify { round },
            Subject::Finalize { proposal } => Subject::Finalize { proposal },
        };
        is_certified(self, &subject, &certificate.0)
    }

    fn verify_all<'a>(&self, items: &[(Subject<'a, D>, &'a MarkedCertificate)]) -> bool {
        are_certified(self, items)
    }
}

impl<D: Digest> Scheme<D> for Marked {
    ghost good = { λ marked. marked_good (length marked.keys) };

    ghost made_of = { IsInOrder };

    fn sign(
        &self,
        _alloc: Global,
        _subject: Subject<'_, D>,
    ) -> Result<Option<Attestation<Self>>, AllocError>
        ensures none { self.now.me ≡ None → result ≡ Ok None }
        ensures signed { IfOk result (λ signed. MatchOption signed (self.now.me ≡ None) (λ a.
            (self.now.me ≡ Some a.signer) ×
            (marked_good (length self.now.keys) (subject_value _subject.entry) a.signer
            a.signature ≡ true))) }
        // Nothing is allocated.
        ensures ample { IsOk result }
    {
        let Some(signer) = self.me else {
            return Ok(None);
        };
        Ok(Some(Attestation {
            signer,
            signature: mark(),
        }))
    }

    fn verify_attestation(&self, _subject: Subject<'_, D>, attestation: &Attestation<Self>) -> bool
        ensures { result ≡ marked_good (length self.now.keys) (subject_value _subject.entry)
            attestation.now.signer attestation.now.signature }
    {
        self.is_marked(attestation)
    }

    fn assemble(
        &self,
        _alloc: Global,
        attestations: Vec<Attestation<Self>>,
    ) -> Result<MarkedCertificate, AssemblyError>
        requires distinct { IsDistinct nat_eq (signers_of attestations.items) }
        requires members { All (λ a. a.signer < length self.now.keys) attestations.items }
        ensures below { RefusesFew (length self.now.keys) (length attestations.items) result }
        // Nothing is allocated.
        ensures ample { quorum_of (length self.now.keys) ≤ length attestations.items → IsOk result }
        ensures made { IfOk result (λ certificate. IsInOrder attestations.items certificate) }
        ensures certified { IfOk result (λ certificate. (subject : SubjectValue D) →
            All (λ a. marked_good (length self.now.keys) subject a.signer a.signature ≡
            true) attestations.items →
            is_quorum (length self.now.keys) (marked_good (length self.now.keys) subject)
            certificate ≡ true) }
        ensures readable { IfOk result (λ certificate.
            All ⟦<Attestation<Marked> as Encoding>⟧.is_value attestations.items →
            ⟦<MarkedCertificate as Read>⟧.fits (length self.now.keys) certificate) }
    {
        Ok(MarkedCertificate(assembled(self, attestations)?))
    }

    ghost members = { λ marked subject signer signature h.
        marked_members (length marked.keys) subject signer signature h };
}

impl<D: Digest> Listing<D> for Marked {
    ghost listed = { λ certificate. certificate };

    fn attestations(certificate: &MarkedCertificate) -> &[Attestation<Self>] {
        certificate.0.attestations()
    }

    fn verify_certificate_knowing<K: Known<Self, D>>(
        &self,
        subject: &Subject<'_, D>,
        certificate: &MarkedCertificate,
        known: &K,
    ) -> bool {
        is_certified_knowing(self, subject, &certificate.0, known)
    }

    ghost lists_quorums = { λ scheme subject certificate.
        (quorum_meaning (length scheme.keys) (marked_good (length scheme.keys) subject)
        certificate).0 };

    ghost lists_given = { λ given certificate made. made };
}
