//! A committee whose signatures the caller verified. In a message a signature is that of another library, such as
//! Ed25519 or BLS, and one byte more, the caller's verdict: `01` where it found the signature valid for this signer and
//! this vote, and `00` where it did not. With any other byte the signature is not valid either.
//!
//! The verdict has to be the caller's own, written once it has verified the signature, and never one that came with a
//! message.

ghost use Rattle.std.specs.Prelude.{◌≡◌, ◌↔◌, ◌+◌, ◌*◌, ◌<◌, ◌≤◌, None, Some, Ok, IsOk, IsTrue, IfOk, MatchOption, All, length, nat_eq, nat_lt, ◌&&◌, true};
ghost use Rattle.std.specs.List.{IsDistinct};
ghost use Rattle.std.proofs.Common.{lit<, lit≤};
ghost use Rattle.simplex_scheme.specs.Subject.{SubjectValue, subject_value};
ghost use Rattle.simplex_scheme.specs.Committee.{IsInOrder, IsQuorum, is_quorum, quorum_of, signers_of, RefusesFew, AssemblesQuorum};
ghost use Rattle.simplex_schemes.specs.CommitteeLaws.{quorum_meaning, listed_size};
ghost use Rattle.simplex_schemes.specs.Vouched.{nobody, of_size, is_vouched, vouched_valid};
ghost use Rattle.simplex_schemes.specs.VouchedLaws.{vouched_members};

use crate::certificates::{
    AttestationVerifier, are_certified, assembled, is_certified, is_certified_knowing,
};
use crate::listed::listed_refusals_are_final;
use crate::marked::{Marked, MarkedKey, MarkedKeyRole};
use crate::own::VouchedCertificate;
use simplex_base::codec::fixed_bytes::{FixedBytes, Role};
use simplex_base::codec::{Encoding, Fixed, Read};
use simplex_base::positions::Participant;
use simplex_scheme::scheme::{
    AssemblyError, Attestation, CertificateScheme, CertificateVerifier, Digest, Known, Listing,
    PublicKey, Scheme, SchemeTypes, Set, Subject,
};
use std::alloc::{AllocError, Global};
use std::marker::{Model, PhantomData};

/// The role of a signature of 64 bytes, such as one of Ed25519, with its verdict.
pub enum Role64 {}

impl Role<65> for Role64 {
    ghost sized = { (lit< tt, lit≤ tt) };
}

/// The role of a signature of 48 bytes, such as one of BLS12-381 in G1, with its verdict.
pub enum Role48 {}

impl Role<49> for Role48 {
    ghost sized = { (lit< tt, lit≤ tt) };
}

/// The role of a signature of 96 bytes, such as one of BLS12-381 in G2, with its verdict.
pub enum Role96 {}

impl Role<97> for Role96 {
    ghost sized = { (lit< tt, lit≤ tt) };
}

/// A committee whose signatures the caller verified. A signature has `N` bytes, the last of which is the verdict: it is
/// valid where that byte is `01` and the signer is in the committee.
#[derive(Drop)]
pub struct Vouched<R, const N: usize> {
    committee: Marked,
    role: PhantomData<R>,
}

impl<R, const N: usize> Model for Vouched<R, N> {
    ghost use Rattle.std.specs.Prelude.{◌<◌, ◌≤◌, length};
    ghost use Rattle.simplex_schemes.specs.Vouched.{VouchedScheme};

    ghost Value = { VouchedScheme };

    ghost view = { λ vouched. record { keys = vouched.committee.keys } };
}

impl<R, const N: usize> Vouched<R, N> {
    /// The committee of `participants` participants, at least one. The key of a participant is its number. It allocates
    /// 4 bytes for each; `AllocError` only where that failed.
    pub fn new(alloc: Global, participants: u32) -> Result<Self, AllocError>
        requires { 1 ≤ participants }
        ensures { IfOk result (λ vouched. vouched ≡ of_size participants) }
    {
        Ok(Vouched {
            committee: Marked::new(alloc, participants, None)?,
            role: PhantomData,
        })
    }
}

impl<R: Role<N>, const N: usize> Vouched<R, N> {
    /// Whether the signer is in the committee and the verdict is `01`.
    fn is_valid(&self, attestation: &Attestation<Self>) -> bool
        ensures { result ≡
            (nat_lt attestation.now.signer (length self.now.keys) && is_vouched
            attestation.now.signature) }
    {
        (attestation.signer.get() as usize) < self.committee.participants().len()
            && attestation.signature.as_bytes().ends_with(&[1])
    }
}

impl<R: Role<N>, const N: usize> SchemeTypes for Vouched<R, N> {
    type PublicKey = FixedBytes<MarkedKeyRole, 4>;

    type Signature = FixedBytes<R, N>;
}

impl<R: Role<N>, const N: usize> CertificateScheme for Vouched<R, N> {
    type Certificate = VouchedCertificate<R, N>;

    ghost keys = { λ vouched. vouched.keys };

    ghost own = { λ vouched. nobody };

    ghost max_size = { λ participants. 5 + participants * (5 + N) };

    ghost attributable = { true };

    fn participants(&self) -> &Set<MarkedKey> {
        self.committee.participants()
    }

    fn me(&self) -> Option<Participant> {
        None
    }

    fn certificate_codec_config(&self) -> u32 {
        self.committee.participants().len() as u32
    }

    fn max_certificate_size(participants: u32) -> usize {
        5 + participants as usize * (5 + N)
    }

    fn is_attributable() -> bool {
        true
    }

    fn refusals_are_final() -> bool {
        listed_refusals_are_final::<Self>();
        true
    }

    ghost certificates_limited = { lit≤ tt };

    ghost certificates_within = { λ participants certificate few fits.
        listed_size N (λ signature. signature) (λ bytes. bytes) participants certificate fits };
}

impl<D: Digest, R: Role<N>, const N: usize> AttestationVerifier<D> for Vouched<R, N> {
    ghost accepted = { λ vouched. vouched_valid vouched.keys };

    fn accepts(&self, _subject: &Subject<'_, D>, attestation: &Attestation<Self>) -> bool {
        self.is_valid(attestation)
    }
}

impl<D: Digest, R: Role<N>, const N: usize> CertificateVerifier<D> for Vouched<R, N> {
    ghost certified = { λ scheme subject.
        is_quorum (length scheme.keys) (vouched_valid scheme.keys subject) };

    fn verify_certificate(
        &self,
        subject: Subject<'_, D>,
        certificate: &VouchedCertificate<R, N>,
    ) -> bool
        ensures certified { result ≡ is_quorum (length self.now.keys)
            (vouched_valid self.now.keys (subject_value subject.entry)) certificate.now }
        // True exactly where the certificate's attestations are a quorum.
        ensures exactly { IsTrue result ↔ IsQuorum (length self.now.keys)
            (vouched_valid self.now.keys (subject_value subject.entry)) certificate.now }
    {
        // The prover knows a subject passed by value only by its variants.
        let subject = match subject {
            Subject::Notarize { proposal } => Subject::Notarize { proposal },
            Subject::Nullify { round } => Subject::Nullify { round },
            Subject::Finalize { proposal } => Subject::Finalize { proposal },
        };
        is_certified(self, &subject, &certificate.0)
    }

    fn verify_all<'a>(&self, items: &[(Subject<'a, D>, &'a VouchedCertificate<R, N>)]) -> bool {
        are_certified(self, items)
    }
}

impl<D: Digest, R: Role<N>, const N: usize> Scheme<D> for Vouched<R, N> {
    ghost good = { λ vouched. vouched_valid vouched.keys };

    ghost made_of = { IsInOrder };

    /// Nobody signs here.
    fn sign(
        &self,
        _alloc: Global,
        _subject: Subject<'_, D>,
    ) -> Result<Option<Attestation<Self>>, AllocError>
        ensures none { nobody ≡ None → result ≡ Ok None }
        ensures signed { IfOk result (λ signed. MatchOption signed (nobody ≡ None) (λ a.
            (nobody ≡ Some a.signer)
            × (vouched_valid self.now.keys (subject_value _subject.entry) a.signer a.signature ≡
            true))) }
    {
        Ok(None)
    }

    fn verify_attestation(&self, _subject: Subject<'_, D>, attestation: &Attestation<Self>) -> bool
        ensures { result ≡ vouched_valid self.now.keys (subject_value _subject.entry)
            attestation.now.signer attestation.now.signature }
    {
        self.is_valid(attestation)
    }

    fn assemble(
        &self,
        _alloc: Global,
        attestations: Vec<Attestation<Self>>,
    ) -> Result<VouchedCertificate<R, N>, AssemblyError>
        requires distinct { IsDistinct nat_eq (signers_of attestations.items) }
        requires members { All (λ a. a.signer < length self.now.keys) attestations.items }
        ensures below { RefusesFew (length self.now.keys) (length attestations.items) result }
        ensures enough { AssemblesQuorum (length self.now.keys) (length attestations.items) result }
        // Nothing is allocated.
        ensures ample { quorum_of (length self.now.keys) ≤ length attestations.items → IsOk result }
        ensures made { IfOk result (λ certificate. IsInOrder attestations.items certificate) }
        ensures certified { IfOk result (λ certificate. (subject : SubjectValue D) →
            All (λ a. vouched_valid self.now.keys subject a.signer a.signature ≡ true)
            attestations.items →
            is_quorum (length self.now.keys) (vouched_valid self.now.keys subject) certificate ≡
            true) }
        ensures readable { IfOk result (λ certificate.
            All ⟦<Attestation<Vouched<R, N>> as Encoding>⟧.is_value attestations.items →
            ⟦<VouchedCertificate<R, N> as Read>⟧.fits (length self.now.keys) certificate) }
    {
        Ok(VouchedCertificate(assembled(self, attestations)?))
    }

    ghost members = { λ scheme. vouched_members scheme.keys };
}

impl<D: Digest, R: Role<N>, const N: usize> Listing<D> for Vouched<R, N> {
    ghost listed = { λ certificate. certificate };

    fn attestations(certificate: &VouchedCertificate<R, N>) -> &[Attestation<Self>] {
        certificate.0.attestations()
    }

    fn verify_certificate_knowing<K: Known<Self, D>>(
        &self,
        subject: &Subject<'_, D>,
        certificate: &VouchedCertificate<R, N>,
        known: &K,
    ) -> bool {
        is_certified_knowing(self, subject, &certificate.0, known)
    }

    ghost lists_quorums = { λ scheme subject certificate.
        (quorum_meaning (length scheme.keys) (vouched_valid scheme.keys subject) certificate).0 };

    ghost lists_given = { λ given certificate made. made };
}
