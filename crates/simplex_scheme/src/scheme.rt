//! The traits of schemes that sign and verify, with the laws that each scheme proves.

ghost use Rattle.std.specs.Prelude.{◌≡◌, ◌↔◌, ⊤, ◌+◌, ℕ, Bool, true, false, List, Option, Some, None, Ok, IfOk, IfSome, IsTrue, MatchOption, All, length, nat_eq, ◌<◌, ◌≤◌, ◌^◌};
ghost use Rattle.std.specs.List.{IsDistinct, list_all};
ghost use Rattle.simplex_base.specs.Format.{format_of};
ghost use Rattle.simplex_base.specs.Finality.{IsFinal};
ghost use Rattle.simplex_scheme.specs.Attestation.{attestation_format, attestation_of};
ghost use Rattle.simplex_scheme.specs.Subject.{SubjectValue, subject_value};
ghost use Rattle.simplex_scheme.specs.Known.{AreValid};
ghost use Rattle.simplex_scheme.specs.Committee.{IsQuorum, IsInOrder, signers_of, RefusesFew, AssemblesQuorum};

pub use crate::attributable::Attributable;
pub use crate::faults::{max_faults, quorum};
pub use crate::hash::{Hasher, Sha256, Sha256Digest, Sha256Role};
pub use crate::kind::VoteKind;
pub use crate::known::{Known, NothingKnown};
pub use crate::namespace::{CertificateNamespace, Namespace};
pub use crate::proposal::{Proposal, ProposalParts};
pub use crate::set::{Ordered, Set, SetError};
pub use crate::subject::{CertificateSubject, Subject};
use simplex_base::codec::fixed_bytes::{FixedBytes, Role};
use simplex_base::codec::parts::{size_both, split_fixed, write_both};
use simplex_base::codec::varint::short_number;
use simplex_base::codec::{
    Array, EncodeSize, Encoding, Error, Fixed, MaxEncodeSize, Read, ReadExt, Write,
};
use simplex_base::or_return;
use simplex_base::positions::Participant;
use std::alloc::{AllocError, Global};
use std::hash::Hash;

/// A digest of a payload.
pub trait Digest: Fixed {}

/// The key of a participant.
pub trait PublicKey: Array {}

impl<R: Role<N>, const N: usize> Digest for FixedBytes<R, N> {}

impl<R: Role<N>, const N: usize> PublicKey for FixedBytes<R, N> {}

/// The types of keys and signatures.
pub trait SchemeTypes {
    /// The key of a participant, by which it is listed in its committee. No message has a key, so all that is asked of keys
    /// here is the order in which a committee lists them.
    type PublicKey: Ordered;

    /// What a participant signs a subject with.
    type Signature: Fixed;
}

/// The number of a signer and its signature, encoded in that order: at most 5 bytes and the
/// signature's.
#[derive(Drop)]
#[derive_where(PartialEq, Eq)]
#[derive_where(Hash; S::Signature)]
pub struct Attestation<S: SchemeTypes> {
    /// The number of the signer, which may be outside the committee.
    pub signer: Participant,
    /// The signature, which may be invalid.
    pub signature: S::Signature,
}

impl<S: SchemeTypes> Clone for Attestation<S> {
    ghost is_clone = { λ attestation copy. copy ≡ attestation };

    ghost is_infallible = { λ _. ⊤ };

    fn clone(&self) -> Result<Self, AllocError> {
        Ok(Attestation {
            signer: self.signer,
            signature: self.signature,
        })
    }
}

impl<S: SchemeTypes> Attestation<S> {
    /// Whether another attestation has the same signer and a signature of the same bytes. It is what `==` returns.
    pub fn is_same(&self, other: &Self) -> bool
        ensures same { IsTrue result ↔ (self.now ≡ other.now) }
        ensures equal { result ≡ ⟦<Attestation<S> as PartialEq>⟧.eq self.now other.now }
    {
        self.signer == other.signer && self.signature.as_bytes() == other.signature.as_bytes()
    }
}

impl<S: SchemeTypes> Attributable for Attestation<S> {
    ghost signer_of = { λ attestation. attestation.signer };

    fn signer(&self) -> Participant {
        self.signer
    }
}

/// Why attestations make no certificate.
#[derive(Clone, Copy, Debug, PartialEq, Eq, thiserror::Error)]
pub enum AssemblyError {
    /// The attestations are fewer than a quorum: the quorum, and how many there are.
    #[error("{1} attestations are fewer than the quorum of {0}")]
    InsufficientAttestations(u32, u32),
    /// An allocation failed.
    #[error("out of memory")]
    OutOfMemory,
}

/// A committee, which participant of it this is, if any, and the type of its certificates.
pub trait CertificateScheme: SchemeTypes {
    /// What the attestations of a quorum are assembled into. It is read under the number of participants.
    type Certificate: Read<Cfg = u32> + Write + EncodeSize + Clone + Drop;

    /// The keys of the committee, in the order of the participants.
    ghost keys: { Self → List Self.PublicKey };

    /// The number of this participant, if it is one.
    ghost own: { Self → Option ℕ };

    /// The greatest length of a certificate under a bound.
    ghost max_size: { ℕ → ℕ };

    /// Whether a certificate states who signed it.
    ghost attributable: { Bool };

    /// The keys of the committee, from 1 to 2^32 - 1 of them. A participant's number is the place of its
    /// key.
    fn participants(&self) -> &Set<Self::PublicKey>
        ensures keys { result.now ≡ keys self.now }
        ensures some { 1 ≤ length (keys self.now) }
        ensures few { length (keys self.now) < 2 ^ 32 };

    /// The number of this participant, if it is one. Without one nothing is signed.
    fn me(&self) -> Option<Participant>
        ensures own { result ≡ own self.now }
        ensures member { IfSome result (λ me. me < length (keys self.now)) };

    /// The bound under which certificates of this committee are read: the number of its participants.
    fn certificate_codec_config(&self) -> u32
        ensures { result ≡ length (keys self.now) };

    /// No certificate that is read under this bound has more bytes: at most 2^50.
    fn max_certificate_size(participants: u32) -> usize
        ensures size { result ≡ max_size participants }
        ensures limited { result ≤ 2 ^ 50 };

    /// Whether a certificate states who signed it.
    fn is_attributable() -> bool
        ensures { result ≡ attributable };

    /// Whether the refusals of certificates are final: a refusal other than `EndOfBuffer` is the refusal of every longer
    /// input too, and bytes refused by `EndOfBuffer` are fewer than the greatest certificate has. Unless a scheme says so,
    /// they are not known to be.
    fn refusals_are_final() -> bool
        ensures settled { IsTrue result → (bound : ℕ) →
            IsFinal (Self.Certificate.reading bound) (max_size bound) }
    {
        false
    }

    /// No certificate has more than 2^50 bytes,
    ghost certificates_limited: { Self.Certificate.limit ≤ 2 ^ 50 };

    /// and none that is read under a bound is longer than the greatest.
    ghost certificates_within: { (bound : ℕ) (certificate : Self.Certificate) → bound < 2 ^ 32 →
        Self.Certificate.fits bound certificate →
        length (Self.Certificate.encoding certificate) ≤ max_size bound };
}

/// Who verifies certificates of subjects with this digest.
pub trait CertificateVerifier<D: Digest>: CertificateScheme {
    /// Whether a certificate certifies the subject: a function of the scheme, the subject's value and the
    /// certificate.
    ghost certified: { Self → SubjectValue D → Self.Certificate → Bool };

    /// Whether a certificate certifies the subject.
    fn verify_certificate(&self, subject: Subject<'_, D>, certificate: &Self::Certificate) -> bool
        ensures { result ≡ certified self.now (subject_value subject.entry) certificate.now };

    /// Whether each certificate certifies its subject; true for none at all.
    fn verify_all<'a>(&self, items: &[(Subject<'a, D>, &'a Self::Certificate)]) -> bool
        ensures { result ≡ list_all (λ item.
            certified self.now (subject_value item.0) item.1.now) items.now };
}

/// Who signs, and verifies signatures of, subjects with this digest.
pub trait Scheme<D: Digest>: CertificateVerifier<D> {
    ghost use Rattle.simplex_scheme.specs.declared.scheme.Attestation.{Attestation};

    /// Whether a signature of this signer is valid for the subject: a function of the scheme, the subject's value,
    /// the signer and the signature.
    ghost good: { Self → SubjectValue D → ℕ → Self.Signature → Bool };

    /// The certificate is assembled from these attestations.
    ghost made_of: { List (Attestation Self Self.PublicKey Self.Signature) → Self.Certificate →
        Type 0 };

    /// Signs as this participant. `None` exactly where the scheme has no participant of its own; nothing is then
    /// allocated. `AllocError` only where an allocation failed.
    fn sign(
        &self,
        alloc: Global,
        subject: Subject<'_, D>,
    ) -> Result<Option<Attestation<Self>>, AllocError>
    where
        Self: Sized,
        ensures none { Self.own self.now ≡ None → result ≡ Ok None }
        ensures signed { IfOk result (λ signed. MatchOption signed (Self.own self.now ≡ None) (λ a.
            (Self.own self.now ≡ Some a.signer) ×
            (good self.now (subject_value subject.entry) a.signer a.signature ≡ true))) };

    /// Whether the signature is valid for the subject and its signer. It is not where the signer is outside the
    /// committee.
    fn verify_attestation(&self, subject: Subject<'_, D>, attestation: &Attestation<Self>) -> bool
    where
        Self: Sized,
        ensures { result ≡ good self.now (subject_value subject.entry) attestation.now.signer
            attestation.now.signature };

    /// Assembles a certificate from attestations whose signers are distinct and in the committee, of which
    /// [`can_assemble`](crate::assembly::can_assemble) returns true. `InsufficientAttestations`, with the quorum and the
    /// number of attestations, where that number is below the quorum; nothing is then allocated. From a quorum on the
    /// only error is `OutOfMemory`. The certificate certifies every subject that all the attestations are valid for, and its
    /// encoding is read under the bound of its own committee, if each attestation can be encoded.
    fn assemble(
        &self,
        alloc: Global,
        attestations: Vec<Attestation<Self>>,
    ) -> Result<Self::Certificate, AssemblyError>
    where
        Self: Sized,
        requires distinct { IsDistinct nat_eq (signers_of attestations.items) }
        requires members { All (λ a. a.signer < length (Self.keys self.now)) attestations.items }
        ensures below { RefusesFew (length (Self.keys self.now)) (length attestations.items)
            result }
        ensures enough { AssemblesQuorum (length (Self.keys self.now)) (length attestations.items)
            result }
        ensures made { IfOk result (λ certificate. made_of attestations.items certificate) }
        ensures certified { IfOk result (λ certificate. (subject : SubjectValue D) →
            All (λ a. good self.now subject a.signer a.signature ≡ true) attestations.items →
            Self.certified self.now subject certificate ≡ true) }
        ensures readable { IfOk result (λ certificate.
            All ⟦<Attestation<Self> as Encoding>⟧.is_value attestations.items →
            Self.Certificate.fits (length (Self.keys self.now)) certificate) };

    /// The signer of a valid signature is in the committee.
    ghost members: { (scheme : Self) (subject : SubjectValue D) (signer : ℕ)
        (signature : Self.Signature) →
        good scheme subject signer signature ≡ true → signer < length (Self.keys scheme) };
}

/// A scheme whose certificates list their attestations.
pub trait Listing<D: Digest>: Scheme<D> {
    ghost use Rattle.simplex_scheme.specs.declared.scheme.Attestation.{Attestation};

    /// The attestations that a certificate lists.
    ghost listed: { Self.Certificate → List (Attestation Self Self.PublicKey Self.Signature) };

    /// The attestations that a certificate lists.
    fn attestations(certificate: &Self::Certificate) -> &[Attestation<Self>]
    where
        Self: Sized,
        ensures { result.now ≡ listed certificate.now };

    /// Whether a certificate certifies the subject, as `verify_certificate` does, if some attestations are known to be valid.
    /// A scheme may leave these unverified; unless it does, all are verified.
    fn verify_certificate_knowing<K: Known<Self, D>>(
        &self,
        subject: &Subject<'_, D>,
        certificate: &Self::Certificate,
        known: &K,
    ) -> bool
    where
        Self: Sized,
        ensures { AreValid (K.known known.now) (Self.good self.now) →
            result ≡ Self.certified self.now (subject_value subject.now) certificate.now }
    {
        let _ = known;
        self.verify_certificate(subject.reborrow(), certificate)
    }

    /// A certificate that certifies a subject lists a quorum of distinct signers, each signature valid for it.
    ghost lists_quorums: { (scheme : Self) (subject : SubjectValue D)
        (certificate : Self.Certificate) →
        Self.certified scheme subject certificate ≡ true →
        IsQuorum (length (Self.keys scheme)) (Self.good scheme subject) (listed certificate) };

    /// An assembled certificate lists what was given, ascending by signer.
    ghost lists_given: { (given : List (Attestation Self Self.PublicKey Self.Signature))
        (certificate : Self.Certificate) →
        Self.made_of given certificate → IsInOrder given (listed certificate) };
}

impl<S: SchemeTypes> Encoding for Attestation<S> {
    ghost use Rattle.simplex_scheme.specs.Attestation.{attestation_format};

    ghost is_value = { (attestation_format (format_of ⟦<S::Signature as Read>⟧)).is_value };

    ghost encoding = { (attestation_format (format_of ⟦<S::Signature as Read>⟧)).encoding };
}

impl<S: SchemeTypes> Write for Attestation<S> {
    fn write(&self, buf: &mut Vec<u8>) -> Result<(), AllocError> {
        write_both(&self.signer, &self.signature, buf)
    }
}

impl<S: SchemeTypes> EncodeSize for Attestation<S> {
    ghost limit = { 5 + 65535 };

    fn encode_size(&self) -> usize {
        size_both(&self.signer, &self.signature)
    }
}

impl<S: SchemeTypes> MaxEncodeSize for Attestation<S> {
    ghost use Rattle.simplex_scheme.specs.AttestationLaws.{attestation_within, attestation_longest};

    ghost max_size = { 5 + S.Signature.SIZE };

    fn max_encode_size() -> usize {
        Participant::max_encode_size() + S::Signature::SIZE
    }

    ghost within = { attestation_within (format_of ⟦<S::Signature as Read>⟧) S.Signature.SIZE
        S.Signature.within };

    ghost reached = { attestation_longest (format_of ⟦<S::Signature as Read>⟧) S.Signature.SIZE
        S.Signature.longest };
}

/// What an attestation is made of: its signer, and the bytes of its signature.
pub type AttestationParts<'a> = (Participant, &'a [u8]);

impl<S: SchemeTypes> Attestation<S> {
    /// The parts of the attestation at the front of some bytes, if its signer's number has at most four bytes, and the bytes
    /// after it. `None` only where the bytes are refused, or the number is longer. The signature is not copied.
    #[inline(always)]
    pub fn short_parts(bytes: &[u8]) -> Option<(AttestationParts<'_>, &[u8])>
        ensures size { IfSome result (λ x. length x.0.1.now ≡ S.Signature.SIZE) }
        ensures gives { IfSome result (λ x. (attestation_format {S = S} {P = S.PublicKey}
            (format_of ⟦<S::Signature as Read>⟧)).reading bytes.now ≡
            Ok (attestation_of S.Signature.of_bytes x.0, x.1.now)) }
        ensures long { result ≡ None → IfOk ((attestation_format {S = S} {P = S.PublicKey}
            (format_of ⟦<S::Signature as Read>⟧)).reading bytes.now) (λ x. 2 ^ 28 ≤ x.0.signer) }
    {
        let (signer, rest) = short_number(bytes)?;
        let (signature, rest) = split_fixed::<S::Signature>(rest)?;
        Some(((Participant::new(signer as u32), signature), rest))
    }

    /// The attestation of these parts, whose signature has the size of one.
    #[inline(always)]
    pub fn of_parts(parts: AttestationParts<'_>) -> Self
        requires { length parts.1.now ≡ S.Signature.SIZE }
        ensures { result ≡ attestation_of S.Signature.of_bytes parts.entry }
    {
        let (signer, signature) = parts;
        let signature = S::Signature::from_bytes(signature);
        Attestation { signer, signature }
    }
}

impl<S: SchemeTypes> Read for Attestation<S> {
    ghost use Rattle.simplex_scheme.specs.Attestation.{attestation_format};
    ghost use Rattle.simplex_scheme.specs.AttestationLaws.{attestation_lawful};

    type Cfg = ();

    ghost fits = { λ _. (attestation_format (format_of ⟦<S::Signature as Read>⟧)).is_value };

    ghost reading = { λ _. (attestation_format (format_of ⟦<S::Signature as Read>⟧)).reading };

    ghost takes_memory = { false };

    #[inline(always)]
    fn read_cfg(alloc: Global, input: &mut &[u8], cfg: &()) -> Result<Self, Error> {
        let mut rest: &[u8] = *input;
        let signer = or_return!(Participant::read_cfg(alloc, &mut rest, cfg));
        let signature = or_return!(S::Signature::read_cfg(alloc, &mut rest, cfg));
        *input = rest;
        Ok(Attestation { signer, signature })
    }

    ghost lawful = { λ _. attestation_lawful (format_of ⟦<S::Signature as Read>⟧)
        S.Signature.lawful };
}

impl<S: SchemeTypes> ReadExt for Attestation<S> {
    ghost readable = { λ x value. value };
}
