//! How certificates that list attestations are verified and assembled, for each scheme that verifies attestations one
//! by one. A scheme of your own whose certificates are [`Listed`] implements [`AttestationVerifier`] and calls these
//! functions.

ghost use Rattle.std.specs.Prelude.{◌≡◌, ℕ, Bool, true, length, nat_eq, All, Ok, IsOk, IfOk, ◌<◌, ◌≤◌};
ghost use Rattle.std.specs.List.{IsDistinct, list_all};
ghost use Rattle.simplex_base.specs.Format.{format_of};
ghost use Rattle.simplex_scheme.specs.Subject.{SubjectValue, subject_value};
ghost use Rattle.simplex_scheme.specs.Known.{AreValid};
ghost use Rattle.simplex_scheme.specs.Committee.{IsInOrder, is_quorum, quorum_of, signers_of, RefusesFew};
ghost use Rattle.simplex_schemes.specs.Listed.{ListedFits};

use crate::listed::{Listed, Lists};
use simplex_base::codec::{Encoding, Read};
use simplex_scheme::scheme::{
    AssemblyError, Attestation, CertificateScheme, Digest, Known, NothingKnown, SchemeTypes,
    Subject, quorum,
};

/// A committee whose attestations are verified one by one.
pub trait AttestationVerifier<D: Digest>: CertificateScheme {
    /// Whether a signature of this signer is valid for the subject.
    ghost accepted: { Self → SubjectValue D → ℕ → Self.Signature → Bool };

    /// Whether the signature is valid for the subject and its signer.
    fn accepts(&self, subject: &Subject<'_, D>, attestation: &Attestation<Self>) -> bool
    where
        Self: Sized,
        ensures { result ≡ accepted self.now (subject_value subject.now) attestation.now.signer
            attestation.now.signature };
}

/// Whether a certificate lists a quorum, each attestation of which is valid for the subject.
pub fn is_certified<D: Digest, S: AttestationVerifier<D>>(
    scheme: &S,
    subject: &Subject<'_, D>,
    certificate: &Listed<S>,
) -> bool
    ensures { result ≡ is_quorum (length (S.keys scheme.now))
        (S.accepted scheme.now (subject_value subject.now)) certificate.now }
{
    is_certified_knowing(scheme, subject, certificate, &NothingKnown)
}

/// Whether a certificate lists a quorum, each attestation of which is valid for the subject. Those that are known to be valid
/// are not verified.
pub fn is_certified_knowing<D: Digest, S: AttestationVerifier<D>, K: Known<S, D>>(
    scheme: &S,
    subject: &Subject<'_, D>,
    certificate: &Listed<S>,
    known: &K,
) -> bool
    ensures { AreValid (K.known known.now) (S.accepted scheme.now) →
        result ≡ is_quorum (length (S.keys scheme.now))
        (S.accepted scheme.now (subject_value subject.now)) certificate.now }
{
    let attestations = certificate.attestations();
    if attestations.len() < quorum(scheme.participants().len() as u32) as usize {
        return false;
    }
    for attestation in attestations {
        if !is_accepted(scheme, subject, attestation, known) {
            return false;
        }
    }
    true
}

/// Whether an attestation is valid for the subject. It is not verified if it is known to be.
fn is_accepted<D: Digest, S: AttestationVerifier<D>, K: Known<S, D>>(
    scheme: &S,
    subject: &Subject<'_, D>,
    attestation: &Attestation<S>,
    known: &K,
) -> bool
    ensures { AreValid (K.known known.now) (S.accepted scheme.now) →
        result ≡ S.accepted scheme.now (subject_value subject.now) attestation.now.signer
        attestation.now.signature }
{
    if known.knows(subject, attestation) {
        return true;
    }
    scheme.accepts(subject, attestation)
}

/// Whether each certificate certifies its subject.
pub fn are_certified<'a, D: Digest, S: AttestationVerifier<D>, C: Lists<S>>(
    scheme: &S,
    items: &[(Subject<'a, D>, &'a C)],
) -> bool
    ensures { result ≡ list_all (λ item.
        is_quorum (length (S.keys scheme.now)) (S.accepted scheme.now (subject_value item.0))
        (C.list item.1.now)) items.now }
{
    for item in items {
        if !is_certified(scheme, &item.0, item.1.as_listed()) {
            return false;
        }
    }
    true
}

/// Sorts attestations by their signers, which are distinct, in place without an allocation.
fn sort_by_signers<S: SchemeTypes>(attestations: &mut Vec<Attestation<S>>)
    requires { IsDistinct nat_eq (signers_of attestations.old.items) }
    ensures { IsInOrder attestations.old.items attestations.new.items }
{
    attestations.sort_unstable_by_key(|attestation| attestation.signer);
}

/// The certificate of these attestations, sorted in place without an allocation. The signers have to be distinct and
/// in the committee: [`can_assemble`](simplex_scheme::assembly::can_assemble) says so.
pub fn assembled<S: CertificateScheme>(
    scheme: &S,
    mut attestations: Vec<Attestation<S>>,
) -> Result<Listed<S>, AssemblyError>
    requires distinct { IsDistinct nat_eq (signers_of attestations.items) }
    requires members { All (λ a. a.signer < length (S.keys scheme.now)) attestations.items }
    ensures below { RefusesFew (length (S.keys scheme.now)) (length attestations.items) result }
    ensures ample { quorum_of (length (S.keys scheme.now)) ≤ length attestations.items →
        IsOk result }
    ensures made { IfOk result (λ certificate. IsInOrder attestations.items certificate) }
    ensures certified { IfOk result (λ certificate. (good : ℕ → S.Signature → Bool) →
        All (λ a. good a.signer a.signature ≡ true) attestations.items →
        is_quorum (length (S.keys scheme.now)) good certificate ≡ true) }
    ensures readable { IfOk result (λ certificate.
        All ⟦<Attestation<S> as Encoding>⟧.is_value attestations.items →
        ListedFits (format_of ⟦<S::Signature as Read>⟧) (length (S.keys scheme.now)) certificate) }
{
    let quorum = quorum(scheme.participants().len() as u32);
    let count = attestations.len();
    if count < quorum as usize {
        return Err(AssemblyError::InsufficientAttestations(quorum, count as u32));
    }
    sort_by_signers(&mut attestations);
    Ok(Listed::from_ascending(attestations))
}
