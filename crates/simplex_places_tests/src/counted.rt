//! A scheme that counts what it verifies, and how often it is asked about a list of certificates.

ghost use Rattle.std.specs.Prelude.{◌≡◌, ◌+◌, ◌*◌, ◌<◌, ◌≤◌, ◌^◌, ◌&&◌, ◌∷◌, [], None, Some, Ok, IsOk, IfOk, MatchOption, All, length, nat_eq, nat_lt, true, refl};
ghost use Rattle.std.specs.List.{IsDistinct};
ghost use Rattle.std.specs.Str.{bytes_eq};
ghost use Rattle.std.proofs.Common.{lit≤};
ghost use Rattle.simplex_base.specs.Format.{format_of};
ghost use Rattle.simplex_base.specs.FormatLaws.{fixed_lawful};
ghost use Rattle.simplex_scheme.specs.Subject.{SubjectValue, subject_value};
ghost use Rattle.simplex_scheme.specs.Committee.{IsInOrder, is_quorum, quorum_of, signers_of, RefusesFew};
ghost use Rattle.simplex_schemes.specs.CommitteeLaws.{quorum_meaning, listed_size};
ghost use Rattle.simplex_schemes.specs.ListedLaws.{listed_lawful};
ghost use Rattle.simplex_schemes.specs.Marked.{marked_good};
ghost use Rattle.simplex_schemes.specs.MarkedLaws.{marked_members};
ghost use Rattle.simplex_places_tests.specs.Counted.{nobody};

use simplex_base::codec::fixed_bytes::FixedBytes;
use simplex_base::codec::{EncodeSize, Encoding, Error, Fixed, Read, Write};
use simplex_base::positions::Participant;
use simplex_places::located;
use simplex_scheme::scheme::{
    AssemblyError, Attestation, CertificateScheme, CertificateVerifier, Digest, Known, Listing,
    Scheme, SchemeTypes, Set, Subject,
};
use simplex_schemes::certificates::{
    AttestationVerifier, are_certified, assembled, is_certified, is_certified_knowing,
};
use simplex_schemes::listed::{Listed, Lists};
use simplex_schemes::marked::{MarkedKey, MarkedKeyRole, MarkedSignatureRole};
use std::alloc::{AllocError, Global};
use std::cell::Cell;
use std::marker::Model;
use std::process::Abort;
use std::test::Fail;

/// A marked committee that verifies only, and counts how many attestations it has verified, and how many lists of certificates.
#[derive(Drop)]
pub(crate) struct Counted {
    participants: Set<MarkedKey>,
    verified: Cell<usize>,
    lists: Cell<usize>,
}

impl Model for Counted {
    ghost use Rattle.std.specs.Prelude.{◌<◌, ◌≤◌, ◌^◌, ℕ, List, length};

    ghost Value = { List (List ℕ) };

    ghost view = { λ counted. counted.participants };

    ghost invariant = { λ counted. (1 ≤ length counted.participants) ×
        (length counted.participants < 2 ^ 32) };
}

impl Counted {
    /// The committee of these keys, which has verified nothing yet.
    pub(crate) fn new(participants: Set<MarkedKey>) -> Self
        requires some { 1 ≤ length participants }
        requires few { length participants < 2 ^ 32 }
    {
        Counted {
            participants,
            verified: Cell::new(0),
            lists: Cell::new(0),
        }
    }

    /// A committee of four that has verified nothing.
    pub(crate) fn four(rt: &impl Abort, alloc: Global) -> Result<Self, Fail> {
        let mut keys = Vec::with_capacity(alloc, 4)?;
        for number in 0_u32..4 {
            keys.push(MarkedKey::from_bytes(&number.to_be_bytes()))?;
        }
        let participants = Set::try_from_vec(keys)?;
        assert_eq!(rt; participants.len(), 4);
        Ok(Counted::new(participants))
    }

    /// How many attestations were verified.
    pub(crate) fn verified(&self) -> usize {
        self.verified.get()
    }

    /// How many calls of `verify_all` were made.
    pub(crate) fn lists(&self) -> usize {
        self.lists.get()
    }

    /// Whether the signer is in the committee and the signature is the mark. The call is counted.
    fn is_marked(&self, attestation: &Attestation<Self>) -> bool
        ensures { result ≡ (nat_lt attestation.now.signer (length self.now) &&
            bytes_eq attestation.now.signature (170 ∷ [])) }
    {
        self.verified.set(self.verified.get().saturating_add(1));
        (attestation.signer.get() as usize) < self.participants.len()
            && attestation.signature == FixedBytes::from_bytes(&[0xaa])
    }
}

impl SchemeTypes for Counted {
    type PublicKey = FixedBytes<MarkedKeyRole, 4>;

    type Signature = FixedBytes<MarkedSignatureRole, 1>;
}

/// A certificate of the committee that counts.
#[derive(Drop)]
pub(crate) struct CountedCertificate(Listed<Counted>);

impl Model for CountedCertificate {
    ghost use Rattle.std.specs.Prelude.{List, ℕ};
    ghost use Rattle.simplex_scheme.specs.declared.scheme.Attestation.{Attestation};

    ghost Value = { List (Attestation (List (List ℕ)) (List ℕ) (List ℕ)) };

    ghost view = { λ certificate. certificate.0 };

    ghost inverse = { λ certificate. record { 0 = certificate } };
}

impl Lists<Counted> for CountedCertificate {
    ghost list = { λ certificate. certificate };

    fn as_listed(&self) -> &Listed<Counted> {
        &self.0
    }
}

impl Clone for CountedCertificate {
    ghost is_clone = { λ certificate copy. copy ≡ certificate };

    fn clone(&self) -> Result<Self, AllocError> {
        Ok(CountedCertificate(self.0.clone()?))
    }
}

impl Encoding for CountedCertificate {
    ghost is_value = { ⟦<Listed<Counted> as Encoding>⟧.is_value };

    ghost encoding = { ⟦<Listed<Counted> as Encoding>⟧.encoding };
}

impl Write for CountedCertificate {
    fn write(&self, buf: &mut Vec<u8>) -> Result<(), AllocError> {
        self.0.write(buf)
    }
}

impl EncodeSize for CountedCertificate {
    ghost limit = { ⟦<Listed<Counted> as EncodeSize>⟧.limit };

    fn encode_size(&self) -> usize {
        self.0.encode_size()
    }
}

impl Read for CountedCertificate {
    type Cfg = u32;

    ghost fits = { ⟦<Listed<Counted> as Read>⟧.fits };

    ghost reading = { ⟦<Listed<Counted> as Read>⟧.reading };

    ghost takes_memory = { true };

    fn read_cfg(alloc: Global, input: &mut &[u8], bound: &u32) -> Result<Self, Error> {
        match Listed::read_cfg(alloc, input, bound) {
            Ok(listed) => Ok(CountedCertificate(listed)),
            Err(error) => Err(error),
        }
    }

    ghost lawful = { λ bound. listed_lawful (format_of ⟦<FixedBytes<MarkedSignatureRole, 1> as Read>⟧) bound
        (fixed_lawful 1 (λ x. x) (λ bytes. bytes) (λ bytes _. refl) (λ x _. refl)) };
}

impl CertificateScheme for Counted {
    type Certificate = CountedCertificate;

    ghost keys = { λ counted. counted };

    ghost own = { λ counted. nobody };

    ghost max_size = { λ participants. 5 + participants * 6 };

    ghost attributable = { true };

    fn participants(&self) -> &Set<MarkedKey> {
        &self.participants
    }

    fn me(&self) -> Option<Participant> {
        let _ = &self.participants;
        None
    }

    fn certificate_codec_config(&self) -> u32 {
        self.participants.len() as u32
    }

    fn max_certificate_size(participants: u32) -> usize {
        5 + participants as usize * 6
    }

    fn is_attributable() -> bool {
        true
    }

    ghost certificates_limited = { lit≤ tt };

    ghost certificates_within = { λ participants certificate few fits.
        listed_size 1 (λ signature. signature) (λ bytes. bytes) participants certificate fits };
}

impl<D: Digest> AttestationVerifier<D> for Counted {
    ghost accepted = { λ counted. marked_good (length counted) };

    fn accepts(&self, _subject: &Subject<'_, D>, attestation: &Attestation<Self>) -> bool {
        self.is_marked(attestation)
    }
}

impl<D: Digest> CertificateVerifier<D> for Counted {
    ghost certified = { λ scheme subject.
        is_quorum (length scheme) (marked_good (length scheme) subject) };

    fn verify_certificate(&self, subject: Subject<'_, D>, certificate: &CountedCertificate) -> bool
        ensures { result ≡ is_quorum (length self.now)
            (marked_good (length self.now) (subject_value subject.entry)) certificate.now }
    {
        let subject = match subject {
            Subject::Notarize { proposal } => Subject::Notarize { proposal },
            Subject::Nullify { round } => Subject::Nullify { round },
            Subject::Finalize { proposal } => Subject::Finalize { proposal },
        };
        is_certified(self, &subject, certificate.as_listed())
    }

    fn verify_all<'a>(&self, items: &[(Subject<'a, D>, &'a CountedCertificate)]) -> bool {
        self.lists.set(self.lists.get().saturating_add(1));
        are_certified(self, items)
    }
}

impl<D: Digest> Scheme<D> for Counted {
    ghost good = { λ counted. marked_good (length counted) };

    ghost made_of = { IsInOrder };

    fn sign(
        &self,
        _alloc: Global,
        _subject: Subject<'_, D>,
    ) -> Result<Option<Attestation<Self>>, AllocError>
        ensures none { nobody ≡ None → result ≡ Ok None }
        ensures signed { IfOk result (λ signed. MatchOption signed (nobody ≡ None) (λ a.
            (nobody ≡ Some a.signer) ×
            (marked_good (length self.now) (subject_value _subject.entry) a.signer a.signature ≡
            true))) }
    {
        Ok(None)
    }

    fn verify_attestation(&self, _subject: Subject<'_, D>, attestation: &Attestation<Self>) -> bool
        ensures { result ≡ marked_good (length self.now) (subject_value _subject.entry)
            attestation.now.signer attestation.now.signature }
    {
        self.is_marked(attestation)
    }

    fn assemble(
        &self,
        _alloc: Global,
        attestations: Vec<Attestation<Self>>,
    ) -> Result<CountedCertificate, AssemblyError>
        requires distinct { IsDistinct nat_eq (signers_of attestations.items) }
        requires members { All (λ a. a.signer < length self.now) attestations.items }
        ensures below { RefusesFew (length self.now) (length attestations.items) result }
        // Nothing is allocated.
        ensures ample { quorum_of (length self.now) ≤ length attestations.items → IsOk result }
        ensures made { IfOk result (λ certificate. IsInOrder attestations.items certificate) }
        ensures certified { IfOk result (λ certificate. (subject : SubjectValue D) →
            All (λ a. marked_good (length self.now) subject a.signer a.signature ≡
            true) attestations.items →
            is_quorum (length self.now) (marked_good (length self.now) subject) certificate ≡
            true) }
        ensures readable { IfOk result (λ certificate.
            All ⟦<Attestation<Counted> as Encoding>⟧.is_value attestations.items →
            ⟦<CountedCertificate as Read>⟧.fits (length self.now) certificate) }
    {
        Ok(CountedCertificate(assembled(self, attestations)?))
    }

    ghost members = { λ counted subject signer signature h.
        marked_members (length counted) subject signer signature h };
}

impl<D: Digest> Listing<D> for Counted {
    ghost listed = { λ certificate. certificate };

    fn attestations(certificate: &CountedCertificate) -> &[Attestation<Self>] {
        certificate.as_listed().attestations()
    }

    fn verify_certificate_knowing<K: Known<Self, D>>(
        &self,
        subject: &Subject<'_, D>,
        certificate: &CountedCertificate,
        known: &K,
    ) -> bool {
        is_certified_knowing(self, subject, certificate.as_listed(), known)
    }

    ghost lists_quorums = { λ scheme subject certificate.
        (quorum_meaning (length scheme) (marked_good (length scheme) subject) certificate).0 };

    ghost lists_given = { λ given certificate made. made };
}

impl<D: Digest> located::Counted<D> for Counted {
    fn count(certificate: &CountedCertificate) -> u32 {
        certificate.as_listed().attestations().len() as u32
    }

    ghost counted = { λ certificate. refl };
}
