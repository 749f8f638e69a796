//! A scheme without secrets: the signature of a participant is the SHA-256 of a namespace, its key and the message.
//! Anyone can make the signature of any participant, so that test vectors can be made and verified, and it binds
//! nobody.

ghost use Rattle.std.specs.Prelude.{◌≡◌, ◌≢◌, ◌↔◌, ◌+◌, ◌*◌, ℕ, List, Option, Some, None, Ok, IsOk, IsTrue, IfOk, IfErr, IfSome, MatchOption, All, length, nat_eq, slice_get, option_copied, option_map, option_and_then, ◌<◌, ◌≤◌, ◌^◌, true};
ghost use Rattle.std.proofs.Common.{lit<, lit≤};
ghost use Rattle.simplex_base.specs.Format.{format_of};
ghost use Rattle.simplex_scheme.specs.Namespace.{names_of};
ghost use Rattle.simplex_scheme.specs.Subject.{SubjectValue, subject_value};
ghost use Rattle.simplex_scheme.specs.Committee.{IsInOrder, IsQuorum, is_quorum, quorum_of, signers_of, RefusesFew};
ghost use Rattle.simplex_schemes.specs.CommitteeLaws.{quorum_meaning, listed_size};
ghost use Rattle.std.specs.List.{IsDistinct};
ghost use Rattle.simplex_schemes.specs.Plain.{hashed, plain_good};
ghost use Rattle.simplex_schemes.specs.Hashers.{HoldsName};
ghost use Rattle.simplex_schemes.specs.PlainLaws.{good_members};
ghost use Rattle.simplex_schemes.specs.PlainCommittee.{AreCommitteeKeys, IsPlainCommittee};
ghost use Rattle.simplex_scheme.specs.Proposal.{proposal_format};
ghost use Rattle.simplex_base.specs.Positions.{round_format};
ghost use Rattle.sha2.specs.Sha256.{sha256};

use crate::certificates::{
    AttestationVerifier, are_certified, assembled, is_certified, is_certified_knowing,
};
use crate::hashed::{Hashers, hash_of_proposal, hash_of_round};
use crate::listed::listed_refusals_are_final;
use crate::own::PlainCertificate;
use simplex_base::codec::fixed_bytes::{FixedBytes, Role};
use simplex_base::codec::{Encoding, Fixed, Read};
use simplex_base::positions::{Participant, Round};
use simplex_scheme::scheme::{
    AssemblyError, Attestation, CertificateScheme, CertificateVerifier, Digest, Known, Listing,
    Namespace, Proposal, PublicKey, Scheme, SchemeTypes, Set, Subject,
};
use std::alloc::{AllocError, Global};
use std::marker::Model;

/// The role of a key of the plain scheme.
pub enum PlainKeyRole {}

impl Role<32> for PlainKeyRole {
    ghost sized = { (lit< tt, lit≤ tt) };
}

/// A key of the plain scheme: 32 bytes.
pub type PlainKey = FixedBytes<PlainKeyRole, 32>;

/// The role of a signature of the plain scheme.
pub enum PlainSignatureRole {}

impl Role<32> for PlainSignatureRole {
    ghost sized = { (lit< tt, lit≤ tt) };
}

/// A signature of the plain scheme: 32 bytes.
pub type PlainSignature = FixedBytes<PlainSignatureRole, 32>;

/// A committee that signs by hashing. The signature of the participant with key K over a subject is the
/// SHA-256 of: the length of the subject's namespace as a number, the namespace, the 32 bytes of K, the
/// subject's message.
#[derive(Drop)]
pub struct Plain {
    namespace: Namespace,
    hashers: Hashers,
    participants: Set<PlainKey>,
    me: Option<Participant>,
}

impl Model for Plain {
    ghost use Rattle.std.specs.Prelude.{◌<◌, ◌≤◌, ◌^◌, length};
    ghost use Rattle.std.specs.Option.{ForSome};
    ghost use Rattle.simplex_schemes.specs.Plain.{PlainScheme};
    ghost use Rattle.simplex_schemes.specs.Hashers.{HoldNames};

    ghost Value = { PlainScheme };

    ghost view = { λ plain. record {
      names = plain.namespace;
      keys = plain.participants;
      me = plain.me;
    } };

    ghost invariant = { λ plain. (1 ≤ length plain.participants) ×
        (length plain.participants < 2 ^ 32) ×
        ForSome plain.me (λ me. me < length plain.participants) ×
        HoldNames plain.hashers plain.namespace };
}

/// The greatest number of keys of a committee.
const MOST_KEYS: usize = 4_294_967_295;

/// Whether a committee may have this many keys: at least one, and fewer than 2^32.
pub fn is_committee_size(count: usize) -> bool
    ensures { IsTrue result ↔ (1 ≤ count) × (count < 2 ^ 32) }
{
    1 <= count && count <= MOST_KEYS
}

impl Plain {
    /// The scheme of the committee of these keys, in any order, for a verifier. A participant's number is the place of its key
    /// in ascending order. `None` where they are not the keys of a committee: none at all, more than 2^32 - 1, or one of them
    /// twice. `AllocError` only where an allocation failed, and only for keys of a committee.
    pub fn of_keys(
        alloc: Global,
        namespace: &[u8],
        keys: Vec<PlainKey>,
    ) -> Result<Option<Plain>, AllocError>
        ensures committee { IfOk result (λ found.
            IfSome found (IsPlainCommittee namespace.now keys.items)) }
        ensures none { result ≡ Ok None ↔ ¬ AreCommitteeKeys keys.items }
        ensures memory { IfErr result (λ _. AreCommitteeKeys keys.items) }
    {
        if !is_committee_size(keys.len()) {
            return Ok(None);
        }
        match Set::try_from_vec(keys) {
            Ok(participants) => Ok(Some(Plain::verifier(alloc, namespace, participants)?)),
            Err(_) => Ok(None),
        }
    }

    /// The scheme of this committee, for a verifier. `namespace` is the base of the namespaces of all kinds of votes.
    /// `AllocError` only where an allocation failed.
    pub fn verifier(
        alloc: Global,
        namespace: &[u8],
        participants: Set<PlainKey>,
    ) -> Result<Plain, AllocError>
        requires some { 1 ≤ length participants }
        requires few { length participants < 2 ^ 32 }
        ensures { IfOk result (λ plain.
            plain ≡ record { names = names_of namespace.now; keys = participants; me = None }) }
    {
        let namespace = Namespace::new(alloc, namespace)?;
        Ok(Plain {
            hashers: Hashers::new(&namespace),
            namespace,
            participants,
            me: None,
        })
    }

    /// The scheme of this committee, for the participant with this key. `None` where the key is not in the committee;
    /// nothing is then allocated. `AllocError` only where an allocation failed.
    pub fn signer(
        alloc: Global,
        namespace: &[u8],
        participants: Set<PlainKey>,
        key: &PlainKey,
    ) -> Result<Option<Plain>, AllocError>
        requires some { 1 ≤ length participants }
        requires few { length participants < 2 ^ 32 }
        ensures outside { All (λ one. one ≢ key.now) participants → result ≡ Ok None }
        ensures inside { IfOk result (λ signer.
            MatchOption signer (All (λ one. one ≢ key.now) participants) (λ plain. (me : ℕ) ×
            (slice_get participants me ≡ Some key.now) ×
            (plain ≡ record {
              names = names_of namespace.now;
              keys = participants;
              me = Some me;
            }))) }
    {
        let Some(place) = participants.position(key) else {
            return Ok(None);
        };
        let namespace = Namespace::new(alloc, namespace)?;
        Ok(Some(Plain {
            hashers: Hashers::new(&namespace),
            namespace,
            participants,
            me: Some(Participant::new(place as u32)),
        }))
    }

    /// The key of the participant with this number, if there is one.
    fn key_of(&self, signer: Option<Participant>) -> Option<&PlainKey>
        ensures { option_copied result ≡ option_and_then (slice_get self.now.keys) signer }
    {
        self.participants.get(signer?.get() as usize)
    }

    /// The signature of a participant over a round, in the namespace that the hasher holds.
    fn sign_round(
        &self,
        hasher: &sha2::Sha256,
        signer: Option<Participant>,
        round: Round,
    ) -> Option<PlainSignature>
        ensures { (name : List ℕ) → HoldsName hasher.now name → result ≡ option_map (λ key.
            sha256 (hashed name key (round_format.encoding round)))
            (option_and_then (slice_get self.now.keys) signer) }
    {
        let key = self.key_of(signer)?;
        Some(hash_of_round(hasher, key, round))
    }

    /// The signature of a participant over a proposal, in the namespace that the hasher holds.
    fn sign_proposal<D: Digest>(
        &self,
        hasher: &sha2::Sha256,
        signer: Option<Participant>,
        proposal: &Proposal<D>,
    ) -> Option<PlainSignature>
        ensures { (name : List ℕ) → HoldsName hasher.now name → result ≡ option_map (λ key.
            sha256 (hashed name key
            ((proposal_format (format_of ⟦<D as Read>⟧)).encoding proposal.now)))
            (option_and_then (slice_get self.now.keys) signer) }
    {
        let key = self.key_of(signer)?;
        let payload = proposal.payload.as_bytes();
        Some(hash_of_proposal(hasher, key, proposal.round, proposal.parent, payload))
    }
}

impl SchemeTypes for Plain {
    type PublicKey = FixedBytes<PlainKeyRole, 32>;

    type Signature = FixedBytes<PlainSignatureRole, 32>;
}

impl CertificateScheme for Plain {
    type Certificate = PlainCertificate;

    ghost keys = { λ plain. plain.keys };

    ghost own = { λ plain. plain.me };

    ghost max_size = { λ participants. 5 + participants * 37 };

    ghost attributable = { true };

    fn participants(&self) -> &Set<PlainKey> {
        &self.participants
    }

    fn me(&self) -> Option<Participant> {
        self.me
    }

    fn certificate_codec_config(&self) -> u32 {
        self.participants.len() as u32
    }

    /// The number of attestations in at most 5 bytes, and for each a number in at most 5 bytes and a signature
    /// of 32 bytes.
    fn max_certificate_size(participants: u32) -> usize {
        5 + participants as usize * 37
    }

    fn is_attributable() -> bool {
        true
    }

    fn refusals_are_final() -> bool {
        listed_refusals_are_final::<Self>();
        true
    }

    ghost certificates_limited = { lit≤ tt };

    ghost certificates_within = { λ participants certificate few fits.
        listed_size 32 (λ signature. signature) (λ bytes. bytes) participants certificate fits };
}

impl<D: Digest> AttestationVerifier<D> for Plain {
    ghost accepted = { plain_good (format_of ⟦<D as Read>⟧) };

    fn accepts(&self, subject: &Subject<'_, D>, attestation: &Attestation<Self>) -> bool {
        let signer = Some(attestation.signer);
        let hashers = &self.hashers;
        let signature = match subject {
            Subject::Notarize { proposal } => {
                self.sign_proposal(&hashers.notarize, signer, proposal)
            }
            Subject::Nullify { round } => self.sign_round(&hashers.nullify, signer, *round),
            Subject::Finalize { proposal } => {
                self.sign_proposal(&hashers.finalize, signer, proposal)
            }
        };
        match signature {
            Some(signature) => attestation.signature == signature,
            None => false,
        }
    }
}

impl<D: Digest> CertificateVerifier<D> for Plain {
    ghost certified = { λ scheme subject.
        is_quorum (length scheme.keys) (plain_good (format_of ⟦<D as Read>⟧) scheme subject) };

    fn verify_certificate(&self, subject: Subject<'_, D>, certificate: &PlainCertificate) -> bool
        ensures certified { result ≡
            is_quorum (length self.now.keys)
            (plain_good (format_of ⟦<D as Read>⟧) self.now (subject_value subject.entry))
            certificate.now }
        // True exactly where the certificate's attestations are a quorum.
        ensures exactly { IsTrue result ↔
            IsQuorum (length self.now.keys)
            (plain_good (format_of ⟦<D as Read>⟧) self.now (subject_value subject.entry))
            certificate.now }
    {
        // The prover knows a subject that came by value only by its kinds.
        let subject = match subject {
            Subject::Notarize { proposal } => Subject::Notarize { proposal },
            Subject::Nullify { round } => Subject::Nullify { round },
            Subject::Finalize { proposal } => Subject::Finalize { proposal },
        };
        is_certified(self, &subject, &certificate.0)
    }

    fn verify_all<'a>(&self, items: &[(Subject<'a, D>, &'a PlainCertificate)]) -> bool {
        are_certified(self, items)
    }
}

impl<D: Digest> Scheme<D> for Plain {
    ghost good = { plain_good (format_of ⟦<D as Read>⟧) };

    ghost made_of = { IsInOrder };

    fn sign(
        &self,
        _alloc: Global,
        subject: Subject<'_, D>,
    ) -> Result<Option<Attestation<Self>>, AllocError>
        ensures none { self.now.me ≡ None → result ≡ Ok None }
        ensures signed { IfOk result (λ signed. MatchOption signed (self.now.me ≡ None) (λ a.
            (self.now.me ≡ Some a.signer) ×
            (plain_good (format_of ⟦<D as Read>⟧) self.now (subject_value subject.entry) a.signer
            a.signature ≡ true))) }
        // Nothing is allocated.
        ensures ample { IsOk result }
    {
        let hashers = &self.hashers;
        let signature = match subject {
            Subject::Notarize { proposal } => {
                self.sign_proposal(&hashers.notarize, self.me, proposal)
            }
            Subject::Nullify { round } => self.sign_round(&hashers.nullify, self.me, round),
            Subject::Finalize { proposal } => {
                self.sign_proposal(&hashers.finalize, self.me, proposal)
            }
        };
        match (self.me, signature) {
            (Some(signer), Some(signature)) => Ok(Some(Attestation { signer, signature })),
            _ => Ok(None),
        }
    }

    fn verify_attestation(&self, subject: Subject<'_, D>, attestation: &Attestation<Self>) -> bool
        ensures good { result ≡ plain_good (format_of ⟦<D as Read>⟧) self.now
            (subject_value subject.entry) attestation.now.signer attestation.now.signature }
        // The hashed bytes determine the namespace, the key and the message.
        ensures decided { (name other_name key other_key message other_message : List ℕ) →
            length name < 2 ^ 64 → length other_name < 2 ^ 64 →
            length key ≡ length other_key →
            hashed name key message ≡ hashed other_name other_key other_message →
            (name ≡ other_name) × (key ≡ other_key) × (message ≡ other_message) }
    {
        // The prover knows a subject that came by value only by its kinds.
        let subject = match subject {
            Subject::Notarize { proposal } => Subject::Notarize { proposal },
            Subject::Nullify { round } => Subject::Nullify { round },
            Subject::Finalize { proposal } => Subject::Finalize { proposal },
        };
        self.accepts(&subject, attestation)
    }

    fn assemble(
        &self,
        _alloc: Global,
        attestations: Vec<Attestation<Self>>,
    ) -> Result<PlainCertificate, AssemblyError>
        requires distinct { IsDistinct nat_eq (signers_of attestations.items) }
        requires members { All (λ a. a.signer < length self.now.keys) attestations.items }
        ensures below { RefusesFew (length self.now.keys) (length attestations.items) result }
        // Nothing is allocated.
        ensures ample { quorum_of (length self.now.keys) ≤ length attestations.items → IsOk result }
        ensures made { IfOk result (λ certificate. IsInOrder attestations.items certificate) }
        ensures certified { IfOk result (λ certificate. (subject : SubjectValue D) →
            All (λ a. plain_good (format_of ⟦<D as Read>⟧) self.now subject a.signer a.signature ≡
            true) attestations.items →
            is_quorum (length self.now.keys) (plain_good (format_of ⟦<D as Read>⟧) self.now subject)
            certificate ≡ true) }
        ensures readable { IfOk result (λ certificate.
            All ⟦<Attestation<Plain> as Encoding>⟧.is_value attestations.items →
            ⟦<PlainCertificate as Read>⟧.fits (length self.now.keys) certificate) }
    {
        Ok(PlainCertificate(assembled(self, attestations)?))
    }

    ghost members = { λ scheme subject signer signature h.
        good_members (format_of ⟦<D as Read>⟧) scheme subject signer signature h };
}

impl<D: Digest> Listing<D> for Plain {
    ghost listed = { λ certificate. certificate };

    fn attestations(certificate: &PlainCertificate) -> &[Attestation<Self>] {
        certificate.0.attestations()
    }

    fn verify_certificate_knowing<K: Known<Self, D>>(
        &self,
        subject: &Subject<'_, D>,
        certificate: &PlainCertificate,
        known: &K,
    ) -> bool {
        is_certified_knowing(self, subject, &certificate.0, known)
    }

    ghost lists_quorums = { λ scheme subject certificate.
        (quorum_meaning (length scheme.keys) (plain_good (format_of ⟦<D as Read>⟧) scheme subject)
        certificate).0 };

    ghost lists_given = { λ given certificate made. made };
}
