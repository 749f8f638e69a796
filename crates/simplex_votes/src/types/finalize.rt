//! Votes to finalize a proposal.

ghost use Rattle.std.specs.Prelude.{◌≡◌, ⊤, ◌+◌, false, true, Ok, None, Some, IfOk, MatchOption};
ghost use Rattle.simplex_base.specs.Format.{format_of};
ghost use Rattle.simplex_scheme.specs.Subject.{Finalizes};

use simplex_base::codec::parts::{size_both, write_both};
use simplex_base::codec::{
    EncodeSize, Encoding, Error, Fixed, MaxEncodeSize, Read, ReadExt, Write,
};
use simplex_base::or_return;
use simplex_base::positions::{Participant, Round, Roundable};
use simplex_scheme::scheme::{
    Attestation, Attributable, Digest, Proposal, Scheme, SchemeTypes, Subject,
};
use std::alloc::{AllocError, Global};

/// A vote to finalize a proposal, encoded as the proposal and the attestation: at most 35 bytes,
/// the digest's and the signature's.
#[derive(Drop)]
#[derive_where(PartialEq, Eq)]
#[derive_where(Hash; S::Signature, D)]
pub struct Finalize<S: SchemeTypes, D: Digest> {
    /// What is voted for; its round is that of the vote.
    pub proposal: Proposal<D>,
    /// The signer and its signature; `verify` says whether it is valid.
    pub attestation: Attestation<S>,
}

impl<S: SchemeTypes, D: Digest> Finalize<S, D> {
    /// The same vote, copied without an allocation.
    pub fn copy(&self) -> Self
        ensures { result ≡ self.now }
    {
        Finalize {
            proposal: self.proposal,
            attestation: Attestation {
                signer: self.attestation.signer,
                signature: self.attestation.signature,
            },
        }
    }
}

impl<S: SchemeTypes, D: Digest> Clone for Finalize<S, D> {
    ghost is_clone = { λ vote copy. copy ≡ vote };

    ghost is_infallible = { λ _. ⊤ };

    fn clone(&self) -> Result<Self, AllocError> {
        Ok(self.copy())
    }
}

impl<S: Scheme<D>, D: Digest> Finalize<S, D> {
    /// Signs a proposal as the scheme's participant. `None` exactly where the scheme has none.
    /// `AllocError` only where an allocation failed.
    pub fn sign(
        alloc: Global,
        scheme: &S,
        proposal: Proposal<D>,
    ) -> Result<Option<Self>, AllocError>
        ensures none { S.own scheme.now ≡ None → result ≡ Ok None }
        ensures signed { IfOk result (λ signed.
            MatchOption signed (S.own scheme.now ≡ None) (λ vote.
            (vote.proposal ≡ proposal) × (S.own scheme.now ≡ Some vote.attestation.signer) ×
            (S.good scheme.now (Finalizes proposal) vote.attestation.signer
            vote.attestation.signature ≡ true))) }
    {
        let to_sign = Subject::Finalize {
            proposal: &proposal,
        };
        match scheme.sign(alloc, to_sign)? {
            Some(attestation) => Ok(Some(Finalize {
                proposal,
                attestation,
            })),
            None => Ok(None),
        }
    }

    /// Whether the signature is valid for the proposal and the signer.
    pub fn verify(&self, scheme: &S) -> bool
        ensures { result ≡ S.good scheme.now (Finalizes self.now.proposal)
            self.now.attestation.signer self.now.attestation.signature }
    {
        let subject = Subject::Finalize {
            proposal: &self.proposal,
        };
        scheme.verify_attestation(subject, &self.attestation)
    }
}

impl<S: SchemeTypes, D: Digest> Attributable for Finalize<S, D> {
    ghost signer_of = { λ vote. vote.attestation.signer };

    fn signer(&self) -> Participant {
        self.attestation.signer
    }
}

impl<S: SchemeTypes, D: Digest> Roundable for Finalize<S, D> {
    ghost round_of = { λ vote. vote.proposal.round };

    fn round(&self) -> Round {
        self.proposal.round
    }
}

impl<S: SchemeTypes, D: Digest> Encoding for Finalize<S, D> {
    ghost use Rattle.simplex_votes.specs.Encodings.{finalize_format};

    ghost is_value = { (finalize_format (format_of ⟦<D as Read>⟧)
        (format_of ⟦<S::Signature as Read>⟧)).is_value };

    ghost encoding = { (finalize_format (format_of ⟦<D as Read>⟧)
        (format_of ⟦<S::Signature as Read>⟧)).encoding };
}

impl<S: SchemeTypes, D: Digest> Write for Finalize<S, D> {
    fn write(&self, buf: &mut Vec<u8>) -> Result<(), AllocError> {
        write_both(&self.proposal, &self.attestation, buf)
    }
}

impl<S: SchemeTypes, D: Digest> EncodeSize for Finalize<S, D> {
    ghost limit = { 35 + 65535 + 65535 };

    fn encode_size(&self) -> usize {
        size_both(&self.proposal, &self.attestation)
    }
}

impl<S: SchemeTypes, D: Digest> MaxEncodeSize for Finalize<S, D> {
    ghost use Rattle.simplex_votes.specs.EncodingLaws.{finalize_within, finalize_longest};

    ghost max_size = { 35 + D.SIZE + S.Signature.SIZE };

    fn max_encode_size() -> usize {
        Proposal::<D>::max_encode_size() + Attestation::<S>::max_encode_size()
    }

    ghost within = { finalize_within (format_of ⟦<D as Read>⟧) (format_of ⟦<S::Signature as Read>⟧)
        D.SIZE S.Signature.SIZE D.within S.Signature.within };

    ghost reached = { finalize_longest (format_of ⟦<D as Read>⟧)
        (format_of ⟦<S::Signature as Read>⟧) D.SIZE S.Signature.SIZE D.longest
        S.Signature.longest };
}

impl<S: SchemeTypes, D: Digest> Read for Finalize<S, D> {
    ghost use Rattle.simplex_votes.specs.Encodings.{finalize_format};
    ghost use Rattle.simplex_votes.specs.EncodingLaws.{finalize_lawful};

    type Cfg = ();

    ghost fits = { λ _. (finalize_format (format_of ⟦<D as Read>⟧)
        (format_of ⟦<S::Signature as Read>⟧)).is_value };

    ghost reading = { λ _. (finalize_format (format_of ⟦<D as Read>⟧)
        (format_of ⟦<S::Signature as Read>⟧)).reading };

    ghost takes_memory = { false };

    #[inline(always)]
    fn read_cfg(alloc: Global, input: &mut &[u8], cfg: &()) -> Result<Self, Error> {
        let mut rest: &[u8] = *input;
        let proposal = or_return!(Proposal::<D>::read_cfg(alloc, &mut rest, cfg));
        let attestation = or_return!(Attestation::<S>::read_cfg(alloc, &mut rest, cfg));
        *input = rest;
        Ok(Finalize {
            proposal,
            attestation,
        })
    }

    ghost lawful = { λ _. finalize_lawful _ _ D.lawful S.Signature.lawful };
}

impl<S: SchemeTypes, D: Digest> ReadExt for Finalize<S, D> {
    ghost readable = { λ x value. value };
}
