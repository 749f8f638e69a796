//! Votes to nullify a round.

ghost use Rattle.std.specs.Prelude.{◌≡◌, ⊤, ◌+◌, false, true, Ok, None, Some, IfOk, MatchOption};
ghost use Rattle.simplex_base.specs.Format.{format_of};
ghost use Rattle.simplex_scheme.specs.Subject.{Nullifies};

use simplex_base::codec::parts::{size_both, write_both};
use simplex_base::codec::{
    EncodeSize, Encoding, Error, Fixed, MaxEncodeSize, Read, ReadExt, Write,
};
use simplex_base::or_return;
use simplex_base::positions::{Participant, Round, Roundable};
use simplex_scheme::scheme::{Attestation, Attributable, Digest, Scheme, SchemeTypes, Subject};
use std::alloc::{AllocError, Global};

/// A vote to nullify a round, encoded as the round and the attestation: at most 25 bytes and the
/// signature's.
#[derive(Drop)]
#[derive_where(PartialEq, Eq)]
#[derive_where(Hash; S::Signature)]
pub struct Nullify<S: SchemeTypes> {
    /// The round that is voted to be nullified.
    pub round: Round,
    /// The signer and its signature; `verify` says whether it is valid.
    pub attestation: Attestation<S>,
}

impl<S: SchemeTypes> Nullify<S> {
    /// The same vote, copied without an allocation.
    pub fn copy(&self) -> Self
        ensures { result ≡ self.now }
    {
        Nullify {
            round: self.round,
            attestation: Attestation {
                signer: self.attestation.signer,
                signature: self.attestation.signature,
            },
        }
    }

    /// Signs a round as the scheme's participant. `None` exactly where the scheme has none.
    /// `AllocError` only where an allocation failed.
    pub fn sign<'a, D: Digest + 'a>(
        alloc: Global,
        scheme: &'a S,
        round: Round,
    ) -> Result<Option<Self>, AllocError>
    where
        S: Scheme<D>,
        ensures none { S.own scheme.now ≡ None → result ≡ Ok None }
        ensures signed { IfOk result (λ signed.
            MatchOption signed (S.own scheme.now ≡ None) (λ vote.
            (vote.round ≡ round) × (S.own scheme.now ≡ Some vote.attestation.signer) ×
            (S.good scheme.now (Nullifies round) vote.attestation.signer
            vote.attestation.signature ≡ true))) }
    {
        let subject: Subject<'a, D> = Subject::Nullify { round };
        match scheme.sign(alloc, subject)? {
            Some(attestation) => Ok(Some(Nullify { round, attestation })),
            None => Ok(None),
        }
    }

    /// Whether the signature is valid for the round and the signer.
    pub fn verify<'a, D: Digest + 'a>(&self, scheme: &'a S) -> bool
    where
        S: Scheme<D>,
        ensures { result ≡ S.good scheme.now (Nullifies self.now.round) self.now.attestation.signer
            self.now.attestation.signature }
    {
        let subject: Subject<'a, D> = Subject::Nullify { round: self.round };
        scheme.verify_attestation(subject, &self.attestation)
    }
}

impl<S: SchemeTypes> Clone for Nullify<S> {
    ghost is_clone = { λ vote copy. copy ≡ vote };

    ghost is_infallible = { λ _. ⊤ };

    fn clone(&self) -> Result<Self, AllocError> {
        Ok(self.copy())
    }
}

impl<S: SchemeTypes> Attributable for Nullify<S> {
    ghost signer_of = { λ vote. vote.attestation.signer };

    fn signer(&self) -> Participant {
        self.attestation.signer
    }
}

impl<S: SchemeTypes> Roundable for Nullify<S> {
    ghost round_of = { λ vote. vote.round };

    fn round(&self) -> Round {
        self.round
    }
}

impl<S: SchemeTypes> Encoding for Nullify<S> {
    ghost use Rattle.simplex_votes.specs.Encodings.{nullify_format};

    ghost is_value = { (nullify_format (format_of ⟦<S::Signature as Read>⟧)).is_value };

    ghost encoding = { (nullify_format (format_of ⟦<S::Signature as Read>⟧)).encoding };
}

impl<S: SchemeTypes> Write for Nullify<S> {
    fn write(&self, buf: &mut Vec<u8>) -> Result<(), AllocError> {
        write_both(&self.round, &self.attestation, buf)
    }
}

impl<S: SchemeTypes> EncodeSize for Nullify<S> {
    ghost limit = { 25 + 65535 };

    fn encode_size(&self) -> usize {
        size_both(&self.round, &self.attestation)
    }
}

impl<S: SchemeTypes> MaxEncodeSize for Nullify<S> {
    ghost use Rattle.simplex_votes.specs.EncodingLaws.{nullify_within, nullify_longest};

    ghost max_size = { 25 + S.Signature.SIZE };

    fn max_encode_size() -> usize {
        Round::max_encode_size() + Attestation::<S>::max_encode_size()
    }

    ghost within = { nullify_within (format_of ⟦<S::Signature as Read>⟧) S.Signature.SIZE
        S.Signature.within };

    ghost reached = { nullify_longest (format_of ⟦<S::Signature as Read>⟧) S.Signature.SIZE
        S.Signature.longest };
}

impl<S: SchemeTypes> Read for Nullify<S> {
    ghost use Rattle.simplex_votes.specs.Encodings.{nullify_format};
    ghost use Rattle.simplex_votes.specs.EncodingLaws.{nullify_lawful};

    type Cfg = ();

    ghost fits = { λ _. (nullify_format (format_of ⟦<S::Signature as Read>⟧)).is_value };

    ghost reading = { λ _. (nullify_format (format_of ⟦<S::Signature as Read>⟧)).reading };

    ghost takes_memory = { false };

    #[inline(always)]
    fn read_cfg(alloc: Global, input: &mut &[u8], cfg: &()) -> Result<Self, Error> {
        let mut rest: &[u8] = *input;
        let round = or_return!(Round::read_cfg(alloc, &mut rest, cfg));
        let attestation = or_return!(Attestation::<S>::read_cfg(alloc, &mut rest, cfg));
        *input = rest;
        Ok(Nullify { round, attestation })
    }

    ghost lawful = { λ _. nullify_lawful _ S.Signature.lawful };
}

impl<S: SchemeTypes> ReadExt for Nullify<S> {
    ghost readable = { λ x value. value };
}
