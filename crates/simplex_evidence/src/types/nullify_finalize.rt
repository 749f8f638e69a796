//! A nullify and a finalize that contradict.

ghost use Rattle.std.specs.Prelude.{◌≡◌, ◌&&◌, ◌+◌, ◌*◌, ⊤, false, IsTrue};
ghost use Rattle.simplex_base.specs.Format.{format_of};
ghost use Rattle.simplex_scheme.specs.Subject.{Nullifies, Finalizes};
ghost use Rattle.simplex_votes.specs.Votes.{nullify_vote, finalize_vote};
ghost use Rattle.simplex_evidence.specs.Contradiction.{contradicts, Nullify_finalize};

use crate::types::conflict::{Conflict, read_conflict};
use simplex_base::codec::parts::{size_both, write_both};
use simplex_base::codec::{EncodeSize, Encoding, Error, Fixed, Read, ReadExt, Write};
use simplex_base::positions::{Participant, Round, Roundable};
use simplex_scheme::scheme::{Digest, Scheme, SchemeTypes};
use simplex_votes::types::{Attributable, Finalize, Nullify};
use std::alloc::{AllocError, Global};
use std::marker::Model;

/// A nullify of a round and a finalize of a proposal of that round, both of one signer, encoded in that order.
#[derive(Drop)]
#[derive_where(PartialEq, Eq)]
#[derive_where(Hash; S::Signature, D)]
pub struct NullifyFinalize<S: SchemeTypes, D: Digest> {
    nullify: Nullify<S>,
    finalize: Finalize<S, D>,
}

impl<S: SchemeTypes, D: Digest> Model for NullifyFinalize<S, D> {
    ghost use Rattle.std.specs.Prelude.{IsTrue};
    ghost use Rattle.simplex_votes.specs.declared.types.nullify.Nullify as nullifies;
    ghost use Rattle.simplex_votes.specs.declared.types.finalize.Finalize as finalizes;
    ghost use Rattle.simplex_votes.specs.Votes.{nullify_vote, finalize_vote};
    ghost use Rattle.simplex_evidence.specs.Contradiction.{contradicts, Nullify_finalize};
    ghost use Rattle.simplex_evidence.specs.Conflict.{ConflictValue};

    ghost Value = { ConflictValue (nullifies.Nullify S S.PublicKey S.Signature)
        (finalizes.Finalize S D S.PublicKey S.Signature) };

    ghost view = { λ conflict. record { first = conflict.nullify; second = conflict.finalize } };

    ghost invariant = { λ conflict.
        IsTrue (contradicts D.eq Nullify_finalize (nullify_vote conflict.nullify)
        (finalize_vote conflict.finalize)) };

    ghost inverse = { λ conflict. record { nullify = conflict.first; finalize = conflict.second } };
}

impl<S: SchemeTypes, D: Digest> NullifyFinalize<S, D> {
    /// Whether a nullify and a finalize contradict: they have one round and one signer.
    pub fn conflicts(nullify: &Nullify<S>, finalize: &Finalize<S, D>) -> bool
        ensures { result ≡ contradicts D.eq Nullify_finalize (nullify_vote nullify.now)
            (finalize_vote finalize.now) }
    {
        finalize.proposal.round == nullify.round
            && finalize.attestation.signer == nullify.attestation.signer
    }

    /// The evidence of a nullify and a finalize for which [`conflicts`](NullifyFinalize::conflicts) returns true.
    pub fn new(nullify: Nullify<S>, finalize: Finalize<S, D>) -> Self
        requires { IsTrue (contradicts D.eq Nullify_finalize (nullify_vote nullify)
            (finalize_vote finalize)) }
        ensures { result ≡ record { first = nullify; second = finalize } }
    {
        NullifyFinalize { nullify, finalize }
    }

    /// The nullify.
    pub fn nullify(&self) -> &Nullify<S>
        ensures vote { result.now ≡ self.now.first }
        ensures contradicts { IsTrue
            (contradicts D.eq Nullify_finalize (nullify_vote self.now.first)
            (finalize_vote self.now.second)) }
    {
        &self.nullify
    }

    /// The finalize.
    pub fn finalize(&self) -> &Finalize<S, D>
        ensures vote { result.now ≡ self.now.second }
        ensures contradicts { IsTrue
            (contradicts D.eq Nullify_finalize (nullify_vote self.now.first)
            (finalize_vote self.now.second)) }
    {
        &self.finalize
    }
}

impl<S: Scheme<D>, D: Digest> NullifyFinalize<S, D> {
    /// Whether both signatures are valid, and nothing else.
    pub fn verify(&self, scheme: &S) -> bool
        ensures { result ≡ (S.good scheme.now (Nullifies self.now.first.round)
            self.now.first.attestation.signer self.now.first.attestation.signature &&
            S.good scheme.now (Finalizes self.now.second.proposal)
            self.now.second.attestation.signer self.now.second.attestation.signature) }
    {
        self.nullify.verify::<D>(scheme) && self.finalize.verify(scheme)
    }
}

impl<S: SchemeTypes, D: Digest> Clone for NullifyFinalize<S, D> {
    ghost is_clone = { λ conflict copy. copy ≡ conflict };

    ghost is_infallible = { λ _. ⊤ };

    fn clone(&self) -> Result<Self, AllocError> {
        Ok(NullifyFinalize {
            nullify: self.nullify.copy(),
            finalize: self.finalize.copy(),
        })
    }
}

impl<S: SchemeTypes, D: Digest> Attributable for NullifyFinalize<S, D> {
    ghost signer_of = { λ conflict. conflict.first.attestation.signer };

    fn signer(&self) -> Participant {
        self.nullify.attestation.signer
    }
}

impl<S: SchemeTypes, D: Digest> Roundable for NullifyFinalize<S, D> {
    ghost round_of = { λ conflict. conflict.first.round };

    fn round(&self) -> Round {
        self.nullify.round()
    }
}

impl<S: SchemeTypes, D: Digest> Encoding for NullifyFinalize<S, D> {
    ghost use Rattle.simplex_evidence.specs.Conflict.{nullify_finalize_format};

    ghost is_value = { (nullify_finalize_format D.eq (format_of ⟦<D as Read>⟧)
        (format_of ⟦<S::Signature as Read>⟧)).is_value };

    ghost encoding = { (nullify_finalize_format D.eq (format_of ⟦<D as Read>⟧)
        (format_of ⟦<S::Signature as Read>⟧)).encoding };
}

impl<S: SchemeTypes, D: Digest> Write for NullifyFinalize<S, D> {
    fn write(&self, buf: &mut Vec<u8>) -> Result<(), AllocError> {
        write_both(&self.nullify, &self.finalize, buf)
    }
}

impl<S: SchemeTypes, D: Digest> EncodeSize for NullifyFinalize<S, D> {
    ghost limit = { 60 + 3 * 65535 };

    fn encode_size(&self) -> usize {
        size_both(&self.nullify, &self.finalize)
    }
}

impl<S: SchemeTypes, D: Digest> Conflict for NullifyFinalize<S, D> {
    ghost use Rattle.std.specs.Prelude.{codes};
    ghost use Rattle.simplex_base.specs.Reading.{invalid};
    ghost use Rattle.simplex_votes.specs.Votes.{finalize_vote, nullify_vote};
    ghost use Rattle.simplex_evidence.specs.Contradiction.{contradicts, Nullify_finalize};

    type First = Nullify<S>;

    type Second = Finalize<S, D>;

    ghost made = { λ votes. record { first = votes.0; second = votes.1 } };

    ghost holds = { λ conflict.
        contradicts D.eq Nullify_finalize (nullify_vote conflict.first)
        (finalize_vote conflict.second) };

    ghost refusal = { invalid (codes "consensus::simplex::NullifyFinalize")
        (codes "mismatched signatures") };

    fn are_in_conflict(first: &Nullify<S>, second: &Finalize<S, D>) -> bool {
        Self::conflicts(first, second)
    }

    fn of_votes(first: Nullify<S>, second: Finalize<S, D>) -> Self {
        Self::new(first, second)
    }

    fn refused() -> Error {
        Error::Invalid(
            "consensus::simplex::NullifyFinalize",
            "mismatched signatures",
        )
    }
}

impl<S: SchemeTypes, D: Digest> Read for NullifyFinalize<S, D> {
    ghost use Rattle.simplex_evidence.specs.Conflict.{nullify_finalize_format};
    ghost use Rattle.simplex_evidence.specs.ConflictLaws.{nullify_finalize_lawful};

    type Cfg = ();

    ghost fits = { λ _. (nullify_finalize_format D.eq (format_of ⟦<D as Read>⟧)
        (format_of ⟦<S::Signature as Read>⟧)).is_value };

    ghost reading = { λ _. (nullify_finalize_format D.eq (format_of ⟦<D as Read>⟧)
        (format_of ⟦<S::Signature as Read>⟧)).reading };

    ghost takes_memory = { false };

    fn read_cfg(alloc: Global, input: &mut &[u8], _cfg: &()) -> Result<Self, Error> {
        read_conflict(alloc, input)
    }

    ghost lawful = { λ _. nullify_finalize_lawful D.eq _ _ D.lawful S.Signature.lawful };
}

impl<S: SchemeTypes, D: Digest> ReadExt for NullifyFinalize<S, D> {
    ghost readable = { λ x value. value };
}
