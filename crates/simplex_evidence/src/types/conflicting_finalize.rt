//! Two finalizes that contradict.

ghost use Rattle.std.specs.Prelude.{◌≡◌, ◌&&◌, ◌+◌, ◌*◌, ⊤, false, IsTrue};
ghost use Rattle.simplex_base.specs.Format.{format_of};
ghost use Rattle.simplex_scheme.specs.Subject.{Finalizes};
ghost use Rattle.simplex_votes.specs.Votes.{finalize_vote};
ghost use Rattle.simplex_evidence.specs.Contradiction.{contradicts, Conflicting_finalize};

use crate::types::conflict::{Conflict, read_conflict};
use simplex_base::codec::parts::{size_both, write_both};
use simplex_base::codec::{EncodeSize, Encoding, Error, Fixed, Read, ReadExt, Write};
use simplex_base::positions::{Participant, Round, Roundable};
use simplex_scheme::scheme::{Digest, Scheme, SchemeTypes};
use simplex_votes::types::{Attributable, Finalize};
use std::alloc::{AllocError, Global};
use std::marker::Model;

/// Two finalizes of one signer and one round for different proposals. Swapping them gives an unequal value.
#[derive(Drop)]
#[derive_where(PartialEq, Eq)]
#[derive_where(Hash; S::Signature, D)]
pub struct ConflictingFinalize<S: SchemeTypes, D: Digest> {
    finalize_1: Finalize<S, D>,
    finalize_2: Finalize<S, D>,
}

impl<S: SchemeTypes, D: Digest> Model for ConflictingFinalize<S, D> {
    ghost use Rattle.std.specs.Prelude.{IsTrue};
    ghost use Rattle.simplex_votes.specs.declared.types.finalize.Finalize as declared;
    ghost use Rattle.simplex_votes.specs.Votes.{finalize_vote};
    ghost use Rattle.simplex_evidence.specs.Contradiction.{contradicts, Conflicting_finalize};
    ghost use Rattle.simplex_evidence.specs.Conflict.{ConflictValue};

    ghost Value = { ConflictValue (declared.Finalize S D S.PublicKey S.Signature)
        (declared.Finalize S D S.PublicKey S.Signature) };

    ghost view = { λ conflict.
        record { first = conflict.finalize_1; second = conflict.finalize_2 } };

    ghost invariant = { λ conflict.
        IsTrue (contradicts D.eq Conflicting_finalize (finalize_vote conflict.finalize_1)
        (finalize_vote conflict.finalize_2)) };

    ghost inverse = { λ conflict.
        record { finalize_1 = conflict.first; finalize_2 = conflict.second } };
}

impl<S: SchemeTypes, D: Digest> ConflictingFinalize<S, D> {
    /// Whether two finalizes contradict: they have one round and one signer, and their proposals differ.
    pub fn conflicts(first: &Finalize<S, D>, second: &Finalize<S, D>) -> bool
        ensures { result ≡ contradicts D.eq Conflicting_finalize (finalize_vote first.now)
            (finalize_vote second.now) }
    {
        second.proposal.round == first.proposal.round
            && second.attestation.signer == first.attestation.signer
            && first.proposal != second.proposal
    }

    /// The evidence of two finalizes for which [`conflicts`](ConflictingFinalize::conflicts) returns true.
    pub fn new(finalize_1: Finalize<S, D>, finalize_2: Finalize<S, D>) -> Self
        requires { IsTrue (contradicts D.eq Conflicting_finalize (finalize_vote finalize_1)
            (finalize_vote finalize_2)) }
        ensures value { result ≡ record { first = finalize_1; second = finalize_2 } }
        // With its votes swapped it is another value.
        ensures swapped { ⟦<ConflictingFinalize<S, D> as PartialEq>⟧.eq result
            (record { first = finalize_2; second = finalize_1 }) ≡ false }
    {
        ConflictingFinalize {
            finalize_1,
            finalize_2,
        }
    }

    /// The first finalize.
    pub fn finalize_1(&self) -> &Finalize<S, D>
        ensures finalize { result.now ≡ self.now.first }
        ensures contradicts { IsTrue
            (contradicts D.eq Conflicting_finalize (finalize_vote self.now.first)
            (finalize_vote self.now.second)) }
    {
        &self.finalize_1
    }

    /// The second finalize.
    pub fn finalize_2(&self) -> &Finalize<S, D>
        ensures finalize { result.now ≡ self.now.second }
        ensures contradicts { IsTrue
            (contradicts D.eq Conflicting_finalize (finalize_vote self.now.first)
            (finalize_vote self.now.second)) }
    {
        &self.finalize_2
    }
}

impl<S: Scheme<D>, D: Digest> ConflictingFinalize<S, D> {
    /// Whether both signatures are valid, and nothing else.
    pub fn verify(&self, scheme: &S) -> bool
        ensures { result ≡ (S.good scheme.now (Finalizes self.now.first.proposal)
            self.now.first.attestation.signer self.now.first.attestation.signature &&
            S.good scheme.now (Finalizes self.now.second.proposal)
            self.now.second.attestation.signer self.now.second.attestation.signature) }
    {
        self.finalize_1.verify(scheme) && self.finalize_2.verify(scheme)
    }
}

impl<S: SchemeTypes, D: Digest> Clone for ConflictingFinalize<S, D> {
    ghost is_clone = { λ conflict copy. copy ≡ conflict };

    ghost is_infallible = { λ _. ⊤ };

    fn clone(&self) -> Result<Self, AllocError> {
        Ok(ConflictingFinalize {
            finalize_1: self.finalize_1.copy(),
            finalize_2: self.finalize_2.copy(),
        })
    }
}

impl<S: SchemeTypes, D: Digest> Attributable for ConflictingFinalize<S, D> {
    ghost signer_of = { λ conflict. conflict.first.attestation.signer };

    fn signer(&self) -> Participant {
        self.finalize_1.attestation.signer
    }
}

impl<S: SchemeTypes, D: Digest> Roundable for ConflictingFinalize<S, D> {
    ghost round_of = { λ conflict. conflict.first.proposal.round };

    fn round(&self) -> Round {
        self.finalize_1.round()
    }
}

impl<S: SchemeTypes, D: Digest> Encoding for ConflictingFinalize<S, D> {
    ghost use Rattle.simplex_evidence.specs.Conflict.{conflicting_finalize_format};

    ghost is_value = { (conflicting_finalize_format D.eq (format_of ⟦<D as Read>⟧)
        (format_of ⟦<S::Signature as Read>⟧)).is_value };

    ghost encoding = { (conflicting_finalize_format D.eq (format_of ⟦<D as Read>⟧)
        (format_of ⟦<S::Signature as Read>⟧)).encoding };
}

impl<S: SchemeTypes, D: Digest> Write for ConflictingFinalize<S, D> {
    fn write(&self, buf: &mut Vec<u8>) -> Result<(), AllocError> {
        write_both(&self.finalize_1, &self.finalize_2, buf)
    }
}

impl<S: SchemeTypes, D: Digest> EncodeSize for ConflictingFinalize<S, D> {
    ghost limit = { 70 + 4 * 65535 };

    fn encode_size(&self) -> usize {
        size_both(&self.finalize_1, &self.finalize_2)
    }
}

impl<S: SchemeTypes, D: Digest> Conflict for ConflictingFinalize<S, D> {
    ghost use Rattle.std.specs.Prelude.{codes};
    ghost use Rattle.simplex_base.specs.Reading.{invalid};
    ghost use Rattle.simplex_votes.specs.Votes.{finalize_vote};
    ghost use Rattle.simplex_evidence.specs.Contradiction.{contradicts, Conflicting_finalize};

    type First = Finalize<S, D>;

    type Second = Finalize<S, D>;

    ghost made = { λ votes. record { first = votes.0; second = votes.1 } };

    ghost holds = { λ conflict.
        contradicts D.eq Conflicting_finalize (finalize_vote conflict.first)
        (finalize_vote conflict.second) };

    ghost refusal = { invalid (codes "consensus::simplex::ConflictingFinalize")
        (codes "invalid conflicting finalize") };

    fn are_in_conflict(first: &Finalize<S, D>, second: &Finalize<S, D>) -> bool {
        Self::conflicts(first, second)
    }

    fn of_votes(first: Finalize<S, D>, second: Finalize<S, D>) -> Self {
        Self::new(first, second)
    }

    fn refused() -> Error {
        Error::Invalid(
            "consensus::simplex::ConflictingFinalize",
            "invalid conflicting finalize",
        )
    }
}

impl<S: SchemeTypes, D: Digest> Read for ConflictingFinalize<S, D> {
    ghost use Rattle.simplex_evidence.specs.Conflict.{conflicting_finalize_format};
    ghost use Rattle.simplex_evidence.specs.ConflictLaws.{conflicting_finalize_lawful};

    type Cfg = ();

    ghost fits = { λ _. (conflicting_finalize_format D.eq (format_of ⟦<D as Read>⟧)
        (format_of ⟦<S::Signature as Read>⟧)).is_value };

    ghost reading = { λ _. (conflicting_finalize_format D.eq (format_of ⟦<D as Read>⟧)
        (format_of ⟦<S::Signature as Read>⟧)).reading };

    ghost takes_memory = { false };

    fn read_cfg(alloc: Global, input: &mut &[u8], _cfg: &()) -> Result<Self, Error> {
        read_conflict(alloc, input)
    }

    ghost lawful = { λ _. conflicting_finalize_lawful D.eq _ _ D.lawful S.Signature.lawful };
}

impl<S: SchemeTypes, D: Digest> ReadExt for ConflictingFinalize<S, D> {
    ghost readable = { λ x value. value };
}
