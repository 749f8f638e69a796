//! Two notarizes that contradict.

ghost use Rattle.std.specs.Prelude.{◌≡◌, ◌&&◌, ◌+◌, ◌*◌, ⊤, false, IsTrue};
ghost use Rattle.simplex_base.specs.Format.{format_of};
ghost use Rattle.simplex_scheme.specs.Subject.{Notarizes};
ghost use Rattle.simplex_votes.specs.Votes.{notarize_vote};
ghost use Rattle.simplex_evidence.specs.Contradiction.{contradicts, Conflicting_notarize};

use crate::types::conflict::{Conflict, read_conflict};
use simplex_base::codec::parts::{size_both, write_both};
use simplex_base::codec::{EncodeSize, Encoding, Error, Fixed, Read, ReadExt, Write};
use simplex_base::positions::{Participant, Round, Roundable};
use simplex_scheme::scheme::{Digest, Scheme, SchemeTypes};
use simplex_votes::types::{Attributable, Notarize};
use std::alloc::{AllocError, Global};
use std::marker::Model;

/// Two notarizes of one signer and one round for different proposals. Swapping them gives an unequal value.
#[derive(Drop)]
#[derive_where(PartialEq, Eq)]
#[derive_where(Hash; S::Signature, D)]
pub struct ConflictingNotarize<S: SchemeTypes, D: Digest> {
    notarize_1: Notarize<S, D>,
    notarize_2: Notarize<S, D>,
}

impl<S: SchemeTypes, D: Digest> Model for ConflictingNotarize<S, D> {
    ghost use Rattle.std.specs.Prelude.{IsTrue};
    ghost use Rattle.simplex_votes.specs.declared.types.notarize.Notarize as declared;
    ghost use Rattle.simplex_votes.specs.Votes.{notarize_vote};
    ghost use Rattle.simplex_evidence.specs.Contradiction.{contradicts, Conflicting_notarize};
    ghost use Rattle.simplex_evidence.specs.Conflict.{ConflictValue};

    ghost Value = { ConflictValue (declared.Notarize S D S.PublicKey S.Signature)
        (declared.Notarize S D S.PublicKey S.Signature) };

    ghost view = { λ conflict.
        record { first = conflict.notarize_1; second = conflict.notarize_2 } };

    ghost invariant = { λ conflict.
        IsTrue (contradicts D.eq Conflicting_notarize (notarize_vote conflict.notarize_1)
        (notarize_vote conflict.notarize_2)) };

    ghost inverse = { λ conflict.
        record { notarize_1 = conflict.first; notarize_2 = conflict.second } };
}

impl<S: SchemeTypes, D: Digest> ConflictingNotarize<S, D> {
    /// Whether two notarizes contradict: they have one round and one signer, and their proposals differ.
    pub fn conflicts(first: &Notarize<S, D>, second: &Notarize<S, D>) -> bool
        ensures { result ≡ contradicts D.eq Conflicting_notarize (notarize_vote first.now)
            (notarize_vote second.now) }
    {
        second.proposal.round == first.proposal.round
            && second.attestation.signer == first.attestation.signer
            && first.proposal != second.proposal
    }

    /// The evidence of two notarizes for which [`conflicts`](ConflictingNotarize::conflicts) returns true.
    pub fn new(notarize_1: Notarize<S, D>, notarize_2: Notarize<S, D>) -> Self
        requires { IsTrue (contradicts D.eq Conflicting_notarize (notarize_vote notarize_1)
            (notarize_vote notarize_2)) }
        ensures value { result ≡ record { first = notarize_1; second = notarize_2 } }
        // With its votes swapped it is another value.
        ensures swapped { ⟦<ConflictingNotarize<S, D> as PartialEq>⟧.eq result
            (record { first = notarize_2; second = notarize_1 }) ≡ false }
    {
        ConflictingNotarize {
            notarize_1,
            notarize_2,
        }
    }

    /// The first notarize.
    pub fn notarize_1(&self) -> &Notarize<S, D>
        ensures notarize { result.now ≡ self.now.first }
        ensures contradicts { IsTrue
            (contradicts D.eq Conflicting_notarize (notarize_vote self.now.first)
            (notarize_vote self.now.second)) }
    {
        &self.notarize_1
    }

    /// The second notarize.
    pub fn notarize_2(&self) -> &Notarize<S, D>
        ensures notarize { result.now ≡ self.now.second }
        ensures contradicts { IsTrue
            (contradicts D.eq Conflicting_notarize (notarize_vote self.now.first)
            (notarize_vote self.now.second)) }
    {
        &self.notarize_2
    }
}

impl<S: Scheme<D>, D: Digest> ConflictingNotarize<S, D> {
    /// Whether both signatures are valid, and nothing else.
    pub fn verify(&self, scheme: &S) -> bool
        ensures { result ≡ (S.good scheme.now (Notarizes self.now.first.proposal)
            self.now.first.attestation.signer self.now.first.attestation.signature &&
            S.good scheme.now (Notarizes self.now.second.proposal)
            self.now.second.attestation.signer self.now.second.attestation.signature) }
    {
        self.notarize_1.verify(scheme) && self.notarize_2.verify(scheme)
    }
}

impl<S: SchemeTypes, D: Digest> Clone for ConflictingNotarize<S, D> {
    ghost is_clone = { λ conflict copy. copy ≡ conflict };

    ghost is_infallible = { λ _. ⊤ };

    fn clone(&self) -> Result<Self, AllocError> {
        Ok(ConflictingNotarize {
            notarize_1: self.notarize_1.copy(),
            notarize_2: self.notarize_2.copy(),
        })
    }
}

impl<S: SchemeTypes, D: Digest> Attributable for ConflictingNotarize<S, D> {
    ghost signer_of = { λ conflict. conflict.first.attestation.signer };

    fn signer(&self) -> Participant {
        self.notarize_1.attestation.signer
    }
}

impl<S: SchemeTypes, D: Digest> Roundable for ConflictingNotarize<S, D> {
    ghost round_of = { λ conflict. conflict.first.proposal.round };

    fn round(&self) -> Round {
        self.notarize_1.round()
    }
}

impl<S: SchemeTypes, D: Digest> Encoding for ConflictingNotarize<S, D> {
    ghost use Rattle.simplex_evidence.specs.Conflict.{conflicting_notarize_format};

    ghost is_value = { (conflicting_notarize_format D.eq (format_of ⟦<D as Read>⟧)
        (format_of ⟦<S::Signature as Read>⟧)).is_value };

    ghost encoding = { (conflicting_notarize_format D.eq (format_of ⟦<D as Read>⟧)
        (format_of ⟦<S::Signature as Read>⟧)).encoding };
}

impl<S: SchemeTypes, D: Digest> Write for ConflictingNotarize<S, D> {
    fn write(&self, buf: &mut Vec<u8>) -> Result<(), AllocError> {
        write_both(&self.notarize_1, &self.notarize_2, buf)
    }
}

impl<S: SchemeTypes, D: Digest> EncodeSize for ConflictingNotarize<S, D> {
    ghost limit = { 70 + 4 * 65535 };

    fn encode_size(&self) -> usize {
        size_both(&self.notarize_1, &self.notarize_2)
    }
}

impl<S: SchemeTypes, D: Digest> Conflict for ConflictingNotarize<S, D> {
    ghost use Rattle.std.specs.Prelude.{codes};
    ghost use Rattle.simplex_base.specs.Reading.{invalid};
    ghost use Rattle.simplex_votes.specs.Votes.{notarize_vote};
    ghost use Rattle.simplex_evidence.specs.Contradiction.{contradicts, Conflicting_notarize};

    type First = Notarize<S, D>;

    type Second = Notarize<S, D>;

    ghost made = { λ votes. record { first = votes.0; second = votes.1 } };

    ghost holds = { λ conflict.
        contradicts D.eq Conflicting_notarize (notarize_vote conflict.first)
        (notarize_vote conflict.second) };

    ghost refusal = { invalid (codes "consensus::simplex::ConflictingNotarize")
        (codes "invalid conflicting notarize") };

    fn are_in_conflict(first: &Notarize<S, D>, second: &Notarize<S, D>) -> bool {
        Self::conflicts(first, second)
    }

    fn of_votes(first: Notarize<S, D>, second: Notarize<S, D>) -> Self {
        Self::new(first, second)
    }

    fn refused() -> Error {
        Error::Invalid(
            "consensus::simplex::ConflictingNotarize",
            "invalid conflicting notarize",
        )
    }
}

impl<S: SchemeTypes, D: Digest> Read for ConflictingNotarize<S, D> {
    ghost use Rattle.simplex_evidence.specs.Conflict.{conflicting_notarize_format};
    ghost use Rattle.simplex_evidence.specs.ConflictLaws.{conflicting_notarize_lawful};

    type Cfg = ();

    ghost fits = { λ _. (conflicting_notarize_format D.eq (format_of ⟦<D as Read>⟧)
        (format_of ⟦<S::Signature as Read>⟧)).is_value };

    ghost reading = { λ _. (conflicting_notarize_format D.eq (format_of ⟦<D as Read>⟧)
        (format_of ⟦<S::Signature as Read>⟧)).reading };

    ghost takes_memory = { false };

    fn read_cfg(alloc: Global, input: &mut &[u8], _cfg: &()) -> Result<Self, Error> {
        read_conflict(alloc, input)
    }

    ghost lawful = { λ _. conflicting_notarize_lawful D.eq _ _ D.lawful S.Signature.lawful };
}

impl<S: SchemeTypes, D: Digest> ReadExt for ConflictingNotarize<S, D> {
    ghost readable = { λ x value. value };
}
