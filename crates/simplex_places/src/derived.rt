//! What the derived `==` and `clone` of this crate's types return, for each type.

ghost use Rattle.std.specs.Prelude.{nat_eq, refl, ◌&&◌};

use crate::places::{AttestationPlace, Placed};
use crate::records::{Record, VotePlace};
use crate::repeats::Unverified;
use simplex_base::values::{EqByParts, ExactClone, InfallibleClone};

impl ExactClone for AttestationPlace {
    ghost exact = { λ x y same. same };
}

impl InfallibleClone for AttestationPlace {
    ghost infallible = { λ _. tt };
}

impl EqByParts for AttestationPlace {
    ghost same = { λ x y. nat_eq x.epoch y.epoch && (nat_eq x.view y.view &&
        (nat_eq x.verdict_place y.verdict_place && (nat_eq x.subject_place y.subject_place &&
        (nat_eq x.subject_length y.subject_length && (nat_eq x.signer y.signer &&
        nat_eq x.kind y.kind))))) };

    ghost equal = { λ x y. refl };
}

impl ExactClone for Placed {
    ghost exact = { λ x y same. same };
}

impl InfallibleClone for Placed {
    ghost infallible = { λ _. tt };
}

impl EqByParts for Placed {
    ghost same = { λ x y. ⟦<AttestationPlace as PartialEq>⟧.eq x.attestation y.attestation &&
        ⟦<bool as PartialEq>⟧.eq x.is_listed y.is_listed };

    ghost equal = { λ x y. refl };
}

impl ExactClone for VotePlace {
    ghost exact = { λ x y same. same };
}

impl InfallibleClone for VotePlace {
    ghost infallible = { λ _. tt };
}

impl EqByParts for VotePlace {
    ghost same = { λ x y. nat_eq x.subject_place y.subject_place &&
        (nat_eq x.subject_length y.subject_length && (nat_eq x.verdict_place y.verdict_place &&
        (nat_eq x.signer y.signer && nat_eq x.kind y.kind))) };

    ghost equal = { λ x y. refl };
}

impl ExactClone for Record {
    ghost exact = { λ x y same. same };
}

impl InfallibleClone for Record {
    ghost infallible = { λ _. tt };
}

impl EqByParts for Record {
    ghost same = { λ x y. nat_eq x.epoch y.epoch && (nat_eq x.view y.view &&
        (nat_eq x.first_place y.first_place && (nat_eq x.second_place y.second_place &&
        (⟦<VotePlace as PartialEq>⟧.eq x.first_vote y.first_vote &&
        (⟦<VotePlace as PartialEq>⟧.eq x.second_vote y.second_vote &&
        (nat_eq x.signer y.signer && nat_eq x.kind y.kind)))))) };

    ghost equal = { λ x y. refl };
}

impl ExactClone for Unverified {
    ghost exact = { λ x y same. same };
}

impl InfallibleClone for Unverified {
    ghost infallible = { λ _. tt };
}

impl EqByParts for Unverified {
    ghost same = { λ x y. ⟦<AttestationPlace as PartialEq>⟧.eq x.attestation y.attestation &&
        nat_eq x.first y.first };

    ghost equal = { λ x y. refl };
}
