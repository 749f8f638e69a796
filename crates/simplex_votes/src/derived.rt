//! What the derived `==` and `clone` of this crate's types return, for each type.

ghost use Rattle.std.specs.Prelude.{nat_eq, refl, ◌&&◌};

use crate::types::{
    Artifact, Certificate, Context, Finalization, Finalize, Kind, Notarization, Notarize,
    Nullification, Nullify, Vote,
};
use simplex_base::positions::Round;
use simplex_base::values::{EqByParts, ExactClone, InfallibleClone};
use simplex_scheme::scheme::{Attestation, CertificateScheme, Digest, Proposal, SchemeTypes};

impl<S: CertificateScheme, D: Digest> EqByParts for Artifact<S, D>
where
    S::Certificate: Eq,
{
    ghost use Rattle.simplex_votes.specs.Artifact.{same_artifact};
    ghost use Rattle.simplex_votes.specs.declared.types.artifact.Artifact.TheVariants.{Notarize, Notarization, Certification, Nullify, Nullification, Finalize, Finalization};

    ghost same = { same_artifact
        ⟦<Notarize<S, D> as PartialEq>⟧.eq
        ⟦<Notarization<S, D> as PartialEq>⟧.eq
        ⟦<Round as PartialEq>⟧.eq
        ⟦<bool as PartialEq>⟧.eq
        ⟦<Nullify<S> as PartialEq>⟧.eq
        ⟦<Nullification<S> as PartialEq>⟧.eq
        ⟦<Finalize<S, D> as PartialEq>⟧.eq
        ⟦<Finalization<S, D> as PartialEq>⟧.eq };

    ghost equal = { elim [
      | Notarize _ ↦ elim [ Notarize _ ↦ refl | _ ↦ refl ]
      | Notarization _ ↦ elim [ Notarization _ ↦ refl | _ ↦ refl ]
      | Certification _ _ ↦ elim [ Certification _ _ ↦ refl | _ ↦ refl ]
      | Nullify _ ↦ elim [ Nullify _ ↦ refl | _ ↦ refl ]
      | Nullification _ ↦ elim [ Nullification _ ↦ refl | _ ↦ refl ]
      | Finalize _ ↦ elim [ Finalize _ ↦ refl | _ ↦ refl ]
      | Finalization _ ↦ elim [ Finalization _ ↦ refl | _ ↦ refl ]
    ] };
}

impl ExactClone for Kind {
    ghost exact = { λ x y same. same };
}

impl InfallibleClone for Kind {
    ghost infallible = { λ _. tt };
}

impl EqByParts for Kind {
    ghost use Rattle.simplex_votes.specs.Unions.{same_certificate_kind};
    ghost use Rattle.simplex_votes.specs.declared.types.certificate.Kind.TheVariants.{Notarization, Nullification, Finalization};

    ghost same = { same_certificate_kind };

    ghost equal = { elim [
      | Notarization ↦ elim [ Notarization ↦ refl | _ ↦ refl ]
      | Nullification ↦ elim [ Nullification ↦ refl | _ ↦ refl ]
      | Finalization ↦ elim [ Finalization ↦ refl | _ ↦ refl ]
    ] };
}

impl<S: CertificateScheme, D: Digest> EqByParts for Certificate<S, D>
where
    S::Certificate: Eq,
{
    ghost use Rattle.simplex_votes.specs.Unions.{same_certificate};
    ghost use Rattle.simplex_votes.specs.declared.types.certificate.Certificate.TheVariants.{Notarization, Nullification, Finalization};

    ghost same = { same_certificate ⟦<Notarization<S, D> as PartialEq>⟧.eq
        ⟦<Nullification<S> as PartialEq>⟧.eq ⟦<Finalization<S, D> as PartialEq>⟧.eq };

    ghost equal = { elim [
      | Notarization _ ↦ elim [ Notarization _ ↦ refl | _ ↦ refl ]
      | Nullification _ ↦ elim [ Nullification _ ↦ refl | _ ↦ refl ]
      | Finalization _ ↦ elim [ Finalization _ ↦ refl | _ ↦ refl ]
    ] };
}

impl<D: Copy + Drop, P: Copy + Drop> ExactClone for Context<D, P> {
    ghost exact = { λ x y same. same };
}

impl<D: Copy + Drop, P: Copy + Drop> InfallibleClone for Context<D, P> {
    ghost infallible = { λ _. tt };
}

impl<D: Eq, P: Eq> EqByParts for Context<D, P> {
    ghost same = { λ x y. ⟦<Round as PartialEq>⟧.eq x.round y.round && (P.eq x.leader y.leader &&
        (nat_eq x.parent.0 y.parent.0 && D.eq x.parent.1 y.parent.1)) };

    ghost equal = { λ x y. refl };
}

impl<S: CertificateScheme, D: Digest> EqByParts for Finalization<S, D>
where
    S::Certificate: Eq,
{
    ghost same = { λ x y. ⟦<Proposal<D> as PartialEq>⟧.eq x.proposal y.proposal &&
        S.Certificate.eq x.certificate y.certificate };

    ghost equal = { λ x y. refl };
}

impl<S: SchemeTypes, D: Digest> ExactClone for Finalize<S, D> {
    ghost exact = { λ x y same. same };
}

impl<S: SchemeTypes, D: Digest> InfallibleClone for Finalize<S, D> {
    ghost infallible = { λ _. tt };
}

impl<S: SchemeTypes, D: Digest> EqByParts for Finalize<S, D> {
    ghost same = { λ x y. ⟦<Proposal<D> as PartialEq>⟧.eq x.proposal y.proposal &&
        ⟦<Attestation<S> as PartialEq>⟧.eq x.attestation y.attestation };

    ghost equal = { λ x y. refl };
}

impl<S: CertificateScheme, D: Digest> EqByParts for Notarization<S, D>
where
    S::Certificate: Eq,
{
    ghost same = { λ x y. ⟦<Proposal<D> as PartialEq>⟧.eq x.proposal y.proposal &&
        S.Certificate.eq x.certificate y.certificate };

    ghost equal = { λ x y. refl };
}

impl<S: SchemeTypes, D: Digest> ExactClone for Notarize<S, D> {
    ghost exact = { λ x y same. same };
}

impl<S: SchemeTypes, D: Digest> InfallibleClone for Notarize<S, D> {
    ghost infallible = { λ _. tt };
}

impl<S: SchemeTypes, D: Digest> EqByParts for Notarize<S, D> {
    ghost same = { λ x y. ⟦<Proposal<D> as PartialEq>⟧.eq x.proposal y.proposal &&
        ⟦<Attestation<S> as PartialEq>⟧.eq x.attestation y.attestation };

    ghost equal = { λ x y. refl };
}

impl<S: CertificateScheme> EqByParts for Nullification<S>
where
    S::Certificate: Eq,
{
    ghost same = { λ x y. ⟦<Round as PartialEq>⟧.eq x.round y.round &&
        S.Certificate.eq x.certificate y.certificate };

    ghost equal = { λ x y. refl };
}

impl<S: SchemeTypes> ExactClone for Nullify<S> {
    ghost exact = { λ x y same. same };
}

impl<S: SchemeTypes> InfallibleClone for Nullify<S> {
    ghost infallible = { λ _. tt };
}

impl<S: SchemeTypes> EqByParts for Nullify<S> {
    ghost same = { λ x y. ⟦<Round as PartialEq>⟧.eq x.round y.round &&
        ⟦<Attestation<S> as PartialEq>⟧.eq x.attestation y.attestation };

    ghost equal = { λ x y. refl };
}

impl<S: SchemeTypes, D: Digest> ExactClone for Vote<S, D> {
    ghost exact = { λ x y same. same };
}

impl<S: SchemeTypes, D: Digest> InfallibleClone for Vote<S, D> {
    ghost infallible = { λ _. tt };
}

impl<S: SchemeTypes, D: Digest> EqByParts for Vote<S, D> {
    ghost use Rattle.simplex_votes.specs.Unions.{same_vote};
    ghost use Rattle.simplex_votes.specs.declared.types.vote.Vote.TheVariants.{Notarize, Nullify, Finalize};

    ghost same = { same_vote ⟦<Notarize<S, D> as PartialEq>⟧.eq ⟦<Nullify<S> as PartialEq>⟧.eq
        ⟦<Finalize<S, D> as PartialEq>⟧.eq };

    ghost equal = { elim [
      | Notarize _ ↦ elim [ Notarize _ ↦ refl | _ ↦ refl ]
      | Nullify _ ↦ elim [ Nullify _ ↦ refl | _ ↦ refl ]
      | Finalize _ ↦ elim [ Finalize _ ↦ refl | _ ↦ refl ]
    ] };
}
