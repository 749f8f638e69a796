//! What the derived `==`, `cmp` and `clone` of this crate's types return, for each type.

ghost use Rattle.std.specs.Prelude.{nat_eq, refl, ◌&&◌};
ghost use Rattle.std.specs.Ordering.{nat_cmp, ordering_then};

use crate::committees::CommitteesError;
use crate::scheme::{
    AssemblyError, Attestation, Namespace, Proposal, SchemeTypes, SetError, Subject, VoteKind,
};
use simplex_base::positions::Round;
use simplex_base::values::{EqByParts, ExactClone, InfallibleClone, OrdByParts};

impl ExactClone for Namespace {
    ghost exact = { λ x y same. same };
}

impl<D: Copy> ExactClone for Proposal<D> {
    ghost exact = { λ x y same. same };
}

impl<D: Copy> InfallibleClone for Proposal<D> {
    ghost infallible = { λ _. tt };
}

impl<D: Eq> EqByParts for Proposal<D> {
    ghost same = { λ x y. ⟦<Round as PartialEq>⟧.eq x.round y.round &&
        (nat_eq x.parent y.parent && D.eq x.payload y.payload) };

    ghost equal = { λ x y. refl };
}

impl<D: Ord> OrdByParts for Proposal<D> {
    ghost order = { λ x y. ordering_then (⟦<Round as Ord>⟧.cmp x.round y.round)
        (ordering_then (nat_cmp x.parent y.parent) (D.cmp x.payload y.payload)) };

    ghost ordered = { λ x y. refl };
}

impl<S: SchemeTypes> ExactClone for Attestation<S> {
    ghost exact = { λ x y same. same };
}

impl<S: SchemeTypes> InfallibleClone for Attestation<S> {
    ghost infallible = { λ _. tt };
}

impl<S: SchemeTypes> EqByParts for Attestation<S> {
    ghost same = { λ x y. nat_eq x.signer y.signer && S.Signature.eq x.signature y.signature };

    ghost equal = { λ x y. refl };
}

impl ExactClone for AssemblyError {
    ghost exact = { λ x y same. same };
}

impl InfallibleClone for AssemblyError {
    ghost infallible = { λ _. tt };
}

impl EqByParts for AssemblyError {
    ghost use Rattle.simplex_scheme.specs.Committee.{same_assembly_error};
    ghost use Rattle.simplex_scheme.specs.declared.scheme.AssemblyError.TheVariants.{InsufficientAttestations, OutOfMemory};

    ghost same = { same_assembly_error };

    ghost equal = { elim [
      | InsufficientAttestations _ _ ↦ elim [ InsufficientAttestations _ _ ↦ refl | _ ↦ refl ]
      | OutOfMemory ↦ elim [ OutOfMemory ↦ refl | _ ↦ refl ]
    ] };
}

impl ExactClone for SetError {
    ghost exact = { λ x y same. same };
}

impl InfallibleClone for SetError {
    ghost infallible = { λ _. tt };
}

impl EqByParts for SetError {
    ghost use Rattle.std.specs.Prelude.{true, refl};
    ghost use Rattle.simplex_scheme.specs.declared.set.SetError.TheVariants.{Repeated};

    ghost same = { λ _ _. true };

    ghost equal = { elim [ Repeated ↦ elim [ Repeated ↦ refl ] ] };
}

impl ExactClone for CommitteesError {
    ghost exact = { λ x y same. same };
}

impl InfallibleClone for CommitteesError {
    ghost infallible = { λ _. tt };
}

impl EqByParts for CommitteesError {
    ghost use Rattle.simplex_scheme.specs.Committees.{same_refusal};
    ghost use Rattle.simplex_scheme.specs.declared.committees.CommitteesError.TheVariants.{Empty, Unordered};

    ghost same = { same_refusal };

    ghost equal = { elim [
      | Empty ↦ elim [ Empty ↦ refl | Unordered ↦ refl ]
      | Unordered ↦ elim [ Empty ↦ refl | Unordered ↦ refl ]
    ] };
}

impl<D: Clone> ExactClone for Subject<'_, D> {
    ghost use Rattle.std.proofs.Common.{rules};
    ghost use Rattle.simplex_scheme.specs.declared.subject.Subject.TheVariants.{Notarize, Nullify, Finalize};

    ghost exact = { elim [
      | Notarize p ↦ elim [
        | Notarize q ↦ λ same. Prim.search rules
        | Nullify r ↦ λ same. Prim.search rules
        | Finalize q ↦ λ same. Prim.search rules
      ]
      | Nullify p ↦ elim [
        | Notarize q ↦ λ same. Prim.search rules
        | Nullify r ↦ λ same. Prim.search rules
        | Finalize q ↦ λ same. Prim.search rules
      ]
      | Finalize p ↦ elim [
        | Notarize q ↦ λ same. Prim.search rules
        | Nullify r ↦ λ same. Prim.search rules
        | Finalize q ↦ λ same. Prim.search rules
      ]
    ] };
}

impl<D: Clone> InfallibleClone for Subject<'_, D> {
    ghost use Rattle.simplex_scheme.specs.declared.subject.Subject.TheVariants.{Notarize, Nullify, Finalize};

    ghost infallible = { elim [ Notarize p ↦ tt | Nullify r ↦ tt | Finalize p ↦ tt ] };
}

impl ExactClone for VoteKind {
    ghost exact = { λ x y same. same };
}

impl InfallibleClone for VoteKind {
    ghost infallible = { λ _. tt };
}

impl EqByParts for VoteKind {
    ghost use Rattle.simplex_scheme.specs.Kind.{same_kind};
    ghost use Rattle.simplex_scheme.specs.declared.kind.VoteKind.TheVariants.{Notarize, Nullify, Finalize};

    ghost same = { same_kind };

    ghost equal = { elim [
      | Notarize ↦ elim [ Notarize ↦ refl | Nullify ↦ refl | Finalize ↦ refl ]
      | Nullify ↦ elim [ Notarize ↦ refl | Nullify ↦ refl | Finalize ↦ refl ]
      | Finalize ↦ elim [ Notarize ↦ refl | Nullify ↦ refl | Finalize ↦ refl ]
    ] };
}
