//! What the derived `==` and `clone` of this crate's types return, for each type.

ghost use Rattle.std.specs.Prelude.{refl, ◌&&◌};

use crate::types::{Activity, ConflictingFinalize, ConflictingNotarize, NullifyFinalize};
use simplex_base::values::{EqByParts, ExactClone, InfallibleClone};
use simplex_scheme::scheme::{CertificateScheme, Digest, SchemeTypes};
use simplex_votes::types::{
    Finalization, Finalize, Notarization, Notarize, Nullification, Nullify,
};

impl<S: CertificateScheme, D: Digest> EqByParts for Activity<S, D>
where
    S::Certificate: Eq,
{
    ghost use Rattle.simplex_evidence.specs.Activity.{same_activity};
    ghost use Rattle.simplex_evidence.specs.declared.types.activity.Activity.TheVariants.{Notarize, Notarization, Certification, Nullify, Nullification, Finalize, Finalization, ConflictingNotarize, ConflictingFinalize, NullifyFinalize};

    ghost same = { same_activity
        ⟦<Notarize<S, D> as PartialEq>⟧.eq
        ⟦<Notarization<S, D> as PartialEq>⟧.eq
        ⟦<Nullify<S> as PartialEq>⟧.eq
        ⟦<Nullification<S> as PartialEq>⟧.eq
        ⟦<Finalize<S, D> as PartialEq>⟧.eq
        ⟦<Finalization<S, D> as PartialEq>⟧.eq
        ⟦<ConflictingNotarize<S, D> as PartialEq>⟧.eq
        ⟦<ConflictingFinalize<S, D> as PartialEq>⟧.eq
        ⟦<NullifyFinalize<S, D> as PartialEq>⟧.eq };

    ghost equal = { elim [
      | Notarize _ ↦ elim [ Notarize _ ↦ refl | _ ↦ refl ]
      | Notarization _ ↦ elim [ Notarization _ ↦ refl | _ ↦ refl ]
      | Certification _ ↦ elim [ Certification _ ↦ refl | _ ↦ refl ]
      | Nullify _ ↦ elim [ Nullify _ ↦ refl | _ ↦ refl ]
      | Nullification _ ↦ elim [ Nullification _ ↦ refl | _ ↦ refl ]
      | Finalize _ ↦ elim [ Finalize _ ↦ refl | _ ↦ refl ]
      | Finalization _ ↦ elim [ Finalization _ ↦ refl | _ ↦ refl ]
      | ConflictingNotarize _ ↦ elim [ ConflictingNotarize _ ↦ refl | _ ↦ refl ]
      | ConflictingFinalize _ ↦ elim [ ConflictingFinalize _ ↦ refl | _ ↦ refl ]
      | NullifyFinalize _ ↦ elim [ NullifyFinalize _ ↦ refl | _ ↦ refl ]
    ] };
}

impl<S: SchemeTypes, D: Digest> ExactClone for ConflictingFinalize<S, D> {
    ghost exact = { λ x y same. same };
}

impl<S: SchemeTypes, D: Digest> InfallibleClone for ConflictingFinalize<S, D> {
    ghost infallible = { λ _. tt };
}

impl<S: SchemeTypes, D: Digest> EqByParts for ConflictingFinalize<S, D> {
    ghost same = { λ x y. ⟦<Finalize<S, D> as PartialEq>⟧.eq x.first y.first &&
        ⟦<Finalize<S, D> as PartialEq>⟧.eq x.second y.second };

    ghost equal = { λ x y. refl };
}

impl<S: SchemeTypes, D: Digest> ExactClone for ConflictingNotarize<S, D> {
    ghost exact = { λ x y same. same };
}

impl<S: SchemeTypes, D: Digest> InfallibleClone for ConflictingNotarize<S, D> {
    ghost infallible = { λ _. tt };
}

impl<S: SchemeTypes, D: Digest> EqByParts for ConflictingNotarize<S, D> {
    ghost same = { λ x y. ⟦<Notarize<S, D> as PartialEq>⟧.eq x.first y.first &&
        ⟦<Notarize<S, D> as PartialEq>⟧.eq x.second y.second };

    ghost equal = { λ x y. refl };
}

impl<S: SchemeTypes, D: Digest> ExactClone for NullifyFinalize<S, D> {
    ghost exact = { λ x y same. same };
}

impl<S: SchemeTypes, D: Digest> InfallibleClone for NullifyFinalize<S, D> {
    ghost infallible = { λ _. tt };
}

impl<S: SchemeTypes, D: Digest> EqByParts for NullifyFinalize<S, D> {
    ghost same = { λ x y. ⟦<Nullify<S> as PartialEq>⟧.eq x.first y.first &&
        ⟦<Finalize<S, D> as PartialEq>⟧.eq x.second y.second };

    ghost equal = { λ x y. refl };
}
