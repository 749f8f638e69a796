//! What the derived `==`, `cmp` and `clone` of this crate's types return, for each type.

ghost use Rattle.std.specs.Prelude.{nat_eq, refl, ◌&&◌};
ghost use Rattle.std.specs.Ordering.{nat_cmp, ordering_then};

use crate::evidence::{Accusation, EquivocationKind, Evidence, SignerInRound};
use crate::split::Split;
use simplex_base::positions::Round;
use simplex_base::values::{EqByParts, ExactClone, InfallibleClone, OrdByParts};
use simplex_evidence::types::{ConflictingFinalize, ConflictingNotarize, NullifyFinalize};
use simplex_scheme::scheme::{Digest, SchemeTypes};

impl<S: SchemeTypes, D: Digest> EqByParts for Evidence<S, D> {
    ghost use Rattle.simplex_rules.specs.EncodedEvidence.{same_evidence};
    ghost use Rattle.simplex_rules.specs.declared.evidence.Evidence.TheVariants.{ConflictingNotarize, ConflictingFinalize, NullifyFinalize};

    ghost same = { same_evidence
        ⟦<ConflictingNotarize<S, D> as PartialEq>⟧.eq
        ⟦<ConflictingFinalize<S, D> as PartialEq>⟧.eq
        ⟦<NullifyFinalize<S, D> as PartialEq>⟧.eq };

    ghost equal = { elim [
      | ConflictingNotarize _ ↦ elim [ ConflictingNotarize _ ↦ refl | _ ↦ refl ]
      | ConflictingFinalize _ ↦ elim [ ConflictingFinalize _ ↦ refl | _ ↦ refl ]
      | NullifyFinalize _ ↦ elim [ NullifyFinalize _ ↦ refl | _ ↦ refl ]
    ] };
}

impl ExactClone for SignerInRound {
    ghost exact = { λ x y same. same };
}

impl InfallibleClone for SignerInRound {
    ghost infallible = { λ _. tt };
}

impl EqByParts for SignerInRound {
    ghost same = { λ x y. ⟦<Round as PartialEq>⟧.eq x.round y.round &&
        nat_eq x.signer y.signer };

    ghost equal = { λ x y. refl };
}

impl OrdByParts for SignerInRound {
    ghost order = { λ x y. ordering_then (⟦<Round as Ord>⟧.cmp x.round y.round)
        (nat_cmp x.signer y.signer) };

    ghost ordered = { λ x y. refl };
}

impl ExactClone for EquivocationKind {
    ghost exact = { λ x y same. same };
}

impl InfallibleClone for EquivocationKind {
    ghost infallible = { λ _. tt };
}

impl EqByParts for EquivocationKind {
    ghost use Rattle.simplex_rules.specs.Accusation.{way_rank};
    ghost use Rattle.simplex_rules.specs.declared.evidence.EquivocationKind.TheVariants.{ConflictingNotarize, ConflictingFinalize, NullifyFinalize};

    ghost same = { λ x y. nat_eq (way_rank x) (way_rank y) };

    ghost equal = { elim [
      | ConflictingNotarize ↦ elim [ ConflictingNotarize ↦ refl | ConflictingFinalize ↦ refl | NullifyFinalize ↦ refl ]
      | ConflictingFinalize ↦ elim [ ConflictingNotarize ↦ refl | ConflictingFinalize ↦ refl | NullifyFinalize ↦ refl ]
      | NullifyFinalize ↦ elim [ ConflictingNotarize ↦ refl | ConflictingFinalize ↦ refl | NullifyFinalize ↦ refl ]
    ] };
}

impl OrdByParts for EquivocationKind {
    ghost use Rattle.simplex_rules.specs.Accusation.{way_rank};
    ghost use Rattle.simplex_rules.specs.declared.evidence.EquivocationKind.TheVariants.{ConflictingNotarize, ConflictingFinalize, NullifyFinalize};

    ghost order = { λ x y. nat_cmp (way_rank x) (way_rank y) };

    ghost ordered = { elim [
      | ConflictingNotarize ↦ elim [ ConflictingNotarize ↦ refl | ConflictingFinalize ↦ refl | NullifyFinalize ↦ refl ]
      | ConflictingFinalize ↦ elim [ ConflictingNotarize ↦ refl | ConflictingFinalize ↦ refl | NullifyFinalize ↦ refl ]
      | NullifyFinalize ↦ elim [ ConflictingNotarize ↦ refl | ConflictingFinalize ↦ refl | NullifyFinalize ↦ refl ]
    ] };
}

impl ExactClone for Accusation {
    ghost exact = { λ x y same. same };
}

impl InfallibleClone for Accusation {
    ghost infallible = { λ _. tt };
}

impl EqByParts for Accusation {
    ghost same = { λ x y. ⟦<SignerInRound as PartialEq>⟧.eq x.accused y.accused &&
        ⟦<EquivocationKind as PartialEq>⟧.eq x.kind y.kind };

    ghost equal = { λ x y. refl };
}

impl OrdByParts for Accusation {
    ghost order = { λ x y. ordering_then (⟦<SignerInRound as Ord>⟧.cmp x.accused y.accused)
        (⟦<EquivocationKind as Ord>⟧.cmp x.kind y.kind) };

    ghost ordered = { λ x y. refl };
}

impl ExactClone for Split {
    ghost exact = { λ x y same. same };
}

impl InfallibleClone for Split {
    ghost infallible = { λ _. tt };
}

impl EqByParts for Split {
    ghost same = { λ x y. ⟦<Round as PartialEq>⟧.eq x.round y.round &&
        (nat_eq x.named y.named && nat_eq x.least y.least) };

    ghost equal = { λ x y. refl };
}
