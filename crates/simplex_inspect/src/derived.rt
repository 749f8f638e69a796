//! What the derived `==` and `clone` of this crate's types return, for each type.

ghost use Rattle.std.specs.Prelude.{refl};

use crate::validity::Validity;
use simplex_base::values::{EqByParts, ExactClone, InfallibleClone};

impl ExactClone for Validity {
    ghost exact = { λ x y same. same };
}

impl InfallibleClone for Validity {
    ghost infallible = { λ _. tt };
}

impl EqByParts for Validity {
    ghost use Rattle.simplex_inspect.specs.Validity.{same_validity};
    ghost use Rattle.simplex_inspect.specs.declared.validity.Validity.TheVariants.{Valid, NoCommittee, OutsideSigner, WrongSignature, TooFew, WrongAttestation};

    ghost same = { same_validity };

    ghost equal = { elim [
      | Valid ↦ elim [ Valid ↦ refl | _ ↦ refl ]
      | NoCommittee ↦ elim [ NoCommittee ↦ refl | _ ↦ refl ]
      | OutsideSigner ↦ elim [ OutsideSigner ↦ refl | _ ↦ refl ]
      | WrongSignature ↦ elim [ WrongSignature ↦ refl | _ ↦ refl ]
      | TooFew ↦ elim [ TooFew ↦ refl | _ ↦ refl ]
      | WrongAttestation ↦ elim [ WrongAttestation ↦ refl | _ ↦ refl ]
    ] };
}
