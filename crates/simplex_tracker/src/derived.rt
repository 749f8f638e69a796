//! What the derived `==` and `clone` of this crate's types return, for each type.

ghost use Rattle.std.specs.Prelude.{refl};

use crate::live::Fed;
use simplex_base::values::{EqByParts, ExactClone, InfallibleClone};

impl ExactClone for Fed {
    ghost exact = { λ x y same. same };
}

impl InfallibleClone for Fed {
    ghost infallible = { λ _. tt };
}

impl EqByParts for Fed {
    ghost use Rattle.simplex_tracker.specs.Fed.{same_fed};
    ghost use Rattle.simplex_tracker.specs.declared.live.Fed.TheVariants.{Taken, Over, Long, OutOfMemory};

    ghost same = { same_fed };

    ghost equal = { elim [
      | Taken ↦ elim [ Taken ↦ refl | _ ↦ refl ]
      | Over ↦ elim [ Over ↦ refl | _ ↦ refl ]
      | Long ↦ elim [ Long ↦ refl | _ ↦ refl ]
      | OutOfMemory ↦ elim [ OutOfMemory ↦ refl | _ ↦ refl ]
    ] };
}
