//! What the derived `==` and `clone` of this crate's types return, for each type.

ghost use Rattle.std.specs.Prelude.{refl};

use crate::program::Verification;
use crate::status::{Failure, Status};
use simplex_base::values::{EqByParts, ExactClone, InfallibleClone};

impl ExactClone for Verification {
    ghost exact = { λ x y same. same };
}

impl InfallibleClone for Verification {
    ghost infallible = { λ _. tt };
}

impl EqByParts for Verification {
    ghost use Rattle.simplex_cli.specs.Program.{same_verification};
    ghost use Rattle.simplex_cli.specs.declared.program.Verification.TheVariants.{Full, Deferred};

    ghost same = { same_verification };

    ghost equal = { elim [
      | Full ↦ elim [ Full ↦ refl | _ ↦ refl ]
      | Deferred ↦ elim [ Deferred ↦ refl | _ ↦ refl ]
    ] };
}

impl ExactClone for Status {
    ghost exact = { λ x y same. same };
}

impl InfallibleClone for Status {
    ghost infallible = { λ _. tt };
}

impl EqByParts for Status {
    ghost use Rattle.simplex_cli.specs.Status.{same_status};
    ghost use Rattle.simplex_cli.specs.declared.status.Status.TheVariants.{Whole, Fault, Usage, Failed};

    ghost same = { same_status };

    ghost equal = { elim [
      | Whole ↦ elim [ Whole ↦ refl | _ ↦ refl ]
      | Fault ↦ elim [ Fault ↦ refl | _ ↦ refl ]
      | Usage ↦ elim [ Usage ↦ refl | _ ↦ refl ]
      | Failed ↦ elim [ Failed ↦ refl | _ ↦ refl ]
    ] };
}

impl ExactClone for Failure {
    ghost exact = { λ x y same. same };
}

impl InfallibleClone for Failure {
    ghost infallible = { λ _. tt };
}

impl EqByParts for Failure {
    ghost use Rattle.simplex_cli.specs.Status.{same_failure};
    ghost use Rattle.simplex_cli.specs.declared.status.Failure.TheVariants.{Usage, Read, Write, OutOfMemory};

    ghost same = { same_failure };

    ghost equal = { elim [
      | Usage ↦ elim [ Usage ↦ refl | _ ↦ refl ]
      | Read ↦ elim [ Read ↦ refl | _ ↦ refl ]
      | Write ↦ elim [ Write ↦ refl | _ ↦ refl ]
      | OutOfMemory ↦ elim [ OutOfMemory ↦ refl | _ ↦ refl ]
    ] };
}
