//! What the derived `==` and `clone` of this crate's types return, for each type.

ghost use Rattle.std.specs.Prelude.{nat_eq, refl, ◌&&◌};

use crate::fault::Fault;
use crate::run_error::RunError;
use simplex_base::codec::Error;
use simplex_base::values::{EqByParts, ExactClone, InfallibleClone};

impl ExactClone for Fault {
    ghost exact = { λ x y same. same };
}

impl InfallibleClone for Fault {
    ghost infallible = { λ _. tt };
}

impl EqByParts for Fault {
    ghost same = { λ x y. nat_eq x.place y.place && ⟦<Error as PartialEq>⟧.eq x.error y.error };

    ghost equal = { λ x y. refl };
}

impl ExactClone for RunError {
    ghost exact = { λ x y same. same };
}

impl InfallibleClone for RunError {
    ghost infallible = { λ _. tt };
}

impl EqByParts for RunError {
    ghost use Rattle.simplex_stream.specs.RunError.{same_run_error};
    ghost use Rattle.simplex_stream.specs.declared.run_error.RunError.TheVariants.{Read, Write, OutOfMemory, TooLong};

    ghost same = { same_run_error };

    ghost equal = { elim [
      | Read ↦ elim [ Read ↦ refl | _ ↦ refl ]
      | Write ↦ elim [ Write ↦ refl | _ ↦ refl ]
      | OutOfMemory ↦ elim [ OutOfMemory ↦ refl | _ ↦ refl ]
      | TooLong ↦ elim [ TooLong ↦ refl | _ ↦ refl ]
    ] };
}
