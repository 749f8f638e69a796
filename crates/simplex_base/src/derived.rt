//! What the derived `==`, `cmp` and `clone` of this crate's types return, for each type.

ghost use Rattle.std.specs.Prelude.{nat_eq, refl, ◌&&◌};
ghost use Rattle.std.specs.Ordering.{nat_cmp, ordering_then};

use crate::codec::Error;
use crate::codec::fixed_bytes::FixedBytes;
use crate::positions::{Epoch, Participant, Round, TermLength, View, ViewDelta};
use crate::values::{EqByParts, ExactClone, InfallibleClone, OrdByParts};

impl EqByParts for Error {
    ghost use Rattle.simplex_base.specs.Reading.{same_error};
    ghost use Rattle.simplex_base.specs.declared.codec.error.Error.TheVariants.{EndOfBuffer, InvalidVarint, InvalidBool, Invalid, ExtraData, OutOfMemory};

    ghost same = { same_error };

    ghost equal = { elim [
      | EndOfBuffer ↦ elim [ EndOfBuffer ↦ refl | _ ↦ refl ]
      | InvalidVarint ↦ elim [ InvalidVarint ↦ refl | _ ↦ refl ]
      | InvalidBool ↦ elim [ InvalidBool ↦ refl | _ ↦ refl ]
      | Invalid _ _ ↦ elim [ Invalid _ _ ↦ refl | _ ↦ refl ]
      | ExtraData ↦ elim [ ExtraData ↦ refl | _ ↦ refl ]
      | OutOfMemory ↦ elim [ OutOfMemory ↦ refl | _ ↦ refl ]
    ] };
}

impl ExactClone for Error {
    ghost exact = { λ x y same. same };
}

impl InfallibleClone for Error {
    ghost infallible = { λ _. tt };
}

impl<R, const N: usize> ExactClone for FixedBytes<R, N> {
    ghost exact = { λ x y same. same };
}

impl<R, const N: usize> InfallibleClone for FixedBytes<R, N> {
    ghost infallible = { λ _. tt };
}

impl EqByParts for Epoch {
    ghost same = { nat_eq };

    ghost equal = { λ x y. refl };
}

impl OrdByParts for Epoch {
    ghost order = { nat_cmp };

    ghost ordered = { λ x y. refl };
}

impl ExactClone for Epoch {
    ghost exact = { λ x y same. same };
}

impl InfallibleClone for Epoch {
    ghost infallible = { λ _. tt };
}

impl EqByParts for Participant {
    ghost same = { nat_eq };

    ghost equal = { λ x y. refl };
}

impl OrdByParts for Participant {
    ghost order = { nat_cmp };

    ghost ordered = { λ x y. refl };
}

impl ExactClone for Participant {
    ghost exact = { λ x y same. same };
}

impl InfallibleClone for Participant {
    ghost infallible = { λ _. tt };
}

impl EqByParts for Round {
    ghost same = { λ x y. nat_eq x.epoch y.epoch && nat_eq x.view y.view };

    ghost equal = { λ x y. refl };
}

impl OrdByParts for Round {
    ghost order = { λ x y. ordering_then (nat_cmp x.epoch y.epoch) (nat_cmp x.view y.view) };

    ghost ordered = { λ x y. refl };
}

impl ExactClone for Round {
    ghost exact = { λ x y same. same };
}

impl InfallibleClone for Round {
    ghost infallible = { λ _. tt };
}

impl EqByParts for TermLength {
    ghost same = { nat_eq };

    ghost equal = { λ x y. refl };
}

impl OrdByParts for TermLength {
    ghost order = { nat_cmp };

    ghost ordered = { λ x y. refl };
}

impl ExactClone for TermLength {
    ghost exact = { λ x y same. same };
}

impl InfallibleClone for TermLength {
    ghost infallible = { λ _. tt };
}

impl EqByParts for View {
    ghost same = { nat_eq };

    ghost equal = { λ x y. refl };
}

impl OrdByParts for View {
    ghost order = { nat_cmp };

    ghost ordered = { λ x y. refl };
}

impl ExactClone for View {
    ghost exact = { λ x y same. same };
}

impl InfallibleClone for View {
    ghost infallible = { λ _. tt };
}

impl EqByParts for ViewDelta {
    ghost same = { nat_eq };

    ghost equal = { λ x y. refl };
}

impl OrdByParts for ViewDelta {
    ghost order = { nat_cmp };

    ghost ordered = { λ x y. refl };
}

impl ExactClone for ViewDelta {
    ghost exact = { λ x y same. same };
}

impl InfallibleClone for ViewDelta {
    ghost infallible = { λ _. tt };
}
