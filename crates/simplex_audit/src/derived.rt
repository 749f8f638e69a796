//! What the derived `==` and `clone` of this crate's types return, for each type.

ghost use Rattle.std.specs.Prelude.{nat_eq, refl, ◌&&◌};
ghost use Rattle.std.specs.Option.{option_eq};

use crate::audit::Fault;
use crate::run::Summary;
use simplex_base::values::{EqByParts, ExactClone, InfallibleClone};

impl ExactClone for Summary {
    ghost exact = { λ x y same. same };
}

impl InfallibleClone for Summary {
    ghost infallible = { λ _. tt };
}

impl EqByParts for Summary {
    ghost same = { λ x y. nat_eq x.read y.read && (nat_eq x.evidence y.evidence &&
        (nat_eq x.splits y.splits && option_eq ⟦<Fault as PartialEq>⟧.eq x.fault y.fault)) };

    ghost equal = { λ x y. refl };
}
