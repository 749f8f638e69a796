//! What the derived `clone` of this crate's types returns, for each type.

use crate::complaints::Trouble;
use crate::listening::Totals;
use crate::options::Options;
use crate::state::Mark;
use simplex_base::values::{ExactClone, InfallibleClone};

impl ExactClone for Trouble {
    ghost exact = { λ x y same. same };
}

impl InfallibleClone for Trouble {
    ghost infallible = { λ _. tt };
}

impl ExactClone for Totals {
    ghost exact = { λ x y same. same };
}

impl InfallibleClone for Totals {
    ghost infallible = { λ _. tt };
}

impl ExactClone for Options<'_> {
    ghost exact = { λ x y same. same };
}

impl InfallibleClone for Options<'_> {
    ghost infallible = { λ _. tt };
}

impl ExactClone for Mark {
    ghost exact = { λ x y same. same };
}

impl InfallibleClone for Mark {
    ghost infallible = { λ _. tt };
}
