//! What the derived `clone` of this crate's types returns, for each type.

use crate::window::Window;
use simplex_base::values::{ExactClone, InfallibleClone};

impl ExactClone for Window {
    ghost exact = { λ x y same. same };
}

impl InfallibleClone for Window {
    ghost infallible = { λ _. tt };
}
