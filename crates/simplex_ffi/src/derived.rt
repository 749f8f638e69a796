//! What the derived `clone` of this crate's types returns, for each type.

use crate::decoding::MessageHead;
use crate::proof::Accusation;
use simplex_base::values::{ExactClone, InfallibleClone};

impl ExactClone for MessageHead {
    ghost exact = { λ x y same. same };
}

impl InfallibleClone for MessageHead {
    ghost infallible = { λ _. tt };
}

impl ExactClone for Accusation {
    ghost exact = { λ x y same. same };
}

impl InfallibleClone for Accusation {
    ghost infallible = { λ _. tt };
}
