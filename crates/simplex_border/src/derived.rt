//! What the derived `==` and `clone` of this crate's types return, for each type.

ghost use Rattle.std.specs.Prelude.{nat_eq, refl, ◌&&◌};

use crate::answer::ReportSummary;
use crate::refusals::Refusal;
use crate::signatures::VouchedSize;
use simplex_base::values::{EqByParts, ExactClone, InfallibleClone};

impl ExactClone for ReportSummary {
    ghost exact = { λ x y same. same };
}

impl InfallibleClone for ReportSummary {
    ghost infallible = { λ _. tt };
}

impl EqByParts for ReportSummary {
    ghost same = { λ x y. nat_eq x.read y.read && (nat_eq x.evidence y.evidence &&
        (nat_eq x.splits y.splits && (nat_eq x.faulted y.faulted &&
        (nat_eq x.fault_place y.fault_place && nat_eq x.length y.length)))) };

    ghost equal = { λ x y. refl };
}

impl ExactClone for Refusal {
    ghost exact = { λ x y same. same };
}

impl InfallibleClone for Refusal {
    ghost infallible = { λ _. tt };
}

impl ExactClone for VouchedSize {
    ghost exact = { λ x y same. same };
}

impl InfallibleClone for VouchedSize {
    ghost infallible = { λ _. tt };
}
