//! What the `==` and `clone` of this crate's types return, for each type.

ghost use Rattle.std.specs.Prelude.{refl};
ghost use Rattle.std.specs.Cmp.Lexicographic.{pointwise};

use crate::listed::Listed;
use crate::marked::Marked;
use crate::own::{MarkedCertificate, PlainCertificate, VouchedCertificate};
use crate::plain::Plain;
use crate::vouched::Vouched;
use simplex_base::codec::fixed_bytes::Role;
use simplex_base::values::{EqByParts, ExactClone};
use simplex_scheme::scheme::{Attestation, SchemeTypes};

impl<S: SchemeTypes> ExactClone for Listed<S> {
    ghost exact = { λ x y same. same };
}

impl<S: SchemeTypes> EqByParts for Listed<S> {
    ghost same = { pointwise ⟦<Attestation<S> as PartialEq>⟧.eq };

    ghost equal = { λ x y. refl };
}

impl ExactClone for MarkedCertificate {
    ghost exact = { λ x y same. same };
}

impl EqByParts for MarkedCertificate {
    ghost same = { pointwise ⟦<Attestation<Marked> as PartialEq>⟧.eq };

    ghost equal = { λ x y. refl };
}

impl ExactClone for PlainCertificate {
    ghost exact = { λ x y same. same };
}

impl EqByParts for PlainCertificate {
    ghost same = { pointwise ⟦<Attestation<Plain> as PartialEq>⟧.eq };

    ghost equal = { λ x y. refl };
}

impl<R: Role<N>, const N: usize> ExactClone for VouchedCertificate<R, N> {
    ghost exact = { λ x y same. same };
}

impl<R: Role<N>, const N: usize> EqByParts for VouchedCertificate<R, N> {
    ghost same = { pointwise ⟦<Attestation<Vouched<R, N>> as PartialEq>⟧.eq };

    ghost equal = { λ x y. refl };
}
