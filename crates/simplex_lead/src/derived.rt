//! What the derived `==` and `clone` of this crate's types return, for each type.

ghost use Rattle.std.specs.Prelude.{nat_eq, refl, ◌&&◌};
ghost use Rattle.std.specs.Option.{option_eq};
ghost use Rattle.simplex_lead.specs.Plans.{IsRecipientsClone, IsPlanClone};

use crate::elector::{Mode, RoundRobin, RoundRobinElector, Terms};
use crate::{Lookahead, Plan, Recipients, Viewport};
use simplex_base::values::{CloneByParts, EqByParts, ExactClone, InfallibleClone};
use simplex_scheme::scheme::Hasher;
use std::time::Duration;

impl ExactClone for Mode {
    ghost exact = { λ x y same. same };
}

impl InfallibleClone for Mode {
    ghost infallible = { λ _. tt };
}

impl EqByParts for Mode {
    ghost use Rattle.simplex_lead.specs.Election.{same_mode};
    ghost use Rattle.simplex_lead.specs.declared.elector.mode.Mode.TheVariants.{Scheduled, Dynamic};

    ghost same = { same_mode };

    ghost equal = { elim [
      | Scheduled ↦ elim [ Scheduled ↦ refl | Dynamic ↦ refl ]
      | Dynamic ↦ elim [ Scheduled ↦ refl | Dynamic ↦ refl ]
    ] };
}

impl<H: Hasher> ExactClone for RoundRobin<H> {
    ghost exact = { λ x y same. same };
}

impl<S> ExactClone for RoundRobinElector<S> {
    ghost exact = { λ x y same. same };
}

impl ExactClone for Terms {
    ghost exact = { λ x y same. same };
}

impl InfallibleClone for Terms {
    ghost infallible = { λ _. tt };
}

impl EqByParts for Terms {
    ghost same = { λ x y. nat_eq x.term_length y.term_length &&
        (option_eq ⟦<Duration as PartialEq>⟧.eq x.stall_timeout y.stall_timeout &&
        nat_eq x.optimistic_views y.optimistic_views) };

    ghost equal = { λ x y. refl };
}

impl ExactClone for Lookahead {
    ghost exact = { λ x y same. same };
}

impl InfallibleClone for Lookahead {
    ghost infallible = { λ _. tt };
}

impl<P: Clone> CloneByParts for Recipients<P> {
    ghost copied = { IsRecipientsClone P.is_clone };

    ghost cloned = { λ x y same. same };
}

impl<P: Eq> EqByParts for Recipients<P> {
    ghost use Rattle.simplex_lead.specs.Plans.{same_recipients};
    ghost use Rattle.simplex_lead.specs.declared.plan.Recipients.TheVariants.{All, Some, One};

    ghost same = { same_recipients P.eq };

    ghost equal = { elim [
      | All ↦ elim [ All ↦ refl | Some ys ↦ refl | One y ↦ refl ]
      | Some xs ↦ elim [ All ↦ refl | Some ys ↦ refl | One y ↦ refl ]
      | One x ↦ elim [ All ↦ refl | Some ys ↦ refl | One y ↦ refl ]
    ] };
}

impl<P: Clone> CloneByParts for Plan<P> {
    ghost copied = { IsPlanClone P.is_clone };

    ghost cloned = { λ x y same. same };
}

impl<P: Eq> EqByParts for Plan<P> {
    ghost use Rattle.simplex_lead.specs.Plans.{same_plan};
    ghost use Rattle.simplex_lead.specs.declared.plan.Plan.TheVariants.{Prepare, Propose, Forward};

    ghost same = { same_plan ⟦<Recipients<P> as PartialEq>⟧.eq };

    ghost equal = { elim [
      | Prepare x ↦ elim [ Prepare y ↦ refl | Propose y ↦ refl | Forward y to ↦ refl ]
      | Propose x ↦ elim [ Prepare y ↦ refl | Propose y ↦ refl | Forward y to ↦ refl ]
      | Forward x from ↦ elim [ Prepare y ↦ refl | Propose y ↦ refl | Forward y to ↦ refl ]
    ] };
}

impl ExactClone for Viewport {
    ghost exact = { λ x y same. same };
}

impl InfallibleClone for Viewport {
    ghost infallible = { λ _. tt };
}
