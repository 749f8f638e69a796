//! Laws of messages that are read under committees.

ghost use Rattle.simplex_base.specs.Format.{IsLawful};
ghost use Rattle.simplex_rules.specs.Independence.{IsOfOneRound};
ghost use Rattle.simplex_evidence.specs.declared.types.activity.Activity.{Activity};
ghost use Rattle.simplex_scheme.specs.Committees.{Schedule};

use simplex_audit::basis::Audited;
use simplex_laws::laws::rounds_are_independent;
use simplex_scheme::scheme::{Digest, Listing};

/// Messages are read lawfully, and the votes of each are of its round. A call gives its caller what the clauses state.
pub fn format_laws<S: Listing<D>, D: Digest>()
    ensures readable { (committees : Schedule S) →
        IsLawful (⟦<S as Audited<D>>⟧.basis committees).format }
    ensures one_round { (committees : Schedule S)
        (message : Activity S D S.Certificate S.PublicKey S.Signature) →
        (⟦<S as Audited<D>>⟧.basis committees).format.is_value message →
        IsOfOneRound S.listed message }
{
    rounds_are_independent::<S, D>();
}
