//! The basis of an audit, for contracts alone.

ghost use Rattle.simplex_audit.specs.Basis.{Basis, basis_of};
ghost use Rattle.simplex_audit.specs.Deferred.{basis_under};
ghost use Rattle.simplex_scheme.specs.Committees.{Schedule};
ghost use Rattle.simplex_rules.specs.declared.judging.Judging.{Judging};

use simplex_base::codec::Read;
use simplex_evidence::types::Activity;
use simplex_rules::rules::Decides;
use simplex_scheme::scheme::{Digest, Listing};

/// A scheme whose committees judge the messages of streams. Every scheme that lists attestations is one; there is
/// nothing to implement or to call.
pub trait Audited<D: Digest>: Listing<D> {
    /// How messages are read under committees, and the rules by which they are judged.
    ghost basis: { Schedule Self → Basis Self D Self.Certificate Self.PublicKey Self.Signature };

    /// The same, where votes and certificates are judged as strictly as a `Judging` says.
    ghost basis_under: { Judging → Schedule Self →
        Basis Self D Self.Certificate Self.PublicKey Self.Signature };
}

impl<S: Listing<D>, D: Digest> Audited<D> for S {
    ghost basis = { basis_of ⟦<Activity<S, D> as Read>⟧ ⟦<S as Decides<D>>⟧.scheme };

    ghost basis_under = { basis_under ⟦<Activity<S, D> as Read>⟧ ⟦<S as Decides<D>>⟧.scheme };
}
