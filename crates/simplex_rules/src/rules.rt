//! The rules by which messages are judged, for contracts alone.

ghost use Rattle.simplex_scheme.specs.Committees.{Schedule};
ghost use Rattle.simplex_rules.specs.Scheme.{rules_of, Scheme, scheme_of};
ghost use Rattle.simplex_rules.specs.Judging.{rules_under};
ghost use Rattle.simplex_rules.specs.Rules.{Rules};
ghost use Rattle.simplex_rules.specs.declared.judging.Judging.{Judging};

use simplex_scheme::scheme::{Digest, Listing};

/// A scheme whose committees decide what is valid and what certifies. Every scheme that lists attestations is one; there
/// is nothing to implement or to call.
pub trait Decides<D: Digest>: Listing<D> {
    /// How the scheme's committees judge.
    ghost scheme: { Scheme Self D Self.Certificate Self.PublicKey Self.Signature };
}

impl<S: Listing<D>, D: Digest> Decides<D> for S {
    ghost scheme = { scheme_of D.eq S.keys S.good S.certified S.listed };
}

/// A scheme whose committees judge votes and certificates. Every scheme that lists attestations is one; there is
/// nothing to implement or to call.
pub trait Judges<D: Digest>: Listing<D> {
    /// Each vote and each certificate is judged by the committee of its round's epoch.
    ghost rules: { Schedule Self → Rules Self D Self.Certificate Self.PublicKey Self.Signature };

    /// The same, where votes and certificates are judged as strictly as a `Judging` says.
    ghost rules_under: { Judging → Schedule Self →
        Rules Self D Self.Certificate Self.PublicKey Self.Signature };
}

impl<S: Listing<D>, D: Digest> Judges<D> for S {
    ghost rules = { rules_of ⟦<S as Decides<D>>⟧.scheme };

    ghost rules_under = { rules_under ⟦<S as Decides<D>>⟧.scheme };
}
