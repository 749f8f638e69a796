//! How messages are read and shown, for contracts alone.

ghost use Rattle.std.specs.Prelude.{Option};
ghost use Rattle.simplex_evidence.specs.declared.types.activity.Activity.{Activity};
ghost use Rattle.simplex_scheme.specs.Committees.{Schedule};
ghost use Rattle.simplex_inspect.specs.Inspected.{Lines, lines_of};
ghost use Rattle.simplex_inspect.specs.Shown.{Shown, shown_of};

use simplex_base::codec::{Fixed, Read};
use simplex_evidence::types::Activity;
use simplex_rules::rules::Decides;
use simplex_scheme::scheme::{Digest, Listing};

/// A scheme whose messages can be shown. Every scheme that lists attestations is one; there is nothing to implement or to
/// call.
pub trait Inspected<D: Digest>: Listing<D> {
    /// How messages are shown, under committees or without any.
    ghost shown: { Option (Schedule Self) →
        Shown Self D Self.Certificate Self.PublicKey Self.Signature };

    /// How messages are read, and the line of each.
    ghost lines: { Option (Schedule Self) →
        Lines (Activity Self D Self.Certificate Self.PublicKey Self.Signature) };
}

impl<S: Listing<D>, D: Digest> Inspected<D> for S {
    ghost shown = { shown_of D.bytes_of S.Signature.bytes_of
        ⟦<S as Decides<D>>⟧.scheme };

    ghost lines = { lines_of ⟦<Activity<S, D> as Read>⟧ S.keys
        (shown_of D.bytes_of S.Signature.bytes_of ⟦<S as Decides<D>>⟧.scheme) };
}
