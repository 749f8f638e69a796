//! The messages of a stream that are of rounds from a floor on.

ghost use Rattle.std.specs.Prelude.{◌≡◌, ℕ, List, [], ⊤, IfOk};
ghost use Rattle.std.specs.List.{flat_map};
ghost use Rattle.simplex_base.specs.Format.{format_under};
ghost use Rattle.simplex_rules.specs.Independence.{is_from, of_rounds};
ghost use Rattle.simplex_evidence.specs.declared.types.activity.Activity as activities;
ghost use Rattle.simplex_stream.specs.Messages.{AreMessages};

use crate::window::is_at_least;
use simplex_audit::compaction::append_news;
use simplex_ballots::kept::Kept;
use simplex_base::codec::{Encoding, Read};
use simplex_base::positions::{Round, Roundable};
use simplex_evidence::types::Activity;
use simplex_scheme::scheme::{Digest, Listing};
use simplex_stream::messages::{Visitor, for_each_message};
use std::alloc::{AllocError, Global};

/// Takes messages, and keeps those of rounds from a floor on.
#[derive(Drop)]
pub(crate) struct Sieve {
    /// The floor.
    floor: Round,
    /// The encodings of what is kept.
    kept: Vec<u8>,
}

impl<S: Listing<D>, D: Digest> Visitor<Activity<S, D>> for Sieve {
    ghost use Rattle.simplex_monitor.specs.Sieving.{SievesMore, sieves_more, sieves_none};

    type Context = ();

    ghost follows = { λ _. SievesMore ⟦<Activity<S, D> as Encoding>⟧.encoding };

    ghost has_room = { λ _ _. ⊤ };

    fn take(
        &mut self,
        _alloc: Global,
        _context: &(),
        _size: usize,
        message: &Activity<S, D>,
    ) -> Result<(), AllocError> {
        if !is_at_least(message.round(), self.floor) {
            return Ok(());
        }
        append_news(&Kept::<S, D>::Whole, message, &mut self.kept)
    }

    ghost none = { λ _ state. sieves_none ⟦<Activity<S, D> as Encoding>⟧.encoding state };

    ghost more = { λ _ ms m a b c. sieves_more ⟦<Activity<S, D> as Encoding>⟧.encoding ms m a b c };

    ghost less = { λ _ _ _ room. room };

    ghost left = { λ _ _ _ _ _ _ room. room };
}

/// The messages of some bytes that are of rounds from a floor on, if the bytes are whole messages that are read under the
/// bound. `AllocError` only where an allocation failed.
pub(crate) fn messages_from<S: Listing<D>, D: Digest>(
    alloc: Global,
    bound: u32,
    floor: Round,
    bytes: &[u8],
) -> Result<Vec<u8>, AllocError>
    ensures { IfOk result (λ kept. (messages : List (activities.Activity S D S.Certificate S.PublicKey S.Signature)) →
        AreMessages (format_under ⟦<Activity<S, D> as Read>⟧ bound) bytes.now messages [] →
        kept.items ≡ flat_map ⟦<Activity<S, D> as Encoding>⟧.encoding (of_rounds (is_from floor) messages)) }
{
    let mut sieve = Sieve {
        floor,
        kept: Vec::new(alloc),
    };
    for_each_message::<Activity<S, D>, Sieve>(alloc, &(), bound, bytes, &mut sieve)?;
    Ok(sieve.kept)
}
