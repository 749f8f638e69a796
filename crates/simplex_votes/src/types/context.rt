//! What a payload is built on.

ghost use Rattle.std.specs.Prelude.{◌≡◌, ⊤, ◌+◌, false};
ghost use Rattle.simplex_base.specs.Format.{format_of};

use simplex_base::codec::parts::{size_both, write_both};
use simplex_base::codec::{
    EncodeSize, Encoding, Error, Fixed, MaxEncodeSize, Read, ReadExt, Write,
};
use simplex_base::or_return;
use simplex_base::positions::{Round, Roundable, View};
use simplex_scheme::scheme::{Digest, PublicKey};
use std::alloc::{AllocError, Global};

/// The round of a payload, the key of the round's leader, and the view and the payload of the parent that it is
/// built on, encoded in that order: at most 30 bytes, the key's and the digest's.
#[derive(Debug, Drop, PartialEq, Eq)]
pub struct Context<D, P> {
    /// The round of the payload.
    pub round: Round,
    /// The key of the round's leader.
    pub leader: P,
    /// The view of the parent, and its payload; nothing relates that view to the round's.
    pub parent: (View, D),
}

impl<D: Copy + Drop, P: Copy + Drop> Clone for Context<D, P> {
    ghost is_clone = { λ context copy. copy ≡ context };

    ghost is_infallible = { λ _. ⊤ };

    fn clone(&self) -> Result<Self, AllocError> {
        Ok(Context {
            round: self.round,
            leader: self.leader,
            parent: self.parent,
        })
    }
}

impl<D, P> Roundable for Context<D, P> {
    ghost round_of = { λ context. context.round };

    fn round(&self) -> Round {
        self.round
    }
}

impl<D: Digest, P: PublicKey> Encoding for Context<D, P> {
    ghost use Rattle.simplex_votes.specs.Context.{context_format};

    ghost is_value = { (context_format (format_of ⟦<D as Read>⟧)
        (format_of ⟦<P as Read>⟧)).is_value };

    ghost encoding = { (context_format (format_of ⟦<D as Read>⟧)
        (format_of ⟦<P as Read>⟧)).encoding };
}

impl<D: Digest, P: PublicKey> Write for Context<D, P> {
    fn write(&self, buf: &mut Vec<u8>) -> Result<(), AllocError> {
        write_both(&self.round, &(self.leader, self.parent), buf)
    }
}

impl<D: Digest, P: PublicKey> EncodeSize for Context<D, P> {
    ghost limit = { 30 + 65535 + 65535 };

    fn encode_size(&self) -> usize {
        let parent = size_both(&self.parent.0, &self.parent.1);
        size_both(&self.round, &self.leader) + parent
    }
}

impl<D: Digest, P: PublicKey> MaxEncodeSize for Context<D, P> {
    ghost use Rattle.simplex_votes.specs.ContextLaws.{context_within, context_longest};

    ghost max_size = { 30 + P.SIZE + D.SIZE };

    fn max_encode_size() -> usize {
        Round::max_encode_size() + P::SIZE + View::max_encode_size() + D::SIZE
    }

    ghost within = { context_within (format_of ⟦<D as Read>⟧) (format_of ⟦<P as Read>⟧) D.SIZE
        P.SIZE D.within P.within };

    ghost reached = { context_longest (format_of ⟦<D as Read>⟧) (format_of ⟦<P as Read>⟧) D.SIZE
        P.SIZE D.longest P.longest };
}

impl<D: Digest, P: PublicKey> Read for Context<D, P> {
    ghost use Rattle.simplex_votes.specs.Context.{context_format};
    ghost use Rattle.simplex_votes.specs.ContextLaws.{context_lawful};

    type Cfg = ();

    ghost fits = { λ _. (context_format (format_of ⟦<D as Read>⟧)
        (format_of ⟦<P as Read>⟧)).is_value };

    ghost reading = { λ _. (context_format (format_of ⟦<D as Read>⟧)
        (format_of ⟦<P as Read>⟧)).reading };

    ghost takes_memory = { false };

    fn read_cfg(alloc: Global, input: &mut &[u8], cfg: &()) -> Result<Self, Error> {
        let mut rest: &[u8] = *input;
        let round = or_return!(Round::read_cfg(alloc, &mut rest, cfg));
        let leader = or_return!(P::read_cfg(alloc, &mut rest, cfg));
        let parent = or_return!(<(View, D)>::read_cfg(alloc, &mut rest, cfg));
        *input = rest;
        Ok(Context {
            round,
            leader,
            parent,
        })
    }

    ghost lawful = { λ _. context_lawful _ _ D.lawful P.lawful };
}

impl<D: Digest, P: PublicKey> ReadExt for Context<D, P> {
    ghost readable = { λ x value. value };
}
