//! The round and the length of the message that begins some bytes.

ghost use Rattle.std.specs.Prelude.{◌≡◌, None, IfOk, IfSome, MatchOption};
ghost use Rattle.simplex_base.specs.Format.{format_under};
ghost use Rattle.simplex_stream.specs.Messages.{IsStuck};
ghost use Rattle.simplex_shards.specs.Peek.{IsPeeked};

use crate::index::Tabular;
use simplex_base::codec::{Encoding, Error, Read};
use simplex_base::positions::{Round, Roundable};
use std::alloc::{AllocError, Global};

/// What is known of a message that was not decoded.
#[derive(Clone, Copy, Debug)]
pub struct Peeked {
    /// Its round.
    pub round: Round,
    /// The number of its bytes.
    pub length: usize,
}

/// A message of which the round and the length may be known without decoding it.
pub trait Peek: Tabular {
    /// The messages that may have to be decoded.
    ghost is_decoded: { Self → Type 0 };

    /// The round and the length of the message that begins some bytes, if it is read under a bound. After `None` a message that
    /// begins them is one that may have to be decoded. Nothing is allocated. A type whose messages are always decoded returns
    /// `None`.
    fn peek(bytes: &[u8], bound: u32) -> Option<Peeked>
        ensures peeked { IfSome result (λ peeked.
            IsPeeked (Self.fits bound) Self.encoding Self.round_of bytes.now peeked) }
        ensures none { result ≡ None → IfOk (Self.reading bound bytes.now) (λ x. is_decoded x.0) };
}

/// The round and the length of the message that begins some bytes, decoded only if [`peek`](Peek::peek) returns `None`; `None`
/// if no message begins them. `AllocError` is returned only after an allocation failed.
pub(crate) fn peek_or_read<M: Peek + Drop>(
    alloc: Global,
    bound: u32,
    bytes: &[u8],
) -> Result<Option<Peeked>, AllocError>
    ensures { IfOk result (λ found.
        MatchOption found (IsStuck (format_under ⟦<M as Read>⟧ bound) bytes.now) (λ peeked.
        IsPeeked (⟦<M as Read>⟧.fits bound) M.encoding M.round_of bytes.now peeked)) }
{
    if let Some(peeked) = M::peek(bytes, bound) {
        return Ok(Some(peeked));
    }
    let mut rest: &[u8] = bytes;
    match M::read_cfg(alloc, &mut rest, &bound) {
        Ok(message) => Ok(Some(Peeked {
            round: message.round(),
            length: bytes.len() - rest.len(),
        })),
        Err(Error::OutOfMemory) => Err(AllocError),
        Err(_) => Ok(None),
    }
}
