//! Decodes a stream that comes in pieces.

ghost use Rattle.std.specs.Prelude.{◌≡◌, ◌⊎◌, ◌+◌, ◌++◌, ◌<◌, ◌≤◌, ◌^◌, ℕ, List, [], IsTrue, OnOk, length};
ghost use Rattle.simplex_base.specs.Format.{format_under};
ghost use Rattle.simplex_stream.specs.Progress.{FollowsOn, LeavesRoom};
ghost use Rattle.simplex_stream.specs.Tail.{bytes_held, due_of};

use crate::messages::{Message, Show, Visitor, is_over, read_on};
use crate::tail::Tail;
use simplex_base::codec::Read;
use std::alloc::{AllocError, Global};

/// How many bytes of a piece are appended to a tail beyond those that its message is known to lack.
const AHEAD: usize = 1024;

/// Decodes a stream that comes in pieces. It holds the bytes after the last whole message, and not the stream.
#[derive(Drop)]
pub struct Decoder {
    /// The bytes after the last whole message.
    tail: Tail,
    /// The number of the stream's bytes.
    fed: usize,
    /// The number of the stream's messages.
    read: usize,
    /// Whether the tail was refused, and for good.
    over: bool,
    ghost room: { read + length (bytes_held tail) ≤ fed },
}

impl Decoder {
    ghost use Rattle.simplex_stream.specs.Decoder.{HasDecoded, DecodesMore, bytes_fed, decoding_over, messages_read, tail_of, undecoded};

    /// A decoder of a stream of such messages, of which no byte has come.
    pub fn new<M: Message>(alloc: Global) -> Decoder
        ensures fed { bytes_fed result ≡ 0 }
        ensures decoded { (bound : ℕ) → HasDecoded (format_under ⟦<M as Read>⟧ bound) [] [] result }
    {
        Decoder {
            tail: Tail::new(alloc),
            fed: 0,
            read: 0,
            over: false,
        }
    }

    /// Appends a piece to the stream, reads the messages that it completes under the bound, and shows each to the visitor.
    /// `AllocError` only where an allocation failed; the visitor may then have taken some of these messages, and the decoder
    /// stands for no stream.
    ///
    /// The message that an undecoded tail begins is read there: the bytes that it is known to lack are appended, and some more.
    /// The whole piece is appended only if the message does not end within these. All that is left is read in place. No byte of
    /// the tail is read again before there are as many as `least_size` finds of the message there.
    pub fn feed<M: Show, V: Visitor<M>>(
        &mut self,
        context: &V::Context,
        bound: u32,
        piece: &[u8],
        visitor: &mut V,
    ) -> Result<(), AllocError>
        requires fits { bytes_fed self.old + length piece.now < 2 ^ 64 }
        requires room { V.has_room visitor.old (length (undecoded self.old) + length piece.now) }
        ensures fed { OnOk result (bytes_fed self.new ≡ bytes_fed self.old + length piece.now) }
        ensures decoded { OnOk result (DecodesMore (format_under ⟦<M as Read>⟧ bound)
            (λ more. V.follows context.now more visitor.old visitor.new) piece.now self.old self.new) }
    {
        let head = self.head(piece.len());
        self.append::<M, V>(context, bound, &piece[..head], visitor)?;
        let left = self.tail.bytes().len();
        if head == piece.len() || left > head {
            return self.append::<M, V>(context, bound, &piece[head..], visitor);
        }
        self.read_in_place::<M, V>(context, bound, &piece[head - left..], visitor)
    }

    /// How many bytes of a piece of this many are appended to the tail at first: none if no tail is left.
    fn head(&self, most: usize) -> usize
        ensures { result ≤ most }
    {
        if self.tail.bytes().is_empty() {
            return 0;
        }
        self.tail.missing().saturating_add(AHEAD).min(most)
    }

    /// Reads messages where they stand, in bytes that begin with those of the tail. What follows the tail is fed.
    fn read_in_place<M: Show, V: Visitor<M>>(
        &mut self,
        context: &V::Context,
        bound: u32,
        bytes: &[u8],
        visitor: &mut V,
    ) -> Result<(), AllocError>
        requires holds { length (undecoded self.old) ≤ length bytes.now }
        requires fits { bytes_fed self.old + length bytes.now < 2 ^ 64 + length (undecoded self.old) }
        requires room { V.has_room visitor.old (length bytes.now) }
        ensures fed { OnOk result
            (bytes_fed self.new + length (undecoded self.old) ≡ bytes_fed self.old + length bytes.now) }
        ensures decoded { OnOk result ((piece : List ℕ) → bytes.now ≡ undecoded self.old ++ piece →
            DecodesMore (format_under ⟦<M as Read>⟧ bound)
            (λ more. FollowsOn (V.follows context.now) more visitor.old visitor.new) piece self.old self.new) }
    {
        let alloc = self.tail.allocator();
        let progress = read_on::<M, V>(alloc, context, bound, bytes, visitor)?;
        let fed = bytes.len() - self.tail.bytes().len();
        self.tail.clear();
        self.tail.push(progress.rest)?;
        self.tail.advance::<M>(0, &bound);
        self.over = is_over::<M>(&progress.stop);
        self.read += progress.read;
        self.fed += fed;
        Ok(())
    }

    /// Appends a piece to the tail, and reads messages there if any can be read.
    fn append<M: Show, V: Visitor<M>>(
        &mut self,
        context: &V::Context,
        bound: u32,
        piece: &[u8],
        visitor: &mut V,
    ) -> Result<(), AllocError>
        requires fits { bytes_fed self.old + length piece.now < 2 ^ 64 }
        requires room { V.has_room visitor.old (length (undecoded self.old) + length piece.now) }
        ensures fed { OnOk result (bytes_fed self.new ≡ bytes_fed self.old + length piece.now) }
        ensures room { OnOk result (LeavesRoom V.has_room (length (undecoded self.old) + length piece.now)
            (length (undecoded self.new)) visitor.old visitor.new) }
        ensures decoded { OnOk result (DecodesMore (format_under ⟦<M as Read>⟧ bound)
            (λ more. FollowsOn (V.follows context.now) more visitor.old visitor.new) piece.now self.old self.new) }
    {
        let alloc = self.tail.allocator();
        let waits = self.waits(piece.len());
        self.tail.push(piece)?;
        self.fed += piece.len();
        if waits {
            return Ok(());
        }
        let bytes = self.tail.bytes();
        let progress = read_on::<M, V>(alloc, context, bound, bytes, visitor)?;
        let (more, count) = (progress.read, bytes.len() - progress.rest.len());
        self.over = is_over::<M>(&progress.stop);
        self.tail.advance::<M>(count, &bound);
        self.read += more;
        Ok(())
    }

    /// Whether no message can be read at the start of the tail after a piece of this many bytes, whichever it is.
    fn waits(&self, more: usize) -> bool
        requires { length (undecoded self.now) + more < 2 ^ 64 }
        ensures { IsTrue result → IsTrue (decoding_over self.now) ⊎ ((more ≡ 0) ⊎
            (length (undecoded self.now) + more < due_of (tail_of self.now))) }
    {
        self.over || more == 0 || !self.tail.is_due(more)
    }

    /// Whether decoding is over: reading the bytes after the last whole message is refused, and stays so whatever follows. So
    /// they are the undecoded tail of each longer stream too, with what follows, and nothing more needs to be fed.
    pub fn is_over(&self) -> bool
        ensures { result ≡ decoding_over self.now }
    {
        self.over
    }

    /// How many bytes it was fed.
    pub fn fed(&self) -> usize
        ensures { result ≡ bytes_fed self.now }
    {
        self.fed
    }

    /// How many messages it has decoded.
    pub fn read(&self) -> usize
        ensures { result ≡ messages_read self.now }
    {
        self.read
    }

    /// The bytes after the last whole message.
    pub fn rest(&self) -> &[u8]
        ensures { result.now ≡ undecoded self.now }
    {
        self.tail.bytes()
    }

    /// The 0-based offset of the first of these bytes in the stream.
    pub fn place(&self) -> usize
        ensures { result + length (undecoded self.now) ≡ bytes_fed self.now }
    {
        self.fed - self.tail.bytes().len()
    }

    /// The allocator of these bytes.
    pub fn allocator(&self) -> Global {
        self.tail.allocator()
    }
}
