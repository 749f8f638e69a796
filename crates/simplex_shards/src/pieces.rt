//! A stream that comes in pieces: the rows or the parts of the messages that each piece completes.

ghost use Rattle.std.specs.Prelude.{◌≡◌, ◌+◌, ◌<◌, ◌^◌, ℕ, IfOk, length, [], replicate};
ghost use Rattle.simplex_base.specs.Format.{format_under};
ghost use Rattle.simplex_base.specs.Positions.{Round};
ghost use Rattle.simplex_stream.specs.Decoder.{decoding_over};
ghost use Rattle.simplex_shards.specs.Cut.{class_under, classes_of};
ghost use Rattle.simplex_shards.specs.Pieces.{EndsCutting, HasSplit, IndexesMore, JoinsParts, SplitsMore, StartsCutting, bound_of, decoder_of, fed_by, read_by};
ghost use Rattle.simplex_shards.specs.Split.{items_in};

use crate::cut::Cut;
use crate::index::{Row, Tabular, Tabulator};
use crate::split::{Scatter, empty_parts};
use simplex_base::codec::{Read, Write};
use simplex_base::positions::Roundable;
use simplex_stream::decoder::Decoder;
use simplex_stream::fault::{Fault, fault_at};
use simplex_stream::messages::{Message, Show, stop_of};
use std::alloc::{AllocError, Global};

/// Reads a stream that comes in pieces, and returns the messages that each piece completes, as rows or as parts. It holds the
/// bytes after the last whole message, and not the stream. Nothing is verified.
#[derive(Drop)]
pub struct Cutter {
    pub(crate) bound: u32,
    pub(crate) decoder: Decoder,
}

impl Cutter {
    /// A cutter that was fed nothing. It reads certificates under `bound`, which has to be the number of participants of the
    /// greatest committee of the whole audit.
    pub fn new<M: Message>(alloc: Global, bound: u32) -> Self
        ensures fed { fed_by result ≡ 0 }
        ensures stands { StartsCutting (format_under ⟦<M as Read>⟧ bound) bound result }
        // Its parts are empty.
        ensures parts { (round : M → Round) (class : Round → ℕ) (classes : ℕ) →
            HasSplit (format_under ⟦<M as Read>⟧ bound) round class classes [] result (replicate classes []) }
    {
        Cutter {
            bound,
            decoder: Decoder::new::<M>(alloc),
        }
    }

    /// Appends a piece to the stream, and returns the rows of the messages that it completes. The pieces have fewer than 2^64
    /// bytes together. `AllocError` is returned only after an allocation failed; the cutter then stands for no stream.
    pub fn rows<M: Tabular + Show>(&mut self, piece: &[u8]) -> Result<Vec<Row>, AllocError>
        requires { fed_by self.old + length piece.now < 2 ^ 64 }
        ensures fed { IfOk result (λ _. fed_by self.new ≡ fed_by self.old + length piece.now) }
        ensures rows { IfOk result (λ rows.
            IndexesMore (format_under ⟦<M as Read>⟧ (bound_of self.old)) M.round_of M.row_of
            piece.now self.old self.new rows.items) }
    {
        let mut tabulator = Tabulator {
            rows: Vec::new(self.decoder.allocator()),
            place: self.decoder.place(),
        };
        self.decoder
            .feed::<M, Tabulator>(&(), self.bound, piece, &mut tabulator)?;
        Ok(tabulator.rows)
    }

    /// Appends a piece to the stream, and returns for each class the messages that the piece completes, joined in the order of
    /// the stream: place i has those of class i. Joined class by class, the parts of all pieces are those that
    /// [`split`](crate::split::split) returns of the stream. The pieces have fewer than 2^64 bytes together. `AllocError` is
    /// returned only after an allocation failed; the cutter then stands for no stream.
    pub fn parts<M: Show + Roundable + Write>(
        &mut self,
        cut: &Cut,
        piece: &[u8],
    ) -> Result<Vec<Vec<u8>>, AllocError>
        requires { fed_by self.old + length piece.now < 2 ^ 64 }
        ensures fed { IfOk result (λ _. fed_by self.new ≡ fed_by self.old + length piece.now) }
        ensures parts { IfOk result (λ parts.
            SplitsMore (format_under ⟦<M as Read>⟧ (bound_of self.old)) M.round_of (class_under cut.now)
            (classes_of cut.now) piece.now self.old self.new (items_in parts)) }
        ensures joined { IfOk result (λ parts.
            JoinsParts (format_under ⟦<M as Read>⟧ (bound_of self.old)) M.round_of (class_under cut.now)
            (classes_of cut.now) piece.now self.old self.new (items_in parts)) }
    {
        let mut scatter = Scatter {
            parts: empty_parts(self.decoder.allocator(), cut.classes())?,
        };
        self.decoder
            .feed::<M, Scatter>(cut, self.bound, piece, &mut scatter)?;
        Ok(scatter.parts)
    }

    /// Where the stream so far stops being messages, if it does; a last message that is incomplete is a fault too.
    /// `AllocError` is returned only after an allocation failed.
    pub fn fault<M: Show>(&self) -> Result<Option<Fault>, AllocError>
        ensures { IfOk result (λ fault.
            EndsCutting (format_under ⟦<M as Read>⟧ (bound_of self.now)) self.now fault) }
    {
        let alloc = self.decoder.allocator();
        let stop = stop_of::<M>(alloc, self.bound, self.decoder.rest())?;
        Ok(fault_at(self.decoder.place(), stop))
    }

    /// Whether nothing that follows can be read, so that nothing more needs to be fed.
    pub fn is_over(&self) -> bool
        ensures { result ≡ decoding_over (decoder_of self.now) }
    {
        self.decoder.is_over()
    }

    /// How many bytes it was fed.
    pub fn fed(&self) -> usize
        ensures { result ≡ fed_by self.now }
    {
        self.decoder.fed()
    }

    /// How many messages it has read, of all classes.
    pub fn read(&self) -> usize
        ensures { result ≡ read_by self.now }
    {
        self.decoder.read()
    }
}
