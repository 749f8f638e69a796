//! Compacts all that a reader gives, and writes what is kept.

ghost use Rattle.std.specs.Prelude.{◌≡◌, ◌≢◌, ◌↔◌, ◌+◌, ◌<◌, ◌≤◌, ◌^◌, ◌++◌, [], ℕ, List, Option, false, Err, IsTrue, IfOk, IfErr, IfSome, OnOk, length};
ghost use Rattle.std.specs.Io.KnownBytes.{Consumes, IsAtEnd};
ghost use Rattle.simplex_base.specs.Positions as positions;
ghost use Rattle.simplex_scheme.specs.Committees.{Schedule};
ghost use Rattle.simplex_rules.specs.Independence.{first_round};
ghost use Rattle.simplex_audit.specs.Basis.{basis_from};
ghost use Rattle.simplex_audit.specs.CompactedInput.{BeginsCompaction, HasCompacted, WritesCompaction, fed_of, unwritten};
ghost use Rattle.simplex_stream.specs.Watched.{inner_of, has_failed, is_flushed};

use crate::basis::Audited;
use crate::compaction::{Compactor, compacting_bound};
use simplex_base::codec::Encoding;
use simplex_base::positions::Round;
use simplex_evidence::types::Activity;
use simplex_laws::laws::floors_rise;
use simplex_scheme::committees::Committees;
use simplex_scheme::scheme::{Digest, Listing, SchemeTypes};
use simplex_stream::decoder::Decoder;
use simplex_stream::fault::{Fault, fault_at};
use simplex_stream::messages::stop_of;
use simplex_stream::pieces::{fill, make_piece};
use simplex_stream::run_error::RunError;
use simplex_stream::text::write_text;
use simplex_stream::watched::Watched;
use std::alloc::{AllocError, Global};
use std::io::{Read, Write};

/// What [`compact_input`] read.
#[derive(Clone, Copy, Debug, PartialEq, Eq)]
pub struct Compacted {
    /// The number of messages read.
    pub read: usize,
    /// Where the input stops being messages, if it does.
    pub fault: Option<Fault>,
}

/// Compacts an input that comes in pieces.
#[derive(Drop)]
struct InputCompactor<S: SchemeTypes, D: Digest> {
    decoder: Decoder,
    compactor: Compactor<S, D>,
}

impl<S: Listing<D>, D: Digest> InputCompactor<S, D> {
    /// Nothing came yet, and nothing is judged below a floor.
    fn new(alloc: Global, committees: &Committees<S>, floor: Round) -> Self
        ensures fed { fed_of result ≡ 0 }
        ensures kept { unwritten result ≡ [] }
        ensures compacted { (start : Option (List ℕ)) →
            HasCompacted ⟦<Activity<S, D> as Encoding>⟧.is_value floor
            (⟦<S as Audited<D>>⟧.basis committees.now) result [] start start }
    {
        floors_rise::<S, D>();
        compacting_bound::<S, D>(committees);
        InputCompactor {
            decoder: Decoder::new::<Activity<S, D>>(alloc),
            compactor: Compactor::new(alloc, floor),
        }
    }

    /// Compacts the messages that a piece completes. If nothing can be read behind the input so far, the piece is dropped.
    fn feed(&mut self, committees: &Committees<S>, piece: &[u8]) -> Result<(), AllocError>
        requires { fed_of self.old + length piece.now < 2 ^ 64 }
        ensures fed { OnOk result (fed_of self.new ≤ fed_of self.old + length piece.now) }
        ensures compacted { OnOk result ((floor : positions.Round) (input : List ℕ) (start now : Option (List ℕ)) →
            HasCompacted ⟦<Activity<S, D> as Encoding>⟧.is_value floor
            (⟦<S as Audited<D>>⟧.basis committees.now) self.old input start now →
            HasCompacted ⟦<Activity<S, D> as Encoding>⟧.is_value floor
            (⟦<S as Audited<D>>⟧.basis committees.now) self.new (input ++ piece.now) start now) }
    {
        floors_rise::<S, D>();
        let InputCompactor { decoder, compactor } = self;
        if decoder.is_over() {
            return Ok(());
        }
        let bound = compacting_bound::<S, D>(committees);
        decoder.feed::<Activity<S, D>, Compactor<S, D>>(committees, bound, piece, compactor)
    }

    /// Writes what was kept and not written yet, and flushes.
    fn write<W: Write>(&mut self, writer: &mut Watched<W>) -> Result<(), RunError>
        requires { has_failed writer.old ≡ false }
        ensures fed { fed_of self.new ≡ fed_of self.old }
        ensures written { OnOk result ((floor : positions.Round) (committees : Schedule S) (input : List ℕ)
            (start : Option (List ℕ)) →
            HasCompacted ⟦<Activity<S, D> as Encoding>⟧.is_value floor
            (⟦<S as Audited<D>>⟧.basis committees) self.old input start (W.contents (inner_of writer.old)) →
            HasCompacted ⟦<Activity<S, D> as Encoding>⟧.is_value floor
            (⟦<S as Audited<D>>⟧.basis committees) self.new input start (W.contents (inner_of writer.new))) }
        ensures kept { OnOk result (unwritten self.new ≡ []) }
        ensures flushed { OnOk result (IsTrue (is_flushed writer.new)) }
        ensures begun { IfErr result (λ e. (floor : positions.Round) (committees : Schedule S) (input more : List ℕ)
            (start : Option (List ℕ)) →
            HasCompacted ⟦<Activity<S, D> as Encoding>⟧.is_value floor
            (⟦<S as Audited<D>>⟧.basis committees) self.old input start (W.contents (inner_of writer.old)) →
            BeginsCompaction (basis_from floor (⟦<S as Audited<D>>⟧.basis committees)) (input ++ more) start
            (W.contents (inner_of writer.new))) }
        ensures failed { IsTrue (has_failed writer.new) ↔ (result ≡ Err RunError.Write) }
        ensures error { IfErr result (λ e. e ≡ RunError.Write) }
    {
        write_text(writer, self.compactor.kept.as_slice())?;
        self.compactor.kept.clear();
        Ok(())
    }

    /// How many messages were read, and where the input stops being messages.
    fn end(&self, alloc: Global, committees: &Committees<S>) -> Result<Compacted, AllocError>
        ensures { IfOk result (λ said. (floor : positions.Round) (input : List ℕ) (start now : Option (List ℕ)) →
            unwritten self.now ≡ [] → HasCompacted ⟦<Activity<S, D> as Encoding>⟧.is_value floor
            (⟦<S as Audited<D>>⟧.basis committees.now) self.now input start now →
            WritesCompaction (basis_from floor (⟦<S as Audited<D>>⟧.basis committees.now)) input said start now) }
    {
        let bound = compacting_bound::<S, D>(committees);
        let stop = stop_of::<Activity<S, D>>(alloc, bound, self.decoder.rest())?;
        Ok(Compacted {
            read: self.decoder.read(),
            fault: fault_at(self.decoder.place(), stop),
        })
    }
}

/// Compacts all that a reader gives, as `compact` of the module `compaction` does, and writes what is kept. The input is read
/// in pieces of up to 65,536 bytes. What is kept of a piece is written and flushed before the next one is read. Held are the
/// state of the messages so far and the bytes after the last whole message. If these are refused whatever follows, the rest is
/// dropped.
///
/// `Read` exactly where a read failed, `Write` exactly where a write or a flush failed; an interrupted call counts as failed.
/// `OutOfMemory` where an allocation failed, and `TooLong` where the reader gave more than 2^64 - 1 bytes. After each of them
/// a front of the compaction of the input was written, perhaps nothing or the whole.
pub fn compact_input<S: Listing<D>, D: Digest, R: Read, W: Write>(
    alloc: Global,
    committees: &Committees<S>,
    floor: Round,
    reader: &mut Watched<R>,
    writer: &mut Watched<W>,
) -> Result<Compacted, RunError>
    requires reader_well { has_failed reader.old ≡ false }
    requires writer_well { has_failed writer.old ≡ false }
    // The whole input was read, and exactly its compaction was written, of which nothing below the floor is valid.
    ensures part { IfOk result (λ said. (input : List ℕ)
        × Consumes (R.remaining (inner_of reader.old)) (R.remaining (inner_of reader.new)) input
        × WritesCompaction (basis_from floor (⟦<S as Audited<D>>⟧.basis committees.now)) input said
        (W.contents (inner_of writer.old)) (W.contents (inner_of writer.new))) }
    // From the first round on nothing is left out for its round.
    ensures whole { floor ≡ first_round → IfOk result (λ said. (input : List ℕ)
        × Consumes (R.remaining (inner_of reader.old)) (R.remaining (inner_of reader.new)) input
        × WritesCompaction (⟦<S as Audited<D>>⟧.basis committees.now) input said
        (W.contents (inner_of writer.old)) (W.contents (inner_of writer.new))) }
    ensures end { OnOk result (IsAtEnd (R.remaining (inner_of reader.new))) }
    ensures flushed { OnOk result (IsTrue (is_flushed writer.new)) }
    // After an error a front of the compaction of the input was written.
    ensures begun { IfErr result (λ e. IfSome (R.remaining (inner_of reader.old)) (λ input.
        BeginsCompaction (basis_from floor (⟦<S as Audited<D>>⟧.basis committees.now)) input
        (W.contents (inner_of writer.old)) (W.contents (inner_of writer.new)))) }
    // Read and write errors come from the reader and the writer alone.
    ensures read_failed { IsTrue (has_failed reader.new) ↔ (result ≡ Err RunError.Read) }
    ensures write_failed { IsTrue (has_failed writer.new) ↔ (result ≡ Err RunError.Write) }
    ensures too_long { result ≡ Err RunError.TooLong → (input : List ℕ) × (2 ^ 64 ≤ length input)
        × Consumes (R.remaining (inner_of reader.old)) (R.remaining (inner_of reader.new)) input }
{
    floors_rise::<S, D>();
    let mut state = InputCompactor::<S, D>::new(alloc, committees, floor);
    let mut piece = make_piece(alloc)?;
    let mut seen = 0;
    'pieces: loop {
        let count = fill(reader, piece.as_mut_slice())?;
        if count > usize::MAX - seen {
            return Err(RunError::TooLong);
        }
        seen += count;
        state.feed(committees, &piece[..count])?;
        state.write(writer)?;
        if count < piece.len() {
            return Ok(state.end(alloc, committees)?);
        }
    }
}
