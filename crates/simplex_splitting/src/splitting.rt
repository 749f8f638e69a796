//! Cuts all that a reader gives into parts.

ghost use Rattle.std.specs.Prelude.{◌≡◌, ◌↔◌, ◌⊎◌, ◌+◌, ◌<◌, ◌≤◌, ◌^◌, ◌++◌, ℕ, List, false, Err, IsTrue, IfOk, IfErr, IfSome, OnErr, OnOk, length};
ghost use Rattle.std.specs.Io.KnownBytes.{Consumes, IsAtEnd};
ghost use Rattle.simplex_base.specs.Format.{format_under};
ghost use Rattle.simplex_base.specs.Positions.{Round};
ghost use Rattle.simplex_shards.specs.Cut.{class_under};
ghost use Rattle.simplex_shards.specs.Pieces.{fed_by};
ghost use Rattle.simplex_splitting.specs.Parts.{Contents};
ghost use Rattle.simplex_splitting.specs.Splitting.{BeginsCut, IsCutInto, IsCutSoFar};
ghost use Rattle.simplex_stream.specs.Watched.{inner_of, has_failed};

use crate::parts::{Parts, append_each};
use simplex_base::codec::{Read as Readable, Write};
use simplex_base::positions::Roundable;
use simplex_shards::cut::Cut;
use simplex_shards::pieces::Cutter;
use simplex_stream::fault::Fault;
use simplex_stream::messages::Show;
use simplex_stream::pieces::{fill, make_piece};
use simplex_stream::run_error::RunError;
use simplex_stream::watched::Watched;
use std::alloc::{AllocError, Global};
use std::io::Read;

/// What was read of an input.
#[derive(Clone, Copy)]
pub struct Totals {
    /// The number of messages read, of all classes.
    pub read: usize,
    /// Where the input stops being messages, if it does.
    pub fault: Option<Fault>,
}

/// Appends the messages that a piece completes to the parts of their classes. If nothing can be read behind the input so far,
/// the piece is dropped.
fn take_piece<M: Show + Roundable + Write, P: Parts>(
    cutter: &mut Cutter,
    cut: &Cut,
    piece: &[u8],
    parts: &mut P,
) -> Result<(), RunError>
    requires fits { fed_by cutter.old + length piece.now < 2 ^ 64 }
    requires well { P.has_failed parts.old ≡ false }
    ensures fed { OnOk result (fed_by cutter.new ≤ fed_by cutter.old + length piece.now) }
    ensures parts { OnOk result ((bound : ℕ) (input : List ℕ) (start : Contents) →
        IsCutSoFar (format_under ⟦<M as Readable>⟧ bound) M.round_of (class_under cut.now) bound
        cutter.old input start (P.contents parts.old) →
        IsCutSoFar (format_under ⟦<M as Readable>⟧ bound) M.round_of (class_under cut.now) bound
        cutter.new (input ++ piece.now) start (P.contents parts.new)) }
    ensures begun { OnErr result ((bound : ℕ) (input more : List ℕ) (start : Contents) →
        IsCutSoFar (format_under ⟦<M as Readable>⟧ bound) M.round_of (class_under cut.now) bound
        cutter.old input start (P.contents parts.old) →
        BeginsCut (format_under ⟦<M as Readable>⟧ bound) M.round_of (class_under cut.now)
        ((input ++ piece.now) ++ more) start (P.contents parts.new)) }
    ensures failed { IsTrue (P.has_failed parts.new) ↔ (result ≡ Err RunError.Write) }
    ensures error { IfErr result (λ e. (e ≡ RunError.Write) ⊎ (e ≡ RunError.OutOfMemory)) }
{
    if cutter.is_over() {
        return Ok(());
    }
    let more = cutter.parts::<M>(cut, piece)?;
    append_each(parts, more.as_slice())
}

/// How many messages were read, and where the input stops being messages.
fn sum_up<M: Show + Roundable>(cutter: &Cutter) -> Result<Totals, AllocError>
    ensures { IfOk result (λ totals. (class : Round → ℕ) (bound : ℕ) (input : List ℕ)
        (start now : Contents) →
        IsCutSoFar (format_under ⟦<M as Readable>⟧ bound) M.round_of class bound cutter.now input
        start now →
        IsCutInto (format_under ⟦<M as Readable>⟧ bound) M.round_of class input totals start now) }
{
    Ok(Totals {
        read: cutter.read(),
        fault: cutter.fault::<M>()?,
    })
}

/// Cuts all that a reader gives: to the part of each class its messages are appended, in the order of the input and as they
/// stand there. Certificates are read under `bound`, which has to be the number of participants of the greatest committee of
/// the whole audit. The input is read in pieces of up to 65,536 bytes, and the messages that a piece completes are appended
/// before the next one is read. Held are their bytes and those after the last whole message. If these are refused whatever
/// follows, the rest is read and dropped. Nothing is verified.
///
/// `Read` exactly if a read failed, `Write` exactly if a part cannot be written; an interrupted read counts as failed.
/// `OutOfMemory` only after an allocation failed, and `TooLong` if the reader gave more than 2^64 - 1 bytes. After each of them
/// each part got a prefix of its messages' bytes, perhaps nothing or all.
pub fn split_input<M: Show + Roundable + Write, R: Read, P: Parts>(
    alloc: Global,
    bound: u32,
    cut: &Cut,
    reader: &mut Watched<R>,
    parts: &mut P,
) -> Result<Totals, RunError>
    requires reader_well { has_failed reader.old ≡ false }
    requires parts_well { P.has_failed parts.old ≡ false }
    // The whole input was read, and each part got exactly its messages.
    ensures parts { IfOk result (λ totals. (input : List ℕ)
        × Consumes (R.remaining (inner_of reader.old)) (R.remaining (inner_of reader.new)) input
        × IsCutInto (format_under ⟦<M as Readable>⟧ bound) M.round_of (class_under cut.now) input totals
        (P.contents parts.old) (P.contents parts.new)) }
    ensures end { OnOk result (IsAtEnd (R.remaining (inner_of reader.new))) }
    // After an error each part got a prefix of its messages' bytes.
    ensures begun { IfErr result (λ e. IfSome (R.remaining (inner_of reader.old)) (λ input.
        BeginsCut (format_under ⟦<M as Readable>⟧ bound) M.round_of (class_under cut.now) input
        (P.contents parts.old) (P.contents parts.new))) }
    // Read and write errors come from the reader and the parts alone.
    ensures read_failed { IsTrue (has_failed reader.new) ↔ (result ≡ Err RunError.Read) }
    ensures write_failed { IsTrue (P.has_failed parts.new) ↔ (result ≡ Err RunError.Write) }
    ensures too_long { result ≡ Err RunError.TooLong → (input : List ℕ) × (2 ^ 64 ≤ length input)
        × Consumes (R.remaining (inner_of reader.old)) (R.remaining (inner_of reader.new)) input }
{
    let mut cutter = Cutter::new::<M>(alloc, bound);
    let mut piece = make_piece(alloc)?;
    let mut seen = 0;
    'pieces: loop {
        let count = fill(reader, piece.as_mut_slice())?;
        if count > usize::MAX - seen {
            return Err(RunError::TooLong);
        }
        seen += count;
        take_piece::<M, P>(&mut cutter, cut, &piece[..count], parts)?;
        if count < piece.len() {
            return Ok(sum_up::<M>(&cutter)?);
        }
    }
}
