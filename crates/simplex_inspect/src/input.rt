//! Writes the lines of all that a reader gives.

ghost use Rattle.std.specs.Prelude.{◌≡◌, ◌≢◌, ◌⊎◌, ◌↔◌, ◌+◌, ◌<◌, ◌≤◌, ◌^◌, ◌++◌, [], ℕ, List, Option, false, Ok, Err, IsTrue, IfOk, IfErr, OnOk, OnErr, take, length};
ghost use Rattle.std.specs.Io.KnownBytes.{Consumes, IsAtEnd, Keeps};
ghost use Rattle.simplex_stream.specs.Watched.{inner_of, has_failed, is_flushed};
ghost use Rattle.simplex_stream.specs.Tail.{bytes_held};
ghost use Rattle.simplex_inspect.specs.Inspected.{AppendsText, AppendsBegun, AppendsPart, IsInput};
ghost use Rattle.simplex_inspect.specs.Left.{IsLeft, bytes_seen};

use crate::basis::Inspected;
use crate::inspect::finish;
use crate::left::Left;
use crate::reading::{ReadLines, read_lines, reading_bound};
use simplex_evidence::types::Activity;
use simplex_scheme::committees::Committees;
use simplex_scheme::scheme::{Digest, Listing};
use simplex_stream::fault::Fault;
use simplex_stream::messages::is_over;
use simplex_stream::pieces::{make_piece, read_some};
use simplex_stream::run_error::RunError;
use simplex_stream::tail::Tail;
use simplex_stream::text::write_text;
use simplex_stream::watched::Watched;
use std::alloc::{AllocError, Global};
use std::io::{Read, Write};

/// What is held before the first byte of a stream.
fn nothing(alloc: Global) -> Left
    ensures offset { result.offset ≡ 0 }
    ensures held { bytes_held result.tail ≡ [] }
    ensures over { result.over ≡ false }
{
    Left {
        offset: 0,
        tail: Tail::new(alloc),
        over: false,
    }
}

/// Appends a piece to what is left. `TooLong` where the stream then has more than 2^64 - 1 bytes.
fn hold(left: Left, piece: &[u8]) -> Result<Left, RunError>
    ensures offset { IfOk result (λ next. next.offset ≡ left.offset) }
    ensures held { IfOk result (λ next.
        bytes_held next.tail ≡ bytes_held left.tail ++ piece.now) }
    ensures over { IfOk result (λ next. next.over ≡ left.over) }
    ensures too_long { result ≡ Err RunError.TooLong →
        2 ^ 64 ≤ bytes_seen left + length piece.now }
    ensures error { IfErr result (λ e. (e ≡ RunError.OutOfMemory) ⊎ (e ≡ RunError.TooLong)) }
{
    let Left {
        offset,
        mut tail,
        over,
    } = left;
    if piece.len() > usize::MAX - (offset + tail.bytes().len()) {
        return Err(RunError::TooLong);
    }
    tail.push(piece)?;
    Ok(Left { offset, tail, over })
}

/// Writes the lines of the messages at the start of what is left, flushes, and drops the bytes of these messages.
fn advance<S: Listing<D>, D: Digest, W: Write>(
    alloc: Global,
    committees: &Option<Committees<S>>,
    left: Left,
    writer: &mut Watched<W>,
) -> Result<Left, RunError>
    requires { has_failed writer.old ≡ false }
    ensures written { IfOk result (λ next. (input : List ℕ) (start : Option (List ℕ)) →
        IsLeft (⟦<S as Inspected<D>>⟧.lines committees.now) left input
        start (W.contents (inner_of writer.old)) →
        IsLeft (⟦<S as Inspected<D>>⟧.lines committees.now) next input
        start (W.contents (inner_of writer.new))) }
    ensures seen { IfOk result (λ next. bytes_seen next ≡ bytes_seen left) }
    ensures flushed { OnOk result (IsTrue (is_flushed writer.new)) }
    ensures begun { IfErr result (λ e. (input : List ℕ) (start : Option (List ℕ)) →
        IsLeft (⟦<S as Inspected<D>>⟧.lines committees.now) left input
        start (W.contents (inner_of writer.old)) →
        AppendsBegun (⟦<S as Inspected<D>>⟧.lines committees.now) input
        start (W.contents (inner_of writer.new))) }
    ensures failed { IsTrue (has_failed writer.new) ↔ (result ≡ Err RunError.Write) }
    ensures error { IfErr result (λ e. (e ≡ RunError.Write) ⊎ (e ≡ RunError.OutOfMemory)) }
{
    let Left {
        offset,
        mut tail,
        over: _,
    } = left;
    let bytes = tail.bytes();
    let reading = read_lines::<S, D>(alloc, committees, offset, bytes)?;
    let ReadLines {
        text,
        offset: next,
        rest,
        stop,
    } = reading;
    let count = bytes.len() - rest.len();
    let over = is_over::<Activity<S, D>>(&stop);
    write_text(writer, text.as_bytes())?;
    tail.advance::<Activity<S, D>>(count, &reading_bound(committees));
    Ok(Left {
        offset: next,
        tail,
        over,
    })
}

/// Appends a piece to what is left, and writes the lines of the messages that it completes.
fn take_piece<S: Listing<D>, D: Digest, W: Write>(
    alloc: Global,
    committees: &Option<Committees<S>>,
    left: Left,
    piece: &[u8],
    writer: &mut Watched<W>,
) -> Result<Left, RunError>
    requires { has_failed writer.old ≡ false }
    ensures written { IfOk result (λ next. (input : List ℕ) (start : Option (List ℕ)) →
        IsLeft (⟦<S as Inspected<D>>⟧.lines committees.now) left input
        start (W.contents (inner_of writer.old)) →
        IsLeft (⟦<S as Inspected<D>>⟧.lines committees.now) next (input ++ piece.now)
        start (W.contents (inner_of writer.new))) }
    ensures seen { IfOk result (λ next.
        bytes_seen next ≡ bytes_seen left + length piece.now) }
    ensures begun { IfErr result (λ e. (input : List ℕ) (start : Option (List ℕ)) →
        IsLeft (⟦<S as Inspected<D>>⟧.lines committees.now) left input
        start (W.contents (inner_of writer.old)) →
        AppendsBegun (⟦<S as Inspected<D>>⟧.lines committees.now) (input ++ piece.now)
        start (W.contents (inner_of writer.new))) }
    ensures failed { IsTrue (has_failed writer.new) ↔ (result ≡ Err RunError.Write) }
    ensures too_long { result ≡ Err RunError.TooLong →
        2 ^ 64 ≤ bytes_seen left + length piece.now }
    ensures error { result ≢ Err RunError.Read }
{
    let left = hold(left, piece)?;
    if !left.tail.is_due(0) {
        return Ok(left);
    }
    advance::<S, D, W>(alloc, committees, left, writer)
}

/// Reads on to the end of a reader of which some bytes were seen, and drops what comes. `TooLong` if the reader gave more than
/// 2^64 - 1 bytes.
fn drop_rest<R: Read>(
    reader: &mut Watched<R>,
    piece: &mut [u8],
    seen: usize,
) -> Result<(), RunError>
    requires well { has_failed reader.old ≡ false }
    requires room { 0 < length piece.old }
    ensures bytes { (more : List ℕ) ×
        Consumes (R.remaining (inner_of reader.old)) (R.remaining (inner_of reader.new)) more }
    ensures end { OnOk result (IsAtEnd (R.remaining (inner_of reader.new))) }
    ensures failed { IsTrue (has_failed reader.new) ↔ (result ≡ Err RunError.Read) }
    ensures too_long { result ≡ Err RunError.TooLong → (more : List ℕ) × (2 ^ 64 ≤ seen + length more)
        × Consumes (R.remaining (inner_of reader.old)) (R.remaining (inner_of reader.new)) more }
    ensures error { IfErr result (λ e. (e ≡ RunError.Read) ⊎ (e ≡ RunError.TooLong)) }
{
    let mut count = seen;
    'drops: loop {
        let more = read_some(reader, piece)?;
        if more == 0 {
            return Ok(());
        }
        if more > usize::MAX - count {
            return Err(RunError::TooLong);
        }
        count += more;
    }
}

/// Writes the line of the fault at which a stream ends whatever follows, flushes, and drops what the reader still gives.
/// Returns the fault.
fn end_at_fault<S: Listing<D>, D: Digest, R: Read, W: Write>(
    alloc: Global,
    committees: &Option<Committees<S>>,
    left: Left,
    piece: &mut [u8],
    reader: &mut Watched<R>,
    writer: &mut Watched<W>,
) -> Result<Option<Fault>, RunError>
    requires reader_well { has_failed reader.old ≡ false }
    requires writer_well { has_failed writer.old ≡ false }
    requires room { 0 < length piece.old }
    requires over { IsTrue left.over }
    requires held { 16 ≤ length (bytes_held left.tail) }
    // The text of the input is that of each longer input.
    ensures whole { IfOk result (λ fault. (input more : List ℕ) (start : Option (List ℕ)) →
        IsLeft (⟦<S as Inspected<D>>⟧.lines committees.now) left input
        start (W.contents (inner_of writer.old)) →
        AppendsText (⟦<S as Inspected<D>>⟧.lines committees.now) (input ++ more) fault
        start (W.contents (inner_of writer.new))) }
    ensures begun { IfErr result (λ e. (input more : List ℕ) (start : Option (List ℕ)) →
        IsLeft (⟦<S as Inspected<D>>⟧.lines committees.now) left input
        start (W.contents (inner_of writer.old)) →
        AppendsPart (⟦<S as Inspected<D>>⟧.lines committees.now) (input ++ more)
        start (W.contents (inner_of writer.new))) }
    ensures bytes { (more : List ℕ) ×
        Consumes (R.remaining (inner_of reader.old)) (R.remaining (inner_of reader.new)) more }
    ensures end { OnOk result (IsAtEnd (R.remaining (inner_of reader.new))) }
    ensures flushed { OnOk result (IsTrue (is_flushed writer.new)) }
    ensures read_failed { IsTrue (has_failed reader.new) ↔ (result ≡ Err RunError.Read) }
    ensures write_failed { IsTrue (has_failed writer.new) ↔ (result ≡ Err RunError.Write) }
    ensures too_long { result ≡ Err RunError.TooLong → (more : List ℕ)
        × (2 ^ 64 ≤ bytes_seen left + length more)
        × Consumes (R.remaining (inner_of reader.old)) (R.remaining (inner_of reader.new)) more }
{
    let held = left.tail.bytes();
    let fault = finish::<S, D, W>(alloc, committees, left.offset, held, writer)?;
    drop_rest(reader, piece, left.offset + held.len())?;
    Ok(fault)
}

/// Writes the lines of all that a reader gives: one for each message of the stream, in order, and one for its fault, if there
/// is one. Returns the fault. The messages and the fault are those of an audit of the stream.
///
/// The input is read in pieces of up to 65,536 bytes. A message's line is written and flushed after the read that completes the
/// message, and before the next read. Held are the bytes whose lines are not written yet. They are read again once there are as
/// many as `least_size` finds of the message that begins there.
///
/// A fault is final if no bytes that follow can undo it. Its line is written and flushed as soon as the 16 bytes that it shows
/// were read, and what comes behind them is read and dropped. Any other fault is known at the end of the input.
///
/// `Read` exactly where a read failed, `Write` exactly where a write or a flush failed; an interrupted call counts as failed.
/// `OutOfMemory` where an allocation failed, and `TooLong` where the reader gave more than 2^64 - 1 bytes. After each of them
/// a prefix of the text of what was read was written, perhaps empty or the whole.
pub fn inspect_input<S: Listing<D>, D: Digest, R: Read, W: Write>(
    alloc: Global,
    committees: &Option<Committees<S>>,
    reader: &mut Watched<R>,
    writer: &mut Watched<W>,
) -> Result<Option<Fault>, RunError>
    requires reader_well { has_failed reader.old ≡ false }
    requires writer_well { has_failed writer.old ≡ false }
    // The whole input was read, and exactly its text was written.
    ensures whole { IfOk result (λ fault. (input : List ℕ)
        × IsInput (R.remaining (inner_of reader.old)) input
        × AppendsText (⟦<S as Inspected<D>>⟧.lines committees.now) input fault
        (W.contents (inner_of writer.old)) (W.contents (inner_of writer.new))) }
    ensures end { OnOk result (IsAtEnd (R.remaining (inner_of reader.new))) }
    ensures flushed { OnOk result (IsTrue (is_flushed writer.new)) }
    // After an error a prefix of the text of the input was written.
    ensures begun { IfErr result (λ e. (input : List ℕ)
        × IsInput (R.remaining (inner_of reader.old)) input
        × AppendsPart (⟦<S as Inspected<D>>⟧.lines committees.now) input
        (W.contents (inner_of writer.old)) (W.contents (inner_of writer.new))) }
    // It is also a prefix of the text of the bytes that were read.
    ensures taken { IfErr result (λ e. (input : List ℕ)
        × Consumes (R.remaining (inner_of reader.old)) (R.remaining (inner_of reader.new)) input
        × AppendsPart (⟦<S as Inspected<D>>⟧.lines committees.now) input
        (W.contents (inner_of writer.old)) (W.contents (inner_of writer.new))) }
    // Read and write errors come from the reader and the writer alone.
    ensures read_failed { IsTrue (has_failed reader.new) ↔ (result ≡ Err RunError.Read) }
    ensures write_failed { IsTrue (has_failed writer.new) ↔ (result ≡ Err RunError.Write) }
    ensures too_long { result ≡ Err RunError.TooLong → (input : List ℕ) × (2 ^ 64 ≤ length input)
        × Consumes (R.remaining (inner_of reader.old)) (R.remaining (inner_of reader.new)) input }
{
    let mut left = nothing(alloc);
    let mut piece = make_piece(alloc)?;
    'reads: loop {
        let count = read_some(reader, piece.as_mut_slice())?;
        if count == 0 {
            return finish::<S, D, W>(alloc, committees, left.offset, left.tail.bytes(), writer);
        }
        left = take_piece::<S, D, W>(alloc, committees, left, &piece[..count], writer)?;
        if left.is_settled() {
            let room = piece.as_mut_slice();
            return end_at_fault::<S, D, R, W>(alloc, committees, left, room, reader, writer);
        }
    }
}
