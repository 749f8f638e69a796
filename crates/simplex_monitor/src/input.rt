//! Listens to all that a reader gives, and writes each line at once.

ghost use Rattle.std.specs.Prelude.{◌≡◌, ◌≢◌, ◌↔◌, ◌+◌, ◌<◌, ◌≤◌, ◌^◌, ◌++◌, ◌∷◌, [], ℕ, List, false, Ok, Err, IsTrue, IfOk, IfErr, OnOk, OnErr, length, take};
ghost use Rattle.std.specs.Io.KnownBytes.{Appends, Consumes, IsAtEnd, Keeps};
ghost use Rattle.simplex_alarm.specs.Alarm.{Told};
ghost use Rattle.simplex_alarm.specs.declared.alarm.News as alarm;
ghost use Rattle.simplex_monitor.specs.Hearing.{AllTold, Heard, Hears, HearsBeginning, news_text};
ghost use Rattle.simplex_monitor.specs.Monitoring.{HoldsAsBefore, Listens, fed_of};
ghost use Rattle.simplex_monitor.specs.declared.monitor.Monitor as monitors;
ghost use Rattle.simplex_monitor.specs.declared.window.Window as windows;
ghost use Rattle.simplex_scheme.specs.Committees.{Schedule};
ghost use Rattle.simplex_stream.specs.Text.{AppendsBeginning};
ghost use Rattle.simplex_stream.specs.Watched.{inner_of, has_failed, is_flushed};

use crate::monitor::{Monitor, News};
use simplex_audit::basis::Audited;
use simplex_audit::run::{RunError, write_text};
use simplex_audit::text::text;
use simplex_scheme::scheme::{Digest, Listing};
use simplex_stream::pieces::{make_piece, read_some};
use simplex_stream::watched::Watched;
use std::alloc::Global;
use std::io::{Read, Write};

/// What is done behind each look of a monitor that listens to a reader.
pub trait Hook<S: Listing<D>, D: Digest> {
    /// Called once the lines of a look were written and flushed, with whether there were any. It may shorten what the monitor
    /// holds, and changes nothing else of it. It cannot end the listening: what fails in it, it says itself.
    fn looked(&mut self, monitor: &mut Monitor<'_, S, D>, told: bool)
        ensures listens { (start : windows.Window) (committees : Schedule S)
            (told : Told D S.Signature) (stream : List ℕ) →
            Listens ⟦<S as Audited<D>>⟧.basis start committees told stream monitor.old →
            Listens ⟦<S as Audited<D>>⟧.basis start committees told stream monitor.new }
        ensures told { AllTold monitor.old → AllTold monitor.new }
        ensures fed { fed_of monitor.new ≡ fed_of monitor.old }
        ensures holds { HoldsAsBefore monitor.old monitor.new };
}

/// Nothing is done.
impl<S: Listing<D>, D: Digest> Hook<S, D> for () {
    fn looked(&mut self, _monitor: &mut Monitor<'_, S, D>, _told: bool) {}
}

/// Has a monitor listen to all that a reader gives, and writes a line for each evidence and each split that it tells, as a run
/// of an audit does: those of a piece behind those of the pieces before it, the evidence first. What the monitor has not told
/// yet is written before the first read. The lines of what a read completes are written and flushed before the next read, and
/// before the hook is called. Returns the monitor, which has told all that arose.
///
/// The input is read in pieces of up to 65,536 bytes, as they come. Held are the state of the monitor and the bytes after the
/// last whole message. Once nothing that follows can be read, the rest is read and dropped.
///
/// `Read` exactly where a read failed, `Write` exactly where a write or a flush failed; an interrupted call counts as failed.
/// `OutOfMemory` where an allocation failed, and `TooLong` where the monitor was fed more than 2^64 - 1 bytes, those before
/// this call included. After each of them a front of the lines of what was read was written, and after `Read` all of them.
pub fn monitor_input<'a, S: Listing<D>, D: Digest, R: Read, W: Write, H: Hook<S, D>>(
    alloc: Global,
    monitor: Monitor<'a, S, D>,
    reader: &mut Watched<R>,
    writer: &mut Watched<W>,
    hook: &mut H,
) -> Result<Monitor<'a, S, D>, RunError>
    requires reader_well { has_failed reader.old ≡ false }
    requires writer_well { has_failed writer.old ≡ false }
    // The whole input was heard, and exactly the lines of what was told were written.
    ensures whole { IfOk result (λ next. (input : List ℕ)
        × Consumes (R.remaining (inner_of reader.old)) (R.remaining (inner_of reader.new)) input
        × Heard ⟦<S as Audited<D>>⟧.basis D.bytes_of monitor.entry input next
        (W.contents (inner_of writer.old)) (W.contents (inner_of writer.new))) }
    ensures end { OnOk result (IsAtEnd (R.remaining (inner_of reader.new))) }
    // Whatever a failed read leaves behind, the lines of all that was read before it were written.
    ensures at_once { result ≡ Err RunError.Read →
        (input : List ℕ) × (next : monitors.Monitor S D S.PublicKey S.Signature)
        × Consumes (R.remaining (inner_of reader.old)) (R.remaining (inner_of reader.new)) input
        × Heard ⟦<S as Audited<D>>⟧.basis D.bytes_of monitor.entry input next
        (W.contents (inner_of writer.old)) (W.contents (inner_of writer.new)) }
    // After an error a front of the lines of what was read was written.
    ensures begun { IfErr result (λ e. (input more : List ℕ) ×
        Consumes (R.remaining (inner_of reader.old)) (R.remaining (inner_of reader.new)) (input ++ more)
        × HearsBeginning ⟦<S as Audited<D>>⟧.basis D.bytes_of monitor.entry input
        (W.contents (inner_of writer.old)) (W.contents (inner_of writer.new))) }
    ensures flushed { OnOk result (IsTrue (is_flushed writer.new)) }
    // Read and write errors come from the reader and the writer alone.
    ensures read_failed { IsTrue (has_failed reader.new) ↔ (result ≡ Err RunError.Read) }
    ensures write_failed { IsTrue (has_failed writer.new) ↔ (result ≡ Err RunError.Write) }
    ensures too_long { result ≡ Err RunError.TooLong →
        (input : List ℕ) × (2 ^ 64 ≤ fed_of monitor.entry + length input)
        × Consumes (R.remaining (inner_of reader.old)) (R.remaining (inner_of reader.new)) input }
{
    let mut monitor = monitor;
    tell(alloc, &monitor.news(), writer)?;
    let mut piece = make_piece(alloc)?;
    let mut seen = monitor.fed();
    'reads: loop {
        let count = read_some(reader, piece.as_mut_slice())?;
        if count == 0 {
            return Ok(monitor);
        }
        if count > usize::MAX - seen {
            return Err(RunError::TooLong);
        }
        seen += count;
        monitor = hear(alloc, monitor, &piece[..count], writer, hook)?;
    }
}

/// Feeds a piece, writes the lines of what it tells, and then calls the hook.
fn hear<'a, S: Listing<D>, D: Digest, W: Write, H: Hook<S, D>>(
    alloc: Global,
    monitor: Monitor<'a, S, D>,
    piece: &[u8],
    writer: &mut Watched<W>,
    hook: &mut H,
) -> Result<Monitor<'a, S, D>, RunError>
    requires room { fed_of monitor + length piece.now < 2 ^ 64 }
    requires writer_well { has_failed writer.old ≡ false }
    ensures fed { IfOk result (λ next. fed_of next ≤ fed_of monitor.entry + length piece.now) }
    ensures hears { IfOk result (λ next. (news : alarm.News S D S.PublicKey S.Signature)
        × Hears ⟦<S as Audited<D>>⟧.basis monitor.entry piece.now (news ∷ []) next
        × Appends (W.contents (inner_of writer.old)) (W.contents (inner_of writer.new))
        (news_text D.bytes_of news)) }
    ensures told { IfOk result AllTold }
    ensures flushed { OnOk result (IsTrue (is_flushed writer.new)) }
    ensures begun { IfErr result (λ e. (input more : List ℕ) × (piece.now ≡ input ++ more)
        × HearsBeginning ⟦<S as Audited<D>>⟧.basis D.bytes_of monitor.entry input
        (W.contents (inner_of writer.old)) (W.contents (inner_of writer.new))) }
    ensures failed { IsTrue (has_failed writer.new) ↔ (result ≡ Err RunError.Write) }
    ensures error { IfErr result (λ e. (e ≢ RunError.Read) × (e ≢ RunError.TooLong)) }
{
    let mut next = monitor.feed(piece)?;
    let news = next.news();
    tell(alloc, &news, writer)?;
    let nothing = news.evidence.as_slice().is_empty() && news.splits.as_slice().is_empty();
    hook.looked(&mut next, !nothing);
    Ok(next)
}

/// Writes a line for each evidence and each split of what arose, as an audit does, and flushes.
///
/// `Write` exactly where a write or a flush failed, and `OutOfMemory` where an allocation failed. A front of the lines was
/// written then.
pub fn tell<S: Listing<D>, D: Digest, W: Write>(
    alloc: Global,
    news: &News<S, D>,
    writer: &mut Watched<W>,
) -> Result<(), RunError>
    requires { has_failed writer.old ≡ false }
    ensures written { OnOk result (Appends (W.contents (inner_of writer.old))
        (W.contents (inner_of writer.new)) (news_text D.bytes_of news.now)) }
    ensures flushed { OnOk result (IsTrue (is_flushed writer.new)) }
    ensures begun { OnErr result (AppendsBeginning (W.contents (inner_of writer.old))
        (W.contents (inner_of writer.new)) (news_text D.bytes_of news.now)) }
    ensures failed { IsTrue (has_failed writer.new) ↔ (result ≡ Err RunError.Write) }
    ensures error { IfErr result (λ e. (e ≢ RunError.Read) × (e ≢ RunError.TooLong)) }
{
    let text = text(alloc, news.evidence.as_slice(), news.splits.as_slice())?;
    write_text(writer, text.as_bytes())
}
