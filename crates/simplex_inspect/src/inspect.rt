//! Writes the lines of a stream.

ghost use Rattle.std.specs.Prelude.{◌≡◌, ◌⊎◌, ◌↔◌, ◌+◌, ◌<◌, ◌^◌, ℕ, List, Option, false, Err, IsTrue, IfOk, IfErr, OnOk, length, string_bytes};
ghost use Rattle.std.specs.Io.KnownBytes.{Keeps};
ghost use Rattle.simplex_stream.specs.Watched.{inner_of, has_failed, is_flushed};
ghost use Rattle.simplex_inspect.specs.Inspected.{IsWritten, AppendsText, AppendsPart, fault_text};

use crate::basis::Inspected;
use crate::fault::fault_line;
use crate::reading::read_lines;
use simplex_scheme::committees::Committees;
use simplex_scheme::scheme::{Digest, Listing};
use simplex_stream::fault::{Fault, fault_at};
use simplex_stream::run_error::RunError;
use simplex_stream::text::write_text;
use simplex_stream::watched::Watched;
use std::alloc::{AllocError, Global};
use std::io::Write;

/// The line of a fault, where there is one.
fn fault_text(alloc: Global, fault: &Option<Fault>, rest: &[u8]) -> Result<String, AllocError>
    ensures { IfOk result (λ text. string_bytes text ≡ fault_text fault.now rest.now) }
{
    match fault {
        Some(fault) => fault_line(alloc, fault, rest),
        None => Ok(String::new(alloc)),
    }
}

/// Writes the lines of the messages in the last bytes of a stream, and that of the fault, if there is one. Returns the
/// fault.
pub(crate) fn finish<S: Listing<D>, D: Digest, W: Write>(
    alloc: Global,
    committees: &Option<Committees<S>>,
    offset: usize,
    held: &[u8],
    writer: &mut Watched<W>,
) -> Result<Option<Fault>, RunError>
    requires fits { offset + length held.now < 2 ^ 64 }
    requires well { has_failed writer.old ≡ false }
    ensures whole { IfOk result (λ fault. (input : List ℕ) (start : Option (List ℕ)) →
        IsWritten (⟦<S as Inspected<D>>⟧.lines committees.now) input offset held.now
        start (W.contents (inner_of writer.old)) →
        AppendsText (⟦<S as Inspected<D>>⟧.lines committees.now) input fault
        start (W.contents (inner_of writer.new))) }
    ensures begun { IfErr result (λ e. (input : List ℕ) (start : Option (List ℕ)) →
        IsWritten (⟦<S as Inspected<D>>⟧.lines committees.now) input offset held.now
        start (W.contents (inner_of writer.old)) →
        AppendsPart (⟦<S as Inspected<D>>⟧.lines committees.now) input
        start (W.contents (inner_of writer.new))) }
    ensures flushed { OnOk result (IsTrue (is_flushed writer.new)) }
    // Where an allocation failed nothing was written.
    ensures nothing { result ≡ Err RunError.OutOfMemory →
        Keeps (W.contents (inner_of writer.old)) (W.contents (inner_of writer.new)) }
    ensures failed { IsTrue (has_failed writer.new) ↔ (result ≡ Err RunError.Write) }
    ensures error { IfErr result (λ e. (e ≡ RunError.Write) ⊎ (e ≡ RunError.OutOfMemory)) }
{
    let reading = read_lines::<S, D>(alloc, committees, offset, held)?;
    let fault = fault_at(reading.offset, reading.stop);
    let mut text = reading.text;
    let last = fault_text(alloc, &fault, reading.rest)?;
    text.push_str(last.as_str())?;
    write_text(writer, text.as_bytes())?;
    Ok(fault)
}

/// Writes the lines of a whole stream: one for each of its messages, in order, and one for its fault, if there is one.
/// Returns the fault. The messages and the fault are those of an audit of the stream. `Write` exactly where a write or a
/// flush failed: then a prefix of the text was written. `OutOfMemory` where an allocation failed: then nothing was.
pub fn inspect<S: Listing<D>, D: Digest, W: Write>(
    alloc: Global,
    committees: &Option<Committees<S>>,
    stream: &[u8],
    writer: &mut Watched<W>,
) -> Result<Option<Fault>, RunError>
    requires { has_failed writer.old ≡ false }
    // Exactly the text of the stream was written.
    ensures whole { IfOk result (λ fault.
        AppendsText (⟦<S as Inspected<D>>⟧.lines committees.now) stream.now fault
        (W.contents (inner_of writer.old)) (W.contents (inner_of writer.new))) }
    ensures flushed { OnOk result (IsTrue (is_flushed writer.new)) }
    // After an error a prefix of the text was written.
    ensures begun { IfErr result (λ e.
        AppendsPart (⟦<S as Inspected<D>>⟧.lines committees.now) stream.now
        (W.contents (inner_of writer.old)) (W.contents (inner_of writer.new))) }
    // Where an allocation failed nothing was written.
    ensures nothing { result ≡ Err RunError.OutOfMemory →
        Keeps (W.contents (inner_of writer.old)) (W.contents (inner_of writer.new)) }
    ensures failed { IsTrue (has_failed writer.new) ↔ (result ≡ Err RunError.Write) }
    ensures error { IfErr result (λ e. (e ≡ RunError.Write) ⊎ (e ≡ RunError.OutOfMemory)) }
{
    finish(alloc, committees, 0, stream, writer)
}
