//! What `inspect` does with its arguments and streams.

ghost use Rattle.std.specs.Prelude.{◌≡◌, ◌⊎◌, false, Ok, Err, IfErr, IsTrue, OnErr, map, string_bytes};
ghost use Rattle.simplex_stream.specs.Watched.{has_failed};
ghost use Rattle.simplex_audit.specs.Outcome.{reader_use, writer_use};
ghost use Rattle.simplex_cli.specs.Arguments.{AreGiven, AreNotGiven};
ghost use Rattle.simplex_cli.specs.Inspecting.{GiveNothing, InspectEnds, ShowEnds, with_verdicts};
ghost use Rattle.simplex_cli.specs.Verdicts.{AreCountsGiven, AreNoCountsGiven};

use crate::arguments::parse_any;
use crate::showing::{Showing, Streams};
use crate::status::Failure;
use crate::verdicts::{SignatureSize, parse_counts, parse_verdicts};
use simplex_audit::audit::{Committees, Fault, Watched};
use simplex_base::codec::fixed_bytes::Role;
use simplex_inspect::basis::Inspected;
use simplex_inspect::input::inspect_input;
use simplex_scheme::scheme::{Listing, Sha256Digest};
use simplex_schemes::plain::Plain;
use simplex_schemes::vouched::{Role48, Role64, Role96, Vouched};
use std::alloc::Global;
use std::io::{Read, Write};

/// Writes the lines of the input, judged by the committees that are given, if any are. Returns the input's fault, if there is
/// one.
fn show<S: Listing<Sha256Digest> + Drop, R: Read, W: Write>(
    alloc: Global,
    given: Result<Option<Committees<S>>, Failure>,
    input: &mut Watched<R>,
    output: &mut Watched<W>,
) -> Result<Option<Fault>, Failure>
    requires input_well { has_failed input.old ≡ false }
    requires output_well { has_failed output.old ≡ false }
    requires given { IfErr given (λ e. (e ≡ Failure.Usage) ⊎ (e ≡ Failure.OutOfMemory)) }
    ensures ends { ShowEnds ⟦<S as Inspected<Sha256Digest>>⟧.lines (λ committees. given ≡ Ok committees)
        (reader_use R.remaining input.old input.new)
        (writer_use W.contents output.old output.new) result }
    ensures usage { result ≡ Err Failure.Usage → given ≡ Err Failure.Usage }
    ensures read_failed { IsTrue (has_failed input.new) → result ≡ Err Failure.Read }
    ensures write_failed { IsTrue (has_failed output.new) → result ≡ Err Failure.Write }
    ensures untouched { OnErr given ((input.new ≡ input.old) × (output.new ≡ output.old)) }
{
    let committees = given?;
    let fault = inspect_input::<S, Sha256Digest, R, W>(alloc, &committees, input, output)?;
    Ok(fault)
}

/// Writes the lines of an input with plain keys, judged by the committees that the arguments name, if they name any.
fn show_plain<R: Read, W: Write>(
    alloc: Global,
    arguments: &[String],
    input: &mut Watched<R>,
    output: &mut Watched<W>,
) -> Result<Option<Fault>, Failure>
    requires input_well { has_failed input.old ≡ false }
    requires output_well { has_failed output.old ≡ false }
    ensures ends { ShowEnds ⟦<Plain as Inspected<Sha256Digest>>⟧.lines
        (AreGiven (map string_bytes arguments.now))
        (reader_use R.remaining input.old input.new)
        (writer_use W.contents output.old output.new) result }
    ensures read_failed { IsTrue (has_failed input.new) → result ≡ Err Failure.Read }
    ensures write_failed { IsTrue (has_failed output.new) → result ≡ Err Failure.Write }
    ensures untouched { AreNotGiven (map string_bytes arguments.now) → (input.new ≡ input.old) ×
        (output.new ≡ output.old) }
{
    let given = parse_any(alloc, arguments);
    show::<Plain, R, W>(alloc, given, input, output)
}

/// Writes the lines of an input whose signatures have `N` bytes, the last of which is the caller's verdict, judged by the
/// committees whose numbers of participants the arguments are, if there are any.
fn show_counts<T: Role<N>, const N: usize, R: Read, W: Write>(
    alloc: Global,
    arguments: &[String],
    input: &mut Watched<R>,
    output: &mut Watched<W>,
) -> Result<Option<Fault>, Failure>
    requires input_well { has_failed input.old ≡ false }
    requires output_well { has_failed output.old ≡ false }
    ensures ends { ShowEnds ⟦<Vouched<T, N> as Inspected<Sha256Digest>>⟧.lines
        (AreCountsGiven (map string_bytes arguments.now))
        (reader_use R.remaining input.old input.new)
        (writer_use W.contents output.old output.new) result }
    ensures read_failed { IsTrue (has_failed input.new) → result ≡ Err Failure.Read }
    ensures write_failed { IsTrue (has_failed output.new) → result ≡ Err Failure.Write }
    ensures untouched { AreNoCountsGiven (map string_bytes arguments.now) → (input.new ≡ input.old) ×
        (output.new ≡ output.old) }
{
    let given = parse_counts::<T, N>(alloc, arguments);
    show::<Vouched<T, N>, R, W>(alloc, given, input, output)
}

/// Writes the lines of an input whose signatures have this size, and behind it the caller's verdict.
fn show_verdicts<R: Read, W: Write>(
    alloc: Global,
    size: SignatureSize,
    arguments: &[String],
    input: &mut Watched<R>,
    output: &mut Watched<W>,
) -> Result<Option<Fault>, Failure>
    requires input_well { has_failed input.old ≡ false }
    requires output_well { has_failed output.old ≡ false }
    ensures ends { ShowEnds (with_verdicts ⟦<Streams as Showing>⟧.lines size)
        (AreCountsGiven (map string_bytes arguments.now))
        (reader_use R.remaining input.old input.new)
        (writer_use W.contents output.old output.new) result }
    ensures read_failed { IsTrue (has_failed input.new) → result ≡ Err Failure.Read }
    ensures write_failed { IsTrue (has_failed output.new) → result ≡ Err Failure.Write }
    ensures untouched { AreNoCountsGiven (map string_bytes arguments.now) → (input.new ≡ input.old) ×
        (output.new ≡ output.old) }
{
    match size {
        SignatureSize::Bytes48 => show_counts::<Role48, 49, R, W>(alloc, arguments, input, output),
        SignatureSize::Bytes64 => show_counts::<Role64, 65, R, W>(alloc, arguments, input, output),
        SignatureSize::Bytes96 => show_counts::<Role96, 97, R, W>(alloc, arguments, input, output),
    }
}

/// Writes the lines of the input, judged by the committees that the arguments name, if they name any. Returns the input's
/// fault, if there is one.
pub(crate) fn show_input<R: Read, W: Write>(
    alloc: Global,
    arguments: &[String],
    input: &mut Watched<R>,
    output: &mut Watched<W>,
) -> Result<Option<Fault>, Failure>
    requires input_well { has_failed input.old ≡ false }
    requires output_well { has_failed output.old ≡ false }
    ensures ends { InspectEnds ⟦<Streams as Showing>⟧.lines (map string_bytes arguments.now)
        (reader_use R.remaining input.old input.new)
        (writer_use W.contents output.old output.new) result }
    ensures read_failed { IsTrue (has_failed input.new) → result ≡ Err Failure.Read }
    ensures write_failed { IsTrue (has_failed output.new) → result ≡ Err Failure.Write }
    ensures untouched { GiveNothing (map string_bytes arguments.now) → (input.new ≡ input.old) ×
        (output.new ≡ output.old) }
{
    let (size, count) = parse_verdicts(arguments)?;
    let behind = &arguments[count..];
    match size {
        None => show_plain(alloc, behind, input, output),
        Some(size) => show_verdicts(alloc, size, behind, input, output),
    }
}
