//! A program as a function over its arguments and streams.

ghost use Rattle.std.specs.Prelude.{◌≡◌, ◌⊎◌, false, Err, IsTrue, map, string_bytes};
ghost use Rattle.simplex_stream.specs.Watched.{has_failed, is_flushed};
ghost use Rattle.simplex_audit.specs.Outcome.{reader_use, writer_use};
ghost use Rattle.simplex_cli.specs.Answer.{Ending, Says, status_of};
ghost use Rattle.simplex_cli.specs.Complaints.{complaint_of, said_of};
ghost use Rattle.simplex_cli.specs.Endings.{AreRefused, EndsAs};

use crate::auditing::audit_input;
use crate::compacting::keep_news;
use crate::complaints::{complaint_at, complaint_of};
use crate::inspecting::show_input;
use crate::program::Program;
use crate::showing::{Showing, Streams};
use crate::status::{Failure, Status};
use simplex_audit::audit::{Fault, Watched};
use simplex_audit::basis::Audited;
use simplex_scheme::scheme::Sha256Digest;
use simplex_schemes::plain::Plain;
use std::alloc::Global;
use std::io::{ErrorKind, Read, Write};

/// Does what the program does with its arguments and its input. Returns the input's fault, if there is one.
fn process<R: Read, W: Write>(
    alloc: Global,
    program: Program,
    arguments: &[String],
    input: &mut Watched<R>,
    output: &mut Watched<W>,
) -> Result<Option<Fault>, Failure>
    requires input_well { has_failed input.old ≡ false }
    requires output_well { has_failed output.old ≡ false }
    ensures ends { EndsAs ⟦<Plain as Audited<Sha256Digest>>⟧.basis
        ⟦<Streams as Showing>⟧.lines program (map string_bytes arguments.now)
        (reader_use R.remaining input.old input.new)
        (writer_use W.contents output.old output.new) result }
    ensures read_failed { IsTrue (has_failed input.new) → result ≡ Err Failure.Read }
    ensures write_failed { IsTrue (has_failed output.new) → result ≡ Err Failure.Write }
    ensures untouched { AreRefused program (map string_bytes arguments.now) →
        (input.new ≡ input.old) × (output.new ≡ output.old) }
{
    match program {
        Program::Audit(verification) => audit_input(alloc, verification, arguments, input, output),
        Program::Compact => keep_news(alloc, arguments, input, output),
        Program::Inspect => show_input(alloc, arguments, input, output),
    }
}

/// Writes a text to standard error, and flushes. An interrupted write is made again, up to 2^64 - 1 times; after any other
/// failure it returns.
pub fn say<E: Write>(errors: &mut Watched<E>, text: &[u8])
    ensures said { Says (writer_use E.contents errors.old errors.new) text.now }
    ensures flushed { has_failed errors.new ≡ false → IsTrue (is_flushed errors.new) }
{
    let (mut count, mut again) = (0, u64::MAX);
    'parts: while count < text.len() {
        match errors.write(&text[count..]) {
            Ok(0) => return,
            Ok(taken) => count += taken,
            Err(error) if error.kind() == ErrorKind::Interrupted && again > 0 => again -= 1,
            Err(_) => return,
        }
    }
    let _ = errors.flush();
}

/// Says on standard error how a run ended, and returns its status. A failure to write there does not change the status.
pub(crate) fn conclude<E: Write>(
    program: Program,
    errors: &mut Watched<E>,
    ended: Result<Option<Fault>, Failure>,
) -> Status
    ensures status { result ≡ status_of ended }
    ensures said { Says (writer_use E.contents errors.old errors.new) (said_of program ended) }
{
    match ended {
        Ok(None) => Status::Whole,
        Ok(Some(fault)) => {
            say(errors, complaint_at(program, fault.place).as_bytes());
            Status::Fault
        }
        Err(failure) => {
            say(errors, complaint_of(program, failure).as_bytes());
            failure.status()
        }
    }
}

/// Runs a program over its arguments, without the program's name, and its three streams.
///
/// The arguments are checked before anything is read. The complaint is written whole, unless a call
/// of `errors` fails, or had failed before; the status is the same then.
///
/// An audit writes nothing before the whole input is read and all memory is allocated. `audit_compact` and `inspect` write
/// while they read, so after a failure a front of what they write may have been written. The line of a message is written after
/// the read that completes it.
pub fn command<R: Read, W: Write, E: Write>(
    alloc: Global,
    program: Program,
    arguments: &[String],
    input: &mut Watched<R>,
    output: &mut Watched<W>,
    errors: &mut Watched<E>,
) -> Status
    requires input_well { has_failed input.old ≡ false }
    requires output_well { has_failed output.old ≡ false }
    ensures ends { (ending : Ending) × (result ≡ status_of ending)
        × Says (writer_use E.contents errors.old errors.new) (said_of program ending)
        × EndsAs ⟦<Plain as Audited<Sha256Digest>>⟧.basis
        ⟦<Streams as Showing>⟧.lines program (map string_bytes arguments.now)
        (reader_use R.remaining input.old input.new)
        (writer_use W.contents output.old output.new) ending }
    // Where the input or the output failed the status is `Failed`, and standard error says only that.
    ensures read_failed { IsTrue (has_failed input.new) → (result ≡ Status.Failed)
        × Says (writer_use E.contents errors.old errors.new) (complaint_of program Failure.Read) }
    ensures write_failed { IsTrue (has_failed output.new) → (result ≡ Status.Failed)
        × Says (writer_use E.contents errors.old errors.new) (complaint_of program Failure.Write) }
    ensures refused { AreRefused program (map string_bytes arguments.now) →
        (result ≡ Status.Usage) ⊎ (result ≡ Status.Failed) }
    ensures untouched { AreRefused program (map string_bytes arguments.now) →
        (input.new ≡ input.old) × (output.new ≡ output.old) }
{
    let ended = process(alloc, program, arguments, input, output);
    conclude(program, errors, ended)
}
