//! What `audit` and `audit_stored` do with their arguments and streams.

ghost use Rattle.std.specs.Prelude.{◌≡◌, false, Err, IsTrue, map, string_bytes};
ghost use Rattle.simplex_stream.specs.Watched.{has_failed};
ghost use Rattle.simplex_cli.specs.Arguments.{AreNoArguments};
ghost use Rattle.simplex_audit.specs.Outcome.{reader_use, writer_use};
ghost use Rattle.simplex_cli.specs.Answer.{Ends};

use crate::arguments;
use crate::program::Verification;
use crate::status::Failure;
use simplex_audit::audit::{Fault, Watched, run, run_deferred};
use simplex_audit::basis::Audited;
use simplex_scheme::scheme::Sha256Digest;
use simplex_schemes::plain::Plain;
use std::alloc::Global;
use std::io::{Read, Write};

/// Audits the input under the committees that the arguments name, and writes the text of the report. Returns the input's
/// fault, if there is one.
pub(crate) fn audit_input<R: Read, W: Write>(
    alloc: Global,
    verification: Verification,
    arguments: &[String],
    input: &mut Watched<R>,
    output: &mut Watched<W>,
) -> Result<Option<Fault>, Failure>
    requires input_well { has_failed input.old ≡ false }
    requires output_well { has_failed output.old ≡ false }
    ensures ends { Ends ⟦<Plain as Audited<Sha256Digest>>⟧.basis (map string_bytes arguments.now)
        (reader_use R.remaining input.old input.new)
        (writer_use W.contents output.old output.new) result }
    ensures read_failed { IsTrue (has_failed input.new) → result ≡ Err Failure.Read }
    ensures write_failed { IsTrue (has_failed output.new) → result ≡ Err Failure.Write }
    ensures untouched { AreNoArguments (map string_bytes arguments.now) → (input.new ≡ input.old) ×
        (output.new ≡ output.old) }
{
    let committees = arguments::parse(alloc, arguments)?;
    match verification {
        Verification::Full => {
            let summary = run::<Plain, Sha256Digest, R, W>(alloc, &committees, input, output)?;
            Ok(summary.fault)
        }
        Verification::Deferred => {
            let summary = run_deferred::<Plain, Sha256Digest, R, W>(
                alloc,
                &committees,
                input,
                output,
            )?;
            Ok(summary.fault)
        }
    }
}
