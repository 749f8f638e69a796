//! What `audit_compact` does with its arguments and streams.

ghost use Rattle.std.specs.Prelude.{◌≡◌, false, Err, IsTrue, map, string_bytes};
ghost use Rattle.simplex_stream.specs.Watched.{has_failed};
ghost use Rattle.simplex_audit.specs.Outcome.{reader_use, writer_use};
ghost use Rattle.simplex_cli.specs.Compacting.{CompactEnds, NameNoFloor};

use crate::arguments;
use crate::floors::parse_floor;
use crate::status::Failure;
use simplex_audit::audit::{Fault, Watched};
use simplex_audit::basis::Audited;
use simplex_audit::compacted_input::compact_input;
use simplex_scheme::scheme::Sha256Digest;
use simplex_schemes::plain::Plain;
use std::alloc::Global;
use std::io::{Read, Write};

/// Writes what is news of the input, from the floor on and under the committees that the arguments name. Returns the input's
/// fault, if there is one.
pub(crate) fn keep_news<R: Read, W: Write>(
    alloc: Global,
    arguments: &[String],
    input: &mut Watched<R>,
    output: &mut Watched<W>,
) -> Result<Option<Fault>, Failure>
    requires input_well { has_failed input.old ≡ false }
    requires output_well { has_failed output.old ≡ false }
    ensures ends { CompactEnds ⟦<Plain as Audited<Sha256Digest>>⟧.basis
        (map string_bytes arguments.now)
        (reader_use R.remaining input.old input.new)
        (writer_use W.contents output.old output.new) result }
    ensures read_failed { IsTrue (has_failed input.new) → result ≡ Err Failure.Read }
    ensures write_failed { IsTrue (has_failed output.new) → result ≡ Err Failure.Write }
    ensures untouched { NameNoFloor (map string_bytes arguments.now) → (input.new ≡ input.old) ×
        (output.new ≡ output.old) }
{
    let (floor, count) = parse_floor(arguments)?;
    let committees = arguments::parse(alloc, &arguments[count..])?;
    let said = compact_input::<Plain, Sha256Digest, R, W>(
        alloc,
        &committees,
        floor,
        input,
        output,
    )?;
    Ok(said.fault)
}
