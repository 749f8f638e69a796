//! A program as a function over what its process is given.

ghost use Rattle.std.specs.Prelude.{◌≡◌, ◌≢◌, ◌⊎◌, false, IsTrue, IfOk, IfErr, OnErr, map, string_bytes};
ghost use Rattle.std.specs.IoError.{error_kind};
ghost use Rattle.std.specs.Vec.Iter.{into_iter_items};
ghost use Rattle.simplex_cli.specs.Arguments.{words_of};
ghost use Rattle.simplex_audit.specs.Outcome.{reader_use, writer_use};
ghost use Rattle.simplex_cli.specs.Answer.{Ending, Says, status_of};
ghost use Rattle.simplex_cli.specs.Complaints.{complaint_of, said_of};
ghost use Rattle.simplex_cli.specs.Endings.{AreRefused, EndsAs};
ghost use Rattle.simplex_cli.specs.Status.{number_of};
ghost use Rattle.simplex_stream.specs.Watched.{has_failed};

use crate::command::{command, conclude};
use crate::program::Program;
use crate::showing::{Showing, Streams};
use crate::status::{Failure, Status};
use simplex_audit::audit::Watched;
use simplex_audit::basis::Audited;
use simplex_scheme::scheme::Sha256Digest;
use simplex_schemes::plain::Plain;
use std::alloc::{AllocError, Global};
use std::env::Args;
use std::io;
use std::io::{ErrorKind, Read, Write};

/// The arguments after the program's name. `AllocError` where an allocation failed.
pub fn without_name(alloc: Global, given: Args) -> Result<Vec<String>, AllocError>
    ensures { IfOk result (λ words.
        map string_bytes words.items ≡ words_of (into_iter_items given)) }
{
    let mut words = Vec::with_capacity(alloc, given.len())?;
    words.extend(given.skip(1))?;
    Ok(words)
}

/// Why arguments cannot be read: an allocation failed, or one of them is not UTF-8.
pub fn no_arguments(error: &io::Error) -> Failure
    ensures memory { error_kind error.now ≡ ErrorKind.OutOfMemory → result ≡ Failure.OutOfMemory }
    ensures usage { error_kind error.now ≢ ErrorKind.OutOfMemory → result ≡ Failure.Usage }
{
    if error.kind() == ErrorKind::OutOfMemory {
        Failure::OutOfMemory
    } else {
        Failure::Usage
    }
}

/// Runs a program over the arguments that its process is given, the program's name first, and its three
/// streams, and returns the number that the process ends with.
///
/// Where the arguments cannot be read the input and the output are untouched, the complaint is written to `errors`, and the
/// number is 3 after an allocation failure, else 2.
pub fn start<R: Read, W: Write, E: Write>(
    alloc: Global,
    program: Program,
    given: io::Result<Args>,
    input: &mut Watched<R>,
    output: &mut Watched<W>,
    errors: &mut Watched<E>,
) -> u8
    requires input_well { has_failed input.old ≡ false }
    requires output_well { has_failed output.old ≡ false }
    ensures ends { IfOk given (λ given. (ending : Ending) × (result ≡ number_of (status_of ending))
        × Says (writer_use E.contents errors.old errors.new) (said_of program ending)
        × EndsAs ⟦<Plain as Audited<Sha256Digest>>⟧.basis
        ⟦<Streams as Showing>⟧.lines program (words_of (into_iter_items given))
        (reader_use R.remaining input.old input.new)
        (writer_use W.contents output.old output.new) ending) }
    // Where the input or the output failed the number is 3, and standard error says only that.
    ensures read_failed { IsTrue (has_failed input.new) → (result ≡ 3)
        × Says (writer_use E.contents errors.old errors.new) (complaint_of program Failure.Read) }
    ensures write_failed { IsTrue (has_failed output.new) → (result ≡ 3)
        × Says (writer_use E.contents errors.old errors.new) (complaint_of program Failure.Write) }
    ensures refused { IfOk given (λ given. AreRefused program (words_of (into_iter_items given)) →
        (result ≡ 2) ⊎ (result ≡ 3)) }
    ensures untouched { IfOk given (λ given. AreRefused program (words_of (into_iter_items given)) →
        (input.new ≡ input.old) × (output.new ≡ output.old)) }
    ensures memory { IfErr given (λ error. error_kind error ≡ ErrorKind.OutOfMemory → (result ≡ 3)
        × Says (writer_use E.contents errors.old errors.new) (complaint_of program Failure.OutOfMemory)) }
    ensures usage { IfErr given (λ error. error_kind error ≢ ErrorKind.OutOfMemory → (result ≡ 2)
        × Says (writer_use E.contents errors.old errors.new) (complaint_of program Failure.Usage)) }
    ensures unused { OnErr given ((input.new ≡ input.old) × (output.new ≡ output.old)) }
{
    let given = match given {
        Ok(given) => given,
        Err(error) => return conclude(program, errors, Err(no_arguments(&error))).number(),
    };
    match without_name(alloc, given) {
        Ok(words) => command(alloc, program, words.as_slice(), input, output, errors).number(),
        Err(_) => conclude(program, errors, Err(Failure::OutOfMemory)).number(),
    }
}
