//! `audit_split` as a function over its arguments, its files and its output.

ghost use Rattle.std.specs.Prelude.{◌≡◌, ◌≢◌, ◌↔◌, false, Err, IfErr, IfOk, IsTrue, OnErr, map, string_bytes};
ghost use Rattle.std.specs.Int.NonZero.{non_zero_u32_get};
ghost use Rattle.std.specs.IoError.{error_kind};
ghost use Rattle.std.specs.Vec.Iter.{into_iter_items};
ghost use Rattle.simplex_audit.specs.Outcome.{writer_use};
ghost use Rattle.simplex_cli.specs.Arguments.{words_of};
ghost use Rattle.simplex_cli.specs.Status.{number_of};
ghost use Rattle.simplex_splitting.specs.Ending.{FilesEnd, OptionsEnd, SplitEnding, SplitEnds, reads_of, status_of_split};
ghost use Rattle.simplex_stream.specs.Watched.{has_failed};

use crate::complaints::{Trouble, complain};
use crate::cutting::cut_files;
use crate::files::{FileParts, check_names, create_parts};
use crate::inputs::{Inputs, Reading};
use crate::options::{Options, parse_options};
use crate::parts::Parts;
use simplex_audit::audit::Watched;
use simplex_cli::start::{no_arguments, without_name};
use simplex_cli::status::{Failure, Status};
use simplex_cli::verdicts::SignatureSize;
use simplex_evidence::types::Activity;
use simplex_scheme::scheme::Sha256Digest;
use simplex_schemes::plain::Plain;
use simplex_schemes::vouched::{Role48, Role64, Role96, Vouched};
use std::alloc::Global;
use std::env::Args;
use std::fs::{File, Files};
use std::io;
use std::io::{ErrorKind, Write};

/// Messages whose signatures the caller verified.
type Verdicts<R, const N: usize> = Activity<Vouched<R, N>, Sha256Digest>;

/// Cuts files with messages of the signatures that the options say.
fn cut_signed<F: Files<File = File>, P: Parts, W: Write>(
    alloc: Global,
    files: &F,
    options: &Options<'_>,
    names: &[String],
    parts: &mut P,
    output: &mut Watched<W>,
) -> Result<bool, Trouble>
    requires output_well { has_failed output.old ≡ false }
    requires parts_well { P.has_failed parts.old ≡ false }
    ensures ends { FilesEnd
        (reads_of ⟦<Inputs as Reading>⟧.readings options.now.signature (non_zero_u32_get options.now.division.bound))
        (map string_bytes names.now) (writer_use W.contents output.old output.new) result }
    ensures unwritten { IsTrue (P.has_failed parts.new) ↔ (result ≡ Err (Trouble.Unwritten (P.failed_at parts.new))) }
    ensures failed { IsTrue (has_failed output.new) ↔ (result ≡ Err Trouble.Unsaid) }
{
    match options.signature {
        None => {
            cut_files::<Activity<Plain, Sha256Digest>, F, P, W>(
                alloc, files, options, names, parts, output,
            )
        }
        Some(SignatureSize::Bytes48) => {
            cut_files::<Verdicts<Role48, 49>, F, P, W>(alloc, files, options, names, parts, output)
        }
        Some(SignatureSize::Bytes64) => {
            cut_files::<Verdicts<Role64, 65>, F, P, W>(alloc, files, options, names, parts, output)
        }
        Some(SignatureSize::Bytes96) => {
            cut_files::<Verdicts<Role96, 97>, F, P, W>(alloc, files, options, names, parts, output)
        }
    }
}

/// Cuts files as the options say. They are refused before anything is written if one has the name of a part.
fn cut_options<F: Files<File = File>, W: Write>(
    alloc: Global,
    files: &F,
    options: &Options<'_>,
    names: &[String],
    output: &mut Watched<W>,
) -> Result<bool, Trouble>
    requires { has_failed output.old ≡ false }
    ensures ends { OptionsEnd ⟦<Inputs as Reading>⟧.readings options.now (map string_bytes names.now)
        (writer_use W.contents output.old output.new) result }
    ensures failed { IsTrue (has_failed output.new) ↔ (result ≡ Err Trouble.Unsaid) }
{
    let (prefix, classes) = (options.division.prefix, options.division.classes.get());
    check_names(prefix, classes, names)?;
    create_parts(alloc, files, prefix, classes)?;
    let mut parts = FileParts::new(alloc, files, prefix);
    cut_signed(alloc, files, options, names, &mut parts, output)
}

/// Says how a run ended, and returns its status.
fn conclude<E: Write>(
    errors: &mut Watched<E>,
    prefix: &str,
    names: &[String],
    ended: Result<bool, Trouble>,
) -> Status
    ensures { result ≡ status_of_split ended }
{
    match ended {
        Ok(false) => Status::Whole,
        Ok(true) => Status::Fault,
        Err(trouble) => {
            complain(errors, prefix, names, trouble);
            trouble.status()
        }
    }
}

/// Does what the words say, and says how that ended.
fn cut_words<F: Files<File = File>, W: Write, E: Write>(
    alloc: Global,
    files: &F,
    words: &[String],
    output: &mut Watched<W>,
    errors: &mut Watched<E>,
) -> Status
    requires { has_failed output.old ≡ false }
    ensures ends { (ending : SplitEnding) × (result ≡ status_of_split ending)
        × SplitEnds ⟦<Inputs as Reading>⟧.readings (map string_bytes words.now)
        (writer_use W.contents output.old output.new) ending }
    ensures failed { IsTrue (has_failed output.new) → result ≡ Status.Failed }
{
    match parse_options(words) {
        Err(_) => conclude(errors, "", &[], Err(Trouble::Usage)),
        Ok((options, count)) => {
            let names = &words[count..];
            let ended = cut_options(alloc, files, &options, names, output);
            conclude(errors, options.division.prefix, names, ended)
        }
    }
}

/// Runs `audit_split` over the arguments that its process is given, the program's name first, its files, its standard output
/// and its standard error, and returns the number that the process ends with: 0 if all files are whole, 1 if one has a fault, 2
/// for wrong arguments, and 3 if a file, the output or an allocation failed.
pub fn start_split<F: Files<File = File>, W: Write, E: Write>(
    alloc: Global,
    files: &F,
    given: io::Result<Args>,
    output: &mut Watched<W>,
    errors: &mut Watched<E>,
) -> u8
    requires { has_failed output.old ≡ false }
    ensures ends { IfOk given (λ given. (ending : SplitEnding)
        × (result ≡ number_of (status_of_split ending))
        × SplitEnds ⟦<Inputs as Reading>⟧.readings (words_of (into_iter_items given))
        (writer_use W.contents output.old output.new) ending) }
    // If the output failed the number is 3.
    ensures failed { IsTrue (has_failed output.new) → result ≡ 3 }
    // If the arguments cannot be read it is 3 after an allocation failure, else 2.
    ensures memory { IfErr given (λ error. error_kind error ≡ ErrorKind.OutOfMemory → result ≡ 3) }
    ensures usage { IfErr given (λ error. error_kind error ≢ ErrorKind.OutOfMemory → result ≡ 2) }
    ensures unused { OnErr given (output.new ≡ output.old) }
{
    let given = match given {
        Ok(given) => given,
        Err(error) => {
            let trouble = match no_arguments(&error) {
                Failure::OutOfMemory => Trouble::OutOfMemory,
                _ => Trouble::Usage,
            };
            return conclude(errors, "", &[], Err(trouble)).number();
        }
    };
    match without_name(alloc, given) {
        Ok(words) => cut_words(alloc, files, words.as_slice(), output, errors).number(),
        Err(_) => conclude(errors, "", &[], Err(Trouble::OutOfMemory)).number(),
    }
}
