//! Cuts files into the files of parts, and writes a line of each.

ghost use Rattle.std.specs.Prelude.{◌≡◌, ◌⊎◌, ◌↔◌, ◌||◌, List, ℕ, false, Err, IfErr, IfOk, IsTrue, OnOk, is_some, map, string_bytes};
ghost use Rattle.std.specs.Int.NonZero.{non_zero_u32_get};
ghost use Rattle.std.specs.Io.KnownBytes.{Appends};
ghost use Rattle.simplex_audit.specs.Outcome.{writer_use};
ghost use Rattle.simplex_base.specs.Format.{format_under};
ghost use Rattle.simplex_shards.specs.Cut.{mixed_class};
ghost use Rattle.simplex_splitting.specs.Ending.{FilesEnd, IsOfFile, line_of};
ghost use Rattle.simplex_splitting.specs.Splitting.{IsCutInto, IsReadAs};
ghost use Rattle.simplex_stream.specs.Text.{AppendsBeginning};
ghost use Rattle.simplex_stream.specs.Watched.{has_failed, inner_of, is_flushed};

use crate::complaints::Trouble;
use crate::options::Options;
use crate::parts::Parts;
use crate::splitting::{Totals, split_input};
use itoa::Buffer;
use simplex_base::codec::{Read as Readable, Write as Writable};
use simplex_base::positions::Roundable;
use simplex_shards::cut::Cut;
use simplex_stream::messages::Show;
use simplex_stream::run_error::RunError;
use simplex_stream::text::write_text;
use simplex_stream::watched::Watched;
use std::alloc::{AllocError, Global};
use std::fs::{File, Files};
use std::io::Write;

/// The line of a file, with its newline: its name, the number of its messages, and if it has a fault the word `fault` and its
/// place, separated by single blanks. `AllocError` only after an allocation failed.
fn line(alloc: Global, name: &str, totals: &Totals) -> Result<String, AllocError>
    ensures { IfOk result (λ line. string_bytes line ≡ line_of name.now totals.now) }
{
    let mut digits = Buffer::new();
    let mut line = String::from_str(alloc, name)?;
    line.push_str(" ")?;
    line.push_str(digits.format(totals.read))?;
    match totals.fault {
        None => {
            line.push_str("\n")?;
            Ok(line)
        }
        Some(fault) => {
            let mut place = Buffer::new();
            line.push_str(" fault ")?;
            line.push_str(place.format(fault.place))?;
            line.push_str("\n")?;
            Ok(line)
        }
    }
}

/// Cuts the file at a place among the files.
fn cut_file<M: Show + Roundable + Writable, F: Files<File = File>, P: Parts>(
    alloc: Global,
    files: &F,
    options: &Options<'_>,
    place: usize,
    name: &str,
    parts: &mut P,
) -> Result<Totals, Trouble>
    requires { P.has_failed parts.old ≡ false }
    // Each part got exactly its messages of the file.
    ensures cut { IfOk result (λ totals. (input : List ℕ) × IsCutInto
        (format_under ⟦<M as Readable>⟧ (non_zero_u32_get options.now.division.bound)) M.round_of
        (mixed_class options.now.seed (non_zero_u32_get options.now.division.classes)) input totals
        (P.contents parts.old) (P.contents parts.new)) }
    ensures well { OnOk result (P.has_failed parts.new ≡ false) }
    ensures unwritten { IsTrue (P.has_failed parts.new) ↔ (result ≡ Err (Trouble.Unwritten (P.failed_at parts.new))) }
    ensures error { IfErr result (IsOfFile place (P.failed_at parts.new)) }
{
    let cut = Cut::Mixed {
        seed: options.seed,
        classes: options.division.classes,
    };
    let bound = options.division.bound.get();
    let Ok(file) = File::open(files, name) else {
        return Err(Trouble::Unread(place));
    };
    let mut reader = Watched::new(file);
    match split_input::<M, File, P>(alloc, bound, &cut, &mut reader, parts) {
        Ok(totals) => Ok(totals),
        Err(RunError::OutOfMemory) => Err(Trouble::OutOfMemory),
        Err(RunError::Write) => Err(Trouble::Unwritten(parts.failed_class())),
        Err(RunError::Read | RunError::TooLong) => Err(Trouble::Unread(place)),
    }
}

/// Says what was read of a file.
fn say_line<W: Write>(
    alloc: Global,
    name: &str,
    totals: &Totals,
    output: &mut Watched<W>,
) -> Result<(), Trouble>
    requires { has_failed output.old ≡ false }
    ensures written { OnOk result (Appends (W.contents (inner_of output.old))
        (W.contents (inner_of output.new)) (line_of name.now totals.now)) }
    ensures begun { AppendsBeginning (W.contents (inner_of output.old))
        (W.contents (inner_of output.new)) (line_of name.now totals.now) }
    ensures flushed { OnOk result (IsTrue (is_flushed output.new)) }
    ensures failed { IsTrue (has_failed output.new) ↔ (result ≡ Err Trouble.Unsaid) }
    ensures error { IfErr result (λ trouble. (trouble ≡ Trouble.Unsaid)
        ⊎ ((trouble ≡ Trouble.OutOfMemory) × (output.new ≡ output.old))) }
{
    let line = line(alloc, name, totals)?;
    match write_text(output, line.as_bytes()) {
        Ok(()) => Ok(()),
        Err(_) => Err(Trouble::Unsaid),
    }
}

/// Whether a file has a fault, or one before it.
fn is_faulted(before: bool, totals: &Totals) -> bool
    ensures { result ≡ (before || is_some totals.now.fault) }
{
    before || totals.fault.is_some()
}

/// Cuts files, one after the other, and writes a line of each as soon as it was read. Returns whether one has a fault. An error
/// other than `Unsaid` leaves exactly the lines of the files before the one that failed, and never is of the arguments.
pub fn cut_files<M: Show + Roundable + Writable, F: Files<File = File>, P: Parts, W: Write>(
    alloc: Global,
    files: &F,
    options: &Options<'_>,
    names: &[String],
    parts: &mut P,
    output: &mut Watched<W>,
) -> Result<bool, Trouble>
    requires output_well { has_failed output.old ≡ false }
    requires parts_well { P.has_failed parts.old ≡ false }
    ensures ends { FilesEnd
        (IsReadAs (format_under ⟦<M as Readable>⟧ (non_zero_u32_get options.now.division.bound)))
        (map string_bytes names.now) (writer_use W.contents output.old output.new) result }
    ensures unwritten { IsTrue (P.has_failed parts.new) ↔ (result ≡ Err (Trouble.Unwritten (P.failed_at parts.new))) }
    ensures failed { IsTrue (has_failed output.new) ↔ (result ≡ Err Trouble.Unsaid) }
{
    let mut faulted = false;
    let mut place = 0;
    'files: for name in names {
        let totals = cut_file::<M, F, P>(alloc, files, options, place, name.as_str(), parts)?;
        say_line(alloc, name.as_str(), &totals, output)?;
        faulted = is_faulted(faulted, &totals);
        place += 1;
    }
    Ok(faulted)
}
