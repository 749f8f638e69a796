//! A run over a stored stream, which it holds whole: only the votes of suspects and the certificates of their rounds are
//! verified.

ghost use Rattle.std.specs.Prelude.{◌≡◌, ◌≢◌, ◌↔◌, ◌⊎◌, false, IsTrue, Err, IfOk, IfErr, OnOk};
ghost use Rattle.std.specs.Io.KnownBytes.{Consumes, IsAtEnd, Keeps};
ghost use Rattle.simplex_audit.specs.Outcome.{WritesReport, WritesReportOfKnown, BeginsReport, reader_use, writer_use};
ghost use Rattle.simplex_stream.specs.Watched.{inner_of, has_failed, is_flushed};

use crate::audit::{Committees, audit_deferred};
use crate::basis::Audited;
use crate::run::{RunError, Summary, account, write_text};
use simplex_base::codec::Fixed;
use simplex_scheme::scheme::{Digest, Listing};
use simplex_stream::watched::Watched;
use std::alloc::Global;
use std::io::{Read, Write};

/// All that a reader gives. An interrupted read counts as failed, though what comes after it is read too; so does a read that
/// failed before this call.
fn read_whole<R: Read>(alloc: Global, reader: &mut Watched<R>) -> Result<Vec<u8>, RunError>
    ensures bytes { IfOk result (λ stream.
        Consumes (R.remaining (inner_of reader.old)) (R.remaining (inner_of reader.new))
        stream.items) }
    ensures end { OnOk result (IsAtEnd (R.remaining (inner_of reader.new))) }
    ensures failed { IsTrue (has_failed reader.new) ↔ (result ≡ Err RunError.Read) }
    ensures error { IfErr result (λ e. (e ≡ RunError.Read) ⊎ (e ≡ RunError.OutOfMemory)) }
{
    let mut stream = Vec::new(alloc);
    let ended = reader.read_to_end(&mut stream);
    if reader.failed() {
        return Err(RunError::Read);
    }
    match ended {
        Ok(_) => Ok(stream),
        Err(_) => Err(RunError::OutOfMemory),
    }
}

/// What [`run`](crate::run::run) does, by a deferred audit: audits all that a reader gives, and writes a line for each
/// evidence of the report, and then one for each split. The whole input is held, and of an honest stream nothing is verified.
/// All memory is allocated before the first write.
///
/// `Read` exactly where a read failed, also before this call; an interrupted read counts as failed, and what comes after it is
/// read first. `Write` exactly where a write or a flush failed, an interrupted one included. `OutOfMemory` where an allocation
/// failed and no read did. `TooLong` is never returned.
pub fn run_deferred<S: Listing<D>, D: Digest, R: Read, W: Write>(
    alloc: Global,
    committees: &Committees<S>,
    reader: &mut Watched<R>,
    writer: &mut Watched<W>,
) -> Result<Summary, RunError>
    requires { has_failed writer.old ≡ false }
    // The whole reader was read, and exactly the text of its report was written.
    ensures whole { IfOk result (WritesReport (⟦<S as Audited<D>>⟧.basis committees.now) D.bytes_of
        (reader_use R.remaining reader.old reader.new)
        (writer_use W.contents writer.old writer.new)) }
    ensures flushed { OnOk result (IsTrue (is_flushed writer.new)) }
    // If the reader's remaining bytes are known, they are the input.
    ensures known { IfOk result (WritesReportOfKnown
        (⟦<S as Audited<D>>⟧.basis committees.now) D.bytes_of
        (reader_use R.remaining reader.old reader.new)
        (writer_use W.contents writer.old writer.new)) }
    // Read and write errors come from the reader and the writer alone.
    ensures read_failed { IsTrue (has_failed reader.new) ↔ (result ≡ Err RunError.Read) }
    ensures write_failed { IsTrue (has_failed writer.new) ↔ (result ≡ Err RunError.Write) }
    ensures too_long { result ≢ Err RunError.TooLong }
    // After an error nothing was written, except for a prefix of the text where the writer failed.
    ensures nothing { IfErr result (λ e. e ≢ RunError.Write →
        Keeps (W.contents (inner_of writer.old)) (W.contents (inner_of writer.new))) }
    ensures beginning { result ≡ Err RunError.Write →
        BeginsReport (⟦<S as Audited<D>>⟧.basis committees.now) D.bytes_of
        (reader_use R.remaining reader.old reader.new)
        (writer_use W.contents writer.old writer.new) }
{
    let stream = read_whole(alloc, reader)?;
    let report = audit_deferred::<S, D>(alloc, committees, stream.as_slice())?;
    let (summary, text) = account(alloc, &report)?;
    write_text(writer, text.as_bytes())?;
    Ok(summary)
}
