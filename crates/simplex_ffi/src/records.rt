//! The evidence of a stream's report as records, put into a buffer.

ghost use Rattle.std.specs.Prelude.{◌≡◌, ◌≢◌, ◌⊎◌, IfOk, length, string_bytes};
ghost use Rattle.simplex_audit.specs.Guarantees.{IsAudit};
ghost use Rattle.simplex_audit.specs.Run.{report_text};
ghost use Rattle.simplex_scheme.specs.Committees.{Schedule};
ghost use Rattle.simplex_places.specs.Records.{AreRecords};
ghost use Rattle.simplex_schemes.specs.Plain.{PlainScheme};
ghost use Rattle.simplex_schemes.specs.Vouched.{VouchedScheme};
ghost use Rattle.simplex_border.specs.Keys.{AreKeys, AreOfKeys, IsLengthOfKeys};
ghost use Rattle.simplex_border.specs.Sizes.{AreSizes, AreCommitteeSizes};
ghost use Rattle.simplex_ffi.specs.Answer.{AreRecorded};

use simplex_audit::audit::{Committees, Report};
use simplex_audit::basis::Audited;
use simplex_base::codec::Fixed;
use simplex_base::codec::fixed_bytes::Role;
use simplex_border::answer::{
    ARGUMENTS, MEMORY, ReportSummary, SHORT, account, ended, put, summarize,
};
use simplex_border::{keys, sizes};
use simplex_places::located::{Counted, Located};
use simplex_places::records::{Record, records};
use simplex_scheme::scheme::{Digest, Sha256Digest};
use simplex_schemes::plain::Plain;
use simplex_schemes::vouched::Vouched;
use std::alloc::{AllocError, Global};

/// The report of a stream, its text, and its evidence as records.
fn account_records<S: Counted<D>, D: Digest>(
    alloc: Global,
    committees: &Committees<S>,
    stream: &[u8],
) -> Result<(Report<S, D>, String, Vec<Record>), AllocError>
where
    D: Ord,
    S::Signature: Ord,
    ensures { IfOk result (λ (report, text, found).
        IsAudit (⟦<S as Audited<D>>⟧.basis committees.now) stream.now report ×
        (string_bytes text ≡ report_text D.bytes_of report) ×
        AreRecords (⟦<S as Audited<D>>⟧.basis committees.now) ⟦<S as Located<D>>⟧.carries
        ⟦<S as Located<D>>⟧.stands stream.now report found.items) }
{
    let (report, text) = account::<S, D>(alloc, committees, stream)?;
    let found = records::<S, D>(alloc, committees, stream, &report)?;
    Ok((report, text, found))
}

/// Audits a stream, and puts the evidence of the report at the start of a buffer, as records. The status is
/// [`WHOLE`](simplex_border::answer::WHOLE), [`FAULT`](simplex_border::answer::FAULT), [`MEMORY`] or [`SHORT`]. Where an
/// allocation failed nothing is written; where the buffer is too short it is as before, and the summary has the number of
/// records that is needed.
fn answer_records<S: Counted<D>, D: Digest>(
    alloc: Global,
    committees: &Committees<S>,
    stream: &[u8],
    buffer: &mut [Record],
    summary: &mut ReportSummary,
) -> u32
where
    D: Ord,
    S::Signature: Ord,
    ensures recorded { result ≢ 3 → AreRecorded (⟦<S as Audited<D>>⟧.basis committees.now)
        D.bytes_of ⟦<S as Located<D>>⟧.carries ⟦<S as Located<D>>⟧.stands stream.now
        buffer.old buffer.new summary.new result }
    ensures memory { result ≡ 3 → (buffer.new ≡ buffer.old) × (summary.new ≡ summary.old) }
    ensures status { result ≢ 2 }
{
    let Ok((report, text, found)) = account_records::<S, D>(alloc, committees, stream) else {
        return MEMORY;
    };
    *summary = summarize(&report, text.len());
    if put(&found, buffer) {
        ended(report.fault)
    } else {
        SHORT
    }
}

/// Audits a stream whose signatures have `N` bytes, the last of which is the caller's verdict, under the committees of these
/// sizes, and puts the evidence of the report at the start of a buffer, as records. The status is
/// [`WHOLE`](simplex_border::answer::WHOLE), [`FAULT`](simplex_border::answer::FAULT), [`MEMORY`] or [`SHORT`], or
/// [`ARGUMENTS`] where there are no such committees, and then nothing is written.
pub fn records_vouched<R: Role<N>, const N: usize>(
    alloc: Global,
    epochs: &[u64],
    sizes: &[u32],
    stream: &[u8],
    buffer: &mut [Record],
    summary: &mut ReportSummary,
) -> u32
    ensures recorded { result ≢ 2 → result ≢ 3 → (committees : Schedule VouchedScheme) ×
        AreSizes epochs.now sizes.now committees ×
        AreRecorded (⟦<Vouched<R, N> as Audited<Sha256Digest>>⟧.basis committees)
        ⟦<Sha256Digest as Fixed>⟧.bytes_of ⟦<Vouched<R, N> as Located<Sha256Digest>>⟧.carries
        ⟦<Vouched<R, N> as Located<Sha256Digest>>⟧.stands
        stream.now buffer.old buffer.new summary.new result }
    ensures refused { result ≡ 2 → (committees : Schedule VouchedScheme) →
        ¬ AreSizes epochs.now sizes.now committees }
    ensures memory { result ≡ 3 → AreCommitteeSizes epochs.now sizes.now }
    ensures untouched { (result ≡ 2) ⊎ (result ≡ 3) →
        (buffer.new ≡ buffer.old) × (summary.new ≡ summary.old) }
{
    match sizes::committees::<R, N>(alloc, epochs, sizes) {
        Ok(Some(committees)) => answer_records::<Vouched<R, N>, Sha256Digest>(
            alloc,
            &committees,
            stream,
            buffer,
            summary,
        ),
        Ok(None) => ARGUMENTS,
        Err(_) => MEMORY,
    }
}

/// As [`records_vouched`], of a stream of the plain scheme, under the committees of these keys.
pub fn records_plain(
    alloc: Global,
    namespace: &[u8],
    epochs: &[u64],
    sizes: &[u32],
    keys: &[u8],
    stream: &[u8],
    buffer: &mut [Record],
    summary: &mut ReportSummary,
) -> u32
    ensures recorded { result ≢ 2 → result ≢ 3 → (committees : Schedule PlainScheme) ×
        AreOfKeys namespace.now epochs.now sizes.now keys.now committees ×
        AreRecorded (⟦<Plain as Audited<Sha256Digest>>⟧.basis committees)
        ⟦<Sha256Digest as Fixed>⟧.bytes_of ⟦<Plain as Located<Sha256Digest>>⟧.carries
        ⟦<Plain as Located<Sha256Digest>>⟧.stands
        stream.now buffer.old buffer.new summary.new result }
    ensures refused { result ≡ 2 → ¬ AreKeys epochs.now sizes.now keys.now }
    ensures memory { result ≡ 3 → IsLengthOfKeys epochs.now sizes.now (length keys.now) }
    ensures untouched { (result ≡ 2) ⊎ (result ≡ 3) →
        (buffer.new ≡ buffer.old) × (summary.new ≡ summary.old) }
{
    match keys::committees(alloc, namespace, epochs, sizes, keys) {
        Ok(Some(committees)) => {
            answer_records::<Plain, Sha256Digest>(alloc, &committees, stream, buffer, summary)
        }
        Ok(None) => ARGUMENTS,
        Err(_) => MEMORY,
    }
}
