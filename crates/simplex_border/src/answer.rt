//! The audit of a whole stream, whose report is put into a buffer.

ghost use Rattle.std.specs.Prelude.{◌≡◌, ◌≢◌, ◌<◌, ◌≤◌, ◌++◌, IsTrue, IfOk, false, drop, length, string_bytes};
ghost use Rattle.simplex_audit.specs.Guarantees.{IsAudit};
ghost use Rattle.simplex_audit.specs.Run.{report_text};
ghost use Rattle.simplex_border.specs.Answer.{IsAudited, IsPut, IsSummary, ended_of, place_of_fault};

use simplex_audit::audit::{Committees, Fault, Report, audit};
use simplex_audit::basis::Audited;
use simplex_audit::text::text;
use simplex_base::codec::Fixed;
use simplex_scheme::scheme::{Digest, Listing, SchemeTypes};
use std::alloc::{AllocError, Global};

/// The call succeeded, and the buffer is written. An audit has read the whole stream as messages.
pub const WHOLE: u32 = 0;

/// The stream has a fault, a byte that starts no message. The messages before it were audited, and
/// the buffer is written.
pub const FAULT: u32 = 1;

/// The arguments are no committees. Nothing is written.
pub const ARGUMENTS: u32 = 2;

/// An allocation failed. Nothing is written.
pub const MEMORY: u32 = 3;

/// The buffer is too short and as before. The length that is needed is written.
pub const SHORT: u32 = 4;

/// The numbers of a report.
#[repr(C)]
#[derive(Clone, Copy, Debug, PartialEq, Eq)]
pub struct ReportSummary {
    /// The number of messages read.
    pub read: usize,
    /// The number of lines of evidence.
    pub evidence: usize,
    /// The number of lines of splits.
    pub splits: usize,
    /// 1 where the stream has a fault, else 0.
    pub faulted: usize,
    /// The 0-based offset of the fault, the first byte that starts no message, or 0.
    pub fault_place: usize,
    /// The number of bytes of the text.
    pub length: usize,
}

/// The status of a stream that was read whole, or that has a fault.
pub fn ended(fault: Option<Fault>) -> u32
    ensures { result ≡ ended_of fault }
{
    match fault {
        None => WHOLE,
        Some(_) => FAULT,
    }
}

/// The 0-based offset of the fault, or 0 if there is none.
pub fn place(fault: Option<Fault>) -> usize
    ensures { result ≡ place_of_fault fault }
{
    match fault {
        None => 0,
        Some(fault) => fault.place,
    }
}

/// Puts a text, or other items, at the start of a buffer, if there is room.
pub fn put<T: Copy>(text: &[T], buffer: &mut [T]) -> bool
    ensures fits { IsTrue result → length text.now ≤ length buffer.old }
    ensures short { result ≡ false → length buffer.old < length text.now }
    ensures there { IsTrue result → buffer.new ≡ text.now ++ drop (length text.now) buffer.old }
    ensures kept { result ≡ false → buffer.new ≡ buffer.old }
{
    if text.len() > buffer.len() {
        return false;
    }
    let (front, _) = buffer.split_at_mut(text.len());
    front.copy_from_slice(text);
    true
}

/// The numbers of a report whose text has this many bytes.
pub fn summarize<S: SchemeTypes, D: Digest>(report: &Report<S, D>, size: usize) -> ReportSummary
    requires { size ≡ length (report_text D.bytes_of report.now) }
    ensures { IsSummary D.bytes_of report.now result }
{
    ReportSummary {
        read: report.read,
        evidence: report.evidence.len(),
        splits: report.splits.len(),
        faulted: ended(report.fault) as usize,
        fault_place: place(report.fault),
        length: size,
    }
}

/// The report of a stream and its text.
pub fn account<S: Listing<D>, D: Digest>(
    alloc: Global,
    committees: &Committees<S>,
    stream: &[u8],
) -> Result<(Report<S, D>, String), AllocError>
    ensures { IfOk result (λ (report, text).
        IsAudit (⟦<S as Audited<D>>⟧.basis committees.now) stream.now report ×
        (string_bytes text ≡ report_text D.bytes_of report)) }
{
    let report = audit::<S, D>(alloc, committees, stream)?;
    let lines = text(alloc, report.evidence.as_slice(), report.splits.as_slice())?;
    Ok((report, lines))
}

/// Writes the summary of a report, and puts its text at the start of a buffer. The status is [`WHOLE`], [`FAULT`] or [`SHORT`].
pub fn write_report<S: SchemeTypes, D: Digest>(
    report: &Report<S, D>,
    text: &[u8],
    buffer: &mut [u8],
    summary: &mut ReportSummary,
) -> u32
    requires { text.now ≡ report_text D.bytes_of report.now }
    ensures summary { IsSummary D.bytes_of report.now summary.new }
    ensures text { IsPut (report_text D.bytes_of report.now) buffer.old buffer.new result
        (ended_of report.now.fault) }
    ensures status { (result ≢ 2) × (result ≢ 3) }
{
    *summary = summarize(report, text.len());
    if put(text, buffer) {
        ended(report.fault)
    } else {
        SHORT
    }
}

/// Audits a stream, and puts the text of the report at the start of a buffer. The status is
/// [`WHOLE`], [`FAULT`], [`MEMORY`] or [`SHORT`]. Where an allocation failed nothing is written;
/// where the buffer is too short it is as before, and the summary has the length that is needed.
pub fn answer<S: Listing<D>, D: Digest>(
    alloc: Global,
    committees: &Committees<S>,
    stream: &[u8],
    buffer: &mut [u8],
    summary: &mut ReportSummary,
) -> u32
    ensures audited { result ≢ 3 →
        IsAudited (⟦<S as Audited<D>>⟧.basis committees.now) D.bytes_of stream.now
        buffer.old buffer.new summary.new result }
    ensures memory { result ≡ 3 → (buffer.new ≡ buffer.old) × (summary.new ≡ summary.old) }
    ensures status { result ≢ 2 }
{
    let Ok((report, text)) = account::<S, D>(alloc, committees, stream) else {
        return MEMORY;
    };
    write_report(&report, text.as_bytes(), buffer, summary)
}
