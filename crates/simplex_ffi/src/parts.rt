//! Audits of parts of a stream, which are ranges of its bytes and are not copied.

ghost use Rattle.std.specs.Prelude.{◌≡◌, ◌≢◌, ◌⊎◌, ◌+◌, ◌<◌, ◌≤◌, ◌^◌, ◌++◌, ℕ, List, IfOk, length, string_bytes};
ghost use Rattle.simplex_audit.specs.Auditor.{Stands, fed_of};
ghost use Rattle.simplex_audit.specs.Guarantees.{IsAudit};
ghost use Rattle.simplex_audit.specs.Run.{report_text};
ghost use Rattle.simplex_scheme.specs.Committees.{Schedule};
ghost use Rattle.simplex_schemes.specs.Plain.{PlainScheme};
ghost use Rattle.simplex_schemes.specs.Vouched.{VouchedScheme};
ghost use Rattle.simplex_shards.specs.Ranges.{AreWithin, bytes_of_ranges, end_of_range, range_bytes};
ghost use Rattle.simplex_border.specs.Answer.{IsAudited};
ghost use Rattle.simplex_border.specs.Keys.{AreKeys, AreOfKeys, IsLengthOfKeys};
ghost use Rattle.simplex_border.specs.Signatures.{ForSizes, IsVouchedSize};
ghost use Rattle.simplex_border.specs.Sizes.{AreSizes, AreCommitteeSizes};

use crate::within::are_within;
use simplex_audit::audit::{Committees, Report};
use simplex_audit::auditor::Auditor;
use simplex_audit::basis::Audited;
use simplex_audit::text::text;
use simplex_base::codec::Fixed;
use simplex_base::codec::fixed_bytes::Role;
use simplex_border::answer::{ARGUMENTS, MEMORY, ReportSummary, write_report};
use simplex_border::signatures::{VouchedSize, vouched_size};
use simplex_border::{keys, sizes};
use simplex_scheme::scheme::{Digest, Listing, Sha256Digest};
use simplex_schemes::plain::Plain;
use simplex_schemes::vouched::{Role48, Role64, Role96, Vouched};
use simplex_shards::ranges::Range;
use std::alloc::{AllocError, Global};

/// The auditor that was fed a range of a stream, too.
fn feed_range<'a, S: Listing<D>, D: Digest>(
    auditor: Auditor<'a, S, D>,
    stream: &[u8],
    range: &Range,
) -> Result<Auditor<'a, S, D>, AllocError>
    requires within { end_of_range range.now ≤ length stream.now }
    requires room { fed_of auditor + range.now.length < 2 ^ 64 }
    ensures fed { IfOk result (λ next. fed_of next ≡ fed_of auditor.entry + range.now.length) }
    ensures stands { IfOk result (λ next. (committees : Schedule S) (bytes : List ℕ) →
        Stands ⟦<S as Audited<D>>⟧.basis committees auditor.entry bytes →
        Stands ⟦<S as Audited<D>>⟧.basis committees next
        (bytes ++ range_bytes stream.now range.now)) }
{
    let end = range.place + range.length;
    auditor.feed(&stream[range.place..end])
}

/// The auditor that was fed the ranges of a stream, one after another.
fn feed_ranges<'a, S: Listing<D>, D: Digest>(
    alloc: Global,
    committees: &'a Committees<S>,
    stream: &[u8],
    ranges: &[Range],
) -> Result<Auditor<'a, S, D>, AllocError>
    requires { AreWithin (length stream.now) ranges.now }
    ensures { IfOk result (λ auditor. Stands ⟦<S as Audited<D>>⟧.basis committees.now auditor
        (bytes_of_ranges stream.now ranges.now)) }
{
    let mut auditor = Auditor::new(alloc, committees);
    'each: for range in ranges {
        auditor = feed_range(auditor, stream, range)?;
    }
    Ok(auditor)
}

/// The report of the ranges of a stream and its text.
fn account_ranges<S: Listing<D>, D: Digest>(
    alloc: Global,
    committees: &Committees<S>,
    stream: &[u8],
    ranges: &[Range],
) -> Result<(Report<S, D>, String), AllocError>
    requires { AreWithin (length stream.now) ranges.now }
    ensures { IfOk result (λ (report, text).
        IsAudit (⟦<S as Audited<D>>⟧.basis committees.now)
        (bytes_of_ranges stream.now ranges.now) report ×
        (string_bytes text ≡ report_text D.bytes_of report)) }
{
    let auditor = feed_ranges::<S, D>(alloc, committees, stream, ranges)?;
    let report = auditor.report()?;
    let lines = text(alloc, report.evidence.as_slice(), report.splits.as_slice())?;
    Ok((report, lines))
}

/// Audits the bytes of some ranges of a stream, one range after another, as [`answer`](simplex_border::answer::answer) does a
/// stream. No byte is copied but those of a message that is in two ranges.
pub fn answer_ranges<S: Listing<D>, D: Digest>(
    alloc: Global,
    committees: &Committees<S>,
    stream: &[u8],
    ranges: &[Range],
    buffer: &mut [u8],
    summary: &mut ReportSummary,
) -> u32
    requires { AreWithin (length stream.now) ranges.now }
    ensures audited { result ≢ 3 → IsAudited (⟦<S as Audited<D>>⟧.basis committees.now) D.bytes_of
        (bytes_of_ranges stream.now ranges.now) buffer.old buffer.new summary.new result }
    ensures memory { result ≡ 3 → (buffer.new ≡ buffer.old) × (summary.new ≡ summary.old) }
    ensures status { result ≢ 2 }
{
    let Ok((report, text)) = account_ranges::<S, D>(alloc, committees, stream, ranges) else {
        return MEMORY;
    };
    write_report(&report, text.as_bytes(), buffer, summary)
}

/// Audits the bytes of some ranges of a stream whose signatures have `N` bytes, the last of which is the caller's verdict,
/// under the committees of these sizes. The status is that of [`answer_ranges`]; or [`ARGUMENTS`] if there are no such
/// committees, a range is not within the stream, or the ranges have 2^64 bytes or more together, and then nothing is written.
pub fn ranges_vouched<R: Role<N>, const N: usize>(
    alloc: Global,
    epochs: &[u64],
    sizes: &[u32],
    stream: &[u8],
    ranges: &[Range],
    buffer: &mut [u8],
    summary: &mut ReportSummary,
) -> u32
    ensures audited { result ≢ 2 → result ≢ 3 → (committees : Schedule VouchedScheme) ×
        AreSizes epochs.now sizes.now committees ×
        IsAudited (⟦<Vouched<R, N> as Audited<Sha256Digest>>⟧.basis committees)
        ⟦<Sha256Digest as Fixed>⟧.bytes_of (bytes_of_ranges stream.now ranges.now)
        buffer.old buffer.new summary.new result }
    ensures taken { result ≢ 2 →
        AreWithin (length stream.now) ranges.now × AreCommitteeSizes epochs.now sizes.now }
    ensures refused { result ≡ 2 →
        ¬ (AreWithin (length stream.now) ranges.now × AreCommitteeSizes epochs.now sizes.now) }
    ensures untouched { (result ≡ 2) ⊎ (result ≡ 3) →
        (buffer.new ≡ buffer.old) × (summary.new ≡ summary.old) }
{
    if !are_within(stream.len(), ranges) {
        return ARGUMENTS;
    }
    match sizes::committees::<R, N>(alloc, epochs, sizes) {
        Ok(Some(committees)) => answer_ranges::<Vouched<R, N>, Sha256Digest>(
            alloc,
            &committees,
            stream,
            ranges,
            buffer,
            summary,
        ),
        Ok(None) => ARGUMENTS,
        Err(_) => MEMORY,
    }
}

/// As [`ranges_vouched`], of a stream whose signatures have so many bytes, 48, 64 or 96, and the caller's verdict behind each.
/// The status is [`ARGUMENTS`] also if they have no such size.
pub fn ranges_of_size(
    alloc: Global,
    signature: u32,
    epochs: &[u64],
    sizes: &[u32],
    stream: &[u8],
    ranges: &[Range],
    buffer: &mut [u8],
    summary: &mut ReportSummary,
) -> u32
    ensures audited { result ≢ 2 → result ≢ 3 → (committees : Schedule VouchedScheme) ×
        AreSizes epochs.now sizes.now committees × ForSizes signature
        (IsAudited (⟦<Vouched<Role48, 49> as Audited<Sha256Digest>>⟧.basis committees)
        ⟦<Sha256Digest as Fixed>⟧.bytes_of (bytes_of_ranges stream.now ranges.now)
        buffer.old buffer.new summary.new result)
        (IsAudited (⟦<Vouched<Role64, 65> as Audited<Sha256Digest>>⟧.basis committees)
        ⟦<Sha256Digest as Fixed>⟧.bytes_of (bytes_of_ranges stream.now ranges.now)
        buffer.old buffer.new summary.new result)
        (IsAudited (⟦<Vouched<Role96, 97> as Audited<Sha256Digest>>⟧.basis committees)
        ⟦<Sha256Digest as Fixed>⟧.bytes_of (bytes_of_ranges stream.now ranges.now)
        buffer.old buffer.new summary.new result) }
    ensures taken { result ≢ 2 → IsVouchedSize signature ×
        AreWithin (length stream.now) ranges.now × AreCommitteeSizes epochs.now sizes.now }
    ensures refused { result ≡ 2 → ¬ (IsVouchedSize signature ×
        AreWithin (length stream.now) ranges.now × AreCommitteeSizes epochs.now sizes.now) }
    ensures untouched { (result ≡ 2) ⊎ (result ≡ 3) →
        (buffer.new ≡ buffer.old) × (summary.new ≡ summary.old) }
{
    match vouched_size(signature) {
        Some(VouchedSize::Of48) => {
            ranges_vouched::<Role48, 49>(alloc, epochs, sizes, stream, ranges, buffer, summary)
        }
        Some(VouchedSize::Of64) => {
            ranges_vouched::<Role64, 65>(alloc, epochs, sizes, stream, ranges, buffer, summary)
        }
        Some(VouchedSize::Of96) => {
            ranges_vouched::<Role96, 97>(alloc, epochs, sizes, stream, ranges, buffer, summary)
        }
        None => ARGUMENTS,
    }
}

/// As [`ranges_vouched`], of a stream of the plain scheme, under the committees of these keys.
pub fn ranges_plain(
    alloc: Global,
    namespace: &[u8],
    epochs: &[u64],
    sizes: &[u32],
    keys: &[u8],
    stream: &[u8],
    ranges: &[Range],
    buffer: &mut [u8],
    summary: &mut ReportSummary,
) -> u32
    ensures audited { result ≢ 2 → result ≢ 3 → (committees : Schedule PlainScheme) ×
        AreOfKeys namespace.now epochs.now sizes.now keys.now committees ×
        IsAudited (⟦<Plain as Audited<Sha256Digest>>⟧.basis committees)
        ⟦<Sha256Digest as Fixed>⟧.bytes_of (bytes_of_ranges stream.now ranges.now)
        buffer.old buffer.new summary.new result }
    ensures taken { result ≢ 2 →
        AreWithin (length stream.now) ranges.now × IsLengthOfKeys epochs.now sizes.now (length keys.now) }
    ensures refused { result ≡ 2 → ¬ (AreWithin (length stream.now) ranges.now ×
        AreKeys epochs.now sizes.now keys.now) }
    ensures untouched { (result ≡ 2) ⊎ (result ≡ 3) →
        (buffer.new ≡ buffer.old) × (summary.new ≡ summary.old) }
{
    if !are_within(stream.len(), ranges) {
        return ARGUMENTS;
    }
    match keys::committees(alloc, namespace, epochs, sizes, keys) {
        Ok(Some(committees)) => answer_ranges::<Plain, Sha256Digest>(
            alloc,
            &committees,
            stream,
            ranges,
            buffer,
            summary,
        ),
        Ok(None) => ARGUMENTS,
        Err(_) => MEMORY,
    }
}
