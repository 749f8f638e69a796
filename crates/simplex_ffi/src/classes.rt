//! Which class a round is of, and the ranges of one class or of all, put into a buffer.

ghost use Rattle.std.specs.Prelude.{◌≡◌, ◌≢◌, ◌⊎◌, ◌<◌, ◌≤◌, ◌↔◌, IfOk, IfSome, IsTrue, None, length, map};
ghost use Rattle.std.specs.List.{flat_map};
ghost use Rattle.simplex_shards.specs.Cut.{class_under, classes_of, mixed_class};
ghost use Rattle.simplex_border.specs.Signatures.{ForSizes, IsSignatureSize};
ghost use Rattle.simplex_ffi.specs.Rows.{AreClasses, AreClassesGiven, AreRangesGiven, IsClassSummary, RowsFit, all_ranges, ends_from};

use crate::rows::Indexed;
use simplex_base::codec::fixed_bytes::Role;
use simplex_base::positions::{Epoch, Round, View};
use simplex_border::answer::{ARGUMENTS, MEMORY, ReportSummary, SHORT, WHOLE, ended, place, put};
use simplex_border::signatures::{VouchedSize, vouched_size};
use simplex_evidence::types::Activity;
use simplex_scheme::scheme::{Digest, Sha256Digest};
use simplex_schemes::plain::Plain;
use simplex_schemes::vouched::{Role48, Role64, Role96, Vouched};
use simplex_shards::classes::{ClassRanges, class_ranges};
use simplex_shards::cut::{self, Cut};
use simplex_shards::index::Row;
use simplex_shards::ranges::{Range, ranges};
use simplex_shards::skips::SkipCertificate;
use std::alloc::{AllocError, Global};
use std::num::NonZeroU32;

/// The class of a round, of so many from 0 on, under `Cut::Mixed`; 0 if there are no classes.
pub fn class_of(epoch: u64, view: u64, seed: u64, classes: u32) -> u32
    ensures value { 1 ≤ classes →
        result ≡ mixed_class seed classes (record { epoch = epoch; view = view }) }
    ensures below { 1 ≤ classes → result < classes }
    ensures none { classes ≡ 0 → result ≡ 0 }
{
    let Some(classes) = NonZeroU32::new(classes) else {
        return 0;
    };
    cut::class_of(
        Round::new(Epoch::new(epoch), View::new(view)),
        seed,
        classes,
    )
}

/// Whether each row ends below 2^64.
fn rows_fit(rows: &[Row]) -> bool
    ensures { IsTrue result ↔ RowsFit rows.now }
{
    rows.iter().all(|row| row.place <= usize::MAX - row.length)
}

/// Puts the ranges of the rows whose rounds are of the class `which`, of so many classes under `Cut::Mixed`, at the start of a
/// buffer. The status is [`WHOLE`], [`MEMORY`] or [`SHORT`]; or [`ARGUMENTS`] if `which` is no class or a row ends at 2^64 or
/// behind. After [`ARGUMENTS`] and [`MEMORY`] nothing is written. If the buffer is too short it is as before, and the number of
/// ranges that is needed is written.
pub fn ranges_of_class(
    alloc: Global,
    rows: &[Row],
    seed: u64,
    classes: u32,
    which: u32,
    buffer: &mut [Range],
    needed: &mut usize,
) -> u32
    ensures given { result ≢ 2 → result ≢ 3 → AreRangesGiven (mixed_class seed classes) which
        rows.now buffer.old buffer.new needed.new result }
    ensures taken { result ≢ 2 → (which < classes) × RowsFit rows.now }
    ensures refused { result ≡ 2 → ¬ ((which < classes) × RowsFit rows.now) }
    ensures untouched { (result ≡ 2) ⊎ (result ≡ 3) →
        (buffer.new ≡ buffer.old) × (needed.new ≡ needed.old) }
{
    if which >= classes || !rows_fit(rows) {
        return ARGUMENTS;
    }
    let Some(classes) = NonZeroU32::new(classes) else {
        return ARGUMENTS;
    };
    let cut = Cut::Mixed { seed, classes };
    let Ok(found) = ranges(alloc, rows, &cut, which) else {
        return MEMORY;
    };
    *needed = found.len();
    if put(&found, buffer) { WHOLE } else { SHORT }
}

/// The ranges of all classes, one class after another, and for each class where its ranges end there.
fn lay_out(alloc: Global, parts: &[Vec<Range>]) -> Result<(Vec<Range>, Vec<usize>), AllocError>
    ensures { IfOk result (λ (ranges, ends).
        (ranges.items ≡ flat_map (λ part. part.items) parts.now) ×
        (ends.items ≡ ends_from 0 (map (λ part. part.items) parts.now))) }
{
    let mut ranges = Vec::new(alloc);
    let mut ends = Vec::new(alloc);
    'parts: for part in parts {
        ranges.extend_from_slice(part)?;
        ends.push(ranges.len())?;
    }
    Ok((ranges, ends))
}

/// The numbers of what was found in a stream, which has so many ranges.
fn summarize_classes(found: &ClassRanges, ranges: usize) -> ReportSummary
    requires { ranges ≡ length (all_ranges found.now) }
    ensures { IsClassSummary found.now result }
{
    ReportSummary {
        read: found.read,
        evidence: 0,
        splits: 0,
        faulted: ended(found.fault) as usize,
        fault_place: place(found.fault),
        length: ranges,
    }
}

/// A cut of rounds, evenly into so many classes, if there can be so many.
fn even_cut(seed: u64, classes: usize) -> Option<Cut>
    ensures some { IfSome result (λ cut. AreClasses classes ×
        (class_under cut ≡ mixed_class seed classes) × (classes_of cut ≡ classes)) }
    ensures none { result ≡ None → ¬ AreClasses classes }
{
    if classes > u32::MAX as usize {
        return None;
    }
    let classes = NonZeroU32::new(classes as u32)?;
    Some(Cut::Mixed { seed, classes })
}

/// Puts the ranges of all classes of a stream at the start of a buffer, one class after another, and where those of each class
/// end there into `ends`. The status is [`WHOLE`], [`FAULT`](simplex_border::answer::FAULT), [`MEMORY`] or [`SHORT`]; or
/// [`ARGUMENTS`] if there are no classes or 2^32 or more. Nothing is written after [`ARGUMENTS`] and [`MEMORY`]. If the buffer
/// is too short it and `ends` are as before, and the summary has the number of ranges that is needed.
fn put_classes<S: SkipCertificate<D>, D: Digest>(
    alloc: Global,
    bound: u32,
    stream: &[u8],
    seed: u64,
    buffer: &mut [Range],
    ends: &mut [usize],
    summary: &mut ReportSummary,
) -> u32
    ensures given { result ≢ 2 → result ≢ 3 → AreClassesGiven
        (⟦<S as Indexed<D>>⟧.are_class_ranges bound (mixed_class seed (length ends.old)) (length ends.old) stream.now)
        buffer.old buffer.new ends.old ends.new summary.new result }
    ensures taken { result ≢ 2 → AreClasses (length ends.old) }
    ensures refused { result ≡ 2 → ¬ AreClasses (length ends.old) }
    ensures untouched { (result ≡ 2) ⊎ (result ≡ 3) →
        (buffer.new ≡ buffer.old) × (ends.new ≡ ends.old) × (summary.new ≡ summary.old) }
{
    let Some(cut) = even_cut(seed, ends.len()) else {
        return ARGUMENTS;
    };
    let Ok(found) = class_ranges::<Activity<S, D>>(alloc, bound, &cut, stream) else {
        return MEMORY;
    };
    let Ok((ranges, places)) = lay_out(alloc, &found.ranges) else {
        return MEMORY;
    };
    *summary = summarize_classes(&found, ranges.len());
    if !put(&ranges, buffer) {
        return SHORT;
    }
    ends.copy_from_slice(&places);
    ended(found.fault)
}

/// As [`put_classes`], of signatures of `N` bytes, the last of which is the caller's verdict.
fn put_classes_vouched<R: Role<N>, const N: usize>(
    alloc: Global,
    bound: u32,
    stream: &[u8],
    seed: u64,
    buffer: &mut [Range],
    ends: &mut [usize],
    summary: &mut ReportSummary,
) -> u32
    ensures given { result ≢ 2 → result ≢ 3 → AreClassesGiven
        (⟦<Vouched<R, N> as Indexed<Sha256Digest>>⟧.are_class_ranges bound
        (mixed_class seed (length ends.old)) (length ends.old) stream.now)
        buffer.old buffer.new ends.old ends.new summary.new result }
    ensures taken { result ≢ 2 → AreClasses (length ends.old) }
    ensures refused { result ≡ 2 → ¬ AreClasses (length ends.old) }
    ensures untouched { (result ≡ 2) ⊎ (result ≡ 3) →
        (buffer.new ≡ buffer.old) × (ends.new ≡ ends.old) × (summary.new ≡ summary.old) }
{
    put_classes::<Vouched<R, N>, Sha256Digest>(alloc, bound, stream, seed, buffer, ends, summary)
}

/// Puts the ranges of all classes of a stream's rounds at the start of a buffer, one class after another, under `Cut::Mixed`
/// into as many classes as `ends` has room for, and where the ranges of each class end there into `ends`. Signatures have so
/// many bytes: 32 under the plain scheme; or 48, 64 or 96, each with the caller's verdict behind it. Certificates are read
/// under `bound`, the number of participants of the greatest committee. The status is [`WHOLE`],
/// [`FAULT`](simplex_border::answer::FAULT), [`MEMORY`] or [`SHORT`]; or [`ARGUMENTS`] if signatures have no such size, the
/// bound is 0, or there are no classes or 2^32 or more. Nothing is written after [`ARGUMENTS`] and [`MEMORY`]. If the buffer is
/// too short it and `ends` are as before, and the summary has the number of ranges that is needed.
pub fn classes_of_stream(
    alloc: Global,
    signature: u32,
    bound: u32,
    stream: &[u8],
    seed: u64,
    buffer: &mut [Range],
    ends: &mut [usize],
    summary: &mut ReportSummary,
) -> u32
    ensures plain { signature ≡ 32 → result ≢ 2 → result ≢ 3 → AreClassesGiven
        (⟦<Plain as Indexed<Sha256Digest>>⟧.are_class_ranges bound (mixed_class seed (length ends.old)) (length ends.old)
        stream.now) buffer.old buffer.new ends.old ends.new summary.new result }
    ensures vouched { signature ≢ 32 → result ≢ 2 → result ≢ 3 → ForSizes signature
        (AreClassesGiven (⟦<Vouched<Role48, 49> as Indexed<Sha256Digest>>⟧.are_class_ranges bound
        (mixed_class seed (length ends.old)) (length ends.old) stream.now)
        buffer.old buffer.new ends.old ends.new summary.new result)
        (AreClassesGiven (⟦<Vouched<Role64, 65> as Indexed<Sha256Digest>>⟧.are_class_ranges bound
        (mixed_class seed (length ends.old)) (length ends.old) stream.now)
        buffer.old buffer.new ends.old ends.new summary.new result)
        (AreClassesGiven (⟦<Vouched<Role96, 97> as Indexed<Sha256Digest>>⟧.are_class_ranges bound
        (mixed_class seed (length ends.old)) (length ends.old) stream.now)
        buffer.old buffer.new ends.old ends.new summary.new result) }
    ensures taken { result ≢ 2 → IsSignatureSize signature × (1 ≤ bound) × AreClasses (length ends.old) }
    ensures refused { result ≡ 2 → ¬ (IsSignatureSize signature × (1 ≤ bound) × AreClasses (length ends.old)) }
    ensures untouched { (result ≡ 2) ⊎ (result ≡ 3) →
        (buffer.new ≡ buffer.old) × (ends.new ≡ ends.old) × (summary.new ≡ summary.old) }
{
    if bound == 0 {
        return ARGUMENTS;
    }
    if signature == 32 {
        return put_classes::<Plain, Sha256Digest>(
            alloc, bound, stream, seed, buffer, ends, summary,
        );
    }
    match vouched_size(signature) {
        Some(VouchedSize::Of48) => {
            put_classes_vouched::<Role48, 49>(alloc, bound, stream, seed, buffer, ends, summary)
        }
        Some(VouchedSize::Of64) => {
            put_classes_vouched::<Role64, 65>(alloc, bound, stream, seed, buffer, ends, summary)
        }
        Some(VouchedSize::Of96) => {
            put_classes_vouched::<Role96, 97>(alloc, bound, stream, seed, buffer, ends, summary)
        }
        None => ARGUMENTS,
    }
}
