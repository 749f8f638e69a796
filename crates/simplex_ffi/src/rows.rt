//! The rows of a stream's messages, put into a buffer.

ghost use Rattle.std.specs.Prelude.{◌≡◌, ◌≢◌, ◌⊎◌, ◌≤◌, ℕ, List};
ghost use Rattle.simplex_base.specs.Format.{format_under};
ghost use Rattle.simplex_base.specs.Positions as positions;
ghost use Rattle.simplex_shards.specs.Classes.{AreClassRanges};
ghost use Rattle.simplex_shards.specs.Index.{IsIndex};
ghost use Rattle.simplex_shards.specs.declared.classes.ClassRanges as found;
ghost use Rattle.simplex_shards.specs.declared.index.Table as tables;
ghost use Rattle.simplex_border.specs.Signatures.{ForSizes, IsSignatureSize};
ghost use Rattle.simplex_ffi.specs.Rows.{AreRowsGiven, IsTableSummary};

use simplex_base::codec::Read;
use simplex_base::codec::fixed_bytes::Role;
use simplex_base::positions::Roundable;
use simplex_border::answer::{ARGUMENTS, MEMORY, ReportSummary, SHORT, ended, place, put};
use simplex_border::signatures::{VouchedSize, vouched_size};
use simplex_evidence::types::Activity;
use simplex_scheme::scheme::{Digest, Listing, Sha256Digest};
use simplex_schemes::plain::Plain;
use simplex_schemes::vouched::{Role48, Role64, Role96, Vouched};
use simplex_shards::index::{Row, Table, Tabular, index};
use std::alloc::Global;

/// A scheme whose messages have rows, for contracts alone. Every scheme that lists attestations is one; there is nothing to
/// implement or to call.
pub trait Indexed<D: Digest>: Listing<D> {
    /// Whether a table is that of a stream, if certificates are read under a bound.
    ghost is_index: { ℕ → List ℕ → tables.Table → Type 0 };

    /// Whether these are a stream's ranges of so many classes of rounds, if certificates are read under a bound.
    ghost are_class_ranges: { ℕ → (positions.Round → ℕ) → ℕ → List ℕ → found.ClassRanges → Type 0 };
}

impl<S: Listing<D>, D: Digest> Indexed<D> for S {
    ghost is_index = { λ bound. IsIndex (format_under ⟦<Activity<S, D> as Read>⟧ bound)
        ⟦<Activity<S, D> as Roundable>⟧.round_of ⟦<Activity<S, D> as Tabular>⟧.row_of };

    ghost are_class_ranges = { λ bound. AreClassRanges (format_under ⟦<Activity<S, D> as Read>⟧ bound)
        ⟦<Activity<S, D> as Roundable>⟧.round_of ⟦<Activity<S, D> as Tabular>⟧.row_of };
}

/// The numbers of a table.
fn summarize_table(table: &Table) -> ReportSummary
    ensures { IsTableSummary table.now result }
{
    ReportSummary {
        read: table.rows.len(),
        evidence: 0,
        splits: 0,
        faulted: ended(table.fault) as usize,
        fault_place: place(table.fault),
        length: 0,
    }
}

/// Puts a row for each message of a stream at the start of a buffer. The status is [`WHOLE`](simplex_border::answer::WHOLE),
/// [`FAULT`](simplex_border::answer::FAULT), [`MEMORY`] or [`SHORT`]. If an allocation failed nothing is written; if the buffer
/// is too short it is as before, and the summary has the number of rows that is needed.
fn put_rows<S: Listing<D>, D: Digest>(
    alloc: Global,
    bound: u32,
    stream: &[u8],
    buffer: &mut [Row],
    summary: &mut ReportSummary,
) -> u32
    ensures indexed { result ≢ 3 → AreRowsGiven (⟦<S as Indexed<D>>⟧.is_index bound stream.now)
        buffer.old buffer.new summary.new result }
    ensures memory { result ≡ 3 → (buffer.new ≡ buffer.old) × (summary.new ≡ summary.old) }
    ensures status { result ≢ 2 }
{
    let Ok(table) = index::<Activity<S, D>>(alloc, bound, stream) else {
        return MEMORY;
    };
    *summary = summarize_table(&table);
    if put(&table.rows, buffer) {
        ended(table.fault)
    } else {
        SHORT
    }
}

/// As [`put_rows`], of signatures of `N` bytes, the last of which is the caller's verdict.
fn put_rows_vouched<R: Role<N>, const N: usize>(
    alloc: Global,
    bound: u32,
    stream: &[u8],
    buffer: &mut [Row],
    summary: &mut ReportSummary,
) -> u32
    ensures indexed { result ≢ 3 →
        AreRowsGiven (⟦<Vouched<R, N> as Indexed<Sha256Digest>>⟧.is_index bound stream.now)
        buffer.old buffer.new summary.new result }
    ensures memory { result ≡ 3 → (buffer.new ≡ buffer.old) × (summary.new ≡ summary.old) }
    ensures status { result ≢ 2 }
{
    put_rows::<Vouched<R, N>, Sha256Digest>(alloc, bound, stream, buffer, summary)
}

/// Puts a row for each message of a stream at the start of a buffer, if signatures have so many bytes: 32 under the plain
/// scheme; or 48, 64 or 96, each with the caller's verdict behind it. Certificates are read under `bound`, the number of
/// participants of the greatest committee. The status is [`WHOLE`](simplex_border::answer::WHOLE),
/// [`FAULT`](simplex_border::answer::FAULT), [`MEMORY`] or [`SHORT`]; or [`ARGUMENTS`] if signatures have no such size or the
/// bound is 0. Nothing is written after [`ARGUMENTS`] and [`MEMORY`]. If the buffer is too short it is as before, and the
/// summary has the number of rows that is needed.
pub fn rows_of_stream(
    alloc: Global,
    signature: u32,
    bound: u32,
    stream: &[u8],
    buffer: &mut [Row],
    summary: &mut ReportSummary,
) -> u32
    ensures plain { signature ≡ 32 → result ≢ 2 → result ≢ 3 →
        AreRowsGiven (⟦<Plain as Indexed<Sha256Digest>>⟧.is_index bound stream.now)
        buffer.old buffer.new summary.new result }
    ensures vouched { signature ≢ 32 → result ≢ 2 → result ≢ 3 → ForSizes signature
        (AreRowsGiven (⟦<Vouched<Role48, 49> as Indexed<Sha256Digest>>⟧.is_index bound stream.now)
        buffer.old buffer.new summary.new result)
        (AreRowsGiven (⟦<Vouched<Role64, 65> as Indexed<Sha256Digest>>⟧.is_index bound stream.now)
        buffer.old buffer.new summary.new result)
        (AreRowsGiven (⟦<Vouched<Role96, 97> as Indexed<Sha256Digest>>⟧.is_index bound stream.now)
        buffer.old buffer.new summary.new result) }
    ensures taken { result ≢ 2 → IsSignatureSize signature × (1 ≤ bound) }
    ensures refused { result ≡ 2 → ¬ (IsSignatureSize signature × (1 ≤ bound)) }
    ensures untouched { (result ≡ 2) ⊎ (result ≡ 3) →
        (buffer.new ≡ buffer.old) × (summary.new ≡ summary.old) }
{
    if bound == 0 {
        return ARGUMENTS;
    }
    if signature == 32 {
        return put_rows::<Plain, Sha256Digest>(alloc, bound, stream, buffer, summary);
    }
    match vouched_size(signature) {
        Some(VouchedSize::Of48) => {
            put_rows_vouched::<Role48, 49>(alloc, bound, stream, buffer, summary)
        }
        Some(VouchedSize::Of64) => {
            put_rows_vouched::<Role64, 65>(alloc, bound, stream, buffer, summary)
        }
        Some(VouchedSize::Of96) => {
            put_rows_vouched::<Role96, 97>(alloc, bound, stream, buffer, summary)
        }
        None => ARGUMENTS,
    }
}
