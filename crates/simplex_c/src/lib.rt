//! The auditor for callers that speak the C ABI (bindings/simplex_audit.h). Each export calls a
//! function of `simplex_ffi`, `simplex_border` or `simplex_handle`, for signatures of a size that of the
//! size, and has its contract.
//!
//! A call that audits, stores, lists, cuts, elects, writes, reads or verifies returns a status:
//!
//! - 0: success. The buffer is written, and an audit found no fault.
//! - 1, of audits, records and rows: the byte at `fault_place` starts no message. The messages before it
//!   were audited or listed, and the buffer is written. Of a message that is read and of an evidence that
//!   is verified: the bytes are none, and nothing was written.
//! - 2: the arguments are no committees (`simplex_refusal` says why); of leaders, there is no participant
//!   or a term has no view; of audits in parts, a size, a class, a row or a range is invalid. Nothing was
//!   written.
//! - 3: an allocation failed. Nothing was written.
//! - 4, of calls with a buffer: it is too short, and as before. The length that is needed is
//!   written, for audits, records and rows with the rest of the summary.
//!
//! Where the buffer is written it begins with the result, and the bytes or records behind that are
//! as before.
#![tactic(auto)]

mod messages;

ghost use Rattle.std.specs.Prelude.{◌≡◌, ◌≢◌, ◌⊎◌, ◌-◌, ◌<◌, ◌≤◌, ◌++◌, None, Some, length};
ghost use Rattle.simplex_base.specs.Terms.{term_start};
ghost use Rattle.simplex_scheme.specs.Committee.{faults_of, quorum_of};
ghost use Rattle.simplex_lead.specs.Windows.{FitsWindow, IsAdmitted, IsOutbound};
ghost use Rattle.simplex_schemes.specs.Plain.{PlainScheme};
ghost use Rattle.simplex_scheme.specs.Committees.{Schedule};
ghost use Rattle.simplex_schemes.specs.Vouched.{VouchedScheme};
ghost use Rattle.simplex_border.specs.Answer.{IsAudited};
ghost use Rattle.simplex_border.specs.Keys.{AreKeys, AreOfKeys, IsLengthOfKeys};
ghost use Rattle.simplex_border.specs.Signatures.{ForSizes, IsSignatureSize, IsVouchedSize};
ghost use Rattle.simplex_border.specs.Sizes.{AreSizes, AreCommitteeSizes};
ghost use Rattle.simplex_ffi.specs.Answer.{AreRecorded, AreStored, AreAttestationsGiven};
ghost use Rattle.simplex_ffi.specs.Leaders.{LeadsRound};
ghost use Rattle.simplex_ffi.specs.Rows.{AreClasses, AreClassesGiven, AreRangesGiven, AreRowsGiven, RowsFit};
ghost use Rattle.simplex_shards.specs.Ranges.{AreWithin, bytes_of_ranges};
ghost use Rattle.simplex_shards.specs.Cut.{mixed_class};

mod auditor;
mod refusals;

use simplex_audit::basis::Audited;
use simplex_base::codec::Fixed;
use simplex_border::answer;
use simplex_border::answer::ReportSummary;
use simplex_border::signatures::{VouchedSize, vouched_size};
use simplex_ffi::classes::{class_of, classes_of_stream, ranges_of_class};
use simplex_ffi::parts::{ranges_of_size, ranges_plain};
use simplex_ffi::plain::{answer_plain, store_plain};
use simplex_ffi::records::{records_plain, records_vouched};
use simplex_ffi::rows::{Indexed, rows_of_stream};
use simplex_ffi::suspects::suspects_vouched;
use simplex_ffi::vouched::{answer_vouched, store_vouched};
use simplex_ffi::{leaders, numbers};
use simplex_places::located::Located;
use simplex_places::records::Record;
use simplex_places::repeats::Unverified;
use simplex_scheme::scheme::{Hasher, Sha256, Sha256Digest};
use simplex_schemes::plain::Plain;
use simplex_schemes::vouched::{Role48, Role64, Role96, Vouched};
use simplex_shards::index::Row;
use simplex_shards::ranges::Range;
use std::alloc::Global;

/// The version of these calls: 2.
#[unsafe(no_mangle)]
pub extern "C" fn simplex_version() -> u32
    ensures { result ≡ 2 }
{
    2
}

/// Audits a stream whose signatures have so many bytes, 48, 64 or 96 (BLS12-381 in G1, Ed25519,
/// BLS12-381 in G2), each with the caller's verdict behind it, under the committees of these sizes. The
/// text of the report is put into `text`. Returns a status as above, 2 also if signatures have no such
/// size.
#[unsafe(no_mangle)]
pub extern "C" fn simplex_audit(
    alloc: Global,
    signature: u32,
    epochs: &[u64],
    sizes: &[u32],
    stream: &[u8],
    text: &mut [u8],
    summary: &mut ReportSummary,
) -> u32
    ensures audited { result ≢ 2 → result ≢ 3 → (committees : Schedule VouchedScheme) ×
        AreSizes epochs.now sizes.now committees × ForSizes signature
        (IsAudited (⟦<Vouched<Role48, 49> as Audited<Sha256Digest>>⟧.basis committees)
        ⟦<Sha256Digest as Fixed>⟧.bytes_of stream.now text.old text.new summary.new result)
        (IsAudited (⟦<Vouched<Role64, 65> as Audited<Sha256Digest>>⟧.basis committees)
        ⟦<Sha256Digest as Fixed>⟧.bytes_of stream.now text.old text.new summary.new result)
        (IsAudited (⟦<Vouched<Role96, 97> as Audited<Sha256Digest>>⟧.basis committees)
        ⟦<Sha256Digest as Fixed>⟧.bytes_of stream.now text.old text.new summary.new result) }
    ensures refused { result ≡ 2 →
        ¬ (IsVouchedSize signature × AreCommitteeSizes epochs.now sizes.now) }
    ensures memory { result ≡ 3 → IsVouchedSize signature × AreCommitteeSizes epochs.now sizes.now }
    ensures untouched { (result ≡ 2) ⊎ (result ≡ 3) →
        (text.new ≡ text.old) × (summary.new ≡ summary.old) }
{
    match vouched_size(signature) {
        Some(VouchedSize::Of48) => {
            answer_vouched::<Role48, 49>(alloc, epochs, sizes, stream, text, summary)
        }
        Some(VouchedSize::Of64) => {
            answer_vouched::<Role64, 65>(alloc, epochs, sizes, stream, text, summary)
        }
        Some(VouchedSize::Of96) => {
            answer_vouched::<Role96, 97>(alloc, epochs, sizes, stream, text, summary)
        }
        None => answer::ARGUMENTS,
    }
}

/// Audits a stream as `simplex_audit` does, and writes the evidence of the report as records, each with
/// its two votes as they stand in the stream. Returns a status as above.
#[unsafe(no_mangle)]
pub extern "C" fn simplex_records(
    alloc: Global,
    signature: u32,
    epochs: &[u64],
    sizes: &[u32],
    stream: &[u8],
    records: &mut [Record],
    summary: &mut ReportSummary,
) -> u32
    ensures recorded { result ≢ 2 → result ≢ 3 → (committees : Schedule VouchedScheme) ×
        AreSizes epochs.now sizes.now committees × ForSizes signature
        (AreRecorded (⟦<Vouched<Role48, 49> as Audited<Sha256Digest>>⟧.basis committees)
        ⟦<Sha256Digest as Fixed>⟧.bytes_of ⟦<Vouched<Role48, 49> as Located<Sha256Digest>>⟧.carries
        ⟦<Vouched<Role48, 49> as Located<Sha256Digest>>⟧.stands
        stream.now records.old records.new summary.new result)
        (AreRecorded (⟦<Vouched<Role64, 65> as Audited<Sha256Digest>>⟧.basis committees)
        ⟦<Sha256Digest as Fixed>⟧.bytes_of ⟦<Vouched<Role64, 65> as Located<Sha256Digest>>⟧.carries
        ⟦<Vouched<Role64, 65> as Located<Sha256Digest>>⟧.stands
        stream.now records.old records.new summary.new result)
        (AreRecorded (⟦<Vouched<Role96, 97> as Audited<Sha256Digest>>⟧.basis committees)
        ⟦<Sha256Digest as Fixed>⟧.bytes_of ⟦<Vouched<Role96, 97> as Located<Sha256Digest>>⟧.carries
        ⟦<Vouched<Role96, 97> as Located<Sha256Digest>>⟧.stands
        stream.now records.old records.new summary.new result) }
    ensures refused { result ≡ 2 →
        ¬ (IsVouchedSize signature × AreCommitteeSizes epochs.now sizes.now) }
    ensures memory { result ≡ 3 → IsVouchedSize signature × AreCommitteeSizes epochs.now sizes.now }
    ensures untouched { (result ≡ 2) ⊎ (result ≡ 3) →
        (records.new ≡ records.old) × (summary.new ≡ summary.old) }
{
    match vouched_size(signature) {
        Some(VouchedSize::Of48) => {
            records_vouched::<Role48, 49>(alloc, epochs, sizes, stream, records, summary)
        }
        Some(VouchedSize::Of64) => {
            records_vouched::<Role64, 65>(alloc, epochs, sizes, stream, records, summary)
        }
        Some(VouchedSize::Of96) => {
            records_vouched::<Role96, 97>(alloc, epochs, sizes, stream, records, summary)
        }
        None => answer::ARGUMENTS,
    }
}

/// Stores the evidence of what was stored and of a batch behind it, whose signatures have so many bytes,
/// 48, 64 or 96, and the caller's verdict, under the committees of these sizes. What is behind a fault is
/// ignored. Returns a status as above, never 1, and 2 also if signatures have no such size.
#[unsafe(no_mangle)]
pub extern "C" fn simplex_store(
    alloc: Global,
    signature: u32,
    epochs: &[u64],
    sizes: &[u32],
    stored: &[u8],
    batch: &[u8],
    evidence: &mut [u8],
    size: &mut usize,
) -> u32
    ensures stored { result ≢ 2 → result ≢ 3 → (committees : Schedule VouchedScheme) ×
        AreSizes epochs.now sizes.now committees × ForSizes signature
        (AreStored (⟦<Vouched<Role48, 49> as Audited<Sha256Digest>>⟧.basis committees)
        (stored.now ++ batch.now) evidence.old evidence.new size.new result)
        (AreStored (⟦<Vouched<Role64, 65> as Audited<Sha256Digest>>⟧.basis committees)
        (stored.now ++ batch.now) evidence.old evidence.new size.new result)
        (AreStored (⟦<Vouched<Role96, 97> as Audited<Sha256Digest>>⟧.basis committees)
        (stored.now ++ batch.now) evidence.old evidence.new size.new result) }
    ensures refused { result ≡ 2 →
        ¬ (IsVouchedSize signature × AreCommitteeSizes epochs.now sizes.now) }
    ensures memory { result ≡ 3 → IsVouchedSize signature × AreCommitteeSizes epochs.now sizes.now }
    ensures untouched { (result ≡ 2) ⊎ (result ≡ 3) →
        (evidence.new ≡ evidence.old) × (size.new ≡ size.old) }
{
    match vouched_size(signature) {
        Some(VouchedSize::Of48) => {
            store_vouched::<Role48, 49>(alloc, epochs, sizes, stored, batch, evidence, size)
        }
        Some(VouchedSize::Of64) => {
            store_vouched::<Role64, 65>(alloc, epochs, sizes, stored, batch, evidence, size)
        }
        Some(VouchedSize::Of96) => {
            store_vouched::<Role96, 97>(alloc, epochs, sizes, stored, batch, evidence, size)
        }
        None => answer::ARGUMENTS,
    }
}

/// Lists the attestations that the caller has to verify before it audits a stream whose signatures have
/// so many bytes, 48, 64 or 96, and a verdict, which may still be any byte, under the committees of these
/// sizes. Each is listed with the index of the first that is the same, the verdicts apart. What is behind
/// a fault is ignored. Returns a status as above, never 1, and 2 also if signatures
/// have no such size.
#[unsafe(no_mangle)]
pub extern "C" fn simplex_suspects(
    alloc: Global,
    signature: u32,
    epochs: &[u64],
    sizes: &[u32],
    stream: &[u8],
    records: &mut [Unverified],
    needed: &mut usize,
) -> u32
    ensures given { result ≢ 2 → result ≢ 3 → (committees : Schedule VouchedScheme) ×
        AreSizes epochs.now sizes.now committees × ForSizes signature
        (AreAttestationsGiven (⟦<Vouched<Role48, 49> as Audited<Sha256Digest>>⟧.basis committees)
        ⟦<Vouched<Role48, 49> as Located<Sha256Digest>>⟧.places 48
        stream.now records.old records.new needed.new result)
        (AreAttestationsGiven (⟦<Vouched<Role64, 65> as Audited<Sha256Digest>>⟧.basis committees)
        ⟦<Vouched<Role64, 65> as Located<Sha256Digest>>⟧.places 64
        stream.now records.old records.new needed.new result)
        (AreAttestationsGiven (⟦<Vouched<Role96, 97> as Audited<Sha256Digest>>⟧.basis committees)
        ⟦<Vouched<Role96, 97> as Located<Sha256Digest>>⟧.places 96
        stream.now records.old records.new needed.new result) }
    ensures refused { result ≡ 2 →
        ¬ (IsVouchedSize signature × AreCommitteeSizes epochs.now sizes.now) }
    ensures memory { result ≡ 3 → IsVouchedSize signature × AreCommitteeSizes epochs.now sizes.now }
    ensures untouched { (result ≡ 2) ⊎ (result ≡ 3) →
        (records.new ≡ records.old) × (needed.new ≡ needed.old) }
{
    match vouched_size(signature) {
        Some(VouchedSize::Of48) => {
            suspects_vouched::<Role48, 49>(alloc, epochs, sizes, stream, records, needed)
        }
        Some(VouchedSize::Of64) => {
            suspects_vouched::<Role64, 65>(alloc, epochs, sizes, stream, records, needed)
        }
        Some(VouchedSize::Of96) => {
            suspects_vouched::<Role96, 97>(alloc, epochs, sizes, stream, records, needed)
        }
        None => answer::ARGUMENTS,
    }
}

/// Audits a stream of the plain scheme, whose signatures are hashes, under the committees of these
/// keys: 32 bytes each, as many for each committee as its size says, the first committee's first.
/// Those of a committee stand in any order, and none twice. The text of the report is put into
/// `text`. Returns a status as above.
#[unsafe(no_mangle)]
pub extern "C" fn simplex_audit_plain(
    alloc: Global,
    name: &[u8],
    epochs: &[u64],
    sizes: &[u32],
    keys: &[u8],
    stream: &[u8],
    text: &mut [u8],
    summary: &mut ReportSummary,
) -> u32
    ensures audited { result ≢ 2 → result ≢ 3 → (committees : Schedule PlainScheme) ×
        AreOfKeys name.now epochs.now sizes.now keys.now committees ×
        IsAudited (⟦<Plain as Audited<Sha256Digest>>⟧.basis committees)
        ⟦<Sha256Digest as Fixed>⟧.bytes_of stream.now text.old text.new summary.new result }
    ensures refused { result ≡ 2 → ¬ AreKeys epochs.now sizes.now keys.now }
    ensures memory { result ≡ 3 → IsLengthOfKeys epochs.now sizes.now (length keys.now) }
    ensures untouched { (result ≡ 2) ⊎ (result ≡ 3) →
        (text.new ≡ text.old) × (summary.new ≡ summary.old) }
{
    answer_plain(alloc, name, epochs, sizes, keys, stream, text, summary)
}

/// Audits a stream of the plain scheme, and writes the evidence of the report as records, each with
/// its two votes as they stand in the stream. Returns a status as above.
#[unsafe(no_mangle)]
pub extern "C" fn simplex_records_plain(
    alloc: Global,
    name: &[u8],
    epochs: &[u64],
    sizes: &[u32],
    keys: &[u8],
    stream: &[u8],
    records: &mut [Record],
    summary: &mut ReportSummary,
) -> u32
    ensures recorded { result ≢ 2 → result ≢ 3 → (committees : Schedule PlainScheme) ×
        AreOfKeys name.now epochs.now sizes.now keys.now committees ×
        AreRecorded (⟦<Plain as Audited<Sha256Digest>>⟧.basis committees)
        ⟦<Sha256Digest as Fixed>⟧.bytes_of ⟦<Plain as Located<Sha256Digest>>⟧.carries
        ⟦<Plain as Located<Sha256Digest>>⟧.stands
        stream.now records.old records.new summary.new result }
    ensures refused { result ≡ 2 → ¬ AreKeys epochs.now sizes.now keys.now }
    ensures memory { result ≡ 3 → IsLengthOfKeys epochs.now sizes.now (length keys.now) }
    ensures untouched { (result ≡ 2) ⊎ (result ≡ 3) →
        (records.new ≡ records.old) × (summary.new ≡ summary.old) }
{
    records_plain(alloc, name, epochs, sizes, keys, stream, records, summary)
}

/// Stores the evidence of what was stored and of a batch behind it, of the plain scheme. What is
/// behind a fault is ignored. Returns a status as above, never 1.
#[unsafe(no_mangle)]
pub extern "C" fn simplex_store_plain(
    alloc: Global,
    name: &[u8],
    epochs: &[u64],
    sizes: &[u32],
    keys: &[u8],
    stored: &[u8],
    batch: &[u8],
    evidence: &mut [u8],
    size: &mut usize,
) -> u32
    ensures stored { result ≢ 2 → result ≢ 3 → (committees : Schedule PlainScheme) ×
        AreOfKeys name.now epochs.now sizes.now keys.now committees ×
        AreStored (⟦<Plain as Audited<Sha256Digest>>⟧.basis committees)
        (stored.now ++ batch.now) evidence.old evidence.new size.new result }
    ensures refused { result ≡ 2 → ¬ AreKeys epochs.now sizes.now keys.now }
    ensures memory { result ≡ 3 → IsLengthOfKeys epochs.now sizes.now (length keys.now) }
    ensures untouched { (result ≡ 2) ⊎ (result ≡ 3) →
        (evidence.new ≡ evidence.old) × (size.new ≡ size.old) }
{
    store_plain(
        alloc, name, epochs, sizes, keys, stored, batch, evidence, size,
    )
}

/// Lists the messages of a stream as rows: of which round each is, where it stands, and what it is.
/// Signatures have so many bytes: 32 under the plain scheme; or 48, 64 or 96, each with the caller's
/// verdict behind it. Certificates are read under `bound`, the number of participants of the
/// greatest committee. Nothing is verified. Returns a status as above, 2 if signatures have no such
/// size or the bound is 0.
#[unsafe(no_mangle)]
pub extern "C" fn simplex_index(
    alloc: Global,
    signature: u32,
    bound: u32,
    stream: &[u8],
    rows: &mut [Row],
    summary: &mut ReportSummary,
) -> u32
    ensures plain { signature ≡ 32 → result ≢ 2 → result ≢ 3 →
        AreRowsGiven (⟦<Plain as Indexed<Sha256Digest>>⟧.is_index bound stream.now)
        rows.old rows.new summary.new result }
    ensures vouched { signature ≢ 32 → result ≢ 2 → result ≢ 3 → ForSizes signature
        (AreRowsGiven (⟦<Vouched<Role48, 49> as Indexed<Sha256Digest>>⟧.is_index bound stream.now)
        rows.old rows.new summary.new result)
        (AreRowsGiven (⟦<Vouched<Role64, 65> as Indexed<Sha256Digest>>⟧.is_index bound stream.now)
        rows.old rows.new summary.new result)
        (AreRowsGiven (⟦<Vouched<Role96, 97> as Indexed<Sha256Digest>>⟧.is_index bound stream.now)
        rows.old rows.new summary.new result) }
    ensures taken { result ≢ 2 → IsSignatureSize signature × (1 ≤ bound) }
    ensures refused { result ≡ 2 → ¬ (IsSignatureSize signature × (1 ≤ bound)) }
    ensures untouched { (result ≡ 2) ⊎ (result ≡ 3) →
        (rows.new ≡ rows.old) × (summary.new ≡ summary.old) }
{
    rows_of_stream(alloc, signature, bound, stream, rows, summary)
}

/// The class of a round, of so many from 0 on, into which rounds are spread evenly; 0 if there are
/// no classes.
#[unsafe(no_mangle)]
pub extern "C" fn simplex_class_of(epoch: u64, view: u64, seed: u64, classes: u32) -> u32
    ensures value { 1 ≤ classes →
        result ≡ mixed_class seed classes (record { epoch = epoch; view = view }) }
    ensures below { 1 ≤ classes → result < classes }
    ensures none { classes ≡ 0 → result ≡ 0 }
{
    class_of(epoch, view, seed, classes)
}

/// Lists the ranges of the bytes of one class of rounds, of so many classes, from rows. Returns a
/// status as above, never 1, and 2 if there is no such class or a row ends at 2^64 or behind.
#[unsafe(no_mangle)]
pub extern "C" fn simplex_ranges(
    alloc: Global,
    rows: &[Row],
    seed: u64,
    classes: u32,
    which: u32,
    ranges: &mut [Range],
    needed: &mut usize,
) -> u32
    ensures given { result ≢ 2 → result ≢ 3 → AreRangesGiven (mixed_class seed classes) which
        rows.now ranges.old ranges.new needed.new result }
    ensures taken { result ≢ 2 → (which < classes) × RowsFit rows.now }
    ensures refused { result ≡ 2 → ¬ ((which < classes) × RowsFit rows.now) }
    ensures untouched { (result ≡ 2) ⊎ (result ≡ 3) →
        (ranges.new ≡ ranges.old) × (needed.new ≡ needed.old) }
{
    ranges_of_class(alloc, rows, seed, classes, which, ranges, needed)
}

/// Lists the ranges of the bytes of all classes of rounds, of as many classes as `ends` has room
/// for, in one reading of a stream. They stand in `ranges` one class after another: those of class i
/// begin where those of class i - 1 end and end at `ends[i]`. Signatures and the bound are as in
/// `simplex_index`. The summary's length is the number of ranges. Returns a status as above, 2 if
/// signatures have no such size, the bound is 0, or there are no classes or 2^32 or more; after 4
/// `ranges` and `ends` are as before.
#[unsafe(no_mangle)]
pub extern "C" fn simplex_class_ranges(
    alloc: Global,
    signature: u32,
    bound: u32,
    stream: &[u8],
    seed: u64,
    ranges: &mut [Range],
    ends: &mut [usize],
    summary: &mut ReportSummary,
) -> u32
    ensures plain { signature ≡ 32 → result ≢ 2 → result ≢ 3 → AreClassesGiven
        (⟦<Plain as Indexed<Sha256Digest>>⟧.are_class_ranges bound
        (mixed_class seed (length ends.old)) (length ends.old) stream.now)
        ranges.old ranges.new ends.old ends.new summary.new result }
    ensures vouched { signature ≢ 32 → result ≢ 2 → result ≢ 3 → ForSizes signature
        (AreClassesGiven (⟦<Vouched<Role48, 49> as Indexed<Sha256Digest>>⟧.are_class_ranges bound
        (mixed_class seed (length ends.old)) (length ends.old) stream.now)
        ranges.old ranges.new ends.old ends.new summary.new result)
        (AreClassesGiven (⟦<Vouched<Role64, 65> as Indexed<Sha256Digest>>⟧.are_class_ranges bound
        (mixed_class seed (length ends.old)) (length ends.old) stream.now)
        ranges.old ranges.new ends.old ends.new summary.new result)
        (AreClassesGiven (⟦<Vouched<Role96, 97> as Indexed<Sha256Digest>>⟧.are_class_ranges bound
        (mixed_class seed (length ends.old)) (length ends.old) stream.now)
        ranges.old ranges.new ends.old ends.new summary.new result) }
    ensures taken { result ≢ 2 →
        IsSignatureSize signature × (1 ≤ bound) × AreClasses (length ends.old) }
    ensures refused { result ≡ 2 →
        ¬ (IsSignatureSize signature × (1 ≤ bound) × AreClasses (length ends.old)) }
    ensures untouched { (result ≡ 2) ⊎ (result ≡ 3) →
        (ranges.new ≡ ranges.old) × (ends.new ≡ ends.old) × (summary.new ≡ summary.old) }
{
    classes_of_stream(alloc, signature, bound, stream, seed, ranges, ends, summary)
}

/// Audits the bytes of some ranges of a stream, one range after another, as
/// `simplex_audit` does a stream whose signatures have so many bytes: 48, 64 or 96.
/// Returns a status as above, 2 also if signatures have no such size, a range is not within the
/// stream, or the ranges have 2^64 bytes or more together.
#[unsafe(no_mangle)]
pub extern "C" fn simplex_audit_ranges(
    alloc: Global,
    signature: u32,
    epochs: &[u64],
    sizes: &[u32],
    stream: &[u8],
    ranges: &[Range],
    text: &mut [u8],
    summary: &mut ReportSummary,
) -> u32
    ensures audited { result ≢ 2 → result ≢ 3 → (committees : Schedule VouchedScheme) ×
        AreSizes epochs.now sizes.now committees × ForSizes signature
        (IsAudited (⟦<Vouched<Role48, 49> as Audited<Sha256Digest>>⟧.basis committees)
        ⟦<Sha256Digest as Fixed>⟧.bytes_of (bytes_of_ranges stream.now ranges.now)
        text.old text.new summary.new result)
        (IsAudited (⟦<Vouched<Role64, 65> as Audited<Sha256Digest>>⟧.basis committees)
        ⟦<Sha256Digest as Fixed>⟧.bytes_of (bytes_of_ranges stream.now ranges.now)
        text.old text.new summary.new result)
        (IsAudited (⟦<Vouched<Role96, 97> as Audited<Sha256Digest>>⟧.basis committees)
        ⟦<Sha256Digest as Fixed>⟧.bytes_of (bytes_of_ranges stream.now ranges.now)
        text.old text.new summary.new result) }
    ensures taken { result ≢ 2 → IsVouchedSize signature ×
        AreWithin (length stream.now) ranges.now × AreCommitteeSizes epochs.now sizes.now }
    ensures refused { result ≡ 2 → ¬ (IsVouchedSize signature ×
        AreWithin (length stream.now) ranges.now × AreCommitteeSizes epochs.now sizes.now) }
    ensures untouched { (result ≡ 2) ⊎ (result ≡ 3) →
        (text.new ≡ text.old) × (summary.new ≡ summary.old) }
{
    ranges_of_size(
        alloc, signature, epochs, sizes, stream, ranges, text, summary,
    )
}

/// Audits the bytes of some ranges of a stream of the plain scheme, one range after another, as
/// `simplex_audit_plain` does a stream. Returns a status as above, 2 also if a range is not within
/// the stream, or the ranges have 2^64 bytes or more together.
#[unsafe(no_mangle)]
pub extern "C" fn simplex_audit_ranges_plain(
    alloc: Global,
    name: &[u8],
    epochs: &[u64],
    sizes: &[u32],
    keys: &[u8],
    stream: &[u8],
    ranges: &[Range],
    text: &mut [u8],
    summary: &mut ReportSummary,
) -> u32
    ensures audited { result ≢ 2 → result ≢ 3 → (committees : Schedule PlainScheme) ×
        AreOfKeys name.now epochs.now sizes.now keys.now committees ×
        IsAudited (⟦<Plain as Audited<Sha256Digest>>⟧.basis committees)
        ⟦<Sha256Digest as Fixed>⟧.bytes_of (bytes_of_ranges stream.now ranges.now)
        text.old text.new summary.new result }
    ensures taken { result ≢ 2 →
        AreWithin (length stream.now) ranges.now × IsLengthOfKeys epochs.now sizes.now (length keys.now) }
    ensures refused { result ≡ 2 → ¬ (AreWithin (length stream.now) ranges.now ×
        AreKeys epochs.now sizes.now keys.now) }
    ensures untouched { (result ≡ 2) ⊎ (result ≡ 3) →
        (text.new ≡ text.old) × (summary.new ≡ summary.old) }
{
    ranges_plain(
        alloc, name, epochs, sizes, keys, stream, ranges, text, summary,
    )
}

/// How many of `n` participants may lie: the greatest f with 3f + 1 ≤ n, and 0 for none.
#[unsafe(no_mangle)]
pub extern "C" fn simplex_max_faults(n: u32) -> u32
    ensures { result ≡ faults_of n }
{
    numbers::max_faults(n)
}

/// How many of `n` participants are a quorum, and 0 for none.
#[unsafe(no_mangle)]
pub extern "C" fn simplex_quorum(n: u32) -> u32
    ensures { result ≡ quorum_of n }
{
    numbers::quorum(n)
}

/// Whether a node in view `current` takes votes of the view `pending`. Returns 1 for yes and 0 for
/// no; 2 where terms have no views, or the start of the next term plus the term length plus 1 is
/// above 2^64 - 1.
#[unsafe(no_mangle)]
pub extern "C" fn simplex_admits(
    term_length: u32,
    optimistic_views: u64,
    current: u64,
    pending: u64,
) -> u32
    ensures yes { result ≡ 1 → (1 ≤ term_length) × FitsWindow term_length current ×
        IsAdmitted term_length optimistic_views current pending }
    ensures no { result ≡ 0 → (1 ≤ term_length) × FitsWindow term_length current ×
        ¬ IsAdmitted term_length optimistic_views current pending }
    ensures none { result ≡ 2 → ¬ ((1 ≤ term_length) × FitsWindow term_length current) }
    ensures answers { result ≤ 2 }
{
    numbers::admits(term_length, optimistic_views, current, pending)
}

/// Whether a node in view `current` sends messages of the view `pending`. Returns 1, 0 or 2 as
/// `simplex_admits` does.
#[unsafe(no_mangle)]
pub extern "C" fn simplex_admits_outbound(
    term_length: u32,
    optimistic_views: u64,
    current: u64,
    pending: u64,
) -> u32
    ensures yes { result ≡ 1 → (1 ≤ term_length) × FitsWindow term_length current ×
        IsOutbound term_length optimistic_views current pending }
    ensures no { result ≡ 0 → (1 ≤ term_length) × FitsWindow term_length current ×
        ¬ IsOutbound term_length optimistic_views current pending }
    ensures none { result ≡ 2 → ¬ ((1 ≤ term_length) × FitsWindow term_length current) }
    ensures answers { result ≤ 2 }
{
    numbers::admits_outbound(term_length, optimistic_views, current, pending)
}

/// The earliest view from which messages of a view may be issued, written to `floor` where there is
/// one. Returns 1 where it is written; 0 where no lookahead bounds it, and 2 where terms have no
/// views, and then `floor` is as before.
#[unsafe(no_mangle)]
pub extern "C" fn simplex_issuance_floor(
    term_length: u32,
    optimistic_views: u64,
    view: u64,
    floor: &mut u64,
) -> u32
    ensures yes { result ≡ 1 → (1 ≤ term_length) × (floor.new ≡ view - optimistic_views - 1) ×
        ¬ (optimistic_views ≡ 0) × ¬ (view ≡ term_start term_length view) }
    ensures no { result ≡ 0 → (1 ≤ term_length) ×
        ((optimistic_views ≡ 0) ⊎ (view ≡ term_start term_length view)) }
    ensures none { result ≡ 2 → term_length ≡ 0 }
    ensures untouched { (result ≡ 0) ⊎ (result ≡ 2) → floor.new ≡ floor.old }
    ensures answers { result ≤ 2 }
{
    numbers::issuance_floor(term_length, optimistic_views, view, floor)
}

/// The participant who leads a view of an epoch, in the order of the numbers. The number is written
/// to `number`. Returns 0 or 2 as above; after 2 `number` is as before. It takes no memory, and
/// constant time.
#[unsafe(no_mangle)]
pub extern "C" fn simplex_leader(
    alloc: Global,
    participants: u32,
    term_length: u32,
    epoch: u64,
    view: u64,
    number: &mut u32,
) -> u32
    ensures leads { result ≡ 0 → (1 ≤ participants) × (1 ≤ term_length) ×
        LeadsRound ⟦<Sha256Digest as Ord>⟧.cmp ⟦<Sha256 as Hasher>⟧.digest_of None
        participants term_length epoch view number.new }
    ensures arguments { result ≡ 2 → (participants ≡ 0) ⊎ (term_length ≡ 0) }
    ensures memory { result ≡ 3 → (1 ≤ participants) × (1 ≤ term_length) }
    ensures infallible { result ≢ 3 }
    ensures untouched { result ≢ 0 → number.new ≡ number.old }
    ensures status { (result ≡ 0) ⊎ (result ≡ 2) ⊎ (result ≡ 3) }
{
    leaders::leader(alloc, None, participants, term_length, epoch, view, number)
}

/// The participant who leads a view of an epoch, in the order that the seed determines. The number
/// is written to `number`. Returns 0, 2 or 3 as above; after 2 and 3 `number` is as before.
#[unsafe(no_mangle)]
pub extern "C" fn simplex_leader_shuffled(
    alloc: Global,
    seed: &[u8],
    participants: u32,
    term_length: u32,
    epoch: u64,
    view: u64,
    number: &mut u32,
) -> u32
    ensures leads { result ≡ 0 → (1 ≤ participants) × (1 ≤ term_length) ×
        LeadsRound ⟦<Sha256Digest as Ord>⟧.cmp ⟦<Sha256 as Hasher>⟧.digest_of (Some seed.now)
        participants term_length epoch view number.new }
    ensures arguments { result ≡ 2 → (participants ≡ 0) ⊎ (term_length ≡ 0) }
    ensures memory { result ≡ 3 → (1 ≤ participants) × (1 ≤ term_length) }
    ensures untouched { result ≢ 0 → number.new ≡ number.old }
    ensures status { (result ≡ 0) ⊎ (result ≡ 2) ⊎ (result ≡ 3) }
{
    leaders::leader(
        alloc,
        Some(seed),
        participants,
        term_length,
        epoch,
        view,
        number,
    )
}
