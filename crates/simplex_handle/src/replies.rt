//! What a call does to an auditor of any scheme, and puts into a caller's buffer.

ghost use Rattle.std.specs.Prelude.{◌≡◌, ◌≢◌, ◌⊎◌, ◌++◌, ℕ, true, List, IfOk, length, string_bytes};
ghost use Rattle.std.specs.Int.{from_bool};
ghost use Rattle.simplex_base.specs.Positions as positions;
ghost use Rattle.simplex_scheme.specs.Committees.{Schedule};
ghost use Rattle.simplex_audit.specs.Basis.{basis_from};
ghost use Rattle.simplex_audit.specs.Report.{IsReport};
ghost use Rattle.simplex_audit.specs.Run.{report_text};
ghost use Rattle.simplex_border.specs.Answer.{IsPut};
ghost use Rattle.simplex_tracker.specs.Live.{CanStandFor, Follows, IsShort, evidence_waiting, splits_waiting};
ghost use Rattle.simplex_tracker.specs.Tracking.{EndsWhole};
ghost use Rattle.simplex_handle.specs.Replies.{Counts, Defers, Feeds, IsPieceGiven, Prunes, Reports, Saves, Stays, Tells, news_text};

use simplex_audit::audit::Report;
use simplex_audit::basis::Audited;
use simplex_audit::text::text;
use simplex_base::positions::Round;
use simplex_border::answer::{
    ARGUMENTS, FAULT, MEMORY, ReportSummary, SHORT, WHOLE, put, write_report,
};
use simplex_places::located::{Counted, Located};
use simplex_places::pieces::{Piece, unverified_in};
use simplex_places::repeats::Unverified;
use simplex_scheme::scheme::{Digest, Listing};
use simplex_tracker::live::{Fed, LiveAuditor};
use std::alloc::{AllocError, Global};

/// The stream would have 2^64 bytes.
pub const LONG: u32 = 5;

/// Feeds a piece. The status is [`WHOLE`]; [`FAULT`] if nothing that follows can be read; [`LONG`] or [`MEMORY`].
pub fn feed<S: Listing<D> + Drop, D: Digest>(
    alloc: Global,
    live: &mut LiveAuditor<S, D>,
    piece: &[u8],
) -> u32
    ensures feeds { (floor : positions.Round) (committees : Schedule S) (stream : List ℕ) →
        Follows floor ⟦<S as Audited<D>>⟧.basis committees stream live.old →
        Feeds floor ⟦<S as Audited<D>>⟧.basis committees stream piece.now result live.old live.new }
    ensures status { (result ≡ 0) ⊎ (result ≡ 1) ⊎ (result ≡ 3) ⊎ (result ≡ 5) }
{
    match live.feed(alloc, piece) {
        Fed::Taken => WHOLE,
        Fed::Over => FAULT,
        Fed::Long => LONG,
        Fed::OutOfMemory => MEMORY,
    }
}

/// Gives up all rounds below a floor.
pub fn prune<S: Listing<D> + Drop, D: Digest>(live: &mut LiveAuditor<S, D>, lowest: Round)
    ensures { (floor : positions.Round) (committees : Schedule S) (stream : List ℕ) →
        Follows floor ⟦<S as Audited<D>>⟧.basis committees stream live.old →
        Prunes floor ⟦<S as Audited<D>>⟧.basis committees stream lowest live.old live.new }
{
    live.prune(lowest);
}

/// The report of what an auditor was fed, and its text.
fn account<S: Listing<D> + Drop, D: Digest>(
    alloc: Global,
    live: &mut LiveAuditor<S, D>,
) -> Result<(Report<S, D>, String), AllocError>
    ensures stays { (floor : positions.Round) (committees : Schedule S) (stream : List ℕ) →
        Follows floor ⟦<S as Audited<D>>⟧.basis committees stream live.old →
        Stays floor ⟦<S as Audited<D>>⟧.basis committees stream live.old live.new }
    ensures report { IfOk result (λ (report, text).
        (floor : positions.Round) (committees : Schedule S) (stream : List ℕ) →
        Follows floor ⟦<S as Audited<D>>⟧.basis committees stream live.old →
        IsReport (basis_from floor (⟦<S as Audited<D>>⟧.basis committees)) stream report) }
    ensures text { IfOk result (λ (report, text). string_bytes text ≡ report_text D.bytes_of report) }
{
    let report = live.report(alloc)?;
    let lines = text(alloc, report.evidence.as_slice(), report.splits.as_slice())?;
    Ok((report, lines))
}

/// Puts the text of the report into a buffer. The status is that of an audit.
pub fn report<S: Listing<D> + Drop, D: Digest>(
    alloc: Global,
    live: &mut LiveAuditor<S, D>,
    buffer: &mut [u8],
    summary: &mut ReportSummary,
) -> u32
    ensures reports { (floor : positions.Round) (committees : Schedule S) (stream : List ℕ) →
        Follows floor ⟦<S as Audited<D>>⟧.basis committees stream live.old →
        Reports floor ⟦<S as Audited<D>>⟧.basis committees stream D.bytes_of
        buffer.old buffer.new summary.new result live.old live.new }
    ensures memory { result ≡ 3 → (buffer.new ≡ buffer.old) × (summary.new ≡ summary.old) }
    ensures status { (result ≡ 0) ⊎ (result ≡ 1) ⊎ (result ≡ 3) ⊎ (result ≡ 4) }
{
    let Ok((report, text)) = account::<S, D>(alloc, live) else {
        return MEMORY;
    };
    write_report(&report, text.as_bytes(), buffer, summary)
}

/// Counts the recorded votes. The status is [`WHOLE`], or [`MEMORY`], and then nothing is written.
pub fn votes<S: Listing<D> + Drop, D: Digest>(
    alloc: Global,
    live: &mut LiveAuditor<S, D>,
    count: &mut usize,
) -> u32
    ensures counts { (floor : positions.Round) (committees : Schedule S) (stream : List ℕ) →
        Follows floor ⟦<S as Audited<D>>⟧.basis committees stream live.old →
        Counts floor ⟦<S as Audited<D>>⟧.basis committees stream count.new result live.old live.new }
    ensures memory { result ≡ 3 → count.new ≡ count.old }
    ensures status { (result ≡ 0) ⊎ (result ≡ 3) }
{
    match live.votes(alloc) {
        Ok(votes) => {
            *count = votes;
            WHOLE
        }
        Err(_) => MEMORY,
    }
}

/// Puts bytes at the start of a buffer, and writes how many they are. The status is [`WHOLE`] or [`SHORT`].
fn put_bytes(bytes: &[u8], buffer: &mut [u8], size: &mut usize) -> u32
    ensures put { IsPut bytes.now buffer.old buffer.new result 0 }
    ensures size { size.new ≡ length bytes.now }
    ensures status { (result ≡ 0) ⊎ (result ≡ 4) }
{
    *size = bytes.len();
    if put(bytes, buffer) { WHOLE } else { SHORT }
}

/// Shortens what is held, and puts it into a buffer. The status is [`WHOLE`], [`MEMORY`] or [`SHORT`].
pub fn save<S: Listing<D> + Drop, D: Digest>(
    alloc: Global,
    live: &mut LiveAuditor<S, D>,
    buffer: &mut [u8],
    size: &mut usize,
) -> u32
    ensures saves { (floor : positions.Round) (committees : Schedule S) (stream : List ℕ) →
        Follows floor ⟦<S as Audited<D>>⟧.basis committees stream live.old →
        Saves floor ⟦<S as Audited<D>>⟧.basis committees stream
        buffer.old buffer.new size.new result live.old live.new }
    ensures memory { result ≡ 3 → (buffer.new ≡ buffer.old) × (size.new ≡ size.old) }
    ensures status { (result ≡ 0) ⊎ (result ≡ 3) ⊎ (result ≡ 4) }
{
    match live.condense(alloc) {
        Ok(()) => put_bytes(live.held(), buffer, size),
        Err(_) => MEMORY,
    }
}

/// The lines of what waits to be handed over.
fn news_lines<S: Listing<D> + Drop, D: Digest>(
    alloc: Global,
    live: &LiveAuditor<S, D>,
) -> Result<String, AllocError>
    ensures { IfOk result (λ text. string_bytes text ≡
        news_text D.bytes_of (evidence_waiting live.now) (splits_waiting live.now)) }
{
    text(
        alloc,
        live.news.evidence.as_slice(),
        live.news.splits.as_slice(),
    )
}

/// Puts what waits to be handed over into a buffer as lines; then it waits no more. The status is [`WHOLE`], [`MEMORY`] or
/// [`SHORT`]; with the latter two it waits.
pub fn tell<S: Listing<D> + Drop, D: Digest>(
    alloc: Global,
    live: &mut LiveAuditor<S, D>,
    buffer: &mut [u8],
    size: &mut usize,
) -> u32
    ensures tells { (floor : positions.Round) (committees : Schedule S) (stream : List ℕ) →
        Follows floor ⟦<S as Audited<D>>⟧.basis committees stream live.old →
        Tells floor ⟦<S as Audited<D>>⟧.basis committees stream D.bytes_of
        buffer.old buffer.new size.new result live.old live.new }
    ensures memory { result ≡ 3 → (buffer.new ≡ buffer.old) × (size.new ≡ size.old) }
    ensures status { (result ≡ 0) ⊎ (result ≡ 3) ⊎ (result ≡ 4) }
{
    let Ok(lines) = news_lines(alloc, live) else {
        return MEMORY;
    };
    if put_bytes(lines.as_bytes(), buffer, size) != WHOLE {
        return SHORT;
    }
    live.hand_over(alloc);
    WHOLE
}

/// Puts what has to be verified of a piece at the start of a buffer, and writes how many records that are, and how many bytes
/// the whole messages of the piece have. The status is [`WHOLE`]; [`FAULT`] if no message follows them; or [`SHORT`].
fn put_piece(
    piece: &Piece,
    records: &mut [Unverified],
    needed: &mut usize,
    whole: &mut usize,
) -> u32
    ensures put { IsPut piece.now.unverified.items records.old records.new result
        (from_bool piece.now.over) }
    ensures needed { needed.new ≡ length piece.now.unverified.items }
    ensures whole { whole.new ≡ piece.now.whole }
    ensures status { (result ≡ 0) ⊎ (result ≡ 1) ⊎ (result ≡ 4) }
{
    *needed = piece.unverified.len();
    *whole = piece.whole;
    if put(&piece.unverified, records) {
        u32::from(piece.over)
    } else {
        SHORT
    }
}

/// Puts what has to be verified of a piece at the start of a buffer, if it begins with a message. The status is that of
/// [`put_piece`], or [`MEMORY`], and then nothing is written.
fn list_piece<S: Counted<D> + Drop, D: Digest>(
    alloc: Global,
    live: &LiveAuditor<S, D>,
    size: usize,
    bytes: &[u8],
    records: &mut [Unverified],
    needed: &mut usize,
    whole: &mut usize,
) -> u32
    ensures given { result ≢ 3 → (floor : positions.Round) (committees : Schedule S) (stream : List ℕ) →
        Follows floor ⟦<S as Audited<D>>⟧.basis committees stream live.now →
        EndsWhole (⟦<S as Audited<D>>⟧.basis committees) stream true →
        IsPieceGiven floor (⟦<S as Audited<D>>⟧.basis committees) ⟦<S as Located<D>>⟧.places size
        stream bytes.now records.old records.new needed.new whole.new result }
    ensures memory { result ≡ 3 → (records.new ≡ records.old) × (needed.new ≡ needed.old) ×
        (whole.new ≡ whole.old) }
    ensures status { (result ≡ 0) ⊎ (result ≡ 1) ⊎ (result ≡ 3) ⊎ (result ≡ 4) }
{
    let committees = live.committees();
    let floor = live.floor();
    let Ok(piece) = unverified_in::<S, D>(alloc, committees, floor, size, bytes) else {
        return MEMORY;
    };
    put_piece(&piece, records, needed, whole)
}

/// Puts what has to be verified of a piece, before it is fed, at the start of a buffer: signatures have `size` bytes before the
/// verdict, and the piece follows what was fed. Nothing is fed. The status is that of [`put_piece`]; [`ARGUMENTS`] if what was
/// fed ends within a message, or [`MEMORY`], and then nothing is written.
pub fn unverified<S: Counted<D> + Drop, D: Digest>(
    alloc: Global,
    live: &mut LiveAuditor<S, D>,
    size: usize,
    bytes: &[u8],
    records: &mut [Unverified],
    needed: &mut usize,
    whole: &mut usize,
) -> u32
    requires { size ≢ 0 }
    ensures defers { (floor : positions.Round) (committees : Schedule S) (stream : List ℕ) →
        Follows floor ⟦<S as Audited<D>>⟧.basis committees stream live.old →
        Defers floor ⟦<S as Audited<D>>⟧.basis committees stream ⟦<S as Located<D>>⟧.places size
        bytes.now records.old records.new needed.new whole.new result live.old live.new }
    ensures untouched { (result ≡ 2) ⊎ (result ≡ 3) → (records.new ≡ records.old) ×
        (needed.new ≡ needed.old) × (whole.new ≡ whole.old) }
    ensures status { (result ≡ 0) ⊎ (result ≡ 1) ⊎ (result ≡ 2) ⊎ (result ≡ 3) ⊎ (result ≡ 4) }
{
    let Ok(begins) = live.is_whole(alloc) else {
        return MEMORY;
    };
    if begins {
        list_piece(alloc, live, size, bytes, records, needed, whole)
    } else {
        ARGUMENTS
    }
}
