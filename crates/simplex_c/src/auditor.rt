//! An auditor that the library owns and a caller feeds a stream as it comes.
//!
//! A caller holds a handle, a struct with one pointer that is null at first. The pointer owns the
//! auditor, so a handle is changed by these calls alone, is never copied, and is freed once. One call
//! at a time uses a handle. Each call but the two that make an auditor returns 2 if the handle owns
//! none, and then changes nothing. A failed allocation loses nothing that was fed.
//!
//! What a caller keeps on disk is what `simplex_auditor_held` gives. An auditor that is made with it
//! goes on as the one that held it, with two exceptions. All evidence and splits in it are news
//! again. Nothing is pruned, so prune it to the floor that the other one had.

ghost use Rattle.std.specs.Prelude.{◌≡◌, ◌≢◌, ◌⊎◌, ℕ, List, None, length};
ghost use Rattle.simplex_base.specs.Positions as positions;
ghost use Rattle.simplex_scheme.specs.Committees.{Schedule};
ghost use Rattle.simplex_schemes.specs.Plain.{PlainScheme};
ghost use Rattle.simplex_schemes.specs.Vouched.{VouchedScheme};
ghost use Rattle.simplex_border.specs.Keys.{AreKeys, AreOfKeys, IsLengthOfKeys};
ghost use Rattle.simplex_border.specs.Signatures.{IsVouchedSize};
ghost use Rattle.simplex_border.specs.Sizes.{AreCommitteeSizes, AreSizes};
ghost use Rattle.simplex_handle.specs.Owned.{InHandle};
ghost use Rattle.simplex_handle.specs.Roster.{IsOfSize, OfKeys, Roster};
ghost use Rattle.simplex_handle.specs.Standing.{Beginning, Counting, Deferring, Feeding, Following, Pruning, Reporting, Saving, Telling};

use simplex_border::answer::ReportSummary;
use simplex_handle::auditor::{AnyAuditor, Judged};
use simplex_handle::calls;
use simplex_handle::handle::Handle;
use simplex_places::repeats::Unverified;
use std::alloc::Global;

/// Makes an auditor of a stream whose signatures have 48, 64 or 96 bytes, each with the caller's
/// verdict behind it, under the committees of these sizes. It was fed `held`, which another one
/// held, or nothing. What the handle owned before is freed. Returns 0, 2 or 3; after 2 and 3 the
/// handle is as before.
#[unsafe(no_mangle)]
pub extern "C" fn simplex_auditor_new(
    alloc: Global,
    signature: u32,
    epochs: &[u64],
    sizes: &[u32],
    held: &[u8],
    auditor: &mut Handle,
) -> u32
    ensures made { result ≡ 0 → (committees : Schedule VouchedScheme) ×
        AreSizes epochs.now sizes.now committees × ((roster : Roster) ×
        IsOfSize signature committees roster ×
        InHandle ⟦<AnyAuditor as Judged>⟧.bases (Beginning held.now) roster auditor.new.held auditor.new.held) }
    ensures refused { result ≡ 2 → IsVouchedSize signature → (committees : Schedule VouchedScheme) →
        ¬ AreSizes epochs.now sizes.now committees }
    ensures memory { result ≡ 3 → IsVouchedSize signature × AreCommitteeSizes epochs.now sizes.now }
    ensures untouched { result ≢ 0 → auditor.new.held ≡ auditor.old.held }
    ensures status { (result ≡ 0) ⊎ (result ≡ 2) ⊎ (result ≡ 3) }
{
    calls::new_vouched(alloc, signature, epochs, sizes, held, auditor)
}

/// Makes an auditor of a stream of the plain scheme, under the committees of these keys, given as to
/// `simplex_audit_plain`. Otherwise it is as `simplex_auditor_new`.
#[unsafe(no_mangle)]
pub extern "C" fn simplex_auditor_new_plain(
    alloc: Global,
    name: &[u8],
    epochs: &[u64],
    sizes: &[u32],
    keys: &[u8],
    held: &[u8],
    auditor: &mut Handle,
) -> u32
    ensures made { result ≡ 0 → (committees : Schedule PlainScheme) ×
        AreOfKeys name.now epochs.now sizes.now keys.now committees ×
        InHandle ⟦<AnyAuditor as Judged>⟧.bases (Beginning held.now) (OfKeys committees)
        auditor.new.held auditor.new.held }
    ensures refused { result ≡ 2 → ¬ AreKeys epochs.now sizes.now keys.now }
    ensures memory { result ≡ 3 → IsLengthOfKeys epochs.now sizes.now (length keys.now) }
    ensures untouched { result ≢ 0 → auditor.new.held ≡ auditor.old.held }
    ensures status { (result ≡ 0) ⊎ (result ≡ 2) ⊎ (result ≡ 3) }
{
    calls::new_plain(alloc, name, epochs, sizes, keys, held, auditor)
}

/// Feeds the next bytes of the stream, cut anywhere, at the cost of these bytes. What they complete
/// waits for `simplex_auditor_news`. Returns 0. With any other status nothing was fed and nothing is
/// lost: 1 if the stream has a fault, behind which nothing is read; 2; 3; or 5 if the stream would
/// have 2^64 bytes. After 3 the same bytes can be fed again.
#[unsafe(no_mangle)]
pub extern "C" fn simplex_auditor_feed(alloc: Global, auditor: &mut Handle, bytes: &[u8]) -> u32
    ensures feeds { (roster : Roster) (floor : positions.Round) (stream : List ℕ) →
        InHandle ⟦<AnyAuditor as Judged>⟧.bases (Following floor stream) roster
        auditor.old.held auditor.old.held →
        InHandle ⟦<AnyAuditor as Judged>⟧.bases (Feeding floor stream bytes.now result) roster
        auditor.old.held auditor.new.held }
    ensures none { result ≡ 2 → (auditor.old.held ≡ None) × (auditor.new.held ≡ None) }
    ensures empty { auditor.old.held ≡ None → (result ≡ 2) × (auditor.new.held ≡ None) }
    ensures status { (result ≡ 0) ⊎ (result ≡ 1) ⊎ (result ≡ 2) ⊎ (result ≡ 3) ⊎ (result ≡ 5) }
{
    calls::feed(alloc, auditor, bytes)
}

/// Lists what the caller has to verify of the next bytes of the stream, before it feeds them: the
/// attestations of the whole messages at their front whose rounds are at the floor or above it and
/// whose signers are in the committee of the epoch. Each is listed with the index of the first that is
/// the same, the verdicts apart. `needed` is the number of the attestations, and `whole` that of the
/// bytes of these messages. Nothing is fed. Returns 0; 1 if no message follows these, whatever comes;
/// 2 also if what was fed ends within a message, or the auditor is one of keys; 3 or 4.
#[unsafe(no_mangle)]
pub extern "C" fn simplex_auditor_unverified(
    alloc: Global,
    auditor: &mut Handle,
    bytes: &[u8],
    records: &mut [Unverified],
    needed: &mut usize,
    whole: &mut usize,
) -> u32
    ensures defers { (roster : Roster) (floor : positions.Round) (stream : List ℕ) →
        InHandle ⟦<AnyAuditor as Judged>⟧.bases (Following floor stream) roster
        auditor.old.held auditor.old.held →
        InHandle ⟦<AnyAuditor as Judged>⟧.bases (Deferring floor stream
        ⟦<AnyAuditor as Judged>⟧.encodings bytes.now records.old records.new needed.new whole.new
        result roster) roster auditor.old.held auditor.new.held }
    ensures empty { auditor.old.held ≡ None → (result ≡ 2) × (auditor.new.held ≡ None) }
    ensures untouched { (result ≡ 2) ⊎ (result ≡ 3) → (records.new ≡ records.old) ×
        (needed.new ≡ needed.old) × (whole.new ≡ whole.old) }
    ensures status { (result ≡ 0) ⊎ (result ≡ 1) ⊎ (result ≡ 2) ⊎ (result ≡ 3) ⊎ (result ≡ 4) }
{
    calls::unverified(alloc, auditor, bytes, records, needed, whole)
}

/// Puts the text of the report of what was fed, from the floor on, into `text`. Returns the status
/// of an audit.
#[unsafe(no_mangle)]
pub extern "C" fn simplex_auditor_report(
    alloc: Global,
    auditor: &mut Handle,
    text: &mut [u8],
    summary: &mut ReportSummary,
) -> u32
    ensures reports { (roster : Roster) (floor : positions.Round) (stream : List ℕ) →
        InHandle ⟦<AnyAuditor as Judged>⟧.bases (Following floor stream) roster
        auditor.old.held auditor.old.held →
        InHandle ⟦<AnyAuditor as Judged>⟧.bases
        (Reporting floor stream text.old text.new summary.new result) roster
        auditor.old.held auditor.new.held }
    ensures none { result ≡ 2 → (auditor.old.held ≡ None) × (auditor.new.held ≡ None) }
    ensures empty { auditor.old.held ≡ None → (result ≡ 2) × (auditor.new.held ≡ None) }
    ensures untouched { (result ≡ 2) ⊎ (result ≡ 3) →
        (text.new ≡ text.old) × (summary.new ≡ summary.old) }
    ensures status { (result ≡ 0) ⊎ (result ≡ 1) ⊎ (result ≡ 2) ⊎ (result ≡ 3) ⊎ (result ≡ 4) }
{
    calls::report(alloc, auditor, text, summary)
}

/// Puts what arose since the last look into `text`, as the lines of a report: the evidence, each
/// once, and then the splits, a round again when more participants are accused there. Returns 0, 2,
/// 3 or 4. Only after 0 it counts as looked at.
#[unsafe(no_mangle)]
pub extern "C" fn simplex_auditor_news(
    alloc: Global,
    auditor: &mut Handle,
    text: &mut [u8],
    length: &mut usize,
) -> u32
    ensures tells { (roster : Roster) (floor : positions.Round) (stream : List ℕ) →
        InHandle ⟦<AnyAuditor as Judged>⟧.bases (Following floor stream) roster
        auditor.old.held auditor.old.held →
        InHandle ⟦<AnyAuditor as Judged>⟧.bases
        (Telling floor stream text.old text.new length.new result) roster
        auditor.old.held auditor.new.held }
    ensures none { result ≡ 2 → (auditor.old.held ≡ None) × (auditor.new.held ≡ None) }
    ensures empty { auditor.old.held ≡ None → (result ≡ 2) × (auditor.new.held ≡ None) }
    ensures untouched { (result ≡ 2) ⊎ (result ≡ 3) →
        (text.new ≡ text.old) × (length.new ≡ length.old) }
    ensures status { (result ≡ 0) ⊎ (result ≡ 2) ⊎ (result ≡ 3) ⊎ (result ≡ 4) }
{
    calls::news(alloc, auditor, text, length)
}

/// Gives up all rounds below a floor: what is known of them is dropped, and their messages are read
/// and not judged from now on. News of them that wait still do. A floor below the present one
/// changes nothing. Returns 0 or 2.
#[unsafe(no_mangle)]
pub extern "C" fn simplex_auditor_prune(
    alloc: Global,
    auditor: &mut Handle,
    epoch: u64,
    view: u64,
) -> u32
    ensures prunes { (roster : Roster) (floor : positions.Round) (stream : List ℕ) →
        InHandle ⟦<AnyAuditor as Judged>⟧.bases (Following floor stream) roster
        auditor.old.held auditor.old.held →
        InHandle ⟦<AnyAuditor as Judged>⟧.bases
        (Pruning floor stream (record { epoch = epoch; view = view })) roster
        auditor.old.held auditor.new.held }
    ensures none { result ≡ 2 → (auditor.old.held ≡ None) × (auditor.new.held ≡ None) }
    ensures empty { auditor.old.held ≡ None → (result ≡ 2) × (auditor.new.held ≡ None) }
    ensures status { (result ≡ 0) ⊎ (result ≡ 2) }
{
    calls::prune(alloc, auditor, epoch, view)
}

/// Counts the votes that are recorded from the floor on: for each signer and round the earliest valid
/// vote of each kind, and of notarizes and finalizes also the earliest with another proposal. Returns
/// 0, 2 or 3.
#[unsafe(no_mangle)]
pub extern "C" fn simplex_auditor_votes(
    alloc: Global,
    auditor: &mut Handle,
    votes: &mut usize,
) -> u32
    ensures counts { (roster : Roster) (floor : positions.Round) (stream : List ℕ) →
        InHandle ⟦<AnyAuditor as Judged>⟧.bases (Following floor stream) roster
        auditor.old.held auditor.old.held →
        InHandle ⟦<AnyAuditor as Judged>⟧.bases (Counting floor stream votes.new result) roster
        auditor.old.held auditor.new.held }
    ensures none { result ≡ 2 → (auditor.old.held ≡ None) × (auditor.new.held ≡ None) }
    ensures empty { auditor.old.held ≡ None → (result ≡ 2) × (auditor.new.held ≡ None) }
    ensures untouched { (result ≡ 2) ⊎ (result ≡ 3) → votes.new ≡ votes.old }
    ensures status { (result ≡ 0) ⊎ (result ≡ 2) ⊎ (result ≡ 3) }
{
    calls::votes(alloc, auditor, votes)
}

/// Puts what is held into `bytes`: few messages that can stand for the stream from the floor on, and
/// the bytes after its last whole message. Of each round they are at most five messages without a
/// certificate for each participant, and three with one. Returns 0, 2, 3 or 4.
#[unsafe(no_mangle)]
pub extern "C" fn simplex_auditor_held(
    alloc: Global,
    auditor: &mut Handle,
    bytes: &mut [u8],
    length: &mut usize,
) -> u32
    ensures saves { (roster : Roster) (floor : positions.Round) (stream : List ℕ) →
        InHandle ⟦<AnyAuditor as Judged>⟧.bases (Following floor stream) roster
        auditor.old.held auditor.old.held →
        InHandle ⟦<AnyAuditor as Judged>⟧.bases
        (Saving floor stream bytes.old bytes.new length.new result) roster
        auditor.old.held auditor.new.held }
    ensures none { result ≡ 2 → (auditor.old.held ≡ None) × (auditor.new.held ≡ None) }
    ensures empty { auditor.old.held ≡ None → (result ≡ 2) × (auditor.new.held ≡ None) }
    ensures untouched { (result ≡ 2) ⊎ (result ≡ 3) →
        (bytes.new ≡ bytes.old) × (length.new ≡ length.old) }
    ensures status { (result ≡ 0) ⊎ (result ≡ 2) ⊎ (result ≡ 3) ⊎ (result ≡ 4) }
{
    calls::held(alloc, auditor, bytes, length)
}

/// Frees the auditor. The handle owns nothing then, and can be used again. Returns 0 or 2.
#[unsafe(no_mangle)]
pub extern "C" fn simplex_auditor_free(alloc: Global, auditor: &mut Handle) -> u32
    ensures freed { auditor.new.held ≡ None }
    ensures none { result ≡ 2 → auditor.old.held ≡ None }
    ensures some { result ≡ 0 → auditor.old.held ≢ None }
    ensures status { (result ≡ 0) ⊎ (result ≡ 2) }
{
    calls::free(alloc, auditor)
}
