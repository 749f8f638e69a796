//! What callers that are not Rattle call on a handle. Each call but the first two returns [`ARGUMENTS`] if the handle owns no
//! auditor, and then changes nothing.

ghost use Rattle.std.specs.Prelude.{◌≡◌, ◌≢◌, ◌⊎◌, ℕ, List, None, Some, length};
ghost use Rattle.simplex_base.specs.Positions as positions;
ghost use Rattle.simplex_scheme.specs.Committees.{Schedule};
ghost use Rattle.simplex_schemes.specs.Plain.{PlainScheme};
ghost use Rattle.simplex_schemes.specs.Vouched.{VouchedScheme};
ghost use Rattle.simplex_border.specs.Keys.{AreKeys, AreOfKeys, IsLengthOfKeys};
ghost use Rattle.simplex_border.specs.Signatures.{IsVouchedSize};
ghost use Rattle.simplex_border.specs.Sizes.{AreCommitteeSizes, AreSizes};
ghost use Rattle.simplex_handle.specs.Roster.{IsOfSize, OfKeys, Roster};
ghost use Rattle.simplex_handle.specs.Standing.{Beginning, Counting, Deferring, Feeding, Following, Pruning, Reporting, Saving, Telling};
ghost use Rattle.simplex_handle.specs.Owned.{InHandle};

use crate::auditor::{AnyAuditor, Judged};
use crate::handle::{Handle, put_back, take};
use simplex_base::positions::{Epoch, Round, View};
use simplex_border::answer::{ARGUMENTS, MEMORY, ReportSummary, WHOLE};
use simplex_places::repeats::Unverified;
use std::alloc::Global;

/// Has the handle own an auditor, in place of what it owned.
fn own(alloc: Global, any: AnyAuditor, handle: &mut Handle) -> u32
    ensures owns { result ≡ 0 → handle.new.held ≡ Some any }
    ensures untouched { result ≢ 0 → handle.new.held ≡ handle.old.held }
    ensures status { (result ≡ 0) ⊎ (result ≡ 3) }
{
    match Box::new(alloc, any) {
        Ok(boxed) => {
            put_back(handle, boxed);
            WHOLE
        }
        Err(_) => MEMORY,
    }
}

/// Has the handle own an auditor of signatures of 48, 64 or 96 bytes, each with the caller's verdict behind it, of the
/// committees of these sizes. It was fed what another one held, or nothing, and what arises in that waits. The status is
/// [`WHOLE`], [`ARGUMENTS`] or [`MEMORY`]; with the latter two the handle is as before.
pub fn new_vouched(
    alloc: Global,
    signature: u32,
    epochs: &[u64],
    sizes: &[u32],
    held: &[u8],
    handle: &mut Handle,
) -> u32
    ensures made { result ≡ 0 → (committees : Schedule VouchedScheme) ×
        AreSizes epochs.now sizes.now committees × ((roster : Roster) ×
        IsOfSize signature committees roster ×
        InHandle ⟦<AnyAuditor as Judged>⟧.bases (Beginning held.now) roster handle.new.held handle.new.held) }
    ensures refused { result ≡ 2 → IsVouchedSize signature → (committees : Schedule VouchedScheme) →
        ¬ AreSizes epochs.now sizes.now committees }
    ensures memory { result ≡ 3 → IsVouchedSize signature × AreCommitteeSizes epochs.now sizes.now }
    ensures untouched { result ≢ 0 → handle.new.held ≡ handle.old.held }
    ensures status { (result ≡ 0) ⊎ (result ≡ 2) ⊎ (result ≡ 3) }
{
    match AnyAuditor::of_sizes(alloc, signature, epochs, sizes, held) {
        Ok(Some(any)) => own(alloc, any, handle),
        Ok(None) => ARGUMENTS,
        Err(_) => MEMORY,
    }
}

/// Has the handle own an auditor of the plain scheme, of the committees of these keys, as [`new_vouched`] does.
pub fn new_plain(
    alloc: Global,
    namespace: &[u8],
    epochs: &[u64],
    sizes: &[u32],
    keys: &[u8],
    held: &[u8],
    handle: &mut Handle,
) -> u32
    ensures made { result ≡ 0 → (committees : Schedule PlainScheme) ×
        AreOfKeys namespace.now epochs.now sizes.now keys.now committees ×
        InHandle ⟦<AnyAuditor as Judged>⟧.bases (Beginning held.now) (OfKeys committees)
        handle.new.held handle.new.held }
    ensures refused { result ≡ 2 → ¬ AreKeys epochs.now sizes.now keys.now }
    ensures memory { result ≡ 3 → IsLengthOfKeys epochs.now sizes.now (length keys.now) }
    ensures untouched { result ≢ 0 → handle.new.held ≡ handle.old.held }
    ensures status { (result ≡ 0) ⊎ (result ≡ 2) ⊎ (result ≡ 3) }
{
    match AnyAuditor::of_keys(alloc, namespace, epochs, sizes, keys, held) {
        Ok(Some(any)) => own(alloc, any, handle),
        Ok(None) => ARGUMENTS,
        Err(_) => MEMORY,
    }
}

/// Feeds a piece of the stream, cut anywhere. What it completes waits. The status is [`WHOLE`]; 1 if the stream has a fault,
/// behind which nothing is read; [`MEMORY`]; or 5 if the stream would have 2^64 bytes. But with the first nothing was fed,
/// and nothing is lost.
pub fn feed(alloc: Global, handle: &mut Handle, bytes: &[u8]) -> u32
    ensures feeds { (roster : Roster) (floor : positions.Round) (stream : List ℕ) →
        InHandle ⟦<AnyAuditor as Judged>⟧.bases (Following floor stream) roster
        handle.old.held handle.old.held →
        InHandle ⟦<AnyAuditor as Judged>⟧.bases (Feeding floor stream bytes.now result) roster
        handle.old.held handle.new.held }
    ensures none { result ≡ 2 → (handle.old.held ≡ None) × (handle.new.held ≡ None) }
    ensures empty { handle.old.held ≡ None → (result ≡ 2) × (handle.new.held ≡ None) }
    ensures status { (result ≡ 0) ⊎ (result ≡ 1) ⊎ (result ≡ 2) ⊎ (result ≡ 3) ⊎ (result ≡ 5) }
{
    let Some(mut any) = take(alloc, handle) else {
        return ARGUMENTS;
    };
    let status = any.feed(alloc, bytes);
    put_back(handle, any);
    status
}

/// Gives up all rounds below a floor. What arose there and waits still does. The status is [`WHOLE`].
pub fn prune(alloc: Global, handle: &mut Handle, epoch: u64, view: u64) -> u32
    ensures prunes { (roster : Roster) (floor : positions.Round) (stream : List ℕ) →
        InHandle ⟦<AnyAuditor as Judged>⟧.bases (Following floor stream) roster
        handle.old.held handle.old.held →
        InHandle ⟦<AnyAuditor as Judged>⟧.bases
        (Pruning floor stream (record { epoch = epoch; view = view })) roster
        handle.old.held handle.new.held }
    ensures none { result ≡ 2 → (handle.old.held ≡ None) × (handle.new.held ≡ None) }
    ensures empty { handle.old.held ≡ None → (result ≡ 2) × (handle.new.held ≡ None) }
    ensures status { (result ≡ 0) ⊎ (result ≡ 2) }
{
    let Some(mut any) = take(alloc, handle) else {
        return ARGUMENTS;
    };
    any.prune(Round::new(Epoch::new(epoch), View::new(view)));
    put_back(handle, any);
    WHOLE
}

/// Puts the text of the report of what the auditor was fed, from its floor on, into a buffer. The status is that of an audit.
pub fn report(
    alloc: Global,
    handle: &mut Handle,
    buffer: &mut [u8],
    summary: &mut ReportSummary,
) -> u32
    ensures reports { (roster : Roster) (floor : positions.Round) (stream : List ℕ) →
        InHandle ⟦<AnyAuditor as Judged>⟧.bases (Following floor stream) roster
        handle.old.held handle.old.held →
        InHandle ⟦<AnyAuditor as Judged>⟧.bases
        (Reporting floor stream buffer.old buffer.new summary.new result) roster
        handle.old.held handle.new.held }
    ensures none { result ≡ 2 → (handle.old.held ≡ None) × (handle.new.held ≡ None) }
    ensures empty { handle.old.held ≡ None → (result ≡ 2) × (handle.new.held ≡ None) }
    ensures untouched { (result ≡ 2) ⊎ (result ≡ 3) →
        (buffer.new ≡ buffer.old) × (summary.new ≡ summary.old) }
    ensures status { (result ≡ 0) ⊎ (result ≡ 1) ⊎ (result ≡ 2) ⊎ (result ≡ 3) ⊎ (result ≡ 4) }
{
    let Some(mut any) = take(alloc, handle) else {
        return ARGUMENTS;
    };
    let status = any.report(alloc, buffer, summary);
    put_back(handle, any);
    status
}

/// Counts the recorded votes, from the floor on. The status is [`WHOLE`] or [`MEMORY`].
pub fn votes(alloc: Global, handle: &mut Handle, count: &mut usize) -> u32
    ensures counts { (roster : Roster) (floor : positions.Round) (stream : List ℕ) →
        InHandle ⟦<AnyAuditor as Judged>⟧.bases (Following floor stream) roster
        handle.old.held handle.old.held →
        InHandle ⟦<AnyAuditor as Judged>⟧.bases (Counting floor stream count.new result) roster
        handle.old.held handle.new.held }
    ensures none { result ≡ 2 → (handle.old.held ≡ None) × (handle.new.held ≡ None) }
    ensures empty { handle.old.held ≡ None → (result ≡ 2) × (handle.new.held ≡ None) }
    ensures untouched { (result ≡ 2) ⊎ (result ≡ 3) → count.new ≡ count.old }
    ensures status { (result ≡ 0) ⊎ (result ≡ 2) ⊎ (result ≡ 3) }
{
    let Some(mut any) = take(alloc, handle) else {
        return ARGUMENTS;
    };
    let status = any.votes(alloc, count);
    put_back(handle, any);
    status
}

/// Puts what has to be verified of a piece into a buffer, before it is fed: the attestations of the whole messages at its front
/// whose rounds are at the floor or above it and whose signers are in the committee of the epoch, each with the first that is
/// the same; and writes how many these are, and how many bytes the messages have. The piece follows what was fed, which has to
/// end with a whole message. The status is [`WHOLE`]; 1 if no message follows those of the piece, whatever comes; [`MEMORY`];
/// 4, the buffer being too short; or [`ARGUMENTS`] also if what was fed ends within a message, or the auditor is one of keys.
pub fn unverified(
    alloc: Global,
    handle: &mut Handle,
    bytes: &[u8],
    records: &mut [Unverified],
    needed: &mut usize,
    whole: &mut usize,
) -> u32
    ensures defers { (roster : Roster) (floor : positions.Round) (stream : List ℕ) →
        InHandle ⟦<AnyAuditor as Judged>⟧.bases (Following floor stream) roster
        handle.old.held handle.old.held →
        InHandle ⟦<AnyAuditor as Judged>⟧.bases (Deferring floor stream
        ⟦<AnyAuditor as Judged>⟧.encodings bytes.now records.old records.new needed.new whole.new
        result roster) roster handle.old.held handle.new.held }
    ensures empty { handle.old.held ≡ None → (result ≡ 2) × (handle.new.held ≡ None) }
    ensures untouched { (result ≡ 2) ⊎ (result ≡ 3) → (records.new ≡ records.old) ×
        (needed.new ≡ needed.old) × (whole.new ≡ whole.old) }
    ensures status { (result ≡ 0) ⊎ (result ≡ 1) ⊎ (result ≡ 2) ⊎ (result ≡ 3) ⊎ (result ≡ 4) }
{
    let Some(mut any) = take(alloc, handle) else {
        return ARGUMENTS;
    };
    let status = any.unverified(alloc, bytes, records, needed, whole);
    put_back(handle, any);
    status
}

/// Puts what is held into a buffer: few messages that can stand for the stream from the floor on, and the bytes after its last
/// whole message. The status is [`WHOLE`], [`MEMORY`] or 4, the buffer being too short.
pub fn held(alloc: Global, handle: &mut Handle, buffer: &mut [u8], size: &mut usize) -> u32
    ensures saves { (roster : Roster) (floor : positions.Round) (stream : List ℕ) →
        InHandle ⟦<AnyAuditor as Judged>⟧.bases (Following floor stream) roster
        handle.old.held handle.old.held →
        InHandle ⟦<AnyAuditor as Judged>⟧.bases
        (Saving floor stream buffer.old buffer.new size.new result) roster
        handle.old.held handle.new.held }
    ensures none { result ≡ 2 → (handle.old.held ≡ None) × (handle.new.held ≡ None) }
    ensures empty { handle.old.held ≡ None → (result ≡ 2) × (handle.new.held ≡ None) }
    ensures untouched { (result ≡ 2) ⊎ (result ≡ 3) →
        (buffer.new ≡ buffer.old) × (size.new ≡ size.old) }
    ensures status { (result ≡ 0) ⊎ (result ≡ 2) ⊎ (result ≡ 3) ⊎ (result ≡ 4) }
{
    let Some(mut any) = take(alloc, handle) else {
        return ARGUMENTS;
    };
    let status = any.save(alloc, buffer, size);
    put_back(handle, any);
    status
}

/// Puts the lines of what waits to be handed over into a buffer, evidence and then splits; then it waits no more. The status is
/// [`WHOLE`], [`MEMORY`] or 4, the buffer being too short; with the latter two it waits.
pub fn news(alloc: Global, handle: &mut Handle, buffer: &mut [u8], size: &mut usize) -> u32
    ensures tells { (roster : Roster) (floor : positions.Round) (stream : List ℕ) →
        InHandle ⟦<AnyAuditor as Judged>⟧.bases (Following floor stream) roster
        handle.old.held handle.old.held →
        InHandle ⟦<AnyAuditor as Judged>⟧.bases
        (Telling floor stream buffer.old buffer.new size.new result) roster
        handle.old.held handle.new.held }
    ensures none { result ≡ 2 → (handle.old.held ≡ None) × (handle.new.held ≡ None) }
    ensures empty { handle.old.held ≡ None → (result ≡ 2) × (handle.new.held ≡ None) }
    ensures untouched { (result ≡ 2) ⊎ (result ≡ 3) →
        (buffer.new ≡ buffer.old) × (size.new ≡ size.old) }
    ensures status { (result ≡ 0) ⊎ (result ≡ 2) ⊎ (result ≡ 3) ⊎ (result ≡ 4) }
{
    let Some(mut any) = take(alloc, handle) else {
        return ARGUMENTS;
    };
    let status = any.tell(alloc, buffer, size);
    put_back(handle, any);
    status
}

/// Frees the auditor. The handle owns nothing then. The status is [`WHOLE`], or [`ARGUMENTS`] if there was none.
pub fn free(alloc: Global, handle: &mut Handle) -> u32
    ensures freed { handle.new.held ≡ None }
    ensures none { result ≡ 2 → handle.old.held ≡ None }
    ensures some { result ≡ 0 → handle.old.held ≢ None }
    ensures status { (result ≡ 0) ⊎ (result ≡ 2) }
{
    match take(alloc, handle) {
        Some(any) => {
            drop(any);
            WHOLE
        }
        None => ARGUMENTS,
    }
}
