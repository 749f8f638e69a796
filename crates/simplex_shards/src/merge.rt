//! The report of a stream, from the reports of its parts.

ghost use Rattle.std.specs.Prelude.{◌≡◌, ◌-◌, ◌^◌, IfOk, IsPermutation, OnOk, min};
ghost use Rattle.std.specs.List.{flat_map, sum_by};
ghost use Rattle.std.specs.List.Sorted.{IsSortedByKey};
ghost use Rattle.simplex_rules.specs.Accusation.{accused_by, accused_cmp, round_cmp, way_rank};
ghost use Rattle.simplex_rules.specs.Values.{evidence_value};
ghost use Rattle.simplex_shards.specs.Merge.{IsGathered, MergesParts, MergesShards, sort_key};

use crate::laws::format_laws;
use simplex_audit::audit::{Evidence, Fault, Report, Split};
use simplex_audit::basis::Audited;
use simplex_laws::laws::{evidence_is_determined, rounds_are_independent};
use simplex_rules::evidence::{EquivocationKind, SignerInRound};
use simplex_scheme::scheme::{Digest, Listing, SchemeTypes};
use std::alloc::{AllocError, Global};

/// The report of a whole stream, from the reports of all classes of its rounds: that of class i stands at place i. Each is the
/// report that [`audit`] returns of the class's part, or that [`audit_part`](crate::part::audit_part) returns of the stream.
/// `fault` is that of the stream, as [`split`](crate::split::split) or `audit_part` returns it.
///
/// Evidence comes in the order of rounds, signers and kinds, splits in the order of rounds, and `read` is summed: the report is
/// exactly that which [`audit`] returns of the stream. `AllocError` is returned only after an allocation failed.
///
/// [`audit`]: simplex_audit::audit::audit
pub fn merge<S: Listing<D>, D: Digest>(
    alloc: Global,
    parts: Vec<Report<S, D>>,
    fault: Option<Fault>,
) -> Result<Report<S, D>, AllocError>
    // From reports of the stream in each class of rounds it is the report of the stream.
    ensures parts { IfOk result (λ report.
        MergesParts ⟦<S as Audited<D>>⟧.basis parts.items fault report) }
    // From reports of the parts into which the stream was cut it is the report of the stream, too.
    ensures shards { IfOk result (λ report.
        MergesShards ⟦<S as Audited<D>>⟧.basis parts.items fault report) }
{
    format_laws::<S, D>();
    rounds_are_independent::<S, D>();
    evidence_is_determined::<S, D>();
    let gathered = gather(alloc, parts)?;
    let (mut evidence, mut splits) = (gathered.evidence, gathered.splits);
    sort_evidence(&mut evidence)?;
    sort_splits(&mut splits)?;
    Ok(Report {
        evidence,
        splits,
        read: gathered.read,
        fault,
    })
}

/// The evidence and the splits of some reports, one report after another, and the sum of what was read, up to 2^64 - 1.
fn gather<S: SchemeTypes, D: Digest>(
    alloc: Global,
    parts: Vec<Report<S, D>>,
) -> Result<Report<S, D>, AllocError>
    ensures { IfOk result (λ report. IsGathered parts.items report) }
{
    let mut evidence = Vec::new(alloc);
    let mut splits = Vec::new(alloc);
    let mut read: usize = 0;
    'parts: for part in parts {
        let (mut more, mut further) = (part.evidence, part.splits);
        evidence.append(&mut more)?;
        splits.append(&mut further)?;
        read = read.saturating_add(part.read);
    }
    Ok(Report {
        evidence,
        splits,
        read,
        fault: None,
    })
}

/// Sorts evidence by whom it accuses.
fn sort_evidence<S: SchemeTypes, D: Digest>(
    evidence: &mut Vec<Evidence<S, D>>,
) -> Result<(), AllocError>
    ensures moved { IsPermutation evidence.old.items evidence.new.items }
    ensures sorted { OnOk result (IsSortedByKey (λ e. accused_by (evidence_value e)) accused_cmp
        evidence.new.items) }
{
    evidence.sort_by_key(|item| key_of(item))
}

/// Whom an evidence accuses, and the place of its kind in the order of kinds.
fn key_of<S: SchemeTypes, D: Digest>(item: &Evidence<S, D>) -> (SignerInRound, u32)
    ensures { result ≡ sort_key (accused_by (evidence_value item.now)) }
{
    (item.accusation().accused, rank_of(item.kind()))
}

/// The place of a kind in the order of kinds.
fn rank_of(kind: EquivocationKind) -> u32
    ensures { result ≡ way_rank kind }
{
    match kind {
        EquivocationKind::ConflictingNotarize => 0,
        EquivocationKind::ConflictingFinalize => 1,
        EquivocationKind::NullifyFinalize => 2,
    }
}

/// Sorts splits by their rounds.
fn sort_splits(splits: &mut Vec<Split>) -> Result<(), AllocError>
    ensures moved { IsPermutation splits.old.items splits.new.items }
    ensures sorted { OnOk result (IsSortedByKey (λ s. s.round) round_cmp splits.new.items) }
{
    splits.sort_by_key(|split| split.round)
}
