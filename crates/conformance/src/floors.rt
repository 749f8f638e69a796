//! Audits and compactions from a floor of rounds on.

use crate::audits::{fed_on, push_fault, push_part, reported};
use conformance_messages::vectors::{Unanswered, epoch, view};
use simplex_audit::audit::{Auditor, Committees};
use simplex_audit::compaction::compact;
use simplex_base::positions::Round;
use simplex_schemes::marked::{Marked, MarkedDigest};
use std::alloc::{AllocError, Global};

/// The first round that is judged.
pub(crate) fn floor(at: &str, place: &str) -> Result<Round, Unanswered> {
    Ok(Round::new(epoch(at)?, view(place)?))
}

/// The answer of an auditor that gives up the rounds below a floor at the end of its stream, where one that does so before any
/// of the pieces agrees with it.
pub(crate) fn prune_vector(
    alloc: Global,
    committees: &Committees<Marked>,
    floor: Round,
    pieces: &[&str],
) -> Result<String, Unanswered> {
    let answer = pruned(alloc, committees, floor, pieces, pieces.len())?;
    for turn in 0..pieces.len() {
        if pruned(alloc, committees, floor, pieces, turn)? != answer {
            return Ok("the audits differ".to_string(alloc)?);
        }
    }
    Ok(answer)
}

/// How many votes an auditor has recorded and what it reports, that gives up the rounds below a floor after this many pieces,
/// and again at the end, where that changes nothing.
fn pruned(
    alloc: Global,
    committees: &Committees<Marked>,
    floor: Round,
    pieces: &[&str],
    turn: usize,
) -> Result<String, Unanswered> {
    let (before, behind) = pieces.split_at(turn.min(pieces.len()));
    let auditor = Auditor::<Marked, MarkedDigest>::new(alloc, committees);
    let auditor = fed_and_pruned(alloc, auditor, before, floor)?;
    let auditor = fed_and_pruned(alloc, auditor, behind, floor)?;
    Ok(votes_and_report(alloc, &auditor)?)
}

/// Feeds pieces, and then gives up the rounds below a floor.
fn fed_and_pruned<'a>(
    alloc: Global,
    auditor: Auditor<'a, Marked, MarkedDigest>,
    pieces: &[&str],
    floor: Round,
) -> Result<Auditor<'a, Marked, MarkedDigest>, Unanswered> {
    let mut auditor = auditor;
    for piece in pieces {
        auditor = fed_on(alloc, auditor, *piece)?;
    }
    auditor.prune(floor);
    Ok(auditor)
}

/// How many votes an auditor has recorded, and the answer of its report.
fn votes_and_report(
    alloc: Global,
    auditor: &Auditor<'_, Marked, MarkedDigest>,
) -> Result<String, AllocError> {
    let report = reported(alloc, auditor)?;
    format!(in alloc; "votes {}; {report}", auditor.votes())
}

/// What is left of a stream by a compaction from a floor on, how many messages were read, and the fault.
pub(crate) fn compact_vector(
    alloc: Global,
    committees: &Committees<Marked>,
    floor: Round,
    stream: &[u8],
) -> Result<String, Unanswered> {
    let compaction = compact::<Marked, MarkedDigest>(alloc, committees, stream, floor)?;
    let mut text = hex::encode(alloc, compaction.messages.as_slice())?;
    push_part(
        &mut text,
        format!(in alloc; "read {}", compaction.read)?.as_str(),
    )?;
    push_fault(alloc, &mut text, compaction.fault)?;
    Ok(text)
}
