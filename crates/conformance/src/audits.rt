//! Audits of streams, whole and in pieces.

use conformance_messages::refusals::name;
use conformance_messages::vectors::{Unanswered, bytes, committee, epoch};
use faulty_io::{Source, Trouble};
use simplex_audit::audit::{
    Auditor, Committees, Evidence, Fault, Report, RunError, Split, Summary, Watched, audit,
    audit_deferred, run,
};
use simplex_base::positions::Epoch;
use simplex_scheme::scheme::{Digest, SchemeTypes};
use simplex_schemes::marked::{Marked, MarkedDigest};
use std::alloc::{AllocError, Global};

/// The marked committee of this many participants for every epoch, or from `EPOCH:NUMBER`s, separated by commas, one for each
/// of these epochs, which have to rise strictly.
pub(crate) fn committees(alloc: Global, word: &str) -> Result<Committees<Marked>, Unanswered> {
    if !word.contains(':') {
        return Ok(Committees::every(committee(alloc, word)?));
    }
    let mut pairs = Vec::new(alloc);
    for part in word.split(',') {
        pairs.push(pair(alloc, part)?).map_err(AllocError::from)?;
    }
    Committees::try_from_vec(pairs).map_err(|_| Unanswered::NoVector)
}

/// An epoch and its marked committee.
fn pair(alloc: Global, word: &str) -> Result<(Epoch, Marked), Unanswered> {
    match word.split_once(':') {
        Some((at, participants)) => Ok((epoch(at)?, committee(alloc, participants)?)),
        None => Err(Unanswered::NoVector),
    }
}

/// The answer to an audit of a stream: that of `audit`, where `audit_deferred` and two runs, one of them reading a byte a call,
/// agree with it.
pub(crate) fn audit_vector(
    alloc: Global,
    committees: &Committees<Marked>,
    stream: &[u8],
) -> Result<String, Unanswered> {
    let answer = audited(alloc, committees, stream)?;
    if deferred(alloc, committees, stream)? != answer {
        return Ok("the audits differ".to_string(alloc)?);
    }
    for step in [usize::MAX, 1] {
        if ran(alloc, committees, stream, step)? != answer {
            return Ok("the runs differ".to_string(alloc)?);
        }
    }
    Ok(answer)
}

/// The answer of `audit`.
fn audited(
    alloc: Global,
    committees: &Committees<Marked>,
    stream: &[u8],
) -> Result<String, AllocError> {
    let report = audit::<Marked, MarkedDigest>(alloc, committees, stream)?;
    text_of(alloc, &report)
}

/// The answer of `audit_deferred`.
fn deferred(
    alloc: Global,
    committees: &Committees<Marked>,
    stream: &[u8],
) -> Result<String, AllocError> {
    let report = audit_deferred::<Marked, MarkedDigest>(alloc, committees, stream)?;
    text_of(alloc, &report)
}

/// The answer of a run that reads at most this many bytes a call.
fn ran(
    alloc: Global,
    committees: &Committees<Marked>,
    stream: &[u8],
    step: usize,
) -> Result<String, Unanswered> {
    let (summary, text) = run_in_steps(alloc, committees, stream, step)?;
    let mut answer = format!(in alloc; "read {}", summary.read)?;
    if push_lines(&mut answer, text.as_str())? != summary.evidence.saturating_add(summary.splits) {
        return Err(Unanswered::NoVector);
    }
    push_fault(alloc, &mut answer, summary.fault)?;
    Ok(answer)
}

/// The summary of a run that reads at most this many bytes a call, and what it writes.
fn run_in_steps(
    alloc: Global,
    committees: &Committees<Marked>,
    stream: &[u8],
    step: usize,
) -> Result<(Summary, String), Unanswered> {
    let mut reader = Watched::new(Source::new(stream, step.max(1), Trouble::Never));
    let mut writer = Watched::new(Vec::<u8>::new(alloc));
    match run::<Marked, MarkedDigest, _, _>(alloc, committees, &mut reader, &mut writer) {
        Ok(summary) => match String::from_utf8(writer.into_inner()) {
            Ok(text) => Ok((summary, text)),
            Err(_) => Err(Unanswered::NoVector),
        },
        Err(RunError::Read | RunError::TooLong) => Err(Unanswered::NoVector),
        Err(RunError::Write | RunError::OutOfMemory) => Err(Unanswered::OutOfMemory),
    }
}

/// Appends each line of a text as a part of an answer, and returns how many there are.
fn push_lines(answer: &mut String, text: &str) -> Result<usize, AllocError> {
    let mut lines: usize = 0;
    for line in text.lines() {
        push_part(answer, line)?;
        lines = lines.saturating_add(1);
    }
    Ok(lines)
}

/// The answer to an audit of a stream in pieces: how the auditor stands after each, and then the report.
pub(crate) fn feed_vector(
    alloc: Global,
    committees: &Committees<Marked>,
    pieces: &[&str],
) -> Result<String, Unanswered> {
    let mut auditor = Auditor::<Marked, MarkedDigest>::new(alloc, committees);
    let mut text = String::new(alloc);
    for piece in pieces {
        auditor = fed_on(alloc, auditor, *piece)?;
        text.push_str(standing(alloc, &auditor)?.as_str())?;
    }
    text.push_str(reported(alloc, &auditor)?.as_str())?;
    Ok(text)
}

/// Feeds a piece. A stream that is longer than can be counted is no test vector.
pub(crate) fn fed_on<'a>(
    alloc: Global,
    auditor: Auditor<'a, Marked, MarkedDigest>,
    piece: &str,
) -> Result<Auditor<'a, Marked, MarkedDigest>, Unanswered> {
    let piece = bytes(alloc, &[piece])?;
    if piece.len() > usize::MAX - auditor.fed() {
        return Err(Unanswered::NoVector);
    }
    Ok(auditor.feed(piece.as_slice())?)
}

/// How an auditor stands: how many bytes it was fed, how many are left after the last whole message, and how many votes it
/// has recorded.
fn standing(
    alloc: Global,
    auditor: &Auditor<'_, Marked, MarkedDigest>,
) -> Result<String, AllocError> {
    let (fed, rest, votes) = (auditor.fed(), auditor.rest().len(), auditor.votes());
    format!(in alloc; "fed {fed}, rest {rest}, votes {votes} | ")
}

/// The answer of the report of an auditor.
pub(crate) fn reported(
    alloc: Global,
    auditor: &Auditor<'_, Marked, MarkedDigest>,
) -> Result<String, AllocError> {
    text_of(alloc, &auditor.report()?)
}

/// The answer of a report: how many messages were read, the lines of the evidence and of the splits, and the fault.
fn text_of(alloc: Global, report: &Report<Marked, MarkedDigest>) -> Result<String, AllocError> {
    let mut text = format!(in alloc; "read {}", report.read)?;
    push_evidence(alloc, &mut text, report.evidence.as_slice())?;
    push_splits(alloc, &mut text, report.splits.as_slice())?;
    push_fault(alloc, &mut text, report.fault)?;
    Ok(text)
}

/// Appends the fault, if there is one, as a part of an answer.
pub(crate) fn push_fault(
    alloc: Global,
    text: &mut String,
    fault: Option<Fault>,
) -> Result<(), AllocError> {
    if let Some(fault) = fault {
        let error = name(alloc, fault.error)?;
        let said = format!(in alloc; "fault at {}: {error}", fault.place)?;
        push_part(text, said.as_str())?;
    }
    Ok(())
}

/// Appends the lines of some evidence, each as a part of an answer.
pub(crate) fn push_evidence<S: SchemeTypes, D: Digest>(
    alloc: Global,
    text: &mut String,
    evidence: &[Evidence<S, D>],
) -> Result<(), AllocError> {
    for evidence in evidence {
        push_part(text, evidence.line(alloc)?.as_str())?;
    }
    Ok(())
}

/// Appends the lines of some splits, each as a part of an answer.
pub(crate) fn push_splits(
    alloc: Global,
    text: &mut String,
    splits: &[Split],
) -> Result<(), AllocError> {
    for split in splits {
        push_part(text, split.line(alloc)?.as_str())?;
    }
    Ok(())
}

/// Appends a part of an answer.
pub(crate) fn push_part(text: &mut String, part: &str) -> Result<(), AllocError> {
    text.push_str("; ")?;
    text.push_str(part)
}
