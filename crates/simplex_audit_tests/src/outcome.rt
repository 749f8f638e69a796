//! What an audit returns, in a form that tests compare.

ghost use Rattle.std.specs.Prelude.{◌≤◌};

use simplex_audit::audit::{Committees, Fault, Report, audit, audit_deferred};
use simplex_base::positions::Epoch;
use simplex_scheme::scheme::{Digest, Listing};
use simplex_schemes::marked::Marked;
use std::alloc::Global;
use std::test::Fail;

/// What an audit returns.
#[derive(Debug, PartialEq, Eq, Drop)]
pub struct Outcome {
    /// The lines of the evidence, and then those of the splits, each with its newline.
    pub text: String,
    /// The number of messages read.
    pub read: usize,
    /// Where the stream stops being messages, if it does.
    pub fault: Option<Fault>,
}

/// One marked committee of this many participants for every epoch.
pub fn marked(alloc: Global, participants: u32) -> Result<Committees<Marked>, Fail>
    requires { 1 ≤ participants }
{
    Ok(Committees::every(Marked::new(alloc, participants, None)?))
}

/// A marked committee of four for epoch 0, and one of one for epoch 1.
pub fn four_and_one(alloc: Global) -> Result<Committees<Marked>, Fail> {
    let four = (Epoch::new(0), Marked::new(alloc, 4, None)?);
    let one = (Epoch::new(1), Marked::new(alloc, 1, None)?);
    Ok(Committees::try_from_vec(Vec::from_array(alloc, [four, one])?)?)
}

/// What the audit of a stream returns.
pub fn outcome_of<S: Listing<D>, D: Digest>(
    alloc: Global,
    committees: &Committees<S>,
    stream: &[u8],
) -> Result<Outcome, Fail> {
    written(alloc, audit::<S, D>(alloc, committees, stream)?)
}

/// What the deferred audit of a stream returns.
pub fn deferred_outcome_of<S: Listing<D>, D: Digest>(
    alloc: Global,
    committees: &Committees<S>,
    stream: &[u8],
) -> Result<Outcome, Fail> {
    written(alloc, audit_deferred::<S, D>(alloc, committees, stream)?)
}

/// A report as an outcome.
fn written<S: Listing<D>, D: Digest>(alloc: Global, report: Report<S, D>) -> Result<Outcome, Fail> {
    let mut text = String::new(alloc);
    for evidence in &report.evidence {
        text.push_str(evidence.line(alloc)?.as_str())?;
        text.push('\n')?;
    }
    for split in &report.splits {
        text.push_str(split.line(alloc)?.as_str())?;
        text.push('\n')?;
    }
    Ok(Outcome {
        text,
        read: report.read,
        fault: report.fault,
    })
}
