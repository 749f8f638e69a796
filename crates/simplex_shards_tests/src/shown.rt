//! A report, in a form that tests compare.

use simplex_audit::audit::{Fault, Report};
use simplex_schemes::marked::{Marked, MarkedDigest};
use std::alloc::{AllocError, Global};

/// What a report says.
#[derive(Debug, PartialEq, Eq, Drop)]
pub(crate) struct Shown {
    /// The lines of the evidence, and then those of the splits, each with its newline.
    pub(crate) text: String,
    /// The number of messages read.
    pub(crate) read: usize,
    /// Where the stream stops being messages, if it does.
    pub(crate) fault: Option<Fault>,
}

/// What a report says.
pub(crate) fn show(
    alloc: Global,
    report: Report<Marked, MarkedDigest>,
) -> Result<Shown, AllocError> {
    let mut text = String::new(alloc);
    for evidence in &report.evidence {
        text.push_str(evidence.line(alloc)?.as_str())?;
        text.push('\n')?;
    }
    for split in &report.splits {
        text.push_str(split.line(alloc)?.as_str())?;
        text.push('\n')?;
    }
    Ok(Shown {
        text,
        read: report.read,
        fault: report.fault,
    })
}
