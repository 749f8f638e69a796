//! A stream that is cut and audited in each of the ways that there are.

ghost use Rattle.std.specs.Prelude.{◌+◌, ◌<◌, ◌^◌, All};

use crate::begun::Message;
use crate::shown::{Shown, show};
use simplex_audit::audit::{Auditor, Committees, Report, audit};
use simplex_schemes::marked::{Marked, MarkedDigest};
use simplex_shards::cut::Cut;
use simplex_shards::index::{Row, index};
use simplex_shards::merge::merge;
use simplex_shards::part::audit_part;
use simplex_shards::ranges::ranges;
use simplex_shards::split::split;
use std::alloc::{AllocError, Global};
use std::test::Fail;

/// The report of the whole stream.
pub(crate) fn whole(
    alloc: Global,
    committees: &Committees<Marked>,
    stream: &[u8],
) -> Result<Shown, AllocError> {
    show(
        alloc,
        audit::<Marked, MarkedDigest>(alloc, committees, stream)?,
    )
}

/// The reports of the parts, merged.
pub(crate) fn of_split(
    alloc: Global,
    committees: &Committees<Marked>,
    cut: &Cut,
    stream: &[u8],
) -> Result<Shown, Fail> {
    let shards = split::<Message>(alloc, committees.bound(), cut, stream)?;
    let mut reports = Vec::new(alloc);
    for part in &shards.parts {
        reports.push(audit::<Marked, MarkedDigest>(alloc, committees, part)?)?;
    }
    Ok(show(alloc, merge(alloc, reports, shards.fault)?)?)
}

/// The reports of the classes of the stream, which is not cut, merged.
pub(crate) fn of_classes(
    alloc: Global,
    committees: &Committees<Marked>,
    cut: &Cut,
    stream: &[u8],
) -> Result<Shown, Fail> {
    let mut reports = Vec::new(alloc);
    let mut fault = None;
    for class in 0..cut.classes() {
        let report = audit_part::<Marked, MarkedDigest>(alloc, committees, cut, class, stream)?;
        fault = report.fault;
        reports.push(report)?;
    }
    Ok(show(alloc, merge(alloc, reports, fault)?)?)
}

/// The reports of the ranges of each class, merged.
pub(crate) fn of_ranges(
    alloc: Global,
    committees: &Committees<Marked>,
    cut: &Cut,
    stream: &[u8],
) -> Result<Shown, Fail> {
    let table = index::<Message>(alloc, committees.bound(), stream)?;
    let mut reports = Vec::new(alloc);
    for class in 0..cut.classes() {
        reports.push(of_class(alloc, committees, cut, class, &table.rows, stream)?)?;
    }
    Ok(show(alloc, merge(alloc, reports, table.fault)?)?)
}

/// The report of the ranges of one class.
fn of_class(
    alloc: Global,
    committees: &Committees<Marked>,
    cut: &Cut,
    class: u32,
    rows: &[Row],
    stream: &[u8],
) -> Result<Report<Marked, MarkedDigest>, Fail>
    requires { All (λ row. row.place + row.length < 2 ^ 64) rows.now }
{
    let mut auditor = Auditor::<Marked, MarkedDigest>::new(alloc, committees);
    for range in &ranges(alloc, rows, cut, class)? {
        let end = range.place.saturating_add(range.length);
        let Some(bytes) = stream.get(range.place..end) else {
            return Err("a range outside of the stream".into());
        };
        if bytes.len() > usize::MAX - auditor.fed() {
            return Err("too many bytes".into());
        }
        auditor = auditor.feed(bytes)?;
    }
    Ok(auditor.report()?)
}
