//! Reports of parts, merged, beside the report of the whole stream.

use crate::begun::{IN_ORDER, LINES, SIZE, TAILS, cuts, four, stream_of};
use crate::called::{of_classes, of_ranges, of_split, whole};
use crate::shown::Shown;
use simplex_audit::audit::Committees;
use simplex_schemes::marked::Marked;
use simplex_shards::cut::Cut;
use std::alloc::Global;
use std::process::Abort;
use std::test::Fail;

/// Cut in each way the stream has this report.
fn expect(
    rt: &impl Abort,
    alloc: Global,
    committees: &Committees<Marked>,
    cut: &Cut,
    stream: &[u8],
    wanted: &Shown,
) -> Result<(), Fail> {
    assert!(rt;
        of_split(alloc, committees, cut, stream)? == *wanted,
        "{cut:?}"
    );
    assert!(rt;
        of_classes(alloc, committees, cut, stream)? == *wanted,
        "{cut:?}"
    );
    assert!(rt;
        of_ranges(alloc, committees, cut, stream)? == *wanted,
        "{cut:?}"
    );
    Ok(())
}

/// Two classes, each of which has messages.
#[test]
fn ample(rt: HostRuntime) -> Result<(), Fail> {
    let alloc = rt.alloc();
    let committees = four(alloc)?;
    let stream = stream_of(alloc, &IN_ORDER, TAILS[1])?;
    let [cut, _] = cuts(2);
    let parts = of_split(alloc, &committees, &cut, &stream)?;
    let classes = of_classes(alloc, &committees, &cut, &stream)?;
    let ranges = of_ranges(alloc, &committees, &cut, &stream)?;
    for found in [parts, classes, ranges] {
        assert_eq!(rt; found.text.as_str(), LINES);
    }
    Ok(())
}

/// Into 16 and 64 classes a cut leaves some without messages.
#[test]
fn ample_every_cut_gives_the_report_of_the_stream(rt: HostRuntime) -> Result<(), Fail> {
    let alloc = rt.alloc();
    let committees = four(alloc)?;
    for tail in &TAILS {
        let stream = stream_of(alloc, &IN_ORDER, tail)?;
        let wanted = whole(alloc, &committees, &stream)?;
        let place = wanted.fault.map(|fault| fault.place);
        let ends = if tail.is_empty() { None } else { Some(SIZE) };
        assert_eq!(rt; wanted.text.as_str(), LINES);
        assert_eq!(rt; (wanted.read, place), (11, ends));
        for classes in [1, 2, 3, 16, 64] {
            for cut in &cuts(classes) {
                expect(&rt, alloc, &committees, cut, &stream, &wanted)?;
            }
        }
    }
    Ok(())
}

#[test]
fn ample_a_stream_without_messages(rt: HostRuntime) -> Result<(), Fail> {
    let alloc = rt.alloc();
    let committees = four(alloc)?;
    for tail in &TAILS {
        let stream = stream_of(alloc, &[], tail)?;
        let wanted = whole(alloc, &committees, &stream)?;
        assert_eq!(rt; wanted.read, 0);
        for cut in &cuts(3) {
            expect(&rt, alloc, &committees, cut, &stream, &wanted)?;
        }
    }
    Ok(())
}
