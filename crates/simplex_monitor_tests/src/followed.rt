//! Where the window of a monitor is behind each message, what is recorded, and what is told, once.

use crate::begun::{begin, four};
use simplex_monitor::monitor::Monitor;
use simplex_schemes::marked::{Marked, MarkedDigest};
use std::alloc::Global;
use std::test::Fail;

/// What a monitor shows behind a message: the view of the floor, how many votes are recorded, how many messages were below the
/// floor, and how many above the window; how much evidence is told, and how many participants the told splits accuse; and how
/// much evidence and how many splits there are from the floor on.
type Shown = [u64; 8];

/// Messages, and what is shown behind each.
const STEPS: &[(&[u8], Shown)] = &[
    // A notarize of a view above the window.
    (&[0, 0, 9, 5, 6, 1, 0xaa], [0, 0, 0, 1, 0, 0, 0, 0]),
    // A finalization of view 5.
    (
        &[6, 0, 5, 4, 6, 3, 0, 0xaa, 1, 0xaa, 2, 0xaa],
        [3, 3, 0, 1, 0, 0, 0, 0],
    ),
    // Notarizes below the floor, and above the window.
    (&[0, 0, 2, 1, 6, 1, 0xaa], [3, 3, 1, 1, 0, 0, 0, 0]),
    (&[0, 0, 9, 5, 6, 1, 0xaa], [3, 3, 1, 2, 0, 0, 0, 0]),
    // Two notarizes that contradict.
    (&[0, 0, 8, 5, 6, 1, 0xaa], [3, 4, 1, 2, 0, 0, 0, 0]),
    (&[0, 0, 8, 5, 7, 1, 0xaa], [3, 5, 1, 2, 1, 0, 1, 0]),
    // A finalization of view 50 without valid signatures.
    (
        &[6, 0, 50, 49, 6, 3, 0, 0xbb, 1, 0xbb, 2, 0xbb],
        [3, 5, 1, 3, 0, 0, 1, 0],
    ),
    // Two notarizations that split view 8, and the second again.
    (
        &[1, 0, 8, 5, 6, 3, 1, 0xaa, 2, 0xaa, 3, 0xaa],
        [3, 7, 1, 3, 0, 0, 1, 0],
    ),
    (
        &[1, 0, 8, 5, 7, 3, 0, 0xaa, 1, 0xaa, 2, 0xaa],
        [3, 9, 1, 3, 1, 2, 2, 1],
    ),
    (
        &[1, 0, 8, 5, 7, 3, 0, 0xaa, 1, 0xaa, 2, 0xaa],
        [3, 9, 1, 3, 0, 0, 2, 1],
    ),
    // One more who is accused there, and its vote again.
    (&[0, 0, 8, 5, 7, 3, 0xaa], [3, 10, 1, 3, 1, 3, 3, 1]),
    (&[0, 0, 8, 5, 7, 3, 0xaa], [3, 10, 1, 3, 0, 0, 3, 1]),
    // A finalization of view 20.
    (
        &[6, 0, 20, 19, 6, 3, 0, 0xaa, 1, 0xaa, 2, 0xaa],
        [18, 3, 1, 3, 0, 0, 0, 0],
    ),
    (&[0, 0, 8, 5, 7, 3, 0xaa], [18, 3, 2, 3, 0, 0, 0, 0]),
    // A notarization whose attestations are not in order: its refusal is final, and what follows is dropped.
    (
        &[1, 0, 20, 5, 6, 2, 2, 0xaa, 1, 0xaa],
        [18, 3, 2, 3, 0, 0, 0, 0],
    ),
    (&[0, 0, 20, 5, 6, 3, 0xaa], [18, 3, 2, 3, 0, 0, 0, 0]),
];

/// The monitor that was fed a piece more.
fn fed_on<'a>(
    monitor: Monitor<'a, Marked, MarkedDigest>,
    piece: &[u8],
) -> Result<Monitor<'a, Marked, MarkedDigest>, Fail> {
    if piece.len() > usize::MAX - monitor.fed() {
        return Err("too many bytes".into());
    }
    Ok(monitor.feed(piece)?)
}

/// What a monitor shows.
fn shown(alloc: Global, monitor: &mut Monitor<'_, Marked, MarkedDigest>) -> Result<Shown, Fail> {
    let news = monitor.news();
    let mut accused = 0;
    for split in &news.splits {
        accused = split.named;
    }
    Ok([
        monitor.floor().view().get(),
        monitor.votes() as u64,
        monitor.below(),
        monitor.above(),
        news.evidence.len() as u64,
        accused as u64,
        monitor.evidence(alloc)?.len() as u64,
        monitor.splits(alloc)?.len() as u64,
    ])
}

#[test]
fn ample(rt: HostRuntime) -> Result<(), Fail> {
    let alloc = rt.alloc();
    let committees = four(alloc)?;
    let mut monitor = begin(alloc, &committees);
    for (message, wanted) in STEPS {
        monitor = fed_on(monitor, message)?;
        assert_eq!(rt; shown(alloc, &mut monitor)?, *wanted, "behind {message:?}");
    }
    assert!(rt; monitor.is_over());
    let Some(fault) = monitor.fault(alloc)? else {
        return Err("no fault".into());
    };
    assert_eq!(rt;
        (monitor.read(), fault.place, monitor.fed()),
        (14, 128, 138)
    );
    Ok(())
}

#[test]
fn ample_a_flood_of_far_views_is_not_recorded(rt: HostRuntime) -> Result<(), Fail> {
    let alloc = rt.alloc();
    let committees = four(alloc)?;
    let mut monitor = begin(alloc, &committees);
    // The views are 128 times these numbers.
    for number in 8..128u8 {
        monitor = fed_on(monitor, &[0, 0, 0x80, number, 1, 6, 1, 0xaa])?;
        assert_eq!(rt; (monitor.votes(), monitor.above()), (0, number as u64 - 7));
    }
    Ok(())
}

/// Evidence that no call took meanwhile is told in the order in which its second votes came.
#[test]
fn ample_evidence_is_told_in_order(rt: HostRuntime) -> Result<(), Fail> {
    let alloc = rt.alloc();
    let committees = four(alloc)?;
    let mut monitor = begin(alloc, &committees);
    for payload in [6, 7] {
        for signer in [2, 0, 3, 1] {
            monitor = fed_on(monitor, &[0, 0, 1, 0, payload, signer, 0xaa])?;
        }
    }
    let mut signers = Vec::new(alloc);
    for item in &monitor.news().evidence {
        signers.push(item.signer().get())?;
    }
    assert_eq!(rt; signers.as_slice(), [2, 0, 3, 1].as_slice());
    Ok(())
}
