//! An auditor that gives up rounds: what it then has recorded and reports of votes below, at and above its floor.

use crate::outcome::marked;
use simplex_audit::audit::{Auditor, Committees};
use simplex_base::positions::{Epoch, Round, View};
use simplex_schemes::marked::{Marked, MarkedDigest};
use std::alloc::{AllocError, Global};
use std::process::Abort;
use std::test::Fail;

/// Notarizes for two proposals each: of participant 1 in view 9 and of participant 2 in view 10; and one of participant 3 in
/// view 11.
const EARLY: &[u8] = &[
    0, 0, 9, 5, 6, 1, 0xaa, 0, 0, 9, 5, 7, 1, 0xaa, //
    0, 0, 10, 5, 6, 2, 0xaa, 0, 0, 10, 5, 7, 2, 0xaa, //
    0, 0, 11, 5, 6, 3, 0xaa,
];

/// Notarizes of participant 0 for two proposals in view 9, and that of participant 3 for the other proposal in view 11.
const LATE: &[u8] = &[
    0, 0, 9, 5, 6, 0, 0xaa, 0, 0, 9, 5, 7, 0, 0xaa, //
    0, 0, 11, 5, 7, 3, 0xaa,
];

/// What an auditor says of its stream.
#[derive(Debug, PartialEq, Eq, Drop)]
struct Told {
    /// How many messages it has read.
    read: usize,
    /// How many votes it has recorded.
    votes: usize,
    /// The views in which a signer is accused, each with the signer.
    accused: Vec<(u64, u32)>,
}

/// A view of epoch 0.
fn view(number: u64) -> Round {
    Round::new(Epoch::new(0), View::new(number))
}

/// What an auditor says.
fn told_by(alloc: Global, auditor: &Auditor<'_, Marked, MarkedDigest>) -> Result<Told, AllocError> {
    let report = auditor.report()?;
    let mut accused = Vec::new(alloc);
    for item in &report.evidence {
        accused.push((item.round().view().get(), item.signer().get()))?;
    }
    Ok(Told {
        read: report.read,
        votes: auditor.votes(),
        accused,
    })
}

/// The same auditor that was fed a piece more.
fn fed<'a>(
    auditor: Auditor<'a, Marked, MarkedDigest>,
    piece: &[u8],
) -> Result<Auditor<'a, Marked, MarkedDigest>, Fail> {
    if piece.len() > usize::MAX - auditor.fed() {
        return Err("too many bytes".into());
    }
    Ok(auditor.feed(piece)?)
}

/// Panics unless an auditor has this floor and says this.
fn expect(
    rt: &impl Abort,
    alloc: Global,
    auditor: &Auditor<'_, Marked, MarkedDigest>,
    floor: u64,
    (read, votes): (usize, usize),
    accused: &[(u64, u32)],
) -> Result<(), Fail> {
    let told = told_by(alloc, auditor)?;
    assert_eq!(rt; auditor.floor(), view(floor));
    assert_eq!(rt; (told.read, told.votes), (read, votes));
    assert_eq!(rt; told.accused.as_slice(), accused);
    Ok(())
}

/// Prunes between pieces, at a floor in the middle, below it, and above all votes.
fn prune(rt: &impl Abort, alloc: Global, committees: &Committees<Marked>) -> Result<(), Fail> {
    let mut auditor = fed(Auditor::new(alloc, committees), EARLY)?;
    expect(rt, alloc, &auditor, 0, (5, 5), &[(9, 1), (10, 2)])?;
    auditor.prune(view(10));
    expect(rt, alloc, &auditor, 10, (5, 3), &[(10, 2)])?;
    auditor = fed(auditor, LATE)?;
    expect(rt, alloc, &auditor, 10, (8, 4), &[(10, 2), (11, 3)])?;
    auditor.prune(view(9));
    expect(rt, alloc, &auditor, 10, (8, 4), &[(10, 2), (11, 3)])?;
    auditor.prune(view(12));
    expect(rt, alloc, &auditor, 12, (8, 0), &[])?;
    Ok(())
}

/// A floor that is given before the first piece gives the same.
fn prune_first(
    rt: &impl Abort,
    alloc: Global,
    committees: &Committees<Marked>,
) -> Result<(), Fail> {
    let mut auditor = Auditor::new(alloc, committees);
    auditor.prune(view(10));
    auditor = fed(fed(auditor, EARLY)?, LATE)?;
    expect(rt, alloc, &auditor, 10, (8, 4), &[(10, 2), (11, 3)])
}

#[test]
fn ample_rounds_are_given_up(rt: HostRuntime) -> Result<(), Fail> {
    let committees = marked(rt.alloc(), 4)?;
    prune(&rt, rt.alloc(), &committees)?;
    prune_first(&rt, rt.alloc(), &committees)
}
