//! A listener: which evidence and which splits it tells, behind which message, and that none is told twice.

use crate::outcome::marked;
use simplex_audit::audit::Committees;
use simplex_audit::listener::{Listener, News};
use simplex_base::positions::{Epoch, Round, View};
use simplex_rules::evidence::EquivocationKind;
use simplex_schemes::marked::{Marked, MarkedDigest};
use std::alloc::{AllocError, Global};
use std::process::Abort;
use std::test::Fail;

/// Messages of view 9, and what each completes: two notarizes of participant 1 and the first again; a finalize of participant
/// 2 and its nullify; a notarize of participant 3, and a certificate that lists another one of it; two finalizes of
/// participant 2; a certificate that splits the round; and another notarize of participant 2.
const MESSAGES: &[&[u8]] = &[
    &[0, 0, 9, 5, 6, 1, 0xaa],
    &[0, 0, 9, 5, 7, 1, 0xaa],
    &[0, 0, 9, 5, 6, 1, 0xaa],
    &[5, 0, 9, 5, 6, 2, 0xaa],
    &[3, 0, 9, 2, 0xaa],
    &[0, 0, 9, 5, 6, 3, 0xaa],
    &[1, 0, 9, 5, 7, 3, 0, 0xaa, 1, 0xaa, 3, 0xaa],
    &[5, 0, 9, 5, 7, 2, 0xaa],
    &[0, 0, 9, 5, 7, 0, 0xaa],
    &[1, 0, 9, 5, 6, 3, 1, 0xaa, 2, 0xaa, 3, 0xaa],
    &[1, 0, 9, 5, 6, 3, 1, 0xaa, 2, 0xaa, 3, 0xaa],
    &[0, 0, 9, 5, 6, 0, 0xaa],
];

/// An evidence that was told: behind which message, whom it accuses, and how.
type Told = (usize, u32, EquivocationKind);

/// A split that was told: behind which message, and how many are accused.
type ToldSplit = (usize, u32);

/// Adds what is told behind a message.
fn add(
    told: &mut Vec<Told>,
    splits: &mut Vec<ToldSplit>,
    place: usize,
    news: &News<Marked, MarkedDigest>,
) -> Result<(), AllocError> {
    for item in news.evidence.as_slice() {
        told.push((place, item.signer().get(), item.kind()))?;
    }
    for split in news.splits.as_slice() {
        splits.push((place, split.named))?;
    }
    Ok(())
}

/// The listener that was fed a piece more.
fn fed_on<'a>(
    listener: Listener<'a, Marked, MarkedDigest>,
    piece: &[u8],
) -> Result<Listener<'a, Marked, MarkedDigest>, Fail> {
    if piece.len() > usize::MAX - listener.auditor().fed() {
        return Err("too many bytes".into());
    }
    Ok(listener.feed(piece)?)
}

/// Feeds the messages, one piece each, and adds what each tells.
fn tell_all(
    alloc: Global,
    committees: &Committees<Marked>,
    messages: &[&[u8]],
    told: &mut Vec<Told>,
    splits: &mut Vec<ToldSplit>,
) -> Result<(), Fail> {
    let mut listener = Listener::<Marked, MarkedDigest>::new(alloc, committees);
    for place in 0..messages.len() {
        listener = fed_on(listener, messages[place])?;
        add(told, splits, place, &listener.news())?;
    }
    Ok(())
}

/// Panics unless what arises is told once, behind the message that completes it.
fn tell(
    rt: &impl Abort,
    alloc: Global,
    committees: &Committees<Marked>,
    messages: &[&[u8]],
) -> Result<(), Fail> {
    let mut told = Vec::new(alloc);
    let mut splits = Vec::new(alloc);
    tell_all(alloc, committees, messages, &mut told, &mut splits)?;
    let expected: &[Told] = &[
        (1, 1, EquivocationKind::ConflictingNotarize),
        (4, 2, EquivocationKind::NullifyFinalize),
        (6, 3, EquivocationKind::ConflictingNotarize),
        (7, 2, EquivocationKind::ConflictingFinalize),
        (11, 0, EquivocationKind::ConflictingNotarize),
    ];
    assert_eq!(rt; told.as_slice(), expected);
    let expected: &[ToldSplit] = &[(9, 3), (11, 4)];
    assert_eq!(rt; splits.as_slice(), expected);
    Ok(())
}

/// The listener that was fed the messages once more.
fn feed_all<'a>(
    listener: Listener<'a, Marked, MarkedDigest>,
) -> Result<Listener<'a, Marked, MarkedDigest>, Fail> {
    let mut listener = listener;
    for bytes in MESSAGES {
        listener = fed_on(listener, bytes)?;
    }
    Ok(listener)
}

/// How much evidence and how many splits are news.
fn counts(listener: &mut Listener<'_, Marked, MarkedDigest>) -> (usize, usize) {
    let news = listener.news();
    (news.evidence.len(), news.splits.len())
}

/// Panics unless what is below a floor is not told any more.
fn prune(rt: &impl Abort, alloc: Global, committees: &Committees<Marked>) -> Result<(), Fail> {
    let mut listener = feed_all(Listener::new(alloc, committees))?;
    listener.prune(Round::new(Epoch::new(0), View::new(9)));
    assert_eq!(rt; counts(&mut listener), (5, 2));
    let mut listener = feed_all(listener)?;
    assert_eq!(rt; counts(&mut listener), (0, 0));
    listener.prune(Round::new(Epoch::new(0), View::new(10)));
    let mut listener = feed_all(listener)?;
    assert_eq!(rt; counts(&mut listener), (0, 0));
    Ok(())
}

/// Panics unless a refusal ends the reading exactly if it is final, and the report is then that of what came before.
fn end(rt: &impl Abort, alloc: Global, committees: &Committees<Marked>) -> Result<(), Fail> {
    let listener = feed_all(Listener::new(alloc, committees))?;
    let listener = fed_on(listener, &[1, 0, 9])?;
    assert!(rt; !listener.auditor().is_over());
    let listener = fed_on(listener, &[5, 6, 0])?;
    assert!(rt; listener.auditor().is_over());
    let listener = feed_all(listener)?;
    let report = listener.auditor().report()?;
    assert_eq!(rt; report.read, MESSAGES.len());
    assert_eq!(rt; report.evidence.len(), 5);
    Ok(())
}

#[test]
fn ample_evidence_and_splits_are_told_once(rt: HostRuntime) -> Result<(), Fail> {
    let committees = marked(rt.alloc(), 4)?;
    tell(&rt, rt.alloc(), &committees, MESSAGES)
}

#[test]
fn ample_below_a_floor_nothing_is_told(rt: HostRuntime) -> Result<(), Fail> {
    let committees = marked(rt.alloc(), 4)?;
    prune(&rt, rt.alloc(), &committees)
}

#[test]
fn ample_a_final_refusal_ends_an_audit(rt: HostRuntime) -> Result<(), Fail> {
    let committees = marked(rt.alloc(), 4)?;
    end(&rt, rt.alloc(), &committees)
}
