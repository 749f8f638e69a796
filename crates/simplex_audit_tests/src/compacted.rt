//! Three nodes' logs of a round come down to one, and the audit stays as it was.

use crate::outcome::{marked, outcome_of};
use simplex_audit::audit::Committees;
use simplex_audit::compaction::compact;
use simplex_base::positions::{Epoch, Round, View};
use simplex_scheme::scheme::{Digest, Listing};
use simplex_schemes::marked::MarkedDigest;
use std::alloc::{AllocError, Global};
use std::process::Abort;
use std::test::Fail;

/// Notarizes of participants 0, 1 and 2, and the notarization by them.
const FIRST: &[u8] = &[
    0, 0, 10, 5, 6, 0, 0xaa, //
    0, 0, 10, 5, 6, 1, 0xaa, //
    0, 0, 10, 5, 6, 2, 0xaa, //
    1, 0, 10, 5, 6, 3, 0, 0xaa, 1, 0xaa, 2, 0xaa,
];

/// Notarizes of participants 3 and 1, the notarization by 1, 2 and 3, another notarize of 2, and the finalization by 0, 1 and
/// 2.
const SECOND: &[u8] = &[
    0, 0, 10, 5, 6, 3, 0xaa, //
    0, 0, 10, 5, 6, 1, 0xaa, //
    1, 0, 10, 5, 6, 3, 1, 0xaa, 2, 0xaa, 3, 0xaa, //
    0, 0, 10, 5, 7, 2, 0xaa, //
    6, 0, 10, 5, 6, 3, 0, 0xaa, 1, 0xaa, 2, 0xaa,
];

/// A finalize of participant 3 that is not valid, and then the same, valid. A third notarize of 2, and evidence of the first
/// two. The nullification by 1, 2 and 3, and the finalization again. A certificate of two votes, of which one is valid.
const THIRD: &[u8] = &[
    5, 0, 10, 5, 6, 3, 0xbb, //
    5, 0, 10, 5, 6, 3, 0xaa, //
    0, 0, 10, 5, 8, 2, 0xaa, //
    7, 0, 10, 5, 6, 2, 0xaa, 0, 10, 5, 7, 2, 0xaa, //
    4, 0, 10, 3, 1, 0xaa, 2, 0xaa, 3, 0xaa, //
    6, 0, 10, 5, 6, 3, 0, 0xaa, 1, 0xaa, 2, 0xaa, //
    1, 0, 10, 5, 7, 2, 0, 0xaa, 1, 0xbb,
];

/// What is news in the logs, one after the other. Of the last certificate it is a vote.
const KEPT: &[u8] = &[
    0, 0, 10, 5, 6, 0, 0xaa, //
    0, 0, 10, 5, 6, 1, 0xaa, //
    0, 0, 10, 5, 6, 2, 0xaa, //
    1, 0, 10, 5, 6, 3, 0, 0xaa, 1, 0xaa, 2, 0xaa, //
    0, 0, 10, 5, 6, 3, 0xaa, //
    0, 0, 10, 5, 7, 2, 0xaa, //
    6, 0, 10, 5, 6, 3, 0, 0xaa, 1, 0xaa, 2, 0xaa, //
    5, 0, 10, 5, 6, 3, 0xaa, //
    4, 0, 10, 3, 1, 0xaa, 2, 0xaa, 3, 0xaa, //
    0, 0, 10, 5, 7, 0, 0xaa,
];

/// Some bytes, one after the other.
fn joined(alloc: Global, parts: &[&[u8]]) -> Result<Vec<u8>, AllocError> {
    let mut bytes = Vec::new(alloc);
    for part in parts {
        bytes.extend_from_slice(*part)?;
    }
    Ok(bytes)
}

/// The round of a view of epoch 0.
fn round(view: u64) -> Round {
    Round::new(Epoch::new(0), View::new(view))
}

/// The compactions of the logs, each of its own, one after the other.
fn compactions<S: Listing<D>, D: Digest>(
    alloc: Global,
    committees: &Committees<S>,
) -> Result<Vec<u8>, Fail> {
    let mut each = Vec::new(alloc);
    for log in [FIRST, SECOND, THIRD] {
        let kept = compact::<S, D>(alloc, committees, log, round(0))?;
        each.extend_from_slice(kept.messages.as_slice())?;
    }
    Ok(each)
}

/// A stream is compacted to what is news in the logs.
fn keep<S: Listing<D>, D: Digest>(
    rt: &impl Abort,
    alloc: Global,
    committees: &Committees<S>,
    stream: &[u8],
) -> Result<(), Fail> {
    let compaction = compact::<S, D>(alloc, committees, stream, round(10))?;
    assert!(rt; compaction.messages.as_slice() == KEPT, "of {stream:?}");
    let audited = outcome_of::<S, D>(alloc, committees, stream)?;
    assert_eq!(rt; compaction.read, audited.read, "of {stream:?}");
    assert_eq!(rt; compaction.fault, audited.fault, "of {stream:?}");
    Ok(())
}

/// The audit of what is kept is that of a stream, of which nothing is kept from a later round on.
fn audit_kept<S: Listing<D>, D: Digest>(
    rt: &impl Abort,
    alloc: Global,
    committees: &Committees<S>,
    stream: &[u8],
) -> Result<(), Fail> {
    let audited = outcome_of::<S, D>(alloc, committees, stream)?;
    let kept = outcome_of::<S, D>(alloc, committees, KEPT)?;
    assert_eq!(rt; kept.text, audited.text, "of {stream:?}");
    let later = compact::<S, D>(alloc, committees, stream, round(11))?;
    assert!(rt; later.messages.is_empty() && later.read == audited.read);
    Ok(())
}

/// The logs, whole and cut, and what they and their compactions are compacted to are all compacted to the same.
fn check<S: Listing<D>, D: Digest>(
    rt: &impl Abort,
    alloc: Global,
    committees: &Committees<S>,
) -> Result<(), Fail> {
    let each = compactions::<S, D>(alloc, committees)?;
    let logs = joined(alloc, &[FIRST, SECOND, THIRD])?;
    let cut = joined(alloc, &[FIRST, SECOND, THIRD, &[0, 0, 10]])?;
    for stream in [logs.as_slice(), each.as_slice(), cut.as_slice(), KEPT] {
        keep::<S, D>(rt, alloc, committees, stream)?;
        audit_kept::<S, D>(rt, alloc, committees, stream)?;
    }
    Ok(())
}

#[test]
fn ample(rt: HostRuntime) -> Result<(), Fail> {
    let committees = marked(rt.alloc(), 4)?;
    check::<_, MarkedDigest>(&rt, rt.alloc(), &committees)
}
