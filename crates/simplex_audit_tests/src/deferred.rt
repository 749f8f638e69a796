//! A deferred audit returns what an audit does, and `store_batch` what a ledger stores.

use crate::outcome::{deferred_outcome_of, marked, outcome_of};
use simplex_audit::audit::Committees;
use simplex_audit::ledger::{Ledger, store_batch};
use simplex_scheme::scheme::{Digest, Listing};
use simplex_schemes::marked::MarkedDigest;
use std::alloc::Global;
use std::process::Abort;
use std::test::Fail;

/// Two notarizes of participant 1 that contradict, and a notarize of participant 2.
const STORED: &[u8] = &[
    7, 0, 10, 5, 6, 1, 0xaa, 0, 10, 5, 7, 1, 0xaa, //
    0, 0, 10, 5, 6, 2, 0xaa,
];

/// Two nullifications of view 10 and a finalization of it, and the beginning of a message.
const BATCH: &[u8] = &[
    4, 0, 10, 3, 0, 0xaa, 1, 0xaa, 2, 0xaa, //
    4, 0, 10, 3, 1, 0xaa, 2, 0xaa, 3, 0xaa, //
    6, 0, 10, 5, 6, 3, 1, 0xaa, 2, 0xaa, 3, 0xaa, //
    0, 0,
];

/// What a ledger of stored evidence stores after the batch.
fn fed_batch<S: Listing<D>, D: Digest>(
    alloc: Global,
    committees: &Committees<S>,
    stored: &[u8],
) -> Result<Vec<u8>, Fail> {
    let ledger = Ledger::<S, D>::resume(alloc, committees, stored)?;
    if BATCH.len() > usize::MAX - ledger.fed() {
        return Err("too many bytes".into());
    }
    Ok(ledger.feed(BATCH)?.store(alloc)?)
}

/// A deferred audit returns what an audit does.
fn audit<S: Listing<D>, D: Digest>(
    rt: &impl Abort,
    alloc: Global,
    committees: &Committees<S>,
    stream: &[u8],
) -> Result<(), Fail> {
    let found = deferred_outcome_of::<S, D>(alloc, committees, stream)?;
    let wanted = outcome_of::<S, D>(alloc, committees, stream)?;
    assert_eq!(rt; found, wanted, "of {stream:?}");
    Ok(())
}

/// `store_batch` returns what a ledger does.
fn store<S: Listing<D>, D: Digest>(
    rt: &impl Abort,
    alloc: Global,
    committees: &Committees<S>,
    stored: &[u8],
) -> Result<(), Fail> {
    let wanted = fed_batch::<S, D>(alloc, committees, stored)?;
    let found = store_batch::<S, D>(alloc, committees, stored, BATCH)?;
    assert_eq!(rt; found, wanted, "after {stored:?}");
    Ok(())
}

/// Streams are audited at once and deferred, and batches are stored both ways.
fn check<S: Listing<D>, D: Digest>(
    rt: &impl Abort,
    alloc: Global,
    committees: &Committees<S>,
) -> Result<(), Fail> {
    for stream in [STORED, BATCH, b"".as_slice()] {
        audit::<S, D>(rt, alloc, committees, stream)?;
    }
    for stored in [b"".as_slice(), STORED] {
        store::<S, D>(rt, alloc, committees, stored)?;
    }
    Ok(())
}

#[test]
fn ample(rt: HostRuntime) -> Result<(), Fail> {
    let committees = marked(rt.alloc(), 4)?;
    check::<_, MarkedDigest>(&rt, rt.alloc(), &committees)
}
