//! The canonical form of a stream, of the stream in other orders, and of one that repeats its messages.

use crate::begun::{IN_ORDER, Message, SIZE, TAILS, four, stream_of};
use simplex_audit::audit::{Committees, audit};
use simplex_rules::evidence::Accusation;
use simplex_schemes::marked::{Marked, MarkedDigest};
use simplex_shards::canonical::canonical;
use std::alloc::Global;
use std::test::Fail;

/// The places of the messages in the ascending order of their bytes, each once.
const ASCENDING: [usize; 10] = [0, 4, 7, 9, 3, 8, 2, 1, 5, 6];

/// Other orders of the messages, some of which come again.
const ORDERS: [&[usize]; 4] = [
    &IN_ORDER,
    &[10, 9, 8, 7, 6, 5, 4, 3, 2, 1],
    &[6, 6, 5, 1, 2, 8, 3, 9, 7, 4, 4, 0, 10, 6],
    &ASCENDING,
];

/// Whom the report of a stream accuses.
fn accused(
    alloc: Global,
    committees: &Committees<Marked>,
    stream: &[u8],
) -> Result<Vec<Accusation>, Fail> {
    let report = audit::<Marked, MarkedDigest>(alloc, committees, stream)?;
    let mut accused = Vec::new(alloc);
    for evidence in &report.evidence {
        accused.push(evidence.accusation())?;
    }
    Ok(accused)
}

#[test]
fn ample(rt: HostRuntime) -> Result<(), Fail> {
    let alloc = rt.alloc();
    let stream = stream_of(alloc, &IN_ORDER, TAILS[1])?;
    let form = canonical::<Message>(alloc, 4, &stream)?;
    assert_eq!(rt; form.bytes, stream_of(alloc, &ASCENDING, TAILS[0])?);
    assert_eq!(rt;
        (form.read, form.fault.map(|fault| fault.place)),
        (11, Some(SIZE))
    );
    Ok(())
}

#[test]
fn ample_other_orders(rt: HostRuntime) -> Result<(), Fail> {
    let alloc = rt.alloc();
    let committees = four(alloc)?;
    let wanted = stream_of(alloc, &ASCENDING, TAILS[0])?;
    let all = accused(alloc, &committees, &wanted)?;
    assert_eq!(rt; all.len(), 5);
    for order in &ORDERS {
        for tail in &TAILS {
            let stream = stream_of(alloc, order, tail)?;
            let form = canonical::<Message>(alloc, 4, &stream)?;
            assert!(rt; form.bytes == wanted && form.read == order.len());
            assert!(rt; accused(alloc, &committees, &stream)? == all);
        }
    }
    Ok(())
}
