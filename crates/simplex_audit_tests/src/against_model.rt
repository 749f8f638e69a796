//! The audit and the deferred audit beside the auditor by its definition, over many small streams.

use crate::model::audit_by_definition;
use crate::outcome::{deferred_outcome_of, four_and_one, outcome_of};
use crate::streams::{TAILS, stream_of};
use simplex_audit::audit::Committees;
use simplex_evidence::types::Activity;
use simplex_scheme::scheme::{Digest, Listing};
use simplex_schemes::marked::MarkedDigest;
use std::alloc::Global;
use std::process::Abort;
use std::test::Fail;

/// How many participants the committees of epochs 0 and 1 have, and the bound that messages are read under.
const SIZES: ([usize; 2], u32) = ([4, 1], 4);

/// The audit of a stream, and the deferred one, return what the auditor by its definition does.
fn check<S: Listing<D>, D: Digest>(
    rt: &impl Abort,
    alloc: Global,
    committees: &Committees<S>,
    stream: &[u8],
) -> Result<(), Fail> {
    let (sizes, bound) = SIZES;
    let wanted = audit_by_definition::<Activity<S, D>>(alloc, &sizes, &bound, stream)?;
    let found = outcome_of::<S, D>(alloc, committees, stream)?;
    assert_eq!(rt; found, wanted, "of {stream:?}");
    let found = deferred_outcome_of::<S, D>(alloc, committees, stream)?;
    assert_eq!(rt; found, wanted, "deferred, of {stream:?}");
    Ok(())
}

#[test]
fn ample_every_small_stream_is_audited_by_the_definition(rt: HostRuntime) -> Result<(), Fail> {
    let alloc = rt.alloc();
    let committees = four_and_one(alloc)?;
    for (messages, streams) in [(0, 1), (1, 24), (2, 576), (3, 13824)] {
        for number in 0..streams {
            let mut stream = stream_of(alloc, messages, number)?;
            stream.extend_from_slice(TAILS[number / 7 % 6])?;
            check::<_, MarkedDigest>(&rt, alloc, &committees, stream.as_slice())?;
        }
    }
    Ok(())
}
