//! Equality, hashes and clones at a few values.

use crate::without_memory::is_out;
use simplex_base::codec::{Fixed, Read, decode_cfg};
use simplex_base::positions::{Epoch, Participant, Round, View};
use simplex_evidence::types::Activity;
use simplex_lead::{Plan, Recipients};
use simplex_scheme::scheme::{CertificateScheme, Digest, Proposal};
use simplex_schemes::marked::{Marked, MarkedDigest};
use std::alloc::Global;
use std::collections::HashSet;
use std::process::Abort;
use std::test::Fail;

/// Values are equal exactly where their encodings are.
fn are_told_apart<T: Read + PartialEq + Drop>(
    rt: &impl Abort,
    alloc: Global,
    cfg: &T::Cfg,
    encodings: &[&[u8]],
) -> Result<(), Fail> {
    for encoding in encodings {
        let value = decode_cfg::<T>(alloc, encoding, cfg)?;
        for other in encodings {
            let is_same = encoding == other;
            assert!(rt;
                equals(alloc, cfg, &value, other)? == is_same,
                "{encoding:?}, {other:?}"
            );
        }
    }
    Ok(())
}

/// Whether a value equals the one with this encoding.
fn equals<T: Read + PartialEq + Drop>(
    alloc: Global,
    cfg: &T::Cfg,
    value: &T,
    encoding: &[u8],
) -> Result<bool, Fail> {
    Ok(*value == decode_cfg::<T>(alloc, encoding, cfg)?)
}

/// Messages that differ in their kind or in one part.
const MESSAGES: [&[u8]; 16] = [
    &[0, 0, 10, 5, 6, 1, 0xaa],
    &[0, 1, 10, 5, 6, 1, 0xaa],
    &[0, 0, 11, 5, 6, 1, 0xaa],
    &[0, 0, 10, 4, 6, 1, 0xaa],
    &[0, 0, 10, 5, 7, 1, 0xaa],
    &[0, 0, 10, 5, 6, 2, 0xaa],
    &[0, 0, 10, 5, 6, 1, 0],
    &[5, 0, 10, 5, 6, 1, 0xaa],
    &[3, 0, 10, 1, 0xaa],
    &[1, 0, 10, 5, 6, 1, 1, 0xaa],
    &[2, 0, 10, 5, 6, 1, 1, 0xaa],
    &[1, 0, 10, 5, 6, 2, 0, 0xaa, 1, 0xaa],
    &[4, 0, 10, 1, 1, 0xaa],
    &[7, 0, 10, 5, 6, 1, 0xaa, 0, 10, 5, 7, 1, 0xaa],
    &[7, 0, 10, 5, 7, 1, 0xaa, 0, 10, 5, 6, 1, 0xaa],
    &[9, 0, 10, 1, 0xaa, 0, 10, 5, 6, 1, 0xaa],
];

/// Any two of these messages are unequal.
fn are_messages_told_apart<S: CertificateScheme, D: Digest>(
    rt: &impl Abort,
    alloc: Global,
) -> Result<(), Fail>
where
    S::Certificate: Eq,
{
    are_told_apart::<Activity<S, D>>(rt, alloc, &4, &MESSAGES)
}

#[test]
fn ample_messages(rt: HostRuntime) -> Result<(), Fail> {
    are_messages_told_apart::<Marked, MarkedDigest>(&rt, rt.alloc())
}

#[test]
fn ample_hashes(rt: HostRuntime) -> Result<(), Fail> {
    let mut seen = HashSet::new(rt.alloc());
    let round = Round::new(Epoch::new(0), View::new(10));
    let parts: [(u64, u8); 5] = [(5, 6), (5, 7), (4, 6), (5, 6), (5, 7)];
    for (parent, payload) in parts {
        let payload = MarkedDigest::from_bytes(&[payload]);
        seen.insert(Proposal::new(round, View::new(parent), payload))?;
    }
    assert!(rt; seen.len() == 3);
    Ok(())
}

/// Recipients and plans that list no keys are cloned without memory, and each clone equals its source. A clone that returns
/// `AllocError`, or another variant, is refused.
#[test]
fn without_memory_plans(rt: HostRuntime) -> Result<(), Fail> {
    let round = Round::new(Epoch::new(0), View::new(10));
    let all: Recipients<Participant> = Recipients::All;
    let one = Recipients::One(Participant::new(3));
    let prepare: Plan<Participant> = Plan::Prepare { round };
    let propose: Plan<Participant> = Plan::Propose { round };
    let _ = is_out(rt.alloc());
    assert!(rt; all.clone()? == all && one.clone()? == one && all != one);
    assert!(rt; prepare.clone()? == prepare && propose.clone()? == propose && prepare != propose);
    Ok(())
}
