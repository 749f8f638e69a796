//! Calls that allocate nothing: what they return while every allocation fails.
//!
//! Step `refusals` of the gate runs each test here with every allocation made to fail, from that of `memory_ends` on.

use simplex_audit::audit::{Auditor, Committees, CommitteesError, audit};
use simplex_audit_tests::outcome::marked;
use simplex_base::positions::{Epoch, Participant, Round, View};
use simplex_places::places::AttestationPlace;
use simplex_places::records::{NULLIFY_FINALIZE, Record, VotePlace};
use simplex_scheme::scheme::{CertificateScheme, Digest, Listing, VoteKind};
use simplex_schemes::marked::{Marked, MarkedDigest};
use std::alloc::Global;
use std::process::Abort;
use std::test::Fail;

/// Makes the allocation from which on every one may fail.
pub(crate) fn memory_ends(alloc: Global) {
    let _ = Vec::<u8>::with_capacity(alloc, 12345);
}

/// Marked committees of one participant and of four for these epochs.
fn one_and_four(alloc: Global, first: u64, second: u64) -> Result<Vec<(Epoch, Marked)>, Fail> {
    let one = (Epoch::new(first), Marked::new(alloc, 1, None)?);
    let four = (Epoch::new(second), Marked::new(alloc, 4, None)?);
    Ok(Vec::from_array(alloc, [one, four])?)
}

/// How many participants the committee of an epoch has.
fn size_at(committees: &Committees<Marked>, epoch: u64) -> Option<usize> {
    let committee = committees.get(Epoch::new(epoch))?;
    Some(committee.participants().len())
}

#[test]
fn without_memory_committees(rt: HostRuntime) -> Result<(), Fail> {
    let alloc = rt.alloc();
    let (none, twice) = (Vec::new(alloc), one_and_four(alloc, 1, 1)?);
    let (falling, rising) = (one_and_four(alloc, 2, 1)?, one_and_four(alloc, 1, 3)?);
    let every = Marked::new(alloc, 4, None)?;
    memory_ends(alloc);
    let empty = Committees::<Marked>::try_from_vec(none);
    assert_eq!(rt; empty.err(), Some(CommitteesError::Empty));
    for pairs in [twice, falling] {
        let unordered = Committees::try_from_vec(pairs);
        assert_eq!(rt; unordered.err(), Some(CommitteesError::Unordered));
    }
    let listed = Committees::try_from_vec(rising)?;
    assert_eq!(rt; listed.bound(), 4);
    for (epoch, size) in [(0, None), (1, Some(1)), (2, None), (3, Some(4)), (4, None)] {
        assert_eq!(rt; size_at(&listed, epoch), size, "at {epoch}");
    }
    let every = Committees::every(every);
    assert_eq!(rt; every.bound(), 4);
    assert_eq!(rt; size_at(&every, 9), Some(4));
    Ok(())
}

/// What auditors return after two votes and the beginning of a message, and after nothing.
fn check_auditors<S: Listing<D>, D: Digest>(
    rt: &impl Abort,
    alloc: Global,
    committees: &Committees<S>,
) -> Result<(), Fail> {
    let stream = [0, 0, 10, 5, 6, 1, 0xaa, 3, 0, 10, 1, 0xaa, 0, 0];
    let auditor = Auditor::<S, D>::new(alloc, committees).feed(&stream)?;
    memory_ends(alloc);
    assert!(rt; auditor.fed() == 14 && auditor.votes() == 2);
    assert!(rt; auditor.rest() == [0, 0].as_slice());
    let auditor = Auditor::<S, D>::new(alloc, committees);
    assert!(rt; auditor.fed() == 0 && auditor.votes() == 0);
    assert!(rt; auditor.rest().is_empty());
    Ok(())
}

#[test]
fn without_memory_auditors(rt: HostRuntime) -> Result<(), Fail> {
    let committees = marked(rt.alloc(), 4)?;
    check_auditors::<_, MarkedDigest>(&rt, rt.alloc(), &committees)
}

/// Two finalizes, two notarizes and a nullify of participant 1.
const CONTRADICTING: &[u8] = &[
    8, 0, 10, 5, 7, 1, 0xaa, 0, 10, 5, 6, 1, 0xaa, //
    0, 0, 10, 5, 6, 1, 0xaa, 0, 0, 10, 5, 7, 1, 0xaa, //
    3, 0, 10, 1, 0xaa,
];

/// The round and the signer of each evidence of a report.
fn check_evidence<S: Listing<D>, D: Digest>(
    rt: &impl Abort,
    alloc: Global,
    committees: &Committees<S>,
) -> Result<(), Fail> {
    let report = audit::<S, D>(alloc, committees, CONTRADICTING)?;
    memory_ends(alloc);
    assert!(rt; report.evidence.len() == 3);
    for evidence in &report.evidence {
        assert!(rt; evidence.round() == Round::new(Epoch::new(0), View::new(10)));
        assert!(rt; evidence.signer() == Participant::new(1));
    }
    Ok(())
}

#[test]
fn without_memory_evidence(rt: HostRuntime) -> Result<(), Fail> {
    let committees = marked(rt.alloc(), 4)?;
    check_evidence::<_, MarkedDigest>(&rt, rt.alloc(), &committees)
}

/// Whether a clone equals its source, where it could be made.
fn is_cloned<T: Copy + PartialEq>(value: &T) -> bool {
    match value.clone() {
        Ok(copy) => copy == *value,
        Err(_) => false,
    }
}

/// Values that can be copied are cloned without memory, and each clone equals its source. A clone that returns `AllocError` is
/// refused.
#[test]
fn without_memory_clones(rt: HostRuntime) {
    memory_ends(rt.alloc());
    let suspect = AttestationPlace {
        epoch: 1,
        view: 2,
        verdict_place: 3,
        subject_place: 4,
        subject_length: 5,
        signer: 6,
        kind: VoteKind::Finalize as u32,
    };
    let vote = VotePlace {
        subject_place: 1,
        subject_length: 2,
        verdict_place: 3,
        signer: 4,
        kind: VoteKind::Finalize as u32,
    };
    let record = Record {
        epoch: 1,
        view: 2,
        first_place: 3,
        second_place: 4,
        first_vote: vote,
        second_vote: vote,
        signer: 5,
        kind: NULLIFY_FINALIZE,
    };
    assert!(rt; is_cloned(&suspect) && is_cloned(&vote) && is_cloned(&record));
}
