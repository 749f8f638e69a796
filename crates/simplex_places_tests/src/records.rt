//! The evidence of a report as records, with both votes as they stand in the stream.

use simplex_audit::audit::{Committees, audit};
use simplex_audit_tests::verdicts::Committee;
use simplex_places::records::{
    CONFLICTING_FINALIZE, CONFLICTING_NOTARIZE, NOWHERE, NULLIFY_FINALIZE, Record, VotePlace,
    records,
};
use simplex_schemes::marked::MarkedDigest;
use simplex_schemes::vouched::Vouched;
use std::alloc::{AllocError, Global};
use std::test::Fail;

const NOTARIZE: u32 = 0;

const NULLIFY: u32 = 1;

const FINALIZE: u32 = 2;

/// The records of a stream under one committee of four.
fn found(alloc: Global, stream: &[u8]) -> Result<Vec<Record>, AllocError> {
    let committees: Committees<Committee> = Committees::every(Vouched::new(alloc, 4)?);
    let report = audit::<Committee, MarkedDigest>(alloc, &committees, stream)?;
    records::<Committee, MarkedDigest>(alloc, &committees, stream, &report)
}

/// A vote with a subject of 4 bytes, or of a nullify with 2: where its subject and its verdict stand.
fn vote(signer: u32, kind: u32, subject_place: usize, verdict_place: usize) -> VotePlace {
    VotePlace {
        subject_place,
        subject_length: if kind == NULLIFY { 2 } else { 4 },
        verdict_place,
        signer,
        kind,
    }
}

/// An evidence of view 10, with the places of the messages that carry its votes.
fn record(kind: u32, places: (usize, usize), votes: (VotePlace, VotePlace)) -> Record {
    let (first_place, second_place) = places;
    let (first_vote, second_vote) = votes;
    Record {
        epoch: 0,
        view: 10,
        first_place,
        second_place,
        first_vote,
        second_vote,
        signer: first_vote.signer,
        kind,
    }
}

#[test]
fn ample(rt: HostRuntime) -> Result<(), Fail> {
    let alloc = rt.alloc();
    // A notarize of signer 1 that is not valid, and then the same, valid. A finalization of signers 2 and 3. Evidence of signer
    // 3: a nullify, and the finalize of the finalization. Another notarize of signer 1, twice. Another finalize of signer 2.
    let stream = [
        0, 0, 10, 5, 6, 1, 0, //
        0, 0, 10, 5, 6, 1, 1, //
        6, 0, 10, 5, 6, 2, 2, 1, 3, 1, //
        9, 0, 10, 3, 1, 0, 10, 5, 6, 3, 1, //
        0, 0, 10, 5, 7, 1, 1, //
        0, 0, 10, 5, 7, 1, 1, //
        5, 0, 10, 5, 8, 2, 1, //
        3, 128,
    ];
    let notarizes = (vote(1, NOTARIZE, 8, 13), vote(1, NOTARIZE, 36, 41));
    let finalizes = (vote(2, FINALIZE, 15, 21), vote(2, FINALIZE, 50, 55));
    let both = (vote(3, NULLIFY, 25, 28), vote(3, FINALIZE, 15, 23));
    let wanted = [
        record(CONFLICTING_NOTARIZE, (7, 35), notarizes),
        record(CONFLICTING_FINALIZE, (14, 49), finalizes),
        record(NULLIFY_FINALIZE, (24, 14), both),
    ];
    let got = found(alloc, &stream)?;
    assert_eq!(rt; got.as_slice(), wanted.as_slice());
    assert!(rt; found(alloc, &stream[..35])?.len() == 1);
    assert!(rt; found(alloc, &[])?.is_empty());
    Ok(())
}

/// The first message that carries the vote also holds attestations that are invalid: another vote of the signer in an evidence,
/// and in a certificate those of others.
#[test]
fn ample_votes_stand_beside_invalid_ones(rt: HostRuntime) -> Result<(), Fail> {
    let alloc = rt.alloc();
    let evidence = [
        7, 0, 10, 5, 6, 1, 0, 0, 10, 5, 7, 1, 1, //
        0, 0, 10, 5, 6, 1, 1, //
    ];
    let votes = (vote(1, NOTARIZE, 7, 12), vote(1, NOTARIZE, 14, 19));
    let got = found(alloc, &evidence)?;
    assert_eq!(rt;
        got.as_slice(),
        [record(CONFLICTING_NOTARIZE, (0, 13), votes)].as_slice()
    );
    let certificate = [
        1, 0, 10, 5, 6, 3, 0, 0, 1, 1, 2, 0, //
        0, 0, 10, 5, 7, 1, 1, //
    ];
    let votes = (vote(1, NOTARIZE, 1, 9), vote(1, NOTARIZE, 13, 18));
    let got = found(alloc, &certificate)?;
    assert_eq!(rt;
        got.as_slice(),
        [record(CONFLICTING_NOTARIZE, (0, 12), votes)].as_slice()
    );
    Ok(())
}

/// A vote of signer 2 that was not found.
fn nowhere(kind: u32) -> VotePlace {
    VotePlace {
        subject_place: NOWHERE,
        subject_length: 0,
        verdict_place: NOWHERE,
        signer: 2,
        kind,
    }
}

/// The report of another stream: its votes stand nowhere in this one.
#[test]
fn ample_votes_of_another_stream_stand_nowhere(rt: HostRuntime) -> Result<(), Fail> {
    let alloc = rt.alloc();
    let committees: Committees<Committee> = Committees::every(Vouched::new(alloc, 4)?);
    let stream = [3, 0, 10, 2, 1, 5, 0, 10, 5, 6, 2, 1];
    let report = audit::<Committee, MarkedDigest>(alloc, &committees, &stream)?;
    let got = records::<Committee, MarkedDigest>(alloc, &committees, &[0xff], &report)?;
    let votes = (nowhere(NULLIFY), nowhere(FINALIZE));
    let wanted = record(NULLIFY_FINALIZE, (NOWHERE, NOWHERE), votes);
    assert_eq!(rt; got.as_slice(), [wanted].as_slice());
    Ok(())
}
