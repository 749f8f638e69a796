//! How many attestations an audit has verified: a vote that changes nothing is not verified, and no recorded vote is verified
//! again in a certificate, nor is a vote of a certificate that was found to certify, however the stream is cut. A deferred
//! audit verifies only the votes of suspects and the certificates of their rounds, and so does a run over a stored stream.
//! Listing suspects, or the records of a report, verifies none.

use crate::counted::Counted;
use faulty_io::{Source, Target, Trouble};
use simplex_audit::audit::{
    Auditor, Committees, Watched, audit, audit_deferred, run, run_deferred,
};
use simplex_audit::ledger::store_batch;
use simplex_base::positions::Epoch;
use simplex_places::records::records;
use simplex_places::suspects::suspects;
use simplex_schemes::marked::MarkedDigest;
use std::alloc::{AllocError, Global};
use std::process::Abort;
use std::test::Fail;

/// Notarizes of participant 1 for three proposals of view 10.
const NOTARIZES: [&[u8]; 3] = [
    &[0, 0, 10, 5, 6, 1, 0xaa],
    &[0, 0, 10, 5, 7, 1, 0xaa],
    &[0, 0, 10, 5, 8, 1, 0xaa],
];

const NOTARIZATION: &[u8] = &[1, 0, 10, 5, 6, 3, 0, 0xaa, 1, 0xaa, 2, 0xaa];

const NULLIFY: &[u8] = &[3, 0, 10, 1, 0xaa];

const NULLIFICATION: &[u8] = &[4, 0, 10, 3, 0, 0xaa, 1, 0xaa, 2, 0xaa];

const FINALIZE: &[u8] = &[5, 0, 10, 5, 6, 1, 0xaa];

const FINALIZATION: &[u8] = &[6, 0, 10, 5, 6, 3, 1, 0xaa, 2, 0xaa, 3, 0xaa];

/// A nullify and a finalize of participant 1.
const EVIDENCE: &[u8] = &[9, 0, 10, 1, 0xaa, 0, 10, 5, 6, 1, 0xaa];

/// A notarize of participant 1 for another proposal of view 10, whose signature is invalid.
const UNSIGNED: &[u8] = &[0, 0, 10, 5, 7, 1, 0];

/// A notarize of participant 2 in view 10.
const OTHER: &[u8] = &[0, 0, 10, 5, 6, 2, 0xaa];

/// A nullification of view 10 in which the signature of participant 0 is invalid.
const FORGED: &[u8] = &[4, 0, 10, 3, 0, 0, 1, 0xaa, 2, 0xaa];

/// As `NOTARIZATION`, but the signature of participant 1 is invalid.
const MISLISTED: &[u8] = &[1, 0, 10, 5, 6, 3, 0, 0xaa, 1, 0, 2, 0xaa];

/// A notarization of the second proposal of view 10.
const SECOND_NOTARIZATION: &[u8] = &[1, 0, 10, 5, 7, 3, 1, 0xaa, 2, 0xaa, 3, 0xaa];

/// Messages of participants 0 and 1 in view 11, which contradict nothing.
const VIEW_11: [&[u8]; 2] = [
    &[0, 0, 11, 5, 7, 1, 0xaa],
    &[1, 0, 11, 5, 7, 3, 0, 0xaa, 1, 0xaa, 2, 0xaa],
];

/// A committee of four for every epoch that has verified nothing.
fn four(rt: &impl Abort, alloc: Global) -> Result<Committees<Counted>, Fail> {
    Ok(Committees::every(Counted::four(rt, alloc)?))
}

/// How many attestations these committees have verified.
fn verified(committees: &Committees<Counted>) -> Result<usize, Fail> {
    let committee = committees.get(Epoch::new(0)).ok_or("no committee")?;
    Ok(committee.verified())
}

/// The stream of some messages.
fn stream_of(alloc: Global, messages: &[&[u8]]) -> Result<Vec<u8>, AllocError> {
    let mut stream = Vec::new(alloc);
    for message in messages {
        stream.extend_from_slice(message)?;
    }
    Ok(stream)
}

/// How many attestations a run verifies whose reader gives a byte a call.
fn verified_by_run(rt: &impl Abort, alloc: Global, stream: &[u8]) -> Result<usize, Fail> {
    let committees = four(rt, alloc)?;
    let mut reader = Watched::new(Source::new(stream, 1, Trouble::Never));
    let mut writer = Watched::new(Target::steady());
    run::<Counted, MarkedDigest, Source, Target>(alloc, &committees, &mut reader, &mut writer)?;
    verified(&committees)
}

/// How many attestations an auditor verifies that is fed a stream in pieces of this many bytes.
fn verified_in_pieces(
    rt: &impl Abort,
    alloc: Global,
    stream: &[u8],
    length: usize,
) -> Result<usize, Fail> {
    let committees = four(rt, alloc)?;
    let mut auditor = Auditor::<Counted, MarkedDigest>::new(alloc, &committees);
    for piece in stream.chunks(length.max(1)) {
        if piece.len() > usize::MAX - auditor.fed() {
            return Err("too many bytes".into());
        }
        auditor = auditor.feed(piece)?;
    }
    let _ = auditor.report()?;
    verified(&committees)
}

/// How many messages an audit reads, and how much evidence it finds.
fn audited(
    alloc: Global,
    committees: &Committees<Counted>,
    stream: &[u8],
) -> Result<(usize, usize), Fail> {
    let report = audit::<Counted, MarkedDigest>(alloc, committees, stream)?;
    Ok((report.read, report.evidence.len()))
}

/// How many messages a deferred audit reads, and how much evidence it finds.
fn audited_deferred(
    alloc: Global,
    committees: &Committees<Counted>,
    stream: &[u8],
) -> Result<(usize, usize), Fail> {
    let report = audit_deferred::<Counted, MarkedDigest>(alloc, committees, stream)?;
    Ok((report.read, report.evidence.len()))
}

/// How many attestations an audit of a stream of this many messages verifies, and how many a deferred one does. A run, and an
/// auditor that is fed the stream in pieces, verify as many as the audit.
fn counts(
    rt: &impl Abort,
    alloc: Global,
    stream: &[u8],
    messages: usize,
) -> Result<(usize, usize), Fail> {
    let (whole, deferred) = (four(rt, alloc)?, four(rt, alloc)?);
    assert_eq!(rt; audited(alloc, &whole, stream)?.0, messages);
    assert_eq!(rt; audited_deferred(alloc, &deferred, stream)?.0, messages);
    let wanted = verified(&whole)?;
    assert_eq!(rt; verified_by_run(rt, alloc, stream)?, wanted, "by a run");
    for length in [1, 5] {
        let found = verified_in_pieces(rt, alloc, stream, length)?;
        assert_eq!(rt; found, wanted, "in pieces of {length}");
    }
    Ok((wanted, verified(&deferred)?))
}

/// As `counts`, of these messages one after another.
fn counts_of(rt: &impl Abort, alloc: Global, messages: &[&[u8]]) -> Result<(usize, usize), Fail> {
    let stream = stream_of(alloc, messages)?;
    counts(rt, alloc, stream.as_slice(), messages.len())
}

#[test]
fn ample_nothing_is_verified_twice(rt: HostRuntime) -> Result<(), Fail> {
    let [first, second, third] = NOTARIZES;
    let [vote, certificate] = VIEW_11;
    let cases: [(&[&[u8]], (usize, usize)); 14] = [
        (&[first, first, first], (1, 0)),
        (&[first, second, first, second, third], (2, 2)),
        (&[NULLIFY, NULLIFY], (1, 0)),
        (&[FINALIZE, FINALIZE, EVIDENCE, NULLIFY, EVIDENCE], (2, 2)),
        (&[NOTARIZATION, NOTARIZATION, first], (3, 0)),
        (&[NULLIFICATION, NULLIFICATION, NULLIFY], (3, 0)),
        (
            &[NULLIFICATION, FINALIZATION, EVIDENCE, FINALIZATION],
            (6, 6),
        ),
        (&[NOTARIZATION, second, third], (4, 4)),
        // The votes of suspects are verified, and nothing of another round or signer.
        (&[first, UNSIGNED], (2, 2)),
        (&[vote, certificate, first, second], (5, 2)),
        (&[vote, first, certificate, UNSIGNED], (5, 2)),
        (&[OTHER, first, UNSIGNED, OTHER], (3, 2)),
        (&[OTHER, first, NOTARIZATION, second], (4, 4)),
        // Of the votes in a certificate that does not certify only those of suspects are verified.
        (&[first, second, FORGED], (6, 4)),
    ];
    for (messages, verified) in cases {
        let found = counts_of(&rt, rt.alloc(), messages)?;
        assert_eq!(rt; found, verified, "of {messages:?}");
    }
    Ok(())
}

/// A recorded vote is known in a certificate, the signer's first and its other one, but no other subject of the signer is.
#[test]
fn ample_recorded_votes_are_known_in_certificates(rt: HostRuntime) -> Result<(), Fail> {
    let [first, second, _] = NOTARIZES;
    let cases: [(&[&[u8]], (usize, usize)); 3] = [
        (&[first, NOTARIZATION], (3, 0)),
        (&[first, second, SECOND_NOTARIZATION], (4, 4)),
        (&[OTHER, second, NOTARIZATION], (4, 4)),
    ];
    for (messages, verified) in cases {
        let found = counts_of(&rt, rt.alloc(), messages)?;
        assert_eq!(rt; found, verified, "of {messages:?}");
    }
    Ok(())
}

/// No vote is known by one of another kind or with another signature, nor by an invalid one.
#[test]
fn ample_other_votes_are_not_known(rt: HostRuntime) -> Result<(), Fail> {
    let [first, _, _] = NOTARIZES;
    let cases: [(&[&[u8]], (usize, usize)); 3] = [
        (&[FINALIZE, NOTARIZATION], (4, 0)),
        (&[first, MISLISTED], (5, 0)),
        (&[UNSIGNED, SECOND_NOTARIZATION], (4, 0)),
    ];
    for (messages, verified) in cases {
        let found = counts_of(&rt, rt.alloc(), messages)?;
        assert_eq!(rt; found, verified, "of {messages:?}");
    }
    Ok(())
}

/// An honest stream: four notarizes and their notarization in each of 2,500 views.
fn honest(alloc: Global) -> Result<Vec<u8>, Fail> {
    let mut stream = Vec::new(alloc);
    for view in 128_u16..2_628 {
        let low = (view % 128 + 128) as u8;
        let high = (view / 128 % 128) as u8;
        for signer in 0_u8..4 {
            stream.extend_from_slice(&[0, 0, low, high, 5, 6, signer, 0xaa])?;
        }
        stream.extend_from_slice(&[1, 0, low, high, 5, 6, 3, 0, 0xaa, 1, 0xaa, 2, 0xaa])?;
    }
    Ok(stream)
}

/// How many messages a run over a stored stream reads, and how many lines of evidence it writes.
fn stored_counts(
    alloc: Global,
    committees: &Committees<Counted>,
    stream: &[u8],
) -> Result<(usize, usize), Fail> {
    let mut reader = Watched::new(Source::new(stream, usize::MAX, Trouble::Never));
    let mut writer = Watched::new(Target::steady());
    let summary = run_deferred::<Counted, MarkedDigest, Source, Target>(
        alloc,
        committees,
        &mut reader,
        &mut writer,
    )?;
    Ok((summary.read, summary.evidence))
}

/// How many bytes a stream stores that comes as a batch.
fn stored_bytes(
    alloc: Global,
    committees: &Committees<Counted>,
    stream: &[u8],
) -> Result<usize, Fail> {
    Ok(store_batch::<Counted, MarkedDigest>(alloc, committees, &[], stream)?.len())
}

/// Nothing is verified of it by a deferred audit, as a batch, or as a stored stream.
#[test]
fn ample_nothing_of_an_honest_stream_is_verified(rt: HostRuntime) -> Result<(), Fail> {
    let alloc = rt.alloc();
    let committees = four(&rt, alloc)?;
    let stream = honest(alloc)?;
    assert_eq!(rt; audited_deferred(alloc, &committees, &stream)?, (12_500, 0));
    assert_eq!(rt; stored_bytes(alloc, &committees, &stream)?, 0);
    assert_eq!(rt; stored_counts(alloc, &committees, &stream)?, (12_500, 0));
    assert_eq!(rt; verified(&committees)?, 0);
    Ok(())
}

/// An audit verifies each vote once, and no certificate, since it lists recorded votes. A run reads 65,536 bytes at a time,
/// and a vote lies across the first two of these pieces.
#[test]
fn ample_votes_of_an_honest_stream_are_verified_once(rt: HostRuntime) -> Result<(), Fail> {
    let alloc = rt.alloc();
    let stream = honest(alloc)?;
    let longer = stream_of(alloc, &[NULLIFY, &stream])?;
    assert_eq!(rt; counts(&rt, alloc, &longer, 12_501)?, (10_001, 0));
    Ok(())
}

/// One vote that contradicts has its signer's votes and the certificate of its round verified.
#[test]
fn ample_votes_of_one_who_contradicts_are_verified(rt: HostRuntime) -> Result<(), Fail> {
    let alloc = rt.alloc();
    let committees = four(&rt, alloc)?;
    let mut stream = honest(alloc)?;
    stream.extend_from_slice(&[0, 0, 128, 1, 5, 7, 3, 0xaa])?;
    assert_eq!(rt; audited_deferred(alloc, &committees, &stream)?, (12_501, 1));
    assert_eq!(rt; verified(&committees)?, 5);
    assert_eq!(rt; stored_counts(alloc, &committees, &stream)?, (12_501, 1));
    assert_eq!(rt; verified(&committees)?, 10);
    Ok(())
}

/// The signers of a round in the orders in which three nodes hear them. The first three of each are in its certificates.
const HEARD: [[u8; 4]; 3] = [[0, 1, 2, 3], [3, 1, 0, 2], [2, 3, 1, 0]];

/// What three nodes send on, one after the other in each of 100 views: in its own order each the notarizes, the notarization by
/// the first quorum of these, then the finalizes and the finalization.
fn network(alloc: Global) -> Result<Vec<u8>, AllocError> {
    let mut stream = Vec::new(alloc);
    for view in 1_u8..101 {
        for heard in HEARD {
            for (vote, certificate) in [(0, 1), (5, 6)] {
                for signer in heard {
                    stream.extend_from_slice(&[vote, 0, view, 5, 6, signer, 0xaa])?;
                }
                stream.extend_from_slice(&[certificate, 0, view, 5, 6, 3])?;
                for signer in 0_u8..4 {
                    if signer != heard[3] {
                        stream.extend_from_slice(&[signer, 0xaa])?;
                    }
                }
            }
        }
    }
    Ok(stream)
}

/// Of what a network sends on each of the 800 votes is verified once, and nothing of a certificate. A deferred audit verifies
/// the three votes of a signer who votes for two proposals of a view, and two more votes of each of its first certificates.
#[test]
fn ample_votes_of_a_network_are_verified_once(rt: HostRuntime) -> Result<(), Fail> {
    let alloc = rt.alloc();
    let mut stream = network(alloc)?;
    assert_eq!(rt; counts(&rt, alloc, stream.as_slice(), 3_000)?, (800, 0));
    stream.extend_from_slice(&[0, 0, 100, 5, 7, 1, 0xaa])?;
    assert_eq!(rt; counts(&rt, alloc, stream.as_slice(), 3_001)?, (801, 7));
    Ok(())
}

/// Suspects are listed before the audit, and records after it: neither call verifies anything.
#[test]
fn ample_suspects_and_records_are_found_unverified(rt: HostRuntime) -> Result<(), Fail> {
    let alloc = rt.alloc();
    let committees = four(&rt, alloc)?;
    let [_, second, _] = NOTARIZES;
    let stream = stream_of(alloc, &[NOTARIZATION, second, EVIDENCE])?;
    let stream = stream.as_slice();
    let listed = suspects::<Counted, MarkedDigest>(alloc, &committees, stream)?;
    assert_eq!(rt; (listed.len(), verified(&committees)?), (6, 0));
    let report = audit::<Counted, MarkedDigest>(alloc, &committees, stream)?;
    assert_eq!(rt; (report.evidence.len(), verified(&committees)?), (2, 6));
    let found = records::<Counted, MarkedDigest>(alloc, &committees, stream, &report)?;
    assert_eq!(rt; (found.len(), verified(&committees)?), (2, 6));
    Ok(())
}
