//! The attestations that have to be verified, and that the report depends on no other verdicts.

use simplex_audit::audit::Committees;
use simplex_audit_tests::outcome::{Outcome, outcome_of};
use simplex_audit_tests::streams::{TAILS, stream_of};
use simplex_audit_tests::verdicts::Committee;
use simplex_base::positions::Epoch;
use simplex_places::places::AttestationPlace;
use simplex_places::suspects::suspects;
use simplex_schemes::marked::MarkedDigest;
use simplex_schemes::vouched::Vouched;
use std::alloc::{AllocError, Global};
use std::test::Fail;

/// A committee of four for epoch 0, and one of one for epoch 1.
fn committees(alloc: Global) -> Result<Committees<Committee>, Fail> {
    let four = (Epoch::new(0), Vouched::new(alloc, 4)?);
    let one = (Epoch::new(1), Vouched::new(alloc, 1)?);
    Ok(Committees::try_from_vec(Vec::from_array(alloc, [four, one])?)?)
}

fn outcome(
    alloc: Global,
    committees: &Committees<Committee>,
    stream: &[u8],
) -> Result<Outcome, Fail> {
    outcome_of::<Committee, MarkedDigest>(alloc, committees, stream)
}

fn found(
    alloc: Global,
    committees: &Committees<Committee>,
    stream: &[u8],
) -> Result<Vec<AttestationPlace>, AllocError> {
    suspects::<Committee, MarkedDigest>(alloc, committees, stream)
}

/// The stream with this byte in place of each byte 0xaa; only verdicts are such.
fn with_verdicts(alloc: Global, stream: &[u8], verdict: u8) -> Result<Vec<u8>, AllocError> {
    let mut bytes = Vec::new(alloc);
    for byte in stream {
        bytes.push(if *byte == 0xaa { verdict } else { *byte })?;
    }
    Ok(bytes)
}

/// Copies the verdict at a place, if both have one there.
fn copy_verdict(from: &[u8], to: &mut [u8], place: usize) {
    if place < from.len() && place < to.len() {
        to[place] = from[place];
    }
}

#[test]
fn ample(rt: HostRuntime) -> Result<(), Fail> {
    let alloc = rt.alloc();
    let committees = committees(alloc)?;
    // A notarize of view 11; of view 10 a finalization, evidence, and finalizes of a signer who does not contradict and of one
    // outside the committee; a fault.
    let stream = [
        0, 0, 11, 5, 6, 1, 9, //
        6, 0, 10, 5, 6, 2, 1, 9, 3, 9, //
        9, 0, 10, 3, 9, 0, 10, 5, 6, 3, 9, //
        5, 0, 10, 5, 6, 2, 9, //
        5, 0, 10, 5, 6, 5, 9, //
        3, 128,
    ];
    let places = found(alloc, &committees, &stream)?;
    let mut rows = Vec::new(alloc);
    for place in &places {
        rows.push((
            place.verdict_place,
            place.subject_place,
            place.subject_length,
            place.signer,
            place.kind,
        ))?;
    }
    let wanted = [
        (14, 8, 4, 1, 2),
        (16, 8, 4, 3, 2),
        (21, 18, 2, 3, 1),
        (27, 22, 4, 3, 2),
    ];
    assert_eq!(rt; rows.as_slice(), wanted.as_slice());
    Ok(())
}

/// The stream with this verdict for all attestations, but for those of suspects, which have their own.
fn filled(
    alloc: Global,
    committees: &Committees<Committee>,
    stream: &[u8],
    verified: &[u8],
    verdict: u8,
) -> Result<Vec<u8>, Fail> {
    let mut filled = with_verdicts(alloc, stream, verdict)?;
    for place in &found(alloc, committees, &filled)? {
        copy_verdict(verified, &mut filled, place.verdict_place);
    }
    Ok(filled)
}

#[test]
fn ample_no_other_verdict_is_in_the_report(rt: HostRuntime) -> Result<(), Fail> {
    let alloc = rt.alloc();
    let committees = committees(alloc)?;
    for (messages, streams) in [(1, 24), (2, 576)] {
        for number in 0..streams {
            let mut stream = stream_of(alloc, messages, number)?;
            stream.extend_from_slice(TAILS[number / 7 % 6])?;
            let verified = with_verdicts(alloc, &stream, 1)?;
            let wanted = outcome(alloc, &committees, &verified)?;
            for verdict in [0, 1] {
                let filled = filled(alloc, &committees, &stream, &verified, verdict)?;
                let got = outcome(alloc, &committees, &filled)?;
                assert!(rt; got == wanted, "of {stream:?} with {verdict}");
            }
        }
    }
    Ok(())
}
