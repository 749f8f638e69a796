//! A committee of more participants than 16 bits count, and payloads of 48 bytes.

ghost use Rattle.std.proofs.Common.{lit<, lit≤};

use crate::outcome::outcome_of;
use crate::verdicts::Committee;
use simplex_audit::audit::{Committees, audit};
use simplex_base::codec::fixed_bytes::{FixedBytes, Role};
use simplex_base::codec::{Write, decode, decode_cfg};
use simplex_base::positions::{Epoch, Participant, Round, View};
use simplex_rules::evidence::Evidence;
use simplex_scheme::scheme::{Attestation, CertificateScheme, Digest, Listing, Subject};
use simplex_schemes::marked::MarkedDigest;
use simplex_schemes::vouched::Vouched;
use std::alloc::{AllocError, Global};
use std::test::Fail;

/// The role of a payload of 48 bytes.
enum Long {}

impl Role<48> for Long {
    ghost sized = { (lit< tt, lit≤ tt) };
}

/// The bytes from 0 to 46, in hexadecimal: all but the last of a payload of 48 bytes.
const BYTES: &str =
    "000102030405060708090a0b0c0d0e0f101112131415161718191a1b1c1d1e1f202122232425262728292a2b2c2d2e";

/// A vote with this tag of participant 1 in view 10 for a payload of the bytes from 0 to 46 and this last one.
fn push_vote(stream: &mut Vec<u8>, tag: u8, last: u8) -> Result<(), AllocError> {
    stream.extend_from_slice(&[tag, 0, 10, 5])?;
    for byte in 0_u8..47 {
        stream.push(byte)?;
    }
    stream.extend_from_slice(&[last, 1, 1])
}

/// A payload of 48 bytes is compared and printed whole. A body that takes the first 32 bytes is refused.
#[test]
fn ample_payloads_of_48_bytes(rt: HostRuntime) -> Result<(), Fail> {
    let alloc = rt.alloc();
    let committees: Committees<Committee> = Committees::every(Vouched::new(alloc, 4)?);
    let mut stream = Vec::new(alloc);
    for tag in [0, 5] {
        push_vote(&mut stream, tag, 0xfe)?;
        push_vote(&mut stream, tag, 0xff)?;
    }
    stream.extend_from_slice(&[3, 0, 10, 1, 1])?;
    let found = outcome_of::<Committee, FixedBytes<Long, 48>>(alloc, &committees, &stream)?;
    assert_eq!(rt; found.text, lines(alloc)?);
    Ok(())
}

/// The lines of the two notarizes, the two finalizes, and the nullify and the first finalize.
fn lines(alloc: Global) -> Result<String, AllocError> {
    let mut lines = String::new(alloc);
    for word in ["conflicting-notarize", "conflicting-finalize"] {
        push_all(
            &mut lines,
            &["0 10 1 ", word, " 5 ", BYTES, "fe 5 ", BYTES, "ff\n"],
        )?;
    }
    push_all(&mut lines, &["0 10 1 nullify-finalize 5 ", BYTES, "fe\n"])?;
    Ok(lines)
}

/// Appends texts, one after another.
fn push_all(text: &mut String, parts: &[&str]) -> Result<(), AllocError> {
    for part in parts {
        text.push_str(part)?;
    }
    Ok(())
}

/// How many participants the large committee has.
const PARTICIPANTS: u32 = 65_536;

/// How many of them are a quorum: 21,845 may lie.
const QUORUM: u32 = 43_691;

/// A committee of 65,536 participants.
fn large(alloc: Global) -> Result<Committee, AllocError> {
    Vouched::new(alloc, PARTICIPANTS)
}

/// The certificate of this many participants from the first on, with valid signatures.
fn certificate(alloc: Global, first: u32, count: u32) -> Result<Vec<u8>, AllocError> {
    let mut bytes = Vec::new(alloc);
    Participant::new(count).write(&mut bytes)?;
    for number in 0..count {
        Participant::new(first.saturating_add(number)).write(&mut bytes)?;
        bytes.push(1)?;
    }
    Ok(bytes)
}

/// Two notarizations of view 10, by the first quorum and by the last.
fn two_quorums(alloc: Global) -> Result<Vec<u8>, AllocError> {
    let mut stream = Vec::new(alloc);
    for (payload, first) in [(6, 0), (7, PARTICIPANTS - QUORUM)] {
        stream.extend_from_slice(&[1, 0, 10, 5, payload])?;
        stream.extend_from_slice(&certificate(alloc, first, QUORUM)?)?;
    }
    Ok(stream)
}

/// Whether the evidence accuses the participants from this one on, one after the other.
fn are_from(found: &[Evidence<Committee, MarkedDigest>], first: u32) -> bool {
    let mut signer = first;
    for evidence in found {
        if evidence.signer().get() != signer {
            return false;
        }
        signer = signer.saturating_add(1);
    }
    true
}

/// Two quorums of 65,536 participants, the last of them in the second, accuse exactly those in both, f + 1 of them. A body that
/// counts participants in 16 bits is refused.
#[test]
fn ample_two_large_quorums(rt: HostRuntime) -> Result<(), Fail> {
    let alloc = rt.alloc();
    let committees = Committees::every(large(alloc)?);
    let stream = two_quorums(alloc)?;
    let report = audit::<Committee, MarkedDigest>(alloc, &committees, &stream)?;
    assert_eq!(rt;
        (report.read, report.evidence.len(), report.splits.len()),
        (2, 21_846, 1)
    );
    assert!(rt; are_from(report.evidence.as_slice(), 21_845));
    let split = report.splits.first().ok_or("no split")?.line(alloc)?;
    assert_eq!(rt; split.as_str(), "0 10 split 21846 21846");
    Ok(())
}

/// What is signed: the nullify of view 10.
fn subject<'a, D: Digest>() -> Subject<'a, D> {
    Subject::Nullify {
        round: Round::new(Epoch::new(0), View::new(10)),
    }
}

/// The attestation of this participant, whose signature is the byte 1.
fn attestation<S: CertificateScheme>(alloc: Global, signer: u32) -> Result<Attestation<S>, Fail> {
    let mut bytes = Vec::new(alloc);
    Participant::new(signer).write(&mut bytes)?;
    bytes.push(1)?;
    Ok(decode::<Attestation<S>>(alloc, bytes.as_slice())?)
}

/// Whether the signature of this participant is valid.
fn is_valid<S: Listing<D>, D: Digest>(
    alloc: Global,
    scheme: &S,
    signer: u32,
) -> Result<bool, Fail> {
    let attestation = attestation::<S>(alloc, signer)?;
    Ok(scheme.verify_attestation(subject::<D>(), &attestation))
}

/// Whether a certificate of this many participants is valid.
fn is_certified<S: Listing<D>, D: Digest>(
    alloc: Global,
    scheme: &S,
    signers: u32,
) -> Result<bool, Fail> {
    let bytes = certificate(alloc, 0, signers)?;
    let certificate = decode_cfg::<S::Certificate>(alloc, bytes.as_slice(), &PARTICIPANTS)?;
    Ok(scheme.verify_certificate(subject::<D>(), &certificate))
}

/// The last of 65,536 participants signs, and the next number nobody. A quorum certifies, and one signer less does not.
#[test]
fn ample_the_last_signs(rt: HostRuntime) -> Result<(), Fail> {
    let alloc = rt.alloc();
    let scheme = large(alloc)?;
    for (signer, wanted) in [(PARTICIPANTS - 1, true), (PARTICIPANTS, false)] {
        let found = is_valid::<Committee, MarkedDigest>(alloc, &scheme, signer)?;
        assert_eq!(rt; found, wanted, "of {signer}");
    }
    for (signers, wanted) in [(QUORUM, true), (QUORUM - 1, false)] {
        let found = is_certified::<Committee, MarkedDigest>(alloc, &scheme, signers)?;
        assert_eq!(rt; found, wanted, "by {signers}");
    }
    Ok(())
}
