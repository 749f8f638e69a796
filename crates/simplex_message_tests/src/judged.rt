//! The scheme by verdicts: which attestations and certificates are valid under a table of verdicts.

use crate::bisection::four_keys;
use crate::without_memory::{is_of_four, is_out, proposal};
use node_examples::judged::{Judged, Verdict};
use simplex_base::codec::{Fixed, decode_cfg};
use simplex_base::positions::Participant;
use simplex_scheme::scheme::{Attestation, Digest, Proposal, Scheme, Subject, VoteKind};
use simplex_schemes::listed::Listed;
use simplex_schemes::marked::MarkedDigest;
use simplex_schemes::plain::PlainSignature;
use std::alloc::Global;
use std::process::Abort;
use std::test::Fail;

/// What was found valid, each time the signature of bytes 0xaa: the kind of vote, the message and the signer. The proposal is
/// that of payload 6 in round (0, 10). Participant 4 is outside the committee.
const FOUND: [(VoteKind, &[u8], u32); 6] = [
    (VoteKind::Notarize, &[0, 10, 5, 6], 0),
    (VoteKind::Notarize, &[0, 10, 5, 6], 1),
    (VoteKind::Notarize, &[0, 10, 5, 6], 2),
    (VoteKind::Notarize, &[0, 10, 5, 6], 4),
    (VoteKind::Nullify, &[0, 10], 1),
    (VoteKind::Finalize, &[0, 10, 5, 6], 2),
];

/// Certificates of a notarize, in hexadecimal: of a participant too few, a valid one, and one with an invalid signature.
pub(crate) const CERTIFICATES: [&str; 3] = [
    "0200aaaaaaaaaaaaaaaaaaaaaaaaaaaaaaaaaaaaaaaaaaaaaaaaaaaaaaaaaaaaaaaa01aaaaaaaaaaaaaaaaaaaaaaaaaaaaaaaaaaaaaaaaaaaaaaaaaaaaaaaaaaaaaaaa",
    "0300aaaaaaaaaaaaaaaaaaaaaaaaaaaaaaaaaaaaaaaaaaaaaaaaaaaaaaaaaaaaaaaa01aaaaaaaaaaaaaaaaaaaaaaaaaaaaaaaaaaaaaaaaaaaaaaaaaaaaaaaaaaaaaaaa02aaaaaaaaaaaaaaaaaaaaaaaaaaaaaaaaaaaaaaaaaaaaaaaaaaaaaaaaaaaaaaaa",
    "0300aaaaaaaaaaaaaaaaaaaaaaaaaaaaaaaaaaaaaaaaaaaaaaaaaaaaaaaaaaaaaaaa01aaaaaaaaaaaaaaaaaaaaaaaaaaaaaaaaaaaaaaaaaaaaaaaaaaaaaaaaaaaaaaaa020000000000000000000000000000000000000000000000000000000000000000",
];

/// A committee of four, with what was found valid.
pub(crate) fn judged(alloc: Global) -> Option<Judged> {
    let mut verdicts = Vec::with_capacity(alloc, FOUND.len()).ok()?;
    for (vote, message, signer) in &FOUND {
        let verdict = Verdict {
            vote: *vote,
            message: message.to_vec(alloc).ok()?,
            signer: Participant::new(*signer),
            signature: PlainSignature::from_bytes(&[0xaa; 32]),
        };
        verdicts.push(verdict).ok()?;
    }
    Some(Judged::new(four_keys(alloc)?, verdicts))
}

/// Whether a signature of a proposal or its round, as a vote of this kind, is valid.
fn is_valid<S: Scheme<D>, D: Digest>(
    scheme: &S,
    kind: VoteKind,
    proposal: &Proposal<D>,
    signer: u32,
    signature: S::Signature,
) -> bool {
    let attestation = Attestation {
        signer: Participant::new(signer),
        signature,
    };
    let round = proposal.round;
    let subject = match kind {
        VoteKind::Notarize => Subject::Notarize { proposal },
        VoteKind::Nullify => Subject::Nullify { round },
        VoteKind::Finalize => Subject::Finalize { proposal },
    };
    scheme.verify_attestation(subject, &attestation)
}

/// Whether this signature by each of the participants from 0 to 4 is valid where it is wanted so.
fn are_valid<S: Scheme<D>, D: Digest>(
    scheme: &S,
    kind: VoteKind,
    proposal: &Proposal<D>,
    signature: S::Signature,
    wanted: [bool; 5],
) -> bool {
    for (signer, is_wanted) in (0_u32..).zip(&wanted) {
        if is_valid(scheme, kind, proposal, signer, signature) != *is_wanted {
            return false;
        }
    }
    true
}

/// An attestation is valid exactly where its signer is in the committee and a verdict is on it. A body that leaves out the
/// committee, or a part of the verdict, is refused.
#[test]
fn without_memory_attestations(rt: HostRuntime) -> Result<(), Fail> {
    let judged = judged(rt.alloc()).ok_or("no committee")?;
    let _ = is_out(rt.alloc());
    let voted = proposal(MarkedDigest::from_bytes(&[6]));
    let other = proposal(MarkedDigest::from_bytes(&[7]));
    let found = PlainSignature::from_bytes(&[0xaa; 32]);
    let zeros = PlainSignature::from_bytes(&[0; 32]);
    let cases = [
        (VoteKind::Notarize, [true, true, true, false, false]),
        (VoteKind::Nullify, [false, true, false, false, false]),
        (VoteKind::Finalize, [false, false, true, false, false]),
    ];
    for (kind, wanted) in cases {
        assert!(rt; are_valid(&judged, kind, &voted, found, wanted));
        assert!(rt; are_valid(&judged, kind, &voted, zeros, [false; 5]));
    }
    assert!(rt; are_valid(&judged, VoteKind::Notarize, &other, found, [false; 5]));
    Ok(())
}

/// Whether a certificate certifies the notarize of a proposal, and not its finalize, by a scheme that signs nothing.
fn is_certified<S: Scheme<D>, D: Digest>(
    alloc: Global,
    scheme: &S,
    proposal: &Proposal<D>,
    certificate: &S::Certificate,
) -> bool {
    scheme.verify_certificate(Subject::Notarize { proposal }, certificate)
        && !scheme.verify_certificate(Subject::Finalize { proposal }, certificate)
        && matches!(scheme.sign(alloc, Subject::Notarize { proposal }), Ok(None))
}

/// A certificate is verified by its attestations. The scheme is nobody.
#[test]
fn without_memory_certificates(rt: HostRuntime) -> Result<(), Fail> {
    let alloc = rt.alloc();
    let judged = judged(alloc).ok_or("no committee")?;
    let encoding = hex::decode(alloc, CERTIFICATES[1])?;
    let certificate = decode_cfg::<Listed<Judged>>(alloc, encoding.as_slice(), &4)?;
    let _ = is_out(alloc);
    let voted = proposal(MarkedDigest::from_bytes(&[6]));
    assert!(rt; is_of_four(&judged, None) && is_certified(alloc, &judged, &voted, &certificate));
    Ok(())
}
