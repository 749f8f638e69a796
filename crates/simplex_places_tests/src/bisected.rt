//! How often a scheme is asked about certificates that are verified at once: about all of them, and then about both halves of
//! each part that it refuses, down to single certificates.

use crate::counted::{Counted, CountedCertificate};
use simplex_base::codec::{Fixed, decode_cfg};
use simplex_base::positions::{Epoch, Round, View};
use simplex_evidence::types::verify_certificates;
use simplex_scheme::scheme::{CertificateVerifier, Digest, Proposal, Subject};
use simplex_schemes::marked::MarkedDigest;
use std::alloc::{AllocError, Global};
use std::process::Abort;
use std::test::Fail;

/// A certificate with a signer too few.
const FEW: &[u8] = &[2, 0, 0xaa, 1, 0xaa];

/// A certificate in which a signature is invalid.
const UNSIGNED: &[u8] = &[3, 0, 0xaa, 1, 0, 2, 0xaa];

/// A valid certificate.
const VALID: &[u8] = &[3, 0, 0xaa, 1, 0xaa, 2, 0xaa];

/// This many certificates, of which those at the given places are invalid: the first of these has a signer too few, and each
/// other an invalid signature.
fn certificates(
    alloc: Global,
    count: usize,
    invalid: &[usize],
) -> Result<Vec<CountedCertificate>, Fail> {
    let mut made = Vec::with_capacity(alloc, count)?;
    for place in 0..count {
        let bytes = if !invalid.contains(&place) {
            VALID
        } else if invalid.first() == Some(&place) {
            FEW
        } else {
            UNSIGNED
        };
        made.push(decode_cfg::<CountedCertificate>(alloc, bytes, &4)?)?;
    }
    Ok(made)
}

/// Whether each of these certificates is valid for the subject beside it.
fn answered<'a, S: CertificateVerifier<D>, D: Digest>(
    alloc: Global,
    scheme: &S,
    pairs: &[(Subject<'a, D>, &'a S::Certificate)],
) -> Result<Vec<bool>, AllocError> {
    verify_certificates(alloc, scheme, pairs)
}

/// Whether each of these certificates is valid for the finalize of this proposal.
fn verified<'a, S: CertificateVerifier<D>, D: Digest>(
    alloc: Global,
    scheme: &S,
    proposal: &'a Proposal<D>,
    certificates: &'a [S::Certificate],
) -> Result<Vec<bool>, AllocError> {
    let items = certificates.iter().map(|certificate| {
        let subject = Subject::Finalize { proposal };
        (subject, certificate)
    });
    let Ok(mut pairs) = Vec::with_capacity(alloc, certificates.len()) else {
        return Err(AllocError);
    };
    if pairs.extend(items).is_err() {
        return Err(AllocError);
    }
    answered(alloc, scheme, pairs.as_slice())
}

/// How often a scheme is asked about this many certificates, of which exactly those at the given places are found to be
/// invalid.
fn asked(rt: &impl Abort, alloc: Global, count: usize, invalid: &[usize]) -> Result<usize, Fail> {
    let scheme = Counted::four(rt, alloc)?;
    let certificates = certificates(alloc, count, invalid)?;
    let round = Round::new(Epoch::new(0), View::new(10));
    let proposal = Proposal::new(round, View::new(5), MarkedDigest::from_bytes(&[6]));
    let answers = verified(alloc, &scheme, &proposal, certificates.as_slice())?;
    assert_eq!(rt; answers.len(), count);
    for (place, is_valid) in answers.iter().enumerate() {
        assert_eq!(rt;
            *is_valid,
            !invalid.contains(&place),
            "at {place} with {invalid:?}"
        );
    }
    Ok(scheme.lists())
}

/// No contract states how often a scheme is asked. A body that asks about each certificate by itself, or again about a part
/// that is known, is refused here.
#[test]
fn ample_few_parts_are_verified(rt: HostRuntime) -> Result<(), Fail> {
    let alloc = rt.alloc();
    let cases: [(usize, &[usize], usize); 8] = [
        (0, &[], 0),
        (1, &[0], 1),
        (100, &[], 1),
        (100, &[12], 13),
        (100, &[77], 15),
        (100, &[12, 77], 25),
        (100, &[0, 99], 25),
        (100, &[0, 1], 15),
    ];
    for (certificates, invalid, wanted) in cases {
        let asked = asked(&rt, alloc, certificates, invalid)?;
        assert_eq!(rt; asked, wanted, "of {certificates} with {invalid:?}");
    }
    Ok(())
}
