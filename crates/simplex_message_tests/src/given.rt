//! Known numbers that no test vector asks for.

use crate::without_memory::is_out;
use simplex_base::codec::MaxEncodeSize;
use simplex_base::positions::{Epoch, Participant, Round, View};
use simplex_scheme::scheme::{
    Attestation, CertificateScheme, Digest, Proposal, PublicKey, Sha256Digest, max_faults, quorum,
};
use simplex_schemes::marked::{Marked, MarkedDigest};
use simplex_schemes::plain::Plain;
use simplex_votes::types::{
    Certificate, Context, Finalization, Finalize, Kind, Notarization, Notarize, Nullification,
    Nullify, Vote,
};
use std::process::Abort;
use std::test::Fail;

/// Each kind of certificate message prints as its word.
#[test]
fn ample_kinds(rt: HostRuntime) -> Result<(), Fail> {
    let kinds = [
        (Kind::Notarization, "notarization"),
        (Kind::Nullification, "nullification"),
        (Kind::Finalization, "finalization"),
    ];
    for (kind, word) in kinds {
        assert!(rt; format!(in rt.alloc(); "{kind}")?.as_str() == word);
    }
    Ok(())
}

#[test]
fn one_of_four_may_lie(rt: HostRuntime) {
    let committees: [(u32, u32, u32); 7] = [
        (1, 0, 1),
        (2, 0, 2),
        (3, 0, 3),
        (4, 1, 3),
        (5, 1, 4),
        (6, 1, 5),
        (7, 2, 5),
    ];
    for (n, faults, signers) in committees {
        assert!(rt; max_faults(n) == faults && quorum(n) == signers, "of {n}");
    }
}

/// The greatest encoded sizes, in bytes, of an epoch, a view, a participant and a round, of an attestation, a proposal, a
/// notarize, a nullify, a finalize, a vote and a context, and for four participants of a certificate, a notarization, a
/// nullification, a finalization and a certificate message.
fn sizes<S: CertificateScheme, D: Digest>() -> [usize; 16]
where
    S::PublicKey: PublicKey,
{
    [
        Epoch::max_encode_size(),
        View::max_encode_size(),
        Participant::max_encode_size(),
        Round::max_encode_size(),
        Attestation::<S>::max_encode_size(),
        Proposal::<D>::max_encode_size(),
        Notarize::<S, D>::max_encode_size(),
        Nullify::<S>::max_encode_size(),
        Finalize::<S, D>::max_encode_size(),
        Vote::<S, D>::max_encode_size(),
        Context::<D, S::PublicKey>::max_encode_size(),
        S::max_certificate_size(4),
        Notarization::<S, D>::max_encode_size(4),
        Nullification::<S>::max_encode_size(4),
        Finalization::<S, D>::max_encode_size(4),
        Certificate::<S, D>::max_encode_size(4),
    ]
}

/// Whether these are the greatest sizes.
fn are_sizes<S: CertificateScheme, D: Digest>(wanted: &[usize]) -> bool
where
    S::PublicKey: PublicKey,
{
    sizes::<S, D>().as_slice() == wanted
}

#[test]
fn without_memory(rt: HostRuntime) {
    let _ = is_out(rt.alloc());
    let plain = [
        10, 10, 5, 20, 37, 62, 99, 57, 99, 100, 94, 153, 215, 173, 215, 216,
    ];
    assert!(rt; are_sizes::<Plain, Sha256Digest>(&plain));
    let marked = [10, 10, 5, 20, 6, 31, 37, 26, 37, 38, 35, 29, 60, 49, 60, 61];
    assert!(rt; are_sizes::<Marked, MarkedDigest>(&marked));
}
