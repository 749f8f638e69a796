//! How many votes an auditor has recorded, by schemes whose certificates list no more attestations
//! than they have bytes: the exact number, as `Auditor::votes` gives it for these.

ghost use Rattle.std.specs.Prelude.{◌≤◌, length};
ghost use Rattle.simplex_audit_tests.specs.Recorded.{IsNumberRecorded};

use crate::outcome::marked;
use simplex_audit::audit::{Auditor, Committees};
use simplex_audit::basis::Audited;
use simplex_base::codec::Fixed;
use simplex_scheme::scheme::{Digest, Listing, Set, Sha256Digest};
use simplex_schemes::listed::lists_within;
use simplex_schemes::marked::{Marked, MarkedDigest};
use simplex_schemes::plain::{Plain, PlainKey};
use std::alloc::{AllocError, Global};
use std::test::Fail;

/// A scheme whose certificates list no more attestations than they have bytes.
trait ListsWithin<D: Digest>: Listing<D> {
    /// States it; there is no code.
    fn within()
        ensures { (certificate : Self.Certificate) →
            length (Self.listed certificate) ≤ length (Self.Certificate.encoding certificate) };
}

impl<D: Digest> ListsWithin<D> for Plain {
    fn within() {
        lists_within::<Plain>();
    }
}

impl<D: Digest> ListsWithin<D> for Marked {
    fn within() {
        lists_within::<Marked>();
    }
}

/// How many votes an auditor has recorded.
fn recorded<S: ListsWithin<D>, D: Digest>(auditor: &Auditor<'_, S, D>) -> usize
    ensures { IsNumberRecorded ⟦<S as Audited<D>>⟧.basis auditor.now result }
{
    <S as ListsWithin<D>>::within();
    auditor.votes()
}

/// How many votes an auditor has recorded that was fed a stream.
fn recorded_of<S: ListsWithin<D>, D: Digest>(
    alloc: Global,
    committees: &Committees<S>,
    stream: &[u8],
) -> Result<usize, AllocError> {
    let auditor = Auditor::<S, D>::new(alloc, committees).feed(stream)?;
    Ok(recorded(&auditor))
}

/// Two notarizes for view 10 by the key of zeros under the base `test`.
const PLAIN: &[u8] = &[
    0, 0, 10, 5, //
    6, 6, 6, 6, 6, 6, 6, 6, 6, 6, 6, 6, 6, 6, 6, 6, //
    6, 6, 6, 6, 6, 6, 6, 6, 6, 6, 6, 6, 6, 6, 6, 6, //
    0, //
    0x8c, 0x67, 0x74, 0xd2, 0xf6, 0x8c, 0x56, 0x7d, //
    0x3d, 0x70, 0x99, 0x35, 0x3b, 0xa7, 0xb9, 0xa7, //
    0x3b, 0x4a, 0x39, 0x19, 0xf0, 0x0b, 0xf8, 0x57, //
    0x1c, 0x6c, 0xf1, 0x4b, 0x8b, 0x0e, 0x1f, 0xbc, //
    0, 0, 10, 5, //
    7, 7, 7, 7, 7, 7, 7, 7, 7, 7, 7, 7, 7, 7, 7, 7, //
    7, 7, 7, 7, 7, 7, 7, 7, 7, 7, 7, 7, 7, 7, 7, 7, //
    0, //
    0x85, 0xc5, 0xf6, 0x12, 0x87, 0x21, 0x54, 0xca, //
    0x52, 0xe9, 0x92, 0xa7, 0x9a, 0xec, 0x3b, 0xfd, //
    0xc4, 0x07, 0xbf, 0x28, 0x73, 0xf7, 0xf4, 0x37, //
    0x2e, 0x33, 0xb4, 0xbe, 0x6d, 0xe3, 0xd7, 0x1b, //
];

/// Two notarizes of participant 1, one of them twice, and a nullification of participants 0, 1 and 2.
const MARKED: &[u8] = &[
    0, 0, 10, 5, 6, 1, 0xaa, 0, 0, 10, 5, 7, 1, 0xaa, 0, 0, 10, 5, 6, 1, 0xaa, //
    4, 0, 10, 3, 0, 0xaa, 1, 0xaa, 2, 0xaa,
];

/// The committee of the key of zeros.
fn zeros(alloc: Global) -> Result<Committees<Plain>, Fail> {
    let keys = Set::try_from_vec(Vec::from_array(alloc, [PlainKey::from_bytes(&[0; 32])])?)?;
    if keys.len() != 1 {
        return Err("no key".into());
    }
    Ok(Committees::every(Plain::verifier(alloc, b"test", keys)?))
}

#[test]
fn ample_plain(rt: HostRuntime) -> Result<(), Fail> {
    let committees = zeros(rt.alloc())?;
    assert_eq!(rt;
        recorded_of::<_, Sha256Digest>(rt.alloc(), &committees, PLAIN)?,
        2
    );
    Ok(())
}

#[test]
fn ample_marked(rt: HostRuntime) -> Result<(), Fail> {
    let committees = marked(rt.alloc(), 4)?;
    assert_eq!(rt;
        recorded_of::<_, MarkedDigest>(rt.alloc(), &committees, MARKED)?,
        5
    );
    Ok(())
}
