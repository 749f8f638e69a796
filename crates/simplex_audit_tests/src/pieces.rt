//! A long certificate and votes behind it, in pieces. Byte by byte, a body that reads it again with each byte would take
//! minutes.

ghost use Rattle.std.specs.Prelude.{◌+◌, ◌<◌, ◌^◌, length};

use crate::outcome::marked;
use simplex_audit::audit::{Auditor, Committees, audit};
use simplex_schemes::marked::{Marked, MarkedDigest};
use std::alloc::Global;
use std::process::Abort;
use std::test::Fail;

/// How many attestations the certificate lists.
const ATTESTATIONS: u32 = 1000;

/// How many notarizes follow it.
const NOTARIZES: usize = 400;

/// A nullification of view 10 with 1,000 attestations, and notarizes of participant 1, of 7 bytes each.
fn stream(alloc: Global) -> Result<Vec<u8>, Fail> {
    let mut bytes = Vec::new(alloc);
    bytes.extend_from_slice(b"\x04\x00\x0a\xe8\x07")?;
    for signer in 0..ATTESTATIONS {
        if signer >= 128 {
            bytes.push((signer % 128 + 128) as u8)?;
            bytes.push((signer / 128) as u8)?;
        } else {
            bytes.push(signer as u8)?;
        }
        bytes.push(0xaa)?;
    }
    for _ in 0..NOTARIZES {
        bytes.extend_from_slice(&[0, 0, 10, 5, 6, 1, 0xaa])?;
    }
    Ok(bytes)
}

/// The auditor that was fed a piece more.
fn fed_on<'a>(
    auditor: Auditor<'a, Marked, MarkedDigest>,
    piece: &[u8],
) -> Result<Auditor<'a, Marked, MarkedDigest>, Fail> {
    if piece.len() > usize::MAX - auditor.fed() {
        return Err("too many bytes".into());
    }
    Ok(auditor.feed(piece)?)
}

/// Panics unless the report is that of an audit of what was fed.
fn compare(
    rt: &impl Abort,
    alloc: Global,
    committees: &Committees<Marked>,
    auditor: &Auditor<'_, Marked, MarkedDigest>,
    bytes: &[u8],
) -> Result<(), Fail> {
    let found = auditor.report()?;
    let whole = audit::<Marked, MarkedDigest>(alloc, committees, bytes)?;
    assert!(rt;
        found.read == whole.read && found.fault == whole.fault,
        "{} bytes",
        bytes.len()
    );
    Ok(())
}

/// Feeds the stream in pieces of `size` bytes. After each multiple of `step` bytes it compares a report with the audit of what
/// was fed.
fn check(rt: &impl Abort, alloc: Global, size: usize, step: usize) -> Result<(), Fail>
    requires size { 0 < size }
    requires step { 0 < step }
{
    let committees = marked(alloc, ATTESTATIONS)?;
    let bytes = stream(alloc)?;
    let mut auditor = Auditor::<Marked, MarkedDigest>::new(alloc, &committees);
    for piece in bytes.chunks(size) {
        auditor = fed_on(auditor, piece)?;
        let fed = auditor.fed();
        if fed % step == 0 && fed <= bytes.len() {
            compare(rt, alloc, &committees, &auditor, &bytes[..fed])?;
        }
    }
    let report = auditor.report()?;
    assert!(rt;
        report.read == 1 + NOTARIZES && report.fault.is_none(),
        "by {size}"
    );
    assert_eq!(rt; auditor.rest().len(), 0);
    Ok(())
}

#[test]
fn ample_a_certificate_byte_by_byte(rt: HostRuntime) -> Result<(), Fail> {
    check(&rt, rt.alloc(), 1, 100)
}

/// Pieces begin within a message, whose end comes soon, late in the piece or in a later one.
#[test]
fn ample_pieces_behind_an_undecoded_tail(rt: HostRuntime) -> Result<(), Fail> {
    check(&rt, rt.alloc(), 600, 600)?;
    check(&rt, rt.alloc(), 1030, 1030)?;
    check(&rt, rt.alloc(), 1400, 1400)?;
    check(&rt, rt.alloc(), 2500, 2500)?;
    check(&rt, rt.alloc(), 4000, 4000)
}
