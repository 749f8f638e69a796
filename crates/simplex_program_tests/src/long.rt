//! A long message that comes in short reads. A body that looks for messages after each read would take minutes.

use crate::committee::marked;
use faulty_io::{Source, Target, Trouble};
use simplex_audit::audit::{Committees, Watched, run};
use simplex_inspect::input::inspect_input;
use simplex_scheme::scheme::{Digest, Listing};
use simplex_schemes::marked::{Marked, MarkedDigest};
use std::alloc::Global;
use std::process::Abort;
use std::test::Fail;

/// The first signer whose number is encoded in four bytes.
const FIRST: u32 = 2_097_152;

/// How many attestations the message lists.
const ATTESTATIONS: u32 = 3_200_000;

/// The four bytes that encode a number from 2^21 to 2^28 - 1.
fn encoded(number: u32) -> [u8; 4] {
    [
        (number % 128 + 128) as u8,
        (number / 128 % 128 + 128) as u8,
        (number / 16_384 % 128 + 128) as u8,
        (number / 2_097_152 % 128) as u8,
    ]
}

/// A nullification of view 10 with this many attestations, whose number is encoded in these bytes: five bytes for each.
pub(crate) fn nullification(
    alloc: Global,
    attestations: u32,
    count: &[u8],
) -> Result<Vec<u8>, Fail> {
    let mut bytes = Vec::new(alloc);
    bytes.extend_from_slice(b"\x04\x00\x0a")?;
    bytes.extend_from_slice(count)?;
    for signer in FIRST..FIRST.saturating_add(attestations) {
        bytes.extend_from_slice(&encoded(signer))?;
        bytes.push(0xaa)?;
    }
    Ok(bytes)
}

/// The stream, in reads of 1,000 bytes, is one message, which accuses nobody.
fn check<S: Listing<D>, D: Digest>(
    rt: &impl Abort,
    alloc: Global,
    committees: &Committees<S>,
    stream: &[u8],
) -> Result<(), Fail> {
    let source = Source::new(stream, 1000, Trouble::Never);
    let (mut reader, mut writer) = (Watched::new(source), Watched::new(Target::steady()));
    let summary = run::<S, D, Source, Target>(alloc, committees, &mut reader, &mut writer)?;
    assert!(rt; summary.read == 1 && summary.evidence == 0 && summary.fault.is_none());
    Ok(())
}

#[test]
fn ample_a_long_message_in_short_reads_is_read(rt: HostRuntime) -> Result<(), Fail> {
    let alloc = rt.alloc();
    let committees = marked(alloc, FIRST + ATTESTATIONS)?;
    let stream = nullification(alloc, ATTESTATIONS, &encoded(ATTESTATIONS))?;
    assert_eq!(rt; stream.len(), 16_000_007);
    check::<_, MarkedDigest>(&rt, alloc, &committees, stream.as_slice())
}

/// The beginning and the end of the line of a nullification with 200,000 attestations.
const ENDS: (&[u8], &[u8]) = (
    b"{\"offset\":0,\"length\":1000006,\"kind\":\"nullification\",\"epoch\":0,\"view\":10,\"statements\":[\
    {\"vote\":\"nullify\",\"signatures\":[{\"signer\":2097152,\"signature\":\"aa\"},",
    b"{\"signer\":2297151,\"signature\":\"aa\"}]}]}\n",
);

/// The line of the message is written, also where it comes in reads of 25 bytes. Nothing is verified.
fn check_line<S: Listing<D>, D: Digest>(
    rt: &impl Abort,
    alloc: Global,
    stream: &[u8],
) -> Result<(), Fail> {
    let source = Source::new(stream, 25, Trouble::Never);
    let (mut reader, mut writer) = (Watched::new(source), Watched::new(Vec::new(alloc)));
    let fault = inspect_input::<S, D, _, _>(alloc, &None, &mut reader, &mut writer)?;
    let line = writer.into_inner();
    assert!(rt; fault.is_none() && line.starts_with(ENDS.0) && line.ends_with(ENDS.1));
    assert_eq!(rt; line.len(), 7_200_122);
    Ok(())
}

#[test]
fn ample_a_long_message_in_short_reads_is_shown(rt: HostRuntime) -> Result<(), Fail> {
    let stream = nullification(rt.alloc(), 200_000, b"\xc0\x9a\x0c")?;
    assert_eq!(rt; stream.len(), 1_000_006);
    check_line::<Marked, MarkedDigest>(&rt, rt.alloc(), stream.as_slice())
}
