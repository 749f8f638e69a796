//! The lines of a stream in memory: over writers that do and do not fail, and where an allocation fails; also for a digest of
//! the test's own.

ghost use Rattle.std.proofs.Common.{lit<, lit≤};

use crate::committee::marked;
use faulty_io::{Target, Trouble};
use simplex_audit::audit::{Committees, RunError, Watched};
use simplex_base::codec::fixed_bytes::{FixedBytes, Role};
use simplex_inspect::inspect::inspect;
use simplex_scheme::scheme::{Digest, Listing};
use simplex_schemes::marked::{Marked, MarkedDigest};
use std::alloc::Global;
use std::io::ErrorKind;
use std::process::Abort;
use std::test::Fail;

/// A notarize of participant 1, a nullify of participant 4, a finalization of participants 1 and 2, and two bytes that begin no
/// message.
pub(crate) const STREAM: &[u8] = &[
    0, 0, 10, 5, 6, 1, 0xaa, //
    3, 0, 11, 4, 0xaa, //
    6, 0, 10, 5, 6, 2, 1, 0xaa, 2, 0xaa, //
    10, 255,
];

/// The lines of the stream under a committee of four.
pub(crate) const LINES: &str =
    "{\"offset\":0,\"length\":7,\"kind\":\"notarize\",\"epoch\":0,\"view\":10,\"statements\":[\
    {\"vote\":\"notarize\",\"parent\":5,\"payload\":\"06\",\"signatures\":[\
    {\"signer\":1,\"signature\":\"aa\",\"valid\":true}]}]}\n\
    {\"offset\":7,\"length\":5,\"kind\":\"nullify\",\"epoch\":0,\"view\":11,\"statements\":[\
    {\"vote\":\"nullify\",\"signatures\":[\
    {\"signer\":4,\"signature\":\"aa\",\"valid\":false,\"why\":\"signer outside the committee\"}]}]}\n\
    {\"offset\":12,\"length\":10,\"kind\":\"finalization\",\"epoch\":0,\"view\":10,\"statements\":[\
    {\"vote\":\"finalize\",\"parent\":5,\"payload\":\"06\",\"signatures\":[\
    {\"signer\":1,\"signature\":\"aa\",\"valid\":true},\
    {\"signer\":2,\"signature\":\"aa\",\"valid\":true}],\
    \"valid\":false,\"why\":\"fewer signatures than a quorum\"}]}\n\
    {\"offset\":22,\"fault\":\"Invalid consensus::simplex::Activity: Invalid type\",\"next\":\"0aff\"}\n";

/// The role of a digest of 48 bytes.
enum WideRole {}

impl Role<48> for WideRole {
    ghost sized = { (lit< tt, lit≤ tt) };
}

/// A notarize of participant 1 for a payload of the bytes 0 to 47.
const WIDE: &[u8] = &[
    0, 0, 10, 5, //
    0, 1, 2, 3, 4, 5, 6, 7, 8, 9, 10, 11, 12, 13, 14, 15, //
    16, 17, 18, 19, 20, 21, 22, 23, 24, 25, 26, 27, 28, 29, 30, 31, //
    32, 33, 34, 35, 36, 37, 38, 39, 40, 41, 42, 43, 44, 45, 46, 47, //
    1, 0xaa,
];

/// Its line, whose payload has 96 digits.
const WIDE_LINE: &str =
    "{\"offset\":0,\"length\":54,\"kind\":\"notarize\",\"epoch\":0,\"view\":10,\"statements\":[\
    {\"vote\":\"notarize\",\"parent\":5,\"payload\":\"\
    000102030405060708090a0b0c0d0e0f101112131415161718191a1b1c1d1e1f202122232425262728292a2b2c2d2e2f\",\
    \"signatures\":[{\"signer\":1,\"signature\":\"aa\",\"valid\":true}]}]}\n";

/// Writes the lines of a stream with a fault at this place, if any. Returns whether an allocation failed; then nothing was
/// written.
fn is_refused<S: Listing<D>, D: Digest>(
    rt: &(impl Abort + AllocGlobal),
    committees: &Option<Committees<S>>,
    stream: &[u8],
    lines: &str,
    place: Option<usize>,
) -> bool {
    let mut writer = Watched::new(Target::steady());
    let answer = inspect::<S, D, Target>(rt.alloc(), committees, stream, &mut writer);
    assert!(rt; !writer.failed());
    let target = writer.into_inner();
    match answer {
        Ok(fault) => {
            assert_eq!(rt; fault.map(|fault| fault.place), place);
            assert_eq!(rt; target.held(), lines.as_bytes());
            assert!(rt; target.is_flushed());
            false
        }
        Err(error) => {
            assert_eq!(rt; error, RunError::OutOfMemory);
            assert_eq!(rt; target.calls(), (0, 0));
            true
        }
    }
}

/// Writes the lines of both streams under a committee of four.
fn any_is_refused(rt: &(impl Abort + AllocGlobal)) -> bool {
    let Ok(committee) = Marked::new(rt.alloc(), 4, None) else {
        return true;
    };
    let committees = Some(Committees::every(committee));
    is_refused::<Marked, MarkedDigest>(rt, &committees, STREAM, LINES, Some(22))
        || is_refused::<Marked, FixedBytes<WideRole, 48>>(rt, &committees, WIDE, WIDE_LINE, None)
}

#[test]
fn ample(rt: HostRuntime) {
    assert!(rt; !any_is_refused(&rt));
}

/// Where an allocation fails nothing is written.
#[test]
fn refused(rt: HostRuntime) {
    let _ = any_is_refused(&rt);
}

/// Over a writer that fails the call fails, and the writer holds this prefix of the lines.
fn fails<S: Listing<D>, D: Digest>(
    rt: &impl Abort,
    alloc: Global,
    committees: &Option<Committees<S>>,
    target: Target,
    held: &str,
) {
    let mut writer = Watched::new(target);
    let answer = inspect::<S, D, Target>(alloc, committees, STREAM, &mut writer);
    assert!(rt; writer.failed());
    assert_eq!(rt; answer.err(), Some(RunError::Write));
    let target = writer.into_inner();
    assert_eq!(rt; target.held(), held.as_bytes());
}

#[test]
fn ample_writers_that_fail(rt: HostRuntime) -> Result<(), Fail> {
    let committees = Some(marked(rt.alloc(), 4)?);
    let never = Trouble::Never;
    let once = Trouble::Once(0, ErrorKind::Other);
    let interrupted = Trouble::Once(0, ErrorKind::Interrupted);
    let cases = [
        (10, never, never, "{\"offset\":"),
        (0, never, never, ""),
        (usize::MAX, once, never, ""),
        (usize::MAX, interrupted, never, ""),
        (usize::MAX, never, once, LINES),
    ];
    for (room, writing, flushing, held) in cases {
        let target = Target::new(usize::MAX, room, writing, flushing);
        fails::<Marked, MarkedDigest>(&rt, rt.alloc(), &committees, target, held);
    }
    Ok(())
}
