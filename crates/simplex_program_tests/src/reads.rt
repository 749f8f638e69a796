//! When and how often the programs read: a line comes before the next read, and a megabyte takes few reads.

ghost use Rattle.std.specs.Prelude.{◌≡◌, false};
ghost use Rattle.simplex_stream.specs.Watched.{has_failed};

use crate::committee::marked;
use crate::inspected::STREAM;
use crate::long::nullification;
use faulty_io::{Source, Target, Trouble};
use simplex_audit::audit::{Committees, RunError, Watched, run, run_deferred};
use simplex_inspect::input::inspect_input;
use simplex_inspect::inspect::inspect;
use simplex_scheme::scheme::{Digest, Listing};
use simplex_schemes::marked::{Marked, MarkedDigest};
use std::alloc::Global;
use std::io::ErrorKind;
use std::process::Abort;
use std::test::Fail;

/// The read after this many of `step` bytes each fails. By then the lines of this many bytes, the messages that are whole, have
/// been written and flushed, and nothing else.
fn shows_before_a_read<S: Listing<D>, D: Digest>(
    rt: &impl Abort,
    alloc: Global,
    stream: &[u8],
    step: usize,
    reads: usize,
    whole: usize,
) -> Result<(), Fail> {
    let source = Source::new(stream, step.max(1), Trouble::Once(reads, ErrorKind::Other));
    let (mut reader, mut writer) = (Watched::new(source), Watched::new(Vec::new(alloc)));
    let answer = inspect_input::<S, D, _, _>(alloc, &None, &mut reader, &mut writer);
    assert_eq!(rt; answer.err(), Some(RunError::Read));
    assert!(rt; writer.flushed() || reads == 0);
    let mut model = Watched::new(Vec::new(alloc));
    let messages = stream.get(..whole).unwrap_or(stream);
    let fault = inspect::<S, D, _>(alloc, &None, messages, &mut model)?;
    assert!(rt; fault.is_none());
    assert!(rt; writer.into_inner().as_slice() == model.into_inner().as_slice());
    Ok(())
}

/// Two messages of 69 bytes that come in 60, 60 and 18, one of 4,000 bytes in 100 pieces of 40, and one of 4,095 bytes in 105
/// pieces of 39. A body that reads again before it writes is refused, as is one that puts off looking for messages.
#[test]
fn ample_a_line_comes_before_the_next_read(rt: HostRuntime) -> Result<(), Fail> {
    let alloc = rt.alloc();
    let short = nullification(alloc, 13, b"\x0d")?;
    let hundred = nullification(alloc, 799, b"\x9f\x06")?;
    let long = nullification(alloc, 818, b"\xb2\x06")?;
    let mut two = Vec::new(alloc);
    two.extend_from_slice(short.as_slice())?;
    two.extend_from_slice(short.as_slice())?;
    let cases: [(&[u8], usize, usize, usize); 7] = [
        (two.as_slice(), 60, 0, 0),
        (two.as_slice(), 60, 1, 0),
        (two.as_slice(), 60, 2, 69),
        (two.as_slice(), 60, 3, 138),
        (hundred.as_slice(), 40, 99, 0),
        (hundred.as_slice(), 40, 100, 4000),
        (long.as_slice(), 39, 105, 4095),
    ];
    for (stream, step, reads, whole) in cases {
        shows_before_a_read::<Marked, MarkedDigest>(&rt, alloc, stream, step, reads, whole)?;
    }
    Ok(())
}

/// A reader that gives all that it is asked for.
fn source(stream: &[u8]) -> Watched<Source<'_>>
    ensures { has_failed result ≡ false }
{
    Watched::new(Source::new(stream, usize::MAX, Trouble::Never))
}

/// A million bytes take 16 reads of up to 65,536 bytes and one at the end. A stored run leaves it to `read_to_end` how much it
/// asks for.
fn reads_few_times<S: Listing<D>, D: Digest>(
    rt: &impl Abort,
    alloc: Global,
    committees: &Committees<S>,
    stream: &[u8],
) -> Result<(), Fail> {
    let (mut reader, mut writer) = (source(stream), Watched::new(Target::steady()));
    run::<S, D, Source, Target>(alloc, committees, &mut reader, &mut writer)?;
    assert_eq!(rt; reader.into_inner().calls(), 17);
    let (mut reader, mut writer) = (source(stream), Watched::new(Target::steady()));
    run_deferred::<S, D, Source, Target>(alloc, committees, &mut reader, &mut writer)?;
    assert!(rt; reader.into_inner().calls() <= 40);
    let (mut reader, mut writer) = (source(stream), Watched::new(Target::steady()));
    inspect_input::<S, D, Source, Target>(alloc, &None, &mut reader, &mut writer)?;
    assert_eq!(rt; reader.into_inner().calls(), 17);
    Ok(())
}

/// Messages, and then bytes after a fault, which are dropped. Bodies that read a few bytes a call are refused.
#[test]
fn ample_a_megabyte_takes_few_reads(rt: HostRuntime) -> Result<(), Fail> {
    let alloc = rt.alloc();
    let mut stream = Vec::new(alloc);
    stream.extend_from_slice(STREAM)?;
    stream.resize(1_000_000, 0xff)?;
    let committees = marked(alloc, 4)?;
    reads_few_times::<_, MarkedDigest>(&rt, alloc, &committees, stream.as_slice())
}
