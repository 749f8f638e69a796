//! The lines of a stream that comes in reads of seven bytes: what is written and flushed before each further read, and what is
//! left where a read, a write or a flush fails.

use crate::committee::marked;
use crate::inspected::{LINES, STREAM};
use faulty_io::{Source, Target, Trouble};
use simplex_audit::audit::{Committees, RunError, Watched};
use simplex_inspect::input::inspect_input;
use simplex_scheme::scheme::{Digest, Listing};
use simplex_schemes::marked::MarkedDigest;
use std::alloc::Global;
use std::io::ErrorKind;
use std::process::Abort;
use std::test::Fail;

/// How many lines there are of what so many reads gave: of none, of 7, 14, 21 and 24 bytes, and of the end.
const WHOLE: [usize; 6] = [0, 1, 2, 2, 3, 4];

/// The first lines of the stream.
fn first_lines(count: usize) -> &'static [u8] {
    let text = LINES.as_bytes();
    let mut left = count;
    for (place, byte) in text.iter().enumerate() {
        if left == 0 {
            return text.get(..place).unwrap_or(text);
        }
        if *byte == b'\n' {
            left -= 1;
        }
    }
    text
}

/// One call, and what it returns and leaves.
#[derive(Clone, Copy)]
struct Case<'a> {
    reading: Trouble,
    writing: Trouble,
    flushing: Trouble,
    /// How many bytes the writer takes in all.
    room: usize,
    error: Option<RunError>,
    held: &'a [u8],
    /// How many reads and flushes are made.
    calls: (usize, usize),
}

/// A call in which no device fails: five reads, the last of which is at the end, and a flush after each.
fn steady() -> Case<'static> {
    Case {
        reading: Trouble::Never,
        writing: Trouble::Never,
        flushing: Trouble::Never,
        room: usize::MAX,
        error: None,
        held: LINES.as_bytes(),
        calls: (5, 5),
    }
}

/// Makes a call under a marked committee of four, and compares.
fn ends(rt: &impl Abort, alloc: Global, case: Case<'_>) -> Result<(), Fail> {
    let committees = Some(marked(alloc, 4)?);
    ends_by::<_, MarkedDigest>(rt, alloc, &committees, case);
    Ok(())
}

/// Makes a call, and compares.
fn ends_by<S: Listing<D>, D: Digest>(
    rt: &impl Abort,
    alloc: Global,
    committees: &Option<Committees<S>>,
    case: Case<'_>,
) {
    let source = Source::new(STREAM, 7, case.reading);
    let target = Target::new(usize::MAX, case.room, case.writing, case.flushing);
    let (mut reader, mut writer) = (Watched::new(source), Watched::new(target));
    let answer = inspect_input::<S, D, Source, Target>(alloc, committees, &mut reader, &mut writer);
    assert_eq!(rt; reader.failed(), case.error == Some(RunError::Read));
    assert_eq!(rt; writer.failed(), case.error == Some(RunError::Write));
    match answer {
        Ok(fault) => {
            assert_eq!(rt; fault.map(|fault| fault.place), Some(22));
            assert!(rt; case.error.is_none());
        }
        Err(error) => assert_eq!(rt; Some(error), case.error),
    }
    let target = writer.into_inner();
    assert_eq!(rt; target.held(), case.held);
    assert_eq!(rt; (reader.into_inner().calls(), target.calls().1), case.calls);
    assert!(rt; target.is_flushed() || case.error == Some(RunError::Write));
}

/// Each piece is one flush, and so is the end. A body that flushes once in all is refused.
#[test]
fn ample_each_piece_is_flushed(rt: HostRuntime) -> Result<(), Fail> {
    ends(&rt, rt.alloc(), steady())
}

/// Where a read fails, or is interrupted, all lines of what the earlier reads gave were written and flushed, and nothing else.
/// A body that reads on before it writes or flushes, or that reads again, is refused.
#[test]
fn ample_each_read_in_turn(rt: HostRuntime) -> Result<(), Fail> {
    for call in 0..5 {
        for kind in [ErrorKind::Interrupted, ErrorKind::Other] {
            let case = Case {
                reading: Trouble::Once(call, kind),
                error: Some(RunError::Read),
                held: first_lines(WHOLE[call]),
                calls: (call + 1, call),
                ..steady()
            };
            ends(&rt, rt.alloc(), case)?;
        }
    }
    Ok(())
}

/// Where a flush fails, or is interrupted, nothing more is written or read. A body that goes on, or that flushes again, is
/// refused.
#[test]
fn ample_each_flush_in_turn(rt: HostRuntime) -> Result<(), Fail> {
    for call in 0..5 {
        for kind in [ErrorKind::Interrupted, ErrorKind::Other] {
            let case = Case {
                flushing: Trouble::Once(call, kind),
                error: Some(RunError::Write),
                held: first_lines(WHOLE[call + 1]),
                calls: (call + 1, call + 1),
                ..steady()
            };
            ends(&rt, rt.alloc(), case)?;
        }
    }
    Ok(())
}

/// Bytes that begin with no message's tag.
const NO_MESSAGE: [u8; 21] = [10; 21];

/// What is written of them if they come in reads of five bytes.
fn shows<S: Listing<D>, D: Digest>(
    rt: &impl Abort,
    alloc: Global,
    committees: &Option<Committees<S>>,
    reading: Trouble,
) -> Target {
    let mut reader = Watched::new(Source::new(&NO_MESSAGE, 5, reading));
    let mut writer = Watched::new(Target::steady());
    let answer = inspect_input::<S, D, Source, Target>(alloc, committees, &mut reader, &mut writer);
    assert_eq!(rt; answer.is_err(), reader.failed());
    writer.into_inner()
}

/// The line of a final fault is written and flushed after the read that gives the last of its 16 bytes, and before the next
/// read: where an earlier read fails nothing is written, and where a later one fails the line is.
#[test]
fn ample_final_fault_is_shown_at_once(rt: HostRuntime) -> Result<(), Fail> {
    let committees = Some(marked(rt.alloc(), 4)?);
    let whole = shows::<_, MarkedDigest>(&rt, rt.alloc(), &committees, Trouble::Never);
    assert!(rt; whole.is_flushed() && !whole.held().is_empty());
    for call in 0..6 {
        let reading = Trouble::Once(call, ErrorKind::Other);
        let target = shows::<_, MarkedDigest>(&rt, rt.alloc(), &committees, reading);
        let want = if call < 4 { &[] } else { whole.held() };
        assert_eq!(rt; target.held(), want);
        assert!(rt; call < 4 || target.is_flushed());
    }
    Ok(())
}

/// Where a write fails, or takes nothing, nothing more is written, flushed or read.
#[test]
fn ample_writers_that_fail(rt: HostRuntime) -> Result<(), Fail> {
    let failing = Case {
        error: Some(RunError::Write),
        ..steady()
    };
    let cases: [Case; 3] = [
        Case {
            room: 10,
            held: b"{\"offset\":",
            calls: (1, 0),
            ..failing
        },
        Case {
            room: 0,
            held: b"",
            calls: (1, 0),
            ..failing
        },
        Case {
            writing: Trouble::Once(1, ErrorKind::Interrupted),
            held: first_lines(1),
            calls: (2, 1),
            ..failing
        },
    ];
    for case in cases {
        ends(&rt, rt.alloc(), case)?;
    }
    Ok(())
}
