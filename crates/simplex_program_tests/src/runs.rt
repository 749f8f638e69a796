//! Runs over readers and writers that do and do not fail, also those of a stored stream.

use crate::committee::marked;
use faulty_io::{Source, Target, Trouble};
use simplex_audit::audit::{Committees, RunError, Watched, run, run_deferred};
use simplex_scheme::scheme::{Digest, Listing};
use simplex_schemes::marked::MarkedDigest;
use std::alloc::Global;
use std::fmt::Write;
use std::io::ErrorKind;
use std::process::Abort;
use std::test::Fail;

/// Two notarizes of participant 1 that contradict.
const CONFLICT: &[u8] = b"\x00\x00\x0a\x05\x06\x01\xaa\x00\x00\x0a\x05\x07\x01\xaa";

const LINE: &str = "0 10 1 conflicting-notarize 5 06 5 07\n";

/// One run, what it returns and what the writer then holds.
#[derive(Clone, Copy)]
struct Case<'a> {
    stream: &'a [u8],
    /// How many bytes a call gives, and takes.
    steps: (usize, usize),
    reading: Trouble,
    writing: Trouble,
    flushing: Trouble,
    /// How many bytes the writer takes in all.
    room: usize,
    error: Option<RunError>,
    held: &'a str,
    /// How many flushes are made.
    flushes: usize,
}

/// A run in which no device fails.
const STEADY: Case<'static> = Case {
    stream: CONFLICT,
    steps: (usize::MAX, usize::MAX),
    reading: Trouble::Never,
    writing: Trouble::Never,
    flushing: Trouble::Never,
    room: usize::MAX,
    error: None,
    held: LINE,
    flushes: 1,
};

/// Makes a run under a marked committee of four, and one of a stored stream, and compares.
fn ends(rt: &impl Abort, alloc: Global, case: Case<'_>) -> Result<(), Fail> {
    let committees = marked(alloc, 4)?;
    for deferred in [false, true] {
        ends_by::<_, MarkedDigest>(rt, alloc, &committees, deferred, case);
    }
    Ok(())
}

/// Makes a run, and compares.
fn ends_by<S: Listing<D>, D: Digest>(
    rt: &impl Abort,
    alloc: Global,
    committees: &Committees<S>,
    deferred: bool,
    case: Case<'_>,
) {
    let source = Source::new(case.stream, case.steps.0.max(1), case.reading);
    let target = Target::new(case.steps.1, case.room, case.writing, case.flushing);
    let (mut reader, mut writer) = (Watched::new(source), Watched::new(target));
    assert!(rt; !reader.failed() && !writer.failed());
    let outcome = if deferred {
        run_deferred::<S, D, Source, Target>(alloc, committees, &mut reader, &mut writer)
    } else {
        run::<S, D, Source, Target>(alloc, committees, &mut reader, &mut writer)
    };
    assert_eq!(rt; reader.failed(), case.error == Some(RunError::Read));
    assert_eq!(rt; writer.failed(), case.error == Some(RunError::Write));
    assert_eq!(rt; outcome.err(), case.error);
    let target = writer.into_inner();
    assert_eq!(rt; target.held(), case.held.as_bytes());
    let (writes, flushes) = target.calls();
    assert_eq!(rt; flushes, case.flushes);
    assert!(rt; writes == 0 || case.error != Some(RunError::Read));
}

#[test]
fn ample_devices_that_do_not_fail(rt: HostRuntime) -> Result<(), Fail> {
    for steps in [
        (usize::MAX, usize::MAX),
        (usize::MAX, 1),
        (1, usize::MAX),
        (3, 7),
    ] {
        ends(&rt, rt.alloc(), Case { steps, ..STEADY })?;
    }
    Ok(())
}

#[test]
fn ample_readers_that_fail(rt: HostRuntime) -> Result<(), Fail> {
    let troubles = [
        Trouble::Once(2, ErrorKind::Interrupted),
        Trouble::Once(2, ErrorKind::Other),
        Trouble::Since(2, ErrorKind::Other),
        Trouble::Once(0, ErrorKind::OutOfMemory),
    ];
    for reading in troubles {
        let case = Case {
            steps: (1, 1),
            reading,
            error: Some(RunError::Read),
            held: "",
            flushes: 0,
            ..STEADY
        };
        ends(&rt, rt.alloc(), case)?;
    }
    Ok(())
}

#[test]
fn ample_writers_that_fail(rt: HostRuntime) -> Result<(), Fail> {
    let failing = Case {
        error: Some(RunError::Write),
        flushes: 0,
        ..STEADY
    };
    let cases: [Case; 7] = [
        Case {
            room: 10,
            held: "0 10 1 con",
            ..failing
        },
        Case {
            room: 0,
            held: "",
            ..failing
        },
        Case {
            steps: (usize::MAX, 10),
            writing: Trouble::Once(1, ErrorKind::Other),
            held: "0 10 1 con",
            ..failing
        },
        Case {
            steps: (1, 4),
            writing: Trouble::Once(2, ErrorKind::Interrupted),
            held: "0 10 1 c",
            ..failing
        },
        Case {
            writing: Trouble::Once(0, ErrorKind::OutOfMemory),
            held: "",
            ..failing
        },
        Case {
            flushing: Trouble::Once(0, ErrorKind::Other),
            flushes: 1,
            ..failing
        },
        Case {
            stream: b"",
            flushing: Trouble::Once(0, ErrorKind::Other),
            flushes: 1,
            held: "",
            ..failing
        },
    ];
    for case in cases {
        ends(&rt, rt.alloc(), case)?;
    }
    Ok(())
}

/// Twenty messages, in each of ten rounds two notarizes of participant 1 that contradict, and the text of their report.
#[derive(Drop)]
struct Twenty {
    stream: Vec<u8>,
    text: String,
}

impl Twenty {
    fn new(alloc: Global) -> Result<Self, Fail> {
        let (mut stream, mut text) = (Vec::new(alloc), String::new(alloc));
        for view in 10..20 {
            stream.extend_from_slice(&[0, 0, view, 5, 6, 1, 0xaa])?;
            stream.extend_from_slice(&[0, 0, view, 5, 7, 1, 0xaa])?;
            writeln!(text, "0 {view} 1 conflicting-notarize 5 06 5 07")?;
        }
        Ok(Twenty { stream, text })
    }

    /// The run over them in calls of 16 bytes: ten reads, the last at the end, and 24 writes.
    fn steady(&self) -> Case<'_> {
        Case {
            stream: self.stream.as_slice(),
            steps: (16, 16),
            held: self.text.as_str(),
            ..STEADY
        }
    }
}

/// After a read that fails, or is interrupted, nothing is written. A short read changes nothing.
#[test]
fn ample_each_read_in_turn(rt: HostRuntime) -> Result<(), Fail> {
    let twenty = Twenty::new(rt.alloc())?;
    let steady = twenty.steady();
    for call in 0..10 {
        for kind in [ErrorKind::Interrupted, ErrorKind::Other] {
            let case = Case {
                reading: Trouble::Once(call, kind),
                error: Some(RunError::Read),
                held: "",
                flushes: 0,
                ..steady
            };
            ends(&rt, rt.alloc(), case)?;
        }
        let reading = Trouble::Short(call);
        ends(&rt, rt.alloc(), Case { reading, ..steady })?;
    }
    let reading = Trouble::Since(10, ErrorKind::Other);
    ends(&rt, rt.alloc(), Case { reading, ..steady })
}

/// After a write that fails, or is interrupted, the writer holds what was written before it. A short write changes nothing.
#[test]
fn ample_each_write_in_turn(rt: HostRuntime) -> Result<(), Fail> {
    let twenty = Twenty::new(rt.alloc())?;
    let steady = twenty.steady();
    for call in 0..24 {
        for kind in [ErrorKind::Interrupted, ErrorKind::Other] {
            let case = Case {
                writing: Trouble::Once(call, kind),
                error: Some(RunError::Write),
                held: twenty.text.get(..16 * call).unwrap_or(""),
                flushes: 0,
                ..steady
            };
            ends(&rt, rt.alloc(), case)?;
        }
        let writing = Trouble::Short(call);
        ends(&rt, rt.alloc(), Case { writing, ..steady })?;
    }
    let writing = Trouble::Since(24, ErrorKind::Other);
    ends(&rt, rt.alloc(), Case { writing, ..steady })?;
    let case = Case {
        flushing: Trouble::Once(0, ErrorKind::Interrupted),
        error: Some(RunError::Write),
        ..steady
    };
    ends(&rt, rt.alloc(), case)
}

#[test]
fn ample_errors_are_printed(rt: HostRuntime) -> Result<(), Fail> {
    let texts = [
        (RunError::Read, "a read failed"),
        (RunError::Write, "a write failed"),
        (RunError::OutOfMemory, "out of memory"),
        (RunError::TooLong, "more than 2^64 - 1 bytes were read"),
    ];
    for (error, text) in texts {
        let printed = format!(in rt.alloc(); "{error}")?;
        assert_eq!(rt; printed.as_str(), text);
    }
    Ok(())
}
