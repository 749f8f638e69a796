//! The program as a function over its arguments and streams: its exit status, its text and what it says, however it verifies.

use crate::example_crate::TWICE;
use crate::without_memory::memory_ends;
use faulty_io::{Source, Target, Trouble};
use simplex_audit::audit::Watched;
use simplex_cli::command::command;
use simplex_cli::complaints::complaint_at;
use simplex_cli::program::{Program, Verification};
use simplex_cli::status::Status;
use std::alloc::{AllocError, Global};
use std::io::ErrorKind;
use std::process::Abort;
use std::test::Fail;

const ZEROS: &str = "0000000000000000000000000000000000000000000000000000000000000000";

/// The line of the stream of two notarizes.
const LINE: &str = "0 10 0 conflicting-notarize \
    5 0606060606060606060606060606060606060606060606060606060606060606 \
    5 0707070707070707070707070707070707070707070707070707070707070707\n";

const OUT_OF_MEMORY: &str = "audit: out of memory\n";

const READ_FAILED: &str = "audit: read failed\n";

const WRITE_FAILED: &str = "audit: write failed\n";

/// One call of the program: arguments and devices, and what it has to return and write.
#[derive(Clone, Copy)]
struct Case<'a> {
    arguments: &'a [&'a str],
    stream: &'a [u8],
    /// How many bytes a read of the input gives, a write to the output takes, and one to standard error takes.
    steps: (usize, usize, usize),
    reading: Trouble,
    writing: Trouble,
    flushing: Trouble,
    saying: Trouble,
    /// How many bytes the writer takes in all.
    room: usize,
    status: Status,
    text: &'a str,
    said: &'a str,
}

/// The call for one key of zeros over devices that do not fail.
fn steady(stream: &[u8]) -> Case<'_> {
    Case {
        arguments: &["test", ZEROS],
        stream,
        steps: (usize::MAX, usize::MAX, usize::MAX),
        reading: Trouble::Never,
        writing: Trouble::Never,
        flushing: Trouble::Never,
        saying: Trouble::Never,
        room: usize::MAX,
        status: Status::Whole,
        text: LINE,
        said: "",
    }
}

fn words(alloc: Global, texts: &[&str]) -> Result<Vec<String>, AllocError> {
    let mut words = Vec::new(alloc);
    for text in texts {
        words.push(text.to_string(alloc)?)?;
    }
    Ok(words)
}

/// Makes a call, and compares. Returns whether an allocation failed; then nothing was written, and the program said so.
fn is_refused(rt: &impl Abort, alloc: Global, verification: Verification, case: Case<'_>) -> bool {
    let Ok(arguments) = words(alloc, case.arguments) else {
        return true;
    };
    let source = Source::new(case.stream, case.steps.0.max(1), case.reading);
    let target = Target::new(case.steps.1, case.room, case.writing, case.flushing);
    let errors = Target::new(case.steps.2, usize::MAX, case.saying, Trouble::Never);
    let (mut input, mut output) = (Watched::new(source), Watched::new(target));
    let mut errors = Watched::new(errors);
    let arguments = arguments.as_slice();
    let status = command(
        alloc,
        Program::Audit(verification),
        arguments,
        &mut input,
        &mut output,
        &mut errors,
    );
    let (source, target) = (input.into_inner(), output.into_inner());
    let errors = errors.into_inner();
    assert!(rt; errors.is_flushed());
    let refused = errors.held() == OUT_OF_MEMORY.as_bytes();
    if refused {
        assert_eq!(rt; status, Status::Failed);
        assert_eq!(rt; target.calls(), (0, 0));
        return true;
    }
    assert_eq!(rt; status, case.status);
    assert_eq!(rt; target.held(), case.text.as_bytes());
    assert_eq!(rt; errors.held(), case.said.as_bytes());
    assert_eq!(rt; source.calls() == 0, status == Status::Usage);
    false
}

/// Makes the calls with ample memory.
fn ends(rt: &impl Abort, alloc: Global, cases: &[Case<'_>]) {
    for case in cases {
        assert!(rt; !is_refused(rt, alloc, Verification::Full, *case));
        assert!(rt; !is_refused(rt, alloc, Verification::Deferred, *case));
    }
}

#[test]
fn ample_arguments_and_faults(rt: HostRuntime) -> Result<(), Fail> {
    let stream = hex::decode(rt.alloc(), TWICE)?;
    let twice = steady(stream.as_slice());
    let cases = [
        twice,
        Case {
            text: "",
            ..steady(b"")
        },
        Case {
            status: Status::Fault,
            text: "",
            said: "audit: fault at byte 0\n",
            ..steady(b"\x0a")
        },
        Case {
            arguments: &["test"],
            status: Status::Usage,
            text: "",
            said: "usage: audit NAMESPACE KEY...\n",
            ..twice
        },
        Case {
            arguments: &["test", "@0", ZEROS, "@1", ZEROS],
            ..twice
        },
        Case {
            arguments: &["test", "@1", ZEROS, "@2", ZEROS],
            text: "",
            ..twice
        },
    ];
    ends(&rt, rt.alloc(), &cases);
    Ok(())
}

/// Each cause of status 3 except memory. A failed write to standard error leaves the status, and an interrupted one is made
/// again, however often: a body that gives up at the second interruption, or begins the text anew, is refused.
#[test]
fn ample_devices_that_fail(rt: HostRuntime) -> Result<(), Fail> {
    let stream = hex::decode(rt.alloc(), TWICE)?;
    let twice = steady(stream.as_slice());
    let unread = Case {
        steps: (1, usize::MAX, 1),
        status: Status::Failed,
        text: "",
        said: READ_FAILED,
        ..twice
    };
    let unwritten = Case {
        status: Status::Failed,
        said: WRITE_FAILED,
        ..twice
    };
    let cases = [
        Case {
            steps: (1, 1, 1),
            ..twice
        },
        Case {
            reading: Trouble::Once(2, ErrorKind::Other),
            ..unread
        },
        Case {
            reading: Trouble::Once(2, ErrorKind::Interrupted),
            ..unread
        },
        Case {
            room: 10,
            text: "0 10 0 con",
            ..unwritten
        },
        Case {
            room: 0,
            text: "",
            ..unwritten
        },
        Case {
            steps: (1, 10, 1),
            writing: Trouble::Once(1, ErrorKind::Other),
            text: "0 10 0 con",
            ..unwritten
        },
        Case {
            flushing: Trouble::Once(0, ErrorKind::Other),
            ..unwritten
        },
        Case {
            flushing: Trouble::Once(0, ErrorKind::Other),
            text: "",
            ..Case {
                stream: b"",
                ..unwritten
            }
        },
        Case {
            room: 0,
            text: "",
            saying: Trouble::Once(0, ErrorKind::Interrupted),
            ..unwritten
        },
        Case {
            room: 0,
            text: "",
            steps: (usize::MAX, usize::MAX, 10),
            saying: Trouble::Between(1, 3, ErrorKind::Interrupted),
            ..unwritten
        },
        Case {
            room: 0,
            text: "",
            saying: Trouble::Once(0, ErrorKind::Other),
            said: "",
            ..unwritten
        },
    ];
    ends(&rt, rt.alloc(), &cases);
    Ok(())
}

/// Makes a call with groups of keys, over devices that do not fail.
fn any_is_refused(rt: &(impl Abort + AllocGlobal)) -> bool {
    let Ok(stream) = hex::decode(rt.alloc(), TWICE) else {
        return true;
    };
    let case = Case {
        arguments: &["test", "@0", ZEROS, "@1", ZEROS],
        ..steady(stream.as_slice())
    };
    is_refused(rt, rt.alloc(), Verification::Full, case)
        || is_refused(rt, rt.alloc(), Verification::Deferred, case)
}

#[test]
fn ample(rt: HostRuntime) {
    assert!(rt; !any_is_refused(&rt));
}

/// Where an allocation fails nothing is written, and the status is 3.
#[test]
fn refused(rt: HostRuntime) {
    let _ = any_is_refused(&rt);
}

/// The complaint about a fault, that of `inspect` too, has room for each place, and takes no memory. One that stops short of
/// the greatest place, or of the line's end, is refused.
#[test]
fn without_memory_longest_complaint(rt: HostRuntime) {
    memory_ends(rt.alloc());
    let longest = complaint_at(Program::Audit(Verification::Full), usize::MAX);
    assert_eq!(rt;
        longest.as_str(),
        "audit: fault at byte 18446744073709551615\n"
    );
    assert_eq!(rt; longest.len(), 42);
    let longest = complaint_at(Program::Inspect, usize::MAX);
    assert_eq!(rt;
        longest.as_str(),
        "inspect: fault at byte 18446744073709551615\n"
    );
    assert_eq!(rt; longest.len(), 44);
}
