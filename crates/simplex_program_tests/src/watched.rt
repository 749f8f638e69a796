//! A watched device passes on each call once, and what it returns.

use faulty_io::{Source, Target, Trouble};
use simplex_audit::audit::Watched;
use std::io;
use std::io::{ErrorKind, Read, Write};
use std::test::Fail;

/// Kinds of errors that a device may return.
const KINDS: [ErrorKind; 4] = [
    ErrorKind::Interrupted,
    ErrorKind::OutOfMemory,
    ErrorKind::UnexpectedEof,
    ErrorKind::Other,
];

/// The kind of an error, if there is one.
fn kind_of<T: Copy>(outcome: io::Result<T>) -> Option<ErrorKind> {
    match outcome {
        Ok(_) => None,
        Err(error) => Some(error.kind()),
    }
}

/// A read is one read of the device, and returns its bytes or its error.
#[test]
fn reads_are_handed_on(rt: HostRuntime) -> Result<(), Fail> {
    for kind in KINDS {
        let source = Source::new(b"abc", 2, Trouble::Once(1, kind));
        let mut reader = Watched::new(source);
        let mut buf = [0; 4];
        assert_eq!(rt; reader.read(&mut buf)?, 2);
        assert!(rt; !reader.failed());
        assert_eq!(rt; kind_of(reader.read(&mut buf)), Some(kind));
        assert!(rt; reader.failed());
        assert_eq!(rt; reader.read(&mut buf)?, 1);
        assert_eq!(rt; reader.read(&mut buf)?, 0);
        assert_eq!(rt; reader.read(&mut [])?, 0);
        assert!(rt; reader.failed());
        assert_eq!(rt; buf.as_slice(), b"cb\0\0".as_slice());
        assert_eq!(rt; reader.into_inner().calls(), 5);
    }
    Ok(())
}

/// A write is one write of the device, which takes its bytes or returns its error.
#[test]
fn writes_are_handed_on(rt: HostRuntime) -> Result<(), Fail> {
    for kind in KINDS {
        let target = Target::new(2, 3, Trouble::Once(1, kind), Trouble::Never);
        let mut writer = Watched::new(target);
        assert_eq!(rt; writer.write(b"abc")?, 2);
        assert!(rt; !writer.failed());
        assert_eq!(rt; kind_of(writer.write(b"c")), Some(kind));
        assert!(rt; writer.failed());
        assert_eq!(rt; writer.write(b"cd")?, 1);
        assert_eq!(rt; writer.write(b"d")?, 0);
        assert!(rt; writer.failed());
        let target = writer.into_inner();
        assert_eq!(rt; target.held(), b"abc".as_slice());
        assert_eq!(rt; target.calls(), (4, 0));
    }
    Ok(())
}

/// A write that takes nothing fails where there was something to take.
#[test]
fn writes_of_nothing(rt: HostRuntime) -> Result<(), Fail> {
    let mut writer = Watched::new(Target::new(2, 0, Trouble::Never, Trouble::Never));
    assert_eq!(rt; writer.write(b"")?, 0);
    assert!(rt; !writer.failed());
    assert_eq!(rt; writer.write(b"a")?, 0);
    assert!(rt; writer.failed());
    assert_eq!(rt; writer.into_inner().calls(), (2, 0));
    Ok(())
}

/// A flush is one flush of the device, which flushes it or returns its error. One that failed counts as no flush.
#[test]
fn flushes_are_handed_on(rt: HostRuntime) -> Result<(), Fail> {
    for kind in KINDS {
        let target = Target::new(2, 3, Trouble::Never, Trouble::Once(0, kind));
        let mut writer = Watched::new(target);
        assert_eq!(rt; writer.write(b"ab")?, 2);
        assert!(rt; !writer.flushed());
        assert_eq!(rt; kind_of(writer.flush()), Some(kind));
        assert!(rt; writer.failed() && !writer.flushed());
        writer.flush()?;
        assert!(rt; writer.failed() && writer.flushed());
        let target = writer.into_inner();
        assert!(rt; target.is_flushed());
        assert_eq!(rt; target.calls(), (1, 2));
    }
    Ok(())
}
