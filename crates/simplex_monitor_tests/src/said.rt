//! When a monitor that listens to a reader writes its lines.

use crate::begun::{begin, four};
use faulty_io::{Source, Target, Trouble};
use simplex_audit::audit::{RunError, Watched};
use simplex_monitor::input::monitor_input;
use std::io::ErrorKind;
use std::test::Fail;

/// Two notarizes that contradict, of 7 bytes each.
const STREAM: &[u8] = &[0, 0, 3, 2, 6, 1, 0xaa, 0, 0, 3, 2, 7, 1, 0xaa];

const LINE: &str = "0 3 1 conflicting-notarize 2 06 2 07\n";

/// Each message is read by one call, and the third call fails: by then the line was written and flushed. Flushed is at the
/// beginning, and behind each call that gave something.
#[test]
fn ample(rt: HostRuntime) -> Result<(), Fail> {
    let alloc = rt.alloc();
    let committees = four(alloc)?;
    let mut reader = Watched::new(Source::new(STREAM, 7, Trouble::Once(2, ErrorKind::Other)));
    let mut writer = Watched::new(Target::steady());
    let monitor = begin(alloc, &committees);
    let error = monitor_input(alloc, monitor, &mut reader, &mut writer, &mut ()).err();
    assert_eq!(rt; error, Some(RunError::Read));
    let flushed = writer.flushed();
    let target = writer.into_inner();
    assert_eq!(rt; target.held(), LINE.as_bytes());
    assert_eq!(rt; (flushed, target.calls().1), (true, 3));
    Ok(())
}
