//! Calls that allocate nothing: what they return while every allocation fails.
//!
//! Step `refusals` of the gate runs each test here with every allocation made to fail, from that of `memory_ends` on.

use faulty_io::{Source, Target, Trouble};
use simplex_audit::audit::Watched;
use simplex_cli::status::{Failure, Status};
use std::alloc::Global;
use std::io::{ErrorKind, Read};

/// Makes the allocation from which on every one may fail.
pub(crate) fn memory_ends(alloc: Global) {
    let _ = Vec::<u8>::with_capacity(alloc, 12345);
}

/// Whether a clone equals its source, where it could be made.
fn is_cloned<T: Copy + PartialEq>(value: &T) -> bool {
    match value.clone() {
        Ok(copy) => copy == *value,
        Err(_) => false,
    }
}

/// Values that can be copied are cloned without memory, and each clone equals its source. A clone that returns `AllocError` is
/// refused.
#[test]
fn without_memory_clones(rt: HostRuntime) {
    memory_ends(rt.alloc());
    for status in [Status::Whole, Status::Fault, Status::Usage, Status::Failed] {
        assert!(rt; is_cloned(&status));
    }
    for failure in [
        Failure::Usage,
        Failure::Read,
        Failure::Write,
        Failure::OutOfMemory,
    ] {
        assert!(rt; is_cloned(&failure));
    }
}

#[test]
fn without_memory_watched(rt: HostRuntime) {
    memory_ends(rt.alloc());
    let failing = Trouble::Once(0, ErrorKind::Other);
    let mut reader = Watched::new(Source::new(b"", 1, failing));
    assert!(rt; !reader.failed());
    assert!(rt; reader.read(&mut [0]).is_err());
    assert!(rt; reader.failed());
    assert_eq!(rt; reader.into_inner().calls(), 1);
    let writer = Watched::new(Target::steady());
    assert!(rt; !writer.failed());
    assert_eq!(rt; writer.into_inner().calls(), (0, 0));
}
