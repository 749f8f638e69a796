//! What is as before where an allocation failed, which no test vector can state.

use simplex_base::codec::{Encode, Read, Write};
use simplex_scheme::scheme::{CertificateScheme, Digest};
use simplex_schemes::marked::{Marked, MarkedDigest};
use simplex_votes::types::{Certificate, Vote};
use std::process::Abort;

/// Reads a value with a byte behind it, and appends it to a buffer that holds a byte. Returns whether an allocation failed;
/// then the slice and the buffer were as before, and the same call does what it does with ample memory.
fn is_refused<T: Read + Encode + Drop>(
    rt: &(impl Abort + AllocGlobal),
    cfg: &T::Cfg,
    bytes: &[u8],
) -> bool {
    let mut rest: &[u8] = bytes;
    let mut read = T::read_cfg(rt.alloc(), &mut rest, cfg);
    let refused = read.is_err();
    if refused {
        assert!(rt; rest.len() == bytes.len());
        read = T::read_cfg(rt.alloc(), &mut rest, cfg);
    }
    assert!(rt; rest.len() == 1);
    match read {
        Ok(value) => is_write_refused(rt, &value, bytes.len()) || refused,
        Err(_) => refused,
    }
}

/// Appends a value to a buffer that holds a byte, which makes it this long. Returns whether an allocation failed.
fn is_write_refused<T: Encode>(rt: &(impl Abort + AllocGlobal), value: &T, length: usize) -> bool {
    let mut buf = Vec::new(rt.alloc());
    if buf.push(7).is_err() {
        return true;
    }
    let refused = value.write(&mut buf).is_err();
    if refused {
        assert!(rt; buf.as_slice() == [7].as_slice());
        assert!(rt; value.write(&mut buf).is_ok());
    }
    assert!(rt; buf.len() == length);
    refused
}

/// A vote, with a byte behind it.
const VOTE: &[u8] = &[1, 0, 10, 1, 0xaa, 9];

/// A certificate message, with a byte behind it.
const MESSAGE: &[u8] = &[1, 0, 10, 3, 0, 0xaa, 1, 0xaa, 2, 0xaa, 9];

/// A vote and a certificate message.
fn any_is_refused<S: CertificateScheme, D: Digest>(rt: &(impl Abort + AllocGlobal)) -> bool {
    let vote = is_refused::<Vote<S, D>>(rt, &(), VOTE);
    is_refused::<Certificate<S, D>>(rt, &4, MESSAGE) || vote
}

#[test]
fn ample(rt: HostRuntime) {
    assert!(rt; !any_is_refused::<Marked, MarkedDigest>(&rt));
}

/// Where an allocation fails the slice and the buffer are as before.
#[test]
fn refused(rt: HostRuntime) {
    let _ = any_is_refused::<Marked, MarkedDigest>(&rt);
}
