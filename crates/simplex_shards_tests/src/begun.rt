//! What the tests begin with.

use simplex_audit::audit::Committees;
use simplex_evidence::types::Activity;
use simplex_schemes::marked::{Marked, MarkedDigest};
use simplex_shards::cut::Cut;
use std::alloc::{AllocError, Global};
use std::num::{NonZeroU32, NonZeroU64};

/// The messages of the tests.
pub(crate) type Message = Activity<Marked, MarkedDigest>;

/// Messages with evidence of each kind and a split; the last one is the first one again.
pub(crate) const MESSAGES: [&[u8]; 11] = [
    &[0, 0, 8, 5, 6, 1, 0xaa],
    &[5, 0, 9, 5, 6, 2, 0xaa],
    &[3, 0, 10, 1, 0xaa],
    &[1, 0, 11, 5, 6, 3, 1, 0xaa, 2, 0xaa, 3, 0xaa],
    &[0, 0, 8, 5, 7, 1, 0xaa],
    &[5, 0, 9, 5, 7, 2, 0xaa],
    &[5, 0, 10, 5, 6, 1, 0xaa],
    &[0, 0, 0xac, 2, 1, 6, 3, 0xaa],
    &[1, 0, 11, 5, 7, 3, 0, 0xaa, 1, 0xaa, 2, 0xaa],
    &[0, 1, 8, 5, 6, 3, 0xaa],
    &[0, 0, 8, 5, 6, 1, 0xaa],
];

/// How many bytes these are.
pub(crate) const SIZE: usize = 86;

/// The lines of their report.
pub(crate) const LINES: &str = "0 8 1 conflicting-notarize 5 06 5 07\n\
    0 9 2 conflicting-finalize 5 06 5 07\n\
    0 10 1 nullify-finalize 5 06\n\
    0 11 1 conflicting-notarize 5 06 5 07\n\
    0 11 2 conflicting-notarize 5 06 5 07\n\
    0 11 split 2 2\n";

/// What may follow: nothing, a message that is cut off, an unknown tag.
pub(crate) const TAILS: [&[u8]; 3] = [&[], &[0, 0, 8, 5], &[255, 0, 8]];

/// One marked committee of four for every epoch.
pub(crate) fn four(alloc: Global) -> Result<Committees<Marked>, AllocError> {
    Ok(Committees::every(Marked::new(alloc, 4, None)?))
}

/// The messages at some places, one after another, and what follows them.
pub(crate) fn stream_of(
    alloc: Global,
    places: &[usize],
    tail: &[u8],
) -> Result<Vec<u8>, AllocError> {
    let mut stream = Vec::new(alloc);
    for place in places {
        stream.extend_from_slice(MESSAGES[*place % 11])?;
    }
    stream.extend_from_slice(tail)?;
    Ok(stream)
}

/// The places of all messages, in order.
pub(crate) const IN_ORDER: [usize; 11] = [0, 1, 2, 3, 4, 5, 6, 7, 8, 9, 10];

/// A cut of each sort into so many classes.
pub(crate) fn cuts(classes: u32) -> [Cut; 2] {
    let classes = NonZeroU32::new(classes).unwrap_or(NonZeroU32::MIN);
    let width = NonZeroU64::MIN;
    let seed = 7;
    [Cut::Mixed { seed, classes }, Cut::Ranges { width, classes }]
}
