//! Many small streams, and what may follow the last whole message of one.

use std::alloc::{AllocError, Global};

/// Messages of each of the ten kinds, of views 10 and 11 of epoch 0, which has a committee of four, and of view 10 of
/// epoch 1, which has a committee of one. Some have an invalid signature, some a signer outside their committee, and
/// some certificates are no quorum.
const MESSAGES: [&[u8]; 24] = [
    // Notarizes.
    &[0, 0, 10, 5, 6, 1, 0xaa],
    &[0, 0, 10, 5, 7, 1, 0xaa],
    &[0, 0, 10, 5, 7, 1, 0],
    &[0, 0, 11, 5, 7, 1, 0xaa],
    &[0, 1, 10, 5, 7, 0, 0xaa],
    // Notarizations.
    &[1, 0, 10, 5, 6, 3, 0, 0xaa, 1, 0xaa, 2, 0xaa],
    &[1, 0, 10, 5, 7, 3, 1, 0xaa, 2, 0xaa, 3, 0xaa],
    &[1, 0, 10, 5, 7, 3, 1, 0, 2, 0xaa, 3, 0xaa],
    // Certifications.
    &[2, 0, 10, 5, 7, 2, 0, 0xaa, 1, 0xaa],
    &[2, 1, 10, 5, 7, 1, 0, 0xaa],
    &[2, 1, 10, 5, 6, 2, 0, 0xaa, 3, 0xaa],
    // Nullifies.
    &[3, 0, 10, 1, 0xaa],
    &[3, 1, 10, 0, 0xaa],
    // Nullifications.
    &[4, 0, 10, 3, 0, 0xaa, 1, 0xaa, 2, 0xaa],
    &[4, 1, 10, 1, 0, 0xaa],
    // Finalizes.
    &[5, 0, 10, 5, 6, 1, 0xaa],
    &[5, 0, 10, 5, 7, 1, 0xaa],
    &[5, 0, 11, 5, 6, 2, 0xaa],
    // Finalizations.
    &[6, 0, 10, 5, 6, 3, 1, 0xaa, 2, 0xaa, 3, 0xaa],
    &[6, 1, 10, 5, 6, 1, 0, 0xaa],
    // Evidence.
    &[7, 0, 10, 5, 7, 1, 0xaa, 0, 10, 5, 8, 1, 0xaa],
    &[8, 0, 10, 5, 6, 2, 0xaa, 0, 10, 5, 7, 2, 0xaa],
    &[9, 0, 10, 3, 0xaa, 0, 10, 5, 6, 3, 0],
    &[9, 1, 10, 0, 0xaa, 1, 10, 5, 7, 0, 0xaa],
];

/// The stream of this many messages that a number determines.
pub fn stream_of(alloc: Global, messages: u32, number: usize) -> Result<Vec<u8>, AllocError> {
    let mut stream = Vec::new(alloc);
    let mut rest = number;
    for _ in 0..messages {
        stream.extend_from_slice(MESSAGES[rest % 24])?;
        rest /= 24;
    }
    Ok(stream)
}

/// What may follow: nothing, messages that are cut off, an unknown tag, an invalid number, evidence that does
/// not contradict.
pub const TAILS: [&[u8]; 6] = [
    &[],
    &[0, 0, 10, 5, 6],
    &[1, 0, 10, 5, 6, 2, 0],
    &[255, 0],
    &[0, 128, 0],
    &[7, 0, 10, 5, 6, 1, 0xaa, 0, 10, 5, 6, 1, 0xaa],
];
