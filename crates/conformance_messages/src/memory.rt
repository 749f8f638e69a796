//! Marks calls that allocate nothing.
//!
//! Between [`ends`] and [`returns`] stand calls that allocate nothing. An allocator may fail each request from that of `ends`
//! to the one before that of `returns`: every answer stays the same. Under any other allocator both are requests like others.

use std::alloc::Global;

/// Allocates 12,345 bytes, a request from which on an allocator may fail every one, and frees them.
pub(crate) fn ends(alloc: Global) {
    let _ = Vec::<u8>::with_capacity(alloc, 12_345);
}

/// Allocates 54,321 bytes, a request from which on an allocator serves every one again, and frees them.
pub(crate) fn returns(alloc: Global) {
    let _ = Vec::<u8>::with_capacity(alloc, 54_321);
}
