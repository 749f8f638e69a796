//! The bottom layer: how values are encoded as bytes, and the positions in the protocol that messages speak of.
//!
//! [`codec`] has the traits of encoding and decoding, and the calls on whole byte strings; below it stand
//! [`codec::varint`] (numbers in LEB128), [`codec::parts`] (one value after another), [`codec::counted`] (a count,
//! and then the values), [`codec::unions`] (a tag, and then the body), [`codec::fixed_bytes`] (digests, keys and
//! signatures) and [`codec::Error`]. [`positions`] has epochs, views, terms, rounds and participants as types.
//! [`values`] says what `==`, `cmp` and `clone` return for types with parts.
//!
//! Crates above rest on [`codec::Read`], which decodes exactly the encodings of a type's values, on [`codec::Write`],
//! which appends them, and on [`codec::Fixed`], by which callers bring digests, keys and signatures of their own.
#![tactic(auto)]

pub mod codec;
mod derived;
pub mod positions;
pub mod values;
