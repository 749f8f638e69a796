//! Why bytes are not read as a value.

use thiserror::Error as ThisError;

/// Why a value can't be read.
#[derive(Clone, Copy, Debug, PartialEq, Eq, ThisError)]
pub enum Error {
    /// The input ends before the value does.
    #[error("the input ends too early")]
    EndOfBuffer,
    /// A number has a needless last zero group, too many groups or too large a last one.
    #[error("a number is encoded wrongly")]
    InvalidVarint,
    /// A truth value is neither `00` nor `01`.
    #[error("a truth value is neither 0 nor 1")]
    InvalidBool,
    /// The type, and the condition that its parts break.
    #[error("{0}: {1}")]
    Invalid(&'static str, &'static str),
    /// Bytes are left after the value, where all of them were to be read.
    #[error("bytes are left after the value")]
    ExtraData,
    /// An allocation failed.
    #[error("out of memory")]
    OutOfMemory,
}
