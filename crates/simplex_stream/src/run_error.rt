//! Why reading or writing all of a stream failed.

ghost use Rattle.std.specs.Prelude.{◌≡◌};

use std::alloc::AllocError;

/// Why a run failed. What was written then is said of [`run`]; a call that writes while it reads states it itself.
#[derive(Clone, Copy, Debug, PartialEq, Eq, thiserror::Error)]
pub enum RunError {
    /// The reader failed. Nothing was written.
    #[error("a read failed")]
    Read,
    /// The writer failed. A prefix of the text was written, perhaps empty or the whole.
    #[error("a write failed")]
    Write,
    /// An allocation failed. Nothing was written.
    #[error("out of memory")]
    OutOfMemory,
    /// The reader gave more than 2^64 - 1 bytes. Nothing was written.
    #[error("more than 2^64 - 1 bytes were read")]
    TooLong,
}

impl From<AllocError> for RunError {
    ghost use Rattle.simplex_stream.specs.declared.run_error.RunError.{RunError};

    ghost from_gives = { λ _ e. e ≡ RunError.OutOfMemory };

    fn from(_error: AllocError) -> RunError {
        RunError::OutOfMemory
    }
}
