//! How a program ends.

ghost use Rattle.std.specs.Prelude.{◌≡◌};
ghost use Rattle.simplex_cli.specs.Status.{number_of, status_after, failure_of};

use simplex_audit::run::RunError;
use std::alloc::AllocError;

/// How a program ends.
#[derive(Clone, Copy, Debug, PartialEq, Eq)]
pub enum Status {
    /// The whole stream was read as messages.
    Whole,
    /// The stream has a fault. The messages before it were audited.
    Fault,
    /// The arguments are no namespace and keys, or groups of them.
    Usage,
    /// A read, a write or an allocation failed.
    Failed,
}

impl Status {
    /// The number that the process ends with: 0 to 3, in the order of the variants.
    pub fn number(self) -> u8
        ensures { result ≡ number_of self }
    {
        match self {
            Status::Whole => 0,
            Status::Fault => 1,
            Status::Usage => 2,
            Status::Failed => 3,
        }
    }
}

/// Why a program fails.
#[derive(Clone, Copy, Debug, PartialEq, Eq)]
pub enum Failure {
    /// The arguments are no namespace and keys, or groups of them.
    Usage,
    /// The input cannot be read to its end.
    Read,
    /// The text cannot be written, or flushed.
    Write,
    /// An allocation failed.
    OutOfMemory,
}

impl From<AllocError> for Failure {
    ghost use Rattle.simplex_cli.specs.declared.status.Failure.{Failure};

    ghost from_gives = { λ _ e. e ≡ Failure.OutOfMemory };

    fn from(_error: AllocError) -> Failure {
        Failure::OutOfMemory
    }
}

impl From<RunError> for Failure {
    ghost from_gives = { λ error failure. failure ≡ failure_of error };

    fn from(error: RunError) -> Failure {
        match error {
            RunError::Read | RunError::TooLong => Failure::Read,
            RunError::Write => Failure::Write,
            RunError::OutOfMemory => Failure::OutOfMemory,
        }
    }
}

impl Failure {
    /// The status after this failure: `Usage` for the arguments, else `Failed`.
    pub fn status(self) -> Status
        ensures { result ≡ status_after self }
    {
        match self {
            Failure::Usage => Status::Usage,
            Failure::Read | Failure::Write | Failure::OutOfMemory => Status::Failed,
        }
    }
}
