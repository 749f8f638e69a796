//! Where a stream stops being messages, and why.

ghost use Rattle.std.specs.Prelude.{◌≡◌, ◌≢◌, IfOk};
ghost use Rattle.simplex_stream.specs.Fault.{fault_of};

use simplex_base::codec::Error;
use std::alloc::AllocError;

/// Where a stream stops being messages.
#[derive(Clone, Copy, Debug, PartialEq, Eq)]
pub struct Fault {
    /// The 0-based offset of the first byte after the last whole message, where no message can be read.
    pub place: usize,
    /// The error of reading a message there; never `OutOfMemory`.
    pub error: Error,
}

/// The fault at a place, if reading was refused there.
pub fn fault_at(place: usize, stop: Option<Error>) -> Option<Fault>
    ensures { result ≡ fault_of place stop }
{
    match stop {
        None => None,
        Some(error) => Some(Fault { place, error }),
    }
}

/// The error of a reading that failed, unless an allocation failed.
pub(crate) fn refusal(error: Error) -> Result<Error, AllocError>
    ensures { IfOk result (λ e. (e ≡ error) × (e ≢ Error.OutOfMemory)) }
{
    match error {
        Error::OutOfMemory => Err(AllocError),
        _ => Ok(error),
    }
}
