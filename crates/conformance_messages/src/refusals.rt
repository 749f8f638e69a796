//! The names of refusals.

ghost use Rattle.std.specs.Prelude.{◌≡◌, IfOk, string_bytes};
ghost use Rattle.conformance_messages.specs.Words.{refusal_name};

use simplex_base::codec::Error;
use std::alloc::{AllocError, Global};

/// The name of a refusal, with the type and the condition of an invalid value. `AllocError` for `OutOfMemory`.
pub fn name(alloc: Global, error: Error) -> Result<String, AllocError>
    ensures { IfOk result (λ name. string_bytes name ≡ refusal_name error) }
{
    match error {
        Error::EndOfBuffer => "EndOfBuffer".to_string(alloc),
        Error::InvalidVarint => "InvalidVarint".to_string(alloc),
        Error::InvalidBool => "InvalidBool".to_string(alloc),
        Error::Invalid(of, condition) => format!(in alloc; "Invalid {of}: {condition}"),
        Error::ExtraData => "ExtraData".to_string(alloc),
        Error::OutOfMemory => Err(AllocError),
    }
}
