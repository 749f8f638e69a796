//! The line of a fault.

ghost use Rattle.std.specs.Prelude.{◌≡◌, IfOk, OnOk, string_bytes, take};
ghost use Rattle.json.specs.Tree.{json_tokens};
ghost use Rattle.simplex_inspect.specs.Inspected.{refusal_name, fault_json, fault_line};
ghost use Rattle.simplex_inspect.specs.Tokens.{Appended};
ghost use Rattle.simplex_inspect.specs.Values.{IsJsonLine};

use crate::parts::{end_line, write_bytes, write_number, write_text};
use json::Writer;
use simplex_base::codec::Error;
use simplex_stream::fault::Fault;
use std::alloc::{AllocError, Global};

/// At most this many bytes are shown from a fault on.
pub(crate) const SHOWN: usize = 16;

/// The name of a refusal, and for `Invalid` its subject and its reason.
fn refusal_name(alloc: Global, error: &Error) -> Result<String, AllocError>
    ensures { IfOk result (λ text. string_bytes text ≡ refusal_name error.now) }
{
    match error {
        Error::EndOfBuffer => String::from_str(alloc, "EndOfBuffer"),
        Error::InvalidVarint => String::from_str(alloc, "InvalidVarint"),
        Error::InvalidBool => String::from_str(alloc, "InvalidBool"),
        Error::Invalid(subject, reason) => format!(in alloc; "Invalid {subject}: {reason}"),
        Error::ExtraData => String::from_str(alloc, "ExtraData"),
        Error::OutOfMemory => String::from_str(alloc, "OutOfMemory"),
    }
}

/// The first bytes, as many as are shown.
fn first_bytes(rest: &[u8]) -> &[u8]
    ensures { result.now ≡ take 16 rest.now }
{
    if rest.len() > SHOWN {
        &rest[..SHOWN]
    } else {
        rest
    }
}

/// Writes a fault.
fn write_fault(
    alloc: Global,
    writer: &mut Writer,
    fault: &Fault,
    rest: &[u8],
) -> Result<(), AllocError>
    ensures { OnOk result (Appended (json_tokens (fault_json fault.now rest.now))
        writer.old writer.new) }
{
    let name = refusal_name(alloc, &fault.error)?;
    writer.begin_object()?;
    write_number(writer, "offset", fault.place as u64)?;
    write_text(writer, "fault", name.as_str())?;
    write_bytes(alloc, writer, "next", first_bytes(rest))?;
    writer.end_object()
}

/// The line of a fault, with its newline: its 0-based offset, the refusal as a JSON string, and up to 16 bytes from there on,
/// the first of `rest`. `AllocError` where an allocation failed.
pub fn fault_line(alloc: Global, fault: &Fault, rest: &[u8]) -> Result<String, AllocError>
    ensures line { IfOk result (λ text. string_bytes text ≡ fault_line fault.now rest.now) }
    // Without its newline it is a JSON document, and this is its value.
    ensures json { IfOk result (λ text.
        IsJsonLine (string_bytes text) (fault_json fault.now rest.now)) }
{
    let mut writer = Writer::new(Vec::new(alloc));
    write_fault(alloc, &mut writer, fault, rest)?;
    end_line(writer)
}
