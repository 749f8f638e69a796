//! Writes the parts of a message as JSON. Numbers are decimal, bytes lower-case hexadecimal.

ghost use Rattle.std.specs.Prelude.{◌≡◌, ◌∷◌, ◌++◌, [], IfOk, OnOk, codes, string_bytes};
ghost use Rattle.json.specs.Json.{string};
ghost use Rattle.json.specs.Lex.{tokens};
ghost use Rattle.json.specs.Print.{print};
ghost use Rattle.json.specs.Token.{Token};
ghost use Rattle.json.specs.Tree.{json_tokens};
ghost use Rattle.simplex_inspect.specs.Json.{head_members, invalid_members, judged_members, proposal_members, signature_json, validity_members};
ghost use Rattle.simplex_inspect.specs.Values.{bytes_json, number_json};
ghost use Rattle.simplex_inspect.specs.Tokens.{Appended, close_tokens, member_tokens, open_tokens};

use crate::validity::Validity;
use json::Writer;
use std::alloc::{AllocError, Global};

/// Writes a member whose value is a number.
pub fn write_number(writer: &mut Writer, name: &str, n: u64) -> Result<(), AllocError>
    ensures { OnOk result (Appended (member_tokens ((name.now, number_json n) ∷ []))
        writer.old writer.new) }
{
    writer.key(name)?;
    writer.u64(n)
}

/// Writes a member whose value is a text.
pub fn write_text(writer: &mut Writer, name: &str, text: &str) -> Result<(), AllocError>
    ensures { OnOk result (Appended (member_tokens ((name.now, string text.now) ∷ []))
        writer.old writer.new) }
{
    writer.key(name)?;
    writer.string(text)
}

/// Writes a member whose value is bytes.
pub fn write_bytes(
    alloc: Global,
    writer: &mut Writer,
    name: &str,
    bytes: &[u8],
) -> Result<(), AllocError>
    ensures { OnOk result (Appended (member_tokens ((name.now, bytes_json bytes.now) ∷ []))
        writer.old writer.new) }
{
    let digits = hex::encode(alloc, bytes)?;
    write_text(writer, name, digits.as_str())
}

/// Writes that something is not valid, and why.
fn write_invalid(writer: &mut Writer, why: &str) -> Result<(), AllocError>
    ensures { OnOk result (Appended (member_tokens (invalid_members why.now))
        writer.old writer.new) }
{
    writer.key("valid")?;
    writer.boolean(false)?;
    write_text(writer, "why", why)
}

/// Writes whether something is valid, and why not.
fn write_judged(writer: &mut Writer, validity: Validity) -> Result<(), AllocError>
    ensures { OnOk result (Appended (member_tokens (judged_members validity))
        writer.old writer.new) }
{
    match validity {
        Validity::Valid => {
            writer.key("valid")?;
            writer.boolean(true)
        }
        Validity::NoCommittee => write_invalid(writer, "no committee for the epoch"),
        Validity::OutsideSigner => write_invalid(writer, "signer outside the committee"),
        Validity::WrongSignature => write_invalid(writer, "signature does not verify"),
        Validity::TooFew => write_invalid(writer, "fewer signatures than a quorum"),
        Validity::WrongAttestation => write_invalid(writer, "a listed signature is not valid"),
    }
}

/// Writes the members of a validity; none without committees.
fn write_validity(writer: &mut Writer, validity: Option<Validity>) -> Result<(), AllocError>
    ensures { OnOk result (Appended (member_tokens (validity_members validity))
        writer.old writer.new) }
{
    match validity {
        None => Ok(()),
        Some(validity) => write_judged(writer, validity),
    }
}

/// Writes a signature with its signer and its validity.
pub fn write_signature(
    alloc: Global,
    writer: &mut Writer,
    signer: u32,
    signature: &[u8],
    validity: Option<Validity>,
) -> Result<(), AllocError>
    ensures { OnOk result (Appended (json_tokens (signature_json signer signature.now validity))
        writer.old writer.new) }
{
    writer.begin_object()?;
    write_number(writer, "signer", signer as u64)?;
    write_bytes(alloc, writer, "signature", signature)?;
    write_validity(writer, validity)?;
    writer.end_object()
}

/// Writes the members of a proposal.
pub fn write_proposal(
    alloc: Global,
    writer: &mut Writer,
    parent: u64,
    payload: &[u8],
) -> Result<(), AllocError>
    ensures { OnOk result (Appended
        (member_tokens (proposal_members parent payload.now)) writer.old writer.new) }
{
    write_number(writer, "parent", parent)?;
    write_bytes(alloc, writer, "payload", payload)
}

/// Begins a member whose value is a list.
pub fn open_list(writer: &mut Writer, name: &str) -> Result<(), AllocError>
    ensures { OnOk result (Appended (Token.key name.now ∷ Token.begin_array ∷ [])
        writer.old writer.new) }
{
    writer.key(name)?;
    writer.begin_array()
}

/// Begins a message: its members up to its statements. `place` has its epoch and its view.
pub fn open_message(
    writer: &mut Writer,
    offset: usize,
    length: usize,
    kind: &str,
    place: (u64, u64),
) -> Result<(), AllocError>
    ensures { OnOk result (Appended
        (open_tokens (head_members offset length kind.now place.0 place.1) (codes "statements"))
        writer.old writer.new) }
{
    writer.begin_object()?;
    write_number(writer, "offset", offset as u64)?;
    write_number(writer, "length", length as u64)?;
    write_text(writer, "kind", kind)?;
    write_number(writer, "epoch", place.0)?;
    write_number(writer, "view", place.1)?;
    open_list(writer, "statements")
}

/// Ends a statement behind its signatures, or a message behind its statements, which has no validity.
pub fn close_listing(writer: &mut Writer, validity: Option<Validity>) -> Result<(), AllocError>
    ensures { OnOk result (Appended (close_tokens validity) writer.old writer.new) }
{
    writer.end_array()?;
    write_validity(writer, validity)?;
    writer.end_object()
}

/// The line of what was written.
pub fn end_line(writer: Writer) -> Result<String, AllocError>
    requires { writer.before ≡ [] }
    ensures line { IfOk result (λ text.
        string_bytes text ≡ print writer.tokens ++ codes "\n") }
    ensures reads { tokens (print writer.tokens) ≡ writer.tokens }
{
    let Ok(mut text) = String::from_utf8(writer.into_inner()) else {
        unreachable!()
    };
    text.push_str("\n")?;
    Ok(text)
}
