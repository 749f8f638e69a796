//! The bytes that are signed, and their namespaces.

use crate::refusals::name;
use crate::vectors::{Unanswered, bytes};
use simplex_base::codec::decode;
use simplex_scheme::scheme::{CertificateSubject, Namespace, Proposal, Subject};
use simplex_schemes::marked::MarkedDigest;
use std::alloc::{AllocError, Global};

/// The namespaces under a base, from a clone of them.
pub(crate) fn derive(alloc: Global, base: &[u8]) -> Result<String, Unanswered> {
    let names = Namespace::new(alloc, base)?.clone()?;
    Ok(listed(alloc, &names)?)
}

/// Each of the namespaces, with a blank between two.
fn listed(alloc: Global, names: &Namespace) -> Result<String, AllocError> {
    let mut text = hex::encode(alloc, names.notarize.as_slice())?;
    push_name(alloc, &mut text, names.nullify.as_slice())?;
    push_name(alloc, &mut text, names.finalize.as_slice())?;
    push_name(alloc, &mut text, names.seed.as_slice())?;
    Ok(text)
}

/// Appends a blank and a namespace.
fn push_name(alloc: Global, text: &mut String, name: &[u8]) -> Result<(), AllocError> {
    text.push_str(" ")?;
    text.push_str(hex::encode(alloc, name)?.as_str())
}

/// The namespace under a base and the message of the subject of a kind that the words encode.
pub(crate) fn subject(
    alloc: Global,
    kind: &str,
    base: &str,
    encoding: &[&str],
) -> Result<String, Unanswered> {
    let names = Namespace::new(alloc, bytes(alloc, &[base])?.as_slice())?;
    let encoding = bytes(alloc, encoding)?;
    let encoding = encoding.as_slice();
    match kind {
        "nullify" => match decode(alloc, encoding) {
            Ok(round) => text_of(alloc, &names, &Subject::Nullify { round }),
            Err(error) => Ok(name(alloc, error)?),
        },
        "notarize" | "finalize" => match &decode::<Proposal<MarkedDigest>>(alloc, encoding) {
            Ok(proposal) if kind == "notarize" => {
                text_of(alloc, &names, &Subject::Notarize { proposal })
            }
            Ok(proposal) => text_of(alloc, &names, &Subject::Finalize { proposal }),
            Err(error) => Ok(name(alloc, *error)?),
        },
        _ => Err(Unanswered::NoVector),
    }
}

/// The namespace of a subject and its message.
fn text_of(
    alloc: Global,
    names: &Namespace,
    subject: &Subject<'_, MarkedDigest>,
) -> Result<String, Unanswered> {
    let name = hex::encode(alloc, subject.namespace(names))?;
    let message = hex::encode(alloc, subject.message(alloc)?.as_slice())?;
    Ok(format!(in alloc; "{name} {message}")?)
}
