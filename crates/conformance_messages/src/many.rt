//! Many certificates verified at once.

use crate::refusals::name;
use crate::vectors::Unanswered;
use crate::votes::values;
use simplex_evidence::types::{verify_finalizations, verify_notarizations, verify_nullifications};
use simplex_scheme::scheme::{CertificateScheme, CertificateVerifier, Digest};
use simplex_votes::types::{Certificate, Finalization, Notarization, Nullification};
use std::alloc::{AllocError, Global};

/// Whether each of the certificate messages that the bytes encode is valid: those of a kind are verified at once.
pub(crate) fn many<S: CertificateVerifier<D>, D: Digest + 'static>(
    alloc: Global,
    scheme: &S,
    bytes: &[u8],
) -> Result<String, Unanswered> {
    let bound = scheme.certificate_codec_config();
    let messages: Vec<Certificate<S, D>> = match values(alloc, &bound, bytes) {
        Ok(messages) => messages,
        Err(error) => return Ok(name(alloc, error)?),
    };
    Ok(answers(alloc, scheme, &by_kind(alloc, messages)?)?)
}

/// Certificate messages, by their kind.
#[derive(Drop)]
struct Kinds<S: CertificateScheme, D: Digest> {
    notarizations: Vec<Notarization<S, D>>,
    nullifications: Vec<Nullification<S>>,
    finalizations: Vec<Finalization<S, D>>,
}

impl<S: CertificateScheme, D: Digest> Kinds<S, D> {
    /// Appends a message to those of its kind.
    fn push(&mut self, message: Certificate<S, D>) -> Result<(), AllocError> {
        match message {
            Certificate::Notarization(message) => self.notarizations.push(message)?,
            Certificate::Nullification(message) => self.nullifications.push(message)?,
            Certificate::Finalization(message) => self.finalizations.push(message)?,
        }
        Ok(())
    }
}

/// The messages, by their kind.
fn by_kind<S: CertificateScheme, D: Digest>(
    alloc: Global,
    messages: Vec<Certificate<S, D>>,
) -> Result<Kinds<S, D>, AllocError> {
    let mut kinds = Kinds {
        notarizations: Vec::new(alloc),
        nullifications: Vec::new(alloc),
        finalizations: Vec::new(alloc),
    };
    for message in messages {
        kinds.push(message)?;
    }
    Ok(kinds)
}

/// The answer of the messages, kind by kind.
fn answers<S: CertificateVerifier<D>, D: Digest + 'static>(
    alloc: Global,
    scheme: &S,
    kinds: &Kinds<S, D>,
) -> Result<String, AllocError> {
    let mut text = "notarizations".to_string(alloc)?;
    let valid = verify_notarizations(alloc, scheme, kinds.notarizations.as_slice());
    push_answers(&mut text, valid)?;
    text.push_str("; nullifications")?;
    let valid = verify_nullifications::<S, D>(alloc, scheme, kinds.nullifications.as_slice());
    push_answers(&mut text, valid)?;
    text.push_str("; finalizations")?;
    let valid = verify_finalizations(alloc, scheme, kinds.finalizations.as_slice());
    push_answers(&mut text, valid)?;
    Ok(text)
}

/// Appends answers, with a blank before each.
fn push_answers(
    text: &mut String,
    answers: Result<Vec<bool>, AllocError>,
) -> Result<(), AllocError> {
    for answer in answers?.as_slice() {
        text.push_str(if *answer { " true" } else { " false" })?;
    }
    Ok(())
}
