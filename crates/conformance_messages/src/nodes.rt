//! What the parts of a node return: a batcher, a resolver and a voter.

use crate::refusals::name;
use crate::vectors::{Unanswered, bytes};
use crate::votes::{encoded, values};
use crate::windows::PAST;
use node_examples::batcher::Batcher;
use node_examples::resolver::resolve;
use node_examples::voter::{casts, is_heard, takes};
use simplex_base::codec::decode;
use simplex_base::positions::View;
use simplex_lead::Viewport;
use simplex_scheme::scheme::{
    CertificateScheme, CertificateSubject, Digest, Proposal, Scheme, Subject,
};
use simplex_schemes::marked::{Marked, MarkedDigest};
use simplex_schemes::own::MarkedCertificate;
use simplex_votes::types::{Notarization, Notarize};
use std::alloc::{AllocError, Global};

/// What a batcher returns for each vote that comes: the notarization, or how many votes it has recorded.
pub(crate) fn batch<S: Scheme<D>, D: Digest>(
    alloc: Global,
    scheme: &S,
    proposal: &str,
    votes: &[&str],
) -> Result<String, Unanswered> {
    let proposal: Proposal<D> = match decode(alloc, bytes(alloc, &[proposal])?.as_slice()) {
        Ok(proposal) => proposal,
        Err(error) => return Ok(name(alloc, error)?),
    };
    let mut batcher = Batcher::new(alloc, scheme, proposal);
    let mut text = String::new(alloc);
    for word in votes {
        let said = taken(alloc, &mut batcher, bytes(alloc, &[*word])?.as_slice())?;
        push_part(&mut text, said.as_str())?;
    }
    Ok(text)
}

/// What a batcher returns for the vote that the bytes encode.
fn taken<S: Scheme<D>, D: Digest>(
    alloc: Global,
    batcher: &mut Batcher<'_, S, D>,
    bytes: &[u8],
) -> Result<String, AllocError> {
    let vote: Notarize<S, D> = match decode(alloc, bytes) {
        Ok(vote) => vote,
        Err(error) => return name(alloc, error),
    };
    match batcher.take(alloc, vote)? {
        Some(notarization) => encoded(alloc, &notarization),
        None => format!(in alloc; "{} kept", batcher.count()),
    }
}

/// What a resolver selects of the notarizations that the bytes encode: the proposals that are certified.
pub(crate) fn resolved(alloc: Global, scheme: &Marked, bytes: &[u8]) -> Result<String, Unanswered> {
    let bound = scheme.certificate_codec_config();
    let messages: Vec<Notarization<Marked, MarkedDigest>> = match values(alloc, &bound, bytes) {
        Ok(messages) => messages,
        Err(error) => return Ok(name(alloc, error)?),
    };
    let items: Vec<(Subject<'_, MarkedDigest>, &MarkedCertificate)> = messages
        .iter()
        .map(item_of)
        .collect(alloc)?;
    let selected = resolve(alloc, scheme, items.as_slice())?;
    let mut text = "kept".to_string(alloc)?;
    for place in 0..selected.len() {
        push_subject(&mut text, alloc, &selected[place].0)?;
    }
    Ok(text)
}

/// A notarization as an item for a resolver.
fn item_of<'a>(
    message: &'a Notarization<Marked, MarkedDigest>,
) -> (Subject<'a, MarkedDigest>, &'a MarkedCertificate) {
    let proposal = &message.proposal;
    (Subject::Notarize { proposal }, &message.certificate)
}

/// Appends a blank, and a subject as its message encodes it.
fn push_subject(
    text: &mut String,
    alloc: Global,
    subject: &Subject<'_, MarkedDigest>,
) -> Result<(), AllocError> {
    let message = subject.message(alloc)?;
    text.push_str(" ")?;
    text.push_str(hex::encode(alloc, message.as_slice())?.as_str())
}

/// What a voter returns for a view: whether it takes votes of the view, whether a node that has certified view `certified`
/// casts them, and whether it hears that node's. [`PAST`] where a computed view is above 2^64 - 1.
pub(crate) fn hear(
    alloc: Global,
    viewport: &Viewport,
    certified: View,
    view: View,
) -> Result<String, AllocError> {
    if !viewport.lookahead.fits(viewport.current) || certified == View::new(u64::MAX) {
        return PAST.to_string(alloc);
    }
    let takes = takes(viewport, view);
    let casts = casts(&viewport.lookahead, certified, view);
    let heard = is_heard(viewport, certified, view);
    format!(in alloc; "takes {takes}, casts {casts}, heard {heard}")
}

/// Appends an answer.
fn push_part(text: &mut String, part: &str) -> Result<(), AllocError> {
    if !text.is_empty() {
        text.push_str(" | ")?;
    }
    text.push_str(part)
}
