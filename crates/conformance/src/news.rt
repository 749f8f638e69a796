//! What a listener tells after each piece of a stream.

use crate::audits::{push_evidence, push_splits};
use conformance_messages::vectors::{Unanswered, bytes};
use simplex_audit::audit::Committees;
use simplex_audit::listener::Listener;
use simplex_base::positions::Round;
use simplex_schemes::marked::{Marked, MarkedDigest};
use std::alloc::{AllocError, Global};

/// The answer of a listener that gives up the rounds below a floor: after each piece the lines of what arose in it.
pub(crate) fn listen_vector(
    alloc: Global,
    committees: &Committees<Marked>,
    floor: Round,
    pieces: &[&str],
) -> Result<String, Unanswered> {
    let mut listener = Listener::<Marked, MarkedDigest>::new(alloc, committees);
    listener.prune(floor);
    let mut text = "told".to_string(alloc)?;
    for piece in pieces {
        listener = heard_on(alloc, listener, *piece)?;
        text.push_str(" |")?;
        push_news(alloc, &mut text, &mut listener)?;
    }
    Ok(text)
}

/// Feeds a piece. A stream that is longer than can be counted is no test vector.
fn heard_on<'a>(
    alloc: Global,
    listener: Listener<'a, Marked, MarkedDigest>,
    piece: &str,
) -> Result<Listener<'a, Marked, MarkedDigest>, Unanswered> {
    let piece = bytes(alloc, &[piece])?;
    if piece.len() > usize::MAX - listener.auditor().fed() {
        return Err(Unanswered::NoVector);
    }
    Ok(listener.feed(piece.as_slice())?)
}

/// Appends the lines of what arose: of the evidence, and then of the splits.
fn push_news(
    alloc: Global,
    text: &mut String,
    listener: &mut Listener<'_, Marked, MarkedDigest>,
) -> Result<(), AllocError> {
    let news = listener.news();
    push_evidence(alloc, text, news.evidence.as_slice())?;
    push_splits(alloc, text, news.splits.as_slice())
}
