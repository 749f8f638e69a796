//! What callers of the audit return: a light client and a ledger.

use crate::audits::push_evidence;
use conformance_messages::refusals::name;
use conformance_messages::vectors::{Unanswered, bytes};
use examples::light_client::{Followed, LightClient};
use simplex_audit::audit::{Committees, Evidence};
use simplex_audit::ledger::Ledger;
use simplex_base::codec::Error;
use simplex_scheme::scheme::{Digest, Listing, SchemeTypes};
use simplex_schemes::marked::{Marked, MarkedDigest};
use std::alloc::{AllocError, Global};

/// What a light client returns for each finalization that comes as bytes.
pub(crate) fn follow<S: Listing<D>, D: Digest>(
    alloc: Global,
    committees: &Committees<S>,
    words: &[&str],
) -> Result<String, Unanswered> {
    let mut client = LightClient::<S, D>::new(committees);
    let mut text = String::new(alloc);
    for word in words {
        let encoding = bytes(alloc, &[*word])?;
        if !text.is_empty() {
            text.push_str(" | ")?;
        }
        push_followed(alloc, &mut text, client.follow(alloc, encoding.as_slice()))?;
    }
    Ok(text)
}

/// Appends what a light client returned for a finalization.
fn push_followed<S: SchemeTypes, D: Digest>(
    alloc: Global,
    text: &mut String,
    followed: Result<Followed<S, D>, Error>,
) -> Result<(), AllocError> {
    match followed {
        Ok(Followed::Taken) => text.push_str("taken"),
        Ok(Followed::Known) => text.push_str("known"),
        Ok(Followed::Refused) => text.push_str("refused"),
        Ok(Followed::Fork(evidence)) => {
            text.push_str("fork")?;
            push_evidence(alloc, text, evidence.as_slice())
        }
        Err(error) => text.push_str(name(alloc, error)?.as_str()),
    }
}

/// What a ledger stores that was fed these pieces, and the evidence of one that resumes with it.
pub(crate) fn store(
    alloc: Global,
    committees: &Committees<Marked>,
    pieces: &[&str],
) -> Result<String, Unanswered> {
    let stored = stored(alloc, committees, pieces)?;
    let evidence = resumed(alloc, committees, stored.as_slice())?;
    let mut text = hex::encode(alloc, stored.as_slice())?;
    push_evidence(alloc, &mut text, evidence.as_slice())?;
    Ok(text)
}

/// What a ledger stores that was fed these pieces.
fn stored(
    alloc: Global,
    committees: &Committees<Marked>,
    pieces: &[&str],
) -> Result<Vec<u8>, Unanswered> {
    let mut ledger = Ledger::<Marked, MarkedDigest>::new(alloc, committees);
    for piece in pieces {
        ledger = fed_on(alloc, ledger, *piece)?;
    }
    Ok(ledger.store(alloc)?)
}

/// Feeds a piece. A stream that is longer than can be counted is no test vector.
fn fed_on<'a>(
    alloc: Global,
    ledger: Ledger<'a, Marked, MarkedDigest>,
    piece: &str,
) -> Result<Ledger<'a, Marked, MarkedDigest>, Unanswered> {
    let piece = bytes(alloc, &[piece])?;
    if piece.len() > usize::MAX - ledger.fed() {
        return Err(Unanswered::NoVector);
    }
    Ok(ledger.feed(piece.as_slice())?)
}

/// The evidence of a ledger that resumes with what one stored.
fn resumed(
    alloc: Global,
    committees: &Committees<Marked>,
    stored: &[u8],
) -> Result<Vec<Evidence<Marked, MarkedDigest>>, AllocError> {
    Ledger::<Marked, MarkedDigest>::resume(alloc, committees, stored)?.evidence()
}
