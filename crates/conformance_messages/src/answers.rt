//! The answer to a test vector of messages.

ghost use Rattle.std.specs.Prelude.{◌≡◌, Err, length};
ghost use Rattle.conformance_messages.specs.declared.vectors.Unanswered.TheVariants.{NoVector};

use crate::leaders::leader;
use crate::maps::map;
use crate::namespaces::{derive, subject};
use crate::nodes::{batch, hear, resolved};
use crate::plans::forward;
use crate::reads::{Asked, read_vector};
use crate::terms::term;
use crate::vectors::{Unanswered, bytes, committee, delta, epoch, small, term_length, view};
use crate::votes::vote_vector;
use crate::windows::{
    admits, floor_vector, limit_vector, lookahead, outbound, truth, viewport_vector,
};
use simplex_base::positions::Round;
use simplex_lead::{Lookahead, Viewport};
use simplex_schemes::marked::MarkedDigest;
use std::alloc::Global;

/// The answer to the test vector of these words, as docs/CONFORMANCE.md has it; here those that ask
/// what some bytes encode, and what a scheme makes of them. `NoVector` where the words are no test
/// vector that asks about messages, and `OutOfMemory` only where an allocation failed. No clause
/// states the answer: the stored test vectors of `conformance` do.
pub fn message_vector(alloc: Global, words: &[&str]) -> Result<String, Unanswered>
    ensures { length words.now ≡ 0 → result ≡ Err NoVector }
{
    match words {
        ["read", kind, bound, encoding @ ..] => {
            read_vector(alloc, Asked::Read, *kind, *bound, encoding)
        }
        ["decode", kind, bound, encoding @ ..] => {
            read_vector(alloc, Asked::Decode, *kind, *bound, encoding)
        }
        ["cut", kind, bound, encoding @ ..] => {
            read_vector(alloc, Asked::Cut, *kind, *bound, encoding)
        }
        ["verify" | "sign" | "assemble" | "many", scheme, ..] => vote_vector(alloc, *scheme, words),
        ["derive", base @ ..] => derive(alloc, bytes(alloc, base)?.as_slice()),
        ["subject", kind, base, encoding @ ..] => subject(alloc, *kind, *base, encoding),
        _ => node_vector(alloc, words),
    }
}

/// The answer to the test vector of these words, which asks for a batcher, a resolver or a plan.
fn node_vector(alloc: Global, words: &[&str]) -> Result<String, Unanswered>
    ensures { length words.now ≡ 0 → result ≡ Err NoVector }
{
    match words {
        ["batch", participants, proposal, votes @ ..] => {
            let scheme = committee(alloc, *participants)?;
            batch::<_, MarkedDigest>(alloc, &scheme, *proposal, votes)
        }
        ["resolve", participants, encoding @ ..] => resolved(
            alloc,
            &committee(alloc, *participants)?,
            bytes(alloc, encoding)?.as_slice(),
        ),
        ["forward", at, place, signers @ ..] => {
            forward(alloc, Round::new(epoch(*at)?, view(*place)?), signers)
        }
        _ => leading_vector(alloc, words),
    }
}

/// The answer to the test vector of these words, which asks for a vote map, a leader or a term.
fn leading_vector(alloc: Global, words: &[&str]) -> Result<String, Unanswered>
    ensures { length words.now ≡ 0 → result ≡ Err NoVector }
{
    match words {
        ["map", participants, signers @ ..] => map(alloc, small(*participants)?, signers),
        ["leader", participants, seed, length, at, place] => leader(
            alloc,
            &committee(alloc, *participants)?,
            *seed,
            term_length(*length)?,
            Round::new(epoch(*at)?, view(*place)?),
        ),
        ["term", length, place] => Ok(term(alloc, term_length(*length)?, view(*place)?)?),
        _ => window_vector(alloc, words),
    }
}

/// The answer to the test vector of these words, which asks for a window of views.
fn window_vector(alloc: Global, words: &[&str]) -> Result<String, Unanswered>
    ensures { length words.now ≡ 0 → result ≡ Err NoVector }
{
    match words {
        ["admits" | "outbound" | "limit" | "floor", length, ahead, ..] => {
            lookahead_vector(alloc, lookahead(*length, *ahead)?, words)
        }
        [
            "viewport" | "hear",
            finalized,
            current,
            retention,
            length,
            ahead,
            ..
        ] => {
            let lookahead = lookahead(*length, *ahead)?;
            let viewport = viewport(*finalized, *current, *retention, lookahead)?;
            node_view_vector(alloc, viewport, words)
        }
        _ => Err(Unanswered::NoVector),
    }
}

/// The answer to the test vector of these words, which asks this lookahead.
fn lookahead_vector(
    alloc: Global,
    lookahead: Lookahead,
    words: &[&str],
) -> Result<String, Unanswered> {
    match words {
        ["admits", _, _, current, pending] => {
            let taken = admits(lookahead, view(*current)?, view(*pending)?);
            Ok(truth(alloc, taken)?)
        }
        ["outbound", _, _, current, pending] => {
            let sent = outbound(lookahead, view(*current)?, view(*pending)?);
            Ok(truth(alloc, sent)?)
        }
        ["limit", _, _, current] => Ok(limit_vector(alloc, lookahead, view(*current)?)?),
        ["floor", _, _, place] => Ok(floor_vector(alloc, lookahead, view(*place)?)?),
        _ => Err(Unanswered::NoVector),
    }
}

/// The answer to the test vector of these words, which asks a node of this viewport.
fn node_view_vector(
    alloc: Global,
    viewport: Viewport,
    words: &[&str],
) -> Result<String, Unanswered> {
    match words {
        ["viewport", _, _, _, _, _, place] => Ok(viewport_vector(alloc, viewport, view(*place)?)?),
        ["hear", _, _, _, _, _, certified, place] => {
            Ok(hear(alloc, &viewport, view(*certified)?, view(*place)?)?)
        }
        _ => Err(Unanswered::NoVector),
    }
}

/// The viewport of a node.
fn viewport(
    finalized: &str,
    current: &str,
    retention: &str,
    lookahead: Lookahead,
) -> Result<Viewport, Unanswered> {
    Ok(Viewport {
        finalized: view(finalized)?,
        current: view(current)?,
        view_retention: delta(retention)?,
        lookahead,
    })
}
