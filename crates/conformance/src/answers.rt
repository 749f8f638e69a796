//! The answer to a line.

use crate::audits::{audit_vector, committees, feed_vector};
use crate::clients::{follow, store};
use crate::floors::{compact_vector, floor, prune_vector};
use crate::news::listen_vector;
use conformance_messages::answers::message_vector;
use conformance_messages::vectors::{Unanswered, bytes};
use simplex_audit::audit::Committees;
use simplex_base::positions::Round;
use simplex_schemes::marked::{Marked, MarkedDigest};
use std::alloc::{AllocError, Global};

/// The answer to a line that is no test vector.
const NO_VECTOR: &str = "no row";

/// The answer to a line.
pub(crate) fn answer(alloc: Global, line: &str) -> Result<String, AllocError> {
    let words: Vec<&str> = line.split_whitespace().collect(alloc)?;
    match answered(alloc, words.as_slice()) {
        Ok(answer) => Ok(answer),
        Err(Unanswered::NoVector) => NO_VECTOR.to_string(alloc),
        Err(Unanswered::OutOfMemory) => Err(AllocError),
    }
}

/// The answer to the test vector of these words; here those that ask for an audit, a light client or a ledger.
fn answered(alloc: Global, words: &[&str]) -> Result<String, Unanswered> {
    match words {
        ["audit" | "feed" | "follow" | "store", who, ..] => {
            whole_vector(alloc, &committees(alloc, *who)?, words)
        }
        ["prune" | "compact" | "listen", who, at, place, ..] => {
            let committees = committees(alloc, *who)?;
            floor_vector(alloc, &committees, floor(*at, *place)?, words)
        }
        _ => message_vector(alloc, words),
    }
}

/// The answer where every round is judged.
fn whole_vector(
    alloc: Global,
    committees: &Committees<Marked>,
    words: &[&str],
) -> Result<String, Unanswered> {
    match words {
        ["audit", _, stream @ ..] => {
            audit_vector(alloc, committees, bytes(alloc, stream)?.as_slice())
        }
        ["feed", _, pieces @ ..] => feed_vector(alloc, committees, pieces),
        ["follow", _, encodings @ ..] => follow::<_, MarkedDigest>(alloc, committees, encodings),
        ["store", _, pieces @ ..] => store(alloc, committees, pieces),
        _ => Err(Unanswered::NoVector),
    }
}

/// The answer where rounds are judged from a floor on.
fn floor_vector(
    alloc: Global,
    committees: &Committees<Marked>,
    floor: Round,
    words: &[&str],
) -> Result<String, Unanswered> {
    match words {
        ["prune", _, _, _, pieces @ ..] => prune_vector(alloc, committees, floor, pieces),
        ["compact", _, _, _, stream @ ..] => {
            compact_vector(alloc, committees, floor, bytes(alloc, stream)?.as_slice())
        }
        ["listen", _, _, _, pieces @ ..] => listen_vector(alloc, committees, floor, pieces),
        _ => Err(Unanswered::NoVector),
    }
}
