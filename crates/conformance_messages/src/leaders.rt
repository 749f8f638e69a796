//! Leaders of rounds.

ghost use Rattle.std.specs.Prelude.{◌≡◌, IfOk};

use crate::vectors::{Unanswered, bytes};
use node_examples::voter;
use simplex_base::positions::{Round, TermLength, ViewDelta};
use simplex_lead::elector::{Config, Elector, RoundRobin, can_be_stable};
use simplex_scheme::scheme::{CertificateScheme, Sha256};
use simplex_schemes::marked::Marked;
use std::alloc::Global;
use std::time::Duration;

/// The word in the place of a seed where there is none.
const NO_SEED: &str = "-";

/// The rotation in the order that this seed determines, in terms of this many views.
fn rotation(alloc: Global, seed: &str, length: TermLength) -> Result<RoundRobin, Unanswered>
    ensures { IfOk result (λ settings. settings.terms.term_length ≡ length) }
{
    let rotation: RoundRobin<Sha256> = if seed == NO_SEED {
        RoundRobin::default()
    } else {
        RoundRobin::shuffled(alloc, bytes(alloc, &[seed])?.as_slice())?
    };
    // No leader depends on the timeout.
    let timeout = Duration::from_secs(1);
    if can_be_stable(length, timeout) {
        return Ok(rotation.with_term(length, timeout, ViewDelta::new(0)));
    }
    Ok(rotation)
}

/// The leader of a round of the committee, by clones of the rotation and of its elector, and by a voter that has the
/// rotation itself.
pub(crate) fn leader(
    alloc: Global,
    committee: &Marked,
    seed: &str,
    length: TermLength,
    round: Round,
) -> Result<String, Unanswered> {
    let rotation = rotation(alloc, seed, length)?;
    let members = committee.participants();
    let elector = Config::<Marked>::build(rotation.clone()?, alloc, members)?.clone()?;
    let elected = Elector::<Marked>::elect(&elector, round, None);
    let leader = voter::leader::<Marked, _>(alloc, rotation, members, round, None)?;
    if leader != elected {
        return Ok("two leaders".to_string(alloc)?);
    }
    Ok(format!(in alloc; "{}", leader.get())?)
}
