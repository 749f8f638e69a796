//! Which participants signed two contradictory votes in a stream of messages.

ghost use Rattle.std.specs.Prelude.{◌≡◌, ◌↔◌, Ok, None, IfOk, IfSome, map};
ghost use Rattle.examples.specs.Accused.{AreAccused, round_and_signer};
ghost use Rattle.simplex_schemes.specs.PlainCommittee.{AreCommitteeKeys};

use simplex_audit::audit::{Committees, Evidence, audit};
use simplex_audit::basis::Audited;
use simplex_base::positions::{Participant, Round};
use simplex_scheme::scheme::Sha256Digest;
use simplex_schemes::plain::{Plain, PlainKey};
use std::alloc::{AllocError, Global};

/// The rounds and the signers that the stream accuses, in the order of the evidence. One committee judges every epoch.
/// `None` where the keys are not those of a committee: none at all, more than 2^32 - 1, or one of them twice.
/// `AllocError` only where an allocation failed.
pub fn accused(
    alloc: Global,
    namespace: &[u8],
    keys: Vec<PlainKey>,
    stream: &[u8],
) -> Result<Option<Vec<(Round, Participant)>>, AllocError>
    ensures accused { IfOk result (λ found. IfSome found (λ accused.
        AreAccused ⟦<Plain as Audited<Sha256Digest>>⟧.basis namespace.now keys.items stream.now
        accused.items)) }
    ensures none { result ≡ Ok None ↔ ¬ AreCommitteeKeys keys.items }
{
    let Some(committee) = Plain::of_keys(alloc, namespace, keys)? else {
        return Ok(None);
    };
    let committees = Committees::every(committee);
    let report = audit::<Plain, Sha256Digest>(alloc, &committees, stream)?;
    Ok(Some(places(alloc, &report.evidence)?))
}

/// The round and the signer of each evidence.
fn places(
    alloc: Global,
    evidence: &[Evidence<Plain, Sha256Digest>],
) -> Result<Vec<(Round, Participant)>, AllocError>
    ensures { IfOk result (λ places. places.items ≡ map round_and_signer evidence.now) }
{
    let mut places = Vec::new(alloc);
    for one in evidence {
        places.push((one.round(), one.signer()))?;
    }
    Ok(places)
}
