//! Whether bytes are the message that is signed, compared part by part without an allocation.

ghost use Rattle.std.specs.Prelude.{◌≡◌, ◌≢◌, ◌↔◌, ◌++◌, ℕ, List, IsTrue, MatchOption};
ghost use Rattle.simplex_base.specs.Format.{format_of};
ghost use Rattle.simplex_base.specs.Positions.{round_format};
ghost use Rattle.simplex_scheme.specs.Proposal.{proposal_format};

use crate::proposal::Proposal;
use crate::scheme::Digest;
use simplex_base::codec::varint::Varint;
use simplex_base::codec::{Fixed, Read};
use simplex_base::positions::Round;

/// The bytes after a part, if they begin with it.
fn after<'a>(bytes: &'a [u8], part: &[u8]) -> Option<&'a [u8]>
    ensures { MatchOption result ((rest : List ℕ) →
        bytes.now ≢ part.now ++ rest) (λ rest. bytes.now ≡ part.now ++ rest.now) }
{
    bytes.strip_prefix(part)
}

/// The bytes after the encoding of a round, if they begin with it.
fn after_round(bytes: &[u8], round: Round) -> Option<&[u8]>
    ensures { MatchOption result ((rest : List ℕ) →
        bytes.now ≢ round_format.encoding round ++ rest) (λ rest.
        bytes.now ≡ round_format.encoding round ++ rest.now) }
{
    match after(bytes, Varint::new(round.epoch().get()).as_slice()) {
        Some(rest) => after(rest, Varint::new(round.view().get()).as_slice()),
        None => None,
    }
}

/// Whether the bytes encode the round.
pub fn is_round(bytes: &[u8], round: Round) -> bool
    ensures { IsTrue result ↔ (bytes.now ≡ round_format.encoding round) }
{
    match after_round(bytes, round) {
        Some(rest) => rest.is_empty(),
        None => false,
    }
}

/// Whether the bytes encode the proposal.
pub fn is_proposal<D: Digest>(bytes: &[u8], proposal: &Proposal<D>) -> bool
    ensures { IsTrue result ↔
        (bytes.now ≡ (proposal_format (format_of ⟦<D as Read>⟧)).encoding proposal.now) }
{
    let Some(rest) = after_round(bytes, proposal.round) else {
        return false;
    };
    match after(rest, Varint::new(proposal.parent.get()).as_slice()) {
        Some(rest) => rest == proposal.payload.as_bytes(),
        None => false,
    }
}
