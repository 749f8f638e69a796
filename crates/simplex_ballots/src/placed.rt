//! Where the votes of a round stand, in the order of their kinds and signers.

ghost use Rattle.std.specs.Prelude.{◌≡◌, ◌≤◌};
ghost use Rattle.simplex_ballots.specs.Ballots.{kind_number, vote_key};

use simplex_base::positions::Participant;
use simplex_evidence::sorted::Keyed;
use simplex_scheme::scheme::VoteKind;

/// Where a recorded vote stands.
#[derive(Clone, Copy)]
pub struct Placed {
    /// Who signed it.
    pub signer: Participant,
    /// Its kind.
    pub kind: VoteKind,
    /// Whether it is not the earliest of its signer and kind, but the earliest with another proposal.
    pub is_other: bool,
    /// Its place among the ballots of its round.
    pub place: usize,
}

impl Keyed for Placed {
    ghost key_of = { λ placed. vote_key placed.signer placed.kind placed.is_other };

    fn key(&self) -> u64 {
        vote_key(self.signer, self.kind, self.is_other)
    }
}

impl Placed {
    ghost use Rattle.simplex_ballots.specs.Index.{is_second};

    /// Whether it is a nullify, or its signer has an earlier vote of its kind.
    pub fn is_second(&self) -> bool
        ensures { result ≡ is_second self.now }
    {
        match self.kind {
            VoteKind::Nullify => true,
            VoteKind::Notarize | VoteKind::Finalize => self.is_other,
        }
    }
}

/// The key of a vote in its round: votes ascend by kinds, of a kind the earliest ones stand before the others, and these ascend
/// by signers.
pub fn vote_key(signer: Participant, kind: VoteKind, is_other: bool) -> u64
    ensures { result ≡ vote_key signer kind is_other }
{
    let slot = 2 * kind_number(kind) + u64::from(is_other);
    0x1_0000_0000 * slot + u64::from(signer.get())
}

/// The order of kinds.
fn kind_number(kind: VoteKind) -> u64
    ensures number { result ≡ kind_number kind }
    ensures small { result ≤ 2 }
{
    match kind {
        VoteKind::Notarize => 0,
        VoteKind::Nullify => 1,
        VoteKind::Finalize => 2,
    }
}
