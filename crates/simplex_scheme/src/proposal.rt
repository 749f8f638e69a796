//! Proposals, which are voted on.

ghost use Rattle.std.specs.Prelude.{◌≡◌, ◌↔◌, ⊤, ◌+◌, None, Ok, IfOk, IfSome, IsTrue, false, length};
ghost use Rattle.simplex_base.specs.Format.{format_of};
ghost use Rattle.simplex_scheme.specs.Proposal.{proposal_format, proposal_of, IsLongProposal};

use crate::scheme::Digest;
use simplex_base::codec::parts::{size_both, split_fixed, write_both};
use simplex_base::codec::varint::short_number;
use simplex_base::codec::{
    EncodeSize, Encoding, Error, Fixed, MaxEncodeSize, Read, ReadExt, Write,
};
use simplex_base::or_return;
use simplex_base::positions::{Round, Roundable, View};
use std::alloc::{AllocError, Global};

/// A payload that is proposed for a round, on top of the proposal of the parent's view. It is
/// encoded as its round, its parent and its payload, at most 30 bytes and the digest's; proposals
/// are ordered so too.
#[derive(Debug, PartialEq, Eq, PartialOrd, Ord, Hash)]
pub struct Proposal<D> {
    /// The round that it is proposed for.
    pub round: Round,
    /// The view of the parent; nothing relates it to the round's view.
    pub parent: View,
    /// The digest of what is proposed.
    pub payload: D,
}

impl<D> Proposal<D> {
    /// The proposal of these parts.
    pub fn new(round: Round, parent: View, payload: D) -> Self
        ensures { result ≡ record { round = round; parent = parent; payload = payload } }
    {
        Proposal {
            round,
            parent,
            payload,
        }
    }
}

impl<D: Digest> Proposal<D> {
    /// Whether another proposal has the same round, the same parent and a payload of the same bytes. It is what `==`
    /// returns.
    pub fn is_same(&self, other: &Self) -> bool
        ensures same { IsTrue result ↔ (self.now ≡ other.now) }
        ensures equal { result ≡ ⟦<Proposal<D> as PartialEq>⟧.eq self.now other.now }
    {
        self.round == other.round
            && self.parent == other.parent
            && self.payload.as_bytes() == other.payload.as_bytes()
    }
}

impl<D: Copy> Clone for Proposal<D> {
    ghost is_clone = { λ proposal copy. copy ≡ proposal };

    ghost is_infallible = { λ _. ⊤ };

    fn clone(&self) -> Result<Self, AllocError> {
        Ok(*self)
    }
}

impl<D: Copy> Copy for Proposal<D> {}

/// What a proposal is made of: its round, its parent, and the bytes of its payload.
pub type ProposalParts<'a> = (Round, View, &'a [u8]);

impl<D: Digest> Proposal<D> {
    /// The parts of the proposal at the front of some bytes, if its numbers have at most four bytes, and the bytes after it.
    /// `None` only where the bytes are refused, or a number is longer. The payload is not copied, as it is with each move of a
    /// proposal.
    #[inline(always)]
    pub fn short_parts(bytes: &[u8]) -> Option<(ProposalParts<'_>, &[u8])>
        ensures size { IfSome result (λ x. length x.0.2.now ≡ D.SIZE) }
        ensures gives { IfSome result (λ x. (proposal_format (format_of ⟦<D as Read>⟧)).reading bytes.now ≡
            Ok (proposal_of D.of_bytes x.0, x.1.now)) }
        ensures long { result ≡ None → IfOk ((proposal_format (format_of ⟦<D as Read>⟧)).reading bytes.now) (λ x.
            IsLongProposal x.0) }
    {
        let Some((round, rest)) = Round::read_short(bytes) else {
            return None;
        };
        let (parent, rest) = short_number(rest)?;
        let (payload, rest) = split_fixed::<D>(rest)?;
        Some(((round, View::new(parent), payload), rest))
    }

    /// The proposal of these parts, whose payload has the size of one.
    #[inline(always)]
    pub fn of_parts(parts: ProposalParts<'_>) -> Self
        requires { length parts.2.now ≡ D.SIZE }
        ensures { result ≡ proposal_of D.of_bytes parts.entry }
    {
        let (round, parent, payload) = parts;
        Proposal::new(round, parent, D::from_bytes(payload))
    }
}

impl<D> Roundable for Proposal<D> {
    ghost round_of = { λ proposal. proposal.round };

    fn round(&self) -> Round {
        self.round
    }
}

impl<D: Digest> Encoding for Proposal<D> {
    ghost is_value = { (proposal_format (format_of ⟦<D as Read>⟧)).is_value };

    ghost encoding = { (proposal_format (format_of ⟦<D as Read>⟧)).encoding };
}

impl<D: Digest> Write for Proposal<D> {
    fn write(&self, buf: &mut Vec<u8>) -> Result<(), AllocError> {
        write_both(&self.round, &(self.parent, self.payload), buf)
    }
}

impl<D: Digest> EncodeSize for Proposal<D> {
    ghost limit = { 30 + 65535 };

    fn encode_size(&self) -> usize {
        size_both(&self.round, &self.parent) + self.payload.encode_size()
    }
}

impl<D: Digest> MaxEncodeSize for Proposal<D> {
    ghost use Rattle.simplex_scheme.specs.ProposalLaws.{proposal_within, proposal_longest};

    ghost max_size = { 30 + D.SIZE };

    fn max_encode_size() -> usize {
        Round::max_encode_size() + View::max_encode_size() + D::SIZE
    }

    ghost within = { proposal_within (format_of ⟦<D as Read>⟧) D.SIZE D.within };

    ghost reached = { proposal_longest (format_of ⟦<D as Read>⟧) D.SIZE D.longest };
}

impl<D: Digest> Read for Proposal<D> {
    ghost use Rattle.simplex_scheme.specs.ProposalLaws.{proposal_lawful};

    type Cfg = ();

    ghost fits = { λ _. (proposal_format (format_of ⟦<D as Read>⟧)).is_value };

    ghost reading = { λ _. (proposal_format (format_of ⟦<D as Read>⟧)).reading };

    ghost takes_memory = { false };

    #[inline(always)]
    fn read_cfg(alloc: Global, input: &mut &[u8], cfg: &()) -> Result<Self, Error> {
        let mut rest: &[u8] = *input;
        let round = or_return!(Round::read_cfg(alloc, &mut rest, cfg));
        let parent = or_return!(View::read_cfg(alloc, &mut rest, cfg));
        let payload = or_return!(D::read_cfg(alloc, &mut rest, cfg));
        *input = rest;
        Ok(Proposal::new(round, parent, payload))
    }

    ghost lawful = { λ _. proposal_lawful (format_of ⟦<D as Read>⟧) D.lawful };
}

impl<D: Digest> ReadExt for Proposal<D> {
    ghost readable = { λ x value. value };
}
