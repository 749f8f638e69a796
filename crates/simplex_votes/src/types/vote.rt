//! The union of votes.

ghost use Rattle.std.specs.Prelude.{◌≡◌, ⊤, ◌+◌, false};
ghost use Rattle.simplex_base.specs.Format.{format_of};

use crate::map_ok;
use crate::types::finalize::Finalize;
use crate::types::notarize::Notarize;
use crate::types::nullify::Nullify;
use simplex_base::codec::unions::{Tagged, read_tagged, write_tagged};
use simplex_base::codec::{
    EncodeSize, Encoding, Error, Fixed, MaxEncodeSize, Read, ReadExt, Write,
};
use simplex_base::positions::{Participant, Round, Roundable};
use simplex_scheme::scheme::{Attributable, Digest, SchemeTypes};
use std::alloc::{AllocError, Global};

/// A vote: one byte of tag, and then the parts of the vote with that tag, at most 36 bytes, the
/// digest's and the signature's.
#[derive(Drop)]
#[derive_where(PartialEq, Eq)]
pub enum Vote<S: SchemeTypes, D: Digest> {
    /// Tag 0.
    Notarize(Notarize<S, D>),
    /// Tag 1.
    Nullify(Nullify<S>),
    /// Tag 2.
    Finalize(Finalize<S, D>),
}

impl<S: SchemeTypes, D: Digest> Clone for Vote<S, D> {
    ghost is_clone = { λ vote copy. copy ≡ vote };

    ghost is_infallible = { λ _. ⊤ };

    fn clone(&self) -> Result<Self, AllocError> {
        Ok(match self {
            Vote::Notarize(vote) => Vote::Notarize(vote.copy()),
            Vote::Nullify(vote) => Vote::Nullify(vote.copy()),
            Vote::Finalize(vote) => Vote::Finalize(vote.copy()),
        })
    }
}

impl<S: SchemeTypes, D: Digest> Attributable for Vote<S, D> {
    ghost use Rattle.simplex_votes.specs.Unions.{vote_attestation};

    ghost signer_of = { λ vote. (vote_attestation vote).signer };

    fn signer(&self) -> Participant {
        match self {
            Vote::Notarize(vote) => vote.signer(),
            Vote::Nullify(vote) => vote.signer(),
            Vote::Finalize(vote) => vote.signer(),
        }
    }
}

impl<S: SchemeTypes, D: Digest> Roundable for Vote<S, D> {
    ghost use Rattle.simplex_votes.specs.Unions.{vote_round};

    ghost round_of = { vote_round };

    fn round(&self) -> Round {
        match self {
            Vote::Notarize(vote) => vote.round(),
            Vote::Nullify(vote) => vote.round(),
            Vote::Finalize(vote) => vote.round(),
        }
    }
}

impl<S: SchemeTypes, D: Digest> Encoding for Vote<S, D> {
    ghost use Rattle.simplex_votes.specs.Unions.{vote_format};

    ghost is_value = { (vote_format (format_of ⟦<D as Read>⟧)
        (format_of ⟦<S::Signature as Read>⟧)).is_value };

    ghost encoding = { (vote_format (format_of ⟦<D as Read>⟧)
        (format_of ⟦<S::Signature as Read>⟧)).encoding };
}

impl<S: SchemeTypes, D: Digest> Write for Vote<S, D> {
    fn write(&self, buf: &mut Vec<u8>) -> Result<(), AllocError> {
        match self {
            Vote::Notarize(vote) => write_tagged(0, vote, buf),
            Vote::Nullify(vote) => write_tagged(1, vote, buf),
            Vote::Finalize(vote) => write_tagged(2, vote, buf),
        }
    }
}

impl<S: SchemeTypes, D: Digest> EncodeSize for Vote<S, D> {
    ghost limit = { 36 + 65535 + 65535 };

    fn encode_size(&self) -> usize {
        match self {
            Vote::Notarize(vote) => 1 + vote.encode_size(),
            Vote::Nullify(vote) => 1 + vote.encode_size(),
            Vote::Finalize(vote) => 1 + vote.encode_size(),
        }
    }
}

impl<S: SchemeTypes, D: Digest> MaxEncodeSize for Vote<S, D> {
    ghost use Rattle.simplex_votes.specs.UnionLaws.{vote_within, vote_longest};

    ghost max_size = { 36 + D.SIZE + S.Signature.SIZE };

    fn max_encode_size() -> usize {
        1 + Notarize::<S, D>::max_encode_size()
    }

    ghost within = { vote_within (format_of ⟦<D as Read>⟧) (format_of ⟦<S::Signature as Read>⟧)
        D.SIZE S.Signature.SIZE D.within S.Signature.within };

    ghost reached = { vote_longest (format_of ⟦<D as Read>⟧) (format_of ⟦<S::Signature as Read>⟧)
        D.SIZE S.Signature.SIZE D.longest S.Signature.longest };
}

impl<S: SchemeTypes, D: Digest> Read for Vote<S, D> {
    ghost use Rattle.simplex_votes.specs.Unions.{vote_format};
    ghost use Rattle.simplex_votes.specs.UnionLaws.{vote_lawful};

    type Cfg = ();

    ghost fits = { λ _. (vote_format (format_of ⟦<D as Read>⟧)
        (format_of ⟦<S::Signature as Read>⟧)).is_value };

    ghost reading = { λ _. (vote_format (format_of ⟦<D as Read>⟧)
        (format_of ⟦<S::Signature as Read>⟧)).reading };

    ghost takes_memory = { false };

    fn read_cfg(alloc: Global, input: &mut &[u8], cfg: &()) -> Result<Self, Error> {
        read_tagged(alloc, input, cfg)
    }

    ghost lawful = { λ _. vote_lawful _ _ D.lawful S.Signature.lawful };
}

impl<S: SchemeTypes, D: Digest> ReadExt for Vote<S, D> {
    ghost readable = { λ x value. value };
}

impl<S: SchemeTypes, D: Digest> Tagged for Vote<S, D> {
    ghost use Rattle.simplex_votes.specs.Unions.{vote_branches};

    type Cfg = ();

    ghost branches = { λ _. vote_branches (format_of ⟦<D as Read>⟧)
        (format_of ⟦<S::Signature as Read>⟧) };

    ghost takes_memory = { false };

    fn read_body(alloc: Global, tag: u8, input: &mut &[u8], _cfg: &()) -> Result<Self, Error> {
        match tag {
            0 => map_ok!(Notarize::read_cfg(alloc, input, &()), Vote::Notarize),
            1 => map_ok!(Nullify::read_cfg(alloc, input, &()), Vote::Nullify),
            2 => map_ok!(Finalize::read_cfg(alloc, input, &()), Vote::Finalize),
            _ => Err(Error::Invalid("consensus::simplex::Vote", "Invalid type")),
        }
    }
}
