//! Rounds, each a view of an epoch.

ghost use Rattle.std.specs.Prelude.{◌≡◌, false, None, Ok, IfOk, IfSome};
ghost use Rattle.simplex_base.specs.Positions.{round_format, IsLongRound};
ghost use Rattle.simplex_base.specs.PositionLaws.{round_lawful, round_within, longest_round};

use crate::codec::parts::{size_both, write_both};
use crate::codec::varint::short_number;
use crate::codec::{EncodeSize, Encoding, Error, MaxEncodeSize, Read, ReadExt, Write};
use crate::or_return;
use crate::positions::epoch::{Epoch, Epochable};
use crate::positions::view::{View, Viewable};
use std::alloc::{AllocError, Global};
use std::marker::Model;

/// A view of an epoch, ordered by epoch and then by view, encoded in 2 to 20 bytes.
#[derive(Clone, Copy, Debug, PartialEq, Eq, PartialOrd, Ord, Hash)]
pub struct Round {
    epoch: Epoch,
    view: View,
}

impl Model for Round {
    ghost use Rattle.simplex_base.specs.Positions as positions;

    ghost Value = { positions.Round };

    ghost view = { λ round. record { epoch = round.epoch; view = round.view } };

    ghost inverse = { λ round. record { epoch = round.epoch; view = round.view } };
}

impl Round {
    /// The round of an epoch and a view.
    pub fn new(epoch: Epoch, view: View) -> Self
        ensures { result ≡ record { epoch = epoch; view = view } }
    {
        Round { epoch, view }
    }

    /// The epoch.
    pub fn epoch(self) -> Epoch
        ensures { result ≡ self.epoch }
    {
        self.epoch
    }

    /// The view.
    pub fn view(self) -> View
        ensures { result ≡ self.view }
    {
        self.view
    }
}

/// What belongs to a round, and so to the round's epoch and view.
pub trait Roundable {
    ghost use Rattle.simplex_base.specs.Positions as positions;

    /// The round.
    ghost round_of: { Self → positions.Round };

    /// The round that it belongs to.
    fn round(&self) -> Round
        ensures { result ≡ round_of self.now };
}

impl Roundable for Round {
    ghost round_of = { λ round. round };

    fn round(&self) -> Round {
        *self
    }
}

impl<T: Roundable> Epochable for T {
    ghost epoch_of = { λ value. (T.round_of value).epoch };

    fn epoch(&self) -> Epoch {
        self.round().epoch
    }
}

impl<T: Roundable> Viewable for T {
    ghost view_of = { λ value. (T.round_of value).view };

    fn view(&self) -> View {
        self.round().view
    }
}

impl Round {
    /// The round at the front of some bytes, if its numbers have at most four bytes, and the bytes after it. `None` only where
    /// the bytes are refused, or the round's numbers are longer.
    #[inline(always)]
    pub fn read_short(bytes: &[u8]) -> Option<(Round, &[u8])>
        ensures read { IfSome result (λ x. ⟦<Round as Read>⟧.reading tt bytes.now ≡ Ok (x.0, x.1.now)) }
        ensures long { result ≡ None → IfOk (⟦<Round as Read>⟧.reading tt bytes.now) (λ x. IsLongRound x.0) }
    {
        let (epoch, rest) = short_number(bytes)?;
        let (view, rest) = short_number(rest)?;
        Some((Round::new(Epoch::new(epoch), View::new(view)), rest))
    }
}

impl Encoding for Round {
    ghost is_value = { round_format.is_value };

    ghost encoding = { round_format.encoding };
}

impl Write for Round {
    fn write(&self, buf: &mut Vec<u8>) -> Result<(), AllocError> {
        write_both(&self.epoch, &self.view, buf)
    }
}

impl EncodeSize for Round {
    ghost limit = { 20 };

    fn encode_size(&self) -> usize {
        size_both(&self.epoch, &self.view)
    }
}

impl MaxEncodeSize for Round {
    ghost max_size = { 20 };

    fn max_encode_size() -> usize {
        Epoch::max_encode_size() + View::max_encode_size()
    }

    ghost within = { round_within };

    ghost reached = { longest_round };
}

impl Read for Round {
    type Cfg = ();

    ghost fits = { λ _. round_format.is_value };

    ghost reading = { λ _. round_format.reading };

    ghost takes_memory = { false };

    #[inline(always)]
    fn read_cfg(alloc: Global, input: &mut &[u8], cfg: &()) -> Result<Self, Error> {
        let mut rest: &[u8] = *input;
        let epoch = or_return!(Epoch::read_cfg(alloc, &mut rest, cfg));
        let view = or_return!(View::read_cfg(alloc, &mut rest, cfg));
        *input = rest;
        Ok(Round { epoch, view })
    }

    ghost lawful = { λ _. round_lawful };
}

impl ReadExt for Round {
    ghost readable = { λ x value. value };
}
