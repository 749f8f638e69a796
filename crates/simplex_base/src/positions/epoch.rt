//! Epochs, each of which has one committee.

ghost use Rattle.std.specs.Prelude.{◌≡◌, ℕ, ◌-◌, ◌^◌, false};
ghost use Rattle.std.proofs.Common.{lit<};
ghost use Rattle.simplex_base.specs.Varint.{number_64};
ghost use Rattle.simplex_base.specs.VarintLaws.{number_64_lawful, longest_64, groups_len};

use crate::codec::varint::{read_u64, size_u64, write_u64};
use crate::codec::{EncodeSize, Encoding, Error, MaxEncodeSize, Read, ReadExt, Write};
use std::alloc::{AllocError, Global};
use std::marker::Model;

/// A period with one committee: a number from 0 to 2^64 - 1, encoded in 1 to 10 bytes.
#[derive(Clone, Copy, Debug, PartialEq, Eq, PartialOrd, Ord, Hash)]
pub struct Epoch(u64);

impl Model for Epoch {
    ghost Value = { ℕ };

    ghost view = { λ epoch. epoch.0 };

    ghost inverse = { λ number. record { 0 = number } };
}

impl Epoch {
    /// The epoch of this number.
    pub fn new(number: u64) -> Self
        ensures { result ≡ number }
    {
        Epoch(number)
    }

    /// The number of the epoch.
    pub fn get(self) -> u64
        ensures { result ≡ self }
    {
        self.0
    }
}

/// What belongs to an epoch.
pub trait Epochable {
    /// The number of the epoch.
    ghost epoch_of: { Self → ℕ };

    /// The epoch that it belongs to.
    fn epoch(&self) -> Epoch
        ensures { result ≡ epoch_of self.now };
}

impl Encoding for Epoch {
    ghost is_value = { number_64.is_value };

    ghost encoding = { number_64.encoding };
}

impl Write for Epoch {
    fn write(&self, buf: &mut Vec<u8>) -> Result<(), AllocError> {
        write_u64(self.0, buf)
    }
}

impl EncodeSize for Epoch {
    ghost limit = { 10 };

    fn encode_size(&self) -> usize {
        size_u64(self.0)
    }
}

impl MaxEncodeSize for Epoch {
    ghost max_size = { 10 };

    fn max_encode_size() -> usize {
        10
    }

    ghost within = { λ x _. groups_len 9 x };

    ghost reached = { (2 ^ 64 - 1, lit< tt, longest_64) };
}

impl Read for Epoch {
    type Cfg = ();

    ghost fits = { λ _. number_64.is_value };

    ghost reading = { λ _. number_64.reading };

    ghost takes_memory = { false };

    fn read_cfg(_alloc: Global, input: &mut &[u8], _cfg: &()) -> Result<Self, Error> {
        Ok(Epoch(read_u64(input)?))
    }

    ghost lawful = { λ _. number_64_lawful };
}

impl ReadExt for Epoch {
    ghost readable = { λ x value. value };
}
