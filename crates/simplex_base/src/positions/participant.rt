//! Participants, the members of a committee by number.

ghost use Rattle.std.specs.Prelude.{◌≡◌, ℕ, ◌-◌, ◌^◌, false};
ghost use Rattle.std.proofs.Common.{lit<};
ghost use Rattle.simplex_base.specs.Varint.{number_32};
ghost use Rattle.simplex_base.specs.VarintLaws.{number_32_lawful, longest_32, groups_len};

use crate::codec::varint::{read_u32, size_u32, write_u32};
use crate::codec::{EncodeSize, Encoding, Error, MaxEncodeSize, Read, ReadExt, Write};
use std::alloc::{AllocError, Global};
use std::marker::Model;

/// The number of a member of the committee, from 0 to 2^32 - 1, encoded in 1 to 5 bytes.
#[derive(Clone, Copy, Debug, PartialEq, Eq, PartialOrd, Ord, Hash)]
pub struct Participant(u32);

impl Model for Participant {
    ghost Value = { ℕ };

    ghost view = { λ participant. participant.0 };

    ghost inverse = { λ number. record { 0 = number } };
}

impl Participant {
    /// The participant of this number.
    pub fn new(number: u32) -> Self
        ensures { result ≡ number }
    {
        Participant(number)
    }

    /// The number of the participant.
    pub fn get(self) -> u32
        ensures { result ≡ self }
    {
        self.0
    }
}

impl Encoding for Participant {
    ghost is_value = { number_32.is_value };

    ghost encoding = { number_32.encoding };
}

impl Write for Participant {
    fn write(&self, buf: &mut Vec<u8>) -> Result<(), AllocError> {
        write_u32(self.0, buf)
    }
}

impl EncodeSize for Participant {
    ghost limit = { 5 };

    fn encode_size(&self) -> usize {
        size_u32(self.0)
    }
}

impl MaxEncodeSize for Participant {
    ghost max_size = { 5 };

    fn max_encode_size() -> usize {
        5
    }

    ghost within = { λ x _. groups_len 4 x };

    ghost reached = { (2 ^ 32 - 1, lit< tt, longest_32) };
}

impl Read for Participant {
    type Cfg = ();

    ghost fits = { λ _. number_32.is_value };

    ghost reading = { λ _. number_32.reading };

    ghost takes_memory = { false };

    fn read_cfg(_alloc: Global, input: &mut &[u8], _cfg: &()) -> Result<Self, Error> {
        Ok(Participant(read_u32(input)?))
    }

    ghost lawful = { λ _. number_32_lawful };
}

impl ReadExt for Participant {
    ghost readable = { λ x value. value };
}
