//! Views, the places in the order of an epoch.

ghost use Rattle.std.specs.Prelude.{◌≡◌, ℕ, ◌+◌, ◌-◌, ◌^◌, ◌↔◌, IsTrue, min, false};
ghost use Rattle.std.proofs.Common.{lit<};
ghost use Rattle.simplex_base.specs.Varint.{number_64};
ghost use Rattle.simplex_base.specs.VarintLaws.{number_64_lawful, longest_64, groups_len};

use crate::codec::varint::{read_u64, size_u64, write_u64};
use crate::codec::{EncodeSize, Encoding, Error, MaxEncodeSize, Read, ReadExt, Write};
use crate::positions::view_delta::ViewDelta;
use std::alloc::{AllocError, Global};
use std::marker::Model;

/// A place in the order of an epoch's proposals: a number from 0 (genesis) to 2^64 - 1, encoded in 1 to 10
/// bytes.
#[derive(Clone, Copy, Debug, PartialEq, Eq, PartialOrd, Ord, Hash)]
pub struct View(u64);

impl Model for View {
    ghost Value = { ℕ };

    ghost view = { λ place. place.0 };

    ghost inverse = { λ number. record { 0 = number } };
}

impl View {
    /// The view of this number.
    pub fn new(number: u64) -> Self
        ensures { result ≡ number }
    {
        View(number)
    }

    /// The number of the view.
    pub fn get(self) -> u64
        ensures { result ≡ self }
    {
        self.0
    }

    /// View 0, that of genesis.
    pub fn zero() -> Self
        ensures { result ≡ 0 }
    {
        View(0)
    }

    /// Whether it is view 0.
    pub fn is_zero(self) -> bool
        ensures { IsTrue result ↔ (self ≡ 0) }
    {
        self.0 == 0
    }

    /// The view `delta` views later, or view 2^64 - 1 where there is no such view.
    pub fn saturating_add(self, delta: ViewDelta) -> Self
        ensures { result ≡ min (self + delta) (2 ^ 64 - 1) }
    {
        View(self.0.saturating_add(delta.get()))
    }

    /// The view `delta` views earlier, or view 0 where there is no such view.
    pub fn saturating_sub(self, delta: ViewDelta) -> Self
        ensures { result ≡ self - delta }
    {
        View(self.0.saturating_sub(delta.get()))
    }
}

/// What belongs to a view.
pub trait Viewable {
    /// The number of the view.
    ghost view_of: { Self → ℕ };

    /// The view that it belongs to.
    fn view(&self) -> View
        ensures { result ≡ view_of self.now };
}

impl Encoding for View {
    ghost is_value = { number_64.is_value };

    ghost encoding = { number_64.encoding };
}

impl Write for View {
    fn write(&self, buf: &mut Vec<u8>) -> Result<(), AllocError> {
        write_u64(self.0, buf)
    }
}

impl EncodeSize for View {
    ghost limit = { 10 };

    fn encode_size(&self) -> usize {
        size_u64(self.0)
    }
}

impl MaxEncodeSize for View {
    ghost max_size = { 10 };

    fn max_encode_size() -> usize {
        10
    }

    ghost within = { λ x _. groups_len 9 x };

    ghost reached = { (2 ^ 64 - 1, lit< tt, longest_64) };
}

impl Read for View {
    type Cfg = ();

    ghost fits = { λ _. number_64.is_value };

    ghost reading = { λ _. number_64.reading };

    ghost takes_memory = { false };

    fn read_cfg(_alloc: Global, input: &mut &[u8], _cfg: &()) -> Result<Self, Error> {
        Ok(View(read_u64(input)?))
    }

    ghost lawful = { λ _. number_64_lawful };
}

impl ReadExt for View {
    ghost readable = { λ x value. value };
}
