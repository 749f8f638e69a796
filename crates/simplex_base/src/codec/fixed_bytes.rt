//! Values of a fixed number of bytes: digests, keys, signatures.

ghost use Rattle.std.specs.Prelude.{ℕ, ◌≡◌, ◌<◌, ◌≤◌, ⊤, refl};
ghost use Rattle.std.proofs.lemmas.Slice.Eq.{bytes_eq-Decides};

use crate::codec::parts::known_bytes;
use crate::codec::{Array, Fixed};
use std::alloc::AllocError;
use std::marker::{Model, PhantomData};

/// What `N` bytes stand for, as a digest of some hash. Types of one size differ by it.
pub trait Role<const N: usize> {
    /// `N` is from 1 to 65,535.
    ghost sized: { (0 < N) × (N ≤ 65535) };
}

/// `N` bytes in the role `R`, ordered as bytes are.
#[derive_where(Debug, PartialEq, Eq, PartialOrd, Ord, Hash)]
pub struct FixedBytes<R, const N: usize> {
    bytes: [u8; N],
    #[derive_where(skip)]
    role: PhantomData<R>,
}

impl<R, const N: usize> Model for FixedBytes<R, N> {
    ghost use Rattle.std.specs.Prelude.{List, ℕ};

    ghost Value = { List ℕ };

    ghost view = { λ fixed. fixed.bytes };

    ghost inverse = { λ bytes. record { bytes = bytes; role = record {} } };
}

impl<R, const N: usize> Clone for FixedBytes<R, N> {
    ghost is_clone = { λ bytes copy. copy ≡ bytes };

    ghost is_infallible = { λ _. ⊤ };

    fn clone(&self) -> Result<Self, AllocError> {
        Ok(FixedBytes {
            bytes: self.bytes,
            role: PhantomData,
        })
    }
}

impl<R, const N: usize> Copy for FixedBytes<R, N> {}

impl<R: Role<N>, const N: usize> Fixed for FixedBytes<R, N> {
    ghost SIZE = { N };

    const SIZE: usize = N;

    ghost bytes_of = { λ fixed. fixed };

    ghost of_bytes = { λ bytes. bytes };

    fn as_bytes(&self) -> &[u8] {
        known_bytes(&self.bytes)
    }

    fn from_bytes(bytes: &[u8]) -> Self {
        let mut all = [0; N];
        all.copy_from_slice(bytes);
        FixedBytes {
            bytes: all,
            role: PhantomData,
        }
    }

    ghost sized = { R.sized };

    ghost back = { λ bytes _. refl };

    ghost forth = { λ x _. refl };

    ghost equal = { λ x y. bytes_eq-Decides x y };
}

impl<R: Role<N>, const N: usize> Array for FixedBytes<R, N> {
    ghost ordered = { λ x y. refl };
}
