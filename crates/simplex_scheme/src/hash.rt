//! Hash functions, and SHA-256.

ghost use Rattle.std.specs.Prelude.{◌≡◌, ℕ, List};
ghost use Rattle.std.proofs.Common.{lit<, lit≤};
ghost use Rattle.sha2.specs.Sha256.{sha256};
ghost use Rattle.simplex_scheme.specs.Hashing.{joined};

use crate::scheme::Digest;
use simplex_base::codec::fixed_bytes::{FixedBytes, Role};
use simplex_base::codec::{Array, Fixed};

/// A function from bytes to digests.
pub trait Hasher {
    /// What it returns for any bytes.
    type Digest: Digest + Array;

    /// The digest of some bytes.
    ghost digest_of: { List ℕ → Self.Digest };

    /// The digest of the concatenation of the parts. It allocates nothing.
    fn hash(parts: &[&[u8]]) -> Self::Digest
        ensures { result ≡ digest_of (joined parts.now) };
}

/// The role of a SHA-256 digest.
pub enum Sha256Role {}

impl Role<32> for Sha256Role {
    ghost sized = { (lit< tt, lit≤ tt) };
}

/// A digest of SHA-256: 32 bytes.
pub type Sha256Digest = FixedBytes<Sha256Role, 32>;

/// SHA-256 by FIPS 180-4.
pub struct Sha256;

impl Hasher for Sha256 {
    type Digest = FixedBytes<Sha256Role, 32>;

    ghost digest_of = { λ bytes. sha256 bytes };

    fn hash(parts: &[&[u8]]) -> Sha256Digest {
        use sha2::Digest as _;
        let mut state = sha2::Sha256::new();
        for part in parts {
            state.update(*part);
        }
        Sha256Digest::from_bytes(&state.finalize())
    }
}
