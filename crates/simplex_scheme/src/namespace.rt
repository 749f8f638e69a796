//! The byte strings under which votes and seeds are signed.

ghost use Rattle.std.specs.Prelude.{◌≡◌, ℕ, List, ◌++◌, IfOk};
ghost use Rattle.simplex_scheme.specs.Namespace.{names_of, AreApart, DetermineBases};

use std::alloc::{AllocError, Global};
use std::marker::Model;

/// The namespaces under which votes of each kind and seeds are signed: a base, which names the
/// application, followed by a suffix of the kind.
#[derive(Drop)]
pub struct Namespace {
    /// Of votes to notarize: the base and `_NOTARIZE`.
    pub notarize: Vec<u8>,
    /// Of votes to nullify: the base and `_NULLIFY`.
    pub nullify: Vec<u8>,
    /// Of votes to finalize: the base and `_FINALIZE`.
    pub finalize: Vec<u8>,
    /// Of seeds: the base and `_SEED`.
    pub seed: Vec<u8>,
}

impl Model for Namespace {
    ghost use Rattle.simplex_scheme.specs.Namespace.{Names};

    ghost Value = { Names };

    ghost view = { λ n. record {
      notarize = n.notarize.items;
      nullify = n.nullify.items;
      finalize = n.finalize.items;
      seed = n.seed.items;
    } };
}

impl Namespace {
    /// The namespaces of a base, which may be empty. `AllocError` where the allocation of one of the four strings
    /// failed.
    pub fn new(alloc: Global, base: &[u8]) -> Result<Self, AllocError>
        ensures names { IfOk result (λ namespace. namespace ≡ names_of base.now) }
        // Namespaces of two kinds differ, for any two bases.
        ensures apart { (other : List ℕ) → AreApart (names_of base.now) (names_of other) }
        // Namespaces of one kind are equal exactly where their bases are.
        ensures one { (other : List ℕ) → DetermineBases base.now other }
    {
        Self::derive(alloc, base)
    }
}

impl Clone for Namespace {
    ghost is_clone = { λ names copy. copy ≡ names };

    fn clone(&self) -> Result<Self, AllocError> {
        Ok(Namespace {
            notarize: self.notarize.clone()?,
            nullify: self.nullify.clone()?,
            finalize: self.finalize.clone()?,
            seed: self.seed.clone()?,
        })
    }
}

/// What a certificate's attestations are signed under, made of the application's base namespace.
pub trait CertificateNamespace: Sized {
    /// The namespaces of a base.
    ghost of_base: { List ℕ → Self };

    /// Makes the namespaces of a base. `AllocError` where an allocation failed.
    fn derive(alloc: Global, base: &[u8]) -> Result<Self, AllocError>
        ensures { IfOk result (λ namespace. namespace ≡ of_base base.now) };
}

impl CertificateNamespace for Namespace {
    ghost of_base = { names_of };

    fn derive(alloc: Global, base: &[u8]) -> Result<Self, AllocError> {
        Ok(Namespace {
            notarize: with_suffix(alloc, base, b"_NOTARIZE")?,
            nullify: with_suffix(alloc, base, b"_NULLIFY")?,
            finalize: with_suffix(alloc, base, b"_FINALIZE")?,
            seed: with_suffix(alloc, base, b"_SEED")?,
        })
    }
}

/// The base and then the suffix.
fn with_suffix(alloc: Global, base: &[u8], suffix: &[u8]) -> Result<Vec<u8>, AllocError>
    ensures { IfOk result (λ name. name.items ≡ base.now ++ suffix.now) }
{
    let mut name = Vec::with_capacity(alloc, base.len() + suffix.len())?;
    name.extend_from_slice(base)?;
    name.extend_from_slice(suffix)?;
    Ok(name)
}
