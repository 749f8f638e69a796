//! The certificates of the schemes: each is a [`Listed`] with a type of its own, and is read and encoded as that.
//!
//! A bound at [`Listed`] asks for all that the types of its scheme have, and each trait of a certificate asks for it again. At
//! a type of its own it asks for the trait alone, so what is proved at a scheme is proved sooner.

ghost use Rattle.std.specs.Prelude.{◌≡◌, true, refl};
ghost use Rattle.simplex_base.specs.Format.{format_of};
ghost use Rattle.simplex_base.specs.FormatLaws.{fixed_lawful};
ghost use Rattle.simplex_schemes.specs.ListedLaws.{listed_lawful};

use crate::listed::{Listed, Lists};
use crate::marked::{Marked, MarkedSignatureRole};
use crate::plain::{Plain, PlainSignatureRole};
use crate::vouched::Vouched;
use simplex_base::codec::fixed_bytes::{FixedBytes, Role};
use simplex_base::codec::{EncodeSize, Encoding, Error, Read, Write};
use simplex_scheme::scheme::{Attestation, SchemeTypes};
use std::alloc::{AllocError, Global};
use std::hash::{Hash, Hasher};
use std::marker::Model;

/// A certificate of the scheme for tests.
#[derive(PartialEq, Eq, Hash, Drop)]
pub struct MarkedCertificate(pub(crate) Listed<Marked>);

impl Model for MarkedCertificate {
    ghost use Rattle.std.specs.Prelude.{List, ℕ};
    ghost use Rattle.simplex_scheme.specs.declared.scheme.Attestation.{Attestation};
    ghost use Rattle.simplex_schemes.specs.Marked.{MarkedScheme};

    ghost Value = { List (Attestation MarkedScheme (List ℕ) (List ℕ)) };

    ghost view = { λ certificate. certificate.0 };

    ghost inverse = { λ certificate. record { 0 = certificate } };
}

impl Lists<Marked> for MarkedCertificate {
    ghost list = { λ certificate. certificate };

    fn as_listed(&self) -> &Listed<Marked> {
        &self.0
    }
}

impl Clone for MarkedCertificate {
    ghost is_clone = { λ certificate copy. copy ≡ certificate };

    fn clone(&self) -> Result<Self, AllocError> {
        Ok(MarkedCertificate(self.0.clone()?))
    }
}

impl Encoding for MarkedCertificate {
    ghost is_value = { ⟦<Listed<Marked> as Encoding>⟧.is_value };

    ghost encoding = { ⟦<Listed<Marked> as Encoding>⟧.encoding };
}

impl Write for MarkedCertificate {
    fn write(&self, buf: &mut Vec<u8>) -> Result<(), AllocError> {
        self.0.write(buf)
    }
}

impl EncodeSize for MarkedCertificate {
    ghost limit = { ⟦<Listed<Marked> as EncodeSize>⟧.limit };

    fn encode_size(&self) -> usize {
        self.0.encode_size()
    }
}

impl Read for MarkedCertificate {
    type Cfg = u32;

    ghost fits = { ⟦<Listed<Marked> as Read>⟧.fits };

    ghost reading = { ⟦<Listed<Marked> as Read>⟧.reading };

    ghost takes_memory = { true };

    fn read_cfg(alloc: Global, input: &mut &[u8], bound: &u32) -> Result<Self, Error> {
        match Listed::read_cfg(alloc, input, bound) {
            Ok(listed) => Ok(MarkedCertificate(listed)),
            Err(error) => Err(error),
        }
    }

    fn least_size(alloc: Global, bytes: &[u8], bound: &u32) -> usize {
        Listed::<Marked>::least_size(alloc, bytes, bound)
    }

    ghost lawful = { λ bound. listed_lawful (format_of ⟦<FixedBytes<MarkedSignatureRole, 1> as Read>⟧) bound
        (fixed_lawful 1 (λ x. x) (λ bytes. bytes) (λ bytes _. refl) (λ x _. refl)) };
}

/// A certificate of the scheme without secrets.
#[derive(PartialEq, Eq, Hash, Drop)]
pub struct PlainCertificate(pub(crate) Listed<Plain>);

impl Model for PlainCertificate {
    ghost use Rattle.std.specs.Prelude.{List, ℕ};
    ghost use Rattle.simplex_scheme.specs.declared.scheme.Attestation.{Attestation};
    ghost use Rattle.simplex_schemes.specs.Plain.{PlainScheme};

    ghost Value = { List (Attestation PlainScheme (List ℕ) (List ℕ)) };

    ghost view = { λ certificate. certificate.0 };

    ghost inverse = { λ certificate. record { 0 = certificate } };
}

impl Lists<Plain> for PlainCertificate {
    ghost list = { λ certificate. certificate };

    fn as_listed(&self) -> &Listed<Plain> {
        &self.0
    }
}

impl Clone for PlainCertificate {
    ghost is_clone = { λ certificate copy. copy ≡ certificate };

    fn clone(&self) -> Result<Self, AllocError> {
        Ok(PlainCertificate(self.0.clone()?))
    }
}

impl Encoding for PlainCertificate {
    ghost is_value = { ⟦<Listed<Plain> as Encoding>⟧.is_value };

    ghost encoding = { ⟦<Listed<Plain> as Encoding>⟧.encoding };
}

impl Write for PlainCertificate {
    fn write(&self, buf: &mut Vec<u8>) -> Result<(), AllocError> {
        self.0.write(buf)
    }
}

impl EncodeSize for PlainCertificate {
    ghost limit = { ⟦<Listed<Plain> as EncodeSize>⟧.limit };

    fn encode_size(&self) -> usize {
        self.0.encode_size()
    }
}

impl Read for PlainCertificate {
    type Cfg = u32;

    ghost fits = { ⟦<Listed<Plain> as Read>⟧.fits };

    ghost reading = { ⟦<Listed<Plain> as Read>⟧.reading };

    ghost takes_memory = { true };

    fn read_cfg(alloc: Global, input: &mut &[u8], bound: &u32) -> Result<Self, Error> {
        match Listed::read_cfg(alloc, input, bound) {
            Ok(listed) => Ok(PlainCertificate(listed)),
            Err(error) => Err(error),
        }
    }

    fn least_size(alloc: Global, bytes: &[u8], bound: &u32) -> usize {
        Listed::<Plain>::least_size(alloc, bytes, bound)
    }

    ghost lawful = { λ bound. listed_lawful (format_of ⟦<FixedBytes<PlainSignatureRole, 32> as Read>⟧) bound
        (fixed_lawful 32 (λ x. x) (λ bytes. bytes) (λ bytes _. refl) (λ x _. refl)) };
}

/// A certificate of a committee whose signatures the caller verified.
#[derive(Drop)]
#[derive_where(PartialEq, Eq, Hash)]
pub struct VouchedCertificate<R: Role<N>, const N: usize>(pub(crate) Listed<Vouched<R, N>>);

impl<R: Role<N>, const N: usize> Model for VouchedCertificate<R, N> {
    ghost use Rattle.std.specs.Prelude.{List, ℕ};
    ghost use Rattle.simplex_scheme.specs.declared.scheme.Attestation.{Attestation};
    ghost use Rattle.simplex_schemes.specs.Vouched.{VouchedScheme};

    ghost Value = { List (Attestation VouchedScheme (List ℕ) (List ℕ)) };

    ghost view = { λ certificate. certificate.0 };

    ghost inverse = { λ certificate. record { 0 = certificate } };
}

impl<R: Role<N>, const N: usize> Lists<Vouched<R, N>> for VouchedCertificate<R, N> {
    ghost list = { λ certificate. certificate };

    fn as_listed(&self) -> &Listed<Vouched<R, N>> {
        &self.0
    }
}

impl<R: Role<N>, const N: usize> Clone for VouchedCertificate<R, N> {
    ghost is_clone = { λ certificate copy. copy ≡ certificate };

    fn clone(&self) -> Result<Self, AllocError> {
        Ok(VouchedCertificate(self.0.clone()?))
    }
}

impl<R: Role<N>, const N: usize> Encoding for VouchedCertificate<R, N> {
    ghost is_value = { ⟦<Listed<Vouched<R, N>> as Encoding>⟧.is_value };

    ghost encoding = { ⟦<Listed<Vouched<R, N>> as Encoding>⟧.encoding };
}

impl<R: Role<N>, const N: usize> Write for VouchedCertificate<R, N> {
    fn write(&self, buf: &mut Vec<u8>) -> Result<(), AllocError> {
        self.0.write(buf)
    }
}

impl<R: Role<N>, const N: usize> EncodeSize for VouchedCertificate<R, N> {
    ghost limit = { ⟦<Listed<Vouched<R, N>> as EncodeSize>⟧.limit };

    fn encode_size(&self) -> usize {
        self.0.encode_size()
    }
}

impl<R: Role<N>, const N: usize> Read for VouchedCertificate<R, N> {
    type Cfg = u32;

    ghost fits = { ⟦<Listed<Vouched<R, N>> as Read>⟧.fits };

    ghost reading = { ⟦<Listed<Vouched<R, N>> as Read>⟧.reading };

    ghost takes_memory = { true };

    fn read_cfg(alloc: Global, input: &mut &[u8], bound: &u32) -> Result<Self, Error> {
        match Listed::read_cfg(alloc, input, bound) {
            Ok(listed) => Ok(VouchedCertificate(listed)),
            Err(error) => Err(error),
        }
    }

    fn least_size(alloc: Global, bytes: &[u8], bound: &u32) -> usize {
        Listed::<Vouched<R, N>>::least_size(alloc, bytes, bound)
    }

    ghost lawful = { λ bound. listed_lawful (format_of ⟦<FixedBytes<R, N> as Read>⟧) bound
        (fixed_lawful N (λ x. x) (λ bytes. bytes) (λ bytes _. refl) (λ x _. refl)) };
}
