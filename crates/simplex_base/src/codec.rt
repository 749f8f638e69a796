//! Encoding and decoding. Each value has one encoding, and reading returns it wherever that is a prefix of the input.

ghost use Rattle.std.specs.Prelude.{◌≡◌, ◌↔◌, true, ℕ, Bool, Ok, Err, List, ◌++◌, length, OnOk, OnErr, IfOk, ◌≤◌, ◌<◌};
ghost use Rattle.std.specs.Ordering.{nat_cmp};
ghost use Rattle.std.specs.Cmp.Lexicographic.{slice_cmp};
ghost use Rattle.simplex_base.specs.Reading.{Reading, Gives, GivesAll, all_of};
ghost use Rattle.simplex_base.specs.Format.{Lawful, IsFixed, fixed, fixed_at};
ghost use Rattle.simplex_base.specs.FormatLaws.{fixed_lawful};
ghost use Rattle.simplex_base.specs.LeastSize.{NoneShorter};
ghost use Rattle.simplex_base.specs.Sizes.{IsWithin, Longest};
ghost use Rattle.simplex_base.specs.SizeLaws.{fixed_within, fixed_longest};

pub mod counted;
mod error;
pub mod fixed_bytes;
pub mod parts;
mod truth;
pub mod unions;
pub mod varint;

use crate::codec::parts::known_bytes;
use bytes::Bytes;
pub use error::Error;
use std::alloc::{AllocError, Global};
use std::hash::Hash;

/// What the values of a type are, and how each of them is encoded. It has no code of its own.
pub trait Encoding {
    /// Holds of the values of the type.
    ghost is_value: { Self → Type 0 };

    /// The bytes of a value.
    ghost encoding: { Self → List ℕ };
}

/// A value that can be written.
pub trait Write: Encoding {
    /// Appends the encoding. `AllocError` where the buffer had to grow and the allocation failed; the buffer is then
    /// as before.
    fn write(&self, buf: &mut Vec<u8>) -> Result<(), AllocError>
        ensures ok { OnOk result (buf.new.items ≡ buf.old.items ++ Self.encoding self.now) }
        ensures err { OnErr result (buf.new.items ≡ buf.old.items) };
}

/// A value that knows how long its encoding is.
pub trait EncodeSize: Encoding {
    /// A bound on the sizes, so that sums of them do not overflow.
    ghost limit: { ℕ };

    /// The number of bytes of the encoding. Where the type has a greatest size, generic code calls
    /// [`bounded_encode_size`](MaxEncodeSize::bounded_encode_size), whose clause says that it is at
    /// most that.
    fn encode_size(&self) -> usize
        ensures size { result ≡ length (Self.encoding self.now) }
        ensures value { Self.is_value self.now }
        ensures limited { result ≤ limit };
}

/// A type whose encodings have a greatest length.
pub trait MaxEncodeSize: EncodeSize {
    /// The greatest length.
    ghost max_size: { ℕ };

    /// The greatest number of bytes that an encoding has.
    fn max_encode_size() -> usize
        ensures { result ≡ max_size };

    /// The number of bytes of the encoding, which is at most the greatest.
    final fn bounded_encode_size(&self) -> usize
        ensures size { result ≡ length (Self.encoding self.now) }
        ensures bounded { result ≤ max_size }
    {
        self.encode_size()
    }

    /// No encoding is longer,
    ghost within: { (x : Self) → Self.is_value x → length (Self.encoding x) ≤ max_size };

    /// and some encoding is as long.
    ghost reached: { (x : Self) × Self.is_value x × (length (Self.encoding x) ≡ max_size) };
}

/// A value that can be read.
pub trait Read: Encoding {
    /// What bounds the values that are read.
    type Cfg;

    /// The value is within the configuration.
    ghost fits: { Self.Cfg → Self → Type 0 };

    /// What reading a prefix of some bytes gives.
    ghost reading: { Self.Cfg → List ℕ → Reading Self };

    /// Whether reading allocates. Where it doesn't, `OutOfMemory` is never returned.
    ghost takes_memory: { Bool };

    /// Reads the value whose encoding is a prefix of the input, and moves the slice past it.
    /// `OutOfMemory` only where an allocation failed. After an error the slice is as before.
    fn read_cfg(alloc: Global, input: &mut &[u8], cfg: &Self::Cfg) -> Result<Self, Error>
        ensures { Gives takes_memory result input.old.now input.new.now
            (reading cfg.now input.old.now) };

    /// A lower bound of the sizes of the values whose encodings begin with these bytes: unless an implementation finds a
    /// greater one, the number of these bytes. Before there are as many bytes, no such value can be read.
    fn least_size(_alloc: Global, bytes: &[u8], cfg: &Self::Cfg) -> usize
        ensures { NoneShorter (fits cfg.now) Self.encoding bytes.now result }
    {
        bytes.len()
    }

    /// What is read is the value whose encoding is a prefix of the input, and each value is read whose encoding is
    /// one.
    ghost lawful: { (cfg : Self.Cfg) → Lawful (fits cfg) Self.encoding (reading cfg) };
}

/// A type that needs no configuration to be read, as all but those with a certificate: each of its values can be read.
pub trait ReadExt: Read<Cfg = ()> {
    /// What can be written can be read.
    ghost readable: { (x : Self) → Self.is_value x → Self.fits tt x };
}

/// A value that can be written as one byte string.
pub trait Encode: Write + EncodeSize {
    /// The encoding, in memory of exactly its size. `AllocError` where an allocation failed.
    fn encode(&self, alloc: Global) -> Result<Bytes, AllocError>
        ensures encoding { IfOk result (λ bytes. bytes ≡ Self.encoding self.now) }
        ensures value { Self.is_value self.now }
    {
        let mut buf = Vec::with_capacity(alloc, self.encode_size())?;
        self.write(&mut buf)?;
        Ok(Bytes::from_vec(buf)?)
    }
}

impl<T: Write + EncodeSize> Encode for T {}

/// A type whose values are exactly its lists of [`SIZE`](Fixed::SIZE) bytes, as digests, signatures
/// and public keys.
pub trait Fixed: Copy + Eq {
    ghost SIZE: { ℕ };

    /// The length in bytes, from 1 to 65,535.
    const SIZE: usize;

    /// The bytes of a value.
    ghost bytes_of: { Self → List ℕ };

    /// The value of some bytes.
    ghost of_bytes: { List ℕ → Self };

    /// The bytes of the value.
    fn as_bytes(&self) -> &[u8]
        ensures value { result.now ≡ bytes_of self.now }
        ensures fixed { IsFixed SIZE (bytes_of self.now) };

    /// The value of these bytes, of which there have to be [`SIZE`](Fixed::SIZE).
    fn from_bytes(bytes: &[u8]) -> Self
        requires { length bytes.now ≡ SIZE }
        ensures { result ≡ of_bytes bytes.now };

    /// The size is from 1 to 65,535.
    ghost sized: { (0 < SIZE) × (SIZE ≤ 65535) };

    /// Each list of that many bytes is the bytes of a value,
    ghost back: { (bytes : List ℕ) → IsFixed SIZE bytes → bytes_of (of_bytes bytes) ≡ bytes };

    /// and of one only.
    ghost forth: { (x : Self) → IsFixed SIZE (bytes_of x) → of_bytes (bytes_of x) ≡ x };

    /// Reading gives the value of the first bytes, as many as the size, and reads no others.
    ghost lawful: { Lawful (λ x. IsFixed SIZE (bytes_of x)) bytes_of
        (fixed_at SIZE of_bytes) } = { fixed_lawful SIZE bytes_of of_bytes back forth };

    /// No value has more bytes than the size,
    ghost within: { IsWithin (fixed SIZE bytes_of of_bytes)
        SIZE } = { fixed_within SIZE bytes_of of_bytes };

    /// and some value has as many.
    ghost longest: { Longest (fixed SIZE bytes_of of_bytes)
        SIZE } = { fixed_longest SIZE bytes_of of_bytes back };

    /// Two values are equal exactly where their bytes are.
    ghost equal: { (x y : Self) → (Self.eq x y ≡ true) ↔ (bytes_of x ≡ bytes_of y) };
}

/// A type whose encodings all have one length.
pub trait FixedSize {
    ghost SIZE: { ℕ };

    /// The length in bytes.
    const SIZE: usize;
}

impl<T: Fixed> FixedSize for T {
    ghost SIZE = { T.SIZE };

    const SIZE: usize = T::SIZE;
}

/// A type of a fixed size whose values can be put in order and hashed, as [`FixedBytes`](fixed_bytes::FixedBytes) can. Messages
/// ask for less of digests and signatures, which is [`Fixed`].
pub trait Array: Fixed + Ord + Hash {
    /// Values are ordered as their bytes are.
    ghost ordered: { (x y : Self) →
        Self.cmp x y ≡ slice_cmp nat_cmp (Self.bytes_of x) (Self.bytes_of y) };
}

/// Reads a value that needs no configuration, and moves the slice past it. `OutOfMemory` only where
/// an allocation failed. After an error the slice is as before.
pub fn read_value<T: ReadExt>(alloc: Global, input: &mut &[u8]) -> Result<T, Error>
    // The value's encoding is a prefix of the input, and the slice is then the bytes after it.
    ensures taken { IfOk result (λ x. T.fits tt x ×
        (input.old.now ≡ T.encoding x ++ input.new.now)) }
    // A value whose encoding is a prefix of the input is read, unless an allocation fails.
    ensures again { (x : T) (rest : List ℕ) → T.is_value x → input.old.now ≡ T.encoding x ++ rest →
        Gives T.takes_memory result input.old.now input.new.now (Ok (x, rest)) }
    // Which error it is.
    ensures refusal { Gives T.takes_memory result input.old.now input.new.now
        (T.reading tt input.old.now) }
{
    known_bytes(*input);
    T::read_cfg(alloc, input, &())
}

/// Reads a value whose encoding is all of the bytes. `ExtraData` where bytes are left after it, and
/// `OutOfMemory` only where an allocation failed.
pub fn decode_cfg<T: Read + Drop>(alloc: Global, bytes: &[u8], cfg: &T::Cfg) -> Result<T, Error>
    // What is read has these bytes as its encoding,
    ensures taken { IfOk result (λ x. T.fits cfg.now x × (bytes.now ≡ T.encoding x)) }
    // and each value with this encoding is read, unless an allocation fails.
    ensures again { (x : T) → T.fits cfg.now x → bytes.now ≡ T.encoding x →
        GivesAll T.takes_memory result (Ok x) }
    // Which error it is.
    ensures refusal { GivesAll T.takes_memory result (all_of (T.reading cfg.now) bytes.now) }
    // No encoding is a prefix of another, so no two values share one.
    ensures one { (x y : T) (rest more : List ℕ) → T.fits cfg.now x → T.fits cfg.now y →
        T.encoding x ++ rest ≡ T.encoding y ++ more → (x ≡ y) × (rest ≡ more) }
{
    read_all(alloc, bytes, cfg)
}

fn read_all<T: Read + Drop>(alloc: Global, bytes: &[u8], cfg: &T::Cfg) -> Result<T, Error>
    ensures { GivesAll T.takes_memory result (all_of (T.reading cfg.now) bytes.now) }
{
    let mut rest: &[u8] = bytes;
    let value = T::read_cfg(alloc, &mut rest, cfg)?;
    if !rest.is_empty() {
        return Err(Error::ExtraData);
    }
    Ok(value)
}

/// Reads a value that needs no configuration and whose encoding is all of the bytes. `ExtraData`
/// where bytes are left after it, and `OutOfMemory` only where an allocation failed.
pub fn decode<T: ReadExt + Drop>(alloc: Global, bytes: &[u8]) -> Result<T, Error>
    ensures taken { IfOk result (λ x. T.fits tt x × (bytes.now ≡ T.encoding x)) }
    // Each value that was written is read again, unless an allocation fails.
    ensures again { (x : T) → T.is_value x → bytes.now ≡ T.encoding x →
        GivesAll T.takes_memory result (Ok x) }
    ensures refusal { GivesAll T.takes_memory result (all_of (T.reading tt) bytes.now) }
    // No encoding is a prefix of another.
    ensures one { (x y : T) (rest more : List ℕ) → T.is_value x → T.is_value y →
        T.encoding x ++ rest ≡ T.encoding y ++ more → (x ≡ y) × (rest ≡ more) }
{
    decode_cfg(alloc, bytes, &())
}
