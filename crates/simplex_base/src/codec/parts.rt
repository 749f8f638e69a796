//! Values that are encoded part after part, and values of a fixed size.

ghost use Rattle.std.specs.Prelude.{◌≡◌, ◌++◌, ◌+◌, ◌-◌, ◌<◌, ◌≤◌, ◌^◌, ◌||◌, None, Ok, false, min, IfSome, OnOk, OnErr, length, take};
ghost use Rattle.simplex_base.specs.Reading.{IsBytes};
ghost use Rattle.simplex_base.specs.Format.{both_encoded, both_at, BothAre, IsFixed, fixed_at};
ghost use Rattle.simplex_base.specs.FormatLaws.{both_lawful};

use crate::codec::error::Error;
use crate::codec::{EncodeSize, Encoding, Fixed, Read, ReadExt, Write};
use std::alloc::{AllocError, Global};

/// The value that was read; after an error the function ends with it. It is `?`, written as a match: the borrow checker does
/// not follow `?` behind a slice that a call moves, and each `?` would clear and copy what was read once more.
#[macro_export]
macro_rules! or_return {
    ($result:expr) => {
        match $result {
            Ok(value) => value,
            Err(error) => return Err(error),
        }
    };
}

/// Truncates the buffer to its old length where a write failed.
pub(super) fn or_restore(
    buf: &mut Vec<u8>,
    start: usize,
    done: Result<(), AllocError>,
) -> Result<(), AllocError>
    requires { start ≤ length buf.old.items }
    ensures same { result ≡ done }
    ensures ok { OnOk result (buf.new.items ≡ buf.old.items) }
    ensures err { OnErr result (buf.new.items ≡ take start buf.old.items) }
{
    if done.is_err() {
        buf.truncate(start);
    }
    done
}

/// Appends one value and then another. `AllocError` only where an allocation failed; the buffer is
/// then as before.
pub fn write_both<A: Write, B: Write>(
    first: &A,
    second: &B,
    buf: &mut Vec<u8>,
) -> Result<(), AllocError>
    ensures ok { OnOk result (buf.new.items ≡ buf.old.items ++
        (A.encoding first.now ++ B.encoding second.now)) }
    ensures err { OnErr result (buf.new.items ≡ buf.old.items) }
{
    let start = buf.len();
    first.write(buf)?;
    let done = second.write(buf);
    or_restore(buf, start, done)
}

/// The number of bytes of one value and then another. It stops at 2^64 - 1.
pub fn size_both<A: EncodeSize, B: EncodeSize>(first: &A, second: &B) -> usize
    ensures size { result ≡ min (length (both_encoded A.encoding B.encoding
        (first.now, second.now))) (2 ^ 64 - 1) }
    ensures values { BothAre A.is_value B.is_value (first.now, second.now) }
    ensures limited { result ≤ A.limit + B.limit }
{
    first.encode_size().saturating_add(second.encode_size())
}

impl<A: Encoding, B: Encoding> Encoding for (A, B) {
    ghost is_value = { BothAre A.is_value B.is_value };

    ghost encoding = { both_encoded A.encoding B.encoding };
}

impl<A: Write, B: Write> Write for (A, B) {
    fn write(&self, buf: &mut Vec<u8>) -> Result<(), AllocError> {
        write_both(&self.0, &self.1, buf)
    }
}

/// The first part needs no configuration; the second's is the pair's.
impl<A: Read<Cfg = ()> + Drop, B: Read> Read for (A, B) {
    type Cfg = B::Cfg;

    ghost fits = { λ cfg. BothAre (A.fits tt) (B.fits cfg) };

    ghost reading = { λ cfg. both_at (A.reading tt) (B.reading cfg) };

    ghost takes_memory = { A.takes_memory || B.takes_memory };

    fn read_cfg(alloc: Global, input: &mut &[u8], cfg: &B::Cfg) -> Result<Self, Error> {
        let mut rest: &[u8] = *input;
        let first = A::read_cfg(alloc, &mut rest, &())?;
        let second = B::read_cfg(alloc, &mut rest, cfg)?;
        *input = rest;
        Ok((first, second))
    }

    fn least_size(alloc: Global, bytes: &[u8], cfg: &B::Cfg) -> usize {
        let mut rest: &[u8] = known_bytes(bytes);
        let Ok(_) = A::read_cfg(alloc, &mut rest, &()) else {
            return bytes.len();
        };
        let first = bytes.len() - rest.len();
        first.saturating_add(B::least_size(alloc, rest, cfg))
    }

    ghost lawful = { λ cfg. both_lawful (A.lawful tt) (B.lawful cfg) };
}

impl<A: ReadExt + Drop, B: ReadExt> ReadExt for (A, B) {
    ghost readable = { λ x both. (A.readable x.0 both.0, B.readable x.1 both.1) };
}

impl<T: Fixed> Encoding for T {
    ghost is_value = { λ x. IsFixed T.SIZE (T.bytes_of x) };

    ghost encoding = { T.bytes_of };
}

impl<T: Fixed> Write for T {
    fn write(&self, buf: &mut Vec<u8>) -> Result<(), AllocError> {
        buf.extend_from_slice(self.as_bytes())
    }
}

impl<T: Fixed> EncodeSize for T {
    ghost limit = { 65535 };

    fn encode_size(&self) -> usize {
        self.as_bytes().len()
    }
}

impl<T: Fixed> Read for T {
    type Cfg = ();

    ghost fits = { λ _ x. IsFixed T.SIZE (T.bytes_of x) };

    ghost reading = { λ _. fixed_at T.SIZE T.of_bytes };

    ghost takes_memory = { false };

    fn read_cfg(_alloc: Global, input: &mut &[u8], _cfg: &()) -> Result<Self, Error> {
        let Some((front, rest)) = split_fixed::<T>(*input) else {
            return Err(Error::EndOfBuffer);
        };
        *input = rest;
        Ok(T::from_bytes(front))
    }

    fn least_size(_alloc: Global, _bytes: &[u8], _cfg: &()) -> usize {
        T::SIZE
    }

    ghost lawful = { λ _. T.lawful };
}

impl<T: Fixed> ReadExt for T {
    ghost readable = { λ x value. value };
}

/// The bytes of a value of a fixed size at the front of others, and the bytes after it; `None` if there are fewer. It copies
/// none of them.
#[inline(always)]
pub fn split_fixed<T: Fixed>(bytes: &[u8]) -> Option<(&[u8], &[u8])>
    ensures size { IfSome result (λ x. length x.0.now ≡ T.SIZE) }
    ensures gives { IfSome result (λ x. fixed_at T.SIZE T.of_bytes bytes.now ≡ Ok (T.of_bytes x.0.now, x.1.now)) }
    ensures none { result ≡ None → length bytes.now < T.SIZE }
{
    if bytes.len() < T::SIZE {
        return None;
    }
    Some(bytes.split_at(T::SIZE))
}

/// The same bytes, each of which is below 256. Of bytes behind a reference to a slice, and of a slice that changes, the
/// prover knows that only if a call says so.
pub fn known_bytes(bytes: &[u8]) -> &[u8]
    ensures same { result.now ≡ bytes.now }
    ensures range { IsBytes bytes.now }
{
    bytes
}
