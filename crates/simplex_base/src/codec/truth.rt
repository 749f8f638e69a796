//! Booleans.

ghost use Rattle.std.specs.Prelude.{false};
ghost use Rattle.simplex_base.specs.Format.{truth};
ghost use Rattle.simplex_base.specs.FormatLaws.{truth_lawful};

use crate::codec::error::Error;
use crate::codec::{EncodeSize, Encoding, Read, ReadExt, Write};
use std::alloc::{AllocError, Global};

/// One byte: `00` is false, `01` is true, and any other is refused by `InvalidBool`.
impl Encoding for bool {
    ghost is_value = { truth.is_value };

    ghost encoding = { truth.encoding };
}

impl Write for bool {
    fn write(&self, buf: &mut Vec<u8>) -> Result<(), AllocError> {
        buf.push(u8::from(*self))?;
        Ok(())
    }
}

impl EncodeSize for bool {
    ghost limit = { 1 };

    fn encode_size(&self) -> usize {
        1
    }
}

impl Read for bool {
    type Cfg = ();

    ghost fits = { λ _. truth.is_value };

    ghost reading = { λ _. truth.reading };

    ghost takes_memory = { false };

    fn read_cfg(_alloc: Global, input: &mut &[u8], _cfg: &()) -> Result<Self, Error> {
        let bytes: &[u8] = *input;
        let [byte, rest @ ..] = bytes else {
            return Err(Error::EndOfBuffer);
        };
        let value = match *byte {
            0 => false,
            1 => true,
            _ => return Err(Error::InvalidBool),
        };
        *input = rest;
        Ok(value)
    }

    ghost lawful = { λ _. truth_lawful };
}

impl ReadExt for bool {
    ghost readable = { λ x value. value };
}
