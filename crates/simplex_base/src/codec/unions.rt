//! Unions: values that are encoded as a tag of one byte, and then the body that belongs to the tag.

ghost use Rattle.std.specs.Prelude.{◌≡◌, ◌++◌, ◌∷◌, ℕ, Bool, List, OnOk, OnErr};
ghost use Rattle.simplex_base.specs.Reading.{Reading, Gives};
ghost use Rattle.simplex_base.specs.Union.{union_at};

use crate::codec::Write;
use crate::codec::error::Error;
use crate::codec::parts::or_restore;
use std::alloc::{AllocError, Global};

/// Appends a tag of one byte and then a value. `AllocError` only where an allocation failed; the
/// buffer is then as before.
pub fn write_tagged<T: Write>(tag: u8, body: &T, buf: &mut Vec<u8>) -> Result<(), AllocError>
    ensures ok { OnOk result (buf.new.items ≡ buf.old.items ++ (tag ∷ T.encoding body.now)) }
    ensures err { OnErr result (buf.new.items ≡ buf.old.items) }
{
    let start = buf.len();
    buf.push(tag)?;
    let done = body.write(buf);
    or_restore(buf, start, done)
}

/// A union: its tags, and the body of each.
pub trait Tagged {
    /// What bounds the values that are read.
    type Cfg;

    /// What reading gives after a tag.
    ghost branches: { Self.Cfg → ℕ → List ℕ → Reading Self };

    /// Whether reading allocates. Where it doesn't, `OutOfMemory` is never returned.
    ghost takes_memory: { Bool };

    /// Reads the body of this tag and moves the slice past it. `Invalid` where the union has no
    /// such tag. `OutOfMemory` only where an allocation failed. After an error the slice is as
    /// before.
    fn read_body(alloc: Global, tag: u8, input: &mut &[u8], cfg: &Self::Cfg) -> Result<Self, Error>
        ensures { Gives takes_memory result input.old.now input.new.now
            (branches cfg.now tag input.old.now) };
}

/// Reads a tag and then its body, and moves the slice past both. `EndOfBuffer` where the input is
/// empty. `OutOfMemory` only where an allocation failed. After an error the slice is as before.
#[inline(always)]
pub fn read_tagged<T: Tagged>(alloc: Global, input: &mut &[u8], cfg: &T::Cfg) -> Result<T, Error>
    ensures { Gives T.takes_memory result input.old.now input.new.now
        (union_at (T.branches cfg.now) input.old.now) }
{
    let bytes: &[u8] = *input;
    let [tag, body @ ..] = bytes else {
        return Err(Error::EndOfBuffer);
    };
    let mut rest: &[u8] = body;
    let value = T::read_body(alloc, *tag, &mut rest, cfg);
    if value.is_ok() {
        *input = rest;
    }
    value
}
