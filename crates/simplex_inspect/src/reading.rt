//! The lines of the messages that begin some bytes.

ghost use Rattle.std.specs.Prelude.{◌≡◌, ◌+◌, ◌<◌, ◌^◌, length, IfOk, string_bytes};
ghost use Rattle.simplex_inspect.specs.Inspected.{AreShown, bound_under};

use crate::basis::Inspected;
use crate::line::line;
use simplex_base::codec::{Encoding, Error};
use simplex_evidence::types::Activity;
use simplex_scheme::committees::Committees;
use simplex_scheme::scheme::{CertificateScheme, Digest, Listing};
use simplex_stream::messages::{Visitor, for_each_message};
use std::alloc::{AllocError, Global};

/// What was read of some bytes.
#[derive(Drop)]
pub struct ReadLines<'a> {
    /// The lines of the messages.
    pub text: String,
    /// The offset of the bytes after the last message.
    pub offset: usize,
    /// The bytes after the last message.
    pub rest: &'a [u8],
    /// The error of reading a message there, if anything is left.
    pub stop: Option<Error>,
}

/// Writes the lines of messages one after another.
#[derive(Drop)]
pub struct LineWriter {
    /// The lines so far.
    pub text: String,
    /// The offset of the byte behind the last message.
    pub offset: usize,
}

impl<S: Listing<D>, D: Digest> Visitor<Activity<S, D>> for LineWriter {
    ghost use Rattle.std.proofs.Common.{arith};
    ghost use Rattle.simplex_inspect.specs.Writing.{WritesLines};
    ghost use Rattle.simplex_inspect.specs.WritingLaws.{writes_none, writes_more};
    ghost use Rattle.simplex_stream.specs.PlaceLaws.{room_behind};

    type Context = Option<Committees<S>>;

    ghost follows = { λ committees. WritesLines (⟦<S as Inspected<D>>⟧.lines committees) };

    ghost has_room = { λ state size. state.offset + size < 2 ^ 64 };

    fn take(
        &mut self,
        alloc: Global,
        committees: &Option<Committees<S>>,
        size: usize,
        message: &Activity<S, D>,
    ) -> Result<(), AllocError> {
        let one = line(alloc, committees, self.offset, size, message)?;
        self.text.push_str(one.as_str())?;
        self.offset += size;
        Ok(())
    }

    ghost none = { λ committees. writes_none (⟦<S as Inspected<D>>⟧.lines committees) };

    ghost more = { λ committees. writes_more (⟦<S as Inspected<D>>⟧.lines committees) };

    ghost less = { λ state n k room. Prim.omega (arith, room) };

    ghost left = { λ committees m a b n one. room_behind ⟦<Activity<S, D> as Encoding>⟧.encoding
        a.offset b.offset n m one.offset_is };
}

/// The bound under which certificates are read: the number of participants of the greatest committee, and without
/// committees the greatest number that a committee can have, 4,294,967,295.
pub(crate) fn reading_bound<S: CertificateScheme>(committees: &Option<Committees<S>>) -> u32
    ensures { result ≡ bound_under S.keys committees.now }
{
    match committees {
        Some(committees) => committees.bound(),
        None => u32::MAX,
    }
}

/// Reads the messages at the start of some bytes, as many as there are, and makes the line of each. `offset` is that of the
/// first byte in the stream; with the number of bytes it is below 2^64. `AllocError` where an allocation failed, also in
/// reading a message.
pub fn read_lines<'a, S: Listing<D>, D: Digest>(
    alloc: Global,
    committees: &Option<Committees<S>>,
    offset: usize,
    bytes: &'a [u8],
) -> Result<ReadLines<'a>, AllocError>
    requires { offset + length bytes.now < 2 ^ 64 }
    ensures shown { IfOk result (λ r.
        AreShown (⟦<S as Inspected<D>>⟧.lines committees.now) bytes.now r.rest.now
        offset r.offset r.stop (string_bytes r.text)) }
    ensures whole { IfOk result (λ r. r.offset + length r.rest.now ≡ offset + length bytes.now) }
{
    let bound = reading_bound(committees);
    let mut writer = LineWriter {
        text: String::new(alloc),
        offset,
    };
    let progress = for_each_message::<Activity<S, D>, LineWriter>(
        alloc,
        committees,
        bound,
        bytes,
        &mut writer,
    )?;
    let LineWriter { text, offset } = writer;
    Ok(ReadLines {
        text,
        offset,
        rest: progress.rest,
        stop: progress.stop,
    })
}
