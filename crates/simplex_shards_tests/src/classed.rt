//! The ranges of all classes of a stream in one reading, beside those of its rows; and messages that are not decoded.

ghost use Rattle.std.specs.Prelude.{◌+◌, ◌<◌, ◌^◌, All};

use crate::begun::{IN_ORDER, MESSAGES, Message, TAILS, cuts, stream_of};
use simplex_shards::classes::class_ranges;
use simplex_shards::cut::Cut;
use simplex_shards::index::{Row, index};
use simplex_shards::peek::Peek;
use simplex_shards::ranges::{Range, ranges};
use std::alloc::Global;
use std::test::Fail;

/// The bound under which certificates are read.
const BOUND: u32 = 4;

/// Evidence of each kind, which is decoded.
const EVIDENCE: [&[u8]; 3] = [
    &[7, 0, 8, 5, 6, 1, 0xaa, 0, 8, 5, 7, 1, 0xaa],
    &[8, 0, 9, 5, 6, 2, 0xaa, 0, 9, 5, 7, 2, 0xaa],
    &[9, 0, 10, 1, 0xaa, 0, 10, 5, 6, 1, 0xaa],
];

/// A notarize for each way in which it is none: it ends early, or its signer is no number.
const BROKEN: [&[u8]; 3] = [
    &[0, 0, 8, 5, 6, 1],
    &[0, 0, 8, 5, 6, 0x81, 0, 0xaa],
    &[0, 0, 8, 5],
];

/// A notarization for each way in which it is none under the bound: its signers do not ascend, one is at the bound, its count
/// is 0 or above the bound, or it ends early.
const UNLISTED: [&[u8]; 6] = [
    &[1, 0, 11, 5, 6, 2, 2, 0xaa, 1, 0xaa],
    &[1, 0, 11, 5, 6, 2, 1, 0xaa, 1, 0xaa],
    &[1, 0, 11, 5, 6, 2, 1, 0xaa, 4, 0xaa],
    &[1, 0, 11, 5, 6, 0],
    &[
        1, 0, 11, 5, 6, 5, 0, 0xaa, 1, 0xaa, 2, 0xaa, 3, 0xaa, 4, 0xaa,
    ],
    &[1, 0, 11, 5, 6, 2, 1, 0xaa, 2],
];

/// The fields of ranges, one range after another.
fn fields(alloc: Global, ranges: &[Range]) -> Result<Vec<(usize, usize)>, Fail> {
    let mut fields = Vec::new(alloc);
    for range in ranges {
        fields.push((range.place, range.length))?;
    }
    Ok(fields)
}

/// The fields of the ranges of a class that the rows have.
fn fields_of(
    alloc: Global,
    rows: &[Row],
    cut: &Cut,
    class: u32,
) -> Result<Vec<(usize, usize)>, Fail>
    requires { All (λ row. row.place + row.length < 2 ^ 64) rows.now }
{
    fields(alloc, &ranges(alloc, rows, cut, class)?)
}

/// Whether one reading finds the ranges of each class that the rows have, as many messages, and the same fault.
fn agrees(alloc: Global, cut: &Cut, stream: &[u8]) -> Result<bool, Fail> {
    let table = index::<Message>(alloc, BOUND, stream)?;
    let found = class_ranges::<Message>(alloc, BOUND, cut, stream)?;
    let mut same = found.read == table.rows.len() && found.fault == table.fault;
    for class in 0..cut.classes() {
        let wanted = fields_of(alloc, &table.rows, cut, class)?;
        same = match found.ranges.get(class as usize) {
            Some(ranges) => same && fields(alloc, ranges)? == wanted,
            None => false,
        };
    }
    Ok(same)
}

#[test]
fn ample(rt: HostRuntime) -> Result<(), Fail> {
    let alloc = rt.alloc();
    for broken in BROKEN.iter().chain(&UNLISTED) {
        let mut stream = stream_of(alloc, &IN_ORDER, TAILS[0])?;
        for evidence in &EVIDENCE {
            stream.extend_from_slice(evidence)?;
            stream.extend_from_slice(MESSAGES[3])?;
        }
        stream.extend_from_slice(broken)?;
        for cut in &cuts(3) {
            assert_eq!(rt; agrees(alloc, cut, &stream)?, true, "{broken:?}");
        }
    }
    Ok(())
}

#[test]
fn ample_votes_and_certificates_are_not_decoded(rt: HostRuntime) -> Result<(), Fail> {
    let alloc = rt.alloc();
    for message in &MESSAGES {
        let table = index::<Message>(alloc, BOUND, message)?;
        let Some(row) = table.rows.first() else {
            return Err("no message".into());
        };
        let found = Message::peek(message, BOUND).map(|peeked| (peeked.round, peeked.length));
        assert_eq!(rt; found, Some((row.round(), row.length)));
    }
    for message in EVIDENCE.iter().chain(&BROKEN).chain(&UNLISTED) {
        assert_eq!(rt;
            Message::peek(message, BOUND).is_none(),
            true,
            "{message:?}"
        );
    }
    Ok(())
}
