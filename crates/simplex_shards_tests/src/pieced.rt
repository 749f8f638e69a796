//! The rows and the parts of a stream that comes in pieces, beside those of the whole stream.

use crate::begun::{IN_ORDER, Message, TAILS, cuts, stream_of};
use simplex_audit::audit::Fault;
use simplex_shards::cut::Cut;
use simplex_shards::index::{Row, index};
use simplex_shards::pieces::Cutter;
use simplex_shards::split::split;
use std::alloc::Global;
use std::process::Abort;
use std::test::Fail;

/// The bound under which certificates are read.
const BOUND: u32 = 4;

/// The fields of rows, one row after another.
fn fields(alloc: Global, rows: &[Row]) -> Result<Vec<[u64; 6]>, Fail> {
    let mut fields = Vec::new(alloc);
    for row in rows {
        let (place, length) = (row.place as u64, row.length as u64);
        let (attestations, kind) = (row.attestations as u64, u64::from(row.kind));
        fields.push([row.epoch, row.view, place, length, attestations, kind])?;
    }
    Ok(fields)
}

/// The rows of a stream that comes in pieces of so many bytes, and its fault.
fn rows_in(
    alloc: Global,
    stream: &[u8],
    size: usize,
) -> Result<(Vec<[u64; 6]>, Option<Fault>), Fail> {
    let mut cutter = Cutter::new::<Message>(alloc, BOUND);
    let mut rows = Vec::new(alloc);
    for piece in stream.chunks(size.max(1)) {
        if piece.len() > usize::MAX - cutter.fed() {
            return Err("too many bytes".into());
        }
        let mut more = fields(alloc, &cutter.rows::<Message>(piece)?)?;
        rows.append(&mut more)?;
    }
    Ok((rows, cutter.fault::<Message>()?))
}

/// The parts of a stream that comes in pieces of so many bytes, joined class by class; how many messages it has, and its fault.
fn parts_in(
    alloc: Global,
    cut: &Cut,
    stream: &[u8],
    size: usize,
) -> Result<(Vec<Vec<u8>>, usize, Option<Fault>), Fail> {
    let mut cutter = Cutter::new::<Message>(alloc, BOUND);
    let mut parts: Vec<Vec<u8>> = Vec::new(alloc);
    for _ in 0..cut.classes() {
        parts.push(Vec::new(alloc))?;
    }
    for piece in stream.chunks(size.max(1)) {
        if piece.len() > usize::MAX - cutter.fed() {
            return Err("too many bytes".into());
        }
        let more = cutter.parts::<Message>(cut, piece)?;
        if more.len() != parts.len() {
            return Err("not a part for each class".into());
        }
        for (part, next) in parts.iter_mut().zip(&more) {
            part.extend_from_slice(next)?;
        }
    }
    Ok((parts, cutter.read(), cutter.fault::<Message>()?))
}

#[test]
fn ample(rt: HostRuntime) -> Result<(), Fail> {
    let alloc = rt.alloc();
    let stream = stream_of(alloc, &IN_ORDER, TAILS[1])?;
    let [cut, _] = cuts(2);
    let (rows, fault) = rows_in(alloc, &stream, 30)?;
    let (parts, read, found) = parts_in(alloc, &cut, &stream, 30)?;
    assert_eq!(rt; (rows.len(), parts.len(), read), (11, 2, 11));
    assert_eq!(rt; fault, found);
    Ok(())
}

/// The rows of pieces of every size are those of the whole stream.
fn compare_rows(rt: &impl Abort, alloc: Global, stream: &[u8]) -> Result<(), Fail> {
    let table = index::<Message>(alloc, BOUND, stream)?;
    let wanted = (fields(alloc, &table.rows)?, table.fault);
    for size in 1..100 {
        assert!(rt; rows_in(alloc, stream, size)? == wanted, "pieces of {size}");
    }
    Ok(())
}

/// The parts of pieces of every size are those of the whole stream.
fn compare_parts(rt: &impl Abort, alloc: Global, cut: &Cut, stream: &[u8]) -> Result<(), Fail> {
    let shards = split::<Message>(alloc, BOUND, cut, stream)?;
    let wanted = (shards.parts, shards.read, shards.fault);
    for size in 1..100 {
        assert!(rt;
            parts_in(alloc, cut, stream, size)? == wanted,
            "pieces of {size}"
        );
    }
    Ok(())
}

#[test]
fn ample_pieces_of_every_size(rt: HostRuntime) -> Result<(), Fail> {
    let alloc = rt.alloc();
    for tail in &TAILS {
        let stream = stream_of(alloc, &IN_ORDER, tail)?;
        compare_rows(&rt, alloc, &stream)?;
        for cut in &cuts(3) {
            compare_parts(&rt, alloc, cut, &stream)?;
        }
    }
    Ok(())
}
