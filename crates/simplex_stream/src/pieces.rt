//! Pieces of a stream, as a reader gives them.

ghost use Rattle.std.specs.Prelude.{◌≡◌, ◌↔◌, ◌<◌, ◌≤◌, ℕ, List, false, IsTrue, Ok, Err, IfOk, IfErr, OnErr, length, take, drop, vec_len};
ghost use Rattle.std.specs.Io.KnownBytes.{Consumes, IsAtEnd, Keeps};
ghost use Rattle.simplex_stream.specs.Watched.{inner_of, has_failed};

use crate::run_error::RunError;
use crate::watched::Watched;
use std::alloc::{AllocError, Global};
use std::io::Read;

/// How many bytes a piece has at most: what a read asks for.
const PIECE: usize = 65536;

/// Room for a piece of 65,536 bytes.
pub fn make_piece(alloc: Global) -> Result<Vec<u8>, AllocError>
    ensures { IfOk result (λ piece. vec_len piece ≡ 65536) }
{
    vec![in alloc; 0u8; PIECE]
}

/// Reads once. Returns how many bytes were read, 0 only at the end.
pub fn read_some<R: Read>(reader: &mut Watched<R>, piece: &mut [u8]) -> Result<usize, RunError>
    requires well { has_failed reader.old ≡ false }
    requires room { 0 < length piece.old }
    ensures within { IfOk result (λ count. count ≤ length piece.new) }
    ensures bytes { IfOk result (λ count.
        Consumes (R.remaining (inner_of reader.old)) (R.remaining (inner_of reader.new))
        (take count piece.new)) }
    ensures end { result ≡ Ok 0 → IsAtEnd (R.remaining (inner_of reader.new)) }
    ensures kept { OnErr result
        (Keeps (R.remaining (inner_of reader.old)) (R.remaining (inner_of reader.new))) }
    ensures failed { IsTrue (has_failed reader.new) ↔ (result ≡ Err RunError.Read) }
    ensures error { IfErr result (λ e. e ≡ RunError.Read) }
{
    match reader.read(piece) {
        Ok(count) => Ok(count),
        Err(_) => Err(RunError::Read),
    }
}

/// Reads until the piece is full or a read returns 0. Returns how many bytes were read. After an error fewer bytes than the
/// piece has were consumed.
pub fn fill<R: Read>(reader: &mut Watched<R>, piece: &mut [u8]) -> Result<usize, RunError>
    requires { has_failed reader.old ≡ false }
    ensures within { IfOk result (λ count. count ≤ length piece.new) }
    ensures bytes { IfOk result (λ count.
        Consumes (R.remaining (inner_of reader.old)) (R.remaining (inner_of reader.new))
        (take count piece.new)) }
    ensures end { IfOk result (λ count. count < length piece.new →
        IsAtEnd (R.remaining (inner_of reader.new))) }
    ensures kept { OnErr result ((bytes : List ℕ) × (length bytes < length piece.new) ×
        Consumes (R.remaining (inner_of reader.old)) (R.remaining (inner_of reader.new)) bytes) }
    ensures failed { IsTrue (has_failed reader.new) ↔ (result ≡ Err RunError.Read) }
    ensures error { IfErr result (λ e. e ≡ RunError.Read) }
{
    let mut count = 0;
    'reads: while count < piece.len() {
        match reader.read(&mut piece[count..]) {
            Ok(0) => return Ok(count),
            Ok(taken) => count += taken,
            Err(_) => return Err(RunError::Read),
        }
    }
    Ok(count)
}

/// Drops this many bytes at the start.
pub fn drop_front(bytes: &mut Vec<u8>, count: usize)
    requires { count ≤ vec_len bytes.old }
    ensures { bytes.new.items ≡ drop count bytes.old.items }
{
    bytes.drain(..count);
}
