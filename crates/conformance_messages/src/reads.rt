//! Reads of values of each type.

ghost use Rattle.std.specs.Prelude.{◌<◌, length};

use crate::memory;
use crate::refusals::name;
use crate::vectors::{Unanswered, bytes, small};
use crate::votes::encoded;
use simplex_base::codec::{Encode, Error, Read, ReadExt, decode, decode_cfg, read_value};
use simplex_base::positions::{Epoch, Participant, Round, View};
use simplex_evidence::types::{
    Activity, ConflictingFinalize, ConflictingNotarize, NullifyFinalize,
};
use simplex_scheme::scheme::{
    Attestation, CertificateScheme, Digest, Proposal, SchemeTypes, Sha256Digest,
};
use simplex_schemes::marked::{Marked, MarkedDigest};
use simplex_schemes::plain::{Plain, PlainKey};
use simplex_votes::types::{
    Artifact, Certificate, Context, Finalization, Finalize, Notarization, Notarize, Nullification,
    Nullify, Vote,
};
use std::alloc::{AllocError, Global};

/// What is asked of some bytes.
#[derive(Clone, Copy)]
pub(crate) enum Asked {
    /// The value that a prefix of them encodes.
    Read,
    /// The value that all of them encode.
    Decode,
    /// How each of their prefixes is refused, and they themselves with each bit flipped.
    Cut,
}

/// The value that a prefix of the bytes encodes, or all of them, of a type that is read without a bound and so without an
/// allocation.
fn read_free<T: ReadExt + Encode + Clone>(
    alloc: Global,
    asked: Asked,
    bytes: &[u8],
) -> Result<String, Unanswered> {
    if let Asked::Cut = asked {
        return Ok(cut::<T>(alloc, false, &(), bytes)?);
    }
    let mut rest: &[u8] = bytes;
    memory::ends(alloc);
    let read = match asked {
        Asked::Read => read_value::<T>(alloc, &mut rest),
        _ => decode::<T>(alloc, bytes),
    };
    memory::returns(alloc);
    match read {
        Ok(value) => text_of(alloc, asked, &value.clone()?, rest.len()),
        Err(error) => Ok(name(alloc, error)?),
    }
}

/// The same of a type that is read under a bound.
fn read_under<T: Read + Encode + Drop, C: FnOnce(&T) -> Result<T, AllocError>>(
    alloc: Global,
    asked: Asked,
    bound: &T::Cfg,
    bytes: &[u8],
    clone: C,
) -> Result<String, Unanswered>
    requires { C.IsAlwaysCallable clone }
{
    let mut rest: &[u8] = bytes;
    let read = match asked {
        Asked::Read => T::read_cfg(alloc, &mut rest, bound),
        Asked::Decode => decode_cfg::<T>(alloc, bytes, bound),
        Asked::Cut => return Ok(cut::<T>(alloc, true, bound, bytes)?),
    };
    match read {
        Ok(value) => text_of(alloc, asked, &clone(&value)?, rest.len()),
        Err(error) => Ok(name(alloc, error)?),
    }
}

/// The answer of a value: how long its encoding is, the encoding, and how many bytes are left behind it.
fn text_of<T: Encode>(
    alloc: Global,
    asked: Asked,
    value: &T,
    left: usize,
) -> Result<String, Unanswered> {
    memory::ends(alloc);
    let size = value.encode_size();
    memory::returns(alloc);
    let encoding = encoded(alloc, value)?;
    match asked {
        Asked::Read => Ok(format!(in alloc; "size {size}, {encoding}, left {left}")?),
        _ => Ok(format!(in alloc; "size {size}, {encoding}")?),
    }
}

/// A letter for each prefix of the bytes, and then for the bytes with each of their bits flipped, the lowest of the first
/// byte first. `bounded` says whether the type is read under a bound.
fn cut<T: Read + Drop>(
    alloc: Global,
    bounded: bool,
    cfg: &T::Cfg,
    bytes: &[u8],
) -> Result<String, AllocError> {
    let mut letters = String::new(alloc);
    for end in 0..bytes.len() {
        letters.push_str(letter::<T>(alloc, bounded, cfg, &bytes[..end])?)?;
    }
    letters.push_str(" ")?;
    for place in 0..bytes.len() {
        letters.push_str(turned::<T>(alloc, bounded, cfg, bytes, place)?.as_str())?;
    }
    Ok(letters)
}

/// The letters for the bytes with each bit of one of them flipped.
fn turned<T: Read + Drop>(
    alloc: Global,
    bounded: bool,
    cfg: &T::Cfg,
    bytes: &[u8],
    place: usize,
) -> Result<String, AllocError>
    requires { place < length bytes.now }
{
    let mut letters = String::new(alloc);
    for bit in [1, 2, 4, 8, 16, 32, 64, 128] {
        let mut changed = bytes.to_vec(alloc)?;
        changed[place] ^= bit;
        letters.push_str(letter::<T>(alloc, bounded, cfg, changed.as_slice())?)?;
    }
    Ok(letters)
}

/// The letter for a read of a prefix of the bytes: `r` where there is a value, `E` for `EndOfBuffer`, `V` for
/// `InvalidVarint`, `B` for `InvalidBool`, `I` for any other refusal, and `!` where the slice was moved though nothing was
/// read. Where the type is read without a bound the read allocates nothing.
fn letter<T: Read + Drop>(
    alloc: Global,
    bounded: bool,
    cfg: &T::Cfg,
    bytes: &[u8],
) -> Result<&'static str, AllocError> {
    let mut rest: &[u8] = bytes;
    if !bounded {
        memory::ends(alloc);
    }
    let read = T::read_cfg(alloc, &mut rest, cfg);
    memory::returns(alloc);
    match read {
        Ok(_) => Ok("r"),
        Err(Error::OutOfMemory) => Err(AllocError),
        Err(_) if rest.len() != bytes.len() => Ok("!"),
        Err(Error::EndOfBuffer) => Ok("E"),
        Err(Error::InvalidVarint) => Ok("V"),
        Err(Error::InvalidBool) => Ok("B"),
        Err(_) => Ok("I"),
    }
}

/// The answer to a test vector that asks this of a value of this kind, read under this bound where it has certificates.
pub(crate) fn read_vector(
    alloc: Global,
    asked: Asked,
    kind: &str,
    bound: &str,
    encoding: &[&str],
) -> Result<String, Unanswered> {
    let bound = small(bound)?;
    let encoding = bytes(alloc, encoding)?;
    let bytes = encoding.as_slice();
    match kind {
        "epoch" => read_free::<Epoch>(alloc, asked, bytes),
        "view" => read_free::<View>(alloc, asked, bytes),
        "participant" => read_free::<Participant>(alloc, asked, bytes),
        "round" => read_free::<Round>(alloc, asked, bytes),
        "context" => read_free::<Context<Sha256Digest, PlainKey>>(alloc, asked, bytes),
        _ => match kind.strip_prefix("plain-") {
            Some(kind) => read_message::<Plain, Sha256Digest>(alloc, asked, kind, bound, bytes),
            None => read_message::<Marked, MarkedDigest>(alloc, asked, kind, bound, bytes),
        },
    }
}

/// The same of a message, or a part of one, of a scheme and a digest. Types with certificates are read under the bound.
fn read_message<S: CertificateScheme, D: Digest>(
    alloc: Global,
    asked: Asked,
    kind: &str,
    bound: u32,
    bytes: &[u8],
) -> Result<String, Unanswered> {
    match kind {
        "listed" => read_under(alloc, asked, &bound, bytes, S::Certificate::clone),
        "notarization" => read_under(alloc, asked, &bound, bytes, Notarization::<S, D>::clone),
        "nullification" => read_under(alloc, asked, &bound, bytes, Nullification::<S>::clone),
        "finalization" => read_under(alloc, asked, &bound, bytes, Finalization::<S, D>::clone),
        "certificate" => read_under(alloc, asked, &bound, bytes, Certificate::<S, D>::clone),
        "artifact" => read_under(alloc, asked, &bound, bytes, Artifact::<S, D>::clone),
        "activity" => read_under(alloc, asked, &bound, bytes, Activity::<S, D>::clone),
        _ => read_vote::<S, D>(alloc, asked, kind, bytes),
    }
}

/// The same of a vote, two votes that contradict, or a part of one.
fn read_vote<S: SchemeTypes, D: Digest>(
    alloc: Global,
    asked: Asked,
    kind: &str,
    bytes: &[u8],
) -> Result<String, Unanswered> {
    match kind {
        "proposal" => read_free::<Proposal<D>>(alloc, asked, bytes),
        "attestation" => read_free::<Attestation<S>>(alloc, asked, bytes),
        "notarize" => read_free::<Notarize<S, D>>(alloc, asked, bytes),
        "nullify" => read_free::<Nullify<S>>(alloc, asked, bytes),
        "finalize" => read_free::<Finalize<S, D>>(alloc, asked, bytes),
        "vote" => read_free::<Vote<S, D>>(alloc, asked, bytes),
        "conflicting-notarize" => read_free::<ConflictingNotarize<S, D>>(alloc, asked, bytes),
        "conflicting-finalize" => read_free::<ConflictingFinalize<S, D>>(alloc, asked, bytes),
        "nullify-finalize" => read_free::<NullifyFinalize<S, D>>(alloc, asked, bytes),
        _ => Err(Unanswered::NoVector),
    }
}
