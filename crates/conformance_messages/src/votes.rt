//! What a scheme signs, makes of votes, and verifies.

use crate::many::many;
use crate::memory;
use crate::refusals::name;
use crate::schemes::{marked, plain};
use crate::vectors::{Unanswered, bytes};
use simplex_base::codec::{Encode, Error, Read, decode};
use simplex_evidence::types::Activity;
use simplex_scheme::scheme::{
    AssemblyError, CertificateScheme, Digest, Scheme, Sha256Digest, quorum,
};
use simplex_schemes::marked::MarkedDigest;
use simplex_votes::types::{
    Finalization, Finalize, Notarization, Notarize, Nullification, Nullify,
};
use std::alloc::{AllocError, Global};

/// The answer to a test vector that asks this of a scheme: `N` of a marked committee, or `BASE:N` of a plain one.
pub(crate) fn vote_vector(
    alloc: Global,
    scheme: &str,
    words: &[&str],
) -> Result<String, Unanswered> {
    match scheme.split_once(':') {
        None => scheme_vector::<_, MarkedDigest>(alloc, &marked(alloc, scheme)?, words),
        Some((base, committee)) => {
            scheme_vector::<_, Sha256Digest>(alloc, &plain(alloc, base, committee)?, words)
        }
    }
}

/// The answer to a test vector of this scheme.
fn scheme_vector<S: Scheme<D>, D: Digest + 'static>(
    alloc: Global,
    scheme: &S,
    words: &[&str],
) -> Result<String, Unanswered> {
    match words {
        ["verify", _, encoding @ ..] => {
            verify::<S, D>(alloc, scheme, bytes(alloc, encoding)?.as_slice())
        }
        ["sign", _, kind, encoding @ ..] => {
            sign::<S, D>(alloc, scheme, *kind, bytes(alloc, encoding)?.as_slice())
        }
        ["assemble", _, call, encoding @ ..] => {
            assemble::<S, D>(alloc, scheme, *call, bytes(alloc, encoding)?.as_slice())
        }
        ["many", _, encoding @ ..] => {
            many::<S, D>(alloc, scheme, bytes(alloc, encoding)?.as_slice())
        }
        _ => Err(Unanswered::NoVector),
    }
}

/// Whether the message that a prefix of the bytes encodes is of a kind that is verified before it is reported, and whether it
/// is valid.
fn verify<S: Scheme<D>, D: Digest>(
    alloc: Global,
    scheme: &S,
    bytes: &[u8],
) -> Result<String, Unanswered> {
    let mut rest: &[u8] = bytes;
    let bound = scheme.certificate_codec_config();
    match Activity::<S, D>::read_cfg(alloc, &mut rest, &bound) {
        Ok(message) => {
            memory::ends(alloc);
            let (verified, good) = (message.verified(), message.verify(scheme));
            memory::returns(alloc);
            Ok(format!(in alloc; "verified {verified}, verify {good}")?)
        }
        Err(error) => Ok(name(alloc, error)?),
    }
}

/// The vote of a kind for what the bytes encode, signed by the scheme's own participant. Signing allocates nothing.
fn sign<S: Scheme<D>, D: Digest + 'static>(
    alloc: Global,
    scheme: &S,
    kind: &str,
    bytes: &[u8],
) -> Result<String, Unanswered> {
    match kind {
        "nullify" => match decode(alloc, bytes) {
            Ok(round) => {
                memory::ends(alloc);
                text_of(alloc, Nullify::sign::<D>(alloc, scheme, round))
            }
            Err(error) => Ok(name(alloc, error)?),
        },
        "notarize" => match decode(alloc, bytes) {
            Ok(proposal) => {
                memory::ends(alloc);
                text_of(alloc, Notarize::sign(alloc, scheme, proposal))
            }
            Err(error) => Ok(name(alloc, error)?),
        },
        "finalize" => match decode(alloc, bytes) {
            Ok(proposal) => {
                memory::ends(alloc);
                text_of(alloc, Finalize::sign(alloc, scheme, proposal))
            }
            Err(error) => Ok(name(alloc, error)?),
        },
        _ => Err(Unanswered::NoVector),
    }
}

/// The answer of a vote that was signed without an allocation, or of none.
fn text_of<V: Encode + Drop>(
    alloc: Global,
    signed: Result<Option<V>, AllocError>,
) -> Result<String, Unanswered> {
    memory::returns(alloc);
    match signed? {
        Some(vote) => Ok(encoded(alloc, &vote)?),
        None => Ok("nobody signs".to_string(alloc)?),
    }
}

/// What a call assembles of the votes that the bytes encode.
fn assemble<S: Scheme<D>, D: Digest + 'static>(
    alloc: Global,
    scheme: &S,
    call: &str,
    bytes: &[u8],
) -> Result<String, Unanswered> {
    let owned = call.starts_with("from_owned_");
    match call {
        "from_notarizes" | "from_owned_notarizes" => match values(alloc, &(), bytes) {
            Ok(votes) => notarization::<S, D>(alloc, scheme, owned, votes),
            Err(error) => Ok(name(alloc, error)?),
        },
        "from_nullifies" | "from_owned_nullifies" => match values(alloc, &(), bytes) {
            Ok(votes) => nullification::<S, D>(alloc, scheme, owned, votes),
            Err(error) => Ok(name(alloc, error)?),
        },
        "from_finalizes" | "from_owned_finalizes" => match values(alloc, &(), bytes) {
            Ok(votes) => finalization::<S, D>(alloc, scheme, owned, votes),
            Err(error) => Ok(name(alloc, error)?),
        },
        _ => Err(Unanswered::NoVector),
    }
}

/// What is assembled of notarizes, owned or borrowed.
fn notarization<S: Scheme<D>, D: Digest>(
    alloc: Global,
    scheme: &S,
    owned: bool,
    votes: Vec<Notarize<S, D>>,
) -> Result<String, Unanswered> {
    memory::ends(alloc);
    if !Notarization::can_assemble(alloc, scheme, votes.as_slice()) {
        return no_assembly(alloc);
    }
    take_memory(alloc, scheme, votes.len());
    assembled(
        alloc,
        if owned {
            Notarization::from_owned_notarizes(alloc, scheme, votes)
        } else {
            Notarization::from_notarizes(alloc, scheme, votes.as_slice())
        },
    )
}

/// What is assembled of nullifies, owned or borrowed.
fn nullification<S: Scheme<D>, D: Digest>(
    alloc: Global,
    scheme: &S,
    owned: bool,
    votes: Vec<Nullify<S>>,
) -> Result<String, Unanswered> {
    memory::ends(alloc);
    if !Nullification::can_assemble::<D>(alloc, scheme, votes.as_slice()) {
        return no_assembly(alloc);
    }
    take_memory(alloc, scheme, votes.len());
    assembled(
        alloc,
        if owned {
            Nullification::from_owned_nullifies::<D>(alloc, scheme, votes)
        } else {
            Nullification::from_nullifies::<D>(alloc, scheme, votes.as_slice())
        },
    )
}

/// What is assembled of finalizes, owned or borrowed.
fn finalization<S: Scheme<D>, D: Digest>(
    alloc: Global,
    scheme: &S,
    owned: bool,
    votes: Vec<Finalize<S, D>>,
) -> Result<String, Unanswered> {
    memory::ends(alloc);
    if !Finalization::can_assemble(alloc, scheme, votes.as_slice()) {
        return no_assembly(alloc);
    }
    take_memory(alloc, scheme, votes.len());
    assembled(
        alloc,
        if owned {
            Finalization::from_owned_finalizes(alloc, scheme, votes)
        } else {
            Finalization::from_finalizes(alloc, scheme, votes.as_slice())
        },
    )
}

/// The answer where votes are for several subjects, or a signer stands twice or outside the committee.
fn no_assembly(alloc: Global) -> Result<String, Unanswered> {
    memory::returns(alloc);
    Ok("no assembly".to_string(alloc)?)
}

/// Lets allocations succeed again where this many votes are a quorum: a certificate is assembled of them. Of fewer none is,
/// and nothing is allocated.
fn take_memory<S: CertificateScheme>(alloc: Global, scheme: &S, votes: usize) {
    if votes >= quorum(scheme.participants().len() as u32) as usize {
        memory::returns(alloc);
    }
}

/// The assembled certificate message, or the quorum and the number of votes where they are too few.
fn assembled<M: Encode + Drop>(
    alloc: Global,
    made: Result<M, AssemblyError>,
) -> Result<String, Unanswered> {
    memory::returns(alloc);
    match made {
        Ok(message) => Ok(encoded(alloc, &message)?),
        Err(AssemblyError::InsufficientAttestations(quorum, count)) => {
            Ok(format!(in alloc; "InsufficientAttestations {quorum} {count}")?)
        }
        Err(AssemblyError::OutOfMemory) => Err(Unanswered::OutOfMemory),
    }
}

/// The encoding of a value.
pub(crate) fn encoded<T: Encode>(alloc: Global, value: &T) -> Result<String, AllocError> {
    hex::encode(alloc, value.encode(alloc)?.as_slice())
}

/// The values that the bytes encode, one after another.
pub(crate) fn values<T: Read + Drop>(
    alloc: Global,
    cfg: &T::Cfg,
    bytes: &[u8],
) -> Result<Vec<T>, Error> {
    let mut values = Vec::new(alloc);
    let mut rest: &[u8] = bytes;
    for _ in 0..bytes.len() {
        if rest.is_empty() {
            break;
        }
        let value = T::read_cfg(alloc, &mut rest, cfg)?;
        if values.push(value).is_err() {
            return Err(Error::OutOfMemory);
        }
    }
    Ok(values)
}
