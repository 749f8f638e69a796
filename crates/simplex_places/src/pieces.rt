//! The attestations of a piece of a stream that have to be verified before the piece is audited.

ghost use Rattle.std.specs.Prelude.{◌≡◌, IfOk, map};
ghost use Rattle.simplex_base.specs.Format.{format_of};
ghost use Rattle.simplex_scheme.specs.Committees.{committee_of, size_by};
ghost use Rattle.simplex_places.specs.Bytes.{AreVotesAt};
ghost use Rattle.simplex_places.specs.Pieces.{ArePlaces, IsPiece, is_judged};
ghost use Rattle.simplex_places.specs.Suspects.{passing_of};

use crate::located::{Counted, Located};
use crate::places::{AttestationPlace, Placed};
use crate::reading::{PlaceReader, reading_bound};
use crate::repeats::{Unverified, with_firsts};
use crate::suspects::is_member;
use simplex_audit::basis::Audited;
use simplex_base::codec::Read;
use simplex_base::positions::{Epoch, Round, View};
use simplex_evidence::types::Activity;
use simplex_scheme::committees::Committees;
use simplex_scheme::scheme::{CertificateScheme, Digest};
use simplex_stream::messages::{for_each_message, is_over};
use std::alloc::{AllocError, Global};

/// What has to be verified of a piece of a stream before it is audited.
#[derive(Drop)]
pub struct Piece {
    /// The attestations that have to be verified, in the order of the piece.
    pub unverified: Vec<Unverified>,
    /// How many bytes the whole messages at the front of the piece have.
    pub whole: usize,
    /// Whether no message follows them, whatever comes after the piece. If not, more bytes may complete one.
    pub over: bool,
}

/// Reads the messages at the front of a piece, and whether no message follows them. The bound is that of the committees.
fn read_places<S: Counted<D>, D: Digest>(
    alloc: Global,
    committees: &Committees<S>,
    bound: u32,
    bytes: &[u8],
) -> Result<(PlaceReader, bool), AllocError>
    ensures { IfOk result (λ (reader, over).
        bound ≡ (⟦<S as Audited<D>>⟧.basis committees.now).bound →
        ArePlaces (⟦<S as Audited<D>>⟧.basis committees.now) ⟦<S as Located<D>>⟧.places bytes.now
        reader over) }
{
    let mut reader = PlaceReader {
        places: Vec::new(alloc),
        place: 0,
    };
    let progress = for_each_message::<Activity<S, D>, PlaceReader>(
        alloc,
        &(),
        bound,
        bytes,
        &mut reader,
    )?;
    let over = is_over::<Activity<S, D>>(&progress.stop);
    Ok((reader, over))
}

/// Whether an attestation has to be verified before an audit from a floor on: its round is at the floor or above it, and its
/// signer is in the committee of the epoch.
fn is_judged<S: CertificateScheme>(
    committees: &Committees<S>,
    floor: Round,
    placed: &Placed,
) -> bool
    ensures { result ≡ is_judged floor
        (λ epoch. size_by S.keys (committee_of committees.now epoch)) placed.now }
{
    let place = &placed.attestation;
    let round = Round::new(Epoch::new(place.epoch), View::new(place.view));
    floor <= round && is_member(committees, place.epoch, place.signer)
}

/// Those of these attestations that have to be verified before an audit from a floor on.
fn judged<S: CertificateScheme>(
    alloc: Global,
    committees: &Committees<S>,
    floor: Round,
    places: &[Placed],
) -> Result<Vec<AttestationPlace>, AllocError>
    ensures { IfOk result (λ found. found.items ≡ passing_of (is_judged floor
        (λ epoch. size_by S.keys (committee_of committees.now epoch))) places.now) }
{
    let mut found = Vec::new(alloc);
    'places: for place in places {
        if is_judged(committees, floor, place) {
            found.push(place.attestation)?;
        }
    }
    Ok(found)
}

/// The attestations of the whole messages at the front of a piece of a stream that have to be verified before the piece is
/// audited from a floor on, in the order of the piece: each whose round is at the floor or above it and whose signer is in the
/// committee of the epoch. No verdict of another one has a part in the report. Each comes with the index of the first in the
/// list that is the same, the verdicts apart. A signature has `size` bytes before its verdict, which may still be any byte. The
/// piece has to begin where a message begins; the places are offsets in it. It is read once, and nothing is verified.
/// `AllocError` is returned only after an allocation failed.
pub fn unverified_in<S: Counted<D>, D: Digest>(
    alloc: Global,
    committees: &Committees<S>,
    floor: Round,
    size: usize,
    bytes: &[u8],
) -> Result<Piece, AllocError>
    ensures piece { IfOk result (IsPiece floor (⟦<S as Audited<D>>⟧.basis committees.now)
        ⟦<S as Located<D>>⟧.places size bytes.now) }
    ensures votes { IfOk result (λ piece. AreVotesAt (⟦<S as Audited<D>>⟧.basis committees.now)
        (format_of ⟦<D as Read>⟧) (format_of ⟦<S::Signature as Read>⟧) bytes.now
        (map (λ u. u.attestation) piece.unverified.items)) }
{
    let bound = reading_bound::<S, D>(committees);
    let (reader, over) = read_places::<S, D>(alloc, committees, bound, bytes)?;
    let found = judged(alloc, committees, floor, &reader.places)?;
    let unverified = with_firsts(alloc, bytes, size, &found)?;
    Ok(Piece {
        unverified,
        whole: reader.place,
        over,
    })
}
