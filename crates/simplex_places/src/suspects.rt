//! The attestations of a stream that have to be verified.

ghost use Rattle.std.specs.Prelude.{◌≡◌, ◌&&◌, ℕ, List, IfOk, nat_lt};
ghost use Rattle.std.specs.BTreeSet.{contains};
ghost use Rattle.simplex_base.specs.Positions as positions;
ghost use Rattle.simplex_evidence.specs.declared.types.activity.Activity as activities;
ghost use Rattle.simplex_scheme.specs.Committees.{Schedule, committee_of, size_by};
ghost use Rattle.simplex_detector.specs.Detector.{Recalls};
ghost use Rattle.simplex_rules.specs.Accusation.{round_cmp, signer_cmp, signer_in};
ghost use Rattle.simplex_rules.specs.Rules.{AreLawful};
ghost use Rattle.simplex_rules.specs.Suspects.{is_suspect, is_suspect_round};
ghost use Rattle.simplex_rules.specs.declared.judging.Judging.TheVariants.{Claimed};
ghost use Rattle.simplex_places.specs.Bytes.{AreVotesAt};
ghost use Rattle.simplex_places.specs.Suspects.{HaveToBeVerified, is_sought, sought_of, suspected_by};
ghost use Rattle.simplex_places.specs.Verdicts.{DetermineTheReport};
ghost use Rattle.simplex_places.specs.declared.places.AttestationPlace as place;
ghost use Rattle.simplex_base.specs.Format.{format_of};

use crate::located::{Counted, Located};
use crate::places::{AttestationPlace, Placed};
use crate::reading::{read_claims, reading_bound};
use simplex_audit::basis::Audited;
use simplex_base::codec::Read;
use simplex_base::codec::fixed_bytes::Role;
use simplex_base::positions::{Epoch, Participant, Round, View};
use simplex_detector::detector::Detector;
use simplex_laws::laws::{suspects_decide, suspects_determine_reports, suspects_suffice};
use simplex_rules::evidence::SignerInRound;
use simplex_rules::judging::{SuspectSigners, suspects_of};
use simplex_scheme::committees::Committees;
use simplex_scheme::scheme::{CertificateScheme, Digest};
use simplex_schemes::vouched::Vouched;
use std::alloc::{AllocError, Global};

/// The suspects and the suspect rounds, from the claimed evidence.
fn claimed_suspects<S: Counted<D>, D: Digest>(
    alloc: Global,
    detector: &Detector<S, D>,
) -> Result<SuspectSigners, AllocError>
    ensures signers { IfOk result (λ suspects. (committees : Schedule S)
        (messages : List (activities.Activity S D S.Certificate S.PublicKey S.Signature)) →
        AreLawful (⟦<S as Audited<D>>⟧.basis committees).rules →
        Recalls (⟦<S as Audited<D>>⟧.basis_under Claimed committees).rules messages detector.now →
        (round : positions.Round) (signer : ℕ) →
        contains signer_cmp suspects.signers (signer_in round signer) ≡
        is_suspect (⟦<S as Audited<D>>⟧.basis committees).rules messages round signer) }
    ensures rounds { IfOk result (λ suspects. (committees : Schedule S)
        (messages : List (activities.Activity S D S.Certificate S.PublicKey S.Signature)) →
        AreLawful (⟦<S as Audited<D>>⟧.basis committees).rules →
        Recalls (⟦<S as Audited<D>>⟧.basis_under Claimed committees).rules messages detector.now →
        (round : positions.Round) → contains round_cmp suspects.rounds round ≡
        is_suspect_round (⟦<S as Audited<D>>⟧.basis committees).rules messages round) }
{
    suspects_determine_reports::<S, D>();
    suspects_suffice::<S, D>();
    let evidence = detector.evidence(alloc)?;
    let suspects = suspects_of(alloc, &evidence)?;
    Ok(suspects)
}

/// Whether a signer is in the committee of an epoch.
pub(crate) fn is_member<S: CertificateScheme>(
    committees: &Committees<S>,
    epoch: u64,
    signer: u32,
) -> bool
    ensures { result ≡ nat_lt signer (size_by S.keys (committee_of committees.now epoch)) }
{
    match committees.get(Epoch::new(epoch)) {
        Some(committee) => (signer as usize) < committee.participants().len(),
        None => false,
    }
}

/// Whether an attestation has to be verified: one that a certificate lists if its round is suspect and its signer is in the
/// committee of the epoch, any other if its signer is suspect in its round.
fn is_sought<S: CertificateScheme>(
    committees: &Committees<S>,
    suspects: &SuspectSigners,
    placed: &Placed,
) -> bool
    ensures { result ≡ is_sought (suspected_by suspects.now)
        (λ epoch. size_by S.keys (committee_of committees.now epoch)) placed.now }
{
    let place = &placed.attestation;
    let round = Round::new(Epoch::new(place.epoch), View::new(place.view));
    if placed.is_listed {
        suspects.rounds.contains(&round) && is_member(committees, place.epoch, place.signer)
    } else {
        let signer = Participant::new(place.signer);
        let suspect = SignerInRound { round, signer };
        suspects.signers.contains(&suspect)
    }
}

/// Those of these attestations that have to be verified.
fn sought<S: CertificateScheme>(
    alloc: Global,
    committees: &Committees<S>,
    suspects: &SuspectSigners,
    places: &[Placed],
) -> Result<Vec<AttestationPlace>, AllocError>
    ensures { IfOk result (λ found. found.items ≡ sought_of (suspected_by suspects.now)
        (λ epoch. size_by S.keys (committee_of committees.now epoch)) places.now) }
{
    let mut found = Vec::new(alloc);
    'places: for place in places {
        if is_sought(committees, suspects, place) {
            found.push(place.attestation)?;
        }
    }
    Ok(found)
}

/// Each attestation that has to be verified is a vote of the stream's messages, as it stands in the stream: the bytes of its
/// subject are the proposal or the round that is signed, and the signature ends with the verdict.
pub fn suspects_are_votes<S: Counted<D>, D: Digest>()
    ensures { (committees : Schedule S) (stream : List ℕ) (found : List place.AttestationPlace) →
        HaveToBeVerified (⟦<S as Audited<D>>⟧.basis committees) ⟦<S as Located<D>>⟧.places stream
        found →
        AreVotesAt (⟦<S as Audited<D>>⟧.basis committees) (format_of ⟦<D as Read>⟧)
        (format_of ⟦<S::Signature as Read>⟧) stream found }
{}

/// For signatures that the caller verified, the verdicts of the attestations that have to be verified determine the report:
/// streams that differ from this one in other verdicts alone have the same report. The list itself depends on no verdict.
pub fn suspects_are_enough<D: Digest, R: Role<N>, const N: usize>(
    committees: &Committees<Vouched<R, N>>,
)
    ensures { (stream : List ℕ) (found : List place.AttestationPlace) →
        HaveToBeVerified (⟦<Vouched<R, N> as Audited<D>>⟧.basis committees.now)
        ⟦<Vouched<R, N> as Located<D>>⟧.places stream found →
        DetermineTheReport (⟦<Vouched<R, N> as Audited<D>>⟧.basis committees.now)
        ⟦<Vouched<R, N> as Located<D>>⟧.places stream found }
{
    reading_bound::<Vouched<R, N>, D>(committees);
    suspects_decide::<Vouched<R, N>, D>();
}

/// The attestations of a stream that have to be verified before it is audited, in the order of the
/// stream. A signer of a committee is suspect in a round where two votes that claim to be that
/// signer's contradict, and then the round is suspect, too. Listed are the votes of suspects in
/// their rounds, standalone and in evidence, and, for each certificate of a suspect round, all
/// attestations whose signers are in the committee of the epoch. That no other vote and no other
/// certificate has a part in the evidence and the splits is a law of the judging (`suspects_suffice`
/// in `simplex_laws::laws`). That no other verdict has one is [`suspects_are_enough`]. Nothing is
/// verified here, so the stream may hold any verdicts. It is read once, in memory that is bounded by
/// the stream and the sizes of the committees. `AllocError` is returned only after an allocation
/// failed.
pub fn suspects<S: Counted<D>, D: Digest>(
    alloc: Global,
    committees: &Committees<S>,
    stream: &[u8],
) -> Result<Vec<AttestationPlace>, AllocError>
    ensures listed { IfOk result (λ found.
        HaveToBeVerified (⟦<S as Audited<D>>⟧.basis committees.now)
        ⟦<S as Located<D>>⟧.places stream.now found.items) }
    ensures votes { IfOk result (λ found. AreVotesAt (⟦<S as Audited<D>>⟧.basis committees.now)
        (format_of ⟦<D as Read>⟧) (format_of ⟦<S::Signature as Read>⟧) stream.now found.items) }
{
    suspects_are_votes::<S, D>();
    let bound = reading_bound::<S, D>(committees);
    let claims = read_claims::<S, D>(alloc, committees, bound, stream)?;
    let suspects = claimed_suspects(alloc, &claims.detector)?;
    sought(alloc, committees, &suspects, claims.places.as_slice())
}
