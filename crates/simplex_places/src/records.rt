//! The evidence of a report as records, with both votes as they stand in the stream.

ghost use Rattle.std.specs.Prelude.{◌≡◌, IfOk, Some, map};
ghost use Rattle.std.specs.BTreeMap.{get};
ghost use Rattle.std.specs.List.{AllZip};
ghost use Rattle.simplex_scheme.specs.Kind.{kind_of};
ghost use Rattle.simplex_audit.specs.Guarantees.{IsAudit};
ghost use Rattle.simplex_audit.specs.Report.{evidence_in};
ghost use Rattle.simplex_rules.specs.Accusation.{kind_rank};
ghost use Rattle.simplex_rules.specs.Values.{evidence_value};
ghost use Rattle.simplex_places.specs.Places.{kind_number};
ghost use Rattle.simplex_places.specs.Records.{AreRecords, HaveNowhere, IsOfEvidence, found_of, message_at, record_by, vote_at};

use crate::first_places::{Carried, find, sought};
use crate::located::{Counted, Located};
use crate::places::number_of;
use crate::votes::{Key, VoteKey, first, second};
use simplex_audit::audit::Report;
use simplex_audit::basis::Audited;
use simplex_rules::evidence::Evidence;
use simplex_scheme::committees::Committees;
use simplex_scheme::scheme::{Digest, SchemeTypes, VoteKind};
use std::alloc::{AllocError, Global};
use std::collections::BTreeMap;

/// The number of two notarizes that contradict, as a kind of evidence.
pub const CONFLICTING_NOTARIZE: u32 = 0;

/// The number of two finalizes that contradict.
pub const CONFLICTING_FINALIZE: u32 = 1;

/// The number of a nullify and a finalize that contradict.
pub const NULLIFY_FINALIZE: u32 = 2;

/// In place of an offset in a [`Record`]: no message of the stream carries the vote. No stream is so long.
pub const NOWHERE: usize = usize::MAX;

/// A vote of an evidence, as it stands in the stream. Its round is the record's. Nothing else in its message need be valid: a
/// certificate or an evidence may hold another vote of the signer, with any signature.
#[repr(C)]
#[derive(Clone, Copy, Debug, PartialEq, Eq)]
pub struct VotePlace {
    /// The 0-based offset of the first byte of its subject, the message that is signed.
    pub subject_place: usize,
    /// The number of bytes of its subject.
    pub subject_length: usize,
    /// The 0-based offset of the last byte of its signature, the verdict.
    pub verdict_place: usize,
    /// The number of its signer.
    pub signer: u32,
    /// The number of its kind: 0 for a notarize, 1 for a nullify, 2 for a finalize.
    pub kind: u32,
}

/// An evidence of a report, and where its votes stand in the stream. The place of a vote is that of the first message that
/// carries it: the vote on its own, a certificate that lists it, or evidence with it.
#[repr(C)]
#[derive(Clone, Copy, Debug, PartialEq, Eq)]
pub struct Record {
    /// The epoch of the round.
    pub epoch: u64,
    /// The view of the round.
    pub view: u64,
    /// The 0-based offset of the message with the first vote.
    pub first_place: usize,
    /// The 0-based offset of the message with the second vote.
    pub second_place: usize,
    /// The first vote, as it stands in its message.
    pub first_vote: VotePlace,
    /// The second vote, as it stands in its message.
    pub second_vote: VotePlace,
    /// The number of the signer.
    pub signer: u32,
    /// The kind: [`CONFLICTING_NOTARIZE`], [`CONFLICTING_FINALIZE`] or [`NULLIFY_FINALIZE`].
    pub kind: u32,
}

/// The number of an evidence's kind.
fn kind<S: SchemeTypes, D: Digest>(evidence: &Evidence<S, D>) -> u32
    ensures { result ≡ kind_rank (evidence_value evidence.now).kind }
{
    match evidence {
        Evidence::ConflictingNotarize(_) => CONFLICTING_NOTARIZE,
        Evidence::ConflictingFinalize(_) => CONFLICTING_FINALIZE,
        Evidence::NullifyFinalize(_) => NULLIFY_FINALIZE,
    }
}

/// The numbers of the kinds of an evidence's votes, as in a [`VotePlace`].
fn vote_kinds<S: SchemeTypes, D: Digest>(evidence: &Evidence<S, D>) -> (u32, u32)
    ensures first { result.0 ≡ kind_number (kind_of (evidence_value evidence.now).first.subject) }
    ensures second { result.1 ≡ kind_number (kind_of (evidence_value evidence.now).second.subject) }
{
    match evidence {
        Evidence::ConflictingNotarize(_) => {
            let notarize = number_of(VoteKind::Notarize);
            (notarize, notarize)
        }
        Evidence::ConflictingFinalize(_) => {
            let finalize = number_of(VoteKind::Finalize);
            (finalize, finalize)
        }
        Evidence::NullifyFinalize(_) => {
            (number_of(VoteKind::Nullify), number_of(VoteKind::Finalize))
        }
    }
}

/// What was found of a key, if it was.
fn look_up<K: Ord>(places: &BTreeMap<K, Option<Carried>>, key: &K) -> Option<Carried>
    ensures { result ≡ found_of (get K.cmp places.now key.now) }
{
    match places.get(key) {
        Some(found) => *found,
        None => None,
    }
}

/// Where the message of a vote begins, [`NOWHERE`] if the vote was not found.
fn message_place(found: Option<Carried>) -> usize
    ensures { result ≡ message_at found }
{
    match found {
        Some(carried) => carried.message_place,
        None => NOWHERE,
    }
}

/// Where a vote of this signer and this kind stands, [`NOWHERE`] if it was not found.
fn vote_place(found: Option<Carried>, signer: u32, kind: u32) -> VotePlace
    ensures { result ≡ vote_at signer kind found }
{
    let Some(carried) = found else {
        return VotePlace {
            subject_place: NOWHERE,
            subject_length: 0,
            verdict_place: NOWHERE,
            signer,
            kind,
        };
    };
    VotePlace {
        subject_place: carried.subject_place,
        subject_length: carried.subject_length,
        verdict_place: carried.verdict_place,
        signer,
        kind,
    }
}

/// The record of an evidence, from what was found of its votes.
fn record_of<K: Key<D, S::Signature>, S: SchemeTypes, D: Digest>(
    places: &BTreeMap<K, Option<Carried>>,
    evidence: &Evidence<S, D>,
) -> Record
    ensures { result ≡ record_by K.cmp K.key_of places.now (evidence_value evidence.now) }
{
    let round = evidence.round();
    let first_found = look_up(places, &first(evidence));
    let second_found = look_up(places, &second(evidence));
    let (first_kind, second_kind) = vote_kinds(evidence);
    let signer = evidence.signer().get();
    Record {
        epoch: round.epoch().get(),
        view: round.view().get(),
        first_place: message_place(first_found),
        second_place: message_place(second_found),
        first_vote: vote_place(first_found, signer, first_kind),
        second_vote: vote_place(second_found, signer, second_kind),
        signer,
        kind: kind(evidence),
    }
}

/// The records of evidence, from what was found of its votes.
fn listed<K: Key<D, S::Signature>, S: SchemeTypes, D: Digest>(
    alloc: Global,
    places: &BTreeMap<K, Option<Carried>>,
    evidence: &[Evidence<S, D>],
) -> Result<Vec<Record>, AllocError>
    ensures { IfOk result (λ found. found.items ≡
        map (λ e. record_by K.cmp K.key_of places.now (evidence_value e)) evidence.now) }
{
    let mut found = Vec::with_capacity(alloc, evidence.len())?;
    'evidence: for item in evidence {
        found.push(record_of(places, item))?;
    }
    Ok(found)
}

/// The evidence of the report of a stream as records, with its votes looked up by these keys.
fn records_by<K: Key<D, S::Signature>, S: Counted<D>, D: Digest>(
    alloc: Global,
    committees: &Committees<S>,
    stream: &[u8],
    report: &Report<S, D>,
) -> Result<Vec<Record>, AllocError>
    ensures whose { IfOk result (λ found.
        AllZip IsOfEvidence (evidence_in report.now) found.items) }
    ensures records { IfOk result (λ found.
        IsAudit (⟦<S as Audited<D>>⟧.basis committees.now) stream.now report.now →
        AreRecords (⟦<S as Audited<D>>⟧.basis committees.now) ⟦<S as Located<D>>⟧.carries
        ⟦<S as Located<D>>⟧.stands stream.now report.now found.items) }
    ensures nowhere { IfOk result (λ found.
        HaveNowhere (⟦<S as Audited<D>>⟧.basis committees.now) ⟦<S as Located<D>>⟧.carries
        stream.now report.now found.items) }
{
    let evidence = report.evidence.as_slice();
    let keys = sought::<K, S, D>(alloc, evidence)?;
    let places = find::<K, S, D>(alloc, committees.bound(), stream, keys)?;
    listed(alloc, &places, evidence)
}

/// The evidence of the report of a stream as records, in the order of the report, each with its two votes as they stand in
/// the stream: in the first message that carries the vote its subject, and where its signature ends. The report has to be that
/// of this stream under these committees; a vote of another report stands [`NOWHERE`] if no message of this stream carries it.
/// If there is evidence the stream is read a second time, and nothing is verified: each vote is looked up among those of the
/// evidence. Memory is bounded by the report and the longest certificate of the stream. `AllocError` is returned only after an
/// allocation failed.
pub fn records<S: Counted<D>, D: Digest>(
    alloc: Global,
    committees: &Committees<S>,
    stream: &[u8],
    report: &Report<S, D>,
) -> Result<Vec<Record>, AllocError>
where
    D: Ord,
    S::Signature: Ord,
    // One for each evidence of the report, of any stream: whom it accuses, and of what.
    ensures whose { IfOk result (λ found.
        AllZip IsOfEvidence (evidence_in report.now) found.items) }
    // Each vote stands in the first message of this stream that carries it, if the report is this stream's.
    ensures records { IfOk result (λ found.
        IsAudit (⟦<S as Audited<D>>⟧.basis committees.now) stream.now report.now →
        AreRecords (⟦<S as Audited<D>>⟧.basis committees.now) ⟦<S as Located<D>>⟧.carries
        ⟦<S as Located<D>>⟧.stands stream.now report.now found.items) }
    // For any report, each vote that no message of this stream carries stands nowhere.
    ensures nowhere { IfOk result (λ found.
        HaveNowhere (⟦<S as Audited<D>>⟧.basis committees.now) ⟦<S as Located<D>>⟧.carries
        stream.now report.now found.items) }
{
    if report.evidence.as_slice().is_empty() {
        return Ok(Vec::new(alloc));
    }
    records_by::<VoteKey<D, S::Signature>, S, D>(alloc, committees, stream, report)
}
