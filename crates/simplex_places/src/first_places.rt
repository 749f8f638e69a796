//! Where sought votes stand in a stream, each in the first message that carries it. Nothing is verified.

ghost use Rattle.std.specs.Prelude.{◌≡◌, ◌+◌, ◌<◌, ◌^◌, [], ◌∷◌, All, IfOk, OnOk, Some, None, drop, map, zip};
ghost use Rattle.std.specs.BTreeMap.{get};
ghost use Rattle.simplex_base.specs.Format.{format_under};
ghost use Rattle.simplex_scheme.specs.Subject.{subject_value};
ghost use Rattle.simplex_evidence.specs.Activity.{votes_in};
ghost use Rattle.simplex_votes.specs.Votes.{vote_on};
ghost use Rattle.simplex_rules.specs.Values.{evidence_value};
ghost use Rattle.simplex_places.specs.FirstPlaces.{AreFound, AreSought, Notes, carried_at, found_if, or_found, votes_placed};

use crate::located::{Counted, Located};
use crate::places::{Placed, push_message};
use crate::votes::{Key, attested, first, second};
use simplex_base::codec::{Encoding, Read};
use simplex_evidence::types::{Activity, Contents};
use simplex_rules::evidence::Evidence;
use simplex_scheme::scheme::{Attestation, Digest, Listing, SchemeTypes, Subject};
use simplex_stream::messages::{Visitor, for_each_message};
use std::alloc::{AllocError, Global};
use std::collections::BTreeMap;

/// Where a vote stands in the stream, and the message that carries it.
#[derive(Clone, Copy)]
pub struct Carried {
    /// The 0-based offset of the message.
    pub message_place: usize,
    /// The 0-based offset of the vote's subject.
    pub subject_place: usize,
    /// The number of bytes of the subject.
    pub subject_length: usize,
    /// The 0-based offset of the last byte of the vote's signature.
    pub verdict_place: usize,
}

/// Adds a key that is sought and not found yet.
fn seek<K: Ord + Drop>(places: &mut BTreeMap<K, Option<Carried>>, key: K) -> Result<(), AllocError>
    ensures sought { OnOk result (get K.cmp places.new key ≡ Some None) }
    ensures others { OnOk result ((other : K) → get K.cmp places.old other ≡ Some None →
        get K.cmp places.new other ≡ Some None) }
{
    places.insert(key, None)?;
    Ok(())
}

/// The keys of the votes of some evidence, none found yet.
pub fn sought<K: Key<D, S::Signature>, S: SchemeTypes, D: Digest>(
    alloc: Global,
    evidence: &[Evidence<S, D>],
) -> Result<BTreeMap<K, Option<Carried>>, AllocError>
    ensures { IfOk result (λ places.
        All (λ e. AreSought K.cmp K.key_of places (evidence_value e)) evidence.now) }
{
    let mut places = BTreeMap::new(alloc);
    'evidence: for item in evidence {
        seek(&mut places, first(item))?;
        seek(&mut places, second(item))?;
    }
    Ok(places)
}

/// Notes where a key was found, if it is sought and was not found before.
fn note<K: Ord>(places: &mut BTreeMap<K, Option<Carried>>, key: &K, carried: Carried)
    ensures { (other : K) → get K.cmp places.new other ≡
        or_found (get K.cmp places.old other) (found_if carried (K.eq other key.now)) }
{
    if let Some(found) = places.get_mut(key) {
        *found = found.or(Some(carried));
    }
}

/// Notes the vote on a subject that stands first of these attestations of a message, and returns those behind it.
fn note_vote<'a, K: Key<D, S::Signature>, S: SchemeTypes, D: Digest>(
    places: &mut BTreeMap<K, Option<Carried>>,
    message_place: usize,
    subject: &Subject<'_, D>,
    attestation: &Attestation<S>,
    placed: &'a [Placed],
) -> &'a [Placed]
    ensures noted { Notes K.cmp K.eq K.key_of
        (zip (vote_on (subject_value subject.now) attestation.now ∷ [])
        (map (carried_at message_place) placed.now)) places.old places.new }
    ensures behind { result.now ≡ drop 1 placed.now }
{
    match placed.split_first() {
        Some((one, others)) => {
            let carried = Carried {
                message_place,
                subject_place: one.attestation.subject_place,
                subject_length: one.attestation.subject_length,
                verdict_place: one.attestation.verdict_place,
            };
            note(places, &attested(subject, attestation), carried);
            others
        }
        None => placed,
    }
}

/// Notes the votes on a subject that a certificate lists, from where the attestations of its message stand.
fn note_all<K: Key<D, S::Signature>, S: SchemeTypes, D: Digest>(
    places: &mut BTreeMap<K, Option<Carried>>,
    message_place: usize,
    subject: &Subject<'_, D>,
    attestations: &[Attestation<S>],
    placed: &[Placed],
)
    ensures { Notes K.cmp K.eq K.key_of
        (zip (map (vote_on (subject_value subject.now)) attestations.now)
        (map (carried_at message_place) placed.now)) places.old places.new }
{
    let mut others = placed;
    'attestations: for attestation in attestations {
        others = note_vote(places, message_place, subject, attestation, others);
    }
}

/// Notes the votes of a message, from where its attestations stand.
fn note_message<K: Key<D, S::Signature>, S: Listing<D>, D: Digest>(
    places: &mut BTreeMap<K, Option<Carried>>,
    message_place: usize,
    message: &Activity<S, D>,
    placed: &[Placed],
)
    ensures { Notes K.cmp K.eq K.key_of (zip (votes_in S.listed message.now)
        (map (carried_at message_place) placed.now)) places.old places.new }
{
    match message.contents() {
        Contents::Vote(vote) => {
            note_vote(
                places,
                message_place,
                &vote.subject,
                vote.attestation,
                placed,
            );
        }
        Contents::Certificate(subject, certificate) => {
            let attestations = S::attestations(certificate);
            note_all(places, message_place, &subject, attestations, placed);
        }
        Contents::Evidence(first, second) => {
            let others = note_vote(
                places,
                message_place,
                &first.subject,
                first.attestation,
                placed,
            );
            note_vote(
                places,
                message_place,
                &second.subject,
                second.attestation,
                others,
            );
        }
    }
}

/// Notes where the votes of messages stand, one message after another.
#[derive(Drop)]
pub struct Finder<K: Ord> {
    /// The sought keys, each with its first place, if it was found.
    pub places: BTreeMap<K, Option<Carried>>,
    /// Where the attestations of the last message stand.
    pub placed: Vec<Placed>,
    /// The place behind the last message.
    pub place: usize,
}

impl<K: Key<D, S::Signature>, S: Counted<D>, D: Digest> Visitor<Activity<S, D>> for Finder<K> {
    ghost use Rattle.std.proofs.Common.{arith};
    ghost use Rattle.simplex_places.specs.Finding.{Finds};
    ghost use Rattle.simplex_places.specs.FindingLaws.{finds_none, finds_more};
    ghost use Rattle.simplex_stream.specs.PlaceLaws.{room_behind};

    type Context = ();

    ghost follows = { λ _. Finds K.cmp K.eq K.key_of
        (votes_placed (votes_in S.listed) ⟦<S as Located<D>>⟧.places)
        ⟦<Activity<S, D> as Encoding>⟧.encoding };

    ghost has_room = { λ state size. state.place + size < 2 ^ 64 };

    fn take(
        &mut self,
        _alloc: Global,
        _context: &(),
        size: usize,
        message: &Activity<S, D>,
    ) -> Result<(), AllocError> {
        self.placed.clear();
        push_message(self.place, message, &mut self.placed)?;
        note_message(&mut self.places, self.place, message, &self.placed);
        self.place += size;
        Ok(())
    }

    ghost none = { λ _. finds_none K.cmp K.eq K.key_of
        (votes_placed (votes_in S.listed) ⟦<S as Located<D>>⟧.places)
        ⟦<Activity<S, D> as Encoding>⟧.encoding };

    ghost more = { λ _. finds_more K.cmp K.eq K.key_of
        (votes_placed (votes_in S.listed) ⟦<S as Located<D>>⟧.places)
        ⟦<Activity<S, D> as Encoding>⟧.encoding };

    ghost less = { λ state n k room. Prim.omega (arith, room) };

    ghost left = { λ _ m a b n one. room_behind ⟦<Activity<S, D> as Encoding>⟧.encoding
        a.place b.place n m one.place_is };
}

/// Reads the messages of a stream under a bound, as many as there are, notes the votes of each, and gives back what was found.
pub fn find<K: Key<D, S::Signature>, S: Counted<D>, D: Digest>(
    alloc: Global,
    bound: u32,
    stream: &[u8],
    places: BTreeMap<K, Option<Carried>>,
) -> Result<BTreeMap<K, Option<Carried>>, AllocError>
    ensures { IfOk result (λ found. AreFound K.cmp K.eq K.key_of
        (votes_placed (votes_in S.listed) ⟦<S as Located<D>>⟧.places)
        (format_under ⟦<Activity<S, D> as Read>⟧ bound) stream.now places found) }
{
    let mut finder = Finder {
        places,
        placed: Vec::new(alloc),
        place: 0,
    };
    for_each_message::<Activity<S, D>, Finder<K>>(alloc, &(), bound, stream, &mut finder)?;
    let Finder { places, .. } = finder;
    Ok(places)
}
