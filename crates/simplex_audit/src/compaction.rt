//! A shorter stream in place of a stream: its messages without what was no news when it came.

ghost use Rattle.std.specs.Prelude.{◌≡◌, ◌++◌, ⊤, All, IfOk, OnOk};
ghost use Rattle.std.specs.List.{flat_map};
ghost use Rattle.simplex_audit.specs.Basis.{basis_from};
ghost use Rattle.simplex_audit.specs.Compacting.{KeepsCompaction, StartsCompacting};
ghost use Rattle.simplex_audit.specs.Compaction.{IsCompacted};
ghost use Rattle.simplex_base.specs.Format.{IsLawful};
ghost use Rattle.simplex_base.specs.Positions as positions;
ghost use Rattle.simplex_rules.specs.Independence.{first_round};
ghost use Rattle.simplex_ballots.specs.Kept.{kept_by};

use crate::basis::Audited;
use crate::reading::{Recorder, reading_bound};
use simplex_ballots::kept::Kept;
use simplex_base::codec::{EncodeSize, Encoding, Write};
use simplex_base::positions::Round;
use simplex_detector::detector::Detector;
use simplex_evidence::types::Activity;
use simplex_laws::laws::{
    evidence_is_determined, floors_rise, news_suffices, rounds_are_independent,
    splits_are_determined,
};
use simplex_rules::judging::Judging;
use simplex_rules::rules::Judges;
use simplex_scheme::committees::Committees;
use simplex_scheme::scheme::{Digest, Listing, SchemeTypes};
use simplex_stream::fault::{Fault, fault_at};
use simplex_stream::messages::{Visitor, for_each_message};
use std::alloc::{AllocError, Global};

/// What [`compact`] returns of a stream.
#[derive(Drop)]
pub struct Compaction {
    /// What was news when it came, in the order of the stream: messages as their bytes stand there, and votes of certificates,
    /// each as a message of its own.
    pub messages: Vec<u8>,
    /// The number of messages read.
    pub read: usize,
    /// Where the stream stops being messages, if it does.
    pub fault: Option<Fault>,
}

/// Records messages, and keeps what is news.
#[derive(Drop)]
pub(crate) struct Compactor<S: SchemeTypes, D: Digest> {
    /// What records them.
    pub(crate) recorder: Recorder<S, D>,
    /// The encodings of what was news when it came.
    pub(crate) kept: Vec<u8>,
}

impl<S: Listing<D>, D: Digest> Compactor<S, D> {
    /// Nothing came yet, and nothing is judged below a floor.
    pub(crate) fn new(alloc: Global, floor: Round) -> Self
        ensures { StartsCompacting floor ⟦<S as Judges<D>>⟧.rules_under result }
    {
        let judging = Judging::From(floor);
        let detector = Detector::new(alloc);
        Compactor {
            recorder: Recorder { judging, detector },
            kept: Vec::new(alloc),
        }
    }
}

impl<S: Listing<D>, D: Digest> Visitor<Activity<S, D>> for Compactor<S, D> {
    ghost use Rattle.simplex_audit.specs.Compacting.{CompactsMore};
    ghost use Rattle.simplex_audit.specs.CompactingLaws.{compacts_none, compacts_more};

    type Context = Committees<S>;

    ghost follows = { λ committees. CompactsMore ⟦<Activity<S, D> as Encoding>⟧.is_value
        ⟦<Activity<S, D> as Encoding>⟧.encoding
        (λ judging. ⟦<S as Judges<D>>⟧.rules_under judging committees) };

    ghost has_room = { λ _ _. ⊤ };

    fn take(
        &mut self,
        alloc: Global,
        committees: &Committees<S>,
        _size: usize,
        message: &Activity<S, D>,
    ) -> Result<(), AllocError> {
        let news = self
            .recorder
            .detector
            .observe_apart(alloc, committees, &self.recorder.judging, message)?;
        append_news(&news, message, &mut self.kept)
    }

    ghost none = { λ committees state. compacts_none ⟦<Activity<S, D> as Encoding>⟧.is_value
        ⟦<Activity<S, D> as Encoding>⟧.encoding
        (λ judging. ⟦<S as Judges<D>>⟧.rules_under judging committees) state };

    ghost more = { λ committees ms m a b c. compacts_more ⟦<Activity<S, D> as Encoding>⟧.is_value
        ⟦<Activity<S, D> as Encoding>⟧.encoding
        (λ judging. ⟦<S as Judges<D>>⟧.rules_under judging committees) ms m a b c };

    ghost less = { λ _ _ _ room. room };

    ghost left = { λ _ _ _ _ _ _ room. room };
}

/// Appends the encodings of what is kept of a message. Each can be encoded. `AllocError` only where an allocation failed:
/// a part may be appended then.
pub fn append_news<S: Listing<D>, D: Digest>(
    news: &Kept<S, D>,
    message: &Activity<S, D>,
    kept: &mut Vec<u8>,
) -> Result<(), AllocError>
    ensures written { OnOk result (kept.new.items ≡ kept.old.items ++
        flat_map ⟦<Activity<S, D> as Encoding>⟧.encoding (kept_by message.now news.now)) }
    ensures values { OnOk result (All ⟦<Activity<S, D> as Encoding>⟧.is_value
        (kept_by message.now news.now)) }
{
    match news {
        Kept::Nothing => Ok(()),
        Kept::Whole => append(message, kept),
        Kept::Votes(votes) => append_all(votes.as_slice(), kept),
    }
}

/// Appends the encodings of some messages, which can be encoded.
fn append_all<M: Write + EncodeSize>(messages: &[M], kept: &mut Vec<u8>) -> Result<(), AllocError>
    ensures written { OnOk result (kept.new.items ≡ kept.old.items ++
        flat_map M.encoding messages.now) }
    ensures values { OnOk result (All M.is_value messages.now) }
{
    'messages: for message in messages {
        append(message, kept)?;
    }
    Ok(())
}

/// Appends the encoding of a message, which can be encoded.
fn append<M: Write + EncodeSize>(message: &M, kept: &mut Vec<u8>) -> Result<(), AllocError>
    ensures written { OnOk result (kept.new.items ≡ kept.old.items ++ M.encoding message.now) }
    ensures value { M.is_value message.now }
{
    // Its clause says that the message can be encoded.
    message.encode_size();
    message.write(kept)
}

/// Leaves out of a stream what is no news when it comes, and the messages of rounds below a floor. A vote is news if it is
/// valid and the earliest of its kind, round and signer, or the earliest there with another proposal. A certificate is news if
/// it certifies the first subject of its kind in its round or splits the round, and is kept as a whole then. If only votes of
/// it are news, these are kept in its order, each as a notarize, a nullify or a finalize. Any other message is kept as its
/// bytes stand, if a vote of it is news.
///
/// What is left can stand for the stream's messages: with any messages before and any bytes behind, an audit has the same
/// evidence and the same splits from the floor on. Compacting it again changes nothing, and the compactions of several logs
/// can be joined and compacted again. Of a round with n participants at most 5n messages without a certificate are left and
/// three with one, so their size is linear in n. All this is relative to the committees: messages of an epoch without one are
/// no news. Votes and certificates are verified as in an audit, and none below the floor. `AllocError` is returned only after
/// an allocation failed.
pub fn compact<S: Listing<D>, D: Digest>(
    alloc: Global,
    committees: &Committees<S>,
    stream: &[u8],
    floor: Round,
) -> Result<Compaction, AllocError>
    // What is kept is the compaction of the stream, of which nothing below the floor is valid.
    ensures part { IfOk result (λ compaction. IsCompacted
        (basis_from floor (⟦<S as Audited<D>>⟧.basis committees.now)) stream.now
        compaction.messages.items compaction.read compaction.fault) }
    // From the first round on nothing is left out for its round.
    ensures whole { floor ≡ first_round → IfOk result (λ compaction.
        IsCompacted (⟦<S as Audited<D>>⟧.basis committees.now) stream.now compaction.messages.items
        compaction.read compaction.fault) }
{
    floors_rise::<S, D>();
    let bound = compacting_bound::<S, D>(committees);
    let mut compactor = Compactor::<S, D>::new(alloc, floor);
    let progress = for_each_message::<Activity<S, D>, Compactor<S, D>>(
        alloc,
        committees,
        bound,
        stream,
        &mut compactor,
    )?;
    let place = stream.len() - progress.rest.len();
    Ok(Compaction {
        messages: compactor.kept,
        read: progress.read,
        fault: fault_at(place, progress.stop),
    })
}

/// The bound under which messages are read and compacted. Under it the format is lawful, and what is kept of a stream's
/// messages is the stream's compaction.
pub(crate) fn compacting_bound<S: Listing<D>, D: Digest>(committees: &Committees<S>) -> u32
    ensures value { result ≡ (⟦<S as Audited<D>>⟧.basis committees.now).bound }
    ensures readable { IsLawful (⟦<S as Audited<D>>⟧.basis committees.now).format }
    ensures compacts { (floor : positions.Round) → KeepsCompaction
        ⟦<Activity<S, D> as Encoding>⟧.is_value
        (basis_from floor (⟦<S as Audited<D>>⟧.basis committees.now)) }
{
    news_suffices::<S, D>();
    rounds_are_independent::<S, D>();
    evidence_is_determined::<S, D>();
    splits_are_determined::<S, D>();
    floors_rise::<S, D>();
    reading_bound::<S, D>(committees)
}
