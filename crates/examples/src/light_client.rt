//! Follows finalizations, and returns the evidence where two proposals of a round are final.

ghost use Rattle.std.specs.Prelude.{◌≡◌, ◌++◌, ◌⊎◌, ⊤, None, true, IfOk, IfErr, OnErr, MatchOption, map};
ghost use Rattle.std.specs.Option.{option_copied};
ghost use Rattle.simplex_base.specs.Format.{format_of};
ghost use Rattle.simplex_base.specs.Reading.{Fails, all_of};
ghost use Rattle.simplex_base.specs.declared.codec.error.Error.TheVariants as errors;
ghost use Rattle.simplex_evidence.specs.declared.types.activity.Activity.TheVariants as activity;
ghost use Rattle.simplex_scheme.specs.Committees.{Schedule, bound_of};
ghost use Rattle.simplex_rules.specs.Values.{evidence_value};
ghost use Rattle.examples.specs.Following.{BlamesEnough, Follows, IsEvidenceOfBoth, IsFollowed, is_final, is_fork, is_later, latest_after};
ghost use Rattle.simplex_votes.specs.Encodings.{IsFinalization};
ghost use Rattle.simplex_votes.specs.declared.types.finalization.Finalization as finalizations;

use simplex_audit::audit::{Committees, Evidence, audit};
use simplex_audit::basis::Audited;
use simplex_base::codec::unions::write_tagged;
use simplex_base::codec::{Error, Read, decode_cfg};
use simplex_base::positions::{Round, Roundable};
use simplex_scheme::scheme::{Digest, Listing, SchemeTypes};
use simplex_votes::types::Finalization;
use std::alloc::{AllocError, Global};
use std::marker::Model;

/// What became of a finalization.
#[derive(Drop)]
pub enum Followed<S: SchemeTypes, D: Digest> {
    /// It is of a later round than the latest, and is the latest now.
    Taken,
    /// It is of no later round than the latest, and does not contradict it.
    Known,
    /// It does not certify its proposal under the committee of its epoch.
    Refused,
    /// It contradicts the latest: the evidence, which accuses more participants of their epoch's committee than may lie.
    Fork(Vec<Evidence<S, D>>),
}

/// Follows the finalizations of the committees: it holds the one of the latest round.
#[derive(Drop)]
pub struct LightClient<'a, S: Listing<D>, D: Digest> {
    committees: &'a Committees<S>,
    latest: Option<Finalization<S, D>>,
}

impl<'a, S: Listing<D>, D: Digest> Model for LightClient<'a, S, D> {
    ghost use Rattle.std.specs.Prelude.{⊤, MatchOption};
    ghost use Rattle.simplex_base.specs.Format.{fixed};
    ghost use Rattle.examples.specs.Following.{Following, IsFollowed};

    ghost Value = { Following S D S.Certificate S.PublicKey S.Signature };

    ghost view = { λ client.
        record { committees = client.committees.now; latest = client.latest } };

    ghost invariant = { λ client. MatchOption client.latest ⊤
        (IsFollowed (fixed D.SIZE D.bytes_of D.of_bytes) S.Certificate.fits S.keys S.certified
        client.committees.now) };
}

impl<'a, S: Listing<D>, D: Digest> LightClient<'a, S, D> {
    /// A client that has followed nothing yet.
    pub fn new(committees: &'a Committees<S>) -> Self
        ensures { result ≡ record { committees = committees.now; latest = None } }
    {
        LightClient {
            committees,
            latest: None,
        }
    }

    /// The finalization of the latest round so far, or `None` before one was taken.
    pub fn latest(&self) -> Option<&Finalization<S, D>>
        ensures latest { option_copied result ≡ self.now.latest }
        // It certifies its proposal under the committee of its epoch.
        ensures certified { MatchOption self.now.latest ⊤ (λ f.
            is_final (⟦<S as Audited<D>>⟧.basis self.now.committees).rules f ≡ true) }
    {
        self.latest.as_ref()
    }

    /// Follows a finalization that comes as bytes. Returns the codec's error where they are no finalization under the bound of
    /// the greatest committee, and `OutOfMemory` where an allocation fails; then the client is as before.
    pub fn follow(&mut self, alloc: Global, bytes: &[u8]) -> Result<Followed<S, D>, Error>
        ensures follows { IfOk result (λ answer.
            (f : finalizations.Finalization S D S.Certificate S.PublicKey S.Signature) ×
            (bytes.now ≡ ⟦<Finalization<S, D> as Read>⟧.encoding f) ×
            IsFinalization (format_of ⟦<D as Read>⟧)
            (S.Certificate.fits (bound_of S.keys self.old.committees)) f ×
            Follows (⟦<S as Audited<D>>⟧.basis self.old.committees).rules self.old.latest f answer ×
            (self.new ≡ record self.old { latest = latest_after self.old.latest f answer })) }
        ensures refused { OnErr result (self.new ≡ self.old) }
        ensures error { IfErr result (λ e. (e ≡ errors.OutOfMemory) ⊎
            Fails S.Certificate.takes_memory e
            (all_of (⟦<Finalization<S, D> as Read>⟧.reading (bound_of S.keys self.old.committees))
            bytes.now)) }
    {
        let finalization = read(alloc, self.committees, bytes)?;
        let followed = judge(alloc, self.committees, self.latest.as_ref(), &finalization)?;
        if let Followed::Taken = &followed {
            self.latest = Some(finalization);
        }
        Ok(followed)
    }
}

/// The finalization that the bytes encode, under the bound of the greatest committee.
fn read<S: Listing<D>, D: Digest>(
    alloc: Global,
    committees: &Committees<S>,
    bytes: &[u8],
) -> Result<Finalization<S, D>, Error>
    ensures encoded { IfOk result (λ f. bytes.now ≡ ⟦<Finalization<S, D> as Read>⟧.encoding f) }
    ensures error { IfErr result (λ e.
        Fails S.Certificate.takes_memory e
        (all_of (⟦<Finalization<S, D> as Read>⟧.reading (bound_of S.keys committees.now))
        bytes.now)) }
    ensures value { IfOk result
        (IsFinalization (format_of ⟦<D as Read>⟧)
        (S.Certificate.fits (bound_of S.keys committees.now))) }
{
    decode_cfg(alloc, bytes, &committees.bound())
}

/// What becomes of a finalization, given the latest one.
fn judge<S: Listing<D>, D: Digest>(
    alloc: Global,
    committees: &Committees<S>,
    latest: Option<&Finalization<S, D>>,
    finalization: &Finalization<S, D>,
) -> Result<Followed<S, D>, Error>
    requires followed { MatchOption (option_copied latest) ⊤
        (IsFollowed (format_of ⟦<D as Read>⟧) S.Certificate.fits S.keys S.certified
        committees.now) }
    requires value { IsFinalization (format_of ⟦<D as Read>⟧)
        (S.Certificate.fits (bound_of S.keys committees.now)) finalization.now }
    ensures follows { IfOk result
        (Follows (⟦<S as Audited<D>>⟧.basis committees.now).rules (option_copied latest.entry)
        finalization.now) }
    ensures error { IfErr result (λ e. e ≡ errors.OutOfMemory) }
{
    if !is_final(committees, finalization) {
        return Ok(Followed::Refused);
    }
    let Some(latest) = latest else {
        return Ok(Followed::Taken);
    };
    if is_fork(latest, finalization) {
        return match blame(alloc, committees, latest, finalization) {
            Ok(evidence) => Ok(Followed::Fork(evidence)),
            Err(_) => Err(Error::OutOfMemory),
        };
    }
    if is_later(finalization.round(), latest.round()) {
        Ok(Followed::Taken)
    } else {
        Ok(Followed::Known)
    }
}

/// Whether a round is later than another.
fn is_later(round: Round, other: Round) -> bool
    ensures { result ≡ is_later round other }
{
    other.epoch() < round.epoch() || other.epoch() == round.epoch() && other.view() < round.view()
}

/// Whether a finalization certifies its proposal under the committee of its epoch.
fn is_final<S: Listing<D>, D: Digest>(
    committees: &Committees<S>,
    finalization: &Finalization<S, D>,
) -> bool
    ensures { result ≡ is_final (⟦<S as Audited<D>>⟧.basis committees.now).rules finalization.now }
{
    match committees.get(finalization.round().epoch()) {
        Some(committee) => finalization.verify(committee),
        None => false,
    }
}

/// Whether two finalizations are of one round and for different proposals.
fn is_fork<S: Listing<D>, D: Digest>(one: &Finalization<S, D>, other: &Finalization<S, D>) -> bool
    ensures { result ≡ is_fork D.eq one.now other.now }
{
    one.round() == other.round() && !one.proposal.is_same(&other.proposal)
}

/// Two finalizations as a stream of messages.
fn stream_of<S: Listing<D>, D: Digest>(
    alloc: Global,
    one: &Finalization<S, D>,
    other: &Finalization<S, D>,
) -> Result<Vec<u8>, AllocError>
    ensures { (committees : Schedule S) → IfOk result (λ stream. stream.items ≡
        (⟦<S as Audited<D>>⟧.basis committees).format.encoding (activity.Finalization one.now) ++
        (⟦<S as Audited<D>>⟧.basis committees).format.encoding (activity.Finalization other.now)) }
{
    let mut stream = Vec::new(alloc);
    write_tagged(6, one, &mut stream)?;
    write_tagged(6, other, &mut stream)?;
    Ok(stream)
}

/// The evidence of two finalizations that contradict, which accuses more participants than may lie.
fn blame<S: Listing<D>, D: Digest>(
    alloc: Global,
    committees: &Committees<S>,
    one: &Finalization<S, D>,
    other: &Finalization<S, D>,
) -> Result<Vec<Evidence<S, D>>, AllocError>
    requires one { IsFollowed (format_of ⟦<D as Read>⟧) S.Certificate.fits S.keys S.certified
        committees.now one.now }
    requires other { IsFollowed (format_of ⟦<D as Read>⟧) S.Certificate.fits S.keys S.certified
        committees.now other.now }
    requires fork { is_fork D.eq one.now other.now ≡ true }
    ensures enough { IfOk result (λ evidence.
        BlamesEnough ((⟦<S as Audited<D>>⟧.basis committees.now).rules.size
        one.now.proposal.round.epoch)
        one.now.proposal.round (map evidence_value evidence.items)) }
    ensures evidence { IfOk result (λ evidence.
        IsEvidenceOfBoth (⟦<S as Audited<D>>⟧.basis committees.now).rules one.now other.now
        (map evidence_value evidence.items)) }
{
    let stream = stream_of(alloc, one, other)?;
    let report = audit(alloc, committees, &stream)?;
    Ok(report.evidence)
}
