//! Holds the evidence of all that it is fed.

ghost use Rattle.std.specs.Prelude.{◌≡◌, ◌+◌, ◌<◌, ◌^◌, ◌++◌, ℕ, List, [], IfOk, OnOk, length};
ghost use Rattle.std.specs.List.{flat_map};
ghost use Rattle.simplex_scheme.specs.Committees.{Schedule};
ghost use Rattle.simplex_rules.specs.Values.{activity_of};
ghost use Rattle.simplex_audit.specs.Holding.{IsEvidenceOf, IsStored, WasFed, bytes_fed};

use crate::audit::{Committees, Evidence, audit_deferred};
use crate::auditor::{Auditor, counts_are_few};
use crate::basis::Audited;
use simplex_base::codec::Read;
use simplex_base::codec::unions::write_tagged;
use simplex_evidence::types::Activity;
use simplex_scheme::scheme::{Digest, Listing, SchemeTypes};
use std::alloc::{AllocError, Global};

/// Holds the evidence of all messages that it is fed, in pieces of any length: each evidence once. It records the votes that
/// evidence can consist of, and not the messages.
#[derive(Drop)]
pub struct Ledger<'a, S: SchemeTypes, D: Digest> {
    auditor: Auditor<'a, S, D>,
}

impl<'a, S: Listing<D>, D: Digest> Ledger<'a, S, D> {
    /// A ledger of these committees, which was fed nothing.
    pub fn new(alloc: Global, committees: &'a Committees<S>) -> Self
        ensures bytes { bytes_fed result ≡ 0 }
        ensures fed { WasFed ⟦<S as Audited<D>>⟧.basis committees.now result [] }
    {
        Ledger {
            auditor: Auditor::new(alloc, committees),
        }
    }

    /// A ledger that begins with what an earlier one stored: it is the ledger that was fed these bytes. The contract of
    /// `store` states whom it then accuses, and whom after further pieces. `AllocError` only where an allocation failed.
    pub fn resume(
        alloc: Global,
        committees: &'a Committees<S>,
        stored: &[u8],
    ) -> Result<Self, AllocError>
        ensures bytes { IfOk result (λ ledger. bytes_fed ledger ≡ length stored.now) }
        ensures fed { IfOk result (λ ledger.
            WasFed ⟦<S as Audited<D>>⟧.basis committees.now ledger stored.now) }
    {
        counts_are_few(stored.len());
        Ledger::new(alloc, committees).feed(stored)
    }

    /// The ledger that was fed this piece, too. `AllocError` only where an allocation failed, and then there is no ledger. The
    /// bytes of a message that comes in pieces are read again as by [`Auditor::feed`].
    pub fn feed(self, piece: &[u8]) -> Result<Self, AllocError>
        requires { bytes_fed self + length piece.now < 2 ^ 64 }
        ensures bytes { IfOk result (λ next.
            bytes_fed next ≡ bytes_fed self.entry + length piece.now) }
        ensures fed { IfOk result (λ next. (committees : Schedule S) (stream : List ℕ) →
            WasFed ⟦<S as Audited<D>>⟧.basis committees self.entry stream →
            WasFed ⟦<S as Audited<D>>⟧.basis committees next (stream ++ piece.now)) }
    {
        Ok(Ledger {
            auditor: self.auditor.feed(piece)?,
        })
    }

    /// How many bytes it was fed; with the next piece they have to stay below 2^64.
    pub fn fed(&self) -> usize
        ensures { result ≡ bytes_fed self.now }
    {
        self.auditor.fed()
    }

    /// The evidence of all that it was fed: one for each round, signer and kind with two valid votes that contradict, in
    /// this order. `AllocError` only where an allocation failed.
    pub fn evidence(&self) -> Result<Vec<Evidence<S, D>>, AllocError>
        ensures { IfOk result (λ held. (committees : Schedule S) (stream : List ℕ) →
            WasFed ⟦<S as Audited<D>>⟧.basis committees self.now stream →
            IsEvidenceOf (⟦<S as Audited<D>>⟧.basis committees) stream held.items) }
    {
        let report = self.auditor.report()?;
        Ok(report.evidence)
    }

    /// The evidence as bytes for `resume`: each a message, an `Activity`, one after the other in the order of `evidence`; no
    /// bytes where there is no evidence. Votes that contradict nothing yet are not stored. `AllocError` only where an
    /// allocation failed.
    pub fn store(&self, alloc: Global) -> Result<Vec<u8>, AllocError>
        // The bytes encode the evidence, and it is their evidence, too. A piece behind them is read as it is alone, and what is
        // held then is the evidence of both: accused signers stay accused, and nobody is accused whom the messages of both do
        // not accuse.
        ensures { IfOk result (λ stored. (committees : Schedule S) (stream : List ℕ) →
            WasFed ⟦<S as Audited<D>>⟧.basis committees self.now stream →
            IsStored (⟦<S as Audited<D>>⟧.basis committees) stream stored.items) }
    {
        let report = self.auditor.report()?;
        write_all(alloc, &report.evidence)
    }
}

/// What a ledger stores that was fed the bytes that an earlier one stored, or none, and then a batch of messages. Only the
/// votes of suspects and the certificates of their rounds are verified, as by [`audit_deferred`]. Memory is bounded by the
/// stored bytes, the batch and, for each of their rounds, the size of its committee. `AllocError` only where an allocation
/// failed.
pub fn store_batch<S: Listing<D>, D: Digest>(
    alloc: Global,
    committees: &Committees<S>,
    stored: &[u8],
    batch: &[u8],
) -> Result<Vec<u8>, AllocError>
    // All that `Ledger::store` states of what was fed.
    ensures { IfOk result (λ bytes. IsStored (⟦<S as Audited<D>>⟧.basis committees.now)
        (stored.now ++ batch.now) bytes.items) }
{
    let mut stream = Vec::new(alloc);
    stream.extend_from_slice(stored)?;
    stream.extend_from_slice(batch)?;
    store_stream::<S, D>(alloc, committees, stream.as_slice())
}

/// The evidence of a stream by a deferred audit, as messages.
fn store_stream<S: Listing<D>, D: Digest>(
    alloc: Global,
    committees: &Committees<S>,
    stream: &[u8],
) -> Result<Vec<u8>, AllocError>
    ensures { IfOk result (λ bytes.
        IsStored (⟦<S as Audited<D>>⟧.basis committees.now) stream.now bytes.items) }
{
    let found = audit_deferred::<S, D>(alloc, committees, stream)?;
    write_all(alloc, &found.evidence)
}

/// Some evidence as messages, one after the other.
fn write_all<S: Listing<D>, D: Digest>(
    alloc: Global,
    evidence: &[Evidence<S, D>],
) -> Result<Vec<u8>, AllocError>
    ensures { IfOk result (λ bytes.
        bytes.items ≡ flat_map (λ e.
        ⟦<Activity<S, D> as Read>⟧.encoding (activity_of e)) evidence.now) }
{
    let mut bytes = Vec::new(alloc);
    for item in evidence {
        write(item, &mut bytes)?;
    }
    Ok(bytes)
}

/// Appends an evidence as a message.
fn write<S: Listing<D>, D: Digest>(
    evidence: &Evidence<S, D>,
    buf: &mut Vec<u8>,
) -> Result<(), AllocError>
    ensures { OnOk result (buf.new.items ≡ buf.old.items ++
        ⟦<Activity<S, D> as Read>⟧.encoding (activity_of evidence.now)) }
{
    match evidence {
        Evidence::ConflictingNotarize(conflict) => write_tagged(7, conflict, buf),
        Evidence::ConflictingFinalize(conflict) => write_tagged(8, conflict, buf),
        Evidence::NullifyFinalize(conflict) => write_tagged(9, conflict, buf),
    }
}
