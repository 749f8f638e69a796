//! The messages of a stream in one order, each once, for engines whose shuffles keep no order.

ghost use Rattle.std.specs.Prelude.{◌≡◌, ⊤, ℕ, IfOk, List};
ghost use Rattle.std.specs.BTreeSet.{IsOrdered};
ghost use Rattle.std.specs.Cmp.Lexicographic.{slice_cmp};
ghost use Rattle.std.specs.List.{flat_map};
ghost use Rattle.std.specs.Ordering.{nat_cmp};
ghost use Rattle.simplex_base.specs.Format.{format_under};
ghost use Rattle.simplex_scheme.specs.Committees.{Schedule};
ghost use Rattle.simplex_shards.specs.Accused.{AccuseSame};
ghost use Rattle.simplex_shards.specs.Canonical.{HaveSameMessages, IsCanonical};
ghost use Rattle.simplex_shards.specs.declared.canonical.CanonicalForm as forms;

use crate::laws::format_laws;
use simplex_audit::basis::Audited;
use simplex_base::codec::{Encoding, Read, Write};
use simplex_laws::laws::{evidence_is_determined, splits_are_determined};
use simplex_scheme::scheme::{Digest, Listing};
use simplex_stream::fault::{Fault, fault_at};
use simplex_stream::messages::{Message, Show, Visitor, for_each_message};
use std::alloc::{AllocError, Global};
use std::collections::BTreeSet;

/// What [`canonical`] returns of a stream.
#[derive(Drop)]
pub struct CanonicalForm {
    /// The messages in the ascending order of their bytes, each once, joined.
    pub bytes: Vec<u8>,
    /// The number of messages read, repeated ones too.
    pub read: usize,
    /// Where the stream stops being messages, if it does.
    pub fault: Option<Fault>,
}

/// Collects messages in order, each once.
#[derive(Drop)]
pub(crate) struct Collector {
    /// Their encodings.
    pub(crate) messages: BTreeSet<Vec<u8>>,
}

impl<M: Message + Write> Visitor<M> for Collector {
    ghost use Rattle.simplex_shards.specs.Canonical.{Collects};
    ghost use Rattle.simplex_shards.specs.CanonicalLaws.{collects_none, collects_more};

    type Context = ();

    ghost follows = { λ _. Collects M.encoding };

    ghost has_room = { λ _ _. ⊤ };

    fn take(
        &mut self,
        alloc: Global,
        _context: &(),
        size: usize,
        message: &M,
    ) -> Result<(), AllocError> {
        let mut bytes = Vec::with_capacity(alloc, size)?;
        message.write(&mut bytes)?;
        self.messages.insert(bytes)?;
        Ok(())
    }

    ghost none = { λ _. collects_none M.encoding };

    ghost more = { λ _. collects_more M.encoding };

    ghost less = { λ _ _ _ room. room };

    ghost left = { λ _ _ _ _ _ _ room. room };
}

/// The messages of a stream in the ascending order of their bytes, each once, up to the stream's end or first fault. So streams
/// with the same messages, in any order and however often, have the same bytes here. An audit of these accuses whom an audit of
/// the stream accuses and has its splits, as [`accuses_same`] says. Certificates are read under `bound`, the number of
/// participants of the greatest committee. Nothing is verified. `AllocError` is returned only after an allocation failed.
pub fn canonical<M: Show + Write>(
    alloc: Global,
    bound: u32,
    stream: &[u8],
) -> Result<CanonicalForm, AllocError>
    ensures canonical { IfOk result (λ form.
        IsCanonical (format_under ⟦<M as Read>⟧ bound) stream.now form) }
    ensures same { IfOk result (λ form. (other : List ℕ) (its : forms.CanonicalForm) →
        HaveSameMessages (format_under ⟦<M as Read>⟧ bound) stream.now other →
        IsCanonical (format_under ⟦<M as Read>⟧ bound) other its →
        form.bytes.items ≡ its.bytes.items) }
{
    let mut collector = Collector {
        messages: BTreeSet::new(alloc),
    };
    let progress = for_each_message::<M, Collector>(alloc, &(), bound, stream, &mut collector)?;
    let place = stream.len() - progress.rest.len();
    let bytes = join(alloc, collector.messages)?;
    Ok(CanonicalForm {
        bytes,
        read: progress.read,
        fault: fault_at(place, progress.stop),
    })
}

/// The encodings, joined.
fn join(alloc: Global, messages: BTreeSet<Vec<u8>>) -> Result<Vec<u8>, AllocError>
    ensures joined { IfOk result (λ bytes.
        bytes.items ≡ flat_map (λ message. message.items) messages.keys) }
    ensures ordered { IsOrdered (λ a b. slice_cmp nat_cmp a.items b.items) messages }
{
    let mut bytes = Vec::new(alloc);
    'messages: for message in messages {
        bytes.extend_from_slice(&message)?;
    }
    Ok(bytes)
}

/// Who is accused and which rounds are split does not depend on the order of messages, or on how often they come. So audits of
/// two streams with the same messages accuse the same and have the same splits, and so do audits of a stream and of its
/// canonical form. Which two votes are an evidence may depend on the order. A call gives its caller what the clauses state.
pub fn accuses_same<S: Listing<D>, D: Digest>()
    ensures streams { (committees : Schedule S) (stream other : List ℕ) →
        HaveSameMessages (⟦<S as Audited<D>>⟧.basis committees).format stream other →
        AccuseSame (⟦<S as Audited<D>>⟧.basis committees) stream other }
    ensures canonical { (committees : Schedule S) (stream : List ℕ) (form : forms.CanonicalForm) →
        IsCanonical (⟦<S as Audited<D>>⟧.basis committees).format stream form →
        AccuseSame (⟦<S as Audited<D>>⟧.basis committees) stream form.bytes.items }
{
    format_laws::<S, D>();
    evidence_is_determined::<S, D>();
    splits_are_determined::<S, D>();
}
