//! The messages of a stream, cut by the classes of their rounds.

ghost use Rattle.std.specs.Prelude.{◌≡◌, ⊤, IfOk, length, map, replicate, [], List, ℕ};
ghost use Rattle.simplex_base.specs.Format.{IsLawful, format_under};
ghost use Rattle.simplex_shards.specs.Cut.{class_under, classes_of};
ghost use Rattle.simplex_shards.specs.Split.{IsSplit, items_in};

use crate::cut::Cut;
use simplex_base::codec::{Encoding, Read, Write};
use simplex_base::positions::Roundable;
use simplex_stream::fault::{Fault, fault_at};
use simplex_stream::messages::{Message, Show, Visitor, for_each_message};
use std::alloc::{AllocError, Global};

/// What [`split`] returns of a stream.
#[derive(Drop)]
pub struct Shards {
    /// For each class its messages, joined in the order of the stream: `parts[i]` has those of class i.
    pub parts: Vec<Vec<u8>>,
    /// The number of messages read, of all classes.
    pub read: usize,
    /// Where the stream stops being messages, if it does.
    pub fault: Option<Fault>,
}

/// Appends each message to the part of its class.
#[derive(Drop)]
pub(crate) struct Scatter {
    /// For each class the messages so far.
    pub(crate) parts: Vec<Vec<u8>>,
}

impl<M: Message + Roundable + Write> Visitor<M> for Scatter {
    ghost use Rattle.simplex_shards.specs.Split.{Scatters};
    ghost use Rattle.simplex_shards.specs.SplitLaws.{scatters_none, scatters_more};

    type Context = Cut;

    ghost follows = { λ cut. Scatters M.round_of (class_under cut) M.encoding };

    ghost has_room = { λ _ _. ⊤ };

    fn take(
        &mut self,
        _alloc: Global,
        cut: &Cut,
        _size: usize,
        message: &M,
    ) -> Result<(), AllocError> {
        let class = cut.class_of(message.round()) as usize;
        if let Some(part) = self.parts.get_mut(class) {
            message.write(part)?;
        }
        Ok(())
    }

    ghost none = { λ cut. scatters_none M.round_of (class_under cut) M.encoding };

    ghost more = { λ cut. scatters_more M.round_of (class_under cut) M.encoding };

    ghost less = { λ _ _ _ room. room };

    ghost left = { λ _ _ _ _ _ _ room. room };
}

/// Cuts a stream of messages by the classes of their rounds, up to its end or first fault. Certificates are read under
/// `bound`, which has to be the number of participants of the greatest committee of the whole audit: the parts are whole
/// messages under it, and perhaps not under a smaller one. Nothing is verified. `AllocError` is returned only after an
/// allocation failed.
pub fn split<M: Show + Roundable + Write>(
    alloc: Global,
    bound: u32,
    cut: &Cut,
    stream: &[u8],
) -> Result<Shards, AllocError>
    ensures { IfOk result (λ shards. IsSplit (format_under ⟦<M as Read>⟧ bound) M.round_of
        (class_under cut.now) (classes_of cut.now) stream.now shards) }
{
    let mut scatter = Scatter {
        parts: empty_parts(alloc, cut.classes())?,
    };
    let progress = for_each_message::<M, Scatter>(alloc, cut, bound, stream, &mut scatter)?;
    let place = stream.len() - progress.rest.len();
    Ok(Shards {
        parts: scatter.parts,
        read: progress.read,
        fault: fault_at(place, progress.stop),
    })
}

/// So many empty parts.
pub(crate) fn empty_parts<T: Drop>(alloc: Global, classes: u32) -> Result<Vec<Vec<T>>, AllocError>
    ensures { IfOk result (λ parts. items_in parts ≡ replicate classes []) }
{
    let mut parts = Vec::with_capacity(alloc, classes as usize)?;
    'classes: for _ in 0..classes {
        parts.push(Vec::new(alloc))?;
    }
    Ok(parts)
}
