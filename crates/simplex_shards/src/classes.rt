//! Where the messages of each class of a stream stand.

ghost use Rattle.std.specs.Prelude.{◌≡◌, ◌+◌, ◌<◌, ◌^◌, IfOk, OnOk};
ghost use Rattle.simplex_base.specs.Format.{format_under};
ghost use Rattle.simplex_shards.specs.Classes.{AreClassRanges, Notes};
ghost use Rattle.simplex_shards.specs.Cut.{class_under, classes_of};

use crate::cut::Cut;
use crate::peek::{Peek, Peeked, peek_or_read};
use crate::ranges::{Range, push_range};
use crate::split::empty_parts;
use simplex_base::codec::Read;
use simplex_stream::fault::{Fault, fault_at};
use simplex_stream::messages::stop_of;
use std::alloc::{AllocError, Global};

/// What [`class_ranges`] returns of a stream.
#[derive(Drop)]
pub struct ClassRanges {
    /// For each class where its messages stand, in the order of the stream: `ranges[i]` has those of class i.
    pub ranges: Vec<Vec<Range>>,
    /// The number of messages read, of all classes.
    pub read: usize,
    /// Where the stream stops being messages, if it does.
    pub fault: Option<Fault>,
}

/// Notes for each class where its messages stand.
#[derive(Drop)]
pub(crate) struct Locator {
    /// For each class the ranges so far.
    pub(crate) ranges: Vec<Vec<Range>>,
    /// The place behind the last message.
    pub(crate) place: usize,
}

impl Locator {
    /// Notes where one more message stands.
    fn note(&mut self, cut: &Cut, message: &Peeked) -> Result<(), AllocError>
        requires { self.old.place + message.now.length < 2 ^ 64 }
        ensures { OnOk result (Notes (class_under cut.now) message.now self.old self.new) }
    {
        let class = cut.class_of(message.round) as usize;
        let place = self.place;
        self.place += message.length;
        if let Some(ranges) = self.ranges.get_mut(class) {
            push_range(
                ranges,
                Range {
                    place,
                    length: message.length,
                },
            )?;
        }
        Ok(())
    }
}

/// Where the messages of each class stand in a stream, up to its end or first fault. Neighbours are joined: of a class no range
/// begins where the one before it ends. No range is empty. Fed to an auditor one after another, the ranges of a class are its
/// part. The stream is read once, and certificates under `bound`, the number of participants of the greatest committee. Nothing
/// is verified. `AllocError` is returned only after an allocation failed.
pub fn class_ranges<M: Peek + Drop>(
    alloc: Global,
    bound: u32,
    cut: &Cut,
    stream: &[u8],
) -> Result<ClassRanges, AllocError>
    ensures { IfOk result (λ found. AreClassRanges (format_under ⟦<M as Read>⟧ bound) M.round_of M.row_of
        (class_under cut.now) (classes_of cut.now) stream.now found) }
{
    let mut locator = Locator {
        ranges: empty_parts(alloc, cut.classes())?,
        place: 0,
    };
    let mut rest: &[u8] = stream;
    let mut read = 0;
    'messages: while let Some(message) = peek_or_read::<M>(alloc, bound, rest)? {
        locator.note(cut, &message)?;
        rest = &rest[message.length..];
        read += 1;
    }
    let stop = stop_of::<M>(alloc, bound, rest)?;
    let fault = fault_at(locator.place, stop);
    let ranges = locator.ranges;
    Ok(ClassRanges {
        ranges,
        read,
        fault,
    })
}
