//! The bytes of one class in a stream, as ranges of it, so that they need not be copied.

ghost use Rattle.std.specs.Prelude.{◌≡◌, ◌+◌, ◌<◌, ◌^◌, ◌↔◌, ℕ, List, All, IfOk, IsTrue, OnOk};
ghost use Rattle.simplex_base.specs.Format.{format_under};
ghost use Rattle.simplex_base.specs.Positions as positions;
ghost use Rattle.simplex_shards.specs.Cut.{class_under};
ghost use Rattle.simplex_shards.specs.Index.{IsIndex};
ghost use Rattle.simplex_shards.specs.Ranges.{ArePart, AreRanges, appended, end_of_range, range_of_row, with_row};
ghost use Rattle.simplex_shards.specs.Rows.{row_round};
ghost use Rattle.simplex_shards.specs.declared.index.Table as tables;
ghost use Rattle.simplex_shards.specs.declared.ranges.Range as pieces;

use crate::cut::Cut;
use crate::index::{Row, Tabular};
use simplex_base::codec::Read;
use simplex_base::positions::{Epoch, Round, View};
use std::alloc::{AllocError, Global};

/// Bytes of a stream that stand together.
#[repr(C)]
#[derive(Clone, Copy, Debug)]
pub struct Range {
    /// The 0-based offset of the first of them in the stream.
    pub place: usize,
    /// How many there are.
    pub length: usize,
}

impl Row {
    /// Its round.
    pub fn round(&self) -> Round
        ensures { result ≡ row_round self.now }
    {
        Round::new(Epoch::new(self.epoch), View::new(self.view))
    }

    /// The bytes of its message.
    pub fn range(&self) -> Range
        ensures { result ≡ range_of_row self.now }
    {
        Range {
            place: self.place,
            length: self.length,
        }
    }
}

/// Where the messages of one class stand, in the order of the rows. Neighbours are joined: no range begins where the one before
/// it ends. No range is empty if no row is. Fed to an auditor one after another they are the part of this class. The rows are
/// those that [`index`](crate::index::index) returns, of the whole stream or of any neighbouring messages. `AllocError` is
/// returned only after an allocation failed.
pub fn ranges(alloc: Global, rows: &[Row], cut: &Cut, class: u32) -> Result<Vec<Range>, AllocError>
    requires { All (λ row. row.place + row.length < 2 ^ 64) rows.now }
    ensures { IfOk result (λ ranges. AreRanges (class_under cut.now) class rows.now ranges.items) }
{
    let mut ranges = Vec::new(alloc);
    'rows: for row in rows {
        push_row(&mut ranges, row, cut, class)?;
    }
    Ok(ranges)
}

/// Appends the range of a row if its round is of a class.
fn push_row(ranges: &mut Vec<Range>, row: &Row, cut: &Cut, class: u32) -> Result<(), AllocError>
    requires { row.now.place + row.now.length < 2 ^ 64 }
    ensures { OnOk result (ranges.new.items ≡
        with_row (class_under cut.now) class ranges.old.items row.now) }
{
    if cut.class_of(row.round()) != class {
        return Ok(());
    }
    push_range(ranges, row.range())
}

/// Whether a range begins where another ends.
fn is_next(before: &Range, range: &Range) -> bool
    ensures { IsTrue result ↔ end_of_range before.now ≡ range.now.place }
{
    before.place <= range.place && before.length == range.place - before.place
}

/// Appends a range, or joins it to the last one if it begins where that one ends.
pub(crate) fn push_range(ranges: &mut Vec<Range>, range: Range) -> Result<(), AllocError>
    requires { range.place + range.length < 2 ^ 64 }
    ensures { OnOk result (ranges.new.items ≡ appended ranges.old.items range) }
{
    let Some(last) = ranges.last() else {
        ranges.push(range)?;
        return Ok(());
    };
    if !is_next(last, &range) {
        ranges.push(range)?;
        return Ok(());
    }
    let (place, length) = (last.place, last.length + range.length);
    let end = ranges.len() - 1;
    ranges[end] = Range { place, length };
    Ok(())
}

/// The ranges of a class of rounds, from all rows of a stream, are within the stream, and their bytes are the messages of the
/// class. So the report of these ranges is that of the class's part. A call gives its caller what the clause states.
pub fn ranges_are_parts<M: Tabular>()
    ensures { (bound : ℕ) (class : positions.Round → ℕ) (i : ℕ) (stream : List ℕ)
        (table : tables.Table) (ranges : List pieces.Range) →
        IsIndex (format_under ⟦<M as Read>⟧ bound) M.round_of M.row_of stream table →
        AreRanges class i table.rows.items ranges →
        ArePart (format_under ⟦<M as Read>⟧ bound) M.round_of class i stream ranges }
{}
