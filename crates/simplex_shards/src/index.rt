//! A table of the messages of a stream: of which round each is, where it stands, and what it is. Nothing is verified.

ghost use Rattle.std.specs.Prelude.{◌≡◌, ◌+◌, ◌<◌, ◌^◌, ℕ, IfOk, length};
ghost use Rattle.simplex_base.specs.Format.{format_under};
ghost use Rattle.simplex_shards.specs.Index.{IsIndex};

use simplex_base::codec::{Encoding, Read};
use simplex_base::positions::Roundable;
use simplex_stream::fault::{Fault, fault_at};
use simplex_stream::messages::{Message, Show, Visitor, for_each_message};
use std::alloc::{AllocError, Global};

/// A message of a stream.
#[repr(C)]
#[derive(Clone, Copy, Debug)]
pub struct Row {
    /// The epoch of its round.
    pub epoch: u64,
    /// The view of its round.
    pub view: u64,
    /// The 0-based offset of its first byte in the stream.
    pub place: usize,
    /// The number of its bytes.
    pub length: usize,
    /// How many attestations it has: one of a vote, two of evidence, and those that a certificate lists.
    pub attestations: usize,
    /// The number of its kind, 0 to 9: the tag with which it is encoded.
    pub kind: u32,
}

/// A message that a row can describe.
pub trait Tabular: Message + Roundable {
    ghost use Rattle.simplex_shards.specs.declared.index.Row as rows;
    ghost use Rattle.simplex_shards.specs.Rows.{IsRow};

    /// Its row, if it begins at a place.
    ghost row_of: { ℕ → Self → rows.Row };

    /// Its row, if it begins at a place and has so many bytes.
    fn row(&self, place: usize, size: usize) -> Row
        requires { size ≡ length (Self.encoding self.now) }
        ensures { result ≡ row_of place self.now };

    /// The row has the message's round, place and length.
    ghost row_is: { (place : ℕ) (message : Self) →
        IsRow Self.round_of Self.encoding place message (row_of place message) };
}

/// What [`index`] returns of a stream.
#[derive(Drop)]
pub struct Table {
    /// One row for each message, in the order of the stream.
    pub rows: Vec<Row>,
    /// Where the stream stops being messages, if it does.
    pub fault: Option<Fault>,
}

/// Notes a row for each message.
#[derive(Drop)]
pub(crate) struct Tabulator {
    /// The rows so far.
    pub(crate) rows: Vec<Row>,
    /// The place behind the last message.
    pub(crate) place: usize,
}

impl<M: Tabular> Visitor<M> for Tabulator {
    ghost use Rattle.std.proofs.Common.{arith};
    ghost use Rattle.simplex_stream.specs.PlaceLaws.{room_behind};
    ghost use Rattle.simplex_shards.specs.Rows.{Tabulates};
    ghost use Rattle.simplex_shards.specs.RowLaws.{tabulates_none, tabulates_more};

    type Context = ();

    ghost follows = { λ _. Tabulates M.row_of M.encoding };

    ghost has_room = { λ table size. table.place + size < 2 ^ 64 };

    fn take(
        &mut self,
        _alloc: Global,
        _context: &(),
        size: usize,
        message: &M,
    ) -> Result<(), AllocError> {
        self.rows.push(message.row(self.place, size))?;
        self.place += size;
        Ok(())
    }

    ghost none = { λ _. tabulates_none M.row_of M.encoding };

    ghost more = { λ _. tabulates_more M.row_of M.encoding };

    ghost less = { λ state n k room. Prim.omega (arith, room) };

    ghost left = { λ _ m a b n one. room_behind M.encoding a.place b.place n m one.place_is };
}

/// A row for each message of a stream, up to its end or first fault. Certificates are read under `bound`, the number of
/// participants of the greatest committee. Nothing is verified. `AllocError` is returned only after an allocation failed.
pub fn index<M: Tabular + Show>(
    alloc: Global,
    bound: u32,
    stream: &[u8],
) -> Result<Table, AllocError>
    ensures { IfOk result (λ table. IsIndex (format_under ⟦<M as Read>⟧ bound) M.round_of M.row_of
        stream.now table) }
{
    let mut tabulator = Tabulator {
        rows: Vec::new(alloc),
        place: 0,
    };
    let progress = for_each_message::<M, Tabulator>(alloc, &(), bound, stream, &mut tabulator)?;
    let place = stream.len() - progress.rest.len();
    Ok(Table {
        rows: tabulator.rows,
        fault: fault_at(place, progress.stop),
    })
}
