//! A writer over a fixed array.

ghost use Rattle.std.specs.Prelude.{◌≡◌, ◌-◌, ◌≤◌, ◌↔◌, ◌&&◌, ◌||◌, [], false, Some, IfErr, IfOk, IsErr, IsSome, IsTrue, is_err, nat_lt, length, min, take};
ghost use Rattle.std.specs.Io.{WritesAtMost};
ghost use Rattle.std.specs.Io.KnownBytes.{WriteAppends, Keeps};
ghost use Rattle.std.specs.IoError.{error_kind};
ghost use Rattle.faulty_io.specs.Devices.{Writer, one_more};
ghost use Rattle.faulty_io.specs.Trouble.{error_at, step_at};

use crate::trouble::Trouble;
use std::io;
use std::io::Write;
use std::marker::Model;

/// How many bytes a [`Target`] has room for.
pub const ROOM: usize = 4096;

/// A writer that takes at most `step` bytes a call, and `room` bytes in all; after these its writes return 0.
/// Writes and flushes are counted each by themselves. They fail, and writes fall short, where their troubles
/// say. A write that fails takes nothing.
#[derive(Drop)]
pub struct Target {
    bytes: [u8; 4096],
    count: usize,
    step: usize,
    room: usize,
    writing: Trouble,
    flushing: Trouble,
    writes: usize,
    flushes: usize,
    pending: bool,
}

impl Model for Target {
    ghost Value = { Writer };

    ghost view = { λ t. record {
      held = take t.count t.bytes;
      step = t.step;
      room = t.room;
      writing = t.writing;
      flushing = t.flushing;
      writes = t.writes;
      flushes = t.flushes;
      pending = t.pending;
    } };

    ghost invariant = { λ t. t.count ≤ 4096 };
}

impl Target {
    /// An empty writer, with room for [`ROOM`] bytes at most, however much `room` is.
    pub fn new(step: usize, room: usize, writing: Trouble, flushing: Trouble) -> Target
        ensures { result ≡ record {
          held = [];
          step = step;
          room = room;
          writing = writing;
          flushing = flushing;
          writes = 0;
          flushes = 0;
          pending = false;
        } }
    {
        Target {
            bytes: [0; 4096],
            count: 0,
            step,
            room,
            writing,
            flushing,
            writes: 0,
            flushes: 0,
            pending: false,
        }
    }

    /// An empty writer without trouble.
    pub fn steady() -> Target
        ensures held { result.held ≡ [] }
        ensures steady { (result.writing ≡ Trouble.Never) × (result.flushing ≡ Trouble.Never) }
        ensures ample { (result.step ≡ usize.MAX) × (result.room ≡ usize.MAX) }
    {
        Target::new(usize::MAX, usize::MAX, Trouble::Never, Trouble::Never)
    }

    /// The bytes that it took.
    pub fn held(&self) -> &[u8]
        ensures { result.now ≡ self.now.held }
    {
        &self.bytes[..self.count]
    }

    /// Whether each byte that it took was flushed afterwards.
    pub fn is_flushed(&self) -> bool
        ensures { IsTrue result ↔ (self.now.pending ≡ false) }
    {
        !self.pending
    }

    /// How many writes and how many flushes were made, including those that failed.
    pub fn calls(&self) -> (usize, usize)
        ensures { (result.0 ≡ self.now.writes) × (result.1 ≡ self.now.flushes) }
    {
        (self.writes, self.flushes)
    }
}

impl Write for Target {
    ghost contents = { λ t. Some t.held };

    fn write(&mut self, buf: &[u8]) -> io::Result<usize>
        ensures bound { WritesAtMost result buf.now }
        ensures bytes { WriteAppends (Some self.old.held) (Some self.new.held) result buf.now }
        ensures fails { IsErr result ↔ IsSome (error_at self.old.writing self.old.writes) }
        ensures kind { IfErr result (λ e.
            error_at self.old.writing self.old.writes ≡ Some (error_kind e)) }
        ensures count { IfOk result (λ n.
            n ≡ min (min (step_at self.old.writing self.old.writes self.old.step) (length buf.now))
            (min self.old.room (4096 - length self.old.held))) }
        ensures room { self.new.room ≡ self.old.room -
            (length self.new.held - length self.old.held) }
        ensures pending { self.new.pending ≡
            (self.old.pending || nat_lt (length self.old.held) (length self.new.held)) }
        ensures state { self.new ≡ record self.old {
          held = self.new.held;
          room = self.new.room;
          pending = self.new.pending;
          writes = one_more self.old.writes;
        } }
    {
        let call = self.writes;
        self.writes = call.saturating_add(1);
        if let Some(kind) = self.writing.error_at(call) {
            return Err(io::Error::from(kind));
        }
        let start = self.count;
        let step = self.writing.step_at(call, self.step);
        let count = step.min(buf.len()).min(self.room.min(ROOM - start));
        self.bytes[start..start + count].copy_from_slice(&buf[..count]);
        self.count = start + count;
        self.room -= count;
        self.pending = self.pending || count > 0;
        Ok(count)
    }

    fn flush(&mut self) -> io::Result<()>
        ensures bytes { Keeps (Some self.old.held) (Some self.new.held) }
        ensures fails { IsErr result ↔ IsSome (error_at self.old.flushing self.old.flushes) }
        ensures kind { IfErr result (λ e.
            error_at self.old.flushing self.old.flushes ≡ Some (error_kind e)) }
        ensures state { self.new ≡ record self.old {
          flushes = one_more self.old.flushes;
          pending = self.old.pending && is_err result;
        } }
    {
        let call = self.flushes;
        self.flushes = call.saturating_add(1);
        match self.flushing.error_at(call) {
            Some(kind) => Err(io::Error::from(kind)),
            None => {
                self.pending = false;
                Ok(())
            }
        }
    }
}
