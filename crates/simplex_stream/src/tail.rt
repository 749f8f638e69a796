//! The undecoded tail of a stream that comes in pieces.

ghost use Rattle.std.specs.Prelude.{◌≡◌, ◌↔◌, ◌++◌, ◌+◌, ◌-◌, ◌<◌, ◌≤◌, ◌^◌, [], IsTrue, OnOk, OnErr, length, drop};
ghost use Rattle.simplex_base.specs.Format.{format_under};
ghost use Rattle.simplex_stream.specs.Tail.{bytes_held, due_of, Awaits};

use crate::pieces::drop_front;
use simplex_base::codec::Read;
use std::alloc::{AllocError, Global};

/// The bytes of a stream after its last whole message, and how many of them there have to be before it can pay to look for a
/// message there again.
#[derive(Drop)]
pub struct Tail {
    held: Vec<u8>,
    due: usize,
}

impl Tail {
    /// An empty tail.
    pub fn new(alloc: Global) -> Tail
        ensures empty { bytes_held result ≡ [] }
        ensures due { due_of result ≡ 0 }
    {
        Tail {
            held: Vec::new(alloc),
            due: 0,
        }
    }

    /// Its bytes.
    pub fn bytes(&self) -> &[u8]
        ensures { result.now ≡ bytes_held self.now }
    {
        self.held.as_slice()
    }

    /// Appends a piece. `AllocError` only where an allocation failed; its bytes are then as before.
    pub fn push(&mut self, piece: &[u8]) -> Result<(), AllocError>
        ensures held { OnOk result (bytes_held self.new ≡ bytes_held self.old ++ piece.now) }
        ensures kept { OnErr result (bytes_held self.new ≡ bytes_held self.old) }
        ensures due { due_of self.new ≡ due_of self.old }
    {
        self.held.extend_from_slice(piece)
    }

    /// Whether a message may be read at its start once a piece of this many bytes is appended. If not, none can.
    pub fn is_due(&self, more: usize) -> bool
        requires { length (bytes_held self.now) + more < 2 ^ 64 }
        ensures { IsTrue result ↔ (due_of self.now ≤ length (bytes_held self.now) + more) }
    {
        self.due <= self.held.len() + more
    }

    /// How many bytes are missing before a message may be read at its start.
    pub(crate) fn missing(&self) -> usize
        ensures { result ≡ due_of self.now - length (bytes_held self.now) }
    {
        self.due.saturating_sub(self.held.len())
    }

    /// Drops all its bytes.
    pub(crate) fn clear(&mut self)
        ensures { bytes_held self.new ≡ [] }
    {
        self.held.clear();
    }

    /// The allocator of its bytes.
    pub fn allocator(&self) -> Global {
        *self.held.allocator()
    }

    /// Drops the first bytes, as many as the messages take that were read there. No message can be read at the start of those
    /// that are left.
    pub fn advance<M: Read>(&mut self, count: usize, cfg: &M::Cfg)
        requires { count ≤ length (bytes_held self.old) }
        ensures held { bytes_held self.new ≡ drop count (bytes_held self.old) }
        ensures awaits { Awaits (format_under ⟦<M as Read>⟧ cfg.now) self.new }
    {
        if count > 0 {
            drop_front(&mut self.held, count);
        }
        self.due = M::least_size(*self.held.allocator(), self.held.as_slice(), cfg);
    }
}
