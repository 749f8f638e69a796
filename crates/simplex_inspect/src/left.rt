//! What is left of a stream when the lines of its first messages were written.

ghost use Rattle.std.specs.Prelude.{◌+◌, ◌<◌, ◌≤◌, ◌^◌, IsTrue, length};
ghost use Rattle.simplex_stream.specs.Tail.{bytes_held};

use crate::fault::SHOWN;
use simplex_stream::tail::Tail;

/// What is left of a stream: the lines of all messages before it were written, and none of its own.
#[derive(Drop)]
pub(crate) struct Left {
    /// The 0-based offset in the stream at which it begins.
    pub(crate) offset: usize,
    /// Its bytes.
    pub(crate) tail: Tail,
    /// Whether reading it is refused for one cause, whatever bytes follow. If not, it may be so.
    pub(crate) over: bool,
    ghost room: { offset + length (bytes_held tail) < 2 ^ 64 },
}

impl Left {
    /// Whether it begins with a fault whose line is the same whatever bytes follow.
    pub(crate) fn is_settled(&self) -> bool
        ensures over { IsTrue result → IsTrue self.now.over }
        ensures held { IsTrue result → 16 ≤ length (bytes_held self.now.tail) }
    {
        self.over && self.tail.bytes().len() >= SHOWN
    }
}
