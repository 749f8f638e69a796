//! A reader over bytes in memory.

ghost use Rattle.std.specs.Prelude.{◌≡◌, ◌<◌, ◌↔◌, Some, IfErr, IfOk, IsErr, IsSome, length, min};
ghost use Rattle.std.specs.Io.{ReadsAtMost};
ghost use Rattle.std.specs.Io.KnownBytes.{ReadConsumes};
ghost use Rattle.std.specs.IoError.{error_kind};
ghost use Rattle.faulty_io.specs.Devices.{Reader, one_more};
ghost use Rattle.faulty_io.specs.Trouble.{error_at, step_at};

use crate::trouble::Trouble;
use std::io;
use std::io::Read;
use std::marker::Model;

/// A reader that gives its bytes in order, at most `step` of them a call, and fails or falls short where its trouble says.
/// A call that fails gives nothing, so a later one goes on where the last that gave something stopped.
#[derive(Drop)]
pub struct Source<'a> {
    left: &'a [u8],
    step: usize,
    trouble: Trouble,
    calls: usize,
}

impl<'a> Model for Source<'a> {
    ghost Value = { Reader };

    ghost view = { λ s. record {
      left = s.left.now;
      step = s.step;
      trouble = s.trouble;
      calls = s.calls;
    } };

    ghost invariant = { λ s. 0 < s.step };
}

impl<'a> Source<'a> {
    /// A reader of these bytes, before its first call. With a `step` of `usize::MAX` a call gives as many
    /// bytes as its buffer has room for.
    pub fn new(bytes: &'a [u8], step: usize, trouble: Trouble) -> Source<'a>
        requires { 0 < step }
        ensures { result ≡ record { left = bytes.now; step = step; trouble = trouble; calls = 0 } }
    {
        Source {
            left: bytes,
            step,
            trouble,
            calls: 0,
        }
    }

    /// The bytes that were not given yet.
    pub fn left(&self) -> &[u8]
        ensures { result.now ≡ self.now.left }
    {
        self.left
    }

    /// How many calls were made, including those that failed.
    pub fn calls(&self) -> usize
        ensures { result ≡ self.now.calls }
    {
        self.calls
    }
}

impl Read for Source<'_> {
    ghost remaining = { λ s. Some s.left };

    fn read(&mut self, buf: &mut [u8]) -> io::Result<usize>
        ensures bound { ReadsAtMost result buf.new }
        ensures bytes { ReadConsumes (Some self.old.left) (Some self.new.left) result buf.new }
        ensures fails { IsErr result ↔ IsSome (error_at self.old.trouble self.old.calls) }
        ensures kind { IfErr result (λ e.
            error_at self.old.trouble self.old.calls ≡ Some (error_kind e)) }
        ensures count { IfOk result (λ n.
            n ≡ min (min (step_at self.old.trouble self.old.calls self.old.step) (length buf.old))
            (length self.old.left)) }
        ensures state { self.new ≡ record self.old {
          left = self.new.left;
          calls = one_more self.old.calls;
        } }
    {
        let call = self.calls;
        self.calls = call.saturating_add(1);
        if let Some(kind) = self.trouble.error_at(call) {
            return Err(io::Error::from(kind));
        }
        let all = self.left;
        let step = self.trouble.step_at(call, self.step);
        let count = step.min(buf.len()).min(all.len());
        buf[..count].copy_from_slice(&all[..count]);
        self.left = &all[count..];
        Ok(count)
    }
}
