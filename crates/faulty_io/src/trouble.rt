//! When the calls of a device fail or fall short.

ghost use Rattle.std.specs.Prelude.{◌≡◌};
ghost use Rattle.faulty_io.specs.Trouble.{error_at, step_at};

use std::io::ErrorKind;

/// When the calls of a device fail, and by which kind of error, or fall short. The first call is call 0.
#[derive(Clone, Copy, PartialEq, Eq)]
pub enum Trouble {
    /// No call fails.
    Never,
    /// This call fails, and no other.
    Once(usize, ErrorKind),
    /// This call and each later one fails.
    Since(usize, ErrorKind),
    /// Each call from the first of these on and before the second fails.
    Between(usize, usize, ErrorKind),
    /// This call moves a byte at most. No call fails.
    Short(usize),
}

impl Trouble {
    /// The error of a call, if it fails.
    pub fn error_at(self, call: usize) -> Option<ErrorKind>
        ensures { result ≡ error_at self call }
    {
        match self {
            Trouble::Once(failing, kind) if call == failing => Some(kind),
            Trouble::Since(first, kind) if first <= call => Some(kind),
            Trouble::Between(first, end, kind) if first <= call && call < end => Some(kind),
            _ => None,
        }
    }

    /// How many bytes a call moves at most, where it would move `step` without trouble.
    pub fn step_at(self, call: usize, step: usize) -> usize
        ensures { result ≡ step_at self call step }
    {
        match self {
            Trouble::Short(short) if call == short => step.min(1),
            _ => step,
        }
    }
}
