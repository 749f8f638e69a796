//! What `audit_live` says on standard error.

ghost use Rattle.std.specs.Prelude.{◌≡◌};
ghost use Rattle.simplex_live.specs.Ending.{status_of_trouble};

use crate::texts::USAGE;
use itoa::Buffer;
use simplex_audit::audit::{RunError, Watched};
use simplex_cli::command::say;
use simplex_cli::status::{Failure, Status};
use std::alloc::AllocError;
use std::io::Write;

/// Why `audit_live` ends without having read its input to the end, or fails.
#[derive(Clone, Copy)]
pub enum Trouble {
    /// The arguments end too early, or behind an option stands no number.
    Usage,
    /// Behind `--verdicts` stands no size of a signature.
    Size,
    /// The words name no committees, and the first of them begins with `--`.
    Order,
    /// The words name no committees: the one with this number, from 1, is neither a participant nor `@` and an epoch.
    Word(usize),
    /// The words name no committees: one has no participant, a key stands in one twice, or the epochs do not rise.
    Committees,
    /// The file of keys cannot be read, or is not UTF-8.
    KeyFile,
    /// Another program has the state.
    StateInUse,
    /// The state is of other committees, or no state.
    OtherState,
    /// The state cannot be read.
    UnreadState,
    /// The state cannot be written.
    UnwrittenState,
    /// The input cannot be read to its end, a line cannot be written, or an allocation failed.
    Run(Failure),
}

impl From<AllocError> for Trouble {
    ghost use Rattle.simplex_live.specs.declared.complaints.Trouble.{Trouble};
    ghost use Rattle.simplex_cli.specs.declared.status.Failure.{Failure};

    ghost from_gives = { λ _ trouble. trouble ≡ Trouble.Run Failure.OutOfMemory };

    fn from(_error: AllocError) -> Trouble {
        Trouble::Run(Failure::OutOfMemory)
    }
}

impl From<Failure> for Trouble {
    ghost use Rattle.simplex_live.specs.declared.complaints.Trouble.{Trouble};

    ghost from_gives = { λ failure trouble. trouble ≡ Trouble.Run failure };

    fn from(failure: Failure) -> Trouble {
        Trouble::Run(failure)
    }
}

impl From<RunError> for Trouble {
    ghost use Rattle.simplex_cli.specs.Status.{failure_of};
    ghost use Rattle.simplex_live.specs.declared.complaints.Trouble.{Trouble};

    ghost from_gives = { λ error trouble. trouble ≡ Trouble.Run (failure_of error) };

    fn from(error: RunError) -> Trouble {
        Trouble::Run(Failure::from(error))
    }
}

impl Trouble {
    /// The status that the program ends with: `Usage` for what its arguments name, else `Failed`.
    pub fn status(self) -> Status
        ensures { result ≡ status_of_trouble self }
    {
        match self {
            Trouble::Run(failure) => failure.status(),
            Trouble::KeyFile | Trouble::StateInUse => Status::Failed,
            Trouble::UnreadState | Trouble::UnwrittenState => Status::Failed,
            Trouble::Usage | Trouble::Size | Trouble::Order => Status::Usage,
            Trouble::Word(_) | Trouble::Committees | Trouble::OtherState => Status::Usage,
        }
    }

    /// What is said of it, without the number of a word.
    fn text(self) -> &'static str {
        match self {
            Trouble::Usage => "an option has no number or no file behind it",
            Trouble::Size => "--verdicts: neither 48 nor 64 nor 96",
            Trouble::Order =>
                "an option is unknown, stands twice, or stands behind one that comes later",
            Trouble::Word(_) =>
                "neither @EPOCH nor a key, or behind --verdicts a number of participants",
            Trouble::Committees => {
                "no committees: one is empty, a key stands in one twice, or the epochs do not rise"
            }
            Trouble::KeyFile => "--keys: the file cannot be read",
            Trouble::StateInUse => "--state: another program has the state",
            Trouble::OtherState => "--state: the file is of other committees, or no state",
            Trouble::UnreadState => "--state: the file cannot be read",
            Trouble::UnwrittenState => "--state: the state cannot be written",
            Trouble::Run(Failure::Usage) => "wrong arguments",
            Trouble::Run(Failure::Read) => "read failed",
            Trouble::Run(Failure::Write) => "write failed",
            Trouble::Run(Failure::OutOfMemory) => "out of memory",
        }
    }
}

/// What stands in front of each line on standard error.
const NAME: &[u8] = b"audit_live: ";

/// Says a number.
pub(crate) fn say_number<E: Write>(errors: &mut Watched<E>, number: u64) {
    let mut digits = Buffer::new();
    say(errors, digits.format(number).as_bytes());
}

/// Says what the trouble is, as a line, and behind one with the arguments how the program is used.
pub(crate) fn complain<E: Write>(errors: &mut Watched<E>, trouble: Trouble) {
    say(errors, NAME);
    if let Trouble::Word(number) = trouble {
        say(errors, b"word ");
        say_number(errors, number as u64);
        say(errors, b" behind the options: ");
    }
    say(errors, trouble.text().as_bytes());
    say(errors, b"\n");
    if trouble.status() == Status::Usage {
        say(errors, USAGE.as_bytes());
    }
}
