//! What `audit_split` says on standard error.

ghost use Rattle.std.specs.Prelude.{◌≡◌};
ghost use Rattle.simplex_splitting.specs.Ending.{status_of_trouble};

use itoa::Buffer;
use simplex_audit::audit::Watched;
use simplex_cli::command::say;
use simplex_cli::status::Status;
use std::alloc::AllocError;
use std::io::Write;

/// How the program is used.
pub const USAGE: &str =
    "usage: audit_split [--signature 32|48|64|96] [--seed NUMBER] BOUND CLASSES PREFIX FILE...\n";

/// Why `audit_split` ends without having cut all files to their ends or faults.
#[derive(Clone, Copy)]
pub enum Trouble {
    /// The arguments are not as they have to be.
    Usage,
    /// The file at this place among the files has the name of a part.
    PartNamed(usize),
    /// The file at this place among the files cannot be read to its end.
    Unread(usize),
    /// The part of this class cannot be written.
    Unwritten(usize),
    /// A line cannot be written to standard output.
    Unsaid,
    /// An allocation failed.
    OutOfMemory,
}

impl From<AllocError> for Trouble {
    ghost use Rattle.simplex_splitting.specs.declared.complaints.Trouble.{Trouble};

    ghost from_gives = { λ _ trouble. trouble ≡ Trouble.OutOfMemory };

    fn from(_error: AllocError) -> Trouble {
        Trouble::OutOfMemory
    }
}

impl Trouble {
    /// The status that the program ends with: `Usage` for what its arguments say, else `Failed`.
    pub fn status(self) -> Status
        ensures { result ≡ status_of_trouble self }
    {
        match self {
            Trouble::Usage | Trouble::PartNamed(_) => Status::Usage,
            Trouble::Unread(_) | Trouble::Unwritten(_) => Status::Failed,
            Trouble::Unsaid | Trouble::OutOfMemory => Status::Failed,
        }
    }

    /// What is said of it, behind a file's name if it is of a file.
    fn text(self) -> &'static str {
        match self {
            Trouble::Usage => USAGE,
            Trouble::PartNamed(_) => ": names a part\n",
            Trouble::Unread(_) => ": read failed\n",
            Trouble::Unwritten(_) => ": write failed\n",
            Trouble::Unsaid => "write failed\n",
            Trouble::OutOfMemory => "out of memory\n",
        }
    }
}

/// Says which trouble it is, with the name of the file that it is of. The parts have this prefix, and these are the files.
pub(crate) fn complain<E: Write>(
    errors: &mut Watched<E>,
    prefix: &str,
    files: &[String],
    trouble: Trouble,
) {
    if !matches!(trouble, Trouble::Usage) {
        say(errors, b"audit_split: ");
    }
    match trouble {
        Trouble::PartNamed(place) | Trouble::Unread(place) => {
            if let Some(name) = files.get(place) {
                say(errors, name.as_bytes());
            }
        }
        Trouble::Unwritten(class) => {
            let mut digits = Buffer::new();
            say(errors, prefix.as_bytes());
            say(errors, b".");
            say(errors, digits.format(class).as_bytes());
        }
        Trouble::Usage | Trouble::Unsaid | Trouble::OutOfMemory => {}
    }
    say(errors, trouble.text().as_bytes());
}
