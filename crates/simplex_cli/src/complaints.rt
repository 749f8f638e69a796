//! What a program says as it ends. Nothing here allocates.

ghost use Rattle.std.specs.Prelude.{◌≡◌, ◌≤◌, ◌+◌, ◌++◌, length};
ghost use Rattle.simplex_cli.specs.Complaints.{complaint_of, complaint_at};

use crate::program::Program;
use crate::status::Failure;
use arrayvec::ArrayString;
use itoa::Buffer;

/// Three texts, one after another.
fn joined(before: &str, name: &str, after: &str) -> ArrayString<72>
    requires { length before.now + length name.now + length after.now ≤ 72 }
    ensures { result.bytes ≡ before.now ++ (name.now ++ after.now) }
{
    let mut text = ArrayString::new();
    text.push_str(before);
    text.push_str(name);
    text.push_str(after);
    text
}

/// The line on standard error for a failure, with its newline. The longest has 66 bytes.
pub fn complaint_of(program: Program, failure: Failure) -> ArrayString<72>
    ensures { result.bytes ≡ complaint_of program failure }
{
    let name = program.name();
    match failure {
        Failure::Usage => joined("usage: ", name, program.usage()),
        Failure::Read => joined("", name, ": read failed\n"),
        Failure::Write => joined("", name, ": write failed\n"),
        Failure::OutOfMemory => joined("", name, ": out of memory\n"),
    }
}

/// The line on standard error for a fault at a byte, with its newline. The longest, of 50 bytes, fits.
pub fn complaint_at(program: Program, place: usize) -> ArrayString<72>
    ensures { result.bytes ≡ complaint_at program place }
{
    let mut number = Buffer::new();
    let mut text = ArrayString::new();
    text.push_str(program.name());
    text.push_str(": fault at byte ");
    text.push_str(number.format(place));
    text.push_str("\n");
    text
}
