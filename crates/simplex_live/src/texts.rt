//! What `audit_live` writes about itself.

/// What is written by `audit_live --version`.
pub const VERSION: &str = "audit_live 0.3.0\n";

/// How the program is used.
pub const USAGE: &str =
    "usage: audit_live [--retain VIEWS] [--ahead VIEWS] [--keys FILE] [--state FILE] \
    NAMESPACE KEY...|--verdicts BYTES PARTICIPANTS\n";

/// What `audit_live --help` writes behind the line of use.
pub const HELP: &str = "
Listens to messages on standard input, and writes a line at once for each two votes that contradict and each split.

  --retain VIEWS  how many views before the finalized one are retained; 1000 unless given
  --ahead VIEWS   how many views ahead votes are taken; 10 unless given
  --keys FILE     a file of keys and @EPOCH, parted by white space; lines that begin with # are left out
  --state FILE    a file that is written behind the lines, and read at the next start
  NAMESPACE       what the votes are signed under
  KEY             64 hexadecimal digits; behind @EPOCH those of the committee of an epoch
  --verdicts 48|64|96 PARTICIPANTS
                  in place of NAMESPACE and keys: signatures of so many bytes, each with the caller's verdict behind it

  audit_live --covers FILE  writes how many bytes of the input a state covers
  audit_live --version      writes the version

Options stand in this order, before the namespace. It ends with 0 if all was read, 1 at a fault of the input, 2 for wrong
arguments and 3 if a device or an allocation failed.
";
