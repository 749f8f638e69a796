//! Writes texts.

ghost use Rattle.std.specs.Prelude.{◌≡◌, ◌↔◌, false, IsTrue, Err, IfErr, OnOk};
ghost use Rattle.std.specs.Io.KnownBytes.{Appends};
ghost use Rattle.simplex_stream.specs.Text.{AppendsBeginning};
ghost use Rattle.simplex_stream.specs.Watched.{inner_of, has_failed, is_flushed};

use crate::run_error::RunError;
use crate::watched::Watched;
use std::io::Write;

/// Writes all of a text and flushes. `Write` exactly where a write or the flush failed, an interrupted one included, and then a
/// prefix of the text was written.
pub fn write_text<W: Write>(writer: &mut Watched<W>, text: &[u8]) -> Result<(), RunError>
    requires { has_failed writer.old ≡ false }
    ensures written { OnOk result
        (Appends (W.contents (inner_of writer.old)) (W.contents (inner_of writer.new)) text.now) }
    ensures flushed { OnOk result (IsTrue (is_flushed writer.new)) }
    ensures beginning { AppendsBeginning (W.contents (inner_of writer.old))
        (W.contents (inner_of writer.new)) text.now }
    ensures failed { IsTrue (has_failed writer.new) ↔ (result ≡ Err RunError.Write) }
    ensures error { IfErr result (λ e. e ≡ RunError.Write) }
{
    let mut count = 0;
    'parts: while count < text.len() {
        match writer.write(&text[count..]) {
            Ok(0) => return Err(RunError::Write),
            Ok(taken) => count += taken,
            Err(_) => return Err(RunError::Write),
        }
    }
    match writer.flush() {
        Ok(()) => Ok(()),
        Err(_) => Err(RunError::Write),
    }
}
