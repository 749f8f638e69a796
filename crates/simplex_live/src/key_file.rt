//! Files of keys.

ghost use Rattle.std.specs.Prelude.{◌≡◌, ◌⊎◌, IfErr};

use crate::complaints::Trouble;
use simplex_cli::status::Failure;
use std::alloc::{AllocError, Global};
use std::fs::{File, Files};
use std::io::Read;

/// Words, and then those of a file: they are parted by white space, and lines that begin with `#` are left out. `KeyFile` if
/// the file cannot be read or is not UTF-8, and `Run` if an allocation failed.
pub(crate) fn words_of_file<F: Files<File = File>>(
    alloc: Global,
    files: &F,
    path: &str,
    words: &[String],
) -> Result<Vec<String>, Trouble>
    ensures { IfErr result (λ trouble. (trouble ≡ Trouble.KeyFile) ⊎ (trouble ≡ Trouble.Run Failure.OutOfMemory)) }
{
    let Ok(mut file) = File::open(files, path) else {
        return Err(Trouble::KeyFile);
    };
    let mut text = String::new(alloc);
    if file.read_to_string(&mut text).is_err() {
        return Err(Trouble::KeyFile);
    }
    Ok(named_words(alloc, words, text.as_str())?)
}

/// Words, and then those of a text. `AllocError` only if an allocation failed.
fn named_words(alloc: Global, words: &[String], text: &str) -> Result<Vec<String>, AllocError> {
    let mut named = Vec::new(alloc);
    'words: for word in words {
        named.push(String::from_str(alloc, word.as_str())?)?;
    }
    'lines: for line in text.lines() {
        if !line.starts_with("#") {
            push_words(alloc, line, &mut named)?;
        }
    }
    Ok(named)
}

/// Appends the words of a line.
fn push_words(alloc: Global, line: &str, named: &mut Vec<String>) -> Result<(), AllocError> {
    'line: for word in line.split_ascii_whitespace() {
        named.push(String::from_str(alloc, word)?)?;
    }
    Ok(())
}
