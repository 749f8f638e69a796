//! The files of the parts: those with a prefix, a dot and the number of a class as their names.

ghost use Rattle.std.specs.Prelude.{◌≡◌, ◌↔◌, All, Err, IfErr, IsTrue, OnOk, map, string_bytes};
ghost use Rattle.simplex_splitting.specs.Ending.{IsOfParts};
ghost use Rattle.simplex_splitting.specs.Files.{IsPartNamed, NamesPart};

use crate::complaints::Trouble;
use crate::parts::Parts;
use itoa::Buffer;
use simplex_cli::numbers::parse_number;
use simplex_stream::run_error::RunError;
use std::alloc::{AllocError, Global};
use std::fs::{File, Files, OpenOptions};
use std::io::Write;

/// Appends to the files of the parts. None of them stays open, so there may be more classes than a process may have open files.
#[derive(Drop)]
pub struct FileParts<'a, F: Files<File = File>> {
    alloc: Global,
    files: &'a F,
    prefix: &'a str,
    /// The class of the part that could not be written.
    failed: Option<usize>,
}

/// The name of the part of a class.
fn part_name(alloc: Global, prefix: &str, class: usize) -> Result<String, AllocError> {
    let mut name = String::from_str(alloc, prefix)?;
    name.push_str(".")?;
    let mut digits = Buffer::new();
    name.push_str(digits.format(class))?;
    Ok(name)
}

impl<'a, F: Files<File = File>> FileParts<'a, F> {
    /// Those with this prefix, of which none failed.
    pub fn new(alloc: Global, files: &'a F, prefix: &'a str) -> Self
        ensures { result.failed ≡ None }
    {
        FileParts {
            alloc,
            files,
            prefix,
            failed: None,
        }
    }

    /// Appends to a file. `false` if it cannot be written.
    fn write(&self, name: &str, bytes: &[u8]) -> bool {
        let mut how = OpenOptions::new();
        how.append(true);
        let Ok(mut file) = how.open(self.files, name) else {
            return false;
        };
        file.write_all(bytes).is_ok()
    }
}

impl<'a, F: Files<File = File>> Parts for FileParts<'a, F> {
    ghost use Rattle.std.specs.Prelude.{None, is_some, unwrap_or};

    ghost contents = { λ _ _. None };

    ghost has_failed = { λ parts. is_some parts.failed };

    ghost failed_at = { λ parts. unwrap_or parts.failed 0 };

    fn append(&mut self, class: usize, bytes: &[u8]) -> Result<(), RunError> {
        if bytes.is_empty() {
            return Ok(());
        }
        let name = part_name(self.alloc, self.prefix, class)?;
        if !self.write(name.as_str(), bytes) {
            self.failed = Some(class);
            return Err(RunError::Write);
        }
        Ok(())
    }

    fn failed_class(&self) -> usize {
        self.failed.unwrap_or(0)
    }
}

/// Makes the files of all parts anew, empty.
pub fn create_parts<F: Files<File = File>>(
    alloc: Global,
    files: &F,
    prefix: &str,
    classes: u32,
) -> Result<(), Trouble>
    ensures { IfErr result (IsOfParts classes) }
{
    'classes: for class in 0..classes {
        let name = part_name(alloc, prefix, class as usize)?;
        if File::create(files, name.as_str()).is_err() {
            return Err(Trouble::Unwritten(class as usize));
        }
    }
    Ok(())
}

/// Whether a file has the name of a part.
fn names_part(prefix: &str, classes: u32, name: &str) -> bool
    ensures { IsTrue result ↔ NamesPart prefix.now classes name.now }
{
    let Some(behind) = name.strip_prefix(prefix) else {
        return false;
    };
    let Some(number) = behind.strip_prefix(".") else {
        return false;
    };
    match parse_number(number) {
        Ok(class) => class < u64::from(classes),
        Err(_) => false,
    }
}

/// Refuses files of which one has the name of a part: the first of them.
pub fn check_names(prefix: &str, classes: u32, names: &[String]) -> Result<(), Trouble>
    ensures apart { OnOk result (All (λ name. ¬ NamesPart prefix.now classes name)
        (map string_bytes names.now)) }
    ensures named { IfErr result (IsPartNamed prefix.now classes (map string_bytes names.now)) }
{
    let mut place = 0;
    'names: for name in names {
        if names_part(prefix, classes, name.as_str()) {
            return Err(Trouble::PartNamed(place));
        }
        place += 1;
    }
    Ok(())
}
