//! The files of a state. A state is written anew into another file, which takes its place, and then by appending records.

ghost use Rattle.std.specs.Prelude.{IfErr};
ghost use Rattle.simplex_live.specs.Ending.{IsFailure, IsOfState};

use crate::complaints::Trouble;
use crate::state::{Mark, Recovered, head, record, recover};
use std::alloc::Global;
use std::fs;
use std::fs::{File, Files, OpenOptions};
use std::io::{ErrorKind, Read, Write};

/// A state on disk. As long as it is there no other program has it.
#[derive(Drop)]
pub struct Store<'a, F: Files<File = File>> {
    files: &'a F,
    path: &'a str,
    /// The path of what is written anew.
    next: String,
    head: Vec<u8>,
    /// What records are appended to, if the last of them was written.
    file: Option<File>,
    /// Another program finds it locked.
    _lock: File,
}

/// A path with a word behind it.
fn beside(alloc: Global, path: &str, word: &str) -> Result<String, Trouble>
    ensures { IfErr result IsFailure }
{
    let mut name = String::from_str(alloc, path)?;
    name.push_str(word)?;
    Ok(name)
}

/// What is left of a state of the committees that words name, or of any if no words are given: nothing if there is no such
/// file. No lock is taken, and nothing is written.
pub fn look<F: Files<File = File>>(
    alloc: Global,
    files: &F,
    path: &str,
    words: Option<&[String]>,
) -> Result<Recovered, Trouble>
    ensures { IfErr result IsOfState }
{
    let mut bytes = Vec::new(alloc);
    match File::open(files, path) {
        Ok(mut file) => match file.read_to_end(&mut bytes) {
            Ok(_) => {}
            Err(_) => return Err(Trouble::UnreadState),
        },
        Err(error) if error.kind() == ErrorKind::NotFound => {}
        Err(_) => return Err(Trouble::UnreadState),
    }
    match recover(alloc, words, bytes.as_slice())? {
        Some(recovered) => Ok(recovered),
        None => Err(Trouble::OtherState),
    }
}

impl<'a, F: Files<File = File>> Store<'a, F> {
    /// Takes the state at a path, of the committees that words name, and returns it with what is left of it. The lock is a file
    /// beside it.
    pub fn take(
        alloc: Global,
        files: &'a F,
        path: &'a str,
        words: &[String],
    ) -> Result<(Self, Recovered), Trouble>
        ensures { IfErr result IsOfState }
    {
        let lock_path = beside(alloc, path, ".lock")?;
        let mut how = OpenOptions::new();
        how.write(true).create(true);
        let Ok(lock) = how.open(files, lock_path.as_str()) else {
            return Err(Trouble::UnwrittenState);
        };
        if lock.try_lock().is_err() {
            return Err(Trouble::StateInUse);
        }
        let recovered = look(alloc, files, path, Some(words))?;
        let store = Store {
            files,
            path,
            next: beside(alloc, path, ".new")?,
            head: head(alloc, words)?,
            file: None,
            _lock: lock,
        };
        Ok((store, recovered))
    }

    /// Writes the state anew: its file is as it was or whole.
    pub fn write_anew(&mut self, alloc: Global, mark: &Mark, held: &[u8]) -> Result<(), Trouble>
        ensures { IfErr result IsFailure }
    {
        self.file = None;
        let record = record(alloc, mark, held)?;
        let Ok(mut file) = File::create(self.files, self.next.as_str()) else {
            return Err(Trouble::UnwrittenState);
        };
        let written = file.write_all(self.head.as_slice()).is_ok()
            && file.write_all(record.as_slice()).is_ok()
            && file.sync_all().is_ok()
            && fs::rename(self.files, self.next.as_str(), self.path).is_ok();
        if !written {
            return Err(Trouble::UnwrittenState);
        }
        self.file = Some(file);
        Ok(())
    }

    /// Appends a record. If that fails, the state has to be written anew.
    pub fn append(&mut self, alloc: Global, mark: &Mark, more: &[u8]) -> Result<(), Trouble>
        ensures { IfErr result IsFailure }
    {
        let record = record(alloc, mark, more)?;
        let Some(mut file) = self.file.take() else {
            return Err(Trouble::UnwrittenState);
        };
        if file.write_all(record.as_slice()).is_err() || file.sync_data().is_err() {
            return Err(Trouble::UnwrittenState);
        }
        self.file = Some(file);
        Ok(())
    }

    /// Whether records can be appended.
    pub(crate) fn can_append(&self) -> bool {
        self.file.is_some()
    }
}
