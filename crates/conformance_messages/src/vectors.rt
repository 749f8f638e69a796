//! Test vectors: a word that says what is asked, and then numbers in decimal and bytes in hexadecimal.

ghost use Rattle.std.specs.Prelude.{◌≡◌, ◌≤◌, IfOk};
ghost use Rattle.std.specs.List.{flat_map};
ghost use Rattle.conformance_messages.specs.Words.{IsDecimal, IsMarkedCommittee, decoded};

use simplex_base::positions::{Epoch, Participant, TermLength, View, ViewDelta};
use simplex_schemes::marked::Marked;
use std::alloc::{AllocError, Global};

/// Why a line is not answered as a test vector.
#[derive(Clone, Copy, Debug)]
pub enum Unanswered {
    /// It is no test vector.
    NoVector,
    /// An allocation failed.
    OutOfMemory,
}

impl From<AllocError> for Unanswered {
    fn from(_error: AllocError) -> Self {
        Unanswered::OutOfMemory
    }
}

impl From<hex::FromHexError> for Unanswered {
    fn from(error: hex::FromHexError) -> Self {
        match error {
            hex::FromHexError::OutOfMemory => Unanswered::OutOfMemory,
            _ => Unanswered::NoVector,
        }
    }
}

/// A number of at most 2^64 - 1, in decimal digits and nothing else.
fn number(word: &str) -> Result<u64, Unanswered>
    ensures { IfOk result (λ number. IsDecimal word.now number) }
{
    if word.as_bytes().first() == Some(&b'+') {
        return Err(Unanswered::NoVector);
    }
    match word.parse::<u64>() {
        Ok(number) => Ok(number),
        Err(_) => Err(Unanswered::NoVector),
    }
}

/// A number of at most 2^32 - 1: a bound, a number of participants, or one of a participant.
pub(crate) fn small(word: &str) -> Result<u32, Unanswered>
    ensures { IfOk result (λ number. IsDecimal word.now number) }
{
    match u32::try_from(number(word)?) {
        Ok(number) => Ok(number),
        Err(_) => Err(Unanswered::NoVector),
    }
}

/// An epoch, in decimal digits and nothing else. `NoVector` where the word is no such number of at most 2^64 - 1.
pub fn epoch(word: &str) -> Result<Epoch, Unanswered>
    ensures { IfOk result (λ epoch. IsDecimal word.now epoch) }
{
    Ok(Epoch::new(number(word)?))
}

/// A view, in decimal digits and nothing else. `NoVector` where the word is no such number of at most 2^64 - 1.
pub fn view(word: &str) -> Result<View, Unanswered>
    ensures { IfOk result (λ view. IsDecimal word.now view) }
{
    Ok(View::new(number(word)?))
}

/// A number of views.
pub(crate) fn delta(word: &str) -> Result<ViewDelta, Unanswered> {
    Ok(ViewDelta::new(number(word)?))
}

/// A participant.
pub(crate) fn participant(word: &str) -> Result<Participant, Unanswered> {
    Ok(Participant::new(small(word)?))
}

/// The number of views of a term, at least 1.
pub(crate) fn term_length(word: &str) -> Result<TermLength, Unanswered> {
    let views = small(word)?;
    if views == 0 {
        return Err(Unanswered::NoVector);
    }
    Ok(TermLength::new(views))
}

/// A number of participants of a committee, at least 1.
pub(crate) fn committee_size(word: &str) -> Result<u32, Unanswered>
    ensures { IfOk result (λ size. (1 ≤ size) × IsDecimal word.now size) }
{
    let size = small(word)?;
    if size == 0 {
        return Err(Unanswered::NoVector);
    }
    Ok(size)
}

/// The marked committee of this many participants, which signs nothing. `NoVector` where the word is no number from 1 to
/// 2^32 - 1 in decimal digits, and `OutOfMemory` only where an allocation failed.
pub fn committee(alloc: Global, word: &str) -> Result<Marked, Unanswered>
    ensures { IfOk result (λ scheme. IsMarkedCommittee word.now scheme) }
{
    Ok(Marked::new(alloc, committee_size(word)?, None)?)
}

/// The bytes that some words encode, each of them whole bytes by two hexadecimal digits a byte. `NoVector` where a word does
/// not, and `OutOfMemory` only where an allocation failed.
pub fn bytes(alloc: Global, words: &[&str]) -> Result<Vec<u8>, Unanswered>
    ensures { IfOk result (λ bytes. bytes.items ≡ flat_map (λ word. decoded word.now) words.now) }
{
    let mut bytes = Vec::new(alloc);
    for word in words {
        bytes.extend_from_slice(hex::decode(alloc, *word)?.as_slice())?;
    }
    Ok(bytes)
}
