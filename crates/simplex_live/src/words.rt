//! Which of the words that name no committees is wrong.

ghost use Rattle.simplex_live.specs.Ending.{IsOfWords};

use crate::complaints::Trouble;
use simplex_cli::naming::Named;
use simplex_cli::numbers::parse_number;
use std::alloc::Global;

/// What is wrong with words that end with these texts, which name no committees. The first text that is neither a participant
/// nor `@` and an epoch is named by its number among the words, from 1. An option that is not where it has to be stands first.
pub fn wrong_word<S: Named>(
    alloc: Global,
    words: &[String],
    common: &S::Common,
    texts: &[String],
) -> Trouble
    ensures { IsOfWords result }
{
    let begins = words.first();
    if is_option(begins) && texts.len().saturating_add(1) == words.len() {
        return Trouble::Order;
    }
    let mut rest = texts;
    'texts: while let Some((text, behind)) = rest.split_first() {
        let fits = match text.strip_prefix("@") {
            Some(epoch) => parse_number(epoch).is_ok(),
            None => S::parse(alloc, common, &rest[..1]).is_ok(),
        };
        if !fits {
            return Trouble::Word(words.len().saturating_sub(behind.len()));
        }
        rest = behind;
    }
    Trouble::Committees
}

/// Whether a word is there and begins as an option does.
fn is_option(word: Option<&String>) -> bool {
    match word {
        None => false,
        Some(word) => word.starts_with("--"),
    }
}
