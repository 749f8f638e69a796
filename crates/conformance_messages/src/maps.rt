//! Maps from participants to what they signed.

use crate::vectors::{Unanswered, participant};
use simplex_base::positions::Participant;
use simplex_evidence::types::AttributableMap;
use simplex_votes::types::Attributable;
use std::alloc::{AllocError, Global};

/// What is known of an item: who signed it.
#[derive(Clone, Copy)]
struct Signed {
    signer: Participant,
}

impl Attributable for Signed {
    ghost signer_of = { λ item. item.signer };

    fn signer(&self) -> Participant {
        self.signer
    }
}

/// Inserts an item of each signer into an empty map: what each insert returns, and then the map.
pub(crate) fn map(
    alloc: Global,
    participants: u32,
    signers: &[&str],
) -> Result<String, Unanswered> {
    let mut items = AttributableMap::new(alloc, participants as usize);
    let mut answers = String::new(alloc);
    for word in signers {
        if !answers.is_empty() {
            answers.push_str(" ")?;
        }
        let signer = participant(*word)?;
        let is_kept = items.insert(Signed { signer })?;
        answers.push_str(if is_kept { "true" } else { "false" })?;
    }
    let walk = walk(alloc, &items)?;
    Ok(format!(in alloc; "{answers}; len {}; walk{walk}", items.len())?)
}

/// The signers of the items in the order of the walk, with a blank before each.
fn walk(alloc: Global, items: &AttributableMap<Signed>) -> Result<String, AllocError> {
    let mut text = String::new(alloc);
    for item in items.iter() {
        let signer = format!(in alloc; " {}", item.signer.get())?;
        text.push_str(signer.as_str())?;
    }
    Ok(text)
}
