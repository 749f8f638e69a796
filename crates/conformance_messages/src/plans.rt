//! Plans to send a payload once more.

use crate::vectors::{Unanswered, participant};
use simplex_base::positions::{Participant, Round};
use simplex_lead::{Plan, Recipients};
use std::alloc::{AllocError, Global};

/// A plan to send the payload of a round to these participants once more: the answer of a clone of it.
pub(crate) fn forward(alloc: Global, round: Round, signers: &[&str]) -> Result<String, Unanswered> {
    let mut recipients = Vec::new(alloc);
    for word in signers {
        recipients
            .push(participant(*word)?)
            .map_err(AllocError::from)?;
    }
    let recipients = Recipients::Some(recipients);
    let plan = Plan::Forward { round, recipients };
    Ok(text_of(alloc, &plan.clone()?)?)
}

/// The round of a plan, and to whom it sends.
fn text_of(alloc: Global, plan: &Plan<Participant>) -> Result<String, AllocError> {
    let Plan::Forward { round, recipients } = plan else {
        return "in the round".to_string(alloc);
    };
    let Recipients::Some(recipients) = recipients else {
        return "to all".to_string(alloc);
    };
    let (epoch, view) = (round.epoch().get(), round.view().get());
    let mut text = format!(in alloc; "epoch {epoch}, view {view}, to")?;
    for recipient in recipients {
        text.push_str(format!(in alloc; " {}", recipient.get())?.as_str())?;
    }
    Ok(text)
}
