//! What a node plans to send of a round's proposal, and to whom.

ghost use Rattle.simplex_lead.specs.Plans.{IsRecipientsClone, IsPlanClone};

use simplex_base::positions::Round;
use std::alloc::AllocError;

/// Whom something is sent to, of participants that are known by their keys.
#[derive(Debug, Drop, PartialEq, Eq)]
pub enum Recipients<P> {
    /// Every participant.
    All,
    /// These participants.
    Some(Vec<P>),
    /// This participant.
    One(P),
}

impl<P: Clone> Clone for Recipients<P> {
    ghost is_clone = { IsRecipientsClone P.is_clone };

    fn clone(&self) -> Result<Self, AllocError> {
        match self {
            Recipients::All => Ok(Recipients::All),
            Recipients::Some(keys) => Ok(Recipients::Some(keys.clone()?)),
            Recipients::One(key) => Ok(Recipients::One(key.clone()?)),
        }
    }
}

/// How the payload of a round's proposal is to be sent.
#[derive(Debug, PartialEq, Eq, Drop)]
pub enum Plan<P> {
    /// To everyone and early, before its proposer voted for it. It may still be given up for another one.
    Prepare {
        /// The round that it was made for.
        round: Round,
    },
    /// To everyone, as the proposal of the round's leader.
    Propose {
        /// The round that it is proposed in.
        round: Round,
    },
    /// Once more, to these recipients.
    Forward {
        /// The round that it was proposed in.
        round: Round,
        /// Who gets it.
        recipients: Recipients<P>,
    },
}

impl<P: Clone> Clone for Plan<P> {
    ghost is_clone = { IsPlanClone P.is_clone };

    fn clone(&self) -> Result<Self, AllocError> {
        match self {
            Plan::Prepare { round } => Ok(Plan::Prepare { round: *round }),
            Plan::Propose { round } => Ok(Plan::Propose { round: *round }),
            Plan::Forward { round, recipients } => Ok(Plan::Forward {
                round: *round,
                recipients: recipients.clone()?,
            }),
        }
    }
}
