//! The recorded votes of one round: of each signer the earliest of each kind, and of notarizes and finalizes the earliest with
//! another proposal. They stand as ballots, without their signers and kinds.
//!
//! The detector rests on [`round_votes::RoundVotes`], which records valid votes and reports their evidence, and on
//! [`apart::Apart`], which gathers what is [`kept::Kept`] of a certificate.
#![tactic(auto)]

pub mod apart;
mod ballot;
mod ballots;
mod firsts;
mod index;
pub mod kept;
mod placed;
mod room;
pub mod round_votes;
