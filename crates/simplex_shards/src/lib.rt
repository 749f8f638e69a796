//! Streams of messages cut by rounds, and the reports of the parts put together again. Rounds are independent, so each class of
//! rounds can be audited apart, on any machine, and the reports of all classes are the report of the whole stream.
//!
//! [`cut`] says which class a round is of; [`split`] has the messages of each class.
#![tactic(auto)]

pub mod canonical;
pub mod classes;
pub mod cut;
pub mod index;
mod laws;
pub mod merge;
mod messages;
pub mod part;
pub mod peek;
pub mod pieces;
pub mod ranges;
pub mod skips;
pub mod split;
