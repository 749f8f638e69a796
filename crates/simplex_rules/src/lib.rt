//! What is reported, and how strictly messages are judged. Evidence, splits and suspects are defined here over the rules by
//! which votes are valid and certificates certify, as is what the laws say that hold of all messages.
//!
//! Crates above rest on [`judging::Judging`], which says how strictly votes and certificates are judged, on [`judge::Judge`],
//! which judges them, and on the reported [`evidence::Evidence`] and [`split::Split`]. [`rules::Judges`] gives contracts the
//! rules by which messages are judged.
#![tactic(auto)]

pub mod certified_subjects;
mod derived;
pub mod evidence;
pub mod judge;
pub mod judging;
pub mod pruning;
pub mod rules;
pub mod split;
