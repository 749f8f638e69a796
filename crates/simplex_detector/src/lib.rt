//! The detector of equivocation. From the messages of a stream it records, round by round, the votes that may contradict
//! others of their signer and the certified subjects, and it reports the evidence and the splits.
//!
//! Crates above rest on [`detector::Detector`], which records messages and reports. Its state is a
//! [`round_map::RoundMap`] of each round's [`round_state::RoundState`].
#![tactic(auto)]

mod certified;
pub mod detector;
pub mod round_map;
pub mod round_state;
