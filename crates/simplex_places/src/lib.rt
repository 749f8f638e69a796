//! Which attestations of a stream a caller has to verify before a deferred audit, and where each stands in the stream; and
//! where the votes of a report's evidence stand.
//!
//! [`suspects::suspects`] gives the attestations, each as a [`places::AttestationPlace`], and [`records::records`] the
//! evidence, each as a [`records::Record`]. A place is a 0-based offset in the stream. [`pieces`] has the attestations of a
//! piece, and [`repeats`] says which attestations of a list are the same. [`located`] has the schemes for which places are
//! known: those whose certificates are encoded as the attestations that they list.
//!
//! The static library rests on all six. The private modules read a stream without verifying anything, and find the first
//! places of sought votes.
#![tactic(auto)]

mod derived;
mod first_places;
pub mod located;
pub mod pieces;
pub mod places;
mod reading;
pub mod records;
pub mod repeats;
pub mod suspects;
mod votes;
