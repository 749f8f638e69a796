//! An auditor for a node that runs for long: it owns its committees, is fed a stream as it comes, returns what each piece
//! completes, and holds messages that can stand for all that it was fed, from which it is resumed after a restart.
//!
//! [`live`] has it. Inside it, [`tracker`] has what is known of the stream so far.
#![tactic(auto)]

mod derived;
pub mod live;
pub mod tracker;
