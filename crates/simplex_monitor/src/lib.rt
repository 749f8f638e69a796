//! An auditor that listens to the network for long, and follows it by itself.
//!
//! [`monitor`] has it, and [`input`] has one that listens to all that a reader gives. Inside it, [`window`] says of which
//! rounds votes and certificates are taken and what moves it, and [`watcher`] records the messages that the window takes,
//! and holds what can stand for them if that is wanted; [`laws`] has that views stay admitted.
#![tactic(auto)]

mod derived;
pub mod input;
pub mod laws;
pub mod monitor;
mod sieve;
mod views;
pub mod watcher;
pub mod window;
