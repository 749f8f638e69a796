//! How the audit is used, an example a module, each proved from the contracts of what it calls. No library rests on this crate;
//! test vectors and tests call it.
//!
//! [`accused`] says which participants signed two contradictory votes in a stream of messages. [`light_client`] follows
//! finalizations, and returns the evidence where two proposals of a round are final.
#![tactic(auto)]

pub mod accused;
pub mod light_client;
