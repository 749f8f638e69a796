//! Test vectors of messages, terms, windows, leaders, vote maps and of the parts of a node, and what this library answers to
//! them.
//!
//! [`vectors`] parses a line, [`answers::message_vector`] answers it with the private module for what it asks, and [`refusals`]
//! has the names of refusals. The program `conformance` rests on these three, and adds the vectors of audits.
#![tactic(auto)]

pub mod answers;
mod leaders;
mod many;
mod maps;
mod memory;
mod namespaces;
mod nodes;
mod plans;
mod reads;
pub mod refusals;
mod schemes;
mod terms;
pub mod vectors;
mod votes;
mod windows;
