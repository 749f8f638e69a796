//! Tests of what the programs do, over readers and writers of the tests' own: `command`, `run` and a run of a stored stream,
//! the lines of `inspect`, readers and writers that are watched, when and how often input is read, a message of many megabytes,
//! and the call that the README shows.
#![tactic(auto)]

#[cfg(test)]
mod command;
#[cfg(test)]
mod committee;
#[cfg(test)]
mod example_crate;
#[cfg(test)]
mod inspected;
#[cfg(test)]
mod inspected_pieces;
#[cfg(test)]
mod long;
#[cfg(test)]
mod reads;
#[cfg(test)]
mod runs;
#[cfg(test)]
mod watched;
#[cfg(test)]
mod without_memory;
