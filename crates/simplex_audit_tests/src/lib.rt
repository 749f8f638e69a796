//! Tests of the audit: beside an auditor by its definition, which is written plainly, of a large committee, a long certificate
//! byte by byte, rounds that are given up, evidence and splits that are told once, long payloads, how many votes are recorded,
//! and what a compaction keeps.
#![tactic(auto)]

#[cfg(test)]
mod against_model;
#[cfg(test)]
mod compacted;
#[cfg(test)]
mod deferred;
#[cfg(test)]
mod listener;
#[cfg(test)]
mod model;
pub mod outcome;
#[cfg(test)]
mod pieces;
#[cfg(test)]
mod pruned;
#[cfg(test)]
mod recorded;
#[cfg(test)]
mod sizes;
pub mod streams;
pub mod verdicts;
