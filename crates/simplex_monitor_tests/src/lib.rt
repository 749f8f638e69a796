//! Tests of a monitor: where its window is behind each message, what it tells and counts, what a flood of far views leaves, and
//! when a line is written.
#![tactic(auto)]

#[cfg(test)]
mod begun;
#[cfg(test)]
mod followed;
#[cfg(test)]
mod said;
