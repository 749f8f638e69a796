//! Tests of what is verified, and of what stands where in a stream: how many attestations are verified, how often a scheme is
//! asked about certificates, who is suspect, the records of a report, what a ledger stores, and calls that allocate nothing.
#![tactic(auto)]

#[cfg(test)]
mod bisected;
#[cfg(test)]
mod counted;
#[cfg(test)]
mod records;
#[cfg(test)]
mod suspects;
#[cfg(test)]
mod verified;
#[cfg(test)]
mod without_memory;
