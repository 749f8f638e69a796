//! Tests of the message types: what neither a contract nor a test vector states. Equality, hashes and clones at a few values;
//! electors and hashers of the tests' own; the vote map cleared and with many inserts; many certificates verified at once; the
//! scheme by verdicts; what is as before where an allocation failed; calls that allocate nothing, made while every allocation
//! fails; and known numbers.
#![tactic(auto)]

#[cfg(test)]
mod bisection;
#[cfg(test)]
mod given;
#[cfg(test)]
mod judged;
#[cfg(test)]
mod leaders;
#[cfg(test)]
mod untouched;
#[cfg(test)]
mod values;
#[cfg(test)]
mod vote_map;
#[cfg(test)]
mod without_memory;
