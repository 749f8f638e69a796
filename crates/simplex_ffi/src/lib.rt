//! Audits over slices and numbers, for callers that are not Rattle. Each call puts its result into a buffer of the caller's
//! and states how many bytes or items that are; a buffer that is too short is as before.
//!
//! Audits: [`plain`] puts a report into a buffer under committees of the plain scheme, and [`vouched`] under those whose
//! signatures the caller verified, [`records`] its evidence as records, [`suspects`] the attestations that have to be verified
//! first, and [`store`] what a ledger stores. Audits in parts: [`rows`] has the messages of a stream, [`classes`] the ranges
//! of a class of rounds, and [`parts`] the report of ranges. Messages: [`votes`] has the bytes that are signed, [`encoding`]
//! writes votes and certificates, [`decoding`] reads the message at the front of some bytes, and [`proof`] judges one piece of
//! evidence. Numbers alone: [`leaders`] and [`numbers`].
//!
//! `simplex_border` makes the committees, and has the statuses and the numbers of a report. `simplex_c` exports the calls, each
//! under its contract.
#![tactic(auto)]

pub mod classes;
pub mod decoding;
mod derived;
pub mod encoding;
mod front;
pub mod leaders;
pub mod numbers;
pub mod parts;
pub mod plain;
pub mod proof;
pub mod records;
pub mod rows;
pub mod store;
pub mod suspects;
pub mod votes;
pub mod vouched;
mod within;
