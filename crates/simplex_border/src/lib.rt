//! What callers in other languages give and are given: committees of keys or sizes, sizes of signatures, statuses, reports in
//! buffers. `simplex_ffi` and `simplex_handle` both rest on it, and not on each other.
//!
//! Given: [`keys`] makes committees of the plain scheme of their keys, [`sizes`] makes those whose signatures the caller
//! verified; [`signatures`] says how long these are, and [`refusals`] why there are no such committees. Returned: [`answer`]
//! has the statuses and the numbers of a report, and puts its text, or other items, into a buffer.
#![tactic(auto)]

pub mod answer;
mod derived;
pub mod keys;
pub mod refusals;
pub mod signatures;
pub mod sizes;
