//! The program `audit_split` as a function over its arguments, its files and any writers. [`options`] has what its arguments
//! begin with. [`splitting`] cuts all that a reader gives into [`parts`], which stand in [`files`]. [`cutting`] does so for
//! files, one after the other, and writes a line of each. [`start`] puts them together, and [`complaints`] has what is said.
//! [`inputs`] is for contracts alone.
#![tactic(auto)]

pub mod complaints;
pub mod cutting;
mod derived;
pub mod files;
pub mod inputs;
pub mod options;
pub mod parts;
pub mod splitting;
pub mod start;
