//! What is in a stream of messages: a line of JSON for each message, and one for the fault, if there is one.
//!
//! [`inspect::inspect`] writes the lines of a stream that is in memory, and [`input::inspect_input`] those of all that a reader
//! gives, which it reads in pieces. Both rest on [`reading::read_lines`], the lines of the messages that begin some bytes, and
//! on [`fault::fault_line`], the line of a fault.
#![tactic(auto)]

pub mod basis;
mod derived;
pub mod fault;
pub mod input;
pub mod inspect;
mod left;
pub mod line;
mod parts;
pub mod reading;
mod validity;
