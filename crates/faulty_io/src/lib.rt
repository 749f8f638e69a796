//! Fake readers and writers for tests. They stand over memory that a test gives or over a fixed array, so
//! they allocate nothing themselves, and their bytes can be seen: what a reader has left, and what a
//! writer holds.
#![tactic(auto)]

pub mod source;
pub mod target;
pub mod trouble;

pub use source::Source;
pub use target::Target;
pub use trouble::Trouble;
