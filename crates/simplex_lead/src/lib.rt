//! Who leads which views, and which views a node takes messages of.
//!
//! [`elector`] has the structure of terms, the traits of electors and their configurations, and the round-robin
//! elector. [`Lookahead`] and [`Viewport`] return which views a node admits, sends messages of and retains. [`Plan`]
//! says what a node sends of a proposal, and to which [`Recipients`].
//!
//! Crates above rest on [`elector::Elector`], which returns one leader for all rounds of a term, and on the windows
//! of [`Lookahead`] and [`Viewport`], whose views are counted exactly.
#![tactic(auto)]

mod derived;
pub mod elector;
mod lookahead;
mod plan;
mod viewport;

pub use lookahead::Lookahead;
pub use plan::{Plan, Recipients};
pub use viewport::Viewport;
