//! Who leads a view.

mod electing;
mod mode;
mod order;
mod round_robin;
mod terms;

pub use electing::{Config, Elector};
pub use mode::Mode;
pub use round_robin::{RoundRobin, RoundRobinElector};
pub use terms::{Terms, can_be_stable};
