//! Epochs, views, terms, rounds and participants: plain numbers with types of their own.

mod epoch;
mod participant;
mod round;
mod terms;
mod view;
mod view_delta;

pub use epoch::{Epoch, Epochable};
pub use participant::Participant;
pub use round::{Round, Roundable};
pub use terms::TermLength;
pub use view::{View, Viewable};
pub use view_delta::ViewDelta;
