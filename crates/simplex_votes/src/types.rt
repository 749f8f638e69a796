//! Votes, certificate messages, and the unions of both.

mod artifact;
mod assembly;
mod certificate;
mod context;
mod finalization;
mod finalize;
mod notarization;
mod notarize;
mod nullification;
mod nullify;
mod vote;

pub use artifact::Artifact;
pub use certificate::{Certificate, Kind};
pub use context::Context;
pub use finalization::Finalization;
pub use finalize::Finalize;
pub use notarization::Notarization;
pub use notarize::Notarize;
pub use nullification::Nullification;
pub use nullify::Nullify;
pub use simplex_scheme::scheme::Attributable;
pub use vote::Vote;
