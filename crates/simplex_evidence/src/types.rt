//! Evidence, the union of all messages, the vote map, and many certificates verified at once.

mod activity;
mod attributable_map;
mod bisection;
mod conflict;
mod conflicting_finalize;
mod conflicting_notarize;
mod contents;
mod nullify_finalize;

pub use activity::Activity;
pub use attributable_map::{AttributableIter, AttributableMap};
pub use bisection::{
    verify_certificates, verify_finalizations, verify_notarizations, verify_nullifications,
};
pub use conflict::{Conflict, conflict_of};
pub use conflicting_finalize::ConflictingFinalize;
pub use conflicting_notarize::ConflictingNotarize;
pub use contents::{Contents, Signed};
pub use nullify_finalize::NullifyFinalize;
