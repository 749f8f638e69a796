//! How a node uses the messages, an example a module, each proved from the contracts of what it calls. No library rests on this
//! crate; test vectors and tests call it.
//!
//! [`resolver`] selects the certificates that certify their subjects, [`batcher`] collects votes until a quorum makes a
//! notarization, and [`voter`] returns which votes a node takes and casts, and who leads. [`judged`] is a scheme of one's own.
#![tactic(auto)]

pub mod batcher;
pub mod judged;
pub mod resolver;
pub mod voter;
