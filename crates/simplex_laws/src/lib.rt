//! The laws that hold of all messages, for any rules by which they are judged. Each function of [`laws`] has no code: a call
//! gives its caller what the clauses state. Nothing here depends on how messages are recorded, so the detector is proved beside
//! it.
#![tactic(auto)]

pub mod laws;
