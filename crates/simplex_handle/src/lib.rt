//! An auditor behind a handle, for callers that are not Rattle. They feed it a stream as it comes, and it owns all that it
//! needs.
//!
//! [`calls`] has what they call, on a [`handle`]. What a handle owns is an [`auditor`] of signatures of one size or of keys.
//! [`replies`] has what a call does to an auditor of any scheme, and puts into the caller's buffers.
#![tactic(auto)]

pub mod auditor;
pub mod calls;
pub mod handle;
mod pointer;
mod replies;
