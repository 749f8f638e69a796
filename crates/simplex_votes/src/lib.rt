//! What participants sign and what a quorum of them certifies.
//!
//! [`types`] has them all: the votes [`types::Notarize`], [`types::Nullify`] and [`types::Finalize`]; the certificate
//! messages [`types::Notarization`], [`types::Nullification`] and [`types::Finalization`], which are assembled from
//! votes; the unions [`types::Vote`], [`types::Certificate`] and [`types::Artifact`]; and [`types::Context`], what a
//! payload is built on. Inside it, `assembly` has what is common to the three ways of assembling.
//!
//! Crates above rest on `verify`, which returns whether the scheme accepts the signature or the certificate, on the
//! `from_..` calls, which assemble certified messages of a quorum of valid votes, and on [`types::Attributable`], the
//! signer of a vote.
#![tactic(auto)]

mod derived;
pub mod types;
mod unions;
