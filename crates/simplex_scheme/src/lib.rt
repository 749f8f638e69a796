//! Who signs what: committees and their keys, proposals and the subjects that are signed, and the traits of schemes
//! with their laws.
//!
//! [`scheme`] gives all of it under one path: the traits, from [`scheme::SchemeTypes`] to [`scheme::Scheme`] and
//! [`scheme::Listing`], and attestations; the keys of a committee ([`scheme::Set`]), the fault bound and the quorum of
//! the model n = 3f + 1 ([`scheme::max_faults`], [`scheme::quorum`]); what is signed ([`scheme::Proposal`],
//! [`scheme::Subject`], of a [`scheme::VoteKind`]), the byte strings under which it is signed ([`scheme::Namespace`]), and
//! the trait of hash functions with SHA-256 ([`scheme::Hasher`]), and the trait of who knows of attestations that they are
//! valid ([`scheme::Known`]). What is no trait of schemes stands in private modules: `set`, `faults`, `proposal`, `subject`,
//! `kind`, `known`, `namespace` and `hash`; `message` compares bytes with signed messages.
//! [`assembly`] says which attestations can be assembled, and [`committees`] which committee judges an epoch.
//!
//! Crates above rest on the laws that each scheme proves: a certificate that a [`scheme::Scheme`] assembles certifies
//! every subject that its attestations are valid for, and one that a [`scheme::Listing`] certifies lists a quorum of
//! distinct signers, each signature valid.
#![tactic(auto)]

pub mod assembly;
mod attributable;
pub mod committees;
mod derived;
mod faults;
mod hash;
mod kind;
mod known;
mod message;
mod namespace;
mod proposal;
pub mod scheme;
mod set;
mod subject;
