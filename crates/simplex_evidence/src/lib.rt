//! Evidence of equivocation, the union of all messages, and tools over many messages.
//!
//! [`types`] has them all. The evidence is two votes of one participant, of which an honest one casts at most one:
//! [`types::ConflictingNotarize`], [`types::ConflictingFinalize`] and [`types::NullifyFinalize`]. [`types::Activity`]
//! is the union of all messages. [`types::AttributableMap`] maps each participant to the first item that it signed,
//! and [`types::verify_certificates`] verifies many certificates at once. Inside it, `conflict` decodes evidence of
//! any kind.
//!
//! Crates above rest on the encoding of [`types::Activity`], the messages of a stream; on `verify`, which returns
//! whether a message is valid; and on the contracts of the map and of [`types::verify_certificates`].
#![tactic(auto)]

mod derived;
pub mod sorted;
pub mod types;
