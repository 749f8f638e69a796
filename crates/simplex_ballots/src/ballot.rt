//! A vote without its signer and kind.

use simplex_scheme::scheme::{Digest, Proposal, SchemeTypes};

/// A vote of a round without its signer and kind: the proposal, or none to nullify the round, and the signature.
#[derive(Drop)]
pub struct Ballot<S: SchemeTypes, D: Digest> {
    /// What is voted for, unless the round is to be nullified.
    pub proposal: Option<Proposal<D>>,
    /// The signature.
    pub signature: S::Signature,
}
