//! What is kept of a message when it comes.

ghost use Rattle.std.specs.Prelude.{◌≡◌};
ghost use Rattle.simplex_ballots.specs.Kept.{is_kept};

use simplex_evidence::types::Activity;
use simplex_scheme::scheme::{CertificateScheme, Digest};

/// What is kept of a message, since it is news. It can stand for the message.
#[derive(Drop)]
pub enum Kept<S: CertificateScheme, D: Digest> {
    /// Nothing.
    Nothing,
    /// The whole message.
    Whole,
    /// Of a certificate whose subject is no news, its votes that are, each as a message of its own.
    Votes(Vec<Activity<S, D>>),
}

impl<S: CertificateScheme, D: Digest> Kept<S, D> {
    /// Whether something is kept.
    pub fn is_kept(&self) -> bool
        ensures { result ≡ is_kept self.now }
    {
        match self {
            Kept::Nothing => false,
            Kept::Whole => true,
            Kept::Votes(_) => true,
        }
    }
}
