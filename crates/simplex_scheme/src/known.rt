//! Attestations that are known to be valid, so that no scheme has to verify them again.

ghost use Rattle.std.specs.Prelude.{ℕ, IsTrue};
ghost use Rattle.simplex_scheme.specs.Subject.{SubjectValue, subject_value};

use crate::scheme::{Attestation, Digest, SchemeTypes};
use crate::subject::Subject;

/// What knows of attestations that they are valid, since they were verified.
pub trait Known<S: SchemeTypes, D: Digest> {
    /// A signature of this signer is known to be valid for the subject.
    ghost known: { Self → SubjectValue D → ℕ → S.Signature → Type 0 };

    /// Whether an attestation of the subject is known to be valid. It may return false of a valid one.
    fn knows(&self, subject: &Subject<'_, D>, attestation: &Attestation<S>) -> bool
        ensures { IsTrue result → known self.now (subject_value subject.now)
            attestation.now.signer attestation.now.signature };
}

/// Nothing is known of any attestation.
pub struct NothingKnown;

impl<S: SchemeTypes, D: Digest> Known<S, D> for NothingKnown {
    ghost known = { λ nothing subject signer signature. ⊥ };

    fn knows(&self, _subject: &Subject<'_, D>, _attestation: &Attestation<S>) -> bool {
        false
    }
}
