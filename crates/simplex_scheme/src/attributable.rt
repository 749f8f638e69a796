//! Values with one signer.

ghost use Rattle.std.specs.Prelude.{◌≡◌, ℕ};

use simplex_base::positions::Participant;

/// A value that one participant signed.
pub trait Attributable {
    /// The number of the participant.
    ghost signer_of: { Self → ℕ };

    /// The participant that signed it.
    fn signer(&self) -> Participant
        ensures { result ≡ signer_of self.now };
}
