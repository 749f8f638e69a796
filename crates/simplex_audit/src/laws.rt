//! The laws of any messages, of which an audit's own speak of the messages of its stream.

ghost use Rattle.std.specs.Prelude.{◌≡◌};
ghost use Rattle.simplex_audit.specs.MessageLaws.{MessageLaws};
ghost use Rattle.simplex_rules.specs.Rules.{Rules};

use simplex_laws::laws::{
    accused_stay, certificates_are_accountable, evidence_is_determined, splits_are_determined,
};
use simplex_scheme::scheme::{CertificateScheme, Digest};

/// The laws of `simplex_laws` that each report rests on. A call gives its caller what the clause states.
pub fn message_laws<S: CertificateScheme, D: Digest>()
    ensures { (rules : Rules S D S.Certificate S.PublicKey S.Signature) → rules.eq ≡ D.eq →
        MessageLaws rules }
{
    accused_stay::<S, D>();
    evidence_is_determined::<S, D>();
    certificates_are_accountable::<S, D>();
    splits_are_determined::<S, D>();
}
