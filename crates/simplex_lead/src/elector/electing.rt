//! What electors are, and what they are made of.

ghost use Rattle.std.specs.Prelude.{◌≡◌, ℕ, ◌<◌, ◌≤◌, ◌^◌, ◌↔◌, List, Option, length, IfOk};
ghost use Rattle.std.specs.Option.{option_copied};
ghost use Rattle.simplex_base.specs.Positions as positions;
ghost use Rattle.simplex_base.specs.Terms.{HoldsView};
ghost use Rattle.simplex_lead.specs.Election.{ElectAlike};
ghost use Rattle.simplex_lead.specs.Terms as structure;
ghost use Rattle.simplex_lead.specs.declared.elector.mode.Mode as modes;
ghost use Rattle.simplex_lead.specs.declared.elector.mode.Mode.TheVariants.{Scheduled};

use crate::elector::mode::Mode;
use crate::elector::terms::Terms;
use simplex_base::positions::{Participant, Round};
use simplex_scheme::scheme::{CertificateScheme, Set};
use std::alloc::{AllocError, Global};

/// What an elector is made of, once the committee is known. Nodes that hold equal ones of these, or clones, and
/// the same keys elect the same leaders.
pub trait Config<S: CertificateScheme>: Clone {
    /// The elector that is made.
    type Elector: Elector<S>;

    /// The electors that are made of a configuration and the keys of a committee.
    ghost builds: { Self → List S.PublicKey → Self.Elector → Type 0 };

    /// The elector of a committee of 1 to 2^32 - 1 participants, as [`Set::len`] returns; each leader is one of them.
    /// `AllocError` where an allocation failed.
    fn build(
        self,
        alloc: Global,
        participants: &Set<S::PublicKey>,
    ) -> Result<Self::Elector, AllocError>
        requires some { 1 ≤ length participants.now }
        requires few { length participants.now < 2 ^ 32 }
        ensures built { IfOk result (λ elector. builds self participants.now elector) }
        ensures participants { IfOk result (λ elector.
            Self.Elector.participants_of elector ≡ length participants.now) };

    /// Electors of one configuration and the same keys elect alike.
    ghost agree: { (config : Self) (keys : List S.PublicKey) (one other : Self.Elector) →
        builds config keys one → builds config keys other →
        ElectAlike Self.Elector.mode_of Self.Elector.terms_of Self.Elector.participants_of
        Self.Elector.leader_of one other };

    /// A clone makes the same electors.
    ghost clones: { (config copy : Self) (keys : List S.PublicKey) (elector : Self.Elector) →
        Self.is_clone config copy → (builds copy keys elector ↔ builds config keys elector) };
}

/// Who leads each round of a committee.
pub trait Elector<S: CertificateScheme>: Clone {
    /// How the certificate is used.
    ghost mode_of: { Self → modes.Mode };

    /// The structure of terms.
    ghost terms_of: { Self → structure.Terms };

    /// The number of participants.
    ghost participants_of: { Self → ℕ };

    /// The leader of a round, by the certificate that leads to it.
    ghost leader_of: { Self → positions.Round → Option S.Certificate → ℕ };

    /// Whether leaders may depend on the certificate.
    fn mode(&self) -> Mode
        ensures { result ≡ mode_of self.now };

    /// The structure of the terms, each of which has one leader.
    fn terms(&self) -> Terms
        ensures { result ≡ terms_of self.now };

    /// The leader of a round, a function of the elector, the round and the certificate that leads to the round.
    fn elect(&self, round: Round, certificate: Option<&S::Certificate>) -> Participant
        ensures leader { result ≡ leader_of self.now round (option_copied certificate.entry) }
        ensures member { result < participants_of self.now };

    /// A scheduled elector ignores the certificate.
    ghost ignores: { (elector : Self) (round : positions.Round) (one other : Option S.Certificate) →
        mode_of elector ≡ Scheduled → leader_of elector round one ≡ leader_of elector round other };

    /// A term of an epoch has one leader, with the same certificate.
    ghost one_a_term: { (elector : Self) (one other : positions.Round) (term : ℕ)
        (certificate : Option S.Certificate) →
        one.epoch ≡ other.epoch →
        HoldsView (terms_of elector).term_length term one.view →
        HoldsView (terms_of elector).term_length term other.view →
        leader_of elector one certificate ≡ leader_of elector other certificate };

    /// A clone elects alike.
    ghost clones: { (elector copy : Self) →
        Self.is_clone elector copy →
        ElectAlike mode_of terms_of participants_of leader_of elector copy };
}
