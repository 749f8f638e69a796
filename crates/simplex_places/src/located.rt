//! Schemes whose certificates say where their attestations stand.

ghost use Rattle.std.specs.Prelude.{◌≡◌, ℕ, Bool, List, length, refl};
ghost use Rattle.simplex_base.specs.Format.{format_of};
ghost use Rattle.simplex_evidence.specs.declared.types.activity.Activity.{Activity};
ghost use Rattle.simplex_schemes.specs.Listed.{listed_encoding};
ghost use Rattle.simplex_votes.specs.Votes.{SignedVote};
ghost use Rattle.simplex_places.specs.Bytes.{IsVoteAt};
ghost use Rattle.simplex_places.specs.Places.{message_places};
ghost use Rattle.simplex_places.specs.Votes.{carries};
ghost use Rattle.simplex_places.specs.declared.places.AttestationPlace.{AttestationPlace};
ghost use Rattle.simplex_places.specs.declared.places.Placed.{Placed};

use simplex_base::codec::fixed_bytes::Role;
use simplex_base::codec::{Encoding, Read};
use simplex_scheme::scheme::{Digest, Listing};
use simplex_schemes::listed::Lists;
use simplex_schemes::own::{PlainCertificate, VouchedCertificate};
use simplex_schemes::plain::Plain;
use simplex_schemes::vouched::Vouched;

/// A scheme whose certificates are encoded as the attestations that they list: their count, and then each.
pub trait Counted<D: Digest>: Listing<D> {
    /// How many attestations a certificate lists.
    fn count(certificate: &Self::Certificate) -> u32
    where
        Self: Sized,
        ensures { result ≡ length (Self.listed certificate.now) };

    /// A certificate is encoded as the attestations that it lists.
    ghost counted: { (certificate : Self.Certificate) → Self.Certificate.encoding certificate ≡
        listed_encoding (format_of ⟦<Self::Signature as Read>⟧) (Self.listed certificate) };
}

impl<D: Digest, R: Role<N>, const N: usize> Counted<D> for Vouched<R, N> {
    fn count(certificate: &VouchedCertificate<R, N>) -> u32 {
        certificate.as_listed().attestations().len() as u32
    }

    ghost counted = { λ certificate. refl };
}

impl<D: Digest> Counted<D> for Plain {
    fn count(certificate: &PlainCertificate) -> u32 {
        certificate.as_listed().attestations().len() as u32
    }

    ghost counted = { λ certificate. refl };
}

/// A scheme with places of attestations and of votes, for contracts alone. Every scheme that lists attestations is one; there
/// is nothing to implement or to call.
pub trait Located<D: Digest>: Listing<D> {
    /// The attestations of a message that begins at a place.
    ghost places: { ℕ → Activity Self D Self.Certificate Self.PublicKey Self.Signature →
        List Placed };

    /// Whether a message carries a vote.
    ghost carries: { SignedVote D Self.Signature →
        Activity Self D Self.Certificate Self.PublicKey Self.Signature → Bool };

    /// Whether an attestation is a vote, as it stands in a stream.
    ghost stands: { List ℕ → SignedVote D Self.Signature → AttestationPlace → Type 0 };
}

impl<S: Listing<D>, D: Digest> Located<D> for S {
    ghost places = { message_places (format_of ⟦<D as Read>⟧)
        (format_of ⟦<S::Signature as Read>⟧) S.listed };

    ghost carries = { carries D.eq S.Signature.eq S.listed };

    ghost stands = { IsVoteAt (format_of ⟦<D as Read>⟧) (format_of ⟦<S::Signature as Read>⟧) };
}
