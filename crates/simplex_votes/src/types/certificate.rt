//! The union of certificate messages.

ghost use Rattle.std.specs.Prelude.{◌≡◌, ◌+◌, ◌≤◌, ◌^◌, IfOk, Some, length};
ghost use Rattle.simplex_base.specs.Format.{format_of, format_under};

use crate::map_ok;
use crate::types::finalization::Finalization;
use crate::types::notarization::Notarization;
use crate::types::nullification::Nullification;
use simplex_base::codec::unions::{Tagged, read_tagged, write_tagged};
use simplex_base::codec::{EncodeSize, Encoding, Error, Fixed, MaxEncodeSize, Read, Write};
use simplex_base::positions::{Round, Roundable};
use simplex_scheme::scheme::{CertificateScheme, CertificateVerifier, Digest, Proposal};
use std::alloc::{AllocError, Global};
use std::fmt;

/// The kinds of certificate messages. They print as `notarization`, `nullification` and `finalization`.
#[derive(Clone, Copy, Debug, PartialEq, Eq)]
pub enum Kind {
    /// Of a notarization.
    Notarization,
    /// Of a nullification.
    Nullification,
    /// Of a finalization.
    Finalization,
}

impl Kind {
    ghost use Rattle.simplex_votes.specs.Unions.{certificate_kind_word};

    /// The name of the kind, as it prints.
    pub fn as_str(self) -> &'static str
        ensures { result.now ≡ certificate_kind_word self }
    {
        match self {
            Kind::Notarization => "notarization",
            Kind::Nullification => "nullification",
            Kind::Finalization => "finalization",
        }
    }
}

impl fmt::Display for Kind {
    ghost use Rattle.simplex_votes.specs.Unions.{certificate_kind_word};

    ghost output = { λ kind. Some (certificate_kind_word kind) };

    fn fmt<W: fmt::Write>(&self, f: &mut fmt::Formatter<W>) -> fmt::Result {
        f.write_str(self.as_str())
    }
}

/// A certificate message: one byte of tag, and then the parts of the message with that tag, at most
/// 31 bytes, the digest's and those of the greatest certificate. It is read under the committee's
/// bound.
#[derive(Drop)]
#[derive_where(PartialEq, Eq; S::Certificate)]
pub enum Certificate<S: CertificateScheme, D: Digest> {
    /// Tag 0.
    Notarization(Notarization<S, D>),
    /// Tag 1.
    Nullification(Nullification<S>),
    /// Tag 2.
    Finalization(Finalization<S, D>),
}

impl<S: CertificateScheme, D: Digest> Certificate<S, D> {
    ghost use Rattle.simplex_votes.specs.Unions.{certificate_kind, certificate_subject, certificate_in, IsCertificate, certificate_encoding};

    /// The kind of the message.
    pub fn kind(&self) -> Kind
        ensures { result ≡ certificate_kind self.now }
    {
        match self {
            Certificate::Notarization(_) => Kind::Notarization,
            Certificate::Nullification(_) => Kind::Nullification,
            Certificate::Finalization(_) => Kind::Finalization,
        }
    }

    /// The same message with a clone of the certificate. `AllocError` only where an allocation
    /// failed.
    pub fn clone(&self) -> Result<Self, AllocError>
        ensures parts { IfOk result (λ copy.
            (certificate_subject copy ≡ certificate_subject self.now) ×
            S.Certificate.is_clone (certificate_in self.now) (certificate_in copy)) }
        // Where a certificate's clone is the certificate, this one's is this message.
        ensures same { ((copy : S.Certificate) →
            S.Certificate.is_clone (certificate_in self.now) copy →
            copy ≡ certificate_in self.now) →
            IfOk result (λ copy. copy ≡ self.now) }
    {
        match self {
            Certificate::Notarization(message) => map_ok!(
                message.clone(),
                Certificate::Notarization
            ),
            Certificate::Nullification(message) => map_ok!(
                message.clone(),
                Certificate::Nullification
            ),
            Certificate::Finalization(message) => map_ok!(
                message.clone(),
                Certificate::Finalization
            ),
        }
    }

    /// The greatest number of bytes of a certificate message that is read under this bound: 31 and those of the
    /// digest and of the greatest certificate.
    pub fn max_encode_size(participants: u32) -> usize
        ensures size { result ≡ 31 + D.SIZE + S.max_size participants }
        ensures within { (c : Certificate S D S.Certificate S.PublicKey S.Signature) →
            IsCertificate (format_of ⟦<D as Read>⟧) (S.Certificate.fits participants) c →
            length (certificate_encoding (format_of ⟦<D as Read>⟧) S.Certificate.encoding c) ≤
            result }
    {
        let proposal = Proposal::<D>::max_encode_size();
        1 + proposal + S::max_certificate_size(participants)
    }
}

impl<S: CertificateVerifier<D>, D: Digest> Certificate<S, D> {
    ghost use Rattle.simplex_votes.specs.Unions.{certificate_subject, certificate_in};

    /// Whether the certificate certifies what the message says.
    pub fn verify(&self, scheme: &S) -> bool
        ensures { result ≡ S.certified scheme.now (certificate_subject self.now)
            (certificate_in self.now) }
    {
        match self {
            Certificate::Notarization(message) => message.verify(scheme),
            Certificate::Nullification(message) => message.verify(scheme),
            Certificate::Finalization(message) => message.verify(scheme),
        }
    }
}

impl<S: CertificateScheme, D: Digest> Roundable for Certificate<S, D> {
    ghost use Rattle.simplex_votes.specs.Unions.{certificate_round};

    ghost round_of = { certificate_round };

    fn round(&self) -> Round {
        match self {
            Certificate::Notarization(message) => message.round(),
            Certificate::Nullification(message) => message.round(),
            Certificate::Finalization(message) => message.round(),
        }
    }
}

impl<S: CertificateScheme, D: Digest> Encoding for Certificate<S, D> {
    ghost use Rattle.simplex_votes.specs.Unions.{IsCertificate, certificate_encoding};

    ghost is_value = { IsCertificate (format_of ⟦<D as Read>⟧) S.Certificate.is_value };

    ghost encoding = { certificate_encoding (format_of ⟦<D as Read>⟧) S.Certificate.encoding };
}

impl<S: CertificateScheme, D: Digest> Write for Certificate<S, D> {
    fn write(&self, buf: &mut Vec<u8>) -> Result<(), AllocError> {
        match self {
            Certificate::Notarization(message) => write_tagged(0, message, buf),
            Certificate::Nullification(message) => write_tagged(1, message, buf),
            Certificate::Finalization(message) => write_tagged(2, message, buf),
        }
    }
}

impl<S: CertificateScheme, D: Digest> EncodeSize for Certificate<S, D> {
    ghost limit = { 31 + 65535 + 2 ^ 50 };

    fn encode_size(&self) -> usize {
        match self {
            Certificate::Notarization(message) => 1 + message.encode_size(),
            Certificate::Nullification(message) => 1 + message.encode_size(),
            Certificate::Finalization(message) => 1 + message.encode_size(),
        }
    }
}

impl<S: CertificateScheme, D: Digest> Read for Certificate<S, D> {
    ghost use Rattle.simplex_votes.specs.Unions.{certificate_format};
    ghost use Rattle.simplex_votes.specs.UnionLaws.{certificate_lawful};

    type Cfg = u32;

    ghost fits = { λ bound. (certificate_format (format_of ⟦<D as Read>⟧)
        (format_under ⟦<S::Certificate as Read>⟧ bound)).is_value };

    ghost reading = { λ bound.
        (certificate_format (format_of ⟦<D as Read>⟧)
        (format_under ⟦<S::Certificate as Read>⟧ bound)).reading };

    ghost takes_memory = { S.Certificate.takes_memory };

    fn read_cfg(alloc: Global, input: &mut &[u8], bound: &u32) -> Result<Self, Error> {
        read_tagged(alloc, input, bound)
    }

    ghost lawful = { λ bound. certificate_lawful _ _ D.lawful (S.Certificate.lawful bound) };
}

impl<S: CertificateScheme, D: Digest> Tagged for Certificate<S, D> {
    ghost use Rattle.simplex_votes.specs.Unions.{certificate_branches};

    type Cfg = u32;

    ghost branches = { λ bound.
        certificate_branches (format_of ⟦<D as Read>⟧)
        (format_under ⟦<S::Certificate as Read>⟧ bound) };

    ghost takes_memory = { S.Certificate.takes_memory };

    fn read_body(alloc: Global, tag: u8, input: &mut &[u8], bound: &u32) -> Result<Self, Error> {
        match tag {
            0 => map_ok!(
                Notarization::read_cfg(alloc, input, bound),
                Certificate::Notarization
            ),
            1 => map_ok!(
                Nullification::read_cfg(alloc, input, bound),
                Certificate::Nullification
            ),
            2 => map_ok!(
                Finalization::read_cfg(alloc, input, bound),
                Certificate::Finalization
            ),
            _ => Err(Error::Invalid("consensus::simplex::Certificate", "Invalid type")),
        }
    }
}
