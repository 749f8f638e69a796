//! Subjects: what is signed.

ghost use Rattle.std.specs.Prelude.{◌≡◌, ◌↔◌, ℕ, List, IfOk, IsTrue};
ghost use Rattle.simplex_base.specs.Format.{format_of};

use crate::kind::VoteKind;
use crate::message::{is_proposal, is_round};
use crate::namespace::Namespace;
use crate::proposal::Proposal;
use crate::scheme::Digest;
use bytes::Bytes;
use simplex_base::codec::{Encode, Read};
use simplex_base::positions::{Round, Roundable};
use std::alloc::{AllocError, Global};

/// What a vote or a certificate says.
#[derive(Clone, Copy)]
pub enum Subject<'a, D> {
    /// That a proposal is notarized; the round is the proposal's.
    Notarize { proposal: &'a Proposal<D> },
    /// That a round is nullified.
    Nullify { round: Round },
    /// That a proposal is finalized; the round is the proposal's.
    Finalize { proposal: &'a Proposal<D> },
}

impl<D> Subject<'_, D> {
    ghost use Rattle.simplex_scheme.specs.Kind.{kind_of};
    ghost use Rattle.simplex_scheme.specs.Subject.{subject_value};

    /// The kind of the votes on the subject.
    pub fn kind(&self) -> VoteKind
        ensures { result ≡ kind_of (subject_value self.now) }
    {
        match self {
            Subject::Notarize { .. } => VoteKind::Notarize,
            Subject::Nullify { .. } => VoteKind::Nullify,
            Subject::Finalize { .. } => VoteKind::Finalize,
        }
    }

    /// The same subject, for a call that takes it by value.
    pub fn reborrow(&self) -> Subject<'_, D>
        ensures { subject_value result ≡ subject_value self.now }
    {
        match self {
            Subject::Notarize { proposal } => Subject::Notarize { proposal },
            Subject::Nullify { round } => Subject::Nullify { round: *round },
            Subject::Finalize { proposal } => Subject::Finalize { proposal },
        }
    }
}

impl<D: Digest> Subject<'_, D> {
    ghost use Rattle.simplex_scheme.specs.Subject.{subject_value, message_of};

    /// Whether the bytes are those that are signed, as [`message`](CertificateSubject::message) returns them. It
    /// allocates nothing.
    pub fn is_message(&self, bytes: &[u8]) -> bool
        ensures { IsTrue result ↔
            (bytes.now ≡ message_of (format_of ⟦<D as Read>⟧) (subject_value self.now)) }
    {
        match self {
            Subject::Notarize { proposal } | Subject::Finalize { proposal } => {
                is_proposal(bytes, proposal)
            }
            Subject::Nullify { round } => is_round(bytes, *round),
        }
    }
}

/// What is signed: a message under a namespace.
pub trait CertificateSubject {
    /// The names of all kinds of subjects.
    type Namespace;

    /// The name under which the subject is signed.
    ghost name_in: { Self → Self.Namespace → List ℕ };

    /// The message that is signed.
    ghost signed: { Self → List ℕ };

    /// The name under which the subject is signed.
    fn namespace<'b>(&self, names: &'b Self::Namespace) -> &'b [u8]
        ensures { result.now ≡ name_in self.now names.now };

    /// The bytes that are signed. `AllocError` only where an allocation failed.
    fn message(&self, alloc: Global) -> Result<Bytes, AllocError>
        ensures { IfOk result (λ bytes. bytes ≡ signed self.now) };
}

impl<D: Digest> CertificateSubject for Subject<'_, D> {
    ghost use Rattle.simplex_scheme.specs.Namespace.{names_of};
    ghost use Rattle.simplex_scheme.specs.Subject.{SubjectValue, IsSubject, subject_value, name_of, message_of};

    type Namespace = Namespace;

    ghost name_in = { λ subject names. name_of names (subject_value subject) };

    ghost signed = { λ subject. message_of (format_of ⟦<D as Read>⟧) (subject_value subject) };

    fn namespace<'b>(&self, names: &'b Namespace) -> &'b [u8] {
        match self {
            Subject::Notarize { .. } => names.notarize.as_slice(),
            Subject::Nullify { .. } => names.nullify.as_slice(),
            Subject::Finalize { .. } => names.finalize.as_slice(),
        }
    }

    fn message(&self, alloc: Global) -> Result<Bytes, AllocError>
        ensures message { IfOk result (λ bytes.
            bytes ≡ message_of (format_of ⟦<D as Read>⟧) (subject_value self.now)) }
        // A name under one base and a message are those of one subject alone.
        ensures one { (base : List ℕ) (other : SubjectValue D) →
            IsSubject (format_of ⟦<D as Read>⟧) other →
            name_of (names_of base) (subject_value self.now) ≡ name_of (names_of base) other →
            message_of (format_of ⟦<D as Read>⟧) (subject_value self.now) ≡
            message_of (format_of ⟦<D as Read>⟧) other →
            subject_value self.now ≡ other }
    {
        match self {
            Subject::Notarize { proposal } => proposal.encode(alloc),
            Subject::Nullify { round } => round.encode(alloc),
            Subject::Finalize { proposal } => proposal.encode(alloc),
        }
    }
}

impl<D> Roundable for Subject<'_, D> {
    ghost use Rattle.simplex_scheme.specs.Subject.{subject_value};
    ghost use Rattle.simplex_scheme.specs.Subject as subjects;

    ghost round_of = { λ subject. subjects.round_of (subject_value subject) };

    fn round(&self) -> Round {
        match self {
            Subject::Notarize { proposal } | Subject::Finalize { proposal } => proposal.round,
            Subject::Nullify { round } => *round,
        }
    }
}
