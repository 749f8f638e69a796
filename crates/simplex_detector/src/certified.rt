//! The certified subjects of a round, on the heap once there is one.

ghost use Rattle.std.specs.Prelude.{◌≡◌, ◌↔◌, ◌&&◌, ◌++◌, List, [], ◌∷◌, IsTrue, IfOk, OnOk, if◌then◌else◌};
ghost use Rattle.std.specs.Option.{is_some};
ghost use Rattle.simplex_scheme.specs.Kind.{kind_of};
ghost use Rattle.simplex_scheme.specs.Known.{AreValid};
ghost use Rattle.simplex_scheme.specs.Subject.{SubjectValue, subject_value, round_of};
ghost use Rattle.simplex_rules.specs.Judging.{certified_under, valid_under};
ghost use Rattle.simplex_rules.specs.FirstCertified.{nothing_certified, RecordsFirsts, firsts_of, changes_firsts};

use simplex_rules::certified_subjects::CertifiedSubjects;
use simplex_rules::judge::{Judge, Signatures};
use simplex_scheme::scheme::{Digest, Known, Listing, Subject, VoteKind};
use std::alloc::{AllocError, Global};
use std::marker::Model;

/// The certified subjects of a round. Until there is one they take a pointer.
#[derive(Drop)]
pub struct Certified<D> {
    subjects: Option<Box<CertifiedSubjects<D>>>,
}

impl<D> Model for Certified<D> {
    ghost use Rattle.std.specs.Box.{box_value};
    ghost use Rattle.std.specs.Option.{option_map, unwrap_or};
    ghost use Rattle.simplex_rules.specs.FirstCertified.{nothing_certified};
    ghost use Rattle.simplex_rules.specs.declared.certified_subjects.CertifiedSubjects.{CertifiedSubjects};

    ghost Value = { CertifiedSubjects D };

    ghost view = { λ certified.
        unwrap_or (option_map box_value certified.subjects) nothing_certified };
}

impl<D: Digest> Certified<D> {
    /// Nothing is certified yet. It allocates nothing.
    pub fn new() -> Self
        ensures { result ≡ nothing_certified }
    {
        Certified { subjects: None }
    }

    /// Whether nothing is certified.
    pub fn is_empty(&self) -> bool
        ensures { IsTrue result ↔ (self.now ≡ nothing_certified) }
    {
        match &self.subjects {
            None => true,
            Some(subjects) => subjects.is_empty(),
        }
    }

    /// Whether a subject of this kind is recorded.
    pub fn has_first(&self, kind: VoteKind) -> bool
        ensures { result ≡ is_some (firsts_of self.now kind) }
    {
        match &self.subjects {
            None => false,
            Some(subjects) => subjects.has_first(kind),
        }
    }

    /// Whether two certified subjects of the round contradict.
    pub fn is_split(&self) -> bool
        ensures { result ≡ self.now.split }
    {
        match &self.subjects {
            None => false,
            Some(subjects) => subjects.is_split(),
        }
    }

    /// Takes in a certificate, as [`CertifiedSubjects::observe`] does. `AllocError` only where an allocation failed.
    pub fn observe<S: Listing<D>, K: Known<S, D>>(
        &mut self,
        alloc: Global,
        judge: &Judge<'_, S>,
        subject: &Subject<'_, D>,
        certificate: &S::Certificate,
        known: &K,
    ) -> Result<Signatures, AllocError>
        ensures records { OnOk result (AreValid (K.known known.now)
            (valid_under S.keys S.good judge.now.judging.now judge.now.committee.now) →
            (subjects : List (SubjectValue D)) →
            RecordsFirsts D.eq subjects (round_of (subject_value subject.now)) self.old →
            RecordsFirsts D.eq (subjects ++
            (if certified_under S.certified judge.now.judging.now judge.now.committee.now
            (subject_value subject.now) certificate.now
            then subject_value subject.now ∷ [] else []))
            (round_of (subject_value subject.now)) self.new) }
        ensures verified { IfOk result (λ signatures. AreValid (K.known known.now)
            (valid_under S.keys S.good judge.now.judging.now judge.now.committee.now) →
            signatures ≡
            (if changes_firsts D.eq (firsts_of self.old) self.old.split (subject_value subject.now) &&
            certified_under S.certified judge.now.judging.now judge.now.committee.now
            (subject_value subject.now) certificate.now
            then Signatures.Verified else Signatures.Unverified)) }
    {
        if let Some(subjects) = &mut self.subjects {
            return Ok(subjects.observe(judge, subject, certificate, known));
        }
        let mut subjects = CertifiedSubjects::new();
        let signatures = subjects.observe(judge, subject, certificate, known);
        if subjects.is_empty() {
            return Ok(signatures);
        }
        self.subjects = Some(Box::new(alloc, subjects)?);
        Ok(signatures)
    }
}
