//! The recorded certified subjects of a round: enough to tell whether two of its certificates contradict, and no more.

ghost use Rattle.std.specs.Prelude.{◌≡◌, ◌↔◌, ◌&&◌, ◌||◌, ◌++◌, List, [], ◌∷◌, IsTrue, option_map, if◌then◌else◌};
ghost use Rattle.std.specs.Option.{is_some};
ghost use Rattle.simplex_scheme.specs.declared.kind.VoteKind.{VoteKind};
ghost use Rattle.simplex_scheme.specs.Kind.{kind_of};
ghost use Rattle.simplex_scheme.specs.Known.{AreValid};
ghost use Rattle.simplex_scheme.specs.Subject.{SubjectValue, Notarizes, subject_value, round_of};
ghost use Rattle.simplex_rules.specs.Judging.{certified_under, valid_under};
ghost use Rattle.simplex_rules.specs.FirstCertified.{nothing_certified, RecordsFirsts, firsts_of, first_with, changes_firsts, excludes_first, excludes_some};

use crate::judge::{Judge, Signatures};
use simplex_base::positions::Round;
use simplex_scheme::scheme::{Digest, Known, Listing, Proposal, Subject, VoteKind};

/// The first certified subject of each kind in a round, until two contradict, and whether two do.
#[derive(Drop)]
pub struct CertifiedSubjects<D> {
    notarized: Option<Proposal<D>>,
    nullified: Option<Round>,
    finalized: Option<Proposal<D>>,
    split: bool,
}

impl<D: Digest> CertifiedSubjects<D> {
    /// Nothing is certified yet.
    pub fn new() -> Self
        ensures { result ≡ nothing_certified }
    {
        CertifiedSubjects {
            notarized: None,
            nullified: None,
            finalized: None,
            split: false,
        }
    }

    /// Whether nothing is certified.
    pub fn is_empty(&self) -> bool
        ensures { IsTrue result ↔ (self.now ≡ nothing_certified) }
    {
        let none = self.notarized.is_none() && self.nullified.is_none();
        none && self.finalized.is_none() && !self.split
    }

    /// Takes in a certificate of a subject of the round. It is verified only where that can change what is recorded: the round
    /// is not known to be split, and the subject is the first of its kind or contradicts a recorded one. If it was found to
    /// certify the subject, the signatures that it lists are verified by that. Attestations that are known to be valid need not
    /// be verified again.
    pub fn observe<S: Listing<D>, K: Known<S, D>>(
        &mut self,
        judge: &Judge<'_, S>,
        subject: &Subject<'_, D>,
        certificate: &S::Certificate,
        known: &K,
    ) -> Signatures
        ensures records { AreValid (K.known known.now)
            (valid_under S.keys S.good judge.now.judging.now judge.now.committee.now) →
            (subjects : List (SubjectValue D)) →
            RecordsFirsts D.eq subjects (round_of (subject_value subject.now)) self.old →
            RecordsFirsts D.eq (subjects ++
            (if certified_under S.certified judge.now.judging.now judge.now.committee.now
            (subject_value subject.now) certificate.now
            then subject_value subject.now ∷ [] else []))
            (round_of (subject_value subject.now)) self.new }
        // `Verified` exactly where the subject would change what is recorded and the certificate certifies it.
        ensures verified { AreValid (K.known known.now)
            (valid_under S.keys S.good judge.now.judging.now judge.now.committee.now) → result ≡
            (if changes_firsts D.eq (firsts_of self.old) self.old.split (subject_value subject.now) &&
            certified_under S.certified judge.now.judging.now judge.now.committee.now
            (subject_value subject.now) certificate.now
            then Signatures.Verified else Signatures.Unverified) }
    {
        if !self.is_news(subject) {
            return Signatures::Unverified;
        }
        if !judge.certifies(subject, certificate, known) {
            return Signatures::Unverified;
        }
        self.set_first(subject);
        Signatures::Verified
    }

    /// Whether a certified subject of the round would change what is recorded.
    fn is_news(&self, subject: &Subject<'_, D>) -> bool
        ensures { result ≡ changes_firsts D.eq (firsts_of self.now) self.now.split
            (subject_value subject.now) }
    {
        !self.split && (!self.has_first(subject.kind()) || self.excludes(subject))
    }

    /// Whether a subject of this kind is recorded.
    pub fn has_first(&self, kind: VoteKind) -> bool
        ensures { result ≡ is_some (firsts_of self.now kind) }
    {
        match kind {
            VoteKind::Notarize => self.notarized.is_some(),
            VoteKind::Nullify => self.nullified.is_some(),
            VoteKind::Finalize => self.finalized.is_some(),
        }
    }

    /// Whether a recorded subject and this one exclude each other.
    fn excludes(&self, subject: &Subject<'_, D>) -> bool
        ensures { result ≡ excludes_some D.eq (firsts_of self.now) (subject_value subject.now) }
    {
        match subject {
            Subject::Notarize { proposal } => differs(&self.notarized, proposal),
            Subject::Nullify { .. } => self.finalized.is_some(),
            Subject::Finalize { proposal } => {
                self.nullified.is_some() || differs(&self.finalized, proposal)
            }
        }
    }

    /// Records a certified subject of the round if it is the first of its kind, and whether the round is split now.
    fn set_first(&mut self, subject: &Subject<'_, D>)
        ensures firsts { (kind : VoteKind) →
            firsts_of self.new kind ≡
            first_with (subject_value subject.now) kind (firsts_of self.old kind) }
        ensures split { self.new.split ≡
            (self.old.split || excludes_some D.eq (firsts_of self.old)
            (subject_value subject.now)) }
    {
        self.split = self.split || self.excludes(subject);
        if self.has_first(subject.kind()) {
            return;
        }
        match subject {
            Subject::Notarize { proposal } => self.notarized = Some(**proposal),
            Subject::Nullify { round } => self.nullified = Some(*round),
            Subject::Finalize { proposal } => self.finalized = Some(**proposal),
        }
    }

    /// Whether two certified subjects of the round contradict.
    pub fn is_split(&self) -> bool
        ensures { result ≡ self.now.split }
    {
        self.split
    }
}

/// Whether there is a first proposal and this one differs from it.
fn differs<D: Digest>(first: &Option<Proposal<D>>, proposal: &Proposal<D>) -> bool
    ensures { result ≡
        excludes_first D.eq (option_map Notarizes first.now) (Notarizes proposal.now) }
{
    match first {
        None => false,
        Some(first) => *first != *proposal,
    }
}
