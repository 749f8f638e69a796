//! The votes of a certificate that are gathered while it is observed.

ghost use Rattle.std.specs.Prelude.{◌≡◌, ◌&&◌, ◌++◌, [], ◌∷◌, not, OnOk, if◌then◌else◌};
ghost use Rattle.simplex_scheme.specs.Subject.{subject_value};
ghost use Rattle.simplex_evidence.specs.declared.types.activity.Activity as activities;
ghost use Rattle.simplex_rules.specs.Judging.{are_known};
ghost use Rattle.simplex_ballots.specs.Kept.{is_kept, kept_by, kept_from};
ghost use Rattle.simplex_rules.specs.News.{message_on};

use crate::kept::Kept;
use simplex_evidence::types::Activity;
use simplex_rules::judge::Signatures;
use simplex_scheme::scheme::{Attestation, CertificateScheme, Digest, Subject};
use simplex_votes::types::{Finalize, Notarize, Nullify};
use std::alloc::{AllocError, Global};

/// The votes of a certificate that are news, if they are wanted, each as a message of its own.
#[derive(Drop)]
pub struct Apart<S: CertificateScheme, D: Digest> {
    /// Whether they are wanted.
    wanted: bool,
    /// Those so far.
    votes: Vec<Activity<S, D>>,
}

impl<S: CertificateScheme, D: Digest> Apart<S, D> {
    /// No votes yet.
    pub fn new(alloc: Global, wanted: bool) -> Self
        ensures wanted { result.wanted ≡ wanted }
        ensures votes { result.votes.items ≡ [] }
    {
        Apart {
            wanted,
            votes: Vec::new(alloc),
        }
    }

    /// Whether votes are gathered whose signatures are known to be valid or not. The votes of a certificate that is found to
    /// certify its subject are not: it is kept as a whole.
    fn gathers(&self, signatures: Signatures) -> bool
        ensures { result ≡ (self.now.wanted && not (are_known signatures)) }
    {
        self.wanted && !signatures.are_known()
    }

    /// Gathers an attestation of a subject if it was recorded.
    pub fn add_if(
        &mut self,
        recorded: bool,
        signatures: Signatures,
        subject: &Subject<'_, D>,
        attestation: &Attestation<S>,
    ) -> Result<(), AllocError>
        ensures wanted { OnOk result (self.new.wanted ≡ self.old.wanted) }
        ensures votes { OnOk result (self.new.votes.items ≡ self.old.votes.items ++
            (if (self.old.wanted && not (are_known signatures)) && recorded
            then message_on (subject_value subject.now) attestation.now ∷ [] else [])) }
    {
        if !recorded {
            return Ok(());
        }
        if !self.gathers(signatures) {
            return Ok(());
        }
        self.votes.push(message_on(subject, attestation))?;
        Ok(())
    }

    /// What is kept of a message that was observed, which is news or not.
    pub fn news(self, is_news: bool) -> Kept<S, D>
        ensures is_news { is_kept result ≡ is_news }
        ensures kept { (message : activities.Activity S D S.Certificate S.PublicKey S.Signature) →
            kept_by message result ≡ kept_from is_news self.votes.items message }
    {
        if !is_news {
            return Kept::Nothing;
        }
        if self.votes.as_slice().is_empty() {
            return Kept::Whole;
        }
        Kept::Votes(self.votes)
    }
}

/// An attestation of a subject, as a message.
fn message_on<S: CertificateScheme, D: Digest>(
    subject: &Subject<'_, D>,
    attestation: &Attestation<S>,
) -> Activity<S, D>
    ensures { result ≡ message_on (subject_value subject.now) attestation.now }
{
    let (signer, signature) = (attestation.signer, attestation.signature);
    let attestation = Attestation { signer, signature };
    match subject {
        Subject::Notarize { proposal } => Activity::Notarize(Notarize {
            proposal: **proposal,
            attestation,
        }),
        Subject::Nullify { round } => {
            let round = *round;
            Activity::Nullify(Nullify { round, attestation })
        }
        Subject::Finalize { proposal } => Activity::Finalize(Finalize {
            proposal: **proposal,
            attestation,
        }),
    }
}
