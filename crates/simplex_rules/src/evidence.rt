//! The evidence of a report, and the line that reports one.

ghost use Rattle.std.specs.Prelude.{◌≡◌, ⊤, ◌∷◌, [], IfOk, length, string_bytes, decimal};
ghost use Rattle.simplex_base.specs.Format.{format_of};
ghost use Rattle.simplex_scheme.specs.Subject.{round_of};
ghost use Rattle.simplex_rules.specs.Line.{line_of, parted, with_proposal};
ghost use Rattle.simplex_evidence.specs.Activity.{activity_encoding};
ghost use Rattle.simplex_evidence.specs.Conflict.{notarize_evidence, finalize_evidence, nullify_evidence};
ghost use Rattle.simplex_rules.specs.EncodedEvidence.{IsEncoded};
ghost use Rattle.simplex_rules.specs.Values.{activity_of};

use simplex_base::codec::{EncodeSize, Fixed, Read};
use simplex_base::positions::{Participant, Round, Roundable};
use simplex_evidence::types::{ConflictingFinalize, ConflictingNotarize, NullifyFinalize};
use simplex_scheme::scheme::{Digest, Proposal, SchemeTypes};
use simplex_votes::types::Attributable;
use std::alloc::{AllocError, Global};

/// A signer in a round, ordered by round and then by signer.
#[derive(Clone, Copy, Debug, PartialEq, Eq, PartialOrd, Ord, Hash)]
pub struct SignerInRound {
    /// The round.
    pub round: Round,
    /// The signer.
    pub signer: Participant,
}

/// How two votes of a signer in a round contradict, in the order in which a report lists evidence.
#[derive(Clone, Copy, Debug, PartialEq, Eq, PartialOrd, Ord)]
pub enum EquivocationKind {
    /// Two notarizes of different proposals.
    ConflictingNotarize,
    /// Two finalizes of different proposals.
    ConflictingFinalize,
    /// A nullify and a finalize.
    NullifyFinalize,
}

/// Whom an evidence accuses: a signer in a round, and how its votes contradict.
#[derive(Clone, Copy, Debug, PartialEq, Eq, PartialOrd, Ord)]
pub struct Accusation {
    /// The signer, in its round.
    pub accused: SignerInRound,
    /// How its votes contradict.
    pub kind: EquivocationKind,
}

impl SignerInRound {
    /// The signer of a vote, in the vote's round.
    fn of<V: Roundable + Attributable>(vote: &V) -> Self
        ensures { result ≡ record {
          round = V.round_of vote.now;
          signer = V.signer_of vote.now;
        } }
    {
        let (round, signer) = (vote.round(), vote.signer());
        SignerInRound { round, signer }
    }

    /// The numbers of the epoch, of the view and of the signer.
    fn numbers(self) -> (u64, u64, u32)
        ensures { result ≡ (self.round.epoch, self.round.view, self.signer) }
    {
        let (epoch, view) = (self.round.epoch().get(), self.round.view().get());
        (epoch, view, self.signer.get())
    }
}

/// Two votes of one signer in one round that contradict.
#[derive(Drop)]
#[derive_where(PartialEq, Eq)]
#[derive_where(Hash; S::Signature, D)]
pub enum Evidence<S: SchemeTypes, D: Digest> {
    /// Two notarizes of different proposals.
    ConflictingNotarize(ConflictingNotarize<S, D>),
    /// Two finalizes of different proposals.
    ConflictingFinalize(ConflictingFinalize<S, D>),
    /// A nullify and a finalize.
    NullifyFinalize(NullifyFinalize<S, D>),
}

impl<S: SchemeTypes, D: Digest> Evidence<S, D> {
    ghost use Rattle.simplex_rules.specs.Accusation.{accused_by, key_of, way_of};
    ghost use Rattle.simplex_rules.specs.Values.{evidence_value};

    /// The round of the first vote; votes that contradict are of one round.
    pub fn round(&self) -> Round
        ensures { result ≡ round_of (evidence_value self.now).first.subject }
    {
        match self {
            Evidence::ConflictingNotarize(conflict) => conflict.round(),
            Evidence::ConflictingFinalize(conflict) => conflict.round(),
            Evidence::NullifyFinalize(conflict) => conflict.round(),
        }
    }

    /// The participant that signed the first vote; votes that contradict are of one signer.
    pub fn signer(&self) -> Participant
        ensures { result ≡ (evidence_value self.now).first.signer }
    {
        match self {
            Evidence::ConflictingNotarize(conflict) => conflict.signer(),
            Evidence::ConflictingFinalize(conflict) => conflict.signer(),
            Evidence::NullifyFinalize(conflict) => conflict.signer(),
        }
    }

    /// How its two votes contradict.
    pub fn kind(&self) -> EquivocationKind
        ensures { result ≡ way_of (evidence_value self.now).kind }
    {
        match self {
            Evidence::ConflictingNotarize(_) => EquivocationKind::ConflictingNotarize,
            Evidence::ConflictingFinalize(_) => EquivocationKind::ConflictingFinalize,
            Evidence::NullifyFinalize(_) => EquivocationKind::NullifyFinalize,
        }
    }

    /// Whom it accuses.
    pub fn accusation(&self) -> Accusation
        ensures { result ≡ key_of (accused_by (evidence_value self.now)) }
    {
        let (round, signer) = (self.round(), self.signer());
        Accusation {
            accused: SignerInRound { round, signer },
            kind: self.kind(),
        }
    }

    /// The number of bytes that it takes as a message of a stream.
    pub fn encode_size(&self) -> usize
        ensures size { result ≡ length
            (activity_encoding {C = ⊤} D.eq (format_of ⟦<D as Read>⟧) (λ _. [])
            (format_of ⟦<S::Signature as Read>⟧) (activity_of self.now)) }
        ensures encoded { IsEncoded D.eq (format_of ⟦<D as Read>⟧)
            (format_of ⟦<S::Signature as Read>⟧) self.now }
    {
        match self {
            Evidence::ConflictingNotarize(conflict) => 1 + conflict.encode_size(),
            Evidence::ConflictingFinalize(conflict) => 1 + conflict.encode_size(),
            Evidence::NullifyFinalize(conflict) => 1 + conflict.encode_size(),
        }
    }

    /// The line that reports it, without the newline: epoch, view, signer, kind, and the parent and payload of each
    /// proposal, separated by single blanks. Numbers are decimal, payloads in lower-case hexadecimal.
    /// `AllocError` only where an allocation failed.
    pub fn line(&self, alloc: Global) -> Result<String, AllocError>
        ensures { IfOk result (λ line.
            string_bytes line ≡ line_of D.bytes_of (evidence_value self.now)) }
    {
        match self {
            Evidence::ConflictingNotarize(conflict) => conflicting_notarize_line(alloc, conflict),
            Evidence::ConflictingFinalize(conflict) => conflicting_finalize_line(alloc, conflict),
            Evidence::NullifyFinalize(conflict) => nullify_finalize_line(alloc, conflict),
        }
    }
}

/// The line of two notarizes.
fn conflicting_notarize_line<S: SchemeTypes, D: Digest>(
    alloc: Global,
    conflict: &ConflictingNotarize<S, D>,
) -> Result<String, AllocError>
    ensures { IfOk result (λ line.
        string_bytes line ≡ line_of D.bytes_of (notarize_evidence conflict.now)) }
{
    let (first, second) = (conflict.notarize_1(), conflict.notarize_2());
    line_of_two(
        alloc,
        SignerInRound::of(first),
        "conflicting-notarize",
        &first.proposal,
        &second.proposal,
    )
}

/// The line of two finalizes.
fn conflicting_finalize_line<S: SchemeTypes, D: Digest>(
    alloc: Global,
    conflict: &ConflictingFinalize<S, D>,
) -> Result<String, AllocError>
    ensures { IfOk result (λ line.
        string_bytes line ≡ line_of D.bytes_of (finalize_evidence conflict.now)) }
{
    let (first, second) = (conflict.finalize_1(), conflict.finalize_2());
    line_of_two(
        alloc,
        SignerInRound::of(first),
        "conflicting-finalize",
        &first.proposal,
        &second.proposal,
    )
}

/// The line of a nullify and a finalize.
fn nullify_finalize_line<S: SchemeTypes, D: Digest>(
    alloc: Global,
    conflict: &NullifyFinalize<S, D>,
) -> Result<String, AllocError>
    ensures { IfOk result (λ line.
        string_bytes line ≡ line_of D.bytes_of (nullify_evidence conflict.now)) }
{
    let (nullify, finalize) = (conflict.nullify(), conflict.finalize());
    line_of_one(
        alloc,
        SignerInRound::of(nullify),
        "nullify-finalize",
        &finalize.proposal,
    )
}

/// The two words of a proposal.
fn proposal_words<D: Digest>(alloc: Global, proposal: &Proposal<D>) -> Result<String, AllocError>
    ensures { IfOk result (λ words.
        string_bytes words ≡ parted (with_proposal D.bytes_of proposal.now [])) }
{
    let parent = proposal.parent.get();
    let payload = hex::encode(alloc, proposal.payload.as_bytes())?;
    format!(in alloc; "{parent} {payload}")
}

/// The parents and the payloads of two proposals.
fn words_of_two<D: Digest>(
    alloc: Global,
    first: &Proposal<D>,
    second: &Proposal<D>,
) -> Result<String, AllocError>
    ensures { IfOk result (λ words. string_bytes words ≡
        parted (with_proposal D.bytes_of first.now (with_proposal D.bytes_of second.now []))) }
{
    let first = proposal_words(alloc, first)?;
    let second = proposal_words(alloc, second)?;
    format!(in alloc; "{first} {second}")
}

/// The line of two votes for proposals, of a signer in a round.
fn line_of_two<D: Digest>(
    alloc: Global,
    accused: SignerInRound,
    kind: &str,
    first: &Proposal<D>,
    second: &Proposal<D>,
) -> Result<String, AllocError>
    ensures { IfOk result (λ line.
        string_bytes line ≡ parted (decimal accused.round.epoch ∷ decimal accused.round.view ∷
        decimal accused.signer ∷ kind.now ∷
        with_proposal D.bytes_of first.now (with_proposal D.bytes_of second.now []))) }
{
    let (epoch, view, signer) = accused.numbers();
    let proposals = words_of_two(alloc, first, second)?;
    format!(in alloc; "{epoch} {view} {signer} {kind} {proposals}")
}

/// The line of two votes, one of them for a proposal, of a signer in a round.
fn line_of_one<D: Digest>(
    alloc: Global,
    accused: SignerInRound,
    kind: &str,
    proposal: &Proposal<D>,
) -> Result<String, AllocError>
    ensures { IfOk result (λ line.
        string_bytes line ≡ parted (decimal accused.round.epoch ∷ decimal accused.round.view ∷
        decimal accused.signer ∷ kind.now ∷ with_proposal D.bytes_of proposal.now [])) }
{
    let (epoch, view, signer) = accused.numbers();
    let proposal = proposal_words(alloc, proposal)?;
    format!(in alloc; "{epoch} {view} {signer} {kind} {proposal}")
}
