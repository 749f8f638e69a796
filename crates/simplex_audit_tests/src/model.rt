//! The auditor by its definition: it lists the valid votes and the subjects of certified messages, and compares any two of each
//! list. It is slow, and there to be compared with. It takes the parts of a message from its bytes itself: each number, each
//! payload and each signature of the marked scheme is one byte.

use crate::outcome::Outcome;
use simplex_audit::audit::Fault;
use simplex_base::codec::{Error, Read};
use simplex_base::positions::{Epoch, Round, View};
use simplex_scheme::scheme::VoteKind;
use std::alloc::{AllocError, Global};

/// The kinds of the first and the second vote of evidence, and the word for it.
const EVIDENCE: [(VoteKind, VoteKind, &str); 3] = [
    (
        VoteKind::Notarize,
        VoteKind::Notarize,
        "conflicting-notarize",
    ),
    (
        VoteKind::Finalize,
        VoteKind::Finalize,
        "conflicting-finalize",
    ),
    (VoteKind::Nullify, VoteKind::Finalize, "nullify-finalize"),
];

/// What a vote or a certificate is for. A nullify has parent and payload 0.
#[derive(Clone, Copy, PartialEq, Eq)]
struct Matter {
    kind: VoteKind,
    round: Round,
    parent: u64,
    payload: u8,
}

impl Matter {
    /// What a vote or a certificate of this kind is for, from its first bytes.
    fn read(kind: VoteKind, bytes: &mut &[u8]) -> Matter {
        let (epoch, view) = (u64::from(byte(bytes)), u64::from(byte(bytes)));
        let round = Round::new(Epoch::new(epoch), View::new(view));
        let (parent, payload) = match kind {
            VoteKind::Nullify => (0, 0),
            _ => (u64::from(byte(bytes)), byte(bytes)),
        };
        Matter {
            kind,
            round,
            parent,
            payload,
        }
    }

    /// Whether two votes contradict, the first being of the first kind in some evidence, and the second of the second.
    fn contradicts(&self, other: &Matter) -> bool {
        EVIDENCE.iter().any(|kinds| self.kind == kinds.0
            && other.kind == kinds.1
            && self.round == other.round
            && *self != *other)
    }
}

/// A valid vote.
#[derive(Clone, Copy)]
struct Vote {
    matter: Matter,
    signer: u32,
}

/// Whom two votes accuse, with the place of the evidence in the order of [`EVIDENCE`], and the line.
#[derive(Drop)]
struct Finding {
    round: Round,
    signer: u32,
    order: usize,
    line: String,
}

/// All valid votes and all that is certified, in the order of the stream.
#[derive(Drop)]
struct Lists {
    votes: Vec<Vote>,
    certified: Vec<Matter>,
}

/// How many participants the committee of each epoch from 0 on has. Later epochs have no committee.
type Sizes<'a> = &'a [usize];

/// What an audit of the stream has to return, under marked committees of these sizes. `T` is the type of the messages, which
/// are read under `bound`.
pub(crate) fn audit_by_definition<T: Read + Drop>(
    alloc: Global,
    sizes: Sizes<'_>,
    bound: &T::Cfg,
    stream: &[u8],
) -> Result<Outcome, AllocError> {
    let mut lists = Lists {
        votes: Vec::new(alloc),
        certified: Vec::new(alloc),
    };
    let (read, fault) = read_messages::<T>(alloc, sizes, bound, stream, &mut lists)?;
    let mut findings = findings_of(alloc, lists.votes.as_slice())?;
    findings.sort_by_key(|finding| (finding.round, finding.signer, finding.order))?;
    let mut text = String::new(alloc);
    for finding in &findings {
        text.push_str(finding.line.as_str())?;
    }
    for round in split_rounds(alloc, lists.certified.as_slice())? {
        let line = split_line(alloc, sizes, round, findings.as_slice())?;
        text.push_str(line.as_str())?;
    }
    Ok(Outcome { text, read, fault })
}

/// Reads messages until the end or the first fault.
fn read_messages<T: Read + Drop>(
    alloc: Global,
    sizes: Sizes<'_>,
    bound: &T::Cfg,
    stream: &[u8],
    lists: &mut Lists,
) -> Result<(usize, Option<Fault>), AllocError> {
    let mut rest: &[u8] = stream;
    // A message has at least one byte, so there are no more messages than bytes.
    for read in 0..stream.len() {
        if rest.is_empty() {
            return Ok((read, None));
        }
        let mut message: &[u8] = rest;
        if let Err(error) = skip::<T>(alloc, bound, &mut rest) {
            let place = stream.len().saturating_sub(rest.len());
            return Ok((read, Some(Fault { place, error })));
        }
        list_message(sizes, &mut message, lists)?;
    }
    Ok((stream.len(), None))
}

/// Moves the slice past the value at its start.
fn skip<T: Read + Drop>(alloc: Global, bound: &T::Cfg, bytes: &mut &[u8]) -> Result<(), Error> {
    T::read_cfg(alloc, bytes, bound)?;
    Ok(())
}

/// Takes the first of the bytes. Returns 0 where there is none.
fn byte(bytes: &mut &[u8]) -> u8 {
    let Some((first, rest)) = bytes.split_first() else {
        return 0;
    };
    *bytes = rest;
    *first
}

/// Appends what is valid of the message that begins the bytes.
fn list_message(sizes: Sizes<'_>, bytes: &mut &[u8], lists: &mut Lists) -> Result<(), AllocError> {
    match byte(bytes) {
        0 => list_vote(sizes, VoteKind::Notarize, bytes, lists),
        1 | 2 => list_certificate(sizes, VoteKind::Notarize, bytes, lists),
        3 => list_vote(sizes, VoteKind::Nullify, bytes, lists),
        4 => list_certificate(sizes, VoteKind::Nullify, bytes, lists),
        5 => list_vote(sizes, VoteKind::Finalize, bytes, lists),
        6 => list_certificate(sizes, VoteKind::Finalize, bytes, lists),
        tag => {
            let (first, second) = match tag {
                7 => (VoteKind::Notarize, VoteKind::Notarize),
                8 => (VoteKind::Finalize, VoteKind::Finalize),
                _ => (VoteKind::Nullify, VoteKind::Finalize),
            };
            list_vote(sizes, first, bytes, lists)?;
            list_vote(sizes, second, bytes, lists)
        }
    }
}

/// The number of participants of the committee of a round, 0 where there is no committee.
fn size_at(sizes: Sizes<'_>, round: Round) -> usize {
    let epoch = round.epoch().get() as usize;
    sizes.get(epoch).copied().unwrap_or(0)
}

/// How many of this many participants may lie.
fn faults_of(participants: usize) -> usize {
    participants.saturating_sub(1) / 3
}

/// Takes an attestation to this, and appends the vote if it is valid: its signature is the mark, and its signer is in the
/// committee of its epoch. Returns whether it is valid.
fn list_attestation(
    sizes: Sizes<'_>,
    matter: Matter,
    bytes: &mut &[u8],
    lists: &mut Lists,
) -> Result<bool, AllocError> {
    let (signer, signature) = (byte(bytes), byte(bytes));
    let is_good = signature == 0xaa && usize::from(signer) < size_at(sizes, matter.round);
    if is_good {
        let signer = u32::from(signer);
        lists.votes.push(Vote { matter, signer })?;
    }
    Ok(is_good)
}

/// Takes a vote, and appends it if it is valid.
fn list_vote(
    sizes: Sizes<'_>,
    kind: VoteKind,
    bytes: &mut &[u8],
    lists: &mut Lists,
) -> Result<(), AllocError> {
    let matter = Matter::read(kind, bytes);
    let _ = list_attestation(sizes, matter, bytes, lists)?;
    Ok(())
}

/// Takes a certificate, and appends its valid votes, and what it is for if a quorum is listed and all are valid.
fn list_certificate(
    sizes: Sizes<'_>,
    kind: VoteKind,
    bytes: &mut &[u8],
    lists: &mut Lists,
) -> Result<(), AllocError> {
    let matter = Matter::read(kind, bytes);
    let (size, listed) = (size_at(sizes, matter.round), byte(bytes));
    let mut are_good = true;
    for _ in 0..listed {
        are_good &= list_attestation(sizes, matter, bytes, lists)?;
    }
    let is_quorum = size > 0 && usize::from(listed) >= size.saturating_sub(faults_of(size));
    if is_quorum && are_good {
        lists.certified.push(matter)?;
    }
    Ok(())
}

/// For each evidence there may be, signer and round the earliest vote of its first kind, and the earliest that contradicts it.
fn findings_of(alloc: Global, votes: &[Vote]) -> Result<Vec<Finding>, AllocError> {
    let mut findings = Vec::new(alloc);
    for (order, (first_kind, second_kind, word)) in EVIDENCE.into_iter().enumerate() {
        for (place, first) in votes.iter().enumerate() {
            let is_earlier = |vote: &Vote| vote.matter.kind == first_kind
                && vote.matter.round == first.matter.round
                && vote.signer == first.signer;
            if first.matter.kind != first_kind || votes.iter().take(place).any(is_earlier) {
                continue;
            }
            let is_second = |vote: &&Vote| vote.matter.kind == second_kind
                && vote.signer == first.signer
                && first.matter.contradicts(&vote.matter);
            if let Some(second) = votes.iter().find(is_second) {
                findings.push(Finding {
                    round: first.matter.round,
                    signer: first.signer,
                    order,
                    line: line_of(alloc, word, first, second)?,
                })?;
            }
        }
    }
    Ok(findings)
}

/// The line that reports two votes.
fn line_of(alloc: Global, word: &str, first: &Vote, second: &Vote) -> Result<String, AllocError> {
    let round = first.matter.round;
    let (epoch, view, signer) = (round.epoch().get(), round.view().get(), first.signer);
    let second = words_of(alloc, second)?;
    if first.matter.kind == VoteKind::Nullify {
        return format!(in alloc; "{epoch} {view} {signer} {word} {second}\n");
    }
    let first = words_of(alloc, first)?;
    format!(in alloc; "{epoch} {view} {signer} {word} {first} {second}\n")
}

/// The parent and the payload of a vote's proposal.
fn words_of(alloc: Global, vote: &Vote) -> Result<String, AllocError> {
    let (parent, payload) = (vote.matter.parent, vote.matter.payload);
    format!(in alloc; "{parent} {payload:02x}")
}

/// The rounds in which two certified messages contradict, each once, in order.
fn split_rounds(alloc: Global, certified: &[Matter]) -> Result<Vec<Round>, AllocError> {
    let mut rounds = Vec::new(alloc);
    for one in certified {
        let is_split = certified.iter().any(|other| one.contradicts(other));
        if is_split && !rounds.contains(&one.round) {
            rounds.push(one.round)?;
        }
    }
    rounds.sort()?;
    Ok(rounds)
}

/// The line that reports a round whose certificates contradict.
fn split_line(
    alloc: Global,
    sizes: Sizes<'_>,
    round: Round,
    findings: &[Finding],
) -> Result<String, AllocError> {
    let mut signers: Vec<u32> = Vec::new(alloc);
    for finding in findings {
        if finding.round == round && !signers.contains(&finding.signer) {
            signers.push(finding.signer)?;
        }
    }
    let (epoch, view) = (round.epoch().get(), round.view().get());
    let least = faults_of(size_at(sizes, round)).saturating_add(1);
    format!(in alloc; "{epoch} {view} split {} {least}\n", signers.len())
}
